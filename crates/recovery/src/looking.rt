//! Which items find their keys in a live region, by a look at each of its segments.
//!
//! There is no way by the fences yet: before a repair a segment may be empty, and has none then.

ghost use Rattle.std.specs.Prelude.{◌≡◌, ◌+◌, ◌*◌, ◌<◌, ◌≤◌, ◌^◌, length, OnOk, IfOk, IfErr, IsErrOf};
ghost use Rattle.std.specs.FinMap.{contains_key};
ghost use Rattle.station.specs.Bytes.{Same};
ghost use Rattle.station.specs.View.{Told, Rose};
ghost use Rattle.station.specs.Steps.{Steps};
ghost use Rattle.header_gate.specs.Places.{segment_size};
ghost use Rattle.key_slot.specs.Segment.{segment_of};
ghost use Rattle.map_model.specs.Image.{map_of};
ghost use Rattle.range_scan.specs.RegionReading.{page_in};
ghost use Rattle.recovery.specs.OpeningFaults.{IsRepairFault, repair_fault};
ghost use Rattle.recovery.specs.Intents.{AreThere, AlsoIn};
ghost use Rattle.recovery.specs.Opening.{IsReadBack};

use crate::fullness::FLAGS;
use crate::parts::Parts;
use batch_intent::Intent;
use density_rule::Window;
use range_scan::read_page;
use segment::{SegmentView, StoreFault};
use slot_wide::WIDE_SEGMENT_SIZE;
use station::Station;

/// Which of the items find their keys: the live region is read from its start to its end, and each of its segments is validated
/// and searched.
pub(crate) fn find_keys<S: Station>(
    station: &mut S,
    parts: &Parts,
    intent: &Intent,
) -> Result<[bool; FLAGS], StoreFault>
    requires back { IsReadBack parts.now.place parts.now.tally parts.now.index parts.now.frames.journal parts.now.frames.turn
        (S.view station.old) }
    ensures found { IfOk result (λ there. Told (S.view station.old) →
        AreThere intent.now there (contains_key (map_of (S.view station.old).held))) }
    ensures steps { Steps Same (S.view station.old) (S.view station.new) }
    ensures unwritten { (S.view station.new).travel.written ≡ (S.view station.old).travel.written }
    ensures reads { (S.view station.new).travel.read ≤ (S.view station.old).travel.read +
        segment_size parts.now.place.layout * 2 ^ parts.now.tally.height }
    ensures calls { (S.view station.new).calls ≤ (S.view station.old).calls + 2 ^ parts.now.tally.height }
    ensures damaged { IfErr result (λ fault. Told (S.view station.old) → fault ≡ StoreFault.Failed) }
    ensures causes { IfErr result (λ fault. IsRepairFault (repair_fault fault)) }
    ensures failed { IsErrOf result StoreFault.Failed → Rose (S.view station.old).disk_faults (S.view station.new).disk_faults }
{
    let mut page = [0; WIDE_SEGMENT_SIZE];
    let size = parts.place.layout.segment_bytes();
    let mut there = [false; FLAGS];
    for segment in 0..1u32 << parts.tally.height() {
        look_in(
            station,
            parts,
            segment,
            &mut page[..size],
            intent,
            &mut there,
        )?;
    }
    Ok(there)
}

// Reads a segment, and marks the items that find their keys in it.
fn look_in<S: Station>(
    station: &mut S,
    parts: &Parts,
    segment: u32,
    page: &mut [u8],
    intent: &Intent,
    there: &mut [bool; FLAGS],
) -> Result<(), StoreFault>
    requires back { IsReadBack parts.now.place parts.now.tally parts.now.index parts.now.frames.journal parts.now.frames.turn
        (S.view station.old) }
    requires in_store { segment < 2 ^ parts.now.tally.height }
    requires size { length page.old ≡ segment_size parts.now.place.layout }
    ensures found { OnOk result (Told (S.view station.old) →
        AlsoIn intent.now (segment_of parts.now.place.layout.format (page_in parts.now.place.layout parts.now.place.region
        (S.view station.old).held segment)) there.old there.new) }
    ensures steps { Steps Same (S.view station.old) (S.view station.new) }
    ensures unwritten { (S.view station.new).travel.written ≡ (S.view station.old).travel.written }
    ensures reads_one { (S.view station.new).travel.read ≤ (S.view station.old).travel.read +
        segment_size parts.now.place.layout }
    ensures calls { (S.view station.new).calls ≤ (S.view station.old).calls + 1 }
    ensures damaged { IfErr result (λ fault. Told (S.view station.old) → fault ≡ StoreFault.Failed) }
    ensures causes { IfErr result (λ fault. IsRepairFault (repair_fault fault)) }
    ensures failed { IsErrOf result StoreFault.Failed → Rose (S.view station.old).disk_faults (S.view station.new).disk_faults }
{
    let Ok(()) = read_page(
        station,
        &parts.place.layout,
        parts.place.region,
        segment,
        page,
    ) else {
        return Err(StoreFault::Failed);
    };
    let kept = parts.tally.count(Window {
        height: 0,
        number: segment,
    });
    let rows = SegmentView::validate(page, segment, kept)?;
    mark_keys(intent, &rows, there);
    Ok(())
}

// Marks the items whose keys are among these rows.
fn mark_keys(intent: &Intent, rows: &SegmentView<'_>, there: &mut [bool; FLAGS])
    ensures { AlsoIn intent.now rows.now there.old there.new }
{
    for i in 0..intent.len() {
        if rows.find(&intent.item(i).key()).is_ok() {
            there[i as usize] = true;
        }
    }
}
