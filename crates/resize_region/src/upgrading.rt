//! A store goes over from slot format 1 to format 2.

ghost use Rattle.std.specs.Prelude.{◌≡◌, ◌↔◌, ◌⊎◌, ℕ, ◌+◌, ◌-◌, ◌*◌, ◌^◌, ◌<◌, ◌≤◌, sum, Ok, Some, None, OnOk, IfOk, IfErr, IsErrOf};
ghost use Rattle.station.specs.View.{Told, EachHeld, NothingPending, Rose};
ghost use Rattle.station.specs.Steps.{Steps};
ghost use Rattle.density_rule.specs.Bounds.{upper_of};
ghost use Rattle.density_rule.specs.Spread.{resized_counts};
ghost use Rattle.header_gate.specs.declared.layout.Layout.{Layout};
ghost use Rattle.header_gate.specs.InPlace.{IsBare};
ghost use Rattle.header_gate.specs.Places.{IsLayout, file_length, height_limit, segment_size};
ghost use Rattle.key_slot.specs.Format.{narrow, wide};
ghost use Rattle.map_model.specs.Array.{resized};
ghost use Rattle.map_model.specs.Image.{array_of};
ghost use Rattle.map_model.specs.Standing.{StandsWith};
ghost use Rattle.range_scan.specs.SegmentFaults.{IsDamageAt};
ghost use Rattle.redo_journal.specs.Rest.{RestsAt};
ghost use Rattle.segment_frames.specs.FrameStanding.{StandsFor};
ghost use Rattle.resize_region.specs.Resizing.{CanResize};
ghost use Rattle.resize_region.specs.Source.{Walks};
ghost use Rattle.resize_region.specs.Upgraded.{Upgrades, TooManyFor, widened, upgraded, upgraded_height};
ghost use Rattle.resize_region.specs.Widening.{SpreadsWide, widen_calls};

use crate::outcome::Upgrade;
use crate::resizing::{make_live, segments_at};
use crate::widening::{WIDE, copy_wide};
use density_rule::{Window, upper};
use header_gate::Layout;
use redo_journal::{Frames, Place};
use segment::StoreFault;
use station::Station;
use window_tally::Tally;

/// Spreads the records of a store of slot format 1 evenly over the other region in slots of format 2, and makes that one
/// the live region. A segment of format 2 has two pages, so a region holds half as many: the height stays, or becomes the
/// greatest that these can have.
///
/// The other region is written first, and then a flip names it with its format. So whatever a crash leaves represents the
/// same map, by the old array or by the new one. Each segment of the live region is read once, in order, and validated.
///
/// On `Done` the place names the other region and format 2; no other answer changes it. `Already`, `OneSegment` and
/// `TooMany` come of layout and tally alone, and no call of the station is made. `Damaged` is never answered if the
/// station tells its bytes. After every answer the frames hold anything.
pub fn upgrade<S: Station>(
    station: &mut S,
    place: &mut Place,
    frames: &mut Frames,
    tally: &Tally,
) -> Result<Upgrade, StoreFault>
    requires layout { IsLayout place.old.layout }
    requires region { place.old.region < 2 }
    requires reach { file_length place.old.layout ≤ (S.view station.old).fixed.reach }
    requires journal { frames.old.journal ≡ place.old.layout.journal }
    requires hmax { tally.now.hmax ≡ height_limit place.old.layout }
    requires stands { EachHeld (StandsFor place.old tally.now) (S.view station.old) }
    requires nothing { NothingPending (S.view station.old) }
    requires bare { Told (S.view station.old) → IsBare place.old.layout (S.view station.old).held }
    requires rests { RestsAt place.old.layout frames.old.turn (S.view station.old) }

    // `Already` comes exactly if the slot format is 2, `OneSegment` exactly if it is 1 and the height limit is 0.
    ensures already { (result ≡ Ok Upgrade.Already) ↔ (place.old.layout.format ≡ wide) }
    ensures one_segment { (result ≡ Ok Upgrade.OneSegment) ↔ ((place.old.layout.format ≡ narrow) × (place.old.layout.hmax ≡ 0)) }
    // `TooMany` comes exactly if the slot format is 1, the height limit is at least 1, and the records are more than half as many
    // segments may hold; it has their number.
    ensures too_many { (n : ℕ) → (result ≡ Ok (Upgrade.TooMany n)) ↔ TooManyFor place.old.layout (sum tally.now.counts) n }
    // At any Ok but `Done` the station stays as it was: no call is made.
    ensures untouched { IfOk result (λ answer. (answer ≡ Upgrade.Done → ⊥) → station.new ≡ station.old) }

    // At every moment, and in the held bytes whatever is answered, the file represents the same map, in the old array or in the
    // new one at format 2; no byte differs but those of the selector, the other copy and the other region.
    ensures steps { Steps (Upgrades place.old (upgraded_height place.old.layout tally.now.height)) (S.view station.old)
        (S.view station.new) }
    // On Ok nothing is pending, and the station is at rest.
    ensures settled { OnOk result (NothingPending (S.view station.new)) }
    ensures rests { OnOk result (RestsAt place.new.layout frames.new.turn (S.view station.new)) }

    // At `Done` the array is that of all records spread evenly over the height that the store had, or the greatest at format 2 if
    // that is less; place, height and counts agree with the file.
    ensures array { result ≡ Ok Upgrade.Done → Told (S.view station.old) → array_of (S.view station.new).held ≡
        resized (array_of (S.view station.old).held) (upgraded_height place.old.layout tally.now.height) }
    ensures stands { let height = upgraded_height place.old.layout tally.now.height in
        result ≡ Ok Upgrade.Done → EachHeld (StandsWith place.new.layout place.new.region height (resized_counts tally.now.counts height)) (S.view station.new) }
    // At `Done` the place names the other region and format 2; at any other answer it stays.
    ensures place { result ≡ Ok Upgrade.Done → place.new ≡ upgraded place.old }
    ensures place_kept { (result ≡ Ok Upgrade.Done → ⊥) → place.new ≡ place.old }
    // The frames keep their room and the gate that they note.
    ensures same_journal { frames.new.journal ≡ frames.old.journal }
    ensures same_turn { frames.new.turn ≡ frames.old.turn }
    // At most `8192 * 2^h + 9` bytes are written, for the new height h.
    ensures cost { (S.view station.new).travel.written ≤ (S.view station.old).travel.written +
        (segment_size (widened place.old.layout) * 2 ^ upgraded_height place.old.layout tally.now.height + 9) }
    // The live region is read in one direction, each segment at most once.
    ensures reads { (n : ℕ) × (n ≤ 2 ^ tally.now.height) ×
        Walks place.old 0 n (S.view station.old).travel (S.view station.new).travel }
    // At `Done` the whole live region was read, in one direction, each segment once.
    ensures whole { result ≡ Ok Upgrade.Done → Walks place.old 0 (2 ^ tally.now.height) (S.view station.old).travel
        (S.view station.new).travel }

    // At most one call for each old segment, one for each n new ones, rounded up, if the frames have room for n of format 2, and
    // four for a flip.
    ensures calls { (S.view station.new).calls ≤ (S.view station.old).calls + widen_calls place.old tally.now.height }

    // If the station tells its bytes, no segment is found damaged.
    ensures damaged { IfErr result (λ fault. Told (S.view station.old) → fault ≡ StoreFault.Failed) }
    // `Damaged` is that of the segment that was read last: a bad slot, another number of records than is kept, or its order.
    ensures cause { IfErr result (λ fault. (i : ℕ) × (i < 2 ^ tally.now.height) × IsDamageAt i tally.now.counts fault) }
    ensures last { IfErr result (λ fault. (fault ≡ StoreFault.Failed) ⊎ ((i : ℕ) × IsDamageAt i tally.now.counts fault
        × Walks place.old 0 (i + 1) (S.view station.old).travel (S.view station.new).travel)) }
    // `Failed` comes only if the count of disk faults rose.
    ensures failed { IsErrOf result StoreFault.Failed → Rose (S.view station.old).disk_faults (S.view station.new).disk_faults }
{
    let root = Window {
        height: tally.height(),
        number: 0,
    };
    let records = tally.count(root);
    if let Some(answer) = refusal(&place.layout, records) {
        return Ok(answer);
    }
    widen(station, place, frames, tally, records)?;
    Ok(Upgrade::Done)
}

/// Why a store of this many records isn't upgraded, or None if it is.
pub fn refusal(layout: &Layout, records: u32) -> Option<Upgrade>
    requires { IsLayout layout.now }
    // `Already` comes exactly if the slot format is 2, `OneSegment` exactly if it is 1 and the height limit is 0.
    ensures already { (result ≡ Some Upgrade.Already) ↔ (layout.now.format ≡ wide) }
    ensures one_segment { (result ≡ Some Upgrade.OneSegment) ↔ ((layout.now.format ≡ narrow) × (layout.now.hmax ≡ 0)) }
    // `TooMany` comes exactly if the slot format is 1, the height limit is at least 1, and the records are more than half as many
    // segments may hold; it has their number.
    ensures too_many { (n : ℕ) → (result ≡ Some (Upgrade.TooMany n)) ↔ TooManyFor layout.now records n }
    // `Done` is never the reason.
    ensures done { result ≡ Some Upgrade.Done → ⊥ }
    // At None the slot format is 1, the height limit is at least 1, and the records are no more than half as many segments may
    // hold.
    ensures narrow { result ≡ None → layout.now.format ≡ narrow }
    ensures limit { result ≡ None → 1 ≤ layout.now.hmax }
    ensures few { result ≡ None → records ≤ upper_of (layout.now.hmax - 1) }
{
    if layout.format == WIDE {
        return Some(Upgrade::Already);
    }
    if layout.hmax == 0 {
        return Some(Upgrade::OneSegment);
    }
    if records > upper(layout.hmax - 1) {
        return Some(Upgrade::TooMany { records });
    }
    None
}

// Spreads the records over the other region at format 2, and makes that one the live region.
fn widen<S: Station>(
    station: &mut S,
    place: &mut Place,
    frames: &mut Frames,
    tally: &Tally,
    records: u32,
) -> Result<(), StoreFault>
    requires can { CanResize place.old tally.now frames.old (S.view station.old) }
    requires narrow { place.old.layout.format ≡ narrow }
    requires limit { 1 ≤ place.old.layout.hmax }
    requires height { tally.now.height ≤ place.old.layout.hmax }
    requires records { records ≡ sum tally.now.counts }
    requires few { records ≤ upper_of (place.old.layout.hmax - 1) }
    ensures same_journal { frames.new.journal ≡ frames.old.journal }
    ensures same_turn { frames.new.turn ≡ frames.old.turn }
    ensures spread { SpreadsWide result place.old place.new tally.now (S.view station.old) (S.view station.new) }
{
    let height = tally.height().min(place.layout.hmax - 1);
    let other = 1 - place.region;
    copy_wide(station, place, frames, tally, records, segments_at(height))?;
    make_live(station, other, height, WIDE)?;
    place.layout.format = WIDE;
    place.region = other;
    Ok(())
}
