//! The records of the live region are written into the other one at format 2, spread evenly.

ghost use Rattle.std.specs.Prelude.{◌≡◌, ℕ, ◌+◌, ◌-◌, ◌*◌, ◌^◌, ◌<◌, ◌≤◌, [], sum, OnOk, IfErr, IsErrOf};
ghost use Rattle.station.specs.View.{Told, EachHeld, Rose};
ghost use Rattle.station.specs.Steps.{Steps};
ghost use Rattle.header_gate.specs.Places.{IsLayout, file_length, height_limit, segment_size};
ghost use Rattle.key_slot.specs.Format.{wide};
ghost use Rattle.key_slot.specs.Segment.{FitsSegment, IsSegment};
ghost use Rattle.map_model.specs.Array.{rows};
ghost use Rattle.map_model.specs.Image.{array_of};
ghost use Rattle.map_model.specs.Regions.{Spares};
ghost use Rattle.redo_journal.specs.Commit.{IsAt};
ghost use Rattle.resize_region.specs.Spare.{WritesSpare, spare_bytes};
ghost use Rattle.resize_region.specs.OldRows.{IsAmongRows, IsInOrder, rows_left};
ghost use Rattle.resize_region.specs.Shares.{places, HasShares, share_in};
ghost use Rattle.resize_region.specs.Source.{Walks};
ghost use Rattle.resize_region.specs.Upgraded.{widened, in_wide};
ghost use Rattle.resize_region.specs.Widening.{CanWiden, WritesWide};
ghost use Rattle.segment_frames.specs.SegmentParts.{parts};
ghost use Rattle.segment_frames.specs.Lists.{most_segments};

use crate::copying::{fits_more, write_shares};
use crate::old_rows::{OldRows, gather, read_rest};
use crate::resizing::segments_at;
use crate::shares::{Spread, Wanted, clear_shares, start_shares};
use header_gate::Layout;
use range_scan::{RegionReader, SegmentBuffer};
use redo_journal::{Frames, Place};
use segment::StoreFault;
use spread_plan::share;
use station::Station;
use window_tally::Tally;

/// The slot format that an upgrade makes: a store begins in format 1, and 2 is the only other one.
pub const WIDE: u32 = 2;

/// Writes the records of a store of format 1 into `segments` segments of format 2 of the other region. Each old segment is
/// read once and validated.
pub(crate) fn copy_wide<S: Station>(
    station: &mut S,
    place: &Place,
    frames: &mut Frames,
    tally: &Tally,
    records: u32,
    segments: u32,
) -> Result<(), StoreFault>
    requires can { CanWiden place.now tally.now segments frames.old (S.view station.old) }
    requires height { tally.now.height ≤ height_limit place.now.layout }
    requires records { records ≡ sum tally.now.counts }
    ensures writes { WritesWide result place.now tally.now segments frames.old frames.new (S.view station.old)
        (S.view station.new) }
    ensures whole { OnOk result (Walks place.now 0 (2 ^ tally.now.height) (S.view station.old).travel
        (S.view station.new).travel) }
    ensures calls { (S.view station.new).calls ≤ (S.view station.old).calls + (2 ^ tally.now.height +
        parts (most_segments (widened place.now.layout)) segments) }
    ensures reads { (n : ℕ) × (n ≤ 2 ^ tally.now.height) ×
        Walks place.now 0 n (S.view station.old).travel (S.view station.new).travel }
{
    let mut rows = OldRows {
        reader: RegionReader::new(place.layout, place.region, 0, segments_at(tally.height())),
        page: SegmentBuffer::new(),
        index: 0,
    };
    let spread = Spread { records, segments };
    write_wide(station, place, frames, tally, &mut rows, spread)?;
    read_rest(station, place, tally, &mut rows)
}

// Writes all records, and reads the segments in which they stand.
fn write_wide<S: Station>(
    station: &mut S,
    place: &Place,
    frames: &mut Frames,
    tally: &Tally,
    rows: &mut OldRows,
    spread: Spread,
) -> Result<(), StoreFault>
    requires can { CanWiden place.now tally.now spread.segments frames.old (S.view station.old) }
    requires records { spread.records ≡ sum tally.now.counts }
    requires among { IsAmongRows place.now tally.now rows.old }
    requires start { rows.old.reader.next ≡ 0 }
    requires none { rows.old.page.rows ≡ [] }
    requires order { Told (S.view station.old) → IsInOrder (array_of (S.view station.old).held) rows.old }
    ensures among { OnOk result (IsAmongRows place.now tally.now rows.new) }
    ensures done { OnOk result (rows_left tally.now.counts rows.new ≡ 0) }
    ensures order { OnOk result (Told (S.view station.old) → IsInOrder (array_of (S.view station.old).held) rows.new) }
    ensures writes { WritesWide result place.now tally.now spread.segments frames.old frames.new (S.view station.old)
        (S.view station.new) }
    ensures upto { rows.new.reader.next ≤ 2 ^ tally.now.height }
    ensures calls { (S.view station.new).calls ≤ (S.view station.old).calls + (rows.new.reader.next +
        parts (most_segments (widened place.now.layout)) spread.segments) }
    ensures reads { Walks place.now 0 rows.new.reader.next (S.view station.old).travel (S.view station.new).travel }
{
    let all = place.layout.journal / WIDE;
    start_shares(frames, WIDE, all);
    let mut f = 0;
    let mut t = 0;
    while t < spread.segments {
        let wanted = Wanted {
            f,
            records: share(spread.records, spread.segments, t),
        };
        gather(station, place, frames, tally, rows, wanted)?;
        f += 1;
        t += 1;
        if !fits_more(f, all, t, spread.segments) {
            write_places(station, place, frames, t - f, f)?;
            clear_shares(frames, WIDE, f);
            f = 0;
        }
    }
    Ok(())
}

// Writes the first places to the segments of format 2 of the other region from `first` on, by one call of the device.
fn write_places<S: Station>(
    station: &mut S,
    place: &Place,
    frames: &Frames,
    first: u32,
    count: u32,
) -> Result<(), StoreFault>
    requires layout { IsLayout (widened place.now.layout) }
    requires region { place.now.region < 2 }
    requires reach { file_length (widened place.now.layout) ≤ (S.view station.old).fixed.reach }
    requires shares { HasShares wide frames.now }
    requires some { 1 ≤ count }
    requires room { count ≤ places wide frames.now }
    requires inside { first + count ≤ 2 ^ height_limit (widened place.now.layout) }
    requires live { EachHeld (IsAt place.now) (S.view station.old) }
    ensures steps { Steps (Spares place.now.layout place.now.region) (S.view station.old) (S.view station.new) }
    ensures written { OnOk result (Told (S.view station.old) → (i : ℕ) → i < count →
        FitsSegment wide (share_in wide i frames.now) →
        IsSegment wide (share_in wide i frames.now) (spare_bytes (in_wide place.now) (first + i) (S.view station.new).held)) }
    ensures others { Told (S.view station.old) → (i : ℕ) → i < first →
        spare_bytes (in_wide place.now) i (S.view station.new).held ≡
        spare_bytes (in_wide place.now) i (S.view station.old).held }
    ensures writes { WritesSpare (segment_size (widened place.now.layout) * count) (S.view station.old) (S.view station.new) }
    ensures fault { IfErr result (λ fault. fault ≡ StoreFault.Failed) }
    ensures failed { IsErrOf result StoreFault.Failed → Rose (S.view station.old).disk_faults (S.view station.new).disk_faults }
{
    let in_wide = Place {
        layout: widened(&place.layout),
        region: place.region,
    };
    write_shares(station, &in_wide, frames, first, count)
}

/// The layout with slots of format 2.
pub(crate) fn widened(layout: &Layout) -> Layout
    ensures { result ≡ widened layout.now }
{
    Layout {
        hmax: layout.hmax,
        journal: layout.journal,
        version: layout.version,
        format: WIDE,
    }
}
