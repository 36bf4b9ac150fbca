//! The records of the live region, which is read segment after segment, taken one by one.

ghost use Rattle.std.specs.Prelude.{◌≡◌, ◌≢◌, ◌↔◌, ℕ, ◌+◌, ◌^◌, ◌<◌, ◌≤◌, [], ◌++◌, true, length, OnOk, IfOk};
ghost use Rattle.station.specs.View.{Told, EachHeld};
ghost use Rattle.header_gate.specs.Places.{file_length};
ghost use Rattle.key_slot.specs.Format.{wide};
ghost use Rattle.key_slot.specs.declared.sizes.TheConstants.{SEGMENT_SLOTS};
ghost use Rattle.map_model.specs.Image.{array_of};
ghost use Rattle.resize_region.specs.Shares.{places, HasShares, StandsBare, share_in};
ghost use Rattle.resize_region.specs.OldRows.{IsAmongRows, IsInOrder, ReadsRows, rows_left, rows_ahead};

use crate::putting::put_row;
use crate::shares::Wanted;
use crate::widening::WIDE;
use range_scan::{RegionReader, SegmentBuffer, next_counted};
use redo_journal::{Frames, Place};
use segment::StoreFault;
use station::Station;
use window_tally::Tally;

/// Where the reading stands.
#[derive(Drop)]
pub(crate) struct OldRows {
    /// The segments that are still to be read.
    pub reader: RegionReader,
    /// The segment that was read last.
    pub page: SegmentBuffer,
    /// Its records from this index on weren't taken.
    pub index: u32,
}

/// Puts the next records into an empty place of the frames, in slots of format 2.
pub(crate) fn gather<S: Station>(
    station: &mut S,
    place: &Place,
    frames: &mut Frames,
    tally: &Tally,
    rows: &mut OldRows,
    wanted: Wanted,
) -> Result<(), StoreFault>
    requires reach { file_length place.now.layout ≤ (S.view station.old).fixed.reach }
    requires shares { HasShares wide frames.old }
    requires frame { wanted.f < places wide frames.old }
    requires empty { share_in wide wanted.f frames.old ≡ [] }
    requires few { wanted.records ≤ SEGMENT_SLOTS }
    requires among { IsAmongRows place.now tally.now rows.old }
    requires enough { wanted.records ≤ rows_left tally.now.counts rows.old }
    requires order { Told (S.view station.old) → IsInOrder (array_of (S.view station.old).held) rows.old }
    requires stands { EachHeld (StandsBare place.now tally.now) (S.view station.old) }
    ensures shares { OnOk result (HasShares wide frames.new) }
    ensures among { OnOk result (IsAmongRows place.now tally.now rows.new) }
    ensures order { OnOk result (Told (S.view station.old) → IsInOrder (array_of (S.view station.old).held) rows.new) }
    ensures filled { OnOk result (length (share_in wide wanted.f frames.new) ≡ wanted.records) }
    ensures left { OnOk result (wanted.records + rows_left tally.now.counts rows.new ≡ rows_left tally.now.counts rows.old) }
    ensures same { OnOk result (Told (S.view station.old) →
        share_in wide wanted.f frames.new ++ rows_ahead (array_of (S.view station.old).held) rows.new ≡ rows_ahead (array_of (S.view station.old).held) rows.old) }
    ensures others { (i : ℕ) → i ≢ wanted.f → i < places wide frames.old →
        share_in wide i frames.new ≡ share_in wide i frames.old }
    ensures rest { frames.new ≡ record frames.old { slots = frames.new.slots } }
    ensures reads { ReadsRows place.now tally.now result rows.old rows.new (S.view station.old) (S.view station.new) }
{
    let mut have = 0;
    while have < wanted.records {
        if rows.index == rows.page.rows().len() {
            read_on(station, place, tally, rows)?;
        } else {
            let row = rows.page.rows().row(rows.index);
            put_row(frames, WIDE, wanted.f, have, &row);
            rows.index += 1;
            have += 1;
        }
    }
    Ok(())
}

/// Reads the segments that are left and have no records.
pub(crate) fn read_rest<S: Station>(
    station: &mut S,
    place: &Place,
    tally: &Tally,
    rows: &mut OldRows,
) -> Result<(), StoreFault>
    requires reach { file_length place.now.layout ≤ (S.view station.old).fixed.reach }
    requires among { IsAmongRows place.now tally.now rows.old }
    requires none { rows_left tally.now.counts rows.old ≡ 0 }
    requires order { Told (S.view station.old) → IsInOrder (array_of (S.view station.old).held) rows.old }
    requires stands { EachHeld (StandsBare place.now tally.now) (S.view station.old) }
    ensures whole { OnOk result (rows.new.reader.next ≡ 2 ^ tally.now.height) }
    ensures reads { ReadsRows place.now tally.now result rows.old rows.new (S.view station.old) (S.view station.new) }
{
    while read_on(station, place, tally, rows)? {}
    Ok(())
}

// Reads the next segment, once all records of the last one were taken, and answers whether there was one.
fn read_on<S: Station>(
    station: &mut S,
    place: &Place,
    tally: &Tally,
    rows: &mut OldRows,
) -> Result<bool, StoreFault>
    requires reach { file_length place.now.layout ≤ (S.view station.old).fixed.reach }
    requires among { IsAmongRows place.now tally.now rows.old }
    requires used_up { rows.old.index ≡ length rows.old.page.rows }
    requires order { Told (S.view station.old) → IsInOrder (array_of (S.view station.old).held) rows.old }
    requires stands { EachHeld (StandsBare place.now tally.now) (S.view station.old) }
    ensures more { IfOk result (λ more. (more ≡ true) ↔ (rows.old.reader.next < 2 ^ tally.now.height)) }
    ensures next { IfOk result (λ more. more ≡ true → rows.new.reader.next ≡ rows.old.reader.next + 1) }
    ensures among { OnOk result (IsAmongRows place.now tally.now rows.new) }
    ensures order { OnOk result (Told (S.view station.old) → IsInOrder (array_of (S.view station.old).held) rows.new) }
    ensures left { OnOk result (rows_left tally.now.counts rows.new ≡ rows_left tally.now.counts rows.old) }
    ensures same { OnOk result (Told (S.view station.old) →
        rows_ahead (array_of (S.view station.old).held) rows.new ≡ rows_ahead (array_of (S.view station.old).held) rows.old) }
    ensures reads { ReadsRows place.now tally.now result rows.old rows.new (S.view station.old) (S.view station.new) }
{
    if next_counted(&mut rows.reader, tally, station, &mut rows.page)? {
        rows.index = 0;
        Ok(true)
    } else {
        Ok(false)
    }
}
