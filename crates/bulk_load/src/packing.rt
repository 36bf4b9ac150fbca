//! Records are packed into the region that isn't live, 64 a segment, in the order in which they come.

ghost use Rattle.std.specs.Prelude.{◌≡◌, ℕ, ◌+◌, ◌-◌, ◌*◌, ◌^◌, ◌<◌, ◌≤◌, true, List, [], ◌∷◌, ◌++◌, OnOk, IfErr, IsErrOf, T};
ghost use Rattle.station.specs.View.{Told, Rose};
ghost use Rattle.station.specs.Steps.{Steps};
ghost use Rattle.header_gate.specs.Places.{height_limit, segment_size};
ghost use Rattle.density_rule.specs.declared.TheConstants.{SEGMENT_RECORDS};
ghost use Rattle.key_slot.specs.Record.{Record, is_record};
ghost use Rattle.key_slot.specs.Row.{record_of};
ghost use Rattle.map_model.specs.FileReasons.{begins_above};
ghost use Rattle.map_model.specs.Regions.{Spares};
ghost use Rattle.bulk_load.specs.Packing.{room_in, CanFill, IsTaken, HasPlace, HasPacked, TriesRun, WritesPacked, WritesRuns};
ghost use Rattle.bulk_load.specs.Spreading.{used_by};
ghost use Rattle.segment_frames.specs.SegmentParts.{GoesInParts};

use crate::packed::used_by;
use crate::room::room_of;
use density_rule::SEGMENT_RECORDS;
use key_slot::{Key, Row};
use redo_journal::{Frames, Place};
use resize_region::{clear_shares, put_row, write_shares};
use segment::StoreFault;
use station::Station;

/// What was taken of a text.
#[derive(Clone, Copy)]
pub(crate) struct Taken {
    /// How many records.
    pub records: u32,
    /// How many segments of them are written. The next ones are in the frames.
    pub written: u32,
    /// The last key.
    pub last: Option<Key>,
    /// Whether the line with their number was met.
    pub ended: bool,
}

/// Packs a record behind the others. If all frames that are used are full then, they are written.
pub(crate) fn pack<S: Station>(
    station: &mut S,
    place: &Place,
    frames: &mut Frames,
    taken: &mut Taken,
    row: &Row,
) -> Result<(), StoreFault>
    requires can { CanFill place.now frames.old (S.view station.old) }
    requires taken { (rows : List Record) × IsTaken place.now.layout taken.old frames.old rows }
    requires place { HasPlace place.now.layout taken.old }
    requires room { taken.old.records < SEGMENT_RECORDS * 2 ^ height_limit place.now.layout }
    requires above { begins_above taken.old.last (record_of row.now ∷ []) ≡ true }
    requires fits { T (is_record place.now.layout.format (record_of row.now)) }
    ensures taken { OnOk result ((rows : List Record) → IsTaken place.now.layout taken.old frames.old rows →
        IsTaken place.now.layout taken.new frames.new (rows ++ record_of row.now ∷ [])) }
    ensures packed { OnOk result (Told (S.view station.old) → (rows : List Record) →
        IsTaken place.now.layout taken.old frames.old rows →
        HasPacked place.now rows taken.old.written (S.view station.old).held → HasPacked place.now (rows ++ record_of row.now ∷ []) taken.new.written (S.view station.new).held) }
    ensures place { OnOk result (HasPlace place.now.layout taken.new) }
    ensures count { OnOk result (taken.new.records ≡ taken.old.records + 1) }
    ensures ended { taken.new.ended ≡ taken.old.ended }
    ensures onward { OnOk result (taken.old.written ≤ taken.new.written) }
    ensures journal { frames.new.journal ≡ frames.old.journal }
    ensures turn { frames.new.turn ≡ frames.old.turn }
    ensures steps { Steps (Spares place.now.layout place.now.region) (S.view station.old) (S.view station.new) }
    ensures cost { OnOk result ((S.view station.new).travel.written ≤ (S.view station.old).travel.written +
        segment_size place.now.layout * (taken.new.written - taken.old.written)) }
    ensures calls { OnOk result (WritesRuns (room_in place.now.layout) taken.old.written taken.new.written
        (S.view station.old).calls (S.view station.new).calls) }
    ensures most_cost { (S.view station.new).travel.written ≤ (S.view station.old).travel.written +
        segment_size place.now.layout * (2 ^ height_limit place.now.layout - taken.old.written) }
    ensures tried { TriesRun place.now.layout taken.old (S.view station.old).calls (S.view station.new).calls }
    ensures no_reads { (S.view station.new).travel ≡
        record (S.view station.old).travel { written = (S.view station.new).travel.written } }
    ensures fault { IfErr result (λ fault. fault ≡ StoreFault.Failed) }
    ensures failed { IsErrOf result StoreFault.Failed → Rose (S.view station.old).disk_faults (S.view station.new).disk_faults }
{
    let all = room_of(&place.layout);
    let slot = taken.records - SEGMENT_RECORDS * taken.written;
    put_row(
        frames,
        place.layout.format,
        slot / SEGMENT_RECORDS,
        slot % SEGMENT_RECORDS,
        row,
    );
    taken.records += 1;
    taken.last = Some(row.key);
    if slot + 1 < SEGMENT_RECORDS * all {
        return Ok(());
    }
    flush(station, place, frames, taken, all)
}

// Writes the first places behind the segments that are written, and empties them. They hold all records that aren't written.
fn flush<S: Station>(
    station: &mut S,
    place: &Place,
    frames: &mut Frames,
    taken: &mut Taken,
    count: u32,
) -> Result<(), StoreFault>
    requires can { CanFill place.now frames.old (S.view station.old) }
    requires taken { (rows : List Record) × IsTaken place.now.layout taken.old frames.old rows }
    requires some { 1 ≤ count }
    requires few { count ≤ room_in place.now.layout }
    requires inside { taken.old.written + count ≤ 2 ^ height_limit place.now.layout }
    requires all { taken.old.records ≤ SEGMENT_RECORDS * (taken.old.written + count) }
    ensures writes { WritesPacked place.now result taken.old taken.new frames.old frames.new (S.view station.old)
        (S.view station.new) }
    ensures written { OnOk result (taken.new.written ≡ taken.old.written + count) }
    ensures calls { (S.view station.new).calls ≤ (S.view station.old).calls + 1 }
    ensures cost { (S.view station.new).travel.written ≤ (S.view station.old).travel.written +
        segment_size place.now.layout * count }
{
    write_shares(station, place, frames, taken.written, count)?;
    clear_shares(frames, place.layout.format, count);
    taken.written += count;
    Ok(())
}

/// Writes the records that aren't written yet.
pub(crate) fn flush_rest<S: Station>(
    station: &mut S,
    place: &Place,
    frames: &mut Frames,
    taken: &mut Taken,
) -> Result<(), StoreFault>
    requires can { CanFill place.now frames.old (S.view station.old) }
    requires taken { (rows : List Record) × IsTaken place.now.layout taken.old frames.old rows }
    requires behind { SEGMENT_RECORDS * taken.old.written ≤ taken.old.records }
    requires room { taken.old.records ≤ SEGMENT_RECORDS * 2 ^ height_limit place.now.layout }
    ensures writes { WritesPacked place.now result taken.old taken.new frames.old frames.new (S.view station.old)
        (S.view station.new) }
    ensures written { OnOk result (taken.new.written ≡ used_by taken.old.records) }
    ensures calls { GoesInParts (room_in place.now.layout) (used_by taken.old.records) taken.old.written
        (used_by taken.old.records) (S.view station.old).calls (S.view station.new).calls }
    ensures cost { (S.view station.new).travel.written ≤ (S.view station.old).travel.written +
        segment_size place.now.layout * (used_by taken.old.records - taken.old.written) }
{
    let rest = taken.records - SEGMENT_RECORDS * taken.written;
    if rest == 0 {
        return Ok(());
    }
    flush(station, place, frames, taken, used_by(rest))
}
