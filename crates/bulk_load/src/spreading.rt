//! Packed records are spread over the segments of the region that isn't live, in place and without a journal: nothing reads
//! that region yet.
//!
//! The shares are filled from the last one down, out of packed segments that are read from the last one down. The share of
//! segment t begins at record `t * n / m` of `n` that go to `m` segments, which is at most 64 for each segment before it. So
//! where it is written, every packed segment from t on was read.

ghost use Rattle.std.specs.Prelude.{◌≡◌, ◌≢◌, ◌-◌, ℕ, ◌+◌, ◌*◌, ◌/◌, ◌^◌, ◌<◌, ◌≤◌, List, [], length, slice_range, OnOk, IfErr, IsErrOf};
ghost use Rattle.station.specs.View.{Told, Rose};
ghost use Rattle.station.specs.Steps.{Steps};
ghost use Rattle.header_gate.specs.Places.{height_limit, segment_size};
ghost use Rattle.density_rule.specs.declared.TheConstants.{SEGMENT_RECORDS};
ghost use Rattle.key_slot.specs.Record.{Record};
ghost use Rattle.map_model.specs.Array.{segment_at, spread_over};
ghost use Rattle.map_model.specs.Regions.{Spares};
ghost use Rattle.resize_region.specs.Spare.{HasWritten};
ghost use Rattle.resize_region.specs.Shares.{places, HasShares, share_in};
ghost use Rattle.bulk_load.specs.Packing.{CanFill, AreRows, HasPacked, room_in};
ghost use Rattle.bulk_load.specs.Spreading.{used_by, IsPacked, ArePacked, ReadsPacked, HasCause, TriesParts};
ghost use Rattle.segment_frames.specs.SegmentParts.{GoesInParts};
ghost use Rattle.resize_region.specs.Source.{copy_calls};

use crate::packed::{Packed, read_packed, take_last, used_by};
use crate::room::room_of;
use crate::spare::write_spare;
use density_rule::SEGMENT_RECORDS;
use redo_journal::{Frames, Place};
use segment::StoreFault;
use spread_plan::share;
use station::Station;

// Of the segments over which records are spread those that are filled together: `count` of them from `low` on.
#[derive(Clone, Copy)]
struct Part {
    // How many records are spread, and over how many segments.
    records: u32,
    segments: u32,
    low: u32,
    count: u32,
}

// The index of a share among the frames, and how many records it is to have.
#[derive(Clone, Copy)]
struct Target {
    index: u32,
    size: u32,
}

/// Spreads packed records evenly over the first segments of the region that isn't live.
///
/// Half of the frames that are used are read into, and the others are filled and written, a run of segments by one call of the
/// device. Each packed segment is read once, and each segment is written once.
pub(crate) fn spread_spare<S: Station>(
    station: &mut S,
    place: &Place,
    frames: &mut Frames,
    records: u32,
    segments: u32,
) -> Result<(), StoreFault>
    requires can { CanFill place.now frames.old (S.view station.old) }
    requires shares { HasShares place.now.layout.format frames.old }
    requires empty { (i : ℕ) → i < places place.now.layout.format frames.old →
        share_in place.now.layout.format i frames.old ≡ [] }
    requires some { 1 ≤ segments }
    requires inside { segments ≤ 2 ^ height_limit place.now.layout }
    requires room { records ≤ SEGMENT_RECORDS * segments }
    ensures spread { OnOk result (Told (S.view station.old) → (rows : List Record) → AreRows place.now.layout.format rows →
        length rows ≡ records →
        HasPacked place.now rows (used_by records) (S.view station.old).held → HasWritten place.now (spread_over segments rows) segments (S.view station.new).held) }
    ensures journal { frames.new.journal ≡ frames.old.journal }
    ensures turn { frames.new.turn ≡ frames.old.turn }
    ensures steps { Steps (Spares place.now.layout place.now.region) (S.view station.old) (S.view station.new) }
    ensures cost { (S.view station.new).travel.written ≤ (S.view station.old).travel.written +
        segment_size place.now.layout * segments }
    ensures read_bytes { (S.view station.new).travel.read ≤ (S.view station.old).travel.read +
        segment_size place.now.layout * used_by records }
    ensures calls { (S.view station.new).calls ≤ (S.view station.old).calls +
        copy_calls (room_in place.now.layout) (used_by records) segments }
    ensures damaged { IfErr result (λ fault. Told (S.view station.old) → (rows : List Record) →
        AreRows place.now.layout.format rows → length rows ≡ records →
        HasPacked place.now rows (used_by records) (S.view station.old).held → fault ≡ StoreFault.Failed) }
    ensures cause { IfErr result (HasCause place.now.layout.format records frames.new) }
    ensures failed { IsErrOf result StoreFault.Failed → Rose (S.view station.old).disk_faults (S.view station.new).disk_faults }
{
    let all = room_of(&place.layout);
    let mut packed = Packed {
        room: all / 2,
        rest: records,
        unread: used_by(records),
    };
    let room = all - packed.room;
    let mut end = segments;
    while end > 0 {
        let count = room.min(end);
        let part = Part {
            records,
            segments,
            low: end - count,
            count,
        };
        fill_places(station, place, frames, &mut packed, part)?;
        write_spare(station, place, frames, packed.room, end - count, count)?;
        clear_places(frames, place.layout.format, packed.room, room);
        end -= count;
    }
    Ok(())
}

// Fills the places behind those of the packed segments with the shares of segments from `low` on, the last one first.
fn fill_places<S: Station>(
    station: &mut S,
    place: &Place,
    frames: &mut Frames,
    packed: &mut Packed,
    part: Part,
) -> Result<(), StoreFault>
    requires can { CanFill place.now frames.old (S.view station.old) }
    requires fits { part.records ≤ SEGMENT_RECORDS * 2 ^ height_limit place.now.layout }
    requires packed { IsPacked place.now.layout.format part.records frames.old packed.old }
    requires room { part.records ≤ SEGMENT_RECORDS * part.segments }
    requires inside { part.low + part.count ≤ part.segments }
    requires rest { packed.old.rest ≡ (part.low + part.count) * part.records / part.segments }
    requires frames { packed.old.room + part.count ≤ places place.now.layout.format frames.old }
    requires empty { (i : ℕ) → i < part.count → share_in place.now.layout.format (packed.old.room + i) frames.old ≡ [] }
    ensures reads { ReadsPacked place.now part.records result packed.old packed.new frames.old frames.new (S.view station.old)
        (S.view station.new) }
    ensures calls { OnOk result (GoesInParts packed.old.room (used_by part.records) (used_by part.records - packed.old.unread)
        (used_by part.records - packed.new.unread) (S.view station.old).calls (S.view station.new).calls) }
    ensures tried { TriesParts packed.old.room (used_by part.records) (used_by part.records - packed.old.unread)
        (S.view station.old).calls (S.view station.new).calls }
    ensures rest { OnOk result (packed.new.rest ≡ part.low * part.records / part.segments) }
    ensures filled { OnOk result (Told (S.view station.old) → (rows : List Record) →
        ArePacked place.now part.records rows packed.old frames.old (S.view station.old).held →
        (i : ℕ) → i < part.count → share_in place.now.layout.format (packed.old.room + i) frames.new ≡ segment_at (spread_over part.segments rows) (part.low + i)) }
{
    let mut f = part.count;
    while f > 0 {
        f -= 1;
        let size = share(part.records, part.segments, part.low + f);
        let to = Target {
            index: packed.room + f,
            size,
        };
        fill_share(station, place, frames, packed, part.records, to)?;
    }
    Ok(())
}

// Fills an empty place with the last packed records, as many as are to be in a share.
fn fill_share<S: Station>(
    station: &mut S,
    place: &Place,
    frames: &mut Frames,
    packed: &mut Packed,
    records: u32,
    to: Target,
) -> Result<(), StoreFault>
    requires can { CanFill place.now frames.old (S.view station.old) }
    requires fits { records ≤ SEGMENT_RECORDS * 2 ^ height_limit place.now.layout }
    requires packed { IsPacked place.now.layout.format records frames.old packed.old }
    requires behind { packed.old.room ≤ to.index }
    requires frame { to.index < places place.now.layout.format frames.old }
    requires none { share_in place.now.layout.format to.index frames.old ≡ [] }
    requires few { to.size ≤ SEGMENT_RECORDS }
    requires enough { to.size ≤ packed.old.rest }
    ensures reads { ReadsPacked place.now records result packed.old packed.new frames.old frames.new (S.view station.old)
        (S.view station.new) }
    ensures calls { OnOk result (GoesInParts packed.old.room (used_by records) (used_by records - packed.old.unread)
        (used_by records - packed.new.unread) (S.view station.old).calls (S.view station.new).calls) }
    ensures tried { TriesParts packed.old.room (used_by records) (used_by records - packed.old.unread) (S.view station.old).calls
        (S.view station.new).calls }
    ensures rest { OnOk result (packed.new.rest + to.size ≡ packed.old.rest) }
    ensures filled { OnOk result (Told (S.view station.old) → (rows : List Record) →
        ArePacked place.now records rows packed.old frames.old (S.view station.old).held →
        share_in place.now.layout.format to.index frames.new ≡ slice_range rows packed.new.rest packed.old.rest) }
    ensures others { OnOk result ((i : ℕ) → packed.old.room ≤ i → i < places place.now.layout.format frames.old → i ≢ to.index →
        share_in place.now.layout.format i frames.new ≡ share_in place.now.layout.format i frames.old) }
{
    let mut have = 0;
    while have < to.size {
        if packed.rest <= SEGMENT_RECORDS * packed.unread {
            read_packed(station, place, frames, packed, records)?;
        } else {
            have += take_last(
                frames,
                place.layout.format,
                packed,
                to.index,
                have,
                to.size - have,
            );
        }
    }
    Ok(())
}

// Empties places from `first` on.
fn clear_places(frames: &mut Frames, format: u32, first: u32, count: u32)
    requires shares { HasShares format frames.old }
    requires room { first + count ≤ places format frames.old }
    ensures shares { HasShares format frames.new }
    ensures empty { (i : ℕ) → i < count → share_in format (first + i) frames.new ≡ [] }
    ensures others { (i : ℕ) → i < first → share_in format i frames.new ≡ share_in format i frames.old }
    ensures rest { frames.new ≡ record frames.old { slots = frames.new.slots } }
{
    let size = SEGMENT_RECORDS as usize * format as usize;
    frames.clear_run(size * first as usize, size * count as usize);
}
