//! Packed segments are read from the last one down, and their records are taken from the last one down.

ghost use Rattle.std.specs.Prelude.{◌≡◌, ◌≢◌, ℕ, ◌+◌, ◌-◌, ◌*◌, ◌^◌, ◌<◌, ◌≤◌, List, ◌++◌, length, slice_range, OnOk, IfErr};
ghost use Rattle.station.specs.View.{Told};
ghost use Rattle.header_gate.specs.Places.{IsSlotFormat, height_limit};
ghost use Rattle.key_slot.specs.Record.{Record};
ghost use Rattle.redo_journal.specs.Frames.{IsFrames};
ghost use Rattle.resize_region.specs.Shares.{places, HasShares, share_in};
ghost use Rattle.segment_frames.specs.HeldRecords.{grouped, HoldsRows};
ghost use Rattle.segment_frames.specs.Lists.{page_at, rows_at};
ghost use Rattle.segment_frames.specs.FrameReading.{IsPageFault};
ghost use Rattle.bulk_load.specs.Packing.{CanFill};
ghost use Rattle.bulk_load.specs.Spreading.{used_by, packed_count, IsPacked, HoldsPacked, ReadsPacked, TriesParts};
ghost use Rattle.segment_frames.specs.SegmentParts.{GoesInParts};

use crate::spare::read_spare;
use density_rule::SEGMENT_RECORDS;
use redo_journal::{Frames, Place};
use segment::StoreFault;
use segment_frames::{make_move, validate_frame};
use spread_plan::Move;
use station::Station;

/// What of the packed records isn't in a share yet.
#[derive(Clone, Copy)]
pub(crate) struct Packed {
    /// How many places, the first ones, hold segments that were read.
    pub room: u32,
    /// How many records: the first ones.
    pub rest: u32,
    /// How many segments aren't read: the first ones.
    pub unread: u32,
}

/// How many segments packed records use.
pub(crate) fn used_by(records: u32) -> u32
    requires { records ≤ 2 ^ 22 }
    ensures { result ≡ used_by records }
{
    (records + (SEGMENT_RECORDS - 1)) / SEGMENT_RECORDS
}

/// Reads the last packed segments that aren't read, as many as there are places for, and sees that they are those.
pub(crate) fn read_packed<S: Station>(
    station: &mut S,
    place: &Place,
    frames: &mut Frames,
    packed: &mut Packed,
    records: u32,
) -> Result<(), StoreFault>
    requires can { CanFill place.now frames.old (S.view station.old) }
    requires fits { records ≤ SEGMENT_RECORDS * 2 ^ height_limit place.now.layout }
    requires packed { IsPacked place.now.layout.format records frames.old packed.old }
    requires none { packed.old.rest ≤ SEGMENT_RECORDS * packed.old.unread }
    requires some { 0 < packed.old.rest }
    ensures reads { ReadsPacked place.now records result packed.old packed.new frames.old frames.new (S.view station.old)
        (S.view station.new) }
    ensures calls { OnOk result (GoesInParts packed.old.room (used_by records) (used_by records - packed.old.unread)
        (used_by records - packed.new.unread) (S.view station.old).calls (S.view station.new).calls) }
    ensures tried { TriesParts packed.old.room (used_by records) (used_by records - packed.old.unread) (S.view station.old).calls
        (S.view station.new).calls }
    ensures onward { OnOk result (packed.new.unread < packed.old.unread) }
    ensures same { packed.new.rest ≡ packed.old.rest }
    ensures others { OnOk result ((i : ℕ) → packed.old.room ≤ i → i < places place.now.layout.format frames.old →
        share_in place.now.layout.format i frames.new ≡ share_in place.now.layout.format i frames.old) }
{
    let count = packed.room.min(packed.unread);
    let first = packed.unread - count;
    read_spare(station, place, frames, first, count)?;
    validate_packed(frames, place.layout.format, first, count, records)?;
    packed.unread = first;
    Ok(())
}

// Sees that the first places hold segments of as many records as those of packed records from `first` on.
fn validate_packed(
    frames: &Frames,
    format: u32,
    first: u32,
    count: u32,
    records: u32,
) -> Result<(), StoreFault>
    requires frames { IsFrames frames.now }
    requires format { IsSlotFormat format }
    requires within { count ≤ places format frames.now }
    requires small { first + count ≤ 2 ^ 16 }
    ensures held { OnOk result ((i : ℕ) → i < count →
        HoldsRows format (rows_at format frames.now.slots i) i (grouped format frames.now.slots)) }
    ensures counts { OnOk result ((i : ℕ) → i < count →
        length (rows_at format frames.now.slots i) ≡ packed_count records (first + i)) }
    ensures fault { IfErr result (λ fault. (i : ℕ) × (i < count) ×
        IsPageFault format (page_at format frames.now.slots i) (first + i) (packed_count records (first + i)) fault) }
{
    for i in 0..count {
        validate_frame(
            frames,
            format,
            i,
            first + i,
            packed_count(records, first + i),
        )?;
    }
    Ok(())
}

// How many of packed records a segment has.
fn packed_count(records: u32, segment: u32) -> u32
    requires { segment < 2 ^ 16 }
    ensures { result ≡ packed_count records segment }
{
    records
        .saturating_sub(SEGMENT_RECORDS * segment)
        .min(SEGMENT_RECORDS)
}

/// Moves the last packed records, at most that many, out of the last segment that has some to the front of a share, and answers
/// how many.
pub(crate) fn take_last(
    frames: &mut Frames,
    format: u32,
    packed: &mut Packed,
    f: u32,
    have: u32,
    most: u32,
) -> u32
    requires packed { (n : ℕ) × IsPacked format n frames.old packed.old }
    requires at_hand { SEGMENT_RECORDS * packed.old.unread < packed.old.rest }
    requires behind { packed.old.room ≤ f }
    requires frame { f < places format frames.old }
    requires have { have ≡ length (share_in format f frames.old) }
    requires some { 1 ≤ most }
    requires room { have + most ≤ SEGMENT_RECORDS }
    ensures packed { (n : ℕ) → IsPacked format n frames.old packed.old → IsPacked format n frames.new packed.new }
    ensures some { 1 ≤ result }
    ensures most { result ≤ most }
    ensures rest { packed.new ≡ record packed.old { rest = packed.old.rest - result } }
    ensures taken { result ≤ packed.old.rest }
    ensures held { (rows : List Record) → packed.old.rest ≤ length rows → HoldsPacked format rows frames.old packed.old →
        HoldsPacked format rows frames.new packed.new }
    ensures share { (rows : List Record) → packed.old.rest ≤ length rows → HoldsPacked format rows frames.old packed.old →
        share_in format f frames.new ≡ slice_range rows packed.new.rest packed.old.rest ++ share_in format f frames.old }
    ensures long { length (share_in format f frames.new) ≡ have + result }
    ensures others { (i : ℕ) → packed.old.room ≤ i → i ≢ f → share_in format i frames.new ≡ share_in format i frames.old }
    ensures frames { frames.new ≡ record frames.old { slots = frames.new.slots } }
{
    let segment = (packed.rest - 1) / SEGMENT_RECORDS;
    let left = packed.rest - SEGMENT_RECORDS * segment;
    let count = left.min(most);
    let step = Move {
        from: segment - packed.unread,
        to: f,
        count,
    };
    make_move(frames, format, step, left, have);
    packed.rest -= count;
    count
}
