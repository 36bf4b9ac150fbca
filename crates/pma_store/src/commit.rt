//! The commit of the segments that an update or a batch edited, and then their fences and counts.
//!
//! Index and counts change only behind the commit, so that after a fault they are as they were.

ghost use Rattle.std.specs.Prelude.{◌≡◌, ◌+◌, ◌*◌, ◌^◌, ◌<◌, ◌≤◌, [], ◌∷◌, Some, T, length, slice_index, slice_set, OnOk, OnErr, All, true};
ghost use Rattle.std.specs.List.{list_all};
ghost use Rattle.station.specs.Steps.{Steps};
ghost use Rattle.station.specs.View.{Told, EachHeld, Rose};
ghost use Rattle.density_rule.specs.Windows.{IsBalanced};
ghost use Rattle.header_gate.specs.Paged.{pages_of_all, segment_image};
ghost use Rattle.header_gate.specs.Places.{IsLayout, IsSlotFormat, file_length, height_limit};
ghost use Rattle.key_slot.specs.Record.{is_record};
ghost use Rattle.key_slot.specs.declared.sizes.TheConstants.{SEGMENT_SLOTS};
ghost use Rattle.map_model.specs.Array.{Array};
ghost use Rattle.map_model.specs.Batches.{IsSegmentImage};
ghost use Rattle.one_commit.specs.Fitting.{stay_within};
ghost use Rattle.redo_journal.specs.Commit.{frame_byte};
ghost use Rattle.redo_journal.specs.Rest.{RestsAt};
ghost use Rattle.segment_frames.specs.FrameReading.{HasSegments};
ghost use Rattle.segment_frames.specs.FrameStanding.{IsSettledAt};
ghost use Rattle.veb_index.specs.Arrays.{IsIndexOf};
ghost use Rattle.window_tally.specs.TallyView.{IsTally};
ghost use Rattle.pma_store.specs.AtOnce.{CommitsEdits, CommitsFrames, RenewsFences};
ghost use Rattle.pma_store.specs.UpdateCalls.{commit_calls};
ghost use Rattle.pma_store.specs.SegmentCounts.{counted};
ghost use Rattle.pma_store.specs.Looked.{AreLoaded};
ghost use Rattle.pma_store.specs.Rewrites.{Rewrites, HasRewritten, RewritesOne, commit_cost};
ghost use Rattle.pma_store.specs.StoreView.{StandsOn};

use crate::batch_scan::BatchScan;
use crate::store::OpenArray;
use key_slot::SEGMENT_SLOTS;
use one_commit::{ItemChange, count_changes};
use redo_journal::{Frames, Place, commit};
use segment::{Segment, StoreFault};
use segment_frames::{Runs, set_first, start_batch};
use station::{Failed, Station};
use veb_index::Index;
use window_tally::{Change, Tally};

impl OpenArray {
    // Writes the rows as a segment, as a change that adds a row, takes one, or does neither.
    pub(crate) fn write<S: Station>(
        &mut self,
        station: &mut S,
        segment: u32,
        rows: &Segment,
        change: Option<Change>,
    ) -> Result<(), StoreFault>
        requires on { StandsOn self.old (S.view station.old) }
        requires segment { segment < 2 ^ self.old.tally.height }
        requires balanced { IsBalanced self.old.tally.height (counted change segment self.old.tally).counts }
        requires fits { T (list_all (is_record self.old.place.layout.format) rows.now) }
        requires length { length rows.now ≡ slice_index (counted change segment self.old.tally).counts segment }
        requires some { change ≡ Some Change.Take → 1 ≤ slice_index self.old.tally.counts segment }
        ensures rewritten { RewritesOne segment rows.now change result self.old self.new (S.view station.old)
            (S.view station.new) }
        ensures unchanged { OnErr result (self.new ≡ record self.old { turn = self.new.turn }) }
    {
        match commit_rows(station, &self.place, &mut self.frames, segment, rows) {
            Ok(()) => {
                renew_fence(&mut self.index, segment, rows);
                count_change(&mut self.tally, segment, change);
                Ok(())
            }
            Err(Failed) => Err(StoreFault::Failed),
        }
    }
}

// Commits the rows as a segment: a batch of one.
fn commit_rows<S: Station>(
    station: &mut S,
    place: &Place,
    frames: &mut Frames,
    segment: u32,
    rows: &Segment,
) -> Result<(), Failed>
    requires layout { IsLayout place.now.layout }
    requires region { place.now.region < 2 }
    requires reach { file_length place.now.layout ≤ (S.view station.old).fixed.reach }
    requires journal { frames.old.journal ≡ place.now.layout.journal }
    requires segment { segment < 2 ^ height_limit place.now.layout }
    requires fits { T (list_all (is_record place.now.layout.format) rows.now) }
    requires settled { EachHeld (HasSegments place.now (segment + 1)) (S.view station.old) }
    requires rests { RestsAt place.now.layout frames.old.turn (S.view station.old) }
    ensures steps { Steps (Rewrites place.now segment rows.now) (S.view station.old) (S.view station.new) }
    ensures laid { OnOk result (Told (S.view station.old) →
        HasRewritten segment rows.now (S.view station.old).held (S.view station.new).held) }
    ensures rests { OnOk result (RestsAt place.now.layout frames.new.turn (S.view station.new)) }
    ensures journal { frames.new.journal ≡ frames.old.journal }
    ensures cost { (S.view station.new).travel.written ≤ (S.view station.old).travel.written + commit_cost place.now.layout }
    ensures calls { (S.view station.new).calls ≤ (S.view station.old).calls + commit_calls place.now.layout }
    ensures cause { OnErr result (Rose (S.view station.old).disk_faults (S.view station.new).disk_faults) }
{
    load_frame(frames, place.layout.format, segment, rows);
    commit(station, place, frames)
}

// Makes a batch of the pages of one segment, with these rows.
fn load_frame(frames: &mut Frames, format: u32, segment: u32, rows: &Segment)
    requires format { IsSlotFormat format }
    requires room { format ≤ frames.old.journal }
    requires small { format * (segment + 1) ≤ 2 ^ 16 }
    requires fits { T (list_all (is_record format) rows.now) }
    ensures journal { frames.new.journal ≡ frames.old.journal }
    ensures turn { frames.new.turn ≡ frames.old.turn }
    ensures numbers { frames.new.numbers ≡ pages_of_all format (segment ∷ []) }
    ensures image { IsSegmentImage format rows.now (segment_image format (frame_byte frames.new.slots) 0) }
{
    start_batch(
        frames,
        format,
        Runs {
            low: segment,
            low_len: 1,
            high: segment + 1,
            high_len: 0,
        },
    );
    rows.encode_into(frames.bytes_mut(0, SEGMENT_SLOTS * format as usize));
}

// Sets the fence of a segment to the first key of its rows. A segment from 1 on isn't empty.
fn renew_fence(index: &mut Index, segment: u32, rows: &Segment)
    requires { segment < 2 ^ index.old.height }
    ensures hmax { index.new.hmax ≡ index.old.hmax }
    ensures height { index.new.height ≡ index.old.height }
    ensures index { (segments : Array) → IsIndexOf index.old segments → (0 < segment → 0 < length rows.now) →
        IsIndexOf index.new (slice_set segments segment rows.now) }
{
    match rows.first_key() {
        Some(first) if segment > 0 => index.set_fence(segment, &first),
        _ => {}
    }
}

// Counts an update of a segment.
fn count_change(tally: &mut Tally, segment: u32, change: Option<Change>)
    requires tally { IsTally tally.old }
    requires segment { segment < 2 ^ tally.old.height }
    requires room { change ≡ Some Change.Add → slice_index tally.old.counts segment < SEGMENT_SLOTS }
    requires some { change ≡ Some Change.Take → 1 ≤ slice_index tally.old.counts segment }
    ensures counted { tally.new ≡ counted change segment tally.old }
    ensures tally { IsTally tally.new }
{
    match change {
        Some(Change::Add) => tally.add(segment),
        Some(Change::Take) => tally.take(segment),
        None => {}
    }
}

/// The segments of a batch that are in frames, and what its items change.
#[derive(Clone, Copy)]
pub(crate) struct Edits<'a> {
    pub(crate) look: &'a BatchScan,
    pub(crate) changes: &'a [ItemChange],
}

/// Commits the edited segments, and then sets their fences and counts the changes. After `Failed` counts and index are as they
/// were.
pub(crate) fn commit_edits<S: Station>(
    station: &mut S,
    place: &Place,
    frames: &mut Frames,
    index: &mut Index,
    tally: &mut Tally,
    edits: &Edits,
) -> Result<(), Failed>
    requires layout { IsLayout place.now.layout }
    requires region { place.now.region < 2 }
    requires reach { file_length place.now.layout ≤ (S.view station.old).fixed.reach }
    requires journal { frames.old.journal ≡ place.now.layout.journal }
    requires loaded { AreLoaded place.now.layout.format frames.old edits.now.look.now (2 ^ index.old.height) }
    requires tall { index.old.height ≤ height_limit place.now.layout }
    requires settled { EachHeld (IsSettledAt place.now) (S.view station.old) }
    requires rests { RestsAt place.now.layout frames.old.turn (S.view station.old) }
    requires tally { IsTally tally.old }
    requires balanced { IsBalanced tally.old.height tally.old.counts }
    requires in_store { All (λ c. c.segment < 2 ^ tally.old.height) edits.now.changes.now }
    requires within { stay_within tally.old.height tally.old.counts edits.now.changes.now ≡ true }
    ensures committed { CommitsEdits place.now edits.now.look.now edits.now.changes.now result frames.old frames.new.turn
        index.old index.new tally.old tally.new (S.view station.old) (S.view station.new) }
    ensures journal { frames.new.journal ≡ frames.old.journal }
{
    commit_frames(station, place, frames, edits.look.count)?;
    renew_fences(index, frames, place.layout.format, edits.look);
    count_changes(tally, edits.changes);
    Ok(())
}

// Commits the pages in frames, which are those of that many segments. Where there is none, nothing is done.
fn commit_frames<S: Station>(
    station: &mut S,
    place: &Place,
    frames: &mut Frames,
    count: u32,
) -> Result<(), Failed>
    requires layout { IsLayout place.now.layout }
    requires region { place.now.region < 2 }
    requires reach { file_length place.now.layout ≤ (S.view station.old).fixed.reach }
    requires journal { frames.old.journal ≡ place.now.layout.journal }
    requires pages { length frames.old.numbers ≡ place.now.layout.format * count }
    requires below { All (λ n. n < 2 ^ place.now.layout.hmax) frames.old.numbers }
    requires settled { EachHeld (IsSettledAt place.now) (S.view station.old) }
    requires rests { RestsAt place.now.layout frames.old.turn (S.view station.old) }
    ensures committed { CommitsFrames place.now count result frames.old frames.new.turn (S.view station.old)
        (S.view station.new) }
    ensures frames { frames.new ≡ record frames.old { turn = frames.new.turn } }
    ensures turn { OnOk result (frames.old.turn < 2 → frames.new.turn < 2) }
{
    if count == 0 {
        return Ok(());
    }
    commit(station, place, frames)
}

// Sets the fences of the segments in frames to their first keys.
fn renew_fences(index: &mut Index, frames: &Frames, format: u32, look: &BatchScan)
    requires { AreLoaded format frames.now look.now (2 ^ index.old.height) }
    ensures { RenewsFences format frames.now look.now.count index.old index.new }
{
    for k in 0..look.count {
        let segment = look.edited[k as usize];
        if segment > 0 {
            set_first(frames, format, index, k, segment);
        }
    }
}
