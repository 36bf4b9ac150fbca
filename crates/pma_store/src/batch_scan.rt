//! The one pass over the segments of a batch: keys looked for, items made in rows, rows put into frames.
//!
//! Each segment is read once, in ascending order, and nothing is written: so a batch can still be refused, or made item by
//! item.

ghost use Rattle.std.specs.Prelude.{◌≡◌, ◌+◌, ◌*◌, ◌^◌, ◌<◌, ◌≤◌, ℕ, [], ◌∷◌, ◌++◌, T, length, slice_index_or, OnOk, IfErr, IsErrOf, true, false, is_ok, get_or};
ghost use Rattle.std.specs.List.{list_all};
ghost use Rattle.station.specs.Bytes.{Same};
ghost use Rattle.station.specs.Steps.{Steps};
ghost use Rattle.station.specs.View.{Told, Rose, after_read};
ghost use Rattle.batch_intent.specs.ItemView.{update_of};
ghost use Rattle.batch_intent.specs.Spelling.{IsIntent, fits_item};
ghost use Rattle.header_gate.specs.InPlace.{IsRecovered};
ghost use Rattle.header_gate.specs.Paged.{pages_of_all};
ghost use Rattle.header_gate.specs.Places.{IsLayout, file_length, height_limit, segment_place, segment_size};
ghost use Rattle.key_slot.specs.Record.{IsAscending, is_record};
ghost use Rattle.key_slot.specs.Segment.{FitsSegment};
ghost use Rattle.key_slot.specs.declared.sizes.TheConstants.{SEGMENT_SLOTS};
ghost use Rattle.map_model.specs.Array.{Array, segment_at, rows as rows_of};
ghost use Rattle.map_model.specs.ArrayUpdates.{edited};
ghost use Rattle.map_model.specs.Image.{array_of};
ghost use Rattle.map_model.specs.Standing.{StandsWith};
ghost use Rattle.map_model.specs.Store.{Update, key_of};
ghost use Rattle.one_commit.specs.Editing.{edited_by};
ghost use Rattle.redo_journal.specs.Frames.{IsFrames};
ghost use Rattle.segment.specs.declared.fault.StoreFault.TheVariants.{Failed};
ghost use Rattle.segment_frames.specs.Lists.{held_lists, segments_in, IsHeld};
ghost use Rattle.veb_index.specs.Arrays.{IsIndexOf};
ghost use Rattle.pma_store.specs.Damaging.{IsMetLooking};
ghost use Rattle.pma_store.specs.Looked.{AreLoaded, BelongThere, HasLooked, LacksRoom, LoadsMore, LooksOver, MayLoad};
ghost use Rattle.pma_store.specs.Once.{AreUsed};
ghost use Rattle.pma_store.specs.Own.{own_items, FillsAmid, FindsIn, HasEdit, edits_by};

use crate::reads::{find_segment, kept_count};
use crate::update::update_in;
use batch_intent::{Intent, Item, MOST_ITEMS};
use key_slot::{Row, SEGMENT_SLOTS};
use one_commit::least_from;
use range_scan::SegmentBuffer;
use redo_journal::{Frames, Place};
use segment::{Segment, StoreFault};
use segment_frames::batch_room;
use station::Station;
use veb_index::Index;
use window_tally::Tally;

/// The most items that a batch may have, as a length of arrays: an intent has room for no more.
pub(crate) const MOST: usize = MOST_ITEMS as usize;

/// A batch that is to be looked over: the place and the counts of the store, the items, and the segment to which the key of
/// each belongs.
#[derive(Clone, Copy)]
pub(crate) struct Search<'a> {
    pub(crate) place: &'a Place,
    pub(crate) tally: &'a Tally,
    pub(crate) intent: &'a Intent,
    pub(crate) segments: &'a [u32],
}

/// What was found of a batch.
#[derive(Clone, Copy)]
pub(crate) struct BatchScan {
    /// The place of each key in its segment, or in `Err` the place where it would stand.
    pub(crate) found: [Result<u32, u32>; MOST],
    /// The segments whose rows, with their items made, are in frames.
    pub(crate) edited: [u32; MOST],
    /// How many these are.
    pub(crate) count: u32,
    /// Whether they are all segments that an item edits.
    pub(crate) whole: bool,
}

/// The segments to which the keys of items belong.
pub(crate) fn find_segments(index: &Index, intent: &Intent, segments: &mut [u32])
    requires { length segments.old ≡ length intent.now }
    ensures size { length segments.new ≡ length intent.now }
    ensures within { (k : ℕ) → k < length intent.now → slice_index_or segments.new k 0 < 2 ^ index.now.height }
    ensures found { (array : Array) → IsIndexOf index.now array → IsAscending (rows_of array) →
        BelongThere array segments.new intent.now }
{
    for i in 0..intent.len() {
        segments[i as usize] = find_segment(index, update_in(&intent.item(i)).key());
    }
}

impl BatchScan {
    /// Before anything is looked for.
    pub(crate) fn new() -> BatchScan
        ensures count { result.count ≡ 0 }
        ensures whole { result.whole ≡ true }
    {
        BatchScan {
            found: [Err(0); MOST],
            edited: [0; MOST],
            count: 0,
            whole: true,
        }
    }

    /// Looks for the keys of a batch, and makes its items in frames.
    ///
    /// Each of their segments is read once, in ascending order. What `rows` and the page hold then is open.
    pub(crate) fn look_over<S: Station>(
        &mut self,
        station: &mut S,
        search: &Search,
        page: &mut SegmentBuffer,
        frames: &mut Frames,
        rows: &mut Segment,
    ) -> Result<(), StoreFault>
        requires layout { IsLayout search.now.place.now.layout }
        requires region { search.now.place.now.region < 2 }
        requires reach { file_length search.now.place.now.layout ≤ (S.view station.old).fixed.reach }
        requires journal { frames.old.journal ≡ search.now.place.now.layout.journal }
        requires tall { search.now.tally.now.height ≤ height_limit search.now.place.now.layout }
        requires stands { Told (S.view station.old) →
            StandsWith search.now.place.now.layout search.now.place.now.region search.now.tally.now.height
            search.now.tally.now.counts (S.view station.old).held }
        requires readable { Told (S.view station.old) → IsRecovered search.now.place.now.layout (S.view station.old).held }
        requires intent { IsIntent search.now.intent.now }
        requires items { T (list_all (fits_item search.now.place.now.layout.format) search.now.intent.now) }
        requires segments { length search.now.segments.now ≡ length search.now.intent.now }
        requires within { (k : ℕ) → k < length search.now.segments.now →
            slice_index_or search.now.segments.now k 0 < 2 ^ search.now.tally.now.height }
        requires belong { Told (S.view station.old) →
            BelongThere (array_of (S.view station.old).held) search.now.segments.now search.now.intent.now }
        requires fresh { self.old.count ≡ 0 }
        requires whole { self.old.whole ≡ true }
        ensures looks { LooksOver search.now.place.now search.now.tally.now search.now.segments.now search.now.intent.now result
            frames.new self.new (S.view station.old) (S.view station.new) }
        ensures turn { frames.new.turn ≡ frames.old.turn }
    {
        frames.start();
        let mut from = 0;
        while let Some(segment) = least_from(search.segments, from) {
            search.read_rows(station, page, segment, rows)?;
            self.take_in(search, frames, segment, rows);
            from = segment + 1;
        }
        Ok(())
    }

    // Looks for the keys of a segment in its rows, and makes its items in a frame if one of them edits it.
    fn take_in(&mut self, search: &Search, frames: &mut Frames, segment: u32, rows: &mut Segment)
        requires intent { IsIntent search.now.intent.now }
        requires may { MayLoad search.now.place.now.layout search.now.intent.now search.now.segments.now segment frames.old
            self.old rows.old }
        ensures loaded { AreLoaded search.now.place.now.layout.format frames.new self.new (segment + 1) }
        ensures count { self.new.count ≤ self.old.count + 1 }
        ensures looked { (array : Array) → 0 < length array → IsAscending (rows_of array) →
            BelongThere array search.now.segments.now search.now.intent.now →
            rows.old ≡ segment_at array segment → HasLooked search.now.place.now.layout.format array search.now.segments.now search.now.intent.now frames.old self.old segment →
            HasLooked search.now.place.now.layout.format array search.now.segments.now search.now.intent.now frames.new self.new (segment + 1) }
        ensures used { (array : Array) → segment < length array → IsAscending (rows_of array) →
            BelongThere array search.now.segments.now search.now.intent.now →
            rows.old ≡ segment_at array segment → AreUsed search.now.place.now.layout array search.now.intent.now frames.old self.old.whole →
            AreUsed search.now.place.now.layout array search.now.intent.now frames.new self.new.whole }
        ensures journal { frames.new.journal ≡ frames.old.journal }
        ensures turn { frames.new.turn ≡ frames.old.turn }
    {
        search.find_items(segment, rows, &mut self.found);
        if self.whole && search.has_edit(segment, &self.found) {
            self.whole = self.load_edits(search, frames, segment, rows);
        }
    }

    // Makes the items of a segment in its rows, and adds these to the batch. `false` where a frame or a row has no room, or no
    // row is left for a fence.
    fn load_edits(
        &mut self,
        search: &Search,
        frames: &mut Frames,
        segment: u32,
        rows: &mut Segment,
    ) -> bool
        requires may { MayLoad search.now.place.now.layout search.now.intent.now search.now.segments.now segment frames.old
            self.old rows.old }
        ensures loaded { AreLoaded search.now.place.now.layout.format frames.new self.new (segment + 1) }
        ensures count { self.new.count ≤ self.old.count + 1 }
        ensures more { result ≡ true → LoadsMore search.now.place.now.layout.format segment
            (edited_by (own_items segment search.now.segments.now search.now.intent.now) rows.old) frames.old frames.new }
        ensures kept { result ≡ false → (frames.new ≡ frames.old) × (self.new ≡ self.old) }
        ensures short { result ≡ false → LacksRoom search.now.place.now.layout segment search.now.segments.now
            search.now.intent.now rows.old self.old.count }
        ensures journal { frames.new.journal ≡ frames.old.journal }
        ensures turn { frames.new.turn ≡ frames.old.turn }
        ensures found { (self.new.found ≡ self.old.found) × (self.new.whole ≡ self.old.whole) }
    {
        let f = self.count;
        if f as usize >= MOST || f >= batch_room(&search.place.layout) {
            return false;
        }
        if !search.edit_items(segment, rows) || lacks_fence(segment, rows) {
            return false;
        }
        load_segment(frames, search.place.layout.format, f, segment, rows);
        self.edited[f as usize] = segment;
        self.count = f + 1;
        true
    }
}

impl<'a> Search<'a> {
    // Reads the rows of a segment, which has as many as are kept for it.
    fn read_rows<S: Station>(
        &self,
        station: &mut S,
        page: &mut SegmentBuffer,
        segment: u32,
        rows: &mut Segment,
    ) -> Result<(), StoreFault>
        requires layout { IsLayout self.now.place.now.layout }
        requires region { self.now.place.now.region < 2 }
        requires reach { file_length self.now.place.now.layout ≤ (S.view station.old).fixed.reach }
        requires segment { segment < 2 ^ self.now.tally.now.height }
        requires tall { self.now.tally.now.height ≤ height_limit self.now.place.now.layout }
        requires stands { Told (S.view station.old) →
            StandsWith self.now.place.now.layout self.now.place.now.region self.now.tally.now.height self.now.tally.now.counts
            (S.view station.old).held }
        requires readable { Told (S.view station.old) → IsRecovered self.now.place.now.layout (S.view station.old).held }
        ensures rows { OnOk result (Told (S.view station.old) →
            rows.new ≡ segment_at (array_of (S.view station.old).held) segment) }
        ensures fits { OnOk result (T (list_all (is_record self.now.place.now.layout.format) rows.new)) }
        ensures steps { Steps Same (S.view station.old) (S.view station.new) }
        ensures reads { (S.view station.new).travel ≡
            after_read (segment_place self.now.place.now.layout self.now.place.now.region segment)
            (segment_size self.now.place.now.layout) (S.view station.old).travel }
        ensures calls { (S.view station.new).calls ≤ (S.view station.old).calls + 1 }
        ensures damaged { IfErr result (λ fault. Told (S.view station.old) → fault ≡ Failed) }
        ensures met { IfErr result (λ fault. IsMetLooking self.now.place.now self.now.tally.now fault (S.view station.new)) }
        ensures failed { IsErrOf result Failed → Rose (S.view station.old).disk_faults (S.view station.new).disk_faults }
    {
        let place = self.place;
        let kept = kept_count(self.tally, segment);
        page.read(station, &place.layout, place.region, segment, kept)?;
        page.rows().copy_into(rows);
        Ok(())
    }

    // Looks for the keys of the items of segment `n` in its rows, and notes their places.
    fn find_items(&self, n: u32, rows: &Segment, found: &mut [Result<u32, u32>])
        requires segments { length self.now.segments.now ≡ length self.now.intent.now }
        requires room { length self.now.intent.now ≤ length found.old }
        ensures own { (k : ℕ) (d : Update) → k < length self.now.intent.now → slice_index_or self.now.segments.now k 0 ≡ n →
            FindsIn (key_of (slice_index_or self.now.intent.now k d)) rows.now (slice_index_or found.new k (Err 0)) }
        ensures others { (k : ℕ) → (slice_index_or self.now.segments.now k 0 ≡ n → ⊥) →
            slice_index_or found.new k (Err 0) ≡ slice_index_or found.old k (Err 0) }
        ensures size { length found.new ≡ length found.old }
    {
        for i in 0..self.intent.len() {
            if self.segments[i as usize] == n {
                found[i as usize] = find_item(rows, &self.intent.item(i));
            }
        }
    }

    // Whether one of the items of segment `n` edits it: each put does, and each removal of a key that is there.
    fn has_edit(&self, n: u32, found: &[Result<u32, u32>]) -> bool
        requires segments { length self.now.segments.now ≡ length self.now.intent.now }
        requires room { length self.now.intent.now ≤ length found.now }
        ensures some { result ≡ true → HasEdit n self.now.segments.now self.now.intent.now found.now }
        ensures none { result ≡ false → (k : ℕ) (d : Update) → k < length self.now.intent.now →
            slice_index_or self.now.segments.now k 0 ≡ n →
            edits_by (slice_index_or self.now.intent.now k d) (is_ok (slice_index_or found.now k (Err 0))) ≡ false }
    {
        for i in 0..self.intent.len() {
            if self.segments[i as usize] == n
                && edits_one(&self.intent.item(i), found[i as usize])
            {
                return true;
            }
        }
        false
    }

    // Makes the items of segment `n` in its rows, in their order.
    //
    // `false` where a new record has no room; the rows are then open.
    fn edit_items(&self, n: u32, rows: &mut Segment) -> bool
        requires { length self.now.segments.now ≡ length self.now.intent.now }
        ensures rows { result ≡ true → rows.new ≡ edited_by (own_items n self.now.segments.now self.now.intent.now) rows.old }
        ensures full { result ≡ false → FillsAmid n self.now.segments.now self.now.intent.now rows.old }
    {
        for i in 0..self.intent.len() {
            if self.segments[i as usize] == n && !edit_item(rows, &self.intent.item(i)) {
                return false;
            }
        }
        true
    }
}

// Whether a segment from 1 on is left without a row, and so without a fence.
fn lacks_fence(segment: u32, rows: &Segment) -> bool
    ensures lacks { result ≡ true → (0 < segment) × (length rows.now ≡ 0) }
    ensures has { result ≡ false → 0 < segment → 0 < length rows.now }
{
    segment > 0 && rows.len() == 0
}

// Looks for the key of an item.
fn find_item(rows: &Segment, item: &Item) -> Result<u32, u32>
    ensures { FindsIn (key_of (update_of item.now)) rows.now result }
{
    match item {
        Item::Put(key, _) => rows.find(key),
        Item::Remove(key) => rows.find(key),
    }
}

// Whether an item edits its segment, where its key was looked for.
fn edits_one(item: &Item, found: Result<u32, u32>) -> bool
    ensures { result ≡ edits_by (update_of item.now) (is_ok found) }
{
    match item {
        Item::Put(_, _) => true,
        Item::Remove(_) => found.is_ok(),
    }
}

// Makes an item in the rows of its segment. `false` where a new record has no room.
fn edit_item(rows: &mut Segment, item: &Item) -> bool
    ensures rows { result ≡ true → rows.new ≡ edited (update_of item.now) rows.old }
    ensures full { result ≡ false → SEGMENT_SLOTS < length (edited (update_of item.now) rows.old) }
{
    match item {
        Item::Put(key, value) => match rows.find(key) {
            Ok(place) => rows.replace(place, *value),
            Err(place) => {
                if rows.len() as usize >= SEGMENT_SLOTS {
                    return false;
                }
                rows.insert(
                    place,
                    Row {
                        key: *key,
                        value: *value,
                    },
                );
            }
        },
        Item::Remove(key) => {
            if let Ok(place) = rows.find(key) {
                rows.delete(place);
            }
        }
    }
    true
}

// Adds a segment with these rows to a batch, as its segment `f`. Its number is above those that the batch has.
fn load_segment(frames: &mut Frames, format: u32, f: u32, segment: u32, rows: &Segment)
    requires held { IsHeld format frames.old }
    requires last { f ≡ length (segments_in format frames.old.numbers) }
    requires room { format * (f + 1) ≤ frames.old.journal }
    requires small { format * (segment + 1) ≤ 2 ^ 16 }
    requires above { (k : ℕ) → k < f → get_or (segments_in format frames.old.numbers) k 0 < segment }
    requires fits { T (list_all (is_record format) rows.now) }
    ensures held { IsHeld format frames.new }
    ensures numbers { segments_in format frames.new.numbers ≡ segments_in format frames.old.numbers ++ segment ∷ [] }
    ensures lists { held_lists format frames.new ≡ held_lists format frames.old ++ rows.now ∷ [] }
    ensures journal { frames.new.journal ≡ frames.old.journal }
    ensures turn { frames.new.turn ≡ frames.old.turn }
    ensures fitted { FitsSegment format rows.now }
{
    push_pages(frames, format, segment);
    let size = SEGMENT_SLOTS * format as usize;
    rows.encode_into(frames.bytes_mut(size * f as usize, size));
}

// Adds the pages of a segment to a batch. The slots stay.
fn push_pages(frames: &mut Frames, format: u32, segment: u32)
    requires held { IsHeld format frames.old }
    requires room { length frames.old.numbers + format ≤ frames.old.journal }
    requires small { format * (segment + 1) ≤ 2 ^ 16 }
    requires above { (k : ℕ) → k < length (segments_in format frames.old.numbers) →
        get_or (segments_in format frames.old.numbers) k 0 < segment }
    ensures after { frames.new ≡ record frames.old {
      numbers = pages_of_all format (segments_in format frames.old.numbers ++ segment ∷ []);
    } }
    ensures frames { IsFrames frames.new }
{
    for i in 0..format {
        frames.push(format * segment + i);
    }
}
