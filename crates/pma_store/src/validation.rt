//! Whether the items of a batch have room, what they would do, and whether they fit one commit.
//!
//! No item changes another's key: so what was found of the keys before the first item is made tells of them all.

ghost use Rattle.std.specs.Prelude.{◌≡◌, ◌+◌, ◌*◌, ◌^◌, ◌<◌, ◌≤◌, ℕ, not, length, slice_index_or, true, false, is_ok, IfSome, take, None, All};
ghost use Rattle.std.specs.FinMap.{len};
ghost use Rattle.batch_intent.specs.Spelling.{IsIntent};
ghost use Rattle.density_rule.specs.Bounds.{upper_of};
ghost use Rattle.density_rule.specs.Windows.{IsBalanced};
ghost use Rattle.key_slot.specs.Record.{IsAscending};
ghost use Rattle.map_model.specs.Array.{Array, rows};
ghost use Rattle.map_model.specs.Store.{Map};
ghost use Rattle.one_commit.specs.Fitting.{changes_in};
ghost use Rattle.recovery.specs.Intents.{meets_by, puts_in, records_by};
ghost use Rattle.window_tally.specs.TallyView.{IsTally};
ghost use Rattle.pma_store.specs.AtOnce.{FitsCommit, IsUnfit};
ghost use Rattle.pma_store.specs.Batching.{done_by};
ghost use Rattle.pma_store.specs.ItemEffects.{AreFoundAt, CountsFound, counted_first, counts_in, counts_of, edits_of, flags, kinds_in, kinds_of, validated_of, counted_by, total};
ghost use Rattle.pma_store.specs.Looked.{BelongThere, HasFound};
ghost use Rattle.pma_store.specs.Updating.{update_of};

use crate::answers::Batch;
use crate::batch_scan::{BatchScan, MOST};
use crate::update::{Update, update_in};
use batch_intent::Intent;
use one_commit::{ItemChange, change_of, fits_one_commit};
use window_tally::Tally;

/// Which items of a batch have their keys in the store, and how many of them bind a new key, bind a present one, take a
/// record away, and find none to take.
#[derive(Clone, Copy)]
pub(crate) struct Validated {
    pub(crate) found: [bool; MOST],
    pub(crate) stored: u32,
    pub(crate) replaced: u32,
    pub(crate) removed: u32,
    pub(crate) absent: u32,
}

impl Validated {
    /// How many of the items edit a segment.
    pub(crate) fn edits(&self) -> u64
        ensures { result ≡ edits_of self.now }
    {
        u64::from(self.stored) + u64::from(self.replaced) + u64::from(self.removed)
    }

    /// The answer where all items were made by one commit, with two images for each that edits a segment.
    pub(crate) fn done(&self) -> Batch
        ensures { result ≡ done_by (counts_of self.now) (2 * edits_of self.now) }
    {
        Batch::Done {
            stored: self.stored,
            replaced: self.replaced,
            removed: self.removed,
            absent: self.absent,
            charge: 2 * self.edits(),
        }
    }
}

/// What the items would do in a store of that many records, where their keys were looked for, or none where one of them would
/// meet a full store of `most` records.
///
/// The keys were looked for in the store as it is: no item changes another's key.
pub(crate) fn validate_items(
    intent: &Intent,
    found: &[Result<u32, u32>],
    records: u32,
    most: u32,
) -> Option<Validated>
    requires { length found.now ≡ 16 }
    ensures validated { (hmax : ℕ) (m : Map) → most ≡ upper_of hmax → records ≡ len m → AreFoundAt found.now intent.now m →
        counts_in result ≡ validated_of hmax m intent.now }
    ensures found { IfSome result (λ validated. (k : ℕ) → k < length intent.now →
        slice_index_or validated.found k false ≡ is_ok (slice_index_or found.now k (Err 0))) }
    ensures full { result ≡ None → most < records + puts_in intent.now }
    ensures total { IfSome result (λ validated. total validated ≡ length intent.now) }
    ensures as_found { IfSome result (λ validated. CountsFound intent.now (λ k. is_ok (slice_index_or found.now k (Err 0)))
        records most (counts_of validated)) }
{
    let mut records = records;
    let mut validated = Validated {
        found: [false; MOST],
        stored: 0,
        replaced: 0,
        removed: 0,
        absent: 0,
    };
    for i in 0..intent.len() {
        let update = update_in(&intent.item(i));
        let present = found[i as usize].is_ok();
        if !count_item(&update, present, most, &mut records, &mut validated) {
            return None;
        }
        validated.found[i as usize] = present;
    }
    Some(validated)
}

// Counts an item by whether its key is there, unless it meets a full store.
fn count_item(
    update: &Update,
    present: bool,
    most: u32,
    records: &mut u32,
    validated: &mut Validated,
) -> bool
    requires { total validated.old < 2 ^ 31 }
    ensures room { result ≡ not (meets_by (update_of update.now) present records.old most) }
    ensures records { result ≡ true → records.new ≡ records_by (update_of update.now) present records.old }
    ensures counts { result ≡ true → counts_of validated.new ≡
        counted_by (update_of update.now) present (counts_of validated.old) }
    ensures total { result ≡ true → total validated.new ≡ total validated.old + 1 }
    ensures found { validated.new.found ≡ validated.old.found }
{
    match (update, present) {
        (Update::Bind(_), true) => validated.replaced += 1,
        (Update::Bind(_), false) => {
            if *records >= most {
                return false;
            }
            *records += 1;
            validated.stored += 1;
        }
        (Update::Unbind(_), true) => {
            *records = records.saturating_sub(1);
            validated.removed += 1;
        }
        (Update::Unbind(_), false) => validated.absent += 1,
    }
    true
}

/// Lists what the items change, if they fit one commit, and answers how many changes these are.
pub(crate) fn list_fitting(
    tally: &Tally,
    intent: &Intent,
    segments: &[u32],
    look: &BatchScan,
    validated: &Validated,
    changes: &mut [ItemChange; MOST],
) -> Option<usize>
    requires intent { IsIntent intent.now }
    requires tally { IsTally tally.now }
    requires balanced { IsBalanced tally.now.height tally.now.counts }
    requires segments { length segments.now ≡ length intent.now }
    requires within { (k : ℕ) → k < length segments.now → slice_index_or segments.now k 0 < 2 ^ tally.now.height }
    requires counted { counts_of validated.now ≡ counted_first intent.now (λ k. is_ok (slice_index_or look.now.found k (Err 0)))
        (length intent.now) }
    ensures most { IfSome result (λ count. count ≤ 16) }
    ensures fits { IfSome result (λ count. FitsCommit segments.now intent.now look.now validated.now tally.now
        (take count changes.new)) }
    ensures unfit { result ≡ None → IsUnfit segments.now intent.now look.now validated.now tally.now }
{
    if !look.whole || u64::from(look.count) > validated.edits() {
        return None;
    }
    let count = list_changes(intent, segments, &look.found, changes);
    if !fits_one_commit(tally, &changes[..count]) {
        return None;
    }
    Some(count)
}

// Lists what the items change, where `segments` tells the segment of each key, and `found` its place there. Answers how many
// these are.
fn list_changes(
    intent: &Intent,
    segments: &[u32],
    found: &[Result<u32, u32>],
    changes: &mut [ItemChange; MOST],
) -> usize
    requires segments { length segments.now ≡ length intent.now }
    requires found { length found.now ≡ 16 }
    ensures few { result ≤ length intent.now }
    ensures in_store { (n : ℕ) → ((k : ℕ) → k < length segments.now → slice_index_or segments.now k 0 < n) →
        All (λ c. c.segment < n) (take result changes.new) }
    ensures kinds { kinds_in (take result changes.new) ≡
        kinds_of intent.now (flags (λ k. is_ok (slice_index_or found.now k (Err 0))) (length intent.now)) }
    ensures listed { (array : Array) (n : ℕ) → 0 < length array → IsAscending (rows array) →
        BelongThere array segments.now intent.now → ((k : ℕ) → k < length segments.now → slice_index_or segments.now k 0 < n) →
        HasFound array segments.now intent.now found.now n → take result changes.new ≡ changes_in array intent.now }
{
    let mut count = 0;
    for i in 0..intent.len() {
        let i = i as usize;
        let puts = intent.item(i as u32).is_put();
        match change_of(puts, segments[i], found[i]) {
            Some(change) => {
                changes[count] = change;
                count += 1;
            }
            None => {}
        }
    }
    count
}
