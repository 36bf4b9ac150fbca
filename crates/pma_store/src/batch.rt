//! Several updates as one command, all of them or none.
//!
//! A batch whose items need no rebalance and no resize is one commit. Any other is written down as an intent first, and its
//! items are then made one after another; where a crash stops that, the next opening makes them.

ghost use Rattle.std.specs.Prelude.{◌≡◌, ◌^◌, ◌<◌, ◌≤◌, ◌↔◌, Some, OnOk, IfOk, IfErr, IsErrOf, is_err, length, sum, T, IsTrue, is_ok, is_some};
ghost use Rattle.std.specs.List.{list_all};
ghost use Rattle.station.specs.View.{Told, Rose};
ghost use Rattle.batch_intent.specs.Spelling.{fits_item};
ghost use Rattle.cost_ledger.specs.Work.{IsWork};
ghost use Rattle.density_rule.specs.Bounds.{upper_of};
ghost use Rattle.header_gate.specs.declared.layout.TheConstants.{INTENT_VERSION};
ghost use Rattle.map_model.specs.Array.{segment_at, segment_for};
ghost use Rattle.map_model.specs.Image.{map_of, array_of};
ghost use Rattle.map_model.specs.Store.{key_of};
ghost use Rattle.segment.specs.Rows.{value_of};
ghost use Rattle.pma_store.specs.StoreAnswers.{state_in};
ghost use Rattle.pma_store.specs.AtOnce.{TriesOnce};
ghost use Rattle.pma_store.specs.BatchCalls.{CallsIntent};
ghost use Rattle.pma_store.specs.Batching.{AppliesBatch, Batches, IsRefusal, version_of};
ghost use Rattle.pma_store.specs.Charging.{changes, charge_told, work_by};
ghost use Rattle.pma_store.specs.Damaging.{IsOrderly};
ghost use Rattle.pma_store.specs.ItemsMade.{CountsAsFound, IsAsFound, IsContradicted, MakesItem, MakesItems};
ghost use Rattle.pma_store.specs.ItemEffects.{AreAllFound, CountsFound, SumsFound, SumsItem, TalliesFound, counts_of, validated_of, found_at, there_in};
ghost use Rattle.pma_store.specs.Looking.{TellsOther};
ghost use Rattle.pma_store.specs.Once.{AreOneCommit};
ghost use Rattle.pma_store.specs.Locations.{FindsLocation};
ghost use Rattle.pma_store.specs.StoreView.{IsOpenOn, limit_of, IsStore, StandsOn};
ghost use Rattle.pma_store.specs.Updating.{FitsFormat, update_of};

use crate::answers::{Batch, Outcome, Report, has_changed, work_of};
use crate::batch_scan::{BatchScan, MOST, Search, find_segments};
use crate::commit::{Edits, commit_edits};
use crate::store::{OpenArray, Store};
use crate::update::{Location, Update, update_in};
use crate::validation::{Validated, list_fitting, validate_items};
use batch_intent::{Intent, close_intent, write_intent};
use cost_ledger::charge;
use density_rule::upper;
use header_gate::INTENT_VERSION;
use one_commit::ItemChange;
use segment::{Damage, Segment, StoreFault};
use station::{Failed, Station};
use window_tally::Change;

impl Store {
    /// Makes the items of an intent, all of them or none.
    ///
    /// There is at least one, and the slots of the file have room for each key and value: see [`Store::format`]. `NoBatch`
    /// comes exactly where the file is of version 1; else `Full` comes exactly where one of the items, made in order, would
    /// bind an absent key in a store that holds as many records as it may. Then nothing is written. `Done` counts what the
    /// items did; all of it is committed and synced before this returns. After a crash at any moment the file means the map
    /// before the batch, or the one after all of its items.
    pub fn batch<S: Station>(
        &mut self,
        station: &mut S,
        intent: &Intent,
    ) -> Result<Batch, StoreFault>
        requires open { IsOpenOn self.old (S.view station.old) }
        requires some { 1 ≤ length intent.now }
        requires fit { T (list_all (fits_item self.old.place.layout.format) intent.now) }
        // `Batches` says what a batch does. On Ok the store is open on its file.
        ensures batch { Batches intent.now result self.old self.new (S.view station.old) (S.view station.new) }
        ensures open { OnOk result (IsOpenOn self.new (S.view station.new)) }
        // The store is closed exactly after a fault.
        ensures closed { self.new.closed ≡ is_err result }
        // `Failed` comes only if the count of disk faults rose.
        ensures failed { IsErrOf result StoreFault.Failed →
            Rose (S.view station.old).disk_faults (S.view station.new).disk_faults }
        // If the station tells its bytes, no other fault comes than `Failed`.
        ensures damaged { IfErr result (λ fault. Told (S.view station.old) → fault ≡ StoreFault.Failed) }
        // A segment that a fault names is below `2^H`, with H the greatest height, a slot below 64, and two counts that it tells
        // differ.
        ensures counted { IfErr result (TellsOther (2 ^ limit_of self.old)) }
    {
        match self.apply_batch(station, intent) {
            Ok(done) => Ok(done),
            Err(fault) => {
                self.array.closed = true;
                Err(fault)
            }
        }
    }

    // Makes a batch in the store's rows, but leaves open whether the store is closed.
    fn apply_batch<S: Station>(
        &mut self,
        station: &mut S,
        intent: &Intent,
    ) -> Result<Batch, StoreFault>
        requires open { IsOpenOn self.old (S.view station.old) }
        requires some { 1 ≤ length intent.now }
        requires fit { T (list_all (fits_item self.old.place.layout.format) intent.now) }
        ensures { AppliesBatch intent.now result self.old self.new (S.view station.old) (S.view station.new) }
    {
        let Store { array, rows } = self;
        array.apply_batch(station, intent, rows)
    }
}

/// The outcome of a batch that was tried as one commit.
pub(crate) enum Attempt {
    /// One of its items meets a full store.
    Full,
    /// It was validated, and does not fit one.
    Validated(Validated),
    /// It was made.
    Done(Validated),
}

// What stands in a list of changes behind its end.
const NO_CHANGE: ItemChange = ItemChange {
    segment: 0,
    change: Change::Add,
    first: false,
};

impl OpenArray {
    // Makes the items of an intent if none meets a full store: by one commit if they fit one, or else under the intent.
    fn apply_batch<S: Station>(
        &mut self,
        station: &mut S,
        intent: &Intent,
        rows: &mut Segment,
    ) -> Result<Batch, StoreFault>
        requires open { IsOpenOn self.old (S.view station.old) }
        requires some { 1 ≤ length intent.now }
        requires fit { T (list_all (fits_item self.old.place.layout.format) intent.now) }
        ensures { AppliesBatch intent.now result self.old self.new (S.view station.old) (S.view station.new) }
    {
        if self.place.layout.version < INTENT_VERSION {
            return Ok(Batch::NoBatch);
        }
        let most = upper(self.place.layout.height_limit());
        match self.try_at_once(station, intent, most, rows)? {
            Attempt::Done(validated) => Ok(validated.done()),
            Attempt::Validated(validated) => self.run_batch(station, intent, &validated, rows),
            Attempt::Full => Ok(Batch::Full { most }),
        }
    }

    // Looks for the keys of a batch, and makes its items if they fit one commit. What `rows` holds then is open.
    fn try_at_once<S: Station>(
        &mut self,
        station: &mut S,
        intent: &Intent,
        most: u32,
        rows: &mut Segment,
    ) -> Result<Attempt, StoreFault>
        requires open { IsOpenOn self.old (S.view station.old) }
        requires fit { T (list_all (fits_item self.old.place.layout.format) intent.now) }
        requires version { INTENT_VERSION ≤ version_of self.old }
        requires most { most ≡ upper_of (limit_of self.old) }
        ensures { TriesOnce intent.now result self.old self.new (S.view station.old) (S.view station.new) }
    {
        let len = intent.len() as usize;
        let mut segments = [0; MOST];
        let segments = &mut segments[..len];
        find_segments(&self.index, intent, segments);
        let mut look = BatchScan::new();
        let search = Search {
            place: &self.place,
            tally: &self.tally,
            intent,
            segments,
        };
        look.look_over(station, &search, &mut self.page, &mut self.frames, rows)?;
        let Some(validated) = validate_items(intent, &look.found, self.records(), most) else {
            return Ok(Attempt::Full);
        };
        let mut changes = [NO_CHANGE; MOST];
        let Some(count) = list_fitting(
            &self.tally,
            intent,
            segments,
            &look,
            &validated,
            &mut changes,
        ) else {
            return Ok(Attempt::Validated(validated));
        };
        match commit_edits(
            station,
            &self.place,
            &mut self.frames,
            &mut self.index,
            &mut self.tally,
            &Edits {
                look: &look,
                changes: &changes[..count],
            },
        ) {
            Ok(()) => Ok(Attempt::Done(validated)),
            Err(Failed) => Err(StoreFault::Failed),
        }
    }

    // Makes a batch that was validated: its intent is written, its items are made, and the gate is closed.
    fn run_batch<S: Station>(
        &mut self,
        station: &mut S,
        intent: &Intent,
        validated: &Validated,
        rows: &mut Segment,
    ) -> Result<Batch, StoreFault>
        requires open { IsOpenOn self.old (S.view station.old) }
        requires some { 1 ≤ length intent.now }
        requires fit { T (list_all (fits_item self.old.place.layout.format) intent.now) }
        requires version { INTENT_VERSION ≤ version_of self.old }
        requires validated { Told (S.view station.old) →
            Some (counts_of validated.now) ≡ validated_of (limit_of self.old) (map_of (S.view station.old).held) intent.now }
        requires found { Told (S.view station.old) →
            AreAllFound (Some validated.now.found) intent.now (map_of (S.view station.old).held) }
        requires unfit { Told (S.view station.old) →
            ¬ AreOneCommit self.old.place.layout (state_in self.old (S.view station.old).held) intent.now }
        requires counted { CountsFound intent.now (there_in validated.now.found) (sum self.old.tally.counts)
            (upper_of (limit_of self.old)) (counts_of validated.now) }
        ensures made { IfOk result (λ done. ¬ IsRefusal done) }
        ensures intent { CallsIntent intent.now self.old (S.view station.old) (S.view station.new) }
        ensures applied { AppliesBatch intent.now result self.old self.new (S.view station.old) (S.view station.new) }
    {
        let Ok(()) = write_intent(station, intent) else {
            return Err(StoreFault::Failed);
        };
        let charge = self.make_items(station, intent, Some(validated.found), rows)?;
        Ok(Batch::Done {
            stored: validated.stored,
            replaced: validated.replaced,
            removed: validated.removed,
            absent: validated.absent,
            charge,
        })
    }

    /// Makes the items of an intent that is to be applied, closes its gate, and answers the sum of their charges.
    ///
    /// Where it was looked for their keys, `found` says which of them are there: where it isn't so, a segment is out of
    /// order, and the item isn't made.
    pub(crate) fn make_items<S: Station>(
        &mut self,
        station: &mut S,
        intent: &Intent,
        found: Option<[bool; MOST]>,
        rows: &mut Segment,
    ) -> Result<u64, StoreFault>
        requires on { StandsOn self.old (S.view station.old) }
        requires fit { T (list_all (fits_item self.old.place.layout.format) intent.now) }
        requires found { Told (S.view station.old) → AreAllFound found intent.now (map_of (S.view station.old).held) }
        ensures made { MakesItems intent.now result self.old self.new (S.view station.old) (S.view station.new) }
        ensures sums { OnOk result (SumsFound found intent.now (upper_of (limit_of self.old)) (sum self.old.tally.counts)
            (sum self.new.tally.counts)) }
        ensures tallies { OnOk result (TalliesFound found intent.now (upper_of (limit_of self.old)) self.old.tally
            self.new.tally) }
    {
        let mut charges = 0;
        for i in 0..intent.len() {
            let update = update_in(&intent.item(i));
            let charge = self.make_item(station, &update, found_of(found, i), rows)?;
            charges += charge;
        }
        match close_intent(station) {
            Ok(()) => Ok(charges),
            Err(Failed) => Err(StoreFault::Failed),
        }
    }

    // Makes an item, and answers its charge. Where its key isn't as it was found, nothing is written.
    fn make_item<S: Station>(
        &mut self,
        station: &mut S,
        update: &Update,
        found: Option<bool>,
        rows: &mut Segment,
    ) -> Result<u64, StoreFault>
        requires on { StandsOn self.old (S.view station.old) }
        requires fits { FitsFormat self.old.place.layout.format (update_of update.now) }
        requires found { Told (S.view station.old) →
            IsAsFound found (is_some (value_of (key_of (update_of update.now))
            (segment_at (array_of (S.view station.old).held) (segment_for (array_of (S.view station.old).held) (key_of (update_of update.now)))))) }
        ensures made { MakesItem (update_of update.now) result self.old self.new (S.view station.old) (S.view station.new) }
        ensures as_found { OnOk result (CountsAsFound found (update_of update.now) self.old.tally self.new.tally) }
        ensures sums { OnOk result (SumsItem found (update_of update.now) (upper_of (limit_of self.old))
            (sum self.old.tally.counts) (sum self.new.tally.counts)) }
    {
        let location = self.find_as(station, update, found, rows)?;
        let (outcome, report) = self.apply_at(station, update, location, rows)?;
        Ok(self.charge_of(outcome, &report))
    }

    // What an update is charged that left the store so.
    fn charge_of(&self, outcome: Outcome, report: &Report) -> u64
        requires { IsWork (work_by self.now.tally.height (changes outcome) report.now) }
        ensures charge { result ≡ charge_told self.now.tally.height (changes outcome) report.now }
        ensures small { result ≤ 1048576 }
    {
        charge(work_of(self.tally.height(), has_changed(outcome), report))
    }

    // Finds the location of an update. Where its key isn't as it was found before, its segment is out of order.
    fn find_as<S: Station>(
        &mut self,
        station: &mut S,
        update: &Update,
        found: Option<bool>,
        rows: &mut Segment,
    ) -> Result<Location, StoreFault>
        requires on { StandsOn self.old (S.view station.old) }
        requires found { Told (S.view station.old) →
            IsAsFound found (is_some (value_of (key_of (update_of update.now))
            (segment_at (array_of (S.view station.old).held) (segment_for (array_of (S.view station.old).held) (key_of (update_of update.now)))))) }
        ensures location { FindsLocation (update_of update.now) result self.old self.new rows.new (S.view station.old)
            (S.view station.new) }
        ensures store { IsStore self.new }
        ensures as_found { IfOk result (λ location. IsAsFound found (is_ok location.found)) }
        ensures contradicted { IfErr result (λ fault. ¬ IsOrderly fault → IsContradicted found (update_of update.now) rows.new) }
    {
        let location = self.find_location(station, update, rows)?;
        if !is_as_found(location, found) {
            return Err(StoreFault::Damaged {
                segment: location.segment,
                why: Damage::OutOfOrder,
            });
        }
        Ok(location)
    }
}

// Whether a key is there as it was found, if it was looked for.
fn is_as_found(location: Location, found: Option<bool>) -> bool
    ensures { IsTrue result ↔ IsAsFound found (is_ok location.found) }
{
    match found {
        Some(found) => location.found.is_ok() == found,
        None => true,
    }
}

// What was found of an item, if it was looked for.
fn found_of(found: Option<[bool; MOST]>, i: u32) -> Option<bool>
    requires { i < 16 }
    ensures { result ≡ found_at found i }
{
    match found {
        Some(found) => Some(found[i as usize]),
        None => None,
    }
}
