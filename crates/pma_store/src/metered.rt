//! A store whose updates are noted in a ledger.
//!
//! Each call is the store's own. What an update answers says what it is charged, and the file is not asked again.

ghost use Rattle.std.specs.Prelude.{◌≡◌, ◌+◌, ◌*◌, ◌^◌, ◌<◌, ◌≤◌, [], ◌∷◌, false, IsTrue, OnOk, IfOk, IfErr, IsErrOf, is_err, length, sum, T};
ghost use Rattle.std.specs.List.{list_all};
ghost use Rattle.station.specs.View.{Told, Rose};
ghost use Rattle.batch_intent.specs.Spelling.{fits_item};
ghost use Rattle.cost_ledger.specs.Ledger.{empty_ledger, cost_of};
ghost use Rattle.key_slot.specs.Record.{is_record};
ghost use Rattle.map_model.specs.Image.{map_of};
ghost use Rattle.map_model.specs.Store.{bind, unbind};
ghost use Rattle.window_tally.specs.declared.Change.TheVariants.{Add, Take};
ghost use Rattle.pma_store.specs.Batching.{Batches, charge_in, items_made, made_in, version_of};
ghost use Rattle.pma_store.specs.Charging.{charge_told, put_changes};
ghost use Rattle.pma_store.specs.Damaging.{IsMetFirst, UpdatesAt, is_new};
ghost use Rattle.pma_store.specs.Looking.{TellsOther, Gets, BeginsSweep, Checks, Probes};
ghost use Rattle.pma_store.specs.Makes.{Puts, Removes};
ghost use Rattle.pma_store.specs.Metered.{IsMetered, Notes};
ghost use Rattle.pma_store.specs.StoreView.{IsStore, IsOpenOn, limit_of};

use crate::answers::{Batch, Checked, Put, Report, work_of};
use crate::store::Store;
use batch_intent::Intent;
use block_touch::Probe;
use cost_ledger::{Cost, Ledger, charge};
use key_slot::{Key, Value};
use range_scan::{SegmentBuffer, Sweep};
use segment::StoreFault;
use station::Station;
use std::marker::Model;

/// A store, and the ledger of the session since it was metered: how many updates it made, and what they were charged.
///
/// Its calls are those of the store. The charges stay within 514 for each update and a sum that the height at the start
/// gives, whatever the updates were.
#[derive(Drop)]
pub struct Metered {
    pub(crate) store: Store,
    ledger: Ledger,
}

impl Model for Metered {
    ghost use Rattle.pma_store.specs.Metered.{MeteredView, view_of, IsKept};

    ghost Value = { MeteredView };

    ghost view = { view_of };

    ghost invariant = { IsKept };
}

impl Metered {
    /// Begins a session on a store.
    pub fn new(store: Store) -> Metered
        // A session begins with no update and no charge, at the height of the store. Its bound has room for the store's
        // potential, unless the store is closed.
        ensures store { result.store ≡ store }
        ensures ledger { result.ledger ≡ empty_ledger store.tally.height }
        ensures metered { IsMetered result }
    {
        let height = store.height();
        Metered {
            store,
            ledger: Ledger::new(height),
        }
    }

    /// Ends the session, and gives the store back.
    pub fn into_store(self) -> Store
        ensures { result ≡ self.store }
    {
        self.store
    }

    /// What was noted since the session began, and the most that the charges may be.
    pub fn cost(&self) -> Cost
        // The number of updates, the sum of their charges, and `514 * U + 32 * (h + 1) * 2^h` for U updates, with h the height at
        // the start. The sum doesn't pass this bound, also after a fault.
        ensures cost { result ≡ cost_of self.now.ledger }
        ensures within { result.charge ≤ result.bound }
    {
        self.ledger.cost()
    }

    /// Whether an earlier call answered a fault.
    pub fn closed(&self) -> bool
        ensures { result ≡ self.now.store.closed }
    {
        self.store.closed()
    }

    /// The slot format of the file.
    pub fn format(&self) -> u32
        ensures format { result ≡ self.now.store.place.layout.format }
        // What is true of every store, on every station: its layout is one that a file may have, its region is 0 or 1, and every
        // window is within its bounds by the kept counts.
        ensures store { IsStore self.now.store }
    {
        self.store.format()
    }

    /// The height of the array.
    pub fn height(&self) -> u32
        ensures height { result ≡ self.now.store.tally.height }
        // What is true of every store, on every station: its layout is one that a file may have, its region is 0 or 1, and every
        // window is within its bounds by the kept counts.
        ensures store { IsStore self.now.store }
    {
        self.store.height()
    }

    /// The number of records.
    pub fn records(&self) -> u32
        ensures { result ≡ sum self.now.store.tally.counts }
    {
        self.store.records()
    }

    /// Binds the key to the value, as [`Store::put`] does.
    ///
    /// It is one update, which is noted with its charge if it answers Ok. So far fewer than `2^63` were.
    pub fn put<S: Station>(
        &mut self,
        station: &mut S,
        key: &Key,
        value: &Value,
    ) -> Result<(Put, Report), StoreFault>
        requires open { IsOpenOn self.old.store (S.view station.old) }
        requires fits { IsTrue (is_record self.old.store.place.layout.format (key.now, value.now)) }
        requires few { self.old.ledger.updates < 2 ^ 63 }
        // `Puts` says what a put does. On Ok the store is open on its file.
        ensures put { Puts key.now value.now result self.old.store self.new.store (S.view station.old) (S.view station.new) }
        ensures open { OnOk result (IsOpenOn self.new.store (S.view station.new)) }
        // The store is closed exactly after a fault.
        ensures closed { self.new.store.closed ≡ is_err result }
        // `Failed` comes only if the count of disk faults rose.
        ensures failed { IsErrOf result StoreFault.Failed →
            Rose (S.view station.old).disk_faults (S.view station.new).disk_faults }
        // If the station tells its bytes, no other fault comes than `Failed`.
        ensures damaged { IfErr result (λ fault. Told (S.view station.old) → fault ≡ StoreFault.Failed) }
        // A segment that a fault names is below `2^H`, with H the greatest height, a slot below 64, and two counts that it tells
        // differ.
        ensures counted { IfErr result (TellsOther (2 ^ limit_of self.old.store)) }
        // Damage is met before anything is written, and isn't that keys are out of order, unless by the kept counts such a change
        // of some segment needs a rebalance or a resize first.
        ensures early { IfErr result (IsMetFirst Add self.old.store.tally (S.view station.old) (S.view station.new)) }
        // On every station the update goes by the kept counts and marks, as `UpdatesAt` says.
        ensures at { UpdatesAt (bind key.now value.now) result (λ done. is_new done.0) (λ done. done.1) self.old.store
            self.new.store (S.view station.old) (S.view station.new) }
        // It is one update, which is noted with its charge if it answers Ok, as `Notes` says.
        ensures notes { Notes (bind key.now value.now ∷ []) result (λ done. 1)
            (λ done. charge_told self.new.store.tally.height (put_changes done.0) done.1) self.old self.new (S.view station.old) }
        // On Ok at most `4101 * F` bytes times its charge are written, with F pages a segment, on every station.
        ensures images { IfOk result (λ done. (S.view station.new).travel.written ≤ (S.view station.old).travel.written
            + 4101 * self.old.store.place.layout.format * charge_told self.new.store.tally.height (put_changes done.0) done.1) }
    {
        let (answer, report) = self.store.put(station, key, value)?;
        let work = work_of(self.store.height(), has_put(&answer), &report);
        self.ledger.note(1, charge(work));
        Ok((answer, report))
    }

    /// Takes the key's record away, as [`Store::remove`] does.
    ///
    /// It is one update, which is noted with its charge if it answers Ok. So far fewer than `2^63` were.
    pub fn remove<S: Station>(
        &mut self,
        station: &mut S,
        key: &Key,
    ) -> Result<(bool, Report), StoreFault>
        requires open { IsOpenOn self.old.store (S.view station.old) }
        requires few { self.old.ledger.updates < 2 ^ 63 }
        // `Removes` says what a removal does. On Ok the store is open on its file.
        ensures removed { Removes key.now result self.old.store self.new.store (S.view station.old) (S.view station.new) }
        ensures open { OnOk result (IsOpenOn self.new.store (S.view station.new)) }
        // The store is closed exactly after a fault.
        ensures closed { self.new.store.closed ≡ is_err result }
        // `Failed` comes only if the count of disk faults rose.
        ensures failed { IsErrOf result StoreFault.Failed →
            Rose (S.view station.old).disk_faults (S.view station.new).disk_faults }
        // If the station tells its bytes, no other fault comes than `Failed`.
        ensures damaged { IfErr result (λ fault. Told (S.view station.old) → fault ≡ StoreFault.Failed) }
        // A segment that a fault names is below `2^H`, with H the greatest height, a slot below 64, and two counts that it tells
        // differ.
        ensures counted { IfErr result (TellsOther (2 ^ limit_of self.old.store)) }
        // Damage is met before anything is written, and isn't that keys are out of order, unless by the kept counts such a change
        // of some segment needs a rebalance or a resize first.
        ensures early { IfErr result (IsMetFirst Take self.old.store.tally (S.view station.old) (S.view station.new)) }
        // On every station the update goes by the kept counts and marks, as `UpdatesAt` says.
        ensures at { UpdatesAt (unbind key.now) result (λ done. done.0) (λ done. done.1) self.old.store self.new.store
            (S.view station.old) (S.view station.new) }
        // It is one update, which is noted with its charge if it answers Ok, as `Notes` says.
        ensures notes { Notes (unbind key.now ∷ []) result (λ done. 1) (λ done. charge_told self.new.store.tally.height done.0
            done.1) self.old self.new (S.view station.old) }
        // On Ok at most `4101 * F` bytes times its charge are written, with F pages a segment, on every station.
        ensures images { IfOk result (λ done. (S.view station.new).travel.written ≤ (S.view station.old).travel.written
            + 4101 * self.old.store.place.layout.format * charge_told self.new.store.tally.height done.0 done.1) }
    {
        let (took, report) = self.store.remove(station, key)?;
        let work = work_of(self.store.height(), took, &report);
        self.ledger.note(1, charge(work));
        Ok((took, report))
    }

    /// Makes the items of an intent, all of them or none, as [`Store::batch`] does.
    ///
    /// Each item is an update, and they are noted together if they were made. So far fewer than `2^63` were noted.
    pub fn batch<S: Station>(
        &mut self,
        station: &mut S,
        intent: &Intent,
    ) -> Result<Batch, StoreFault>
        requires open { IsOpenOn self.old.store (S.view station.old) }
        requires some { 1 ≤ length intent.now }
        requires fit { T (list_all (fits_item self.old.store.place.layout.format) intent.now) }
        requires few { self.old.ledger.updates < 2 ^ 63 }
        // `Batches` says what a batch does. On Ok the store is open on its file.
        ensures batch { Batches intent.now result self.old.store self.new.store (S.view station.old) (S.view station.new) }
        ensures open { OnOk result (IsOpenOn self.new.store (S.view station.new)) }
        // The store is closed exactly after a fault.
        ensures closed { self.new.store.closed ≡ is_err result }
        // `Failed` comes only if the count of disk faults rose.
        ensures failed { IsErrOf result StoreFault.Failed →
            Rose (S.view station.old).disk_faults (S.view station.new).disk_faults }
        // If the station tells its bytes, no other fault comes than `Failed`.
        ensures damaged { IfErr result (λ fault. Told (S.view station.old) → fault ≡ StoreFault.Failed) }
        // A segment that a fault names is below `2^H`, with H the greatest height, a slot below 64, and two counts that it tells
        // differ.
        ensures counted { IfErr result (TellsOther (2 ^ limit_of self.old.store)) }
        // If it answers Ok, as many updates as it has items are noted of an accepted batch, with the sum of their charges, and
        // none of a refused one, as `Notes` says.
        ensures notes { Notes (items_made (version_of self.old.store) (limit_of self.old.store) (map_of (S.view station.old).held)
            intent.now)
            result (made_in (length intent.now)) charge_in self.old self.new (S.view station.old) }
    {
        let done = self.store.batch(station, intent)?;
        if let Batch::Done { charge, .. } = done {
            self.ledger.note(intent.len(), charge);
        }
        Ok(done)
    }

    /// The value that is bound to the key, as [`Store::get`] finds it.
    pub fn get<S: Station>(
        &mut self,
        station: &mut S,
        key: &Key,
    ) -> Result<Option<Value>, StoreFault>
        requires open { IsOpenOn self.old.store (S.view station.old) }
        // `Gets` says what a get does. On Ok the store is open on its file.
        ensures got { Gets key.now result self.old.store self.new.store (S.view station.old) (S.view station.new) }
        ensures open { OnOk result (IsOpenOn self.new.store (S.view station.new)) }
        // `Failed` comes only if the count of disk faults rose.
        ensures failed { IsErrOf result StoreFault.Failed →
            Rose (S.view station.old).disk_faults (S.view station.new).disk_faults }
        // If the station tells its bytes, no other fault comes than `Failed`.
        ensures damaged { IfErr result (λ fault. Told (S.view station.old) → fault ≡ StoreFault.Failed) }
        // The ledger stays, with its charges within their bound.
        ensures ledger { self.new.ledger ≡ self.old.ledger }
        ensures metered { IsMetered self.new }
    {
        self.store.get(station, key)
    }

    /// A scan of the records from `low` on and below `high`, as [`Store::scan`] begins it.
    pub fn scan<'a>(
        &'a self,
        page: &'a mut SegmentBuffer,
        low: Option<Key>,
        high: Option<Key>,
        limit: u32,
    ) -> Sweep<'a>
        requires open { self.now.store.closed ≡ false }
        ensures { BeginsSweep low high limit result self.now.store }
    {
        self.store.scan(page, low, high, limit)
    }

    /// Reads all segments in order, as [`Store::check`] does.
    pub fn check<S: Station>(&mut self, station: &mut S) -> Result<Checked, StoreFault>
        requires open { IsOpenOn self.old.store (S.view station.old) }
        // `Checks` says what a check does. On Ok the store is open on its file.
        ensures checked { Checks result self.old.store self.new.store (S.view station.old) (S.view station.new) }
        ensures open { OnOk result (IsOpenOn self.new.store (S.view station.new)) }
        // `Failed` comes only if the count of disk faults rose.
        ensures failed { IsErrOf result StoreFault.Failed →
            Rose (S.view station.old).disk_faults (S.view station.new).disk_faults }
        // If the station tells its bytes, no other fault comes than `Failed`.
        ensures damaged { IfErr result (λ fault. Told (S.view station.old) → fault ≡ StoreFault.Failed) }
        // The ledger stays, with its charges within their bound.
        ensures ledger { self.new.ledger ≡ self.old.ledger }
        ensures metered { IsMetered self.new }
    {
        self.store.check(station)
    }

    /// The segment to which the key belongs, and what the search for it visited, as [`Store::probe`] counts it.
    pub fn probe(&mut self, key: &Key, block: u32) -> Probe
        requires open { self.old.store.closed ≡ false }
        requires block { 1 ≤ block }
        // It answers the segment to which the key belongs in every file for which the store stands, which is one of the store's
        // on every station; the height, as the number of nodes that its search visits; how many blocks of `block` nodes these
        // touch, where position 0 begins a block; and the bound on that, which isn't passed. At height 0 all four are 0. The
        // store stays.
        ensures probed { Probes key.now block result self.old.store }
        ensures kept { self.new.store ≡ self.old.store }
        // The ledger stays, with its charges within their bound.
        ensures ledger { self.new.ledger ≡ self.old.ledger }
        ensures metered { IsMetered self.new }
    {
        self.store.probe(key, block)
    }
}

// Whether a put changed anything.
fn has_put(answer: &Put) -> bool
    ensures { result ≡ put_changes answer.now }
{
    match answer {
        Put::New | Put::Replaced => true,
        Put::Full { .. } => false,
    }
}
