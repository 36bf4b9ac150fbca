//! A store on a station, as tests use it, and the calls of a store. Each call is made here alone, since a function that makes one
//! takes in all that it promises when it is proved, and a test has use for a clause of it at most.

ghost use Rattle.std.specs.Prelude.{◌≡◌, ◌≤◌, T, IsTrue, is_err, length, OnOk, IfOk};
ghost use Rattle.std.specs.List.{list_all};
ghost use Rattle.batch_intent.specs.Spelling.{fits_item};
ghost use Rattle.key_slot.specs.Record.{is_record};
ghost use Rattle.pma_store.specs.StoreView.{IsOpenOn};

use batch_intent::Intent;
use key_slot::{Key, Row, Value};
use pma_store::{Batch, Checked, Put, Report, Store};
use recovery::OpenFault;
use segment::StoreFault;
use station::{MemStation, Station};
use std::alloc::Global;
use std::marker::Model;
use std::process::Abort;

/// A store and the station on which it is open, unless a fault has closed it. Clauses see nothing of it.
#[derive(Drop)]
pub struct Bench<S: Station> {
    store: Store,
    /// The station.
    pub station: S,
}

impl<S: Station> Model for Bench<S> {
    ghost use Rattle.store_tests.specs.Bench.{IsOpenUnlessClosed};

    ghost Value = { Unit {0} };

    ghost view = { λ b. tt };

    ghost invariant = { λ b. IsOpenUnlessClosed b.store (S.view b.station) };
}

impl<S: Station + Drop> Bench<S> {
    /// Opens the store on a station.
    pub fn open(alloc: Global, station: S) -> Result<Bench<S>, OpenFault> {
        let mut station = station;
        let store = open(alloc, &mut station)?;
        Ok(Bench { store, station })
    }
}

impl<S: Station> Bench<S> {
    /// The slot format.
    pub fn format(&self) -> u32 {
        self.store.format()
    }

    /// The height of the array.
    pub fn height(&self) -> u32 {
        self.store.height()
    }

    /// Binds a record's key to its value. The slots of the store have room for both.
    pub fn put(&mut self, rt: &impl Abort, row: &Row) -> Result<(Put, Report), StoreFault> {
        assert!(rt; !self.store.closed());
        put_row(rt, &mut self.store, &mut self.station, row)
    }

    /// Takes a key's record away.
    pub fn remove(&mut self, rt: &impl Abort, key: &Key) -> Result<(bool, Report), StoreFault> {
        assert!(rt; !self.store.closed());
        remove(&mut self.store, &mut self.station, key)
    }

    /// The value that is bound to a key.
    pub fn get(&mut self, rt: &impl Abort, key: &Key) -> Result<Option<Value>, StoreFault> {
        assert!(rt; !self.store.closed());
        get(&mut self.store, &mut self.station, key)
    }

    /// The number of records and the height, by all segments.
    pub fn check(&mut self, rt: &impl Abort) -> Result<Checked, StoreFault> {
        assert!(rt; !self.store.closed());
        check(&mut self.store, &mut self.station)
    }
}

impl<S: Station + Drop> Bench<S> {
    /// Gives the store up. A function that has one at several exits drops it in each, which costs its proof more than all else.
    pub fn end(self) {}
}

impl Bench<MemStation> {
    /// The bytes of the file.
    pub fn held(&self) -> &[u8] {
        self.station.held()
    }
}

/// Opens the store on a station.
pub fn open<S: Station>(alloc: Global, station: &mut S) -> Result<Store, OpenFault>
    ensures { IfOk result (λ store. IsOpenOn store (S.view station.new)) }
{
    Store::open_on(alloc, station)
}

/// Whether a store is opened on a station.
pub fn opens<S: Station>(alloc: Global, station: &mut S) -> bool {
    open(alloc, station).is_ok()
}

// Binds a record's key to its value.
fn put<S: Station>(
    store: &mut Store,
    station: &mut S,
    row: &Row,
) -> Result<(Put, Report), StoreFault>
    requires open { IsOpenOn store.old (S.view station.old) }
    requires fits { IsTrue (is_record store.old.place.layout.format (row.now.key, row.now.value)) }
    ensures open { OnOk result (IsOpenOn store.new (S.view station.new)) }
    ensures closed { store.new.closed ≡ is_err result }
{
    store.put(station, &row.key, &row.value)
}

// Puts a record for which the slots of the store have room.
fn put_row<S: Station>(
    rt: &impl Abort,
    store: &mut Store,
    station: &mut S,
    row: &Row,
) -> Result<(Put, Report), StoreFault>
    requires { IsOpenOn store.old (S.view station.old) }
    ensures open { OnOk result (IsOpenOn store.new (S.view station.new)) }
    ensures closed { store.new.closed ≡ is_err result }
{
    let format = store.format() as usize;
    let (key, value) = (row.key.as_bytes().len(), row.value.as_bytes().len());
    assert!(rt; format <= 2 && 1 <= key && key <= 8 + 16 * format && value + 16 <= 48 * format);
    put(store, station, row)
}

// Takes a key's record away.
fn remove<S: Station>(
    store: &mut Store,
    station: &mut S,
    key: &Key,
) -> Result<(bool, Report), StoreFault>
    requires { IsOpenOn store.old (S.view station.old) }
    ensures open { OnOk result (IsOpenOn store.new (S.view station.new)) }
    ensures closed { store.new.closed ≡ is_err result }
{
    store.remove(station, key)
}

// The value that is bound to a key.
fn get<S: Station>(
    store: &mut Store,
    station: &mut S,
    key: &Key,
) -> Result<Option<Value>, StoreFault>
    requires { IsOpenOn store.old (S.view station.old) }
    ensures open { OnOk result (IsOpenOn store.new (S.view station.new)) }
    ensures closed { store.new.closed ≡ is_err result }
{
    store.get(station, key)
}

// The number of records and the height, by all segments.
fn check<S: Station>(store: &mut Store, station: &mut S) -> Result<Checked, StoreFault>
    requires { IsOpenOn store.old (S.view station.old) }
    ensures open { OnOk result (IsOpenOn store.new (S.view station.new)) }
    ensures closed { store.new.closed ≡ is_err result }
{
    store.check(station)
}

/// Makes the items of an intent.
pub fn batch<S: Station>(
    store: &mut Store,
    station: &mut S,
    intent: &Intent,
) -> Result<Batch, StoreFault>
    requires open { IsOpenOn store.old (S.view station.old) }
    requires some { 1 ≤ length intent.now }
    requires fit { T (list_all (fits_item store.old.place.layout.format) intent.now) }
{
    store.batch(station, intent)
}
