//! A session on a store in memory, as tests use it, and the calls of one. Each call is made here alone, since a function that makes
//! one takes in all that it promises when it is proved, and a test has use for a clause of it at most.

ghost use Rattle.std.specs.Prelude.{◌≡◌, ◌≤◌, T, IsTrue, is_err, length, OnOk};
ghost use Rattle.std.specs.List.{list_all};
ghost use Rattle.batch_intent.specs.Spelling.{fits_item};
ghost use Rattle.key_slot.specs.Record.{is_record};
ghost use Rattle.pma_store.specs.StoreView.{IsOpenOn};
ghost use Rattle.station.specs.MemStation.{mem_view};

use crate::store::open;
use batch_intent::Intent;
use cost_ledger::Cost;
use key_slot::{Key, Row};
use pma_store::{Batch, Metered, Put, Report, Store};
use range_scan::Seek;
use segment::StoreFault;
use station::{MemStation, Station, Travel};
use std::alloc::Global;
use std::marker::Model;
use std::process::Abort;

/// A session on a store, and the station on which that is open, unless a fault has closed it. Clauses see nothing of it.
#[derive(Drop)]
pub struct Session {
    store: Metered,
    station: MemStation,
}

/// Which way is looked from a record.
#[derive(Clone, Copy)]
pub enum Way {
    Ahead,
    Behind,
}

/// What a look found, and what the station had read and written and whether the store was closed then.
#[derive(Drop)]
pub struct Looked {
    /// The record, if there is one.
    pub found: Result<Option<Row>, StoreFault>,
    /// What was read and written.
    pub travel: Travel,
    /// Whether the look has closed the store.
    pub closed: bool,
}

/// The keys of a lower bound, of the record from which is looked, and of an upper bound.
pub type Keys = (Option<Key>, Option<Key>, Option<Key>);

impl Model for Session {
    ghost use Rattle.station.specs.MemStation.{mem_view};
    ghost use Rattle.store_tests.specs.Bench.{IsOpenUnlessClosed};

    ghost Value = { Unit {0} };

    ghost view = { λ s. tt };

    ghost invariant = { λ s. IsOpenUnlessClosed s.store.store (mem_view s.station) };
}

impl Session {
    /// Begins a session on a store in memory that holds a file, whose call of a number fails.
    pub fn over(rt: &impl Abort, alloc: Global, file: &[u8], fails: u32) -> Session {
        assert!(rt; file.len() < 1000000);
        let mut station = MemStation::new(alloc, file, file.len(), 0, &[fails], None).expect(
            rt, "memory",
        );
        let store = open(alloc, &mut station).expect(rt, "it opens");
        Session::begin(store, station)
    }

    // Begins a session on a store.
    fn begin(store: Store, station: MemStation) -> Session
        requires { IsOpenOn store (mem_view station) }
    {
        Session {
            store: Metered::new(store),
            station,
        }
    }

    /// Ends the session. A function that has one at several exits ends it in each, which costs its proof more than all else.
    pub fn end(self) {}

    /// The slot format.
    pub fn format(&self) -> u32 {
        self.store.format()
    }

    /// What was charged.
    pub fn cost(&self) -> Cost {
        self.store.cost()
    }

    /// Whether a fault has closed the store.
    pub fn closed(&self) -> bool {
        self.store.closed()
    }

    /// What was read and written.
    pub fn travel(&self) -> Travel {
        self.station.travel()
    }

    /// The bytes of the file.
    pub fn held(&self) -> &[u8] {
        self.station.held()
    }

    /// Binds a record's key to its value. The slots of the store have room for both.
    pub fn put(&mut self, rt: &impl Abort, row: &Row) -> Result<(Put, Report), StoreFault> {
        let format = self.store.format() as usize;
        let (key, value) = (row.key.as_bytes().len(), row.value.as_bytes().len());
        assert!(rt; format <= 2 && 1 <= key && key <= 8 + 16 * format && value + 16 <= 48 * format);
        assert!(rt; self.store.cost().updates < 1000000 && !self.store.closed());
        put(&mut self.store, &mut self.station, row)
    }

    /// Takes a key's record away.
    pub fn remove(&mut self, rt: &impl Abort, key: &Key) -> Result<(bool, Report), StoreFault> {
        assert!(rt; self.store.cost().updates < 1000000 && !self.store.closed());
        remove(&mut self.store, &mut self.station, key)
    }

    /// Makes the items of an intent, whose records are of the store's format.
    pub fn batch(
        &mut self,
        rt: &impl Abort,
        intent: &Intent,
        format: u32,
    ) -> Result<Batch, StoreFault>
        requires some { 1 ≤ length intent.now }
        requires fit { T (list_all (fits_item format) intent.now) }
    {
        assert!(rt; self.store.format() == format);
        assert!(rt; self.store.cost().updates < 1000000 && !self.store.closed());
        batch(&mut self.store, &mut self.station, intent)
    }

    /// Looks for a record on a way, and ends the session.
    pub fn look(self, rt: &impl Abort, way: Way, keys: Keys) -> Looked {
        let Session {
            mut store,
            mut station,
        } = self;
        assert!(rt; !store.closed());
        let found = match way {
            Way::Ahead => first_row(&mut store, &mut station, keys),
            Way::Behind => last_row(&mut store, &mut station, keys),
        };
        Looked {
            found,
            travel: station.travel(),
            closed: store.closed(),
        }
    }
}

// Binds a record's key to its value.
fn put(
    store: &mut Metered,
    station: &mut MemStation,
    row: &Row,
) -> Result<(Put, Report), StoreFault>
    requires open { IsOpenOn store.old.store (mem_view station.old) }
    requires fits { IsTrue (is_record store.old.store.place.layout.format (row.now.key, row.now.value)) }
    requires few { store.old.ledger.updates ≤ 1000000 }
    ensures open { OnOk result (IsOpenOn store.new.store (mem_view station.new)) }
    ensures closed { store.new.store.closed ≡ is_err result }
{
    store.put(station, &row.key, &row.value)
}

// Takes a key's record away.
fn remove(
    store: &mut Metered,
    station: &mut MemStation,
    key: &Key,
) -> Result<(bool, Report), StoreFault>
    requires open { IsOpenOn store.old.store (mem_view station.old) }
    requires few { store.old.ledger.updates ≤ 1000000 }
    ensures open { OnOk result (IsOpenOn store.new.store (mem_view station.new)) }
    ensures closed { store.new.store.closed ≡ is_err result }
{
    store.remove(station, key)
}

// Makes the items of an intent.
fn batch(
    store: &mut Metered,
    station: &mut MemStation,
    intent: &Intent,
) -> Result<Batch, StoreFault>
    requires open { IsOpenOn store.old.store (mem_view station.old) }
    requires some { 1 ≤ length intent.now }
    requires fit { T (list_all (fits_item store.old.store.place.layout.format) intent.now) }
    requires few { store.old.ledger.updates ≤ 1000000 }
    ensures open { OnOk result (IsOpenOn store.new.store (mem_view station.new)) }
    ensures closed { store.new.store.closed ≡ is_err result }
{
    store.batch(station, intent)
}

// Looks for a record ahead.
fn first_row(
    store: &mut Metered,
    station: &mut MemStation,
    keys: Keys,
) -> Result<Option<Row>, StoreFault>
    requires { IsOpenOn store.old.store (mem_view station.old) }
{
    let (low, past, high) = keys;
    store.first_row(station, low, past, high)
}

// Looks for a record behind.
fn last_row(
    store: &mut Metered,
    station: &mut MemStation,
    keys: Keys,
) -> Result<Option<Row>, StoreFault>
    requires { IsOpenOn store.old.store (mem_view station.old) }
{
    let (low, past, high) = keys;
    store.last_row(station, low, past, high)
}
