//! Updates of keys drawn at random, against the ordered map of the standard library.

use crate::files::{layout_of, row};
use crate::store::Bench;
use crate::stores::empty_bench;
use header_gate::Layout;
use key_slot::{Row, Value};
use pma_store::Put;
use station::MemStation;
use std::alloc::Global;
use std::collections::BTreeMap;
use std::process::Abort;

// How many keys there are, more than the store has room for, and how many records that is: 8 * (64 - 3), at height 3.
const KEYS: u32 = 600;

const MOST: u32 = 488;

// The next number of a linear congruential generator, the one that Knuth gives for MMIX.
fn next(x: u64) -> u64 {
    x.wrapping_mul(6364136223846793005)
        .wrapping_add(1442695040888963407)
}

// Binds a key to a value in both, and sees that they answer the same.
fn put_both(
    rt: &impl Abort,
    bench: &mut Bench<MemStation>,
    map: &mut BTreeMap<u32, u32>,
    number: u32,
    value: u32,
) {
    let row = Row {
        key: row(rt, number, bench.format()).key,
        value: Value::from_bytes(&value.to_be_bytes()).expect(rt, "a value"),
    };
    let (put, _) = bench.put(rt, &row).expect(rt, "no fault");
    let full = map.len() == MOST as usize;
    let present = map.contains_key(&number);
    if present || !full {
        let inserted: Result<_, _> = map.insert(number, value);
        assert!(rt; inserted.is_ok(), "memory");
    }
    let want = match (present, full) {
        (true, _) => Put::Replaced,
        (false, false) => Put::New,
        (false, true) => Put::Full { most: MOST },
    };
    assert!(rt; put == want, "put {number} as {value}");
}

// Takes a key away from both, and sees that they answer the same.
fn remove_both(
    rt: &impl Abort,
    bench: &mut Bench<MemStation>,
    map: &mut BTreeMap<u32, u32>,
    number: u32,
) {
    let (removed, _) = bench
        .remove(rt, &row(rt, number, bench.format()).key)
        .expect(rt, "no fault");
    assert!(rt;
        removed == map.remove(&number).is_some(),
        "removal {number}"
    );
}

// A put or a removal of the key that a drawn number names.
fn update_both(
    rt: &impl Abort,
    bench: &mut Bench<MemStation>,
    map: &mut BTreeMap<u32, u32>,
    drawn: u64,
    is_put: bool,
    value: u32,
) {
    let number = ((drawn >> 33) % u64::from(KEYS)) as u32;
    if is_put {
        put_both(rt, bench, map, number, value)
    } else {
        remove_both(rt, bench, map, number)
    }
}

// A hundred updates, with that many puts among sixteen, and a check behind them.
fn hundred(
    rt: &impl Abort,
    bench: &mut Bench<MemStation>,
    map: &mut BTreeMap<u32, u32>,
    round: u32,
    puts: u64,
) {
    let mut x = u64::from(round);
    for i in 0..100 {
        x = next(x);
        update_both(rt, bench, map, x, (x >> 20) % 16 < puts, i);
    }
    let height = bench.height();
    let checked = bench.check(rt).expect(rt, "no fault");
    assert!(rt; checked.records as usize == map.len() && checked.height == height);
}

// Sees that each key has the same value in both.
fn see_both(rt: &impl Abort, bench: &mut Bench<MemStation>, map: &BTreeMap<u32, u32>) {
    for number in 0..KEYS {
        let found = bench
            .get(rt, &row(rt, number, bench.format()).key)
            .expect(rt, "no fault");
        let want = match map.get(&number) {
            Some(value) => Some(Value::from_bytes(&value.to_be_bytes()).expect(rt, "a value")),
            None => None,
        };
        assert!(rt; found == want, "key {number}");
    }
}

// Hundreds of updates with the rounds from `first` on and below `end`, with that many puts among sixteen.
fn rounds(
    rt: &impl Abort,
    bench: &mut Bench<MemStation>,
    map: &mut BTreeMap<u32, u32>,
    first: u32,
    end: u32,
    puts: u64,
) {
    for round in first..end {
        hundred(rt, bench, map, round, puts);
    }
    see_both(rt, bench, map)
}

// Fills an empty store of this layout, and empties it until it shrinks.
fn see_updates(rt: &impl Abort, alloc: Global, layout: Layout) {
    let mut bench = empty_bench(rt, alloc, layout);
    let mut map = BTreeMap::new(alloc);
    rounds(rt, &mut bench, &mut map, 0, 15, 15);
    assert!(rt; map.len() == MOST as usize && bench.height() == 3);
    rounds(rt, &mut bench, &mut map, 15, 36, 1);
    assert!(rt; bench.height() < 3);
    bench.end();
}

/// The first rounds fill the store, and the later ones empty it until it shrinks.
#[test]
fn random_updates_are_those_of_an_ordered_map(rt: HostRuntime) {
    for (format, journal) in [(1, 4), (1, 8), (2, 4), (2, 16)] {
        see_updates(&rt, rt.alloc(), layout_of(format, 3, journal));
    }
}
