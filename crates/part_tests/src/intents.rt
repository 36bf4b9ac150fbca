//! The intent of a batch in a header page: its bytes, gates that count and gates that don't, and the first thing that is
//! wrong with one.

ghost use Rattle.std.specs.Prelude.{◌≡◌, ◌≤◌, IfOk};
ghost use Rattle.station.specs.MemStation.{mem_view};
ghost use Rattle.header_gate.specs.Places.{page_size};

use crate::records::{key, row};
use batch_intent::{Intent, IntentFault, Item, read_intent};
use header_gate::{HeaderFault, Layout, Reason};
use station::MemStation;
use std::alloc::Global;
use std::process::Abort;

// Places in the header page: the intent's gate, and the intent, which ends with the page.
const GATE: usize = 640;

const INTENT: usize = 3584;

// The layout of a file of a version and a slot format.
fn layout_of(version: u32, format: u32) -> Layout
    ensures { (result.version ≡ version) × (result.format ≡ format) }
{
    Layout {
        hmax: 2,
        journal: 4,
        version,
        format,
    }
}

// A header page with an intent and the byte of its gate, and with other bytes behind the intent.
fn page(rt: &impl Abort, alloc: Global, gate: u8, intent: &[u8]) -> MemStation
    ensures { page_size ≤ (mem_view result).fixed.reach }
{
    let mut bytes = vec![in alloc; 0xA5; 4096].expect(rt, "memory");
    assert!(rt; intent.len() <= 512);
    bytes[GATE] = gate;
    bytes[INTENT..INTENT + intent.len()].copy_from_slice(intent);
    MemStation::new(alloc, &bytes, 4096, 0, &[], None).expect(rt, "memory")
}

// A put of a key and a value of some size.
fn put(rt: &impl Abort, key: &[u8], value: &[u8]) -> Item {
    let row = row(rt, key, value);
    Item::Put(row.key, row.value)
}

// The intent of `batch put a 1 ; remove c`, and its bytes.
const SPELLED: [u8; 10] = [2, 1, 1, 1, b'a', b'1', 2, 1, 0, b'c'];

fn spelled(rt: &impl Abort) -> Intent {
    let mut intent = Intent::new();
    add(rt, &mut intent, put(rt, b"a", b"1"));
    add(rt, &mut intent, Item::Remove(key(rt, b"c")));
    intent
}

// Adds an item for which there is room.
fn add(rt: &impl Abort, intent: &mut Intent, item: Item) {
    let pushed = intent.push(item);
    assert!(rt; pushed.is_ok(), "there is room for the item");
}

/// Version, the byte of the gate, and whether the items are to be applied: by the low bit, and from version 2 on.
const GATES: [(u32, u8, bool); 8] = [
    (1, 1, false),
    (1, 0xFF, false),
    (2, 0, false),
    (2, 2, false),
    (2, 0xFE, false),
    (2, 1, true),
    (2, 0xFF, true),
    (3, 1, true),
];

#[test]
fn a_gate_counts_by_its_low_bit(rt: HostRuntime) {
    let want = spelled(&rt);
    for (version, gate, counts) in GATES {
        let mut station = page(&rt, rt.alloc(), gate, &SPELLED);
        let found = read_intent(&mut station, layout_of(version, 1)).expect(&rt, "an intent");
        assert!(rt;
            found == counts.then_some(want),
            "version {version}, gate {gate}"
        );
    }
}

/// What stands behind an even gate, and in a file without intents, is not looked at.
#[test]
fn an_even_gate_hides_anything(rt: HostRuntime) {
    for (version, gate) in [(1, 1), (2, 0), (2, 0xFE)] {
        let mut station = page(&rt, rt.alloc(), gate, &[17, 9, 9]);
        let found = read_intent(&mut station, layout_of(version, 1)).expect(&rt, "an intent");
        assert!(rt; found.is_none());
    }
}

// A slot format, an intent, and the place of the first thing that is wrong.
type Refused<'a> = (u32, &'a [u8], Option<u32>);

// Sees what is answered of intents behind an odd gate.
fn see_refused(rt: &impl Abort, alloc: Global, rows: &[Refused<'_>]) {
    for (format, intent, place) in rows {
        assert!(rt; 1 <= *format && *format <= 2);
        let mut station = page(rt, alloc, 1, intent);
        let found = read_intent(&mut station, layout_of(2, *format)).err();
        let want = match place {
            Some(place) => Some(HeaderFault::NotStore(Reason::Intent { place: *place })),
            None => None,
        };
        assert_eq!(rt; found, want);
    }
}

/// The number of items is wrong, or the first item is.
#[test]
fn the_first_wrong_place_of_an_intent(rt: HostRuntime) {
    see_refused(
        &rt,
        rt.alloc(),
        &[
            (1, &[0], Some(3584)),
            (1, &[17], Some(3584)),
            (1, &[1, 3, 1, 0, b'a'], Some(3585)),
            (1, &[1, 0, 1, 0, b'a'], Some(3585)),
            (1, &[1, 1, 0, 0], Some(3585)),
            (1, &[1, 2, 0, 0], Some(3585)),
            (1, &[1, 2, 1, 1, b'c', b'd'], Some(3585)),
            (1, &[2, 1, 1, 0, b'a', 2, 1, 0, b'a'], Some(3589)),
            (1, &[2, 2, 1, 0, b'a', 3, 1, 0, b'b'], Some(3589)),
            (1, &[2, 1, 1, 0, b'a', 2, 1, 0, b'b'], None),
            (1, &[1, 1, 1, 0, b'a', 3, 1, 0, b'b'], None),
        ],
    )
}

// An intent of one put with a key of `k` and a value of `v` of these sizes, as far as there is room for it.
fn one_put(rt: &impl Abort, alloc: Global, key: u8, value: u8) -> Vec<u8> {
    let mut bytes = Vec::from_slice(alloc, &[1, 1, key, value]).expect(rt, "memory");
    for _ in 0..key {
        bytes.push(b'k').expect(rt, "memory");
    }
    for _ in 0..value {
        bytes.push(b'v').expect(rt, "memory");
    }
    bytes.truncate(512);
    bytes
}

/// Format, sizes of key and value, and whether they are refused.
const SIZES: [(u32, u8, u8, bool); 8] = [
    (1, 24, 32, false),
    (1, 25, 0, true),
    (1, 1, 33, true),
    (2, 25, 33, false),
    (2, 40, 80, false),
    (2, 41, 0, true),
    (2, 1, 81, true),
    (2, 255, 255, true),
];

#[test]
fn sizes_are_those_of_the_format(rt: HostRuntime) {
    for (format, key, value, is_refused) in SIZES {
        let intent = one_put(&rt, rt.alloc(), key, value);
        let place = is_refused.then_some(3585);
        see_refused(&rt, rt.alloc(), &[(format, &intent, place)]);
    }
}

// An intent of that many puts with keys of 24 bytes and values of 32, of which each has 59 bytes; what doesn't end within the
// page is cut.
fn long_puts(rt: &impl Abort, alloc: Global, count: u8) -> Vec<u8> {
    let mut bytes = Vec::from_slice(alloc, &[count]).expect(rt, "memory");
    for i in 0..count {
        bytes
            .extend_from_slice(&[1, 24, 32, b'a' + i % 26])
            .expect(rt, "memory");
        bytes.extend_from_slice(&[b'k'; 23]).expect(rt, "memory");
        bytes.extend_from_slice(&[b'v'; 32]).expect(rt, "memory");
    }
    bytes.truncate(512);
    bytes
}

/// Eight such puts end within the page, and the ninth begins at 4057.
#[test]
fn an_item_ends_within_the_page(rt: HostRuntime) {
    for (count, place) in [(8, None), (9, Some(4057)), (16, Some(4057))] {
        let intent = long_puts(&rt, rt.alloc(), count);
        see_refused(&rt, rt.alloc(), &[(1, &intent, place)]);
    }
}

/// A further item is refused by the first of its faults, and changes nothing.
#[test]
fn an_intent_takes_no_more(rt: HostRuntime) {
    let mut intent = spelled(&rt);
    let again = intent.push(put(&rt, b"c", b"2"));
    assert_eq!(rt; again, Err(IntentFault::Repeated));
    assert!(rt; intent == spelled(&rt));
    for i in 0..14u8 {
        add(&rt, &mut intent, put(&rt, &[b'k', i], b""));
    }
    assert_eq!(rt; intent.len(), 16);
    let full = intent.push(put(&rt, b"c", b""));
    assert_eq!(rt; full, Err(IntentFault::TooMany));
    let mut long = Intent::new();
    for i in 0..8u8 {
        add(&rt, &mut long, put(&rt, &[i + 1; 24], &[b'v'; 32]));
    }
    let late = long.push(put(&rt, &[9; 24], &[b'v'; 32]));
    assert_eq!(rt; late, Err(IntentFault::TooLong));
    assert_eq!(rt; long.len(), 8);
}
