//! The record next to a key is looked for, ahead of it and behind it: which is found, how many segments are read for it, and a
//! look that fails.

ghost use Rattle.std.specs.Prelude.{◌≤◌};

use crate::files::{Counts, FORMATS, file_of, layout_of, row};
use crate::sessions::{Keys, Session, Way};
use Way::{Ahead, Behind};
use key_slot::Key;
use segment::StoreFault;
use std::alloc::Global;
use std::process::Abort;

/// The numbers of a lower bound, of the record from which is looked, and of an upper bound.
type Bounds = (Option<u32>, Option<u32>, Option<u32>);

/// What is looked for in a store of this height and these counts, the number of the record that is found, and how many
/// segments are read.
type Look = (u32, Counts, Bounds, Option<u32>, u64);

const ONE: Counts = [10, 0, 0, 0, 0, 0, 0, 0];

const TWO: Counts = [32, 33, 0, 0, 0, 0, 0, 0];

const FOUR: Counts = [31, 31, 31, 33, 0, 0, 0, 0];

const LOOKS: [Look; 14] = [
    (0, [0; 8], (None, None, None), None, 1),
    (0, ONE, (None, None, None), Some(1), 1),
    (0, ONE, (None, Some(3), None), Some(4), 1),
    (0, ONE, (None, Some(10), None), None, 1),
    (1, TWO, (None, None, None), Some(1), 1),
    (1, TWO, (None, Some(31), None), Some(32), 1),
    (1, TWO, (None, Some(32), None), Some(33), 2),
    (1, TWO, (None, Some(32), Some(33)), None, 2),
    (1, TWO, (Some(40), Some(12), None), Some(40), 1),
    (1, TWO, (Some(12), Some(40), None), Some(41), 1),
    (1, TWO, (None, Some(65), None), None, 1),
    (2, FOUR, (None, Some(31), None), Some(32), 2),
    (2, FOUR, (Some(63), None, None), Some(63), 1),
    (2, FOUR, (None, Some(126), None), None, 1),
];

// Where the first record of a segment is the bound, the segment before it is read too, and no third.
const LOOKS_BEHIND: [Look; 14] = [
    (0, [0; 8], (None, None, None), None, 1),
    (0, ONE, (None, None, None), Some(10), 1),
    (0, ONE, (None, Some(3), None), Some(2), 1),
    (0, ONE, (None, Some(1), None), None, 1),
    (1, TWO, (None, None, None), Some(65), 1),
    (1, TWO, (None, Some(34), None), Some(33), 1),
    (1, TWO, (None, Some(33), None), Some(32), 2),
    (1, TWO, (Some(33), None, Some(33)), None, 2),
    (1, TWO, (None, Some(12), Some(40)), Some(11), 1),
    (1, TWO, (None, Some(40), Some(12)), Some(11), 1),
    (1, TWO, (None, Some(1), None), None, 1),
    (2, FOUR, (None, Some(94), None), Some(93), 2),
    (2, FOUR, (None, None, Some(63)), Some(62), 2),
    (2, FOUR, (Some(63), Some(64), None), Some(63), 1),
];

// A session on a store of this height and these counts, on a station whose call of a number fails.
fn session_over(
    rt: &impl Abort,
    alloc: Global,
    format: u32,
    height: u32,
    counts: Counts,
    fails: u32,
) -> Session
    requires { 1 ≤ format × (format ≤ 2) }
{
    let file = file_of(rt, alloc, layout_of(format, 2, 4), height, counts);
    Session::over(rt, alloc, &file, fails)
}

// The key of the record of a number.
fn key(rt: &impl Abort, number: Option<u32>, format: u32) -> Option<Key> {
    match number {
        Some(number) => Some(row(rt, number, format).key),
        None => None,
    }
}

// The keys of the records that have these numbers.
fn keys(rt: &impl Abort, bounds: Bounds, format: u32) -> Keys {
    let (low, past, high) = bounds;
    (
        key(rt, low, format),
        key(rt, past, format),
        key(rt, high, format),
    )
}

// Sees what is found on a way in a store of this format, and that no more is read for it than that many segments.
fn see_look(rt: &impl Abort, alloc: Global, format: u32, way: Way, look: &Look)
    requires { 1 ≤ format × (format ≤ 2) }
{
    let (height, counts, bounds, wanted, segments) = *look;
    let keys = keys(rt, bounds, format);
    let wanted = key(rt, wanted, format);
    let session = session_over(rt, alloc, format, height, counts, 1000);
    let before = session.travel();
    let looked = session.look(rt, way, keys);
    let found = looked.found.expect(rt, "no fault");
    assert!(rt; found.map(|row| row.key) == wanted, "{bounds:?}");
    let after = looked.travel;
    assert_eq!(rt;
        after.read.checked_sub(before.read),
        (4096 * format as u64).checked_mul(segments)
    );
    assert!(rt; after.written == before.written && !looked.closed);
}

// Sees what is found on a way in stores of both formats.
fn see_looks(rt: &impl Abort, alloc: Global, way: Way, looks: &[Look]) {
    for format in FORMATS {
        for look in looks {
            see_look(rt, alloc, format, way, look);
        }
    }
}

/// A record is found in the segment to which the later of two bounds belongs, or in the next one.
#[test]
fn the_next_record_is_found(rt: HostRuntime) {
    see_looks(&rt, rt.alloc(), Ahead, &LOOKS)
}

/// A record is found in the segment to which the earlier of two bounds belongs, or in the one before it.
#[test]
fn the_previous_record_is_found(rt: HostRuntime) {
    see_looks(&rt, rt.alloc(), Behind, &LOOKS_BEHIND)
}

/// The opening of a store of two segments makes five calls, one of which reads both, so that the sixth reads the segment of the
/// bound, and the seventh the other one.
#[test]
fn a_look_that_fails_closes_the_store(rt: HostRuntime) {
    for (way, past, fails, segments) in [
        (Ahead, 32, 5, 1),
        (Ahead, 32, 6, 2),
        (Behind, 33, 5, 1),
        (Behind, 33, 6, 2),
    ] {
        let keys = keys(&rt, (None, Some(past), None), 1);
        let session = session_over(&rt, rt.alloc(), 1, 1, TWO, fails);
        let before = session.travel();
        let looked = session.look(&rt, way, keys);
        assert!(rt; matches!(looked.found, Err(StoreFault::Failed)) && looked.closed);
        assert_eq!(rt;
            looked.travel.read.checked_sub(before.read),
            Some(4096 * segments)
        );
    }
}
