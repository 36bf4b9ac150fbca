//! Batches that are one commit, or grow, spread and shrink a store, or take the first record of a segment, stopped at each
//! call: what is left opens with none of their items or with all of them, and with all of them where a byte of the reply was
//! said. Where a call failed, that opening is stopped at each of its calls too.

use super::openings::{image, range_over, see_opened};
use super::stops::{PICKS, see_faults, see_noted};
use Part::{Put, Remove};
use mem_sessions::{Keys, Part, answered_by, range_reply_behind};
use std::alloc::Global;
use std::process::Abort;

// The height limit of a new store, a script on it, a batch, the keys before it, and after it some records and the keys behind
// them.
pub(super) type Batch = (
    &'static str,
    &'static [Part],
    &'static [u8],
    Keys,
    (&'static [u8], u32),
    Keys,
);

pub(super) const ONE_SEGMENT: Batch = (
    "0",
    &[],
    b"batch put a 1 ; put b ; remove c\n",
    (1, 0),
    (b"record a 1\nrecord b\n", 2),
    (1, 0),
);

// Behind the removal of the first record of a segment comes a new key of it, so the items are made one by one.
pub(super) const TAKES_FIRST: Batch = (
    "2",
    &[Put(1, 65), Remove(1, 55)],
    b"batch put k066 ; remove k060 ; put k067\n",
    (56, 65),
    (b"record k056\nrecord k057\nrecord k058\nrecord k059\n", 4),
    (61, 67),
);

// The same keys in another order are one commit.
pub(super) const TAKES_FIRST_LAST: Batch = (
    "2",
    &[Put(1, 65), Remove(1, 55)],
    b"batch put k067 ; put k066 ; remove k060\n",
    (56, 65),
    (b"record k056\nrecord k057\nrecord k058\nrecord k059\n", 4),
    (61, 67),
);

pub(super) const GROWS: Batch = (
    "2",
    &[Put(1, 64)],
    b"batch put k065 ; remove k001 ; put k002 x ; remove zz\n",
    (1, 64),
    (b"record k002 x\n", 1),
    (3, 65),
);

pub(super) const SPREADS: Batch = (
    "2",
    &[Put(1, 96)],
    b"batch put k097 ; remove k001\n",
    (1, 96),
    (b"", 0),
    (2, 97),
);

pub(super) const SHRINKS: Batch = (
    "2",
    &[Put(1, 65), Remove(1, 55)],
    b"batch remove k056 ; put a\n",
    (56, 65),
    (b"record a\n", 1),
    (57, 65),
);

// Stops a session behind each of its calls.
fn see_stops(rt: &impl Abort, alloc: Global, file: &[u8], line: &[u8], maps: (&[u8], &[u8])) {
    let session = see_noted(rt, alloc, file, line);
    for calls in 0..=session.calls() {
        let is_answered = session.said_after(calls) > 0;
        for pick in PICKS {
            let left = image(rt, alloc, &session, calls, pick);
            see_opened(rt, alloc, &left, maps, is_answered);
        }
    }
}

// Sees what a fault or a stop at each call of a batch leaves, on a store that a command makes.
pub(super) fn see_batch(rt: &impl Abort, alloc: Global, command: &str, batch: &Batch, fails: bool) {
    let (height, parts, line, before, records, after) = *batch;
    let file = answered_by(alloc, command, height, None, parts).expect(rt, "the store");
    let before = range_over(rt, alloc, before);
    let after = range_reply_behind(alloc, records, after).expect(rt, "memory");
    let maps = (before.as_slice(), after.as_slice());
    if fails {
        see_faults(rt, alloc, &file, line, maps);
    } else {
        see_stops(rt, alloc, &file, line, maps);
    }
}

#[test]
fn a_failed_call_leaves_none_or_all(rt: HostRuntime) {
    see_batch(&rt, rt.alloc(), "create", &ONE_SEGMENT, true);
    see_batch(&rt, rt.alloc(), "create", &SHRINKS, true);
}

#[test]
fn a_failed_call_of_a_batch_that_takes_a_first_record(rt: HostRuntime) {
    see_batch(&rt, rt.alloc(), "create", &TAKES_FIRST, true);
    see_batch(&rt, rt.alloc(), "create", &TAKES_FIRST_LAST, true);
}

#[test]
fn a_failed_call_of_a_batch_that_grows(rt: HostRuntime) {
    see_batch(&rt, rt.alloc(), "create", &GROWS, true);
}

#[test]
fn a_failed_call_of_a_batch_that_spreads(rt: HostRuntime) {
    see_batch(&rt, rt.alloc(), "create", &SPREADS, true);
}

#[test]
fn a_stop_leaves_none_or_all(rt: HostRuntime) {
    for batch in [&ONE_SEGMENT, &GROWS, &SPREADS, &SHRINKS] {
        see_batch(&rt, rt.alloc(), "create", batch, false);
    }
}

#[test]
fn a_stop_of_a_batch_that_takes_a_first_record(rt: HostRuntime) {
    for batch in [&TAKES_FIRST, &TAKES_FIRST_LAST] {
        see_batch(&rt, rt.alloc(), "create", batch, false);
    }
}
