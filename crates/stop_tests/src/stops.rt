//! Updates that grow, spread and shrink a store, stopped at each call: what is left opens as the records before the update or
//! after it. Where a call failed, that opening is stopped at each of its calls too.

use super::openings::{failed_at, image, range_over, see_opened_after_stops, see_steady};
use Part::{Put, Remove};
use mem_sessions::{CALLS, Keys, NotedSession, Part, Verb, answered_by, noted};
use station::Pick;
use std::alloc::Global;
use std::process::Abort;

// What a crash may leave of each pending byte.
pub(super) const PICKS: [Pick; 3] = [Pick::Settled, Pick::Held, Pick::Fill(0xA5)];

// The height limit and the journal of a new store, a script on it, a line, and the keys before it and after it.
pub(super) type Update = (
    &'static str,
    Option<&'static str>,
    &'static [Part],
    &'static [u8],
    Keys,
    Keys,
);

pub(super) const UPDATES: [Update; 9] = [
    ("0", None, &[], b"put k001\n", (1, 0), (1, 1)),
    ("0", None, &[Put(1, 3)], b"put k004\n", (1, 3), (1, 4)),
    // grows to height 1
    ("2", None, &[Put(1, 64)], b"put k065\n", (1, 64), (1, 65)),
    // spreads two segments
    ("2", None, &[Put(1, 96)], b"put k097\n", (1, 96), (1, 97)),
    // grows to height 2
    ("2", None, &[Put(1, 126)], b"put k127\n", (1, 126), (1, 127)),
    // spreads two segments
    (
        "2",
        None,
        &[Put(1, 65), Remove(1, 28)],
        b"remove k029\n",
        (29, 65),
        (30, 65),
    ),
    // shrinks to height 0
    (
        "2",
        None,
        &[Put(1, 65), Remove(1, 55)],
        b"remove k056\n",
        (56, 65),
        (57, 65),
    ),
    // spreads four segments, in many batches and in one
    (
        "3",
        Some("4"),
        &[Put(1, 189)],
        b"put k190\n",
        (1, 189),
        (1, 190),
    ),
    ("3", None, &[Put(1, 189)], b"put k190\n", (1, 189), (1, 190)),
];

// Fails each call of a session in turn. None of them is tried again. What the last fault left isn't opened again, unless a byte
// of the reply was said.
pub(super) fn see_faults(
    rt: &impl Abort,
    alloc: Global,
    file: &[u8],
    line: &[u8],
    maps: (&[u8], &[u8]),
) {
    let mut last = Vec::new(alloc);
    for call in 0..CALLS {
        let failed = failed_at(rt, alloc, Verb::Run, file, line, call);
        if failed.status == 0 {
            return see_steady(rt, alloc, file, line, call);
        }
        assert!(rt; failed.status == 4 || failed.status == 6);
        let is_answered = failed.status == 6 || !failed.said.is_empty();
        if is_answered || failed.file.as_slice() != last.as_slice() {
            see_opened_after_stops(rt, alloc, &failed.file, maps, is_answered);
            last = failed.file;
        }
    }
    panic!(rt; "the session makes more calls")
}

// A script that is answered well on a file, with its calls noted.
pub(super) fn see_noted(
    rt: &impl Abort,
    alloc: Global,
    file: &[u8],
    script: &[u8],
) -> NotedSession {
    let session = noted(alloc, file, script).expect(rt, "memory");
    assert_eq!(rt; session.status, 0);
    assert!(rt; session.calls() < CALLS, "the session makes more calls");
    session
}

// Sees what a crash behind that many calls leaves, with what is pending left in three ways. An image like the last one, as where
// nothing is pending, isn't opened again.
pub(super) fn see_crash(
    rt: &impl Abort,
    alloc: Global,
    session: &NotedSession,
    calls: u32,
    maps: (&[u8], &[u8]),
    is_answered: bool,
) {
    let mut last = Vec::new(alloc);
    for pick in PICKS {
        let left = image(rt, alloc, session, calls, pick);
        if left.as_slice() != last.as_slice() {
            see_opened_after_stops(rt, alloc, &left, maps, is_answered);
            last = left;
        }
    }
}

// Stops a session after each of its calls.
pub(super) fn see_stops(
    rt: &impl Abort,
    alloc: Global,
    file: &[u8],
    line: &[u8],
    maps: (&[u8], &[u8]),
) {
    let session = see_noted(rt, alloc, file, line);
    for calls in 0..=session.calls() {
        let is_answered = session.said_after(calls) > 0;
        see_crash(rt, alloc, &session, calls, maps, is_answered);
    }
}

// Sees what a fault or a stop at each call of an update of a store that a command makes leaves.
pub(super) fn see_update(
    rt: &impl Abort,
    alloc: Global,
    command: &str,
    update: &Update,
    fails: bool,
) {
    let (height, journal, parts, line, before, after) = *update;
    let file = answered_by(alloc, command, height, journal, parts);
    let file = file.expect(rt, "the store");
    see_update_of(rt, alloc, &file, line, (before, after), fails);
}

// Sees the same of an update of a file, and of the keys before it and after it.
pub(super) fn see_update_of(
    rt: &impl Abort,
    alloc: Global,
    file: &[u8],
    line: &[u8],
    keys: (Keys, Keys),
    fails: bool,
) {
    let (before, after) = keys;
    let before = range_over(rt, alloc, before);
    let after = range_over(rt, alloc, after);
    let maps = (before.as_slice(), after.as_slice());
    if fails {
        see_faults(rt, alloc, file, line, maps);
    } else {
        see_stops(rt, alloc, file, line, maps);
    }
}

#[test]
fn a_failed_call_keeps_what_was_answered(rt: HostRuntime) {
    for update in &UPDATES {
        see_update(&rt, rt.alloc(), "create", update, true);
    }
}

#[test]
fn a_stop_at_any_call_keeps_what_was_answered(rt: HostRuntime) {
    for update in &UPDATES {
        see_update(&rt, rt.alloc(), "create", update, false);
    }
}
