//! Stores that go over to slot format 2: what a stop or a fault within an upgrade leaves, and what one within an update leaves
//! behind it.

use super::openings::{
    changed, failed_at, image, range_over, see_end, see_opened, see_session, stopped_at,
};
use super::repairs::{Room, WIDE as WIDE_ROOM, with_counts};
use super::stops::{PICKS, see_update_of};
use Part::{Put, Remove};
use mem_sessions::{
    CALLS, Ended, Part, Plan, SMOOTH, Unmet, Verb, answered_by, answered_on, noted_by, session_by,
    upgraded,
};
use std::alloc::Global;
use std::process::Abort;

// Nothing of the station fails, and no script can be read.
const NO_SCRIPT: Plan<'static> = Plan {
    broken: &[0],
    ..SMOOTH
};

// Upgrades a file of these bytes.
fn upgraded_by(rt: &impl Abort, alloc: Global, file: &[u8], plan: Plan<'_>) -> Ended {
    session_by(alloc, Verb::Upgrade, file, b"", plan).expect(rt, "memory")
}

// A store of height limit 2, made by this command, with the 65 keys from `k001` on.
fn with_65(rt: &impl Abort, alloc: Global, command: &str) -> Vec<u8> {
    answered_by(alloc, command, "2", None, &[Put(1, 65)]).expect(rt, "the store")
}

// Sees that a file has the records of a range's reply, and that an upgrade of it ends well or finds it in format 2.
fn see_either(rt: &impl Abort, alloc: Global, file: &[u8], map: &[u8]) {
    see_opened(rt, alloc, file, (map, map), true);
    let again = upgraded_by(rt, alloc, file, NO_SCRIPT);
    let want = if again.status == 0 {
        (0, b"".as_slice())
    } else {
        (3, b"refused format 0 2\n".as_slice())
    };
    see_end(rt, &again, want);
    see_opened(rt, alloc, &again.file, (map, map), true);
}

// Sees what the upgrade of a store that a command makes leaves with each call failing.
pub(super) fn see_failed_calls(rt: &impl Abort, alloc: Global, command: &str) {
    let file = with_65(rt, alloc, command);
    let map = range_over(rt, alloc, (1, 65));
    for call in 0..CALLS {
        let failed = failed_at(rt, alloc, Verb::Upgrade, &file, b"", call);
        if failed.status == 0 {
            return;
        }
        see_end(rt, &failed, (4, b"".as_slice()));
        see_either(rt, alloc, &failed.file, &map);
    }
    panic!(rt; "the upgrade makes more calls")
}

// And what a stop at each of its calls leaves.
pub(super) fn see_stops(rt: &impl Abort, alloc: Global, command: &str) {
    let file = with_65(rt, alloc, command);
    let map = range_over(rt, alloc, (1, 65));
    let session = noted_by(alloc, Verb::Upgrade, &file, b"", NO_SCRIPT).expect(rt, "memory");
    assert!(rt; session.status == 0 && session.calls() < CALLS);
    for calls in 0..=session.calls() {
        for pick in PICKS {
            let left = image(rt, alloc, &session, calls, pick);
            see_either(rt, alloc, &left, &map);
        }
    }
}

#[test]
fn a_failed_call_of_an_upgrade_keeps_the_records(rt: HostRuntime) {
    see_failed_calls(&rt, rt.alloc(), "create");
}

#[test]
fn a_stop_at_any_call_of_an_upgrade_keeps_the_records(rt: HostRuntime) {
    see_stops(&rt, rt.alloc(), "create");
}

// The file that an upgrade leaves which is stopped between the selector's write and its sync.
fn stopped_at_selector(rt: &impl Abort, alloc: Global, file: &[u8]) -> Vec<u8> {
    for stop in 0..CALLS {
        let stopped = stopped_at(rt, alloc, Verb::Upgrade, file, b"", stop);
        assert_eq!(rt; stopped.status, 4);
        if stopped.file.first() != file.first() {
            return stopped.file;
        }
    }
    panic!(rt; "the selector was never written")
}

// What a selector says, and how a key of 25 bytes is answered then.
const SELECTORS: [(u8, &[u8]); 2] = [
    (3, b"check ok records=65 height=1\noversized key 24\n"),
    (2, b"check ok records=65 height=1\nstored\n"),
];

/// The selector is left either way.
#[test]
fn a_torn_selector_names_either_format(rt: HostRuntime) {
    let file = with_65(&rt, rt.alloc(), "create");
    let map = range_over(&rt, rt.alloc(), (1, 65));
    let stopped = stopped_at_selector(&rt, rt.alloc(), &file);
    for (selector, want) in &SELECTORS {
        let left = changed(&rt, rt.alloc(), &stopped, &[(0, *selector)]);
        see_either(&rt, rt.alloc(), &left, &map);
        let script = b"check\nput abcdefghijklmnopqrstuvwxy\n";
        see_session(&rt, rt.alloc(), &left, script, SMOOTH, (0, want));
    }
}

// A script on a new store of height limit 2 that went over, a line, and the keys before it and after it.
pub(super) type Update = (&'static [Part], &'static [u8], (u32, u32), (u32, u32));

pub(super) const WIDE: [Update; 3] = [
    // grows to height 1
    (&[Put(1, 64)], b"put k065\n", (1, 64), (1, 65)),
    // spreads two segments
    (&[Put(1, 96)], b"put k097\n", (1, 96), (1, 97)),
    // shrinks to height 0
    (
        &[Put(1, 65), Remove(1, 55)],
        b"remove k056\n",
        (56, 65),
        (57, 65),
    ),
];

// A store of format 2 that a command made, behind a script.
fn wide_store(alloc: Global, command: &str, parts: &[Part]) -> Result<Vec<u8>, Unmet> {
    let empty = answered_by(alloc, command, "2", None, &[])?;
    let wide = upgraded(alloc, &empty)?;
    answered_on(alloc, &wide, parts)
}

// Sees what a fault or a stop at each call of an update leaves, of a store of format 2 that a command made.
pub(super) fn see_wide(
    rt: &impl Abort,
    alloc: Global,
    command: &str,
    update: &Update,
    fails: bool,
) {
    let (parts, line, before, after) = *update;
    let file = wide_store(alloc, command, parts).expect(rt, "the store");
    see_update_of(rt, alloc, &file, line, (before, after), fails);
}

#[test]
fn a_failed_call_keeps_what_was_answered_in_format_2(rt: HostRuntime) {
    for update in &WIDE {
        see_wide(&rt, rt.alloc(), "create", update, true);
    }
}

// Files with a journal of two longer segments, and with one of four.
const JOURNALS: [Room; 2] = [
    Room {
        journal: Some("4"),
        region: 24576,
        ..WIDE_ROOM
    },
    WIDE_ROOM,
];

/// A removal spreads four segments of few records, in several batches and in one.
#[test]
fn a_failed_call_of_a_spread_in_format_2(rt: HostRuntime) {
    for room in JOURNALS {
        let file = with_counts(&rt, rt.alloc(), room, &[4, 6, 10, 10]);
        let keys = ((1, 30), (2, 30));
        see_update_of(&rt, rt.alloc(), &file, b"remove k001\n", keys, true);
    }
}

#[test]
fn a_stop_at_any_call_keeps_what_was_answered_in_format_2(rt: HostRuntime) {
    for update in &WIDE {
        see_wide(&rt, rt.alloc(), "create", update, false);
    }
}
