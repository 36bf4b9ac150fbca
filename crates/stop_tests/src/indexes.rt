//! Stores whose file has room for an index, stopped at each call and with each call failing: what is left opens by its region and
//! by its index.

use super::openings::{failed_at, image, range_over, see_opened};
use super::stops::{PICKS, see_noted};
use Part::Put;
use mem_sessions::{CALLS, Faults, Keys, NO_FAULTS, Part, Verb, answered_by, quick_session};
use std::alloc::Global;
use std::process::Abort;

// The command that makes a store with room for an index.
pub(super) const COMMAND: &str = "create-indexed";

// A store of 65 records in two segments, made by this command, whose index a run left.
pub(super) fn left(rt: &impl Abort, alloc: Global, command: &str) -> Vec<u8> {
    answered_by(alloc, command, "2", None, &[Put(1, 65)]).expect(rt, "the store")
}

// A line, and the keys before it and after it. All of them close the index and leave it.
type Line = (&'static [u8], Keys, Keys);

const LINES: [Line; 3] = [
    (b"", (1, 65), (1, 65)),
    (b"put k066\n", (1, 65), (1, 66)),
    (b"remove k001\n", (1, 65), (2, 65)),
];

// Sees that a file opens by its region and, if it has one, by its index as one of two maps.
pub(super) fn see_both(
    rt: &impl Abort,
    alloc: Global,
    file: &[u8],
    maps: (&[u8], &[u8]),
    is_answered: bool,
) {
    see_opened(rt, alloc, file, maps, is_answered);
    let (before, after) = maps;
    let quick = quick_session(alloc, file, b"range * *\n", NO_FAULTS);
    let (status, station) = quick.expect(rt, "memory");
    assert_eq!(rt; status, 0);
    let said = station.said.as_slice();
    assert!(rt; said == after || !is_answered && said == before);
}

// Stops a run after each of its calls, with what is pending left in three ways.
fn see_stops(rt: &impl Abort, alloc: Global, file: &[u8], line: &Line) {
    let (script, before, after) = *line;
    let (before, after) = (range_over(rt, alloc, before), range_over(rt, alloc, after));
    let session = see_noted(rt, alloc, file, script);
    for calls in 0..=session.calls() {
        let is_answered = session.said_after(calls) > 0;
        for pick in PICKS {
            let left = image(rt, alloc, &session, calls, pick);
            see_both(rt, alloc, &left, (&before, &after), is_answered);
        }
    }
}

// Fails each call of a run in turn.
fn see_faults(rt: &impl Abort, alloc: Global, file: &[u8], line: &Line) {
    let (script, before, after) = *line;
    let (before, after) = (range_over(rt, alloc, before), range_over(rt, alloc, after));
    let made = see_noted(rt, alloc, file, script).calls();
    for call in 0..made {
        let failed = failed_at(rt, alloc, Verb::Run, file, script, call);
        let status = failed.status;
        let is_answered = !failed.said.is_empty();
        assert!(rt; status == 4 || status == 6 || status == 0 && is_answered);
        see_both(rt, alloc, &failed.file, (&before, &after), is_answered);
    }
}

// Fails each call of a quick run in turn, or all from it on, with what is pending left in three ways.
fn see_quick_faults(rt: &impl Abort, alloc: Global, file: &[u8], line: &Line, stops: bool) {
    let (script, before, after) = *line;
    let (before, after) = (range_over(rt, alloc, before), range_over(rt, alloc, after));
    for call in 0..u64::from(CALLS) {
        let from = if stops { call } else { u64::MAX };
        let failed = quick_session(alloc, file, script, Faults { one: call, from });
        let (status, failed) = failed.expect(rt, "memory");
        if failed.calls <= call {
            return;
        }
        let is_answered = !failed.said.is_empty();
        assert!(rt; status == 4 || status == 0 && is_answered);
        for left in [&failed.file, &failed.settled, &failed.filled] {
            see_both(rt, alloc, left, (&before, &after), is_answered);
        }
    }
    panic!(rt; "the quick run makes more calls")
}

// A stop at any call of a closing, of what follows it and of a leaving, in a store that a command makes.
pub(super) fn see_each_stop(rt: &impl Abort, alloc: Global, command: &str) {
    let file = left(rt, alloc, command);
    for line in &LINES {
        see_stops(rt, alloc, &file, line);
    }
}

// And each failing call of them, of a run and of a quick run.
pub(super) fn see_each_fault(rt: &impl Abort, alloc: Global, command: &str) {
    let file = left(rt, alloc, command);
    for line in &LINES {
        see_faults(rt, alloc, &file, line);
        see_quick_faults(rt, alloc, &file, line, false);
        see_quick_faults(rt, alloc, &file, line, true);
    }
}

#[test]
fn a_stop_at_any_call_leaves_a_right_index_or_none(rt: HostRuntime) {
    see_each_stop(&rt, rt.alloc(), COMMAND);
}

#[test]
fn a_failed_call_leaves_a_right_index_or_none(rt: HostRuntime) {
    see_each_fault(&rt, rt.alloc(), COMMAND);
}
