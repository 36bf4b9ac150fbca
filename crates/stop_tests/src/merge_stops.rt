//! Merges that are stopped at each call, and with each call failing: no update is made then, or all are.

use super::closings::see_noted;
use super::openings::{failed_at, image, opened_as, range_over, see_end, see_opened};
use super::stops::PICKS;
use Part::Put;
use mem_sessions::{
    CALLS, Keys, Part, SMOOTH, Verb, answered_by, push_lines, session_by, upgraded,
};
use std::alloc::Global;
use std::process::Abort;

// What a merge is tried on: a file, a text and its line, and the replies to a range before and after it.
#[derive(Drop)]
struct Case {
    file: Vec<u8>,
    text: Vec<u8>,
    line: &'static [u8],
    before: Vec<u8>,
    after: Vec<u8>,
}

// The keys of a store, those that a text removes, those behind all others that it binds, its last two lines, and the keys then.
type Row = (Keys, Keys, Keys, &'static [u8], &'static [u8], Keys);

// From two segments to one.
const SHRINKS: Row = (
    (1, 65),
    (1, 5),
    (66, 68),
    b"end 8\n",
    b"merged stored=3 replaced=0 removed=5 absent=0\n",
    (6, 68),
);

// From one segment to four.
const GROWS: Row = (
    (1, 64),
    (1, 2),
    (65, 130),
    b"end 68\n",
    b"merged stored=66 replaced=0 removed=2 absent=0\n",
    (3, 130),
);

// A row on a store that a command makes, in slot format 1 or 2.
fn case_of(rt: &impl Abort, alloc: Global, command: &str, is_wide: bool, row: &Row) -> Case {
    let (before, removed, bound, end, line, after) = *row;
    let parts = [Put(before.0, before.1)];
    let made = answered_by(alloc, command, "3", Some("4"), &parts).expect(rt, "the store");
    let file = if is_wide {
        upgraded(alloc, &made).expect(rt, "the upgrade")
    } else {
        made
    };
    let mut text = Vec::new(alloc);
    push_lines(&mut text, b"remove ", removed.0, removed.1).expect(rt, "memory");
    push_lines(&mut text, b"record ", bound.0, bound.1).expect(rt, "memory");
    text.extend_from_slice(end).expect(rt, "memory");
    Case {
        file,
        text,
        line,
        before: range_over(rt, alloc, before),
        after: range_over(rt, alloc, after),
    }
}

// Sees that a file has the records of before or those after all updates, and those where the line was begun; and where it has
// those of before, that the text is merged then.
fn see_none_or_all(rt: &impl Abort, alloc: Global, file: &[u8], case: &Case, is_made: bool) {
    let maps = (case.before.as_slice(), case.after.as_slice());
    let opened = opened_as(rt, alloc, file, maps, is_made);
    if opened.said.as_slice() == maps.0 {
        let again = session_by(alloc, Verb::Merge, file, &case.text, SMOOTH).expect(rt, "memory");
        see_end(rt, &again, (0, case.line));
        see_opened(rt, alloc, &again.file, (maps.1, maps.1), true);
    }
}

// Sees what a merge leaves with each call failing: with 6 the updates are made. What was left as by the last call isn't opened
// again.
fn see_failed_calls(rt: &impl Abort, alloc: Global, case: &Case) {
    let mut last = Vec::new(alloc);
    for call in 0..CALLS {
        let failed = failed_at(rt, alloc, Verb::Merge, &case.file, &case.text, call);
        if failed.status == 0 {
            return see_end(rt, &failed, (0, case.line));
        }
        let is_made = failed.status == 6;
        assert!(rt; failed.status == 4 || is_made);
        assert!(rt; failed.said.is_empty());
        if is_made || failed.file.as_slice() != last.as_slice() {
            see_none_or_all(rt, alloc, &failed.file, case, is_made);
            last = failed.file;
        }
    }
    panic!(rt; "the merge makes more calls")
}

// Sees what a stop at each call of a merge leaves: all updates where its line was begun. An image like the last one isn't opened
// again.
fn see_stops(rt: &impl Abort, alloc: Global, case: &Case) {
    let session = see_noted(rt, alloc, Verb::Merge, &case.file, &case.text);
    assert_eq!(rt; session.said(), case.line);
    let mut last = Vec::new(alloc);
    for calls in 0..=session.calls() {
        let is_made = session.said_after(calls) > 0;
        for pick in PICKS {
            let left = image(rt, alloc, &session, calls, pick);
            if is_made || left.as_slice() != last.as_slice() {
                see_none_or_all(rt, alloc, &left, case, is_made);
                last = left;
            }
        }
    }
}

// Fails each call of the merges into a store that a command makes, or stops them after each.
fn see_merges(rt: &impl Abort, alloc: Global, command: &str, fails: bool) {
    for (is_wide, row) in [(false, &SHRINKS), (true, &SHRINKS), (false, &GROWS)] {
        let case = case_of(rt, alloc, command, is_wide, row);
        if fails {
            see_failed_calls(rt, alloc, &case);
        } else {
            see_stops(rt, alloc, &case);
        }
    }
}

#[test]
fn a_failed_call_of_a_merge_leaves_none_or_all(rt: HostRuntime) {
    see_merges(&rt, rt.alloc(), "create", true);
    see_merges(&rt, rt.alloc(), "create-paired", true);
}

#[test]
fn a_stop_at_any_call_of_a_merge_leaves_none_or_all(rt: HostRuntime) {
    see_merges(&rt, rt.alloc(), "create", false);
    see_merges(&rt, rt.alloc(), "create-paired", false);
}
