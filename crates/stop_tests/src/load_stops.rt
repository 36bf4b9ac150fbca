//! Loads that are stopped at each call, and with each call failing: no record is there then, or all are.

use super::closings::see_noted;
use super::openings::{failed_at, image, opened_as, range_over, see_end, see_opened};
use super::stops::PICKS;
use mem_sessions::{CALLS, SMOOTH, Verb, answered_by, session_by, upgraded};
use std::alloc::Global;
use std::process::Abort;

// The reply to a range over no records.
const NONE: &[u8] = b"end 0\n";

// An empty store of height limit 2 that a command makes, with a journal of four pages, in slot format 1 or 2.
fn empty_store(rt: &impl Abort, alloc: Global, command: &str, is_wide: bool) -> Vec<u8> {
    let empty = answered_by(alloc, command, "2", Some("4"), &[]).expect(rt, "the store");
    if is_wide {
        return upgraded(alloc, &empty).expect(rt, "the upgrade");
    }
    empty
}

// Sees that a file has no record or all of a text, and where it has none, that the text is loaded then.
fn see_none_or_all(rt: &impl Abort, alloc: Global, file: &[u8], text: &[u8]) {
    let opened = opened_as(rt, alloc, file, (NONE, text), false);
    if opened.said.as_slice() == NONE {
        let again = session_by(alloc, Verb::Load, file, text, SMOOTH).expect(rt, "memory");
        see_end(rt, &again, (0, b"".as_slice()));
        see_opened(rt, alloc, &again.file, (text, text), true);
    }
}

// Sees what the load of 65 records leaves with each call failing.
pub(super) fn see_failed_calls(rt: &impl Abort, alloc: Global, command: &str, is_wide: bool) {
    let file = empty_store(rt, alloc, command, is_wide);
    let text = range_over(rt, alloc, (1, 65));
    for call in 0..CALLS {
        let failed = failed_at(rt, alloc, Verb::Load, &file, &text, call);
        if failed.status == 0 {
            return;
        }
        see_end(rt, &failed, (4, b"".as_slice()));
        see_none_or_all(rt, alloc, &failed.file, &text);
    }
    panic!(rt; "the load makes more calls")
}

#[test]
fn a_failed_call_of_a_load_leaves_none_or_all(rt: HostRuntime) {
    see_failed_calls(&rt, rt.alloc(), "create", false);
    see_failed_calls(&rt, rt.alloc(), "create", true);
}

// Sees what a stop at each call of the load of 65 records leaves.
pub(super) fn see_stops(rt: &impl Abort, alloc: Global, command: &str, is_wide: bool) {
    let file = empty_store(rt, alloc, command, is_wide);
    let text = range_over(rt, alloc, (1, 65));
    let session = see_noted(rt, alloc, Verb::Load, &file, &text);
    for calls in 0..=session.calls() {
        for pick in PICKS {
            let left = image(rt, alloc, &session, calls, pick);
            see_none_or_all(rt, alloc, &left, &text);
        }
    }
}

#[test]
fn a_stop_at_any_call_of_a_load_leaves_none_or_all(rt: HostRuntime) {
    see_stops(&rt, rt.alloc(), "create", false);
    see_stops(&rt, rt.alloc(), "create", true);
}
