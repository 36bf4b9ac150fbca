//! What is left by a stop or a failing call, opened again.

use mem_sessions::{
    CALLS, Ended, Keys, NotedSession, Plan, SMOOTH, Verb, range_reply, session, session_by,
    with_bytes,
};
use station::Pick;
use std::alloc::Global;
use std::process::Abort;

// The reply to a range over all the keys.
pub(super) fn range_over(rt: &impl Abort, alloc: Global, keys: Keys) -> Vec<u8> {
    range_reply(alloc, keys).expect(rt, "memory")
}

// A copy of a file with some bytes changed.
pub(super) fn changed(
    rt: &impl Abort,
    alloc: Global,
    file: &[u8],
    changes: &[(usize, u8)],
) -> Vec<u8> {
    with_bytes(alloc, file, changes).expect(rt, "memory")
}

// What a crash behind that many calls leaves, with what is pending left as picked.
pub(super) fn image(
    rt: &impl Abort,
    alloc: Global,
    session: &NotedSession,
    calls: u32,
    pick: Pick,
) -> Vec<u8> {
    assert!(rt; calls <= session.calls());
    session.image(alloc, calls, pick).expect(rt, "memory")
}

// Does what a verb says on a file, with a text, while this call of the station fails.
pub(super) fn failed_at(
    rt: &impl Abort,
    alloc: Global,
    verb: Verb,
    file: &[u8],
    text: &[u8],
    call: u32,
) -> Ended {
    let fail = [call];
    let plan = Plan {
        fail: &fail,
        ..SMOOTH
    };
    session_by(alloc, verb, file, text, plan).expect(rt, "memory")
}

// The same while each call from this one on fails.
pub(super) fn stopped_at(
    rt: &impl Abort,
    alloc: Global,
    verb: Verb,
    file: &[u8],
    text: &[u8],
    call: u32,
) -> Ended {
    let plan = Plan {
        stop: Some(call),
        ..SMOOTH
    };
    session_by(alloc, verb, file, text, plan).expect(rt, "memory")
}

// Sees how a session ended: its status, and what was said.
pub(super) fn see_end(rt: &impl Abort, ended: &Ended, want: (u8, &[u8])) {
    assert_eq!(rt; (ended.status, ended.said.as_slice()), want);
}

// Sees that a script on a file ends with a status, and what is said by then.
pub(super) fn see_session(
    rt: &impl Abort,
    alloc: Global,
    file: &[u8],
    script: &[u8],
    plan: Plan<'_>,
    want: (u8, &[u8]),
) -> Ended {
    let ended = session(alloc, file, script, plan).expect(rt, "memory");
    see_end(rt, &ended, want);
    ended
}

// Sees that a session makes no call from this one on.
pub(super) fn see_steady(rt: &impl Abort, alloc: Global, file: &[u8], line: &[u8], call: u32) {
    let ended = stopped_at(rt, alloc, Verb::Run, file, line, call);
    assert_eq!(rt; ended.status, 0);
}

// Sees that a file opens as one of two maps, and as the second one where that was answered. Gives what was said and the file that
// the opening leaves.
pub(super) fn opened_as(
    rt: &impl Abort,
    alloc: Global,
    file: &[u8],
    maps: (&[u8], &[u8]),
    is_answered: bool,
) -> Ended {
    let (before, after) = maps;
    let opened = session(alloc, file, b"range * *\n", SMOOTH).expect(rt, "memory");
    assert_eq!(rt; opened.status, 0);
    let said = opened.said.as_slice();
    assert!(rt; said == after || !is_answered && said == before);
    opened
}

// The same, and gives the file alone.
pub(super) fn see_opened(
    rt: &impl Abort,
    alloc: Global,
    file: &[u8],
    maps: (&[u8], &[u8]),
    is_answered: bool,
) -> Vec<u8> {
    opened_as(rt, alloc, file, maps, is_answered).file
}

// Sees that a file opens as a map once its opening was stopped at each of its calls. What the last stop left isn't opened again.
fn see_map_after_stops(rt: &impl Abort, alloc: Global, file: &[u8], map: &[u8]) {
    let mut last = Vec::from_slice(alloc, file).expect(rt, "memory");
    for stop in 0..CALLS {
        let stopped = stopped_at(rt, alloc, Verb::Run, file, b"", stop);
        if stopped.status == 0 {
            return;
        }
        assert_eq!(rt; stopped.status, 4);
        if stopped.file.as_slice() != last.as_slice() {
            see_opened(rt, alloc, &stopped.file, (map, map), true);
            last = stopped.file;
        }
    }
    panic!(rt; "the opening makes more calls")
}

// Sees that a file opens as one of two maps, and as the second one where that was answered; and where an opening writes, also
// once it was stopped at each of its calls: the map is the same then.
pub(super) fn see_opened_after_stops(
    rt: &impl Abort,
    alloc: Global,
    file: &[u8],
    maps: (&[u8], &[u8]),
    is_answered: bool,
) {
    let opened = opened_as(rt, alloc, file, maps, is_answered);
    if opened.file.as_slice() != file {
        see_map_after_stops(rt, alloc, file, &opened.said);
    }
}
