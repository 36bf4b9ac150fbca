//! Dumps, upgrades, merges and loads that are stopped at each call, and with each call failing: of stores whose index is open,
//! which they close, and dumps of one whose file has no room for an index.

use super::indexes::{COMMAND, left, see_both};
use super::openings::{failed_at, image, range_over};
use super::stops::PICKS;
use Part::Put;
use mem_sessions::{CALLS, NotedSession, Part, SMOOTH, Verb, answered, answered_by, noted_by};
use std::alloc::Global;
use std::process::Abort;

// What is said in the end, and the replies to a range before and after.
type Want<'a> = (&'a [u8], (&'a [u8], &'a [u8]));

// Does what a verb says on a file, with a text, while its calls are noted, and sees that it ends well.
pub(super) fn see_noted(
    rt: &impl Abort,
    alloc: Global,
    verb: Verb,
    file: &[u8],
    text: &[u8],
) -> NotedSession {
    let session = noted_by(alloc, verb, file, text, SMOOTH).expect(rt, "memory");
    assert_eq!(rt; session.status, 0);
    assert!(rt; session.calls() < CALLS, "the command makes more calls");
    session
}

// Fails each call of a command in turn: what was said is a front of what is said in the end. What was left as by the last call
// isn't opened again.
fn see_faults(
    rt: &impl Abort,
    alloc: Global,
    verb: Verb,
    file: &[u8],
    text: &[u8],
    want: Want<'_>,
) {
    let (said, maps) = want;
    let made = see_noted(rt, alloc, verb, file, text).calls();
    let mut last = Vec::new(alloc);
    for call in 0..=made {
        let failed = failed_at(rt, alloc, verb, file, text, call);
        if failed.status == 0 {
            assert_eq!(rt; (call, failed.said.as_slice()), (made, said));
            return;
        }
        assert!(rt; failed.status == 4 || failed.status == 6 && !said.is_empty());
        assert!(rt; said.starts_with(&failed.said));
        if failed.file.as_slice() != last.as_slice() {
            see_both(rt, alloc, &failed.file, maps, false);
            last = failed.file;
        }
    }
    panic!(rt; "the command makes more calls")
}

// Stops a command after each of its calls, with what is pending left in three ways. An image like the last one isn't opened again.
fn see_stops(rt: &impl Abort, alloc: Global, verb: Verb, file: &[u8], text: &[u8], want: Want<'_>) {
    let (said, maps) = want;
    let session = see_noted(rt, alloc, verb, file, text);
    assert_eq!(rt; session.said(), said);
    let mut last = Vec::new(alloc);
    for calls in 0..=session.calls() {
        for pick in PICKS {
            let left = image(rt, alloc, &session, calls, pick);
            if left.as_slice() != last.as_slice() {
                see_both(rt, alloc, &left, maps, false);
                last = left;
            }
        }
    }
}

// Fails each call of a command, or stops it after each.
fn see_command(
    rt: &impl Abort,
    alloc: Global,
    verb: Verb,
    file: &[u8],
    text: &[u8],
    want: Want<'_>,
    fails: bool,
) {
    if fails {
        see_faults(rt, alloc, verb, file, text, want);
    } else {
        see_stops(rt, alloc, verb, file, text, want);
    }
}

// The same of a dump of a store whose file has no room for an index, with the keys from `k001` to `k065`.
fn see_plain_dump(rt: &impl Abort, alloc: Global, fails: bool) {
    let map = range_over(rt, alloc, (1, 65));
    let want = (map.as_slice(), (map.as_slice(), map.as_slice()));
    let plain = answered(alloc, "2", None, &[Put(1, 65)]).expect(rt, "the store");
    see_command(rt, alloc, Verb::Dump, &plain, b"", want, fails);
}

// The same of each command on a store with these keys that another one makes.
pub(super) fn see_commands(rt: &impl Abort, alloc: Global, maker: &str, fails: bool) {
    let map = range_over(rt, alloc, (1, 65));
    let map = map.as_slice();
    let file = left(rt, alloc, maker);
    see_command(rt, alloc, Verb::Dump, &file, b"", (map, (map, map)), fails);
    see_command(
        rt,
        alloc,
        Verb::Upgrade,
        &file,
        b"",
        (b"", (map, map)),
        fails,
    );
    let text = b"remove k001\nrecord k066\nend 2\n";
    let line = b"merged stored=1 replaced=0 removed=1 absent=0\n";
    let after = range_over(rt, alloc, (2, 66));
    let want = (line.as_slice(), (map, after.as_slice()));
    see_command(rt, alloc, Verb::Merge, &file, text, want, fails);
    let empty = answered_by(alloc, maker, "2", None, &[]).expect(rt, "the store");
    let want = (b"".as_slice(), (b"end 0\n".as_slice(), map));
    see_command(rt, alloc, Verb::Load, &empty, map, want, fails);
}

#[test]
fn a_failed_call_of_a_word_that_closes_keeps_a_map(rt: HostRuntime) {
    see_plain_dump(&rt, rt.alloc(), true);
    see_commands(&rt, rt.alloc(), COMMAND, true);
}

#[test]
fn a_stop_at_any_call_of_a_word_that_closes_keeps_a_map(rt: HostRuntime) {
    see_plain_dump(&rt, rt.alloc(), false);
    see_commands(&rt, rt.alloc(), COMMAND, false);
}
