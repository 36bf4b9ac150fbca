//! A user's script, cut at each call: what was said is a front of its replies, and what is left opens as the map after the
//! commands whose replies were begun, or after one more.

use super::openings::{failed_at, see_opened_after_stops};
use super::stops::{see_crash, see_noted};
use mem_sessions::{CALLS, Verb, answered};
use std::alloc::{AllocError, Global};
use std::process::Abort;

const NO_PART: &[u8] = b"end 0\n";

const BOLT: &[u8] = b"record bolt-m6 140\nend 1\n";

const BOLT_NUT: &[u8] = b"record bolt-m6 140\nrecord nut-m6 200\nend 2\n";

const ALL_PARTS: &[u8] = b"record bolt-m6 140\nrecord nut-m6 200\nrecord washer-m6 95\nend 3\n";

const NUT_WASHER: &[u8] = b"record nut-m6 200\nrecord washer-m6 95\nend 2\n";

// The commands of a script, the reply to each, and that to a range over all the keys behind it.
const COMMANDS: [(&[u8], &[u8], &[u8]); 8] = [
    (b"# stock\nput bolt-m6 140\n", b"stored\n", BOLT),
    (b"put nut-m6 200\n", b"stored\n", BOLT_NUT),
    (b"put washer-m6 95\n", b"stored\n", ALL_PARTS),
    (b"get nut-m6\n", b"found 200\n", ALL_PARTS),
    (b"range b o\n", BOLT_NUT, ALL_PARTS),
    (b"remove bolt-m6\n", b"removed\n", NUT_WASHER),
    (b"remove bolt-m6\n", b"absent\n", NUT_WASHER),
    (b"check\n", b"check ok records=2 height=0\n", NUT_WASHER),
];

// The script, and all its replies.
fn script(alloc: Global) -> Result<(Vec<u8>, Vec<u8>), AllocError> {
    let (mut script, mut replies) = (Vec::new(alloc), Vec::new(alloc));
    for (command, reply, _) in &COMMANDS {
        script.extend_from_slice(command)?;
        replies.extend_from_slice(reply)?;
    }
    Ok((script, replies))
}

// The maps of which one is left where that many bytes were said: after the commands whose replies were begun, and after one
// more.
fn maps_after(said: usize) -> (&'static [u8], &'static [u8]) {
    let mut before = NO_PART;
    let mut start = 0usize;
    for (_, reply, map) in &COMMANDS {
        if said <= start {
            return (before, map);
        }
        before = map;
        start = start.saturating_add(reply.len());
    }
    (before, before)
}

// Sees that what was said is a front of all the replies, of whole lines.
fn see_front(rt: &impl Abort, replies: &[u8], said: &[u8]) {
    assert!(rt; replies.starts_with(said));
    assert!(rt; said.is_empty() || said.ends_with(b"\n"), "whole lines");
}

#[test]
fn a_failed_call_of_a_script_leaves_a_front_of_it(rt: HostRuntime) {
    let empty = answered(rt.alloc(), "0", None, &[]).expect(&rt, "the store");
    let (script, replies) = script(rt.alloc()).expect(&rt, "memory");
    for call in 0..CALLS {
        let failed = failed_at(&rt, rt.alloc(), Verb::Run, &empty, &script, call);
        see_front(&rt, &replies, &failed.said);
        if failed.status == 0 {
            assert_eq!(rt; failed.said.len(), replies.len());
            return;
        }
        assert!(rt; failed.status == 4 || failed.status == 6);
        let maps = maps_after(failed.said.len());
        see_opened_after_stops(&rt, rt.alloc(), &failed.file, maps, false);
    }
    panic!(rt; "the script makes more calls")
}

#[test]
fn a_stop_within_a_script_leaves_a_front_of_it(rt: HostRuntime) {
    let empty = answered(rt.alloc(), "0", None, &[]).expect(&rt, "the store");
    let (script, replies) = script(rt.alloc()).expect(&rt, "memory");
    let session = see_noted(&rt, rt.alloc(), &empty, &script);
    assert!(rt; session.said() == replies.as_slice());
    for calls in 0..=session.calls() {
        let maps = maps_after(session.said_after(calls));
        see_crash(&rt, rt.alloc(), &session, calls, maps, false);
    }
}
