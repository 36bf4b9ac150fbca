//! The first event that ends a session: its status, and what was said by then.

use super::rows::{answered, see_session};
use Part::{Lines, Put};
use mem_sessions::{Part, Plan, SMOOTH, script_of, session};
use std::alloc::Global;
use std::process::Abort;

// The outlet takes three bytes.
const NARROW: Plan<'static> = Plan { room: 3, ..SMOOTH };

// A script on an empty store of one segment, how its session goes, the status, and what is said.
type Cause = (&'static [u8], Plan<'static>, u8, &'static [u8]);

const CAUSES: &[Cause] = &[
    (
        b"get a\n",
        Plan {
            fail: &[0],
            ..SMOOTH
        },
        4,
        b"",
    ),
    (
        b"get a\nget b\n",
        Plan { most: 8, ..SMOOTH },
        8,
        b"absent\n",
    ),
    (
        b"put a 1\nget",
        Plan {
            broken: &[2],
            ..SMOOTH
        },
        5,
        b"stored\n",
    ),
    (b"put a 1\nget a\n", NARROW, 6, b"sto"),
    (b"range * *\n", NARROW, 6, b"end"),
    (
        b"put a 1\nrange * *\n",
        Plan { room: 12, ..SMOOTH },
        6,
        b"stored\nrecor",
    ),
];

#[test]
fn each_cause_has_its_status(rt: HostRuntime) {
    let empty = answered(&rt, rt.alloc(), "0", &[]);
    for (script, plan, status, said) in CAUSES {
        see_session(&rt, rt.alloc(), &empty, script, *plan, (*status, said));
    }
}

#[test]
fn a_reply_that_was_cut_is_kept(rt: HostRuntime) {
    let empty = answered(&rt, rt.alloc(), "0", &[]);
    let cut = session(rt.alloc(), &empty, b"put a 1\nget a\n", NARROW).expect(&rt, "memory");
    let want = (0, b"found 1\n".as_slice());
    see_session(&rt, rt.alloc(), &cut.file, b"get a\n", SMOOTH, want);
}

#[test]
fn a_long_line_is_one_bad_line(rt: HostRuntime) {
    let parts = [
        Lines(b"put a 1\n", b"stored\n"),
        Lines(&[b'#'; 513], b"bad line\n"),
        Lines(b"\nget a", b"found 1\n"),
    ];
    answered(&rt, rt.alloc(), "0", &parts);
}

// Sees that a script whose read fails at a call of `take` is answered up to there, where 59 records are before it.
fn see_failed_read(rt: &impl Abort, alloc: Global, before: &[u8], script: &[u8], take: u32) {
    let fail = [take];
    let plan = Plan {
        broken: &fail,
        ..SMOOTH
    };
    let lines = take.min(13) * 7 / 9;
    let ended = session(alloc, before, script, plan).expect(rt, "memory");
    let want = (5, 7 * lines as usize);
    assert_eq!(rt; (ended.status, ended.said.len()), want, "at {take}");
    let records = 59 + lines;
    let height = u32::from(records > 64);
    let want = format!(in alloc; "end 0\ncheck ok records={records} height={height}\n");
    let want = want.expect(rt, "memory");
    let script = b"range * k001\ncheck\n";
    see_session(rt, alloc, &ended.file, script, SMOOTH, (0, want.as_bytes()));
}

/// A `take` gives seven bytes of a script of lines of nine: the complete lines that were taken are answered.
#[test]
fn a_failed_read_of_a_script_ends_it(rt: HostRuntime) {
    let before = answered(&rt, rt.alloc(), "2", &[Put(1, 59)]);
    let (script, _) = script_of(rt.alloc(), &[Put(60, 69)]).expect(&rt, "memory");
    for take in 0..=13u32 {
        see_failed_read(&rt, rt.alloc(), &before, &script, take);
    }
}
