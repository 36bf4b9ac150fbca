//! Stores that go over to slot format 2: what is said of it, and what they hold then.

use super::rows::{answered, answered_on, changed, see_end};
use Part::{Lines, Put, Remove};
use mem_sessions::{Ended, Part, Plan, SMOOTH, Verb, session_by};
use std::alloc::Global;
use std::process::Abort;

// Upgrades a file of these bytes. The first read of a script would fail.
fn upgraded(rt: &impl Abort, alloc: Global, bytes: &[u8], plan: Plan<'_>) -> Ended {
    session_by(alloc, Verb::Upgrade, bytes, b"", plan).expect(rt, "memory")
}

// Nothing of the station fails, and no script can be read.
const NO_SCRIPT: Plan<'static> = Plan {
    broken: &[0],
    ..SMOOTH
};

// Sees that the upgrade of a file ends with a status, and what is said. Gives the file that it leaves.
pub(super) fn see_upgraded(
    rt: &impl Abort,
    alloc: Global,
    file: &[u8],
    want: (u8, &[u8]),
) -> Vec<u8> {
    let ended = upgraded(rt, alloc, file, NO_SCRIPT);
    see_end(rt, &ended, want);
    assert!(rt; ended.status == 0 || ended.file.as_slice() == file);
    ended.file
}

// The height limit of a new store, a script on it, the status and the line of its upgrade, and a script then.
type Row = (
    &'static str,
    &'static [Part],
    (u8, &'static [u8]),
    &'static [Part],
);

const ROWS: &[Row] = &[
    (
        "0",
        &[Lines(b"put k\nget k\n", b"stored\nfound\n")],
        (3, b"refused one-segment\n"),
        &[],
    ),
    (
        "2",
        &[Put(1, 65)],
        (0, b""),
        &[Lines(
            b"check\n\
              put abcdefghijklmnopqrstuvwxyz0123456789ABCD\n\
              put abcdefghijklmnopqrstuvwxyz0123456789ABCDE\n\
              put a xxxxxxxxxxxxxxxxxxxxxxxxxxxxxxxxxxxxxxxxxxxxxxxxxxxxxxxxxxxxxxxxxxxxxxxxxxxxxxxxx\n\
              put a xxxxxxxxxxxxxxxxxxxxxxxxxxxxxxxxxxxxxxxxxxxxxxxxxxxxxxxxxxxxxxxxxxxxxxxxxxxxxxxx\n\
              get a\n",
            b"check ok records=65 height=1\nstored\noversized key 40\noversized value 80\nstored\nfound xxxxxxxxxxxxxxxxxxxxxxxxxxxxxxxxxxxxxxxxxxxxxxxxxxxxxxxxxxxxxxxxxxxxxxxxxxxxxxxx\n",
        )],
    ),
    ("1", &[Put(1, 126)], (3, b"refused too-many 126\n"), &[]),
    (
        "1",
        &[Put(1, 65), Remove(1, 1)],
        (0, b""),
        &[Lines(
            b"check\nput z\n",
            b"check ok records=64 height=0\nfull 64\n",
        )],
    ),
    // an empty store
    (
        "1",
        &[],
        (0, b""),
        &[
            Lines(
                b"put abcdefghijklmnopqrstuvwxyz0123456789ABCD 1\ncheck\n",
                b"stored\ncheck ok records=1 height=0\n",
            ),
            Put(1, 63),
            Lines(b"put z\n", b"full 64\n"),
        ],
    ),
];

// Sees that a script on a store that went over is answered so, and that it doesn't go over again.
fn see_wide(rt: &impl Abort, alloc: Global, wide: &[u8], after: &[Part]) {
    answered_on(rt, alloc, wide, after);
    let again = wide.first() == Some(&1);
    let line = if again {
        b"refused format 1 2\n".as_slice()
    } else {
        b"refused format 0 2\n"
    };
    see_upgraded(rt, alloc, wide, (3, line));
}

/// What is refused keeps every byte.
#[test]
fn stores_go_over(rt: HostRuntime) {
    for (height, parts, want, after) in ROWS {
        let file = answered(&rt, rt.alloc(), height, parts);
        let wide = see_upgraded(&rt, rt.alloc(), &file, *want);
        if want.0 == 0 {
            see_wide(&rt, rt.alloc(), &wide, after);
        }
    }
}

/// The first of the causes of an upgrade that reads no script and can't say its line.
#[test]
fn a_line_that_is_cut_is_given_up(rt: HostRuntime) {
    let file = answered(&rt, rt.alloc(), "0", &[]);
    let plan = Plan { room: 7, ..SMOOTH };
    let ended = upgraded(&rt, rt.alloc(), &file, plan);
    see_end(&rt, &ended, (3, b"refused".as_slice()));
}

/// A file that is no store is refused as by a run.
#[test]
fn no_store_goes_over(rt: HostRuntime) {
    let file = answered(&rt, rt.alloc(), "1", &[]);
    for (change, line) in [
        ((3072, 0), b"refused identity 3072\n".as_slice()),
        ((24576, 2), b"refused slot 0 0\n"),
    ] {
        let file = changed(&rt, rt.alloc(), &file, &[change]);
        see_upgraded(&rt, rt.alloc(), &file, (3, line));
    }
}
