//! Load texts that are read into stores without records, and dumps: what is said, and what the stores hold then.

use super::rows::{REGION_0, answered, answered_on, changed, made_by, see_end, see_shares};
use super::upgrades::see_upgraded;
use Part::{Lines, Put};
use mem_sessions::{Ended, Part, Plan, SMOOTH, Verb, range_reply, session_by};
use std::alloc::Global;
use std::process::Abort;

// Reads a load text into a file of these bytes.
fn loaded(rt: &impl Abort, alloc: Global, bytes: &[u8], text: &[u8], plan: Plan<'_>) -> Ended {
    session_by(alloc, Verb::Load, bytes, text, plan).expect(rt, "memory")
}

// Says all records of a file of these bytes. The first read of a script would fail.
fn dumped(rt: &impl Abort, alloc: Global, bytes: &[u8], room: usize) -> Ended {
    let plan = Plan {
        room,
        broken: &[0],
        ..SMOOTH
    };
    session_by(alloc, Verb::Dump, bytes, b"", plan).expect(rt, "memory")
}

// Sees that the load of a text ends with a status, and what is said. Gives the file that it leaves.
fn see_loaded(
    rt: &impl Abort,
    alloc: Global,
    file: &[u8],
    text: &[u8],
    want: (u8, &[u8]),
) -> Vec<u8> {
    let ended = loaded(rt, alloc, file, text, SMOOTH);
    see_end(rt, &ended, want);
    ended.file
}

// Sees that a file's dump is this one, and that it keeps every byte.
pub(super) fn see_dumped(rt: &impl Abort, alloc: Global, file: &[u8], want: &[u8]) {
    let ended = dumped(rt, alloc, file, 8192);
    see_end(rt, &ended, (0, want));
    assert!(rt; ended.file.as_slice() == file, "every byte is left");
}

// A text, and its dump.
type Text = (&'static [u8], &'static [u8]);

// Two records.
pub(super) const PAIR: &[u8] = b"record a 1\nrecord b\nend 2\n";

const TEXTS: &[Text] = &[
    (PAIR, PAIR),
    (
        b"record bolt-m6 140\nrecord nut-m6 200\nrecord washer-m6\nend 3\n",
        b"record bolt-m6 140\nrecord nut-m6 200\nrecord washer-m6\nend 3\n",
    ),
    (
        b"record a%25\nrecord aa %0D\nrecord b%201 x%20y\nend 3\n",
        b"record a%25\nrecord aa %0D\nrecord b%201 x%20y\nend 3\n",
    ),
    (b"end 0\n", b"end 0\n"),
    (
        b"# stock\n\nrecord %61 %31\r\n  record  b \nend 2\n\n# behind",
        PAIR,
    ),
    (
        b"record %00%20x v\nrecord %2A %2a%\nrecord ; #\nend 3",
        b"record %00%20x v\nrecord %2A %2A%25\nrecord ; %23\nend 3\n",
    ),
    (
        b"record abcdefghijklmnopqrstuvwx xxxxxxxxxxxxxxxxxxxxxxxxxxxxxxxx\nend 1\n",
        b"record abcdefghijklmnopqrstuvwx xxxxxxxxxxxxxxxxxxxxxxxxxxxxxxxx\nend 1\n",
    ),
];

/// What was loaded is dumped, and where there are records nothing more is loaded, nor read.
#[test]
fn texts_are_loaded(rt: HostRuntime) {
    let empty = answered(&rt, rt.alloc(), "0", &[]);
    see_dumped(&rt, rt.alloc(), &empty, b"end 0\n");
    for (text, dump) in TEXTS {
        let file = see_loaded(&rt, rt.alloc(), &empty, text, (0, b""));
        see_dumped(&rt, rt.alloc(), &file, dump);
    }
    let file = see_loaded(&rt, rt.alloc(), &empty, PAIR, (0, b""));
    let plan = Plan {
        broken: &[0],
        ..SMOOTH
    };
    let again = loaded(&rt, rt.alloc(), &file, b"end 0\n", plan);
    let want = (3, b"refused not-empty 2\n".as_slice());
    see_end(&rt, &again, want);
    assert!(rt; again.file.as_slice() == file.as_slice());
}

// A text that isn't loaded into a store of one segment, and why.
const REFUSED: &[Text] = &[
    (b"", b"refused line 1\n"),
    (b"record a", b"refused line 2\n"),
    (b"# a\n\n", b"refused line 3\n"),
    (b"record b\nrecord a\nend 2\n", b"refused line 2\n"),
    (b"record a\nrecord a 1\nend 2\n", b"refused line 2\n"),
    (b"record ab\nrecord a\nend 2\n", b"refused line 2\n"),
    (b"record a\nend 2\n", b"refused line 2\n"),
    (b"record a\nend 01\n", b"refused line 2\n"),
    (b"record a\nend\n", b"refused line 2\n"),
    (b"record a\nend 1 1\n", b"refused line 2\n"),
    (b"record a\nend 1\nrecord b\n", b"refused line 3\n"),
    (b"record a\nend 1\nend 1\n", b"refused line 3\n"),
    (b"# a\n\nrecord a\nput b\nend 2\n", b"refused line 4\n"),
    (b"record\nend 1\n", b"refused line 1\n"),
    (b"record a b c\nend 1\n", b"refused line 1\n"),
    (b"Record a\nend 1\n", b"refused line 1\n"),
    (
        b"record abcdefghijklmnopqrstuvwxy\nend 1\n",
        b"refused line 1\n",
    ),
    (
        b"record a xxxxxxxxxxxxxxxxxxxxxxxxxxxxxxxxx\nend 1\n",
        b"refused line 1\n",
    ),
    (&[b'#'; 513], b"refused line 1\n"),
];

/// The store has no records then.
#[test]
fn what_is_wrong_with_a_text_is_said(rt: HostRuntime) {
    let empty = answered(&rt, rt.alloc(), "0", &[]);
    for (text, line) in REFUSED {
        let file = see_loaded(&rt, rt.alloc(), &empty, text, (3, line));
        see_dumped(&rt, rt.alloc(), &file, b"end 0\n");
    }
    let more = range_reply(rt.alloc(), (1, 65)).expect(&rt, "memory");
    let file = see_loaded(&rt, rt.alloc(), &empty, &more, (3, b"refused full 64\n"));
    see_dumped(&rt, rt.alloc(), &file, b"end 0\n");
}

/// It is refused as by a run.
#[test]
fn no_store_is_loaded_or_dumped(rt: HostRuntime) {
    let file = answered(&rt, rt.alloc(), "1", &[]);
    let file = changed(&rt, rt.alloc(), &file, &[(3072, 0)]);
    let want = (3, b"refused identity 3072\n".as_slice());
    see_loaded(&rt, rt.alloc(), &file, b"end 0\n", want);
    let ended = dumped(&rt, rt.alloc(), &file, 64);
    see_end(&rt, &ended, want);
}

/// 65 records take two segments, those of the region that wasn't live.
#[test]
fn loaded_records_are_spread(rt: HostRuntime) {
    let empty = made_by(&rt, rt.alloc(), "create", b"", "2", Some("4"));
    let text = range_reply(rt.alloc(), (1, 65)).expect(&rt, "memory");
    let file = see_loaded(&rt, rt.alloc(), &empty.file, &text, (0, b""));
    assert_eq!(rt; file.first(), Some(&1));
    see_shares(&rt, &file, REGION_0 + 16384, &[32, 33]);
    let check = Lines(
        b"check\nput k066\n",
        b"check ok records=65 height=1\nstored\n",
    );
    answered_on(&rt, rt.alloc(), &file, &[check]);
}

// Sees that a dump is loaded into a store, and is its dump then.
fn see_moved(rt: &impl Abort, alloc: Global, store: &[u8], dump: &[u8]) {
    let moved = see_loaded(rt, alloc, store, dump, (0, b""));
    see_dumped(rt, alloc, &moved, dump);
}

/// Into a store of another height limit and journal, and into one for longer records.
#[test]
fn a_dump_is_loaded(rt: HostRuntime) {
    let parts = [
        Put(1, 126),
        Lines(b"remove k003\nput k002 a%20b\n", b"removed\nreplaced\n"),
    ];
    let file = answered(&rt, rt.alloc(), "2", &parts);
    let dump = dumped(&rt, rt.alloc(), &file, 8192);
    assert_eq!(rt; dump.status, 0);
    let dump = dump.said;
    let other = made_by(&rt, rt.alloc(), "create", b"", "3", Some("4"));
    let other = other.file;
    see_moved(&rt, rt.alloc(), &other, &dump);
    let wide = see_upgraded(&rt, rt.alloc(), &other, (0, b""));
    see_moved(&rt, rt.alloc(), &wide, &dump);
    let front = &dump[..dump.len().saturating_sub(b"end 125\n".len())];
    let want = (3, b"refused line 126\n".as_slice());
    see_loaded(&rt, rt.alloc(), &other, front, want);
}

// How the load of three lines into a store of one segment goes, and its status.
const CAUSES: &[(Plan<'static>, u8)] = &[
    (
        Plan {
            fail: &[0],
            ..SMOOTH
        },
        4,
    ),
    (
        Plan {
            broken: &[1],
            ..SMOOTH
        },
        5,
    ),
    (Plan { most: 26, ..SMOOTH }, 8),
    (Plan { most: 27, ..SMOOTH }, 0),
];

/// Nothing is said, and with 4, 5 and 8 there are no records then.
#[test]
fn each_cause_ends_a_load(rt: HostRuntime) {
    let empty = answered(&rt, rt.alloc(), "0", &[]);
    for (plan, want) in CAUSES {
        let ended = loaded(&rt, rt.alloc(), &empty, PAIR, *plan);
        see_end(&rt, &ended, (*want, b"".as_slice()));
        let left = if ended.status == 0 { PAIR } else { b"end 0\n" };
        see_dumped(&rt, rt.alloc(), &ended.file, left);
    }
    let plan = Plan { room: 7, ..SMOOTH };
    let ended = loaded(&rt, rt.alloc(), &empty, b"", plan);
    see_end(&rt, &ended, (3, b"refused".as_slice()));
}

/// The outlet takes fewer bytes than the dump has.
#[test]
fn a_dump_that_is_cut_ends_with_6(rt: HostRuntime) {
    let parts = [Lines(b"put a 1\nput b\n", b"stored\nstored\n")];
    let file = answered(&rt, rt.alloc(), "0", &parts);
    for room in [0, 1, 11, 20, 25] {
        let ended = dumped(&rt, rt.alloc(), &file, room);
        assert_eq!(rt; (ended.status, ended.said.len()), (6, room));
        assert!(rt; PAIR.starts_with(&ended.said));
    }
}
