//! Command lines that ask for nothing, new stores of several sizes, and files that are refused with a line.

use super::rows::{answered, changed, made_by, see_end, see_kept};
use mem_sessions::{Part, asked_nothing};
use std::alloc::Global;
use std::process::Abort;

// Command lines that ask for nothing.
const USAGE: &[&[&str]] = &[
    &[],
    &["run"],
    &["run", ""],
    &["run", "f", "0"],
    &["RUN", "f"],
    &["quick"],
    &["quick", ""],
    &["quick", "f", "0"],
    &["load"],
    &["load", ""],
    &["load", "f", "g"],
    &["dump"],
    &["dump", ""],
    &["dump", "f", "1"],
    &["upgrade"],
    &["upgrade", ""],
    &["upgrade", "f", "2"],
    &["create", "f"],
    &["create", "", "0"],
    &["create", "f", ""],
    &["create", "f", "17"],
    &["create", "f", "02"],
    &["create", "f", "-1"],
    &["create", "f", "2", "5"],
    &["create", "f", "2", "3"],
    &["create", "f", "3", "9"],
    &["create", "f", "3", "8", "8"],
    &["create-indexed", "f"],
    &["create-indexed", "f", "17"],
    &["create-indexed", "f", "3", "9"],
    &["create-paired", "f"],
    &["create-paired", "f", "17"],
    &["create-paired", "f", "3", "9"],
    &["check", "f"],
    &["gen", "1"],
    &["gen", "1000001", "1"],
    &["gen", "1", "4294967296"],
    &["gen", "01", "1"],
];

#[test]
fn other_words_are_usage(rt: HostRuntime) {
    for line in USAGE {
        let status = asked_nothing(rt.alloc(), line).expect(&rt, "memory");
        assert_eq!(rt; status, Some(2));
    }
}

// The height limit and the journal of a new store, and its length.
type Size = (&'static str, Option<&'static str>, usize);

const SIZES: &[Size] = &[
    ("0", None, 32768),
    ("0", Some("4"), 32768),
    ("2", None, 57344),
    ("4", Some("4"), 155648),
    ("4", Some("16"), 204800),
    ("4", None, 204800),
];

// Sees that an empty file becomes a store of that many bytes.
fn see_made(rt: &impl Abort, alloc: Global, size: Size) {
    let (height, journal, length) = size;
    let made = made_by(rt, alloc, "create", b"", height, journal);
    see_end(rt, &made, (0, b""));
    assert_eq!(rt; made.file.len(), length);
    see_kept(rt, alloc, &made.file, b"", (0, b""));
}

/// An empty script leaves every byte.
#[test]
fn an_empty_file_becomes_a_store(rt: HostRuntime) {
    for size in SIZES {
        see_made(&rt, rt.alloc(), *size);
    }
}

// The height limit of a new store, a script on it, places whose bytes are changed then, and the line of the refusal.
type Refused = (
    &'static str,
    &'static [Part],
    &'static [(usize, u8)],
    &'static [u8],
);

// In a store of one segment the gate is at 512, the journal's count at 4096, and region 0 at 24576; in one with height
// limit 2 region 0 is at 24576 too, and segment 1 of region 1 at 45056.
const REFUSED: &[Refused] = &[
    ("0", &[], &[(3072, 0)], b"refused identity 3072\n"),
    ("0", &[], &[(3079, b'e')], b"refused identity 3072\n"),
    ("0", &[], &[(3080, 5)], b"refused version 5\n"),
    ("0", &[], &[(3084, 17)], b"refused height-limit 17\n"),
    ("0", &[], &[(3088, 3)], b"refused journal-size 3\n"),
    ("0", &[], &[(3088, 5)], b"refused journal-size 5\n"),
    ("0", &[], &[(3084, 1)], b"refused length 32768\n"),
    ("0", &[], &[(1024, 1)], b"refused height 0 1\n"),
    ("2", &[], &[(1024, 3)], b"refused height 0 3\n"),
    ("0", &[], &[(1028, 2)], b"refused format 0 2\n"),
    ("0", &[], &[(0, 1)], b"refused format 1 0\n"),
    ("0", &[], &[(512, 1)], b"refused journal 4096\n"),
    ("0", &[], &[(512, 1), (4096, 5)], b"refused journal 4096\n"),
    (
        "0",
        &[],
        &[(512, 1), (4096, 1), (4100, 1)],
        b"refused journal 4100\n",
    ),
    (
        "2",
        &[],
        &[(512, 1), (4096, 2), (1024, 1), (4100, 1)],
        b"refused journal 4104\n",
    ),
    ("0", &[], &[(24576, 2)], b"refused slot 0 0\n"),
    (
        "0",
        &[Part::Lines(b"put a\nput b\n", b"stored\nstored\n")],
        &[(24584, b'b')],
        b"refused slot 0 1\n",
    ),
    (
        "2",
        &[Part::Put(1, 65)],
        &[(45064, b'a')],
        b"refused order 1\n",
    ),
    ("2", &[], &[(1024, 1)], b"refused density 1 0 0\n"),
];

#[test]
fn what_is_wrong_with_a_file_is_said(rt: HostRuntime) {
    for (height, parts, changes, line) in REFUSED {
        let file = answered(&rt, rt.alloc(), height, parts);
        let file = changed(&rt, rt.alloc(), &file, changes);
        see_kept(&rt, rt.alloc(), &file, b"put b 2\n", (3, line));
    }
}

// A number of zeros, and the lines of the refusals where they are run on and where a store is made of them.
type Zeros = (usize, &'static [u8], &'static [u8]);

const ZEROS: &[Zeros] = &[
    (32768, b"refused identity 3072\n", b"refused length 32768\n"),
    (4096, b"refused identity 3072\n", b"refused length 4096\n"),
    (4095, b"refused length 4095\n", b"refused length 4095\n"),
    (1, b"refused length 1\n", b"refused length 1\n"),
];

// Sees that no store is made of these bytes, which are left.
fn see_not_made(rt: &impl Abort, alloc: Global, bytes: &[u8], line: &[u8]) {
    let ended = made_by(rt, alloc, "create", bytes, "0", None);
    see_end(rt, &ended, (3, line));
    assert!(rt; ended.file.as_slice() == bytes);
}

#[test]
fn zeros_are_no_store(rt: HostRuntime) {
    for (length, ran, made) in ZEROS {
        let zeros = vec![in rt.alloc(); 0; *length].expect(&rt, "memory");
        see_kept(&rt, rt.alloc(), &zeros, b"put a 1\n", (3, ran));
        see_not_made(&rt, rt.alloc(), &zeros, made);
    }
    let want = (3, b"refused length 0\n".as_slice());
    see_kept(&rt, rt.alloc(), b"", b"put a 1\n", want);
}
