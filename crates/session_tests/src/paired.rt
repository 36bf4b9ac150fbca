//! Stores whose file has two journals: what is made, how many calls an update makes, and which journal is validated.

use super::indexes::{left, see_quick};
use super::rows::{answered_by, answered_on, changed, made_by, see_session};
use Part::{Lines, Put};
use mem_sessions::{Part, SMOOTH, noted};
use std::alloc::Global;
use std::process::Abort;

// The command that makes a store with two journals.
const COMMAND: &str = "create-paired";

// Places in the file of a store of one segment: the gates, and the tables of the two journals.
const GATE: usize = 512;

const CLEAN_GATE: usize = 704;

const TABLE_A: usize = 4096;

const TABLE_B: usize = 24576;

// The height limit and the journal of a new store, and its length.
type Size = (&'static str, Option<&'static str>, usize);

const SIZES: [Size; 5] = [
    ("0", None, 57344),
    ("0", Some("4"), 57344),
    ("2", None, 81920),
    ("4", Some("4"), 180224),
    ("4", None, 278528),
];

/// Behind the header page stand two journals, two regions, and room for an index.
#[test]
fn a_store_has_two_journals(rt: HostRuntime) {
    for (height, journal, length) in SIZES {
        let made = made_by(&rt, rt.alloc(), COMMAND, b"", height, journal);
        assert_eq!(rt; (made.status, made.file.len()), (0, length));
        assert_eq!(rt; made.file.get(3080).copied(), Some(4));
        let script = b"put a 1\nput a 2\nget a\n";
        let said = b"stored\nreplaced\nfound 2\n";
        answered_on(&rt, rt.alloc(), &made.file, &[Lines(script, said)]);
    }
}

// A store of one segment after a script.
fn paired(rt: &impl Abort, alloc: Global, parts: &[Part]) -> Vec<u8> {
    answered_by(rt, alloc, COMMAND, "0", parts)
}

// How many calls the answers to a script make more on a store that a command makes than those to none, and the bytes that
// they write.
fn written_by(rt: &impl Abort, alloc: Global, command: &str, script: &[u8]) -> (u32, u64) {
    let file = answered_by(rt, alloc, command, "0", &[]);
    let long = noted(alloc, &file, script).expect(rt, "memory");
    let short = noted(alloc, &file, b"put a 1\n").expect(rt, "memory");
    assert_eq!(rt; (long.status, short.status), (0, 0));
    (
        long.calls().saturating_sub(short.calls()),
        long.written().saturating_sub(short.written()),
    )
}

/// An update of its own segment makes seven calls with the read of the segment, and one for its reply: a table, an image, a sync,
/// the gate, a sync, and the page. With one journal it makes three more, and writes one byte more.
#[test]
fn an_update_makes_seven_calls(rt: HostRuntime) {
    let script = b"put a 1\nput b 2\n";
    let (calls, bytes) = written_by(&rt, rt.alloc(), "create-indexed", script);
    let pair = written_by(&rt, rt.alloc(), COMMAND, script);
    assert_eq!(rt; (calls, bytes), (11, 8 + 4096 + 4096 + 2));
    assert_eq!(rt; pair, (8, 8 + 4096 + 4096 + 1));
}

// A script on a new store, and what it leaves: the gate, and the counts of the two journals.
type Turn = (&'static [Part], u8, u8, u8);

const TURNS: [Turn; 3] = [
    (&[], 1, 0, 0),
    (&[Put(1, 1)], 0, 0, 1),
    (&[Put(1, 2)], 1, 1, 0),
];

/// Each update writes the journal that the gate doesn't name, and names it. So does the end of a run, with a journal of no pages.
#[test]
fn journals_go_by_turns(rt: HostRuntime) {
    for (parts, gate, first, second) in TURNS {
        let file = paired(&rt, rt.alloc(), parts);
        assert_eq!(rt; file.get(GATE).copied(), Some(gate));
        assert_eq!(rt; file.get(TABLE_A).copied(), Some(first));
        assert_eq!(rt; file.get(TABLE_B).copied(), Some(second));
        assert_eq!(rt; file.get(CLEAN_GATE).copied(), Some(1));
    }
}

// Places of a new store whose bytes are changed, the status, and what a check says then.
type Validated = (&'static [(usize, u8)], u8, &'static [u8]);

const VALIDATED: [Validated; 7] = [
    (&[], 0, b"check ok records=0 height=0\n"),
    (&[(GATE, 1)], 0, b"check ok records=0 height=0\n"),
    (&[(TABLE_B, 5)], 0, b"check ok records=0 height=0\n"),
    (&[(TABLE_A, 5)], 3, b"refused journal 4096\n"),
    (&[(GATE, 1), (TABLE_B, 5)], 3, b"refused journal 24576\n"),
    (
        &[(GATE, 1), (TABLE_B, 1), (TABLE_B + 4, 1)],
        3,
        b"refused journal 24580\n",
    ),
    (&[(3080, 5)], 3, b"refused version 5\n"),
];

/// The journal that the gate names is validated, and the other one may hold anything.
#[test]
fn the_live_journal_is_validated(rt: HostRuntime) {
    let made = made_by(&rt, rt.alloc(), COMMAND, b"", "0", None);
    for (changes, status, said) in VALIDATED {
        let file = changed(&rt, rt.alloc(), &made.file, changes);
        see_session(&rt, rt.alloc(), &file, b"check\n", SMOOTH, (status, said));
    }
}

// A byte of the clean gate, and the bytes that a quick run reads then without a command.
type Read = (u8, u64);

// By the index: the header page, a node and two counts, and nothing of the journals. By the region: the header page three times,
// two segments, the gate of the intent, and the count of the live journal.
const READS: [Read; 2] = [(0xFE, 20485), (0xFF, 4168)];

#[test]
fn a_quick_run_reads_no_journal(rt: HostRuntime) {
    let file = left(&rt, rt.alloc(), COMMAND);
    for (byte, bytes) in READS {
        let file = changed(&rt, rt.alloc(), &file, &[(CLEAN_GATE, byte)]);
        let station = see_quick(&rt, rt.alloc(), &file, b"", (0, b""));
        assert_eq!(rt; station.travel.read, bytes);
    }
}
