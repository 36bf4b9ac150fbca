//! What a stop or a fault within an update leaves, and files made by hand.

use super::openings::{changed, see_session, stopped_at};
use mem_sessions::{Part, Plan, SMOOTH, Verb, answered, session};
use std::alloc::Global;
use std::process::Abort;

// Places in the file of a store of one segment: the gate, the format of header copy 1, the journal's count, and
// the two regions.
const GATE: usize = 512;

const FORMAT_1: usize = 2052;

const COUNT: usize = 4096;

const REGION_0: usize = 24576;

const REGION_1: usize = 28672;

// Numbers of the calls of a session whose script begins with a put. An attach, a length and a read for the index to be closed, a
// sync, a length and three reads open the store; a put then reads its segment, writes table and image of the journal and syncs,
// writes the gate and syncs.
const IMAGE_WRITE: u32 = 10;

const GATE_SYNC: u32 = 13;

// How many calls a put makes: a read, the nine of a commit of one page, and its reply.
const PUT_CALLS: u32 = 11;

// A copy of a file with another byte at each offset from one up to another.
fn with_fill(
    rt: &impl Abort,
    alloc: Global,
    file: &[u8],
    offsets: (usize, usize),
    byte: u8,
) -> Vec<u8> {
    let (first, end) = offsets;
    let mut copy = changed(rt, alloc, file, &[]);
    for (offset, old) in copy.iter_mut().enumerate() {
        if first <= offset && offset < end {
            *old = byte;
        }
    }
    copy
}

// A step of a test over one file.
#[derive(Clone, Copy)]
enum Step<'a> {
    // A script is answered: how its session goes, the status, and what is said.
    Session(&'a [u8], Plan<'a>, u8, &'a [u8]),
    // A byte of the file is this one.
    Holds(usize, u8),
    // Bytes are changed.
    Change(&'a [(usize, u8)]),
    // All bytes from an offset up to another are changed.
    Fill((usize, usize), u8),
}

use Step::{Change, Fill, Holds, Session};

// The file that a step leaves.
fn after_step(rt: &impl Abort, alloc: Global, file: &[u8], step: Step<'_>) -> Vec<u8> {
    match step {
        Session(script, plan, status, said) => {
            see_session(rt, alloc, file, script, plan, (status, said)).file
        }
        Holds(offset, byte) => {
            assert_eq!(rt; file.get(offset).copied(), Some(byte));
            changed(rt, alloc, file, &[])
        }
        Change(changes) => changed(rt, alloc, file, changes),
        Fill(offsets, byte) => with_fill(rt, alloc, file, offsets, byte),
    }
}

// Takes steps over the file that a script on a new store leaves.
fn see_steps(rt: &impl Abort, alloc: Global, parts: &[Part], steps: &[Step<'_>]) {
    let mut file = answered(alloc, "0", None, parts).expect(rt, "the store");
    for step in steps {
        file = after_step(rt, alloc, &file, *step);
    }
}

// Two records, a put of a third one, and gets of the three.
const TWO: &[Part] = &[Part::Lines(b"put a 1\nput b 2\n", b"stored\nstored\n")];

const PUT: &[u8] = b"put c 3\n";

const GETS: &[u8] = b"get a\nget b\nget c\n";

const ALL_THREE: &[u8] = b"found 1\nfound 2\nfound 3\n";

const NOT_THE_THIRD: &[u8] = b"found 1\nfound 2\nabsent\n";

// The put is stopped before the sync of the gate, which is another byte then; and at the write of its image.
const TORN_GATES: [(u8, &[u8]); 2] = [(0xFF, ALL_THREE), (0xFE, NOT_THE_THIRD)];

const AT_GATE_SYNC: Plan<'static> = Plan {
    stop: Some(GATE_SYNC),
    ..SMOOTH
};

const AT_IMAGE_WRITE: Plan<'static> = Plan {
    stop: Some(IMAGE_WRITE),
    ..SMOOTH
};

#[test]
fn the_gate_decides_an_update(rt: HostRuntime) {
    for (gate, want) in &TORN_GATES {
        let steps = [
            Session(PUT, AT_GATE_SYNC, 4, b""),
            Holds(GATE, 1),
            Change(&[(GATE, *gate)]),
            Session(GETS, SMOOTH, 0, want),
        ];
        see_steps(&rt, rt.alloc(), TWO, &steps);
    }
}

#[test]
fn a_journal_behind_an_even_gate_is_nothing(rt: HostRuntime) {
    let steps = [
        Session(PUT, AT_IMAGE_WRITE, 4, b""),
        Holds(GATE, 0),
        Fill((COUNT, REGION_0), 0xA5),
        Session(GETS, SMOOTH, 0, NOT_THE_THIRD),
    ];
    see_steps(&rt, rt.alloc(), TWO, &steps);
}

#[test]
fn a_failed_sync_of_the_gate_leaves_either_map(rt: HostRuntime) {
    let empty = answered(rt.alloc(), "0", None, &[]).expect(&rt, "the store");
    let plan = Plan {
        fail: &[GATE_SYNC + 2 * PUT_CALLS],
        ..SMOOTH
    };
    let script = b"put a 1\nput b 2\nput c 3\n";
    let want = (4, b"stored\nstored\n".as_slice());
    let failed = see_session(&rt, rt.alloc(), &empty, script, plan, want);
    let again = session(rt.alloc(), &failed.file, GETS, SMOOTH).expect(&rt, "memory");
    assert_eq!(rt; again.status, 0);
    let said = again.said.as_slice();
    assert!(rt; said == ALL_THREE || said == NOT_THE_THIRD);
}

#[test]
fn region_1_may_be_the_live_one(rt: HostRuntime) {
    let steps = [
        Change(&[
            (0, 1),
            (FORMAT_1, 1),
            (REGION_1, 1),
            (REGION_1 + 1, 1),
            (REGION_1 + 2, 1),
            (REGION_1 + 8, b'a'),
            (REGION_1 + 32, b'1'),
        ]),
        Session(
            b"get a\nput b 2\nput a 3\n",
            SMOOTH,
            0,
            b"found 1\nstored\nreplaced\n",
        ),
        Session(b"get a\nget b\n", SMOOTH, 0, b"found 3\nfound 2\n"),
    ];
    see_steps(&rt, rt.alloc(), &[], &steps);
}

// The file of a store of height limit 2 where the 65th put is stopped between the selector's write and its sync.
fn stopped_at_selector(rt: &impl Abort, alloc: Global) -> Vec<u8> {
    let before = answered(alloc, "2", None, &[Part::Put(1, 64)]).expect(rt, "the store");
    for stop in 0..60 {
        let stopped = stopped_at(rt, alloc, Verb::Run, &before, b"put k065\n", stop);
        assert_eq!(rt; stopped.status, 4);
        if stopped.file.first() == Some(&1) {
            return stopped.file;
        }
    }
    panic!(rt; "the selector was never written")
}

// What a selector says, and so which height the store has.
const SELECTORS: [(u8, &[u8]); 2] = [
    (2, b"check ok records=64 height=0\nstored\n"),
    (3, b"check ok records=64 height=1\nstored\n"),
];

/// The selector is left either way.
#[test]
fn a_torn_selector_names_either_height(rt: HostRuntime) {
    let stopped = stopped_at_selector(&rt, rt.alloc());
    for (selector, want) in &SELECTORS {
        let left = changed(&rt, rt.alloc(), &stopped, &[(0, *selector)]);
        let script = b"check\nput k065\n";
        see_session(&rt, rt.alloc(), &left, script, SMOOTH, (0, want));
    }
}
