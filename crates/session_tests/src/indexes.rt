//! Stores whose file has room for an index: a run leaves it, each opening closes it, and a quick run opens the store by it.

use super::rows::{answered_on, changed, made_by};
use Part::{Lines, Put};
use mem_sessions::{NO_FAULTS, Part, UntoldStation, quick_session};
use std::alloc::Global;
use std::process::Abort;

// The clean gate.
const GATE: usize = 704;

// Where the index of a store of height limit 2 begins, and the counts in it, behind four nodes of 64 bytes.
const AREA: usize = 57344;

const COUNTS: usize = 57600;

// The command that makes a store with room for an index.
const COMMAND: &str = "create-indexed";

// An empty store of this height limit, made by this command.
fn made(rt: &impl Abort, alloc: Global, command: &str, height: &str) -> Vec<u8> {
    let made = made_by(rt, alloc, command, b"", height, None);
    assert_eq!(rt; made.status, 0);
    made.file
}

// A store of 65 records in two segments, made by this command, whose index a run left.
pub(super) fn left(rt: &impl Abort, alloc: Global, command: &str) -> Vec<u8> {
    let empty = made(rt, alloc, command, "2");
    answered_on(rt, alloc, &empty, &[Put(1, 65)])
}

// Sees that a script is answered so by a quick run.
pub(super) fn see_quick(
    rt: &impl Abort,
    alloc: Global,
    file: &[u8],
    script: &[u8],
    want: (u8, &[u8]),
) -> UntoldStation {
    let (status, station) = quick_session(alloc, file, script, NO_FAULTS).expect(rt, "memory");
    assert_eq!(rt; (status, station.said.as_slice()), want);
    station
}

/// The sizes of the files, and a few commands on each.
#[test]
fn a_store_has_room_for_an_index(rt: HostRuntime) {
    for (height, size) in [("0", 36864), ("2", 61440)] {
        let file = made(&rt, rt.alloc(), COMMAND, height);
        assert_eq!(rt; file.len(), size);
        let script = b"put a 1\nput a 2\nget a\n";
        let said = b"stored\nreplaced\nfound 2\n".as_slice();
        see_quick(&rt, rt.alloc(), &file, script, (0, said));
        answered_on(&rt, rt.alloc(), &file, &[Lines(script, said)]);
    }
}

/// Node 0 has the fence of segment 1 and links to both segments, and behind the nodes stand the counts.
#[test]
fn a_run_leaves_the_index(rt: HostRuntime) {
    let file = left(&rt, rt.alloc(), COMMAND);
    let node = [4, 0, 0, 0, 0, 0, 0, 0, b'k', b'0', b'3', b'3'];
    assert!(rt; file.get(AREA..AREA + 12) == Some(node.as_slice()));
    let links = [0, 0, 0, 128, 1, 0, 0, 128];
    assert!(rt; file.get(AREA + 48..AREA + 56) == Some(links.as_slice()));
    let counts = [32, 0, 0, 0, 33, 0, 0, 0];
    assert!(rt; file.get(COUNTS..COUNTS + 8) == Some(counts.as_slice()));
    assert_eq!(rt; file.get(GATE).copied(), Some(1));
    let script = b"get k065\ncheck\n";
    let said = b"found\ncheck ok records=65 height=1\n".as_slice();
    see_quick(&rt, rt.alloc(), &file, script, (0, said));
}

// A byte of the clean gate, and the bytes that a quick run reads then without a command.
type Read = (u8, u64);

// By the index: the header page, a node and two counts. By the region: the header page three times, once to see whether
// there is an index, once to close it and once to open the store, two segments, and the gate of the intent.
const READS: [Read; 4] = [(0xFE, 20481), (0xFF, 4168), (0, 20481), (1, 4168)];

/// The low bit of the clean gate alone says whether the store is opened by its index; the replies are the same.
#[test]
fn the_clean_gate_chooses(rt: HostRuntime) {
    let file = left(&rt, rt.alloc(), COMMAND);
    for (byte, bytes) in READS {
        let file = changed(&rt, rt.alloc(), &file, &[(GATE, byte)]);
        let station = see_quick(&rt, rt.alloc(), &file, b"", (0, b""));
        assert_eq!(rt; station.travel.read, bytes);
        let said = b"found\ncheck ok records=65 height=1\n".as_slice();
        see_quick(&rt, rt.alloc(), &file, b"get k065\ncheck\n", (0, said));
    }
}

// What is changed in an index, and the line of the refusal.
type Refused = (&'static [(usize, u8)], &'static [u8]);

const REFUSED: &[Refused] = &[
    // another link
    (&[(AREA + 48, 1)], b"refused index 57344\n"),
    // a count below its bound, and counts above that of their window
    (&[(COUNTS, 3)], b"refused index 57600\n"),
    (&[(COUNTS, 63), (COUNTS + 4, 64)], b"refused index 57600\n"),
];

/// Where the station tells nothing of its bytes, an index that isn't that of its array is refused by the first place that
/// shows it, and no byte is written. A run goes by the region, and leaves the index anew.
#[test]
fn an_index_is_refused(rt: HostRuntime) {
    let file = left(&rt, rt.alloc(), COMMAND);
    for (changes, line) in REFUSED {
        let wrong = changed(&rt, rt.alloc(), &file, changes);
        let station = see_quick(&rt, rt.alloc(), &wrong, b"get k001\n", (3, line));
        assert!(rt; station.file.as_slice() == wrong.as_slice());
        let mended = answered_on(&rt, rt.alloc(), &wrong, &[]);
        assert!(rt; mended.as_slice() == file.as_slice());
    }
}
