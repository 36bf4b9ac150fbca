//! Worked sessions: scripts on new stores of several heights, with their replies, and how many records their segments
//! hold then.

use Part::{Lines, Put, Remove};
use mem_sessions::{Ended, Part, Plan, SMOOTH, created_by, script_of, session, with_bytes};
use std::alloc::Global;
use std::process::Abort;

// Sees how a session ended: its status, and what was said.
pub(super) fn see_end(rt: &impl Abort, ended: &Ended, want: (u8, &[u8])) {
    assert_eq!(rt; (ended.status, ended.said.as_slice()), want);
}

// Sees that a script on a file of these bytes ends with a status, and what is said by then.
pub(super) fn see_session(
    rt: &impl Abort,
    alloc: Global,
    file: &[u8],
    script: &[u8],
    plan: Plan<'_>,
    want: (u8, &[u8]),
) -> Ended {
    let ended = session(alloc, file, script, plan).expect(rt, "memory");
    see_end(rt, &ended, want);
    ended
}

// Sees the same where nothing fails, and that the file keeps its bytes.
pub(super) fn see_kept(
    rt: &impl Abort,
    alloc: Global,
    file: &[u8],
    script: &[u8],
    want: (u8, &[u8]),
) {
    let ended = see_session(rt, alloc, file, script, SMOOTH, want);
    assert!(rt; ended.file.as_slice() == file, "every byte is left");
}

// Makes a store in a file of these bytes, by this command.
pub(super) fn made_by(
    rt: &impl Abort,
    alloc: Global,
    command: &str,
    bytes: &[u8],
    height: &str,
    journal: Option<&str>,
) -> Ended {
    let made = created_by(alloc, command, bytes, height, journal).expect(rt, "memory");
    made.expect(rt, "a file of these tests is short")
}

// Sees that a script on a new store of this height limit is answered so, and gives the file that it leaves.
pub(super) fn answered(rt: &impl Abort, alloc: Global, height: &str, parts: &[Part]) -> Vec<u8> {
    answered_by(rt, alloc, "create", height, parts)
}

// Sees the same on a new store that this command makes.
pub(super) fn answered_by(
    rt: &impl Abort,
    alloc: Global,
    command: &str,
    height: &str,
    parts: &[Part],
) -> Vec<u8> {
    let made = made_by(rt, alloc, command, b"", height, None);
    assert_eq!(rt; made.status, 0);
    answered_on(rt, alloc, &made.file, parts)
}

// Sees that a script on a file of these bytes is answered so, and gives the file that it leaves.
pub(super) fn answered_on(rt: &impl Abort, alloc: Global, file: &[u8], parts: &[Part]) -> Vec<u8> {
    let (script, want) = script_of(alloc, parts).expect(rt, "memory");
    see_session(rt, alloc, file, &script, SMOOTH, (0, &want)).file
}

// A copy of a file with some bytes changed.
pub(super) fn changed(
    rt: &impl Abort,
    alloc: Global,
    file: &[u8],
    changes: &[(usize, u8)],
) -> Vec<u8> {
    with_bytes(alloc, file, changes).expect(rt, "memory")
}

// The height limit of a new store, and the parts of a script.
type Row = (&'static str, &'static [Part]);

// Scripts of a few lines.
const LINES: &[Row] = &[
    ("0", &[Lines(b"", b"")]),
    (
        "0",
        &[Lines(
            b"put a 1\nput a 2\nget a\nprobe a 1\nprobe a 0\n",
            b"stored\nreplaced\nfound 2\nprobe segment=0 nodes=0 blocks=0 bound=0\nbad number\n",
        )],
    ),
    ("0", &[Lines(b"put k\nget k\n", b"stored\nfound\n")]),
    (
        "0",
        &[Lines(
            b"put abcdefghijklmnopqrstuvwx 1\nput abcdefghijklmnopqrstuvwxy 1\ncheck\n",
            b"stored\noversized key 24\ncheck ok records=1 height=0\n",
        )],
    ),
    (
        "0",
        &[Lines(
            b"put a xxxxxxxxxxxxxxxxxxxxxxxxxxxxxxxx\nput a xxxxxxxxxxxxxxxxxxxxxxxxxxxxxxxxx\nget a\n",
            b"stored\noversized value 32\nfound xxxxxxxxxxxxxxxxxxxxxxxxxxxxxxxx\n",
        )],
    ),
    (
        "0",
        &[Lines(
            b"put a 1\n   \n# note\n  get   a  \nget a\r\nget a",
            b"stored\nfound 1\nfound 1\nfound 1\n",
        )],
    ),
    (
        "0",
        &[Lines(
            b"put %00%20x v\nrange * * 1\nget %00%20x\n",
            b"stored\nrecord %00%20x v\nend 1\nfound v\n",
        )],
    ),
    (
        "0",
        &[Lines(
            b"put a%2 x\nrange a b\n",
            b"stored\nrecord a%252 x\nend 1\n",
        )],
    ),
    (
        "0",
        &[Lines(
            b"put * 1\nput %2A 2\nput + 3\nget *\nrange * +\nrange %2A *\n",
            b"stored\nreplaced\nstored\nfound 2\nrecord %2A 2\nend 1\nrecord %2A 2\nrecord + 3\nend 2\n",
        )],
    ),
    (
        "0",
        &[Lines(
            b"frob a\nget\nput a b c\nrange a b -1\nPUT a\n",
            b"bad command\nbad words\nbad words\nbad number\nbad command\n",
        )],
    ),
    (
        "0",
        &[Lines(
            b"range a\nrange a b 1 2\ncheck a\nprobe a\nprobe a 1 2\nremove\nrange a b 4294967296\nrange a b 01\nprobe a 4294967296\n",
            b"bad words\nbad words\nbad words\nbad words\nbad words\nbad words\nbad number\nbad number\nbad number\n",
        )],
    ),
    (
        "0",
        &[Lines(
            b"range abcdefghijklmnopqrstuvwxy b -1\nrange a abcdefghijklmnopqrstuvwxy -1\nprobe abcdefghijklmnopqrstuvwxy 0\n",
            b"oversized key 24\noversized key 24\noversized key 24\n",
        )],
    ),
    (
        "0",
        &[Lines(
            b"# stock\nput bolt-m6 140\nput nut-m6 200\nput washer-m6 95\nget nut-m6\nrange b o\nremove bolt-m6\nremove bolt-m6\ncheck\n",
            b"stored\nstored\nstored\nfound 200\nrecord bolt-m6 140\nrecord nut-m6 200\nend 2\nremoved\nabsent\ncheck ok records=2 height=0\n",
        )],
    ),
    (
        "0",
        &[Lines(
            b"put a%20b x%00y\nget a%20b\n# a note\nput k\nget k\nput a*b 1#2\nget a*b\n",
            b"stored\nfound x%00y\nstored\nfound\nstored\nfound 1%232\n",
        )],
    ),
    (
        "0",
        &[Lines(
            b"PUT a b\nget\nput a b c\nrange a b -1\nput abcdefghijklmnopqrstuvwxy 1\nput a xxxxxxxxxxxxxxxxxxxxxxxxxxxxxxxxx\nget a\n",
            b"bad command\nbad words\nbad words\nbad number\noversized key 24\noversized value 32\nabsent\n",
        )],
    ),
];

// Stores that grow, spread their records, and shrink.
const ARRAYS: &[Row] = &[
    (
        "0",
        &[
            Put(1, 64),
            Lines(
                b"put k065\nput k001 9\nget k001\ncheck\n",
                b"full 64\nreplaced\nfound 9\ncheck ok records=64 height=0\n",
            ),
        ],
    ),
    (
        "1",
        &[
            Put(1, 126),
            Lines(
                b"put k127\ncheck\nput a\ncheck\nput k126 1\n",
                b"full 126\ncheck ok records=126 height=1\nfull 126\ncheck ok records=126 height=1\nreplaced\n",
            ),
        ],
    ),
    (
        "3",
        &[
            Put(1, 64),
            Lines(b"check\n", b"check ok records=64 height=0\n"),
            Put(65, 65),
            Lines(b"check\n", b"check ok records=65 height=1\n"),
            Put(66, 126),
            Lines(b"check\n", b"check ok records=126 height=1\n"),
            Put(127, 127),
            Lines(
                b"check\nprobe k127 7\nprobe k127 1\n",
                b"check ok records=127 height=2\nprobe segment=3 nodes=2 blocks=1 bound=4\nprobe segment=3 nodes=2 blocks=2 bound=8\n",
            ),
            Put(128, 248),
            Lines(b"check\n", b"check ok records=248 height=2\n"),
            Put(249, 249),
            Lines(
                b"check\nrange k247 * 2\n",
                b"check ok records=249 height=3\nrecord k247\nrecord k248\nend 2\n",
            ),
        ],
    ),
    (
        "2",
        &[
            Put(1, 65),
            Remove(1, 28),
            Lines(b"check\n", b"check ok records=37 height=1\n"),
            Remove(29, 55),
            Lines(b"check\n", b"check ok records=10 height=1\n"),
            Remove(56, 56),
            Lines(
                b"check\nrange * *\nremove k056\n",
                b"check ok records=9 height=0\nrecord k057\nrecord k058\nrecord k059\nrecord k060\nrecord k061\nrecord k062\nrecord k063\nrecord k064\nrecord k065\nend 9\nabsent\n",
            ),
        ],
    ),
    (
        "2",
        &[
            Put(1, 65),
            Lines(
                b"range k031 k036\nrange k036 k031\nrange * * 0\nrange * k003\nrange k064 *\nrange k032 * 3\nrange k0315 k0316\nprobe k065 7\n",
                b"record k031\nrecord k032\nrecord k033\nrecord k034\nrecord k035\nend 5\nend 0\nend 0\n\
                  record k001\nrecord k002\nend 2\nrecord k064\nrecord k065\nend 2\n\
                  record k032\nrecord k033\nrecord k034\nend 3\nend 0\nprobe segment=1 nodes=1 blocks=1 bound=4\n",
            ),
        ],
    ),
];

#[test]
fn sessions_are_answered(rt: HostRuntime) {
    for (height, parts) in LINES {
        answered(&rt, rt.alloc(), height, parts);
    }
    for (height, parts) in ARRAYS {
        answered(&rt, rt.alloc(), height, parts);
    }
}

// The records of the segment at an offset, at a region's offset and a number of segments on.
fn records_at(file: &[u8], offset: usize) -> u32 {
    let mut count = 0u32;
    for slot in 0..64usize {
        if file.get(offset.saturating_add(64 * slot)) == Some(&1) {
            count = count.saturating_add(1);
        }
    }
    count
}

// Sees that the segments from an offset on hold that many records.
pub(super) fn see_shares(rt: &impl Abort, file: &[u8], offset: usize, shares: &[u32]) {
    let mut offset = offset;
    for share in shares {
        assert_eq!(rt; records_at(file, offset), *share);
        offset = offset.saturating_add(4096);
    }
}

// Where the regions of a store of height limit 2 begin, behind two pages and four images, and their size, of four pages.
pub(super) const REGION_0: usize = 24576;

const REGION_SIZE: usize = 16384;

// The keys that are put in a store of height limit 2, how many of them are removed then, and what its segments hold.
const SHARES: &[(u32, u32, &[u32])] = &[
    (64, 0, &[64]),
    (65, 0, &[32, 33]),
    (96, 0, &[32, 64]),
    (97, 0, &[48, 49]),
    (126, 0, &[62, 64]),
    (127, 0, &[31, 32, 31, 33]),
    (65, 28, &[4, 33]),
    (65, 29, &[17, 19]),
    (65, 55, &[4, 6]),
    (65, 56, &[9]),
];

#[test]
fn segments_hold_their_shares(rt: HostRuntime) {
    for (put, removed, shares) in SHARES {
        let parts = [Put(1, *put), Remove(1, *removed)];
        let file = answered(&rt, rt.alloc(), "2", &parts);
        let is_second = file.first() == Some(&1);
        let live = REGION_0 + if is_second { REGION_SIZE } else { 0 };
        see_shares(&rt, &file, live, shares);
    }
}

/// The reply reads two segments, one after the other.
#[test]
fn a_range_reads_straight_on(rt: HostRuntime) {
    let file = answered(&rt, rt.alloc(), "2", &[Put(1, 65)]);
    let opened = session(rt.alloc(), &file, b"", SMOOTH).expect(&rt, "memory");
    let ranged = session(rt.alloc(), &file, b"range k031 k036\n", SMOOTH).expect(&rt, "memory");
    let (before, after) = (opened.travel, ranged.travel);
    assert_eq!(rt; after.read.checked_sub(before.read), Some(8192));
    assert!(rt; after.breaks.saturating_sub(before.breaks) <= 1);
    assert_eq!(rt; after.written, before.written);
}
