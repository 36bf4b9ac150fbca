//! Worked sessions with batches, what their updates are charged, and files that have no batches.

use super::rows::{answered, answered_on, changed, see_kept, see_session};
use Part::{Lines, Put, Remove};
use mem_sessions::{Part, SMOOTH};
use std::alloc::Global;
use std::process::Abort;

// The height limit of a new store, and the parts of a script.
type Row = (&'static str, &'static [Part]);

const BATCHES: &[Row] = &[
    (
        "0",
        &[Lines(
            b"batch put a 1 ; put b ; remove c\nget a\nget b\nbatch put a ; remove a\nbatch\ncheck\n",
            b"batch stored=2 replaced=0 removed=0 absent=1\nfound 1\nfound\nrepeated key\nbad words\ncheck ok records=2 height=0\n",
        )],
    ),
    (
        "0",
        &[
            Put(1, 63),
            Lines(
                b"batch put x ; put y\nget x\nbatch remove k001 ; put x ; put y\ncheck\n",
                b"full 64\nabsent\nbatch stored=2 replaced=0 removed=1 absent=0\ncheck ok records=64 height=0\n",
            ),
            Lines(
                b"batch put z ; remove x\nbatch put y 2 ; remove w\nbatch remove x ; put z\nget x\nget y\n",
                b"full 64\nbatch stored=0 replaced=1 removed=0 absent=1\nbatch stored=1 replaced=0 removed=1 absent=0\nabsent\nfound 2\n",
            ),
        ],
    ),
    (
        "0",
        &[Lines(
            b"batch put %3B x ; put b\nget ;\nbatch remove ; ; put b\nbatch remove %3b ; put b;c\nrange * *\n",
            b"batch stored=2 replaced=0 removed=0 absent=0\nfound x\nbad words\nbatch stored=1 replaced=0 removed=1 absent=0\nrecord b\nrecord b;c\nend 2\n",
        )],
    ),
    (
        "0",
        &[Lines(
            b"batch put a ; put a xxxxxxxxxxxxxxxxxxxxxxxxxxxxxxxxx\nbatch put a ; remove abcdefghijklmnopqrstuvwxy\nbatch put a ; remove %61\nBATCH put a\ncheck\n",
            b"oversized value 32\noversized key 24\nrepeated key\nbad command\ncheck ok records=0 height=0\n",
        )],
    ),
    // a new key comes behind the removal of its segment's first record, so the items are made one by one
    (
        "2",
        &[
            Put(1, 65),
            Lines(
                b"batch remove k033 ; put k033x 1 ; remove k0\nget k033\nrange k033 * 2\ncheck\n",
                b"batch stored=1 replaced=0 removed=1 absent=1\nabsent\nrecord k033x 1\nrecord k034\nend 2\ncheck ok records=65 height=1\n",
            ),
            Lines(
                b"batch put k034 2 ; remove k034\nbatch put k034 2 ; remove k035 ; put k036x\nget k034\nget k036x\ncheck\n",
                b"repeated key\nbatch stored=1 replaced=1 removed=1 absent=0\nfound 2\nfound\ncheck ok records=65 height=1\n",
            ),
        ],
    ),
    // sent again it leaves the same map
    (
        "0",
        &[Lines(
            b"batch put a 1 ; remove b\nbatch put a 1 ; remove b\nrange * *\n",
            b"batch stored=1 replaced=0 removed=0 absent=1\nbatch stored=0 replaced=1 removed=0 absent=1\nrecord a 1\nend 1\n",
        )],
    ),
    // an item grows the store, spreads it, and shrinks it
    (
        "2",
        &[
            Put(1, 64),
            Lines(
                b"batch put k065 ; remove k001 ; put k002 x ; remove zz\ncheck\nget k002\n",
                b"batch stored=1 replaced=1 removed=1 absent=1\ncheck ok records=64 height=1\nfound x\n",
            ),
        ],
    ),
    (
        "2",
        &[
            Put(1, 96),
            Lines(
                b"batch put k097 ; remove k001\ncheck\n",
                b"batch stored=1 replaced=0 removed=1 absent=0\ncheck ok records=96 height=1\n",
            ),
        ],
    ),
    (
        "2",
        &[
            Put(1, 65),
            Remove(1, 55),
            Lines(
                b"check\nbatch remove k056 ; put a\ncheck\n",
                b"check ok records=10 height=1\nbatch stored=1 replaced=0 removed=1 absent=0\ncheck ok records=10 height=0\n",
            ),
        ],
    ),
    // the manual's
    (
        "4",
        &[Lines(
            b"batch put a 1 ; put b ; remove c\ncost\nbatch put a ; remove a\nbatch\nbatch put %3B x ; remove b\nget ;\ncost x\n",
            b"batch stored=2 replaced=0 removed=0 absent=1\ncost updates=3 charge=4 bound=1574\nrepeated key\nbad words\nbatch stored=1 replaced=0 removed=1 absent=0\nfound x\nbad words\n",
        )],
    ),
];

#[test]
fn batches_are_answered(rt: HostRuntime) {
    for (height, parts) in BATCHES {
        answered(&rt, rt.alloc(), height, parts);
    }
}

// Updates, and what they are charged in the run that makes them: the 65th and the 127th put grow the store, the 97th, 113th,
// 121st and 125th spread both segments; of the removals after 65 puts the 29th, 43rd, 50th and 54th do, and the 56th shrinks it.
const COSTS: &[Row] = &[
    (
        "0",
        &[Lines(
            b"cost\ncost x\ncost\n",
            b"cost updates=0 charge=0 bound=32\nbad words\ncost updates=0 charge=0 bound=32\n",
        )],
    ),
    (
        "2",
        &[
            Put(1, 65),
            Lines(b"cost\n", b"cost updates=65 charge=133 bound=33442\n"),
            Put(66, 97),
            Lines(b"cost\n", b"cost updates=97 charge=227 bound=49890\n"),
            Put(98, 127),
            Lines(b"cost\n", b"cost updates=127 charge=382 bound=65310\n"),
        ],
    ),
    (
        "2",
        &[
            Put(1, 65),
            Remove(1, 56),
            Lines(b"cost\n", b"cost updates=121 charge=367 bound=62226\n"),
        ],
    ),
    (
        "0",
        &[
            Put(1, 64),
            Lines(
                b"put k065\nput k001 9\ncost\n",
                b"full 64\nreplaced\ncost updates=66 charge=130 bound=33956\n",
            ),
        ],
    ),
    // a refused batch is no update, and a get and a range are none
    (
        "0",
        &[Lines(
            b"batch put a ; put a\nbatch put\nbatch put a 1 ; put b ; remove c\nget a\nrange * * 0\ncost\n",
            b"repeated key\nbad words\nbatch stored=2 replaced=0 removed=0 absent=1\nfound 1\nend 0\ncost updates=3 charge=4 bound=1574\n",
        )],
    ),
    // each item of a batch is charged as a line by itself, also where they are one commit
    (
        "2",
        &[
            Put(1, 65),
            Lines(
                b"batch remove k033 ; put k033x\ncost\nbatch remove k050 ; put k050x\ncost\n",
                b"batch stored=1 replaced=0 removed=1 absent=0\ncost updates=67 charge=137 bound=34470\nbatch stored=1 replaced=0 removed=1 absent=0\ncost updates=69 charge=141 bound=35498\n",
            ),
        ],
    ),
    (
        "0",
        &[
            Put(1, 63),
            Lines(
                b"batch put x ; put y\ncost\n",
                b"full 64\ncost updates=63 charge=126 bound=32414\n",
            ),
        ],
    ),
];

#[test]
fn updates_are_charged(rt: HostRuntime) {
    for (height, parts) in COSTS {
        answered(&rt, rt.alloc(), height, parts);
    }
}

/// A run begins with no update, at the height that its store has then, and `cost` leaves every byte.
#[test]
fn a_run_is_charged_by_itself(rt: HostRuntime) {
    for (puts, want) in [
        (64, b"cost updates=0 charge=0 bound=32\n".as_slice()),
        (65, b"cost updates=0 charge=0 bound=128\n"),
        (127, b"cost updates=0 charge=0 bound=384\n"),
    ] {
        let file = answered(&rt, rt.alloc(), "2", &[Put(1, puts)]);
        see_kept(&rt, rt.alloc(), &file, b"cost\n", (0, want));
    }
}

// Makes a file one of version 1.
const OLD: &[(usize, u8)] = &[(3080, 1)];

/// It is served but for batches, and whatever stands at the places of intent and gate stays there.
#[test]
fn a_file_of_version_1_has_no_batches(rt: HostRuntime) {
    let made = answered(&rt, rt.alloc(), "2", &[Put(1, 64)]);
    let old = changed(&rt, rt.alloc(), &made, OLD);
    let old = changed(&rt, rt.alloc(), &old, &[(640, 1), (3584, 17)]);
    let refused =
        b"no batch\nno batch\nrepeated key\nbad words\ncost updates=0 charge=0 bound=32\n";
    see_kept(
        &rt,
        rt.alloc(),
        &old,
        b"batch put a\nbatch remove zz\nbatch put a ; put a\nbatch\ncost\n",
        (0, refused),
    );
    let parts = [
        Put(65, 65),
        Lines(
            b"remove k001\nget k001\ncheck\n",
            b"removed\nabsent\ncheck ok records=64 height=1\n",
        ),
    ];
    let left = answered_on(&rt, rt.alloc(), &old, &parts);
    for (offset, byte) in [(640, 1), (3080, 1), (3584, 17)] {
        assert_eq!(rt; left.get(offset).copied(), Some(byte));
    }
}

// A script, what is said to it, and how many bytes are written.
type Written = (&'static [u8], &'static [u8], u64);

// Sees what is written of the file that these puts leave.
fn see_written(rt: &impl Abort, alloc: Global, puts: u32, rows: &[Written]) {
    let file = answered(rt, alloc, "2", &[Put(1, puts)]);
    for (script, said, written) in rows {
        let ended = see_session(rt, alloc, &file, script, SMOOTH, (0, said));
        assert_eq!(rt; ended.travel.written, *written);
    }
}

// The bytes of a commit of one segment: two pages, its number, and what says that the journal holds it.
const COMMIT: u64 = 8202;

// In a store of one segment.
const ONE_COMMIT: &[Written] = &[
    (
        b"put k002 x\nremove k001\n",
        b"replaced\nremoved\n",
        2 * COMMIT,
    ),
    (
        b"batch put k002 x ; remove k001 ; put k001x\n",
        b"batch stored=1 replaced=1 removed=1 absent=0\n",
        COMMIT,
    ),
    (
        b"batch remove zz ; remove zy\n",
        b"batch stored=0 replaced=0 removed=0 absent=2\n",
        0,
    ),
    (
        b"batch put a ; put a\ncost\n",
        b"repeated key\ncost updates=0 charge=0 bound=32\n",
        0,
    ),
];

/// A batch of one segment writes what one update writes, and one that changes nothing writes nothing.
#[test]
fn a_batch_of_one_commit_writes_its_segments(rt: HostRuntime) {
    see_written(&rt, rt.alloc(), 64, ONE_COMMIT);
}

// In a store of two segments, whose second one begins with `k033`.
const ITEM_BY_ITEM: &[Written] = &[
    (
        b"batch put k033 x ; remove k001\n",
        b"batch stored=0 replaced=1 removed=1 absent=0\n",
        // two segments of one commit
        4 * 4096 + 2 * 4 + 6,
    ),
    (
        b"batch put k033x ; remove k033 ; remove zz\n",
        b"batch stored=1 replaced=0 removed=1 absent=1\n",
        COMMIT,
    ),
    (
        b"batch remove k033 ; put k033x y\n",
        b"batch stored=1 replaced=0 removed=1 absent=0\n",
        // the number of items, two kinds and sizes, two keys and a value, and the gate twice
        2 * COMMIT + 1 + 6 + 9 + 1 + 2,
    ),
    (
        b"batch remove k033 ; remove zz ; put k033x\n",
        b"batch stored=1 replaced=0 removed=1 absent=1\n",
        2 * COMMIT + 1 + 9 + 11 + 2,
    ),
];

/// A batch writes at most 514 bytes more than its items by themselves: what it adds is its intent, where it is no one commit.
#[test]
fn a_batch_writes_its_intent_and_its_items(rt: HostRuntime) {
    see_written(&rt, rt.alloc(), 65, ITEM_BY_ITEM);
}
