//! Merge texts whose updates are made in stores: what is said, and what the stores hold then.

use super::loads::{PAIR, see_dumped};
use super::rows::{REGION_0, answered, answered_on, changed, made_by, see_end, see_shares};
use super::upgrades::see_upgraded;
use Part::{Lines, Put};
use mem_sessions::{Ended, Keys, Part, Plan, SMOOTH, Verb, push_lines, range_reply, session_by};
use std::alloc::Global;
use std::process::Abort;

// Merges a text into a file of these bytes.
fn merged(rt: &impl Abort, alloc: Global, bytes: &[u8], text: &[u8], plan: Plan<'_>) -> Ended {
    session_by(alloc, Verb::Merge, bytes, text, plan).expect(rt, "memory")
}

// Sees that the merge of a text ends with a status, and what is said. Gives the file that it leaves.
fn see_merged(
    rt: &impl Abort,
    alloc: Global,
    file: &[u8],
    text: &[u8],
    want: (u8, &[u8]),
) -> Vec<u8> {
    let ended = merged(rt, alloc, file, text, SMOOTH);
    see_end(rt, &ended, want);
    ended.file
}

// The line of a merge that changes nothing.
const NONE: &[u8] = b"merged stored=0 replaced=0 removed=0 absent=0\n";

// Texts that are merged one after the other into a store that has no records at first: what each is answered, and the dump then.
const TEXTS: &[(&[u8], &[u8], &[u8])] = &[
    (b"end 0\n", NONE, b"end 0\n"),
    (
        b"remove a\nend 1\n",
        b"merged stored=0 replaced=0 removed=0 absent=1\n",
        b"end 0\n",
    ),
    (
        PAIR,
        b"merged stored=2 replaced=0 removed=0 absent=0\n",
        PAIR,
    ),
    (b"# nothing\n\nend 0", NONE, PAIR),
    (
        b"record 0\nrecord a 2\nrecord ab\nremove b\nremove c\nrecord z 9\nend 6\n",
        b"merged stored=3 replaced=1 removed=1 absent=1\n",
        b"record 0\nrecord a 2\nrecord ab\nrecord z 9\nend 4\n",
    ),
    (
        b"remove %30\r\n  record  ab %25 \n# behind\nremove z\nend 3\n\n",
        b"merged stored=0 replaced=1 removed=2 absent=0\n",
        b"record a 2\nrecord ab %25\nend 2\n",
    ),
    (
        b"remove a\nremove ab\nend 2\n",
        b"merged stored=0 replaced=0 removed=2 absent=0\n",
        b"end 0\n",
    ),
];

/// In slots of both formats.
#[test]
fn updates_of_texts_are_made(rt: HostRuntime) {
    let narrow = made_by(&rt, rt.alloc(), "create", b"", "1", Some("4")).file;
    let wide = see_upgraded(&rt, rt.alloc(), &narrow, (0, b""));
    for empty in [narrow, wide] {
        let mut file = empty;
        for (text, line, dump) in TEXTS {
            file = see_merged(&rt, rt.alloc(), &file, text, (0, line));
            see_dumped(&rt, rt.alloc(), &file, dump);
        }
    }
}

// A text that isn't merged into a store of one segment with two records, and why.
const REFUSED: &[(&[u8], &[u8])] = &[
    (b"", b"refused line 1\n"),
    (b"remove a", b"refused line 2\n"),
    (b"# a\n\n", b"refused line 3\n"),
    (b"remove b\nrecord a\nend 2\n", b"refused line 2\n"),
    (b"record a\nremove a\nend 2\n", b"refused line 2\n"),
    (b"remove a\nremove a\nend 2\n", b"refused line 2\n"),
    (b"remove ab\nremove a\nend 2\n", b"refused line 2\n"),
    (b"remove a\nrecord b\nend 1\n", b"refused line 3\n"),
    (b"remove a\nend 2\n", b"refused line 2\n"),
    (b"remove a\nend 01\n", b"refused line 2\n"),
    (b"remove a\nend\n", b"refused line 2\n"),
    (b"remove a\nend 1\nremove b\n", b"refused line 3\n"),
    (b"remove a\nend 1\nend 1\n", b"refused line 3\n"),
    (b"remove a 1\nend 1\n", b"refused line 1\n"),
    (b"remove\nend 1\n", b"refused line 1\n"),
    (b"Remove a\nend 1\n", b"refused line 1\n"),
    (b"# a\nput a\nend 1\n", b"refused line 2\n"),
    (
        b"remove abcdefghijklmnopqrstuvwxy\nend 1\n",
        b"refused line 1\n",
    ),
    (
        b"record a xxxxxxxxxxxxxxxxxxxxxxxxxxxxxxxxx\nend 1\n",
        b"refused line 1\n",
    ),
    (&[b'#'; 513], b"refused line 1\n"),
];

/// The store has the records of before then. A file that is no store is refused as by a run.
#[test]
fn what_is_wrong_with_a_merge_text_is_said(rt: HostRuntime) {
    let two = Lines(b"put a 1\nput b\n", b"stored\nstored\n");
    let file = answered(&rt, rt.alloc(), "0", &[two]);
    for (text, line) in REFUSED {
        let left = see_merged(&rt, rt.alloc(), &file, text, (3, line));
        see_dumped(&rt, rt.alloc(), &left, PAIR);
    }
    let no_store = changed(&rt, rt.alloc(), &file, &[(3072, 0)]);
    let want = (3, b"refused identity 3072\n".as_slice());
    let left = see_merged(&rt, rt.alloc(), &no_store, PAIR, want);
    assert!(rt; left.as_slice() == no_store.as_slice());
}

// A text for a store of one segment with the records from `k001` to `k064`, its status, and what is said. That too many result
// is known behind the lines up to whose key they are too many.
const FULL: &[(&[u8], u8, &[u8])] = &[
    (b"record k065\nend 1\n", 3, b"refused full 64\n"),
    (b"record a\nend 1\n", 3, b"refused full 64\n"),
    (b"record k065\nend 2\n", 3, b"refused full 64\n"),
    (b"record k065\nput a\n", 3, b"refused full 64\n"),
    (b"record k065", 3, b"refused full 64\n"),
    (b"record a\nend 2\n", 3, b"refused line 2\n"),
    (b"record a\nput a\n", 3, b"refused line 2\n"),
    (b"record a", 3, b"refused line 2\n"),
    (b"record a\nrecord k064 1\nput a\n", 3, b"refused full 64\n"),
    (b"record a\nremove k064\nput a\n", 3, b"refused line 3\n"),
    (b"record a\nremove k065\nend 2\n", 3, b"refused full 64\n"),
    (
        b"record a\nremove k064\nend 2\n",
        0,
        b"merged stored=1 replaced=0 removed=1 absent=0\n",
    ),
    (
        b"remove k001\nrecord k065\nend 2\n",
        0,
        b"merged stored=1 replaced=0 removed=1 absent=0\n",
    ),
    (
        b"record k064 1\nend 1\n",
        0,
        b"merged stored=0 replaced=1 removed=0 absent=0\n",
    ),
];

/// Where more records would result than the store may hold no update is made.
#[test]
fn a_full_store_is_merged_into(rt: HostRuntime) {
    let file = answered(&rt, rt.alloc(), "0", &[Put(1, 64)]);
    let before = range_reply(rt.alloc(), (1, 64)).expect(&rt, "memory");
    for (text, status, line) in FULL {
        let left = see_merged(&rt, rt.alloc(), &file, text, (*status, line));
        if *status == 3 {
            see_dumped(&rt, rt.alloc(), &left, &before);
        }
    }
}

// A text for slots of format 2: an update with a key and a value of the greatest sizes, and a removal of such a key.
const LONG: &[u8] =
    b"record abcdefghijklmnopqrstuvwxyz0123456789ABCD xxxxxxxxxxxxxxxxxxxxxxxxxxxxxxxxxxxxxxxxxxxxxxxxxxxxxxxxxxxxxxxxxxxxxxxxxxxxxxxx\nremove abcdefghijklmnopqrstuvwxyz0123456789ABCE\nend 2\n";

// Their dump.
const LONG_DUMP: &[u8] =
    b"record abcdefghijklmnopqrstuvwxyz0123456789ABCD xxxxxxxxxxxxxxxxxxxxxxxxxxxxxxxxxxxxxxxxxxxxxxxxxxxxxxxxxxxxxxxxxxxxxxxxxxxxxxxx\nend 1\n";

/// Keys and values have the sizes of the slots.
#[test]
fn longer_records_are_merged(rt: HostRuntime) {
    let narrow = made_by(&rt, rt.alloc(), "create", b"", "1", Some("4")).file;
    see_merged(&rt, rt.alloc(), &narrow, LONG, (3, b"refused line 1\n"));
    let wide = see_upgraded(&rt, rt.alloc(), &narrow, (0, b""));
    let line = b"merged stored=1 replaced=0 removed=0 absent=1\n";
    let wide = see_merged(&rt, rt.alloc(), &wide, LONG, (0, line));
    see_dumped(&rt, rt.alloc(), &wide, LONG_DUMP);
    let longer = b"remove abcdefghijklmnopqrstuvwxyz0123456789ABCDE\nend 1\n";
    let left = see_merged(&rt, rt.alloc(), &wide, longer, (3, b"refused line 1\n"));
    see_dumped(&rt, rt.alloc(), &left, LONG_DUMP);
}

// Lines for the keys from the first number to the last, a word and a key each, and the line with their number.
fn text_of(rt: &impl Abort, alloc: Global, word: &[u8], keys: Keys) -> Vec<u8> {
    let (first, last) = keys;
    let mut text = Vec::new(alloc);
    push_lines(&mut text, word, first, last).expect(rt, "memory");
    let end = format!(in alloc; "end {}\n", last.saturating_add(1).saturating_sub(first));
    text.extend_from_slice(end.expect(rt, "memory").as_bytes())
        .expect(rt, "memory");
    text
}

// A word for the lines of some keys, their line and status, the keys that are there then, and what a check counts.
type Height = (
    &'static [u8],
    Keys,
    (u8, &'static [u8]),
    Keys,
    &'static [u8],
);

const HEIGHTS: &[Height] = &[
    (
        b"record ",
        (2, 65),
        (0, b"merged stored=64 replaced=0 removed=0 absent=0\n"),
        (2, 65),
        b"check ok records=64 height=0\n",
    ),
    (
        b"record ",
        (1, 2),
        (0, b"merged stored=1 replaced=1 removed=0 absent=0\n"),
        (1, 65),
        b"check ok records=65 height=1\n",
    ),
    (
        b"remove ",
        (66, 67),
        (0, b"merged stored=0 replaced=0 removed=0 absent=2\n"),
        (1, 65),
        b"check ok records=65 height=1\n",
    ),
    (
        b"record ",
        (60, 248),
        (0, b"merged stored=183 replaced=6 removed=0 absent=0\n"),
        (1, 248),
        b"check ok records=248 height=2\n",
    ),
    (
        b"record ",
        (249, 249),
        (3, b"refused full 248\n"),
        (1, 248),
        b"check ok records=248 height=2\n",
    ),
    (
        b"remove ",
        (127, 300),
        (0, b"merged stored=0 replaced=0 removed=122 absent=52\n"),
        (1, 126),
        b"check ok records=126 height=1\n",
    ),
    (
        b"remove ",
        (2, 126),
        (0, b"merged stored=0 replaced=0 removed=125 absent=0\n"),
        (1, 1),
        b"check ok records=1 height=0\n",
    ),
];

// Sees that a text is answered so on a file, and what records are there then. Gives the file that is left.
fn see_height(rt: &impl Abort, alloc: Global, file: &[u8], row: &Height) -> Vec<u8> {
    let (word, keys, want, left, check) = *row;
    let text = text_of(rt, alloc, word, keys);
    let merged = see_merged(rt, alloc, file, &text, want);
    let dump = range_reply(alloc, left).expect(rt, "memory");
    see_dumped(rt, alloc, &merged, &dump);
    answered_on(rt, alloc, &merged, &[Lines(b"check\n", check)])
}

/// The height is the least that holds the records, in slots of both formats.
#[test]
fn a_merge_takes_the_least_height(rt: HostRuntime) {
    let narrow = made_by(&rt, rt.alloc(), "create", b"", "2", Some("4")).file;
    let wide = made_by(&rt, rt.alloc(), "create-paired", b"", "3", Some("4")).file;
    let wide = see_upgraded(&rt, rt.alloc(), &wide, (0, b""));
    for empty in [narrow, wide] {
        let mut file = empty;
        for row in HEIGHTS {
            file = see_height(&rt, rt.alloc(), &file, row);
        }
    }
}

/// In the region that wasn't live.
#[test]
fn merged_records_are_spread(rt: HostRuntime) {
    let file = answered(&rt, rt.alloc(), "2", &[Put(1, 64)]);
    let text = b"record k065\nend 1\n";
    let line = b"merged stored=1 replaced=0 removed=0 absent=0\n";
    let file = see_merged(&rt, rt.alloc(), &file, text, (0, line));
    see_shares(&rt, &file, REGION_0 + 16384, &[32, 33]);
    let text = text_of(&rt, rt.alloc(), b"record ", (66, 127));
    let line = b"merged stored=62 replaced=0 removed=0 absent=0\n";
    let file = see_merged(&rt, rt.alloc(), &file, &text, (0, line));
    see_shares(&rt, &file, REGION_0, &[31, 32, 32, 32]);
}

// How the merge of three lines goes into a store of one segment without records, its status, and what is said.
const CAUSES: &[(Plan<'static>, u8, &[u8])] = &[
    (
        Plan {
            fail: &[0],
            ..SMOOTH
        },
        4,
        b"",
    ),
    (
        Plan {
            broken: &[1],
            ..SMOOTH
        },
        5,
        b"",
    ),
    (Plan { most: 26, ..SMOOTH }, 8, b""),
    (Plan { room: 7, ..SMOOTH }, 6, b"merged "),
    (
        Plan { most: 27, ..SMOOTH },
        0,
        b"merged stored=2 replaced=0 removed=0 absent=0\n",
    ),
];

/// With 0 and 6 the updates are made, and with 4, 5 and 8 none is.
#[test]
fn each_cause_ends_a_merge(rt: HostRuntime) {
    let empty = answered(&rt, rt.alloc(), "0", &[]);
    for (plan, status, said) in CAUSES {
        let ended = merged(&rt, rt.alloc(), &empty, PAIR, *plan);
        see_end(&rt, &ended, (*status, *said));
        let is_made = *status == 0 || *status == 6;
        let left = if is_made { PAIR } else { b"end 0\n" };
        see_dumped(&rt, rt.alloc(), &ended.file, left);
    }
    let plan = Plan { room: 7, ..SMOOTH };
    let ended = merged(&rt, rt.alloc(), &empty, b"", plan);
    see_end(&rt, &ended, (3, b"refused".as_slice()));
}
