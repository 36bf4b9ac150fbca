//! Worked lines and replies.

use batch_intent::{Intent, Item};
use block_touch::Probe;
use command_text::{Command, Reply, ReplyText, Why, parse_line, write_reply};
use cost_ledger::Cost;
use header_gate::Reason;
use key_slot::{Key, Value};
use segment::Damage;
use std::alloc::Global;
use std::process::Abort;

// The two slot formats.
const NARROW: u32 = 1;

const WIDE: u32 = 2;

/// The `put` of a key and a value, if a slot has room for them.
pub fn put(key: &[u8], value: &[u8]) -> Command {
    match (Key::from_bytes(key), Value::from_bytes(value)) {
        (Ok(key), Ok(value)) => Command::Put(key, value),
        _ => Command::Nothing,
    }
}

/// The `get` of a key, if a slot has room for it.
pub fn get(key: &[u8]) -> Command {
    match Key::from_bytes(key) {
        Ok(key) => Command::Get(key),
        Err(_) => Command::Nothing,
    }
}

#[test]
fn lines_are_commands(rt: HostRuntime) {
    let mut remove = Command::Nothing;
    if let Ok(key) = Key::from_bytes(b"bolt-m6") {
        remove = Command::Remove(key);
    }
    for (line, want) in [
        (b"".as_slice(), Command::Nothing),
        (b"   ", Command::Nothing),
        (b"# note", Command::Nothing),
        (b" #put a b c d", Command::Nothing),
        (b"put a 1", put(b"a", b"1")),
        (b"  put   k  ", put(b"k", b"")),
        (b"put %00%20x v", put(b"\0 x", b"v")),
        (b"put a%2 x", put(b"a%2", b"x")),
        (b"get %4a%4A*%", get(b"JJ*%")),
        (b"get a\r", get(b"a\r")),
        (b"remove bolt-m6", remove),
        (
            b"put abcdefghijklmnopqrstuvwx 1",
            put(b"abcdefghijklmnopqrstuvwx", b"1"),
        ),
        (b"put abcdefghijklmnopqrstuvwxy 1", Command::OversizedKey),
        (
            b"put a xxxxxxxxxxxxxxxxxxxxxxxxxxxxxxxx",
            put(b"a", &[b'x'; 32]),
        ),
        (
            b"put a xxxxxxxxxxxxxxxxxxxxxxxxxxxxxxxxx",
            Command::OversizedValue,
        ),
    ] {
        assert!(rt; parse_line(line, NARROW) == want);
    }
}

/// (40 and 41 bytes of a key, 80 and 81 of a value)
#[test]
fn longer_words_are_records_of_format_2(rt: HostRuntime) {
    let mut line = [b'x'; 126];
    line[..4].copy_from_slice(b"put ");
    line[44] = b' ';
    for (length, wide) in [
        (44, put(&[b'x'; 40], b"")),
        (125, put(&[b'x'; 40], &[b'x'; 80])),
        (126, Command::OversizedValue),
    ] {
        assert!(rt; parse_line(&line[..length], NARROW) == Command::OversizedKey);
        assert!(rt; parse_line(&line[..length], WIDE) == wide);
    }
    line[44] = b'x';
    assert!(rt; parse_line(&line[..45], WIDE) == Command::OversizedKey);
}

// The batch of a put of `a` and `1`, a put of `;` without a value, and a remove of `c`.
fn batch() -> Command {
    let mut items = Intent::new();
    let (Ok(a), Ok(one), Ok(separator), Ok(empty), Ok(c)) = (
        Key::from_bytes(b"a"),
        Value::from_bytes(b"1"),
        Key::from_bytes(b";"),
        Value::from_bytes(b""),
        Key::from_bytes(b"c"),
    ) else {
        return Command::Nothing;
    };
    for item in [
        Item::Put(a, one),
        Item::Put(separator, empty),
        Item::Remove(c),
    ] {
        if items.push(item).is_err() {
            return Command::Nothing;
        }
    }
    Command::Batch(items)
}

/// What is wrong with a batch: its form, then a size, then a key that stands twice.
#[test]
fn batches_are_items_between_separators(rt: HostRuntime) {
    for (line, want) in [
        (b"batch put a 1 ; put %3B ; remove c".as_slice(), batch()),
        (b"batch  put a 1  ;  put %3b  ;  remove c ", batch()),
        (
            b"batch put a 1 ; put ; ; remove c",
            Command::Bad(Why::Words),
        ),
        (b"batch", Command::Bad(Why::Words)),
        (b"batch ;", Command::Bad(Why::Words)),
        (b"batch put a ;", Command::Bad(Why::Words)),
        (b"batch ; put a", Command::Bad(Why::Words)),
        (b"batch put a b c", Command::Bad(Why::Words)),
        (b"batch put", Command::Bad(Why::Words)),
        (b"batch remove a b", Command::Bad(Why::Words)),
        (b"batch get a", Command::Bad(Why::Words)),
        (b"batch put a ; PUT b", Command::Bad(Why::Words)),
        (b"batch put a ; put a x ; put", Command::Bad(Why::Words)),
        (
            b"batch remove abcdefghijklmnopqrstuvwxy ; get a",
            Command::Bad(Why::Words),
        ),
        (
            b"batch remove a ; put a ; remove abcdefghijklmnopqrstuvwxy",
            Command::OversizedKey,
        ),
        (
            b"batch put a xxxxxxxxxxxxxxxxxxxxxxxxxxxxxxxxx ; remove abcdefghijklmnopqrstuvwxy",
            Command::OversizedValue,
        ),
        (b"batch put a ; remove %61", Command::RepeatedKey),
        (b"batch put a b;c ; remove a", Command::RepeatedKey),
        (b"cost", Command::Cost),
        (b"cost x", Command::Bad(Why::Words)),
        (b"Cost", Command::Bad(Why::Command)),
    ] {
        assert!(rt; parse_line(line, NARROW) == want);
    }
}

// A batch of that many removals, of the keys `a`, `b` and so on.
fn removals(rt: &impl Abort, alloc: Global, count: u8) -> Vec<u8> {
    let mut line = Vec::from_slice(alloc, b"batch remove a").expect(rt, "memory");
    for i in 1..count {
        line.extend_from_slice(b" ; remove ").expect(rt, "memory");
        line.push(b'a' + i % 26).expect(rt, "memory");
    }
    line
}

#[test]
fn a_batch_has_at_most_16_items(rt: HostRuntime) {
    let line = removals(&rt, rt.alloc(), 16);
    let Command::Batch(items) = parse_line(&line, NARROW) else {
        panic!(rt; "no batch");
    };
    assert_eq!(rt; items.len(), 16);
    let line = removals(&rt, rt.alloc(), 17);
    assert!(rt; parse_line(&line, NARROW) == Command::Bad(Why::Words));
}

#[test]
fn what_is_wrong_first_is_refused(rt: HostRuntime) {
    for (line, want) in [
        (b"frob a".as_slice(), Command::Bad(Why::Command)),
        (b"PUT a", Command::Bad(Why::Command)),
        (b"%70ut a", Command::Bad(Why::Command)),
        (b"RANGE * *", Command::Bad(Why::Command)),
        (b"get", Command::Bad(Why::Words)),
        (b"put a b c", Command::Bad(Why::Words)),
        (
            b"remove abcdefghijklmnopqrstuvwxy a",
            Command::Bad(Why::Words),
        ),
        (
            b"put abcdefghijklmnopqrstuvwxy xxxxxxxxxxxxxxxxxxxxxxxxxxxxxxxxx",
            Command::OversizedKey,
        ),
    ] {
        assert!(rt; parse_line(line, NARROW) == want);
    }
}

#[test]
fn replies_are_lines(rt: HostRuntime) {
    let mut values = [Reply::Absent; 2];
    if let (Ok(empty), Ok(value)) = (
        Value::from_bytes(b""),
        Value::from_bytes(b"a%2\0 #*\x7F\xFF~"),
    ) {
        values = [Reply::Found(empty), Reply::Found(value)];
    }
    let mut text = ReplyText::new();
    for (reply, want) in [
        (Reply::Stored, b"stored\n".as_slice()),
        (Reply::Replaced, b"replaced\n"),
        (Reply::Full(64), b"full 64\n"),
        (Reply::OversizedKey(24), b"oversized key 24\n"),
        (Reply::OversizedKey(40), b"oversized key 40\n"),
        (Reply::OversizedValue(32), b"oversized value 32\n"),
        (Reply::OversizedValue(80), b"oversized value 80\n"),
        (Reply::Removed, b"removed\n"),
        (Reply::Absent, b"absent\n"),
        (values[0], b"found\n"),
        (values[1], b"found a%252%00%20%23%2A%7F%FF~\n"),
        (Reply::Bad(Why::Line), b"bad line\n"),
        (Reply::Bad(Why::Command), b"bad command\n"),
        (Reply::End(5), b"end 5\n"),
        (
            Reply::CheckOk {
                records: 127,
                height: 2,
            },
            b"check ok records=127 height=2\n",
        ),
        (
            Reply::Probe(Probe {
                segment: 3,
                nodes: 2,
                blocks: 1,
                bound: 4,
            }),
            b"probe segment=3 nodes=2 blocks=1 bound=4\n",
        ),
        (
            Reply::Batch {
                stored: 2,
                replaced: 0,
                removed: 1,
                absent: 13,
            },
            b"batch stored=2 replaced=0 removed=1 absent=13\n",
        ),
        (Reply::NoBatch, b"no batch\n"),
        (Reply::RepeatedKey, b"repeated key\n"),
        (
            Reply::Cost(Cost {
                updates: 18446744073709551615,
                charge: 340282366920938463463374607431768211455,
                bound: 0,
            }),
            b"cost updates=18446744073709551615 charge=340282366920938463463374607431768211455 bound=0\n",
        ),
        (Reply::Bad(Why::Words), b"bad words\n"),
        (Reply::Bad(Why::Number), b"bad number\n"),
        (Reply::OneSegment, b"refused one-segment\n"),
        (Reply::TooMany(126), b"refused too-many 126\n"),
    ] {
        write_reply(&reply, &mut text);
        assert!(rt; text.as_bytes() == want);
    }
}

#[test]
fn refusals_are_lines(rt: HostRuntime) {
    let mut text = ReplyText::new();
    for (reason, want) in [
        (Reason::Length(32768), b"refused length 32768\n".as_slice()),
        (Reason::Identity, b"refused identity 3072\n"),
        (Reason::Version(2), b"refused version 2\n"),
        (Reason::HeightLimit(17), b"refused height-limit 17\n"),
        (Reason::JournalSize(3), b"refused journal-size 3\n"),
        (
            Reason::Height { copy: 1, found: 2 },
            b"refused height 1 2\n",
        ),
        (
            Reason::Format { copy: 0, found: 9 },
            b"refused format 0 9\n",
        ),
        (Reason::Journal { place: 4100 }, b"refused journal 4100\n"),
        (
            Reason::Slot {
                segment: 0,
                slot: 1,
            },
            b"refused slot 0 1\n",
        ),
        (Reason::Order { segment: 1 }, b"refused order 1\n"),
        (
            Reason::Density {
                height: 1,
                number: 0,
                count: 9,
            },
            b"refused density 1 0 9\n",
        ),
        (Reason::Index { place: 57344 }, b"refused index 57344\n"),
        (Reason::Intent { place: 3584 }, b"refused intent 3584\n"),
    ] {
        write_reply(&Reply::NotStore(reason), &mut text);
        assert!(rt; text.as_bytes() == want);
    }
    for (why, want) in [
        (
            Damage::NotSegment { slot: 0 },
            b"refused slot 7 0\n".as_slice(),
        ),
        (
            Damage::OtherCount { found: 3, kept: 5 },
            b"refused count 7 3 5\n",
        ),
        (Damage::OutOfOrder, b"refused order 7\n"),
    ] {
        write_reply(&Reply::Damaged { segment: 7, why }, &mut text);
        assert!(rt; text.as_bytes() == want);
    }
}
