//! Generated commands, and the same counts over an ordered map of the standard library.

use super::rows::see_end;
use command_text::{Command, Reply, ReplyText};
use key_slot::{Key, Value};
use mem_sessions::{Ended, generated};
use std::alloc::{AllocError, Global};
use std::collections::BTreeMap;
use std::process::Abort;
use workload::{Summary, next_command, write_summary};

// How many commands are generated, by what seed, and their summary.
type Summed = (&'static str, &'static str, &'static [u8]);

const SUMMED: &[Summed] = &[
    (
        "0",
        "7",
        b"gen commands=0 stored=0 replaced=0 removed=0 absent=0 found=0 ranged=0 records=0 height=0\n",
    ),
    (
        "1",
        "0",
        b"gen commands=1 stored=0 replaced=0 removed=0 absent=0 found=0 ranged=0 records=0 height=0\n",
    ),
    (
        "1",
        "1",
        b"gen commands=1 stored=0 replaced=0 removed=0 absent=1 found=0 ranged=0 records=0 height=0\n",
    ),
    (
        "1",
        "2",
        b"gen commands=1 stored=1 replaced=0 removed=0 absent=0 found=0 ranged=0 records=1 height=0\n",
    ),
    (
        "100",
        "5",
        b"gen commands=100 stored=62 replaced=0 removed=0 absent=27 found=0 ranged=101 records=62 height=0\n",
    ),
];

// How these words end, which generate commands.
fn summed(rt: &impl Abort, alloc: Global, count: &str, seed: &str) -> Ended {
    let ended = generated(alloc, count, seed).expect(rt, "memory");
    ended.expect(rt, "these words generate commands")
}

/// The numbers come from the definition, worked out apart from this program.
#[test]
fn generated_commands_are_summed(rt: HostRuntime) {
    for (count, seed, want) in SUMMED {
        let ended = summed(&rt, rt.alloc(), count, seed);
        see_end(&rt, &ended, (0, *want));
    }
}

// Counts a command by the last line of its reply.
fn count_on(rt: &impl Abort, summary: &mut Summary, last: &Reply) {
    // Far above what any generated script counts, with room below 2^32 for one reply more.
    const MOST: u32 = 1_000_000_000;
    assert!(rt; summary.commands < MOST && summary.stored < MOST && summary.replaced < MOST);
    assert!(rt; summary.removed < MOST && summary.absent < MOST && summary.found < MOST);
    assert!(rt; summary.ranged < MOST);
    if let Reply::End(rows) = last {
        assert!(rt; *rows < MOST);
    }
    summary.count(last);
}

// The number in a generated key, `k` and five digits. Keys are ordered as their numbers are.
fn number_in(key: &Key) -> u32 {
    let mut number = 0u32;
    for digit in key.as_bytes().iter().skip(1) {
        number = number
            .wrapping_mul(10)
            .wrapping_add(u32::from(digit.wrapping_sub(b'0')));
    }
    number
}

// How a map answers a put.
fn put_in(records: &mut BTreeMap<u32, ()>, key: &Key) -> Result<Reply, AllocError> {
    let reply = match records.insert(number_in(key), ())? {
        Some(_) => Reply::Replaced,
        None => Reply::Stored,
    };
    Ok(reply)
}

// The last line of the reply of an ordered map of the standard library to a generated command.
fn answered_by(rt: &impl Abort, records: &mut BTreeMap<u32, ()>, command: &Command) -> Reply {
    match command {
        Command::Put(key, _) => put_in(records, key).expect(rt, "memory"),
        Command::Remove(key) => match records.remove(&number_in(key)) {
            Some(_) => Reply::Removed,
            None => Reply::Absent,
        },
        Command::Get(key) => match records.get(&number_in(key)) {
            Some(_) => Reply::Found(Value::from_bytes(b"").expect(rt, "an empty value")),
            None => Reply::Absent,
        },
        Command::Range { low: Some(low), .. } => {
            let low = number_in(low);
            let rows = records.keys().filter(|number| **number >= low).take(10);
            Reply::End(rows.count() as u32)
        }
        _ => panic!(rt; "no generated command"),
    }
}

// How such a map answers the commands of a seed. It has no height.
fn over_a_map(rt: &impl Abort, alloc: Global, count: u32, seed: u32) -> Summary {
    let mut records: BTreeMap<u32, ()> = BTreeMap::new(alloc);
    let mut summary = Summary::new();
    let mut x = u64::from(seed);
    for done in 0..count {
        let command = next_command(&mut x, done + 1);
        let last = answered_by(rt, &mut records, &command);
        count_on(rt, &mut summary, &last);
    }
    assert!(rt; records.len() < 1_000_000);
    summary.records = records.len() as u32;
    summary
}

#[test]
fn many_commands_are_answered_as_by_an_ordered_map(rt: HostRuntime) {
    let ended = summed(&rt, rt.alloc(), "20000", "5");
    assert_eq!(rt; ended.status, 0);
    let wanted = over_a_map(&rt, rt.alloc(), 20000, 5);
    let mut text = ReplyText::new();
    write_summary(&wanted, &mut text);
    // (the map has no height, which is the last digit of the line)
    let (said, line) = (ended.said.as_slice(), text.as_bytes());
    assert!(rt; said.len() == line.len() && line.len() >= 2);
    let end = line.len() - 2;
    assert_eq!(rt; &said[..end], &line[..end]);
}
