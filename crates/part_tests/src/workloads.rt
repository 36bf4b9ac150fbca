//! Worked commands of the generator, and worked summaries.
//!
//! The numbers of the generator were computed apart from this project.

ghost use Rattle.std.specs.Prelude.{◌∷◌, []};
ghost use Rattle.workload.specs.Summaries.{summary_of, counted, Fits};

use crate::commands::{get, put};
use command_text::{Command, Reply, ReplyText};
use key_slot::{Key, Value};
use workload::{Summary, next_command, write_summary};

// The key of these bytes, where there is one.
fn key(bytes: &[u8]) -> Option<Key> {
    Key::from_bytes(bytes).ok()
}

// The remove of a key.
fn remove(key: &[u8]) -> Command {
    match Key::from_bytes(key) {
        Ok(key) => Command::Remove(key),
        Err(_) => Command::Nothing,
    }
}

// The range of ten records from a key on.
fn range(low: &[u8]) -> Command {
    Command::Range {
        low: key(low),
        high: None,
        limit: 10,
    }
}

#[test]
fn seeds_begin_with_these_commands(rt: HostRuntime) {
    for (seed, held, want) in [
        (0, 1442695040888963407, range(b"k93975")),
        (1, 7806831264735756412, get(b"k04346")),
        (2, 14170967488582549417, put(b"k14717", b"1")),
        (4, 8452495862566583811, put(b"k00003", b"1")),
        (4294967295, 597015566704837154, range(b"k87719")),
    ] {
        let mut x = seed;
        assert!(rt; next_command(&mut x, 1) == want);
        assert!(rt; x == held);
    }
}

#[test]
fn commands_follow_one_another(rt: HostRuntime) {
    let mut x = 5;
    for (i, want) in [
        (1, put(b"k10374", b"1")),
        (2, remove(b"k45971")),
        (3, put(b"k52279", b"3")),
        (4, remove(b"k67925")),
        (5, range(b"k45921")),
        (6, put(b"k56426", b"6")),
        (7, put(b"k64452", b"7")),
        (8, remove(b"k45238")),
        (9, put(b"k94761", b"9")),
        (10, put(b"k68103", b"10")),
    ] {
        assert!(rt; next_command(&mut x, i) == want);
    }
}

// Writes the line of one command whose reply ends so, with a store of that many records behind it.
fn write_one(last: &Reply, records: u32, text: &mut ReplyText)
    requires { Fits (counted (summary_of 0 []) (last.now ∷ [])) }
{
    let mut summary = Summary::new();
    summary.count(last);
    summary.records = records;
    write_summary(&summary, text);
}

#[test]
fn summaries_are_lines(rt: HostRuntime) {
    let mut text = ReplyText::new();
    write_summary(&Summary::new(), &mut text);
    assert!(rt;
        text.as_bytes()
            == b"gen commands=0 stored=0 replaced=0 removed=0 absent=0 found=0 ranged=0 records=0 height=0\n".as_slice()
    );
    write_one(&Reply::End(0), 0, &mut text);
    assert!(rt;
        text.as_bytes()
            == b"gen commands=1 stored=0 replaced=0 removed=0 absent=0 found=0 ranged=0 records=0 height=0\n".as_slice()
    );
    write_one(&Reply::Absent, 0, &mut text);
    assert!(rt;
        text.as_bytes()
            == b"gen commands=1 stored=0 replaced=0 removed=0 absent=1 found=0 ranged=0 records=0 height=0\n".as_slice()
    );
    write_one(&Reply::Stored, 1, &mut text);
    assert!(rt;
        text.as_bytes()
            == b"gen commands=1 stored=1 replaced=0 removed=0 absent=0 found=0 ranged=0 records=1 height=0\n".as_slice()
    );
}

#[test]
fn replies_are_counted(rt: HostRuntime) {
    let mut text = ReplyText::new();
    let mut summary = Summary::new();
    summary.count(&Reply::Stored);
    summary.count(&Reply::Stored);
    summary.count(&Reply::Replaced);
    summary.count(&Reply::Removed);
    summary.count(&Reply::Absent);
    summary.count(&Reply::Absent);
    summary.count(&Reply::Absent);
    if let Ok(value) = Value::from_bytes(b"") {
        summary.count(&Reply::Found(value));
    }
    summary.count(&Reply::End(7));
    summary.count(&Reply::End(0));
    summary.count(&Reply::Full(64));
    summary.records = 1234567;
    summary.height = 11;
    write_summary(&summary, &mut text);
    assert!(rt;
        text.as_bytes()
            == b"gen commands=11 stored=2 replaced=1 removed=1 absent=3 found=1 ranged=7 records=1234567 height=11\n".as_slice()
    );
}
