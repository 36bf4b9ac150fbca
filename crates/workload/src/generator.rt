//! The generator of commands.

ghost use Rattle.std.specs.Prelude.{◌≡◌, ◌<◌, decimal};
ghost use Rattle.key_slot.specs.Format.{narrow};
ghost use Rattle.command_text.specs.Command.{FitsFormat};
ghost use Rattle.workload.specs.Generator.{next_draw, key_numbered, command_chosen, command_by, AsksForRecords};

use command_text::Command;
use itoa::Buffer;
use key_slot::{Key, Value};

// The multiplier of the generator, modulo 2^64: Knuth's for MMIX, published and tried.
const MULTIPLIER: u64 = 6_364_136_223_846_793_005;

// The increment, which goes with it.
const INCREMENT: u64 = 1_442_695_040_888_963_407;

// How many keys there are: those that `k` and five digits spell.
const KEYS: u32 = 100_000;

// The most records of a range: few, so that it reads a few segments only, however many records there are.
const RANGE_LIMIT: u32 = 10;

/// Steps the generator from the number `x` that it holds, and gives command number `i` of what it then holds.
///
/// A seed is the number that the generator begins with, and the first command is number 1. The command is a put, a remove,
/// a get or a range, and a file of slot format 1 has room for what it binds and names. The generator is a linear congruential
/// one, with the constants that Knuth gives for MMIX.
pub fn next_command(x: &mut u64, i: u32) -> Command
    // The generator then holds the defined number after the one before.
    ensures drawn { x.new ≡ next_draw x.old }
    // The command is the defined one of that number and of `i`.
    ensures command { result ≡ command_by (next_draw x.old) i }
    // It is a put, a remove, a get or a range.
    ensures asks { AsksForRecords result }
    // A file of slot format 1 has room for what it binds and names.
    ensures fits { FitsFormat narrow result }
{
    *x = x.wrapping_mul(MULTIPLIER).wrapping_add(INCREMENT);
    command((*x >> 33) as u32, i)
}

// Command number `i`: the lowest three bits of `r` tell what it does, the others its key.
fn command(r: u32, i: u32) -> Command
    ensures command { result ≡ command_chosen r i }
    ensures asks { AsksForRecords result }
{
    let key = numbered_key(r / 8 % KEYS);
    match r % 8 {
        0..=4 => Command::Put(key, decimal_value(i)),
        5 => Command::Remove(key),
        6 => Command::Get(key),
        _ => Command::Range {
            low: Some(key),
            high: None,
            limit: RANGE_LIMIT,
        },
    }
}

// `k` and the five digits of a number.
fn numbered_key(n: u32) -> Key
    requires { n < 100000 }
    ensures { result ≡ key_numbered n }
{
    let mut buffer = Buffer::new();
    let digits = buffer.format(n).as_bytes();
    let mut bytes = *b"k00000";
    bytes[6 - digits.len()..].copy_from_slice(digits);
    Key::from_bytes(&bytes).unwrap()
}

// The digits of a number.
fn decimal_value(n: u32) -> Value
    ensures { result ≡ decimal n }
{
    let mut buffer = Buffer::new();
    Value::from_bytes(buffer.format(n).as_bytes()).unwrap()
}
