//! Lines that ask something of the cursors.

ghost use Rattle.std.specs.Prelude.{◌≡◌, ◌<◌, ◌≤◌, length};
ghost use Rattle.key_slot.specs.Format.{wide};
ghost use Rattle.command_text.specs.Words.{words};
ghost use Rattle.command_text.specs.ByName.{cursor_named, open_of};
ghost use Rattle.command_text.specs.LineReading.{named_between, opened_between};

use super::command::{Command, Why};
use super::parse::{Keyed, read_bound, read_keyed};
use super::words::{next_word, read_key};
use key_slot::Key;

// The command of this name with the words that follow it, if it asks something of the cursors.
pub(super) fn read_cursor(name: &[u8], rest: &[u8], format: u32, command: &mut Command)
    requires { format ≤ wide }
    ensures { command.new ≡ cursor_named format name.now (words rest.now) }
{
    if name == b"open".as_slice() {
        return read_open(rest, format, command);
    }
    if name == b"next".as_slice() {
        return read_keyed(Keyed::Next, rest, format, command);
    }
    if name == b"prev".as_slice() {
        return read_keyed(Keyed::Prev, rest, format, command);
    }
    if name == b"close".as_slice() {
        return read_keyed(Keyed::Close, rest, format, command);
    }
    *command = Command::Bad(Why::Command);
}

// What follows `open`.
fn read_open(rest: &[u8], format: u32, command: &mut Command)
    requires { format ≤ wide }
    ensures { command.new ≡ open_of format (words rest.now) }
{
    let Some((name, after_name)) = next_word(rest) else {
        *command = Command::Bad(Why::Words);
        return;
    };
    let Some((low, after_low)) = next_word(after_name) else {
        *command = Command::Bad(Why::Words);
        return;
    };
    let Some((high, after_high)) = next_word(after_low) else {
        *command = Command::Bad(Why::Words);
        return;
    };
    if next_word(after_high).is_some() {
        *command = Command::Bad(Why::Words);
        return;
    }
    open(name, low, high, format, command);
}

// The name's word is looked at first.
fn open(name: &[u8], low: &[u8], high: &[u8], format: u32, command: &mut Command)
    requires name { 0 < length name.now }
    requires low { 0 < length low.now }
    requires high { 0 < length high.now }
    requires format { format ≤ wide }
    ensures { command.new ≡ named_between format name.now low.now high.now }
{
    let Some(name) = read_key(name, format) else {
        *command = Command::OversizedKey;
        return;
    };
    open_between(name, low, high, format, command);
}

// And then the bounds' words.
fn open_between(name: Key, low: &[u8], high: &[u8], format: u32, command: &mut Command)
    requires low { 0 < length low.now }
    requires high { 0 < length high.now }
    requires format { format ≤ wide }
    ensures { command.new ≡ opened_between format name low.now high.now }
{
    let Some(low) = read_bound(low, format) else {
        *command = Command::OversizedKey;
        return;
    };
    let Some(high) = read_bound(high, format) else {
        *command = Command::OversizedKey;
        return;
    };
    *command = Command::Open { name, low, high };
}
