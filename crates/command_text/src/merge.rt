//! The lines of a merge text.

ghost use Rattle.std.specs.Prelude.{◌≡◌, ◌<◌, ◌≤◌, length};
ghost use Rattle.percent_encoding.specs.Percent.{percent_decode};
ghost use Rattle.key_slot.specs.Format.{wide};
ghost use Rattle.command_text.specs.Words.{words};
ghost use Rattle.command_text.specs.Merge.{merge_line, merge_named, removal_line, removal_of, merge_line_of};

use super::load::{LoadLine, parse_named as parse_load_named};
use super::words::{next_word, read_key};
use key_slot::{Key, Row};

/// What a line is in a merge text, whose lines bind and remove keys.
#[derive(Clone, Copy)]
pub enum MergeLine {
    /// It has no word, or is a note, and is skipped.
    Nothing,
    /// A record, which is bound.
    Bind(Row),
    /// A key, which is removed.
    Remove(Key),
    /// The end, with the number of the lines that bind or remove.
    End(u32),
    /// It stands in no merge text.
    Bad,
}

/// What a line is in a merge text of records for slots of this format, 1 or 2, as `LineReader::line` gives it: a carriage
/// return in it belongs to a word.
///
/// A line of a load text is one of a merge text, and so is `remove KEY` with a size of the format. All else is `Bad`.
pub fn parse_merge(line: &[u8], format: u32) -> MergeLine
    requires format { format ≤ wide }
    ensures { result ≡ merge_line format line.now }
{
    match next_word(line) {
        Some((name, rest)) => parse_named(name, rest, format),
        None => MergeLine::Nothing,
    }
}

// The line with this first word and the words that follow it.
fn parse_named(name: &[u8], rest: &[u8], format: u32) -> MergeLine
    requires some { 0 < length name.now }
    requires format { format ≤ wide }
    ensures { result ≡ merge_named format name.now (words rest.now) }
{
    if name == b"remove".as_slice() {
        return parse_removal(rest, format);
    }
    of_load(parse_load_named(name, rest, format))
}

// What follows `remove`.
fn parse_removal(rest: &[u8], format: u32) -> MergeLine
    requires format { format ≤ wide }
    ensures { result ≡ removal_line format (words rest.now) }
{
    let Some((key, after_key)) = next_word(rest) else {
        return MergeLine::Bad;
    };
    if next_word(after_key).is_some() {
        return MergeLine::Bad;
    }
    removal(key, format)
}

// The removal of the key that this word means.
fn removal(key: &[u8], format: u32) -> MergeLine
    requires some { 0 < length key.now }
    requires format { format ≤ wide }
    ensures { result ≡ removal_of format (percent_decode key.now) }
{
    match read_key(key, format) {
        Some(key) => MergeLine::Remove(key),
        None => MergeLine::Bad,
    }
}

// The line of a merge text that a line of a load text is.
fn of_load(line: LoadLine) -> MergeLine
    ensures { result ≡ merge_line_of line }
{
    match line {
        LoadLine::Nothing => MergeLine::Nothing,
        LoadLine::Row(row) => MergeLine::Bind(row),
        LoadLine::End(count) => MergeLine::End(count),
        LoadLine::Bad => MergeLine::Bad,
    }
}
