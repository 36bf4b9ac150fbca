//! The lines of a load text.

ghost use Rattle.std.specs.Prelude.{◌≡◌, ◌<◌, ◌≤◌, length};
ghost use Rattle.percent_encoding.specs.Percent.{percent_decode};
ghost use Rattle.key_slot.specs.Format.{wide};
ghost use Rattle.command_text.specs.Words.{words};
ghost use Rattle.command_text.specs.Load.{load_line, load_named, record_line, end_line, row_of};

use super::number::read_number;
use super::words::{next_word, read_key, read_value};
use key_slot::Row;

/// What a line is in a load text, which a dump says and a load reads.
#[derive(Clone, Copy)]
pub enum LoadLine {
    /// It has no word, or is a note, and is skipped.
    Nothing,
    /// A record.
    Row(Row),
    /// The end, with the number of the records.
    End(u32),
    /// It stands in no load text.
    Bad,
}

/// What a line is in a load text of records for slots of this format, 1 or 2, as `LineReader::line` gives it: a carriage
/// return in it belongs to a word.
///
/// `Bad` if it is no note, no `record KEY` or `record KEY VALUE` with sizes of the format, and no `end N` with a
/// number below 2^32.
pub fn parse_load(line: &[u8], format: u32) -> LoadLine
    requires format { format ≤ wide }
    // The line that is defined for these bytes in a load text of the format: nothing, a record that fits a slot of it, the end
    // with its number of records, or `Bad` for all others.
    ensures { result ≡ load_line format line.now }
{
    match next_word(line) {
        Some((name, rest)) => parse_named(name, rest, format),
        None => LoadLine::Nothing,
    }
}

// The line with this first word and the words that follow it.
pub(super) fn parse_named(name: &[u8], rest: &[u8], format: u32) -> LoadLine
    requires some { 0 < length name.now }
    requires format { format ≤ wide }
    ensures { result ≡ load_named format name.now (words rest.now) }
{
    if name[0] == b'#' {
        return LoadLine::Nothing;
    }
    if name == b"record".as_slice() {
        return parse_record(rest, format);
    }
    if name == b"end".as_slice() {
        return parse_end(rest);
    }
    LoadLine::Bad
}

// What follows `record`.
fn parse_record(rest: &[u8], format: u32) -> LoadLine
    requires format { format ≤ wide }
    ensures { result ≡ record_line format (words rest.now) }
{
    let Some((key, after_key)) = next_word(rest) else {
        return LoadLine::Bad;
    };
    let Some((value, after_value)) = next_word(after_key) else {
        return record(key, &[], format);
    };
    if next_word(after_value).is_some() {
        return LoadLine::Bad;
    }
    record(key, value, format)
}

// The record of these two words.
fn record(key: &[u8], value: &[u8], format: u32) -> LoadLine
    requires some { 0 < length key.now }
    requires format { format ≤ wide }
    ensures { result ≡ row_of format (percent_decode key.now) (percent_decode value.now) }
{
    let Some(key) = read_key(key, format) else {
        return LoadLine::Bad;
    };
    let Some(value) = read_value(value, format) else {
        return LoadLine::Bad;
    };
    LoadLine::Row(Row { key, value })
}

// What follows `end`.
fn parse_end(rest: &[u8]) -> LoadLine
    ensures { result ≡ end_line (words rest.now) }
{
    let Some((number, after_number)) = next_word(rest) else {
        return LoadLine::Bad;
    };
    if next_word(after_number).is_some() {
        return LoadLine::Bad;
    }
    match read_number(number) {
        Some(count) => LoadLine::End(count),
        None => LoadLine::Bad,
    }
}
