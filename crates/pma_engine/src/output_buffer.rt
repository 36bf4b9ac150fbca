//! Lines that are put together, so that they are said at once.

ghost use Rattle.std.specs.Prelude.{◌≡◌, ◌==◌, ◌+◌, ◌≤◌, ◌↔◌, ◌++◌, [], length, take, true};
ghost use Rattle.key_slot.specs.Padded.{IsPadded};
ghost use Rattle.key_slot.specs.declared.sizes.TheConstants.{MAX_KEY_LEN, MAX_VALUE_LEN};
ghost use Rattle.segment.specs.Fields.{IsWhole, row_in, row_of_fields};
ghost use Rattle.command_text.specs.Answers.{row_line};
ghost use Rattle.command_text.specs.Printed.{printed, value_word};
ghost use Rattle.command_text.specs.Reply.{reply_text};

use command_text::{Reply, ReplyText, are_plain, write_record, write_reply};
use key_slot::{MAX_KEY_LEN, MAX_VALUE_LEN, NARROW_KEY_LEN, NARROW_VALUE_LEN};
use segment::{Fields, Slot};
use std::marker::Model;

/// The most bytes that are said at once: as many as are read at once, so that a scan says about as often as it reads.
pub(crate) const BUFFER_LEN: usize = 16384;

/// The most bytes of one line: those that a `ReplyText` has room for, in which a line is written if it can't be copied.
pub(crate) const LINE_LEN: usize = 512;

/// Lines that are said at once, and the text in which a line that can't be copied is written first.
///
/// Who says the records of many ranges makes one buffer. Its bytes are zeroed once: it lets go of lines by their length alone.
#[derive(Drop)]
pub(crate) struct OutputBuffer {
    bytes: [u8; BUFFER_LEN],
    len: usize,
    text: ReplyText,
}

impl Model for OutputBuffer {
    ghost use Rattle.std.specs.Prelude.{◌≡◌, ℕ, ◌≤◌, List, length, take};
    ghost use Rattle.pma_engine.specs.declared.output_buffer.TheConstants.{BUFFER_LEN};

    ghost Value = { List ℕ };

    ghost view = { λ p. take p.len p.bytes };

    ghost invariant = { λ p. (p.len ≤ BUFFER_LEN) × (length p.bytes ≡ BUFFER_LEN) };
}

impl OutputBuffer {
    /// A buffer without lines.
    #[inline(always)]
    pub(crate) fn new() -> OutputBuffer
        ensures { result ≡ [] }
    {
        OutputBuffer {
            bytes: [0; BUFFER_LEN],
            len: 0,
            text: ReplyText::new(),
        }
    }

    /// The lines.
    pub(crate) fn as_bytes(&self) -> &[u8]
        ensures { result.now ≡ self.now }
    {
        &self.bytes[..self.len]
    }

    /// Whether it has no line.
    pub(crate) fn is_empty(&self) -> bool
        ensures { result ≡ (length self.now == 0) }
    {
        self.len == 0
    }

    /// Whether it has room for a line more.
    #[inline(always)]
    pub(crate) fn has_room(&self) -> bool
        ensures { (result ≡ true) ↔ (length self.now + LINE_LEN ≤ BUFFER_LEN) }
    {
        BUFFER_LEN - self.len >= LINE_LEN
    }

    /// Lets go of the lines.
    pub(crate) fn clear(&mut self)
        ensures { self.new ≡ [] }
    {
        self.len = 0;
    }

    /// Puts the line of a record, which is the row of a slot, behind the others.
    #[inline(always)]
    pub(crate) fn push_record(&mut self, slot: Slot<'_>)
        requires whole { IsWhole slot }
        requires room { length self.old + LINE_LEN ≤ BUFFER_LEN }
        ensures { self.new ≡ self.old ++ reply_text (row_line (row_in slot.entry)) }
    {
        match slot {
            Slot::Narrow(fields) => self.push_fields::<NARROW_KEY_LEN, NARROW_VALUE_LEN>(fields),
            Slot::Wide(fields) => self.push_fields::<MAX_KEY_LEN, MAX_VALUE_LEN>(fields),
        }
    }

    // Puts the line of a record, whose whole fields have that many bytes, behind the others.
    #[inline(always)]
    fn push_fields<const KEY: usize, const VALUE: usize>(&mut self, fields: Fields<'_>)
        requires key { IsPadded KEY fields.key_len fields.key.now }
        requires value { IsPadded VALUE fields.value_len fields.value.now }
        requires most_key { KEY ≤ MAX_KEY_LEN }
        requires most_value { VALUE ≤ MAX_VALUE_LEN }
        requires room { length self.old + LINE_LEN ≤ BUFFER_LEN }
        ensures { self.new ≡ self.old ++ reply_text (row_line (row_of_fields fields.entry)) }
    {
        let key = &fields.key[..fields.key_len];
        let value = &fields.value[..fields.value_len];
        if are_plain(key) && are_plain(value) {
            self.len = copy_record::<KEY, VALUE>(&mut self.bytes, self.len, fields);
        } else {
            write_record(key, value, &mut self.text);
            self.len = copy_behind(&mut self.bytes, self.len, self.text.as_bytes());
        }
    }

    /// Puts a line behind the others.
    pub(crate) fn push_line(&mut self, line: &Reply)
        requires room { length self.old + LINE_LEN ≤ BUFFER_LEN }
        ensures { self.new ≡ self.old ++ reply_text line.now }
    {
        write_reply(line, &mut self.text);
        self.len = copy_behind(&mut self.bytes, self.len, self.text.as_bytes());
    }
}

// Copies the line of a record whose key and value are printed as they are behind the first `len` of other bytes, and answers how
// many there are then. Each field is copied once, from where it lies, and as a whole: what it has behind the key or the value is
// written over by what comes behind, or left.
#[inline(always)]
fn copy_record<const KEY: usize, const VALUE: usize>(
    bytes: &mut [u8],
    len: usize,
    fields: Fields<'_>,
) -> usize
    requires room { len + KEY + VALUE + 9 ≤ length bytes.old }
    requires key { IsPadded KEY fields.key_len fields.key.now }
    requires value { IsPadded VALUE fields.value_len fields.value.now }
    requires plain_key { let key = take fields.key_len fields.key.now in printed key ≡ key }
    requires plain_value { let value = take fields.value_len fields.value.now in printed value ≡ value }
    ensures within { result ≤ length bytes.new }
    ensures size { length bytes.new ≡ length bytes.old }
    ensures behind { take result bytes.new ≡ take len bytes.old ++ reply_text (row_line (row_of_fields fields.entry)) }
{
    let begun = copy_whole::<7>(bytes, len, b"record ", 7);
    let with_key = copy_whole::<KEY>(bytes, begun, fields.key, fields.key_len);
    let with_value = copy_value::<VALUE>(bytes, with_key, fields.value, fields.value_len);
    copy_whole::<1>(bytes, with_value, b"\n", 1)
}

// Copies a space and a value that is printed as it is, and nothing for the empty value.
#[inline(always)]
fn copy_value<const VALUE: usize>(bytes: &mut [u8], len: usize, field: &[u8], used: usize) -> usize
    requires room { len + VALUE + 1 ≤ length bytes.old }
    requires field { IsPadded VALUE used field.now }
    requires plain { printed (take used field.now) ≡ take used field.now }
    ensures most { result ≤ len + VALUE + 1 }
    ensures size { length bytes.new ≡ length bytes.old }
    ensures behind { take result bytes.new ≡ take len bytes.old ++ value_word (take used field.now) }
{
    if used == 0 {
        return len;
    }
    let begun = copy_whole::<1>(bytes, len, b" ", 1);
    copy_whole::<VALUE>(bytes, begun, field, used)
}

// Copies a field of that many bytes behind the first `len` of others, and answers how many there are with the first `used` of the
// field. The copy is a few moves, since its length is known where this is inlined; `copy_from_slice` sees first whether both
// overlap.
#[inline(always)]
fn copy_whole<const SIZE: usize>(bytes: &mut [u8], len: usize, field: &[u8], used: usize) -> usize
    requires size { length field.now ≡ SIZE }
    requires used { used ≤ SIZE }
    requires room { len + SIZE ≤ length bytes.old }
    ensures count { result ≡ len + used }
    ensures size { length bytes.new ≡ length bytes.old }
    ensures behind { take result bytes.new ≡ take len bytes.old ++ take used field.now }
{
    write_whole::<SIZE>(&mut bytes[len..len + SIZE], field);
    len + used
}

// Writes bytes over others, that many of both.
#[inline(always)]
fn write_whole<const SIZE: usize>(over: &mut [u8], bytes: &[u8])
    requires over { length over.old ≡ SIZE }
    requires bytes { length bytes.now ≡ SIZE }
    ensures { over.new ≡ bytes.now }
{
    let Some(from) = bytes.as_array::<SIZE>() else {
        unreachable!()
    };
    let Some(to) = over.as_mut_array::<SIZE>() else {
        unreachable!()
    };
    *to = *from;
}

// Copies bytes behind the first `len` of others, and answers how many there are then.
#[inline(always)]
fn copy_behind(bytes: &mut [u8], len: usize, more: &[u8]) -> usize
    requires { len + length more.now ≤ length bytes.old }
    ensures count { result ≡ len + length more.now }
    ensures size { length bytes.new ≡ length bytes.old }
    ensures behind { take result bytes.new ≡ take len bytes.old ++ more.now }
{
    let end = len + more.len();
    bytes[len..end].copy_from_slice(more);
    end
}
