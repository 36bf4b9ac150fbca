//! Scripts of generated keys, and their replies.

use std::alloc::{AllocError, Global};

/// A part of a script, and how it is answered.
#[derive(Clone, Copy)]
pub enum Part {
    /// The keys with these numbers, the second one too, are put with the empty value, and each is `stored`.
    Put(u32, u32),
    /// They are removed, and each is `removed`.
    Remove(u32, u32),
    /// The cursor x steps back over them, from the first number down to the second, and gives each with the empty value.
    Back(u32, u32),
    /// Lines, and their replies.
    Lines(&'static [u8], &'static [u8]),
}

/// The keys from one number to another.
pub type Keys = (u32, u32);

// The last digit of a number.
fn digit(number: u32) -> u8 {
    b'0' + (number % 10) as u8
}

/// Adds the key of this number: `k` and three digits.
pub fn push_key(text: &mut Vec<u8>, number: u32) -> Result<(), AllocError> {
    let key = [b'k', digit(number / 100), digit(number / 10), digit(number)];
    text.extend_from_slice(&key)
}

// Adds a line: some text and the key of a number.
fn push_line(text: &mut Vec<u8>, word: &[u8], number: u32) -> Result<(), AllocError> {
    text.extend_from_slice(word)?;
    push_key(text, number)?;
    text.extend_from_slice(b"\n")
}

/// Adds a line for each key from the first number to the last: a word, a space if there is one, and the key.
pub fn push_lines(
    script: &mut Vec<u8>,
    word: &[u8],
    first: u32,
    last: u32,
) -> Result<(), AllocError> {
    for number in first..=last {
        push_line(script, word, number)?;
    }
    Ok(())
}

// Adds the same reply for each number from the first to the last.
fn push_replies(want: &mut Vec<u8>, reply: &[u8], first: u32, last: u32) -> Result<(), AllocError> {
    for _ in first..=last {
        want.extend_from_slice(reply)?;
    }
    Ok(())
}

// Adds steps back of a cursor to a script, and to its replies the records that they give.
fn push_steps_back(
    script: &mut Vec<u8>,
    want: &mut Vec<u8>,
    first: u32,
    last: u32,
) -> Result<(), AllocError> {
    for step in 0..=first.saturating_sub(last) {
        script.extend_from_slice(b"prev x\n")?;
        push_line(want, b"record ", first.saturating_sub(step))?;
    }
    Ok(())
}

// Adds a part to a script and to its replies.
fn push_part(script: &mut Vec<u8>, want: &mut Vec<u8>, part: Part) -> Result<(), AllocError> {
    match part {
        Part::Put(first, last) => {
            push_lines(script, b"put ", first, last)?;
            push_replies(want, b"stored\n", first, last)
        }
        Part::Remove(first, last) => {
            push_lines(script, b"remove ", first, last)?;
            push_replies(want, b"removed\n", first, last)
        }
        Part::Back(first, last) => push_steps_back(script, want, first, last),
        Part::Lines(lines, replies) => {
            script.extend_from_slice(lines)?;
            want.extend_from_slice(replies)
        }
    }
}

/// The script of some parts, and its replies.
pub fn script_of(alloc: Global, parts: &[Part]) -> Result<(Vec<u8>, Vec<u8>), AllocError> {
    let mut script = Vec::new(alloc);
    let mut want = Vec::new(alloc);
    for part in parts {
        push_part(&mut script, &mut want, *part)?;
    }
    Ok((script, want))
}

/// The reply to a range over all the keys.
pub fn range_reply(alloc: Global, keys: Keys) -> Result<Vec<u8>, AllocError> {
    range_reply_behind(alloc, (b"", 0), keys)
}

/// The reply to a range over that many records and all the keys behind them.
pub fn range_reply_behind(
    alloc: Global,
    before: (&[u8], u32),
    keys: Keys,
) -> Result<Vec<u8>, AllocError> {
    let (records, count) = before;
    let (first, last) = keys;
    let mut reply = Vec::from_slice(alloc, records)?;
    push_lines(&mut reply, b"record ", first, last)?;
    let behind = last.saturating_add(1).saturating_sub(first);
    let count = count.saturating_add(behind);
    let end = format!(in alloc; "end {count}\n")?;
    reply.extend_from_slice(end.as_bytes())?;
    Ok(reply)
}
