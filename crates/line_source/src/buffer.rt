//! The bytes that a reader holds, as a part of its buffer.

ghost use Rattle.std.specs.Prelude.{◌≡◌, ◌+◌, ◌-◌, ◌/◌, ◌<◌, ◌≤◌, ◌++◌, [], length, take, drop, slice_range, MatchOption, IfOk, OnErr};
ghost use Rattle.line_source.specs.SourceView.{SourceTold, Went, SourceRose};
ghost use Rattle.line_source.specs.Lines.{NoFeed};
ghost use Rattle.line_source.specs.LineReaderView.{IsFirstFeed};

use super::source::{ReadFailed, Source};

// The start of a line, and what is taken ahead: a page, which holds several of the longest lines.
pub(crate) const BUFFER_LEN: usize = 4096;

// Where the first line feed stands. None stands among the first `seen` bytes.
pub(crate) fn find_feed(bytes: &[u8], seen: usize) -> Option<usize>
    requires within { seen ≤ length bytes.now }
    requires none { NoFeed (take seen bytes.now) }
    ensures { MatchOption result (NoFeed bytes.now) (IsFirstFeed bytes.now) }
{
    for i in seen..bytes.len() {
        if bytes[i] == b'\n' {
            return Some(i);
        }
    }
    None
}

// Sees to it that half of the buffer is free behind the bytes `start..end`, and answers where these begin then.
//
// They move only from the back half to the front, and a line that is still looked for fits there: it moves once at most.
pub(crate) fn make_space(buffer: &mut [u8], start: usize, end: usize) -> usize
    requires range { start ≤ end }
    requires within { end ≤ length buffer.old }
    requires size { length buffer.old ≡ BUFFER_LEN }
    requires short { end - start ≤ BUFFER_LEN / 2 }
    ensures bytes { slice_range buffer.new result (result + (end - start)) ≡ slice_range buffer.old start end }
    ensures space { result + (end - start) ≤ BUFFER_LEN / 2 }
{
    if end <= BUFFER_LEN / 2 {
        return start;
    }
    buffer.copy_within(start..end, 0);
    0
}

// Takes at most `room` bytes into the buffer, behind the first `held`.
pub(crate) fn take_behind<I: Source>(
    buffer: &mut [u8],
    held: usize,
    room: u64,
    source: &mut I,
) -> Result<usize, ReadFailed>
    requires within { held < length buffer.old }
    requires some { 0 < room }
    ensures kept { take held buffer.new ≡ take held buffer.old }
    ensures most { IfOk result (λ n. n ≤ room) }
    ensures fits { IfOk result (λ n. held + n ≤ length buffer.old) }
    ensures taken { IfOk result (λ n. SourceTold (I.view source.old)
        → (I.view source.old).left ≡ take n (drop held buffer.new) ++ (I.view source.new).left) }
    ensures end { IfOk result (λ n. n ≡ 0 → SourceTold (I.view source.old) → (I.view source.new).left ≡ []) }
    ensures none { OnErr result (SourceTold (I.view source.old) → (I.view source.new).left ≡ (I.view source.old).left) }
    ensures cause { OnErr result (SourceRose (I.view source.old) (I.view source.new)) }
    ensures went { Went (I.view source.old) (I.view source.new) }
{
    let mut len = buffer.len() - held;
    if room < len as u64 {
        len = room as usize;
    }
    source.take(&mut buffer[held..held + len])
}
