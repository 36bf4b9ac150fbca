//! The reader of lines.

ghost use Rattle.std.specs.Prelude.{◌≡◌, ℕ, ◌<◌, ◌≤◌, ◌+◌, [], length, take, drop, OnOk, OnErr, false, true};
ghost use Rattle.line_source.specs.SourceView.{SourceTold, Went};
ghost use Rattle.line_source.specs.Lines.{line_limit, most_held};
ghost use Rattle.line_source.specs.LineReaderView.{ReaderView, rest, IsFirstFeed};
ghost use Rattle.line_source.specs.LineStep.{Gives, Tells, is_last, IsExact, Takes};
ghost use Rattle.line_source.specs.Filling.{HasTaken, HasFailed, IsKept, IsGiven, GivesLast, LetsGo};

use super::buffer::{BUFFER_LEN, find_feed, make_space, take_behind};
use super::source::{ReadFailed, Source};
use std::marker::Model;

/// What a call of `next_line` came to.
#[derive(Clone, Copy)]
pub enum LineStep {
    /// A line, which `line` shows.
    Line,
    /// A line of more than 512 bytes, its line feed not counted, which was skipped.
    LongLine,
    /// The source answered that its script is at its end, and every line was given.
    End,
    /// A read failed. A part of a line may have been taken.
    ReadFailed,
    /// All the bytes that may be taken were taken, no complete line is left of them, and the end wasn't seen.
    Spent,
}

// The most bytes of a line that is given. Its line feed doesn't count, a carriage return before it does. So the items of a batch
// have room in the 512 bytes of an intent.
const LINE_LIMIT: usize = 512;

/// Reads the lines of a source.
///
/// It takes bytes only while it holds no complete line, at most as many in all as `new` was given, and none once the
/// source answered that its script is at its end. It holds 4096 bytes, and takes no memory.
#[derive(Drop)]
pub struct LineReader {
    buffer: [u8; BUFFER_LEN],
    start: usize,
    end: usize,
    line_start: usize,
    line_end: usize,
    room: u64,
    ended: bool,
    done: bool,
}

impl Model for LineReader {
    ghost use Rattle.std.specs.Prelude.{◌≡◌, ◌≤◌, length, slice_range};
    ghost use Rattle.line_source.specs.LineReaderView.{ReaderView};
    ghost use Rattle.line_source.specs.declared.buffer.TheConstants.{BUFFER_LEN};

    ghost Value = { ReaderView };

    ghost view = { λ r. record {
      held = slice_range r.buffer r.start r.end;
      line = slice_range r.buffer r.line_start r.line_end;
      room = r.room;
      ended = r.ended;
      done = r.done;
    } };

    ghost invariant = { λ r. (r.start ≤ r.end) × (r.end ≤ BUFFER_LEN) × (r.line_start ≤ r.line_end)
        × (r.line_end ≤ BUFFER_LEN) × (length r.buffer ≡ BUFFER_LEN) };
}

impl LineReader {
    /// A reader that takes at most `most` bytes, and has taken none.
    pub fn new(most: u64) -> LineReader
        ensures { result ≡ record { held = []; line = []; room = most; ended = false; done = false } }
    {
        LineReader {
            buffer: [0; BUFFER_LEN],
            start: 0,
            end: 0,
            line_start: 0,
            line_end: 0,
            room: most,
            ended: false,
            done: false,
        }
    }

    /// The line that the last call of `next_line` gave, without its line feed and without one carriage return before it.
    ///
    /// It is empty after every answer but `Line`, and before the first.
    pub fn line(&self) -> &[u8]
        ensures { result.now ≡ self.now.line }
    {
        &self.buffer[self.line_start..self.line_end]
    }

    /// How many bytes it may still take.
    pub fn room(&self) -> u64
        ensures { result ≡ self.now.room }
    {
        self.room
    }

    /// The next line, or why there is none.
    ///
    /// After `End`, `ReadFailed` or `Spent` it isn't called again.
    pub fn next_line<I: Source>(&mut self, source: &mut I) -> LineStep
        requires { self.old.done ≡ false }

        // If the source tells what it has left, the lines are those of its script, whatever the pieces: `Line` gives the next
        // one, without one carriage return at its end, `LongLine` skips it, since it has more than 512 bytes, and at `End` there
        // is none. At `ReadFailed` and `Spent` a part of a line was taken at most, and all behind it is left.
        ensures gives { SourceTold (I.view source.old)
            → Gives result (rest self.old (I.view source.old)) self.new (I.view source.new) }
        // If the source tells what it has left, `Spent` comes exactly if all bytes that may still be taken neither complete a
        // line nor meet the end, unless a read fails.
        ensures exact { SourceTold (I.view source.old) → IsExact result self.old (I.view source.old) }
        // If the source tells what it has left, what is taken is a front of it, and each byte lowers the room by one; the end is
        // seen only if nothing is left and the room isn't used up.
        ensures takes { SourceTold (I.view source.old)
            → Takes self.old (I.view source.old) self.new (I.view source.new) }

        // On every source: a given line has at most 512 bytes, and at every other answer it is empty. `End` comes only if the end
        // was seen; `ReadFailed` only if it was not and the count of failed reads rose; `Spent` only if it was not and no byte
        // may be taken any more.
        ensures means { Tells result self.new (I.view source.old) (I.view source.new) }
        // `End`, `ReadFailed` and `Spent` are last answers.
        ensures done { self.new.done ≡ is_last result }
        // At most 4096 bytes are held, that is, taken and not given yet.
        ensures ahead { length self.new.held ≤ most_held }
        // After each answer but a last one the bytes held and those that may still be taken are fewer in sum, so that reading
        // ends; with a given line fewer by its bytes at least.
        ensures falls { is_last result ≡ false
            → self.new.room + length self.new.held < self.old.room + length self.old.held }
        ensures given { self.new.room + length self.new.held + length self.new.line ≤ self.old.room + length self.old.held }
        // The number of bytes that may still be taken never rises.
        ensures room { self.new.room ≤ self.old.room }
        // The source goes on telling what it has left, or not telling it; its count of failed reads never falls.
        ensures went { Went (I.view source.old) (I.view source.new) }

        // While a complete line is held, and once the end was seen, the source stays as it was; an end that was seen stays seen.
        ensures idle { (at : ℕ) → IsFirstFeed self.old.held at → I.view source.new ≡ I.view source.old }
        ensures ended { self.old.ended ≡ true
            → (self.new.ended ≡ true) × (I.view source.new ≡ I.view source.old) }
    {
        let mut long = false;
        let mut seen = 0;
        'pieces: loop {
            if let Some(at) = find_feed(self.held(), seen) {
                return self.give(at, at + 1, long);
            }
            if self.ended {
                return self.give_last(long);
            }
            if self.room == 0 {
                return self.stop(LineStep::Spent);
            }
            long = self.let_go(long);
            seen = self.held().len();
            let Ok(()) = self.fill(source) else {
                return self.stop(LineStep::ReadFailed);
            };
        }
    }

    // What is held.
    fn held(&self) -> &[u8]
        ensures { result.now ≡ self.now.held }
    {
        &self.buffer[self.start..self.end]
    }

    // Gives the first `at` bytes as a line, unless it is a long one, and lets go of the first `behind`.
    fn give(&mut self, at: usize, behind: usize, long: bool) -> LineStep
        requires line { at ≤ behind }
        requires within { behind ≤ length self.old.held }
        ensures held { self.new.held ≡ drop behind self.old.held }
        ensures ahead { length self.new.held ≤ most_held }
        ensures kept { IsKept self.old self.new }
        ensures line { IsGiven result long (take at self.old.held) self.new.line }
    {
        let from = self.start;
        let mut to = from + at;
        self.start = from + behind;
        if long || at > LINE_LIMIT {
            self.line_start = 0;
            self.line_end = 0;
            return LineStep::LongLine;
        }
        if at > 0 && self.buffer[to - 1] == b'\r' {
            to -= 1;
        }
        self.line_start = from;
        self.line_end = to;
        LineStep::Line
    }

    // Gives all that is held as the last line, or the end if there is none.
    fn give_last(&mut self, long: bool) -> LineStep
        ensures last { GivesLast result long self.old self.new }
        ensures ahead { length self.new.held ≤ most_held }
    {
        let at = self.held().len();
        if at == 0 && !long {
            return self.stop(LineStep::End);
        }
        self.give(at, at, long)
    }

    // Gives the last answer.
    fn stop(&mut self, step: LineStep) -> LineStep
        ensures step { result ≡ step }
        ensures ahead { length self.new.held ≤ most_held }
        ensures stopped { self.new ≡ record self.old { line = []; done = true } }
    {
        self.line_start = 0;
        self.line_end = 0;
        self.done = true;
        step
    }

    // Lets go of the front of a line that is too long, and answers whether the line is known to be.
    fn let_go(&mut self, long: bool) -> bool
        ensures lets_go { LetsGo long result self.old self.new }
        ensures short { length self.new.held ≤ line_limit }
        ensures kept { IsKept self.old self.new }
    {
        if self.end - self.start > LINE_LIMIT {
            self.start = self.end;
            return true;
        }
        long
    }

    // Takes a piece behind what is held, or meets the end.
    fn fill<I: Source>(&mut self, source: &mut I) -> Result<(), ReadFailed>
        requires room { 0 < self.old.room }
        requires short { length self.old.held ≤ line_limit }
        requires open { self.old.ended ≡ false }
        ensures took { OnOk result
            (HasTaken self.old (I.view source.old) self.new (I.view source.new)) }
        ensures failed { OnErr result
            (HasFailed self.old (I.view source.old) self.new (I.view source.new)) }
        ensures went { Went (I.view source.old) (I.view source.new) }
        ensures done { self.new.done ≡ self.old.done }
    {
        let len = self.end - self.start;
        self.start = make_space(&mut self.buffer, self.start, self.end);
        self.end = self.start + len;
        let Ok(n) = take_behind(&mut self.buffer, self.end, self.room, source) else {
            return Err(ReadFailed);
        };
        self.end += n;
        self.room -= n as u64;
        self.ended = n == 0;
        Ok(())
    }
}
