//! What commands were answered, counted.

ghost use Rattle.std.specs.Prelude.{◌≡◌, ◌+◌, ◌≤◌, ◌++◌, ◌∷◌, [], length, decimal};
ghost use Rattle.workload.specs.Summaries.{summary_of, counted, Fits, summary_text};

use command_text::{Reply, ReplyText};

/// How often commands were answered in each way, and the size of the store behind them.
#[derive(Clone, Copy)]
pub struct Summary {
    /// All commands.
    pub commands: u32,
    /// Puts of new keys.
    pub stored: u32,
    /// Puts of present keys.
    pub replaced: u32,
    /// Removes of present keys.
    pub removed: u32,
    /// Removes and gets of absent keys.
    pub absent: u32,
    /// Gets of present keys.
    pub found: u32,
    /// The records that ranges gave.
    pub ranged: u32,
    /// How many records the store holds in the end.
    pub records: u32,
    /// The height of the store in the end.
    pub height: u32,
}

impl Summary {
    /// The summary of no commands, with no size.
    pub fn new() -> Summary
        ensures { result ≡ summary_of 0 [] }
    {
        Summary {
            commands: 0,
            stored: 0,
            replaced: 0,
            removed: 0,
            absent: 0,
            found: 0,
            ranged: 0,
            records: 0,
            height: 0,
        }
    }

    /// Counts a command by the last line of its reply: a range's records are counted by its end.
    pub fn count(&mut self, last: &Reply)
        requires { Fits (counted self.old (last.now ∷ [])) }
        ensures { self.new ≡ counted self.old (last.now ∷ []) }
    {
        self.commands += 1;
        match *last {
            Reply::Stored => self.stored += 1,
            Reply::Replaced => self.replaced += 1,
            Reply::Removed => self.removed += 1,
            Reply::Absent => self.absent += 1,
            Reply::Found(_) => self.found += 1,
            Reply::End(rows) => self.ranged += rows,
            _ => {}
        }
    }
}

/// Writes the defined line of a summary in place of what `out` held.
pub fn write_summary(summary: &Summary, out: &mut ReplyText)
    ensures { out.new ≡ summary_text summary.now }
{
    out.clear();
    push_count(out, b"gen commands=", summary.commands);
    push_count(out, b" stored=", summary.stored);
    push_count(out, b" replaced=", summary.replaced);
    push_count(out, b" removed=", summary.removed);
    push_count(out, b" absent=", summary.absent);
    push_count(out, b" found=", summary.found);
    push_count(out, b" ranged=", summary.ranged);
    push_count(out, b" records=", summary.records);
    push_count(out, b" height=", summary.height);
    out.push(b"\n");
}

// Puts a name and a number behind the text.
fn push_count(out: &mut ReplyText, name: &[u8], count: u32)
    requires { length out.old + length name.now + 20 ≤ 512 }
    ensures text { out.new ≡ out.old ++ name.now ++ decimal count }
    ensures size { length out.new ≤ length out.old + length name.now + 20 }
{
    out.push(name);
    out.push_number(u64::from(count));
}
