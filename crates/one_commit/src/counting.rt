//! The counts and marks after a batch that was committed.

ghost use Rattle.std.specs.Prelude.{◌≡◌, ◌+◌, ◌*◌, ◌<◌, ◌≤◌, ◌^◌, All, length, true};
ghost use Rattle.density_rule.specs.CountUpdates.{counts_after};
ghost use Rattle.density_rule.specs.Windows.{IsBalanced};
ghost use Rattle.cost_ledger.specs.Potential.{potential_of};
ghost use Rattle.density_rule.specs.Marks.{updated_marks};
ghost use Rattle.window_tally.specs.Choice.{adds};
ghost use Rattle.window_tally.specs.TallyView.{IsTally};
ghost use Rattle.one_commit.specs.Fitting.{follows, stay_within as within_of};
ghost use Rattle.one_commit.specs.Editing.{counts_by, marks_by_changes};

use crate::changes::ItemChange;
use window_tally::{Change, Tally};

/// Counts the changes of items in their order. Each raises the potential by at most 512 images.
pub fn count_changes(tally: &mut Tally, changes: &[ItemChange])
    requires tally { IsTally tally.old }
    requires in_store { All (λ c. c.segment < 2 ^ tally.old.height) changes.now }
    requires balanced { IsBalanced tally.old.height tally.old.counts }
    requires within { within_of tally.old.height tally.old.counts changes.now ≡ true }
    // Counts and marks are the changes' in their order, and all else in the tally stays.
    ensures counted { tally.new ≡ record tally.old {
      counts = counts_by changes.now tally.old.counts;
      marks = marks_by_changes tally.old.height changes.now tally.old.marks;
    } }
    // It is a tally again, and every window is within its bounds.
    ensures tally { IsTally tally.new }
    ensures balanced { IsBalanced tally.new.height tally.new.counts }
    // The potential rises by at most 512 images for each change.
    ensures paid { potential_of tally.new ≤ potential_of tally.old + 512 * length changes.now }
{
    for i in 0..changes.len() {
        count_change(tally, changes[i]);
    }
}

// Counts one change.
fn count_change(tally: &mut Tally, change: ItemChange)
    requires tally { IsTally tally.old }
    requires in_store { change.segment < 2 ^ tally.old.height }
    requires balanced { IsBalanced tally.old.height tally.old.counts }
    requires follows { follows tally.old.height tally.old.counts change ≡ true }
    ensures counted { tally.new ≡ record tally.old {
      counts = counts_after (adds change.change) tally.old.counts change.segment;
      marks = updated_marks tally.old.height change.segment tally.old.marks;
    } }
    ensures tally { IsTally tally.new }
    ensures balanced { IsBalanced tally.new.height tally.new.counts }
    ensures paid { potential_of tally.new ≤ potential_of tally.old + 512 }
{
    match change.change {
        Change::Add => tally.add(change.segment),
        Change::Take => tally.take(change.segment),
    }
}
