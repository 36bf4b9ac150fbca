//! The counts and marks of all windows of a store, and which window an update asks to be spread.
//!
//! A tally has one number for each window of the store, kept as an implicit binary tree: the count of a window is the
//! sum of the counts of its segments. A window is rested once a larger window around it was spread, or the whole store
//! resized. It then has a mark, the number of updates in it since, and it cannot leave its bounds before it has had
//! `2^h` of them, where `h` is its height. After Bender, Demaine and Farach-Colton (SIAM J. Comput. 35, 2005), with the
//! rule that every window over the segment is looked at.
//!
//! An update changes one window of each height, a spread only what lies inside its window, and a look one place.
#![tactic(auto)]

ghost use Rattle.std.specs.Prelude.{◌≡◌, ℕ, ◌+◌, ◌-◌, ◌*◌, ◌/◌, ◌^◌, ◌<◌, ◌≤◌, IfOk, IsTrue, Some, Option, slice_index, slice_range, slice_set, sum, true, false};
ghost use Rattle.density_rule.specs.declared.Window.{Window};
ghost use Rattle.density_rule.specs.Bounds.{upper_of, IsInBounds};
ghost use Rattle.density_rule.specs.Windows.{IsWindow, count_in, IsBalanced};
ghost use Rattle.density_rule.specs.CountUpdates.{counts_after, highest_broken as highest_broken_of};
ghost use Rattle.density_rule.specs.Spread.{spread_counts, resized_counts};
ghost use Rattle.density_rule.specs.Marks.{mark_of, no_marks, updated_marks, spread_marks, resized_marks, WithinDrift};
ghost use Rattle.density_rule.specs.declared.TheConstants.{SEGMENT_RECORDS};

use density_rule::{Window, window_of};
use room::{clear_counts, clear_marks, fit_counts, fit_marks, no_counts, no_marks_yet};
use std::alloc::{AllocError, Global};
use std::marker::Model;
use tree::{
    changed, count_update, forget_all, highest_broken, leaves_in, place_of, rest_inside, set_count,
    share_out,
};

mod room;
mod tree;

/// How many updates a window has had since a larger window around it was spread.
#[derive(Clone, Copy, Debug, PartialEq, Eq)]
pub struct Since {
    /// 0 if the window is not rested.
    pub updates: u64,
    /// Whether a larger window around it was spread, and no rest was forgotten since.
    pub rested: bool,
}

/// An update of one segment.
#[derive(Clone, Copy, PartialEq, Eq)]
pub enum Change {
    /// One record more.
    Add,
    /// One record less.
    Take,
}

/// What an update needs, before it is made.
#[derive(Clone, Copy, Debug, PartialEq, Eq)]
pub enum Pick {
    /// Nothing: all windows over the segment stay within their bounds.
    Fits,
    /// A spread of this window.
    Spread(Window),
    /// A store one higher.
    Grow,
    /// A store one lower.
    Shrink,
    /// A store one higher, if there is none.
    AtLimit,
}

/// The counts and marks of all windows of a store, of any height up to a limit.
#[derive(Drop)]
pub struct Tally {
    hmax: u32,
    height: u32,
    counts: Vec<u32>,
    marks: Vec<Option<u64>>,
}

impl Model for Tally {
    ghost use Rattle.window_tally.specs.TallyView.{TallyView};

    ghost Value = { TallyView };

    ghost use Rattle.window_tally.specs.TallyFields.{view_of, IsKept};

    ghost view = { view_of };

    ghost invariant = { IsKept };
}

impl Tally {
    ghost use Rattle.window_tally.specs.TallyView.{empty_tally, since_of, IsTally};
    ghost use Rattle.window_tally.specs.Choice.{adds, pick_of, resize_of, IsPossible};

    /// An empty tally of height 0, with room for the windows of a store of height `hmax`, which is at most 16.
    ///
    /// `AllocError` is want of memory, for `2^(hmax + 1)` counts and as many marks; no other call takes any.
    pub fn new(alloc: Global, hmax: u32) -> Result<Tally, AllocError>
        requires { hmax ≤ 16 }
        // It has height 0 and one segment, with no record.
        ensures ok { IfOk result (λ t. t ≡ empty_tally hmax 0) }
        // It is a tally: no segment has more than 64 records, and every rested window keeps the drift bound.
        ensures tally { IfOk result IsTally }
    {
        let most = 2usize << hmax;
        Ok(Tally {
            hmax,
            height: 0,
            counts: no_counts(alloc, most, 2)?,
            marks: no_marks_yet(alloc, most, 2)?,
        })
    }

    /// Makes this the tally of an empty store of this height, with no window rested.
    pub fn clear(&mut self, height: u32)
        requires { height ≤ self.old.hmax }
        // Height, counts and marks are those of the empty store.
        ensures after { self.new ≡ empty_tally self.old.hmax height }
        // It is a tally again: no segment has more than 64 records, and every rested window keeps the drift bound.
        ensures tally { IsTally self.new }
    {
        self.height = height;
        let places = 2usize << height;
        clear_counts(&mut self.counts, places);
        clear_marks(&mut self.marks, places);
    }

    /// Forgets which windows are rested. The height and the counts stay.
    pub fn forget_rests(&mut self)
        // No window is rested; the height and the counts stay.
        ensures after { self.new ≡ record self.old { marks = no_marks self.old.height } }
        // It is a tally again: no segment has more than 64 records, and every rested window keeps the drift bound.
        ensures tally { IsTally self.new }
    {
        forget_all(&mut self.marks);
    }

    /// Sets the number of records of a segment, at most 64, while no window is rested.
    pub fn load(&mut self, segment: u32, count: u32)
        requires in_store { segment < 2 ^ self.old.height }
        requires small { count ≤ SEGMENT_RECORDS }
        requires unrested { self.old.marks ≡ no_marks self.old.height }
        // The segment has this count; the others, the height and the marks stay.
        ensures after { self.new ≡ record self.old { counts = slice_set self.old.counts segment count } }
        // It is a tally again: no segment has more than 64 records, and every rested window keeps the drift bound.
        ensures tally { IsTally self.new }
    {
        set_count(&mut self.counts, self.height, segment, count);
    }

    /// The height of the store.
    pub fn height(&self) -> u32
        ensures height { result ≡ self.now.height }
        // It is a tally: no segment has more than 64 records, and every rested window keeps the drift bound.
        ensures tally { IsTally self.now }
    {
        self.height
    }

    /// The number of records in the window.
    pub fn count(&self, window: Window) -> u32
        requires { IsWindow self.now.height window.height window.number }
        ensures { result ≡ count_in self.now.counts window.height window.number }
    {
        self.counts[place_of(self.height, window.height, window.number)]
    }

    /// Whether the window is rested, and how many updates it has had since. The root never is.
    pub fn since(&self, window: Window) -> Since
        requires { IsWindow self.now.height window.height window.number }
        // It answers the mark of the window: rested exactly if it has one, with the updates since.
        ensures mark { result ≡ since_of (mark_of self.now.marks window.height window.number) }
        // A rested window of height h with n updates since holds at least `2^h * (5 + h) - n` records, and at most
        // `2^h * (63 - h) + n`.
        ensures drift { let count = count_in self.now.counts window.height window.number in
            IsTrue result.rested → WithinDrift window.height result.updates count }
    {
        match self.mark(window) {
            Some(updates) => Since {
                updates,
                rested: true,
            },
            None => Since {
                updates: 0,
                rested: false,
            },
        }
    }

    /// The number of records of each segment of the window, in order.
    pub fn leaves(&self, window: Window) -> &[u32]
        requires { IsWindow self.now.height window.height window.number }
        ensures { let first = window.number * 2 ^ window.height in
            let last = (window.number + 1) * 2 ^ window.height in
            result.now ≡ slice_range self.now.counts first last }
    {
        leaves_in(&self.counts, self.height, window)
    }

    /// One record more in a segment that isn't full: an update of each window over it.
    pub fn add(&mut self, segment: u32)
        requires in_store { segment < 2 ^ self.old.height }
        requires room { slice_index self.old.counts segment < SEGMENT_RECORDS }
        // The segment has one record more, and the mark of each rested window over it rises by one, up to `2^64 - 1`.
        ensures after { self.new ≡ record self.old {
          counts = counts_after true self.old.counts segment;
          marks = updated_marks self.old.height segment self.old.marks;
        } }
        // It is a tally again: no segment has more than 64 records, and every rested window keeps the drift bound.
        ensures tally { IsTally self.new }
    {
        self.update(segment, Change::Add);
    }

    /// One record less in a segment that isn't empty: an update of each window over it.
    pub fn take(&mut self, segment: u32)
        requires in_store { segment < 2 ^ self.old.height }
        requires some { 1 ≤ slice_index self.old.counts segment }
        // The segment has one record less, and the mark of each rested window over it rises by one, up to `2^64 - 1`.
        ensures after { self.new ≡ record self.old {
          counts = counts_after false self.old.counts segment;
          marks = updated_marks self.old.height segment self.old.marks;
        } }
        // It is a tally again: no segment has more than 64 records, and every rested window keeps the drift bound.
        ensures tally { IsTally self.new }
    {
        self.update(segment, Change::Take);
    }

    /// The records of the window are spread over its segments, and each smaller window inside it is rested.
    ///
    /// The window has a height of at least 1 and is within its bounds. Only what lies inside it is looked at.
    pub fn set_spread(&mut self, window: Window)
        requires window { IsWindow self.old.height window.height window.number }
        requires larger { 1 ≤ window.height }
        requires bounds { let count = count_in self.old.counts window.height window.number in
            IsInBounds self.old.height window.height count }
        // The window's records are spread over its segments, and each smaller window inside it is rested, with no update since.
        ensures after { self.new ≡ record self.old {
          counts = spread_counts self.old.counts window.height window.number;
          marks = spread_marks self.old.height window.height window.number self.old.marks;
        } }
        // It is a tally again: no segment has more than 64 records, and every rested window keeps the drift bound.
        ensures tally { IsTally self.new }
    {
        let records = self.count(window);
        share_out(&mut self.counts, self.height, window, records);
        rest_inside(&mut self.marks, self.height, window);
    }

    /// All records are spread over the segments of a store of this height, and each window below the root is rested.
    ///
    /// The records are within the bounds of the new height.
    pub fn resize(&mut self, height: u32)
        requires limit { height ≤ self.old.hmax }
        requires bounds { IsInBounds height height (sum self.old.counts) }
        // The records are spread over the segments of the new height, and each window below the root is rested, with no update
        // since.
        ensures after { self.new ≡ record self.old {
          height = height;
          counts = resized_counts self.old.counts height;
          marks = resized_marks height;
        } }
        // It is a tally again: no segment has more than 64 records, and every rested window keeps the drift bound.
        ensures tally { IsTally self.new }
    {
        let records = self.counts[1];
        let root = Window { height, number: 0 };
        let places = 2usize << height;
        self.height = height;
        fit_counts(&mut self.counts, places);
        fit_marks(&mut self.marks, places);
        share_out(&mut self.counts, height, root, records);
        rest_inside(&mut self.marks, height, root);
    }

    /// What a change in the segment needs, by the counts that the windows of all heights over it would have.
    ///
    /// The greatest height at which one would be outside its bounds decides: none fits, the store's own resizes it, any
    /// other spreads the window one above.
    pub fn pick(&self, segment: u32, change: Change) -> Pick
        requires in_store { segment < 2 ^ self.now.height }
        requires some { change ≡ Change.Take → 1 ≤ slice_index self.now.counts segment }
        // The greatest height at which a window over the segment would be outside its bounds decides: none fits, the store's own
        // resizes it or is its limit, and any other spreads the window one above.
        ensures answer { let after = counts_after (adds change) self.now.counts segment in
            let broken = highest_broken_of self.now.height after segment in
            result ≡ pick_of self.now.hmax self.now.height segment change broken }

        // If all windows are within their bounds, what is needed can be done. If a record is to be added, the store is at its
        // limit exactly if it is full.
        ensures possible { IsBalanced self.now.height self.now.counts → IsPossible self.now result }
        ensures limit { IsBalanced self.now.height self.now.counts → change ≡ Change.Add →
            sum self.now.counts ≡ upper_of self.now.hmax → result ≡ Pick.AtLimit }

        // If a window is to be spread, the window one below it over the segment, of height h, has had at least `2^h` updates
        // since it was rested, if it was.
        ensures cause { (window : Window) (n : ℕ) → result ≡ Pick.Spread window →
            let h = window.height - 1 in
            mark_of self.now.marks h (segment / 2 ^ h) ≡ Some n → 2 ^ h ≤ n }
    {
        self.choice(segment, change)
    }

    /// What a change needs, by the greatest height that it would break.
    fn choice(&self, segment: u32, change: Change) -> Pick
        requires in_store { segment < 2 ^ self.now.height }
        requires some { change ≡ Change.Take → 1 ≤ slice_index self.now.counts segment }
        ensures answer { let after = counts_after (adds change) self.now.counts segment in
            let broken = highest_broken_of self.now.height after segment in
            result ≡ pick_of self.now.hmax self.now.height segment change broken }
        ensures tally { IsTally self.now }
    {
        match highest_broken(&self.counts, self.height, segment, change) {
            None => Pick::Fits,
            Some(h) if h == self.height => self.resize_for(change),
            Some(h) => Pick::Spread(window_of(segment, h + 1)),
        }
    }

    /// What a change needs that takes the whole store out of its bounds.
    fn resize_for(&self, change: Change) -> Pick
        ensures { result ≡ resize_of self.now.hmax self.now.height change }
    {
        match change {
            Change::Add if self.height < self.hmax => Pick::Grow,
            Change::Add => Pick::AtLimit,
            Change::Take => Pick::Shrink,
        }
    }

    /// The mark of the window, which the root never has.
    fn mark(&self, window: Window) -> Option<u64>
        requires { IsWindow self.now.height window.height window.number }
        ensures mark { result ≡ mark_of self.now.marks window.height window.number }
        ensures tally { IsTally self.now }
    {
        if window.height < self.height {
            self.marks[place_of(self.height, window.height, window.number)]
        } else {
            None
        }
    }

    /// An update of the segment.
    fn update(&mut self, segment: u32, change: Change)
        requires in_store { segment < 2 ^ self.old.height }
        requires room { change ≡ Change.Add → slice_index self.old.counts segment < SEGMENT_RECORDS }
        requires some { change ≡ Change.Take → 1 ≤ slice_index self.old.counts segment }
        ensures after { self.new ≡ record self.old {
          counts = counts_after (adds change) self.old.counts segment;
          marks = updated_marks self.old.height segment self.old.marks;
        } }
        ensures tally { IsTally self.new }
    {
        let count = self.counts[place_of(self.height, 0, segment)];
        set_count(
            &mut self.counts,
            self.height,
            segment,
            changed(count, change),
        );
        count_update(&mut self.marks, self.height, segment);
    }
}
