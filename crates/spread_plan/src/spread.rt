//! The moves of a spread.

ghost use Rattle.std.specs.Prelude.{◌≡◌, ◌*◌, ◌^◌, ◌<◌, ◌≤◌, [], length, slice_index};
ghost use Rattle.std.specs.Iterator.{item_count};
ghost use Rattle.density_rule.specs.Spread.{shares};
ghost use Rattle.density_rule.specs.declared.TheConstants.{SEGMENT_RECORDS};
ghost use Rattle.spread_plan.specs.Plans.{full_counts, spread_moves};
ghost use Rattle.spread_plan.specs.States.{GivesMove, coming};

use super::{Move, SEGMENT_RECORDS, packed_in, share, shared_before};
use std::iter::FusedIterator;
use std::marker::Model;

/// The moves that spread packed records, in the order in which they are made. Contracts see the list of those that are
/// still to come, and the counts before them.
#[derive(Drop)]
pub struct SpreadMoves {
    records: u32,
    segments: u32,
    // The segments from `to` on have their shares, but for the records of segment `to` numbered from `start` to
    // below `end`. Its share begins with record `start`.
    to: u32,
    start: u32,
    end: u32,
}

impl Model for SpreadMoves {
    ghost use Rattle.spread_plan.specs.States.{PlanView, spreading_view, IsSpreading};

    ghost Value = { PlanView };

    ghost view = { λ s. spreading_view s.records s.segments s.to s.start s.end };

    ghost invariant = { λ s. IsSpreading s.records s.segments s.to s.start s.end };
}

impl SpreadMoves {
    /// The moves that spread `n` records over `m` segments, if they were packed before.
    pub fn new(n: u32, m: u32) -> SpreadMoves
        requires some { 1 ≤ m }
        requires segments { m ≤ 2 ^ 16 }
        requires room { n ≤ SEGMENT_RECORDS * m }
        // All moves of the defined spread are still to come.
        ensures moves { result.moves ≡ spread_moves n m }
        // The counts before them are those of packed records: all segments are full but the last used one.
        ensures counts { result.counts ≡ full_counts n m }
    {
        SpreadMoves {
            records: n,
            segments: m,
            to: m,
            start: n,
            end: n,
        }
    }

    /// No moves are to come, for the `n` records are spread over `m` segments, each of which has its share.
    pub fn done(n: u32, m: u32) -> SpreadMoves
        requires some { 1 ≤ m }
        requires segments { m ≤ 2 ^ 16 }
        requires room { n ≤ SEGMENT_RECORDS * m }
        ensures moves { result.moves ≡ [] }
        ensures counts { result.counts ≡ shares n m }
    {
        SpreadMoves {
            records: n,
            segments: m,
            to: 0,
            start: 0,
            end: 0,
        }
    }

    /// The moves that are still to come, to be walked apart from these.
    pub fn again(&self) -> SpreadMoves
        ensures { result ≡ self.now }
    {
        SpreadMoves {
            records: self.records,
            segments: self.segments,
            to: self.to,
            start: self.start,
            end: self.end,
        }
    }

    /// How many records a segment has before the moves that are still to come.
    pub fn records_in(&self, segment: u32) -> u32
        requires { segment < length self.now.counts }
        ensures { result ≡ slice_index self.now.counts segment }
    {
        if segment < self.to {
            return packed_in(self.end, segment);
        }
        let share = share(self.records, self.segments, segment);
        if segment == self.to {
            share - (self.end - self.start)
        } else {
            share
        }
    }
}

impl Iterator for SpreadMoves {
    type Item = Move;

    ghost next_gives = { GivesMove };

    ghost remaining = { item_count coming };

    fn next(&mut self) -> Option<Move> {
        while self.start == self.end {
            if self.to == 0 {
                return None;
            }
            self.to -= 1;
            self.end = self.start.min(self.to * SEGMENT_RECORDS);
            self.start = shared_before(self.records, self.segments, self.to);
        }
        let from = (self.end - 1) / SEGMENT_RECORDS;
        let first = self.start.max(from * SEGMENT_RECORDS);
        let count = self.end - first;
        self.end = first;
        Some(Move {
            from,
            to: self.to,
            count,
        })
    }
}

impl FusedIterator for SpreadMoves {}
