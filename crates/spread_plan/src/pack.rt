//! The moves of a pack.

ghost use Rattle.std.specs.Prelude.{◌≡◌, ℕ, ◌^◌, ◌<◌, ◌≤◌, All, length, slice_index};
ghost use Rattle.std.specs.Iterator.{item_count};
ghost use Rattle.density_rule.specs.declared.TheConstants.{SEGMENT_RECORDS};
ghost use Rattle.spread_plan.specs.Plans.{pack_moves};
ghost use Rattle.spread_plan.specs.States.{GivesMove, coming};

use super::{Move, SEGMENT_RECORDS, packed_in};
use std::iter::FusedIterator;
use std::marker::Model;

/// The moves that pack segments to the left, in the order in which they are made. Contracts see the list of those that
/// are still to come, and the counts before them.
#[derive(Drop)]
pub struct PackMoves<'a> {
    // The counts of the segments that were not looked at.
    rest: &'a [u32],
    // How many were looked at, and how many records they hold.
    segments: u32,
    records: u32,
    // Of the last of them, the records numbered from `next` to below `end` are still to be moved.
    next: u32,
    end: u32,
}

impl<'a> Model for PackMoves<'a> {
    ghost use Rattle.spread_plan.specs.States.{PlanView, packing_view, IsPacking};

    ghost Value = { PlanView };

    ghost view = { λ s. packing_view s.rest.now s.segments s.records s.next s.end };

    ghost invariant = { λ s. IsPacking s.rest.now s.segments s.records s.next s.end };
}

impl<'a> PackMoves<'a> {
    /// The moves that pack the segments of a window, whose counts of records these are, in order.
    pub fn over(counts: &'a [u32]) -> PackMoves<'a>
        requires segments { length counts.now ≤ 2 ^ 16 }
        requires room { All (λ count. count ≤ SEGMENT_RECORDS) counts.now }
        // All moves of the defined pack are still to come.
        ensures moves { result.moves ≡ pack_moves counts.now }
        // The counts before them are the given ones.
        ensures counts { result.counts ≡ counts.now }
    {
        PackMoves {
            rest: counts,
            segments: 0,
            records: 0,
            next: 0,
            end: 0,
        }
    }

    /// The moves that are still to come, to be walked apart from these.
    pub fn again(&self) -> PackMoves<'a>
        ensures { result ≡ self.now }
    {
        PackMoves {
            rest: self.rest,
            segments: self.segments,
            records: self.records,
            next: self.next,
            end: self.end,
        }
    }

    /// How many records a segment has before the moves that are still to come.
    pub fn records_in(&self, segment: u32) -> u32
        requires { segment < length self.now.counts }
        ensures { result ≡ slice_index self.now.counts segment }
    {
        if self.segments <= segment {
            self.rest[(segment - self.segments) as usize]
        } else if segment + 1 < self.segments {
            packed_in(self.next, segment)
        } else {
            self.records - self.next
        }
    }
}

impl<'a> Iterator for PackMoves<'a> {
    type Item = Move;

    ghost next_gives = { GivesMove };

    ghost remaining = { item_count coming };

    fn next(&mut self) -> Option<Move> {
        while self.next == self.end {
            let (count, rest) = self.rest.split_first()?;
            self.rest = rest;
            self.next = self.records;
            self.records += *count;
            self.end = self.records.min(self.segments * SEGMENT_RECORDS);
            self.segments += 1;
        }
        let to = self.next / SEGMENT_RECORDS;
        let end = self.end.min((to + 1) * SEGMENT_RECORDS);
        let count = end - self.next;
        self.next = end;
        Some(Move {
            from: self.segments - 1,
            to,
            count,
        })
    }
}

impl<'a> FusedIterator for PackMoves<'a> {}
