//! The loops over the implicit tree of windows, each over a plain slice.

ghost use Rattle.std.specs.Prelude.{◌≡◌, ℕ, ◌+◌, ◌-◌, ◌*◌, ◌/◌, ◌^◌, ◌<◌, ◌≤◌, List, length, replicate, slice_index, slice_range, slice_set, IfSome, Option, Some, None};
ghost use Rattle.density_rule.specs.Windows.{IsWindow};
ghost use Rattle.density_rule.specs.CountUpdates.{count_after, counts_after, highest_broken as highest_broken_of};
ghost use Rattle.density_rule.specs.Spread.{share as share_of};
ghost use Rattle.density_rule.specs.Marks.{updated_marks, one_more};
ghost use Rattle.std.specs.Option.{option_map};
ghost use Rattle.window_tally.specs.Choice.{adds};
ghost use Rattle.window_tally.specs.TallyPlaces.{place, leaves_of, marks_in, HasCounts, IsTree, Fills, FillsBelow, part_of};
ghost use Rattle.density_rule.specs.declared.TheConstants.{SEGMENT_RECORDS};

use crate::Change;
use density_rule::{Window, in_bounds};

/// Where the window stands in a tree of this height.
pub fn place_of(height: u32, h: u32, number: u32) -> usize
    requires low { height ≤ 16 }
    requires window { IsWindow height h number }
    ensures { result ≡ place height h number }
{
    (1usize << (height - h)) + number as usize
}

/// Where the window of height `h` over the segment stands.
fn place_over(height: u32, h: u32, segment: u32) -> usize
    requires low { height ≤ 16 }
    requires inside { h ≤ height }
    requires in_store { segment < 2 ^ height }
    ensures place { result ≡ place height h (segment / 2 ^ h) }
    ensures in_tree { result < 2 ^ (height + 1) }
{
    place_of(height, h, segment >> h)
}

/// Where the first of the windows of height `h` inside this one stands.
fn first_inside(height: u32, h: u32, window: Window) -> usize
    requires low { height ≤ 16 }
    requires inside { h ≤ window.height }
    requires window { IsWindow height window.height window.number }
    ensures place { result ≡ place height h (window.number * 2 ^ (window.height - h)) }
    ensures room { result + 2 ^ (window.height - h) ≤ 2 ^ (height + 1) }
{
    place_of(height, h, window.number << (window.height - h))
}

/// The counts of the segments of the window.
pub fn leaves_in(counts: &[u32], height: u32, window: Window) -> &[u32]
    requires low { height ≤ 16 }
    requires size { 2 ^ (height + 1) ≤ length counts.now }
    requires window { IsWindow height window.height window.number }
    ensures { let first = window.number * 2 ^ window.height in
        let last = (window.number + 1) * 2 ^ window.height in
        result.now ≡ slice_range (leaves_of height counts.now) first last }
{
    let first = first_inside(height, 0, window);
    let len = 1usize << window.height;
    &counts[first..first + len]
}

/// Gives the segment this count, and each window over it what that makes of its own.
pub fn set_count(counts: &mut [u32], height: u32, segment: u32, count: u32)
    requires tree { IsTree height counts.old }
    requires in_store { segment < 2 ^ height }
    requires small { count ≤ SEGMENT_RECORDS }
    ensures { HasCounts height counts.new (slice_set (leaves_of height counts.old) segment count) }
{
    let before = counts[place_over(height, 0, segment)];
    for h in 0..height + 1 {
        let at = place_over(height, h, segment);
        counts[at] = counts[at] - before + count;
    }
}

/// A count with one record more, or with one less.
pub fn changed(count: u32, change: Change) -> u32
    requires fits { count < 2 ^ 31 }
    requires some { change ≡ Change.Take → 1 ≤ count }
    ensures { result ≡ count_after (adds change) count }
{
    match change {
        Change::Add => count + 1,
        Change::Take => count - 1,
    }
}

/// The greatest height, at most that of the store, whose window over the segment would be outside its bounds after the
/// change.
pub fn highest_broken(counts: &[u32], height: u32, segment: u32, change: Change) -> Option<u32>
    requires tree { IsTree height counts.now }
    requires in_store { segment < 2 ^ height }
    requires some { change ≡ Change.Take → 1 ≤ slice_index (leaves_of height counts.now) segment }
    ensures answer { let after = counts_after (adds change) (leaves_of height counts.now) segment in
        result ≡ highest_broken_of height after segment }
    ensures within { IfSome result (λ h. h ≤ height) }
{
    let mut broken = None;
    for h in 0..height + 1 {
        let count = counts[place_over(height, h, segment)];
        if !in_bounds(height, h, changed(count, change)) {
            broken = Some(h);
        }
    }
    broken
}

/// How many of the records part `i` of `2^levels` gets in a spread.
fn share(records: u32, levels: u32, i: u32) -> u32
    requires low { levels ≤ 16 }
    requires part { i < 2 ^ levels }
    ensures { result ≡ share_of records (2 ^ levels) i }
{
    let records = u64::from(records);
    let i = u64::from(i);
    ((((i + 1) * records) >> levels) - ((i * records) >> levels)) as u32
}

/// Writes the shares of `2^levels` parts, one beside the other.
fn write_shares(counts: &mut [u32], first: usize, levels: u32, records: u32)
    requires low { levels ≤ 16 }
    requires room { first + 2 ^ levels ≤ length counts.old }
    ensures { Fills 0 (share_of records (2 ^ levels)) first (2 ^ levels) counts.old counts.new }
{
    for i in 0..1u32 << levels {
        counts[first + i as usize] = share(records, levels, i);
    }
}

/// Shares the records out over the windows inside this one, and changes no other.
pub fn share_out(counts: &mut [u32], height: u32, window: Window, records: u32)
    requires low { height ≤ 16 }
    requires size { 2 ^ (height + 1) ≤ length counts.old }
    requires window { IsWindow height window.height window.number }
    ensures { let j = window.height in
        FillsBelow 0 (part_of records j) height j window.number j counts.old counts.new }
{
    for h in 0..window.height {
        let first = first_inside(height, h, window);
        write_shares(counts, first, window.height - h, records);
    }
}

/// Takes all marks away.
pub fn forget_all(marks: &mut [Option<u64>])
    ensures { marks.new ≡ replicate (length marks.old) None }
{
    marks.fill(None);
}

/// Gives the windows inside this one a mark of no updates, and changes no other.
pub fn rest_inside(marks: &mut [Option<u64>], height: u32, window: Window)
    requires low { height ≤ 16 }
    requires size { 2 ^ (height + 1) ≤ length marks.old }
    requires window { IsWindow height window.height window.number }
    ensures { let j = window.height in
        FillsBelow None (λ _ _. Some 0) height j window.number j marks.old marks.new }
{
    for h in 0..window.height {
        let first = first_inside(height, h, window);
        write_rests(marks, first, window.height - h);
    }
}

/// Writes `2^levels` marks of no updates, one beside the other.
fn write_rests(marks: &mut [Option<u64>], first: usize, levels: u32)
    requires low { levels ≤ 16 }
    requires room { first + 2 ^ levels ≤ length marks.old }
    ensures { Fills None (λ _. Some 0) first (2 ^ levels) marks.old marks.new }
{
    for i in 0..1usize << levels {
        marks[first + i] = Some(0);
    }
}

/// A mark after one update more.
fn counted(mark: Option<u64>) -> Option<u64>
    ensures { result ≡ option_map one_more mark }
{
    mark.map(|updates| updates.saturating_add(1))
}

/// Counts an update in each rested window over the segment.
pub fn count_update(marks: &mut [Option<u64>], height: u32, segment: u32)
    requires low { height ≤ 16 }
    requires size { 2 ^ (height + 1) ≤ length marks.old }
    requires in_store { segment < 2 ^ height }
    ensures { marks_in height marks.new ≡ updated_marks height segment (marks_in height marks.old) }
{
    for h in 0..height {
        let at = place_over(height, h, segment);
        marks[at] = counted(marks[at]);
    }
}
