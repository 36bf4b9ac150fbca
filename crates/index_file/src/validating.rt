//! The order of fences, and the bounds of windows.

ghost use Rattle.std.specs.Prelude.{◌≡◌, ℕ, ◌+◌, ◌-◌, ◌*◌, ◌^◌, ◌≤◌, ◌<◌, IfSome, Some, None, not};
ghost use Rattle.std.specs.Ordering.{is_lt};
ghost use Rattle.key_slot.specs.Record.{key_cmp};
ghost use Rattle.density_rule.specs.Windows.{IsBalanced};
ghost use Rattle.header_gate.specs.declared.layout.Layout.{Layout};
ghost use Rattle.header_gate.specs.declared.reason.Reason.TheVariants.{Index as WrongIndex};
ghost use Rattle.map_model.specs.FileReasons.{first_reason};
ghost use Rattle.veb_index.specs.Nodes.{fence_place, fence_by};
ghost use Rattle.veb_index.specs.IndexView.{fence_at};
ghost use Rattle.index_file.specs.Area.{node_place, count_place};
ghost use Rattle.index_file.specs.IndexReasons.{order_reason, row_reason};
ghost use Rattle.window_tally.specs.TallyView.{IsTally};

use density_rule::{Window, in_bounds};
use veb_index::{Index, fence_position};
use window_tally::Tally;

/// The first segment whose fence isn't above that of the segment before it.
pub(crate) fn first_misplaced(index: &Index, h: u32) -> Option<u32>
    requires height { h ≡ index.now.height }
    requires low { h ≤ 16 }
    ensures ordered { result ≡ None → (l : Layout) →
        first_reason (order_reason l h (fence_by h (fence_at index.now.fences))) (2 ^ h) ≡ None }
    ensures misplaced { IfSome result (λ i. (1 ≤ i) × (i < 2 ^ h) × ((l : Layout) →
        first_reason (order_reason l h (fence_by h (fence_at index.now.fences))) (2 ^ h) ≡ Some (WrongIndex (node_place l (fence_place h i))))) }
{
    for i in 2..power(h) {
        if is_misplaced(index, h, i) {
            return Some(i);
        }
    }
    None
}

// Whether the fence of a segment isn't above that of the segment before it.
fn is_misplaced(index: &Index, h: u32, i: u32) -> bool
    requires height { h ≡ index.now.height }
    requires low { h ≤ 16 }
    requires some { 2 ≤ i }
    requires below { i < 2 ^ h }
    ensures { let fence = fence_by h (fence_at index.now.fences) in result ≡ not (is_lt (key_cmp (fence (i - 1)) (fence i))) }
{
    let before = index.node(fence_position(h, i - 1));
    let fence = index.node(fence_position(h, i));
    !(before < fence)
}

/// The first window that is outside its bounds, lowest height first, and then lowest number.
pub(crate) fn first_broken(tally: &Tally) -> Option<Window>
    requires { IsTally tally.now }
    ensures balanced { result ≡ None → IsBalanced tally.now.height tally.now.counts }
    ensures none { result ≡ None → (l : Layout) → first_reason (row_reason l tally.now.height tally.now.counts)
        (tally.now.height + 1) ≡ None }
    ensures broken { IfSome result (λ w. (w.height ≤ tally.now.height) × (w.number * 2 ^ w.height < 2 ^ tally.now.height) ×
        ((l : Layout) →
        first_reason (row_reason l tally.now.height tally.now.counts) (tally.now.height + 1) ≡ Some (WrongIndex (count_place l (w.number * 2 ^ w.height))))) }
{
    for h in 0..tally.height() + 1 {
        if let Some(window) = broken_in_row(tally, h) {
            return Some(window);
        }
    }
    None
}

// The first window of a height that is outside its bounds.
fn broken_in_row(tally: &Tally, h: u32) -> Option<Window>
    requires { h ≤ tally.now.height }
    ensures none { result ≡ None → (l : Layout) → row_reason l tally.now.height tally.now.counts h ≡ None }
    ensures broken { IfSome result (λ w. (w.height ≡ h) × (w.number < 2 ^ (tally.now.height - h)) × ((l : Layout) →
        row_reason l tally.now.height tally.now.counts h ≡ Some (WrongIndex (count_place l (w.number * 2 ^ h))))) }
{
    for number in 0..power(tally.height() - h) {
        let window = Window { height: h, number };
        if !in_bounds(tally.height(), h, tally.count(window)) {
            return Some(window);
        }
    }
    None
}

// A power of 2: how many segments a window of this height has.
fn power(h: u32) -> u32
    requires { h ≤ 16 }
    ensures { result ≡ 2 ^ h }
{
    1 << h
}
