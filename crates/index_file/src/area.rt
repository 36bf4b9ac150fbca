//! The index in the file: where its nodes and its counts stand, and what a store in memory has for them.

ghost use Rattle.std.specs.Prelude.{◌≡◌, ℕ, ◌+◌, ◌-◌, ◌*◌, ◌^◌, ◌<◌, ◌≤◌, length, slice_index};
ghost use Rattle.header_gate.specs.Places.{IsLayout};
ghost use Rattle.header_gate.specs.Header.{number};
ghost use Rattle.key_slot.specs.Format.{wide};
ghost use Rattle.index_file.specs.Area.{node_place, count_place};
ghost use Rattle.index_file.specs.Seats.{link_of};
ghost use Rattle.index_file.specs.Writing.{IsNodeOf};
ghost use Rattle.window_tally.specs.TallyView.{IsTally};

use crate::fault::AreaFault;
use crate::node::{node_bytes, put, put_number};
use crate::seats::seat_at;
use crate::sizes::{COUNT_SIZE, NODE_SIZE, PIECE};
use density_rule::Window;
use header_gate::Layout;
use veb_index::Index;
use veb_layout::{SEGMENT_LINK, position};
use window_tally::Tally;

/// The place of the node at a position.
pub(crate) fn node_at(layout: &Layout, x: u32) -> u64
    requires { IsLayout layout.now }
    ensures { result ≡ node_place layout.now x }
{
    layout.area_at() + NODE_SIZE as u64 * x as u64
}

/// The place of a segment's count.
pub(crate) fn count_at(layout: &Layout, i: u32) -> u64
    requires { IsLayout layout.now }
    ensures { result ≡ count_place layout.now i }
{
    layout.area_at() + ((NODE_SIZE as u64) << layout.hmax) + COUNT_SIZE as u64 * i as u64
}

/// The fault of an index whose node at a position is wrong.
pub(crate) fn wrong_node(layout: &Layout, x: u32) -> AreaFault
    requires layout { IsLayout layout.now }
    requires node { x < 2 ^ 16 }
    ensures { result ≡ AreaFault.Wrong (node_place layout.now x) }
{
    AreaFault::Wrong {
        place: node_at(layout, x) as u32,
    }
}

/// The fault of an index in which a segment's count is wrong, or the count of a window that begins with it.
pub(crate) fn wrong_count(layout: &Layout, i: u32) -> AreaFault
    requires layout { IsLayout layout.now }
    requires segment { i < 2 ^ 16 }
    ensures { result ≡ AreaFault.Wrong (count_place layout.now i) }
{
    AreaFault::Wrong {
        place: count_at(layout, i) as u32,
    }
}

/// The links of the node at a position, to the left and to the right.
pub(crate) fn links_at(h: u32, x: u32) -> (u32, u32)
    requires height { h ≤ 16 }
    requires node { x < 2 ^ h - 1 }
    ensures left { result.0 ≡ link_of h 0 x }
    ensures right { result.1 ≡ link_of h 1 x }
{
    let node = seat_at(h, x);
    let child = node.depth + 1;
    if child < h {
        (
            position(h, child, 2 * node.number),
            position(h, child, 2 * node.number + 1),
        )
    } else {
        (
            SEGMENT_LINK + 2 * node.number,
            SEGMENT_LINK + (2 * node.number + 1),
        )
    }
}

/// The nodes of an index from a position on, that many of them, at the front of a piece.
pub(crate) fn fill_nodes(piece: &mut [u8], index: &Index, h: u32, first: u32, count: u32)
    requires size { length piece.old ≡ PIECE }
    requires room { count ≤ 64 }
    requires height { h ≡ index.now.height }
    requires low { h ≤ 16 }
    requires nodes { first + count ≤ 2 ^ h - 1 }
    ensures { (k : ℕ) → k < count → IsNodeOf wide h index.now.fences (first + k) piece.new (NODE_SIZE * k) }
{
    for k in 0..count {
        let x = first + k;
        let (left, right) = links_at(h, x);
        let node = node_bytes(&index.node(x), left, right);
        put(piece, NODE_SIZE * k as usize, &node);
    }
}

/// The counts of a tally from a segment on, that many of them, at the front of a piece.
pub(crate) fn fill_counts(piece: &mut [u8], tally: &Tally, first: u32, count: u32)
    requires size { length piece.old ≡ PIECE }
    requires room { count ≤ 1024 }
    requires is_tally { IsTally tally.now }
    requires segments { first + count ≤ 2 ^ tally.now.height }
    ensures { (k : ℕ) → k < count → number piece.new (COUNT_SIZE * k) ≡ slice_index tally.now.counts (first + k) }
{
    for k in 0..count {
        let records = tally.count(Window {
            height: 0,
            number: first + k,
        });
        put_number(piece, COUNT_SIZE * k as usize, records);
    }
}
