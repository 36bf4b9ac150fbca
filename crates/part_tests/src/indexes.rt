//! Worked rows of the index: its layout, its blocks and its search.

ghost use Rattle.std.specs.Prelude.{◌<◌};

use crate::records::key;
use block_touch::{Probe, Trace, bound};
use key_slot::Key;
use segment::Fences;
use std::alloc::Global;
use std::process::Abort;
use veb_index::{Index, Nodes, search};
use veb_layout::fill_links;

/// The key of a number: they ascend with their numbers.
fn numbered(rt: &impl Abort, number: u32) -> Key {
    let [_, high, middle, low] = number.to_be_bytes();
    key(rt, &[b'k', high, middle, low])
}

fn set<F: Fences>(fences: &mut F, segment: u32, key: &Key)
    requires { segment < F.segment_count fences.old }
{
    fences.set_fence(segment, key);
}

/// An index of this height in which key `2 * i` is the fence of each segment `i`.
fn filled(rt: &impl Abort, alloc: Global, height: u32) -> Index {
    let mut index = Index::new(alloc, 16).expect(rt, "memory");
    assert!(rt; height <= 16);
    index.reset(height);
    for segment in 0..1u32 << height {
        assert!(rt; segment < 1 << index.view().height());
        set(&mut index, segment, &numbered(rt, 2 * segment));
    }
    index
}

/// What a search for a key tells, with blocks of a size.
fn probe(rt: &impl Abort, index: &Index, key: &Key, block: u32) -> Probe {
    assert!(rt; block > 0);
    let mut view = index.view();
    let segment = search(&mut view, key);
    let nodes = view.trace().len();
    Probe {
        segment,
        nodes,
        blocks: view.trace().blocks(block, 0),
        bound: bound(nodes, block),
    }
}

/// No node: all keys are in segment 0. One node: a key that isn't below its fence is to the right of it.
#[test]
fn keys_of_two_segments(rt: HostRuntime) {
    let mut index = Index::new(rt.alloc(), 1).expect(&rt, "memory");
    let nothing = Probe {
        segment: 0,
        nodes: 0,
        blocks: 0,
        bound: 0,
    };
    assert_eq!(rt; probe(&rt, &index, &key(&rt, b"a"), 1), nothing);
    index.reset(1);
    index.set_fence(1, &key(&rt, b"m"));
    for (bytes, segment) in [(b"l", 0), (b"m", 1), (b"n", 1)] {
        let mut view = index.view();
        assert_eq!(rt; search(&mut view, &key(&rt, bytes)), segment);
        assert!(rt; view.trace().len() == 1);
        assert_eq!(rt; view.trace().at(0), 0);
    }
}

/// Levels, the segment of a key, the first positions on its path, and a size of blocks with what it gives.
const PATHS: [(u32, u32, [u32; 5], u32, u32, u32); 9] = [
    (4, 5, [0, 1, 6, 7, 0], 3, 2, 8),
    (4, 5, [0, 1, 6, 7, 0], 1, 4, 16),
    (5, 11, [0, 1, 10, 11, 13], 7, 2, 8),
    (2, 3, [0, 2, 0, 0, 0], 7, 1, 4),
    (2, 3, [0, 2, 0, 0, 0], 1, 2, 8),
    (3, 0, [0, 1, 2, 0, 0], 3, 1, 8),
    (1, 1, [0; 5], 1, 1, 4),
    (16, 0, [0, 1, 3, 4, 15], 255, 2, 8),
    (16, 65535, [0, 2, 12, 14, 240], 4294967295, 1, 4),
];

#[test]
fn paths_of_keys(rt: HostRuntime) {
    for (height, segment, path, block, blocks, most) in PATHS {
        let index = filled(&rt, rt.alloc(), height);
        assert!(rt; segment < 65536);
        let wanted = Probe {
            segment,
            nodes: height,
            blocks,
            bound: most,
        };
        let sought = numbered(&rt, 2 * segment + 1);
        assert_eq!(rt; probe(&rt, &index, &sought, block), wanted);
        let mut view = index.view();
        search(&mut view, &sought);
        let trace = view.trace();
        for i in 0..trace.len().min(5) {
            assert_eq!(rt; trace.at(i), path[i as usize], "at {height}, {i}");
        }
    }
}

/// The bounds of other sizes; and nodes in the order of their depth break the bound of 16 levels.
#[test]
fn blocks_of_other_traces(rt: HostRuntime) {
    assert_eq!(rt; (bound(9, 7), bound(16, 1), bound(16, 65535)), (12, 64, 4));
    let mut leftmost = Trace::new();
    for d in 0..16u32 {
        assert!(rt; leftmost.len() < 16);
        leftmost.push((1 << d) - 1);
    }
    assert_eq!(rt; (leftmost.blocks(255, 0), bound(16, 255)), (9, 8));
    let mut back = Trace::new();
    back.push(0);
    back.push(4294967295);
    back.push(1);
    assert_eq!(rt; back.blocks(2, 0), 2);
    assert_eq!(rt; back.blocks(2, 1), 3);
    assert_eq!(rt; back.blocks(4294967295, 4294967295), 2);
}

/// Three levels, with one place behind them.
#[test]
fn links_of_three_levels(rt: HostRuntime) {
    let mut left = [9; 8];
    let mut right = [9; 8];
    fill_links(3, &mut left, &mut right);
    let s = 1 << 31;
    assert_eq!(rt; left, [1, 2, s, s + 2, 5, s + 4, s + 6, 9]);
    assert_eq!(rt; right, [4, 3, s + 1, s + 3, 6, s + 5, s + 7, 9]);
    fill_links(0, &mut left, &mut right);
    assert_eq!(rt; (left[0], right[0]), (1, 4));
}
