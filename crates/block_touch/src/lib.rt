//! How many blocks of memory a search touches, and the bound that the layout keeps for every size of a block at once.
//!
//! Memory and disks are read in blocks, of a size that the program need not know. In the van Emde Boas layout the path
//! to a segment touches at most `4 * ceil(h / floor(log2(B + 1)))` blocks of `B` nodes, where `h` is the number of
//! levels: Prokop (Cache-oblivious algorithms, MIT 1999). Cut the tree until every part fits a block: each part on the
//! path has at least half as many levels as a block takes, and lies in two blocks at most.
#![tactic(auto)]

ghost use Rattle.std.specs.Prelude.{◌≡◌, ◌≤◌};
ghost use Rattle.block_touch.specs.Blocks.{block_bound};

pub use self::laws::paths_touch_few_blocks;
pub use self::trace::Trace;

mod laws;
mod trace;

/// What a probe of an index tells.
#[derive(Clone, Copy, Debug, PartialEq, Eq)]
pub struct Probe {
    /// The number of the segment that the search found.
    pub segment: u32,
    /// How many nodes it visited: one for each level.
    pub nodes: u32,
    /// How many blocks these touch.
    pub blocks: u32,
    /// The bound on these for a path of that many nodes.
    pub bound: u32,
}

/// The bound `4 * ceil(h / floor(log2(block + 1)))` on the blocks of `block` nodes that the path to a segment touches in an
/// index of `h` levels, however the blocks are aligned.
///
/// It is 0 if there is no level.
pub fn bound(h: u32, block: u32) -> u32
    requires height { h ≤ 16 }
    requires block { 1 ≤ block }
    ensures { result ≡ block_bound h block }
{
    let levels = (u64::from(block) + 1).ilog2();
    4 * h.div_ceil(levels)
}
