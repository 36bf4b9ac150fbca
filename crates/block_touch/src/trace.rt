//! The positions that a search visited.

ghost use Rattle.std.specs.Prelude.{◌≡◌, ◌<◌, ◌≤◌, ◌==◌, [], ◌∷◌, ◌++◌, length, slice_index};
ghost use Rattle.std.specs.List.{list_any};
ghost use Rattle.block_touch.specs.Blocks.{block_of, blocks_touched};

use std::marker::Model;

/// The most positions of a trace: a search visits one node of each level, and an index has at most 16.
const MOST: usize = 16;

/// The positions of the nodes that a search visited, in order: at most 16.
#[derive(Drop)]
pub struct Trace {
    positions: [u32; MOST],
    len: u32,
}

impl Model for Trace {
    ghost use Rattle.std.specs.Prelude.{◌≡◌, ℕ, ◌≤◌, List, length, take};
    ghost use Rattle.block_touch.specs.declared.trace.TheConstants.{MOST};

    ghost Value = { List ℕ };

    ghost view = { λ t. take t.len t.positions };

    ghost invariant = { λ t. (t.len ≤ MOST) × (length t.positions ≡ MOST) };
}

impl Trace {
    /// A trace with no position.
    pub fn new() -> Trace
        ensures { result ≡ [] }
    {
        Trace {
            positions: [0; MOST],
            len: 0,
        }
    }

    /// Adds a position at the end.
    pub fn push(&mut self, position: u32)
        requires { length self.old < 16 }
        ensures { self.new ≡ self.old ++ position ∷ [] }
    {
        self.positions[self.len as usize] = position;
        self.len += 1;
    }

    /// How many positions there are, at most 16.
    pub fn len(&self) -> u32
        ensures len { result ≡ length self.now }
        ensures most { result ≤ 16 }
    {
        self.len
    }

    /// The position that was added as number `i`, counted from 0.
    pub fn at(&self, i: u32) -> u32
        requires { i < length self.now }
        ensures { result ≡ slice_index self.now i }
    {
        self.positions[i as usize]
    }

    /// How many different blocks of `block` nodes the positions touch, if position 0 is node `align` of its block.
    pub fn blocks(&self, block: u32, align: u32) -> u32
        requires { 1 ≤ block }
        ensures { result ≡ blocks_touched self.now block align }
    {
        let mut rest = &self.positions[..self.len as usize];
        let mut count = 0;
        while let Some((first, later)) = rest.split_first() {
            if !shares_block(*first, later, block, align) {
                count += 1;
            }
            rest = later;
        }
        count
    }
}

/// The number of the block that a position lies in.
fn block_number(position: u32, block: u32, align: u32) -> u64
    requires { 1 ≤ block }
    ensures { result ≡ block_of block align position }
{
    (u64::from(align) + u64::from(position)) / u64::from(block)
}

/// Whether one of the others lies in the block of this position.
fn shares_block(position: u32, others: &[u32], block: u32, align: u32) -> bool
    requires { 1 ≤ block }
    ensures { result
        ≡ list_any (λ p. block_of block align position == block_of block align p) others.now }
{
    let number = block_number(position, block, align);
    others
        .iter()
        .any(|p| block_number(*p, block, align) == number)
}
