//! The block law, as the contract of a function that does nothing.

ghost use Rattle.std.specs.Prelude.{◌≡◌, ℕ, ◌+◌, ◌^◌, ◌<◌, ◌≤◌};
ghost use Rattle.veb_layout.specs.Layout.{path_to};
ghost use Rattle.block_touch.specs.Blocks.{blocks_touched, levels_in, block_bound};

/// The path to a segment touches few blocks, whatever their size and their alignment.
pub fn paths_touch_few_blocks()
    // The path to a segment touches at most 4 ceil(h / floor(log2(B + 1))) blocks of B nodes, for every h, every B
    // and every alignment of the blocks.
    ensures blocks { (h block align segment : ℕ) → 1 ≤ block → segment < 2 ^ h →
        blocks_touched (path_to h segment) block align ≤ block_bound h block }
    // With no level this bound is 0.
    ensures no_level { (block : ℕ) → 1 ≤ block → block_bound 0 block ≡ 0 }
    // The number of levels floor(log2(B + 1)) is the greatest whose full tree fits a block of B nodes.
    ensures levels_fit { (block : ℕ) → 1 ≤ block → 2 ^ levels_in block ≤ block + 1 }
    ensures no_more_fit { (block : ℕ) → 1 ≤ block → block + 1 < 2 ^ (levels_in block + 1) }
{}
