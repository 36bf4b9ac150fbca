//! Plans by which the records of a window are shared out evenly over its segments, in place.
//!
//! Records are numbered in their order. A pack moves each record to the left, to the segment of 64 in which its number
//! falls, so that all segments are full but the last used one. A spread then moves records to the right, into even
//! shares. It is the pack of those shares done backwards, so both are proved at once: whichever moves have been done,
//! the segments hold the same records in the same order, and none holds more than it has room for. A packed memory
//! array is rebalanced so (Bender, Demaine and Farach-Colton, SIAM J. Comput. 35, 2005). The plans are iterators that
//! look at each segment once and hold no list.
#![tactic(auto)]

ghost use Rattle.std.specs.Prelude.{◌≡◌, ◌+◌, ◌-◌, ◌*◌, ◌/◌, ◌^◌, ◌<◌, ◌≤◌, min};
ghost use Rattle.density_rule.specs.Spread.{share as share_of};
ghost use Rattle.density_rule.specs.declared.TheConstants.{SEGMENT_RECORDS};

use density_rule::SEGMENT_RECORDS;
pub use laws::{packs_segments, spreads_segments};
pub use pack::PackMoves;
pub use spread::SpreadMoves;

mod laws;
mod pack;
mod spread;

/// Some records of one segment go to another, and stay in order: to a lower segment the first ones, at its end; to a
/// higher segment the last ones, at its front.
#[derive(Clone, Copy, Debug, PartialEq, Eq)]
pub struct Move {
    /// The segment that gives them, counted in the window from 0.
    pub from: u32,
    /// The segment that takes them.
    pub to: u32,
    /// How many records.
    pub count: u32,
}

/// How many of `n` records segment `i` of `m` gets in a spread, `floor((i + 1) n / m) - floor(i n / m)`.
pub fn share(n: u32, m: u32, i: u32) -> u32
    requires { i < m }
    ensures { result ≡ share_of n m i }
{
    shared_before(n, m, i + 1) - shared_before(n, m, i)
}

// How many of `n` records the first `i` of `m` segments get in a spread.
fn shared_before(n: u32, m: u32, i: u32) -> u32
    requires some { 1 ≤ m }
    requires within { i ≤ m }
    ensures { result ≡ i * n / m }
{
    (u64::from(i) * u64::from(n) / u64::from(m)) as u32
}

// How many of `n` packed records segment `i` has.
fn packed_in(n: u32, i: u32) -> u32
    requires { i < 2 ^ 16 }
    ensures { result ≡ min SEGMENT_RECORDS (n - i * SEGMENT_RECORDS) }
{
    n.saturating_sub(i * SEGMENT_RECORDS).min(SEGMENT_RECORDS)
}
