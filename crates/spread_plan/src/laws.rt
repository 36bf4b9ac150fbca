//! What the plans do to lists of records: two laws, each the contract of a function that does nothing. They hold for
//! records of every type `T`.

ghost use Rattle.std.specs.Prelude.{◌≡◌, ℕ, ◌-◌, ◌*◌, ◌≤◌, List, length};
ghost use Rattle.density_rule.specs.Spread.{shares};
ghost use Rattle.spread_plan.specs.Moves.{records_of, counts_of, after_moves};
ghost use Rattle.spread_plan.specs.Stages.{FitSegments, IsStage, CanMoveLeft, CanMoveRight, AllStages};
ghost use Rattle.spread_plan.specs.Plans.{full_counts, pack_moves, spread_moves};

/// The moves of a pack, made in order, keep the records and never overfill a segment. They end in full segments, one
/// that is partly filled, and empty ones.
pub fn packs_segments<T>()
    // Before and after each move of a pack the segments hold the same records in the same order, and none more than 64. Each move
    // goes to a lower segment, and can be made in its turn.
    ensures stages { (lists : List (List T)) → FitSegments lists →
        AllStages CanMoveLeft (IsStage lists) (pack_moves (counts_of lists)) lists }
    // At the end of a pack all segments are full but the last used one.
    ensures end { (lists : List (List T)) → FitSegments lists →
        counts_of (after_moves (pack_moves (counts_of lists)) lists) ≡ full_counts (length (records_of lists)) (length lists) }
    // A pack of m segments has at most 2 (m - 1) moves.
    ensures few { (counts : List ℕ) → length (pack_moves counts) ≤ 2 * (length counts - 1) }
{}

/// The moves of a spread of packed records, made in order, keep the records and never overfill a segment. They end in
/// the shares.
pub fn spreads_segments<T>()
    // Before and after each move of a spread of packed records the segments hold the same records in the same order, and none
    // more than 64. Each move goes to a higher segment, and can be made in its turn.
    ensures stages { (n m : ℕ) (lists : List (List T)) → length (records_of lists) ≡ n → counts_of lists ≡ full_counts n m →
        AllStages CanMoveRight (IsStage lists) (spread_moves n m) lists }
    // At the end of a spread each segment has its share.
    ensures end { (n m : ℕ) (lists : List (List T)) → length (records_of lists) ≡ n → counts_of lists ≡ full_counts n m →
        counts_of (after_moves (spread_moves n m) lists) ≡ shares n m }
    // A spread over m segments has at most 2 (m - 1) moves.
    ensures few { (n m : ℕ) → length (spread_moves n m) ≤ 2 * (m - 1) }
{}
