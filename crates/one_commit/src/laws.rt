//! A law of batches.

ghost use Rattle.std.specs.Prelude.{◌≡◌, ◌^◌, ℕ, true, List};
ghost use Rattle.header_gate.specs.Header.{layout_in};
ghost use Rattle.header_gate.specs.Places.{height_limit};
ghost use Rattle.header_gate.specs.Recovered.{IsJournalSound};
ghost use Rattle.map_model.specs.Store.{Update};
ghost use Rattle.map_model.specs.Items.{are_distinct};
ghost use Rattle.map_model.specs.Array.{counts_of};
ghost use Rattle.map_model.specs.ArrayState.{ArrayState, next_states, HasState};
ghost use Rattle.map_model.specs.Batches.{LaysBatch, LaysArray};
ghost use Rattle.map_model.specs.Image.{slot_format};
ghost use Rattle.map_model.specs.Holding.{HoldsMap, IsBalancedArray};
ghost use Rattle.one_commit.specs.Fitting.{changes_in, fit_one_commit};
ghost use Rattle.one_commit.specs.Editing.{AreEdits, LaysEdits};

/// A law: if distinct items fit one commit, they are edits of the segments to which their keys belong before any of
/// them is made.
pub fn fitting_items_are_edits()
    // In an array that holds a map, with every window within its bounds, distinct items that fit one commit are edits of the
    // segments to which their keys belong before any of them is made (`AreEdits`).
    ensures { (hmax : ℕ) (s : ArrayState) (items : List Update) → HoldsMap hmax s.map s.height s.array →
        IsBalancedArray s.height s.array → are_distinct items ≡ true →
        fit_one_commit s.height (counts_of s.array) (changes_in s.array items) ≡ true →
        AreEdits hmax s items (next_states hmax s items) }
{}

/// A law: distinct items that fit one commit are such edits in a file, too, over which a batch with the edited
/// segments is laid.
pub fn edits_reach_files()
    // With a sound journal, and every window within its bounds, a file has the state after distinct items that fit one commit
    // once a batch of the edited segments is replayed over it (`LaysEdits`).
    ensures { (s : ArrayState) (items : List Update) (old new numbers : List ℕ) (image : ℕ → ℕ → ℕ) → HasState old s →
        IsBalancedArray s.height s.array → are_distinct items ≡ true →
        fit_one_commit s.height (counts_of s.array) (changes_in s.array items) ≡ true → LaysBatch numbers image old new →
        LaysEdits (slot_format old) s.array items numbers image → IsJournalSound (layout_in old) s.height new →
        HasState new (next_states (height_limit (layout_in old)) s items) }
{}

/// A law: whatever items do at one height is one batch of the journal, if it holds each segment that they change.
pub fn states_reach_files()
    // With a sound journal, and every window within its bounds, a file has the state after items that keep the height once a
    // batch of each segment that they change is replayed over it.
    ensures { (s : ArrayState) (items : List Update) (old new numbers : List ℕ) (image : ℕ → ℕ → ℕ) → HasState old s →
        IsBalancedArray s.height s.array →
        let next = next_states (height_limit (layout_in old)) s items in
        next.height ≡ s.height → LaysBatch numbers image old new → LaysArray numbers image s.height old next.array →
        IsJournalSound (layout_in old) s.height new → HasState new next }
{}
