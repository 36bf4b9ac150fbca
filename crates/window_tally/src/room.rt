//! The memory of a tally is taken once, and filled as far as a height needs it.

ghost use Rattle.std.specs.Prelude.{◌≡◌, ℕ, ◌<◌, ◌≤◌, length, slice_index, slice_index_or, vec_capacity, IfOk, Option, None};

use std::alloc::{AllocError, Global};

/// That many counts of 0, with memory for `most`.
pub fn no_counts(alloc: Global, most: usize, places: usize) -> Result<Vec<u32>, AllocError>
    requires { places ≤ most }
    ensures size { IfOk result (λ v. length v.items ≡ places) }
    ensures each { IfOk result (λ v. (i : ℕ) → i < places → slice_index v.items i ≡ 0) }
    ensures room { IfOk result (λ v. most ≤ vec_capacity v) }
{
    let mut counts = Vec::with_capacity(alloc, most)?;
    clear_counts(&mut counts, places);
    Ok(counts)
}

/// That many marks of windows that aren't rested, with memory for `most`.
pub fn no_marks_yet(
    alloc: Global,
    most: usize,
    places: usize,
) -> Result<Vec<Option<u64>>, AllocError>
    requires { places ≤ most }
    ensures size { IfOk result (λ v. length v.items ≡ places) }
    ensures each { IfOk result (λ v. (i : ℕ) → i < places → slice_index_or v.items i None ≡ None) }
    ensures room { IfOk result (λ v. most ≤ vec_capacity v) }
{
    let mut marks = Vec::with_capacity(alloc, most)?;
    clear_marks(&mut marks, places);
    Ok(marks)
}

/// Makes them that many counts of 0, and keeps their memory: none is taken, and this can't fail.
pub fn clear_counts(counts: &mut Vec<u32>, places: usize)
    requires { places ≤ vec_capacity counts.old }
    ensures size { length counts.new.items ≡ places }
    ensures each { (i : ℕ) → i < places → slice_index counts.new.items i ≡ 0 }
    ensures room { vec_capacity counts.old ≤ vec_capacity counts.new }
{
    counts.clear();
    let _ = counts.resize(places, 0);
}

/// Makes them that many marks of windows that aren't rested, and keeps their memory, likewise.
pub fn clear_marks(marks: &mut Vec<Option<u64>>, places: usize)
    requires { places ≤ vec_capacity marks.old }
    ensures size { length marks.new.items ≡ places }
    ensures each { (i : ℕ) → i < places → slice_index_or marks.new.items i None ≡ None }
    ensures room { vec_capacity marks.old ≤ vec_capacity marks.new }
{
    marks.clear();
    let _ = marks.resize(places, None);
}

/// Makes them that many counts, of which those that were there stay, and keeps their memory: none is taken, and this
/// can't fail.
pub fn fit_counts(counts: &mut Vec<u32>, places: usize)
    requires { places ≤ vec_capacity counts.old }
    ensures size { length counts.new.items ≡ places }
    ensures kept { (i : ℕ) → i < places → i < length counts.old.items →
        slice_index counts.new.items i ≡ slice_index counts.old.items i }
    ensures room { vec_capacity counts.old ≤ vec_capacity counts.new }
{
    let _ = counts.resize(places, 0);
}

/// Makes them that many marks, and keeps their memory: none is taken, and this can't fail.
pub fn fit_marks(marks: &mut Vec<Option<u64>>, places: usize)
    requires { places ≤ vec_capacity marks.old }
    ensures size { length marks.new.items ≡ places }
    ensures room { vec_capacity marks.old ≤ vec_capacity marks.new }
{
    let _ = marks.resize(places, None);
}
