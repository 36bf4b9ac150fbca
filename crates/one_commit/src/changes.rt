//! What the items of a batch would change.

ghost use Rattle.std.specs.Prelude.{◌≡◌, List, Some, IfOk, IfSome, is_ok};
ghost use Rattle.key_slot.specs.Record.{IsAscending};
ghost use Rattle.map_model.specs.Store.{Update, key_of};
ghost use Rattle.map_model.specs.Array.{Array, segment_at, segment_for};
ghost use Rattle.segment.specs.Rows.{key_at};
ghost use Rattle.one_commit.specs.Fitting.{is_put, change_before, kind_in, kind_of, with_change};
ghost use Rattle.one_commit.specs.declared.changes.ItemChange.{ItemChange as OneChange};

use window_tally::Change;

/// An item that adds a record to a segment, or takes one from it.
#[derive(Clone, Copy)]
pub struct ItemChange {
    /// The segment to which its key belongs before any item is made.
    pub segment: u32,
    pub change: Change,
    /// Whether it takes the first record of the segment.
    pub first: bool,
}

/// What an item changes, a put or a removal, where a search of the segment to which its key belongs has found the key, or
/// the place where it would stand.
pub fn change_of(puts: bool, segment: u32, found: Result<u32, u32>) -> Option<ItemChange>
    // A change is one of that segment.
    ensures segment { IfSome result (λ change. change.segment ≡ segment) }
    // A put of a key that wasn't found adds a record, and the removal of one that was takes one; a put of a key that was found
    // and the removal of one that wasn't are no change.
    ensures kind { kind_in result ≡ kind_of puts (is_ok found) }
    // It is the item's, if its key belongs to the segment, whose keys ascend, and stands at the place found, where that is Ok:
    // none for a put of a key that was found or the removal of one that was not, else a record more, or one less and whether that
    // is the first.
    ensures change { (segments : Array) (u : Update) (more : List OneChange) → is_put u ≡ puts →
        segment_for segments (key_of u) ≡ segment → IsAscending (segment_at segments segment) →
        IfOk found (λ place. key_at (segment_at segments segment) place ≡ Some (key_of u)) →
        change_before (is_ok found) segments u more ≡ with_change result more }
{
    match (puts, found) {
        (true, Err(_)) => Some(ItemChange {
            segment,
            change: Change::Add,
            first: false,
        }),
        (false, Ok(place)) => Some(ItemChange {
            segment,
            change: Change::Take,
            first: place == 0,
        }),
        (true, Ok(_)) => None,
        (false, Err(_)) => None,
    }
}
