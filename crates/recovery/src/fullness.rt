//! Whether items have room in a store, told before any of them is made.

ghost use Rattle.std.specs.Prelude.{◌≡◌, ℕ, ◌+◌, ◌≤◌, ◌^◌, IfSome};
ghost use Rattle.map_model.specs.Items.{first_full};
ghost use Rattle.map_model.specs.Store.{Map};
ghost use Rattle.batch_intent.specs.ItemView.{update_of};
ghost use Rattle.recovery.specs.Intents.{puts_in, meets_by, records_by, place_among, IsCounted};

use batch_intent::{Intent, Item, MOST_ITEMS};

/// For each item a flag, and an intent has no more items.
pub(crate) const FLAGS: usize = MOST_ITEMS as usize;

/// The place in the intent of the first item that meets a full store of `most` records, if one does, by which of the items
/// find their keys in a store of that many records. No item changes another's key.
pub(crate) fn full_place(
    intent: &Intent,
    there: &[bool; FLAGS],
    records: u32,
    most: u32,
) -> Option<u32>
    requires { records ≤ 2 ^ 31 }
    ensures full { (limit : ℕ) (m : Map) → IsCounted limit m intent.now there.now records most →
        result ≡ place_among intent.now (first_full limit m intent.now) }
    ensures low { IfSome result (λ place. place ≤ 2 ^ 16) }
{
    let mut records = records;
    let mut place = 1;
    for i in 0..intent.len() {
        let item = intent.item(i);
        let present = there[i as usize];
        if meets_full(&item, present, records, most) {
            return Some(place);
        }
        records = records_behind(&item, present, records);
        place += item.len() as u32;
    }
    None
}

// Whether an item meets a full store.
fn meets_full(item: &Item, present: bool, records: u32, most: u32) -> bool
    ensures { result ≡ meets_by (update_of item.now) present records most }
{
    match item {
        Item::Put(_, _) => !(present || records < most),
        Item::Remove(_) => false,
    }
}

// The number of records behind an item that has room.
fn records_behind(item: &Item, present: bool, records: u32) -> u32
    requires { records ≤ 2 ^ 31 + 15 }
    ensures { result ≡ records_by (update_of item.now) present records }
{
    match item {
        Item::Put(_, _) => { if present { records } else { records + 1 } }
        Item::Remove(_) => {
            if present {
                records.saturating_sub(1)
            } else {
                records
            }
        }
    }
}

/// How many of the items are puts.
pub(crate) fn count_puts(intent: &Intent) -> u32
    ensures count { result ≡ puts_in intent.now }
    ensures most { result ≤ 16 }
{
    let mut puts = 0;
    for i in 0..intent.len() {
        if intent.item(i).is_put() {
            puts += 1;
        }
    }
    puts
}
