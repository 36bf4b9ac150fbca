//! Intents: the items of a batch, as the file has them.

ghost use Rattle.std.specs.Prelude.{◌≡◌, ◌+◌, ◌<◌, [], ◌∷◌, ◌++◌, length, slice_index_or, MatchResult, T, Some, None};
ghost use Rattle.std.specs.List.{list_all};
ghost use Rattle.map_model.specs.Store.{Update};
ghost use Rattle.batch_intent.specs.ItemView.{update_of};
ghost use Rattle.batch_intent.specs.Spelling.{IsIntent, intent_bytes, has_sizes};
ghost use Rattle.batch_intent.specs.Pushing.{push_fault};
ghost use Rattle.key_slot.specs.declared.sizes.TheConstants.{MAX_KEY_LEN, MAX_VALUE_LEN};

use crate::item::Item;
use crate::places::INTENT_SIZE;
use crate::spelling::{find_item, read_item, write_item};
use std::marker::Model;

/// The most items that a batch may have. The 512 bytes of an intent leave 31 for each: two short words and what is said of them.
pub const MOST_ITEMS: u32 = 16;

/// The items of a batch, no two of them with one key. They are kept as the file has them.
#[derive(Clone, Copy, PartialEq, Eq)]
pub struct Intent {
    // The number of items and their spelling, with zeros behind it.
    bytes: [u8; INTENT_SIZE],
    // Where the spelling ends.
    end: usize,
}

impl Model for Intent {
    ghost use Rattle.std.specs.Prelude.{List, length};
    ghost use Rattle.key_slot.specs.Padded.{padded};
    ghost use Rattle.batch_intent.specs.declared.places.TheConstants.{INTENT_SIZE};
    ghost use Rattle.map_model.specs.Store.{Update};
    ghost use Rattle.batch_intent.specs.Spelling.{intent_bytes, items_in};
    ghost use Rattle.batch_intent.specs.Keeping.{bytes_back, end_back};

    ghost Value = { List Update };

    ghost use Rattle.batch_intent.specs.IntentFields.{view_of, IsKept};

    ghost view = { view_of };

    ghost invariant = { IsKept };

    ghost inverse = { λ items. record { bytes = padded INTENT_SIZE (intent_bytes items); end = length (intent_bytes items) } };

    ghost inverse_ok = { λ a h i. record { bytes = bytes_back (items_in a.bytes) a.bytes a.end h i; end = end_back (items_in a.bytes) a.bytes a.end h i } };
}

/// Why an intent takes no further item.
#[derive(Clone, Copy, Debug, PartialEq, Eq)]
pub enum IntentFault {
    /// It has 16 items.
    TooMany,
    /// One of its items has the key.
    Repeated,
    /// Its spelling would have more than 512 bytes.
    TooLong,
}

impl Intent {
    /// No items.
    pub fn new() -> Intent
        ensures { result ≡ [] }
    {
        Intent {
            bytes: [0; INTENT_SIZE],
            end: 1,
        }
    }

    /// Adds an item behind the others.
    ///
    /// It is refused if there are 16, else if one has the key, else if the spelling would have more than 512 bytes;
    /// then nothing changes.
    pub fn push(&mut self, item: Item) -> Result<(), IntentFault>
        // An item that is taken is the last one. Else nothing changes, and the fault is the first that holds: 16 items are there,
        // one has the key, the spelling would have more than 512 bytes.
        ensures outcome { MatchResult result
            (λ _. (push_fault self.old (update_of item) ≡ None) × (self.new ≡ self.old ++ update_of item ∷ []))
            (λ fault. (push_fault self.old (update_of item) ≡ Some fault) × (self.new ≡ self.old)) }
        // There are at most 16 items, no key twice, with a spelling of at most 512 bytes.
        ensures intent { IsIntent self.new }
    {
        let count = self.bytes[0];
        if u32::from(count) >= MOST_ITEMS {
            return Err(IntentFault::TooMany);
        }
        if find_item(&self.bytes, item.key()) {
            return Err(IntentFault::Repeated);
        }
        let end = self.end + item.len();
        if end > INTENT_SIZE {
            return Err(IntentFault::TooLong);
        }
        write_item(&mut self.bytes, self.end, &item);
        self.bytes[0] = count + 1;
        self.end = end;
        Ok(())
    }

    /// How many items there are.
    pub fn len(&self) -> u32
        ensures count { result ≡ length self.now }
        // There are at most 16 items, no key twice, with a spelling of at most 512 bytes.
        ensures intent { IsIntent self.now }
        // Each key has 1 to 40 bytes, and each value at most 80.
        ensures sizes { T (list_all (has_sizes MAX_KEY_LEN MAX_VALUE_LEN) self.now) }
    {
        self.bytes[0].into()
    }

    /// Item `i`, counted from 0.
    pub fn item(&self, i: u32) -> Item
        requires { i < length self.now }
        ensures { (d : Update) → update_of result ≡ slice_index_or self.now i d }
    {
        read_item(&self.bytes, i)
    }

    /// The spelling of the items.
    pub(crate) fn spelling(&self) -> &[u8]
        ensures bytes { result.now ≡ intent_bytes self.now }
        ensures intent { IsIntent self.now }
    {
        &self.bytes[..self.end]
    }
}
