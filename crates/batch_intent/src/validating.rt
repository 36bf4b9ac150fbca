//! The bytes of an intent validated, and taken over.

ghost use Rattle.std.specs.Prelude.{◌≡◌, ◌+◌, ◌<◌, ◌≤◌, [], ◌∷◌, ◌++◌, ◌&&◌, not, true, length, IfOk, IfErr, Some, None};
ghost use Rattle.batch_intent.specs.declared.places.TheConstants.{INTENT_SIZE};
ghost use Rattle.header_gate.specs.Places.{IsSlotFormat};
ghost use Rattle.map_model.specs.ItemWords.{has_item};
ghost use Rattle.batch_intent.specs.declared.intent.TheConstants.{MOST_ITEMS};
ghost use Rattle.batch_intent.specs.Spelling as spelling;
ghost use Rattle.batch_intent.specs.Spelling.{intent_bytes, key_field, after_item, items_in};
ghost use Rattle.batch_intent.specs.IntentReasons.{is_item, wrong_place};

use crate::intent::{Intent, MOST_ITEMS};
use crate::places::INTENT_SIZE;
use crate::spelling::{HEAD, PUT, REMOVE, item_at, place_behind};
use key_slot::{key_room, value_room};

// The intent that the bytes hold, or the place of the first thing in them that is wrong: their number of items, at place 0,
// or an item.
pub(crate) fn validate_intent(bytes: &[u8; INTENT_SIZE], format: u32) -> Result<Intent, u32>
    requires format { IsSlotFormat format }
    ensures items { IfOk result (λ intent. intent ≡ items_in bytes.now) }
    ensures right { IfOk result (λ intent. wrong_place format bytes.now ≡ None) }
    ensures refused { IfErr result (λ place. wrong_place format bytes.now ≡ Some place) }
    ensures within { IfErr result (λ place. place ≤ INTENT_SIZE) }
{
    let count = bytes[0];
    if count == 0 || u32::from(count) > MOST_ITEMS {
        return Err(0);
    }
    let mut intent = Intent::new();
    let mut p = 1;
    for _j in 0..count {
        if !take_item(bytes, p, format, &mut intent) {
            return Err(p as u32);
        }
        p = place_behind(bytes, p);
    }
    Ok(intent)
}

// Adds the item that stands at `p` to those before it, unless it is wrong.
fn take_item(bytes: &[u8; INTENT_SIZE], p: usize, format: u32, intent: &mut Intent) -> bool
    requires format { IsSlotFormat format }
    requires place { p ≤ INTENT_SIZE }
    requires few { length intent.old < MOST_ITEMS }
    requires end { length (intent_bytes intent.old) ≡ p }
    ensures right { result ≡ (is_item format bytes.now p && not (has_item (key_field bytes.now p) intent.old)) }
    ensures taken { result ≡ true → intent.new ≡ intent.old ++ spelling.item_at bytes.now p ∷ [] }
    ensures end { result ≡ true → length (intent_bytes intent.new) ≡ after_item bytes.now p }
    ensures within { result ≡ true → after_item bytes.now p ≤ INTENT_SIZE }
{
    if !stands_at(bytes, p, format) {
        return false;
    }
    intent.push(item_at(bytes, p)).is_ok()
}

// Whether an item of the format stands at `p`.
fn stands_at(bytes: &[u8; INTENT_SIZE], p: usize, format: u32) -> bool
    requires format { IsSlotFormat format }
    requires place { p ≤ INTENT_SIZE }
    ensures { result ≡ is_item format bytes.now p }
{
    if p + HEAD > INTENT_SIZE {
        return false;
    }
    let key_len = bytes[p + 1] as usize;
    let value_len = bytes[p + 2] as usize;
    if bytes[p] != PUT && (bytes[p] != REMOVE || value_len != 0) {
        return false;
    }
    let format = format as usize;
    if key_len == 0 || key_len > key_room(format) || value_len > value_room(format) {
        return false;
    }
    p + HEAD + key_len + value_len <= INTENT_SIZE
}
