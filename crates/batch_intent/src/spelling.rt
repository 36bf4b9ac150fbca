//! The spelling of items, read and written.

ghost use Rattle.std.specs.Prelude.{◌≡◌, ℕ, suc, ◌+◌, ◌<◌, ◌≤◌, ◌∷◌, ◌++◌, length, T};
ghost use Rattle.std.specs.Str.{bytes_eq};
ghost use Rattle.station.specs.Bytes.{byte, InRange, SameBut};
ghost use Rattle.batch_intent.specs.declared.places.TheConstants.{INTENT_SIZE};
ghost use Rattle.key_slot.specs.declared.sizes.TheConstants.{MAX_KEY_LEN, MAX_VALUE_LEN};
ghost use Rattle.map_model.specs.Store.{key_of};
ghost use Rattle.map_model.specs.ItemWords.{has_item};
ghost use Rattle.batch_intent.specs.ItemView.{update_of};
ghost use Rattle.batch_intent.specs.Spelling as spelling;
ghost use Rattle.batch_intent.specs.Spelling.{item_bytes, has_sizes, key_field, after_item, place_from};

use crate::item::Item;
use crate::places::INTENT_SIZE;
use key_slot::{Key, Value};

// The first byte of a put. It isn't 0, so zeros that were never written spell no item.
pub(crate) const PUT: u8 = 1;

// The first byte of a remove, likewise.
pub(crate) const REMOVE: u8 = 2;

// The bytes of an item before its key: what it is, and the lengths of key and value.
pub(crate) const HEAD: usize = 3;

// The place behind the item that stands at `p`.
pub(crate) fn place_behind(bytes: &[u8; INTENT_SIZE], p: usize) -> usize
    requires { p + 3 ≤ INTENT_SIZE }
    ensures { result ≡ after_item bytes.now p }
{
    p + HEAD + bytes[p + 1] as usize + bytes[p + 2] as usize
}

// The place of item `i`.
fn place_of(bytes: &[u8; INTENT_SIZE], i: u32) -> usize
    requires { place_from bytes.now i 1 ≤ INTENT_SIZE }
    ensures { result ≡ place_from bytes.now i 1 }
{
    let mut p = 1;
    for _j in 0..i {
        p = place_behind(bytes, p);
    }
    p
}

// Whether one of the items has the key.
pub(crate) fn find_item(bytes: &[u8; INTENT_SIZE], key: Key) -> bool
    requires { place_from bytes.now (byte bytes.now 0) 1 ≤ INTENT_SIZE }
    ensures { result ≡ has_item key (spelling.items_in bytes.now) }
{
    let mut p = 1;
    for _j in 0..bytes[0] {
        if has_key(bytes, p, &key) {
            return true;
        }
        p = place_behind(bytes, p);
    }
    false
}

// Whether the item that stands at `p` has the key.
fn has_key(bytes: &[u8; INTENT_SIZE], p: usize, key: &Key) -> bool
    requires { after_item bytes.now p ≤ INTENT_SIZE }
    ensures { result ≡ bytes_eq key.now (key_field bytes.now p) }
{
    let value_at = p + HEAD + bytes[p + 1] as usize;
    key.as_bytes() == &bytes[p + HEAD..value_at]
}

// Item `i`.
pub(crate) fn read_item(bytes: &[u8; INTENT_SIZE], i: u32) -> Item
    requires there { place_from bytes.now (suc i) 1 ≤ INTENT_SIZE }
    requires sizes { T (has_sizes MAX_KEY_LEN MAX_VALUE_LEN (spelling.item_at bytes.now (place_from bytes.now i 1))) }
    ensures { update_of result ≡ spelling.item_at bytes.now (place_from bytes.now i 1) }
{
    item_at(bytes, place_of(bytes, i))
}

// The item that stands at `p`.
pub(crate) fn item_at(bytes: &[u8; INTENT_SIZE], p: usize) -> Item
    requires within { after_item bytes.now p ≤ INTENT_SIZE }
    requires sizes { T (has_sizes MAX_KEY_LEN MAX_VALUE_LEN (spelling.item_at bytes.now p)) }
    ensures { update_of result ≡ spelling.item_at bytes.now p }
{
    let value_at = p + HEAD + bytes[p + 1] as usize;
    let Ok(key) = Key::from_bytes(&bytes[p + HEAD..value_at]) else {
        unreachable!()
    };
    if bytes[p] != PUT {
        return Item::Remove(key);
    }
    let Ok(value) = Value::from_bytes(&bytes[value_at..value_at + bytes[p + 2] as usize]) else {
        unreachable!()
    };
    Item::Put(key, value)
}

// Writes the spelling of an item to a place.
pub(crate) fn write_item(bytes: &mut [u8; INTENT_SIZE], at: usize, item: &Item)
    requires { at + length (item_bytes (update_of item.now)) ≤ INTENT_SIZE }
    ensures written { (k : ℕ) → k < length (item_bytes (update_of item.now)) →
        byte bytes.new (at + k) ≡ byte (item_bytes (update_of item.now)) k }
    ensures rest { SameBut (InRange at (length (item_bytes (update_of item.now)))) bytes.old bytes.new }
{
    match item {
        Item::Put(key, value) => write_fields(bytes, at, PUT, key.as_bytes(), value.as_bytes()),
        Item::Remove(key) => write_fields(bytes, at, REMOVE, key.as_bytes(), &[]),
    }
}

// Writes a first byte, the sizes of key and value, and these two.
fn write_fields(bytes: &mut [u8; INTENT_SIZE], at: usize, kind: u8, key: &[u8], value: &[u8])
    requires room { at + (3 + (length key.now + length value.now)) ≤ INTENT_SIZE }
    requires key { length key.now ≤ MAX_KEY_LEN }
    requires value { length value.now ≤ MAX_VALUE_LEN }
    ensures written { (k : ℕ) → k < 3 + (length key.now + length value.now) →
        byte bytes.new (at + k) ≡ byte (kind ∷ length key.now ∷ length value.now ∷ (key.now ++ value.now)) k }
    ensures rest { SameBut (InRange at (3 + (length key.now + length value.now))) bytes.old bytes.new }
{
    let head = [kind, key.len() as u8, value.len() as u8];
    put_bytes(bytes, at, &head);
    put_bytes(bytes, at + HEAD, key);
    put_bytes(bytes, at + HEAD + key.len(), value);
}

// Copies a part to a place.
fn put_bytes(bytes: &mut [u8; INTENT_SIZE], at: usize, part: &[u8])
    requires { at + length part.now ≤ INTENT_SIZE }
    ensures written { (k : ℕ) → k < length part.now → byte bytes.new (at + k) ≡ byte part.now k }
    ensures rest { SameBut (InRange at (length part.now)) bytes.old bytes.new }
{
    bytes[at..at + part.len()].copy_from_slice(part);
}
