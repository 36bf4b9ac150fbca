//! The items of a batch.

ghost use Rattle.std.specs.Prelude.{◌≡◌, ◌≤◌, ◌<◌, ◌+◌, ◌*◌, ℕ, true, false, List, ◌∷◌, length, MatchOption, option_copied, Some};
ghost use Rattle.std.specs.List.{list_all};
ghost use Rattle.percent_encoding.specs.Percent.{percent_decode};
ghost use Rattle.key_slot.specs.Format.{wide};
ghost use Rattle.map_model.specs.Store.{Update};
ghost use Rattle.batch_intent.specs.ItemView.{update_of};
ghost use Rattle.batch_intent.specs.Spelling.{item_bytes};
ghost use Rattle.batch_intent.specs.declared.places.TheConstants.{INTENT_SIZE};
ghost use Rattle.command_text.specs.Words.{words};
ghost use Rattle.command_text.specs.BatchForm.{is_separator, parts, is_item_form, is_batch_form, items_of, first_oversized, if_sized, batch_by_form};
ghost use Rattle.command_text.specs.BatchWords.{item_read, BeginsWith, BeginsWithValue, IsItemWord, IsItemEnd, EndsItem};

use super::command::{Command, Why};
use super::words::{decoded_len, next_word, read_key, read_value};
use batch_intent::{INTENT_SIZE, Intent, Item, MOST_ITEMS};

// The words of an item. No value's word is no bytes.
#[derive(Clone, Copy)]
pub(crate) struct ItemWords<'a> {
    // Whether its name is `put`, and not `remove`.
    puts: bool,
    key: &'a [u8],
    value: &'a [u8],
    // What follows the `;` behind it, if there is one.
    behind: Option<&'a [u8]>,
}

// What follows `batch`.
pub(crate) fn read_batch(rest: &[u8], format: u32, command: &mut Command)
    requires { format ≤ wide }
    ensures { command.new ≡ batch_by_form format (words rest.now) }
{
    if has_form(rest) {
        read_items(rest, format, command);
    } else {
        *command = Command::Bad(Why::Words);
    }
}

// Whether these are the words of a batch.
fn has_form(rest: &[u8]) -> bool
    ensures { result ≡ is_batch_form (words rest.now) }
{
    let mut left = rest;
    let mut size = 1;
    for _i in 0..MOST_ITEMS {
        let Some(item) = next_item(left) else {
            return false;
        };
        let Some(more) = item_size(&item) else {
            return false;
        };
        size += more;
        if size > INTENT_SIZE {
            return false;
        }
        let Some(behind) = item.behind else {
            return true;
        };
        left = behind;
    }
    false
}

// The batch of these items, or its refusal.
fn read_items(rest: &[u8], format: u32, command: &mut Command)
    requires format { format ≤ wide }
    requires form { is_batch_form (words rest.now) ≡ true }
    ensures { command.new ≡ if_sized (first_oversized format (items_of (words rest.now))) (items_of (words rest.now)) }
{
    let mut left = rest;
    let mut intent = Intent::new();
    let mut repeated = false;
    for _i in 0..MOST_ITEMS {
        let Some(words) = next_item(left) else {
            unreachable!()
        };
        let Some(item) = read_item(&words, format, command) else {
            return;
        };
        repeated |= intent.push(item).is_err();
        let Some(behind) = words.behind else {
            if repeated {
                *command = Command::RepeatedKey;
            } else {
                *command = Command::Batch(intent);
            }
            return;
        };
        left = behind;
    }
    unreachable!()
}

// The words of the first item, unless they are no item's.
fn next_item(bytes: &[u8]) -> Option<ItemWords<'_>>
    ensures { MatchOption result (list_all is_item_form (parts (words bytes.now)) ≡ false)
        (λ item. BeginsWith (words bytes.now) item.puts item.key.now item.value.now (option_copied item.behind)) }
{
    let (name, after_name) = item_word(bytes)?;
    let (key, after_key) = item_word(after_name)?;
    let puts = name == b"put".as_slice();
    if !puts && name != b"remove".as_slice() {
        return None;
    }
    let (value, after_value) = value_word(puts, after_key);
    let behind = item_end(after_value)?;
    Some(ItemWords {
        puts,
        key,
        value,
        behind,
    })
}

// The next word of an item and what follows it: no word is left, or a `;` stands in front of the others.
fn item_word(bytes: &[u8]) -> Option<(&[u8], &[u8])>
    ensures { MatchOption result (EndsItem (words bytes.now))
        (λ p. IsItemWord (words bytes.now) p.0.now (words p.1.now)) }
{
    let (word, rest) = next_word(bytes)?;
    if word == b";".as_slice() {
        return None;
    }
    Some((word, rest))
}

// The word of a put's value and what follows it; no bytes if there is none.
fn value_word(puts: bool, bytes: &[u8]) -> (&[u8], &[u8])
    ensures { BeginsWithValue puts (words bytes.now) result.0.now (words result.1.now) }
{
    if !puts {
        return (&[], bytes);
    }
    match item_word(bytes) {
        Some(found) => found,
        None => (&[], bytes),
    }
}

// What follows the `;` behind an item, or that there is none, unless another word stands there.
fn item_end(bytes: &[u8]) -> Option<Option<&[u8]>>
    ensures { MatchOption result ((w : List ℕ) × (rest : List (List ℕ)) × IsItemWord (words bytes.now) w rest)
        (λ behind. IsItemEnd (words bytes.now) (option_copied behind)) }
{
    let Some((word, rest)) = next_word(bytes) else {
        return Some(None);
    };
    if word == b";".as_slice() {
        return Some(Some(rest));
    }
    None
}

// How many bytes the spelling of an item has, unless its key or its value alone has too many for an intent.
fn item_size(item: &ItemWords<'_>) -> Option<usize>
    ensures { MatchOption result (INTENT_SIZE < length (item_bytes (item_read item.now.puts item.now.key.now item.now.value.now)))
        (λ size. (size ≡ length (item_bytes (item_read item.now.puts item.now.key.now item.now.value.now))) × (size ≤ 3 + 2 * INTENT_SIZE)) }
{
    let key = decoded_len(item.key, INTENT_SIZE)?;
    if !item.puts {
        return Some(3 + key);
    }
    let value = decoded_len(item.value, INTENT_SIZE)?;
    Some(3 + key + value)
}

// The item of these words, unless its key or value is refused: then the command becomes the refusal.
fn read_item(words: &ItemWords<'_>, format: u32, command: &mut Command) -> Option<Item>
    requires key { 0 < length words.now.key.now }
    requires format { format ≤ wide }
    ensures { MatchOption result
        ((us : List Update) → first_oversized format (item_read words.now.puts words.now.key.now words.now.value.now ∷ us) ≡ Some command.new)
        (λ item. (update_of item ≡ item_read words.now.puts words.now.key.now words.now.value.now)
        × ((us : List Update) → first_oversized format (item_read words.now.puts words.now.key.now words.now.value.now ∷ us) ≡ first_oversized format us)) }
{
    let Some(key) = read_key(words.key, format) else {
        *command = Command::OversizedKey;
        return None;
    };
    if !words.puts {
        return Some(Item::Remove(key));
    }
    let Some(value) = read_value(words.value, format) else {
        *command = Command::OversizedValue;
        return None;
    };
    Some(Item::Put(key, value))
}
