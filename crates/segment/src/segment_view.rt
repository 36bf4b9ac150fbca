//! The rows of a segment where they lie: bytes that were validated, neither copied nor zeroed.

ghost use Rattle.std.specs.Prelude.{◌≡◌, ◌≢◌, ℕ, ◌-◌, ◌<◌, ◌≤◌, ◌↔◌, Some, None, length, slice_get, IfOk, IfErr, IfSome, IfNone, IsOk, IsNone, IsSome};
ghost use Rattle.std.specs.Option.{option_map};
ghost use Rattle.key_slot.specs.Format.{HasFormat, format_of};
ghost use Rattle.key_slot.specs.Record.{Bytes, key_cmp, IsAscending};
ghost use Rattle.key_slot.specs.Row.{record_of};
ghost use Rattle.key_slot.specs.Segment.{IsSegment, first_bad_slot, segment_of};
ghost use Rattle.segment.specs.Validated.{damage_of};
ghost use Rattle.segment.specs.Fields.{IsWhole, row_in};
ghost use Rattle.segment.specs.Rows.{key_at, value_at, value_of, IsGap, BeginsAt};

use super::counted::count_rows;
use super::fault::{BadSegment, Damage, StoreFault};
use super::segment::Segment;
use super::slot::{Slot, narrow_fields, wide_fields};
use super::validating::validate_kept;
use key_slot::{
    Key, Row, SEGMENT_SIZE, SEGMENT_SLOTS, SLOT_SIZE, compare_key, key_of, row_of, value_bytes,
};
use slot_wide::{WIDE_SIZE, compare_wide_key, wide_key_of, wide_row_of, wide_value_bytes};
use std::cmp::Ordering;
use std::marker::Model;

/// The bytes of a segment of either format, which were validated, with the number of its rows. A place counts rows from 0.
#[derive(Drop)]
pub struct SegmentView<'a> {
    bytes: &'a [u8],
    len: usize,
}

impl<'a> Model for SegmentView<'a> {
    ghost use Rattle.std.specs.Prelude.{List};
    ghost use Rattle.key_slot.specs.Format.{format_of};
    ghost use Rattle.key_slot.specs.Record.{Record};
    ghost use Rattle.key_slot.specs.Segment.{segment_of};
    ghost use Rattle.segment.specs.Viewed.{IsValidated};

    ghost Value = { List Record };

    ghost view = { λ v. segment_of (format_of v.bytes.now) v.bytes.now };

    ghost invariant = { λ v. IsValidated v.len v.bytes.now };
}

impl<'a> SegmentView<'a> {
    /// The rows of 4096 bytes of format 1, or of 8192 of format 2. It fails if a slot is bad, and names the first
    /// one: a slot that spells nothing, or a row behind an empty slot or behind a key that isn't below its own.
    pub fn decode(bytes: &'a [u8]) -> Result<SegmentView<'a>, BadSegment>
        requires { HasFormat bytes.now }
        // On Ok the bytes are the one spelling of the rows that it answers, in the format of their length.
        ensures ok { IfOk result (λ rows. IsSegment (format_of bytes.now) rows bytes.now) }
        // It fails exactly if a slot is bad, and names the first such slot, counted from 0.
        ensures bad { IfErr result (λ error. first_bad_slot (format_of bytes.now) bytes.now ≡ Some error.slot) }
    {
        let count = count_rows(bytes)?;
        Ok(SegmentView::again(bytes, count))
    }

    /// The rows of 4096 or 8192 bytes that a store has read as its segment of this number, for which it keeps `kept` rows.
    ///
    /// It fails if the bytes are no segment, and names the first bad slot; else if they have another number of
    /// rows, and names both numbers.
    pub fn validate(bytes: &'a [u8], segment: u32, kept: u32) -> Result<SegmentView<'a>, StoreFault>
        requires { HasFormat bytes.now }
        // On Ok the bytes are the one spelling of the rows that it answers, in the format of their length, `kept` in number.
        ensures rows { IfOk result (λ rows. IsSegment (format_of bytes.now) rows bytes.now) }
        ensures count { IfOk result (λ rows. length rows ≡ kept) }
        // It fails exactly if a slot is bad, or else if the number of rows isn't `kept`. It names the segment, and the first
        // bad slot or both numbers.
        ensures damage { IfErr result (λ fault. (why : Damage) × (damage_of (format_of bytes.now) bytes.now kept ≡ Some why) ×
            (fault ≡ StoreFault.Damaged segment why)) }
        // If it names two numbers of rows, the second one is `kept`, and the first differs.
        ensures other { (found other : ℕ) → result ≡ Err (StoreFault.Damaged segment (Damage.OtherCount found other)) →
            (other ≡ kept) × (found ≢ kept) }
    {
        validate_kept(bytes, segment, kept)?;
        Ok(SegmentView::again(bytes, kept))
    }

    /// The rows of bytes that were validated before, with their number, for a caller that keeps both. Nothing is read.
    #[inline(always)]
    pub fn again(bytes: &'a [u8], count: u32) -> SegmentView<'a>
        requires format { HasFormat bytes.now }
        requires sound { IsSegment (format_of bytes.now) (segment_of (format_of bytes.now) bytes.now) bytes.now }
        requires count { length (segment_of (format_of bytes.now) bytes.now) ≡ count }
        ensures { result ≡ segment_of (format_of bytes.now) bytes.now }
    {
        SegmentView {
            bytes,
            len: count as usize,
        }
    }

    /// Puts the rows in place of those of a segment, which may be edited then. They aren't validated again.
    pub fn copy_into(&self, rows: &mut Segment)
        ensures { rows.new ≡ self.now }
    {
        rows.take_over(self.bytes, self.len as u32);
    }

    /// The number of rows, at most 64.
    #[inline(always)]
    pub fn len(&self) -> u32
        ensures len { result ≡ length self.now }
        ensures most { length self.now ≤ SEGMENT_SLOTS }
        // The keys of the rows ascend strictly.
        ensures ascending { IsAscending self.now }
    {
        self.len as u32
    }

    /// The slot of the row at place `i`, by its whole fields.
    #[inline(always)]
    pub fn slot(&self, i: u32) -> Slot<'a>
        requires { i < length self.now }
        // Its fields are whole: 24 and 32 bytes in format 1, 40 and 80 in format 2, with zeros behind what the row has of them.
        ensures whole { IsWhole result }
        // What stands in front of the zeros is the row at the place.
        ensures row { slice_get self.now i ≡ Some (row_in result) }
    {
        let bytes = self.bytes;
        if bytes.len() == SEGMENT_SIZE {
            let (slots, _) = bytes.as_chunks::<SLOT_SIZE>();
            Slot::Narrow(narrow_fields(&slots[i as usize]))
        } else {
            let (slots, _) = bytes.as_chunks::<WIDE_SIZE>();
            Slot::Wide(wide_fields(&slots[i as usize]))
        }
    }

    /// The bytes of the value at place `i`, where they lie.
    #[inline(always)]
    pub fn value_bytes(&self, i: u32) -> &'a [u8]
        requires { i < length self.now }
        ensures { value_at self.now i ≡ Some result.now }
    {
        let bytes = self.bytes;
        if bytes.len() == SEGMENT_SIZE {
            let (slots, _) = bytes.as_chunks::<SLOT_SIZE>();
            value_bytes(&slots[i as usize])
        } else {
            let (slots, _) = bytes.as_chunks::<WIDE_SIZE>();
            wide_value_bytes(&slots[i as usize])
        }
    }

    /// The row at place `i`.
    pub fn row(&self, i: u32) -> Row
        requires { i < length self.now }
        ensures { slice_get self.now i ≡ Some (record_of result) }
    {
        let bytes = self.bytes;
        if bytes.len() == SEGMENT_SIZE {
            let (slots, _) = bytes.as_chunks::<SLOT_SIZE>();
            row_of(&slots[i as usize])
        } else {
            let (slots, _) = bytes.as_chunks::<WIDE_SIZE>();
            wide_row_of(&slots[i as usize])
        }
    }

    /// The key at place `i`.
    pub fn key(&self, i: u32) -> Key
        requires { i < length self.now }
        ensures { key_at self.now i ≡ Some result }
    {
        let bytes = self.bytes;
        if bytes.len() == SEGMENT_SIZE {
            let (slots, _) = bytes.as_chunks::<SLOT_SIZE>();
            key_of(&slots[i as usize])
        } else {
            let (slots, _) = bytes.as_chunks::<WIDE_SIZE>();
            wide_key_of(&slots[i as usize])
        }
    }

    /// The place of a key, or in `Err` the place where it would stand.
    pub fn find(&self, key: &Key) -> Result<u32, u32>
        ensures ok { IfOk result (λ place. key_at self.now place ≡ Some key.now) }
        ensures err { IfErr result (λ place. IsGap self.now place key.now) }
        // It is Ok exactly if the key is there.
        ensures when { IsOk result ↔ IsSome (value_of key.now self.now) }
    {
        let mut low = 0;
        let mut high = self.len as u32;
        while low < high {
            let middle = (low + high) / 2;
            match self.compare(middle, key) {
                Ordering::Less => low = middle + 1,
                Ordering::Greater => high = middle,
                Ordering::Equal => return Ok(middle),
            }
        }
        Err(low)
    }

    /// The bytes of the value that is bound to a key, where they lie, or None if the key isn't there.
    pub fn value(&self, key: &Key) -> Option<&'a [u8]>
        ensures some { IfSome result (λ value. value_of key.now self.now ≡ Some value.now) }
        ensures none { IfNone result (value_of key.now self.now ≡ None) }
    {
        let _ = &self.bytes;
        match self.find(key) {
            Ok(place) => Some(self.value_bytes(place)),
            Err(_) => None,
        }
    }

    /// The place where the rows from a bound on begin: the first whose key isn't below it, or behind all.
    pub fn place_from(&self, low: &Key) -> u32
        ensures { BeginsAt self.now result low.now }
    {
        let _ = &self.bytes;
        match self.find(low) {
            Ok(place) => place,
            Err(place) => place,
        }
    }

    /// The least key, or None if there is no row.
    pub fn first_key(&self) -> Option<Key>
        ensures key { result ≡ key_at self.now 0 }
        ensures none { IsNone result ↔ (length self.now ≡ 0) }
    {
        if self.len == 0 {
            return None;
        }
        Some(self.key(0))
    }

    /// The greatest key, or None if there is no row.
    pub fn last_key(&self) -> Option<Key>
        ensures key { result ≡ key_at self.now (length self.now - 1) }
        ensures none { IsNone result ↔ (length self.now ≡ 0) }
    {
        if self.len == 0 {
            return None;
        }
        Some(self.key(self.len as u32 - 1))
    }

    /// How the key at a place compares with a key, in the order of keys.
    #[inline(always)]
    pub fn compare(&self, place: u32, key: &Key) -> Ordering
        requires { place < length self.now }
        ensures { (there : Bytes) → key_at self.now place ≡ Some there → result ≡ key_cmp there key.now }
    {
        let bytes = self.bytes;
        if bytes.len() == SEGMENT_SIZE {
            let (slots, _) = bytes.as_chunks::<SLOT_SIZE>();
            compare_key(&slots[place as usize], key)
        } else {
            let (slots, _) = bytes.as_chunks::<WIDE_SIZE>();
            compare_wide_key(&slots[place as usize], key)
        }
    }
}
