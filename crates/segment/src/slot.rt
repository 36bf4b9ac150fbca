//! The slot of a row, by its whole fields.

ghost use Rattle.std.specs.Prelude.{◌≡◌, Some};
ghost use Rattle.key_slot.specs.Format.{narrow, wide};
ghost use Rattle.key_slot.specs.Slot.{IsSlot, fields_of};
ghost use Rattle.segment.specs.Fields.{AreFields, row_of_fields};

use key_slot::{KEY_AT, SLOT_SIZE, VALUE_AT};
use slot_wide::{WIDE_SIZE, WIDE_VALUE_AT};

/// The slot of a row in one of the formats, where it lies. The format fixes how long its fields are.
#[derive(Clone, Copy)]
pub enum Slot<'a> {
    /// Of format 1: fields of 24 and 32 bytes.
    Narrow(Fields<'a>),
    /// Of format 2: fields of 40 and 80 bytes.
    Wide(Fields<'a>),
}

/// The whole fields of a slot, and how many of their bytes the key and the value of its row have. There are zeros behind them.
///
/// A whole field is copied sooner than a part of it, since its length is known where the code is made.
#[derive(Clone, Copy)]
pub struct Fields<'a> {
    pub key: &'a [u8],
    pub key_len: usize,
    pub value: &'a [u8],
    pub value_len: usize,
}

// The fields of a slot of format 1 that holds a row.
#[inline(always)]
pub(crate) fn narrow_fields(slot: &[u8; SLOT_SIZE]) -> Fields<'_>
    requires { IsSlot narrow (Some (fields_of narrow slot.now)) slot.now }
    ensures fields { AreFields narrow result }
    ensures row { row_of_fields result ≡ fields_of narrow slot.now }
{
    Fields {
        key: &slot[KEY_AT..VALUE_AT],
        key_len: slot[1] as usize,
        value: &slot[VALUE_AT..],
        value_len: slot[2] as usize,
    }
}

// The fields of a slot of format 2 that holds a row.
#[inline(always)]
pub(crate) fn wide_fields(slot: &[u8; WIDE_SIZE]) -> Fields<'_>
    requires { IsSlot wide (Some (fields_of wide slot.now)) slot.now }
    ensures fields { AreFields wide result }
    ensures row { row_of_fields result ≡ fields_of wide slot.now }
{
    Fields {
        key: &slot[KEY_AT..WIDE_VALUE_AT],
        key_len: slot[1] as usize,
        value: &slot[WIDE_VALUE_AT..],
        value_len: slot[2] as usize,
    }
}
