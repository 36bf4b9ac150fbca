//! What the pass that validates a segment's bytes asks of a slot format.

ghost use Rattle.std.specs.Prelude.{◌≡◌, ◌⊎◌, ℕ, Some, None, IfOk, OnErr, if◌then◌else◌};
ghost use Rattle.std.specs.Ordering.{is_lt};
ghost use Rattle.key_slot.specs.Format.{narrow, wide, slot_size};
ghost use Rattle.key_slot.specs.Record.{key_cmp};
ghost use Rattle.key_slot.specs.Slot.{IsSlot, fields_of, slot_of};

use key_slot::{BadSlot, SLOT_SIZE, compare_keys, holds_row};
use slot_wide::{WIDE_SIZE, compare_wide, wide_holds_row};

/// A slot format, whose slots have that many bytes.
pub(crate) trait SlotFormat<const SIZE: usize> {
    ghost number: { ℕ };

    /// Whether a slot holds a row. It fails if the bytes are no slot.
    fn holds_row(slot: &[u8; SIZE]) -> Result<bool, BadSlot>
        ensures read { IfOk result (λ holds. slot_of number slot.now ≡ Some (if holds then Some (fields_of number slot.now)
            else None)) }
        ensures bad { OnErr result (slot_of number slot.now ≡ None) };

    /// Whether the key of a slot is below that of the next one, if both hold rows.
    fn is_below(slot: &[u8; SIZE], next: &[u8; SIZE]) -> bool
        requires slot { IsSlot number (Some (fields_of number slot.now)) slot.now }
        requires next { IsSlot number (Some (fields_of number next.now)) next.now }
        ensures { result ≡ is_lt (key_cmp (fields_of number slot.now).0 (fields_of number next.now).0) };

    ghost is_format: { (number ≡ narrow) ⊎ (number ≡ wide) };

    ghost size: { SIZE ≡ slot_size number };
}

/// Format 1.
pub(crate) struct Narrow;

impl SlotFormat<SLOT_SIZE> for Narrow {
    ghost use Rattle.std.proofs.Common.{inl, refl};

    ghost number = { narrow };

    #[inline(always)]
    fn holds_row(slot: &[u8; SLOT_SIZE]) -> Result<bool, BadSlot> {
        holds_row(slot)
    }

    #[inline(never)]
    fn is_below(slot: &[u8; SLOT_SIZE], next: &[u8; SLOT_SIZE]) -> bool {
        compare_keys(slot, next).is_lt()
    }

    ghost is_format = { inl refl };

    ghost size = { refl };
}

/// Format 2.
pub(crate) struct Wide;

impl SlotFormat<WIDE_SIZE> for Wide {
    ghost use Rattle.std.proofs.Common.{inr, refl};

    ghost number = { wide };

    #[inline(always)]
    fn holds_row(slot: &[u8; WIDE_SIZE]) -> Result<bool, BadSlot> {
        wide_holds_row(slot)
    }

    #[inline(never)]
    fn is_below(slot: &[u8; WIDE_SIZE], next: &[u8; WIDE_SIZE]) -> bool {
        compare_wide(slot, next).is_lt()
    }

    ghost is_format = { inr refl };

    ghost size = { refl };
}
