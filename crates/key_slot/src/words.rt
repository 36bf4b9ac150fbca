//! Bytes as numbers, the greatest first: if the numbers of two runs of bytes differ, they compare as the bytes do.

ghost use Rattle.std.specs.Prelude.{◌≡◌, ◌+◌, ◌<◌, ◌≤◌, ℕ, length, slice_index, slice_range};
ghost use Rattle.std.specs.Slice.Scan.{big_endian};
ghost use Rattle.key_slot.specs.declared.sizes.TheConstants.{KEY_AT};
ghost use Rattle.key_slot.specs.Fronts.{IsKeyNumber};

use super::sizes::KEY_AT;

/// How many bytes a word has: those of a number of 64 bits, which one instruction compares. Each field of a key is whole words.
pub(crate) const WORD_SIZE: usize = 8;

/// The number of the eight bytes from a place on, the greatest first.
#[inline(always)]
pub(crate) fn word_at(bytes: &[u8], at: usize) -> u64
    requires { at + 8 ≤ length bytes.now }
    ensures word { result ≡ big_endian 0 (slice_range bytes.now at (at + 8)) }
    // Each byte is a number below 256.
    ensures bytes { (k : ℕ) → slice_index bytes.now k < 256 }
{
    u64::from_be_bytes([
        bytes[at],
        bytes[at + 1],
        bytes[at + 2],
        bytes[at + 3],
        bytes[at + 4],
        bytes[at + 5],
        bytes[at + 6],
        bytes[at + 7],
    ])
}

/// The number of the sixteen bytes from a place on.
#[inline(always)]
pub(crate) fn front_at(bytes: &[u8], at: usize) -> u128
    requires { at + 16 ≤ length bytes.now }
    ensures front { result ≡ big_endian 0 (slice_range bytes.now at (at + 16)) }
    ensures bytes { (k : ℕ) → slice_index bytes.now k < 256 }
{
    let high = word_at(bytes, at);
    let low = word_at(bytes, at + WORD_SIZE);
    high as u128 * (1 << 64) + low as u128
}

/// The number of the first sixteen bytes of the key in a slot of either format, with its zeros, the greatest first.
///
/// If the number of one slot is below that of another, so is its key.
#[inline(always)]
pub fn key_number(slot: &[u8]) -> u128
    requires { KEY_AT + 16 ≤ length slot.now }
    ensures { IsKeyNumber result slot.now }
{
    front_at(slot, KEY_AT)
}
