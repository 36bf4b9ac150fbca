//! A record is put into the frames.

ghost use Rattle.std.specs.Prelude.{◌≡◌, ◌≢◌, ℕ, ◌<◌, [], ◌∷◌, ◌++◌, T, length};
ghost use Rattle.key_slot.specs.Format.{narrow};
ghost use Rattle.key_slot.specs.Record.{is_record};
ghost use Rattle.key_slot.specs.Row.{record_of};
ghost use Rattle.key_slot.specs.declared.sizes.TheConstants.{SEGMENT_SLOTS};
ghost use Rattle.resize_region.specs.Shares.{places, HasShares, share_in};

use key_slot::{Row, SEGMENT_SLOTS, encode_slot};
use redo_journal::Frames;
use slot_wide::encode_wide;

/// Puts a record behind the `count` that a place of the frames holds, in a slot of a format that has room for it.
pub fn put_row(frames: &mut Frames, format: u32, f: u32, count: u32, row: &Row)
    requires shares { HasShares format frames.old }
    requires frame { f < places format frames.old }
    requires count { count ≡ length (share_in format f frames.old) }
    requires room { count < SEGMENT_SLOTS }
    requires fits { format ≡ narrow → T (is_record narrow (record_of row.now)) }
    // The record stands behind the `count` that place `f` of the frames held; each place still holds a share (`HasShares`).
    ensures shares { HasShares format frames.new }
    ensures share { share_in format f frames.new ≡ share_in format f frames.old ++ record_of row.now ∷ [] }
    // All other places stay, and so does all of the frames but their slots.
    ensures others { (i : ℕ) → i ≢ f → i < places format frames.old →
        share_in format i frames.new ≡ share_in format i frames.old }
    ensures rest { frames.new ≡ record frames.old { slots = frames.new.slots } }
{
    let size = format as usize;
    let slot = SEGMENT_SLOTS * f as usize + count as usize;
    let bytes = frames.bytes_mut(size * slot, size);
    if format == 1 {
        bytes.copy_from_slice(&encode_slot(Some(row)));
    } else {
        bytes.copy_from_slice(&encode_wide(Some(row)));
    }
}
