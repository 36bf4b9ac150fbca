//! Validating what was read of a segment.

ghost use Rattle.std.specs.Prelude.{◌≡◌, ◌≢◌, ℕ, Some, length, IfOk, IfErr, OnOk, OnErr};
ghost use Rattle.key_slot.specs.Format.{HasFormat, format_of};
ghost use Rattle.key_slot.specs.Segment.{IsSegment, segment_of};
ghost use Rattle.segment.specs.Validated.{damage_of};
ghost use Rattle.segment.specs.SegmentReasons.{page_damage};

use super::counted::count_rows;
use super::fault::{BadSegment, Damage, StoreFault};
use super::segment::Segment;

/// The rows of the 4096 or 8192 bytes that were read of a segment. If they are no segment, it names the first bad slot.
pub fn validate_page(page: &[u8], segment: u32) -> Result<Segment, StoreFault>
    requires { HasFormat page.now }
    // On Ok the bytes are the one spelling of the rows that it answers, in the format of their length.
    ensures rows { IfOk result (λ rows. IsSegment (format_of page.now) rows page.now) }
    // It fails exactly if a slot is bad, and names the segment and the first such slot, counted from 0.
    ensures damaged { IfErr result (λ fault. page_damage (format_of page.now) segment page.now ≡ Some fault) }
{
    match Segment::decode(page) {
        Ok(rows) => Ok(rows),
        Err(bad) => Err(no_segment(segment, bad)),
    }
}

/// Sees that the 4096 or 8192 bytes that a store has read as its segment of this number are a segment, with as many rows as the
/// store keeps for it.
///
/// It fails if they are no segment, and names the first bad slot; else if they have another number of rows, and
/// names both numbers.
pub fn validate_kept(page: &[u8], segment: u32, kept: u32) -> Result<(), StoreFault>
    requires { HasFormat page.now }
    // On Ok the bytes are a segment of the format of their length, with `kept` rows.
    ensures sound { OnOk result (IsSegment (format_of page.now) (segment_of (format_of page.now) page.now) page.now) }
    ensures count { OnOk result (length (segment_of (format_of page.now) page.now) ≡ kept) }
    // It fails exactly if a slot is bad, or else if the number of rows isn't `kept`. It names the segment, and the first
    // bad slot or both numbers.
    ensures damage { IfErr result (λ fault. (why : Damage) × (damage_of (format_of page.now) page.now kept ≡ Some why) ×
        (fault ≡ StoreFault.Damaged segment why)) }
    // If it names two numbers of rows, the second one is `kept`, and the first differs.
    ensures other { (found other : ℕ) → result ≡ Err (StoreFault.Damaged segment (Damage.OtherCount found other)) →
        (other ≡ kept) × (found ≢ kept) }
{
    match count_rows(page) {
        Ok(found) => match validate_count(segment, found, kept) {
            Ok(()) => Ok(()),
            Err(fault) => Err(fault),
        },
        Err(bad) => Err(no_segment(segment, bad)),
    }
}

// The fault of a segment whose bytes are none.
fn no_segment(segment: u32, bad: BadSegment) -> StoreFault
    ensures { result ≡ StoreFault.Damaged segment (Damage.NotSegment bad.slot) }
{
    StoreFault::Damaged {
        segment,
        why: Damage::NotSegment { slot: bad.slot },
    }
}

/// Sees that a segment has as many rows as a store keeps for it.
pub fn validate_count(segment: u32, found: u32, kept: u32) -> Result<(), StoreFault>
    // It is Ok exactly if the number of rows that were found is the one that is kept.
    ensures same { OnOk result (found ≡ kept) }
    ensures other { OnErr result (found ≢ kept) }
    // The fault names the segment and both numbers of rows.
    ensures damaged { IfErr result (λ fault. fault ≡ StoreFault.Damaged segment (Damage.OtherCount found kept)) }
{
    if found == kept {
        Ok(())
    } else {
        Err(StoreFault::Damaged {
            segment,
            why: Damage::OtherCount { found, kept },
        })
    }
}
