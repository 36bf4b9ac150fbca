//! What was read into the frames of a segment is validated.

ghost use Rattle.std.specs.Prelude.{◌≡◌, ◌+◌, ◌*◌, ◌≤◌, length, OnOk, IfErr};
ghost use Rattle.header_gate.specs.Places.{IsSlotFormat};
ghost use Rattle.redo_journal.specs.Frames.{IsFrames};
ghost use Rattle.segment_frames.specs.HeldRecords.{grouped, HoldsRows};
ghost use Rattle.segment_frames.specs.Lists.{page_at, rows_at};
ghost use Rattle.segment_frames.specs.FrameReading.{IsPageFault};

use key_slot::SEGMENT_SLOTS;
use redo_journal::Frames;
use segment::{StoreFault, validate_kept};

/// Sees that the frames of segment `f` of a batch hold a segment, with as many records as the store keeps for it.
///
/// The fault names the segment with the first bad slot of the frames' bytes, or else with the number of records found
/// there and the number kept, which differ.
pub fn validate_frame(
    frames: &Frames,
    format: u32,
    f: u32,
    segment: u32,
    kept: u32,
) -> Result<(), StoreFault>
    requires format { IsSlotFormat format }
    requires frames { IsFrames frames.now }
    requires within { format * (f + 1) ≤ frames.now.journal }
    // On Ok the frames of segment `f` hold the records that their bytes spell, from the front, and these are as many as the store
    // keeps.
    ensures held { OnOk result (HoldsRows format (rows_at format frames.now.slots f) f (grouped format frames.now.slots)) }
    ensures count { OnOk result (length (rows_at format frames.now.slots f) ≡ kept) }
    // The fault names the segment, and the damage that these bytes show: the first bad slot, or else the numbers of records found
    // and kept.
    ensures fault { IfErr result (IsPageFault format (page_at format frames.now.slots f) segment kept) }
{
    let size = SEGMENT_SLOTS * format as usize;
    let page = frames.bytes(size * f as usize, size);
    match validate_kept(page, segment, kept) {
        Ok(()) => Ok(()),
        Err(fault) => Err(fault),
    }
}
