//! A merge amid the records of a store and the lines of a text.

ghost use Rattle.std.specs.Prelude.{◌≡◌, ◌+◌, ◌<◌, ◌≤◌, ◌^◌, if◌then◌else◌, ℕ, List, [], None, false};
ghost use Rattle.header_gate.specs.Places.{IsLayout, height_limit};
ghost use Rattle.map_model.specs.Array.{Array, rows};
ghost use Rattle.map_model.specs.Image.{array_of};
ghost use Rattle.range_scan.specs.Checking.{LieAbove};
ghost use Rattle.resize_region.specs.Shares.{StandsBare};
ghost use Rattle.bulk_load.specs.Ahead.{IsAhead, IsAbove, left_in};
ghost use Rattle.bulk_load.specs.Packing.{IsTaken};

use crate::ahead::{Ahead, all_ahead};
use crate::packing::Taken;
use key_slot::Key;
use redo_journal::{Frames, Place};
use resize_region::start_shares;
use segment_frames::batch_room;
use window_tally::Tally;

/// What updates found in a store.
#[derive(Clone, Copy)]
pub(crate) struct Found {
    /// How many bound a key that wasn't there.
    pub stored: u32,
    /// How many bound a key that was.
    pub replaced: u32,
    /// How many removed a key that was there.
    pub removed: u32,
    /// How many removed one that wasn't.
    pub absent: u32,
}

/// What was read of a merge text, and what results of it.
#[derive(Drop)]
pub(crate) struct MergeRun<'a> {
    /// The records of the store behind those that were merged.
    pub ahead: Ahead<'a>,
    /// The records that result so far, and whether the line with the number of updates was met.
    pub taken: Taken,
    /// The key of the last update.
    pub last: Option<Key>,
    /// How many updates there were.
    pub edits: u32,
    /// What they found.
    pub found: Found,
}

/// Counts an update that binds a key, by whether the key was there.
pub(crate) fn note_bound(found: &mut Found, met: bool)
    requires few { found.old.stored + found.old.replaced + found.old.removed + found.old.absent + 1 < 2 ^ 32 }
    ensures { found.new ≡ (if met then record found.old {
      replaced = found.old.replaced
          + 1;
    } else record found.old { stored = found.old.stored + 1 }) }
{
    if met {
        found.replaced += 1;
    } else {
        found.stored += 1;
    }
}

/// Counts an update that removes a key, by whether the key was there.
pub(crate) fn note_removed(found: &mut Found, met: bool)
    requires few { found.old.stored + found.old.replaced + found.old.removed + found.old.absent + 1 < 2 ^ 32 }
    ensures { found.new ≡ (if met then record found.old {
      removed = found.old.removed
          + 1;
    } else record found.old { absent = found.old.absent + 1 }) }
{
    if met {
        found.removed += 1;
    } else {
        found.absent += 1;
    }
}

/// A merge before its first line: all records of the live region are ahead, and no record results.
pub(crate) fn start_run<'a>(place: &Place, frames: &mut Frames, tally: &'a Tally) -> MergeRun<'a>
    requires layout { IsLayout place.now.layout }
    requires region { place.now.region < 2 }
    requires hmax { tally.now.hmax ≡ height_limit place.now.layout }
    requires journal { frames.old.journal ≡ place.now.layout.journal }
    ensures taken { IsTaken place.now.layout result.taken frames.new [] }
    ensures none { result.taken ≡ record { records = 0; written = 0; last = None; ended = false } }
    ensures page { result.ahead.page.rows ≡ [] }
    ensures tally { result.ahead.tally.now ≡ tally.now }
    ensures start { result.ahead.reader.next ≡ 0 }
    ensures ahead { IsAhead place.now result.ahead }
    ensures order { (image : List ℕ) → StandsBare place.now tally.now image → LieAbove result.ahead.reader (array_of image) }
    ensures above { IsAbove None result.ahead }
    ensures all { (segments : Array) → left_in segments result.ahead ≡ rows segments }
    ensures last { result.last ≡ None }
    ensures edits { result.edits ≡ 0 }
    ensures found { result.found ≡ record { stored = 0; replaced = 0; removed = 0; absent = 0 } }
    ensures journal { frames.new.journal ≡ frames.old.journal }
    ensures turn { frames.new.turn ≡ frames.old.turn }
{
    start_shares(frames, place.layout.format, batch_room(&place.layout));
    MergeRun {
        ahead: all_ahead(place, tally),
        taken: Taken {
            records: 0,
            written: 0,
            last: None,
            ended: false,
        },
        last: None,
        edits: 0,
        found: Found {
            stored: 0,
            replaced: 0,
            removed: 0,
            absent: 0,
        },
    }
}
