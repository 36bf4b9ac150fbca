//! How many frames a load uses.

ghost use Rattle.std.specs.Prelude.{◌≡◌, ◌^◌, ◌≤◌};
ghost use Rattle.header_gate.specs.Places.{IsLayout};
ghost use Rattle.segment_frames.specs.Lists.{most_segments};
ghost use Rattle.bulk_load.specs.Packing.{room_in};

use header_gate::Layout;

/// The most frames that are used, however long the journal is: 256 pages are a MiB, so that each read and
/// write takes many segments.
pub(crate) const MOST_FRAMES: u32 = 256;

/// How many segments are in the frames at most.
pub(crate) fn room_of(layout: &Layout) -> u32
    requires { IsLayout layout.now }
    ensures room { result ≡ room_in layout.now }
    ensures some { 2 ≤ result }
    ensures few { result ≤ most_segments layout.now }
    ensures small { result ≤ 2 ^ 8 }
{
    layout.journal.min(MOST_FRAMES) / layout.format
}
