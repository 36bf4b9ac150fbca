//! All records of a store, in order.

ghost use Rattle.std.specs.Prelude.{◌≡◌, ◌^◌, ◌<◌, ◌≤◌, ℕ, [], false, List};
ghost use Rattle.std.specs.FinMap.{entries};
ghost use Rattle.header_gate.specs.Places.{IsLayout, height_limit};
ghost use Rattle.map_model.specs.Image.{map_of};
ghost use Rattle.map_model.specs.Standing.{StandsBalanced};
ghost use Rattle.range_scan.specs.SweepView.{IsSweep};
ghost use Rattle.range_scan.specs.Sweeping.{IsSweeping, BeginsThere, scan_of};

use range_scan::{SegmentBuffer, Sweep};
use redo_journal::Place;
use window_tally::Tally;

/// A sweep over all records of the store that has this place and this tally; the segments are read into the page.
///
/// If it is at its end, the lines of the records that it gave, and a line with their number, are a load text.
pub fn sweep_all<'a>(place: &Place, tally: &'a Tally, page: &'a mut SegmentBuffer) -> Sweep<'a>
    requires layout { IsLayout place.now.layout }
    requires region { place.now.region < 2 }
    requires height { tally.now.height ≤ height_limit place.now.layout }
    // The sweep begins to read with the first segment of the place's region, by the counts of the tally. It gave nothing, holds
    // nothing that was read, and met no fault.
    ensures layout { result.reader.layout ≡ place.now.layout }
    ensures region { result.reader.region ≡ place.now.region }
    ensures first { result.reader.next ≡ 0 }
    ensures tally { result.tally ≡ tally.now }
    ensures given { result.given ≡ 0 }
    ensures kept { result.kept ≡ [] }
    ensures unfaulted { result.faulted ≡ false }
    ensures is_sweep { IsSweep result }
    // If the image is a valid file at this place, with this height and these counts and every window within its bounds, the sweep
    // sweeps over its records, from the segment on in which the scan begins, and the scan is all records of its map, in order.
    ensures sweeping { (image : List ℕ) → StandsBalanced place.now.layout place.now.region tally.now.height tally.now.counts
        image → IsSweeping result image }
    ensures begins { (image : List ℕ) → StandsBalanced place.now.layout place.now.region tally.now.height tally.now.counts image →
        BeginsThere result (entries (map_of image)) }
    ensures all { (image : List ℕ) → StandsBalanced place.now.layout place.now.region tally.now.height tally.now.counts image →
        scan_of result image ≡ entries (map_of image) }
{
    Sweep::over(
        place.layout,
        place.region,
        tally,
        page,
        0,
        (1 << tally.height()) - 1,
        None,
        None,
        u32::MAX,
    )
}
