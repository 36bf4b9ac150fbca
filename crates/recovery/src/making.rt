//! The memory of a store is taken.

ghost use Rattle.std.specs.Prelude.{◌≡◌, ◌≤◌, ◌<◌, IfOk, None};
ghost use Rattle.header_gate.specs.Places.{IsLayout, height_limit};
ghost use Rattle.recovery.specs.StoreParts.{AreParts};
ghost use Rattle.window_tally.specs.TallyView.{empty_tally};

use crate::parts::Parts;
use header_gate::Header;
use range_scan::SegmentBuffer;
use redo_journal::{Frames, Place};
use segment::Segment;
use std::alloc::{AllocError, Global};
use veb_index::Index;
use window_tally::Tally;

/// Parts for a store with this header, of which nothing is known yet: no record is counted, and no fence is set.
///
/// `AllocError` is want of memory; no later call takes any.
pub fn make_parts(alloc: Global, header: &Header) -> Result<Parts, AllocError>
    requires layout { IsLayout header.now.layout }
    requires live { header.now.live < 2 }
    requires height { header.now.height ≤ height_limit header.now.layout }
    // On Ok the parts are for a store of the header's layout and live region, and the index has room for the layout's greatest
    // height.
    ensures parts { IfOk result (λ parts. AreParts parts.place parts.tally parts.index parts.frames.journal) }
    ensures room { IfOk result (λ parts. parts.index.hmax ≡ height_limit header.now.layout) }
    ensures place { IfOk result (λ parts. parts.place ≡ record { layout = header.now.layout; region = header.now.live }) }
    // On Ok they note an even gate, have no intent, and count no record, at the header's height.
    ensures turn { IfOk result (λ parts. parts.frames.turn ≡ 0) }
    ensures intent { IfOk result (λ parts. parts.intent ≡ None) }
    ensures tally { IfOk result (λ parts. parts.tally ≡ empty_tally (height_limit header.now.layout) header.now.height) }
{
    let limit = header.layout.height_limit();
    let mut tally = Tally::new(alloc, limit)?;
    let mut index = Index::new(alloc, limit)?;
    let frames = Frames::new(alloc, header.layout.journal)?;
    let page = Box::new(alloc, SegmentBuffer::new())?;
    let rows = Box::new(alloc, Segment::empty())?;
    tally.clear(header.height);
    index.reset(header.height);
    Ok(Parts {
        place: Place {
            layout: header.layout,
            region: header.live,
        },
        tally,
        index,
        frames,
        page,
        rows,
        intent: None,
    })
}
