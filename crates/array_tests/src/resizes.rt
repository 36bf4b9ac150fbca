//! Stores grow and shrink through their other region, and are stopped at every call.

ghost use Rattle.std.specs.Prelude.{◌≤◌};
ghost use Rattle.density_rule.specs.Bounds.{IsInBounds};
ghost use Rattle.header_gate.specs.InPlace.{IsBare};
ghost use Rattle.header_gate.specs.Places.{file_length};
ghost use Rattle.recovery.specs.StoreParts.{Fits};
ghost use Rattle.redo_journal.specs.Rest.{RestsAt};
ghost use Rattle.segment_frames.specs.FrameStanding.{StandsFor};
ghost use Rattle.station.specs.CrashStation.{crash_view};
ghost use Rattle.station.specs.View.{Told, EachHeld, NothingPending};

use crate::files::{
    Counts, FORMATS, file_of, layout_of, noting, see_opens, see_records, see_stops,
};
use crate::opened::{end, open_cleared};
use density_rule::{Window, in_bounds};
use recovery::Parts;
use resize_region::{grow, shrink};
use segment::StoreFault;
use station::{CrashStation, Pick};
use std::alloc::Global;
use std::process::Abort;

// Sees that a store of this height may have that many records.
fn see_fits(rt: &impl Abort, height: u32, records: u32)
    requires { height ≤ 16 }
    ensures { IsInBounds height height records }
{
    assert!(rt; in_bounds(height, height, records));
}

// Grows a store by one height.
fn grow_one(
    rt: &impl Abort,
    station: &mut CrashStation,
    parts: &mut Parts,
) -> Result<(), StoreFault>
    requires fits { Fits parts.old.place parts.old.tally parts.old.index parts.old.frames.journal }
    requires stands { EachHeld (StandsFor parts.old.place parts.old.tally) (crash_view station.old) }
    requires nothing { NothingPending (crash_view station.old) }
    requires bare { Told (crash_view station.old) → IsBare parts.old.place.layout (crash_view station.old).held }
    requires reach { file_length parts.old.place.layout ≤ (crash_view station.old).fixed.reach }
    requires rests { RestsAt parts.old.place.layout parts.old.frames.turn (crash_view station.old) }
{
    let height = parts.tally.height();
    let records = parts.tally.count(Window { height, number: 0 });
    assert!(rt; height < parts.place.layout.height_limit());
    see_fits(rt, height + 1, records);
    parts.index.reset(height + 1);
    grow(
        station,
        &mut parts.place,
        &mut parts.frames,
        &mut parts.tally,
        &mut parts.index,
    )
}

// Shrinks a store by one height.
fn shrink_one(
    rt: &impl Abort,
    station: &mut CrashStation,
    parts: &mut Parts,
) -> Result<(), StoreFault>
    requires fits { Fits parts.old.place parts.old.tally parts.old.index parts.old.frames.journal }
    requires stands { EachHeld (StandsFor parts.old.place parts.old.tally) (crash_view station.old) }
    requires nothing { NothingPending (crash_view station.old) }
    requires bare { Told (crash_view station.old) → IsBare parts.old.place.layout (crash_view station.old).held }
    requires reach { file_length parts.old.place.layout ≤ (crash_view station.old).fixed.reach }
    requires rests { RestsAt parts.old.place.layout parts.old.frames.turn (crash_view station.old) }
{
    let height = parts.tally.height();
    let records = parts.tally.count(Window { height, number: 0 });
    assert!(rt; height >= 1);
    see_fits(rt, height - 1, records);
    parts.index.reset(height - 1);
    shrink(
        station,
        &mut parts.place,
        &mut parts.frames,
        &mut parts.tally,
        &mut parts.index,
    )
}

// Opens a store, and grows it by one height or shrinks it by one.
fn resize_once(rt: &impl Abort, alloc: Global, station: &mut CrashStation, grows: bool) {
    let mut parts = open_cleared(alloc, station).expect(rt, "it opens");
    let resized = if grows {
        grow_one(rt, station, &mut parts)
    } else {
        shrink_one(rt, station, &mut parts)
    };
    end(parts);
    assert!(rt; resized.is_ok());
}

/// The greatest height, the journal, the heights and the counts before and after, and the number of records.
type Resize = (u32, u32, u32, Counts, u32, Counts, u32);

const RESIZES: [Resize; 6] = [
    (
        1,
        4,
        0,
        [64, 0, 0, 0, 0, 0, 0, 0],
        1,
        [32, 32, 0, 0, 0, 0, 0, 0],
        64,
    ),
    (
        3,
        8,
        0,
        [64, 0, 0, 0, 0, 0, 0, 0],
        1,
        [32, 32, 0, 0, 0, 0, 0, 0],
        64,
    ),
    (
        2,
        4,
        1,
        [62, 64, 0, 0, 0, 0, 0, 0],
        2,
        [31, 32, 31, 32, 0, 0, 0, 0],
        126,
    ),
    (
        3,
        8,
        1,
        [62, 64, 0, 0, 0, 0, 0, 0],
        2,
        [31, 32, 31, 32, 0, 0, 0, 0],
        126,
    ),
    (
        1,
        4,
        1,
        [4, 6, 0, 0, 0, 0, 0, 0],
        0,
        [10, 0, 0, 0, 0, 0, 0, 0],
        10,
    ),
    (
        3,
        8,
        1,
        [4, 6, 0, 0, 0, 0, 0, 0],
        0,
        [10, 0, 0, 0, 0, 0, 0, 0],
        10,
    ),
];

// Resizes a store of this format, and sees what stops leave of it: between the selector's write and its sync, the last call,
// either region may be the live one.
fn see_resize(rt: &impl Abort, alloc: Global, format: u32, row: &Resize)
    requires { 1 ≤ format × (format ≤ 2) }
{
    let (limit, journal, from, before, to, after, records) = *row;
    assert!(rt; limit <= 4 && from <= 2);
    let layout = layout_of(format, limit, journal);
    let file = file_of(rt, alloc, layout, from, before);
    let mut station = noting(rt, alloc, &file);
    resize_once(rt, alloc, &mut station, to > from);
    let found = see_records(rt, station.inner().held(), layout, 1, records);
    assert_eq!(rt; found, (to, after));
    see_stops(rt, alloc, &station, layout, records);
    let noted = station.noted();
    assert!(rt; noted >= 1 && noted < 400);
    for (pick, want) in [(Pick::Settled, (from, before)), (Pick::Held, (to, after))] {
        let image = station
            .crash_image(alloc, noted as u32 - 1, pick)
            .expect(rt, "memory");
        assert!(rt; image.len() > 0);
        assert_eq!(rt; image[0] as u32, (want.0 == to) as u32, "the selector");
        assert_eq!(rt; see_opens(rt, alloc, &image, layout, records), want);
    }
}

#[test]
fn a_resize_is_stopped_at_every_call(rt: HostRuntime) {
    for format in FORMATS {
        for row in &RESIZES {
            see_resize(&rt, rt.alloc(), format, row);
        }
    }
}
