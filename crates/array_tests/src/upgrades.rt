//! Stores go over to slot format 2, and are stopped at every call.

ghost use Rattle.std.specs.Prelude.{◌≤◌};
ghost use Rattle.header_gate.specs.InPlace.{IsBare};
ghost use Rattle.header_gate.specs.Places.{file_length};
ghost use Rattle.recovery.specs.StoreParts.{Fits};
ghost use Rattle.redo_journal.specs.Rest.{RestsAt};
ghost use Rattle.segment_frames.specs.FrameStanding.{StandsFor};
ghost use Rattle.station.specs.CrashStation.{crash_view};
ghost use Rattle.station.specs.View.{Told, EachHeld, NothingPending};

use crate::files::{Counts, file_of, noting, see_records, see_stops};
use crate::opened::{end, open_cleared};
use header_gate::Layout;
use recovery::Parts;
use resize_region::{Upgrade, upgrade};
use segment::StoreFault;
use station::CrashStation;
use std::alloc::Global;
use std::process::Abort;

// Upgrades a store, and answers what came of it.
fn upgrade_parts(station: &mut CrashStation, parts: &mut Parts) -> Result<Upgrade, StoreFault>
    requires fits { Fits parts.old.place parts.old.tally parts.old.index parts.old.frames.journal }
    requires stands { EachHeld (StandsFor parts.old.place parts.old.tally) (crash_view station.old) }
    requires nothing { NothingPending (crash_view station.old) }
    requires bare { Told (crash_view station.old) → IsBare parts.old.place.layout (crash_view station.old).held }
    requires reach { file_length parts.old.place.layout ≤ (crash_view station.old).fixed.reach }
    requires rests { RestsAt parts.old.place.layout parts.old.frames.turn (crash_view station.old) }
{
    upgrade(station, &mut parts.place, &mut parts.frames, &parts.tally)
}

// Opens a store and upgrades it, and answers what came of it, with the region and the format that its place names then
// and the number of calls that it made.
fn upgrade_once(
    rt: &impl Abort,
    alloc: Global,
    station: &mut CrashStation,
) -> (Upgrade, u32, u32, usize) {
    let mut parts = open_cleared(alloc, station).expect(rt, "it opens");
    let before = station.noted();
    let answer = upgrade_parts(station, &mut parts).expect(rt, "no fault");
    let calls = station.noted().saturating_sub(before);
    let (region, format) = (parts.place.region, parts.place.layout.format);
    end(parts);
    (answer, region, format, calls)
}

/// Height limit, journal, the heights and the counts before and after, and the number of records.
const UPGRADES: [(u32, u32, u32, Counts, u32, Counts, u32); 5] = [
    (
        2,
        4,
        1,
        [33, 32, 0, 0, 0, 0, 0, 0],
        1,
        [32, 33, 0, 0, 0, 0, 0, 0],
        65,
    ),
    (
        2,
        4,
        2,
        [1, 40, 0, 24, 0, 0, 0, 0],
        1,
        [32, 33, 0, 0, 0, 0, 0, 0],
        65,
    ),
    (
        1,
        4,
        1,
        [64, 0, 0, 0, 0, 0, 0, 0],
        0,
        [64, 0, 0, 0, 0, 0, 0, 0],
        64,
    ),
    (
        3,
        4,
        3,
        [20, 20, 20, 20, 20, 20, 20, 3],
        2,
        [35, 36, 36, 36, 0, 0, 0, 0],
        143,
    ),
    (
        3,
        8,
        0,
        [0, 0, 0, 0, 0, 0, 0, 0],
        0,
        [0, 0, 0, 0, 0, 0, 0, 0],
        0,
    ),
];

/// Wherever it stops, the file has all records, at one of the formats.
#[test]
fn an_upgrade_is_stopped_at_every_call(rt: HostRuntime) {
    for (hmax, journal, from, before, to, after, records) in UPGRADES {
        let layout = Layout {
            hmax,
            journal,
            version: 1,
            format: 1,
        };
        assert!(rt; from <= 3);
        let file = file_of(&rt, rt.alloc(), layout, from, before);
        let mut station = noting(&rt, rt.alloc(), &file);
        let done = upgrade_once(&rt, rt.alloc(), &mut station);
        assert_eq!(rt; (done.0, done.1, done.2), (Upgrade::Done, 1, 2));
        let found = see_records(&rt, station.inner().held(), layout, 1, records);
        assert_eq!(rt; found, (to, after));
        see_stops(&rt, rt.alloc(), &station, layout, records);
        let again = upgrade_once(&rt, rt.alloc(), &mut station);
        assert_eq!(rt; again, (Upgrade::Already, 1, 2, 0));
    }
}

/// Height limit, height, the counts, and why there is no upgrade.
const REFUSALS: [(u32, u32, Counts, Upgrade); 3] = [
    (0, 0, [64, 0, 0, 0, 0, 0, 0, 0], Upgrade::OneSegment),
    (
        1,
        1,
        [62, 64, 0, 0, 0, 0, 0, 0],
        Upgrade::TooMany { records: 126 },
    ),
    (
        1,
        1,
        [1, 64, 0, 0, 0, 0, 0, 0],
        Upgrade::TooMany { records: 65 },
    ),
];

/// A store that can't go over is left as it is, without a call.
#[test]
fn an_upgrade_is_refused(rt: HostRuntime) {
    for (hmax, height, counts, want) in REFUSALS {
        let layout = Layout {
            hmax,
            journal: 4,
            version: 1,
            format: 1,
        };
        let file = file_of(&rt, rt.alloc(), layout, height, counts);
        let mut station = noting(&rt, rt.alloc(), &file);
        let answer = upgrade_once(&rt, rt.alloc(), &mut station);
        assert_eq!(rt; answer, (want, 0, 1, 0));
    }
}
