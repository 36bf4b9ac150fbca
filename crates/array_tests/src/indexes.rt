//! The index in a file: it is left, closed and read again, and all of it is stopped at every call.

ghost use Rattle.std.specs.Prelude.{◌≡◌, ◌≤◌};
ghost use Rattle.array_tests.specs.UntoldStation.{untell};
ghost use Rattle.header_gate.specs.Places.{file_length};
ghost use Rattle.recovery.specs.StoreParts.{Fits};
ghost use Rattle.station.specs.CrashStation.{crash_view};
ghost use Rattle.station.specs.View.{NothingPending};

use crate::files::{
    Counts, PICKS, file_of, lay, lay_header, lay_rows, layout_of, offset_of, see_records,
};
use crate::opened::{end, open_by_index, open_cleared, open_parts, opens, opens_by_index};
use crate::untold::{UntoldStation, failing, untold};
use density_rule::Window;
use header_gate::{INDEXED, Layout, PAIRED, Reason};
use index_file::{close_index, leave_index};
use recovery::{OpenFault, Parts};
use station::Station;
use std::alloc::Global;
use std::process::Abort;

// The offset of the clean gate, in the file's first page.
const CLEAN: usize = 704;

// More calls than an opening and a leaving make.
const CALLS: u32 = 40;

/// Height, the counts of the segments, and the number of records.
type Row = (u32, Counts, u32);

/// Stores of one segment, of two, and of four.
const ROWS: [Row; 3] = [
    (0, [5, 0, 0, 0, 0, 0, 0, 0], 5),
    (1, [32, 33, 0, 0, 0, 0, 0, 0], 65),
    (2, [20, 21, 22, 23, 0, 0, 0, 0], 86),
];

// The versions of a file with an index: with one journal, and with two.
const VERSIONS: [u32; 2] = [INDEXED, PAIRED];

/// Versions and formats whose files are closed, and have each of their calls fail.
const KINDS: [(u32, u32); 3] = [(INDEXED, 1), (INDEXED, 2), (PAIRED, 1)];

// The layout of such a file, whose store has this format and at most height 2.
fn indexed(version: u32, format: u32) -> Layout
    requires format { 1 ≤ format × (format ≤ 2) }
{
    Layout {
        version,
        ..layout_of(format, 2, 4)
    }
}

// The file of a row.
fn file_with_index(rt: &impl Abort, alloc: Global, layout: Layout, row: &Row) -> Vec<u8> {
    let (height, counts, _) = *row;
    file_of(rt, alloc, layout, height, counts)
}

// Leaves the index of a store, and answers how many calls were made before.
fn leave(station: &mut UntoldStation, parts: &mut Parts) -> Option<usize>
    requires fits { Fits parts.old.place parts.old.tally parts.old.index parts.old.frames.journal }
    requires reach { file_length parts.old.place.layout ≤ (untell (crash_view station.old.inner)).fixed.reach }
    requires nothing { NothingPending (untell (crash_view station.old.inner)) }
{
    if parts.place.layout.version < INDEXED {
        return None;
    }
    let before = station.inner.noted();
    match leave_index(station, parts) {
        Ok(()) => Some(before),
        Err(_) => None,
    }
}

// Opens a store by its region, makes the live one of two journals empty, and leaves its index. Where all come to an end, it
// answers how many calls were made before the leaving.
fn leave_once(alloc: Global, station: &mut UntoldStation) -> Option<usize> {
    match open_cleared(alloc, station) {
        Ok(mut parts) => {
            let left = leave(station, &mut parts);
            end(parts);
            left
        }
        Err(_) => None,
    }
}

// Closes an index, and answers whether that came to its end.
fn close(station: &mut UntoldStation) -> bool {
    close_index(station).is_ok()
}

// A file after its index was left.
fn left(rt: &impl Abort, alloc: Global, file: &[u8]) -> Vec<u8> {
    let mut station = untold(rt, alloc, file);
    assert!(rt; leave_once(alloc, &mut station).is_some());
    Vec::from_slice(alloc, station.inner.inner().held()).expect(rt, "memory")
}

// The file of a row after its index was left.
fn left_file(rt: &impl Abort, alloc: Global, layout: Layout, row: &Row) -> Vec<u8> {
    let file = file_with_index(rt, alloc, layout, row);
    left(rt, alloc, &file)
}

// Sees that two stores have the same height, counts and fences.
fn see_same(rt: &impl Abort, one: &Parts, other: &Parts)
    requires one { one.now.index.height ≡ one.now.tally.height }
    requires other { other.now.index.height ≡ other.now.tally.height }
{
    let height = one.tally.height();
    assert!(rt; height == other.tally.height() && height <= 7);
    for number in 0..1u32 << height {
        let window = Window { height: 0, number };
        assert_eq!(rt; one.tally.count(window), other.tally.count(window));
    }
    for x in 0..(1u32 << height) - 1 {
        assert!(rt; one.index.node(x) == other.index.node(x));
    }
}

// Opens a store by its region, and sees that it is the one that was opened by its index.
fn see_by_region(rt: &impl Abort, alloc: Global, station: &mut UntoldStation, quick: &Parts)
    requires { quick.now.index.height ≡ quick.now.tally.height }
{
    let parts = open_parts(alloc, station).expect(rt, "it opens");
    see_same(rt, quick, &parts);
    end(parts);
}

// Opens a file by its index and by its region, and sees that both are one store. It answers how many bytes were read by the
// index, or None where the file isn't opened by it.
fn read_quickly(rt: &impl Abort, alloc: Global, file: &[u8]) -> Option<u64> {
    let mut station = untold(rt, alloc, file);
    let mut again = untold(rt, alloc, file);
    match open_by_index(alloc, &mut station).expect(rt, "it opens") {
        Some(quick) => {
            let read = station.travel().read;
            see_by_region(rt, alloc, &mut again, &quick);
            end(quick);
            Some(read)
        }
        None => None,
    }
}

// Sees that a file is opened by its index exactly where its clean gate is odd, as the store that it is by its region, with all
// records. It answers whether the gate is odd.
fn see_file(rt: &impl Abort, alloc: Global, file: &[u8], layout: Layout, last: u32) -> bool {
    assert!(rt; file.len() > CLEAN);
    let is_odd = file[CLEAN] % 2 == 1;
    assert_eq!(rt; read_quickly(rt, alloc, file).is_some(), is_odd);
    let mut station = untold(rt, alloc, file);
    opens(alloc, &mut station).expect(rt, "it opens");
    see_records(rt, file, layout, 1, last);
    is_odd
}

// Sees what a crash leaves after each of a station's calls, from the first that many on.
fn see_stops(
    rt: &impl Abort,
    alloc: Global,
    station: &UntoldStation,
    first: usize,
    layout: Layout,
    last: u32,
) {
    let noted = station.inner.noted();
    assert!(rt;
        first <= noted && noted < 400,
        "there was room for all notes"
    );
    for calls in first as u32..=noted as u32 {
        for pick in PICKS {
            let image = station
                .inner
                .crash_image(alloc, calls, pick)
                .expect(rt, "memory");
            see_file(rt, alloc, &image, layout, last);
        }
    }
}

#[test]
fn an_index_has_fences_links_and_counts(rt: HostRuntime) {
    let file = left_file(&rt, rt.alloc(), indexed(INDEXED, 1), &ROWS[1]);
    assert_eq!(rt; file.len(), 61440);
    assert_eq!(rt; file[CLEAN], 1);
    assert!(rt; &file[57344..57352] == [4u8, 0, 0, 0, 0, 0, 0, 0].as_slice());
    assert!(rt; &file[57352..57356] == [b'k', 0, 0, 33].as_slice());
    assert!(rt; file[57356..57392].iter().all(|byte| *byte == 0));
    assert!(rt; &file[57392..57400] == [0u8, 0, 0, 128, 1, 0, 0, 128].as_slice());
    assert!(rt; &file[57600..57608] == [32u8, 0, 0, 0, 33, 0, 0, 0].as_slice());
}

/// The header page, one node and two counts are read, and no gate apart.
#[test]
fn a_quick_opening_reads_its_header_and_index(rt: HostRuntime) {
    for version in VERSIONS {
        let file = left_file(&rt, rt.alloc(), indexed(version, 1), &ROWS[1]);
        assert_eq!(rt;
            read_quickly(&rt, rt.alloc(), &file),
            Some(4096 + 64 + 2 * 4)
        );
    }
}

/// A store of 128 segments: its index has 127 nodes, which are written and read in two pieces.
const LONG: Layout = Layout {
    hmax: 7,
    journal: 4,
    version: INDEXED,
    format: 1,
};

// Its file, with 12 records in each segment and three pages for its index.
fn long_file(rt: &impl Abort, alloc: Global) -> Vec<u8> {
    let end = offset_of(rt, LONG, 2, 0);
    assert_eq!(rt; end, 1073152);
    let mut file = vec![in alloc; 0; end + 3 * 4096].expect(rt, "memory");
    lay_header(rt, &mut file, LONG, 7);
    for segment in 0..128 {
        let offset = offset_of(rt, LONG, 0, segment);
        lay_rows(rt, &mut file, 1, offset, 12 * segment, 12);
    }
    file
}

#[test]
fn an_index_of_two_pieces_is_left_and_read(rt: HostRuntime) {
    let mut file = left(&rt, rt.alloc(), &long_file(&rt, rt.alloc()));
    let read = read_quickly(&rt, rt.alloc(), &file);
    assert_eq!(rt; read, Some(4096 + 64 * 127 + 4 * 128));
    lay(&rt, &mut file, 1073152 + 64 * 100 + 7, &[1]);
    assert_eq!(rt;
        refused_at(&rt, rt.alloc(), &file),
        Some(1073152 + 64 * 100)
    );
}

// Leaves the index of a row's file, and sees what stops leave of it.
fn see_leaving(rt: &impl Abort, alloc: Global, layout: Layout, row: &Row) {
    let file = file_with_index(rt, alloc, layout, row);
    let mut station = untold(rt, alloc, &file);
    let before = leave_once(alloc, &mut station).expect(rt, "it is left");
    see_stops(rt, alloc, &station, before, layout, row.2);
    assert!(rt; see_file(rt, alloc, station.inner.inner().held(), layout, row.2));
}

#[test]
fn a_leaving_is_stopped_at_every_call(rt: HostRuntime) {
    for (version, format, row) in [
        (INDEXED, 1, &ROWS[0]),
        (INDEXED, 1, &ROWS[1]),
        (INDEXED, 1, &ROWS[2]),
        (INDEXED, 2, &ROWS[1]),
        (PAIRED, 1, &ROWS[1]),
        (PAIRED, 2, &ROWS[1]),
    ] {
        see_leaving(&rt, rt.alloc(), indexed(version, format), row);
    }
}

#[test]
fn a_closing_is_stopped_at_every_call(rt: HostRuntime) {
    for (version, format) in KINDS {
        let layout = indexed(version, format);
        let file = left_file(&rt, rt.alloc(), layout, &ROWS[1]);
        let mut station = untold(&rt, rt.alloc(), &file);
        assert!(rt; close(&mut station));
        see_stops(&rt, rt.alloc(), &station, 0, layout, 65);
        assert!(rt; !see_file(&rt, rt.alloc(), station.inner.inner().held(), layout, 65));
    }
}

// Has each call of a leaving, or of a closing, fail, and all calls from it on.
fn see_faults(rt: &impl Abort, alloc: Global, file: &[u8], layout: Layout, is_leaving: bool) {
    for call in 0..CALLS {
        for is_last in [false, true] {
            let mut station = failing(rt, alloc, file, call, is_last);
            let is_done = if is_leaving {
                leave_once(alloc, &mut station).is_some()
            } else {
                close(&mut station)
            };
            let is_odd = see_file(rt, alloc, station.inner.inner().held(), layout, 65);
            assert!(rt; !is_done || is_odd == is_leaving);
            if is_done && is_last {
                return;
            }
        }
    }
    panic!(rt; "it makes more calls");
}

#[test]
fn a_failed_call_of_a_leaving_and_of_a_closing(rt: HostRuntime) {
    for (version, format) in KINDS {
        let layout = indexed(version, format);
        let file = file_with_index(&rt, rt.alloc(), layout, &ROWS[1]);
        see_faults(&rt, rt.alloc(), &file, layout, true);
        let left = left(&rt, rt.alloc(), &file);
        see_faults(&rt, rt.alloc(), &left, layout, false);
    }
}

/// The version of a file whose index was left, an offset and its byte then, and whether the file is opened by its index. One with
/// two journals is, whichever of the empty ones is the live one.
const OTHERS: [(u32, usize, u8, bool); 11] = [
    (INDEXED, CLEAN, 254, false),
    (INDEXED, 640, 1, false),
    (INDEXED, 512, 1, false),
    (INDEXED, 3080, 2, false),
    (INDEXED, 3080, 4, false),
    (PAIRED, CLEAN, 254, false),
    (PAIRED, 640, 1, false),
    (PAIRED, 512, 0, true),
    (PAIRED, 512, 1, true),
    (PAIRED, 3080, 3, false),
    (PAIRED, 3080, 5, false),
];

#[test]
fn what_is_left_at_the_other_gates_and_versions(rt: HostRuntime) {
    for (version, offset, byte, is_quick) in OTHERS {
        let mut file = left_file(&rt, rt.alloc(), indexed(version, 1), &ROWS[1]);
        lay(&rt, &mut file, offset, &[byte]);
        let mut station = untold(&rt, rt.alloc(), &file);
        let is_some = opens_by_index(rt.alloc(), &mut station).expect(&rt, "it opens");
        assert!(rt; is_some == is_quick, "{offset}");
    }
}

/// A byte of the file of the second row, and the place that is refused then: other links, a size, a fence and a byte that
/// should be zero, and counts.
const WRONG: [(usize, &[u8], u32); 9] = [
    (57344, &[0], 57344),
    (57344, &[25], 57344),
    (57351, &[1], 57344),
    (57356, &[1], 57344),
    (57392, &[1], 57344),
    (57400, &[1], 57344),
    (57600, &[3], 57600),
    (57604, &[3], 57604),
    (57600, &[63, 0, 0, 0, 64], 57600),
];

// The place at which an index is refused.
fn refused_at(rt: &impl Abort, alloc: Global, file: &[u8]) -> Option<u32> {
    let mut station = untold(rt, alloc, file);
    match opens_by_index(alloc, &mut station) {
        Err(OpenFault::NotStore(Reason::Index { place })) => Some(place),
        _ => None,
    }
}

#[test]
fn a_wrong_index_is_refused_at_its_place(rt: HostRuntime) {
    let left = left_file(&rt, rt.alloc(), indexed(INDEXED, 1), &ROWS[1]);
    for (offset, bytes, want) in WRONG {
        let mut file = Vec::from_slice(rt.alloc(), &left).expect(&rt, "memory");
        lay(&rt, &mut file, offset, bytes);
        assert_eq!(rt; refused_at(&rt, rt.alloc(), &file), Some(want), "{offset}");
    }
}

/// Fences of four segments stand at positions 1, 0 and 2: the later one's place is refused where they don't ascend.
#[test]
fn fences_out_of_order_are_refused_at_the_later_one(rt: HostRuntime) {
    let left = left_file(&rt, rt.alloc(), indexed(INDEXED, 1), &ROWS[2]);
    for (x, last, want) in [(1, 42, 0), (1, 60, 0), (0, 64, 2), (2, 42, 2)] {
        let mut file = Vec::from_slice(rt.alloc(), &left).expect(&rt, "memory");
        lay(&rt, &mut file, 57352 + 64 * x + 3, &[last]);
        assert_eq!(rt;
            refused_at(&rt, rt.alloc(), &file),
            Some(57344 + 64 * want),
            "{x}"
        );
    }
}
