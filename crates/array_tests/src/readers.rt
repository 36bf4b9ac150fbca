//! A region is read segment by segment: each is given by itself, in ascending order, once.

ghost use Rattle.std.specs.Prelude.{◌≡◌, ◌≤◌, ◌^◌, false, OnOk, IfOk};
ghost use Rattle.header_gate.specs.Places.{file_length};
ghost use Rattle.station.specs.MemStation.{mem_view};

use crate::files::{FORMATS, file_of, holding, layout_of, row};
use header_gate::read_header;
use key_slot::Row;
use range_scan::{RegionFault, RegionReader};
use segment::Segment;
use station::{MemStation, Station};
use std::alloc::Global;
use std::process::Abort;

// How many segments a store of this height has.
fn segments_at(height: u32) -> u32
    requires { height ≤ 16 }
    ensures { result ≡ 2 ^ height }
{
    1 << height
}

// A reader of all segments of a file's live region.
fn reader_of(rt: &impl Abort, station: &mut MemStation) -> RegionReader
    ensures open { result.faulted ≡ false }
    ensures reach { file_length result.layout ≤ (mem_view station.new).fixed.reach }
{
    let Ok(header) = read_header(station) else {
        panic!(rt; "no header");
    };
    assert!(rt; header.height <= 16);
    let end = segments_at(header.height);
    RegionReader::new(header.layout, header.live, 0, end)
}

// The next segment.
fn next_segment(
    reader: &mut RegionReader,
    station: &mut MemStation,
) -> Result<Option<Segment>, RegionFault>
    requires open { reader.old.faulted ≡ false }
    requires reach { file_length reader.old.layout ≤ (mem_view station.old).fixed.reach }
    ensures open { OnOk result (reader.new.faulted ≡ false) }
    ensures reach { OnOk result (file_length reader.new.layout ≤ (mem_view station.new).fixed.reach) }
{
    reader.next_segment(station)
}

// Sees that a segment has that many records, with the numbers behind `before`.
fn see_rows(rt: &impl Abort, rows: &Segment, format: u32, before: u32, count: u32) {
    assert!(rt; rows.len() == count && before < 1000 && count <= 64);
    for i in 0..rows.len() {
        let Row { key, value } = rows.row(i);
        let wanted = row(rt, before + i + 1, format);
        assert!(rt; key == wanted.key && value == wanted.value, "record {i}");
    }
}

// Sees that the next segment is given, with that many records behind `before`, and that its bytes are read, and no others.
fn see_next(
    rt: &impl Abort,
    reader: &mut RegionReader,
    station: &mut MemStation,
    format: u32,
    before: u32,
    count: u32,
)
    requires open { reader.old.faulted ≡ false }
    requires reach { file_length reader.old.layout ≤ (mem_view station.old).fixed.reach }
    ensures open { reader.new.faulted ≡ false }
    ensures reach { file_length reader.new.layout ≤ (mem_view station.new).fixed.reach }
{
    let read = station.travel().read;
    let Ok(Some(rows)) = next_segment(reader, station) else {
        panic!(rt; "no segment");
    };
    see_rows(rt, &rows, format, before, count);
    assert_eq!(rt;
        station.travel().read.checked_sub(read),
        Some(4096 * format as u64)
    );
}

/// How many records stand before each of four segments, and in it. The second has none, and the third has no room for one more.
const SEGMENTS: [(u32, u32); 4] = [(0, 3), (3, 0), (3, 64), (67, 1)];

/// Behind the last one none is given, however often it is asked for, and nothing is read.
#[test]
fn each_segment_of_a_region_is_given_once(rt: HostRuntime) {
    for format in FORMATS {
        let file = file_of(
            &rt,
            rt.alloc(),
            layout_of(format, 2, 4),
            2,
            [3, 0, 64, 1, 0, 0, 0, 0],
        );
        let mut station = holding(&rt, rt.alloc(), &file);
        let mut reader = reader_of(&rt, &mut station);
        for (before, count) in SEGMENTS {
            see_next(&rt, &mut reader, &mut station, format, before, count);
        }
        let read = station.travel().read;
        assert!(rt; matches!(next_segment(&mut reader, &mut station), Ok(None)));
        assert!(rt; matches!(next_segment(&mut reader, &mut station), Ok(None)));
        assert_eq!(rt; station.travel().read, read);
    }
}
