//! How many device calls an update makes and how many bytes it writes, in files with one journal and with two.

ghost use Rattle.std.specs.Prelude.{◌≤◌};

use crate::files::{file_of, layout_of, noting, row};
use crate::store::Bench;
use header_gate::{INDEXED, Layout, PAIRED};
use station::{CrashStation, Station};
use std::alloc::Global;
use std::process::Abort;

// The calls that were made, and the bytes that were written.
fn spent(bench: &Bench<CrashStation>) -> (usize, u64) {
    (bench.station.noted(), bench.station.travel().written)
}

// The calls and the bytes that a put makes behind that many records of one segment.
fn put_next(rt: &impl Abort, alloc: Global, layout: Layout, count: u32) -> (usize, u64)
    requires { count ≤ 64 }
{
    let file = file_of(rt, alloc, layout, 0, [count, 0, 0, 0, 0, 0, 0, 0]);
    let row = row(rt, count + 1, layout.format);
    let mut bench = Bench::open(alloc, noting(rt, alloc, &file)).expect(rt, "it opens");
    let (calls, bytes) = spent(&bench);
    bench.put(rt, &row).expect(rt, "no fault");
    let (all_calls, all_bytes) = spent(&bench);
    bench.end();
    (
        all_calls.saturating_sub(calls),
        all_bytes.saturating_sub(bytes),
    )
}

/// Version, slot format, the records before, and calls and bytes of a put of one more.
///
/// With one journal it reads the segment, writes table, image and gate with a sync behind the last two, writes the segment with
/// a sync, and closes the gate with a sync. With two it reads the segment, writes table and image with a sync, the gate with a
/// sync, and the segment. Where that is full, the store grows first, and the segment is read once more: the old one is read, the
/// two new ones are written, by one call, or one each where the journal holds no more than two, copy and selector are written
/// with a sync each, and before all that the live one of two journals is made empty by a count and a gate with a sync each.
const PUTS: [(u32, u32, u32, usize, u64); 8] = [
    (INDEXED, 1, 40, 10, 8 + 4096 + 1 + 4096 + 1),
    (INDEXED, 2, 40, 10, 12 + 8192 + 1 + 8192 + 1),
    (PAIRED, 1, 40, 7, 8 + 4096 + 1 + 4096),
    (PAIRED, 2, 40, 7, 12 + 8192 + 1 + 8192),
    (INDEXED, 1, 64, 17, 8192 + 9 + 8202),
    (INDEXED, 2, 64, 18, 16384 + 9 + 16398),
    (PAIRED, 1, 64, 18, 5 + 8192 + 9 + 8201),
    (PAIRED, 2, 64, 19, 5 + 16384 + 9 + 16397),
];

#[test]
fn a_put_makes_so_many_calls(rt: HostRuntime) {
    for (version, format, count, calls, bytes) in PUTS {
        assert!(rt; 1 <= format && format <= 2 && count <= 64);
        let layout = Layout {
            version,
            ..layout_of(format, 2, 4)
        };
        let found = put_next(&rt, rt.alloc(), layout, count);
        assert_eq!(rt; found, (calls, bytes), "version {version}, format {format}");
    }
}
