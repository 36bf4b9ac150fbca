//! Records are put and removed in order: which updates spread a window, grow or shrink the store, and what reports say.

use crate::files::{Counts, FORMATS, file_of, layout_of, row, see_records};
use crate::store::Bench;
use density_rule::Window;
use header_gate::Layout;
use pma_store::{Checked, Put, Report};
use station::MemStation;
use std::alloc::Global;
use std::process::Abort;

/// The number of an update that spreads both segments, and how many updates the segment that was the cause had had since
/// the last spread; or of one that changes the height, and none.
type Event = (u32, Option<u64>);

const PUTS: [Event; 6] = [
    (65, None),
    (97, Some(32)),
    (113, Some(16)),
    (121, Some(8)),
    (125, Some(4)),
    (127, None),
];

// (of a store of 65 records)
const REMOVALS: [Event; 5] = [
    (29, Some(28)),
    (43, Some(14)),
    (50, Some(7)),
    (54, Some(4)),
    (56, None),
];

// What the report of an update says.
fn wanted(events: &[Event], number: u32) -> Report {
    let mut report = Report {
        rebalanced: None,
        child_updates: None,
        resized: false,
    };
    for (at, updates) in events {
        if *at == number {
            report.resized = updates.is_none();
            report.child_updates = *updates;
            report.rebalanced = updates.map(|_| Window {
                height: 1,
                number: 0,
            });
        }
    }
    report
}

/// A store on a station in memory that holds a file.
pub fn bench_of(rt: &impl Abort, alloc: Global, file: &[u8]) -> Bench<MemStation> {
    assert!(rt; file.len() < 1000000);
    let station = MemStation::new(alloc, file, file.len(), 0, &[], None).expect(rt, "memory");
    Bench::open(alloc, station).expect(rt, "it opens")
}

/// An empty store in memory.
pub fn empty_bench(rt: &impl Abort, alloc: Global, layout: Layout) -> Bench<MemStation> {
    let file = file_of(rt, alloc, layout, 0, [0; 8]);
    bench_of(rt, alloc, &file)
}

// Puts the record of a number.
fn put_row(rt: &impl Abort, bench: &mut Bench<MemStation>, number: u32) -> (Put, Report) {
    bench
        .put(rt, &row(rt, number, bench.format()))
        .expect(rt, "no fault")
}

// Removes the record of a number.
fn remove_row(rt: &impl Abort, bench: &mut Bench<MemStation>, number: u32) -> (bool, Report) {
    bench
        .remove(rt, &row(rt, number, bench.format()).key)
        .expect(rt, "no fault")
}

// Puts the records with the numbers from 1 up to `last`, and sees what comes of each.
fn see_puts(rt: &impl Abort, bench: &mut Bench<MemStation>, last: u32) {
    for number in 1..=last {
        let answer = put_row(rt, bench, number);
        assert!(rt; answer == (Put::New, wanted(&PUTS, number)), "put {number}");
    }
}

// Removes the records with the numbers from 1 up to `last`, and sees what comes of each.
fn see_removals(rt: &impl Abort, bench: &mut Bench<MemStation>, last: u32) {
    for number in 1..=last {
        let answer = remove_row(rt, bench, number);
        assert!(rt;
            answer == (true, wanted(&REMOVALS, number)),
            "removal {number}"
        );
    }
}

/// How many records are put and then removed, and the height and the counts that are left.
const SESSIONS: [(u32, u32, u32, Counts); 9] = [
    (64, 0, 0, [64, 0, 0, 0, 0, 0, 0, 0]),
    (65, 0, 1, [32, 33, 0, 0, 0, 0, 0, 0]),
    (97, 0, 1, [48, 49, 0, 0, 0, 0, 0, 0]),
    (126, 0, 1, [62, 64, 0, 0, 0, 0, 0, 0]),
    (127, 0, 2, [31, 32, 31, 33, 0, 0, 0, 0]),
    (65, 28, 1, [4, 33, 0, 0, 0, 0, 0, 0]),
    (65, 29, 1, [17, 19, 0, 0, 0, 0, 0, 0]),
    (65, 55, 1, [4, 6, 0, 0, 0, 0, 0, 0]),
    (65, 56, 0, [9, 0, 0, 0, 0, 0, 0, 0]),
];

// Puts the records with the numbers from 1 up to `puts` into an empty store of this layout, removes those up to `removals`, and
// sees what is left.
fn see_session(
    rt: &impl Abort,
    alloc: Global,
    layout: Layout,
    puts: u32,
    removals: u32,
    left: (u32, Counts),
) {
    let mut bench = empty_bench(rt, alloc, layout);
    see_puts(rt, &mut bench, puts);
    see_removals(rt, &mut bench, removals);
    assert!(rt; removals <= puts && puts < 1000);
    let checked = Checked {
        records: puts - removals,
        height: left.0,
    };
    assert_eq!(rt; bench.check(rt).expect(rt, "no fault"), checked);
    let found = see_records(rt, bench.held(), layout, removals + 1, puts);
    assert_eq!(rt; found, left);
    bench.end();
}

#[test]
fn records_are_put_and_removed_in_order(rt: HostRuntime) {
    for format in FORMATS {
        let layout = layout_of(format, 2, 4);
        for (puts, removals, height, counts) in SESSIONS {
            see_session(&rt, rt.alloc(), layout, puts, removals, (height, counts));
        }
    }
}

// Fills an empty store of this layout, which has at most two segments, and sees that it takes no other record.
fn see_full(rt: &impl Abort, alloc: Global, layout: Layout) {
    let mut bench = empty_bench(rt, alloc, layout);
    see_puts(rt, &mut bench, 126);
    let full = (Put::Full { most: 126 }, wanted(&[], 0));
    for number in [127, 0] {
        let answer = put_row(rt, &mut bench, number);
        assert!(rt; answer == full, "put {number}");
    }
    let found = see_records(rt, bench.held(), layout, 1, 126);
    assert_eq!(rt; found, (1, [62, 64, 0, 0, 0, 0, 0, 0]));
    bench.end();
}

/// A new key finds no room, whichever segment it belongs to.
#[test]
fn a_store_of_two_segments_is_full(rt: HostRuntime) {
    for format in FORMATS {
        see_full(&rt, rt.alloc(), layout_of(format, 1, 4));
    }
}

// Puts records into an opened store of 32 and 64 of this layout, and sees which puts spread both segments.
fn see_spreads(rt: &impl Abort, alloc: Global, layout: Layout) {
    let file = file_of(rt, alloc, layout, 1, [32, 64, 0, 0, 0, 0, 0, 0]);
    let mut bench = bench_of(rt, alloc, &file);
    for number in 97..=113 {
        let (put, report) = put_row(rt, &mut bench, number);
        let spread = number == 97 || number == 113;
        assert!(rt; put == Put::New && report.rebalanced.is_some() == spread);
        let updates = (number == 113).then_some(16);
        assert_eq!(rt; report.child_updates, updates);
    }
    bench.end();
}

/// No window is rested in a store that was opened, so the first spread tells no number of updates; the next one does.
#[test]
fn an_opened_store_of_32_and_64_records(rt: HostRuntime) {
    for format in FORMATS {
        see_spreads(&rt, rt.alloc(), layout_of(format, 2, 4));
    }
}
