//! Batches that grow, spread and shrink a store, or are one commit, stopped or failing at every call, and opened again: the file has none of
//! their items or all of them.

ghost use Rattle.std.specs.Prelude.{◌≤◌, T, length, IfOk};
ghost use Rattle.std.specs.List.{list_all};
ghost use Rattle.batch_intent.specs.Spelling.{fits_item};
ghost use Rattle.pma_store.specs.StoreView.{IsOpenOn};

use crate::files::{Counts, FORMATS, file_of, lay, layout_of, noting, row, see_records};
use crate::store::{Bench, batch, open, opens};
use crate::stores::bench_of;
use batch_intent::{Intent, MOST_ITEMS, read_intent};
use header_gate::Layout;
use pma_store::{Batch, Store};
use station::{CrashStation, MemStation, Pick, Station};
use std::alloc::Global;
use std::process::Abort;

// The most calls that an opening, and a batch behind it, make in these tests.
const CALLS: u32 = 120;

/// An item: whether it puts a record, and the number of that, or of the one that it removes.
pub type Item = (bool, u32);

// The bytes of an intent of these items, with records of a format.
fn spelled(rt: &impl Abort, alloc: Global, format: u32, items: &[Item]) -> Vec<u8> {
    assert!(rt; items.len() <= MOST_ITEMS as usize);
    let mut bytes = Vec::from_slice(alloc, &[items.len() as u8]).expect(rt, "memory");
    for (puts, number) in items {
        let row = row(rt, *number, format);
        let key = row.key.as_bytes();
        if *puts {
            let value = row.value.as_bytes();
            bytes
                .extend_from_slice(&[1, key.len() as u8, value.len() as u8])
                .expect(rt, "memory");
            bytes.extend_from_slice(key).expect(rt, "memory");
            bytes.extend_from_slice(value).expect(rt, "memory");
        } else {
            bytes
                .extend_from_slice(&[2, key.len() as u8, 0])
                .expect(rt, "memory");
            bytes.extend_from_slice(key).expect(rt, "memory");
        }
    }
    bytes
}

/// The intent of these items, with records of a format, as a file has it.
pub fn intent_of(rt: &impl Abort, alloc: Global, format: u32, items: &[Item]) -> Intent
    requires { 1 ≤ format × (format ≤ 2) }
    ensures { (1 ≤ length result) × T (list_all (fits_item format) result) }
{
    let mut page = vec![in alloc; 0; 4096].expect(rt, "memory");
    lay(rt, &mut page, 640, &[1]);
    lay(rt, &mut page, 3584, &spelled(rt, alloc, format, items));
    let mut station = MemStation::new(alloc, &page, 4096, 0, &[], None).expect(rt, "memory");
    let read = read_intent(&mut station, layout_of(format, 2, 4)).expect(rt, "an intent");
    read.expect(rt, "an odd gate")
}

/// The height and the counts before a batch, its items, the last number of the records, the last one behind the batch, which
/// has taken the first record away, and what it answers.
type Row = (u32, Counts, &'static [Item], u32, u32, Batch);

const BATCHES: [Row; 5] = [
    // grows to height 1
    (
        0,
        [64, 0, 0, 0, 0, 0, 0, 0],
        &[(true, 65), (false, 1), (true, 2), (false, 999)],
        64,
        65,
        Batch::Done {
            stored: 1,
            replaced: 1,
            removed: 1,
            absent: 1,
            charge: 9,
        },
    ),
    // spreads both segments
    (
        1,
        [32, 64, 0, 0, 0, 0, 0, 0],
        &[(true, 97), (false, 1)],
        96,
        97,
        Batch::Done {
            stored: 1,
            replaced: 0,
            removed: 1,
            absent: 0,
            charge: 34,
        },
    ),
    // shrinks to height 0
    (
        1,
        [4, 6, 0, 0, 0, 0, 0, 0],
        &[(false, 1), (true, 11)],
        10,
        11,
        Batch::Done {
            stored: 1,
            replaced: 0,
            removed: 1,
            absent: 0,
            charge: 6,
        },
    ),
    // is one commit of three segments where the journal holds them
    (
        2,
        [20, 20, 20, 20, 0, 0, 0, 0],
        &[(true, 81), (false, 1), (true, 30)],
        80,
        81,
        Batch::Done {
            stored: 1,
            replaced: 1,
            removed: 1,
            absent: 0,
            charge: 6,
        },
    ),
    // is one commit of two segments, at both formats
    (
        2,
        [20, 20, 20, 20, 0, 0, 0, 0],
        &[(true, 81), (false, 1)],
        80,
        81,
        Batch::Done {
            stored: 1,
            replaced: 0,
            removed: 1,
            absent: 0,
            charge: 4,
        },
    ),
];

// Makes a batch in a store of this format, unless a call fails.
fn batch_in<S: Station>(
    rt: &impl Abort,
    store: &mut Store,
    station: &mut S,
    format: u32,
    intent: &Intent,
) -> Option<Batch>
    requires open { IsOpenOn store.old (S.view station.old) }
    requires some { 1 ≤ length intent.now }
    requires fit { T (list_all (fits_item format) intent.now) }
{
    assert!(rt; store.format() == format);
    batch(store, station, intent).ok()
}

// Opens a store of this format and makes a batch, unless a call fails.
fn batch_once<S: Station>(
    rt: &impl Abort,
    alloc: Global,
    station: &mut S,
    format: u32,
    intent: &Intent,
) -> Option<Batch>
    requires some { 1 ≤ length intent.now }
    requires fit { T (list_all (fits_item format) intent.now) }
{
    match open(alloc, station) {
        Ok(mut store) => batch_in(rt, &mut store, station, format, intent),
        Err(_) => None,
    }
}

// Opens a file, sees that it has the records before a batch or those behind it, and answers whether it has the latter.
fn see_either(rt: &impl Abort, alloc: Global, file: &[u8], layout: Layout, batch: &Row) -> bool {
    let mut bench = bench_of(rt, alloc, file);
    let (_, _, _, before, after, _) = *batch;
    assert!(rt; before < 1000 && after < 1000);
    let first = bench
        .get(rt, &row(rt, 1, layout.format).key)
        .expect(rt, "no fault");
    let is_before = first.is_some();
    let held = bench.held();
    assert!(rt; held.len() > 640 && held[640] == 0, "the gate");
    if is_before {
        see_records(rt, held, layout, 1, before);
    } else {
        see_records(rt, held, layout, 2, after);
    }
    bench.end();
    !is_before
}

// Stops the opening of a file at each of its calls: it has the same records then. A call that fails alone leaves what a stop at it
// leaves; what the last one left isn't opened again.
fn see_stopped_openings(
    rt: &impl Abort,
    alloc: Global,
    file: &[u8],
    layout: Layout,
    batch: &Row,
    is_after: bool,
) {
    let mut last = Vec::from_slice(alloc, file).expect(rt, "memory");
    assert!(rt; file.len() < 1000000);
    for call in 0..CALLS {
        let mut stopped = MemStation::new(alloc, file, file.len(), 0, &[], Some(call)).expect(
            rt, "memory",
        );
        let mut failed = MemStation::new(alloc, file, file.len(), 0, &[call], None).expect(
            rt, "memory",
        );
        let is_stopped = !opens(alloc, &mut stopped);
        let is_failed = !opens(alloc, &mut failed);
        assert!(rt; is_stopped == is_failed && stopped.held() == failed.held());
        if !is_stopped {
            return;
        }
        if stopped.held() != last.as_slice() {
            let again = see_either(rt, alloc, stopped.held(), layout, batch);
            assert_eq!(rt; again, is_after);
            last = Vec::from_slice(alloc, stopped.held()).expect(rt, "memory");
        }
    }
    panic!(rt; "the opening makes more calls");
}

// Opens what a batch has left that was stopped, failed or done, in format 1 also after stops.
fn see_left(
    rt: &impl Abort,
    alloc: Global,
    file: &[u8],
    layout: Layout,
    batch: &Row,
    is_done: bool,
) {
    let is_after = see_either(rt, alloc, file, layout, batch);
    assert!(rt; is_after || !is_done);
    if layout.format == 1 {
        see_stopped_openings(rt, alloc, file, layout, batch, is_after);
    }
}

// Has each call fail in turn while a store is opened and a batch is made in it. What the last fault left isn't opened again.
fn see_faults(rt: &impl Abort, alloc: Global, format: u32, batch: &Row)
    requires { 1 ≤ format × (format ≤ 2) }
{
    let (height, counts, items, _, _, want) = *batch;
    let layout = layout_of(format, 2, 4);
    let file = file_of(rt, alloc, layout, height, counts);
    let intent = intent_of(rt, alloc, format, items);
    let mut last = Vec::new(alloc);
    assert!(rt; file.len() < 1000000);
    for call in 0..CALLS {
        let mut station = MemStation::new(alloc, &file, file.len(), 0, &[call], None).expect(
            rt, "memory",
        );
        let done = batch_once(rt, alloc, &mut station, format, &intent);
        if done.is_some() {
            assert_eq!(rt; done, Some(want));
            return see_left(rt, alloc, station.held(), layout, batch, true);
        }
        if station.held() != last.as_slice() {
            last = Vec::from_slice(alloc, station.held()).expect(rt, "memory");
            see_left(rt, alloc, &last, layout, batch, false);
        }
    }
    panic!(rt; "the batch makes more calls");
}

// Stops a batch behind each of its calls, with what is pending lost or torn. What is left with all held bytes is what a fault at
// the next call leaves, so that isn't looked at here.
fn see_stops(rt: &impl Abort, alloc: Global, format: u32, batch: &Row)
    requires { 1 ≤ format × (format ≤ 2) }
{
    let (height, counts, items, _, _, want) = *batch;
    let layout = layout_of(format, 2, 4);
    let file = file_of(rt, alloc, layout, height, counts);
    let intent = intent_of(rt, alloc, format, items);
    let mut station = noting(rt, alloc, &file);
    let done = batch_once(rt, alloc, &mut station, format, &intent);
    assert_eq!(rt; done, Some(want));
    for pick in [Pick::Settled, Pick::Fill(255)] {
        see_images(rt, alloc, &station, pick, layout, batch);
    }
}

// Opens what a crash after each of a batch's calls leaves with what is pending left so, but for what the last one left.
fn see_images(
    rt: &impl Abort,
    alloc: Global,
    station: &CrashStation,
    pick: Pick,
    layout: Layout,
    batch: &Row,
) {
    let noted = station.noted();
    let mut last = Vec::new(alloc);
    assert!(rt; noted < 400, "there was room for all notes");
    for calls in 0..=noted as u32 {
        let image = station.crash_image(alloc, calls, pick).expect(rt, "memory");
        let is_done = calls as usize == noted;
        if image != last || is_done {
            see_left(rt, alloc, &image, layout, batch, is_done);
            last = image;
        }
    }
}

#[test]
fn a_failed_call_of_a_batch_that_grows(rt: HostRuntime) {
    for format in FORMATS {
        see_faults(&rt, rt.alloc(), format, &BATCHES[0]);
    }
}

#[test]
fn a_failed_call_of_a_batch_that_spreads(rt: HostRuntime) {
    for format in FORMATS {
        see_faults(&rt, rt.alloc(), format, &BATCHES[1]);
    }
}

#[test]
fn a_failed_call_of_a_batch_that_shrinks(rt: HostRuntime) {
    for format in FORMATS {
        see_faults(&rt, rt.alloc(), format, &BATCHES[2]);
    }
}

#[test]
fn a_batch_that_grows_is_stopped_at_every_call(rt: HostRuntime) {
    see_stops(&rt, rt.alloc(), 1, &BATCHES[0])
}

#[test]
fn a_batch_that_spreads_is_stopped_at_every_call(rt: HostRuntime) {
    see_stops(&rt, rt.alloc(), 1, &BATCHES[1])
}

#[test]
fn a_batch_that_shrinks_is_stopped_at_every_call(rt: HostRuntime) {
    see_stops(&rt, rt.alloc(), 1, &BATCHES[2])
}

#[test]
fn a_batch_of_format_2_is_stopped_at_every_call(rt: HostRuntime) {
    see_stops(&rt, rt.alloc(), 2, &BATCHES[0])
}

#[test]
fn a_failed_call_of_a_batch_of_three_segments(rt: HostRuntime) {
    for format in FORMATS {
        see_faults(&rt, rt.alloc(), format, &BATCHES[3]);
    }
}

#[test]
fn a_batch_of_three_segments_is_stopped_at_every_call(rt: HostRuntime) {
    see_stops(&rt, rt.alloc(), 1, &BATCHES[3])
}

#[test]
fn a_batch_of_three_segments_of_format_2_is_stopped_at_every_call(rt: HostRuntime) {
    see_stops(&rt, rt.alloc(), 2, &BATCHES[3])
}

#[test]
fn a_failed_call_of_a_batch_of_two_segments_of_format_2(rt: HostRuntime) {
    see_faults(&rt, rt.alloc(), 2, &BATCHES[4])
}

#[test]
fn a_batch_of_two_segments_of_format_2_is_stopped_at_every_call(rt: HostRuntime) {
    see_stops(&rt, rt.alloc(), 2, &BATCHES[4])
}
