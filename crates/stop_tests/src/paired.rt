//! Stores whose file has two journals: what a torn gate names, and what stops and failing calls leave. The sessions are those of
//! the other files, on a store that `create-paired` makes.

use super::batch_stops::{
    GROWS, ONE_SEGMENT, SHRINKS, SPREADS, TAKES_FIRST, TAKES_FIRST_LAST, see_batch,
};
use super::closings::see_commands;
use super::indexes::{see_each_fault, see_each_stop};
use super::openings::{changed, failed_at, image, see_opened_after_stops};
use super::repairs::{Room, see_repair, with_counts};
use super::stops::{UPDATES, see_noted, see_update, see_update_of};
use super::{load_stops, upgrades};
use Part::Lines;
use mem_sessions::{CALLS, Part, Verb, answered_by};
use station::Pick;
use std::alloc::Global;
use std::process::Abort;

// The command that makes a store with two journals.
const COMMAND: &str = "create-paired";

// Places in the file of a store of one segment: the gate, and the regions.
const GATE: usize = 512;

const REGION_0: usize = 45056;

const REGION_1: usize = 49152;

// A store of one segment after a script.
fn paired(rt: &impl Abort, alloc: Global, parts: &[Part]) -> Vec<u8> {
    answered_by(alloc, COMMAND, "0", None, parts).expect(rt, "the store")
}

// A put of a third record into a store of two, and what is found before it and after it.
const TWO: &[Part] = &[Lines(b"put a 1\nput b 2\n", b"stored\nstored\n")];

const TWO_RECORDS: &[u8] = b"record a 1\nrecord b 2\nend 2\n";

const THREE_RECORDS: &[u8] = b"record a 1\nrecord b 2\nrecord c 3\nend 3\n";

// Sees that a file with either low bit of the gate opens with the put or without it.
fn see_torn(rt: &impl Abort, alloc: Global, settled: &[u8]) {
    for gate in [0xFE, 0xFF] {
        let left = changed(rt, alloc, settled, &[(GATE, gate)]);
        see_opened_after_stops(rt, alloc, &left, (TWO_RECORDS, THREE_RECORDS), false);
    }
}

/// A gate that was pending names either journal, whatever its other bits are: behind a stop of a put at each of its calls the
/// store opens with the put or without it, and the opening may be stopped too.
#[test]
fn a_torn_gate_names_either_journal(rt: HostRuntime) {
    let file = paired(&rt, rt.alloc(), TWO);
    let session = see_noted(&rt, rt.alloc(), &file, b"put c 3\n");
    let mut torn = 0u32;
    for calls in 0..=session.calls() {
        let settled = image(&rt, rt.alloc(), &session, calls, Pick::Settled);
        let held = image(&rt, rt.alloc(), &session, calls, Pick::Held);
        if settled.get(GATE) != held.get(GATE) {
            torn = torn.saturating_add(1);
            see_torn(&rt, rt.alloc(), &settled);
        }
    }
    assert!(rt; torn > 0);
}

// A copy of a file with the bytes of another one from an offset up to another.
fn with_part(
    rt: &impl Abort,
    alloc: Global,
    file: &[u8],
    other: &[u8],
    offsets: (usize, usize),
) -> Vec<u8> {
    let (first, end) = offsets;
    let mut copy = changed(rt, alloc, file, &[]);
    for (offset, old) in copy.iter_mut().enumerate() {
        if first <= offset && offset < end {
            *old = other.get(offset).copied().unwrap_or(0);
        }
    }
    copy
}

// Sees that a file whose region is that of another one opens with one put or with both.
fn see_lost(rt: &impl Abort, alloc: Global, file: &[u8], other: &[u8]) {
    let left = with_part(rt, alloc, file, other, (REGION_0, REGION_1));
    let maps = (b"record a 1\nend 1\n".as_slice(), TWO_RECORDS);
    see_opened_after_stops(rt, alloc, &left, maps, false);
}

/// Behind a reply the pages of an update wait for the next sync. Where a call fails then, and the pages are lost, the next opening
/// brings them back from the journal.
#[test]
fn a_lost_page_comes_back(rt: HostRuntime) {
    let empty = paired(&rt, rt.alloc(), &[]);
    let mut lost = 0u32;
    for call in 0..CALLS {
        let script = b"put a 1\nput b 2\n";
        let failed = failed_at(&rt, rt.alloc(), Verb::Run, &empty, script, call);
        if failed.status == 0 {
            assert!(rt; lost > 0);
            return;
        }
        if failed.status == 4 && failed.said.as_slice() == b"stored\n".as_slice() {
            lost = lost.saturating_add(1);
            see_lost(&rt, rt.alloc(), &failed.file, &empty);
        }
    }
    panic!(rt; "the run makes more calls")
}

#[test]
fn a_stop_at_any_call_leaves_a_right_index_or_none(rt: HostRuntime) {
    see_each_stop(&rt, rt.alloc(), COMMAND);
}

#[test]
fn a_failed_call_leaves_a_right_index_or_none(rt: HostRuntime) {
    see_each_fault(&rt, rt.alloc(), COMMAND);
}

// Sees what a fault or a stop at each call of the updates from one number up to another leaves.
fn see_updates(rt: &impl Abort, alloc: Global, first: usize, end: usize, fails: bool) {
    for (number, update) in UPDATES.iter().enumerate() {
        if first <= number && number < end {
            see_update(rt, alloc, COMMAND, update, fails);
        }
    }
}

#[test]
fn a_failed_call_keeps_what_was_answered(rt: HostRuntime) {
    see_updates(&rt, rt.alloc(), 0, 4, true);
}

#[test]
fn a_failed_call_of_a_growth_or_a_removal(rt: HostRuntime) {
    see_updates(&rt, rt.alloc(), 4, 7, true);
}

#[test]
fn a_failed_call_of_a_spread_of_four(rt: HostRuntime) {
    see_updates(&rt, rt.alloc(), 7, usize::MAX, true);
}

#[test]
fn a_stop_at_any_call_keeps_what_was_answered(rt: HostRuntime) {
    see_updates(&rt, rt.alloc(), 0, 3, false);
}

#[test]
fn a_stop_at_any_call_of_a_spread_or_a_growth(rt: HostRuntime) {
    see_updates(&rt, rt.alloc(), 3, 5, false);
}

#[test]
fn a_stop_at_any_call_of_a_removal(rt: HostRuntime) {
    see_updates(&rt, rt.alloc(), 5, 7, false);
}

/// In several batches.
#[test]
fn a_stop_at_any_call_of_a_spread_of_four(rt: HostRuntime) {
    see_updates(&rt, rt.alloc(), 7, 8, false);
}

/// In one.
#[test]
fn a_stop_at_any_call_of_a_spread_in_one_batch(rt: HostRuntime) {
    see_updates(&rt, rt.alloc(), 8, usize::MAX, false);
}

#[test]
fn a_failed_call_keeps_what_was_answered_in_format_2(rt: HostRuntime) {
    for update in &upgrades::WIDE {
        upgrades::see_wide(&rt, rt.alloc(), COMMAND, update, true);
    }
}

#[test]
fn a_stop_at_any_call_keeps_what_was_answered_in_format_2(rt: HostRuntime) {
    for update in &upgrades::WIDE {
        upgrades::see_wide(&rt, rt.alloc(), COMMAND, update, false);
    }
}

// A store of slot format 1, and one of format 2 whose journals hold two segments.
const NARROW_PAIR: Room = Room {
    command: COMMAND,
    format: 1,
    height: "2",
    journal: None,
    region: REGION_0,
};

const WIDE_PAIR: Room = Room {
    command: COMMAND,
    format: 2,
    height: "3",
    journal: Some("4"),
    region: REGION_0,
};

#[test]
fn an_opening_repairs(rt: HostRuntime) {
    see_repair(&rt, rt.alloc(), NARROW_PAIR);
}

#[test]
fn an_opening_repairs_in_format_2(rt: HostRuntime) {
    see_repair(&rt, rt.alloc(), WIDE_PAIR);
}

/// A removal spreads four segments of few records in several batches.
#[test]
fn a_failed_call_of_a_spread_in_format_2(rt: HostRuntime) {
    let file = with_counts(&rt, rt.alloc(), WIDE_PAIR, &[4, 6, 10, 10]);
    let keys = ((1, 30), (2, 30));
    see_update_of(&rt, rt.alloc(), &file, b"remove k001\n", keys, true);
}

#[test]
fn a_failed_call_of_a_batch_leaves_none_or_all(rt: HostRuntime) {
    for batch in [&ONE_SEGMENT, &SHRINKS, &TAKES_FIRST, &TAKES_FIRST_LAST] {
        see_batch(&rt, rt.alloc(), COMMAND, batch, true);
    }
}

#[test]
fn a_failed_call_of_a_batch_that_grows_or_spreads(rt: HostRuntime) {
    see_batch(&rt, rt.alloc(), COMMAND, &GROWS, true);
    see_batch(&rt, rt.alloc(), COMMAND, &SPREADS, true);
}

#[test]
fn a_stop_of_a_batch_leaves_none_or_all(rt: HostRuntime) {
    for batch in [&ONE_SEGMENT, &GROWS, &SPREADS, &SHRINKS] {
        see_batch(&rt, rt.alloc(), COMMAND, batch, false);
    }
}

#[test]
fn a_stop_of_a_batch_that_takes_a_first_record(rt: HostRuntime) {
    for batch in [&TAKES_FIRST, &TAKES_FIRST_LAST] {
        see_batch(&rt, rt.alloc(), COMMAND, batch, false);
    }
}

#[test]
fn an_upgrade_keeps_the_records(rt: HostRuntime) {
    upgrades::see_failed_calls(&rt, rt.alloc(), COMMAND);
    upgrades::see_stops(&rt, rt.alloc(), COMMAND);
}

#[test]
fn a_load_leaves_none_or_all(rt: HostRuntime) {
    for is_wide in [false, true] {
        load_stops::see_failed_calls(&rt, rt.alloc(), COMMAND, is_wide);
        load_stops::see_stops(&rt, rt.alloc(), COMMAND, is_wide);
    }
}

#[test]
fn a_failed_call_of_a_word_that_closes_keeps_a_map(rt: HostRuntime) {
    see_commands(&rt, rt.alloc(), COMMAND, true);
}

#[test]
fn a_stop_at_any_call_of_a_word_that_closes_keeps_a_map(rt: HostRuntime) {
    see_commands(&rt, rt.alloc(), COMMAND, false);
}
