//! Openings that repair a store whose windows are outside their bounds, stopped at each call.

use super::openings::{changed, range_over, see_opened, see_opened_after_stops};
use super::stops::see_stops;
use mem_sessions::{answered_by, push_key};
use std::alloc::Global;
use std::process::Abort;

// The offset of region 0 in a store of height limit 2, behind two pages and four images.
const REGION_0: usize = 24576;

// The records of the segment at an offset.
fn records_at(file: &[u8], offset: usize) -> u32 {
    let mut count = 0u32;
    for slot in 0..64usize {
        if file.get(offset.saturating_add(64 * slot)) == Some(&1) {
            count = count.saturating_add(1);
        }
    }
    count
}

// Sees that the segments from an offset on hold that many records.
fn see_shares(rt: &impl Abort, file: &[u8], offset: usize, shares: &[u32]) {
    let mut offset = offset;
    for share in shares {
        assert_eq!(rt; records_at(file, offset), *share);
        offset = offset.saturating_add(4096);
    }
}

// Writes a record into a slot: the size of its key, no value, and the key.
fn set_record(file: &mut [u8], offset: usize, key: &[u8]) {
    for (i, byte) in [1, 4, 0, 0, 0, 0, 0, 0].iter().chain(key).enumerate() {
        if let Some(old) = file.get_mut(offset.saturating_add(i)) {
            *old = *byte;
        }
    }
}

// Writes records from an offset on whose slots have this size, by 64 bytes: that many keys behind a number. Gives the last number.
fn set_records(
    rt: &impl Abort,
    alloc: Global,
    file: &mut [u8],
    slots: (usize, usize),
    keys: (u32, u32),
) -> u32 {
    let (mut offset, size) = slots;
    let (mut number, count) = keys;
    for _ in 0..count {
        number = number.saturating_add(1);
        let mut key = Vec::new(alloc);
        push_key(&mut key, number).expect(rt, "memory");
        set_record(file, offset, &key);
        offset = offset.saturating_add(size.saturating_mul(64));
    }
    number
}

// The command that makes a store, a slot format, the height limit with which a store of it may have height 2, a journal, and
// the offset of region 0 then.
#[derive(Clone, Copy)]
pub(super) struct Room {
    pub(super) command: &'static str,
    pub(super) format: u8,
    pub(super) height: &'static str,
    pub(super) journal: Option<&'static str>,
    pub(super) region: usize,
}

const NARROW: Room = Room {
    command: "create",
    format: 1,
    height: "2",
    journal: None,
    region: REGION_0,
};

pub(super) const WIDE: Room = Room {
    command: "create",
    format: 2,
    height: "3",
    journal: None,
    region: 40960,
};

// A file of a slot format and height 2 whose segments hold these numbers of records, of ascending keys from `k001` on.
pub(super) fn with_counts(
    rt: &impl Abort,
    alloc: Global,
    room: Room,
    counts: &[u32; 4],
) -> Vec<u8> {
    let size = usize::from(room.format);
    let empty = answered_by(alloc, room.command, room.height, room.journal, &[]);
    let changes = [(1024, 2), (1028, room.format), (704, 0)];
    let mut file = changed(rt, alloc, &empty.expect(rt, "the store"), &changes);
    let mut number = 0u32;
    let mut offset = room.region;
    for count in counts {
        number = set_records(rt, alloc, &mut file, (offset, size), (number, *count));
        offset = offset.saturating_add(4096 * size);
    }
    file
}

// The counts of four segments, what an opening makes of them, and how many records that is.
const REPAIRS: [([u32; 4], [u32; 4], u32); 4] = [
    ([60, 2, 31, 33], [31, 31, 31, 33], 126),
    ([64, 64, 31, 33], [48, 48, 48, 48], 192),
    ([30, 30, 30, 3], [30, 30, 16, 17], 93),
    ([4, 5, 6, 20], [8, 9, 9, 9], 35),
];

// Sees that an opening of a file gives that many records, also once it was stopped. Gives the file that it leaves.
fn see_repaired(rt: &impl Abort, alloc: Global, file: &[u8], total: u32) -> Vec<u8> {
    let map = range_over(rt, alloc, (1, total));
    let opened = see_opened(rt, alloc, file, (&map, &map), true);
    see_opened_after_stops(rt, alloc, file, (&map, &map), true);
    see_stops(rt, alloc, file, b"", (&map, &map));
    opened
}

/// Windows outside their bounds are spread when the store is opened, with a journal of four segments.
#[test]
fn an_opening_repairs(rt: HostRuntime) {
    for (counts, repaired, total) in &REPAIRS {
        let file = with_counts(&rt, rt.alloc(), NARROW, counts);
        let opened = see_repaired(&rt, rt.alloc(), &file, *total);
        see_shares(&rt, &opened, REGION_0, repaired);
    }
}

// Sees that an opening spreads the segments of the first row in a store of such room, also once it was stopped.
pub(super) fn see_repair(rt: &impl Abort, alloc: Global, room: Room) {
    let (counts, _, total) = REPAIRS[0];
    let file = with_counts(rt, alloc, room, &counts);
    let opened = see_repaired(rt, alloc, &file, total);
    assert!(rt; opened.as_slice() != file.as_slice());
}

/// So they are in slot format 2.
#[test]
fn an_opening_repairs_in_format_2(rt: HostRuntime) {
    see_repair(&rt, rt.alloc(), WIDE);
}
