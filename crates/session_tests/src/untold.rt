//! A station that tells nothing, whose file changes behind the program's back.

use super::rows::answered;
use key_slot::Key;
use mem_sessions::{Change, NO_CHANGE, NO_FAULTS, Part, changed_session, untold};
use pma_store::Store;
use recovery::open_store;
use std::alloc::Global;
use std::process::Abort;
use std::test::Fail;

// What changes of a file, the line that is asked then, the status, and what is said.
type Row = (Change, &'static [u8], u8, &'static [u8]);

// The opening of a store of one segment makes eight calls: an attach, a length and a read for the index to be closed, a sync, a
// length and three reads; the segment is read before the intent's gate, and lies at 24576.
const ONE_SEGMENT: &[Row] = &[
    ((8, 24576, 2), b"get a\n", 3, b"refused slot 0 0\n"),
    ((8, 24578, 33), b"get a\n", 3, b"refused slot 0 0\n"),
    ((8, 24576, 1), b"get a\n", 0, b"found 1\n"),
];

// That of a store of two makes as many, for one read is of both, and segment 1 of region 1 lies at 45056.
const TWO_SEGMENTS: &[Row] = &[((8, 45056, 2), b"get k065\n", 3, b"refused slot 1 0\n")];

// Sees what comes of each change of a file.
fn see_changes(rt: &impl Abort, alloc: Global, file: &[u8], rows: &[Row]) {
    for (change, line, want, said) in rows {
        let (status, station) = changed_session(alloc, file, *change, line).expect(rt, "memory");
        assert_eq!(rt; (status, station.said.as_slice()), (*want, *said));
    }
}

#[test]
fn a_segment_that_turns_bad_is_refused(rt: HostRuntime) {
    let one = [Part::Lines(b"put a 1\n", b"stored\n")];
    let file = answered(&rt, rt.alloc(), "0", &one);
    see_changes(&rt, rt.alloc(), &file, ONE_SEGMENT);
    let file = answered(&rt, rt.alloc(), "2", &[Part::Put(1, 65)]);
    see_changes(&rt, rt.alloc(), &file, TWO_SEGMENTS);
}

/// A store is made of parts whose fence of segment 1 was set to `k050`: it finds its segments by this index alone, so `k040`,
/// which stands in segment 1, is looked for in segment 0 of region 1, which ends at 45056.
#[test]
fn a_store_of_parts_goes_by_their_index(rt: HostRuntime) -> Result<(), Fail> {
    let file = answered(&rt, rt.alloc(), "2", &[Part::Put(1, 65)]);
    let mut station = untold(rt.alloc(), &file, NO_CHANGE, NO_FAULTS)?;
    let mut parts = open_store(rt.alloc(), &mut station)?;
    assert!(rt; parts.intent.is_none());
    assert!(rt; parts.tally.height() == 1);
    parts.index.set_fence(1, &Key::from_bytes(b"k050")?);
    let mut store = Store::from_parts(parts);
    let found = store.get(&mut station, &Key::from_bytes(b"k040")?)?;
    assert!(rt; found.is_none());
    assert_eq!(rt; station.travel.next, 45056);
    Ok(())
}
