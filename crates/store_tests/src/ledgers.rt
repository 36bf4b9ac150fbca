//! What records that are put and removed in order are charged, one by one and as a batch.

ghost use Rattle.std.specs.Prelude.{◌≤◌};

use crate::batches::{Item, intent_of};
use crate::files::{FORMATS, file_of, layout_of, row};
use crate::sessions::Session;
use cost_ledger::Cost;
use header_gate::Layout;
use pma_store::Batch;
use std::alloc::Global;
use std::process::Abort;

// A session on an empty store.
fn empty_session(rt: &impl Abort, alloc: Global, layout: Layout) -> Session {
    let file = file_of(rt, alloc, layout, 0, [0; 8]);
    Session::over(rt, alloc, &file, 1000000)
}

// Puts the record of a number.
fn put_row(rt: &impl Abort, session: &mut Session, number: u32) {
    session
        .put(rt, &row(rt, number, session.format()))
        .expect(rt, "no fault");
}

// Puts the records with the numbers from 1 up to a last one.
fn put_rows(rt: &impl Abort, session: &mut Session, last: u32) {
    for number in 1..=last {
        put_row(rt, session, number);
    }
}

// Removes them.
fn remove_rows(rt: &impl Abort, session: &mut Session, last: u32) {
    for number in 1..=last {
        session
            .remove(rt, &row(rt, number, session.format()).key)
            .expect(rt, "no fault");
    }
}

/// How many records are put and then removed, how many updates that is, what they are charged, and the bound.
///
/// Of the puts the 65th and the 127th grow the store, and the 97th, 113th, 121st and 125th spread both segments. Of the
/// removals after 65 puts the 29th, 43rd, 50th and 54th do, and the 56th shrinks the store.
const SESSIONS: [(u32, u32, u64, u128, u128); 7] = [
    (0, 0, 0, 0, 32),
    (64, 0, 64, 128, 32928),
    (65, 0, 65, 133, 33442),
    (97, 0, 97, 227, 49890),
    (127, 0, 127, 382, 65310),
    (65, 29, 94, 221, 48348),
    (65, 56, 121, 367, 62226),
];

// Puts and removes records in an empty store of this layout, and sees what they are charged.
fn see_charge(
    rt: &impl Abort,
    alloc: Global,
    layout: Layout,
    puts: u32,
    removals: u32,
    cost: Cost,
) {
    let mut session = empty_session(rt, alloc, layout);
    put_rows(rt, &mut session, puts);
    remove_rows(rt, &mut session, removals);
    assert_eq!(rt; session.cost(), cost);
    session.end();
}

#[test]
fn records_are_charged(rt: HostRuntime) {
    for format in FORMATS {
        let layout = layout_of(format, 2, 4);
        for (puts, removals, updates, charge, bound) in SESSIONS {
            let cost = Cost {
                updates,
                charge,
                bound,
            };
            see_charge(&rt, rt.alloc(), layout, puts, removals, cost);
        }
    }
}

/// A put without room is charged nothing, and one of a present key as an update.
#[test]
fn a_full_store_is_charged_nothing(rt: HostRuntime) {
    let mut session = empty_session(&rt, rt.alloc(), layout_of(1, 0, 4));
    put_rows(&rt, &mut session, 65);
    put_row(&rt, &mut session, 1);
    let cost = Cost {
        updates: 66,
        charge: 130,
        bound: 33956,
    };
    assert_eq!(rt; session.cost(), cost);
    session.end();
}

/// How many records are put, the items of a batch then, how many updates that is in all, what they are charged, and the bound.
const BATCHES: [(u32, &[Item], u64, u128, u128); 4] = [
    (0, &[(true, 1), (true, 2), (false, 3)], 3, 4, 1574),
    // refused: no room for the second
    (63, &[(true, 100), (true, 101)], 63, 126, 32414),
    // it makes room for them
    (63, &[(false, 1), (true, 100), (true, 101)], 66, 132, 33956),
    (64, &[(true, 1), (false, 99)], 66, 130, 33956),
];

// Puts records into an empty store of one segment, makes a batch, and sees what they are charged, and that the batch is refused
// exactly if it is no update.
fn see_batch(rt: &impl Abort, alloc: Global, format: u32, puts: u32, items: &[Item], cost: Cost)
    requires { 1 ≤ format × (format ≤ 2) }
{
    let intent = intent_of(rt, alloc, format, items);
    let mut session = empty_session(rt, alloc, layout_of(format, 0, 4));
    put_rows(rt, &mut session, puts);
    let answer = session.batch(rt, &intent, format).expect(rt, "no fault");
    let is_full = answer == Batch::Full { most: 64 };
    assert!(rt; is_full == (cost.updates == u64::from(puts)));
    assert_eq!(rt; session.cost(), cost);
    session.end();
}

#[test]
fn a_batch_is_charged_by_its_items(rt: HostRuntime) {
    for format in FORMATS {
        for (puts, items, updates, charge, bound) in BATCHES {
            let cost = Cost {
                updates,
                charge,
                bound,
            };
            see_batch(&rt, rt.alloc(), format, puts, items, cost);
        }
    }
}

/// In a file without batches nothing is made, written or charged.
#[test]
fn a_file_of_version_1_is_charged_no_batch(rt: HostRuntime) {
    let layout = Layout {
        version: 1,
        ..layout_of(1, 0, 4)
    };
    let intent = intent_of(&rt, rt.alloc(), 1, &[(true, 1), (false, 2)]);
    let mut session = empty_session(&rt, rt.alloc(), layout);
    let file = Vec::from_slice(rt.alloc(), session.held()).expect(&rt, "memory");
    let answer = session.batch(&rt, &intent, 1).expect(&rt, "no fault");
    assert_eq!(rt; answer, Batch::NoBatch);
    assert_eq!(rt; session.cost().updates, 0);
    assert!(rt; session.held() == file.as_slice());
    session.end();
}
