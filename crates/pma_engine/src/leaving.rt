//! The end of a job that served a script.

ghost use Rattle.std.specs.Prelude.{◌≡◌, ◌≢◌, IsOk, OnOk, OnErr};
ghost use Rattle.station.specs.View.{Told, EachHeld, NothingPending, Rose};
ghost use Rattle.header_gate.specs.InPlace.{IsBare};
ghost use Rattle.header_gate.specs.declared.layout.TheConstants.{PAIRED};
ghost use Rattle.index_file.specs.Clean.{IsShut};
ghost use Rattle.pma_store.specs.Settling.{SettlesStore};
ghost use Rattle.pma_store.specs.StoreView.{IsOpenOn};
ghost use Rattle.pma_engine.specs.Closing.{LeavesIndex};
ghost use Rattle.pma_engine.specs.Ending.{EndsRun, IsSettledStatus};

use crate::status::{DISK_FAULT, DONE};
use header_gate::{INDEXED, PAIRED};
use index_file::leave_index;
use pma_store::Store;
use segment::StoreFault;
use station::Station;

/// Ends a run whose serving ended with this status: leaves nothing pending, and if all was done, the index of the store in its
/// file, if the file has room for one.
///
/// The index is left last, so that no commit comes behind it.
pub(crate) fn end_run<S: Station>(station: &mut S, store: Store, served: u8) -> u8
    requires status { IsSettledStatus served }
    requires open { IsOpenOn store (S.view station.old) }
    requires shut { EachHeld IsShut (S.view station.old) }
    ensures { EndsRun served result store (S.view station.old) (S.view station.new) }
{
    let mut store = store;
    match settle_store(station, &mut store) {
        Ok(()) => {
            if served == DONE {
                leave_file(station, store)
            } else {
                served
            }
        }
        Err(_) => DISK_FAULT,
    }
}

// Leaves nothing pending behind a store, and no page that is to be replayed over its live region. A file with one journal has neither
// between two commands, so that it can't fail there.
fn settle_store<S: Station>(station: &mut S, store: &mut Store) -> Result<(), StoreFault>
    requires open { IsOpenOn store.old (S.view station.old) }
    ensures settled { SettlesStore result store.old store.new (S.view station.old) (S.view station.new) }
    ensures open { OnOk result (IsOpenOn store.new (S.view station.new)) }
    ensures sure { store.old.place.layout.version ≢ PAIRED → IsOk result }
    ensures failed { OnErr result (Rose (S.view station.old).disk_faults (S.view station.new).disk_faults) }
{
    let layout = store.layout();
    if layout.version != PAIRED {
        return Ok(());
    }
    store.settle(station)
}

// Leaves the index of an open store in its file, if the file has room for one. Nothing else is done, and nothing is read.
fn leave_file<S: Station>(station: &mut S, store: Store) -> u8
    requires open { IsOpenOn store (S.view station.old) }
    requires nothing { NothingPending (S.view station.old) }
    requires bare { Told (S.view station.old) → IsBare store.place.layout (S.view station.old).held }
    requires shut { EachHeld IsShut (S.view station.old) }
    ensures { LeavesIndex result store (S.view station.old) (S.view station.new) }
{
    let mut parts = store.into_parts();
    if parts.place.layout.version < INDEXED {
        return DONE;
    }
    match leave_index(station, &mut parts) {
        Ok(()) => DONE,
        Err(_) => DISK_FAULT,
    }
}
