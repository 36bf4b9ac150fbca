//! The job of saying all records of a store.

ghost use Rattle.std.specs.Prelude.{◌≡◌, None, Some, false};
ghost use Rattle.station.specs.View.{NamedBy, NothingPending, Rose};
ghost use Rattle.index_file.specs.Clean.{KeepsClean};
ghost use Rattle.pma_store.specs.StoreView.{IsOpenOn};
ghost use Rattle.pma_engine.specs.Closing.{ClosesFirst};
ghost use Rattle.pma_engine.specs.Dumping.{DumpsFile, DumpsOpened, IsDumpStatus};

use crate::attaching::{end_unopened, open_file};
use crate::output_buffer::OutputBuffer;
use crate::range::say_sweep;
use crate::run::end_served;
use crate::status::{DISK_FAULT, REPLY_FAULT};
use bulk_load::sweep_all;
use pma_store::Store;
use range_scan::SegmentBuffer;
use station::Station;
use std::alloc::Global;

/// Opens the store of that name, and says the lines of all its records, ascending, and then a line with their number: a load
/// text. Nothing is written once the store is open.
///
/// If the file is refused, one line says why. What was said before a call failed is a front of the lines, and has no line with
/// the number, so no load takes it for the whole.
pub(crate) fn dump_file<S: Station>(alloc: Global, station: &mut S, name: &str) -> u8
    requires first { (S.view station.old).attached ≡ None }
    requires named { NamedBy name.now (S.view station.old).fixed.name }
    ensures status { IsDumpStatus result }
    ensures attached { (S.view station.new).attached ≡ Some false }
    ensures clean { KeepsClean (S.view station.old) (S.view station.new) }
    ensures closes { ClosesFirst (S.view station.old) (S.view station.new) }
    ensures dumped { DumpsFile result (S.view station.old) (S.view station.new) }
    ensures disk { result ≡ DISK_FAULT → Rose (S.view station.old).disk_faults (S.view station.new).disk_faults }
    ensures reply { result ≡ REPLY_FAULT → Rose (S.view station.old).say_faults (S.view station.new).say_faults }
{
    match open_file(alloc, station, name, false) {
        Ok(store) => dump_opened(station, store),
        Err(fault) => end_unopened(station, fault),
    }
}

// Says all records of an open store.
fn dump_opened<S: Station>(station: &mut S, store: Store) -> u8
    requires open { IsOpenOn store (S.view station.old) }
    requires nothing { NothingPending (S.view station.old) }
    ensures { DumpsOpened result store (S.view station.old) (S.view station.new) }
{
    let parts = store.into_parts();
    let mut page = SegmentBuffer::new();
    let mut buffer = OutputBuffer::new();
    let mut sweep = sweep_all(&parts.place, &parts.tally, &mut page);
    let said = say_sweep(&mut sweep, station, &mut buffer);
    end_served(station, said)
}
