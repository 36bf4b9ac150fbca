//! Stores that are opened by their region or by their index. Each call is made here alone, since a function that makes one takes
//! in all that it promises when it is proved, and a test has use for a few clauses of it at most.

ghost use Rattle.std.specs.Prelude.{◌≡◌, ◌≤◌, IfOk, IfSome};
ghost use Rattle.station.specs.View.{Told, EachHeld, NothingPending};
ghost use Rattle.header_gate.specs.InPlace.{IsBare};
ghost use Rattle.header_gate.specs.Places.{file_length};
ghost use Rattle.recovery.specs.StoreParts.{Fits, AgreesWith};
ghost use Rattle.redo_journal.specs.Rest.{RestsAt};
ghost use Rattle.segment_frames.specs.FrameStanding.{StandsFor};

use crate::untold::UntoldStation;
use index_file::open_quick;
use recovery::{OpenFault, Parts, open_store};
use resize_region::clear_store;
use station::Station;
use std::alloc::Global;

/// Opens a store by its region.
pub fn open_parts<S: Station>(alloc: Global, station: &mut S) -> Result<Parts, OpenFault>
    ensures agrees { IfOk result (λ parts. EachHeld (AgreesWith parts.place parts.tally parts.index) (S.view station.new)) }
    ensures fits { IfOk result (λ parts. Fits parts.place parts.tally parts.index parts.frames.journal) }
    ensures reach { IfOk result (λ parts. file_length parts.place.layout ≤ (S.view station.new).fixed.reach) }
    ensures rests { IfOk result (λ parts. RestsAt parts.place.layout parts.frames.turn (S.view station.new)) }
{
    open_store(alloc, station)
}

/// Whether a store is opened by its region.
pub fn opens<S: Station>(alloc: Global, station: &mut S) -> Result<(), OpenFault> {
    match open_parts(alloc, station) {
        Ok(parts) => {
            end(parts);
            Ok(())
        }
        Err(fault) => Err(fault),
    }
}

/// Opens a store by its region, and makes the live one of two journals empty.
pub fn open_cleared<S: Station>(alloc: Global, station: &mut S) -> Result<Parts, OpenFault>
    ensures fits { IfOk result (λ parts. Fits parts.place parts.tally parts.index parts.frames.journal) }
    ensures stands { IfOk result (λ parts. EachHeld (StandsFor parts.place parts.tally) (S.view station.new)) }
    ensures nothing { IfOk result (λ parts. NothingPending (S.view station.new)) }
    ensures bare { IfOk result (λ parts. Told (S.view station.new) → IsBare parts.place.layout (S.view station.new).held) }
    ensures reach { IfOk result (λ parts. file_length parts.place.layout ≤ (S.view station.new).fixed.reach) }
    ensures rests { IfOk result (λ parts. RestsAt parts.place.layout parts.frames.turn (S.view station.new)) }
{
    let mut parts = open_parts(alloc, station)?;
    match clear_store(station, &parts.place, &mut parts.frames) {
        Ok(()) => Ok(parts),
        Err(_) => Err(OpenFault::Failed),
    }
}

/// Opens a store by its index, if that was left.
pub fn open_by_index(alloc: Global, station: &mut UntoldStation) -> Result<Option<Parts>, OpenFault>
    ensures { IfOk result (λ given. IfSome given (λ parts. parts.index.height ≡ parts.tally.height)) }
{
    open_quick(alloc, station)
}

/// Whether a store is opened by its index.
pub fn opens_by_index(alloc: Global, station: &mut UntoldStation) -> Result<bool, OpenFault> {
    match open_by_index(alloc, station) {
        Ok(Some(parts)) => {
            end(parts);
            Ok(true)
        }
        Ok(None) => Ok(false),
        Err(fault) => Err(fault),
    }
}

/// Gives the parts of a store up. A function that has them at several exits drops them in each, which costs its proof more than
/// all else.
pub fn end(_parts: Parts) {}
