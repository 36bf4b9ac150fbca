//! The clean gate: the byte whose low bit says that the index in the file is that of its array.

ghost use Rattle.std.specs.Prelude.{◌≡◌, ◌+◌, ◌≤◌, OnOk, OnErr};
ghost use Rattle.station.specs.Bytes.{byte, Touched};
ghost use Rattle.station.specs.View.{Told, NothingPending, Rose};
ghost use Rattle.station.specs.Steps.{Steps};
ghost use Rattle.header_gate.specs.Header.{HasPage};
ghost use Rattle.header_gate.specs.Places.{page_size};
ghost use Rattle.index_file.specs.Clean.{IsCleanPlace};

use header_gate::{Gate, set_gate};
use station::{Failed, Station};

/// Closes the clean gate, and syncs: from here on the index in the file means nothing.
///
/// After `Failed` the gate byte may be anything; no other byte changes.
pub fn close_clean<S: Station>(station: &mut S) -> Result<(), Failed>
    requires reach { page_size ≤ (S.view station.old).fixed.reach }
    requires page { HasPage (S.view station.old) }
    // At every moment, and in the held bytes whatever is answered, no byte differs but the clean gate's.
    ensures steps { Steps (Touched IsCleanPlace) (S.view station.old) (S.view station.new) }
    // On Ok the byte of the clean gate is 0, and nothing is pending.
    ensures settled { OnOk result (NothingPending (S.view station.new)) }
    ensures closed { OnOk result (Told (S.view station.old) → byte (S.view station.new).held 704 ≡ 0) }
    // Costs: at most one byte written, none read, at most two calls.
    ensures cost { (S.view station.new).travel.written ≤ (S.view station.old).travel.written + 1 }
    ensures no_reads { (S.view station.new).travel.read ≡ (S.view station.old).travel.read }
    ensures calls { (S.view station.new).calls ≤ (S.view station.old).calls + 2 }
    // Fails only if the count of disk faults rose.
    ensures cause { OnErr result (Rose (S.view station.old).disk_faults (S.view station.new).disk_faults) }
{
    set_gate(station, Gate::Clean, false)
}
