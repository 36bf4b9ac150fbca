//! The intent in the file, and its gate: the byte whose low bit says that the items are to be applied.

ghost use Rattle.std.specs.Prelude.{◌≡◌, ◌+◌, ◌≤◌, length, OnOk, OnErr};
ghost use Rattle.station.specs.Bytes.{byte, Touched};
ghost use Rattle.station.specs.View.{Told, NothingPending, Rose};
ghost use Rattle.station.specs.Steps.{Steps};
ghost use Rattle.batch_intent.specs.declared.places.TheConstants.{INTENT_SIZE};
ghost use Rattle.header_gate.specs.Header.{HasPage};
ghost use Rattle.header_gate.specs.Places.{page_size};
ghost use Rattle.batch_intent.specs.Spelling.{IsIntent};
ghost use Rattle.batch_intent.specs.Gate.{IsIntentGatePlace, HoldsItems, Intends};

use crate::intent::Intent;
use crate::places::INTENT;
use header_gate::{Gate, set_gate};
use station::{Failed, Station, write_synced};

/// Writes the intent, syncs, opens its gate, and syncs: from here on the file means the map after the items.
///
/// The gate is even before. After `Failed` intent and gate may be anything but a gate that is odd over another intent; no
/// other byte changes.
pub fn write_intent<S: Station>(station: &mut S, intent: &Intent) -> Result<(), Failed>
    requires some { 1 ≤ length intent.now }
    requires reach { page_size ≤ (S.view station.old).fixed.reach }
    requires page { HasPage (S.view station.old) }
    // At every moment, whatever is answered, no byte may differ but those of the intent and its gate; and if the gate was even
    // and is odd, the intent is the one that was given.
    ensures steps { Steps (Intends intent.now) (S.view station.old) (S.view station.new) }
    // There are at most 16 items, no key twice, with a spelling of at most 512 bytes.
    ensures intent { IsIntent intent.now }
    // On Ok the gate is 1, the intent stands, and nothing is pending.
    ensures settled { OnOk result (NothingPending (S.view station.new)) }
    ensures opened { OnOk result (Told (S.view station.old) → byte (S.view station.new).held 640 ≡ 1) }
    ensures holds { OnOk result (Told (S.view station.old) → HoldsItems intent.now (S.view station.new).held) }
    // Costs: at most 513 bytes written, none read, at most four calls (a write and a sync, twice).
    ensures cost { (S.view station.new).travel.written ≤ (S.view station.old).travel.written + (INTENT_SIZE + 1) }
    ensures no_reads { (S.view station.new).travel.read ≡ (S.view station.old).travel.read }
    ensures calls { (S.view station.new).calls ≤ (S.view station.old).calls + 4 }
    // Fails only if the count of disk faults rose.
    ensures cause { OnErr result (Rose (S.view station.old).disk_faults (S.view station.new).disk_faults) }
{
    write_synced(station, INTENT, intent.spelling())?;
    set_gate(station, Gate::Intent, true)
}

/// Closes the intent's gate, and syncs: from here on the intent means nothing.
///
/// After `Failed` the gate byte may be anything; no other byte changes.
pub fn close_intent<S: Station>(station: &mut S) -> Result<(), Failed>
    requires reach { page_size ≤ (S.view station.old).fixed.reach }
    requires page { HasPage (S.view station.old) }
    // At every moment, whatever is answered, no byte may differ but the gate's.
    ensures steps { Steps (Touched IsIntentGatePlace) (S.view station.old) (S.view station.new) }
    // On Ok the gate is 0, and nothing is pending.
    ensures settled { OnOk result (NothingPending (S.view station.new)) }
    ensures closed { OnOk result (Told (S.view station.old) → byte (S.view station.new).held 640 ≡ 0) }
    // Costs: at most one byte written, none read, at most two calls (a write, a sync).
    ensures cost { (S.view station.new).travel.written ≤ (S.view station.old).travel.written + 1 }
    ensures no_reads { (S.view station.new).travel.read ≡ (S.view station.old).travel.read }
    ensures calls { (S.view station.new).calls ≤ (S.view station.old).calls + 2 }
    // Fails only if the count of disk faults rose.
    ensures cause { OnErr result (Rose (S.view station.old).disk_faults (S.view station.new).disk_faults) }
{
    set_gate(station, Gate::Intent, false)
}
