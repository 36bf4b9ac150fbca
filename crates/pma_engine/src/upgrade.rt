//! The job of bringing a store over to slot format 2.

ghost use Rattle.std.specs.Prelude.{◌≡◌, None, Some, false};
ghost use Rattle.station.specs.Steps.{Says};
ghost use Rattle.station.specs.View.{Told, SaidTold, NamedBy, NothingPending, Rose};
ghost use Rattle.header_gate.specs.InPlace.{IsBare};
ghost use Rattle.index_file.specs.Clean.{KeepsClean};
ghost use Rattle.pma_store.specs.Readying.{clear_cost};
ghost use Rattle.pma_store.specs.StoreView.{IsOpenOn};
ghost use Rattle.pma_engine.specs.Closing.{ClosesFirst, StaysShut};
ghost use Rattle.pma_engine.specs.Refusing.{SaysLine, line_text};
ghost use Rattle.pma_engine.specs.Upgrading.{UpgradesFile, UpgradesOpened, IsUpgradeStatus, line_of_upgrade, status_of_upgrade};

use crate::attaching::{end_unopened, open_file};
use crate::refusing::say_refusal;
use crate::status::{DISK_FAULT, DONE, REFUSED};
use command_text::Reply;
use header_gate::Reason;
use pma_store::Store;
use resize_region::{Upgrade, WIDE, refusal, upgrade};
use segment::StoreFault;
use station::Station;
use std::alloc::Global;

/// Opens the store of that name, and spreads its records in slots of format 2 over the other region. The items of an intent
/// that is to be applied are made before that, so that none is left for the longer slots.
///
/// If the store isn't upgraded, or the file is refused, one line says why. Else nothing is said.
pub(crate) fn upgrade_file<S: Station>(alloc: Global, station: &mut S, name: &str) -> u8
    requires first { (S.view station.old).attached ≡ None }
    requires named { NamedBy name.now (S.view station.old).fixed.name }
    ensures status { IsUpgradeStatus result }
    ensures attached { (S.view station.new).attached ≡ Some false }
    ensures clean { KeepsClean (S.view station.old) (S.view station.new) }
    ensures closes { ClosesFirst (S.view station.old) (S.view station.new) }
    ensures upgraded { UpgradesFile result (S.view station.old) (S.view station.new) }
    ensures disk { result ≡ DISK_FAULT → Rose (S.view station.old).disk_faults (S.view station.new).disk_faults }
{
    match open_file(alloc, station, name, false) {
        Ok(store) => upgrade_opened(station, store),
        Err(fault) => end_unopened(station, fault),
    }
}

// Upgrades an open store, and says the line if it isn't upgraded. A store that is refused is left as it is; in a file with two
// journals the live one is cleared before any other is upgraded.
fn upgrade_opened<S: Station>(station: &mut S, store: Store) -> u8
    requires open { IsOpenOn store (S.view station.old) }
    requires nothing { NothingPending (S.view station.old) }
    ensures upgrades { UpgradesOpened result store.place.layout store.tally.height (clear_cost store.place.layout)
        (S.view station.old) (S.view station.new) }
    ensures shut { StaysShut (S.view station.old) (S.view station.new) }
{
    let layout = store.layout();
    let records = store.records();
    if let Some(answer) = refusal(&layout, records) {
        let parts = store.into_parts();
        return end_upgraded(station, parts.place.region, Ok(answer));
    }
    let mut store = store;
    match store.settle(station) {
        Ok(()) => upgrade_settled(station, store),
        Err(_) => DISK_FAULT,
    }
}

// Upgrades an open store over whose live region no page is to be laid.
fn upgrade_settled<S: Station>(station: &mut S, store: Store) -> u8
    requires open { IsOpenOn store (S.view station.old) }
    requires nothing { NothingPending (S.view station.old) }
    requires bare { Told (S.view station.old) → IsBare store.place.layout (S.view station.old).held }
    ensures upgrades { UpgradesOpened result store.place.layout store.tally.height 0 (S.view station.old) (S.view station.new) }
    ensures shut { StaysShut (S.view station.old) (S.view station.new) }
{
    let mut parts = store.into_parts();
    let copy = parts.place.region;
    let upgraded = upgrade(station, &mut parts.place, &mut parts.frames, &parts.tally);
    end_upgraded(station, copy, upgraded)
}

// Ends the upgrade of a store with this live copy, and says the line if it isn't upgraded.
fn end_upgraded<S: Station>(station: &mut S, copy: u32, upgraded: Result<Upgrade, StoreFault>) -> u8
    ensures status { result ≡ status_of_upgrade upgraded }
    ensures says { Says (line_text (line_of_upgrade copy upgraded)) (S.view station.old) (S.view station.new) }
    ensures silent { line_of_upgrade copy upgraded ≡ None → station.new ≡ station.old }
    ensures line { (line : Reply) → line_of_upgrade copy upgraded ≡ Some line → SaidTold (S.view station.old) →
        SaysLine line (S.view station.old).said (S.view station.old) (S.view station.new) }
{
    let line = match upgraded {
        Ok(Upgrade::Done) => return DONE,
        Ok(Upgrade::Already) => Reply::NotStore(Reason::Format { copy, found: WIDE }),
        Ok(Upgrade::OneSegment) => Reply::OneSegment,
        Ok(Upgrade::TooMany { records }) => Reply::TooMany(records),
        Err(StoreFault::Failed) => return DISK_FAULT,
        Err(StoreFault::Damaged { segment, why }) => Reply::Damaged { segment, why },
    };
    say_refusal(station, &line);
    REFUSED
}
