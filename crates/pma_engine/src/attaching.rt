//! The file of a job that works on a store: how it is opened, and the end if it isn't.

ghost use Rattle.std.specs.Prelude.{◌≡◌, ◌+◌, ◌≤◌, None, Some, OnOk, true, false};
ghost use Rattle.station.specs.Steps.{Says};
ghost use Rattle.station.specs.View.{Told, SaidTold, EachHeld, NamedBy, attached_by};
ghost use Rattle.header_gate.specs.Header.{layout_in};
ghost use Rattle.header_gate.specs.Places.{file_length, page_size};
ghost use Rattle.index_file.specs.Clean.{IsClean, IsOpenIndex};
ghost use Rattle.index_file.specs.IndexOpening.{IsQuick};
ghost use Rattle.index_file.specs.IndexReading.{area_calls};
ghost use Rattle.map_model.specs.Image.{height_of};
ghost use Rattle.recovery.specs.OpeningCosts.{asked_opening, back_calls, opening_calls, opening_reads};
ghost use Rattle.pma_store.specs.Opens.{CallsOpening, IsAllAtRest};
ghost use Rattle.pma_store.specs.StoreView.{IsOpenOn};
ghost use Rattle.redo_journal.specs.Rest.{RestsAt};
ghost use Rattle.recovery.specs.StoreParts.{Fits, AgreesWith};
ghost use Rattle.pma_engine.specs.RunOpening.{OpensStore, SyncsOpened, TakesParts, reopening_calls, sync_calls};
ghost use Rattle.pma_engine.specs.Refusing.{SaysLine, line_text, line_of_opening, status_of_opening};

use crate::refusing::say_refusal;
use crate::status::{DISK_FAULT, OUT_OF_MEMORY, REFUSED};
use command_text::Reply;
use header_gate::PAIRED;
use index_file::{close_clean, close_index, open_quick};
use pma_store::Store;
use recovery::{OpenFault, Parts};
use station::{Failed, Station};
use std::alloc::Global;

/// Attaches the file of that name, and opens its store: by the index in the file if `quick` is set and one was left, and
/// else by its live region. The index is closed before anything else is written, and the items of an intent that is to be applied
/// are made. Nothing is pending behind it.
pub(crate) fn open_file<S: Station>(
    alloc: Global,
    station: &mut S,
    name: &str,
    quick: bool,
) -> Result<Store, OpenFault>
    requires first { (S.view station.old).attached ≡ None }
    requires named { NamedBy name.now (S.view station.old).fixed.name }
    requires clean { quick ≡ true → Told (S.view station.old) → IsClean (S.view station.old).held }
    ensures opens { OpensStore quick result (attached_by false (S.view station.old)) (S.view station.new) }
    ensures reads { quick ≡ false → Told (S.view station.old) → IsAllAtRest (S.view station.old).held →
        (S.view station.new).travel.read ≤ (S.view station.old).travel.read + (page_size + opening_reads (S.view station.old).held) }
    ensures calls { quick ≡ false → Told (S.view station.old) →
        CallsOpening (reopening_calls (S.view station.old).held) (attached_by false (S.view station.old)) (S.view station.new) }
{
    let Ok(()) = station.attach(name, false) else {
        return Err(OpenFault::Failed);
    };
    if quick {
        open_by_index(alloc, station)
    } else {
        open_by_region(alloc, station)
    }
}

// Opens the store by the index in its file, if one was left, and else by its live region.
fn open_by_index<S: Station>(alloc: Global, station: &mut S) -> Result<Store, OpenFault>
    requires clean { Told (S.view station.old) → IsClean (S.view station.old).held }
    ensures opens { OpensStore true result (S.view station.old) (S.view station.new) }
    ensures calls { Told (S.view station.old) → IsQuick (S.view station.old).held →
        (S.view station.new).calls ≤ (S.view station.old).calls + (5 + area_calls (height_of (S.view station.old).held)) }
{
    match open_quick(alloc, station)? {
        Some(parts) => open_parts(station, parts),
        None => open_by_region(alloc, station),
    }
}

// Closes the index by which the parts of a store were read, and makes the store.
fn open_parts<S: Station>(station: &mut S, parts: Parts) -> Result<Store, OpenFault>
    requires agrees { EachHeld (AgreesWith parts.place parts.tally parts.index) (S.view station.old) }
    requires fits { Fits parts.place parts.tally parts.index parts.frames.journal }
    requires none { parts.intent ≡ None }
    requires quick { Told (S.view station.old) → IsQuick (S.view station.old).held }
    requires rests { RestsAt parts.place.layout parts.frames.turn (S.view station.old) }
    requires reach { file_length parts.place.layout ≤ (S.view station.old).fixed.reach }
    ensures takes { TakesParts parts result (S.view station.old) (S.view station.new) }
    ensures calls { (S.view station.new).calls ≤ (S.view station.old).calls + 2 }
{
    match close_clean(station) {
        Ok(()) => Ok(Store::from_parts(parts)),
        Err(Failed) => Err(OpenFault::Failed),
    }
}

// Closes the index, and opens the store by its live region. If the file has two journals, its last commit may have left pages
// pending, so one sync more is made.
fn open_by_region<S: Station>(alloc: Global, station: &mut S) -> Result<Store, OpenFault>
    ensures opens { OpensStore false result (S.view station.old) (S.view station.new) }
    ensures calls { Told (S.view station.old) → let old = (S.view station.old).held in
        CallsOpening (4 + opening_calls (layout_in old) (height_of old) + sync_calls (layout_in old)) (S.view station.old) (S.view station.new) }
    ensures calls_asked { OnOk result (Told (S.view station.old) →
        CallsOpening (4 + asked_opening (S.view station.old).held +
        sync_calls (layout_in (S.view station.old).held)) (S.view station.old) (S.view station.new)) }
    ensures calls_at_rest { Told (S.view station.old) → let old = (S.view station.old).held in
        IsAllAtRest old → (S.view station.new).calls ≤ (S.view station.old).calls + (4 + 3 + back_calls old + sync_calls (layout_in old)) }
    ensures reads_at_rest { Told (S.view station.old) → let old = (S.view station.old).held in
        IsAllAtRest old → (S.view station.new).travel.read ≤ (S.view station.old).travel.read + (page_size + opening_reads old) }
    ensures calls_shut { Told (S.view station.old) → let old = (S.view station.old).held in
        IsAllAtRest old → ¬ IsOpenIndex old → (S.view station.new).calls ≤ (S.view station.old).calls + (2 + 3 + back_calls old + sync_calls (layout_in old)) }
{
    match close_index(station) {
        Ok(()) => match Store::open_on(alloc, station) {
            Ok(store) => sync_opened(station, store),
            Err(fault) => Err(fault),
        },
        Err(Failed) => Err(OpenFault::Failed),
    }
}

// Settles what an opening left pending. In a file with one journal that is nothing.
fn sync_opened<S: Station>(station: &mut S, store: Store) -> Result<Store, OpenFault>
    requires open { IsOpenOn store (S.view station.old) }
    ensures { SyncsOpened store result (S.view station.old) (S.view station.new) }
{
    let layout = store.layout();
    if layout.version != PAIRED {
        return Ok(store);
    }
    match station.sync() {
        Ok(()) => Ok(store),
        Err(Failed) => Err(OpenFault::Failed),
    }
}

/// Ends a job whose store could not be opened, and says the line if its file is refused.
pub(crate) fn end_unopened<S: Station>(station: &mut S, fault: OpenFault) -> u8
    ensures status { result ≡ status_of_opening fault }
    ensures calls { (S.view station.new).calls ≤ (S.view station.old).calls + 512 }
    ensures says { Says (line_text (line_of_opening fault)) (S.view station.old) (S.view station.new) }
    ensures silent { line_of_opening fault ≡ None → station.new ≡ station.old }
    ensures line { (line : Reply) → line_of_opening fault ≡ Some line → SaidTold (S.view station.old) →
        SaysLine line (S.view station.old).said (S.view station.old) (S.view station.new) }
{
    match fault {
        OpenFault::Memory => OUT_OF_MEMORY,
        OpenFault::Failed => DISK_FAULT,
        OpenFault::NotStore(reason) => {
            say_refusal(station, &Reply::NotStore(reason));
            REFUSED
        }
        OpenFault::Damaged { segment, why } => {
            say_refusal(station, &Reply::Damaged { segment, why });
            REFUSED
        }
    }
}
