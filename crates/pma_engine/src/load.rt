//! The job of reading a load text into a store without records.

ghost use Rattle.std.specs.Prelude.{◌≡◌, ◌+◌, ◌<◌, ◌≤◌, None, Some, false, sum};
ghost use Rattle.station.specs.Steps.{Says};
ghost use Rattle.station.specs.View.{Told, SaidTold, NamedBy, NothingPending};
ghost use Rattle.line_source.specs.SourceView.{Went};
ghost use Rattle.header_gate.specs.InPlace.{IsBare};
ghost use Rattle.index_file.specs.Clean.{KeepsClean};
ghost use Rattle.pma_store.specs.Readying.{clear_cost};
ghost use Rattle.pma_store.specs.StoreView.{IsOpenOn};
ghost use Rattle.pma_engine.specs.Closing.{ClosesFirst, StaysShut};
ghost use Rattle.pma_engine.specs.Jobs.{HasCauses, TakesNothing};
ghost use Rattle.pma_engine.specs.LoadOutcome.{LoadsFile, LoadsOpened, IsLoadStatus, line_of_load, status_of_load};
ghost use Rattle.pma_engine.specs.Refusing.{SaysLine, line_text};
ghost use Rattle.pma_engine.specs.declared.words.Job.TheVariants.{Load};

use crate::attaching::{end_unopened, open_file};
use crate::refusing::say_refusal;
use crate::status::{DISK_FAULT, DONE, REFUSED, SCRIPT_FAULT, TOO_LONG};
use bulk_load::{LoadFault, Loaded, admitted_texts_are_loaded, load_rows, texts_are_read_by_lines};
use command_text::Reply;
use line_source::{LineReader, Source};
use pma_store::Store;
use station::Station;
use std::alloc::Global;

/// Opens the store of that name, which has no records, and reads a load text into it, of which it takes at most `most` bytes.
///
/// A crash at any moment leaves the store without records, or with all that the text has. If the store has records, one
/// line says so before anything is taken from the source; if the text is wrong or has too many records, one line has the number of
/// its line or the most records. Else nothing is said.
pub(crate) fn load_file<I: Source, S: Station>(
    alloc: Global,
    source: &mut I,
    station: &mut S,
    name: &str,
    most: u64,
) -> u8
    requires first { (S.view station.old).attached ≡ None }
    requires named { NamedBy name.now (S.view station.old).fixed.name }
    ensures status { IsLoadStatus result }
    ensures attached { (S.view station.new).attached ≡ Some false }
    ensures clean { KeepsClean (S.view station.old) (S.view station.new) }
    ensures closes { ClosesFirst (S.view station.old) (S.view station.new) }
    ensures loaded { LoadsFile result most (I.view source.old) (I.view source.new) (S.view station.old) (S.view station.new) }
    ensures untaken { TakesNothing (Some Load) result (S.view station.old) → source.new ≡ source.old }
    ensures causes { HasCauses result (I.view source.old) (I.view source.new) (S.view station.old) (S.view station.new) }
{
    match open_file(alloc, station, name, false) {
        Ok(store) => load_opened(source, station, store, most),
        Err(fault) => end_unopened(station, fault),
    }
}

// Reads the text into an open store, and says the line if it isn't loaded. A store that has records is left as it is; in a file
// with two journals the live one is cleared before any other.
fn load_opened<I: Source, S: Station>(
    source: &mut I,
    station: &mut S,
    store: Store,
    most: u64,
) -> u8
    requires open { IsOpenOn store (S.view station.old) }
    requires nothing { NothingPending (S.view station.old) }
    ensures loads { LoadsOpened result most store.place.layout (sum store.tally.counts) (clear_cost store.place.layout)
        (I.view source.old) (I.view source.new) (S.view station.old) (S.view station.new) }
    ensures shut { StaysShut (S.view station.old) (S.view station.new) }
    ensures untaken { 0 < sum store.tally.counts → source.new ≡ source.old }
    ensures went { Went (I.view source.old) (I.view source.new) }
{
    let records = store.records();
    if records > 0 {
        return end_loaded(station, Err(LoadFault::NotEmpty { records }));
    }
    let mut store = store;
    match store.settle(station) {
        Ok(()) => load_settled(source, station, store, most),
        Err(_) => DISK_FAULT,
    }
}

// Reads the text into an open store over whose live region no page is to be laid.
fn load_settled<I: Source, S: Station>(
    source: &mut I,
    station: &mut S,
    store: Store,
    most: u64,
) -> u8
    requires open { IsOpenOn store (S.view station.old) }
    requires nothing { NothingPending (S.view station.old) }
    requires bare { Told (S.view station.old) → IsBare store.place.layout (S.view station.old).held }
    ensures loads { LoadsOpened result most store.place.layout (sum store.tally.counts) 0 (I.view source.old) (I.view source.new)
        (S.view station.old) (S.view station.new) }
    ensures shut { StaysShut (S.view station.old) (S.view station.new) }
    ensures untaken { 0 < sum store.tally.counts → source.new ≡ source.old }
    ensures went { Went (I.view source.old) (I.view source.new) }
{
    texts_are_read_by_lines();
    admitted_texts_are_loaded();
    let mut parts = store.into_parts();
    let mut reader = LineReader::new(most);
    let loaded = load_rows(
        source,
        station,
        &mut reader,
        &mut parts.place,
        &mut parts.frames,
        &parts.tally,
    );
    end_loaded(station, loaded)
}

/// Ends a load, and says the line if the text isn't loaded.
pub(crate) fn end_loaded<S: Station>(station: &mut S, loaded: Result<Loaded, LoadFault>) -> u8
    ensures status { result ≡ status_of_load loaded }
    ensures says { Says (line_text (line_of_load loaded)) (S.view station.old) (S.view station.new) }
    ensures silent { line_of_load loaded ≡ None → station.new ≡ station.old }
    ensures calls { (S.view station.new).calls ≤ (S.view station.old).calls + 512 }
    ensures line { (line : Reply) → line_of_load loaded ≡ Some line → SaidTold (S.view station.old) →
        SaysLine line (S.view station.old).said (S.view station.old) (S.view station.new) }
{
    let line = match loaded {
        Ok(_) => return DONE,
        Err(LoadFault::NotEmpty { records }) => Reply::NotEmpty(records),
        Err(LoadFault::Line { number }) => Reply::LoadLine(number),
        Err(LoadFault::Full { most }) => Reply::LoadFull(most),
        Err(LoadFault::Disk) => return DISK_FAULT,
        Err(LoadFault::Damaged { segment, why }) => Reply::Damaged { segment, why },
        Err(LoadFault::Script) => return SCRIPT_FAULT,
        Err(LoadFault::Spent) => return TOO_LONG,
    };
    say_refusal(station, &line);
    REFUSED
}
