//! The job of merging a text into a store.

ghost use Rattle.std.specs.Prelude.{◌≡◌, ◌+◌, ◌≤◌, None, Some, Err, OnOk, IfOk, IfErr, false};
ghost use Rattle.station.specs.Steps.{Says};
ghost use Rattle.station.specs.View.{Told, SaidTold, NamedBy, NothingPending, Rose};
ghost use Rattle.line_source.specs.SourceView.{Went};
ghost use Rattle.bulk_load.specs.MergeUpdates.{counts_by};
ghost use Rattle.command_text.specs.Reply.{reply_text};
ghost use Rattle.header_gate.specs.InPlace.{IsBare};
ghost use Rattle.index_file.specs.Clean.{KeepsClean};
ghost use Rattle.pma_store.specs.UpdateCalls.{clear_calls};
ghost use Rattle.pma_store.specs.Readying.{clear_cost};
ghost use Rattle.pma_store.specs.StoreView.{IsOpenOn};
ghost use Rattle.pma_engine.specs.Closing.{ClosesFirst, StaysShut};
ghost use Rattle.pma_engine.specs.Jobs.{HasCauses, TakesNothing};
ghost use Rattle.pma_engine.specs.LoadOutcome.{line_of_load};
ghost use Rattle.pma_engine.specs.MergeOutcome.{MergesFile, MergesOpened, EndsMerge, IsMergeDone, SaysMerged, line_of_merge, merged_line};
ghost use Rattle.pma_engine.specs.Outcome.{IsRunStatus};
ghost use Rattle.pma_engine.specs.Refusing.{SaysLine, line_text};
ghost use Rattle.pma_engine.specs.declared.words.Job.TheVariants.{Merge};

use crate::attaching::{end_unopened, open_file};
use crate::load::end_loaded;
use crate::saying::say_line;
use crate::status::{DISK_FAULT, DONE, REPLY_FAULT};
use bulk_load::{LoadFault, Merged, merge_rows};
use command_text::{Reply, ReplyText};
use line_source::{LineReader, Source};
use pma_store::Store;
use station::Station;
use std::alloc::Global;

/// Opens the store of that name, and makes the updates of a merge text in it, of which it takes at most `most` bytes.
///
/// A crash at any moment leaves the store with the map of before, or with that after all updates of the text. Once they are
/// made, one line tells how many of them bound a new key, bound a present one, took a record away, and found none. If the
/// text is wrong, or too many records result of it, one line says so, with the number of its line or the most records. Else
/// nothing is said.
pub(crate) fn merge_file<I: Source, S: Station>(
    alloc: Global,
    source: &mut I,
    station: &mut S,
    name: &str,
    most: u64,
) -> u8
    requires first { (S.view station.old).attached ≡ None }
    requires named { NamedBy name.now (S.view station.old).fixed.name }
    ensures status { IsRunStatus result }
    ensures attached { (S.view station.new).attached ≡ Some false }
    ensures clean { KeepsClean (S.view station.old) (S.view station.new) }
    ensures closes { ClosesFirst (S.view station.old) (S.view station.new) }
    ensures merged { MergesFile result most (I.view source.old) (I.view source.new) (S.view station.old) (S.view station.new) }
    ensures untaken { TakesNothing (Some Merge) result (S.view station.old) → source.new ≡ source.old }
    ensures causes { HasCauses result (I.view source.old) (I.view source.new) (S.view station.old) (S.view station.new) }
    ensures reply { result ≡ REPLY_FAULT → Rose (S.view station.old).say_faults (S.view station.new).say_faults }
{
    match open_file(alloc, station, name, false) {
        Ok(store) => merge_opened(source, station, store, most),
        Err(fault) => end_unopened(station, fault),
    }
}

// Merges the text into an open store. In a file with two journals the live one is cleared before.
fn merge_opened<I: Source, S: Station>(
    source: &mut I,
    station: &mut S,
    store: Store,
    most: u64,
) -> u8
    requires open { IsOpenOn store (S.view station.old) }
    requires nothing { NothingPending (S.view station.old) }
    ensures merges { MergesOpened result most store.place.layout store.tally.height (clear_cost store.place.layout)
        (clear_calls store.place.layout)
        (I.view source.old) (I.view source.new) (S.view station.old) (S.view station.new) }
    ensures shut { StaysShut (S.view station.old) (S.view station.new) }
    ensures went { Went (I.view source.old) (I.view source.new) }
{
    let mut store = store;
    match store.settle(station) {
        Ok(()) => merge_settled(source, station, store, most),
        Err(_) => DISK_FAULT,
    }
}

// Merges the text into an open store over whose live region no page is to be laid.
fn merge_settled<I: Source, S: Station>(
    source: &mut I,
    station: &mut S,
    store: Store,
    most: u64,
) -> u8
    requires open { IsOpenOn store (S.view station.old) }
    requires nothing { NothingPending (S.view station.old) }
    requires bare { Told (S.view station.old) → IsBare store.place.layout (S.view station.old).held }
    ensures merges { MergesOpened result most store.place.layout store.tally.height 0 0
        (I.view source.old) (I.view source.new) (S.view station.old) (S.view station.new) }
    ensures shut { StaysShut (S.view station.old) (S.view station.new) }
    ensures went { Went (I.view source.old) (I.view source.new) }
{
    let mut parts = store.into_parts();
    let mut reader = LineReader::new(most);
    let merged = merge_rows(
        source,
        station,
        &mut reader,
        &mut parts.place,
        &mut parts.frames,
        &parts.tally,
    );
    end_merged(station, merged)
}

// Ends a merge, and says what was merged, or the line if the text isn't merged.
fn end_merged<S: Station>(station: &mut S, merged: Result<Merged, LoadFault>) -> u8
    ensures status { EndsMerge merged result }
    ensures says { Says (line_text (line_of_merge merged)) (S.view station.old) (S.view station.new) }
    ensures silent { line_of_merge merged ≡ None → station.new ≡ station.old }
    ensures line { IfErr merged (λ fault. (line : Reply) → line_of_load (Err fault) ≡ Some line →
        SaidTold (S.view station.old) → SaysLine line (S.view station.old).said (S.view station.old) (S.view station.new)) }
    ensures made { IfOk merged (λ found. SaidTold (S.view station.old) →
        SaysMerged result (S.view station.old).said (S.view station.new).said (merged_line (counts_by found))) }
    ensures reply { OnOk merged (result ≡ REPLY_FAULT → Rose (S.view station.old).say_faults (S.view station.new).say_faults) }
    ensures calls { (S.view station.new).calls ≤ (S.view station.old).calls + 512 }
{
    match merged {
        Ok(merged) => say_merged(station, &merged),
        Err(fault) => end_loaded(station, Err(fault)),
    }
}

// Says what was merged.
fn say_merged<S: Station>(station: &mut S, merged: &Merged) -> u8
    ensures status { IsMergeDone result }
    ensures says { Says (reply_text (merged_line (counts_by merged.now))) (S.view station.old) (S.view station.new) }
    ensures made { SaidTold (S.view station.old) →
        SaysMerged result (S.view station.old).said (S.view station.new).said (merged_line (counts_by merged.now)) }
    ensures reply { result ≡ REPLY_FAULT → Rose (S.view station.old).say_faults (S.view station.new).say_faults }
    ensures calls { (S.view station.new).calls ≤ (S.view station.old).calls + 512 }
{
    let line = Reply::Merged {
        stored: merged.stored,
        replaced: merged.replaced,
        removed: merged.removed,
        absent: merged.absent,
    };
    let mut text = ReplyText::new();
    match say_line(station, &line, &mut text) {
        Ok(()) => DONE,
        Err(_) => REPLY_FAULT,
    }
}
