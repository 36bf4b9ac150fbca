//! A merge text is read to its end beside the records of a store, and what results is packed into the region that isn't live.

ghost use Rattle.line_source.specs.Lines.{raw_lines};
ghost use Rattle.std.specs.Prelude.{◌≡◌, ◌+◌, ◌<◌, ◌≤◌, ◌^◌, ◌==◌, ◌&&◌, not, true, false, ℕ, List, length, OnOk, IfOk, IfErr, IsSome, IfSome, sum};
ghost use Rattle.station.specs.View.{Told};
ghost use Rattle.key_slot.specs.Format.{wide};
ghost use Rattle.key_slot.specs.Row.{record_of};
ghost use Rattle.line_source.specs.LineStep.{Takes};
ghost use Rattle.line_source.specs.Progress.{HasGiven};
ghost use Rattle.line_source.specs.LineReaderView.{ReaderView, rest};
ghost use Rattle.line_source.specs.SourceView.{SourceView, SourceTold, Went};
ghost use Rattle.command_text.specs.declared.merge.MergeLine.TheVariants as merge;
ghost use Rattle.bulk_load.specs.Amid.{FitsMergeLine, Goes, IsBetween, IsLiveDamage, TakesUpdate, Tries, goes_behind, counts_in};
ghost use Rattle.bulk_load.specs.Loads.{most_records};
ghost use Rattle.bulk_load.specs.MergeCauses.{IsMergeFault, IsTextFault};
ghost use Rattle.bulk_load.specs.TextReading.{IsTaking, ReadsText};
ghost use Rattle.bulk_load.specs.MergeUpdates.{StartsMerge, HasAll, HasRead, IsNextUpdate, CountsText, HasText};

use crate::copying::{copy_below, meet_key};
use crate::fault::LoadFault;
use crate::resulting::take_result;
use crate::run::{MergeRun, note_bound, note_removed};
use command_text::{MergeLine, parse_merge};
use key_slot::{Key, Row};
use line_source::{LineReader, LineStep, Source};
use redo_journal::{Frames, Place};
use station::Station;

/// Reads a text to its end beside the records of the live region, and packs all that results.
pub(crate) fn merge_text<I: Source, S: Station>(
    source: &mut I,
    station: &mut S,
    reader: &mut LineReader,
    place: &Place,
    frames: &mut Frames,
    run: &mut MergeRun<'_>,
) -> Result<(), LoadFault>
    requires starts { StartsMerge place.now reader.old run.old frames.old (S.view station.old) }
    ensures taking { OnOk result (IsTaking place.now.layout run.new.taken frames.new) }
    ensures all { OnOk result (Told (S.view station.old) →
        HasAll place.now reader.old (I.view source.old) (S.view station.old) run.new frames.new (S.view station.new)) }
    ensures end { OnOk result (run.new.ahead.reader.next ≡ 2 ^ run.old.ahead.tally.now.height) }
    ensures count { OnOk result (run.new.taken.records + run.new.found.removed
        ≡ sum run.old.ahead.tally.now.counts + run.new.found.stored) }
    ensures counted { OnOk result (SourceTold (I.view source.old) →
        CountsText place.now.layout.format (raw_lines (rest reader.old (I.view source.old))) (counts_in run.new.found)) }
    ensures reading { ReadsText reader.old result (I.view source.old) (I.view source.new) (S.view station.old)
        (S.view station.new) }
    ensures faulty { IfErr result (IsMergeFault place.now.layout.format (most_records place.now.layout)
        (S.view station.old) reader.old (I.view source.old) (I.view source.new)) }
    ensures text { IfErr result (IsTextFault place.now.layout.format (most_records place.now.layout)
        (sum run.old.ahead.tally.now.counts) reader.old (I.view source.old) (I.view source.new)) }
    ensures damage { IfErr result (IsLiveDamage place.now run.old.ahead.reader.next (S.view station.old).travel
        (S.view station.new).travel run.old.ahead.tally.now) }
    ensures goes { OnOk result (Goes place.now run.old.taken.written run.new.taken.written run.old.ahead.reader.next
        run.new.ahead.reader.next frames.old frames.new (S.view station.old) (S.view station.new)) }
    ensures tries { Tries place.now (2 ^ run.old.ahead.tally.now.height) run.old.taken.written run.old.ahead.reader.next
        frames.old frames.new (S.view station.old) (S.view station.new) }
{
    merge_lines(source, station, reader, place, frames, run)?;
    copy_below(station, place, frames, run, &None)?;
    Ok(())
}

// Reads the lines of a text to its end, and packs what results up to the key of the last update.
fn merge_lines<I: Source, S: Station>(
    source: &mut I,
    station: &mut S,
    reader: &mut LineReader,
    place: &Place,
    frames: &mut Frames,
    run: &mut MergeRun<'_>,
) -> Result<(), LoadFault>
    requires starts { StartsMerge place.now reader.old run.old frames.old (S.view station.old) }
    ensures between { OnOk result (IsBetween place.now run.new frames.new (S.view station.new)) }
    ensures alone { OnOk result (SourceTold (I.view source.old) →
        HasText place.now.layout.format (raw_lines (rest reader.old (I.view source.old))) run.new) }
    ensures read { OnOk result (Told (S.view station.old) →
        HasRead place.now reader.old (I.view source.old) (S.view station.old) run.new frames.new (S.view station.new)) }
    ensures reading { ReadsText reader.old result (I.view source.old) (I.view source.new) (S.view station.old)
        (S.view station.new) }
    ensures faulty { IfErr result (IsMergeFault place.now.layout.format (most_records place.now.layout)
        (S.view station.old) reader.old (I.view source.old) (I.view source.new)) }
    ensures text { IfErr result (IsTextFault place.now.layout.format (most_records place.now.layout)
        (sum run.old.ahead.tally.now.counts) reader.old (I.view source.old) (I.view source.new)) }
    ensures damage { IfErr result (IsLiveDamage place.now run.old.ahead.reader.next (S.view station.old).travel
        (S.view station.new).travel run.old.ahead.tally.now) }
    ensures tally { run.new.ahead.tally.now ≡ run.old.ahead.tally.now }
    ensures goes { OnOk result (Goes place.now run.old.taken.written run.new.taken.written run.old.ahead.reader.next
        run.new.ahead.reader.next frames.old frames.new (S.view station.old) (S.view station.new)) }
    ensures tries { Tries place.now (2 ^ run.old.ahead.tally.now.height) run.old.taken.written run.old.ahead.reader.next
        frames.old frames.new (S.view station.old) (S.view station.new) }
{
    // Each line has a byte at least, so their number is no greater.
    let _most = reader.room();
    let mut lines: u64 = 0;
    while let Some(line) = next_line(reader, source, place.layout.format)? {
        lines += 1;
        take_line(station, place, frames, run, &line, lines)?;
    }
    if run.taken.ended {
        Ok(())
    } else {
        Err(LoadFault::Line {
            number: lines.saturating_add(1),
        })
    }
}

// What the next line is, or None at the end of the text.
fn next_line<I: Source>(
    reader: &mut LineReader,
    source: &mut I,
    format: u32,
) -> Result<Option<MergeLine>, LoadFault>
    requires fresh { reader.old.done ≡ false }
    requires format { format ≤ wide }
    ensures next { (r0 : ReaderView) (s0 : SourceView) (given : List (List ℕ)) →
        HasGiven r0 s0 given reader.old (I.view source.old) →
        IsNextUpdate format result r0 s0 given reader.new (I.view source.new) }
    ensures takes { SourceTold (I.view source.old) → Takes reader.old (I.view source.old) reader.new (I.view source.new) }
    ensures fits { IfOk result (λ next. IfSome next (FitsMergeLine format)) }
    ensures falls { IfOk result (λ next. IsSome next →
        reader.new.room + length reader.new.held < reader.old.room + length reader.old.held) }
    ensures fresh { IfOk result (λ next. IsSome next → reader.new.done ≡ false) }
    ensures went { Went (I.view source.old) (I.view source.new) }
{
    match reader.next_line(source) {
        LineStep::Line => Ok(Some(parse_merge(reader.line(), format))),
        LineStep::LongLine => Ok(Some(MergeLine::Bad)),
        LineStep::End => Ok(None),
        LineStep::ReadFailed => Err(LoadFault::Script),
        LineStep::Spent => Err(LoadFault::Spent),
    }
}

// Takes one line, which has this number, if it can stand there.
fn take_line<S: Station>(
    station: &mut S,
    place: &Place,
    frames: &mut Frames,
    run: &mut MergeRun<'_>,
    line: &MergeLine,
    number: u64,
) -> Result<(), LoadFault>
    requires between { IsBetween place.now run.old frames.old (S.view station.old) }
    requires fits { FitsMergeLine place.now.layout.format line.now }
    ensures { TakesUpdate place.now number line.now result run.old run.new frames.old frames.new (S.view station.old)
        (S.view station.new) }
{
    match line {
        MergeLine::Nothing => Ok(()),
        MergeLine::Bind(row) => {
            if !goes_on(run, &row.key) {
                return Err(LoadFault::Line { number });
            }
            take_bound(station, place, frames, run, row)
        }
        MergeLine::Remove(key) => {
            if !goes_on(run, key) {
                return Err(LoadFault::Line { number });
            }
            take_removed(station, place, frames, run, key)
        }
        MergeLine::End(count) => {
            if !ends(run, *count) {
                return Err(LoadFault::Line { number });
            }
            run.taken.ended = true;
            Ok(())
        }
        MergeLine::Bad => Err(LoadFault::Line { number }),
    }
}

// Whether an update of this key may follow those that were read.
fn goes_on(run: &MergeRun<'_>, key: &Key) -> bool
    ensures { result ≡ goes_behind run.now key.now }
{
    if run.taken.ended || run.edits == u32::MAX {
        return false;
    }
    match run.last {
        Some(last) => last < *key,
        None => true,
    }
}

// Whether the line with this number of updates may follow those that were read.
fn ends(run: &MergeRun<'_>, count: u32) -> bool
    ensures { result ≡ (not run.now.taken.ended && (count == run.now.edits)) }
{
    !run.taken.ended && count == run.edits
}

// Takes an update that binds a key: its record results in place of one with its key.
fn take_bound<S: Station>(
    station: &mut S,
    place: &Place,
    frames: &mut Frames,
    run: &mut MergeRun<'_>,
    row: &Row,
) -> Result<(), LoadFault>
    requires between { IsBetween place.now run.old frames.old (S.view station.old) }
    requires goes { goes_behind run.old (record_of row.now).0 ≡ true }
    requires fits { FitsMergeLine place.now.layout.format (merge.Bind row.now) }
    ensures { (k : ℕ) → TakesUpdate place.now k (merge.Bind row.now) result run.old run.new frames.old frames.new
        (S.view station.old) (S.view station.new) }
{
    let met = meet_key(station, place, frames, run, &row.key)?;
    note_bound(&mut run.found, met);
    take_result(station, place, frames, &mut run.taken, row)?;
    Ok(())
}

// Takes an update that removes a key: no record with it results.
fn take_removed<S: Station>(
    station: &mut S,
    place: &Place,
    frames: &mut Frames,
    run: &mut MergeRun<'_>,
    key: &Key,
) -> Result<(), LoadFault>
    requires between { IsBetween place.now run.old frames.old (S.view station.old) }
    requires goes { goes_behind run.old key.now ≡ true }
    ensures { (k : ℕ) → TakesUpdate place.now k (merge.Remove key.now) result run.old run.new frames.old frames.new
        (S.view station.old) (S.view station.new) }
{
    let met = meet_key(station, place, frames, run, key)?;
    note_removed(&mut run.found, met);
    Ok(())
}
