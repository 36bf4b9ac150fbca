//! A text is read to its end, and its records are packed into the region that isn't live.

ghost use Rattle.std.specs.Prelude.{◌≡◌, ℕ, ◌+◌, ◌*◌, ◌^◌, ◌<◌, ◌≤◌, ◌==◌, ◌&&◌, not, true, false, List, length, IfOk, IfErr, IsSome, IfSome};
ghost use Rattle.station.specs.Steps.{Steps};
ghost use Rattle.header_gate.specs.Places.{height_limit, segment_size};
ghost use Rattle.key_slot.specs.Format.{wide};
ghost use Rattle.key_slot.specs.Record.{Record};
ghost use Rattle.key_slot.specs.Row.{record_of};
ghost use Rattle.command_text.specs.declared.load.LoadLine.TheVariants as load;
ghost use Rattle.map_model.specs.Regions.{Spares};
ghost use Rattle.line_source.specs.SourceView.{SourceView, SourceTold, Went};
ghost use Rattle.line_source.specs.LineStep.{Takes};
ghost use Rattle.line_source.specs.LineReaderView.{ReaderView};
ghost use Rattle.line_source.specs.Progress.{HasGiven};
ghost use Rattle.bulk_load.specs.LoadFaults.{IsReadingFault};
ghost use Rattle.bulk_load.specs.LoadLines.{IsUnread};
ghost use Rattle.bulk_load.specs.Loads.{most_records};
ghost use Rattle.bulk_load.specs.Packing.{CanFill, goes_on_by, WritesRuns, room_in};
ghost use Rattle.segment_frames.specs.SegmentParts.{parts};
ghost use Rattle.bulk_load.specs.Spreading.{used_by};
ghost use Rattle.bulk_load.specs.TextReading.{IsNextEntry, FitsLine, IsTaking, TakesOn, IsRead, ReadsText};

use crate::fault::LoadFault;
use crate::packing::Taken;
use crate::resulting::take_result;
use command_text::{LoadLine, parse_load};
use key_slot::Row;
use line_source::{LineReader, LineStep, Source};
use redo_journal::{Frames, Place};
use resize_region::start_shares;
use segment_frames::batch_room;
use station::Station;

/// Reads a text to its end, and packs its records: full segments of them are written as the lines come, and the last ones
/// are in the frames at the end.
pub(crate) fn read_text<I: Source, S: Station>(
    source: &mut I,
    station: &mut S,
    reader: &mut LineReader,
    place: &Place,
    frames: &mut Frames,
) -> Result<Taken, LoadFault>
    requires can { CanFill place.now frames.old (S.view station.old) }
    requires unread { IsUnread reader.old }
    ensures read { IfOk result (λ taken. (rows : List Record) ×
        IsRead place.now reader.old (I.view source.old) rows taken frames.new (S.view station.new)) }
    ensures reading { ReadsText reader.old result (I.view source.old) (I.view source.new) (S.view station.old)
        (S.view station.new) }
    ensures faulty { IfErr result (IsReadingFault place.now.layout.format (most_records place.now.layout) reader.old
        (I.view source.old) (I.view source.new)) }
    ensures journal { frames.new.journal ≡ frames.old.journal }
    ensures turn { frames.new.turn ≡ frames.old.turn }
    ensures steps { Steps (Spares place.now.layout place.now.region) (S.view station.old) (S.view station.new) }
    ensures cost { IfOk result (λ taken. (S.view station.new).travel.written ≤ (S.view station.old).travel.written +
        segment_size place.now.layout * taken.written) }
    ensures calls { IfOk result (λ taken. WritesRuns (room_in place.now.layout) 0 taken.written (S.view station.old).calls
        (S.view station.new).calls) }
    ensures most_cost { (S.view station.new).travel.written ≤ (S.view station.old).travel.written +
        segment_size place.now.layout * 2 ^ height_limit place.now.layout }
    ensures most_calls { (S.view station.new).calls ≤ (S.view station.old).calls +
        parts (room_in place.now.layout) (used_by (most_records place.now.layout)) }
{
    start_shares(frames, place.layout.format, batch_room(&place.layout));
    // Each line has a byte at least, so their number is no greater.
    let _most = reader.room();
    let mut taken = Taken {
        records: 0,
        written: 0,
        last: None,
        ended: false,
    };
    let mut lines: u64 = 0;
    while let Some(line) = next_entry(reader, source, place.layout.format)? {
        lines += 1;
        take_line(station, place, frames, &mut taken, &line, lines)?;
    }
    if taken.ended {
        Ok(taken)
    } else {
        Err(LoadFault::Line {
            number: lines.saturating_add(1),
        })
    }
}

// What the next line is, or None at the end of the text.
fn next_entry<I: Source>(
    reader: &mut LineReader,
    source: &mut I,
    format: u32,
) -> Result<Option<LoadLine>, LoadFault>
    requires fresh { reader.old.done ≡ false }
    requires format { format ≤ wide }
    ensures next { (r0 : ReaderView) (s0 : SourceView) (given : List (List ℕ)) →
        HasGiven r0 s0 given reader.old (I.view source.old) →
        IsNextEntry format result r0 s0 given reader.new (I.view source.new) }
    ensures takes { SourceTold (I.view source.old) → Takes reader.old (I.view source.old) reader.new (I.view source.new) }
    ensures fits { IfOk result (λ next. IfSome next (FitsLine format)) }
    ensures falls { IfOk result (λ next. IsSome next →
        reader.new.room + length reader.new.held < reader.old.room + length reader.old.held) }
    ensures fresh { IfOk result (λ next. IsSome next → reader.new.done ≡ false) }
    ensures went { Went (I.view source.old) (I.view source.new) }
{
    match reader.next_line(source) {
        LineStep::Line => Ok(Some(parse_load(reader.line(), format))),
        LineStep::LongLine => Ok(Some(LoadLine::Bad)),
        LineStep::End => Ok(None),
        LineStep::ReadFailed => Err(LoadFault::Script),
        LineStep::Spent => Err(LoadFault::Spent),
    }
}

// Takes one line, which has this number, if it can stand there.
fn take_line<S: Station>(
    station: &mut S,
    place: &Place,
    frames: &mut Frames,
    taken: &mut Taken,
    line: &LoadLine,
    number: u64,
) -> Result<(), LoadFault>
    requires can { CanFill place.now frames.old (S.view station.old) }
    requires taking { IsTaking place.now.layout taken.old frames.old }
    requires fits { FitsLine place.now.layout.format line.now }
    ensures { TakesOn place.now number line.now result taken.old taken.new frames.old frames.new (S.view station.old)
        (S.view station.new) }
{
    match line {
        LoadLine::Nothing => Ok(()),
        LoadLine::Row(row) => {
            if !goes_on(taken, row) {
                return Err(LoadFault::Line { number });
            }
            take_row(station, place, frames, taken, row)
        }
        LoadLine::End(count) => {
            if !ends(taken, *count) {
                return Err(LoadFault::Line { number });
            }
            taken.ended = true;
            Ok(())
        }
        LoadLine::Bad => Err(LoadFault::Line { number }),
    }
}

// Whether a record may follow those that were taken.
fn goes_on(taken: &Taken, row: &Row) -> bool
    ensures { result ≡ goes_on_by taken.now (record_of row.now) }
{
    if taken.ended {
        return false;
    }
    match taken.last {
        Some(last) => last < row.key,
        None => true,
    }
}

// Whether the line with this number of records may follow those that were taken.
fn ends(taken: &Taken, count: u32) -> bool
    ensures { result ≡ (not taken.now.ended && (count == taken.now.records)) }
{
    !taken.ended && count == taken.records
}

// Takes a record, unless the store is full.
fn take_row<S: Station>(
    station: &mut S,
    place: &Place,
    frames: &mut Frames,
    taken: &mut Taken,
    row: &Row,
) -> Result<(), LoadFault>
    requires can { CanFill place.now frames.old (S.view station.old) }
    requires taking { IsTaking place.now.layout taken.old frames.old }
    requires goes_on { goes_on_by taken.old (record_of row.now) ≡ true }
    requires fits { FitsLine place.now.layout.format (load.Row row.now) }
    ensures { (k : ℕ) → TakesOn place.now k (load.Row row.now) result taken.old taken.new frames.old frames.new
        (S.view station.old) (S.view station.new) }
{
    take_result(station, place, frames, taken, row)?;
    Ok(())
}
