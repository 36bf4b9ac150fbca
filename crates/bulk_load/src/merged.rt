//! A merge text is made of a store: its updates are made in the order of their keys, or none is.

ghost use Rattle.line_source.specs.LineReaderView.{rest};
ghost use Rattle.line_source.specs.Lines.{raw_lines};
ghost use Rattle.std.specs.Prelude.{◌≡◌, ℕ, ◌+◌, ◌-◌, ◌*◌, ◌^◌, ◌<◌, ◌≤◌, List, [], length, OnOk, OnErr, IfOk, IfErr, IsErrOf, sum};
ghost use Rattle.station.specs.View.{Told, EachHeld, NothingPending, Rose};
ghost use Rattle.station.specs.Steps.{Steps};
ghost use Rattle.header_gate.specs.InPlace.{IsBare};
ghost use Rattle.header_gate.specs.Places.{IsLayout, file_length, height_limit, segment_size};
ghost use Rattle.key_slot.specs.Record.{Record};
ghost use Rattle.line_source.specs.SourceView.{SourceTold, Went};
ghost use Rattle.map_model.specs.Regions.{Spares};
ghost use Rattle.redo_journal.specs.Rest.{RestsAt};
ghost use Rattle.resize_region.specs.Shares.{StandsBare};
ghost use Rattle.segment_frames.specs.FrameStanding.{StandsFor};
ghost use Rattle.bulk_load.specs.LoadFaults.{IsNoDisk};
ghost use Rattle.bulk_load.specs.LoadLines.{IsUnread, TakesAtMost};
ghost use Rattle.bulk_load.specs.Loads.{most_records, Loads, IsWrittenOut, IsLoaded};
ghost use Rattle.bulk_load.specs.MergeCauses.{IsMergeFault, IsMergeDamage, IsTextFault, IsLastSeen};
ghost use Rattle.bulk_load.specs.Packing.{CanFill};
ghost use Rattle.bulk_load.specs.TextReading.{ReadsText};
ghost use Rattle.bulk_load.specs.Spreading.{load_calls, used_by};
ghost use Rattle.bulk_load.specs.MergeUpdates.{MergeFor, MergeTo, ReadsBeside, counts_by, CountsText};

use crate::fault::LoadFault;
use crate::merging::merge_text;
use crate::run::start_run;
use crate::settling::spread_taken;
use line_source::{LineReader, Source};
use redo_journal::{Frames, Place};
use resize_region::make_live;
use station::Station;
use window_tally::Tally;

/// What was merged.
#[derive(Clone, Copy, Debug, PartialEq, Eq)]
pub struct Merged {
    /// How many updates bound a key that wasn't there.
    pub stored: u32,
    /// How many bound a key that was.
    pub replaced: u32,
    /// How many removed a key that was there.
    pub removed: u32,
    /// How many removed one that wasn't.
    pub absent: u32,
    /// How many records the store has.
    pub records: u32,
    /// Its height.
    pub height: u32,
}

/// Makes the updates of a merge text in a store, all or none.
///
/// The live region and the text go side by side, each once and straight on. What results is written into the region that isn't
/// live as the lines come, 64 records a segment. Once both are at their end the least height that holds the records is taken,
/// they are spread there in place, and a flip makes that region the live one. So whatever a crash leaves represents the map
/// before all updates or after all of them. On Ok the place is that of the region.
///
/// `Line` names the first line, counted from 1, that no merge text can have there, or one more than there are if the text
/// ends without the line with the number of its updates. `Full` comes if more records result than a store of the greatest
/// height holds: up to the key of some line with no wrong line before it, whatever follows, or in all of a whole text. Each
/// fault but the disk's leaves the file as it was, outside of what isn't live.
pub fn merge_rows<I: Source, S: Station>(
    source: &mut I,
    station: &mut S,
    reader: &mut LineReader,
    place: &mut Place,
    frames: &mut Frames,
    tally: &Tally,
) -> Result<Merged, LoadFault>
    requires layout { IsLayout place.old.layout }
    requires region { place.old.region < 2 }
    requires reach { file_length place.old.layout ≤ (S.view station.old).fixed.reach }
    requires journal { frames.old.journal ≡ place.old.layout.journal }
    requires hmax { tally.now.hmax ≡ height_limit place.old.layout }
    requires stands { EachHeld (StandsFor place.old tally.now) (S.view station.old) }
    requires nothing { NothingPending (S.view station.old) }
    requires bare { Told (S.view station.old) → IsBare place.old.layout (S.view station.old).held }
    requires rests { RestsAt place.old.layout frames.old.turn (S.view station.old) }
    requires unread { IsUnread reader.old }

    // On Ok, if source and station tell their bytes, the file has the records of the map that it represented after all updates of
    // the text, made one after the other, spread evenly over the segments of the least height that holds them, with every window
    // within its bounds. How many they are, this height, and how many updates bound a new key, bound a present one, removed one,
    // and found none to remove, are answered.
    ensures merged { IfOk result (λ merged. (rows : List Record) × IsLoaded place.old rows merged.records merged.height
        (MergeFor place.old.layout reader.old (I.view source.old) (S.view station.old) (counts_by merged)) (S.view station.new)) }
    // On Ok, whatever the station tells, the records that result and those that were removed are as many as the counts that are
    // kept say that there were, and those that were stored. If the source tells its bytes they are a merge text, whose updates
    // are counted once each, and those that bind a key as stored or replaced.
    ensures count { IfOk result (λ merged. merged.records + merged.removed ≡ sum tally.now.counts + merged.stored) }
    ensures counted { IfOk result (λ merged. SourceTold (I.view source.old) →
        CountsText place.old.layout.format (raw_lines (rest reader.old (I.view source.old))) (counts_by merged)) }
    // On Ok the source is at its end, and gave fewer bytes than might be taken.
    ensures whole { OnOk result (SourceTold (I.view source.old) →
        ((I.view source.new).left ≡ []) × (length (I.view source.old).left < reader.old.room)) }
    // On Ok the station is at rest with nothing pending, and the place is that of the other region. A fault leaves the place.
    ensures settled { OnOk result (NothingPending (S.view station.new)) }
    ensures rests { OnOk result (RestsAt place.new.layout frames.new.turn (S.view station.new)) }
    ensures place { OnOk result (place.new ≡ record place.old { region = 1 - place.old.region }) }
    ensures place_kept { OnErr result (place.new ≡ place.old) }
    // Whatever is answered, the frames are for a journal of the same length, and note its gate as before.
    ensures journal { frames.new.journal ≡ frames.old.journal }
    ensures turn { frames.new.turn ≡ frames.old.turn }

    // At every moment, and in the held bytes whatever is answered, the file represents the map that it did, at its height, or
    // that after all updates of the text at the least height. Gate and layout stay, and so does each byte but those of the
    // selector, the other copy and the other region.
    ensures steps { Steps (Loads place.old (MergeTo place.old.layout reader.old (I.view source.old) (S.view station.old)))
        (S.view station.old) (S.view station.new) }
    // Costs: on Ok at most `8192 * F * 2^h + 9` bytes written in slots of format F, h the new height.
    ensures cost { IfOk result (λ merged. (S.view station.new).travel.written ≤
        (S.view station.old).travel.written + (2 * segment_size place.old.layout * 2 ^ merged.height + 9)) }
    // Costs: on Ok at most one call for each segment of the live region, and those of a load of the records that result.
    ensures calls { IfOk result (λ merged. (S.view station.new).calls ≤ (S.view station.old).calls
        + (2 ^ tally.now.height + load_calls place.old.layout merged.records (2 ^ merged.height))) }

    // Whatever is answered, no more is written, and no more calls are made, than the merge that results in the most records that
    // the store may hold may write and make.
    ensures most_cost { (S.view station.new).travel.written ≤ (S.view station.old).travel.written
        + (2 * segment_size place.old.layout * 2 ^ height_limit place.old.layout + 9) }
    ensures most_calls { (S.view station.new).calls ≤ (S.view station.old).calls
        + (2 ^ tally.now.height + load_calls place.old.layout (most_records place.old.layout)
        (2 ^ height_limit place.old.layout)) }

    // Whatever is answered, the live region is read straight on, each segment at most once, and then each segment of the packed
    // records at most once. On Ok the live region is read to its end.
    ensures reads { (n : ℕ) × (n ≤ 2 ^ tally.now.height)
        × ReadsBeside place.old n (segment_size place.old.layout * used_by (most_records place.old.layout))
        (S.view station.old).travel (S.view station.new).travel }
    ensures whole_reads { IfOk result (λ merged. ReadsBeside place.old (2 ^ tally.now.height)
        (segment_size place.old.layout * used_by merged.records)
        (S.view station.old).travel (S.view station.new).travel) }

    // Whatever is answered, what was taken is a front of what the source had left, and no more than might be taken.
    ensures takes { SourceTold (I.view source.old) → TakesAtMost reader.old.room (I.view source.old) (I.view source.new) }

    // If source and station tell their bytes: `Line` is the first line that can't stand there, with no update before it up to
    // whose key too many records result, or the one behind an unfinished text; `Full` comes only if more records result than
    // there may be, up to the key of some line or in all, and has the most that there may be; `Script` comes only if the source's
    // count of failed reads rose, and `Spent` only if all bytes were taken that may be, both only if the complete lines among the
    // bytes taken make no refusal due. `NotEmpty` never comes, and no segment is found damaged.
    ensures fault { IfErr result (IsMergeFault place.old.layout.format (most_records place.old.layout)
        (S.view station.old) reader.old (I.view source.old) (I.view source.new)) }
    // Whatever the station tells, if the source tells its bytes: `Line` is the first line that no merge text can have there, or
    // the one behind an unfinished text; `Full` comes only if more records than there may be are kept or bound by a front of the
    // lines, with which some merge text begins; with `Script` and `Spent` some begins with the complete lines among the bytes
    // taken, and with `Spent` all bytes were taken that may be.
    ensures text { IfErr result (IsTextFault place.old.layout.format (most_records place.old.layout) (sum tally.now.counts)
        reader.old (I.view source.old) (I.view source.new)) }
    // After every fault but the disk's the file stands for the place and the counts of before, whatever a crash leaves then.
    ensures kept { IfErr result (λ fault. IsNoDisk fault → EachHeld (StandsFor place.old tally.now) (S.view station.new)) }
    // On any station a segment that is found damaged is one of the live region, by the counts that are kept, or a packed one, as
    // a frame shows it.
    ensures shown { IfErr result (IsMergeDamage place.old.layout.format tally.now frames.new) }
    // One of the live region is the last segment that was read, straight on from the first.
    ensures last { IfErr result (IsLastSeen place.old tally.now frames.new (S.view station.old).travel
        (S.view station.new).travel) }
    // `Disk` comes only if the count of disk faults rose.
    ensures failed { IsErrOf result LoadFault.Disk → Rose (S.view station.old).disk_faults (S.view station.new).disk_faults }
    // The source goes on telling or not, and its count of failed reads doesn't fall.
    ensures went { Went (I.view source.old) (I.view source.new) }
{
    let merged = write_merged(source, station, reader, place, frames, tally)?;
    let other = 1 - place.region;
    make_live(station, other, merged.height, place.layout.format)?;
    place.region = other;
    Ok(merged)
}

// Reads a text to its end beside the records of the live region, and writes what results into the other region, spread over
// the segments of the least height that holds it.
fn write_merged<I: Source, S: Station>(
    source: &mut I,
    station: &mut S,
    reader: &mut LineReader,
    place: &Place,
    frames: &mut Frames,
    tally: &Tally,
) -> Result<Merged, LoadFault>
    requires can { CanFill place.now frames.old (S.view station.old) }
    requires hmax { tally.now.hmax ≡ height_limit place.now.layout }
    requires stands { EachHeld (StandsBare place.now tally.now) (S.view station.old) }
    requires unread { IsUnread reader.old }
    ensures written { IfOk result (λ merged. (rows : List Record) × IsWrittenOut place.now rows merged.records merged.height
        (MergeFor place.now.layout reader.old (I.view source.old) (S.view station.old) (counts_by merged)) (S.view station.new)) }
    ensures count { IfOk result (λ merged. merged.records + merged.removed ≡ sum tally.now.counts + merged.stored) }
    ensures counted { IfOk result (λ merged. SourceTold (I.view source.old) →
        CountsText place.now.layout.format (raw_lines (rest reader.old (I.view source.old))) (counts_by merged)) }
    ensures reading { ReadsText reader.old result (I.view source.old) (I.view source.new) (S.view station.old)
        (S.view station.new) }
    ensures fault { IfErr result (IsMergeFault place.now.layout.format (most_records place.now.layout)
        (S.view station.old) reader.old (I.view source.old) (I.view source.new)) }
    ensures text { IfErr result (IsTextFault place.now.layout.format (most_records place.now.layout) (sum tally.now.counts)
        reader.old (I.view source.old) (I.view source.new)) }
    ensures steps { Steps (Spares place.now.layout place.now.region) (S.view station.old) (S.view station.new) }
    ensures cost { IfOk result (λ merged. (S.view station.new).travel.written ≤ (S.view station.old).travel.written
        + 2 * segment_size place.now.layout * 2 ^ merged.height) }
    ensures calls { IfOk result (λ merged. (S.view station.new).calls + 4 ≤ (S.view station.old).calls + (2 ^ tally.now.height
        + load_calls place.now.layout merged.records (2 ^ merged.height))) }
    ensures most_cost { (S.view station.new).travel.written ≤ (S.view station.old).travel.written
        + 2 * segment_size place.now.layout * 2 ^ height_limit place.now.layout }
    ensures most_calls { (S.view station.new).calls + 4 ≤ (S.view station.old).calls + (2 ^ tally.now.height
        + load_calls place.now.layout (most_records place.now.layout) (2 ^ height_limit place.now.layout)) }
    ensures reads { (n : ℕ) × (n ≤ 2 ^ tally.now.height)
        × ReadsBeside place.now n (segment_size place.now.layout * used_by (most_records place.now.layout))
        (S.view station.old).travel (S.view station.new).travel }
    ensures whole_reads { IfOk result (λ merged. ReadsBeside place.now (2 ^ tally.now.height)
        (segment_size place.now.layout * used_by merged.records) (S.view station.old).travel (S.view station.new).travel) }
    ensures shown { IfErr result (IsMergeDamage place.now.layout.format tally.now frames.new) }
    ensures last { IfErr result (IsLastSeen place.now tally.now frames.new (S.view station.old).travel
        (S.view station.new).travel) }
    ensures journal { frames.new.journal ≡ frames.old.journal }
    ensures turn { frames.new.turn ≡ frames.old.turn }
{
    let mut run = start_run(place, frames, tally);
    merge_text(source, station, reader, place, frames, &mut run)?;
    let records = run.taken.records;
    let found = run.found;
    let height = spread_taken(station, place, frames, &mut run.taken)?;
    Ok(Merged {
        stored: found.stored,
        replaced: found.replaced,
        removed: found.removed,
        absent: found.absent,
        records,
        height,
    })
}
