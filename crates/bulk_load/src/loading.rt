//! A load text is read into a store without records.

ghost use Rattle.std.specs.Prelude.{◌≡◌, ◌+◌, ◌-◌, ◌*◌, ◌^◌, ◌<◌, ◌≤◌, List, [], length, sum, OnOk, OnErr, IfOk, IfErr, IsErrOf};
ghost use Rattle.station.specs.View.{Told, EachHeld, NothingPending, Rose};
ghost use Rattle.station.specs.Steps.{Steps};
ghost use Rattle.header_gate.specs.InPlace.{IsBare};
ghost use Rattle.header_gate.specs.Places.{IsLayout, file_length, height_limit, segment_size};
ghost use Rattle.density_rule.specs.Bounds.{upper_of};
ghost use Rattle.key_slot.specs.Record.{Record};
ghost use Rattle.line_source.specs.SourceView.{SourceTold, Went};
ghost use Rattle.map_model.specs.Regions.{Spares};
ghost use Rattle.redo_journal.specs.Rest.{RestsAt};
ghost use Rattle.segment_frames.specs.FrameStanding.{StandsFor};
ghost use Rattle.bulk_load.specs.LoadFaults.{IsLoadFault, IsWritingFault, IsNoDamage, IsNoDisk, IsShownBy};
ghost use Rattle.bulk_load.specs.LoadLines.{IsUnread, TakesAtMost};
ghost use Rattle.bulk_load.specs.Loads.{most_records, TextFor, Loads, IsLeastHeight, IsWrittenOut, IsLoaded};
ghost use Rattle.bulk_load.specs.Packing.{CanFill};
ghost use Rattle.bulk_load.specs.TextReading.{ReadsText};
ghost use Rattle.bulk_load.specs.Spreading.{load_calls};

use crate::fault::{LoadFault, Loaded};
use crate::reading::read_text;
use crate::settling::spread_taken;
use density_rule::{Window, upper};
use line_source::{LineReader, Source};
use redo_journal::{Frames, Place};
use resize_region::make_live;
use station::Station;
use window_tally::Tally;

/// Reads a load text to its end into a store without records, which it then holds.
///
/// The records are written into the region that isn't live as the lines come, 64 a segment. Once the text is at its end the
/// least height that holds them is taken, they are spread there in place, and a flip makes that region the live one. So
/// whatever a crash leaves represents the empty map, or the map of the whole text. On Ok the place is that of the region.
///
/// `NotEmpty` exactly if the store holds records; nothing is taken from the source then. `Line` exactly if this line,
/// counted from 1, is the first that no load text can have there, or is one more than there are if the text ends without
/// the line with its number of records. `Full` exactly if a record follows as many as a store of the greatest height
/// holds. Each fault but the disk's leaves the file as it was, outside of what isn't live.
pub fn load_rows<I: Source, S: Station>(
    source: &mut I,
    station: &mut S,
    reader: &mut LineReader,
    place: &mut Place,
    frames: &mut Frames,
    tally: &Tally,
) -> Result<Loaded, LoadFault>
    requires layout { IsLayout place.old.layout }
    requires region { place.old.region < 2 }
    requires reach { file_length place.old.layout ≤ (S.view station.old).fixed.reach }
    requires journal { frames.old.journal ≡ place.old.layout.journal }
    requires hmax { tally.now.hmax ≡ height_limit place.old.layout }
    requires stands { EachHeld (StandsFor place.old tally.now) (S.view station.old) }
    requires nothing { NothingPending (S.view station.old) }
    requires bare { Told (S.view station.old) → IsBare place.old.layout (S.view station.old).held }
    requires rests { RestsAt place.old.layout frames.old.turn (S.view station.old) }
    requires unread { IsUnread reader.old }

    // On Ok the store had no records. The file has those of the text, which it admits, spread evenly over the segments of the
    // least height that holds them, with every window within its bounds; how many they are, and this height, are answered.
    ensures loaded { IfOk result (λ loaded. (rows : List Record)
        × IsLoaded place.old rows loaded.records loaded.height (TextFor place.old.layout reader.old (I.view source.old)) (S.view station.new)) }
    ensures empty { OnOk result (sum tally.now.counts ≡ 0) }
    // On Ok the source is at its end, and gave fewer bytes than might be taken.
    ensures whole { OnOk result (SourceTold (I.view source.old) → ((I.view source.new).left ≡ []) ×
        (length (I.view source.old).left < reader.old.room)) }
    // On Ok the station is at rest with nothing pending, and the place is that of the other region. A fault leaves the place.
    ensures settled { OnOk result (NothingPending (S.view station.new)) }
    ensures rests { OnOk result (RestsAt place.new.layout frames.new.turn (S.view station.new)) }
    ensures place { OnOk result (place.new ≡ record place.old { region = 1 - place.old.region }) }
    ensures place_kept { OnErr result (place.new ≡ place.old) }
    // Whatever is answered, the frames are for a journal of the same length, and note its gate as before.
    ensures journal { frames.new.journal ≡ frames.old.journal }
    ensures turn { frames.new.turn ≡ frames.old.turn }

    // At every moment, and in the held bytes whatever is answered, the file represents the map that it did, at its height, or
    // that of the whole text at the least height. Gate and layout stay, and so does each byte but those of the selector, the
    // other copy and the other region.
    ensures steps { Steps (Loads place.old (TextFor place.old.layout reader.old (I.view source.old))) (S.view station.old)
        (S.view station.new) }
    // If the store has records, station and source are left as they were, without a call of the station and with nothing taken.
    ensures untouched { 0 < sum tally.now.counts → (station.new ≡ station.old) × (source.new ≡ source.old) }
    // Costs: on Ok at most `8192 * F * 2^h + 9` bytes written in slots of format F, h the height.
    ensures cost { IfOk result (λ loaded. (S.view station.new).travel.written ≤
        (S.view station.old).travel.written + (2 * segment_size place.old.layout * 2 ^ loaded.height + 9)) }
    // Costs: with room for n segments in the frames, of which at most 256 pages are used, on Ok at most one call for each n
    // packed segments written, one for each `n / 2` of them read again, one for each `n - n / 2` segments of the new array, each
    // number rounded up, and four for the flip.
    ensures calls { IfOk result (λ loaded. (S.view station.new).calls ≤ (S.view station.old).calls +
        load_calls place.old.layout loaded.records (2 ^ loaded.height)) }

    // Whatever is answered, no more is written, and no more calls are made, than the load of the most records that the store may
    // hold may write and make.
    ensures most_cost { (S.view station.new).travel.written ≤ (S.view station.old).travel.written +
        (2 * segment_size place.old.layout * 2 ^ height_limit place.old.layout + 9) }
    ensures most_calls { (S.view station.new).calls ≤ (S.view station.old).calls
        + load_calls place.old.layout (most_records place.old.layout) (2 ^ height_limit place.old.layout) }

    // Whatever is answered, what was taken is a front of what the source had left, and no more than might be taken.
    ensures takes { SourceTold (I.view source.old) → TakesAtMost reader.old.room (I.view source.old) (I.view source.new) }

    // `NotEmpty` comes exactly if there are records, and tells how many; nothing is taken of the source then. Else `Line` is the
    // first line that can't stand there, with no record too many before it, or the one behind an unfinished text; `Full` a record
    // too many, with the most that there may be; `Script` comes only if the source's count of failed reads rose, and `Spent` only
    // if all bytes were taken that may be, both only if the complete lines among the bytes taken make no refusal due.
    ensures fault { IfErr result (IsLoadFault place.old.layout.format (most_records place.old.layout) (sum tally.now.counts)
        reader.old (I.view source.old) (I.view source.new)) }
    // After every fault but the disk's the file stands for the place and the counts of before, whatever a crash leaves then.
    ensures kept { IfErr result (λ fault. IsNoDisk fault → EachHeld (StandsFor place.old tally.now) (S.view station.new)) }
    // If the station tells its bytes, no segment is found damaged. Else a frame shows the damage that is named.
    ensures damaged { IfErr result (λ fault. Told (S.view station.old) → IsNoDamage fault) }
    ensures shown { IfErr result (IsShownBy place.old.layout.format frames.new) }
    // `Disk` comes only if the count of disk faults rose.
    ensures failed { IsErrOf result LoadFault.Disk → Rose (S.view station.old).disk_faults (S.view station.new).disk_faults }
    // The source goes on telling or not, and its count of failed reads doesn't fall.
    ensures went { Went (I.view source.old) (I.view source.new) }
{
    let records = tally.count(Window {
        height: tally.height(),
        number: 0,
    });
    if records > 0 {
        return Err(LoadFault::NotEmpty { records });
    }
    let loaded = write_text(source, station, reader, place, frames)?;
    let other = 1 - place.region;
    make_live(station, other, loaded.height, place.layout.format)?;
    place.region = other;
    Ok(loaded)
}

// Reads a text to its end, and writes its records into the region that isn't live, spread over the segments of the least
// height that holds them.
fn write_text<I: Source, S: Station>(
    source: &mut I,
    station: &mut S,
    reader: &mut LineReader,
    place: &Place,
    frames: &mut Frames,
) -> Result<Loaded, LoadFault>
    requires can { CanFill place.now frames.old (S.view station.old) }
    requires unread { IsUnread reader.old }
    ensures written { IfOk result (λ loaded. (rows : List Record) ×
        IsWrittenOut place.now rows loaded.records loaded.height (TextFor place.now.layout reader.old (I.view source.old))
        (S.view station.new)) }
    ensures reading { ReadsText reader.old result (I.view source.old) (I.view source.new) (S.view station.old)
        (S.view station.new) }
    ensures fault { IfErr result (IsWritingFault place.now.layout.format (most_records place.now.layout) reader.old
        (I.view source.old) (I.view source.new)) }
    ensures steps { Steps (Spares place.now.layout place.now.region) (S.view station.old) (S.view station.new) }
    ensures cost { IfOk result (λ loaded. (S.view station.new).travel.written ≤ (S.view station.old).travel.written +
        2 * segment_size place.now.layout * 2 ^ loaded.height) }
    ensures calls { IfOk result (λ loaded. (S.view station.new).calls + 4 ≤ (S.view station.old).calls +
        load_calls place.now.layout loaded.records (2 ^ loaded.height)) }
    ensures most_cost { (S.view station.new).travel.written ≤ (S.view station.old).travel.written +
        2 * segment_size place.now.layout * 2 ^ height_limit place.now.layout }
    ensures most_calls { (S.view station.new).calls + 4 ≤ (S.view station.old).calls +
        load_calls place.now.layout (most_records place.now.layout) (2 ^ height_limit place.now.layout) }
    ensures damaged { IfErr result (λ fault. Told (S.view station.old) → IsNoDamage fault) }
    ensures shown { IfErr result (IsShownBy place.now.layout.format frames.new) }
    ensures journal { frames.new.journal ≡ frames.old.journal }
    ensures turn { frames.new.turn ≡ frames.old.turn }
{
    let mut taken = read_text(source, station, reader, place, frames)?;
    let records = taken.records;
    let height = spread_taken(station, place, frames, &mut taken)?;
    Ok(Loaded { records, height })
}

// The least height of a store that holds that many records.
pub(crate) fn least_height(records: u32, limit: u32) -> u32
    requires limit { limit ≤ 16 }
    requires room { records ≤ upper_of limit }
    ensures least { IsLeastHeight records result }
    ensures limit { result ≤ limit }
{
    for h in 0..limit {
        if records <= upper(h) {
            return h;
        }
    }
    limit
}

// How many segments a store of this height has.
pub(crate) fn segments_at(height: u32) -> u32
    requires { height ≤ 16 }
    ensures { result ≡ 2 ^ height }
{
    1 << height
}
