//! The records of a store that a merge has before it: the segments of its region are read one after another, each once.

ghost use Rattle.std.specs.Prelude.{◌≡◌, ◌<◌, ◌≤◌, ◌+◌, ◌-◌, ◌^◌, ◌↔◌, ℕ, true, false, if◌then◌else◌};
ghost use Rattle.std.specs.Prelude.{◌∷◌, [], List, length, slice_get, Option, Some, None, Ok, IfOk, IfErr, IfSome, IsNone, IsErrOf, OnOk, OnErr};
ghost use Rattle.density_rule.specs.Windows.{count_in};
ghost use Rattle.station.specs.Bytes.{Same};
ghost use Rattle.station.specs.View.{Told, Rose};
ghost use Rattle.station.specs.Steps.{Steps};
ghost use Rattle.header_gate.specs.Places.{IsLayout, file_length, height_limit};
ghost use Rattle.key_slot.specs.Record.{Bytes, Record};
ghost use Rattle.key_slot.specs.Row.{record_of};
ghost use Rattle.key_slot.specs.Segment.{FitsSegment, IsSegment, segment_of};
ghost use Rattle.map_model.specs.Array.{Array, rows};
ghost use Rattle.map_model.specs.FileReasons.{begins_above};
ghost use Rattle.map_model.specs.Image.{array_of};
ghost use Rattle.range_scan.specs.Checking.{LieAbove};
ghost use Rattle.range_scan.specs.SegmentFaults.{IsDamageAt};
ghost use Rattle.range_scan.specs.RegionReaderView.{IsReader, StepsOver};
ghost use Rattle.range_scan.specs.RegionReading.{next_page, next_fault, after_reading};
ghost use Rattle.range_scan.specs.Walk.{after_walk};
ghost use Rattle.resize_region.specs.Shares.{StandsBare};
ghost use Rattle.window_tally.specs.TallyView.{IsTally};
ghost use Rattle.bulk_load.specs.Ahead.{IsAhead, ReadsLive, ReadsAhead, IsAbove, StopsAt, at_hand, left_in, begins_under, begins_with, passed};

use crate::loading::segments_at;
use density_rule::Window;
use key_slot::{Key, Row};
use range_scan::{RegionReader, SegmentBuffer};
use redo_journal::Place;
use segment::{Damage, StoreFault, validate_count};
use station::Station;
use window_tally::Tally;

/// The records of a region that were not passed, in order.
#[derive(Drop)]
pub(crate) struct Ahead<'a> {
    /// The segments that are still to be read.
    pub reader: RegionReader,
    /// How many records each segment has.
    pub tally: &'a Tally,
    /// The segment that was read last.
    pub page: SegmentBuffer,
    /// Its records from this index on weren't passed.
    pub index: u32,
    /// The number of the next segment.
    pub segment: u32,
}

/// All records of the live region, none of which was read.
pub(crate) fn all_ahead<'a>(place: &Place, tally: &'a Tally) -> Ahead<'a>
    requires layout { IsLayout place.now.layout }
    requires region { place.now.region < 2 }
    requires hmax { tally.now.hmax ≡ height_limit place.now.layout }
    ensures start { result.reader.next ≡ 0 }
    ensures none { result.page.rows ≡ [] }
    ensures tally { result.tally.now ≡ tally.now }
    ensures ahead { IsAhead place.now result }
    ensures order { (image : List ℕ) → StandsBare place.now tally.now image → LieAbove result.reader (array_of image) }
    ensures above { IsAbove None result }
    ensures all { (segments : Array) → left_in segments result ≡ rows segments }
{
    Ahead {
        reader: RegionReader::new(place.layout, place.region, 0, segments_at(tally.height())),
        tally,
        page: SegmentBuffer::new(),
        index: 0,
        segment: 0,
    }
}

/// The next record, if it is below a key, or at all if there is no key. It stays the next.
pub(crate) fn next_below<S: Station>(
    station: &mut S,
    place: &Place,
    ahead: &mut Ahead<'_>,
    key: &Option<Key>,
) -> Result<Option<Row>, StoreFault>
    requires live { ReadsLive place.now ahead.old (S.view station.old) }
    ensures row { IfOk result (λ next. IfSome next (λ row. slice_get ahead.new.page.rows ahead.new.index
        ≡ Some (record_of row))) }
    ensures under { IfOk result (λ next. IfSome next (λ row. begins_under key.now (record_of row ∷ []) ≡ true)) }
    ensures stops { IfOk result (λ next. IsNone next → StopsAt key.now ahead.new) }
    ensures reads { ReadsAhead place.now result ahead.old ahead.new (S.view station.old) (S.view station.new) }
{
    let more = reach(station, place, ahead)?;
    if !more || !is_under(ahead, key) {
        return Ok(None);
    }
    Ok(Some(ahead.page.rows().row(ahead.index)))
}

// Whether the record at hand is below a key, or there is no key.
fn is_under(ahead: &Ahead<'_>, key: &Option<Key>) -> bool
    requires { ahead.now.index < length ahead.now.page.rows }
    ensures { result ≡ begins_under key.now (at_hand ahead.now) }
{
    match key {
        Some(key) => ahead.page.rows().compare(ahead.index, key).is_lt(),
        None => true,
    }
}

// Reads on until a record is at hand, and answers whether there is one.
fn reach<S: Station>(
    station: &mut S,
    place: &Place,
    ahead: &mut Ahead<'_>,
) -> Result<bool, StoreFault>
    requires live { ReadsLive place.now ahead.old (S.view station.old) }
    ensures some { IfOk result (λ more. more ≡ true → ahead.new.index < length ahead.new.page.rows) }
    ensures none { IfOk result (λ more. more ≡ false →
        (at_hand ahead.new ≡ []) × (ahead.new.reader.next ≡ ahead.new.reader.end)) }
    ensures reads { ReadsAhead place.now result ahead.old ahead.new (S.view station.old) (S.view station.new) }
{
    while ahead.index == ahead.page.rows().len() {
        let more = read_on(station, place, ahead)?;
        if !more {
            return Ok(false);
        }
    }
    Ok(true)
}

// Reads the next segment, once all records of the last one were passed, and answers whether there was one.
fn read_on<S: Station>(
    station: &mut S,
    place: &Place,
    ahead: &mut Ahead<'_>,
) -> Result<bool, StoreFault>
    requires live { ReadsLive place.now ahead.old (S.view station.old) }
    requires used_up { ahead.old.index ≡ length ahead.old.page.rows }
    ensures none { IfOk result (λ more. more ≡ false → (ahead.new ≡ ahead.old) × (ahead.old.reader.next ≡ ahead.old.reader.end)) }
    ensures next { IfOk result (λ more. more ≡ true → ahead.new.reader.next ≡ ahead.old.reader.next + 1) }
    ensures reads { ReadsAhead place.now result ahead.old ahead.new (S.view station.old) (S.view station.new) }
{
    match next_segment(
        station,
        &mut ahead.reader,
        ahead.tally,
        &mut ahead.page,
        ahead.segment,
    ) {
        Ok(true) => {
            ahead.segment += 1;
            ahead.index = 0;
            Ok(true)
        }
        Ok(false) => Ok(false),
        Err(fault) => Err(fault),
    }
}

/// Passes the next record.
pub(crate) fn pass(ahead: &mut Ahead<'_>)
    requires { ahead.old.index < length ahead.old.page.rows }
    ensures ahead { ahead.new ≡ passed ahead.old }
    ensures small { length ahead.old.page.rows < 2 ^ 32 }
{
    let _some = ahead.page.rows().len();
    ahead.index += 1;
}

/// Passes the next record, if it has this key, and answers whether it has. No record ahead is below the key.
pub(crate) fn pass_key(ahead: &mut Ahead<'_>, key: &Key) -> bool
    requires index { ahead.old.index ≤ length ahead.old.page.rows }
    ensures found { result ≡ begins_with key.now (at_hand ahead.old) }
    ensures ahead { ahead.new ≡ (if begins_with key.now (at_hand ahead.old) then passed ahead.old else ahead.old) }
{
    if !is_next(ahead, key) {
        return false;
    }
    ahead.index += 1;
    true
}

// Whether the next record is at hand and has this key.
fn is_next(ahead: &Ahead<'_>, key: &Key) -> bool
    requires index { ahead.now.index ≤ length ahead.now.page.rows }
    ensures found { result ≡ begins_with key.now (at_hand ahead.now) }
    ensures small { length ahead.now.page.rows ≤ 64 }
{
    let rows = ahead.page.rows();
    if ahead.index == rows.len() {
        return false;
    }
    rows.compare(ahead.index, key).is_eq()
}

// Reads the next segment of a reader, which has this number, into a page, and answers whether there was one. It sees that it
// has as many records as the tally keeps for it, and that they begin above the last key before them, also if the station tells
// no bytes.
fn next_segment<S: Station>(
    station: &mut S,
    reader: &mut RegionReader,
    tally: &Tally,
    page: &mut SegmentBuffer,
    segment: u32,
) -> Result<bool, StoreFault>
    requires number { segment ≡ reader.old.next }
    requires open { reader.old.faulted ≡ false }
    requires end { reader.old.end ≤ 2 ^ tally.now.height }
    requires reach { file_length reader.old.layout ≤ (S.view station.old).fixed.reach }
    ensures none { IfOk result (λ more. (more ≡ false) ↔ (reader.old.next ≡ reader.old.end)) }
    ensures kept { IfOk result (λ more. more ≡ false → page.new ≡ page.old) }
    ensures segment { IfOk result (λ more. more ≡ true → Told (S.view station.old) →
        IsSegment reader.old.layout.format page.new.rows (next_page reader.old (S.view station.old).held)) }
    ensures fits { IfOk result (λ more. more ≡ true → FitsSegment reader.old.layout.format page.new.rows) }
    ensures above { IfOk result (λ more. more ≡ true → begins_above reader.old.last page.new.rows ≡ true) }
    ensures count { IfOk result (λ more. more ≡ true → length page.new.rows ≡ count_in tally.now.counts 0 reader.old.next) }
    ensures after { IfOk result (λ more. reader.new ≡ after_reading (Ok more) page.new.rows reader.old) }
    ensures after_fault { OnErr result (StepsOver reader.old reader.new) }
    ensures is_reader { IsReader reader.new }
    ensures causes { IfErr result (IsDamageAt reader.old.next tally.now.counts) }
    ensures damaged { IfErr result (λ fault. Told (S.view station.old) → next_fault reader.old (S.view station.old).held ≡ None →
        length (segment_of reader.old.layout.format (next_page reader.old (S.view station.old).held))
        ≡ count_in tally.now.counts 0 reader.old.next → fault ≡ StoreFault.Failed) }
    ensures failed { IsErrOf result StoreFault.Failed → Rose (S.view station.old).disk_faults (S.view station.new).disk_faults }
    ensures steps { Steps Same (S.view station.old) (S.view station.new) }
    ensures reads { (S.view station.new).travel
        ≡ after_walk reader.old.layout reader.old.region reader.old.next reader.new.next (S.view station.old).travel }
    ensures calls { (S.view station.new).calls ≤ (S.view station.old).calls + (reader.new.next - reader.old.next) }
{
    let more = reader.read_next(station, page)?;
    if !more {
        return Ok(false);
    }
    validate_count(segment, page.rows().len(), kept_count(tally, segment))?;
    Ok(true)
}

// The number of records that the tally keeps for a segment.
fn kept_count(tally: &Tally, segment: u32) -> u32
    requires { segment < 2 ^ tally.now.height }
    ensures count { result ≡ count_in tally.now.counts 0 segment }
    ensures tally { IsTally tally.now }
{
    let _ = tally.height();
    tally.count(Window {
        height: 0,
        number: segment,
    })
}
