//! The first record behind a key, by a look at the segment to which it belongs, and at the next one where it needs it.

ghost use Rattle.std.specs.Prelude.{◌≡◌, ◌<◌, ◌≤◌, ◌+◌, ◌^◌, Option, IfOk, IfErr, IsErrOf, length, drop};
ghost use Rattle.std.specs.Option.{option_map};
ghost use Rattle.std.specs.FinMap.{entries};
ghost use Rattle.station.specs.Bytes.{Same};
ghost use Rattle.station.specs.View.{Told, Rose};
ghost use Rattle.station.specs.Steps.{Steps};
ghost use Rattle.header_gate.specs.InPlace.{IsRecovered};
ghost use Rattle.header_gate.specs.Places.{IsLayout, file_length, height_limit};
ghost use Rattle.key_slot.specs.Row.{record_of};
ghost use Rattle.key_slot.specs.Record.{Bytes};
ghost use Rattle.map_model.specs.Cursors.{onward, record_ahead};
ghost use Rattle.map_model.specs.Image.{map_of, array_of};
ghost use Rattle.map_model.specs.Standing.{StandsBalanced};
ghost use Rattle.range_scan.specs.SeekReads.{later, first_below, IsIndexPast, ReadsNear};
ghost use Rattle.range_scan.specs.Sweeping.{first_for};

use crate::counted::{Region, next_counted, segment_count};
use crate::reader::RegionReader;
use crate::segment_buffer::SegmentBuffer;
use crate::sweep::start_in;
use key_slot::{Key, Row};
use segment::{SegmentView, StoreFault};
use station::Station;

/// The later of `low` and `past`: the bound from which a look must begin for the first record that isn't below `low` and is above
/// `past`.
pub fn start_bound(low: Option<Key>, past: Option<Key>) -> Option<Key>
    ensures { result ≡ later low past }
{
    match (low, past) {
        (Some(low), Some(past)) => Some(if past < low { low } else { past }),
        (Some(low), None) => Some(low),
        (None, past) => past,
    }
}

/// What a look for the first record asks for: that it isn't below a lower bound, is above `past` and is below `high`.
#[derive(Clone, Copy)]
pub struct Look<'a> {
    /// The later of the lower bound and `past`.
    pub start: &'a Option<Key>,
    pub past: &'a Option<Key>,
    pub high: &'a Option<Key>,
}

/// The record of a region with the least key that isn't below a lower bound, is above `past` and is below `high`.
///
/// It looks for it from segment `first` on, to which the later of the lower bound and `past` belongs.
/// At most two segments are read, one after another, into the page.
pub fn first_ahead_in<S: Station>(
    station: &mut S,
    region: &Region<'_>,
    page: &mut SegmentBuffer,
    first: u32,
    look: &Look<'_>,
) -> Result<Option<Row>, StoreFault>
    requires layout { IsLayout region.now.layout.now }
    requires region { region.now.number < 2 }
    requires height { region.now.tally.now.height ≤ height_limit region.now.layout.now }
    requires first { first < 2 ^ region.now.tally.now.height }
    requires reach { file_length region.now.layout.now ≤ (S.view station.old).fixed.reach }
    requires stands { Told (S.view station.old) →
        StandsBalanced region.now.layout.now region.now.number region.now.tally.now.height region.now.tally.now.counts (S.view station.old).held }
    requires readable { Told (S.view station.old) → IsRecovered region.now.layout.now (S.view station.old).held }
    requires begins { Told (S.view station.old) → first ≡ first_for look.now.start.now (array_of (S.view station.old).held) }
    // On Ok the record with the least key that isn't below the lower bound, is above `past` and is below `high`, or None if there
    // is none, if the station tells its bytes.
    ensures row { IfOk result (λ row. Told (S.view station.old) → (low : Option Bytes) →
        look.now.start.now ≡ later low look.now.past.now →
        option_map record_of row ≡
        record_ahead onward (record { low = low; high = look.now.high.now; past = look.now.past.now }) (entries (map_of (S.view station.old).held))) }
    // If the station tells its bytes, no segment is found damaged.
    ensures damaged { IfErr result (λ fault. Told (S.view station.old) → fault ≡ StoreFault.Failed) }
    // `Failed` comes only if the count of disk faults rose.
    ensures failed { IsErrOf result StoreFault.Failed → Rose (S.view station.old).disk_faults (S.view station.new).disk_faults }
    // No byte changes.
    ensures steps { Steps Same (S.view station.old) (S.view station.new) }
    // One segment is read, or two that stand side by side, each once, and nothing is written (`ReadsNear`).
    ensures reads { ReadsNear look.now.start.now (record {
      layout = region.now.layout.now;
      region = region.now.number;
      height = region.now.tally.now.height;
      counts = region.now.tally.now.counts;
    }) result (S.view station.old) (S.view station.new) }
{
    let end = end_near(first, segment_count(region.tally));
    let mut reader = RegionReader::new(*region.layout, region.number, first, end);
    while next_counted(&mut reader, region.tally, station, page)? {
        let rows = page.rows();
        let index = index_past(&rows, look.start, look.past);
        if index < rows.len() {
            return Ok(row_below(&rows, index, look.high));
        }
    }
    Ok(None)
}

// Two segments behind the first, or where the segments end.
fn end_near(first: u32, segments: u32) -> u32
    requires { first < segments }
    ensures some { first < result }
    ensures two { result ≤ first + 2 }
    ensures within { result ≤ segments }
    ensures reached { result < first + 2 → result ≡ segments }
{
    if segments - first < 2 {
        segments
    } else {
        first + 2
    }
}

// The index of the first record that isn't below a bound and has another key than `past`.
fn index_past(rows: &SegmentView<'_>, start: &Option<Key>, past: &Option<Key>) -> u32
    ensures within { result ≤ length rows.now }
    ensures index { IsIndexPast start.now past.now rows.now result }
{
    let index = start_in(rows, start);
    if index == rows.len() {
        return index;
    }
    match past {
        Some(past) if rows.key(index) == *past => index + 1,
        _ => index,
    }
}

// The record at an index, where it is below a bound.
fn row_below(rows: &SegmentView<'_>, index: u32, high: &Option<Key>) -> Option<Row>
    requires { index < length rows.now }
    ensures { option_map record_of result ≡ first_below high.now (drop index rows.now) }
{
    if let Some(high) = high {
        if !(rows.key(index) < *high) {
            return None;
        }
    }
    Some(rows.row(index))
}
