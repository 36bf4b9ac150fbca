//! The last record before a key, by a look at the segment to which it belongs, and at the one before it where it needs that.

ghost use Rattle.std.specs.Prelude.{◌≡◌, ◌<◌, ◌≤◌, ◌+◌, ◌^◌, Option, T, IfOk, OnOk, IfErr, IsErrOf, length, take, drop};
ghost use Rattle.std.specs.Option.{option_map};
ghost use Rattle.std.specs.FinMap.{entries};
ghost use Rattle.station.specs.Bytes.{Same};
ghost use Rattle.station.specs.View.{Told, Rose};
ghost use Rattle.station.specs.Steps.{Steps};
ghost use Rattle.header_gate.specs.InPlace.{IsRecovered};
ghost use Rattle.header_gate.specs.Places.{IsLayout, file_length, height_limit};
ghost use Rattle.key_slot.specs.Row.{record_of};
ghost use Rattle.key_slot.specs.Record.{Bytes};
ghost use Rattle.map_model.specs.Array.{segment_at};
ghost use Rattle.map_model.specs.Cursors.{back, record_ahead};
ghost use Rattle.map_model.specs.Image.{map_of, array_of};
ghost use Rattle.map_model.specs.Standing.{StandsBalanced};
ghost use Rattle.range_scan.specs.ScanBounds.{are_below, are_behind};
ghost use Rattle.range_scan.specs.SeekReads.{earlier, last_from, ReadsBehind, ReadsOne};
ghost use Rattle.range_scan.specs.Sweeping.{last_for};

use crate::counted::{Region, kept_count};
use crate::segment_buffer::SegmentBuffer;
use key_slot::{Key, Row};
use segment::{SegmentView, StoreFault};
use station::Station;

/// The earlier of `past` and `high`: the bound below which a look must end for the last record that is below both.
pub fn end_bound(past: Option<Key>, high: Option<Key>) -> Option<Key>
    ensures { result ≡ earlier past high }
{
    match (past, high) {
        (Some(past), Some(high)) => Some(if past < high { past } else { high }),
        (Some(past), None) => Some(past),
        (None, high) => high,
    }
}

/// The record of a region with the greatest key that isn't below a lower bound and is below `end`.
///
/// It looks for it in segment `last`, to which `end` belongs, and in the one before it where no record of `last` is below `end`. So
/// at most two segments are read, one after the other, into the page.
pub fn last_behind_in<S: Station>(
    station: &mut S,
    region: &Region<'_>,
    page: &mut SegmentBuffer,
    last: u32,
    low: &Option<Key>,
    end: &Option<Key>,
) -> Result<Option<Row>, StoreFault>
    requires layout { IsLayout region.now.layout.now }
    requires region { region.now.number < 2 }
    requires height { region.now.tally.now.height ≤ height_limit region.now.layout.now }
    requires last { last < 2 ^ region.now.tally.now.height }
    requires reach { file_length region.now.layout.now ≤ (S.view station.old).fixed.reach }
    requires stands { Told (S.view station.old) →
        StandsBalanced region.now.layout.now region.now.number region.now.tally.now.height region.now.tally.now.counts (S.view station.old).held }
    requires readable { Told (S.view station.old) → IsRecovered region.now.layout.now (S.view station.old).held }
    requires ends { Told (S.view station.old) → last ≡ last_for end.now (array_of (S.view station.old).held) }
    // On Ok the record with the greatest key that isn't below the lower bound, is below `past` and is below `high`, or None if
    // there is none, if the station tells its bytes.
    ensures row { IfOk result (λ row. Told (S.view station.old) → (past high : Option Bytes) → end.now ≡ earlier past high →
        option_map record_of row ≡
        record_ahead back (record { low = low.now; high = high; past = past }) (entries (map_of (S.view station.old).held))) }
    // If the station tells its bytes, no segment is found damaged.
    ensures damaged { IfErr result (λ fault. Told (S.view station.old) → fault ≡ StoreFault.Failed) }
    // `Failed` comes only if the count of disk faults rose.
    ensures failed { IsErrOf result StoreFault.Failed → Rose (S.view station.old).disk_faults (S.view station.new).disk_faults }
    // No byte changes.
    ensures steps { Steps Same (S.view station.old) (S.view station.new) }
    // One segment is read, and maybe the one before it, each once, and nothing is written (`ReadsBehind`).
    ensures reads { ReadsBehind end.now (record {
      layout = region.now.layout.now;
      region = region.now.number;
      height = region.now.tally.now.height;
      counts = region.now.tally.now.counts;
    }) result (S.view station.old) (S.view station.new) }
{
    let index = read_below(station, region, page, last, end)?;
    if index > 0 || last == 0 {
        return Ok(row_before(&page.rows(), index, low));
    }
    let index = read_below(station, region, page, last - 1, end)?;
    Ok(row_before(&page.rows(), index, low))
}

// Reads a segment, and answers how many of its records are below a bound.
fn read_below<S: Station>(
    station: &mut S,
    region: &Region<'_>,
    page: &mut SegmentBuffer,
    segment: u32,
    end: &Option<Key>,
) -> Result<u32, StoreFault>
    requires layout { IsLayout region.now.layout.now }
    requires region { region.now.number < 2 }
    requires height { region.now.tally.now.height ≤ height_limit region.now.layout.now }
    requires segment { segment < 2 ^ region.now.tally.now.height }
    requires reach { file_length region.now.layout.now ≤ (S.view station.old).fixed.reach }
    requires stands { Told (S.view station.old) →
        StandsBalanced region.now.layout.now region.now.number region.now.tally.now.height region.now.tally.now.counts (S.view station.old).held }
    requires readable { Told (S.view station.old) → IsRecovered region.now.layout.now (S.view station.old).held }
    ensures rows { OnOk result (Told (S.view station.old) →
        page.new.rows ≡ segment_at (array_of (S.view station.old).held) segment) }
    ensures within { IfOk result (λ index. index ≤ length page.new.rows) }
    ensures below { IfOk result (λ index. T (are_below end.now (take index page.new.rows))) }
    ensures behind { IfOk result (λ index. T (are_behind end.now (drop index page.new.rows))) }
    ensures reads { ReadsOne (record {
      layout = region.now.layout.now;
      region = region.now.number;
      height = region.now.tally.now.height;
      counts = region.now.tally.now.counts;
    }) segment result (S.view station.old) (S.view station.new) }
{
    let kept = kept_count(region.tally, segment);
    page.read(station, region.layout, region.number, segment, kept)?;
    Ok(end_in(&page.rows(), end))
}

// The index of the first record that isn't below a bound.
fn end_in(rows: &SegmentView<'_>, end: &Option<Key>) -> u32
    ensures within { result ≤ length rows.now }
    ensures below { T (are_below end.now (take result rows.now)) }
    ensures behind { T (are_behind end.now (drop result rows.now)) }
{
    match end {
        Some(end) => rows.place_from(end),
        None => rows.len(),
    }
}

// The record before an index, where it isn't below a bound.
fn row_before(rows: &SegmentView<'_>, index: u32, low: &Option<Key>) -> Option<Row>
    requires { index ≤ length rows.now }
    ensures { option_map record_of result ≡ last_from low.now (take index rows.now) }
{
    if index == 0 {
        return None;
    }
    if let Some(low) = low {
        if rows.key(index - 1) < *low {
            return None;
        }
    }
    Some(rows.row(index - 1))
}
