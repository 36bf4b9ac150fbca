//! A page that is made once: what is read of a segment is validated, searched and answered where it lies.

ghost use Rattle.std.specs.Prelude.{◌≡◌, ◌<◌, ◌≤◌, ◌^◌, ◌+◌, [], T, length, replicate, Some, None, IfOk, IfErr, IfSome, IfNone, OnOk, OnErr, ◌-◌, ◌*◌, take, drop};
ghost use Rattle.station.specs.Bytes.{Same, Filled};
ghost use Rattle.station.specs.View.{Told, after_read};
ghost use Rattle.station.specs.Steps.{Steps};
ghost use Rattle.header_gate.specs.Places.{IsLayout, file_length, height_limit, segment_place, segment_size};
ghost use Rattle.density_rule.specs.Windows.{count_in};
ghost use Rattle.key_slot.specs.Record.{is_record};
ghost use Rattle.key_slot.specs.Segment.{FitsSegment, IsSegment, segment_of};
ghost use Rattle.segment.specs.Validated.{damage_of};
ghost use Rattle.segment.specs.Rows.{value_of};
ghost use Rattle.segment.specs.Viewed.{IsValidated};
ghost use Rattle.range_scan.specs.PageView.{page_of};
ghost use Rattle.range_scan.specs.Pages.{IsBadSlot, IsFoundDamaged, ReadsInto};
ghost use Rattle.range_scan.specs.RegionReading.{page_in};
ghost use Rattle.range_scan.specs.Running.{IsRun, pages_in};

use crate::counted::{Region, kept_count};
use crate::reader::RegionFault;
use header_gate::Layout;
use key_slot::{Key, SEGMENT_SIZE};
use segment::{SegmentView, StoreFault, count_rows, validate_count};
use station::Station;
use std::marker::Model;

/// The most bytes that are read at once: four segments of short records, or two of longer ones. A short range may read no more
/// beyond its end.
pub const RUN_SIZE: usize = 16384;

/// The bytes of one segment that was validated, with the number of its records, and those of segments that were read along with
/// it. Before the first read, and if one failed, it has no records.
///
/// Who reads segments one after another makes one page, and reads all of them into it. Nothing of a page's size is
/// zeroed or copied on the way, unless a read fails.
#[derive(Drop)]
pub struct SegmentBuffer {
    pub(crate) bytes: [u8; RUN_SIZE],
    // The segment that was validated last takes `size` of them, from `start` on. Behind it stand `more` segments as long, which
    // were not validated yet.
    pub(crate) start: usize,
    pub(crate) size: usize,
    pub(crate) len: u32,
    pub(crate) more: u32,
}

impl Model for SegmentBuffer {
    ghost use Rattle.range_scan.specs.PageView.{PageView};

    ghost Value = { PageView };

    ghost use Rattle.std.specs.Prelude.{◌≤◌, ◌+◌, ◌*◌, length, take, drop};
    ghost use Rattle.segment.specs.Viewed.{IsValidated};
    ghost use Rattle.range_scan.specs.PageView.{page_of, pages_of};

    ghost view = { λ p. page_of (take p.size (drop p.start p.bytes)) (pages_of p.size p.more (drop (p.start + p.size) p.bytes)) };

    ghost invariant = { λ p. (p.start + p.size + p.size * p.more ≤ length p.bytes) × IsValidated p.len (take p.size (drop p.start p.bytes)) };
}

impl SegmentBuffer {
    /// A page without records.
    #[inline(always)]
    pub fn new() -> SegmentBuffer
        ensures { result ≡ record { format = 1; rows = []; along = [] } }
    {
        SegmentBuffer {
            bytes: [0; RUN_SIZE],
            start: 0,
            size: SEGMENT_SIZE,
            len: 0,
            more: 0,
        }
    }

    /// The records that were read last, where they lie.
    #[inline(always)]
    pub fn rows(&self) -> SegmentView<'_>
        ensures { result ≡ self.now.rows }
    {
        SegmentView::again(&self.bytes[self.start..self.start + self.size], self.len)
    }

    /// Reads a segment of a region, for which a store keeps that many records, in place of what was read before.
    ///
    /// It fails if the disk does, if the bytes are no segment, and if they have another number of records; then
    /// the page has none.
    pub fn read<S: Station>(
        &mut self,
        station: &mut S,
        layout: &Layout,
        region: u32,
        segment: u32,
        kept: u32,
    ) -> Result<(), StoreFault>
        requires layout { IsLayout layout.now }
        requires region { region < 2 }
        requires segment { segment < 2 ^ height_limit layout.now }
        requires reach { file_length layout.now ≤ (S.view station.old).fixed.reach }
        // On Ok the page has the records of the segment, and nothing is wrong with its bytes, if the station tells them.
        ensures rows { OnOk result (Told (S.view station.old) →
            self.new.rows ≡ segment_of layout.now.format (page_in layout.now region (S.view station.old).held segment)) }
        ensures sound { OnOk result (Told (S.view station.old) →
            damage_of layout.now.format (page_in layout.now region (S.view station.old).held segment) kept ≡ None) }
        // On Ok the page has as many records as are kept for the segment, on every station.
        ensures count { OnOk result (length self.new.rows ≡ kept) }
        // Whatever is answered, the records of the page ascend and fit the slot format, on every station.
        ensures fits { FitsSegment layout.now.format self.new.rows }
        ensures format { self.new.format ≡ layout.now.format }
        // On a failure the page has no records; no segment is read along.
        ensures none { OnErr result (self.new.rows ≡ []) }
        ensures alone { self.new.along ≡ [] }
        // Damage is that of this segment, and exactly what is wrong with it if the station tells its bytes; `Failed` comes only
        // if the count of disk faults rose.
        ensures damaged { IfErr result (λ fault. IsFoundDamaged layout.now region segment kept fault (S.view station.old)
            (S.view station.new)) }
        // No byte changes.
        ensures steps { Steps Same (S.view station.old) (S.view station.new) }
        // The segment is read once, by at most one call.
        ensures reads { (S.view station.new).travel ≡
            after_read (segment_place layout.now region segment) (segment_size layout.now) (S.view station.old).travel }
        ensures calls { (S.view station.new).calls ≤ (S.view station.old).calls + 1 }
    {
        self.load(station, layout, region, segment, 1)?;
        match validate_count(segment, self.rows().len(), kept) {
            Ok(()) => Ok(()),
            Err(fault) => {
                self.clear();
                Err(fault)
            }
        }
    }

    /// The value that is bound to a key in a segment, where it lies in the page, or None. It reads as [`SegmentBuffer::read`].
    pub fn get<'a, S: Station>(
        &'a mut self,
        station: &mut S,
        region: &Region<'_>,
        segment: u32,
        key: &Key,
    ) -> Result<Option<&'a [u8]>, StoreFault>
        requires layout { IsLayout region.now.layout.now }
        requires region { region.now.number < 2 }
        requires height { region.now.tally.now.height ≤ height_limit region.now.layout.now }
        requires segment { segment < 2 ^ region.now.tally.now.height }
        requires reach { file_length region.now.layout.now ≤ (S.view station.old).fixed.reach }
        // On Ok the answer is the value that is bound to the key in the segment, or None if none is, if the station tells its
        // bytes.
        ensures some { IfOk result (λ found. IfSome found (λ value. Told (S.view station.old) →
            value_of key.now (segment_of region.now.layout.now.format (page_in region.now.layout.now region.now.number (S.view station.old).held segment)) ≡ Some value.now)) }
        ensures none { IfOk result (λ found. IfNone found (Told (S.view station.old) →
            value_of key.now (segment_of region.now.layout.now.format (page_in region.now.layout.now region.now.number (S.view station.old).held segment)) ≡ None)) }
        // On every station the key and a value that is found fit a slot of the format.
        ensures fits { IfOk result (λ found. IfSome found
            (λ value. T (is_record region.now.layout.now.format (key.now, value.now)))) }
        // On Ok nothing is wrong with the bytes of the segment, and it has the number of records that is kept, if the station
        // tells them.
        ensures sound { OnOk result (Told (S.view station.old) →
            damage_of region.now.layout.now.format (page_in region.now.layout.now region.now.number (S.view station.old).held segment)
            (count_in region.now.tally.now.counts 0 segment) ≡ None) }
        // Damage is that of this segment, and exactly what is wrong with it if the station tells its bytes; `Failed` comes only
        // if the count of disk faults rose.
        ensures damaged { IfErr result (λ fault. IsFoundDamaged region.now.layout.now region.now.number segment
            (count_in region.now.tally.now.counts 0 segment) fault (S.view station.old) (S.view station.new)) }
        // No byte changes.
        ensures steps { Steps Same (S.view station.old) (S.view station.new) }
        // The segment is read once, by at most one call.
        ensures reads { (S.view station.new).travel ≡
            after_read (segment_place region.now.layout.now region.now.number segment) (segment_size region.now.layout.now) (S.view station.old).travel }
        ensures calls { (S.view station.new).calls ≤ (S.view station.old).calls + 1 }
    {
        let kept = kept_count(region.tally, segment);
        self.read(station, region.layout, region.number, segment, kept)?;
        Ok(self.rows().value(key))
    }

    // Takes the records away.
    pub(crate) fn clear(&mut self)
        ensures rows { self.new.rows ≡ [] }
        ensures format { self.new.format ≡ self.old.format }
        ensures others { length self.new.along ≡ length self.old.along }
    {
        clear_bytes(&mut self.bytes);
        self.len = 0;
    }

    // Reads that many segments, and sees that the bytes of the first are one.
    pub(crate) fn load<S: Station>(
        &mut self,
        station: &mut S,
        layout: &Layout,
        region: u32,
        segment: u32,
        count: u32,
    ) -> Result<(), RegionFault>
        requires layout { IsLayout layout.now }
        requires region { region < 2 }
        requires run { IsRun layout.now segment (2 ^ height_limit layout.now) count }
        requires reach { file_length layout.now ≤ (S.view station.old).fixed.reach }
        ensures segment { OnOk result (Told (S.view station.old) →
            IsSegment layout.now.format self.new.rows (page_in layout.now region (S.view station.old).held segment)) }
        ensures along { OnOk result (Told (S.view station.old) →
            self.new.along ≡ pages_in layout.now region (S.view station.old).held (segment + 1) (count - 1)) }
        ensures reading { ReadsInto layout.now region segment count result self.new (S.view station.old) (S.view station.new) }
        ensures bad { IfErr result (IsBadSlot layout.now region segment (S.view station.old) (S.view station.new)) }
    {
        let size = layout.segment_bytes();
        self.start = 0;
        self.size = size;
        self.more = count - 1;
        let run = &mut self.bytes[..size * count as usize];
        match read_into(station, layout, region, segment, count, run) {
            Ok(len) => {
                self.len = len;
                Ok(())
            }
            Err(fault) => {
                clear_bytes(&mut self.bytes);
                self.len = 0;
                Err(fault)
            }
        }
    }
}

// Reads segments into bytes of their length, and answers the number of records of the first.
fn read_into<S: Station>(
    station: &mut S,
    layout: &Layout,
    region: u32,
    segment: u32,
    count: u32,
    bytes: &mut [u8],
) -> Result<u32, RegionFault>
    requires layout { IsLayout layout.now }
    requires size { length bytes.old ≡ segment_size layout.now * count }
    requires region { region < 2 }
    requires run { IsRun layout.now segment (2 ^ height_limit layout.now) count }
    requires reach { file_length layout.now ≤ (S.view station.old).fixed.reach }
    ensures validated { IfOk result (λ len. IsValidated len (take (segment_size layout.now) bytes.new)) }
    ensures filled { OnOk result (Told (S.view station.old) →
        Filled (segment_place layout.now region segment) (S.view station.old).held bytes.new) }
    ensures bad { IfErr result (IsBadSlot layout.now region segment (S.view station.old) (S.view station.new)) }
    ensures steps { Steps Same (S.view station.old) (S.view station.new) }
    ensures calls { (S.view station.new).calls ≤ (S.view station.old).calls + 1 }
    ensures reads { (S.view station.new).travel ≡ after_read (segment_place layout.now region segment)
        (segment_size layout.now * count) (S.view station.old).travel }
{
    let Ok(()) = station.read_at(layout.segment_at(region, segment), bytes) else {
        return Err(RegionFault::Failed);
    };
    match count_rows(&bytes[..layout.segment_bytes()]) {
        Ok(len) => Ok(len),
        Err(bad) => Err(RegionFault::NotSegment {
            segment,
            slot: bad.slot,
        }),
    }
}

// Makes bytes zero.
pub(crate) fn clear_bytes(bytes: &mut [u8])
    ensures { bytes.new ≡ replicate (length bytes.old) 0 }
{
    bytes.fill(0);
}
