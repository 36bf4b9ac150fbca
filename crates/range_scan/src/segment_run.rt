//! Segments that are met one after another in a page: each is read by itself, or validated if it was read along.

ghost use Rattle.std.specs.Prelude.{◌≡◌, ◌≢◌, ◌<◌, ◌≤◌, ◌^◌, ◌+◌, [], true, length, Some, None, IfOk, IfErr, OnOk, OnErr, IsErrOf, ℕ, ◌-◌, false, drop};
ghost use Rattle.station.specs.View.{Told, Rose};
ghost use Rattle.header_gate.specs.Places.{IsLayout, file_length, height_limit};
ghost use Rattle.key_slot.specs.declared.sizes.TheConstants.{SEGMENT_SLOTS};
ghost use Rattle.key_slot.specs.Segment.{FitsSegment, IsSegment, first_bad_slot, segment_of};
ghost use Rattle.segment.specs.Viewed.{IsValidated};
ghost use Rattle.map_model.specs.FileReasons.{begins_above};
ghost use Rattle.range_scan.specs.PageView.{page_of};
ghost use Rattle.range_scan.specs.Pages.{IsBadAlong, TakesNext, ReadsInto};
ghost use Rattle.range_scan.specs.RegionReading.{page_in, page_fault, Names};
ghost use Rattle.range_scan.specs.Running.{IsRun, first_of};

use crate::page::follows;
use crate::reader::RegionFault;
use crate::segment_buffer::{SegmentBuffer, clear_bytes};
use header_gate::Layout;
use key_slot::Key;
use segment::{BadSegment, SegmentView, count_rows};
use station::Station;

// Segments that are read by one call: the first of them, and how many.
#[derive(Clone, Copy)]
pub(crate) struct Run {
    pub segment: u32,
    pub count: u32,
}

impl SegmentBuffer {
    // Reads a segment for which no number of records is kept, but that has to begin above a last key.
    pub(crate) fn read_above<S: Station>(
        &mut self,
        station: &mut S,
        layout: &Layout,
        region: u32,
        segment: u32,
        last: &Option<Key>,
    ) -> Result<(), RegionFault>
        requires layout { IsLayout layout.now }
        requires region { region < 2 }
        requires segment { segment < 2 ^ height_limit layout.now }
        requires reach { file_length layout.now ≤ (S.view station.old).fixed.reach }
        ensures segment { OnOk result (Told (S.view station.old) →
            IsSegment layout.now.format self.new.rows (page_in layout.now region (S.view station.old).held segment)) }
        ensures sound { OnOk result (Told (S.view station.old) →
            page_fault layout.now.format segment last.now (page_in layout.now region (S.view station.old).held segment) ≡ None) }
        ensures above { OnOk result (begins_above last.now self.new.rows ≡ true) }
        ensures reading { ReadsInto layout.now region segment 1 result self.new (S.view station.old) (S.view station.new) }
        ensures refused { IfErr result (λ fault. fault ≢ RegionFault.Failed → Told (S.view station.old) →
            page_fault layout.now.format segment last.now (page_in layout.now region (S.view station.old).held segment) ≡
            Some fault) }
        ensures named { IfErr result (λ fault. Names segment fault) }
        ensures failed { IsErrOf result RegionFault.Failed →
            Rose (S.view station.old).disk_faults (S.view station.new).disk_faults }
    {
        self.load(station, layout, region, segment, 1)?;
        if follows(last, &self.rows()) {
            return Ok(());
        }
        self.clear();
        Err(RegionFault::OutOfOrder { segment })
    }

    // Takes the next segment of a run, which has to begin above a last key: the first that was read along, or else the first
    // of those of the run, which it reads in one call.
    pub(crate) fn take_above<S: Station>(
        &mut self,
        station: &mut S,
        layout: &Layout,
        region: u32,
        run: Run,
        last: &Option<Key>,
    ) -> Result<(), RegionFault>
        requires layout { IsLayout layout.now }
        requires region { region < 2 }
        requires reach { file_length layout.now ≤ (S.view station.old).fixed.reach }
        requires run { self.old.along ≡ [] → IsRun layout.now run.segment (2 ^ height_limit layout.now) run.count }
        requires format { 0 < length self.old.along → self.old.format ≡ layout.now.format }
        ensures sound { OnOk result (Told (S.view station.old) →
            page_fault layout.now.format run.segment last.now
            (first_of self.old.along (page_in layout.now region (S.view station.old).held run.segment)) ≡ None) }
        ensures above { OnOk result (begins_above last.now self.new.rows ≡ true) }
        ensures taking_next { TakesNext layout.now region run.segment run.count result self.old self.new (S.view station.old)
            (S.view station.new) }
        ensures refused { IfErr result (λ fault. fault ≢ RegionFault.Failed → Told (S.view station.old) →
            page_fault layout.now.format run.segment last.now
            (first_of self.old.along (page_in layout.now region (S.view station.old).held run.segment)) ≡ Some fault) }
        ensures named { IfErr result (λ fault. Names run.segment fault) }
        ensures failed { IsErrOf result RegionFault.Failed →
            Rose (S.view station.old).disk_faults (S.view station.new).disk_faults }
    {
        self.take_next(station, layout, region, run)?;
        if follows(last, &self.rows()) {
            return Ok(());
        }
        self.clear();
        Err(RegionFault::OutOfOrder {
            segment: run.segment,
        })
    }

    // Takes the next segment of a run, and sees that its bytes are one.
    fn take_next<S: Station>(
        &mut self,
        station: &mut S,
        layout: &Layout,
        region: u32,
        run: Run,
    ) -> Result<(), RegionFault>
        requires layout { IsLayout layout.now }
        requires region { region < 2 }
        requires reach { file_length layout.now ≤ (S.view station.old).fixed.reach }
        requires run { self.old.along ≡ [] → IsRun layout.now run.segment (2 ^ height_limit layout.now) run.count }
        requires format { 0 < length self.old.along → self.old.format ≡ layout.now.format }
        ensures taking_next { TakesNext layout.now region run.segment run.count result self.old self.new (S.view station.old)
            (S.view station.new) }
        ensures bad { IfErr result (IsBadAlong layout.now region run.segment self.old.along (S.view station.old)
            (S.view station.new)) }
    {
        if self.more == 0 {
            self.load(station, layout, region, run.segment, run.count)
        } else {
            self.validate_next(run.segment)
        }
    }

    // Goes on to the segment behind, which was read along, and sees that its bytes are one.
    fn validate_next(&mut self, segment: u32) -> Result<(), RegionFault>
        requires some { 0 < length self.old.along }
        ensures segment { OnOk result (IsSegment self.old.format self.new.rows (first_of self.old.along [])) }
        ensures along { OnOk result (self.new.along ≡ drop 1 self.old.along) }
        ensures fits { FitsSegment self.old.format self.new.rows }
        ensures format { self.new.format ≡ self.old.format }
        ensures none { OnErr result (self.new.rows ≡ []) }
        ensures others { length self.new.along + 1 ≡ length self.old.along }
        ensures bad { IfErr result (λ fault. (slot : ℕ) × (fault ≡ RegionFault.NotSegment segment slot) × (slot < SEGMENT_SLOTS) ×
            (first_bad_slot self.old.format (first_of self.old.along []) ≡ Some slot)) }
    {
        match self.validate_along() {
            Ok(len) => {
                self.go_on(len);
                Ok(())
            }
            Err(bad) => {
                self.pass_over();
                Err(RegionFault::NotSegment {
                    segment,
                    slot: bad.slot,
                })
            }
        }
    }

    // Goes on to that segment, if it is one with that many records that follows a last key. If not, the page stays.
    pub(crate) fn advance(&mut self, kept: u32, last: &Option<Key>) -> bool
        requires some { 0 < length self.old.along }
        ensures advanced { result ≡ true → IsSegment self.old.format self.new.rows (first_of self.old.along []) }
        ensures along { result ≡ true → self.new.along ≡ drop 1 self.old.along }
        ensures format { self.new.format ≡ self.old.format }
        ensures stays { result ≡ false → self.new ≡ self.old }
        ensures sound { (segment : ℕ) → page_fault self.old.format segment last.now (first_of self.old.along []) ≡ None →
            length (segment_of self.old.format (first_of self.old.along [])) ≡ kept → result ≡ true }
    {
        match self.validate_along() {
            Ok(len) if len == kept && follows(last, &self.rows_along(len)) => {
                self.go_on(len);
                true
            }
            _ => false,
        }
    }

    // The records of that segment, of which there are that many.
    fn rows_along(&self, len: u32) -> SegmentView<'_>
        requires some { 0 < length self.now.along }
        requires validated { IsValidated len (first_of self.now.along []) }
        ensures { result ≡ segment_of self.now.format (first_of self.now.along []) }
    {
        let next = self.start + self.size;
        SegmentView::again(&self.bytes[next..next + self.size], len)
    }

    // The number of records of the segment behind, which was read along.
    fn validate_along(&self) -> Result<u32, BadSegment>
        requires some { 0 < length self.now.along }
        ensures validated { IfOk result (λ count. IsValidated count (first_of self.now.along [])) }
        ensures count { IfOk result (λ count. length (segment_of self.now.format (first_of self.now.along [])) ≡ count) }
        ensures bad { IfErr result (λ error. first_bad_slot self.now.format (first_of self.now.along []) ≡ Some error.slot) }
    {
        let next = self.start + self.size;
        count_rows(&self.bytes[next..next + self.size])
    }

    // Goes on to that segment, which has that many records.
    fn go_on(&mut self, len: u32)
        requires some { 0 < length self.old.along }
        requires validated { IsValidated len (first_of self.old.along []) }
        ensures gone { self.new ≡ page_of (first_of self.old.along []) (drop 1 self.old.along) }
        ensures format { self.new.format ≡ self.old.format }
    {
        self.start += self.size;
        self.more -= 1;
        self.len = len;
    }

    // Passes over that segment, and leaves no records.
    fn pass_over(&mut self)
        requires some { 0 < length self.old.along }
        ensures none { self.new.rows ≡ [] }
        ensures format { self.new.format ≡ self.old.format }
        ensures others { length self.new.along + 1 ≡ length self.old.along }
    {
        self.start += self.size;
        self.more -= 1;
        clear_bytes(&mut self.bytes);
        self.len = 0;
    }

    // How many segments were read along.
    pub(crate) fn along(&self) -> u32
        ensures { result ≡ length self.now.along }
    {
        self.more
    }

    // Leaves what was read along.
    pub(crate) fn leave_along(&mut self)
        ensures { self.new ≡ record self.old { along = [] } }
    {
        self.more = 0;
    }
}
