//! How a sweep reads on: in runs, of which each segment is validated when its records are asked for.

ghost use Rattle.std.specs.Prelude.{◌≡◌, ◌+◌, ◌-◌, ◌<◌, ◌≤◌, ◌⊎◌, [], true, false, T, length, OnOk, IfOk, IfErr, is_some};
ghost use Rattle.std.specs.FinMap.{entries};
ghost use Rattle.station.specs.View.{Told};
ghost use Rattle.map_model.specs.Image.{map_of};
ghost use Rattle.map_model.specs.Array.{cut, segment_at};
ghost use Rattle.map_model.specs.Scan.{scanned};
ghost use Rattle.range_scan.specs.ScanBounds.{are_before, is_void};

use crate::counted::{kept_count, take_counted};
use crate::sweep::{Sweep, start_in};
use segment::StoreFault;
use station::Station;

impl<'a> Sweep<'a> {
    ghost use Rattle.range_scan.specs.Running.{IsRun};
    ghost use Rattle.range_scan.specs.SweepView.{IsSweep, validated};
    ghost use Rattle.range_scan.specs.Sweeping.{ahead};
    ghost use Rattle.range_scan.specs.SweepRuns.{IsSweepRun, allowed, due};
    ghost use Rattle.range_scan.specs.SweepsOn.{CanReadOn, SweepsOn, StopsSweep};

    // Reads on until a record is kept, or none is left to be read.
    pub(crate) fn fill<S: Station>(&mut self, station: &mut S) -> Result<(), StoreFault>
        requires can { CanReadOn self.old (S.view station.old) }
        ensures kept { OnOk result (Told (S.view station.old) → self.new.kept ≡ [] →
            scanned self.new.low self.new.high (self.new.limit - self.new.given) (ahead self.new
            (entries (map_of (S.view station.old).held))) ≡ []) }
        ensures given { self.new.given ≡ self.old.given }
        ensures sweeps { SweepsOn result self.old self.new (S.view station.old) (S.view station.new) }
        ensures idle { 0 < length self.old.kept → self.new ≡ self.old }
        ensures stops { IfErr result (λ fault. StopsSweep fault self.old self.new (S.view station.old) (S.view station.new)) }
    {
        while !self.keeps_one() {
            if !self.read_on(station)? {
                return Ok(());
            }
        }
        Ok(())
    }

    // Validates the next segment, and answers whether there was one in which a record of the scan may stand. Where none was read
    // along, it reads a run.
    fn read_on<S: Station>(&mut self, station: &mut S) -> Result<bool, StoreFault>
        requires can { CanReadOn self.old (S.view station.old) }
        requires none { self.old.kept ≡ [] }
        ensures more { IfOk result (λ more. more ≡ true → validated self.new ≡ validated self.old + 1) }
        ensures step { validated self.new ≤ validated self.old + 1 }
        ensures all_below { IfOk result (λ more. more ≡ true → Told (S.view station.old) → self.new.kept ≡ [] →
            T (are_before self.old.low (segment_at (cut self.old.tally.counts (entries (map_of (S.view station.old).held))) (validated self.old)))) }
        ensures no_more { IfOk result (λ more. more ≡ false → self.new ≡ self.old) }
        ensures used_up { IfOk result (λ more. more ≡ false → Told (S.view station.old) →
            scanned self.new.low self.new.high (self.new.limit - self.new.given) (ahead self.new
            (entries (map_of (S.view station.old).held))) ≡ []) }
        ensures given { self.new.given ≡ self.old.given }
        ensures sweeps { SweepsOn result self.old self.new (S.view station.old) (S.view station.new) }
        ensures stops { IfErr result (λ fault. StopsSweep fault self.old self.new (S.view station.old) (S.view station.new)) }
    {
        if self.has_no_room() {
            return Ok(false);
        }
        let count = self.run();
        match take_counted(&mut self.reader, self.tally, station, self.page, count) {
            Ok(true) => {
                self.index = start_in(&self.page.rows(), &self.low);
                Ok(true)
            }
            Ok(false) => Ok(false),
            Err(fault) => {
                self.index = 0;
                self.faulted = true;
                Err(fault)
            }
        }
    }

    // How many segments it reads at once, where none was read along and there are more.
    fn run(&self) -> u32
        requires wanting { self.now.given < self.now.limit }
        ensures { self.now.along ≡ [] → self.now.reader.next < self.now.reader.end →
            IsSweepRun self.now self.now.reader.next result }
    {
        let next = self.reader.next_number();
        if self.page.along() > 0 || next == self.reader.end_number() {
            return 0;
        }
        let most = self.allowed_run();
        let wanted = self.limit - self.given;
        let mut due = self.due_of_first();
        let mut count = 1;
        while count < most && due < wanted {
            due += kept_count(self.tally, next + count);
            count += 1;
        }
        count
    }

    // How many it may read at once, whatever records are wanted.
    fn allowed_run(&self) -> u32
        requires more { self.now.reader.next < self.now.reader.end }
        ensures run { IsRun self.now.reader.layout self.now.reader.next self.now.reader.end result }
        ensures few { self.now.reader.next + result ≤ allowed self.now self.now.reader.next }
        ensures whole { (¬ IsRun self.now.reader.layout self.now.reader.next self.now.reader.end (result + 1)) ⊎
            (allowed self.now self.now.reader.next ≤ self.now.reader.next + result) }
    {
        let run = self.reader.run();
        let next = self.reader.next_number();
        let allowed = self.first + self.given / 4 + 2;
        if allowed <= next {
            return 1;
        }
        if allowed - next < run {
            allowed - next
        } else {
            run
        }
    }

    // The records that the next segment has for the scan, as far as its count tells it.
    fn due_of_first(&self) -> u32
        requires more { self.now.reader.next < self.now.reader.end }
        ensures { result ≡ due self.now self.now.reader.next (self.now.reader.next + 1) }
    {
        let next = self.reader.next_number();
        if self.low.is_some() && next == self.first {
            0
        } else {
            kept_count(self.tally, next)
        }
    }

    // Whether no key is within the bounds, since the lower one isn't below the upper one.
    fn has_no_room(&self) -> bool
        ensures void { result ≡ is_void self.now.low self.now.high }
        ensures is_sweep { IsSweep self.now }
    {
        match (&self.low, &self.high) {
            (Some(low), Some(high)) => !(*low < *high),
            _ => false,
        }
    }
}
