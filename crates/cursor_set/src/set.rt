//! A set of cursors.

ghost use Rattle.std.specs.Prelude.{◌≡◌, ◌≤◌, false, is_err, is_some, Some, None, IsOk, IfOk, IfErr, OnOk, OnErr, IsErrOf};
ghost use Rattle.std.specs.FinMap.{get, contains_key, empty, remove};
ghost use Rattle.station.specs.Bytes.{Same};
ghost use Rattle.station.specs.View.{Told, EachHeld, Rose};
ghost use Rattle.station.specs.Steps.{Steps};
ghost use Rattle.header_gate.specs.Places.{file_length};
ghost use Rattle.map_model.specs.Image.{map_of};
ghost use Rattle.map_model.specs.Cursors.{Cursor, after_open, onward, back, step_in, after_step};
ghost use Rattle.range_scan.specs.SeekReads.{ReadsNear, ReadsBehind, later, earlier};
ghost use Rattle.cursor_set.specs.SetAnswers.{opening, told_by, after_answer};

use super::answers::{Opened, Step};
use super::slots::{Entry, find_entry, find_free};
use key_slot::Key;
use range_scan::Seek;
use segment::StoreFault;
use station::Station;
use std::marker::Model;

/// The most cursors that are open at once: few enough that one is found by looking through all.
const PLACES: usize = 16;

/// Cursors by their names, at most 16 of them.
#[derive(Drop)]
pub struct CursorSet {
    slots: [Option<Entry>; PLACES],
}

impl Model for CursorSet {
    ghost use Rattle.map_model.specs.Cursors.{Cursors};
    ghost use Rattle.cursor_set.specs.Codes.{cursors_code};

    ghost Value = { Cursors };

    ghost coded = { cursors_code };

    ghost use Rattle.cursor_set.specs.CursorPlaces.{cursors_in, IsKept};

    ghost view = { λ s. cursors_in s.slots };

    ghost invariant = { λ s. IsKept s.slots };
}

impl CursorSet {
    /// A set without a cursor.
    pub fn new() -> CursorSet
        ensures { result ≡ empty }
    {
        CursorSet {
            slots: [None; PLACES],
        }
    }

    /// Opens a cursor over the records whose keys are not below `low` and below `high`.
    ///
    /// If a cursor of this name is open, or 16 are, nothing changes.
    pub fn begin(&mut self, name: &Key, low: Option<Key>, high: Option<Key>) -> Opened
        // `Taken` if the name has a cursor, else `NoRoom` if 16 are open, else `Opened`.
        ensures answer { result ≡ opening self.old name.now }
        // A cursor that is opened has these bounds, and gave nothing; the others stay. If none is opened the set stays.
        ensures after { self.new ≡ after_open self.old name.now low high }
    {
        if find_entry(&self.slots, name).is_some() {
            return Opened::Taken;
        }
        match find_free(&self.slots) {
            Some(place) => {
                self.slots[place] = Some(Entry {
                    name: *name,
                    low,
                    high,
                    past: None,
                });
                Opened::Opened
            }
            None => Opened::NoRoom,
        }
    }

    /// Closes the cursor of a name, and answers whether there was one.
    pub fn close(&mut self, name: &Key) -> bool
        // Whether the name had a cursor.
        ensures answer { result ≡ contains_key self.old name.now }
        // The name has no cursor now, and the others stay.
        ensures after { self.new ≡ remove self.old name.now }
    {
        match find_entry(&self.slots, name) {
            Some((place, _)) => {
                self.slots[place] = None;
                true
            }
            None => false,
        }
    }

    /// The next record of a cursor: that with the least key within its bounds which is above the key of the last record that
    /// it gave.
    ///
    /// If there is none the cursor is closed. It reads at most two segments, and without a cursor none. A fault of the store
    /// leaves the set as it was.
    pub fn next_row<S: Station, R: Seek>(
        &mut self,
        store: &mut R,
        station: &mut S,
        name: &Key,
    ) -> Result<Step, StoreFault>
        requires open { R.closed store.old ≡ false }
        requires store { EachHeld (R.stands store.old) (S.view station.old) }
        requires rests { R.rests store.old (S.view station.old) }
        requires reach { file_length (R.kept store.old).layout ≤ (S.view station.old).fixed.reach }
        // On Ok, if the station tells its bytes, the record with the least key that is within the bounds and above the last one
        // given, in the map that they represent; `End` exactly if the name has a cursor and there is none.
        ensures answer { IfOk result (λ step. Told (S.view station.old) →
            told_by step ≡ step_in onward (map_of (S.view station.old).held) self.old name.now) }
        // `NoCursor` comes exactly if the name has no cursor, on every station.
        ensures known { IfOk result (λ step. is_some (told_by step) ≡ contains_key self.old name.now) }
        // A cursor that gave a record stands behind it, and one that came to its end is closed. The other cursors stay.
        ensures after { IfOk result (λ step. self.new ≡ after_answer self.old name.now step) }
        ensures next { OnOk result (Told (S.view station.old) →
            self.new ≡ after_step onward (map_of (S.view station.old).held) self.old name.now) }
        // A fault leaves the set as it was.
        ensures unchanged { OnErr result (self.new ≡ self.old) }
        // It answers Ok if the station tells its bytes and the count of disk faults didn't rise.
        ensures complete { Told (S.view station.old) → ¬ Rose (S.view station.old).disk_faults (S.view station.new).disk_faults →
            IsOk result }
        // If the station tells its bytes, no segment is found damaged.
        ensures damaged { IfErr result (λ fault. Told (S.view station.old) → fault ≡ StoreFault.Failed) }
        // `Failed` comes only if the count of disk faults rose.
        ensures failed { IsErrOf result StoreFault.Failed →
            Rose (S.view station.old).disk_faults (S.view station.new).disk_faults }
        // A fault closes the store, and nothing else does. All else that contracts see of it stays.
        ensures closed { R.closed store.new ≡ is_err result }
        ensures state { R.state store.new ≡ R.state store.old }
        ensures kept { R.kept store.new ≡ R.kept store.old }
        // After an Ok the store stands for the held bytes, and its station is as it needs it.
        ensures store { OnOk result (EachHeld (R.stands store.new) (S.view station.new)) }
        ensures rests { OnOk result (R.rests store.new (S.view station.new)) }
        // No byte changes.
        ensures steps { Steps Same (S.view station.old) (S.view station.new) }
        // If the name has a cursor, on every station one segment is read, or two that stand side by side, once each and by at
        // most one call each; at height 0 it is one. Nothing is written, and damage is that of the last one read.
        ensures reads { (at : Cursor) → get self.old name.now ≡ Some at →
            ReadsNear (later at.low at.past) (R.kept store.old) result (S.view station.old) (S.view station.new) }
        // Without a cursor of this name nothing is read, and no call is made.
        ensures idle { get self.old name.now ≡ None → (S.view station.new).travel ≡ (S.view station.old).travel }
        ensures uncalled { get self.old name.now ≡ None → (S.view station.new).calls ≡ (S.view station.old).calls }
    {
        let Some((place, entry)) = find_entry(&self.slots, name) else {
            return Ok(Step::NoCursor);
        };
        match store.first_row(station, entry.low, entry.past, entry.high) {
            Ok(Some(row)) => {
                self.slots[place] = Some(Entry {
                    past: Some(row.key),
                    ..entry
                });
                Ok(Step::Row(row))
            }
            Ok(None) => {
                self.slots[place] = None;
                Ok(Step::End)
            }
            Err(fault) => Err(fault),
        }
    }

    /// The previous record of a cursor: that with the greatest key within its bounds which is below the key of the last record
    /// that it gave. A cursor that gave none steps back from its upper bound.
    ///
    /// If there is none the cursor is closed. It reads at most two segments, and without a cursor none. A fault of the store
    /// leaves the set as it was.
    pub fn step_back<S: Station, R: Seek>(
        &mut self,
        store: &mut R,
        station: &mut S,
        name: &Key,
    ) -> Result<Step, StoreFault>
        requires open { R.closed store.old ≡ false }
        requires store { EachHeld (R.stands store.old) (S.view station.old) }
        requires rests { R.rests store.old (S.view station.old) }
        requires reach { file_length (R.kept store.old).layout ≤ (S.view station.old).fixed.reach }
        // On Ok, if the station tells its bytes, the record with the greatest key that is within the bounds and below the last
        // one given, in the map that they represent; `End` exactly if the name has a cursor and there is none.
        ensures answer { IfOk result (λ step. Told (S.view station.old) →
            told_by step ≡ step_in back (map_of (S.view station.old).held) self.old name.now) }
        // `NoCursor` comes exactly if the name has no cursor, on every station.
        ensures known { IfOk result (λ step. is_some (told_by step) ≡ contains_key self.old name.now) }
        // A cursor that gave a record stands at it, and one that came to its end is closed. The other cursors stay.
        ensures after { IfOk result (λ step. self.new ≡ after_answer self.old name.now step) }
        ensures prev { OnOk result (Told (S.view station.old) →
            self.new ≡ after_step back (map_of (S.view station.old).held) self.old name.now) }
        // A fault leaves the set as it was.
        ensures unchanged { OnErr result (self.new ≡ self.old) }
        // It answers Ok if the station tells its bytes and the count of disk faults didn't rise.
        ensures complete { Told (S.view station.old) → ¬ Rose (S.view station.old).disk_faults (S.view station.new).disk_faults →
            IsOk result }
        // If the station tells its bytes, no segment is found damaged.
        ensures damaged { IfErr result (λ fault. Told (S.view station.old) → fault ≡ StoreFault.Failed) }
        // `Failed` comes only if the count of disk faults rose.
        ensures failed { IsErrOf result StoreFault.Failed →
            Rose (S.view station.old).disk_faults (S.view station.new).disk_faults }
        // A fault closes the store, and nothing else does. All else that contracts see of it stays.
        ensures closed { R.closed store.new ≡ is_err result }
        ensures state { R.state store.new ≡ R.state store.old }
        ensures kept { R.kept store.new ≡ R.kept store.old }
        // After an Ok the store stands for the held bytes, and its station is as it needs it.
        ensures store { OnOk result (EachHeld (R.stands store.new) (S.view station.new)) }
        ensures rests { OnOk result (R.rests store.new (S.view station.new)) }
        // No byte changes.
        ensures steps { Steps Same (S.view station.old) (S.view station.new) }
        // If the name has a cursor, on every station one segment is read, and maybe the one before it, once each and by at most
        // one call each; at height 0 it is one. Nothing is written, and damage is that of the last one read.
        ensures reads { (at : Cursor) → get self.old name.now ≡ Some at →
            ReadsBehind (earlier at.past at.high) (R.kept store.old) result (S.view station.old) (S.view station.new) }
        // Without a cursor of this name nothing is read, and no call is made.
        ensures idle { get self.old name.now ≡ None → (S.view station.new).travel ≡ (S.view station.old).travel }
        ensures uncalled { get self.old name.now ≡ None → (S.view station.new).calls ≡ (S.view station.old).calls }
    {
        let Some((place, entry)) = find_entry(&self.slots, name) else {
            return Ok(Step::NoCursor);
        };
        let Some(row) = store.last_row(station, entry.low, entry.past, entry.high)? else {
            self.slots[place] = None;
            return Ok(Step::End);
        };
        let past = Some(row.key);
        self.slots[place] = Some(Entry { past, ..entry });
        Ok(Step::Row(row))
    }
}
