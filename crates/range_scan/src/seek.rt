//! The records of a store next to a key: all that a cursor asks of it.

ghost use Rattle.std.specs.Prelude.{◌≡◌, ◌≤◌, false, is_err, IfOk, IfErr, OnOk, IsErrOf};
ghost use Rattle.std.specs.Option.{option_map};
ghost use Rattle.std.specs.FinMap.{entries};
ghost use Rattle.station.specs.Bytes.{Same};
ghost use Rattle.station.specs.View.{View, Told, EachHeld, Rose};
ghost use Rattle.station.specs.Steps.{Steps};
ghost use Rattle.header_gate.specs.Places.{file_length};
ghost use Rattle.key_slot.specs.Row.{record_of};
ghost use Rattle.map_model.specs.Image.{map_of};
ghost use Rattle.map_model.specs.Cursors.{onward, back, record_ahead};
ghost use Rattle.range_scan.specs.SeekReads.{later, earlier, ReadsNear, ReadsBehind};

use key_slot::{Key, Row};
use segment::StoreFault;
use station::Station;

/// A store in which the record next to a key can be looked for.
pub trait Seek {
    ghost use Rattle.std.specs.Prelude.{ℕ, Bool, List};
    ghost use Rattle.range_scan.specs.SeekReads.{KeptRegion};

    /// Whether an earlier call answered a fault.
    ghost closed: { Self → Bool };

    /// That it stands for the bytes of a file.
    ghost stands: { Self → List ℕ → Type 0 };

    /// That a station is as the store needs it between calls.
    ghost rests: { Self → View → Type 0 };

    /// Where its region lies, with the height and the counts that it keeps.
    ghost kept: { Self → KeptRegion };

    /// All else that contracts see of it, as data of a type that the implementation names.
    ghost State: { Type 0 };

    ghost state: { Self → State };

    /// The record with the least key that isn't below `low`, is above `past` and is below `high`, or None if there is none.
    ///
    /// It reads at most two segments, and in a store of one segment that one. After a fault it is closed.
    fn first_row<S: Station>(
        &mut self,
        station: &mut S,
        low: Option<Key>,
        past: Option<Key>,
        high: Option<Key>,
    ) -> Result<Option<Row>, StoreFault>
        requires open { closed self.old ≡ false }
        requires store { EachHeld (stands self.old) (S.view station.old) }
        requires rests { rests self.old (S.view station.old) }
        requires reach { file_length (kept self.old).layout ≤ (S.view station.old).fixed.reach }
        // On Ok the record with the least key that isn't below the lower bound, is above `past` and is below `high`, or None if
        // there is none, if the station tells its bytes.
        ensures row { IfOk result (λ row. Told (S.view station.old) → option_map record_of row ≡
            record_ahead onward (record { low = low; high = high; past = past }) (entries (map_of (S.view station.old).held))) }
        // If the station tells its bytes, no segment is found damaged.
        ensures damaged { IfErr result (λ fault. Told (S.view station.old) → fault ≡ StoreFault.Failed) }
        // `Failed` comes only if the count of disk faults rose.
        ensures failed { IsErrOf result StoreFault.Failed →
            Rose (S.view station.old).disk_faults (S.view station.new).disk_faults }
        // The store is closed exactly after a failure.
        ensures closed { closed self.new ≡ is_err result }
        // All else that contracts see of the store stays: its region, with height and counts, and its state.
        ensures kept { kept self.new ≡ kept self.old }
        ensures state { state self.new ≡ state self.old }
        // On Ok the store stands for the bytes of the file, and the station is as the store needs it between calls.
        ensures store { OnOk result (EachHeld (stands self.new) (S.view station.new)) }
        ensures rests { OnOk result (rests self.new (S.view station.new)) }
        // No byte changes.
        ensures steps { Steps Same (S.view station.old) (S.view station.new) }
        // One segment is read, or two that stand side by side, each once, and nothing is written (`ReadsNear`).
        ensures reads { ReadsNear (later low past) (kept self.old) result (S.view station.old) (S.view station.new) };

    /// The record with the greatest key that isn't below `low`, is below `past` and is below `high`, or None if there is none.
    ///
    /// It reads at most two segments, and in a store of one segment that one: the one to which the lesser of `past` and `high`
    /// belongs, and the one before it. After a fault it is closed.
    fn last_row<S: Station>(
        &mut self,
        station: &mut S,
        low: Option<Key>,
        past: Option<Key>,
        high: Option<Key>,
    ) -> Result<Option<Row>, StoreFault>
        requires open { closed self.old ≡ false }
        requires store { EachHeld (stands self.old) (S.view station.old) }
        requires rests { rests self.old (S.view station.old) }
        requires reach { file_length (kept self.old).layout ≤ (S.view station.old).fixed.reach }
        // On Ok the record with the greatest key that isn't below the lower bound, is below `past` and is below `high`, or None
        // if there is none, if the station tells its bytes.
        ensures row { IfOk result (λ row. Told (S.view station.old) → option_map record_of row ≡
            record_ahead back (record { low = low; high = high; past = past }) (entries (map_of (S.view station.old).held))) }
        // If the station tells its bytes, no segment is found damaged.
        ensures damaged { IfErr result (λ fault. Told (S.view station.old) → fault ≡ StoreFault.Failed) }
        // `Failed` comes only if the count of disk faults rose.
        ensures failed { IsErrOf result StoreFault.Failed →
            Rose (S.view station.old).disk_faults (S.view station.new).disk_faults }
        // The store is closed exactly after a failure.
        ensures closed { closed self.new ≡ is_err result }
        // All else that contracts see of the store stays: its region, with height and counts, and its state.
        ensures kept { kept self.new ≡ kept self.old }
        ensures state { state self.new ≡ state self.old }
        // On Ok the store stands for the bytes of the file, and the station is as the store needs it between calls.
        ensures store { OnOk result (EachHeld (stands self.new) (S.view station.new)) }
        ensures rests { OnOk result (rests self.new (S.view station.new)) }
        // No byte changes.
        ensures steps { Steps Same (S.view station.old) (S.view station.new) }
        // One segment is read, and maybe the one before it, each once, and nothing is written (`ReadsBehind`).
        ensures reads { ReadsBehind (earlier past high) (kept self.old) result (S.view station.old) (S.view station.new) };
}
