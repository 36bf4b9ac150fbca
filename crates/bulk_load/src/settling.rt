//! Packed records are written to their end, and spread over the segments of the least height that holds them.

ghost use Rattle.std.specs.Prelude.{◌≡◌, ℕ, ◌+◌, ◌*◌, ◌^◌, ◌≤◌, List, OnOk, IfOk, IfErr, IsErrOf};
ghost use Rattle.station.specs.View.{Told, Rose};
ghost use Rattle.station.specs.Steps.{Steps};
ghost use Rattle.density_rule.specs.declared.TheConstants.{SEGMENT_RECORDS};
ghost use Rattle.header_gate.specs.Places.{height_limit, segment_size};
ghost use Rattle.key_slot.specs.Record.{Record};
ghost use Rattle.map_model.specs.Array.{spread_over};
ghost use Rattle.map_model.specs.Regions.{Spares};
ghost use Rattle.resize_region.specs.Spare.{HasWritten};
ghost use Rattle.bulk_load.specs.LoadFaults.{IsFileFault, IsNoDamage, IsShownBy};
ghost use Rattle.bulk_load.specs.Loads.{most_records, IsLeastHeight};
ghost use Rattle.bulk_load.specs.Packing.{CanFill, IsTaken, HasPacked, WritesRuns, room_in};
ghost use Rattle.bulk_load.specs.Spreading.{load_calls, used_by};

use crate::fault::LoadFault;
use crate::loading::{least_height, segments_at};
use crate::packing::{Taken, flush_rest};
use crate::spreading::spread_spare;
use redo_journal::{Frames, Place};
use station::Station;

/// Writes the packed records that aren't written yet, and spreads all over the segments of the least height that holds them,
/// which it answers.
pub(crate) fn spread_taken<S: Station>(
    station: &mut S,
    place: &Place,
    frames: &mut Frames,
    taken: &mut Taken,
) -> Result<u32, LoadFault>
    requires can { CanFill place.now frames.old (S.view station.old) }
    requires taken { (rows : List Record) × IsTaken place.now.layout taken.old frames.old rows }
    requires behind { SEGMENT_RECORDS * taken.old.written ≤ taken.old.records }
    requires few { taken.old.records ≤ most_records place.now.layout }
    ensures least { IfOk result (λ height. IsLeastHeight taken.old.records height) }
    ensures limit { IfOk result (λ height. height ≤ height_limit place.now.layout) }
    ensures written { IfOk result (λ height. Told (S.view station.old) → (rows : List Record) →
        IsTaken place.now.layout taken.old frames.old rows →
        HasPacked place.now rows taken.old.written (S.view station.old).held →
        HasWritten place.now (spread_over (2 ^ height) rows) (2 ^ height) (S.view station.new).held) }
    ensures fault { IfErr result IsFileFault }
    ensures damaged { IfErr result (λ fault. Told (S.view station.old) → (rows : List Record) →
        IsTaken place.now.layout taken.old frames.old rows →
        HasPacked place.now rows taken.old.written (S.view station.old).held → IsNoDamage fault) }
    ensures shown { IfErr result (IsShownBy place.now.layout.format frames.new) }
    ensures journal { frames.new.journal ≡ frames.old.journal }
    ensures turn { frames.new.turn ≡ frames.old.turn }
    ensures steps { Steps (Spares place.now.layout place.now.region) (S.view station.old) (S.view station.new) }
    ensures cost { IfOk result (λ height. (before : ℕ) →
        (S.view station.old).travel.written ≤ before + segment_size place.now.layout * taken.old.written →
        (S.view station.new).travel.written ≤ before + 2 * segment_size place.now.layout * 2 ^ height) }
    ensures calls { IfOk result (λ height. (before : ℕ) →
        WritesRuns (room_in place.now.layout) 0 taken.old.written before (S.view station.old).calls →
        (S.view station.new).calls + 4 ≤ before + load_calls place.now.layout taken.old.records (2 ^ height)) }
    ensures most_cost { (before : ℕ) → (S.view station.old).travel.written ≤ before
        + segment_size place.now.layout * taken.old.written →
        (S.view station.new).travel.written ≤ before + 2 * segment_size place.now.layout * 2 ^ height_limit place.now.layout }
    ensures most_calls { (before : ℕ) →
        WritesRuns (room_in place.now.layout) 0 taken.old.written before (S.view station.old).calls →
        (S.view station.new).calls + 4 ≤ before
        + load_calls place.now.layout (most_records place.now.layout) (2 ^ height_limit place.now.layout) }
    ensures read_bytes { (S.view station.new).travel.read ≤ (S.view station.old).travel.read
        + segment_size place.now.layout * used_by taken.old.records }
    ensures failed { IsErrOf result LoadFault.Disk → Rose (S.view station.old).disk_faults (S.view station.new).disk_faults }
{
    let records = taken.records;
    let height = least_height(records, place.layout.height_limit());
    let segments = segments_at(height);
    flush_rest(station, place, frames, taken)?;
    spread_spare(station, place, frames, records, segments)?;
    Ok(height)
}
