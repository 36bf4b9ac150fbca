//! Records of a store are copied on, up to a key or to their end, behind those that result of a merge so far.

ghost use Rattle.std.specs.Prelude.{◌≡◌, ◌+◌, ◌<◌, ◌^◌, ◌∷◌, [], true, Some, None, slice_get, IfSome, IsNone, OnOk, IfOk, IfErr};
ghost use Rattle.key_slot.specs.Row.{record_of};
ghost use Rattle.segment.specs.declared.fault.StoreFault.{StoreFault};
ghost use Rattle.bulk_load.specs.Ahead.{ReadsLive, ReadsNext, StopsAt, begins_under};
ghost use Rattle.bulk_load.specs.LoadFaults.{load_fault_of};
ghost use Rattle.map_model.specs.FileReasons.{begins_above};
ghost use Rattle.bulk_load.specs.Amid.{IsAmid, CopiesUnder, MeetsKey};

use crate::ahead::{next_below, pass, pass_key};
use crate::fault::LoadFault;
use crate::resulting::take_result;
use crate::run::MergeRun;
use key_slot::{Key, Row};
use redo_journal::{Frames, Place};
use station::Station;

/// Copies the records of the store that are below a key, or all that are left.
pub(crate) fn copy_below<S: Station>(
    station: &mut S,
    place: &Place,
    frames: &mut Frames,
    run: &mut MergeRun<'_>,
    key: &Option<Key>,
) -> Result<(), LoadFault>
    requires amid { IsAmid place.now run.old frames.old (S.view station.old) }
    requires below { IfSome key.now (λ k. begins_above run.old.taken.last ((k, []) ∷ []) ≡ true) }
    ensures { CopiesUnder place.now key.now result run.old run.new frames.old frames.new (S.view station.old)
        (S.view station.new) }
{
    while let Some(row) = next_of(station, place, run, key)? {
        take_result(station, place, frames, &mut run.taken, &row)?;
        pass(&mut run.ahead);
    }
    Ok(())
}

/// Copies the records of the store that are below a key, which is that of the next update, passes one with the key, and
/// answers whether there was one.
pub(crate) fn meet_key<S: Station>(
    station: &mut S,
    place: &Place,
    frames: &mut Frames,
    run: &mut MergeRun<'_>,
    key: &Key,
) -> Result<bool, LoadFault>
    requires amid { IsAmid place.now run.old frames.old (S.view station.old) }
    requires below { begins_above run.old.taken.last ((key.now, []) ∷ []) ≡ true }
    requires few { run.old.edits + 1 < 2 ^ 32 }
    ensures { MeetsKey place.now key.now result run.old run.new frames.old frames.new (S.view station.old) (S.view station.new) }
{
    copy_below(station, place, frames, run, &Some(*key))?;
    run.edits += 1;
    run.last = Some(*key);
    Ok(pass_key(&mut run.ahead, key))
}

// The next record of the store, if it is below a key, or at all if there is no key.
fn next_of<S: Station>(
    station: &mut S,
    place: &Place,
    run: &mut MergeRun<'_>,
    key: &Option<Key>,
) -> Result<Option<Row>, LoadFault>
    requires live { ReadsLive place.now run.old.ahead (S.view station.old) }
    ensures row { IfOk result (λ next. IfSome next (λ row. slice_get run.new.ahead.page.rows run.new.ahead.index
        ≡ Some (record_of row))) }
    ensures under { IfOk result (λ next. IfSome next (λ row. begins_under key.now (record_of row ∷ []) ≡ true)) }
    ensures stops { IfOk result (λ next. IsNone next → StopsAt key.now run.new.ahead) }
    ensures same { run.new ≡ record run.old { ahead = run.new.ahead } }
    ensures reads { OnOk result (ReadsNext place.now None run.old.ahead run.new.ahead (S.view station.old) (S.view station.new)) }
    ensures fault { IfErr result (λ fault. (x : StoreFault) × (fault ≡ load_fault_of x)
        × ReadsNext place.now (Some x) run.old.ahead run.new.ahead (S.view station.old) (S.view station.new)) }
{
    let row = next_below(station, place, &mut run.ahead, key)?;
    Ok(row)
}
