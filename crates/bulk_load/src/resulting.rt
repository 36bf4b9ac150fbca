//! Records of a text, and those that result of a merge, are packed into the region that isn't live, no more than the store may
//! hold.

ghost use Rattle.std.specs.Prelude.{◌≡◌, ◌∷◌, [], T, true};
ghost use Rattle.key_slot.specs.Record.{is_record};
ghost use Rattle.key_slot.specs.Row.{record_of};
ghost use Rattle.map_model.specs.FileReasons.{begins_above};
ghost use Rattle.bulk_load.specs.Packing.{CanFill};
ghost use Rattle.bulk_load.specs.TextReading.{IsTaking};
ghost use Rattle.bulk_load.specs.Resulting.{PacksRow};

use crate::fault::LoadFault;
use crate::packing::{Taken, pack};
use density_rule::upper;
use key_slot::Row;
use redo_journal::{Frames, Place};
use station::Station;

/// Packs a record behind those that result so far, unless the store is full.
pub(crate) fn take_result<S: Station>(
    station: &mut S,
    place: &Place,
    frames: &mut Frames,
    taken: &mut Taken,
    row: &Row,
) -> Result<(), LoadFault>
    requires can { CanFill place.now frames.old (S.view station.old) }
    requires taking { IsTaking place.now.layout taken.old frames.old }
    requires above { begins_above taken.old.last (record_of row.now ∷ []) ≡ true }
    requires fits { T (is_record place.now.layout.format (record_of row.now)) }
    ensures { PacksRow place.now (record_of row.now) result taken.old taken.new frames.old frames.new (S.view station.old)
        (S.view station.new) }
{
    let most = upper(place.layout.height_limit());
    if taken.records == most {
        return Err(LoadFault::Full { most });
    }
    pack(station, place, frames, taken, row)?;
    Ok(())
}
