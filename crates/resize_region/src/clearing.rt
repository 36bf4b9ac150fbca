//! What comes before a growth, a shrinkage or an upgrade.

ghost use Rattle.std.specs.Prelude.{◌≡◌, ◌≢◌, ◌+◌, ◌<◌, ◌≤◌, OnOk, IfErr, IsErrOf};
ghost use Rattle.station.specs.View.{Told, EachHeld, NothingPending, Rose};
ghost use Rattle.station.specs.Steps.{Steps};
ghost use Rattle.header_gate.specs.declared.layout.TheConstants.{PAIRED};
ghost use Rattle.header_gate.specs.InPlace.{IsBare};
ghost use Rattle.header_gate.specs.Places.{IsLayout, file_length};
ghost use Rattle.map_model.specs.Image.{array_of};
ghost use Rattle.redo_journal.specs.Rest.{RestsAt};
ghost use Rattle.segment_frames.specs.FrameStanding.{IsSettledAt, StandsFor};
ghost use Rattle.window_tally.specs.TallyView.{TallyView};
ghost use Rattle.resize_region.specs.Resized.{Settles};

use redo_journal::{Frames, Place, clear};
use segment::StoreFault;
use station::{Failed, Station};

/// Leaves nothing pending, and no page that is to be replayed over the live region, so that [`crate::grow`], [`crate::shrink`]
/// or [`crate::upgrade`] may follow. If the file has one journal no call is made.
pub fn clear_store<S: Station>(
    station: &mut S,
    place: &Place,
    frames: &mut Frames,
) -> Result<(), StoreFault>
    requires layout { IsLayout place.now.layout }
    requires region { place.now.region < 2 }
    requires reach { file_length place.now.layout ≤ (S.view station.old).fixed.reach }
    requires settled { EachHeld (IsSettledAt place.now) (S.view station.old) }
    requires rests { RestsAt place.now.layout frames.old.turn (S.view station.old) }
    // At every moment, and in the held bytes whatever is answered, the file represents the same map at the same height, and no
    // byte differs but those of gate and journals.
    ensures steps { Steps (Settles place.now) (S.view station.old) (S.view station.new) }
    // Below version 4, with one journal, the station stays as it was: no call is made.
    ensures untouched { place.now.layout.version ≢ PAIRED → station.new ≡ station.old }
    // On Ok the array stays, and a tally that stood for the file still does.
    ensures stands { OnOk result ((tally : TallyView) → EachHeld (StandsFor place.now tally) (S.view station.old) →
        EachHeld (StandsFor place.now tally) (S.view station.new)) }
    ensures array { OnOk result (Told (S.view station.old) →
        array_of (S.view station.new).held ≡ array_of (S.view station.old).held) }
    // On Ok nothing is pending, no page is to be replayed over the live region, and the station is at rest.
    ensures nothing { OnOk result (NothingPending (S.view station.new)) }
    ensures bare { OnOk result (Told (S.view station.new) → IsBare place.now.layout (S.view station.new).held) }
    ensures rests { OnOk result (RestsAt place.now.layout frames.new.turn (S.view station.new)) }
    // The frames stay but for the gate that they note.
    ensures frames { frames.new ≡ record frames.old { turn = frames.new.turn } }
    // Costs: at most five bytes written, none read, at most four calls.
    ensures cost { (S.view station.new).travel.written ≤ (S.view station.old).travel.written + 5 }
    ensures no_reads { (S.view station.new).travel.read ≡ (S.view station.old).travel.read }
    ensures calls { (S.view station.new).calls ≤ (S.view station.old).calls + 4 }
    // Fails only if the count of disk faults rose.
    ensures fault { IfErr result (λ fault. fault ≡ StoreFault.Failed) }
    ensures failed { IsErrOf result StoreFault.Failed → Rose (S.view station.old).disk_faults (S.view station.new).disk_faults }
{
    match clear(station, place, frames) {
        Ok(()) => Ok(()),
        Err(Failed) => Err(StoreFault::Failed),
    }
}
