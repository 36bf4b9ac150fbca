//! The segments of a batch are read and validated.

ghost use Rattle.std.specs.Prelude.{◌≡◌, ◌+◌, ◌*◌, ◌^◌, ◌<◌, ◌≤◌, [], length, OnOk, IfErr, IsErrOf};
ghost use Rattle.station.specs.Bytes.{Same};
ghost use Rattle.station.specs.View.{Told, EachHeld, Rose};
ghost use Rattle.station.specs.Steps.{Steps};
ghost use Rattle.header_gate.specs.Places.{IsSlotFormat, IsLayout, file_length, height_limit, segment_size};
ghost use Rattle.header_gate.specs.InPlace.{IsRecovered};
ghost use Rattle.map_model.specs.Image.{array_of};
ghost use Rattle.redo_journal.specs.Frames.{IsFrames};
ghost use Rattle.header_gate.specs.Paged.{pages_of_all};
ghost use Rattle.segment_frames.specs.Lists.{most_segments, segments_in, held_lists, IsHeld, shown, numbers_of};
ghost use Rattle.segment_frames.specs.FrameReading.{ShowsFault, calls_for};
ghost use Rattle.redistribute.specs.Moving.{IsWithin};
ghost use Rattle.redistribute.specs.SpreadWindows.{HasWindow};
ghost use Rattle.redistribute.specs.WindowBatches.{HasCounts, kept_in};
ghost use Rattle.redistribute.specs.ShownFaults.{IsShown};

use crate::plan::Plan;
use redo_journal::{Frames, Place};
use segment::StoreFault;
use segment_frames::{Runs, read_batch, validate_frame};
use station::{Failed, Station};

/// Makes the segments of the runs a new batch, reads them into its frames, and sees that they are segments and have as
/// many records as the plan knows of.
pub(crate) fn load<S: Station, P: Plan>(
    station: &mut S,
    place: &Place,
    frames: &mut Frames,
    runs: Runs,
    first: u32,
    plan: &P,
) -> Result<(), StoreFault>
    requires layout { IsLayout place.now.layout }
    requires region { place.now.region < 2 }
    requires reach { file_length place.now.layout ≤ (S.view station.old).fixed.reach }
    requires journal { frames.old.journal ≡ place.now.layout.journal }
    requires within { IsWithin first (length (P.plan plan.now).counts) runs }
    requires inside { first + length (P.plan plan.now).counts ≤ 2 ^ height_limit place.now.layout }
    requires room { runs.low_len + runs.high_len ≤ most_segments place.now.layout }
    requires window { EachHeld (HasWindow place.now first (P.plan plan.now).counts) (S.view station.old) }
    requires readable { Told (S.view station.old) → IsRecovered place.now.layout (S.view station.old).held }
    ensures numbers { segments_in place.now.layout.format frames.new.numbers ≡ numbers_of runs }
    ensures journal { frames.new.journal ≡ frames.old.journal }
    ensures turn { frames.new.turn ≡ frames.old.turn }
    ensures held { OnOk result (IsHeld place.now.layout.format frames.new) }
    ensures counts { OnOk result (HasCounts place.now.layout.format first (P.plan plan.now).counts frames.new) }
    ensures shown { OnOk result (Told (S.view station.old) →
        held_lists place.now.layout.format frames.new ≡ shown (numbers_of runs) (array_of (S.view station.old).held)) }
    ensures steps { Steps Same (S.view station.old) (S.view station.new) }
    ensures unwritten { (S.view station.new).travel.written ≡ (S.view station.old).travel.written }
    ensures reads { (S.view station.new).travel.read ≤ (S.view station.old).travel.read +
        segment_size place.now.layout * (runs.low_len + runs.high_len) }
    ensures calls { (S.view station.new).calls ≤ (S.view station.old).calls + calls_for runs }
    ensures damaged { IfErr result (λ fault. Told (S.view station.old) → fault ≡ StoreFault.Failed) }
    ensures cause { IfErr result (IsShown place.now.layout.format frames.new first [] (P.plan plan.now).counts) }
    ensures failed { IsErrOf result StoreFault.Failed → Rose (S.view station.old).disk_faults (S.view station.new).disk_faults }
{
    match read_batch(station, place, frames, runs) {
        Ok(()) => validate_frames(frames, place.layout.format, runs, first, plan),
        Err(Failed) => Err(StoreFault::Failed),
    }
}

// Sees that each frame of the batch holds a segment, with as many records as the plan knows of.
fn validate_frames<P: Plan>(
    frames: &Frames,
    format: u32,
    runs: Runs,
    first: u32,
    plan: &P,
) -> Result<(), StoreFault>
    requires format { IsSlotFormat format }
    requires frames { IsFrames frames.now }
    requires numbers { segments_in format frames.now.numbers ≡ numbers_of runs }
    requires pages { frames.now.numbers ≡ pages_of_all format (segments_in format frames.now.numbers) }
    requires within { IsWithin first (length (P.plan plan.now).counts) runs }
    requires small { first + length (P.plan plan.now).counts ≤ 2 ^ 16 }
    ensures held { OnOk result (IsHeld format frames.now) }
    ensures counts { OnOk result (HasCounts format first (P.plan plan.now).counts frames.now) }
    ensures fault { IfErr result (ShowsFault format frames.now (kept_in first (P.plan plan.now).counts)) }
{
    for f in 0..runs.count() {
        let segment = runs.segment(f);
        validate_frame(frames, format, f, segment, plan.records_in(segment - first))?;
    }
    Ok(())
}
