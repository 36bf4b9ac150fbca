//! Runs of segments of the region that isn't live, read and written.

ghost use Rattle.std.specs.Prelude.{◌≡◌, ◌⊎◌, ℕ, ◌+◌, ◌-◌, ◌*◌, ◌^◌, ◌<◌, ◌≤◌, [], get_or, OnOk, IfErr, IsErrOf};
ghost use Rattle.station.specs.Bytes.{Same};
ghost use Rattle.station.specs.View.{Told, Rose};
ghost use Rattle.station.specs.Steps.{Steps};
ghost use Rattle.header_gate.specs.Places.{height_limit, segment_size};
ghost use Rattle.key_slot.specs.Segment.{FitsSegment, IsSegment};
ghost use Rattle.key_slot.specs.declared.sizes.TheConstants.{SEGMENT_SLOTS};
ghost use Rattle.map_model.specs.Regions.{Spares};
ghost use Rattle.redo_journal.specs.Frames.{IsFrames};
ghost use Rattle.resize_region.specs.Spare.{spare_bytes};
ghost use Rattle.resize_region.specs.Shares.{places, HasShares, share_in};
ghost use Rattle.segment_frames.specs.Lists.{page_at};
ghost use Rattle.bulk_load.specs.Packing.{CanFill};

use key_slot::SEGMENT_SLOTS;
use redo_journal::{Frames, Place};
use segment::StoreFault;
use station::{Failed, Station};

/// Reads segments of the region that isn't live, from `segment` on, into the first places, by one call of the device.
pub(crate) fn read_spare<S: Station>(
    station: &mut S,
    place: &Place,
    frames: &mut Frames,
    segment: u32,
    count: u32,
) -> Result<(), StoreFault>
    requires can { CanFill place.now frames.old (S.view station.old) }
    requires frames { IsFrames frames.old }
    requires room { count ≤ places place.now.layout.format frames.old }
    requires some { 1 ≤ count }
    requires inside { segment + count ≤ 2 ^ height_limit place.now.layout }
    ensures read { OnOk result (Told (S.view station.old) → (i : ℕ) → i < count →
        page_at place.now.layout.format frames.new.slots i ≡ spare_bytes place.now (segment + i) (S.view station.old).held) }
    ensures behind { (p : ℕ) → SEGMENT_SLOTS * place.now.layout.format * count ≤ p →
        get_or frames.new.slots p [] ≡ get_or frames.old.slots p [] }
    ensures frames { IsFrames frames.new }
    ensures rest { frames.new ≡ record frames.old { slots = frames.new.slots } }
    ensures steps { Steps Same (S.view station.old) (S.view station.new) }
    ensures unwritten { (S.view station.new).travel.written ≡ (S.view station.old).travel.written }
    ensures read_bytes { (S.view station.new).travel.read ≤ (S.view station.old).travel.read +
        segment_size place.now.layout * count }
    ensures calls { (S.view station.new).calls ≤ (S.view station.old).calls + 1 }
    ensures fault { IfErr result (λ fault. fault ≡ StoreFault.Failed) }
    ensures failed { IsErrOf result StoreFault.Failed → Rose (S.view station.old).disk_faults (S.view station.new).disk_faults }
{
    let pos = place.layout.segment_at(1 - place.region, segment);
    let size = SEGMENT_SLOTS * place.layout.format as usize;
    let slots = frames.bytes_mut(0, size * count as usize);
    match station.read_at(pos, slots) {
        Ok(()) => Ok(()),
        Err(Failed) => Err(StoreFault::Failed),
    }
}

/// Writes the places from `f` on to segments of the region that isn't live, from `segment` on, by one call of the device.
pub(crate) fn write_spare<S: Station>(
    station: &mut S,
    place: &Place,
    frames: &Frames,
    f: u32,
    segment: u32,
    count: u32,
) -> Result<(), StoreFault>
    requires can { CanFill place.now frames.now (S.view station.old) }
    requires shares { HasShares place.now.layout.format frames.now }
    requires room { f + count ≤ places place.now.layout.format frames.now }
    requires some { 1 ≤ count }
    requires inside { segment + count ≤ 2 ^ height_limit place.now.layout }
    ensures written { OnOk result (Told (S.view station.old) → (i : ℕ) → i < count →
        FitsSegment place.now.layout.format (share_in place.now.layout.format (f + i) frames.now) →
        IsSegment place.now.layout.format (share_in place.now.layout.format (f + i) frames.now) (spare_bytes place.now (segment + i) (S.view station.new).held)) }
    ensures others { Told (S.view station.old) → (i : ℕ) → i < 2 ^ height_limit place.now.layout → (i < segment) ⊎
        (segment + count ≤ i) →
        spare_bytes place.now i (S.view station.new).held ≡ spare_bytes place.now i (S.view station.old).held }
    ensures steps { Steps (Spares place.now.layout place.now.region) (S.view station.old) (S.view station.new) }
    ensures cost { (S.view station.new).travel.written ≤ (S.view station.old).travel.written +
        segment_size place.now.layout * count }
    ensures no_reads { (S.view station.new).travel.read ≡ (S.view station.old).travel.read }
    ensures calls { (S.view station.new).calls ≤ (S.view station.old).calls + 1 }
    ensures fault { IfErr result (λ fault. fault ≡ StoreFault.Failed) }
    ensures failed { IsErrOf result StoreFault.Failed → Rose (S.view station.old).disk_faults (S.view station.new).disk_faults }
{
    let pos = place.layout.segment_at(1 - place.region, segment);
    let size = SEGMENT_SLOTS * place.layout.format as usize;
    let slots = frames.bytes(size * f as usize, size * count as usize);
    match station.write_at(pos, slots) {
        Ok(()) => Ok(()),
        Err(Failed) => Err(StoreFault::Failed),
    }
}
