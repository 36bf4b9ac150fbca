//! The store grows and shrinks.
//!
//! The other region gets the records, and becomes the live one. A page that is still to be replayed over the live region would then
//! be replayed over the new one: so the store is cleared of such first.

ghost use Rattle.std.specs.Prelude.{◌≡◌, ◌≢◌, ◌+◌, ◌-◌, ◌<◌, ◌≤◌, ◌⊎◌, true, sum, OnOk, IfErr};
ghost use Rattle.station.specs.Bytes.{Touched};
ghost use Rattle.station.specs.Steps.{Steps};
ghost use Rattle.station.specs.View.{NothingPending, Told};
ghost use Rattle.density_rule.specs.Bounds.{IsInBounds};
ghost use Rattle.density_rule.specs.Marks.{resized_marks};
ghost use Rattle.density_rule.specs.Spread.{resized_counts};
ghost use Rattle.header_gate.specs.InPlace.{IsBare};
ghost use Rattle.header_gate.specs.declared.layout.TheConstants.{PAIRED};
ghost use Rattle.map_model.specs.Array.{resized};
ghost use Rattle.map_model.specs.Image.{array_of};
ghost use Rattle.pma_store.specs.UpdateCalls.{clear_calls, copying_calls, resize_calls};
ghost use Rattle.pma_store.specs.Damaging.{IsMetAmong};
ghost use Rattle.pma_store.specs.Readying.{clear_cost, copying_cost, resize_cost, KeepsStore};
ghost use Rattle.pma_store.specs.StoreView.{StandsOn};
ghost use Rattle.pma_store.specs.Touching.{IsClearPlace, IsPlaceAfter};

use crate::store::OpenArray;
use resize_region::clear_store;
use segment::StoreFault;
use station::Station;

impl OpenArray {
    // Sees to it that nothing is pending and no page is to be replayed over the live region.
    pub(crate) fn clear<S: Station>(&mut self, station: &mut S) -> Result<(), StoreFault>
        requires on { StandsOn self.old (S.view station.old) }
        ensures kept { KeepsStore result (clear_cost self.old.place.layout) (clear_calls self.old.place.layout) self.old self.new
            (S.view station.old) (S.view station.new) }
        ensures touched { Steps (Touched (IsClearPlace self.old.place.layout)) (S.view station.old) (S.view station.new) }
        ensures unread { (S.view station.new).travel.read ≡ (S.view station.old).travel.read }
        ensures untouched { self.old.place.layout.version ≢ PAIRED → station.new ≡ station.old }
        ensures array { OnOk result (Told (S.view station.old) →
            array_of (S.view station.new).held ≡ array_of (S.view station.old).held) }
        ensures nothing { OnOk result (NothingPending (S.view station.new)) }
        ensures bare { OnOk result (Told (S.view station.new) → IsBare self.old.place.layout (S.view station.new).held) }
        ensures turned { self.new ≡ record self.old { turn = self.new.turn } }
        ensures disk { IfErr result (λ fault. fault ≡ StoreFault.Failed) }
    {
        clear_store(station, &self.place, &mut self.frames)
    }

    // Doubles the number of segments.
    pub(crate) fn grow<S: Station>(&mut self, station: &mut S) -> Result<(), StoreFault>
        requires on { StandsOn self.old (S.view station.old) }
        requires limit { self.old.tally.height < self.old.tally.hmax }
        requires bounds { IsInBounds (self.old.tally.height + 1) (self.old.tally.height + 1) (sum self.old.tally.counts) }
        ensures kept { KeepsStore result (resize_cost self.old.place.layout (self.old.tally.height + 1))
            (resize_calls self.old.place.layout self.old.tally.height (self.old.tally.height + 1))
            self.old self.new (S.view station.old) (S.view station.new) }
        ensures among { IfErr result (λ fault. (fault ≡ StoreFault.Failed) ⊎ IsMetAmong self.old.tally fault) }
        ensures place { OnOk result (IsPlaceAfter true self.old self.new (S.view station.old) (S.view station.new)) }
        ensures array { OnOk result (Told (S.view station.old) →
            array_of (S.view station.new).held ≡ resized (array_of (S.view station.old).held) (self.old.tally.height + 1)) }
        ensures tally { OnOk result (self.new.tally ≡ record self.old.tally {
          height = self.old.tally.height + 1;
          counts = resized_counts self.old.tally.counts (self.old.tally.height + 1);
          marks = resized_marks (self.old.tally.height + 1);
        }) }
    {
        self.clear(station)?;
        self.grow_cleared(station)
    }

    // The same, if no page is to be replayed over the live region.
    fn grow_cleared<S: Station>(&mut self, station: &mut S) -> Result<(), StoreFault>
        requires on { StandsOn self.old (S.view station.old) }
        requires nothing { NothingPending (S.view station.old) }
        requires bare { Told (S.view station.old) → IsBare self.old.place.layout (S.view station.old).held }
        requires limit { self.old.tally.height < self.old.tally.hmax }
        requires bounds { IsInBounds (self.old.tally.height + 1) (self.old.tally.height + 1) (sum self.old.tally.counts) }
        ensures kept { KeepsStore result (copying_cost self.old.place.layout (self.old.tally.height + 1))
            (copying_calls self.old.place.layout self.old.tally.height (self.old.tally.height + 1))
            self.old self.new (S.view station.old) (S.view station.new) }
        ensures among { IfErr result (λ fault. (fault ≡ StoreFault.Failed) ⊎ IsMetAmong self.old.tally fault) }
        ensures place { OnOk result (IsPlaceAfter true self.old self.new (S.view station.old) (S.view station.new)) }
        ensures array { OnOk result (Told (S.view station.old) →
            array_of (S.view station.new).held ≡ resized (array_of (S.view station.old).held) (self.old.tally.height + 1)) }
        ensures tally { OnOk result (self.new.tally ≡ record self.old.tally {
          height = self.old.tally.height + 1;
          counts = resized_counts self.old.tally.counts (self.old.tally.height + 1);
          marks = resized_marks (self.old.tally.height + 1);
        }) }
    {
        let height = self.tally.height();
        self.index.reset(height + 1);
        match resize_region::grow(
            station,
            &mut self.place,
            &mut self.frames,
            &mut self.tally,
            &mut self.index,
        ) {
            Ok(()) => Ok(()),
            Err(fault) => {
                self.index.reset(height);
                Err(fault)
            }
        }
    }

    // Halves the number of segments.
    pub(crate) fn shrink<S: Station>(&mut self, station: &mut S) -> Result<(), StoreFault>
        requires on { StandsOn self.old (S.view station.old) }
        requires some { 1 ≤ self.old.tally.height }
        requires bounds { IsInBounds (self.old.tally.height - 1) (self.old.tally.height - 1) (sum self.old.tally.counts) }
        ensures kept { KeepsStore result (resize_cost self.old.place.layout (self.old.tally.height - 1))
            (resize_calls self.old.place.layout self.old.tally.height (self.old.tally.height - 1))
            self.old self.new (S.view station.old) (S.view station.new) }
        ensures among { IfErr result (λ fault. (fault ≡ StoreFault.Failed) ⊎ IsMetAmong self.old.tally fault) }
        ensures place { OnOk result (IsPlaceAfter true self.old self.new (S.view station.old) (S.view station.new)) }
        ensures array { OnOk result (Told (S.view station.old) →
            array_of (S.view station.new).held ≡ resized (array_of (S.view station.old).held) (self.old.tally.height - 1)) }
        ensures tally { OnOk result (self.new.tally ≡ record self.old.tally {
          height = self.old.tally.height - 1;
          counts = resized_counts self.old.tally.counts (self.old.tally.height - 1);
          marks = resized_marks (self.old.tally.height - 1);
        }) }
    {
        self.clear(station)?;
        self.shrink_cleared(station)
    }

    // The same, if no page is to be replayed over the live region.
    fn shrink_cleared<S: Station>(&mut self, station: &mut S) -> Result<(), StoreFault>
        requires on { StandsOn self.old (S.view station.old) }
        requires nothing { NothingPending (S.view station.old) }
        requires bare { Told (S.view station.old) → IsBare self.old.place.layout (S.view station.old).held }
        requires some { 1 ≤ self.old.tally.height }
        requires bounds { IsInBounds (self.old.tally.height - 1) (self.old.tally.height - 1) (sum self.old.tally.counts) }
        ensures kept { KeepsStore result (copying_cost self.old.place.layout (self.old.tally.height - 1))
            (copying_calls self.old.place.layout self.old.tally.height (self.old.tally.height - 1))
            self.old self.new (S.view station.old) (S.view station.new) }
        ensures among { IfErr result (λ fault. (fault ≡ StoreFault.Failed) ⊎ IsMetAmong self.old.tally fault) }
        ensures place { OnOk result (IsPlaceAfter true self.old self.new (S.view station.old) (S.view station.new)) }
        ensures array { OnOk result (Told (S.view station.old) →
            array_of (S.view station.new).held ≡ resized (array_of (S.view station.old).held) (self.old.tally.height - 1)) }
        ensures tally { OnOk result (self.new.tally ≡ record self.old.tally {
          height = self.old.tally.height - 1;
          counts = resized_counts self.old.tally.counts (self.old.tally.height - 1);
          marks = resized_marks (self.old.tally.height - 1);
        }) }
    {
        let height = self.tally.height();
        self.index.reset(height - 1);
        match resize_region::shrink(
            station,
            &mut self.place,
            &mut self.frames,
            &mut self.tally,
            &mut self.index,
        ) {
            Ok(()) => Ok(()),
            Err(fault) => {
                self.index.reset(height);
                Err(fault)
            }
        }
    }
}
