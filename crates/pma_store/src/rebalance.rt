//! What an update asks for before it is made: a window is rebalanced, or the store grows or shrinks.
//!
//! The kept counts decide it, before anything is written. The location of the update is then found anew, and is to lie in the
//! window.

ghost use Rattle.std.specs.Prelude.{◌≡◌, ◌≢◌, ◌+◌, ◌-◌, ◌/◌, ◌^◌, ◌<◌, ◌≤◌, ◌↔◌, ◌⊎◌, ℕ, Some, sum, slice_index, IfOk, OnOk, OnErr, IfErr, IsSome, IsTrue, is_ok, false};
ghost use Rattle.station.specs.View.{Told};
ghost use Rattle.density_rule.specs.Bounds.{upper_of};
ghost use Rattle.density_rule.specs.Marks.{mark_of, spread_marks};
ghost use Rattle.density_rule.specs.Spread.{spread_counts};
ghost use Rattle.density_rule.specs.Windows.{IsWindow};
ghost use Rattle.density_rule.specs.declared.Window.{Window};
ghost use Rattle.map_model.specs.Array.{spread};
ghost use Rattle.map_model.specs.ArrayState.{report_by};
ghost use Rattle.map_model.specs.Image.{array_of};
ghost use Rattle.window_tally.specs.Choice.{pick_of, IsPossible};
ghost use Rattle.pma_store.specs.StoreAnswers.{reported};
ghost use Rattle.pma_store.specs.UpdateCalls.{asked_calls, update_calls, again_calls, ready_calls, spread_calls};
ghost use Rattle.pma_store.specs.Changing.{IsRested, picked_height, update_cost, LiesIn, LeavesWindow, IsLow, FindsAgain, IsReady, HasReady};
ghost use Rattle.pma_store.specs.Damaging.{IsMetLate, IsOrderly, IsMetMaking, IsMetMoving};
ghost use Rattle.pma_store.specs.Readying.{broken_in, ready_cost, resizes, KeepsStore, readied, readied_array, spread_cost};
ghost use Rattle.pma_store.specs.Rewrites.{commit_cost};
ghost use Rattle.pma_store.specs.Locations.{IsLocation, IsOwn, FindsLocation};
ghost use Rattle.pma_store.specs.StoreView.{IsStore, StandsOn};
ghost use Rattle.pma_store.specs.Touching.{IsPlaceAfter};
ghost use Rattle.pma_store.specs.Updating.{update_of, need_of};
ghost use Rattle.pma_store.specs.declared.update.Need.TheVariants as need;

use crate::answers::{QUIET, Report};
use crate::store::OpenArray;
use crate::update::{Location, Need, Update};
use density_rule::{Window, window_of};
use redistribute::rebalance;
use segment::{Damage, Segment, StoreFault};
use station::Station;
use window_tally::{Change, Pick, Tally};

/// A change of a segment, and what is done first.
#[derive(Clone, Copy)]
pub(crate) struct Plan {
    pub(crate) change: Change,
    pub(crate) pick: Pick,
}

impl OpenArray {
    // What a change of a segment asks for.
    pub(crate) fn pick(&self, segment: u32, change: Change) -> Pick
        requires segment { segment < 2 ^ self.now.tally.height }
        requires some { change ≡ Change.Take → 1 ≤ slice_index self.now.tally.counts segment }
        ensures answer { result ≡ pick_of self.now.tally.hmax self.now.tally.height segment change
            (broken_in change segment self.now.tally) }
        ensures possible { IsPossible self.now.tally result }
        ensures few { change ≡ Change.Add → result ≢ Pick.AtLimit → sum self.now.tally.counts < upper_of self.now.tally.hmax }
        ensures cause { (window : Window) (n : ℕ) → result ≡ Pick.Spread window →
            mark_of self.now.tally.marks (window.height - 1) (segment / 2 ^ (window.height - 1)) ≡ Some n →
            2 ^ (window.height - 1) ≤ n }
    {
        self.tally.pick(segment, change)
    }

    // What is reported of a change of a segment that asks for this.
    pub(crate) fn report(&self, segment: u32, change: Change, pick: Pick) -> Report
        requires segment { segment < 2 ^ self.now.tally.height }
        requires pick { pick ≡ pick_of self.now.tally.hmax self.now.tally.height segment change
            (broken_in change segment self.now.tally) }
        requires possible { IsPossible self.now.tally pick }
        requires room { pick ≢ Pick.AtLimit }
        requires cause { (window : Window) (n : ℕ) → pick ≡ Pick.Spread window →
            mark_of self.now.tally.marks (window.height - 1) (segment / 2 ^ (window.height - 1)) ≡ Some n →
            2 ^ (window.height - 1) ≤ n }
        ensures report { reported result ≡ report_by self.now.tally.height segment (broken_in change segment self.now.tally)
            self.now.tally.marks }
        ensures rested { IsRested result }
        ensures resized { result.resized ≡ resizes pick }
        ensures calls { asked_calls self.now.place.layout self.now.tally.height pick ≤ update_calls self.now.place.layout
            self.now.tally.height (picked_height self.now.tally.height pick) result }
        ensures cost { ready_cost self.now.place.layout self.now.tally.height pick +
            commit_cost self.now.place.layout ≤ update_cost self.now.place.layout (picked_height self.now.tally.height pick)
            result }
    {
        match pick {
            Pick::Fits | Pick::AtLimit => QUIET,
            Pick::Spread(window) => Report {
                rebalanced: Some(window),
                child_updates: updates_in(&self.tally, window_of(segment, window.height - 1)),
                resized: false,
            },
            Pick::Grow | Pick::Shrink => Report {
                resized: true,
                ..QUIET
            },
        }
    }

    // Does what a change asks for, and answers the location in which it is then made. Where it asks for nothing, that is the
    // location that was found.
    pub(crate) fn prepare<S: Station>(
        &mut self,
        station: &mut S,
        update: &Update,
        location: Location,
        rows: &mut Segment,
        plan: Plan,
    ) -> Result<Location, StoreFault>
        requires on { StandsOn self.old (S.view station.old) }
        requires kept { IsStore self.old }
        requires few { plan.change ≡ Change.Add → sum self.old.tally.counts < upper_of self.old.tally.hmax }
        requires location { IsLocation (update_of update.now) self.old location rows.old }
        requires own { Told (S.view station.old) → IsOwn (update_of update.now) location rows.old (S.view station.old).held }
        requires needs { need_of (update_of update.now) (is_ok location.found) ≡ need.Change plan.change }
        requires pick { plan.pick ≡ pick_of self.old.tally.hmax self.old.tally.height location.segment plan.change
            (broken_in plan.change location.segment self.old.tally) }
        requires possible { IsPossible self.old.tally plan.pick }
        requires room { plan.pick ≢ Pick.AtLimit }
        ensures kept { KeepsStore result (ready_cost self.old.place.layout self.old.tally.height plan.pick)
            (ready_calls self.old.place.layout self.old.tally.height plan.pick + again_calls plan.pick)
            self.old self.new (S.view station.old) (S.view station.new) }
        ensures place { OnOk result (IsPlaceAfter (resizes plan.pick) self.old self.new (S.view station.old)
            (S.view station.new)) }
        ensures ready { IfOk result (λ next. IsReady (update_of update.now) plan.change location.segment self.old self.new next
            rows.new) }
        ensures own { IfOk result (λ next. Told (S.view station.old) →
            HasReady (update_of update.now) plan.change location.segment self.old next rows.new (S.view station.old).held
            (S.view station.new).held) }
        ensures asks { OnErr result (IsSome (broken_in plan.change location.segment self.old.tally)) }
        ensures late { IfErr result (λ fault. IsMetLate plan.change location.segment self.old self.new fault
            (S.view station.new)) }
    {
        if plan.pick == Pick::Fits {
            return Ok(location);
        }
        self.make_ready(station, location.segment, plan.change, plan.pick)?;
        self.find_again(station, update, rows, plan)
    }

    // Does what a change of a segment asks for.
    fn make_ready<S: Station>(
        &mut self,
        station: &mut S,
        segment: u32,
        change: Change,
        pick: Pick,
    ) -> Result<(), StoreFault>
        requires on { StandsOn self.old (S.view station.old) }
        requires pick { pick ≡ pick_of self.old.tally.hmax self.old.tally.height segment change
            (broken_in change segment self.old.tally) }
        requires possible { IsPossible self.old.tally pick }
        requires room { pick ≢ Pick.AtLimit }
        ensures kept { KeepsStore result (ready_cost self.old.place.layout self.old.tally.height pick)
            (ready_calls self.old.place.layout self.old.tally.height pick) self.old self.new (S.view station.old)
            (S.view station.new) }
        ensures place { OnOk result (IsPlaceAfter (resizes pick) self.old self.new (S.view station.old) (S.view station.new)) }
        ensures array { OnOk result (Told (S.view station.old) →
            array_of (S.view station.new).held ≡ readied_array change segment self.old.tally
            (array_of (S.view station.old).held)) }
        ensures making { IfErr result (λ fault. (fault ≡ StoreFault.Failed) ⊎ IsMetMaking pick self.old.tally fault) }
        ensures tally { OnOk result (self.new.tally ≡ readied change segment self.old.tally) }
    {
        match pick {
            Pick::Fits => Ok(()),
            Pick::Spread(window) => self.spread(station, window),
            Pick::Grow => self.grow(station),
            Pick::Shrink => self.shrink(station),
            Pick::AtLimit => Ok(()),
        }
    }

    // Spreads the records of a window evenly over its segments.
    pub(crate) fn spread<S: Station>(
        &mut self,
        station: &mut S,
        window: Window,
    ) -> Result<(), StoreFault>
        requires on { StandsOn self.old (S.view station.old) }
        requires window { IsWindow self.old.tally.height window.height window.number }
        requires larger { 1 ≤ window.height }
        ensures kept { KeepsStore result (spread_cost self.old.place.layout window.height)
            (spread_calls self.old.place.layout window.height) self.old self.new (S.view station.old) (S.view station.new) }
        ensures moving { IfErr result (λ fault. (fault ≡ StoreFault.Failed) ⊎ IsMetMoving window self.old.tally.counts fault) }
        ensures array { OnOk result (Told (S.view station.old) →
            array_of (S.view station.new).held ≡ spread (array_of (S.view station.old).held) window.height window.number) }
        ensures tally { OnOk result (self.new.tally ≡ record self.old.tally {
          counts = spread_counts self.old.tally.counts window.height window.number;
          marks = spread_marks self.old.tally.height window.height window.number self.old.tally.marks;
        }) }
        ensures place { IsPlaceAfter false self.old self.new (S.view station.old) (S.view station.new) }
    {
        rebalance(
            station,
            &self.place,
            &mut self.frames,
            &mut self.tally,
            &mut self.index,
            window,
        )
    }

    // Finds the location of an update anew. Where the segment lies out of the window that was picked, or its rows contradict
    // what was read before, it is out of order.
    fn find_again<S: Station>(
        &mut self,
        station: &mut S,
        update: &Update,
        rows: &mut Segment,
        plan: Plan,
    ) -> Result<Location, StoreFault>
        requires on { StandsOn self.old (S.view station.old) }
        requires again { Told (S.view station.old) →
            FindsAgain (update_of update.now) plan.change plan.pick (array_of (S.view station.old).held) }
        requires low { IsLow plan.pick }
        ensures store { IsStore self.new }
        ensures found { FindsLocation (update_of update.now) result self.old self.new rows.new (S.view station.old)
            (S.view station.new) }
        ensures lies { IfOk result (λ location. LiesIn plan.pick location.segment) }
        ensures needs { IfOk result (λ location. need_of (update_of update.now) (is_ok location.found) ≡
            need.Change plan.change) }
        ensures out { IfErr result (λ fault. ¬ IsOrderly fault →
            LeavesWindow (update_of update.now) plan.change plan.pick self.new rows.new) }
    {
        let location = self.find_location(station, update, rows)?;
        if !fits_again(update, location, plan) {
            return Err(StoreFault::Damaged {
                segment: location.segment,
                why: Damage::OutOfOrder,
            });
        }
        Ok(location)
    }
}

// How many updates a window has had since it was rested, where it is.
fn updates_in(tally: &Tally, window: Window) -> Option<u64>
    requires { IsWindow tally.now.height window.height window.number }
    ensures { result ≡ mark_of tally.now.marks window.height window.number }
{
    let since = tally.since(window);
    since.rested.then_some(since.updates)
}

// Whether a location lies where it may, and the update asks for the same change there.
fn fits_again(update: &Update, location: Location, plan: Plan) -> bool
    requires { IsLow plan.pick }
    ensures { IsTrue result ↔ (LiesIn plan.pick location.segment ×
        (need_of (update_of update.now) (is_ok location.found) ≡ need.Change plan.change)) }
{
    let need = update.need(location.found.is_ok());
    lies_in(plan.pick, location.segment) && need == Need::Change(plan.change)
}

// Whether a segment lies in the window that was picked, where one was.
fn lies_in(pick: Pick, segment: u32) -> bool
    requires { IsLow pick }
    ensures { IsTrue result ↔ LiesIn pick segment }
{
    match pick {
        Pick::Spread(window) => window_of(segment, window.height).number == window.number,
        _ => true,
    }
}
