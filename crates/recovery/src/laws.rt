//! Laws of a station at rest.

ghost use Rattle.std.specs.Prelude.{ℕ, List};
ghost use Rattle.station.specs.Bytes.{Touched};
ghost use Rattle.station.specs.View.{NothingPending};
ghost use Rattle.station.specs.Steps.{Steps};
ghost use Rattle.header_gate.specs.declared.layout.Layout.{Layout};
ghost use Rattle.map_model.specs.Store.{Update};
ghost use Rattle.batch_intent.specs.Gate.{IsIntentGatePlace, Intends};
ghost use Rattle.redo_journal.specs.Rest.{RestsAt};

use station::Station;

/// A law: a station at rest is so behind the writing of an intent, and behind the closing of its gate, once nothing is
/// pending.
pub fn intents_leave_rest<S: Station>(a: &S, b: &S)
    ensures written { (l : Layout) (turn : ℕ) (items : List Update) → RestsAt l turn (S.view a.now) →
        NothingPending (S.view b.now) →
        Steps (Intends items) (S.view a.now) (S.view b.now) → RestsAt l turn (S.view b.now) }
    ensures closed { (l : Layout) (turn : ℕ) → RestsAt l turn (S.view a.now) → NothingPending (S.view b.now) →
        Steps (Touched IsIntentGatePlace) (S.view a.now) (S.view b.now) → RestsAt l turn (S.view b.now) }
{}
