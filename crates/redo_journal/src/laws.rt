//! Laws of the definitions.

ghost use Rattle.std.specs.Prelude.{◌≡◌, ◌≢◌, ◌^◌, List, ℕ, true};
ghost use Rattle.station.specs.Bytes.{Same};
ghost use Rattle.station.specs.View.{Told, EachHeld, NothingPending};
ghost use Rattle.station.specs.Steps.{Steps};
ghost use Rattle.header_gate.specs.declared.layout.Layout.{Layout};
ghost use Rattle.header_gate.specs.declared.layout.TheConstants.{PAIRED};
ghost use Rattle.header_gate.specs.Header.{live_copy, gate};
ghost use Rattle.header_gate.specs.InPlace.{IsDone, IsRecovered};
ghost use Rattle.header_gate.specs.Recovered.{recovered, live_table, is_laid, IsTableOf};
ghost use Rattle.redo_journal.specs.Rest.{AtRest, RestsAt};

use station::Station;

/// A law: each image that a station at rest may leave recovers to the image that its held bytes have in their regions, with
/// the same gate and live journal. Before version 4 it is the held bytes. Calls that change no byte keep the rest.
pub fn stations_at_rest<S: Station>(a: &S, b: &S)
    // Below version 4 a station at rest has nothing pending.
    ensures single { (l : Layout) → l.version ≢ PAIRED → AtRest l (S.view a.now) → NothingPending (S.view a.now) }
    // A station is at rest if nothing is pending and its journal, if it is to be laid, lies in place.
    ensures nothing { (l : Layout) → NothingPending (S.view a.now) → (Told (S.view a.now) → IsDone l (S.view a.now).held) →
        AtRest l (S.view a.now) }
    // Each image that a station at rest may hold recovers to what its held bytes recover to.
    ensures recovers { (l : Layout) → AtRest l (S.view a.now) →
        EachHeld (λ image. recovered l image ≡ recovered l (S.view a.now).held) (S.view a.now) }
    // The held bytes of a station at rest, if it tells them, are their own recovered image outside gate and journals.
    ensures held { (l : Layout) → AtRest l (S.view a.now) → Told (S.view a.now) → IsRecovered l (S.view a.now).held }
    // Each image that a station at rest may hold has the gate and the live copy of its held bytes.
    ensures gates { (l : Layout) → AtRest l (S.view a.now) →
        EachHeld (λ image. gate image ≡ gate (S.view a.now).held) (S.view a.now) }
    ensures copies { (l : Layout) → AtRest l (S.view a.now) →
        EachHeld (λ image. live_copy image ≡ live_copy (S.view a.now).held) (S.view a.now) }
    // In each image that a station at rest may hold, a journal that is to be laid has a sound table: at most as many pages as the
    // journal takes, ascending, each of a region.
    ensures tables { (l : Layout) → AtRest l (S.view a.now) →
        EachHeld (λ image. is_laid l image ≡ true → IsTableOf l.journal (2 ^ l.hmax) (live_table l image)) (S.view a.now) }
    // Below version 4, if a station is at rest with a gate that is noted (`RestsAt`), the gate is even in each image that it may
    // hold; and a station with nothing pending and an even gate in each such image is at rest, with 0 noted.
    ensures settled { (l : Layout) (turn : ℕ) → l.version ≢ PAIRED → RestsAt l turn (S.view a.now) →
        EachHeld (λ image. gate image ≡ 0) (S.view a.now) }
    ensures rests { (l : Layout) → l.version ≢ PAIRED → NothingPending (S.view a.now) →
        EachHeld (λ image. gate image ≡ 0) (S.view a.now) → RestsAt l 0 (S.view a.now) }
    // Calls that change no byte keep the rest.
    ensures still { (l : Layout) → AtRest l (S.view a.now) → Steps Same (S.view a.now) (S.view b.now) → AtRest l (S.view b.now) }
{}
