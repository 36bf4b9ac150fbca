//! Reading an intent that is to be applied.

ghost use Rattle.std.specs.Prelude.{◌≡◌, ◌↔◌, ℕ, ◌+◌, ◌<◌, ◌≤◌, false, List, T, length, OnOk, IfOk, IfErr, IsErrOf, Some, None};
ghost use Rattle.std.specs.List.{list_all};
ghost use Rattle.station.specs.Bytes.{Same};
ghost use Rattle.station.specs.View.{Told, Rose};
ghost use Rattle.station.specs.Steps.{Steps};
ghost use Rattle.batch_intent.specs.declared.places.TheConstants.{INTENT, INTENT_SIZE};
ghost use Rattle.header_gate.specs.declared.layout.TheConstants.{INTENT_VERSION};
ghost use Rattle.header_gate.specs.Places.{IsSlotFormat, page_size};
ghost use Rattle.map_model.specs.Store as model;
ghost use Rattle.batch_intent.specs.Spelling.{items_in, fits_item};
ghost use Rattle.batch_intent.specs.Gate.{has_intent, intent_area, form_reason};

use crate::intent::Intent;
use crate::places::{INTENT, INTENT_SIZE};
use crate::validating::validate_intent;
use header_gate::{Gate, HeaderFault, INTENT_VERSION, Layout, Reason};
use station::Station;

/// The intent of a file of the layout, if its version has intents and its gate is odd: its items are to be applied, and fit
/// the slot format.
///
/// `NotStore` names the place of the number of items, or of the first item, that is wrong; no byte is changed. Whether an
/// item meets a full store isn't validated. Nothing is read if the version has no intents, and if the gate is even its byte
/// alone.
pub fn read_intent<S: Station>(
    station: &mut S,
    layout: Layout,
) -> Result<Option<Intent>, HeaderFault>
    requires format { IsSlotFormat layout.format }
    requires reach { page_size ≤ (S.view station.old).fixed.reach }
    // On Ok, if the station tells its bytes, the answer is None exactly if the version has no intent or the gate is even, and
    // else the items that the bytes spell.
    ensures even { IfOk result (λ intent. Told (S.view station.old) →
        (intent ≡ None) ↔ (has_intent layout (S.view station.old).held ≡ false)) }
    ensures items { IfOk result (λ intent. Told (S.view station.old) → (items : List model.Update) → intent ≡ Some items →
        items ≡ items_in (intent_area (S.view station.old).held)) }
    // On every station an intent that is answered has at least one item, and all fit the layout's slot format.
    ensures fits { IfOk result (λ intent. (items : List model.Update) → intent ≡ Some items → (1 ≤ length items) ×
        T (list_all (fits_item layout.format) items)) }
    // If the station tells its bytes, and no disk call fails, `NotStore` comes exactly if an intent is to be applied, by version
    // and gate, and its bytes are none of the slot format; it names the first wrong place.
    ensures sound { OnOk result (Told (S.view station.old) → form_reason layout (S.view station.old).held ≡ None) }
    ensures refused { IfErr result (λ e. Told (S.view station.old) → (r : Reason) → e ≡ HeaderFault.NotStore r →
        form_reason layout (S.view station.old).held ≡ Some r) }
    // The reason of `NotStore` is one of the intent, on every station, and its place one in the intent, or the one behind it.
    ensures reason { IfErr result (λ e. (r : Reason) → e ≡ HeaderFault.NotStore r → (place : ℕ) × (r ≡ Reason.Intent place)) }
    ensures within { IfErr result (λ e. (place : ℕ) → e ≡ HeaderFault.NotStore (Reason.Intent place) → (INTENT ≤ place) ×
        (place ≤ INTENT + INTENT_SIZE)) }
    // Reading changes nothing, and writes nothing.
    ensures steps { Steps Same (S.view station.old) (S.view station.new) }
    ensures written { (S.view station.new).travel.written ≡ (S.view station.old).travel.written }
    // Costs: at most 513 bytes read, by at most two calls; nothing and no call if the version has no intent; and if the gate is
    // told to be even, at most one byte, by at most one call.
    ensures reads { (S.view station.new).travel.read ≤ (S.view station.old).travel.read + (1 + INTENT_SIZE) }
    ensures unread { layout.version < INTENT_VERSION → (S.view station.new).travel.read ≡ (S.view station.old).travel.read }
    ensures gate_alone { Told (S.view station.old) → has_intent layout (S.view station.old).held ≡ false →
        (S.view station.new).travel.read ≤ (S.view station.old).travel.read + 1 }
    ensures calls { (S.view station.new).calls ≤ (S.view station.old).calls + 2 }
    ensures no_calls { layout.version < INTENT_VERSION → (S.view station.new).calls ≡ (S.view station.old).calls }
    ensures one_call { Told (S.view station.old) → has_intent layout (S.view station.old).held ≡ false →
        (S.view station.new).calls ≤ (S.view station.old).calls + 1 }
    // `Failed` comes only if the count of disk faults rose.
    ensures cause { IsErrOf result HeaderFault.Failed → Rose (S.view station.old).disk_faults (S.view station.new).disk_faults }
{
    if layout.version < INTENT_VERSION {
        return Ok(None);
    }
    let mut gate = [0];
    let Ok(()) = station.read_at(Gate::Intent.place(), &mut gate) else {
        return Err(HeaderFault::Failed);
    };
    if gate[0] % 2 == 0 {
        return Ok(None);
    }
    let mut bytes = [0; INTENT_SIZE];
    let Ok(()) = station.read_at(INTENT, &mut bytes) else {
        return Err(HeaderFault::Failed);
    };
    match validate_intent(&bytes, layout.format) {
        Ok(intent) => Ok(Some(intent)),
        Err(place) => Err(HeaderFault::NotStore(Reason::Intent {
            place: INTENT as u32 + place,
        })),
    }
}
