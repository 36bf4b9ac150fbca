//! The intent of a file: read, and validated by the records of the live region.

ghost use Rattle.std.specs.Prelude.{◌≡◌, ◌+◌, ◌*◌, ◌≤◌, ◌^◌, false, sum, OnOk, IfOk, IfErr, IsErrOf, Some, None};
ghost use Rattle.station.specs.Bytes.{Same};
ghost use Rattle.station.specs.View.{Told, Rose};
ghost use Rattle.station.specs.Steps.{Steps};
ghost use Rattle.header_gate.specs.Places.{height_limit, segment_size};
ghost use Rattle.map_model.specs.Items.{first_full};
ghost use Rattle.map_model.specs.Image.{map_of};
ghost use Rattle.batch_intent.specs.Gate.{reason_at};
ghost use Rattle.recovery.specs.OpeningFaults.{IsNoDamage, IsIntentFault};
ghost use Rattle.recovery.specs.Intents.{intent_of, intent_reason, intent_calls, intent_reads, IsIntentFor, may_meet, place_among};
ghost use Rattle.recovery.specs.Opening.{IsReadBack};

use crate::fault::OpenFault;
use crate::fullness::{count_puts, full_place};
use crate::looking::find_keys;
use crate::parts::Parts;
use batch_intent::{INTENT, Intent, read_intent};
use density_rule::{Window, upper};
use header_gate::Reason;
use station::Station;

/// Reads the intent where it is to be applied, and sees that none of its items meets a full store.
///
/// `NotStore` names the place of the number of items, or of the first item, that is wrong, and where none is, of the first item
/// that meets a full store. Keys are looked for only where records and puts together are more than a store may hold.
pub(crate) fn take_intent<S: Station>(
    station: &mut S,
    parts: &Parts,
) -> Result<Option<Intent>, OpenFault>
    requires back { IsReadBack parts.now.place parts.now.tally parts.now.index parts.now.frames.journal parts.now.frames.turn
        (S.view station.old) }
    ensures intent { IfOk result (λ intent. Told (S.view station.old) → intent ≡ intent_of (S.view station.old).held) }
    ensures items { IfOk result (λ intent. IsIntentFor parts.now.place.layout.format intent) }
    ensures sound { OnOk result (Told (S.view station.old) → intent_reason (S.view station.old).held ≡ None) }
    ensures refused { IfErr result (λ e. (r : Reason) → e ≡ OpenFault.NotStore r → Told (S.view station.old) →
        intent_reason (S.view station.old).held ≡ Some r) }
    ensures steps { Steps Same (S.view station.old) (S.view station.new) }
    ensures unwritten { (S.view station.new).travel.written ≡ (S.view station.old).travel.written }
    ensures reads { Told (S.view station.old) → (S.view station.new).travel.read ≤ (S.view station.old).travel.read +
        intent_reads (S.view station.old).held }
    ensures calls { (S.view station.new).calls ≤ (S.view station.old).calls + (2 + 2 ^ parts.now.tally.height) }
    ensures calls_told { Told (S.view station.old) →
        (S.view station.new).calls ≤ (S.view station.old).calls + intent_calls (S.view station.old).held }
    ensures damaged { IfErr result (λ e. Told (S.view station.old) → IsNoDamage e) }
    ensures causes { IfErr result IsIntentFault }
    ensures failed { IsErrOf result OpenFault.Failed → Rose (S.view station.old).disk_faults (S.view station.new).disk_faults }
{
    let Some(intent) = read_intent(station, parts.place.layout)? else {
        return Ok(None);
    };
    admit(station, parts, &intent)?;
    Ok(Some(intent))
}

// Sees that none of the items meets a full store, and names the first that does.
fn admit<S: Station>(station: &mut S, parts: &Parts, intent: &Intent) -> Result<(), OpenFault>
    requires back { IsReadBack parts.now.place parts.now.tally parts.now.index parts.now.frames.journal parts.now.frames.turn
        (S.view station.old) }
    ensures room { OnOk result (Told (S.view station.old) →
        first_full (height_limit parts.now.place.layout) (map_of (S.view station.old).held) intent.now ≡ None) }
    ensures full { IfErr result (λ e. (r : Reason) → e ≡ OpenFault.NotStore r → Told (S.view station.old) →
        reason_at (place_among intent.now (first_full (height_limit parts.now.place.layout) (map_of (S.view station.old).held) intent.now)) ≡ Some r) }
    ensures steps { Steps Same (S.view station.old) (S.view station.new) }
    ensures unwritten { (S.view station.new).travel.written ≡ (S.view station.old).travel.written }
    ensures unread { may_meet (height_limit parts.now.place.layout) (sum parts.now.tally.counts) intent.now ≡ false →
        (S.view station.new).travel.read ≡ (S.view station.old).travel.read }
    ensures uncalled { may_meet (height_limit parts.now.place.layout) (sum parts.now.tally.counts) intent.now ≡ false →
        (S.view station.new).calls ≡ (S.view station.old).calls }
    ensures reads { (S.view station.new).travel.read ≤ (S.view station.old).travel.read +
        segment_size parts.now.place.layout * 2 ^ parts.now.tally.height }
    ensures calls { (S.view station.new).calls ≤ (S.view station.old).calls + 2 ^ parts.now.tally.height }
    ensures damaged { IfErr result (λ e. Told (S.view station.old) → IsNoDamage e) }
    ensures causes { IfErr result IsIntentFault }
    ensures failed { IsErrOf result OpenFault.Failed → Rose (S.view station.old).disk_faults (S.view station.new).disk_faults }
{
    let height = parts.tally.height();
    let records = parts.tally.count(Window { height, number: 0 });
    let most = upper(parts.place.layout.height_limit());
    if records + count_puts(intent) <= most {
        return Ok(());
    }
    let there = find_keys(station, parts, intent)?;
    match full_place(intent, &there, records, most) {
        None => Ok(()),
        Some(place) => Err(OpenFault::NotStore(Reason::Intent {
            place: INTENT as u32 + place,
        })),
    }
}
