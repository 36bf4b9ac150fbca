//! A store is opened by the index in its file.

ghost use Rattle.std.specs.Prelude.{◌≡◌, ℕ, ◌⊎◌, ◌<◌, ◌≤◌, ◌+◌, ◌==◌, ◌||◌, not, IsOk, OnOk, IfOk, IfErr, IfSome, IsNone, IsErrOf, None, true, false};
ghost use Rattle.station.specs.Bytes.{Same};
ghost use Rattle.station.specs.View.{Told, EachHeld, NothingPending, Rose};
ghost use Rattle.station.specs.Steps.{Steps};
ghost use Rattle.density_rule.specs.Marks.{no_marks};
ghost use Rattle.header_gate.specs.Places.{file_length, height_limit};
ghost use Rattle.header_gate.specs.Reasons.{header_reason};
ghost use Rattle.header_gate.specs.declared.layout.TheConstants.{INDEXED, PAIRED};
ghost use Rattle.index_file.specs.Clean.{IsClean, IsLeft};
ghost use Rattle.index_file.specs.IndexOpening.{IsQuick, IsQuickFault, IsPageRead, IsQuickFront, NamesRead, IsOpenedQuickly, IsKnown, StopsQuick, is_quick, after_quick};
ghost use Rattle.index_file.specs.IndexReading.{IsAreaFront, NamesPlace, area_calls};
ghost use Rattle.map_model.specs.Image.{height_of};
ghost use Rattle.recovery.specs.Opening.{SyncsFirst};
ghost use Rattle.recovery.specs.StoreParts.{Fits, AgreesWith, turn_of};
ghost use Rattle.redo_journal.specs.Rest.{RestsAt};

use crate::fault::AreaFault;
use crate::loading::load_area;
use header_gate::{Header, HeaderFault, INDEXED, Reason, read_header};
use recovery::{OpenFault, Parts, make_parts};
use station::Station;
use std::alloc::Global;

/// Opens the store by the index in its file, where the clean gate is odd and the other gates are even. With two journals the
/// journal's gate may be either: it names the live one, which is empty where the index was left.
///
/// It begins with a sync, writes nothing, and reads the header page and the index, and no byte of a region. None where the
/// file has to be opened by its live region. `NotStore` names the first place of the index that is wrong, which was read; it never
/// comes where the station tells its bytes. `Memory` is want of memory, `Failed` a fault of the disk.
pub fn open_quick<S: Station>(alloc: Global, station: &mut S) -> Result<Option<Parts>, OpenFault>
    requires clean { Told (S.view station.old) → IsClean (S.view station.old).held }
    // Parts that are answered agree with the file, every window is within its bounds, the index has room for the layout's
    // greatest height, and the file is within the station's reach.
    ensures agrees { IfOk result (λ given. IfSome given (λ parts. EachHeld (AgreesWith parts.place parts.tally parts.index)
        (S.view station.new))) }
    ensures fits { IfOk result (λ given. IfSome given (λ parts. Fits parts.place parts.tally parts.index parts.frames.journal)) }
    ensures room { IfOk result (λ given. IfSome given (λ parts. parts.index.hmax ≡ height_limit parts.place.layout)) }
    ensures reach { IfOk result (λ given. IfSome given
        (λ parts. file_length parts.place.layout ≤ (S.view station.old).fixed.reach)) }
    // The file of such parts is of version 3 or later, no window is rested, and no intent waits.
    ensures indexed { IfOk result (λ given. IfSome given (λ parts. INDEXED ≤ parts.place.layout.version)) }
    ensures unrested { IfOk result (λ given. IfSome given (λ parts. parts.tally.marks ≡ no_marks parts.tally.height)) }
    ensures no_intent { IfOk result (λ given. IfSome given (λ parts. parts.intent ≡ None)) }
    // On Ok nothing is pending, and if parts are answered the station is at rest.
    ensures rests { IfOk result (λ given. IfSome given (λ parts. RestsAt parts.place.layout parts.frames.turn
        (S.view station.new))) }
    ensures settled { OnOk result (NothingPending (S.view station.new)) }

    // On Ok, if the station tells its bytes, parts are answered exactly if nothing is wrong with the header, the version is 3 or
    // 4, the clean gate is odd and the intent's even, and so is the journal's, at version 4 either (`IsQuick`).
    ensures quick { IfOk result (λ given. IfSome given (λ parts. Told (S.view station.old) → IsQuick (S.view station.old).held)) }
    ensures passed { IfOk result (λ given. IsNone given → Told (S.view station.old) → ¬ IsQuick (S.view station.old).held) }
    // If the station tells its bytes and the count of disk faults didn't rise, it answers Ok or `Memory`.
    ensures complete { Told (S.view station.old) → ¬ Rose (S.view station.old).disk_faults (S.view station.new).disk_faults →
        IsOk result ⊎ IsErrOf result OpenFault.Memory }

    // The first call settles what was pending, as a sync does: behind it, whatever a crash leaves is what was held at entry,
    // unless it failed and was the only call.
    ensures synced { SyncsFirst Same result (S.view station.old) (S.view station.new) }
    // Whatever is answered, no byte changes at any moment, and nothing is written.
    ensures steps { Steps Same (S.view station.old) (S.view station.new) }
    ensures unwritten { (S.view station.new).travel.written ≡ (S.view station.old).travel.written }
    // If parts are answered, the header page, the nodes and the counts were read, each once from its start to its end, and no
    // other byte.
    ensures travel { IfOk result (λ given. IfSome given (λ parts. (S.view station.new).travel ≡
        after_quick parts.place.layout parts.tally.height (S.view station.old).travel)) }
    // At None the header page was read, or nothing.
    ensures page { IfOk result (λ given. IsNone given → IsPageRead (S.view station.old).travel (S.view station.new).travel) }
    // On a failure the header page was read, or nothing, and behind the page a front of the nodes, or all of them and a front of
    // the counts.
    ensures front { IfErr result (λ e. IsQuickFront (S.view station.old) (S.view station.new).travel) }
    // `NotStore` names the place of a node or a count that was read, in the order of the tests: of a node if no count was read,
    // of a count behind all nodes. It lies in the piece that was read last, or all were read.
    ensures named { IfErr result (λ e. (place : ℕ) → e ≡ OpenFault.NotStore (Reason.Index place) →
        NamesRead (S.view station.old) place (S.view station.new).travel) }
    // On Ok at most three calls, and one for each 64 nodes and each 1024 counts, each number rounded up; at None three. If the
    // station tells its bytes, that holds by the height of the file, whatever is answered.
    ensures calls { IfOk result (λ given. IfSome given (λ parts. (S.view station.new).calls ≤ (S.view station.old).calls +
        (3 + area_calls parts.tally.height))) }
    ensures page_calls { IfOk result (λ given. IsNone given → (S.view station.new).calls ≤ (S.view station.old).calls + 3) }
    ensures calls_told { Told (S.view station.old) →
        (S.view station.new).calls ≤ (S.view station.old).calls + (3 + area_calls (height_of (S.view station.old).held)) }

    // Behind `Memory` nothing is pending, and nothing is wrong with the header.
    ensures memory { IsErrOf result OpenFault.Memory → NothingPending (S.view station.new) ×
        (Told (S.view station.old) → header_reason (S.view station.old).held ≡ None) }
    // `NotStore` names a place of the index, and never comes if the station tells its bytes; `Damaged` never comes.
    ensures causes { IfErr result IsQuickFault }
    ensures told { IfErr result (λ e. (r : Reason) → e ≡ OpenFault.NotStore r → ¬ Told (S.view station.old)) }
    // `Failed` comes only if the count of disk faults rose.
    ensures failed { IsErrOf result OpenFault.Failed → Rose (S.view station.old).disk_faults (S.view station.new).disk_faults }
{
    let Ok(()) = station.sync() else {
        return Err(OpenFault::Failed);
    };
    match read_header(station) {
        Ok(header) => open_left(alloc, station, &header),
        Err(HeaderFault::NotStore(_)) => Ok(None),
        Err(HeaderFault::Failed) => Err(OpenFault::Failed),
    }
}

// Opens the store of a file with this header, if it is one that was left.
fn open_left<S: Station>(
    alloc: Global,
    station: &mut S,
    header: &Header,
) -> Result<Option<Parts>, OpenFault>
    requires known { IsKnown header.now (S.view station.old) }
    requires clean { Told (S.view station.old) → IsClean (S.view station.old).held }
    ensures opened { IfOk result (λ given. IfSome given (λ parts. IsOpenedQuickly parts (S.view station.old)
        (S.view station.new))) }
    ensures quick { IfOk result (λ given. IfSome given (λ parts. is_quick header.now ≡ true)) }
    ensures passed { IfOk result (λ given. IsNone given → (is_quick header.now ≡ false) ×
        ((S.view station.new).travel ≡ (S.view station.old).travel)) }
    ensures steps { Steps Same (S.view station.old) (S.view station.new) }
    ensures front { IfErr result (λ e. IsAreaFront header.now.layout header.now.height (S.view station.old).travel
        (S.view station.new).travel) }
    ensures named { IfErr result (λ e. (place : ℕ) → e ≡ OpenFault.NotStore (Reason.Index place) →
        NamesPlace header.now.layout header.now.height place (S.view station.old).travel (S.view station.new).travel) }
    ensures calls { (S.view station.new).calls ≤ (S.view station.old).calls + area_calls header.now.height }
    ensures no_calls { IfOk result (λ given. IsNone given → (S.view station.new).calls ≡ (S.view station.old).calls) }
    ensures stops { IfErr result (λ e. StopsQuick e (S.view station.old) (S.view station.new)) }
{
    if !may_open(header) {
        return Ok(None);
    }
    let parts = load_parts(alloc, station, header)?;
    Ok(Some(parts))
}

// Opens the store of a file that was left: its memory is taken, and its index read.
fn load_parts<S: Station>(
    alloc: Global,
    station: &mut S,
    header: &Header,
) -> Result<Parts, OpenFault>
    requires known { IsKnown header.now (S.view station.old) }
    requires indexed { INDEXED ≤ header.now.layout.version }
    requires left { Told (S.view station.old) → IsLeft (S.view station.old).held }
    ensures opened { IfOk result (λ parts. IsOpenedQuickly parts (S.view station.old) (S.view station.new)) }
    ensures steps { Steps Same (S.view station.old) (S.view station.new) }
    ensures front { IfErr result (λ e. IsAreaFront header.now.layout header.now.height (S.view station.old).travel
        (S.view station.new).travel) }
    ensures named { IfErr result (λ e. (place : ℕ) → e ≡ OpenFault.NotStore (Reason.Index place) →
        NamesPlace header.now.layout header.now.height place (S.view station.old).travel (S.view station.new).travel) }
    ensures calls { (S.view station.new).calls ≤ (S.view station.old).calls + area_calls header.now.height }
    ensures stops { IfErr result (λ e. StopsQuick e (S.view station.old) (S.view station.new)) }
{
    let Ok(mut parts) = make_parts(alloc, header) else {
        return Err(OpenFault::Memory);
    };
    parts.frames.set_turn(header.layout, turn_said(header));
    match load_area(
        station,
        &parts.place.layout,
        &mut parts.tally,
        &mut parts.index,
    ) {
        Ok(()) => Ok(parts),
        Err(AreaFault::Failed) => Err(OpenFault::Failed),
        Err(AreaFault::Wrong { place }) => Err(OpenFault::NotStore(Reason::Index { place })),
    }
}

// Whether the file has an index, and its gates say that it was left.
fn may_open(header: &Header) -> bool
    ensures { result ≡ is_quick header.now }
{
    header.layout.version >= INDEXED && header.clean && is_passable(header) && !header.intent
}

// Whether the journal's gate is even, or one of two journals is named by it, whichever.
fn is_passable(header: &Header) -> bool
    ensures { result ≡ (header.now.layout.version == PAIRED) || not header.now.gate }
{
    header.layout.is_paired() || !header.gate
}

// What the journal's gate says, as a number.
fn turn_said(header: &Header) -> u32
    ensures said { result ≡ turn_of header.now.gate }
    ensures small { result < 2 }
{
    if header.gate { 1 } else { 0 }
}
