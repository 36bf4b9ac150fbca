//! The index of a file is closed before anything else is written.

ghost use Rattle.std.specs.Prelude.{◌≡◌, ◌+◌, ◌≤◌, ◌&&◌, nat_le, OnOk, OnErr, None};
ghost use Rattle.station.specs.Bytes.{Touched};
ghost use Rattle.station.specs.View.{Told, NothingPending, Rose};
ghost use Rattle.station.specs.Steps.{Steps};
ghost use Rattle.header_gate.specs.Places.{page_size};
ghost use Rattle.header_gate.specs.Reasons.{header_reason};
ghost use Rattle.header_gate.specs.declared.layout.TheConstants.{INDEXED};
ghost use Rattle.index_file.specs.Clean.{IsCleanPlace, IsOpenIndex, IsShut, KeepsClean};
ghost use Rattle.recovery.specs.Restores.{LeavesFile};

use crate::gate::close_clean;
use header_gate::{Header, HeaderFault, INDEXED, read_header};
use station::{Failed, Station};

/// Closes the clean gate of a file of version 3 or later if it is odd. Each word that opens a file begins with it.
///
/// It reads the header, and syncs only if it closes. A file that the header refuses is left as it is, and so is one
/// without an odd clean gate. A clean file stays clean at every moment, and no byte but the clean gate changes.
pub fn close_index<S: Station>(station: &mut S) -> Result<(), Failed>
    // At every moment, and in the held bytes whatever is answered, no byte differs but the clean gate's.
    ensures steps { Steps (Touched IsCleanPlace) (S.view station.old) (S.view station.new) }
    // A clean file stays clean: whatever is answered, and at every moment if nothing is pending at the entry.
    ensures clean { KeepsClean (S.view station.old) (S.view station.new) }
    // On Ok the clean gate is even if the file has an index and there is no reason against its header.
    ensures shut { OnOk result (Told (S.view station.old) → header_reason (S.view station.old).held ≡ None →
        IsShut (S.view station.new).held) }
    // On Ok nothing is pending, if nothing was, or if the index was open.
    ensures settled { OnOk result (NothingPending (S.view station.old) → NothingPending (S.view station.new)) }
    ensures synced { OnOk result (Told (S.view station.old) → IsOpenIndex (S.view station.old).held →
        NothingPending (S.view station.new)) }
    // Whatever is answered, a file that the header refuses, one without an index and one with an even clean gate keep every byte
    // at every moment, and nothing is written.
    ensures kept { Told (S.view station.old) → ¬ IsOpenIndex (S.view station.old).held →
        LeavesFile (S.view station.old) (S.view station.new) }
    // Costs: at most one byte written, the 4096 of the header page read, and four calls; two calls if the file is such a one.
    ensures cost { (S.view station.new).travel.written ≤ (S.view station.old).travel.written + 1 }
    ensures reads { (S.view station.new).travel.read ≤ (S.view station.old).travel.read + page_size }
    ensures calls { (S.view station.new).calls ≤ (S.view station.old).calls + 4 }
    ensures calls_shut { Told (S.view station.old) → ¬ IsOpenIndex (S.view station.old).held →
        (S.view station.new).calls ≤ (S.view station.old).calls + 2 }
    // Fails only if the count of disk faults rose.
    ensures cause { OnErr result (Rose (S.view station.old).disk_faults (S.view station.new).disk_faults) }
{
    match read_header(station) {
        Ok(header) => {
            if is_open(&header) {
                close_clean(station)
            } else {
                Ok(())
            }
        }
        Err(HeaderFault::NotStore(_)) => Ok(()),
        Err(HeaderFault::Failed) => Err(Failed),
    }
}

// Whether the file has an index, and its clean gate is odd.
fn is_open(header: &Header) -> bool
    ensures { result ≡ (nat_le INDEXED header.now.layout.version && header.now.clean) }
{
    header.layout.version >= INDEXED && header.clean
}
