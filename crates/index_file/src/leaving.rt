//! The index is left in the file.

ghost use Rattle.std.specs.Prelude.{◌≡◌, ◌+◌, ◌-◌, ◌*◌, ◌^◌, ◌≤◌, OnOk, OnErr};
ghost use Rattle.station.specs.Bytes.{byte, Touched};
ghost use Rattle.station.specs.View.{Told, EachHeld, NothingPending, Rose};
ghost use Rattle.station.specs.Steps.{Steps};
ghost use Rattle.header_gate.specs.Places.{file_length};
ghost use Rattle.header_gate.specs.declared.layout.TheConstants.{INDEXED};
ghost use Rattle.index_file.specs.Clean.{IsAreaPlace, IsLeft, Leaves};
ghost use Rattle.index_file.specs.Leaving.{IsReady, CanLeave};
ghost use Rattle.recovery.specs.StoreParts.{AreParts};
ghost use Rattle.index_file.specs.IndexReading.{area_calls};

use crate::writing::{write_counts, write_nodes};
use header_gate::{Gate, Layout, set_gate};
use recovery::Parts;
use station::{Failed, Station};
use veb_index::Index;
use window_tally::Tally;

/// Leaves the index of an open store in its file. The parts stay.
///
/// At each moment, and in the held bytes after it whatever it answers, the image is clean, and all its bytes outside the index
/// and the clean gate are those held at entry. It reads nothing.
pub fn leave_index<S: Station>(station: &mut S, parts: &mut Parts) -> Result<(), Failed>
    requires parts { AreParts parts.old.place parts.old.tally parts.old.index parts.old.frames.journal }
    requires indexed { INDEXED ≤ parts.old.place.layout.version }
    requires reach { file_length parts.old.place.layout ≤ (S.view station.old).fixed.reach }
    requires ready { EachHeld (IsReady parts.old.place.layout parts.old.place.region parts.old.tally parts.old.index)
        (S.view station.old) }
    requires nothing { NothingPending (S.view station.old) }
    // At every moment, and in the held bytes whatever is answered, the image is clean, and no byte differs but those of the index
    // and the clean gate.
    ensures steps { Steps (Leaves parts.old.place.layout) (S.view station.old) (S.view station.new) }
    // On Ok the byte of the clean gate is 1, the index is that of the array (`IsLeft`), and nothing is pending.
    ensures left { OnOk result (Told (S.view station.old) → IsLeft (S.view station.new).held) }
    ensures opened { OnOk result (Told (S.view station.old) → byte (S.view station.new).held 704 ≡ 1) }
    ensures settled { OnOk result (NothingPending (S.view station.new)) }
    // The parts stay.
    ensures kept { parts.new ≡ parts.old }
    // Costs at height h: at most `68 * 2^h + 1` bytes written, none read; at most one call for each 64 nodes and each 1024
    // counts, each number rounded up, and three.
    ensures cost { (S.view station.new).travel.written ≤ (S.view station.old).travel.written +
        (68 * 2 ^ parts.old.tally.height + 1) }
    ensures no_reads { (S.view station.new).travel.read ≡ (S.view station.old).travel.read }
    ensures calls { (S.view station.new).calls ≤ (S.view station.old).calls + (area_calls parts.old.tally.height + 3) }
    // Fails only if the count of disk faults rose.
    ensures cause { OnErr result (Rose (S.view station.old).disk_faults (S.view station.new).disk_faults) }
{
    leave_area(
        station,
        &parts.place.layout,
        parts.place.region,
        &parts.tally,
        &parts.index,
    )
}

/// Leaves the fences and the counts of a store in its file: they are written and synced, and then the clean gate is opened.
///
/// It knows nothing of a batch's frames.
fn leave_area<S: Station>(
    station: &mut S,
    layout: &Layout,
    region: u32,
    tally: &Tally,
    index: &Index,
) -> Result<(), Failed>
    requires leave { CanLeave layout.now region tally.now index.now (S.view station.old) }
    ensures steps { Steps (Leaves layout.now) (S.view station.old) (S.view station.new) }
    ensures left { OnOk result (Told (S.view station.old) → IsLeft (S.view station.new).held) }
    ensures opened { OnOk result (Told (S.view station.old) → byte (S.view station.new).held 704 ≡ 1) }
    ensures settled { OnOk result (NothingPending (S.view station.new)) }
    ensures cost { (S.view station.new).travel.written ≤ (S.view station.old).travel.written + (68 * 2 ^ tally.now.height + 1) }
    ensures no_reads { (S.view station.new).travel.read ≡ (S.view station.old).travel.read }
    ensures calls { (S.view station.new).calls ≤ (S.view station.old).calls + (area_calls tally.now.height + 3) }
    ensures cause { OnErr result (Rose (S.view station.old).disk_faults (S.view station.new).disk_faults) }
{
    write_area(station, layout, region, tally, index)?;
    set_gate(station, Gate::Clean, true)
}

// Writes the index and syncs it.
fn write_area<S: Station>(
    station: &mut S,
    layout: &Layout,
    region: u32,
    tally: &Tally,
    index: &Index,
) -> Result<(), Failed>
    requires leave { CanLeave layout.now region tally.now index.now (S.view station.old) }
    ensures steps { Steps (Touched (IsAreaPlace layout.now)) (S.view station.old) (S.view station.new) }
    ensures left { OnOk result (Told (S.view station.old) → IsLeft (S.view station.new).held) }
    ensures settled { OnOk result (NothingPending (S.view station.new)) }
    ensures cost { (S.view station.new).travel.written ≤ (S.view station.old).travel.written + 68 * 2 ^ tally.now.height }
    ensures no_reads { (S.view station.new).travel.read ≡ (S.view station.old).travel.read }
    ensures calls { (S.view station.new).calls ≤ (S.view station.old).calls + (area_calls tally.now.height + 1) }
    ensures cause { OnErr result (Rose (S.view station.old).disk_faults (S.view station.new).disk_faults) }
{
    write_nodes(station, layout, index, tally.height())?;
    write_counts(station, layout, tally)?;
    station.sync()
}
