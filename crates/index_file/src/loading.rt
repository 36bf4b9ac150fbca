//! The index in the file is taken over into memory.

ghost use Rattle.std.specs.Prelude.{◌≡◌, ℕ, ◌+◌, ◌-◌, ◌*◌, ◌^◌, ◌<◌, ◌≤◌, OnOk, OnErr, IfErr, IsErrOf, Some, None};
ghost use Rattle.station.specs.Bytes.{Same};
ghost use Rattle.station.specs.View.{Told, Rose};
ghost use Rattle.station.specs.Steps.{Steps};
ghost use Rattle.density_rule.specs.Marks.{no_marks};
ghost use Rattle.density_rule.specs.Windows.{IsBalanced};
ghost use Rattle.header_gate.specs.Places.{IsLayout, file_length};
ghost use Rattle.header_gate.specs.declared.layout.TheConstants.{INDEXED};
ghost use Rattle.header_gate.specs.declared.reason.Reason.TheVariants.{Index as WrongIndex};
ghost use Rattle.index_file.specs.IndexReasons.{area_reason, fences_reason, windows_reason, counts_read};
ghost use Rattle.index_file.specs.Area.{node_place};
ghost use Rattle.index_file.specs.IndexReading.{HasIndex, IsUncounted, TakesCounts, IsUnread, TakesFences, IsFrontRead, IsAreaFront, NamesNode, NamesCount, NamesPlace, ReadsNodes, ReadsCounts, after_area, area_calls};
ghost use Rattle.index_file.specs.declared.sizes.TheConstants.{NODE_SIZE};
ghost use Rattle.index_file.specs.Writing.{AreNodesOf};
ghost use Rattle.window_tally.specs.TallyView.{IsTally};

use crate::area::{wrong_count, wrong_node};
use crate::counts::read_counts;
use crate::fault::AreaFault;
use crate::reading::read_nodes;
use crate::validating::{first_broken, first_misplaced};
use density_rule::Window;
use header_gate::Layout;
use station::Station;
use veb_index::{Index, fence_position};
use window_tally::Tally;

/// Reads the index in the file into a tally and an index of one height, and validates it.
///
/// `Wrong` names the first node or count that is wrong: by the form and the links of the nodes, by the order of the fences,
/// and by the bounds of the windows. No byte outside the index is read.
pub(crate) fn load_area<S: Station>(
    station: &mut S,
    layout: &Layout,
    tally: &mut Tally,
    index: &mut Index,
) -> Result<(), AreaFault>
    requires file { HasIndex layout.now (S.view station.old) }
    requires uncounted { IsUncounted layout.now tally.old }
    requires index_height { index.old.height ≡ tally.old.height }
    ensures fenced { OnOk result (Told (S.view station.old) →
        AreNodesOf layout.now.format layout.now tally.old.height index.new.fences (2 ^ tally.old.height - 1)
        (S.view station.old).held) }
    ensures counted { OnOk result (Told (S.view station.old) →
        tally.new.counts ≡ counts_read layout.now tally.old.height (S.view station.old).held) }
    ensures balanced { OnOk result (IsBalanced tally.new.height tally.new.counts) }
    ensures refused { IfErr result (λ e. Told (S.view station.old) → (place : ℕ) → e ≡ AreaFault.Wrong place →
        area_reason layout.now tally.old.height (S.view station.old).held ≡ Some (WrongIndex place)) }
    ensures counts { TakesCounts tally.old tally.new }
    ensures fences { TakesFences index.old index.new }
    ensures steps { Steps Same (S.view station.old) (S.view station.new) }
    ensures travel { OnOk result ((S.view station.new).travel ≡
        after_area layout.now tally.old.height (S.view station.old).travel) }
    ensures front { IfErr result (λ e. IsAreaFront layout.now tally.old.height (S.view station.old).travel
        (S.view station.new).travel) }
    ensures named { IfErr result (λ e. (place : ℕ) → e ≡ AreaFault.Wrong place →
        NamesPlace layout.now tally.old.height place (S.view station.old).travel (S.view station.new).travel) }
    ensures calls { (S.view station.new).calls ≤ (S.view station.old).calls + area_calls tally.old.height }
    ensures failed { IsErrOf result AreaFault.Failed → Rose (S.view station.old).disk_faults (S.view station.new).disk_faults }
{
    let h = tally.height();
    load_fences(station, layout, index, h)?;
    load_counts(station, layout, tally)
}

// Reads the nodes, and validates them and the order of their fences.
fn load_fences<S: Station>(
    station: &mut S,
    layout: &Layout,
    index: &mut Index,
    h: u32,
) -> Result<(), AreaFault>
    requires file { HasIndex layout.now (S.view station.old) }
    requires unread { IsUnread layout.now h index.old }
    ensures fenced { OnOk result (Told (S.view station.old) →
        AreNodesOf layout.now.format layout.now h index.new.fences (2 ^ h - 1) (S.view station.old).held) }
    ensures sound { OnOk result (Told (S.view station.old) → fences_reason layout.now h (S.view station.old).held ≡ None) }
    ensures refused { IfErr result (λ e. Told (S.view station.old) → (place : ℕ) → e ≡ AreaFault.Wrong place →
        fences_reason layout.now h (S.view station.old).held ≡ Some (WrongIndex place)) }
    ensures fences { TakesFences index.old index.new }
    ensures reads { ReadsNodes layout.now h result (S.view station.old) (S.view station.new) }
    ensures front { OnErr result (IsFrontRead (node_place layout.now 0) (NODE_SIZE * (2 ^ h - 1)) (S.view station.old).travel
        (S.view station.new).travel) }
    ensures named { IfErr result (λ e. (place : ℕ) → e ≡ AreaFault.Wrong place →
        NamesNode layout.now h place (S.view station.old).travel (S.view station.new).travel) }
{
    read_nodes(station, layout, index, h)?;
    match first_misplaced(index, h) {
        None => Ok(()),
        Some(segment) => Err(wrong_node(layout, fence_position(h, segment))),
    }
}

// Reads the counts, and validates the windows by them.
fn load_counts<S: Station>(
    station: &mut S,
    layout: &Layout,
    tally: &mut Tally,
) -> Result<(), AreaFault>
    requires file { HasIndex layout.now (S.view station.old) }
    requires uncounted { IsUncounted layout.now tally.old }
    ensures counted { OnOk result (Told (S.view station.old) →
        tally.new.counts ≡ counts_read layout.now tally.old.height (S.view station.old).held) }
    ensures balanced { OnOk result (IsBalanced tally.new.height tally.new.counts) }
    ensures refused { IfErr result (λ e. Told (S.view station.old) → (place : ℕ) → e ≡ AreaFault.Wrong place →
        windows_reason layout.now tally.old.height (S.view station.old).held ≡ Some (WrongIndex place)) }
    ensures counts { TakesCounts tally.old tally.new }
    ensures reads { ReadsCounts layout.now tally.old.height result (S.view station.old) (S.view station.new) }
    ensures named { IfErr result (λ e. (place : ℕ) → e ≡ AreaFault.Wrong place →
        NamesCount layout.now tally.old.height place (S.view station.old).travel (S.view station.new).travel) }
{
    read_counts(station, layout, tally)?;
    match first_broken(tally) {
        None => Ok(()),
        Some(window) => Err(wrong_count(layout, first_segment(window))),
    }
}

// The first segment of a window.
fn first_segment(window: Window) -> u32
    requires low { window.height ≤ 16 }
    requires small { window.number * 2 ^ window.height < 2 ^ 16 }
    ensures { result ≡ window.number * 2 ^ window.height }
{
    window.number << window.height
}
