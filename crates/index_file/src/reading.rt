//! The nodes of the index in a file are read and validated, piece by piece.

ghost use Rattle.std.specs.Prelude.{◌≡◌, ℕ, ◌+◌, ◌-◌, ◌*◌, ◌^◌, ◌≤◌, ◌<◌, length, OnOk, OnErr, IfErr, IfSome, IsErrOf, None, true, false};
ghost use Rattle.station.specs.Bytes.{byte, Same};
ghost use Rattle.station.specs.View.{Told, Rose, after_read};
ghost use Rattle.station.specs.Steps.{Steps};
ghost use Rattle.header_gate.specs.Places.{IsLayout, file_length};
ghost use Rattle.header_gate.specs.declared.layout.TheConstants.{INDEXED};
ghost use Rattle.key_slot.specs.Format.{wide};
ghost use Rattle.veb_index.specs.IndexView.{fence_at};
ghost use Rattle.index_file.specs.Area.{node_place};
ghost use Rattle.index_file.specs.IndexReading.{HasIndex, IsUnread, TakesFences, IsFirstWrong, FailsAt, IsFrontRead, NamesNode, ReadsNodes};
ghost use Rattle.index_file.specs.Writing.{IsNodeOf, AreNodesOf};

use crate::area::{links_at, node_at, wrong_node};
use crate::fault::AreaFault;
use crate::node::validate_node;
use crate::sizes::{NODE_SIZE, PIECE};
use crate::writing::{PIECE_NODES, node_count};
use header_gate::Layout;
use station::{Failed, Station};
use veb_index::Index;

/// Reads the nodes of an index of `h` levels, and sets its fences by them.
///
/// `Wrong` names the first node that hasn't the form of one, or has other links.
pub(crate) fn read_nodes<S: Station>(
    station: &mut S,
    layout: &Layout,
    index: &mut Index,
    h: u32,
) -> Result<(), AreaFault>
    requires file { HasIndex layout.now (S.view station.old) }
    requires unread { IsUnread layout.now h index.old }
    ensures taken { OnOk result (Told (S.view station.old) →
        AreNodesOf layout.now.format layout.now h index.new.fences (2 ^ h - 1) (S.view station.old).held) }
    ensures refused { IfErr result (λ e. Told (S.view station.old) → (place : ℕ) → e ≡ AreaFault.Wrong place →
        FailsAt layout.now h (2 ^ h - 1) (S.view station.old).held place) }
    ensures fences { TakesFences index.old index.new }
    ensures reads { ReadsNodes layout.now h result (S.view station.old) (S.view station.new) }
    ensures front { IsFrontRead (node_place layout.now 0) (NODE_SIZE * (2 ^ h - 1)) (S.view station.old).travel
        (S.view station.new).travel }
    ensures named { IfErr result (λ e. (place : ℕ) → e ≡ AreaFault.Wrong place →
        NamesNode layout.now h place (S.view station.old).travel (S.view station.new).travel) }
{
    let end = node_count(h);
    let mut first = 0;
    while first < end {
        let count = PIECE_NODES.min(end - first);
        read_node_piece(station, layout, index, h, first, count)?;
        first += count;
    }
    Ok(())
}

// Reads the nodes from a position on, that many of them.
fn read_node_piece<S: Station>(
    station: &mut S,
    layout: &Layout,
    index: &mut Index,
    h: u32,
    first: u32,
    count: u32,
) -> Result<(), AreaFault>
    requires file { HasIndex layout.now (S.view station.old) }
    requires unread { IsUnread layout.now h index.old }
    requires nodes { first + count ≤ 2 ^ h - 1 }
    requires room { count ≤ 64 }
    ensures taken { OnOk result (Told (S.view station.old) →
        AreNodesOf layout.now.format layout.now h index.old.fences first (S.view station.old).held →
        AreNodesOf layout.now.format layout.now h index.new.fences (first + count) (S.view station.old).held) }
    ensures refused { IfErr result (λ e. Told (S.view station.old) →
        AreNodesOf layout.now.format layout.now h index.old.fences first (S.view station.old).held →
        (place : ℕ) → e ≡ AreaFault.Wrong place → FailsAt layout.now h (first + count) (S.view station.old).held place) }
    ensures named { IfErr result (λ e. (place : ℕ) → e ≡ AreaFault.Wrong place → (x : ℕ) × (first ≤ x) × (x < first + count) ×
        (place ≡ node_place layout.now x)) }
    ensures fences { TakesFences index.old index.new }
    ensures steps { Steps Same (S.view station.old) (S.view station.new) }
    ensures travel { (S.view station.new).travel ≡
        after_read (node_place layout.now first) (NODE_SIZE * count) (S.view station.old).travel }
    ensures calls { (S.view station.new).calls ≤ (S.view station.old).calls + 1 }
    ensures failed { IsErrOf result AreaFault.Failed → Rose (S.view station.old).disk_faults (S.view station.new).disk_faults }
{
    let mut piece = [0; PIECE];
    let Ok(()) = read_front(
        station,
        node_at(layout, first),
        &mut piece,
        NODE_SIZE * count as usize,
    ) else {
        return Err(AreaFault::Failed);
    };
    match take_nodes(&piece, index, h, layout.format, first, count) {
        None => Ok(()),
        Some(x) => Err(wrong_node(layout, x)),
    }
}

/// Fills the front of a piece, that many bytes of it, with those of the file from a place on.
pub(crate) fn read_front<S: Station>(
    station: &mut S,
    pos: u64,
    piece: &mut [u8],
    size: usize,
) -> Result<(), Failed>
    requires room { size ≤ length piece.old }
    requires reach { pos + size ≤ (S.view station.old).fixed.reach }
    ensures filled { OnOk result (Told (S.view station.old) → (k : ℕ) → k < size →
        byte piece.new k ≡ byte (S.view station.old).held (pos + k)) }
    ensures steps { Steps Same (S.view station.old) (S.view station.new) }
    ensures travel { (S.view station.new).travel ≡ after_read pos size (S.view station.old).travel }
    ensures calls { (S.view station.new).calls ≤ (S.view station.old).calls + 1 }
    ensures cause { OnErr result (Rose (S.view station.old).disk_faults (S.view station.new).disk_faults) }
{
    station.read_at(pos, &mut piece[..size])
}

/// Sets the fences of the nodes from a position on by a piece, and answers the first position whose node isn't there.
fn take_nodes(
    piece: &[u8],
    index: &mut Index,
    h: u32,
    format: u32,
    first: u32,
    count: u32,
) -> Option<u32>
    requires size { length piece.now ≡ PIECE }
    requires height { h ≡ index.old.height }
    requires low { h ≤ 16 }
    requires nodes { first + count ≤ 2 ^ h - 1 }
    requires room { count ≤ 64 }
    requires format { format ≤ wide }
    ensures taken { result ≡ None → (k : ℕ) → k < count →
        IsNodeOf format h index.new.fences (first + k) piece.now (NODE_SIZE * k) }
    ensures wrong { IfSome result (λ x. IsFirstWrong format h first count piece.now x) }
    ensures before { (x : ℕ) → x < first → fence_at index.new.fences x ≡ fence_at index.old.fences x }
    ensures hmax { index.new.hmax ≡ index.old.hmax }
    ensures same_height { index.new.height ≡ index.old.height }
{
    for k in 0..count {
        let x = first + k;
        let (left, right) = links_at(h, x);
        match validate_node(piece, NODE_SIZE * k as usize, left, right, format) {
            Some(fence) => index.set_node(x, &fence),
            None => return Some(x),
        }
    }
    None
}
