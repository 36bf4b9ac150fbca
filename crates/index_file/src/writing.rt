//! The index is written into the file, piece by piece.

ghost use Rattle.std.specs.Prelude.{◌≡◌, ◌+◌, ◌-◌, ◌*◌, ◌^◌, ◌≤◌, ◌<◌, length, OnOk, OnErr};
ghost use Rattle.station.specs.Bytes.{Touched};
ghost use Rattle.station.specs.View.{Told, EachHeld, Rose};
ghost use Rattle.station.specs.Steps.{Steps};
ghost use Rattle.header_gate.specs.Places.{IsLayout, file_length};
ghost use Rattle.header_gate.specs.declared.layout.TheConstants.{INDEXED};
ghost use Rattle.key_slot.specs.Format.{wide};
ghost use Rattle.index_file.specs.Area.{node_place, count_place};
ghost use Rattle.index_file.specs.Clean.{IsAreaPlace};
ghost use Rattle.index_file.specs.IndexReading.{HasIndex, node_calls, count_calls};
ghost use Rattle.index_file.specs.Writing.{AreNodesOf, AreCountsOf};
ghost use Rattle.window_tally.specs.TallyView.{IsTally};

use crate::area::{count_at, fill_counts, fill_nodes, node_at};
use crate::sizes::{COUNT_SIZE, NODE_SIZE, PIECE};
use header_gate::Layout;
use station::{Failed, Station};
use veb_index::Index;
use window_tally::Tally;

/// Nodes in a piece: 64 of 64 bytes are its 4096.
pub(crate) const PIECE_NODES: u32 = 64;

/// Counts in a piece: 1024 of 4 bytes, likewise.
pub(crate) const PIECE_COUNTS: u32 = 1024;

/// Writes the nodes of an index of `h` levels into the file.
pub(crate) fn write_nodes<S: Station>(
    station: &mut S,
    layout: &Layout,
    index: &Index,
    h: u32,
) -> Result<(), Failed>
    requires file { HasIndex layout.now (S.view station.old) }
    requires size { EachHeld (λ image. length image ≡ file_length layout.now) (S.view station.old) }
    requires height { h ≡ index.now.height }
    requires low { h ≤ layout.now.hmax }
    ensures steps { Steps (Touched (IsAreaPlace layout.now)) (S.view station.old) (S.view station.new) }
    ensures written { OnOk result (Told (S.view station.old) →
        AreNodesOf wide layout.now h index.now.fences (2 ^ h - 1) (S.view station.new).held) }
    ensures cost { (S.view station.new).travel.written ≤ (S.view station.old).travel.written + NODE_SIZE * (2 ^ h - 1) }
    ensures no_reads { (S.view station.new).travel.read ≡ (S.view station.old).travel.read }
    ensures calls { (S.view station.new).calls ≤ (S.view station.old).calls + node_calls h }
    ensures cause { OnErr result (Rose (S.view station.old).disk_faults (S.view station.new).disk_faults) }
{
    let end = node_count(h);
    let mut first = 0;
    while first < end {
        let count = PIECE_NODES.min(end - first);
        write_node_piece(station, layout, index, h, first, count)?;
        first += count;
    }
    Ok(())
}

/// How many nodes an index of `h` levels has.
pub(crate) fn node_count(h: u32) -> u32
    requires { h ≤ 16 }
    ensures { result ≡ 2 ^ h - 1 }
{
    (1 << h) - 1
}

// Writes the nodes from a position on.
fn write_node_piece<S: Station>(
    station: &mut S,
    layout: &Layout,
    index: &Index,
    h: u32,
    first: u32,
    count: u32,
) -> Result<(), Failed>
    requires file { HasIndex layout.now (S.view station.old) }
    requires size { EachHeld (λ image. length image ≡ file_length layout.now) (S.view station.old) }
    requires height { h ≡ index.now.height }
    requires low { h ≤ layout.now.hmax }
    requires nodes { first + count ≤ 2 ^ h - 1 }
    requires room { count ≤ 64 }
    ensures steps { Steps (Touched (IsAreaPlace layout.now)) (S.view station.old) (S.view station.new) }
    ensures written { OnOk result (Told (S.view station.old) →
        AreNodesOf wide layout.now h index.now.fences first (S.view station.old).held →
        AreNodesOf wide layout.now h index.now.fences (first + count) (S.view station.new).held) }
    ensures cost { (S.view station.new).travel.written ≤ (S.view station.old).travel.written + NODE_SIZE * count }
    ensures no_reads { (S.view station.new).travel.read ≡ (S.view station.old).travel.read }
    ensures calls { (S.view station.new).calls ≤ (S.view station.old).calls + 1 }
    ensures cause { OnErr result (Rose (S.view station.old).disk_faults (S.view station.new).disk_faults) }
{
    let mut piece = [0; PIECE];
    fill_nodes(&mut piece, index, h, first, count);
    let size = NODE_SIZE * count as usize;
    station.write_at(node_at(layout, first), &piece[..size])
}

/// Writes the counts of a tally into the file.
pub(crate) fn write_counts<S: Station>(
    station: &mut S,
    layout: &Layout,
    tally: &Tally,
) -> Result<(), Failed>
    requires file { HasIndex layout.now (S.view station.old) }
    requires size { EachHeld (λ image. length image ≡ file_length layout.now) (S.view station.old) }
    requires is_tally { IsTally tally.now }
    requires low { tally.now.height ≤ layout.now.hmax }
    ensures steps { Steps (Touched (λ k. count_place layout.now 0 ≤ k)) (S.view station.old) (S.view station.new) }
    ensures written { OnOk result (Told (S.view station.old) →
        AreCountsOf layout.now tally.now.counts (2 ^ tally.now.height) (S.view station.new).held) }
    ensures cost { (S.view station.new).travel.written ≤ (S.view station.old).travel.written + COUNT_SIZE * 2 ^ tally.now.height }
    ensures no_reads { (S.view station.new).travel.read ≡ (S.view station.old).travel.read }
    ensures calls { (S.view station.new).calls ≤ (S.view station.old).calls + count_calls tally.now.height }
    ensures cause { OnErr result (Rose (S.view station.old).disk_faults (S.view station.new).disk_faults) }
{
    let end = segment_count(tally);
    let mut first = 0;
    while first < end {
        let count = PIECE_COUNTS.min(end - first);
        write_count_piece(station, layout, tally, first, count)?;
        first += count;
    }
    Ok(())
}

/// The number of segments of a store.
pub(crate) fn segment_count(tally: &Tally) -> u32
    ensures count { result ≡ 2 ^ tally.now.height }
    ensures tally { IsTally tally.now }
{
    1 << tally.height()
}

// Writes the counts from a segment on.
fn write_count_piece<S: Station>(
    station: &mut S,
    layout: &Layout,
    tally: &Tally,
    first: u32,
    count: u32,
) -> Result<(), Failed>
    requires file { HasIndex layout.now (S.view station.old) }
    requires size { EachHeld (λ image. length image ≡ file_length layout.now) (S.view station.old) }
    requires is_tally { IsTally tally.now }
    requires low { tally.now.height ≤ layout.now.hmax }
    requires segments { first + count ≤ 2 ^ tally.now.height }
    requires room { count ≤ 1024 }
    ensures steps { Steps (Touched (λ k. count_place layout.now 0 ≤ k)) (S.view station.old) (S.view station.new) }
    ensures written { OnOk result (Told (S.view station.old) →
        AreCountsOf layout.now tally.now.counts first (S.view station.old).held →
        AreCountsOf layout.now tally.now.counts (first + count) (S.view station.new).held) }
    ensures cost { (S.view station.new).travel.written ≤ (S.view station.old).travel.written + COUNT_SIZE * count }
    ensures no_reads { (S.view station.new).travel.read ≡ (S.view station.old).travel.read }
    ensures calls { (S.view station.new).calls ≤ (S.view station.old).calls + 1 }
    ensures cause { OnErr result (Rose (S.view station.old).disk_faults (S.view station.new).disk_faults) }
{
    let mut piece = [0; PIECE];
    fill_counts(&mut piece, tally, first, count);
    let size = COUNT_SIZE * count as usize;
    station.write_at(count_at(layout, first), &piece[..size])
}
