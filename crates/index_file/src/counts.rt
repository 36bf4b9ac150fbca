//! The counts of the index in a file are read and validated, piece by piece.

ghost use Rattle.std.specs.Prelude.{◌≡◌, ℕ, ◌+◌, ◌-◌, ◌*◌, ◌^◌, ◌≤◌, ◌<◌, List, length, get_or, OnOk, IfErr, IfSome, IsErrOf, None};
ghost use Rattle.station.specs.Bytes.{Same};
ghost use Rattle.station.specs.View.{Told, Rose, after_read};
ghost use Rattle.station.specs.Steps.{Steps};
ghost use Rattle.density_rule.specs.Marks.{no_marks};
ghost use Rattle.header_gate.specs.Places.{IsLayout, file_length};
ghost use Rattle.header_gate.specs.declared.layout.TheConstants.{INDEXED};
ghost use Rattle.index_file.specs.Area.{count_place};
ghost use Rattle.index_file.specs.IndexReading.{HasIndex, IsUncounted, TakesCounts, NamesCount, ReadsCounts};
ghost use Rattle.index_file.specs.IndexCounts.{AreCounted, AreCountedIn, IsFirstBad, CountFailsAt};
ghost use Rattle.window_tally.specs.TallyView.{IsTally};

use crate::area::{count_at, wrong_count};
use crate::fault::AreaFault;
use crate::reading::read_front;
use crate::sizes::{COUNT_SIZE, PIECE};
use crate::writing::{PIECE_COUNTS, segment_count};
use density_rule::in_bounds;
use header_gate::{Layout, number_at};
use station::Station;
use window_tally::Tally;

/// Reads the count of each segment of a store, and gives it to the tally.
///
/// `Wrong` names the first that is outside the bounds of a segment.
pub(crate) fn read_counts<S: Station>(
    station: &mut S,
    layout: &Layout,
    tally: &mut Tally,
) -> Result<(), AreaFault>
    requires file { HasIndex layout.now (S.view station.old) }
    requires uncounted { IsUncounted layout.now tally.old }
    ensures counted { OnOk result (Told (S.view station.old) →
        AreCounted layout.now tally.old.height (2 ^ tally.old.height) tally.new.counts (S.view station.old).held) }
    ensures refused { IfErr result (λ e. Told (S.view station.old) → (place : ℕ) → e ≡ AreaFault.Wrong place →
        CountFailsAt layout.now tally.old.height (2 ^ tally.old.height) (S.view station.old).held place) }
    ensures counts { TakesCounts tally.old tally.new }
    ensures reads { ReadsCounts layout.now tally.old.height result (S.view station.old) (S.view station.new) }
    ensures named { IfErr result (λ e. (place : ℕ) → e ≡ AreaFault.Wrong place →
        NamesCount layout.now tally.old.height place (S.view station.old).travel (S.view station.new).travel) }
{
    let end = segment_count(tally);
    let mut first = 0;
    while first < end {
        let count = PIECE_COUNTS.min(end - first);
        read_count_piece(station, layout, tally, first, count)?;
        first += count;
    }
    Ok(())
}

// Reads the counts from a segment on, that many of them.
fn read_count_piece<S: Station>(
    station: &mut S,
    layout: &Layout,
    tally: &mut Tally,
    first: u32,
    count: u32,
) -> Result<(), AreaFault>
    requires file { HasIndex layout.now (S.view station.old) }
    requires uncounted { IsUncounted layout.now tally.old }
    requires segments { first + count ≤ 2 ^ tally.old.height }
    requires room { count ≤ 1024 }
    ensures counted { OnOk result (Told (S.view station.old) →
        AreCounted layout.now tally.old.height first tally.old.counts (S.view station.old).held →
        AreCounted layout.now tally.old.height (first + count) tally.new.counts (S.view station.old).held) }
    ensures refused { IfErr result (λ e. Told (S.view station.old) →
        AreCounted layout.now tally.old.height first tally.old.counts (S.view station.old).held →
        (place : ℕ) → e ≡ AreaFault.Wrong place → CountFailsAt layout.now tally.old.height (first + count) (S.view station.old).held place) }
    ensures named { IfErr result (λ e. (place : ℕ) → e ≡ AreaFault.Wrong place → (i : ℕ) × (first ≤ i) × (i < first + count) ×
        (place ≡ count_place layout.now i)) }
    ensures counts { TakesCounts tally.old tally.new }
    ensures steps { Steps Same (S.view station.old) (S.view station.new) }
    ensures travel { (S.view station.new).travel ≡
        after_read (count_place layout.now first) (COUNT_SIZE * count) (S.view station.old).travel }
    ensures calls { (S.view station.new).calls ≤ (S.view station.old).calls + 1 }
    ensures failed { IsErrOf result AreaFault.Failed → Rose (S.view station.old).disk_faults (S.view station.new).disk_faults }
{
    let mut piece = [0; PIECE];
    let Ok(()) = read_front(
        station,
        count_at(layout, first),
        &mut piece,
        COUNT_SIZE * count as usize,
    ) else {
        return Err(AreaFault::Failed);
    };
    match take_counts(&piece, tally, first, count) {
        None => Ok(()),
        Some(i) => Err(wrong_count(layout, i)),
    }
}

// Gives the tally the counts of a piece, from that of a segment on, and answers the first segment whose count is outside its
// bounds.
fn take_counts(piece: &[u8], tally: &mut Tally, first: u32, count: u32) -> Option<u32>
    requires size { length piece.now ≡ PIECE }
    requires is_tally { IsTally tally.old }
    requires unrested { tally.old.marks ≡ no_marks tally.old.height }
    requires segments { first + count ≤ 2 ^ tally.old.height }
    requires room { count ≤ 1024 }
    ensures taken { result ≡ None → AreCountedIn tally.old.height first count tally.new.counts piece.now }
    ensures bad { IfSome result (λ i. IsFirstBad tally.old.height first count piece.now i) }
    ensures before { (i : ℕ) → i < first → get_or tally.new.counts i 0 ≡ get_or tally.old.counts i 0 }
    ensures kept { tally.new ≡ record tally.old { counts = tally.new.counts } }
    ensures tally { IsTally tally.new }
{
    let height = tally.height();
    for k in 0..count {
        let records = number_at(piece, COUNT_SIZE * k as usize);
        if !in_bounds(height, 0, records) {
            return Some(first + k);
        }
        tally.load(first + k, records);
    }
    None
}
