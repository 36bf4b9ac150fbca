//! Batches are committed, stopped half-way and replayed over a station in memory: bytes of the table, runs and gaps, a
//! torn gate, and the first wrong place of a table.

ghost use Rattle.std.specs.Prelude.{◌≡◌, ◌<◌, ◌≤◌, [], ◌∷◌, length, IfOk};
ghost use Rattle.station.specs.View.{EachHeld};
ghost use Rattle.station.specs.MemStation.{mem_view};
ghost use Rattle.header_gate.specs.Header.{gate};
ghost use Rattle.header_gate.specs.Places.{file_length};
ghost use Rattle.redo_journal.specs.Commit.{IsAt};

use header_gate::{HeaderFault, Layout, Reason, create_store, read_header};
use raw_slots::SLOT_SIZE;
use redo_journal::{Frames, Place, commit, replay};
use station::MemStation;
use std::alloc::Global;
use std::process::Abort;

const LAYOUT: Layout = Layout {
    hmax: 3,
    journal: 8,
    version: 1,
    format: 1,
};

const PLACE: Place = Place {
    layout: LAYOUT,
    region: 0,
};

// The length of a store of eight segments, in bytes: two pages, eight images and two regions.
const LENGTH: usize = 106496;

// The offset of its segment 0 in region 0, behind the two pages and eight images.
const SEGMENT_0: usize = 40960;

// How many device calls make a store: the length, two writes and a sync.
const MAKING: u32 = 4;

// A batch of segments `a`, `b` and `c`; the first slot of each is filled with one more than its number.
fn batch(rt: &impl Abort, alloc: Global, a: u32, b: u32, c: u32) -> Frames
    requires first { a < b }
    requires second { b < c }
    requires third { c < 8 }
    ensures { (result.journal ≡ 8) × (result.turn ≡ 0) × (result.numbers ≡ a ∷ b ∷ c ∷ []) }
{
    let mut frames = Frames::new(alloc, 8).expect(rt, "memory");
    frames.push(a);
    frames.push(b);
    frames.push(c);
    frames.set_slot(0, &[a as u8 + 1; SLOT_SIZE]);
    frames.set_slot(64, &[b as u8 + 1; SLOT_SIZE]);
    frames.set_slot(128, &[c as u8 + 1; SLOT_SIZE]);
    frames
}

// An empty store, on a station whose calls fail from `stop` on.
#[tactic(auto, unfolding(header_gate::specs::Places::area_size, header_gate::specs::Places::journal_shift))]
fn store(rt: &impl Abort, alloc: Global, stop: Option<u32>) -> MemStation
    ensures reach { file_length LAYOUT ≤ (mem_view result).fixed.reach }
    ensures at { EachHeld (IsAt PLACE) (mem_view result) }
    ensures even { EachHeld (λ image. gate image ≡ 0) (mem_view result) }
{
    let mut station = MemStation::new(alloc, &[], LENGTH, 0, &[], stop).expect(rt, "memory");
    if create_store(&mut station, LAYOUT).is_err() {
        panic!(rt; "no store");
    }
    station
}

// A station whose calls fail once a store was made and that many further ones were done, with a commit of these segments, and
// whether that came to its end.
fn committed(
    rt: &impl Abort,
    alloc: Global,
    numbers: (u32, u32, u32),
    done: u32,
) -> (MemStation, bool) {
    let (a, b, c) = numbers;
    assert!(rt; a < b && b < c && c < 8 && done < 100);
    let mut station = store(rt, alloc, Some(MAKING + done));
    let mut frames = batch(rt, alloc, a, b, c);
    let is_done = commit(&mut station, &PLACE, &mut frames).is_ok();
    (station, is_done)
}

// The bytes of a file in which a commit of these segments was stopped before that many of its calls were done.
fn stopped(rt: &impl Abort, alloc: Global, numbers: (u32, u32, u32), done: u32) -> Vec<u8>
    ensures { length result.items ≡ LENGTH }
{
    let (station, is_done) = committed(rt, alloc, numbers, done);
    assert!(rt; !is_done && station.held().len() == LENGTH);
    station.held().to_vec(alloc).expect(rt, "memory")
}

// Replays the journal of a file whose live region is region 0 and whose gate is odd, and gives the file. The station's calls
// fail from `stop` on.
#[tactic(auto, unfolding(header_gate::specs::Places::area_size, header_gate::specs::Places::journal_shift))]
fn replayed(
    rt: &impl Abort,
    alloc: Global,
    bytes: &[u8],
    height: u32,
    stop: Option<u32>,
) -> (MemStation, Result<(), HeaderFault>)
    requires size { length bytes.now ≡ LENGTH }
    requires height { height ≤ 3 }
{
    let mut station = MemStation::new(alloc, bytes, LENGTH, 0, &[], stop).expect(rt, "memory");
    let mut frames = Frames::new(alloc, LAYOUT.journal).expect(rt, "memory");
    assert!(rt; bytes[0] % 2 == 0 && bytes[512] % 2 == 1);
    let answer = replay(&mut station, &PLACE, height, &mut frames);
    (station, answer)
}

// Sees that these segments stand in place with their first slots, and all others are empty.
fn see_in_place(rt: &impl Abort, held: &[u8], numbers: (u32, u32, u32)) {
    let (a, b, c) = numbers;
    assert_eq!(rt; held.len(), LENGTH);
    for n in 0..8u32 {
        let at = SEGMENT_0 + 4096 * n as usize;
        let first = if n == a || n == b || n == c {
            n as u8 + 1
        } else {
            0
        };
        let bytes = [held[at], held[at + SLOT_SIZE - 1], held[at + SLOT_SIZE]];
        assert_eq!(rt;
            bytes,
            [first, first, 0],
            "the first two slots of segment {n}"
        );
    }
    assert_eq!(rt; held[512], 0, "the gate");
}

// Batches of three segments, and how many runs of neighbours each has.
const BATCHES: [((u32, u32, u32), u32); 5] = [
    ((0, 1, 2), 1),
    ((5, 6, 7), 1),
    ((0, 1, 3), 2),
    ((2, 6, 7), 2),
    ((1, 3, 5), 3),
];

#[test]
fn the_table_of_segment_0(rt: HostRuntime) {
    let mut station = store(&rt, rt.alloc(), None);
    let mut frames = Frames::new(rt.alloc(), 8).expect(&rt, "memory");
    frames.push(0);
    assert!(rt; commit(&mut station, &PLACE, &mut frames).is_ok());
    assert_eq!(rt; station.held().len(), LENGTH);
    assert_eq!(rt;
        &station.held()[4096..4104],
        [1, 0, 0, 0, 0, 0, 0, 0].as_slice()
    );
}

/// A commit takes eight calls of the device and one for each run of neighbouring segments.
#[test]
fn a_run_of_neighbours_is_one_write(rt: HostRuntime) {
    for (numbers, runs) in BATCHES {
        assert!(rt; runs < 4);
        let (station, is_done) = committed(&rt, rt.alloc(), numbers, 8 + runs);
        assert!(rt; is_done, "{numbers:?}");
        see_in_place(&rt, station.held(), numbers);
        let bytes = stopped(&rt, rt.alloc(), numbers, 7 + runs);
        assert_eq!(rt; bytes[512], 0, "the gate is written, and not synced");
    }
}

/// A replay takes six calls of the device and one for each run.
#[test]
fn a_stopped_batch_is_replayed(rt: HostRuntime) {
    for (numbers, runs) in BATCHES {
        assert!(rt; runs < 4);
        for written in 0..=runs {
            // (the gate is synced by the fifth call, and then come the runs)
            let bytes = stopped(&rt, rt.alloc(), numbers, 5 + written);
            let (station, answer) = replayed(&rt, rt.alloc(), &bytes, 3, Some(6 + runs));
            assert_eq!(rt; answer, Ok(()));
            see_in_place(&rt, station.held(), numbers);
            let (_, answer) = replayed(&rt, rt.alloc(), &bytes, 3, Some(5 + runs));
            assert_eq!(rt; answer, Err(HeaderFault::Failed));
        }
    }
}

/// A commit is stopped between the write of the gate and its sync, so that the gate may be torn.
#[test]
fn a_torn_gate_counts_by_its_low_bit(rt: HostRuntime) {
    let mut bytes = stopped(&rt, rt.alloc(), (0, 1, 3), 4);
    assert_eq!(rt; bytes[512], 1);
    bytes[512] = 0xff;
    let (station, answer) = replayed(&rt, rt.alloc(), &bytes, 3, None);
    assert_eq!(rt; answer, Ok(()));
    see_in_place(&rt, station.held(), (0, 1, 3));
    bytes[512] = 0xfe;
    let mut station = MemStation::new(rt.alloc(), &bytes, LENGTH, 0, &[], None).expect(
        &rt, "memory",
    );
    let header = read_header(&mut station).expect(&rt, "a header");
    assert!(rt; !header.gate, "there is nothing to replay");
}

#[test]
fn the_first_wrong_place_of_a_table(rt: HostRuntime) {
    let cases = [
        (0, 0, 1, 2, 4096),
        (9, 0, 1, 2, 4096),
        (1, 4, 0, 2, 4100),
        (2, 1, 0, 2, 4104),
        (2, 3, 3, 2, 4104),
        (2, 1, 2, 1, 4104),
    ];
    for (count, first, second, height, place) in cases {
        assert!(rt; height <= 3);
        let mut bytes = vec![in rt.alloc(); 0; LENGTH].expect(&rt, "memory");
        bytes[512] = 1;
        bytes[4096] = count;
        bytes[4100] = first;
        bytes[4104] = second;
        let (_, answer) = replayed(&rt, rt.alloc(), &bytes, height, None);
        assert_eq!(rt;
            answer,
            Err(HeaderFault::NotStore(Reason::Journal { place }))
        );
    }
}
