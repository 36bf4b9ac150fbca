//! Files are opened or refused: each reason, what a repair makes of an array, and openings that are stopped.

ghost use Rattle.std.specs.Prelude.{◌≤◌};

use crate::files::{
    Counts, FORMATS, file_of, holding, lay, lay_row, layout_of, noting, offset_of, row, see_opens,
    see_records, see_stops,
};
use crate::opened::opens;
use header_gate::{Layout, PAIRED, Reason, create_store};
use recovery::OpenFault;
use station::MemStation;
use std::alloc::Global;
use std::process::Abort;

const LAYOUT: Layout = Layout {
    hmax: 2,
    journal: 4,
    version: 1,
    format: 1,
};

// Its length: two pages, four images and two regions of four segments.
const LENGTH: u64 = 57344;

// Two segments of 32 records each.
const EVEN: Counts = [32, 32, 0, 0, 0, 0, 0, 0];

// The reason for which a file is refused.
fn reason(rt: &impl Abort, alloc: Global, file: &[u8]) -> Option<Reason> {
    let mut station = holding(rt, alloc, file);
    match opens(alloc, &mut station) {
        Ok(()) => None,
        Err(OpenFault::NotStore(reason)) => Some(reason),
        Err(_) => rt.panic("another fault"),
    }
}

/// The offset and the byte of one change to a store of two segments with 32 and 32 records, and the reason.
const CHANGES: [(usize, u8, Reason); 19] = [
    (3072, b'p', Reason::Identity),
    (3079, b'F', Reason::Identity),
    (3080, 0, Reason::Version(0)),
    (3080, 5, Reason::Version(5)),
    (3080, 4, Reason::Length(LENGTH)),
    (3083, 1, Reason::Version(16777217)),
    (3084, 17, Reason::HeightLimit(17)),
    (3088, 3, Reason::JournalSize(3)),
    (3088, 5, Reason::JournalSize(5)),
    (3084, 1, Reason::Length(LENGTH)),
    (1024, 3, Reason::Height { copy: 0, found: 3 }),
    (1028, 3, Reason::Format { copy: 0, found: 3 }),
    (0, 255, Reason::Format { copy: 1, found: 0 }),
    (512, 1, Reason::Journal { place: 4096 }),
    (512, 255, Reason::Journal { place: 4096 }),
    (
        24576,
        0,
        Reason::Slot {
            segment: 0,
            slot: 0,
        },
    ),
    (
        28672 + 64 * 31 + 63,
        1,
        Reason::Slot {
            segment: 1,
            slot: 31,
        },
    ),
    (
        28672 + 64 * 63,
        9,
        Reason::Slot {
            segment: 1,
            slot: 63,
        },
    ),
    (
        28672 + 64 * 31 + 11,
        0,
        Reason::Slot {
            segment: 1,
            slot: 31,
        },
    ),
];

#[test]
fn a_change_is_refused_by_its_reason(rt: HostRuntime) {
    let sound = file_of(&rt, rt.alloc(), LAYOUT, 1, EVEN);
    assert_eq!(rt; sound.len() as u64, LENGTH);
    assert_eq!(rt; reason(&rt, rt.alloc(), &sound), None);
    for (offset, byte, want) in CHANGES {
        let mut file = sound.to_vec(rt.alloc()).expect(&rt, "memory");
        lay(&rt, &mut file, offset, &[byte]);
        assert_eq!(rt; reason(&rt, rt.alloc(), &file), Some(want), "at {offset}");
    }
    for length in [0, 4095, 4096, 57343] {
        assert!(rt; length < sound.len());
        let want = Reason::Length(length as u64);
        assert_eq!(rt; reason(&rt, rt.alloc(), &sound[..length]), Some(want));
    }
    let zeros = vec![in rt.alloc(); 0; 57344].expect(&rt, "memory");
    assert_eq!(rt; reason(&rt, rt.alloc(), &zeros), Some(Reason::Identity));
}

/// Format 2 needs a height below the height limit; what is above the limit is refused first.
#[test]
fn heights_of_format_2(rt: HostRuntime) {
    for (height, want) in [
        (1, None),
        (2, Some(Reason::Format { copy: 0, found: 2 })),
        (3, Some(Reason::Height { copy: 0, found: 3 })),
    ] {
        let mut file = file_of(&rt, rt.alloc(), layout_of(2, 1, 4), 1, EVEN);
        lay(&rt, &mut file, 1024, &[height]);
        assert_eq!(rt; reason(&rt, rt.alloc(), &file), want);
    }
    let mut file = file_of(&rt, rt.alloc(), layout_of(1, 0, 4), 0, [0; 8]);
    lay(&rt, &mut file, 1028, &[2]);
    let want = Some(Reason::Format { copy: 0, found: 2 });
    assert_eq!(rt; reason(&rt, rt.alloc(), &file), want);
}

/// Slot format, the count and the first numbers of a journal's table, and the first wrong place, in a store of two segments.
const TABLES: [(u32, u8, u8, u8, u32); 10] = [
    (1, 0, 0, 1, 4096),
    (1, 5, 0, 1, 4096),
    (1, 1, 2, 0, 4100),
    (1, 2, 2, 3, 4100),
    (1, 2, 1, 1, 4104),
    (1, 2, 1, 2, 4104),
    (2, 5, 0, 1, 4096),
    (2, 1, 4, 0, 4100),
    (2, 2, 3, 3, 4104),
    (2, 2, 3, 4, 4104),
];

#[test]
fn a_table_is_refused_by_its_first_wrong_place(rt: HostRuntime) {
    for (format, count, first, second, place) in TABLES {
        assert!(rt; 1 <= format && format <= 2);
        let mut file = file_of(&rt, rt.alloc(), layout_of(format, 2, 4), 1, EVEN);
        lay(&rt, &mut file, 512, &[1]);
        lay(&rt, &mut file, 4096, &[count]);
        lay(&rt, &mut file, 4100, &[first]);
        lay(&rt, &mut file, 4104, &[second]);
        let want = Reason::Journal { place };
        assert_eq!(rt; reason(&rt, rt.alloc(), &file), Some(want));
    }
}

/// The gate's byte in a file with two journals, count and first numbers of the table of each, and the first wrong place: the
/// gate's low bit names the journal that is validated, and a count of 0 is right.
const PAIRS: [(u8, [u8; 3], [u8; 3], Option<u32>); 9] = [
    (0, [0, 9, 9], [9, 9, 9], None),
    (1, [9, 9, 9], [0, 9, 9], None),
    (0, [5, 0, 1], [0, 0, 0], Some(4096)),
    (1, [0, 0, 0], [5, 0, 1], Some(24576)),
    (254, [1, 2, 0], [0, 0, 0], Some(4100)),
    (255, [0, 0, 0], [1, 2, 0], Some(24580)),
    (0, [2, 1, 2], [0, 0, 0], Some(4104)),
    (1, [0, 0, 0], [2, 1, 1], Some(24584)),
    (1, [0, 0, 0], [2, 1, 2], Some(24584)),
];

// Lays the count and the first numbers of a journal's table over a file.
fn lay_table(rt: &impl Abort, file: &mut [u8], at: usize, table: [u8; 3]) {
    let [count, first, second] = table;
    lay(rt, file, at, &[count, 0, 0, 0, first, 0, 0, 0, second]);
}

#[test]
fn the_live_one_of_two_journals_is_validated(rt: HostRuntime) {
    let layout = Layout {
        version: PAIRED,
        ..LAYOUT
    };
    for (gate, first, second, place) in PAIRS {
        let mut file = file_of(&rt, rt.alloc(), layout, 1, EVEN);
        lay(&rt, &mut file, 512, &[gate]);
        lay_table(&rt, &mut file, 4096, first);
        lay_table(&rt, &mut file, 24576, second);
        let want = place.map(|place| Reason::Journal { place });
        assert_eq!(rt; reason(&rt, rt.alloc(), &file), want);
    }
}

/// A height, counts and the density that is wrong.
const DENSITIES: [(u32, Counts, Option<u32>); 6] = [
    (1, [4, 5, 0, 0, 0, 0, 0, 0], Some(9)),
    (1, [4, 6, 0, 0, 0, 0, 0, 0], None),
    (1, [64, 62, 0, 0, 0, 0, 0, 0], None),
    (1, [63, 64, 0, 0, 0, 0, 0, 0], Some(127)),
    (2, [4, 4, 4, 11, 0, 0, 0, 0], Some(23)),
    (2, [64, 64, 64, 57, 0, 0, 0, 0], Some(249)),
];

#[test]
fn the_order_and_the_density_of_segments(rt: HostRuntime) {
    for format in FORMATS {
        let layout = layout_of(format, 2, 4);
        for (height, counts, refused) in DENSITIES {
            let file = file_of(&rt, rt.alloc(), layout, height, counts);
            let want = refused.map(|count| Reason::Density {
                height,
                number: 0,
                count,
            });
            assert_eq!(rt; reason(&rt, rt.alloc(), &file), want);
        }
        // (segment 1 begins with the last key of segment 0)
        let mut file = file_of(&rt, rt.alloc(), layout, 1, EVEN);
        let offset = offset_of(&rt, layout, 0, 1);
        lay_row(&rt, &mut file, offset, &row(&rt, 32, format));
        let want = Some(Reason::Order { segment: 1 });
        assert_eq!(rt; reason(&rt, rt.alloc(), &file), want);
    }
}

/// Counts of four segments, and what an opening makes of them.
const REPAIRS: [(Counts, Counts, u32); 3] = [
    (
        [60, 2, 31, 33, 0, 0, 0, 0],
        [31, 31, 31, 33, 0, 0, 0, 0],
        126,
    ),
    (
        [31, 33, 0, 60, 0, 0, 0, 0],
        [31, 33, 30, 30, 0, 0, 0, 0],
        124,
    ),
    ([62, 2, 1, 33, 0, 0, 0, 0], [24, 25, 24, 25, 0, 0, 0, 0], 98),
];

// Opens a file that wants a repair, and sees what it then is and what stops leave of it.
fn see_repaired(
    rt: &impl Abort,
    alloc: Global,
    layout: Layout,
    file: &[u8],
    after: Counts,
    records: u32,
) {
    let mut station = noting(rt, alloc, file);
    opens(alloc, &mut station).expect(rt, "it opens");
    let found = see_records(rt, station.inner().held(), layout, 1, records);
    assert_eq!(rt; found, (2, after));
    see_stops(rt, alloc, &station, layout, records);
}

#[test]
fn a_repair_is_stopped_at_every_call(rt: HostRuntime) {
    for format in FORMATS {
        let layout = layout_of(format, 2, 4);
        for (before, after, records) in REPAIRS {
            let file = file_of(&rt, rt.alloc(), layout, 2, before);
            see_repaired(&rt, rt.alloc(), layout, &file, after, records);
        }
    }
}

// A file of four segments, of which 0 and 2 lie in the journal and are torn in place.
fn torn(rt: &impl Abort, alloc: Global, layout: Layout) -> Vec<u8> {
    let mut file = file_of(rt, alloc, layout, 2, [60, 2, 31, 33, 0, 0, 0, 0]);
    lay(rt, &mut file, 512, &[1]);
    let mut image = 0;
    for segment in [0, 2] {
        for page in 0..layout.format {
            assert!(rt; image < 4 && layout.format <= 2);
            let first = offset_of(rt, layout, 0, segment);
            assert!(rt; first <= 1000000);
            let offset = first + 4096 * page as usize;
            assert!(rt; offset + 4096 <= file.len());
            let bytes = file[offset..offset + 4096]
                .to_vec(alloc)
                .expect(rt, "memory");
            lay(rt, &mut file, 8192 + 4096 * image as usize, &bytes);
            lay(rt, &mut file, offset + 64, &[255; 200]);
            let number = layout.format * segment + page;
            lay(
                rt,
                &mut file,
                4100 + 4 * image as usize,
                &number.to_le_bytes(),
            );
            image += 1;
        }
    }
    lay(rt, &mut file, 4096, &[image]);
    file
}

/// A batch of segments 0 and 2 lies in the journal, and both are torn in place: a replay, and a repair behind it.
#[test]
fn a_replay_is_stopped_at_every_call(rt: HostRuntime) {
    for format in FORMATS {
        let layout = layout_of(format, 2, 4);
        let file = torn(&rt, rt.alloc(), layout);
        see_repaired(
            &rt,
            rt.alloc(),
            layout,
            &file,
            [31, 31, 31, 33, 0, 0, 0, 0],
            126,
        );
    }
}

#[test]
fn lengths_of_height_limit_4(rt: HostRuntime) {
    for (journal, length) in [(4, 155648), (16, 204800)] {
        let layout = layout_of(1, 4, journal);
        let mut station = MemStation::new(rt.alloc(), &[], length, 0, &[], None).expect(
            &rt, "memory",
        );
        assert!(rt; layout.length() == length as u64);
        assert!(rt; create_store(&mut station, layout).is_ok());
        assert_eq!(rt; station.held().len(), length);
        assert_eq!(rt;
            see_opens(&rt, rt.alloc(), station.held(), layout, 0),
            (0, [0; 8])
        );
    }
}
