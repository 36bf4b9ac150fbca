//! Files with one journal and with two: where their parts stand, and which version a header may name.

ghost use Rattle.header_gate.specs.Places.{IsLayout};

use header_gate::{HeaderFault, INDEXED, Layout, PAIRED, Reason, create_store, read_header};
use station::MemStation;
use std::alloc::Global;
use std::process::Abort;

const ONE: Layout = Layout {
    hmax: 2,
    journal: 4,
    version: INDEXED,
    format: 1,
};

const TWO: Layout = Layout {
    hmax: 2,
    journal: 4,
    version: PAIRED,
    format: 1,
};

// Its table has two pages, and its index 34.
const LARGE: Layout = Layout {
    hmax: 11,
    journal: 2000,
    version: PAIRED,
    format: 1,
};

// The table and the images of journal 0 and of journal 1, the regions, the index, and the end.
fn places(layout: Layout) -> [u64; 8]
    requires { IsLayout layout }
{
    [
        layout.table_at(0),
        layout.image_in(0, 0),
        layout.table_at(1),
        layout.image_in(1, 0),
        layout.page_at(0, 0),
        layout.page_at(1, 0),
        layout.area_at(),
        layout.length(),
    ]
}

#[test]
fn the_parts_of_a_file_stand_in_this_order(rt: HostRuntime) {
    let one = [4096, 8192, 4096, 8192, 24576, 40960, 57344, 61440];
    let two = [4096, 8192, 24576, 28672, 45056, 61440, 77824, 81920];
    let large = [
        4096, 12288, 8204288, 8212480, 16404480, 24793088, 33181696, 33320960,
    ];
    assert_eq!(rt; places(ONE), one);
    assert_eq!(rt; places(TWO), two);
    assert_eq!(rt; places(LARGE), large);
}

// Why a file is refused once its version's byte is this one.
fn refused(rt: &impl Abort, alloc: Global, file: &mut [u8], version: u8) -> Option<HeaderFault> {
    assert!(rt; file.len() > 3080 && file.len() < 1000000);
    file[3080] = version;
    let mut station = MemStation::new(alloc, file, file.len(), 0, &[], None).expect(rt, "memory");
    read_header(&mut station).err()
}

/// The version's byte in a file that was made with two journals, and why it is refused.
const VERSIONS: [(u8, Option<HeaderFault>); 4] = [
    (4, None),
    (5, Some(HeaderFault::NotStore(Reason::Version(5)))),
    (3, Some(HeaderFault::NotStore(Reason::Length(81920)))),
    (0, Some(HeaderFault::NotStore(Reason::Version(0)))),
];

#[test]
#[tactic(auto, unfolding(header_gate::specs::Places::area_size, header_gate::specs::Places::journal_shift))]
fn version_4_is_the_greatest(rt: HostRuntime) {
    let mut station = MemStation::new(rt.alloc(), &[], 81920, 0, &[], None).expect(&rt, "memory");
    assert!(rt; create_store(&mut station, TWO).is_ok());
    let mut file = station.held().to_vec(rt.alloc()).expect(&rt, "memory");
    assert_eq!(rt; file.len(), 81920);
    assert!(rt; &file[3072..3084] == b"PMASTORE\x04\0\0\0".as_slice());
    for (version, want) in VERSIONS {
        let found = refused(&rt, rt.alloc(), &mut file, version);
        assert_eq!(rt; found, want);
    }
}
