//! Stations in memory over their public calls: what is put and read back, the calls that fail, the outlet's room, and
//! the picked byte of a crash image in each pending place.

use station::{CrashStation, MemStation, Pick, Station, SureStation};

#[test]
fn a_station_in_memory_holds_what_is_written(rt: HostRuntime) {
    // (calls 1 and from 6 on fail)
    let mut station = MemStation::new(rt.alloc(), b"abc", 8, 3, &[1], Some(6)).expect(
        &rt, "memory",
    );
    let mut buffer = [9; 4];
    let done = [
        station.write_at(2, b"xy").is_ok(),
        station.sync().is_ok(),
        station.read_at(1, &mut buffer).is_ok(),
        station.say(b"stored").ok() == Some(3),
        station.say(b"ed").ok() == Some(0),
        station.set_len(6).is_ok(),
        station.len().is_ok(),
    ];
    assert_eq!(rt; done, [true, false, true, true, true, true, false]);
    let bytes: [&[u8]; 3] = [&buffer, station.held(), station.said()];
    assert_eq!(rt; bytes, [b"bxy\0".as_slice(), b"abxy\0\0", b"sto"]);
    let travel = station.travel();
    let counts = [travel.read, travel.written, travel.breaks, travel.next];
    assert_eq!(rt; counts, [4, 2, 1, 5]);
}

#[test]
fn a_crash_leaves_the_picked_byte_in_each_pending_place(rt: HostRuntime) {
    let inner = MemStation::new(rt.alloc(), b"abc", 8, 3, &[], None).expect(&rt, "memory");
    let mut station = CrashStation::new(rt.alloc(), inner, 6, 8).expect(&rt, "memory");
    let done = [
        station.write_at(2, b"xy").is_ok(),
        station.set_len(1).is_ok(),
        station.write_at(3, b"z").is_ok(),
        station.set_len(5).is_ok(),
        station.sync().is_ok(),
        station.say(b"stored").is_ok(),
        station.say(b"sto").is_ok(),
    ];
    assert_eq!(rt; done, [true, true, true, true, true, false, false]);
    assert_eq!(rt; station.noted(), 5);
    let images: [(u32, Pick, &[u8]); 8] = [
        (0, Pick::Fill(b'?'), b"abc"),
        (1, Pick::Settled, b"abc\0"),
        (1, Pick::Held, b"abxy"),
        (1, Pick::Fill(b'?'), b"ab??"),
        (2, Pick::Settled, b"a"),
        (3, Pick::Fill(b'?'), b"a\0\0?"),
        (4, Pick::Fill(b'?'), b"a\0\0??"),
        (5, Pick::Settled, b"a\0\0z\0"),
    ];
    for (calls, pick, expected) in images {
        if calls as usize <= station.noted() {
            let image = station
                .crash_image(rt.alloc(), calls, pick)
                .expect(&rt, "memory");
            let is_so = image.as_slice() == expected && station.said_after(calls) == 0;
            assert!(rt; is_so, "after {calls} calls");
        }
    }
}

#[test]
fn a_sure_station_keeps_what_is_written(rt: HostRuntime) {
    let mut station = SureStation::new(rt.alloc(), 8).expect(&rt, "memory");
    let mut buffer = [9; 4];
    let done = [
        station.attach("f", true).is_ok(),
        station.write_at(2, b"ab").is_ok(),
        station.set_len(6).is_ok(),
        station.sync().is_ok(),
        station.len().ok() == Some(6),
        station.say(b"stored").ok() == Some(6),
        station.read_at(1, &mut buffer).is_ok(),
        station.travel().written == 2,
    ];
    assert_eq!(rt; done, [true; 8]);
    assert_eq!(rt; buffer, *b"\0ab\0");
}
