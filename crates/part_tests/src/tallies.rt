//! Counts of windows, and what an update asks for.

ghost use Rattle.std.specs.Prelude.{◌≡◌};

use density_rule::Window;
use window_tally::{Change, Pick, Since, Tally};

/// A window by height and number.
fn window(height: u32, number: u32) -> Window
    ensures { result ≡ record { height = height; number = number } }
{
    Window { height, number }
}

/// One window of two segments: with room, full, and with its least records.
#[test]
fn picks_of_two_segments(rt: HostRuntime) {
    let mut tally = Tally::new(rt.alloc(), 1).expect(&rt, "memory");
    tally.clear(1);
    tally.load(0, 32);
    tally.load(1, 64);
    let picks = [tally.pick(1, Change::Add), tally.pick(0, Change::Add)];
    assert_eq!(rt; picks, [Pick::Spread(window(1, 0)), Pick::Fits]);
    tally.load(0, 62);
    let picks = [tally.pick(1, Change::Add), tally.pick(0, Change::Add)];
    assert_eq!(rt; picks, [Pick::AtLimit; 2]);
    tally.load(0, 4);
    tally.load(1, 6);
    assert_eq!(rt; tally.pick(0, Change::Take), Pick::Shrink);
}

/// A full segment whose pair would be full too, so four segments are spread. Then the put that asked for it.
#[test]
fn spread_of_four_segments(rt: HostRuntime) {
    let mut tally = Tally::new(rt.alloc(), 2).expect(&rt, "memory");
    tally.clear(2);
    tally.load(0, 62);
    tally.load(1, 64);
    tally.load(2, 10);
    tally.load(3, 10);
    assert_eq!(rt; tally.pick(1, Change::Add), Pick::Spread(window(2, 0)));
    assert!(rt; !tally.since(window(0, 1)).rested);
    tally.set_spread(window(2, 0));
    tally.add(1);
    assert_eq!(rt; tally.leaves(window(2, 0)), [36, 38, 36, 37].as_slice());
    let rested = tally.since(window(1, 1));
    let counts = [
        tally.count(window(1, 0)) as u64,
        tally.since(window(0, 1)).updates,
        tally.since(window(1, 0)).updates,
        rested.updates,
    ];
    assert_eq!(rt; counts, [74, 1, 1, 0]);
    assert!(rt; rested.rested && !tally.since(window(2, 0)).rested);
    tally.forget_rests();
    assert_eq!(rt;
        tally.since(window(1, 1)),
        Since {
            updates: 0,
            rested: false
        }
    );
}

/// A store that grows from one full segment, and back.
#[test]
fn growth_and_shrinkage(rt: HostRuntime) {
    let mut tally = Tally::new(rt.alloc(), 1).expect(&rt, "memory");
    tally.load(0, 64);
    assert_eq!(rt; tally.pick(0, Change::Add), Pick::Grow);
    tally.resize(1);
    tally.add(1);
    assert_eq!(rt; tally.height(), 1);
    assert_eq!(rt; tally.leaves(window(1, 0)), [32, 33].as_slice());
    assert_eq!(rt;
        tally.since(window(0, 1)),
        Since {
            updates: 1,
            rested: true
        }
    );
    tally.take(0);
    assert_eq!(rt; tally.count(window(1, 0)), 64);
    tally.resize(0);
    assert_eq!(rt; tally.leaves(window(0, 0)), [64].as_slice());
}
