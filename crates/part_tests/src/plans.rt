//! Shares, and the moves of a rebalance.

use spread_plan::{Move, PackMoves, SpreadMoves, share};

fn step(from: u32, to: u32, count: u32) -> Move {
    Move { from, to, count }
}

#[test]
fn shares_that_do_not_divide(rt: HostRuntime) {
    assert_eq!(rt; (share(37, 2, 0), share(37, 2, 1)), (18, 19));
    for (i, count) in [31, 32, 31, 32].iter().enumerate() {
        assert_eq!(rt; share(126, 4, i as u32), *count, "segment {i}");
    }
}

#[test]
fn two_segments(rt: HostRuntime) {
    for (counts, packed, records, spread) in [
        ([60, 10], step(1, 0, 4), 70, step(0, 1, 29)),
        ([4, 33], step(1, 0, 33), 37, step(0, 1, 19)),
    ] {
        let mut pack = PackMoves::over(&counts);
        let moves = [pack.next(), pack.next()];
        assert_eq!(rt; moves, [Some(packed), None]);
        assert!(rt; records <= 128);
        let mut spread_moves = SpreadMoves::new(records, 2);
        let moves = [spread_moves.next(), spread_moves.next()];
        assert_eq!(rt; moves, [Some(spread), None]);
    }
}

#[test]
fn four_segments(rt: HostRuntime) {
    let mut pack = PackMoves::over(&[60, 2, 31, 33]);
    for want in [
        Some(step(1, 0, 2)),
        Some(step(2, 0, 2)),
        Some(step(2, 1, 29)),
        Some(step(3, 1, 33)),
        None,
    ] {
        assert_eq!(rt; pack.next(), want);
    }
    let mut spread = SpreadMoves::new(126, 4);
    for want in [
        Some(step(1, 3, 32)),
        Some(step(1, 2, 30)),
        Some(step(0, 2, 1)),
        Some(step(0, 1, 32)),
        None,
    ] {
        assert_eq!(rt; spread.next(), want);
    }
}
