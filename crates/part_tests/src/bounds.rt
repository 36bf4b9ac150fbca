//! Bounds of windows.

use density_rule::{Window, in_bounds, least, lower, upper, window_of};

/// The least and the most records of a window, by height.
const BOUNDS: [(u32, u32); 17] = [
    (4, 64),
    (10, 126),
    (24, 248),
    (56, 488),
    (128, 960),
    (288, 1888),
    (640, 3712),
    (1408, 7296),
    (3072, 14336),
    (6656, 28160),
    (14336, 55296),
    (30720, 108544),
    (65536, 212992),
    (139264, 417792),
    (294912, 819200),
    (622592, 1605632),
    (1310720, 3145728),
];

#[test]
fn bounds_by_height(rt: HostRuntime) {
    for h in 0..17u32 {
        let (fewest, most) = BOUNDS[h as usize];
        let bounds = [lower(h), upper(h), least(0, h), least(3, h)];
        assert!(rt; bounds == [fewest, most, 0, fewest], "at {h}");
        let within = [
            in_bounds(3, h, fewest),
            in_bounds(3, h, most),
            in_bounds(0, h, 0),
            in_bounds(3, h, fewest - 1),
            in_bounds(3, h, most + 1),
        ];
        assert!(rt; within == [true, true, true, false, false], "at {h}");
    }
    assert_eq!(rt;
        window_of(5, 1),
        Window {
            height: 1,
            number: 2
        }
    );
}
