//! Which node of an index stands at a position.

ghost use Rattle.std.specs.Prelude.{◌≡◌, ◌-◌, ◌^◌, ◌<◌, ◌≤◌};
ghost use Rattle.index_file.specs.Seats.{IsSeat};

/// A node of an index.
#[derive(Clone, Copy)]
pub(crate) struct Seat {
    /// How many nodes stand above it.
    pub depth: u32,
    /// How many nodes of its depth stand left of it.
    pub number: u32,
}

/// The node at position `x` of an index of `h` levels, at most 16.
///
/// Each step halves the levels, as that of `position` does.
pub(crate) fn seat_at(h: u32, x: u32) -> Seat
    requires height { h ≤ 16 }
    requires node { x < 2 ^ h - 1 }
    ensures { IsSeat h x result }
{
    if h == 1 {
        return Seat {
            depth: 0,
            number: 0,
        };
    }
    let top = h / 2;
    let bottom = h - top;
    let first = (1 << top) - 1;
    if x < first {
        return seat_at(top, x);
    }
    let nodes = (1 << bottom) - 1;
    let below = seat_at(bottom, (x - first) % nodes);
    Seat {
        depth: top + below.depth,
        number: (((x - first) / nodes) << below.depth) + below.number,
    }
}
