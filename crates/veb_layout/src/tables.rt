//! Level tables: the position of a node from those of the nodes above it, without links.

ghost use Rattle.std.specs.Prelude.{◌≡◌, ◌+◌, ◌-◌, ◌^◌, ◌<◌, ◌≤◌, [], ◌∷◌, ◌++◌, take};
ghost use Rattle.veb_layout.specs.Layout.{position_of, way_to};
ghost use Rattle.veb_layout.specs.Tables.{cut_above as cut_above_of, positions};

use std::marker::Model;

/// The most levels of an index: one for each height up to the greatest.
const MOST: usize = 16;

/// The positions of the nodes on the way down to a node, from the root on: at most 16.
#[derive(Clone, Copy)]
pub struct Trace2 {
    /// The first `len` of these are the positions.
    pub at: [u32; MOST],
    /// How many there are.
    pub len: u32,
}

impl Trace2 {
    /// A trace with no position.
    pub fn new() -> Trace2
        ensures none { positions result ≡ [] }
        ensures len { result.len ≡ 0 }
    {
        Trace2 {
            at: [0; MOST],
            len: 0,
        }
    }

    /// Adds a position at the end.
    pub fn push(&mut self, position: u32)
        requires { self.old.len < 16 }
        ensures added { positions self.new ≡ positions self.old ++ position ∷ [] }
        ensures len { self.new.len ≡ self.old.len + 1 }
    {
        self.at[self.len as usize] = position;
        self.len += 1;
    }
}

/// A cut between two levels.
#[derive(Clone, Copy)]
struct Cut {
    /// The depth at which its top part begins.
    up: u32,
    /// How many nodes the top part has: one less than a power of 2.
    top: u32,
    /// How many nodes each part below has.
    bottom: u32,
}

/// For each depth of an index the cut above it: three numbers for each level, in place of two links for each node.
#[derive(Drop)]
pub struct LevelTables {
    height: u32,
    cuts: [Cut; MOST],
}

impl Model for LevelTables {
    ghost use Rattle.std.specs.Prelude.{ℕ};

    ghost Value = { ℕ };

    ghost use Rattle.veb_layout.specs.Tables.{AreTables};

    ghost view = { λ t. t.height };

    ghost invariant = { λ t. AreTables t.height t.cuts };
}

impl LevelTables {
    /// The tables of an index of `h` levels, at most 16.
    pub fn new(h: u32) -> LevelTables
        requires { h ≤ 16 }
        ensures { result ≡ h }
    {
        let uncut = Cut {
            up: 0,
            top: 0,
            bottom: 0,
        };
        let mut cuts = [uncut; MOST];
        for d in 1..h {
            cuts[d as usize] = cut_above(h, d);
        }
        LevelTables { height: h, cuts }
    }

    /// How many levels the index has, at most 16.
    pub fn height(&self) -> u32
        ensures height { result ≡ self.now }
        ensures most { result ≤ 16 }
    {
        self.height
    }

    /// The position of node `p` of depth `d`, from 1 on, if the path begins with the positions above it.
    ///
    /// It follows from the first `d` positions of the path by three numbers of the depth.
    pub fn child(&self, path: &Trace2, d: u32, p: u32) -> u32
        requires depth { d < self.now }
        requires below { 1 ≤ d }
        requires node { p < 2 ^ d }
        requires path { take d (positions path.now) ≡ way_to self.now d p }
        ensures position { result ≡ position_of self.now d p }
        // It is below 2^h - 1 in an index of h levels.
        ensures within { result < 2 ^ self.now - 1 }
    {
        let cut = self.cut(d);
        path.at[cut.up as usize] + cut.top + (p & cut.top) * cut.bottom
    }

    /// The cut above depth `d`.
    fn cut(&self, d: u32) -> Cut
        requires depth { d < self.now }
        requires below { 1 ≤ d }
        ensures cut { result ≡ cut_above_of self.now d }
        ensures low { self.now ≤ 16 }
    {
        self.cuts[d as usize]
    }
}

/// The cut above depth `d` of a tree of `h` levels.
fn cut_above(h: u32, d: u32) -> Cut
    requires height { h ≤ 16 }
    requires depth { d < h }
    requires below { 1 ≤ d }
    ensures { result ≡ cut_above_of h d }
{
    let top = h / 2;
    let bottom = h - top;
    if d == top {
        return Cut {
            up: 0,
            top: (1 << top) - 1,
            bottom: (1 << bottom) - 1,
        };
    }
    if d < top {
        return cut_above(top, d);
    }
    let cut = cut_above(bottom, d - top);
    Cut {
        up: top + cut.up,
        top: cut.top,
        bottom: cut.bottom,
    }
}
