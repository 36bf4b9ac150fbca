//! Where the parts of a store's file lie.

ghost use Rattle.std.specs.Prelude.{◌≡◌, ◌+◌, ◌^◌, ◌<◌, ◌≤◌, ◌↔◌, IsTrue};

/// The greatest height limit that a file may have: numbers of segments and positions in an index have 16 bits then. An opening
/// without an index reads all of the 65536 segments.
pub const GREATEST_HEIGHT: u32 = 16;

/// The greatest slot format, which is how many pages a segment of it has: there are two, one for short records and one for longer.
pub const GREATEST_FORMAT: u32 = 2;

/// The greatest version of a file that is read: versions count what files came to have, and two journals came last, as `PAIRED`.
pub const LATEST_VERSION: u32 = 4;

/// The first version of a file whose header page has an intent. Version 1 was before it, and has none.
pub const INTENT_VERSION: u32 = 2;

/// The first version of a file whose index stands behind its regions, the next after that of the intent, which it has too.
pub const INDEXED: u32 = 3;

/// The version of a file that has two journals, by turns. It has all that version 3 has, and is the greatest that a layout may have.
pub const PAIRED: u32 = 4;

/// The fewest pages that a journal may hold: those of the least window, of two segments, in the longer slots.
pub const LEAST_JOURNAL: u32 = 4;

/// The place of the selector, a byte whose low bit names the live copy and the live region. It is the file's first byte, and nothing
/// else stands in its sector of 512 bytes.
pub(crate) const SELECTOR: u64 = 0;

/// The place of header copy 0: a height and a slot format of 4 bytes each. Copy 1 lies 1024 bytes behind it. So the two are in
/// sectors of their own, and who writes one writes no sector of the other, of the selector or of the gates.
pub(crate) const COPIES: u64 = 1024;

/// The place of the identity: the text `PMASTORE`, then version, height limit and journal size, of 4 bytes each. It follows the
/// copies at 1024 and 2048, in a sector that nothing writes once the store is made.
pub const IDENTITY: u64 = 3072;

/// The text `PMAS` as a number of 32 bits, lowest byte first: the identity is read as numbers, so its text is compared as two.
pub(crate) const NAME_FRONT: u32 = 0x5341_4d50;

/// The text `TORE`, likewise.
pub(crate) const NAME_BACK: u32 = 0x4552_4f54;

/// The bytes of a page, in which systems cache files: the header is one, the journal's table is one, and journal and regions
/// count in them.
pub const PAGE: usize = 4096;

/// The place of the journal's table, behind the header page.
pub const TABLE: u64 = PAGE as u64;

/// The bytes that the index has for each page of a region: a node of 64 bytes and a count of 4.
const AREA_SHARE: u64 = 68;

/// What a file was made with: its height limit, 0 to 16, its journal size in pages, 4 to max(4, 2^hmax), and its version,
/// 1 to 4; and the slot format of its live region, 1, or 2 if the height limit is at least 1.
#[derive(Clone, Copy)]
pub struct Layout {
    /// The greatest height that the store may have.
    pub hmax: u32,
    /// How many pages the journal holds.
    pub journal: u32,
    /// What else the file has: an intent from 2 on, an index from 3 on, and a second journal at 4.
    pub version: u32,
    /// The slot format: how many pages a segment has.
    pub format: u32,
}

impl Layout {
    ghost use Rattle.header_gate.specs.Places.{IsLayout, height_limit, pages_at, table_place, table_size, journal_shift, image_place, journal_end, region_place, page_place, segment_place, area_place, area_size, file_length, segment_size};

    /// The length in bytes of a file of this layout: header page, journals, two regions and the index.
    pub fn length(&self) -> u64
        requires { IsLayout self.now }
        ensures { result ≡ file_length self.now }
    {
        self.area_at() + self.area_bytes()
    }

    /// The place of the index in bytes, below 2^40, behind region 1. A file of version 1 or 2 ends there.
    pub fn area_at(&self) -> u64
        requires { IsLayout self.now }
        ensures place { result ≡ area_place self.now }
        ensures most { result < 2 ^ 40 }
    {
        self.region_at(2)
    }

    /// The bytes of the index, in whole pages, fewer than 2^24: none in a file of version 1 or 2.
    pub fn area_bytes(&self) -> u64
        requires { IsLayout self.now }
        ensures size { result ≡ area_size self.now }
        ensures most { result < 2 ^ 24 }
    {
        if self.version >= INDEXED {
            (AREA_SHARE * self.pages() + (PAGE as u64 - 1)) / PAGE as u64 * PAGE as u64
        } else {
            0
        }
    }

    /// The greatest height, at most 16, that a store in the file may have.
    pub fn height_limit(&self) -> u32
        requires { IsLayout self.now }
        ensures limit { result ≡ height_limit self.now }
        ensures most { result ≤ 16 }
    {
        self.hmax + 1 - self.format
    }

    /// The pages that a store of this height has in its region, at most the 2^hmax of a region.
    pub fn pages_at(&self, height: u32) -> u32
        requires layout { IsLayout self.now }
        requires height { height ≤ height_limit self.now }
        ensures pages { result ≡ pages_at self.now height }
        ensures most { result ≤ 2 ^ self.now.hmax }
    {
        self.format << height
    }

    /// Whether the file has two journals.
    pub fn is_paired(&self) -> bool
        ensures { IsTrue result ↔ (self.now.version ≡ PAIRED) }
    {
        self.version == PAIRED
    }

    /// The place in bytes, below 2^31, of the table of journal 0 or 1. Before version 4 there is one journal, and
    /// either number is its.
    pub fn table_at(&self, turn: u32) -> u64
        requires { IsLayout self.now }
        ensures place { result ≡ table_place + journal_shift self.now turn }
        ensures most { result < 2 ^ 31 }
    {
        TABLE + self.shift(turn)
    }

    /// The place in bytes of image `k` of the first journal.
    pub fn image_at(&self, k: u32) -> u64
        requires { IsLayout self.now }
        ensures { result ≡ image_place self.now k }
    {
        TABLE + self.table_size() + PAGE as u64 * k as u64
    }

    /// The place in bytes of image `k` of journal 0 or 1.
    pub fn image_in(&self, turn: u32, k: u32) -> u64
        requires { IsLayout self.now }
        ensures { result ≡ image_place self.now k + journal_shift self.now turn }
    {
        TABLE + self.table_size() + PAGE as u64 * k as u64 + self.shift(turn)
    }

    // How far behind the first journal a journal stands.
    fn shift(&self, turn: u32) -> u64
        requires { IsLayout self.now }
        ensures shift { result ≡ journal_shift self.now turn }
        ensures most { result < 2 ^ 30 }
    {
        if self.version == PAIRED && turn == 1 {
            self.table_size() + PAGE as u64 * self.journal as u64
        } else {
            0
        }
    }

    /// The place in bytes of a page of region 0 or 1. Region 2 would begin at the end of the regions.
    pub fn page_at(&self, region: u32, page: u32) -> u64
        requires layout { IsLayout self.now }
        requires region { region ≤ 2 }
        ensures { result ≡ page_place self.now region page }
    {
        self.region_at(region) + PAGE as u64 * page as u64
    }

    /// The place in bytes of a segment of region 0 or 1.
    pub fn segment_at(&self, region: u32, segment: u32) -> u64
        requires layout { IsLayout self.now }
        requires region { region ≤ 2 }
        ensures { result ≡ segment_place self.now region segment }
    {
        self.region_at(region) + self.segment_bytes() as u64 * segment as u64
    }

    /// The bytes of a segment: 4096 for each page that the slot format gives it.
    pub fn segment_bytes(&self) -> usize
        ensures { result ≡ segment_size self.now }
    {
        PAGE * self.format as usize
    }

    // The place of region 0 or 1, and where they end.
    fn region_at(&self, region: u32) -> u64
        requires layout { IsLayout self.now }
        requires region { region ≤ 2 }
        ensures place { result ≡ region_place self.now region }
        ensures small { result < 2 ^ 40 }
    {
        self.image_in(1, self.journal) + PAGE as u64 * self.pages() * region as u64
    }

    // The journal's table is a count and that many numbers, in whole pages.
    fn table_size(&self) -> u64
        requires { IsLayout self.now }
        ensures { result ≡ table_size self.now }
    {
        (4 + 4 * self.journal as u64 + (PAGE as u64 - 1)) / PAGE as u64 * PAGE as u64
    }

    // The pages of a region.
    fn pages(&self) -> u64
        requires { IsLayout self.now }
        ensures count { result ≡ 2 ^ self.now.hmax }
        ensures most { result ≤ 65536 }
    {
        1 << self.hmax
    }
}
