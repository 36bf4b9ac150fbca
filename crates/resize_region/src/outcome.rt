//! What comes of an upgrade.

/// The answer to an upgrade that didn't fail.
#[derive(Clone, Copy, Debug, PartialEq, Eq)]
pub enum Upgrade {
    /// The store has slot format 2 now.
    Done,
    /// It had it before.
    Already,
    /// Its file has room for one segment of format 1, and so for none of format 2.
    OneSegment,
    /// It has more records than half as many segments may hold.
    TooMany {
        /// The number of its records.
        records: u32,
    },
}
