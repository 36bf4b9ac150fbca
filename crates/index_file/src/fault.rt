//! Why the index in a file can't be taken over.

/// Why the index in a file can't be taken over.
#[derive(Clone, Copy)]
pub(crate) enum AreaFault {
    /// The disk failed.
    Failed,
    /// The place of the first node or count that is wrong.
    Wrong { place: u32 },
}
