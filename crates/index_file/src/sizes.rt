//! The sizes of the index in a file, in bytes.

/// How many bytes a node has: those of a line of most processors' caches.
pub(crate) const NODE_SIZE: usize = 64;

/// Where the fence begins in a node, behind its size, a byte and seven zeros: the key of a slot begins there too.
pub(crate) const FENCE_AT: usize = 8;

/// Where the two links begin in a node: behind the fence, whose field has room for the longest key, 8 + 40.
pub(crate) const LINKS_AT: usize = 48;

/// How many bytes a count has: those of each number in the file, of 32 bits.
pub(crate) const COUNT_SIZE: usize = 4;

/// How many bytes of the index are read or written at once: a page, in which systems cache files. No node and no count lies
/// across its end.
pub(crate) const PIECE: usize = 4096;
