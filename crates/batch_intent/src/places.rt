//! Where the intent lies in the header page of a file.

/// The place of the intent: its number of items, then the items. It is 4096 less 512, the last sector of the header page.
pub const INTENT: u64 = 3584;

/// The bytes of the intent, which ends with the header page: those of one sector, which no other part of the page shares.
pub const INTENT_SIZE: usize = 512;
