//! Commands made by a generator, and the line that sums up their replies.
//!
//! The same seed always gives the same commands: mostly puts, some removes and gets, and some ranges, over a hundred
//! thousand keys. A store that answers them is summed up by how often it answered in each way.
#![tactic(auto)]

pub use self::generator::next_command;
pub use self::laws::{empty_files_begin, ranges_count_by_their_end, runs_go_on, summaries_grow};
pub use self::summary::{Summary, write_summary};

mod generator;
mod laws;
mod summary;
