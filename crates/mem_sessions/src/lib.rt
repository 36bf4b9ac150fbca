//! Sessions of the program over stations in memory, on which the crates of tests stand.
//!
//! A session is words, a script and a file of bytes; what comes of it is plain: a status, the bytes that were said, and the file
//! that is left. So a test takes in none of the clauses of `run_words`. Nothing of the program stands on this crate, and it
//! promises nothing but that its calls are safe and end.
#![tactic(auto)]

mod changes;
mod fileless;
mod notes;
mod scripts;
mod sessions;
mod stores;

pub use changes::{
    Change, Faults, NO_CHANGE, NO_FAULTS, UntoldStation, changed_session, quick_session, untold,
};
pub use fileless::{asked_nothing, generated};
pub use notes::{CALLS, NotedSession, noted, noted_by};
pub use scripts::{Keys, Part, push_key, push_lines, range_reply, range_reply_behind, script_of};
pub use sessions::{Ended, LONGEST, Plan, SMOOTH, Verb, created_by, session, session_by};
pub use stores::{Unmet, answered, answered_by, answered_on, upgraded, with_bytes};
