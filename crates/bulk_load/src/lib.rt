//! Bulk load: a text of records in ascending order is read into a store without records.
//!
//! The records are written into the region that isn't live, first packed, 64 a segment, as the lines come, and then spread
//! there evenly. Nothing reads that region before a flip makes it the live one, so neither needs a journal: a crash leaves
//! the empty store, or the whole one. Two headers in turn, as in shadow paging (Lorie, ACM Transactions on Database Systems
//! 2, 1977). A packed memory array is filled so at the start (Bender, Demaine and Farach-Colton, SIAM J. Comput. 35, 2005).
//!
//! The frames of the journal's batch are the buffer, at most 256 of them. No memory is taken.
//!
//! A dump is a sweep over all records: what is said of it is such a text.
//!
//! A merge takes a text of updates in ascending order of their keys. The live region is read beside the text, once, and what
//! results is packed and spread as a load's records are. So a load is a merge into a store without records.
#![tactic(auto)]

pub use dumping::sweep_all;
pub use fault::{LoadFault, Loaded};
pub use laws::{
    admitted_texts_are_loaded, dumps_are_load_texts, refusals_exclude_each_other,
    texts_are_read_by_lines,
};
pub use loading::load_rows;
pub use merge_laws::{
    admitted_texts_are_merged, load_texts_are_merge_texts, merge_refusals_exclude_each_other,
    merge_texts_are_read_by_lines, updates_are_merged,
};
pub use merged::{Merged, merge_rows};

mod ahead;
mod copying;
mod dumping;
mod fault;
mod laws;
mod loading;
mod merge_laws;
mod merged;
mod merging;
mod packed;
mod packing;
mod reading;
mod resulting;
mod room;
mod run;
mod settling;
mod spare;
mod spreading;
