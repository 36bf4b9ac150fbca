//! The outside of the store: a file and an outlet on one clock, and what a crash may leave of them.
//!
//! Disk calls and replies go through one trait, so that one order of moments holds both: a reply that has begun
//! to be sent comes after the writes that were synced before it. The crash model is the usual one of journaled
//! file systems: what was written since the last sync may hold anything after a crash, and all else is kept.
#![tactic(auto)]

mod call_counts;
mod call_log;
mod crash_image;
mod crash_station;
mod durable;
mod laws;
mod mem_station;
mod memory;
mod note;
mod station;
mod sure_station;
mod travel;

pub use crash_image::Pick;
pub use crash_station::CrashStation;
pub use durable::write_synced;
pub use laws::crashes_change_what_is_pending;
pub use mem_station::MemStation;
pub use station::{Failed, SayFailed, Station};
pub use sure_station::SureStation;
pub use travel::Travel;
