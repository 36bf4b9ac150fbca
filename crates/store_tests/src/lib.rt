//! Worked rows of the store, over its public calls: updates and what they are charged, batches, looks, and what a put costs.
//!
//! The values come from outside: from the format and from worked examples. What a clause says for every value has no row
//! here. The crate has no code, so that a test costs the proof of no other crate again.
#![tactic(auto)]

#[cfg(test)]
mod batches;
#[cfg(test)]
mod calls;
#[cfg(test)]
mod files;
#[cfg(test)]
mod ledgers;
#[cfg(test)]
mod random;
#[cfg(test)]
mod seeks;
#[cfg(test)]
mod sessions;
#[cfg(test)]
mod store;
#[cfg(test)]
mod stores;
