//! Worked rows of the parts of the store, over their public calls.
//!
//! The values come from outside: from the format, from definitions computed by hand, from worked examples. What a clause
//! says for every value has no row here. The crate has no code, so that a test costs the proof of no other crate again.
#![tactic(auto)]

#[cfg(test)]
mod bounds;
#[cfg(test)]
mod commands;
#[cfg(test)]
mod indexes;
#[cfg(test)]
mod intents;
#[cfg(test)]
mod journals;
#[cfg(test)]
mod lines;
#[cfg(test)]
mod memory;
#[cfg(test)]
mod plans;
#[cfg(test)]
mod records;
#[cfg(test)]
mod segments;
#[cfg(test)]
mod slots;
#[cfg(test)]
mod stations;
#[cfg(test)]
mod tallies;
#[cfg(test)]
mod versions;
#[cfg(test)]
mod workloads;
