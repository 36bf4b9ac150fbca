//! Worked sessions of the program over stations in memory: replies and refusals, scripts, cursors, loads, upgrades and indexes.
//!
//! The values come from outside: from the manual, the format and worked examples. What a clause says for every value has no row
//! here. The crate has no code, so that a test costs the proof of no other crate again.
#![tactic(auto)]

#[cfg(test)]
mod batches;
#[cfg(test)]
mod cursors;
#[cfg(test)]
mod faults;
#[cfg(test)]
mod generated;
#[cfg(test)]
mod indexes;
#[cfg(test)]
mod intents;
#[cfg(test)]
mod loads;
#[cfg(test)]
mod merges;
#[cfg(test)]
mod paired;
#[cfg(test)]
mod refusals;
#[cfg(test)]
mod rows;
#[cfg(test)]
mod untold;
#[cfg(test)]
mod upgrades;
