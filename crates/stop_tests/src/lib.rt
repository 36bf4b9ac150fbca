//! Sessions of the program that are stopped at each call, or with each call failing: what is left opens as one of two maps.
//!
//! The crate has no code, so that a test costs the proof of no other crate again.
#![tactic(auto)]

#[cfg(test)]
mod batch_stops;
#[cfg(test)]
mod closings;
#[cfg(test)]
mod indexes;
#[cfg(test)]
mod load_stops;
#[cfg(test)]
mod merge_stops;
#[cfg(test)]
mod openings;
#[cfg(test)]
mod paired;
#[cfg(test)]
mod repairs;
#[cfg(test)]
mod scripts;
#[cfg(test)]
mod stops;
#[cfg(test)]
mod updates;
#[cfg(test)]
mod upgrades;
