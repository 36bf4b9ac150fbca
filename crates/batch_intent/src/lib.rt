//! The intent of a batch: several updates as one command, through every crash.
//!
//! A batch writes its items into the header page, syncs, and opens a gate, a byte whose low bit says that the items are to be
//! applied. From there on the file means the map after all of them, however many were made: made again from the first on
//! they come to the same map. An opening makes them if the gate is odd, and closes it.
#![tactic(auto)]

mod gate;
mod intent;
mod item;
mod laws;
mod places;
mod reading;
mod spelling;
mod validating;

pub use gate::{close_intent, write_intent};
pub use intent::{Intent, IntentFault, MOST_ITEMS};
pub use item::Item;
pub use laws::{
    batches_begin_at_once, batches_go_on, files_mean_one_map, opening_reasons_are_exact,
    updates_keep_intents,
};
pub use places::{INTENT, INTENT_SIZE};
pub use reading::read_intent;
