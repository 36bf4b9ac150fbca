//! Cursors that live through updates.
//!
//! A cursor steps over the records of an ordered map, one a call, on or back, while the map changes. It keeps its bounds and
//! the key of the last record that it gave, and no place in a file: the next record, and the previous one, is looked for from
//! there, in the map as it is then. So no update moves a cursor, whatever is rebalanced or resized.
#![tactic(auto)]

mod answers;
mod laws;
mod set;
mod slots;

pub use answers::{Opened, Step};
pub use laws::{cursors_give_each_record_once, cursors_step_to_the_nearest};
pub use set::CursorSet;
