//! The index in the file of a store: at its end a run leaves the fences and the counts of its array behind the regions, and
//! a later run opens the store by them, without reading a region.
//!
//! One byte, the clean gate, says whether they are those of the array. It is closed before anything else is written, and
//! opened last, as the clean bit of a file system's superblock is (McKusick and others, The Design and Implementation of the
//! 4.4BSD Operating System, 1996). So whatever a crash leaves is clean: its gate is even, or its index is that of its array.
#![tactic(auto)]

mod area;
mod closing;
mod counts;
mod fault;
mod gate;
mod laws;
mod leaving;
mod loading;
mod node;
mod quick;
mod reading;
mod seats;
mod sizes;
mod validating;
mod writing;

pub use closing::close_index;
pub use gate::close_clean;
pub use laws::{clean_files_are_quick, clean_images, left_indexes_are_sound};
pub use leaving::leave_index;
pub use quick::open_quick;
