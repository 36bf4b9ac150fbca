//! The lines of a script that comes in pieces.
//!
//! A source gives a script in pieces of any size. The reader keeps the start of a line until its line feed comes, so
//! the lines don't depend on the pieces. It takes bytes only while it holds no complete line, and never more than it
//! was allowed at the start: wherever the reading stops, exactly the complete lines among the bytes taken were given.
#![tactic(auto)]

pub use self::mem::MemSource;
pub use self::reader::{LineReader, LineStep};
pub use self::source::{ReadFailed, Source};

mod buffer;
mod mem;
mod reader;
mod source;
