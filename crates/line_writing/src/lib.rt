//! How the lines of a trace are written, into a buffer that takes its memory when it is made.
#![tactic(auto)]

mod buffer;
mod write;

pub use buffer::{BUFFER_BYTES, LineBuffer};
pub use write::write_line;
