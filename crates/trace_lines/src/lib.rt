//! What is kept of a list of trace lines: as many facts as there are tasks and protected objects,
//! and no lines.
#![tactic(auto)]

mod laws;
mod levels;
mod lines;
mod queue;
mod ranks;

pub use laws::facts_tell;
pub use lines::{Lines, Malformed};
pub use queue::is_same;
