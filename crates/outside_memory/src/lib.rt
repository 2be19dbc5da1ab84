//! Files and a sink in memory, over which the crates that read and write are tested.
#![tactic(auto)]

mod memory;

pub use memory::{MemShelf, MemSink};
