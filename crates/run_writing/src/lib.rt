//! The run of an image, written: its trace, line by line as the kernel tells them, or the summary
//! of its lines (docs/TRACES.md, docs/LANGUAGE.md).
#![tactic(auto)]

mod running;
mod summing;

pub use running::{run, run_under};
pub use summing::summarize;
