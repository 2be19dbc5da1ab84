//! Which law a trace breaks, line by line.
#![tactic(auto)]

mod actions;
mod counts;
mod laws;
mod regions;
mod theorems;
mod verdicts;

pub use laws::{Law, LawFault, Laws};
pub use theorems::{answers_tell, rows_tell, verdicts_tell};
pub use verdicts::{TRACE_BYTES, Verdict};
