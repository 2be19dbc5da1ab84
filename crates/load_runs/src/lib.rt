//! A load: a program of many periodic tasks, whose size is a number of the command line, and the
//! tally of the lines of its run.
#![tactic(auto)]

mod source;
mod tally;

pub use source::{MOST_TASKS, load_source};
pub use tally::Tally;
