//! What the words of a command ask for; the commands that need no machine, which test a table of
//! duties or tell what a trace shows; and how every command ends: its statuses, its notes, and what
//! each status tells.
//!
//! The clauses of the program's call stand in `specs/Statuses`, as facts that follow from what was
//! performed (`specs/Performed`) and from how it was concluded (`specs/Outcomes`).
#![tactic(auto)]

mod asking;
mod noting;
mod outcomes;
mod reporting;
mod requests;
mod testing;
mod tracing;
mod words;

pub use asking::asked;
pub use noting::conclude;
pub use outcomes::{NoItems, Outcome};
pub use requests::{DEFAULT_TICKS, MOST_TICKS, Request, TableTest, TraceWork, Work};
pub use testing::serve_table;
pub use tracing::serve_trace;
