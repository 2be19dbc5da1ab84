//! The table of the names of a source: its occurrences, read from the first to the last (ISO/IEC
//! 8652:2012, 8.1 to 8.4). Each function has the name of the definition of `ada_regions` of which
//! it is the counterpart.
#![tactic(auto)]

mod beginnings;
mod clauses;
mod constructs;
mod entries;
mod frames;
mod naming;
mod packages;

pub use naming::{behind, name_fault_of, names_of, nothing_known};
