//! Legality (ISO/IEC 8652:2012, 1.1.2): the first of the faults of a source whose names are known,
//! those in its units among them: packages and the main procedure (clauses 7, 10).
#![tactic(auto)]

mod faults;
mod units;

pub use faults::first_fault;
