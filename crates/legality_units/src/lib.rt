//! Library units that are used, and long names, on a way through the names of a source; use clauses
//! (ISO/IEC 8652:2012, 4.1.3, 8.4, 10.1.2, 10.1.6). Each function has the name of the definition of
//! `ada_legality` of which it is the counterpart.
#![tactic(auto)]

mod names;
mod units;
mod uses;
mod walk;

pub use uses::use_found;
pub use walk::units_used;
