//! The rules of legality that look at the whole of a source (ISO/IEC 8652:2012, 3.11.1, 6.3, 7.2,
//! 10.1.4, C.3.1, D.2.6, D.3, D.14.1; the limit on cells is this profile's own), and the order of
//! faults (1.1.5). Each function has the name of the definition of `ada_legality` of which it is
//! the counterpart.
#![tactic(auto)]

mod attached;
mod cells;
mod completions;
mod deadlines;
mod faults;
mod findings;
mod packages;
mod whole;

pub use faults::first_fault_in;
pub use packages::packages_judged;
pub use whole::found_beside;
