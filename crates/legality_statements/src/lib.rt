//! What is found in statements without others in them, and in the heads of those with others
//! (ISO/IEC 8652:2012, clauses 5, 6.4, 6.5, 9, 11). Each function has the name of the definition of
//! `ada_legality` of which it is the counterpart.
#![tactic(auto)]

mod assignments;
mod calls;
mod loops;

pub use assignments::{assignment_found, delay_found};
pub use calls::call_found;
pub use loops::{entry_call_found, guard_found, iteration_found, trigger_found, with_iteration};
