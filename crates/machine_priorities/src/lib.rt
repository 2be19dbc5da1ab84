//! Priorities and deadlines that are set: what Set_Priority, Set_Quantum and Set_Deadline do, and
//! what is set when a protected action ends. Each function has the name of the machine's definition
//! of which it is the counterpart. A number that its type cannot hold is answered as want of
//! memory.
#![tactic(auto)]

mod deadlines;
mod priorities;
mod quanta;
mod ranges;
mod reprioritizing;

pub use deadlines::{delay_and_set_deadline, set_deadline_of};
pub use priorities::{set_deferred, set_priority};
pub use quanta::set_quantum;
