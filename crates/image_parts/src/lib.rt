//! The actions of compound statements, where the statements in them are made, and the signs that
//! they count (ISO/IEC 8652:2012, clause 5, 9.5.2, 9.7). A number that its type cannot hold is
//! answered as want of memory.
#![tactic(auto)]

mod branches;
mod loops;
mod scopes;
mod selects;

pub use branches::{case_action, if_action};
pub use loops::{for_action, label_of, parameter_of, while_action};
pub use scopes::{in_statement_scope, scope_action};
pub use selects::{guard_of, signs_in_alternatives, signs_in_timed_call, signs_in_trigger};
