//! Tasks: how they are activated, how scopes are left that have dependents or
//! controlled objects, how tasks end, and how they are aborted. Each function has the name of the
//! machine's definition of which it is the counterpart. A number that its type cannot hold is
//! answered as want of memory.
#![tactic(auto)]

mod aborts;
mod activations;
mod beginning;
mod endings;
mod falling;
mod kept;
mod leaving;
mod settling;

pub use aborts::abort_statement;
pub use activations::{activate, end_own_activation};
pub use endings::end_scope_mark;
pub use settling::bring_about;
