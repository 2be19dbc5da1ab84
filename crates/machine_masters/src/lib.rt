//! Masters: on which regions a task depends, and how it is completed and terminates. Each function
//! has the name of the machine's definition of which it is the counterpart.
#![tactic(auto)]

mod activations;
mod completion;
mod masters;
mod queued_calls;
mod regions;
mod terminate_alternatives;
mod termination;

pub use activations::{end_activation, has_activating, has_group_failed};
pub use completion::complete;
pub use masters::{depends_on_region, depends_on_task, has_dependents};
pub use terminate_alternatives::{leave_by_terminate, may_terminate, waits_at_terminate};
pub use termination::terminate;
