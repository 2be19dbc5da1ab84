//! Rendezvous: calls of a task's entries meet the accepts that wait for them, and accepts end;
//! entry calls of every kind, and the triggers of asynchronous selects. Each function has the name
//! of the machine's definition of which it is the counterpart.
#![tactic(auto)]

mod asynchronous;
mod endings;
mod meetings;
mod parameters;
mod task_calls;

pub use asynchronous::asynchronous_select;
pub use endings::end_in_accept;
pub use task_calls::entry_call;
