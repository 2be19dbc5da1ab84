//! Entry calls: whose entry is called, the number that a call draws, calls of protected entries,
//! and requeues. Each function has the name of the machine's definition of which it is the
//! counterpart.
#![tactic(auto)]

mod making;
mod object_calls;
mod owners;
mod requeues;

pub use making::{end_at_once, has_room_if_queued, make_call};
pub use object_calls::call_object;
pub use owners::owner_of_entry;
pub use requeues::requeue;
