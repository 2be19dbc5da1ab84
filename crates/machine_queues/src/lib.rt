//! Entry calls and the queues in which they stand, the choice of the next one, and attempts to
//! cancel one (ISO/IEC 8652:2012, 9.5.3, D.4). Each function has the name of the machine's
//! definition of which it is the counterpart.
#![tactic(auto)]

mod calls;
mod cancellation;
mod objects;
mod queues;
mod served;

pub use calls::{
    call_drawn, call_mut, call_of, copied_call, copy_of_call, forget_call, formals_count,
    parameters_of, priority_of, says_call,
};
pub use cancellation::{attempt_on, is_cancellable};
pub use objects::object_mut;
pub use queues::{enqueue, is_full, place_of_entry, placed_anew, queue_of, unqueued};
pub use served::next_of_queue;
