//! Protected operations that are called, and how protected actions end: queued calls are served,
//! and the object is released (ISO/IEC 8652:2012, 9.5.1, 9.5.3, D.3). Each function has the name of
//! the machine's definition of which it is the counterpart.
#![tactic(auto)]

mod endings;
mod operations;
mod releases;
mod serving;

pub use endings::end_in_protected;
pub use operations::{call_operation, call_own_operation};
pub use releases::end_release;
