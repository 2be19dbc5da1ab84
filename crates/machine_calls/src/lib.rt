//! How entry calls end: abortable parts and their triggers, unwinding by abort, and where a caller
//! goes on (ISO/IEC 8652:2012, 9.5.2, 9.7, 9.8). Each function has the name of the machine's
//! definition of which it is the counterpart.
#![tactic(auto)]

mod abortable;
mod ends;
mod marks;
mod onward;
mod unwinding;

pub use abortable::{end_top_abortable, trigger_at};
pub use ends::{deliver, end_call, gone, resume, waits_for_call};
pub use marks::{abortable_depth, set_waits};
pub use onward::call_in;
pub use unwinding::{frames_may_unwind, unwind};
