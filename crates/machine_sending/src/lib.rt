//! Calls that are sent on, abortable parts that begin, and calls that are not accepted at once
//! (ISO/IEC 8652:2012, 9.5.4, 9.7.2, 9.7.3, 9.7.4). Each function has the name of the machine's
//! definition of which it is the counterpart.
#![tactic(auto)]

mod sending;
mod waiting;

pub use sending::{begin_abortable, send_on, sent_not_begun};
pub use waiting::{is_triggering, not_accepted, open_abortable, wait_for_call};
