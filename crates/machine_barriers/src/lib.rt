//! Barriers, and the call that is served next (ISO/IEC 8652:2012, 9.5.2, 9.5.3, D.4). Each function
//! has the name of the machine's definition of which it is the counterpart.
#![tactic(auto)]

mod barriers;

pub use barriers::{is_barrier_open, next_with, served_next};
