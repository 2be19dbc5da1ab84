//! The number of the operator signs and calls of predefined functions in the expressions of a
//! source, and in the actuals of a call (ISO/IEC 8652:2012, 4.4, 4.5, 6.4): this profile's costs.
//! Each function has the name of the definition of `ada_image` of which it is the counterpart. A
//! number of more than 32 bits is answered as want of memory.
#![tactic(auto)]

mod actuals;
mod counted;
mod forms;
mod sums;

pub use actuals::signs_in_actuals;
pub use forms::{signs_if, signs_in};
