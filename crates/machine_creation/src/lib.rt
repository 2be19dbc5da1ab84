//! How a task is created (ISO/IEC 8652:2012, 9.1). Each function has the name of the machine's
//! definition of which it is the counterpart.
#![tactic(auto)]

mod creation;

pub use creation::create;
