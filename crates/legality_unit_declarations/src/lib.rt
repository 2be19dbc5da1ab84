//! What is found in task and protected declarations (ISO/IEC 8652:2012, 9.1, 9.4, D.1, D.3). Each
//! function has the name of the definition of `ada_legality` of which it is the counterpart.
#![tactic(auto)]

mod units;

pub use units::{protected_found, task_found};
