//! Exits, returns and raises (ISO/IEC 8652:2012, 5.7, 6.5, 11.3). Each function has the name of the
//! definition of `ada_legality` of which it is the counterpart.
#![tactic(auto)]

mod leaving;

pub use leaving::{exit_found, raise_found, return_found};
