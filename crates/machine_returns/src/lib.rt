//! Returns from subprograms, and what is copied back there (ISO/IEC 8652:2012, 6.4.1, 6.5). Each
//! function has the name of the machine's definition of which it is the counterpart.
#![tactic(auto)]

mod returns;

pub use returns::{end_subprogram, return_statement, return_value};
