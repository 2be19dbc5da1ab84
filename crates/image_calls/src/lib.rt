//! The call statements of the image of a source (ISO/IEC 8652:2012, 6.4, 9.5.3), calls of
//! predefined procedures among them (A.10.7, D.2.5, D.2.6, D.5.1, D.14.1, D.14.2, D.15). Each
//! function has the name of the definition of `ada_image` of which it is the counterpart. A number
//! that its type cannot hold is answered as want of memory.
#![tactic(auto)]

mod actions;
mod call_statements;
mod procedures;
mod settings;

pub use call_statements::call_statement_put;
