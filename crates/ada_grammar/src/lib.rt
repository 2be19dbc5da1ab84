//! The grammar as a function that reads tokens, production by production, and why a source is not
//! read.
#![tactic(auto)]

mod cursor;
mod faults;
mod stuck;

pub use cursor::Cursor;
pub use faults::ParseFault;
pub use stuck::Stuck;
