//! How expressions are read, and what they break (ISO/IEC 8652:2012, clause 4). Each function has
//! the name of the definition of `ada_legality` of which it is the counterpart.
#![tactic(auto)]

mod chains;
mod forms;
mod readable;

pub use forms::{arguments_read, type_between, typed_expression};
pub use readable::Readable;
