//! The expressions of the image of a source (ISO/IEC 8652:2012, clause 4). Each function has the
//! name of the definition of `ada_image` of which it is the counterpart. A number that its type
//! cannot hold is answered as want of memory.
#![tactic(auto)]

mod forms;
mod functions;
mod images;
mod literals;
mod primaries;
mod sequences;
mod values;
mod variables;

pub use forms::{expression_made, named, optional_value};
pub use images::Imaged;
pub use variables::variable_made;
