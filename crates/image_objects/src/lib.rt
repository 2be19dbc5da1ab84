//! The declarations of the image of a source: objects, tasks and their activation (ISO/IEC
//! 8652:2012, 3.3.1, 7.6, 9.1, 9.2). Each function has the name of the definition of `ada_image` of
//! which it is the counterpart. A number that its type cannot hold is answered as want of memory.
#![tactic(auto)]

mod activations;
mod declarations;
mod declared;
mod objects;

pub use activations::{activation_put, end_of_activation_put};
pub use declarations::{declarations_put, make_tasks};
pub use declared::subprogram_declared_as;
