//! The library units of the image of a source: the numbers of its packages, the actions of their
//! declarations, which of them make tasks, the main procedure, and the program, where what is made
//! of all is given (ISO/IEC 8652:2012, 7.1, 7.2, 10.1, 10.2). Each function has the name of the
//! definition of `ada_image` of which it is the counterpart. A number that its type cannot hold is
//! answered as want of memory.
#![tactic(auto)]

mod declarations;
mod packages;
mod programs;

pub use declarations::{declaration_makes_tasks, package_declarations_put, package_part};
pub use packages::{has_body, part_of};
pub use programs::program_with;
