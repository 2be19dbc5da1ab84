//! What a call of a subprogram hands over, where its result goes, and how the called body begins;
//! and the cells of arrays, which are copied. Each function has the name of the machine's
//! definition of which it is the counterpart. A number that its type cannot hold is answered as
//! want of memory.
#![tactic(auto)]

mod arrays;
mod bodies;
mod parameters;

pub use arrays::{cells_from, checked_for, copy_cells};
pub use bodies::begin_body;
pub use parameters::{handed, result_to};
