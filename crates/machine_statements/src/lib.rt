//! Simple and compound statements, and calls of subprograms. Each function has the name of the
//! machine's definition of which it is the counterpart. A number that its type cannot hold is
//! answered as want of memory.
#![tactic(auto)]

mod assignments;
mod calls;
mod choices;
mod delays;
mod loops;
mod sequences;
mod texts;

pub use assignments::{assign, assign_array};
pub use calls::call_subprogram;
pub use choices::{case_statement, if_statement};
pub use delays::{delay_statement, delay_until_statement};
pub use loops::{exit_statement, first_turn, for_bounds, later_turn, while_turn};
pub use sequences::{block_statement, null, raise_again};
pub use texts::put_line;
