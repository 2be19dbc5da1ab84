//! Calls in the image of a source (ISO/IEC 8652:2012, 6.4, 9.5, 9.5.3, A.10.7): whom a name calls,
//! the actuals in the order of the formals, and the pieces of Put_Line. Each function has the name
//! of the definition of `ada_image` of which it is the counterpart. A number that its type cannot
//! hold is answered as want of memory.
#![tactic(auto)]

mod actuals;
mod callees;
mod calls;
mod pieces;
mod targets;

pub use actuals::arguments_made;
pub use callees::{callee_of, owner_of_entry};
pub use calls::{
    FunctionCall, call_put, entry_call_put, function_call, function_call_put, not_built,
};
pub use pieces::{put_line_put, value_or_none};
pub use targets::{no_variable, target_made, variable_in};
