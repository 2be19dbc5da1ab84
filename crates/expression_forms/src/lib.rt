//! Which expressions and calls of a source have a form in an image (ISO/IEC 8652:2012, clauses 3,
//! 4, 6 and 9.5). Each function has the name of the definition of `ada_image` of which it is the
//! counterpart.
#![tactic(auto)]

mod actuals;
mod calls;
mod expressions;
mod forms;
mod functions;
mod names;
mod procedures;
mod texts;

pub use actuals::{initial_built, source_built, source_if_there, value_if_there};
pub use calls::call_statement_built;
pub use expressions::expression_built;
pub use names::is_given;
