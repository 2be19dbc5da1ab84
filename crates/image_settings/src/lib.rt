//! What Set_Handler is given, in the image of a source: the event, timer or budget, the moment or
//! the span, and the handler (ISO/IEC 8652:2012, D.14.1, D.14.2, D.15); and the types of
//! expressions (clause 4), since a span and a moment mean different things there. Each function has
//! the name of the definition of `ada_image` of which it is the counterpart. A number that its
//! type cannot hold is answered as want of memory.
#![tactic(auto)]

mod budgets;
mod handlers;
mod moments;
mod operators;
mod typing;

pub use budgets::{set_budget_put, thing_of};
pub use handlers::handler_of;
pub use moments::{is_in_time, moment_of, setting_with};
