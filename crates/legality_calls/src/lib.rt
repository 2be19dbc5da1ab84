//! The formals of what is called, and the actuals of a call (ISO/IEC 8652:2012, 6.1, 6.4.1, 9.5.1,
//! C.3.1, D.14.1, D.14.2, D.15). Each function has the name of the definition of `ada_legality` of
//! which it is the counterpart.
#![tactic(auto)]

mod actuals;
mod fitting;
mod formals;
mod handlers;
mod moments;

pub use actuals::{actual_from, wrong_actuals};
pub use fitting::actuals_numbered;
pub use formals::{formals_denoted, without_name};
pub use handlers::{assigned_if, component_assigned, handler_actual};
