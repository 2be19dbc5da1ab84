//! What is found in the choices of exception handlers, and in the places of accept statements
//! (ISO/IEC 8652:2012, 9.5.2, 9.7.4, 11.2). Each function has the name of the definition of
//! `ada_legality` of which it is the counterpart.
#![tactic(auto)]

mod accepts;
mod handlers;

pub use accepts::{accept_judged, kind_of_entity};
pub use handlers::handled_judged;
