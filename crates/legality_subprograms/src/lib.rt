//! Subprograms, what overrides the operations of controlled types, and the heads of subprograms'
//! bodies (ISO/IEC 8652:2012, 6.1, 6.3, 7.6, 8.3.1). Each function has the name of the definition
//! of `ada_legality` of which it is the counterpart.
#![tactic(auto)]

mod bodies;
mod overriding;
mod subprograms;

pub use bodies::{subprogram_body_judged, subprogram_here};
pub use subprograms::{specification_found, subprogram_found, unit_of_operation};
