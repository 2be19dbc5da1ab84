//! Reading sequences of statements, bodies, and declarations.
#![tactic(auto)]

mod bodies;
mod sequences;
mod whole;

pub use bodies::below;
pub use whole::{body, declarations, sequence};
