//! The statements, the sequences and the bodies of the image of a source (ISO/IEC 8652:2012, 3.11,
//! clauses 5, 9 and 11): each statement leads to what comes next. Each function has the name of the
//! definition of `ada_image` of which it is the counterpart. A number that its type cannot hold is
//! answered as want of memory.
#![tactic(auto)]

mod bodies;
mod sequences;
mod statements;

pub use bodies::{body_put, inner_bodies_put};
pub use sequences::WithDeclarations;
