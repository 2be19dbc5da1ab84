//! Which sources have a form in an image for each of their statements, declarations and other parts
//! (ISO/IEC 8652:2012, clauses 3, 5 to 7, 9 to 11). Each function has the name of the definition of
//! `ada_image` of which it is the counterpart.
#![tactic(auto)]

mod bodies;
mod branches;
mod forms;
mod selects;
mod sequences;
mod simple;
mod statements;
mod units;

pub use forms::SequenceHasForm;
pub use units::unit_built;
