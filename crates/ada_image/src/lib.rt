//! The program that the machine runs, made of the tree of a source and the table of its names: the
//! plain data of what is being made, the types of predefined functions, and, in `specs/`, the
//! definitions of what is made of each form of the text.
#![tactic(auto)]

mod making;
mod operations;

pub use making::{FirstAction, ListOf, Lists, MadeLists, NamesOf, OpenLoop, SequencePlace, Within};
pub use operations::type_of_operation;
