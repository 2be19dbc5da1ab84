//! What the program does for its words, up to the outcome: what they ask for is done with the files
//! that they name.
#![tactic(auto)]

mod performing;
mod scripting;

pub use performing::perform;
