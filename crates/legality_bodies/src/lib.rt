//! What is found in bodies, in declarations, and in sequences of statements (ISO/IEC 8652:2012,
//! 3.1, 3.11, 6.3, 9.1, 9.4, 9.5.2, 11.2). Each function has the name of the definition of
//! `ada_legality` of which it is the counterpart.
#![tactic(auto)]

mod bodies;
mod sequences;

pub use sequences::WithDeclarations;
