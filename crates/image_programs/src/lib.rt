//! The image of a source: its library packages and their elaboration, the environment task, and the
//! program that the machine runs (ISO/IEC 8652:2012, 7.1, 7.2, 10.1, 10.2). Each function has the
//! name of the definition of `ada_image` of which it is the counterpart. A number that its type
//! cannot hold is answered as want of memory.
#![tactic(auto)]

mod elaboration;
mod programs;

pub use programs::program_from;
