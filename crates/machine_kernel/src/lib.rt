//! The run of a program, line by line.
//!
//! A kernel keeps a world of the profile machine. Each call of `next` writes an owed line, or goes
//! on by an instant or a tock of that world. Idle ticks that say nothing are jumped over, and so
//! are those of an action of many ticks.
#![tactic(auto)]

mod busy;
mod idle;
mod kernel;
mod openings;

pub use kernel::{Kernel, Next, Stop};
pub use openings::boot;
