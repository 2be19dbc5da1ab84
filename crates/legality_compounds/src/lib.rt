//! What is found in statements with others in them, and in exception handlers (ISO/IEC 8652:2012,
//! clause 5, 9.5.2, 9.7, 11.2), where the sequences in them are judged. Each function has the name
//! of the definition of `ada_legality` of which it is the counterpart.
#![tactic(auto)]

mod accepts;
mod compound;
mod handlers;
mod judging;
mod selects;
mod statements;

pub use judging::{Judge, judge_all, judge_each, judge_if};
