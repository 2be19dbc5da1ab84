//! Worked rows: the machine's run of a program under its script and bound is the trace that was
//! worked out by hand. The calls do nothing: their contracts are laws that the checker computes.
#![tactic(auto)]

pub mod rows;
