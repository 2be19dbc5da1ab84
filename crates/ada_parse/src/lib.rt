//! From tokens to the tree that they spell.
#![tactic(auto)]

mod units;

pub use units::parse;
