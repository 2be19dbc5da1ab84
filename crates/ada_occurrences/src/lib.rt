//! The occurrences of names in a tree, in the order of the text: where a region begins and ends,
//! where a name is hidden, declared or used (ISO/IEC 8652:2012, clause 8).
#![tactic(auto)]

mod declarations;
mod selects;
mod statements;
mod telling;
mod units;

pub use units::occurrences_of;
