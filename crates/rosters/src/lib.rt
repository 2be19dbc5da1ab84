//! Lists of items that are found by a number of their own, without a walk: tasks, scopes in use,
//! protected objects and entry calls. A roster also keeps what its items take of a common room, and
//! whether any of them stirs.
#![tactic(auto)]

mod roster;
mod roster_notes;

pub use roster::{Numbered, Roster};
