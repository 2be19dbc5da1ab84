//! The effect of each action, and instants. Each function has the name of the machine's definition
//! of which it is the counterpart.
#![tactic(auto)]

mod abortable;
mod acting;
mod calls;
mod effects;
mod handlers;
mod instants;
mod marks;

pub use acting::act;
pub use instants::instant;
