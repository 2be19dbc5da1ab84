//! Accept statements and selective accepts: calls of a task's entries are accepted, or waited for.
//! Each function has the name of the machine's definition of which it is the counterpart.
#![tactic(auto)]

mod accepting;
mod alternatives;
mod selecting;

pub use accepting::{
    accept, accept_for, begin_accept, finish_without_room, has_room_for_accept, open_accept,
};
pub use alternatives::delay_moment;
pub use selecting::selective_accept;
