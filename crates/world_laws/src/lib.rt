//! Worlds: laws of the profile machine's definitions alone, which hold of every program, script and
//! bound. Each is the contract of a function that does nothing.
//!
//! `count_laws` has those that hold of worlds whether a run reaches them or not. Each of the others
//! has one part of what a world is that a run reaches, and `formed_worlds` puts the parts together:
//! it is well formed.
#![tactic(auto)]

mod action_worlds;
mod appointment_worlds;
mod cell_worlds;
mod count_laws;
mod formed_worlds;
mod mark_worlds;
mod place_worlds;
mod queue_worlds;
mod scope_worlds;
mod sequence_worlds;
mod serving_worlds;

pub use action_worlds::reached_worlds_hold_rightly;
pub use appointment_worlds::{reached_appointments_are_in_order, reached_delays_are_awaited};
pub use cell_worlds::reached_cells_are_right;
pub use count_laws::{masters_end, outwards_end, right_queues_are_own, serves_end, values_end};
pub use formed_worlds::{reached_worlds_are_well_formed, runs_are_well_formed};
pub use mark_worlds::{
    reached_finalizes_stand_where_they_lead_on, reached_marks_are_right,
    reached_marks_are_struck_for_a_cause, reached_triggers_are_awaited,
};
pub use place_worlds::reached_worlds_place_who_is_ready;
pub use queue_worlds::{reached_worlds_await_timeouts, reached_worlds_queue_rightly};
pub use scope_worlds::reached_worlds_have_the_scopes_of_marks;
pub use sequence_worlds::reached_worlds_have_opened_sequences;
pub use serving_worlds::reached_serving_ends;
