//! Blocked at most once (ISO/IEC 8652:2012, D.2.1, D.3): laws of the stretches of a list of lines,
//! in which priorities change by protected actions alone. In a stretch no call finds its object
//! held, and while a task stays ready tasks of lower base priority run only in protected actions of
//! one of them, of which one was open before. Each law is the contract of a function that does
//! nothing.
#![tactic(auto)]

mod protocol;
mod runs;
mod stretches;

pub use protocol::{
    blocking_is_bounded, protocol_bounds_blocking, protocol_is_kept, protocol_is_told,
};
pub use runs::{
    actions_end_in_reverse_order, numbers_of_objects_are_new, numbers_of_tasks_are_new,
    only_tasks_have_deadlines, only_who_runs_goes_before, open_actions_are_those_of_marks,
    right_moves_bound_blocking, tasks_enter_at_their_base, the_rest_moves_rightly,
    who_blocks_has_no_action_open, who_enters_has_not_moved, who_enters_is_first,
    who_is_placed_is_known,
};
pub use stretches::{examples_are_told, plant_has_a_stretch, tests_tell};
