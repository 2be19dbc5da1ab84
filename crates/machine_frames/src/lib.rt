//! Frames: the tasks of a world, the steps that open constructs, leave them and go on, and the room
//! that they take. Each function has the name of the machine's definition of which it is the
//! counterpart.
#![tactic(auto)]

mod appointments;
mod deferral;
mod effects;
mod faults;
mod frames;
mod objects;
mod regions;
mod room;
mod sequences;
mod served;
mod striking;
mod tasks;

pub use appointments::{appoint, drop_appointment, drop_delay, is_appointed};
pub use deferral::{bars_tasks, in_protected, is_deferred};
pub use effects::Effect;
pub use faults::refused;
pub use frames::{
    exit_loop, goes, leaves, leaving_of, new_frame, onward_of, pass_on, pop, push, raises, says,
    stands_in, statement_of_mark, top_of, within_of,
};
pub use objects::object_of;
pub use regions::region_of_mark;
pub use room::{frame_count, has_room};
pub use sequences::{open_at, open_handled, open_if_ready, open_sequence};
pub use served::call_returned;
pub use striking::{may_unwind, strike_outermost};
pub use tasks::{
    found_task, found_task_mut, is_made, is_runnable, may_run, new_task, number_of, set_state,
    set_ticks, task_at, task_mut, waiting_in, waiting_of,
};
