//! The values of names and expressions: what a task sees of a world. Each function has the name of
//! the machine's definition of which it is the counterpart. A number that its type cannot hold is
//! answered as want of memory.
#![tactic(auto)]

mod answers;
mod events;
mod moments;
mod names;
mod seen;
mod tasks;
mod values;

pub use answers::or_raised;
pub use events::{budget_of, event_moment, is_event, port_value, time_left, timer_of};
pub use moments::relative_moment;
pub use names::{
    component_at, component_cell, declared_already, first_cell, home_of, is_parameter, located,
    located_in, number_of_thing, object_cell, object_number, own_object, read, subject_of, task_in,
    thing, thing_number,
};
pub use seen::{Seen, seen_by};
pub use tasks::{count_of_entry, live_task, moment_at};
pub use values::{condition, moment, optional_task, ticks_in, truth_in, value, variable, whole_in};
