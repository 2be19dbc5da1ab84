//! Protected objects as protected actions find them: who may begin one, ceilings, the bodies of
//! entries, and what a body's parameters leave to its call (ISO/IEC 8652:2012, 9.5.1, 9.5.2, 9.5.3,
//! D.3). Each function has the name of the machine's definition of which it is the counterpart.
#![tactic(auto)]

mod actions;
mod bodies;
mod exclusion;
mod finishing;
mod parameters;

pub use actions::{begin_action_on, body_of_object, ceiling_of, outer_of_body};
pub use bodies::{begin_call, body_opens, body_scope_of, has_room_for_body, marks_of_action};
pub use exclusion::{base_of, entering, find_held, has_open, is_action_of};
pub use finishing::says_finish;
pub use parameters::{copied_cells, end_body_of_entry, keeps_sending, with_values};
