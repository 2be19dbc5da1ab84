//! Laws of the lines of every run, each line with its tick: what the lines say that tell who runs
//! and which release is taken up, which lines can be printed, and that protected actions, the
//! leaving of regions and the service of handlers keep their laws (ISO/IEC 8652:2012, 7.6.1, 9.5.1,
//! C.3, D.2). They are laws of the profile machine's definitions alone, and hold of every program,
//! script and bound. Each is the contract of a function that does nothing.
#![tactic(auto)]

mod exclusion_laws;
mod exit_laws;
mod handler_laws;
mod leaving_laws;
mod printable_lines;
mod tick_lines;

pub use exclusion_laws::runs_exclude;
pub use exit_laws::{free_runs_keep_exclusion, runs_keep_exclusion};
pub use handler_laws::{runs_keep_handlers, runs_serve_in_turn};
pub use leaving_laws::{runs_leave_in_turn, runs_leave_rightly};
pub use printable_lines::{
    bounds_change_nothing_before, events_are_printable, lines_are_printable, longer_runs_go_on,
    names_are_tested, runs_are_printable, runs_have_ticks_left, texts_are_put,
};
pub use tick_lines::{
    examples_are_told, runs_are_in_tick_order, runs_are_rightly_stuck, runs_release_in_order,
    runs_switch, tests_tell,
};
