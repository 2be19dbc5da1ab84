//! A program as the machine runs it: its items by their numbers, the policies of its levels, and
//! the cells of its scopes. Each function has the name of the machine's definition of which it is
//! the counterpart.
#![tactic(auto)]

mod cells;
mod items;
mod levels;
mod openings;

pub use cells::initial_cells;
pub use items::{
    Program, controlled_of, declaration_of, entry_of, environment, expression_count, expression_of,
    form_of, literals_of, main_procedure, next_of, policies, protected_unit_of, scope_of,
    statement_of, subprogram_of, task_unit_of,
};
pub use levels::{
    edf_low, has_edf, interrupt_priority, is_edf_level, is_edf_policy, is_robin_level,
    is_robin_policy, policy_of, range_of,
};
pub use openings::{marks_of, marks_with, opens_handled};
