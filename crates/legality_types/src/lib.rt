//! Kinds of types, for which types each operator is defined, the types of expressions, and how what
//! breaks a rule is found (ISO/IEC 8652:2012, 3.2, 4.5). Each function has the name of the
//! definition of `ada_legality` of which it is the counterpart.
#![tactic(auto)]

mod expressions;
mod findings;
mod kinds;
mod limited;
mod operators;

pub use expressions::{
    discrete_if, fits, has_type, is_pointed, is_text, operand_type, operation_type,
    operation_type_of_one, type_of_bounds, typed_as, typed_by, typed_if,
};
pub use findings::{broken_if, broken_unless, note};
pub use kinds::{
    has_no_values, has_ranges, is_boolean, is_discrete, is_duration, is_event_timer_or_budget,
    is_integer, is_of_time, is_ordered, is_root_controlled, is_scalar, is_scalar_or_array,
    is_task_id, is_timer, same_type_if,
};
pub use limited::{is_copied_controlled, is_limited};
pub use operators::{result_of, result_of_one};
