//! The entities and kinds that names stand for, and what stands around a construct, as the rules of
//! legality ask it (ISO/IEC 8652:2012, 3.1, 3.3, 6.1, 8.6, 9.5.2, 11.1). Each function has the name
//! of the definition of `ada_legality` of which it is the counterpart.
#![tactic(auto)]

mod around;
mod entities;
mod exceptions;
mod kinds;
mod named;
mod predefined;
mod standing;

pub use around::{
    body_around, in_own_task, innermost_unit, is_accept, is_body, is_entity, is_type, is_type_in,
    same_entities, sequence_around, single_object, stands_in_type, stands_in_unit, type_around,
    unit_around,
};
pub use entities::{
    denoted_kind, entity_of_name, is_library_object, kind_of_identifier, kind_of_name, names_entry,
    subtype_of_entity,
};
pub use exceptions::names_exception;
pub use kinds::{
    formals_of_subprogram, is_function_kind, is_literal_kind, is_object_kind, is_procedure_kind,
    is_variable_kind, protected_procedure, task_type_of_entry, unit_type_of_entry,
};
pub use named::same_named;
pub use predefined::{
    constant_type, is_function_operation, is_predefined_constant, operation_denoted, operation_of,
    type_of_constant,
};
pub use standing::{copy_of, with_around, with_loop};
