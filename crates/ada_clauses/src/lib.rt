//! Reading declarations that are no bodies, and the context clauses of library units.
#![tactic(auto)]

mod contexts;
mod declarations;
mod specifications;

pub use contexts::context_clauses;
pub use declarations::{named_declaration, subtype_declaration, type_declaration, use_clause};
pub use specifications::{
    aspects, begins_operation, begins_specification, entry_declaration, entry_head,
    protected_declaration, protected_operation, specification, task_declaration,
};
