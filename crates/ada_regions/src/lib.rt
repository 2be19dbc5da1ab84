//! What the names of a source denote (ISO/IEC 8652:2012, clause 8): the plain data of declared
//! entities, of the occurrences of names and of the table that a source gives, and, in `specs/`,
//! the definitions of regions, visibility and that table.
#![tactic(auto)]

mod entities;
mod faults;
mod occurrences;
mod parts;
mod predefined;
mod table;
mod types;

pub use entities::{
    ComponentOwner, Denoted, Entity, EntityKind, Sought, UnitKind, entry_number, is_entry,
    subtype_of_kind, type_of_kind,
};
pub use faults::NameFault;
pub use occurrences::{Occurrence, Occurrences};
pub use parts::{AspectsOf, ExpressionOf};
pub use predefined::{
    DEFAULT_PRIORITY, DEFAULT_WIDE_PRIORITY, LAST_DURATION, LAST_INTEGER, LAST_PRIORITY,
    LAST_WIDE_PRIORITY, Operation, Predefined, PredefinedUnit,
};
pub use table::{
    Binding, Enclosure, Frame, Names, NumberedControlled, NumberedDeclaration, NumberedEntry,
    NumberedEntryBody, NumberedProtected, NumberedScope, NumberedSubprogram, NumberedTask,
    PackageContext, Sort, UseClause,
};
pub use types::{
    AdaType, ArrayType, Formal, Mode, Subtype, free_subtype, is_array_type, is_controlled_type,
    is_protected_type, is_span_type, is_task_type,
};
