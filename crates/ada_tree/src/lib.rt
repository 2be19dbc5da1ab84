//! The tree of an Ada source, as plain public data with places. Its `specs` say which tokens spell
//! a tree, and which trees are those of the grammar.
//!
//! Each `drop` that takes a part of a tree apart is written out: a derived one would be proved anew
//! in each crate, and on each way out of a function, that drops the part.
#![tactic(auto)]

mod bytes;
mod declarations;
mod expressions;
mod names;
mod operators;
mod selects;
mod statements;
mod units;

pub use bytes::Bytes;
pub use declarations::{
    Aspect, Body, Component, Constraint, Declaration, EntryDeclaration, EntryHead,
    ObjectDeclaration, OperationBody, Parameter, ProtectedBody, ProtectedDeclaration,
    ProtectedOperation, SubprogramSpecification, SubtypeDeclaration, SubtypeIndication,
    TaskDeclaration, TaskDefinition, TypeDeclaration, TypeDefinition,
};
pub use expressions::{
    Addend, Argument, AttributeDesignator, Expression, ExpressionForm, Multiplied, Operand,
    Precedence,
};
pub use names::{Identifier, Name, OneOrMore};
pub use operators::{
    AddingOperator, Attribute, HighestOperator, LogicalOperator, MultiplyingOperator,
    RelationalOperator, Sign,
};
pub use selects::{
    Alternative, AsynchronousSelect, ConditionalEntryCall, Guard, SelectAlternative, SelectForm,
    SelectStatement, SelectiveAccept, TimedEntryCall, Trigger,
};
pub use statements::{
    Accept, AcceptBody, Assignment, Block, Call, Case, CaseAlternative, Choice, Delay, Elsif, Exit,
    HandledExceptions, Handler, If, Iteration, Label, Loop, Sequence, SequenceParts, SequenceRole,
    Statement,
};
pub use units::{
    ContextClause, LibraryPackage, MAX_NESTING, MainProcedure, Package, PackageBody,
    PackageDeclaration, Pragma, Unit,
};
