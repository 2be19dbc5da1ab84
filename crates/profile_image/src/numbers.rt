//! The numbers by which the items of an image are named: each counts the items of one list of the
//! image from 0.

/// A declaration.
#[derive(Clone, Copy)]
pub struct DeclNo(pub u32);

/// An expression.
#[derive(Clone, Copy)]
pub struct ExprNo(pub u32);

/// A statement, or another action that the text gives.
#[derive(Clone, Copy, PartialEq, Eq)]
pub struct StatementNo(pub u32);

/// A scope of the text: a block, a body, an accept, or the environment's.
#[derive(Clone, Copy)]
pub struct ScopeNo(pub u32);

/// A subprogram.
#[derive(Clone, Copy)]
pub struct SubprogramNo(pub u32);

/// A task unit: a task type, or the type of a single task.
#[derive(Clone, Copy)]
pub struct TaskUnitNo(pub u32);

/// A protected unit: a protected type, or the type of a single protected object.
#[derive(Clone, Copy)]
pub struct ProtectedUnitNo(pub u32);

/// An entry of a task unit or of a protected unit.
#[derive(Clone, Copy)]
pub struct EntryNo(pub u32);

/// A controlled type.
#[derive(Clone, Copy)]
pub struct ControlledNo(pub u32);

/// An enumeration type.
#[derive(Clone, Copy)]
pub struct EnumerationNo(pub u32);
