//! Parts of calls, declarations and statements, as rules ask of them.
use crate::numbers::Number;
use crate::reading::{Read, Typed};
use ada_regions::{AdaType, Mode};
use ann_base::Place;
use profile_image::Text;

/// What a formal wants (6.4.1).
#[derive(Clone, Copy)]
pub enum Wanted {
    /// An expression of this type, where it is known.
    OfType(Option<AdaType>),
    /// A handler of objects of this type (D.14.1, D.14.2, D.15).
    HandlerOf(AdaType),
}

/// A formal of what is called (6.1).
#[derive(Drop)]
pub struct FormalPart {
    /// Its name in lower case.
    pub name: Text,
    /// Its mode.
    pub mode: Mode,
    /// What it wants.
    pub wanted: Wanted,
    /// Whether its actual may be left out.
    pub may_be_omitted: bool,
}

/// An actual (6.4.1).
#[derive(Drop)]
pub struct ActualPart {
    /// The name of its formal, where it is given.
    pub formal: Option<Text>,
    /// Where it begins, with that name.
    pub place: Place,
    /// What it is read as.
    pub read: Read,
}

/// For what a subtype is indicated (3.2.2).
#[derive(Clone, Copy)]
pub enum IndicationUse {
    /// An object.
    ForObject,
    /// A subtype.
    ForSubtype,
    /// A function's result.
    ForResult,
    /// The component of an array.
    ForArrayComponent,
    /// That of a controlled type.
    ForComponent,
    /// That of a protected unit, by the place of its first name.
    ForProtectedComponent(Place),
    /// A parameter.
    ForParameter {
        /// Whether it is the one `in out` parameter of a procedure of a protected unit.
        in_unit: bool,
        /// Whether it is the one `in out` parameter of a subprogram that overrides.
        overrides: bool,
    },
}

/// On what an aspect stands (13.1.1).
#[derive(Clone, Copy)]
pub enum AspectOwner {
    /// The main procedure.
    OnMain,
    /// A task.
    OnTask,
    /// A protected unit.
    OnProtected,
    /// An operation of a protected unit.
    OnOperation {
        /// Whether it is a procedure without parameters.
        is_parameterless: bool,
        /// Whether it is a body that completes a declaration.
        completes: bool,
        /// The unit.
        unit: u32,
    },
    /// Another subprogram.
    OnSubprogram,
}

/// An aspect of the profile (13.1.1).
#[derive(Clone, Copy)]
pub enum AspectName {
    /// Priority (D.1).
    Priority,
    /// Interrupt_Priority (D.3).
    InterruptPriority,
    /// CPU (D.16).
    Cpu,
    /// Relative_Deadline (D.2.6).
    RelativeDeadline,
    /// Attach_Handler (C.3.1).
    AttachHandler,
    /// Another one.
    Other,
}

/// An aspect with its value.
#[derive(Clone, Copy)]
pub struct AspectPart {
    /// Where it stands.
    pub place: Place,
    /// Which it is.
    pub name: AspectName,
    /// The type of its value; none where no value stands there.
    pub typed: Option<Typed>,
    /// The value, where it is a static Integer.
    pub number: Option<Number>,
    /// The value, where it is a static priority.
    pub level: Option<u32>,
}

/// A kind of alternative of a selective accept (9.7.1).
#[derive(Clone, Copy)]
pub enum AlternativeKind {
    /// An accept statement.
    Accept,
    /// `delay`.
    Delay,
    /// `delay until`.
    DelayUntil,
    /// `terminate`.
    Terminate,
}

/// An alternative of a selective accept.
#[derive(Clone, Copy)]
pub struct AlternativePart {
    /// Where it begins, with its guard.
    pub place: Place,
    /// Where it begins behind its guard.
    pub own_place: Place,
    /// Its kind.
    pub kind: AlternativeKind,
}

/// The values from one to another, as numbers.
#[derive(Clone, Copy)]
pub struct Span {
    /// The first one.
    pub low: Number,
    /// The last one.
    pub high: Number,
}

/// A choice of a case statement (5.4).
#[derive(Clone, Copy)]
pub struct ChoicePart {
    /// Where it begins.
    pub place: Place,
    /// Whether it is `others`.
    pub is_others: bool,
    /// Its values, where they are static and of the selector's type.
    pub values: Option<Span>,
}
