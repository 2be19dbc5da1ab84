//! How an expression is read (ISO/IEC 8652:2012, clause 4).
use ada_regions::{AdaType, Subtype};
use ann_base::Place;

/// The type of an expression by its parts alone, with the subtype where it has one. An expression
/// that breaks a rule has none, so that no second rule speaks of what it stands in.
#[derive(Clone, Copy)]
pub enum Typed {
    /// None.
    WithoutType,
    /// This one.
    OfSubtype(Subtype),
    /// A numeric literal without a point, or minus one, perhaps in brackets.
    OfWholeNumber,
    /// One with a point.
    OfPointedNumber,
    /// A text, or texts that are joined (A.10.7).
    OfText,
    /// `null`.
    OfNull,
    /// `Access` of a protected procedure, by its entity (3.10.2).
    OfHandler(u32),
}

/// A numeric literal with the minus before it (2.4).
#[derive(Clone, Copy)]
pub struct Literal {
    /// Where both begin.
    pub place: Place,
    /// Where the number begins.
    pub number_place: Place,
    /// Whether the number, with its minus, is a value of Integer (3.5.4).
    pub is_integer: bool,
    /// Whether the number with a minus before it would be one.
    pub is_negative_integer: bool,
    /// Whether the number is a value of Duration with at most six decimals (9.6).
    pub is_duration: bool,
}

/// What rules ask of a name that is an expression, perhaps with arguments.
#[derive(Clone, Copy)]
pub struct NameShape {
    /// It calls a function of the source (6.4).
    pub is_function: bool,
    /// It is a variable (3.3).
    pub is_variable: bool,
    /// It denotes a declared object (3.3.1).
    pub is_declared_object: bool,
    /// It denotes a component of a protected unit: of this type (9.4).
    pub component_of: Option<AdaType>,
    /// It is a component of the object around or a literal, without arguments (D.7).
    pub is_simple_barrier: bool,
}

/// The form of an expression at its top.
#[derive(Clone, Copy)]
pub enum Shape {
    /// A number.
    Number,
    /// A name without an attribute.
    Name(NameShape),
    /// Anything else.
    Other,
}

/// What an expression is read as.
#[derive(Clone, Copy)]
pub struct Read {
    /// Where it begins.
    pub place: Place,
    /// The literal that it is.
    pub literal: Option<Literal>,
    /// Its form at the top.
    pub shape: Shape,
    /// Its type.
    pub typed: Typed,
    /// The greatest length of a text or an Image, where it is short enough for a line.
    pub piece: Option<u32>,
    /// The same of these, and of what is joined of them by `&` (A.10.7).
    pub line: Option<u32>,
    /// Whether it is built as a barrier (9.5.2).
    pub built_as_barrier: bool,
}

/// For what an expression of a type is asked.
#[derive(Clone, Copy)]
pub enum Asked {
    /// A value.
    ForValue,
    /// An actual.
    ForActual,
    /// A condition.
    ForCondition,
}
