//! Legality (ISO/IEC 8652:2012, 1.1.2): the rules that a source of the profile has to keep, as
//! definitions in `specs/`, with the plain data of rules, faults, and what is known and found on
//! the way through a source.
#![tactic(auto)]

mod adding;
mod faults;
mod findings;
mod limits;
mod numbers;
mod parts;
mod reading;
mod rules;
mod standing;
mod types;

pub use adding::{add_aspect, add_choice, add_finding, add_values, list_finding};
pub use faults::Fault;
pub use findings::{Attached, BodyKind, Ceiling, DeadlineRange, Finding, ProtectedObject};
pub use limits::{
    LONGEST_NAME, MOST_ALTERNATIVES, MOST_COMPONENTS, MOST_ENTRIES, MOST_PACKAGE_CELLS,
    MOST_PARAMETERS,
};
pub use numbers::Number;
pub use parts::{
    ActualPart, AlternativeKind, AlternativePart, AspectName, AspectOwner, AspectPart, ChoicePart,
    FormalPart, IndicationUse, Span, Wanted,
};
pub use reading::{Asked, Literal, NameShape, Read, Shape, Typed};
pub use rules::{Rule, number_of_rule};
pub use standing::{
    Around, InForce, Known, LoopParameter, OccurrencesOf, SubprogramAround, UnitAround,
};
pub use types::same_type;
