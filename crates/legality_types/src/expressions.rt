//! The types of expressions (ISO/IEC 8652:2012, 4.4, 8.6).
ghost use Rattle.std.specs.Prelude.{◌≡◌};
ghost use Rattle.ada_legality.specs.Types.{typed_as, typed_if, typed_by, operand_type};
ghost use Rattle.ada_legality.specs.Types.{has_type, is_text, is_pointed};
ghost use Rattle.ada_legality.specs.Types.{operation_type, operation_type_of_one, fits};
ghost use Rattle.ada_legality.specs.Types.{discrete_if, type_of_low, type_of_bounds};

use crate::kinds::{is_discrete, is_duration, is_integer};
use crate::operators::{result_of, result_of_one};
use ada_legality::{Typed, same_type};
use ada_regions::{AdaType, Subtype, free_subtype};
use profile_image::{BinaryOperator, UnaryOperator};

/// An expression of this type.
pub fn typed_as(t: AdaType) -> Typed
    ensures { result ≡ typed_as t }
{
    Typed::OfSubtype(free_subtype(t))
}

/// An expression of this type, or of none.
pub fn typed_if(t: Option<AdaType>) -> Typed
    ensures { result ≡ typed_if t }
{
    match t {
        None => Typed::WithoutType,
        Some(t) => typed_as(t),
    }
}

/// An expression of this subtype, or of none.
pub fn typed_by(subtype: Option<Subtype>) -> Typed
    ensures { result ≡ typed_by subtype }
{
    match subtype {
        None => Typed::WithoutType,
        Some(subtype) => Typed::OfSubtype(subtype),
    }
}

/// The type that an operand has: a number is an Integer, one with a point a Duration.
pub fn operand_type(t: Typed) -> Option<AdaType>
    ensures { result ≡ operand_type t }
{
    match t {
        Typed::OfSubtype(subtype) => Some(subtype.of_type),
        Typed::OfWholeNumber => Some(AdaType::Integer),
        Typed::OfPointedNumber => Some(AdaType::Duration),
        _ => None,
    }
}

/// An expression that has a type.
pub fn has_type(t: Typed) -> bool
    ensures { result ≡ has_type t }
{
    match t {
        Typed::WithoutType => false,
        _ => true,
    }
}

/// A text, or texts that are joined.
pub fn is_text(t: Typed) -> bool
    ensures { result ≡ is_text t }
{
    match t {
        Typed::OfText => true,
        _ => false,
    }
}

/// A number with a point.
pub fn is_pointed(t: Typed) -> bool
    ensures { result ≡ is_pointed t }
{
    match t {
        Typed::OfPointedNumber => true,
        _ => false,
    }
}

/// The type of an operation, where its operator is defined for its operands.
#[tactic(auto, unfolding(ada_legality::specs::Types::operation_type))]
pub fn operation_type(operator: BinaryOperator, a: Typed, b: Typed) -> Option<AdaType>
    ensures { result ≡ operation_type operator a b }
{
    let a = operand_type(a)?;
    let b = operand_type(b)?;
    result_of(operator, a, b)
}

/// The type of an operation with one operand.
#[tactic(auto, unfolding(ada_legality::specs::Types::operation_type_of_one))]
pub fn operation_type_of_one(operator: UnaryOperator, a: Typed) -> Option<AdaType>
    ensures { result ≡ operation_type_of_one operator a }
{
    let a = operand_type(a)?;
    result_of_one(operator, a)
}

/// An expression of this type fits where that type is expected (8.6). One without a type fits, and
/// the value of a literal is asked apart.
#[tactic(auto, unfolding(ada_legality::specs::Types::fits))]
pub fn fits(typed: Typed, t: AdaType) -> bool
    ensures { result ≡ fits typed t }
{
    match typed {
        Typed::WithoutType => true,
        Typed::OfSubtype(subtype) => same_type(subtype.of_type, t),
        Typed::OfWholeNumber => is_integer(t),
        Typed::OfPointedNumber => is_duration(t),
        Typed::OfText => false,
        Typed::OfNull => false,
        Typed::OfHandler(_) => false,
    }
}

/// The type, where it is discrete.
pub fn discrete_if(t: AdaType) -> Option<AdaType>
    ensures { result ≡ discrete_if t }
{
    if is_discrete(t) { Some(t) } else { None }
}

/// The type that a bound gives.
#[tactic(auto, unfolding(ada_legality::specs::Types::type_of_low))]
fn type_of_low(low: Typed) -> Option<AdaType>
    ensures { result ≡ type_of_low low }
{
    match low {
        Typed::OfWholeNumber => Some(AdaType::Integer),
        Typed::OfSubtype(subtype) => discrete_if(subtype.of_type),
        _ => None,
    }
}

/// The type of the values from one bound to another: that of the low one, where it is discrete,
/// else that of the high one.
#[tactic(auto, unfolding(ada_legality::specs::Types::type_of_bounds))]
pub fn type_of_bounds(low: Typed, high: Typed) -> AdaType
    ensures { result ≡ type_of_bounds low high }
{
    match type_of_low(low) {
        Some(t) => t,
        None => match type_of_low(high) {
            Some(t) => t,
            None => AdaType::Integer,
        },
    }
}
