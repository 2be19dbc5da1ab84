//! For which types each operator is defined (ISO/IEC 8652:2012, 4.5, D.8, D.14).
ghost use Rattle.std.specs.Prelude.{◌≡◌};
ghost use Rattle.ada_legality.specs.Types.{sum_of, difference_of, product_of, quotient_of};
ghost use Rattle.ada_legality.specs.Types.{remainder_of, boolean_if, logical_of, equality_of};
ghost use Rattle.ada_legality.specs.Types.{ordering_of, result_of, result_of_one};

use crate::kinds::{is_boolean, is_duration, is_integer, is_ordered, is_scalar};
use ada_legality::same_type;
use ada_regions::{AdaType, is_span_type};
use profile_image::{BinaryOperator, UnaryOperator};

/// A sum.
#[tactic(auto, unfolding(ada_legality::specs::Types::sum_of))]
fn sum_of(a: AdaType, b: AdaType) -> Option<AdaType>
    ensures { result ≡ sum_of a b }
{
    match (a, b) {
        (AdaType::Integer, AdaType::Integer) => Some(AdaType::Integer),
        (AdaType::Duration, AdaType::Duration) => Some(AdaType::Duration),
        (AdaType::TimeSpan, AdaType::TimeSpan) => Some(AdaType::TimeSpan),
        (AdaType::Time, AdaType::TimeSpan) => Some(AdaType::Time),
        (AdaType::TimeSpan, AdaType::Time) => Some(AdaType::Time),
        (AdaType::CpuTime, AdaType::TimeSpan) => Some(AdaType::CpuTime),
        (AdaType::TimeSpan, AdaType::CpuTime) => Some(AdaType::CpuTime),
        _ => None,
    }
}

/// A difference.
#[tactic(auto, unfolding(ada_legality::specs::Types::difference_of))]
fn difference_of(a: AdaType, b: AdaType) -> Option<AdaType>
    ensures { result ≡ difference_of a b }
{
    match (a, b) {
        (AdaType::Integer, AdaType::Integer) => Some(AdaType::Integer),
        (AdaType::Duration, AdaType::Duration) => Some(AdaType::Duration),
        (AdaType::TimeSpan, AdaType::TimeSpan) => Some(AdaType::TimeSpan),
        (AdaType::Time, AdaType::TimeSpan) => Some(AdaType::Time),
        (AdaType::CpuTime, AdaType::TimeSpan) => Some(AdaType::CpuTime),
        (AdaType::Time, AdaType::Time) => Some(AdaType::TimeSpan),
        (AdaType::CpuTime, AdaType::CpuTime) => Some(AdaType::TimeSpan),
        _ => None,
    }
}

/// A product.
#[tactic(auto, unfolding(ada_legality::specs::Types::product_of))]
fn product_of(a: AdaType, b: AdaType) -> Option<AdaType>
    ensures { result ≡ product_of a b }
{
    match (a, b) {
        (AdaType::Integer, AdaType::Integer) => Some(AdaType::Integer),
        (AdaType::Duration, AdaType::Integer) => Some(AdaType::Duration),
        (AdaType::Integer, AdaType::Duration) => Some(AdaType::Duration),
        (AdaType::TimeSpan, AdaType::Integer) => Some(AdaType::TimeSpan),
        (AdaType::Integer, AdaType::TimeSpan) => Some(AdaType::TimeSpan),
        _ => None,
    }
}

/// A quotient.
#[tactic(auto, unfolding(ada_legality::specs::Types::quotient_of))]
fn quotient_of(a: AdaType, b: AdaType) -> Option<AdaType>
    ensures { result ≡ quotient_of a b }
{
    match (a, b) {
        (AdaType::Integer, AdaType::Integer) => Some(AdaType::Integer),
        (AdaType::Duration, AdaType::Integer) => Some(AdaType::Duration),
        (AdaType::TimeSpan, AdaType::Integer) => Some(AdaType::TimeSpan),
        _ => None,
    }
}

/// `mod` and `rem`.
#[tactic(auto, unfolding(ada_legality::specs::Types::remainder_of))]
fn remainder_of(a: AdaType, b: AdaType) -> Option<AdaType>
    ensures { result ≡ remainder_of a b }
{
    match (a, b) {
        (AdaType::Integer, AdaType::Integer) => Some(AdaType::Integer),
        _ => None,
    }
}

/// Boolean, where the operator is defined.
fn boolean_if(defined: bool) -> Option<AdaType>
    ensures { result ≡ boolean_if defined }
{
    if defined {
        Some(AdaType::Boolean)
    } else {
        None
    }
}

fn logical_of(a: AdaType, b: AdaType) -> Option<AdaType>
    ensures { result ≡ logical_of a b }
{
    boolean_if(is_boolean(a) && is_boolean(b))
}

fn equality_of(a: AdaType, b: AdaType) -> Option<AdaType>
    ensures { result ≡ equality_of a b }
{
    boolean_if(same_type(a, b) && is_scalar(a))
}

fn ordering_of(a: AdaType, b: AdaType) -> Option<AdaType>
    ensures { result ≡ ordering_of a b }
{
    boolean_if(same_type(a, b) && is_ordered(a))
}

/// The type of an operator's result, where it is defined for operands of these types.
#[tactic(auto, unfolding(ada_legality::specs::Types::result_of))]
pub fn result_of(operator: BinaryOperator, a: AdaType, b: AdaType) -> Option<AdaType>
    ensures { result ≡ result_of operator a b }
{
    match operator {
        BinaryOperator::And => logical_of(a, b),
        BinaryOperator::Or => logical_of(a, b),
        BinaryOperator::Xor => logical_of(a, b),
        BinaryOperator::AndThen => logical_of(a, b),
        BinaryOperator::OrElse => logical_of(a, b),
        BinaryOperator::Equal => equality_of(a, b),
        BinaryOperator::NotEqual => equality_of(a, b),
        BinaryOperator::Less => ordering_of(a, b),
        BinaryOperator::LessOrEqual => ordering_of(a, b),
        BinaryOperator::Greater => ordering_of(a, b),
        BinaryOperator::GreaterOrEqual => ordering_of(a, b),
        BinaryOperator::Plus => sum_of(a, b),
        BinaryOperator::Minus => difference_of(a, b),
        BinaryOperator::Times => product_of(a, b),
        BinaryOperator::Divide => quotient_of(a, b),
        BinaryOperator::Mod => remainder_of(a, b),
        BinaryOperator::Rem => remainder_of(a, b),
    }
}

/// The type of the result of an operator with one operand, where it is defined for it.
#[tactic(auto, unfolding(ada_legality::specs::Types::result_of_one))]
pub fn result_of_one(operator: UnaryOperator, t: AdaType) -> Option<AdaType>
    ensures { result ≡ result_of_one operator t }
{
    match operator {
        UnaryOperator::Plus => (is_integer(t) || is_duration(t)).then_some(t),
        UnaryOperator::Minus => {
            (is_integer(t) || (is_duration(t) || is_span_type(t))).then_some(t)
        }
        UnaryOperator::Abs => (is_integer(t) || is_duration(t)).then_some(t),
        UnaryOperator::Not => is_boolean(t).then_some(t),
    }
}
