//! The types that operators, attributes and predefined names give (ISO/IEC 8652:2012, 4.5, 4.1.4,
//! D.8).
ghost use Rattle.std.specs.Prelude.{◌≡◌, Some};
ghost use Rattle.ada_regions.specs.declared.types.AdaType.TheVariants as types;
ghost use Rattle.ada_image.specs.TypesOfExpressions.{type_behind_operator, type_of_attribute};
ghost use Rattle.ada_image.specs.TypesOfExpressions.{type_of_item, type_of_product, type_of_sum};

use ada_image::type_of_operation;
use ada_regions::{AdaType, Predefined};
use ada_tree::{AddingOperator, Attribute, HighestOperator};

/// The type of what a predefined name denotes.
#[tactic(auto, unfolding(ada_image::specs::TypesOfExpressions::type_of_item))]
pub(crate) fn type_of_item(item: Predefined) -> Option<AdaType>
    ensures { result ≡ type_of_item item }
{
    match item {
        Predefined::Mark(_) => None,
        Predefined::Constant { of_type, .. } => Some(of_type),
        Predefined::Truth(_) => Some(AdaType::Boolean),
        Predefined::Exception(_) => None,
        Predefined::Operation(operation) => type_of_operation(operation),
    }
}

/// A span and what stands behind the operator.
#[tactic(auto, unfolding(ada_image::specs::TypesOfExpressions::type_of_sum))]
fn type_of_span_and(operator: AddingOperator, right: Option<AdaType>) -> Option<AdaType>
    ensures { result ≡ type_of_sum (Some types.TimeSpan) operator right }
{
    match right {
        Some(AdaType::Time) => Some(AdaType::Time),
        Some(AdaType::CpuTime) => Some(AdaType::CpuTime),
        _ => Some(AdaType::TimeSpan),
    }
}

/// A moment and what stands behind the operator.
#[tactic(auto, unfolding(ada_image::specs::TypesOfExpressions::type_of_sum))]
fn type_of_time_and(operator: AddingOperator, right: Option<AdaType>) -> Option<AdaType>
    ensures { result ≡ type_of_sum (Some types.Time) operator right }
{
    match operator {
        AddingOperator::Plus => Some(AdaType::Time),
        AddingOperator::Minus => match right {
            Some(AdaType::Time) => Some(AdaType::TimeSpan),
            _ => Some(AdaType::Time),
        },
        AddingOperator::Concatenation => Some(AdaType::Time),
    }
}

/// A moment of execution time and what stands behind the operator.
#[tactic(auto, unfolding(ada_image::specs::TypesOfExpressions::type_of_sum))]
fn type_of_cpu_time_and(operator: AddingOperator, right: Option<AdaType>) -> Option<AdaType>
    ensures { result ≡ type_of_sum (Some types.CpuTime) operator right }
{
    match operator {
        AddingOperator::Plus => Some(AdaType::CpuTime),
        AddingOperator::Minus => match right {
            Some(AdaType::CpuTime) => Some(AdaType::TimeSpan),
            _ => Some(AdaType::CpuTime),
        },
        AddingOperator::Concatenation => Some(AdaType::CpuTime),
    }
}

/// The type of a sum or a difference: a moment and a span make a moment, two moments a span.
#[tactic(auto, unfolding(ada_image::specs::TypesOfExpressions::type_of_sum))]
pub(crate) fn type_of_sum(
    left: Option<AdaType>,
    operator: AddingOperator,
    right: Option<AdaType>,
) -> Option<AdaType>
    ensures { result ≡ type_of_sum left operator right }
{
    match left {
        Some(AdaType::TimeSpan) => type_of_span_and(operator, right),
        Some(AdaType::Time) => type_of_time_and(operator, right),
        Some(AdaType::CpuTime) => type_of_cpu_time_and(operator, right),
        _ => left,
    }
}

/// The type of a product or a quotient: an Integer times something is of the other's type.
#[tactic(auto, unfolding(ada_image::specs::TypesOfExpressions::type_of_product))]
pub(crate) fn type_of_product(left: Option<AdaType>, right: Option<AdaType>) -> Option<AdaType>
    ensures { result ≡ type_of_product left right }
{
    match left {
        Some(AdaType::Integer) => right,
        _ => left,
    }
}

/// The type behind `abs` or `not`.
pub(crate) fn type_behind_operator(
    operator: HighestOperator,
    operand: Option<AdaType>,
) -> Option<AdaType>
    ensures { result ≡ type_behind_operator operator operand }
{
    match operator {
        HighestOperator::Absolute => operand,
        HighestOperator::Not => Some(AdaType::Boolean),
    }
}

/// The type of an attribute's value.
pub(crate) fn type_of_attribute(attribute: Attribute) -> Option<AdaType>
    ensures { result ≡ type_of_attribute attribute }
{
    match attribute {
        Attribute::First => Some(AdaType::Integer),
        Attribute::Last => Some(AdaType::Integer),
        Attribute::Image => None,
        Attribute::Count => Some(AdaType::Integer),
        Attribute::Identity => Some(AdaType::TaskId),
        Attribute::Access => None,
    }
}
