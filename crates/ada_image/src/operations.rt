//! The type that a predefined function gives.
ghost use Rattle.std.specs.Prelude.{◌≡◌, Some};
ghost use Rattle.ada_image.specs.TypesOfExpressions.{type_of_operation};

use ada_regions::{AdaType, Operation};

/// The type of a predefined function's result; a procedure has none.
pub fn type_of_operation(operation: Operation) -> Option<AdaType>
    ensures { result ≡ type_of_operation operation }
{
    match operation {
        Operation::Clock => Some(AdaType::Time),
        Operation::Microseconds => Some(AdaType::TimeSpan),
        Operation::Milliseconds => Some(AdaType::TimeSpan),
        Operation::Seconds => Some(AdaType::TimeSpan),
        Operation::Minutes => Some(AdaType::TimeSpan),
        Operation::ToDuration => Some(AdaType::Duration),
        Operation::ToTimeSpan => Some(AdaType::TimeSpan),
        Operation::TimeOfEvent => Some(AdaType::Time),
        Operation::ExecutionClock => Some(AdaType::CpuTime),
        Operation::TimeRemaining => Some(AdaType::TimeSpan),
        Operation::BudgetHasExpired => Some(AdaType::Boolean),
        Operation::BudgetRemaining => Some(AdaType::TimeSpan),
        Operation::GetPriority => Some(AdaType::Integer),
        Operation::CurrentTask => Some(AdaType::TaskId),
        Operation::GetDeadline => Some(AdaType::Time),
        Operation::PortValue => Some(AdaType::Integer),
        _ => None,
    }
}
