//! Calls of predefined functions (ISO/IEC 8652:2012, C.7.1, D.2.6, D.5.1, D.8, D.14, D.15).
ghost use Rattle.std.specs.Prelude.{◌≡◌, option_copied};
ghost use Rattle.ada_regions.specs.PredefinedUnits.{names_of_formals};
ghost use Rattle.ada_image.specs.ImageOfExpressions.{actuals_for};
ghost use Rattle.ada_image.specs.BuiltExpressions.{is_there, is_built_if_there, operation_built};

use crate::forms::HasForm;
use ada_regions::{Names, Operation};
use ada_tree::Argument;
use image_layout::argument_from;

/// An actual that has to be there.
fn is_there<E: HasForm>(actual: Option<&E>, names: &Names<'_>) -> bool
    ensures { result ≡ is_there E.built (option_copied actual.entry) names.now }
{
    match actual {
        None => false,
        Some(actual) => actual.is_built(names),
    }
}

/// An actual or an index that may be missing.
pub(crate) fn is_built_if_there<E: HasForm>(actual: Option<&E>, names: &Names<'_>) -> bool
    ensures { result ≡ is_built_if_there E.built (option_copied actual.entry) names.now }
{
    match actual {
        None => true,
        Some(actual) => actual.is_built(names),
    }
}

/// A call of a predefined function; a predefined procedure is no value.
#[tactic(auto, unfolding(ada_image::specs::ImageOfExpressions::actuals_for, ada_image::specs::ImageOfExpressions::arguments_from))]
pub(crate) fn operation_built<E: HasForm>(
    operation: Operation,
    arguments: &[Argument<E>],
    names: &Names<'_>,
) -> bool
    ensures { result
        ≡ operation_built E.built operation
        (actuals_for (names_of_formals operation) arguments.now) names.now }
{
    match operation {
        Operation::Clock => true,
        Operation::Microseconds => is_there(argument_from(0, b"us", arguments), names),
        Operation::Milliseconds => is_there(argument_from(0, b"ms", arguments), names),
        Operation::Seconds => is_there(argument_from(0, b"s", arguments), names),
        Operation::Minutes => is_there(argument_from(0, b"m", arguments), names),
        Operation::ToDuration => is_there(argument_from(0, b"ts", arguments), names),
        Operation::ToTimeSpan => is_there(argument_from(0, b"d", arguments), names),
        Operation::TimeOfEvent => true,
        Operation::ExecutionClock => { is_built_if_there(argument_from(0, b"t", arguments), names) }
        Operation::TimeRemaining => true,
        Operation::BudgetHasExpired => true,
        Operation::BudgetRemaining => true,
        Operation::GetPriority => is_built_if_there(argument_from(0, b"t", arguments), names),
        Operation::CurrentTask => true,
        Operation::GetDeadline => is_built_if_there(argument_from(0, b"t", arguments), names),
        Operation::PortValue => is_there(argument_from(0, b"n", arguments), names),
        _ => false,
    }
}
