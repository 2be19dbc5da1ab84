//! Calls of predefined procedures (ISO/IEC 8652:2012, A.10.7, D.2.5, D.2.6, D.5.1, D.14.1, D.14.2,
//! D.15).
ghost use Rattle.std.specs.Prelude.{◌≡◌};
ghost use Rattle.ada_regions.specs.PredefinedUnits.{names_of_formals};
ghost use Rattle.ada_image.specs.ImageOfExpressions.{actuals_for};
ghost use Rattle.ada_image.specs.ImageOfProcedures.{moment_of};
ghost use Rattle.ada_image.specs.BuiltStatements.{value_there, procedure_built};

use crate::actuals::{value_if_there, value_there, variable_there};
use crate::texts::text_built;
use ada_regions::{Names, Operation};
use ada_tree::{Argument, Expression};
use image_layout::argument_from;

/// The moment or the span of a Set_Handler (D.14.1, D.15).
#[tactic(auto, unfolding(ada_image::specs::ImageOfProcedures::moment_of))]
fn moment_there(arguments: &[Argument<Expression>], names: &Names<'_>) -> bool
    ensures { result ≡ value_there (moment_of arguments.now) names.now }
{
    match argument_from(1, b"at_time", arguments) {
        Some(moment) => value_there(Some(moment), names),
        None => value_there(argument_from(1, b"in_time", arguments), names),
    }
}

/// A call of a predefined procedure; a predefined function is none.
#[tactic(auto, unfolding(ada_image::specs::ImageOfExpressions::actuals_for, ada_image::specs::ImageOfExpressions::arguments_from))]
pub(crate) fn procedure_built(
    operation: Operation,
    arguments: &[Argument<Expression>],
    names: &Names<'_>,
) -> bool
    ensures { result
        ≡ procedure_built operation arguments.now
        (actuals_for (names_of_formals operation) arguments.now) names.now }
{
    match operation {
        Operation::PutLine => text_built(argument_from(0, b"item", arguments), names),
        Operation::SetEvent => moment_there(arguments, names),
        Operation::CancelEvent => {
            variable_there(argument_from(1, b"cancelled", arguments), names)
        }
        Operation::SetTimer => moment_there(arguments, names),
        Operation::CancelTimer => {
            variable_there(argument_from(1, b"cancelled", arguments), names)
        }
        Operation::AddTask => value_there(argument_from(1, b"t", arguments), names),
        Operation::RemoveTask => value_there(argument_from(1, b"t", arguments), names),
        Operation::Replenish => value_there(argument_from(1, b"to", arguments), names),
        Operation::Add => value_there(argument_from(1, b"interval", arguments), names),
        Operation::SetBudget => true,
        Operation::CancelBudget => {
            variable_there(argument_from(1, b"cancelled", arguments), names)
        }
        Operation::SetPriority => {
            value_there(argument_from(0, b"priority", arguments), names)
                && value_if_there(argument_from(1, b"t", arguments), names)
        }
        Operation::SetQuantum => {
            value_there(argument_from(0, b"pri", arguments), names)
                && value_there(argument_from(1, b"quantum", arguments), names)
        }
        Operation::SetDeadline => {
            value_there(argument_from(0, b"d", arguments), names)
                && value_if_there(argument_from(1, b"t", arguments), names)
        }
        Operation::DelayUntilAndSetDeadline => {
            value_there(argument_from(0, b"delay_until_time", arguments), names)
                && value_there(argument_from(1, b"deadline_offset", arguments), names)
        }
        _ => false,
    }
}
