//! Predefined functions, given their arguments (ISO/IEC 8652:2012, C.7.1, D.2.6, D.5.1, D.8, D.14,
//! D.15).
ghost use Rattle.std.specs.Prelude.{◌≡◌, option_copied, option_map};
ghost use Rattle.ada_regions.specs.PredefinedUnits.{names_of_formals};
ghost use Rattle.ada_image.specs.Made.{Made};
ghost use Rattle.ada_image.specs.ImageOfExpressions.{actuals_for, image_or_none};
ghost use Rattle.ada_image.specs.ImageOfExpressions.{optional_made, span_made, name_in};
ghost use Rattle.ada_image.specs.ImageOfExpressions.{thing_in, images_for, function_made};

use crate::images::Imaged;
use ada_image::{Lists, Within};
use ada_regions::Operation;
use ada_tree::Argument;
use ann_base::{Moment, NoMemory};
use image_layout::{argument_from, value_put};
use image_names::{no_value, thing_in};
use profile_image::{DeclNo, ExprNo, Expression};

/// An actual; where it is missing, what no accepted source has there.
#[tactic(auto, unfolding(ada_image::specs::ImageOfExpressions::image_or_none))]
fn image_or_none<E: Imaged>(
    lists: &mut Lists,
    actual: Option<&E>,
    within: &Within<'_, '_>,
) -> Result<ExprNo, NoMemory>
    ensures { Made (image_or_none (option_map E.image (option_copied actual.entry)) within.now)
        lists.old lists.new result }
{
    match actual {
        None => no_value(lists),
        Some(actual) => actual.made(lists, within),
    }
}

/// An actual that may be missing.
#[tactic(auto, unfolding(ada_image::specs::ImageOfExpressions::optional_made))]
fn optional_made<E: Imaged>(
    lists: &mut Lists,
    actual: Option<&E>,
    within: &Within<'_, '_>,
) -> Result<Option<ExprNo>, NoMemory>
    ensures { Made (optional_made (option_map E.image (option_copied actual.entry)) within.now)
        lists.old lists.new result }
{
    match actual {
        None => Ok(None),
        Some(actual) => Ok(Some(actual.made(lists, within)?)),
    }
}

/// A span of some units of this many ticks (D.8).
#[tactic(auto, unfolding(ada_image::specs::ImageOfExpressions::span_made))]
fn span_made<E: Imaged>(
    lists: &mut Lists,
    ticks: Moment,
    actual: Option<&E>,
    within: &Within<'_, '_>,
) -> Result<ExprNo, NoMemory>
    ensures { Made (span_made ticks (option_map E.image (option_copied actual.entry)) within.now)
        lists.old lists.new result }
{
    let count = image_or_none(lists, actual, within)?;
    value_put(lists, Expression::Span { ticks, count })
}

/// The event, timer or budget that an actual names.
fn thing_of_actual<E: Imaged>(within: &Within<'_, '_>, actual: Option<&E>) -> DeclNo
    ensures { result
        ≡ thing_in within.now (name_in (option_map E.image (option_copied actual.entry))) }
{
    match actual {
        None => thing_in(within, None),
        Some(actual) => thing_in(within, actual.name()),
    }
}

/// A call of a predefined function.
#[tactic(auto, unfolding(ada_image::specs::ImageOfExpressions::function_made, ada_image::specs::ImageOfExpressions::same_ticks_made, ada_image::specs::ImageOfExpressions::of_task_made, ada_image::specs::ImageOfExpressions::of_thing_made, ada_image::specs::ImageOfExpressions::port_made, ada_image::specs::ImageOfExpressions::actuals_for, ada_image::specs::ImageOfExpressions::arguments_from))]
pub(crate) fn function_made<E: Imaged>(
    lists: &mut Lists,
    operation: Operation,
    arguments: &[Argument<E>],
    within: &Within<'_, '_>,
) -> Result<ExprNo, NoMemory>
    ensures { Made
        (function_made operation
        (images_for E.image (actuals_for (names_of_formals operation) arguments.now)) within.now)
        lists.old lists.new result }
{
    match operation {
        Operation::Clock => value_put(lists, Expression::Clock),
        Operation::Microseconds => {
            span_made(lists, 1, argument_from(0, b"us", arguments), within)
        }
        Operation::Milliseconds => {
            span_made(lists, 1_000, argument_from(0, b"ms", arguments), within)
        }
        Operation::Seconds => {
            span_made(lists, 1_000_000, argument_from(0, b"s", arguments), within)
        }
        Operation::Minutes => {
            span_made(lists, 60_000_000, argument_from(0, b"m", arguments), within)
        }
        Operation::ToDuration => {
            let span = image_or_none(lists, argument_from(0, b"ts", arguments), within)?;
            value_put(lists, Expression::SameTicks(span))
        }
        Operation::ToTimeSpan => {
            let duration = image_or_none(lists, argument_from(0, b"d", arguments), within)?;
            value_put(lists, Expression::SameTicks(duration))
        }
        Operation::TimeOfEvent => {
            let event = thing_of_actual(within, argument_from(0, b"event", arguments));
            value_put(lists, Expression::TimeOfEvent(event))
        }
        Operation::ExecutionClock => {
            let task = optional_made(lists, argument_from(0, b"t", arguments), within)?;
            value_put(lists, Expression::ExecutionTime(task))
        }
        Operation::TimeRemaining => {
            let timer = thing_of_actual(within, argument_from(0, b"tm", arguments));
            value_put(lists, Expression::TimeRemaining(timer))
        }
        Operation::BudgetHasExpired => {
            let budget = thing_of_actual(within, argument_from(0, b"gb", arguments));
            value_put(lists, Expression::BudgetHasExpired(budget))
        }
        Operation::BudgetRemaining => {
            let budget = thing_of_actual(within, argument_from(0, b"gb", arguments));
            value_put(lists, Expression::BudgetRemaining(budget))
        }
        Operation::GetPriority => {
            let task = optional_made(lists, argument_from(0, b"t", arguments), within)?;
            value_put(lists, Expression::Priority(task))
        }
        Operation::CurrentTask => value_put(lists, Expression::CurrentTask),
        Operation::GetDeadline => {
            let task = optional_made(lists, argument_from(0, b"t", arguments), within)?;
            value_put(lists, Expression::Deadline(task))
        }
        Operation::PortValue => {
            let port = image_or_none(lists, argument_from(0, b"n", arguments), within)?;
            value_put(lists, Expression::PortValue(port))
        }
        _ => no_value(lists),
    }
}
