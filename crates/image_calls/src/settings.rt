//! Set_Handler of a timing event or a timer (ISO/IEC 8652:2012, D.14.1, D.15).
ghost use Rattle.ada_regions.specs.PredefinedUnits.{names_of_formals};
ghost use Rattle.ada_regions.specs.declared.predefined.Operation.TheVariants as operations;
ghost use Rattle.ada_image.specs.Made.{Made};
ghost use Rattle.ada_image.specs.ImageOfExpressions.{actuals_for};
ghost use Rattle.ada_image.specs.ImageOfProcedures.{setting_made, set_event_put, set_timer_put};

use ada_image::{Lists, Within};
use ada_tree::{Argument, Expression};
use ann_base::NoMemory;
use image_actuals::value_or_none;
use image_layout::{action_put, argument_from};
use image_settings::{handler_of, is_in_time, moment_of, setting_with, thing_of};
use profile_image::{Setting, StatementForm, StatementNo};

#[tactic(auto, unfolding(ada_image::specs::ImageOfProcedures::setting_made))]
fn setting_made(
    lists: &mut Lists,
    within: &Within<'_, '_>,
    arguments: &[Argument<Expression>],
) -> Result<Setting, NoMemory>
    ensures { Made (setting_made within.now arguments.now) lists.old lists.new result }
{
    let is_in_time = is_in_time(within, arguments);
    let value = value_or_none(lists, within, moment_of(arguments))?;
    Ok(setting_with(is_in_time, value))
}

/// Timing_Events.Set_Handler (D.15).
#[tactic(auto, unfolding(ada_image::specs::ImageOfProcedures::set_event_put, ada_image::specs::ImageOfExpressions::actuals_for, ada_image::specs::ImageOfExpressions::arguments_from))]
pub(crate) fn set_event_put(
    lists: &mut Lists,
    within: &Within<'_, '_>,
    arguments: &[Argument<Expression>],
    signs: u32,
    next: Option<StatementNo>,
) -> Result<Option<StatementNo>, NoMemory>
    ensures { Made
        (set_event_put within.now arguments.now
        (actuals_for (names_of_formals operations.SetEvent) arguments.now) signs next) lists.old
        lists.new result }
{
    let event = thing_of(within, argument_from(0, b"event", arguments));
    let handler = handler_of(within, argument_from(2, b"handler", arguments));
    let setting = setting_made(lists, within, arguments)?;
    let form = StatementForm::SetEvent {
        event,
        setting,
        handler,
    };
    action_put(lists, form, signs, next)
}

/// Timers.Set_Handler (D.14.1).
#[tactic(auto, unfolding(ada_image::specs::ImageOfProcedures::set_timer_put, ada_image::specs::ImageOfExpressions::actuals_for, ada_image::specs::ImageOfExpressions::arguments_from))]
pub(crate) fn set_timer_put(
    lists: &mut Lists,
    within: &Within<'_, '_>,
    arguments: &[Argument<Expression>],
    signs: u32,
    next: Option<StatementNo>,
) -> Result<Option<StatementNo>, NoMemory>
    ensures { Made
        (set_timer_put within.now arguments.now
        (actuals_for (names_of_formals operations.SetTimer) arguments.now) signs next) lists.old
        lists.new result }
{
    let timer = thing_of(within, argument_from(0, b"tm", arguments));
    let handler = handler_of(within, argument_from(2, b"handler", arguments));
    let setting = setting_made(lists, within, arguments)?;
    let form = StatementForm::SetTimer {
        timer,
        setting,
        handler,
    };
    action_put(lists, form, signs, next)
}
