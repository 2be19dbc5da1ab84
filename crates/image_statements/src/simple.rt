//! Delays, returns and exits (ISO/IEC 8652:2012, 9.6, 6.5, 5.7).
ghost use Rattle.std.specs.Prelude.{◌≡◌, option_copied, option_map};
ghost use Rattle.std.specs.List.{find};
ghost use Rattle.ada_image.specs.Made.{Made};
ghost use Rattle.ada_image.specs.ImageOfStatements.{delay_form, delay_put, value_returned};
ghost use Rattle.ada_image.specs.ImageOfStatements.{return_put, has_label, loop_left};
ghost use Rattle.ada_image.specs.ImageOfStatements.{loop_statement, exit_put};
ghost use Rattle.ada_image.specs.ImageOfExpressions.{optional_value};
ghost use Rattle.image_actuals.specs.Shown.{call_shown};

use ada_entities::entity_denoted;
use ada_image::{Lists, OpenLoop, Within};
use ada_tree::{Delay, Exit, Expression, Identifier};
use ann_base::NoMemory;
use image_actuals::{FunctionCall, function_call, function_call_put};
use image_expressions::{expression_made, optional_value};
use image_layout::action_put;
use image_signs::{signs_if, signs_in};
use profile_image::{Destination, ExprNo, StatementForm, StatementNo, SubprogramNo};
use std::alloc::Global;

fn delay_form(until: bool, value: ExprNo) -> StatementForm
    ensures { result ≡ delay_form until value }
{
    if until {
        StatementForm::DelayUntil(value)
    } else {
        StatementForm::Delay(value)
    }
}

/// A delay statement (9.6).
#[tactic(auto, unfolding(ada_image::specs::ImageOfStatements::delay_put))]
pub fn delay_put(
    lists: &mut Lists,
    within: &Within<'_, '_>,
    delay: &Delay,
    next: Option<StatementNo>,
) -> Result<Option<StatementNo>, NoMemory>
    ensures { Made (delay_put within.now delay.now next) lists.old lists.new result }
{
    let signs = signs_in(within, &delay.value)?;
    let value = expression_made(lists, &delay.value, within)?;
    action_put(lists, delay_form(delay.until, value), signs, next)
}

/// A return of a function's value, or of the result of a function that is called.
#[tactic(auto, unfolding(ada_image::specs::ImageOfStatements::value_returned))]
fn value_returned(
    alloc: Global,
    lists: &mut Lists,
    within: &Within<'_, '_>,
    function: SubprogramNo,
    expression: &Expression,
    call: &Option<FunctionCall<'_>>,
    next: Option<StatementNo>,
) -> Result<Option<StatementNo>, NoMemory>
    ensures { Made
        (value_returned within.now function expression.now (option_map call_shown call.now) next)
        lists.old lists.new result }
{
    let signs = signs_in(within, expression)?;
    match call {
        None => {
            let value = expression_made(lists, expression, within)?;
            action_put(
                lists,
                StatementForm::ReturnValue { function, value },
                signs,
                next,
            )
        }
        Some(call) => {
            let destination = Destination::Return(function);
            function_call_put(alloc, lists, within, call, destination, signs, next)
        }
    }
}

/// A return statement (6.5).
#[tactic(auto, unfolding(ada_image::specs::ImageOfStatements::return_put))]
pub fn return_put(
    alloc: Global,
    lists: &mut Lists,
    within: &Within<'_, '_>,
    value: &Option<Expression>,
    next: Option<StatementNo>,
) -> Result<Option<StatementNo>, NoMemory>
    ensures { Made (return_put within.now value.now next) lists.old lists.new result }
{
    match value {
        None => action_put(lists, StatementForm::Return, 0, next),
        Some(value) => {
            let function = within.function.unwrap_or(SubprogramNo(0));
            let call = function_call(within, value);
            value_returned(alloc, lists, within, function, value, &call, next)
        }
    }
}

/// Whether it is the loop with this label.
#[tactic(auto, unfolding(ada_image::specs::ImageOfStatements::has_label))]
fn has_label(entity: Option<u32>, around: OpenLoop) -> bool
    ensures { result ≡ has_label entity around }
{
    match (entity, around.label) {
        (None, _) => false,
        (Some(_), None) => false,
        (Some(entity), Some(label)) => label == entity,
    }
}

/// The innermost of the loops with this label.
fn loop_with_label<'w>(within: &'w Within<'_, '_>, entity: Option<u32>) -> Option<&'w OpenLoop>
    ensures { option_copied result ≡ find (has_label entity) within.now.loops }
{
    within
        .loops
        .get()
        .iter()
        .find(|around| has_label(entity, **around))
}

/// The loop that an exit leaves: the innermost one, or the one that it names (5.7).
#[tactic(auto, using(crate::proofs::Loops::innermost_is_first), unfolding(ada_image::specs::ImageOfStatements::loop_left))]
fn loop_left<'w>(within: &'w Within<'_, '_>, name: &Option<Identifier>) -> Option<&'w OpenLoop>
    ensures { option_copied result ≡ loop_left within.now name.now }
{
    match name {
        None => within.loops.get().front(),
        Some(name) => loop_with_label(within, entity_denoted(within.names.get(), name.place)),
    }
}

fn loop_statement(left: Option<&OpenLoop>) -> StatementNo
    ensures { result ≡ loop_statement (option_copied left.entry) }
{
    match left {
        None => StatementNo(0),
        Some(left) => left.statement,
    }
}

/// An exit statement (5.7).
#[tactic(auto, unfolding(ada_image::specs::ImageOfStatements::exit_put))]
pub fn exit_put(
    lists: &mut Lists,
    within: &Within<'_, '_>,
    exit: &Exit,
    next: Option<StatementNo>,
) -> Result<Option<StatementNo>, NoMemory>
    ensures { Made (exit_put within.now exit.now next) lists.old lists.new result }
{
    let signs = signs_if(within, &exit.condition)?;
    let of_loop = loop_statement(loop_left(within, &exit.loop_name));
    let condition = optional_value(lists, within, exit.condition.as_ref())?;
    action_put(
        lists,
        StatementForm::Exit { condition, of_loop },
        signs,
        next,
    )
}
