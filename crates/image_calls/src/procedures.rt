//! Calls of predefined procedures (ISO/IEC 8652:2012, A.10.7, D.2.5, D.2.6, D.5.1, D.14.1, D.14.2,
//! D.15), given their arguments.
ghost use Rattle.ada_regions.specs.PredefinedUnits.{names_of_formals};
ghost use Rattle.ada_regions.specs.declared.predefined.Operation.TheVariants as operations;
ghost use Rattle.ada_image.specs.Made.{Made};
ghost use Rattle.ada_image.specs.ImageOfExpressions.{actuals_for};
ghost use Rattle.ada_image.specs.ImageOfProcedures.{procedure_put};
ghost use Rattle.ada_image.specs.ImageOfCalls.{put_line_put};

use crate::actions::{
    Budgeting, Cancelling, OfTask, OfValues, budget_put, cancel_put, task_put, values_put,
};
use crate::settings::{set_event_put, set_timer_put};
use ada_image::{Lists, Within};
use ada_regions::Operation;
use ada_tree::{Argument, Expression};
use ann_base::NoMemory;
use image_actuals::{not_built, put_line_put};
use image_layout::argument_from;
use image_settings::set_budget_put;
use profile_image::StatementNo;
use std::alloc::Global;

/// Text_IO.Put_Line (A.10.7).
#[tactic(auto, unfolding(ada_image::specs::ImageOfExpressions::actuals_for, ada_image::specs::ImageOfExpressions::arguments_from))]
fn text_put(
    alloc: Global,
    lists: &mut Lists,
    within: &Within<'_, '_>,
    arguments: &[Argument<Expression>],
    signs: u32,
    next: Option<StatementNo>,
) -> Result<Option<StatementNo>, NoMemory>
    ensures { Made
        (put_line_put within.now (actuals_for (names_of_formals operations.PutLine) arguments.now)
        signs next) lists.old lists.new result }
{
    put_line_put(
        alloc,
        lists,
        within,
        argument_from(0, b"item", arguments),
        signs,
        next,
    )
}

/// A call of a predefined procedure. What is no procedure has no image.
#[tactic(auto, unfolding(ada_image::specs::ImageOfProcedures::procedure_put, ada_image::specs::ImageOfProcedures::procedure_with))]
pub(crate) fn procedure_put(
    alloc: Global,
    lists: &mut Lists,
    within: &Within<'_, '_>,
    operation: Operation,
    arguments: &[Argument<Expression>],
    signs: u32,
    next: Option<StatementNo>,
) -> Result<Option<StatementNo>, NoMemory>
    ensures { Made (procedure_put within.now operation arguments.now signs next) lists.old lists.new
        result }
{
    match operation {
        Operation::PutLine => text_put(alloc, lists, within, arguments, signs, next),
        Operation::SetEvent => set_event_put(lists, within, arguments, signs, next),
        Operation::CancelEvent => cancel_put(
            lists,
            within,
            Cancelling::Event,
            arguments,
            signs,
            next,
        ),
        Operation::SetTimer => set_timer_put(lists, within, arguments, signs, next),
        Operation::CancelTimer => cancel_put(
            lists,
            within,
            Cancelling::Timer,
            arguments,
            signs,
            next,
        ),
        Operation::AddTask => budget_put(lists, within, Budgeting::AddTask, arguments, signs, next),
        Operation::RemoveTask => budget_put(
            lists,
            within,
            Budgeting::RemoveTask,
            arguments,
            signs,
            next,
        ),
        Operation::Replenish => budget_put(
            lists,
            within,
            Budgeting::Replenish,
            arguments,
            signs,
            next,
        ),
        Operation::Add => budget_put(lists, within, Budgeting::Add, arguments, signs, next),
        Operation::SetBudget => set_budget_put(lists, within, arguments, signs, next),
        Operation::CancelBudget => cancel_put(
            lists,
            within,
            Cancelling::Budget,
            arguments,
            signs,
            next,
        ),
        Operation::SetPriority => task_put(lists, within, OfTask::Priority, arguments, signs, next),
        Operation::SetQuantum => values_put(
            lists,
            within,
            OfValues::Quantum,
            arguments,
            signs,
            next,
        ),
        Operation::SetDeadline => task_put(lists, within, OfTask::Deadline, arguments, signs, next),
        Operation::DelayUntilAndSetDeadline => values_put(
            lists,
            within,
            OfValues::DelayUntilAndDeadline,
            arguments,
            signs,
            next,
        ),
        _ => not_built(lists, next),
    }
}
