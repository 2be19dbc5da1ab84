//! Actions of predefined procedures that differ in nothing but in what they make of like arguments
//! (ISO/IEC 8652:2012, D.2.5, D.2.6, D.5.1, D.14.1, D.14.2, D.15).
ghost use Rattle.std.specs.Prelude.{◌≡◌, option_copied};
ghost use Rattle.ada_image.specs.Made.{Made};
ghost use Rattle.ada_image.specs.ImageOfExpressions.{actuals_for, optional_value};
ghost use Rattle.ada_image.specs.ImageOfProcedures.{variable_of, cancel_put};
ghost use Rattle.ada_image.specs.ImageOfProcedures.{budget_put, task_put, values_put};
ghost use Rattle.image_calls.specs.Actions.{cancel_action, cancelled_formal, cancel_formals};
ghost use Rattle.image_calls.specs.Actions.{budget_action, budgeted_formal, budget_formals};
ghost use Rattle.image_calls.specs.Actions.{task_action, set_formal, task_formals, values_action};
ghost use Rattle.image_calls.specs.Actions.{first_formal, second_formal, values_formals};

use ada_image::{Lists, Within};
use ada_tree::{Argument, Expression};
use ann_base::NoMemory;
use image_actuals::{no_variable, value_or_none, variable_in};
use image_expressions::optional_value;
use image_layout::{action_put, argument_from};
use image_settings::thing_of;
use profile_image::{DeclNo, ExprNo, StatementForm, StatementNo, VariableName};

#[tactic(auto, unfolding(ada_image::specs::ImageOfProcedures::variable_of))]
fn variable_of(
    lists: &mut Lists,
    within: &Within<'_, '_>,
    actual: Option<&Expression>,
) -> Result<VariableName, NoMemory>
    ensures { Made (variable_of within.now (option_copied actual.entry)) lists.old lists.new
        result }
{
    match actual {
        None => Ok(no_variable()),
        Some(actual) => variable_in(lists, within, actual),
    }
}

/// Whose handler Cancel_Handler takes away.
#[derive(Clone, Copy)]
pub(crate) enum Cancelling {
    /// A timing event's (D.15).
    Event,
    /// A timer's (D.14.1).
    Timer,
    /// A group budget's (D.14.2).
    Budget,
}

impl Cancelling {
    fn action(self, thing: DeclNo, cancelled: VariableName) -> StatementForm
        ensures { result ≡ cancel_action self thing cancelled }
    {
        match self {
            Cancelling::Event => StatementForm::CancelEvent {
                event: thing,
                cancelled,
            },
            Cancelling::Timer => StatementForm::CancelTimer {
                timer: thing,
                cancelled,
            },
            Cancelling::Budget => StatementForm::CancelBudget {
                budget: thing,
                cancelled,
            },
        }
    }

    /// The name of the formal for the event, timer or budget.
    fn formal(self) -> &'static [u8]
        ensures { result.now ≡ cancelled_formal self }
    {
        match self {
            Cancelling::Event => b"event",
            Cancelling::Timer => b"tm",
            Cancelling::Budget => b"gb",
        }
    }
}

/// Cancel_Handler (D.14.1, D.14.2, D.15).
#[tactic(auto, unfolding(ada_image::specs::ImageOfProcedures::cancel_put, ada_image::specs::ImageOfExpressions::actuals_for, ada_image::specs::ImageOfExpressions::arguments_from))]
pub(crate) fn cancel_put(
    lists: &mut Lists,
    within: &Within<'_, '_>,
    cancelling: Cancelling,
    arguments: &[Argument<Expression>],
    signs: u32,
    next: Option<StatementNo>,
) -> Result<Option<StatementNo>, NoMemory>
    ensures { Made
        (cancel_put (cancel_action cancelling) within.now
        (actuals_for (cancel_formals cancelling) arguments.now) signs next) lists.old lists.new
        result }
{
    let thing = thing_of(within, argument_from(0, cancelling.formal(), arguments));
    let cancelled = variable_of(lists, within, argument_from(1, b"cancelled", arguments))?;
    action_put(lists, cancelling.action(thing, cancelled), signs, next)
}

/// What is done with a group budget and a value (D.14.2).
#[derive(Clone, Copy)]
pub(crate) enum Budgeting {
    /// Add_Task.
    AddTask,
    /// Remove_Task.
    RemoveTask,
    /// Replenish.
    Replenish,
    /// Add.
    Add,
}

impl Budgeting {
    fn action(self, budget: DeclNo, value: ExprNo) -> StatementForm
        ensures { result ≡ budget_action self budget value }
    {
        match self {
            Budgeting::AddTask => StatementForm::AddTask {
                budget,
                task: value,
            },
            Budgeting::RemoveTask => StatementForm::RemoveTask {
                budget,
                task: value,
            },
            Budgeting::Replenish => StatementForm::Replenish { budget, to: value },
            Budgeting::Add => StatementForm::AddToBudget {
                budget,
                interval: value,
            },
        }
    }

    /// The name of the formal for the value.
    fn formal(self) -> &'static [u8]
        ensures { result.now ≡ budgeted_formal self }
    {
        match self {
            Budgeting::AddTask => b"t",
            Budgeting::RemoveTask => b"t",
            Budgeting::Replenish => b"to",
            Budgeting::Add => b"interval",
        }
    }
}

/// A call of Group_Budgets with a budget and a value (D.14.2).
#[tactic(auto, unfolding(ada_image::specs::ImageOfProcedures::budget_put, ada_image::specs::ImageOfExpressions::actuals_for, ada_image::specs::ImageOfExpressions::arguments_from))]
pub(crate) fn budget_put(
    lists: &mut Lists,
    within: &Within<'_, '_>,
    budgeting: Budgeting,
    arguments: &[Argument<Expression>],
    signs: u32,
    next: Option<StatementNo>,
) -> Result<Option<StatementNo>, NoMemory>
    ensures { Made
        (budget_put (budget_action budgeting) within.now
        (actuals_for (budget_formals budgeting) arguments.now) signs next) lists.old lists.new
        result }
{
    let budget = thing_of(within, argument_from(0, b"gb", arguments));
    let value = value_or_none(
        lists,
        within,
        argument_from(1, budgeting.formal(), arguments),
    )?;
    action_put(lists, budgeting.action(budget, value), signs, next)
}

/// What is set of a task.
#[derive(Clone, Copy)]
pub(crate) enum OfTask {
    /// Its base priority (D.5.1).
    Priority,
    /// Its deadline (D.2.6).
    Deadline,
}

impl OfTask {
    fn action(self, value: ExprNo, task: Option<ExprNo>) -> StatementForm
        ensures { result ≡ task_action self value task }
    {
        match self {
            OfTask::Priority => StatementForm::SetPriority {
                priority: value,
                task,
            },
            OfTask::Deadline => StatementForm::SetDeadline {
                deadline: value,
                task,
            },
        }
    }

    /// The name of the formal for the value.
    fn formal(self) -> &'static [u8]
        ensures { result.now ≡ set_formal self }
    {
        match self {
            OfTask::Priority => b"priority",
            OfTask::Deadline => b"d",
        }
    }
}

/// A call that sets something of a task, of the calling one where none is given (D.2.6, D.5.1).
#[tactic(auto, unfolding(ada_image::specs::ImageOfProcedures::task_put, ada_image::specs::ImageOfExpressions::actuals_for, ada_image::specs::ImageOfExpressions::arguments_from))]
pub(crate) fn task_put(
    lists: &mut Lists,
    within: &Within<'_, '_>,
    of_task: OfTask,
    arguments: &[Argument<Expression>],
    signs: u32,
    next: Option<StatementNo>,
) -> Result<Option<StatementNo>, NoMemory>
    ensures { Made
        (task_put (task_action of_task) within.now
        (actuals_for (task_formals of_task) arguments.now) signs next) lists.old lists.new
        result }
{
    let value = value_or_none(lists, within, argument_from(0, of_task.formal(), arguments))?;
    let task = optional_value(lists, within, argument_from(1, b"t", arguments))?;
    action_put(lists, of_task.action(value, task), signs, next)
}

/// What is done with two values.
#[derive(Clone, Copy)]
pub(crate) enum OfValues {
    /// The quantum of a level is set (D.2.5).
    Quantum,
    /// Delay_Until_And_Set_Deadline (D.2.6).
    DelayUntilAndDeadline,
}

impl OfValues {
    fn action(self, first: ExprNo, second: ExprNo) -> StatementForm
        ensures { result ≡ values_action self first second }
    {
        match self {
            OfValues::Quantum => StatementForm::SetQuantum {
                level: first,
                quantum: second,
            },
            OfValues::DelayUntilAndDeadline => StatementForm::DelayUntilAndSetDeadline {
                until: first,
                offset: second,
            },
        }
    }

    /// The name of the formal for the first value.
    fn first_formal(self) -> &'static [u8]
        ensures { result.now ≡ first_formal self }
    {
        match self {
            OfValues::Quantum => b"pri",
            OfValues::DelayUntilAndDeadline => b"delay_until_time",
        }
    }

    /// The name of the formal for the second value.
    fn second_formal(self) -> &'static [u8]
        ensures { result.now ≡ second_formal self }
    {
        match self {
            OfValues::Quantum => b"quantum",
            OfValues::DelayUntilAndDeadline => b"deadline_offset",
        }
    }
}

/// A call with two values (D.2.5, D.2.6).
#[tactic(auto, unfolding(ada_image::specs::ImageOfProcedures::values_put, ada_image::specs::ImageOfExpressions::actuals_for, ada_image::specs::ImageOfExpressions::arguments_from))]
pub(crate) fn values_put(
    lists: &mut Lists,
    within: &Within<'_, '_>,
    of_values: OfValues,
    arguments: &[Argument<Expression>],
    signs: u32,
    next: Option<StatementNo>,
) -> Result<Option<StatementNo>, NoMemory>
    ensures { Made
        (values_put (values_action of_values) within.now
        (actuals_for (values_formals of_values) arguments.now) signs next) lists.old lists.new
        result }
{
    let first = value_or_none(
        lists,
        within,
        argument_from(0, of_values.first_formal(), arguments),
    )?;
    let second = value_or_none(
        lists,
        within,
        argument_from(1, of_values.second_formal(), arguments),
    )?;
    action_put(lists, of_values.action(first, second), signs, next)
}
