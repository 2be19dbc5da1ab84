//! The value of an expression, or its exception (ISO/IEC 8652:2012, clause 4). Operands are
//! evaluated from left to right. An operand has a number of its own, so as many levels are
//! evaluated as there are expressions.
ghost use Rattle.std.specs.Prelude.{◌≡◌};
ghost use Rattle.ann_base.specs.Answers.{Answers, AnswersAs};
ghost use Rattle.machine_values.specs.Asked.{live_task_named, time_of_event, time_remaining};
ghost use Rattle.machine_values.specs.Asked.{budget_has_expired, budget_remaining};
ghost use Rattle.profile_machine.specs.Values.{span, both_values, indexed, variable_by};
ghost use Rattle.profile_machine.specs.Values.{named_task, form_value, value_by, value};
ghost use Rattle.profile_machine.specs.Values.{variable, optional_task, truth_in};
ghost use Rattle.profile_machine.specs.Values.{ticks_in, whole_in, condition, moment};

use crate::answers::or_raised;
use crate::events::{budget_of, event_moment, port_value, time_left, timer_of};
use crate::names::{component_cell, number_of_thing, object_cell, read, task_in, thing};
use crate::seen::Seen;
use crate::tasks::{count_of_entry, live_task, moment_at, number_of};
use ann_base::{Moment, OrMemory, Raised, TaskNo};
use machine_operators::{binary_value, decides, ticks, unary_value};
use machine_program::{entry_of, expression_count, expression_of};
use profile_image::{BinaryOperator, DeclNo, ExprNo, Expression, Value, VariableName};
use profile_machine::world::{Task, Variable};

// The span of a number of units of so many ticks.
fn span(factor: Moment, count: Value) -> Result<Value, Raised>
    ensures { result ≡ span factor count }
{
    match count {
        Value::Whole(n) => {
            let n = factor.checked_mul(i64::from(n)).ok_or(Raised::Constraint)?;
            ticks(n)
        }
        Value::Truth(_) | Value::Literal(_) | Value::Ticks(_) | Value::Task(_) | Value::Thing(_) =>
            Err(Raised::Program),
    }
}

// The value of the right operand with the left one's, unless that decides alone.
#[cycle(value)]
fn both_values(
    fuel: usize,
    q: &Seen<'_>,
    operator: BinaryOperator,
    right: ExprNo,
    left: Value,
) -> Result<Value, OrMemory<Raised>>
    ensures { Answers result
        (both_values (value_by fuel q.now.program.expressions q.now) operator right left) }
{
    if decides(operator, left) {
        Ok(left)
    } else {
        let right = value_by(fuel, q, right)?;
        or_raised(binary_value(operator, left, right))
    }
}

#[cycle(value)]
fn indexed(
    fuel: usize,
    q: &Seen<'_>,
    index: Option<ExprNo>,
    v: Variable,
) -> Result<Variable, OrMemory<Raised>>
    ensures { Answers result
        (indexed (value_by fuel q.now.program.expressions q.now) q.now index v) }
{
    let Some(index) = index else {
        return Ok(v);
    };
    let index = value_by(fuel, q, index)?;
    component_cell(q, v, index)
}

#[cycle(value)]
fn variable_by(fuel: usize, q: &Seen<'_>, name: VariableName) -> Result<Variable, OrMemory<Raised>>
    ensures { Answers result
        (variable_by (value_by fuel q.now.program.expressions q.now) q.now name) }
{
    let first = object_cell(q, name.object)?;
    indexed(fuel, q, name.index, first)
}

// An omitted task is the calling one; in a handler there is none.
#[cycle(value)]
fn named_task(
    fuel: usize,
    q: &Seen<'_>,
    task: Option<ExprNo>,
) -> Result<Option<TaskNo>, OrMemory<Raised>>
    ensures { Answers result
        (named_task (value_by fuel q.now.program.expressions q.now) q.now task) }
{
    match task {
        None => Ok(number_of(q.who)),
        Some(e) => Ok(task_in(value_by(fuel, q, e)?)),
    }
}

#[cycle(value)]
fn live_task_named<'a>(
    fuel: usize,
    q: &Seen<'a>,
    task: Option<ExprNo>,
) -> Result<&'a Task, OrMemory<Raised>>
    ensures { AnswersAs (λ t. t.now) result
        (live_task_named (value_by fuel q.now.program.expressions q.now) q.now task) }
{
    let task = named_task(fuel, q, task)?;
    or_raised(live_task(q.world, task))
}

#[cycle(value)]
fn form_value(fuel: usize, q: &Seen<'_>, expression: Expression) -> Result<Value, OrMemory<Raised>>
    ensures { Answers result
        (form_value (value_by fuel q.now.program.expressions q.now) q.now expression) }
{
    match expression {
        Expression::Known(value) => Ok(value),
        Expression::Variable(name) => Ok(read(q.world, variable_by(fuel, q, name)?)),
        Expression::Thing(d) => or_raised(thing(q, d)),
        Expression::Unary { operator, operand } => {
            or_raised(unary_value(operator, value_by(fuel, q, operand)?))
        }
        Expression::Binary {
            operator,
            left,
            right,
        } => {
            let left = value_by(fuel, q, left)?;
            both_values(fuel, q, operator, right, left)
        }
        Expression::Count(e) => Ok(count_of_entry(q, entry_of(q.program, e))?),
        Expression::Clock => Ok(Value::Ticks(moment_at(q.world.time)?)),
        Expression::Span { ticks, count } => or_raised(span(ticks, value_by(fuel, q, count)?)),
        Expression::SameTicks(e) => value_by(fuel, q, e),
        Expression::CurrentTask => Ok(Value::Task(number_of(q.who))),
        Expression::ExecutionTime(task) => {
            let task = live_task_named(fuel, q, task)?;
            Ok(Value::Ticks(moment_at(task.cpu_ticks)?))
        }
        Expression::Priority(task) => {
            let task = live_task_named(fuel, q, task)?;
            Ok(Value::Whole(i32::from(task.base)))
        }
        Expression::Deadline(task) => {
            let task = live_task_named(fuel, q, task)?;
            Ok(Value::Ticks(task.deadline))
        }
        Expression::TimeOfEvent(d) => or_raised(time_of_event(q, d)),
        Expression::TimeRemaining(d) => time_remaining(q, d),
        Expression::BudgetHasExpired(d) => or_raised(budget_has_expired(q, d)),
        Expression::BudgetRemaining(d) => or_raised(budget_remaining(q, d)),
        Expression::PortValue(n) => or_raised(port_value(q.world, value_by(fuel, q, n)?)),
    }
}

// The value of the expression with this number, where the fuel is enough.
#[cycle(value)]
#[tactic(auto, using(crate::proofs::ValueLemmas::value_more))]
fn value_by(fuel: usize, q: &Seen<'_>, e: ExprNo) -> Result<Value, OrMemory<Raised>>
    ensures { Answers result (value_by fuel q.now.program.expressions q.now e) }
{
    if fuel == 0 {
        Err(OrMemory::Fault(Raised::Program))
    } else {
        form_value(fuel - 1, q, expression_of(q.program, e))
    }
}

fn time_of_event(q: &Seen<'_>, d: DeclNo) -> Result<Value, Raised>
    ensures { result ≡ time_of_event q.now d }
{
    Ok(Value::Ticks(event_moment(q.world, number_of_thing(q, d)?)))
}

fn time_remaining(q: &Seen<'_>, d: DeclNo) -> Result<Value, OrMemory<Raised>>
    ensures { Answers result (time_remaining q.now d) }
{
    let timer = timer_of(q.world, or_raised(number_of_thing(q, d))?);
    let task = or_raised(live_task(q.world, Some(timer.task)))?;
    Ok(Value::Ticks(time_left(timer.setting, task.cpu_ticks)?))
}

fn budget_has_expired(q: &Seen<'_>, d: DeclNo) -> Result<Value, Raised>
    ensures { result ≡ budget_has_expired q.now d }
{
    let budget = budget_of(q.world, number_of_thing(q, d)?);
    Ok(Value::Truth(budget.remaining <= 0))
}

fn budget_remaining(q: &Seen<'_>, d: DeclNo) -> Result<Value, Raised>
    ensures { result ≡ budget_remaining q.now d }
{
    let budget = budget_of(q.world, number_of_thing(q, d)?);
    Ok(Value::Ticks(budget.remaining))
}

/// The value of the expression with this number.
///
/// Errors: `Fault` with the exception that the evaluation raises.
pub fn value(q: &Seen<'_>, e: ExprNo) -> Result<Value, OrMemory<Raised>>
    ensures { Answers result (value q.now e) }
{
    form_value(expression_count(q.program), q, expression_of(q.program, e))
}

/// The variable that has this name, by the value of its index.
///
/// Errors: `Fault` with the exception that the evaluation raises.
pub fn variable(q: &Seen<'_>, name: VariableName) -> Result<Variable, OrMemory<Raised>>
    ensures { Answers result (variable q.now name) }
{
    let first = object_cell(q, name.object)?;
    match name.index {
        None => Ok(first),
        Some(index) => {
            let index = value(q, index)?;
            component_cell(q, first, index)
        }
    }
}

/// The task that an expression names; an omitted one is the calling one, and in a handler there is
/// none.
///
/// Errors: `Fault` with the exception that the evaluation raises.
pub fn optional_task(q: &Seen<'_>, task: Option<ExprNo>) -> Result<Option<TaskNo>, OrMemory<Raised>>
    ensures { Answers result (optional_task q.now task) }
{
    match task {
        None => Ok(number_of(q.who)),
        Some(e) => Ok(task_in(value(q, e)?)),
    }
}

/// The truth value of a Boolean.
pub fn truth_in(value: Value) -> bool
    ensures { result ≡ truth_in value }
{
    match value {
        Value::Truth(truth) => truth,
        _ => false,
    }
}

/// The ticks of a moment or a span.
pub fn ticks_in(value: Value) -> Moment
    ensures { result ≡ ticks_in value }
{
    match value {
        Value::Ticks(ticks) => ticks,
        _ => 0,
    }
}

/// The number of an Integer.
pub fn whole_in(value: Value) -> i32
    ensures { result ≡ whole_in value }
{
    match value {
        Value::Whole(n) => n,
        _ => 0,
    }
}

/// The truth value of a condition.
///
/// Errors: `Fault` with the exception that the evaluation raises.
pub fn condition(q: &Seen<'_>, e: ExprNo) -> Result<bool, OrMemory<Raised>>
    ensures { Answers result (condition q.now e) }
{
    Ok(truth_in(value(q, e)?))
}

/// The moment, or the span, that an expression gives.
///
/// Errors: `Fault` with the exception that the evaluation raises.
pub fn moment(q: &Seen<'_>, e: ExprNo) -> Result<Moment, OrMemory<Raised>>
    ensures { Answers result (moment q.now e) }
{
    Ok(ticks_in(value(q, e)?))
}
