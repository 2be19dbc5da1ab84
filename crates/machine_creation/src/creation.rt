//! The creation of a task (ISO/IEC 8652:2012, 9.1).
ghost use Rattle.std.specs.Prelude.{◌≡◌, IfOk, OnOk, leb, length};
ghost use Rattle.ann_base.specs.Answers.{Answers};
ghost use Rattle.profile_image.specs.declared.limits.TheConstants.{MOST_LIVE_TASKS};
ghost use Rattle.profile_machine.specs.Tasking.{unit_of_kind, unit_of_declaration};
ghost use Rattle.profile_machine.specs.Tasking.{optional_span, outer_of_task, created_task};
ghost use Rattle.profile_machine.specs.Tasking.{task_drawn, add_task, create_task, create};
ghost use Rattle.machine_frames.specs.Did.{Did};
ghost use Rattle.machine_creation.specs.Created.{span_given, asks_span, last_drawn, names_object};

use ann_base::{Moment, NoMemory, OrMemory, Raised, TaskNo};
use machine_controlled::top_region;
use machine_declarations::{no_calls, set_thing};
use machine_exclusion::base_of;
use machine_frames::{Effect, bars_tasks, goes, new_task, raises, refused, says};
use machine_program::{Program, declaration_of, next_of, scope_of, task_unit_of};
use machine_scopes::home;
use machine_values::{Seen, moment, seen_by};
use profile_image::{
    DeclNo, DeclarationKind, ExprNo, MOST_LIVE_TASKS, StatementNo, TaskUnit, TaskUnitNo, Value,
};
use profile_machine::world::{Drawn, Line, Located, Part, ScopeId, State, Task, World};
use std::alloc::Global;
use trace_text::{Created, Who};

fn unit_of_kind(kind: &DeclarationKind) -> TaskUnitNo
    ensures { result ≡ unit_of_kind kind.now }
{
    match kind {
        DeclarationKind::Task(unit) => *unit,
        _ => TaskUnitNo(0),
    }
}

// The unit of a task object.
fn unit_of_declaration(p: &Program, d: DeclNo) -> TaskUnitNo
    ensures { result ≡ unit_of_declaration p.now d }
{
    unit_of_kind(&declaration_of(p, d).kind)
}

// Relative_Deadline is evaluated by the creator.
fn optional_span(q: &Seen<'_>, span: Option<ExprNo>) -> Result<Option<Moment>, OrMemory<Raised>>
    ensures { Answers result (optional_span q.now span) }
{
    match span {
        None => Ok(None),
        Some(e) => Ok(Some(moment(q, e)?)),
    }
}

// The scope in use round the body of a task of this unit.
fn outer_of_task(q: &Seen<'_>, unit: &TaskUnit) -> Option<ScopeId>
    ensures { result ≡ outer_of_task q.now unit.now }
{
    let outer = scope_of(q.program, unit.scope).outer?;
    home(q.world, outer, q.within)
}

// The task that is created with this number.
fn created_task(
    alloc: Global,
    q: &Seen<'_>,
    d: DeclNo,
    u: TaskUnitNo,
    declarative_part: u32,
    span: Option<Moment>,
    number: u32,
) -> Result<Task, NoMemory>
    ensures { IfOk result (λ task. task ≡ created_task q.now d u declarative_part span number) }
{
    let unit = task_unit_of(q.program, u);
    let base = match unit.priority {
        Some(priority) => priority,
        None => base_of(q.world, q.who),
    };
    let mut task = new_task(alloc, Who::Task(TaskNo(number)), base, State::Made);
    task.declared = Some(d);
    task.unit = Some(u);
    task.outer = outer_of_task(q, unit);
    task.relative_deadline = span;
    task.master = Some(top_region(q.world, q.who));
    task.declarative_part = declarative_part;
    task.queues = no_calls(alloc, unit.entries.as_slice())?;
    Ok(task)
}

fn task_drawn(drawn: &mut Drawn) -> Result<(), NoMemory>
    ensures { OnOk result (drawn.new ≡ task_drawn drawn.old) }
{
    let next = drawn.tasks.checked_add(1).ok_or(NoMemory)?;
    drawn.tasks = next;
    Ok(())
}

fn add_task(world: &mut World, task: Task) -> Result<(), NoMemory>
    ensures { OnOk result (world.new ≡ add_task task world.old) }
{
    world.tasks.push_back(task)?;
    task_drawn(&mut world.drawn)
}

// The number that was drawn last.
fn last_drawn(world: &World) -> TaskNo
    ensures { result ≡ last_drawn world.now }
{
    TaskNo(world.drawn.tasks.saturating_sub(1))
}

// The object of the task, where its scope is in use, holds the number that was drawn last.
fn names_object(p: &Program, effect: &mut Effect, d: DeclNo, within: Option<ScopeId>)
    ensures { Did (names_object p.now d within) effect.old effect.new }
{
    if let Some(within) = within {
        let number = last_drawn(&effect.world);
        let object = Located {
            within,
            declared: d,
        };
        set_thing(p, object, Value::Task(Some(number)), &mut effect.world);
    }
}

fn create_task(
    p: &Program,
    effect: &mut Effect,
    name: Who,
    s: StatementNo,
    d: DeclNo,
    within: Option<ScopeId>,
    task: Task,
) -> Result<(), NoMemory>
    ensures { OnOk result (Did (create_task p.now name s d within task) effect.old effect.new) }
{
    let level = task.base;
    goes(effect, name, next_of(p, s));
    add_task(&mut effect.world, task)?;
    names_object(p, effect, d, within);
    let what = Created::Task(last_drawn(&effect.world));
    says(
        effect,
        Part::Own,
        Line::New {
            what,
            declared: Some(d),
            level,
        },
    )
}

// The task is created, with what Relative_Deadline gave.
#[tactic(auto, unfolding(crate::specs::Created::span_given))]
fn span_given(
    alloc: Global,
    p: &Program,
    effect: &mut Effect,
    name: Who,
    s: StatementNo,
    d: DeclNo,
    declarative_part: u32,
    span: Option<Moment>,
) -> Result<(), NoMemory>
    ensures { OnOk result
        (Did (span_given p.now name s d declarative_part span) effect.old effect.new) }
{
    let q = seen_by(p, &effect.world, name);
    let within = home(&effect.world, declaration_of(p, d).scope, q.within);
    let number = effect.world.drawn.tasks;
    let unit = unit_of_declaration(p, d);
    let task = created_task(alloc, &q, d, unit, declarative_part, span, number)?;
    create_task(p, effect, name, s, d, within, task)
}

// Relative_Deadline is evaluated, and then the task is created.
fn asks_span(
    alloc: Global,
    p: &Program,
    effect: &mut Effect,
    name: Who,
    s: StatementNo,
    d: DeclNo,
    declarative_part: u32,
) -> Result<(), NoMemory>
    ensures { OnOk result (Did (asks_span p.now name s d declarative_part) effect.old effect.new) }
{
    let relative_deadline = task_unit_of(p, unit_of_declaration(p, d)).relative_deadline;
    let span = optional_span(&seen_by(p, &effect.world, name), relative_deadline);
    match span {
        Ok(span) => span_given(alloc, p, effect, name, s, d, declarative_part, span),
        Err(answer) => refused(effect, name, answer),
    }
}

// Whether as many tasks are live as may be.
fn is_full(world: &World) -> bool
    ensures { result ≡ leb MOST_LIVE_TASKS (length world.now.tasks) }
{
    MOST_LIVE_TASKS <= world.tasks.len()
}

/// A task is created (9.1). Program_Error is raised inside a protected action and wherever abort is
/// deferred, and Storage_Error while 256 tasks are live.
pub fn create(
    alloc: Global,
    p: &Program,
    effect: &mut Effect,
    name: Who,
    s: StatementNo,
    d: DeclNo,
    declarative_part: u32,
) -> Result<(), NoMemory>
    ensures { OnOk result (Did (create p.now name s d declarative_part) effect.old effect.new) }
{
    if bars_tasks(&effect.world, name) {
        return raises(effect, Part::Own, name, Raised::Program);
    }
    if is_full(&effect.world) {
        return raises(effect, Part::Own, name, Raised::Storage);
    }
    asks_span(alloc, p, effect, name, s, d, declarative_part)
}
