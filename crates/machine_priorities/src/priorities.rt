//! Base priorities that are set (ISO/IEC 8652:2012, D.5.1).
ghost use Rattle.std.specs.Prelude.{◌≡◌, ◌||◌, OnOk, Some};
ghost use Rattle.ann_base.specs.Answers.{Answers};
ghost use Rattle.profile_machine.specs.Priorities.{replace_in, says_base, set_base, take_base};
ghost use Rattle.profile_machine.specs.Priorities.{set_deferred, is_edf_base, defer_base};
ghost use Rattle.profile_machine.specs.Priorities.{set_or_defer_base, set_base_of, set_priority};
ghost use Rattle.profile_machine.specs.Steps.{looks};
ghost use Rattle.profile_machine.specs.Tasks.{edit_task, found_task, task_of};
ghost use Rattle.trace_text.specs.declared.events.Who.TheVariants as who;
ghost use Rattle.machine_frames.specs.Did.{Did};
ghost use Rattle.machine_priorities.specs.Continued.{task_given, level_in_range, level_given};

use crate::deadlines::take_deadline;
use crate::ranges::priority_in_range;
use crate::reprioritizing::{call_waited_for, reprioritize_awaited};
use ann_base::{Level, Moment, NoMemory, OrMemory, Raised, TaskNo};
use machine_dispatching::{part_of, placing_of, to_tail};
use machine_frames::{
    Effect, found_task, goes, in_protected, raises, refused, says, task_at, task_mut,
};
use machine_program::{Program, edf_low, interrupt_priority, next_of};
use machine_values::{Seen, optional_task, seen_by, value, whole_in};
use profile_image::{ExprNo, StatementNo};
use profile_machine::world::{Line, Part, State, World};
use trace_text::Who;

fn put_base(world: &mut World, name: Who, level: Level)
    ensures { world.new ≡ edit_task name (λ t. record t { base = level }) world.old }
{
    if let Some(task) = task_mut(world, name) {
        task.base = level;
    }
}

fn put_deferred_base(world: &mut World, name: Who, level: Option<Level>)
    ensures { world.new ≡ edit_task name (λ t. record t { deferred_base = level }) world.old }
{
    if let Some(task) = task_mut(world, name) {
        task.deferred_base = level;
    }
}

// A ready task goes to the tail of its level, whether the level changes or not; the call for which
// a blocked one waits gets its new active priority.
#[tactic(auto, unfolding(profile_machine::specs::Priorities::replace_in, profile_machine::specs::Priorities::reprioritize_own))]
fn replace(p: &Program, effect: &mut Effect, part: Part, name: Who) -> Result<(), NoMemory>
    ensures { OnOk result
        (Did (looks (λ w. replace_in p.now part name (task_of w name).state)) effect.old
        effect.new) }
{
    match task_at(&effect.world, name) {
        None => Ok(()),
        Some(task) => match &task.state {
            State::Made => Ok(()),
            State::Runnable => to_tail(p, effect, part, name),
            State::Blocked(waiting) => {
                let awaited = call_waited_for(waiting);
                reprioritize_awaited(p, effect, name, awaited)
            }
        },
    }
}

// The line of a base priority that is set; the agent has none.
#[tactic(auto, unfolding(profile_machine::specs::Priorities::says_base))]
fn says_base(effect: &mut Effect, part: Part, name: Who, level: Level) -> Result<(), NoMemory>
    ensures { OnOk result (Did (says_base part name level) effect.old effect.new) }
{
    match name {
        Who::Task(task) => says(effect, part, Line::Base { task, level }),
        Who::Agent => Ok(()),
    }
}

#[tactic(auto, unfolding(profile_machine::specs::Priorities::set_base))]
fn set_base(
    p: &Program,
    effect: &mut Effect,
    part: Part,
    placing: Part,
    name: Who,
    level: Level,
) -> Result<(), NoMemory>
    ensures { OnOk result (Did (set_base p.now part placing name level) effect.old effect.new) }
{
    put_base(&mut effect.world, name, level);
    says_base(effect, part, name, level)?;
    replace(p, effect, placing, name)
}

#[tactic(auto, unfolding(profile_machine::specs::Priorities::take_base))]
fn take_base(
    p: &Program,
    effect: &mut Effect,
    name: Who,
    level: Option<Level>,
) -> Result<(), NoMemory>
    ensures { OnOk result (Did (take_base p.now name level) effect.old effect.new) }
{
    match level {
        Some(level) => {
            put_deferred_base(&mut effect.world, name, None);
            set_base(p, effect, Part::ThePlacing, Part::ThePlacing, name, level)
        }
        None => Ok(()),
    }
}

fn deferred_base(world: &World, name: Who) -> Option<Level>
    ensures { result ≡ (task_of world.now name).deferred_base }
{
    task_at(world, name)?.deferred_base
}

fn deferred_deadline(world: &World, name: Who) -> Option<Moment>
    ensures { result ≡ (task_of world.now name).deferred_deadline }
{
    task_at(world, name)?.deferred_deadline
}

/// What was deferred is set at the end of the outermost protected action: the base priority, then
/// the deadline.
#[tactic(auto, unfolding(profile_machine::specs::Priorities::set_deferred))]
pub fn set_deferred(p: &Program, effect: &mut Effect, name: Who) -> Result<(), NoMemory>
    ensures { OnOk result (Did (set_deferred p.now name) effect.old effect.new) }
{
    if in_protected(&effect.world, name) {
        return Ok(());
    }
    let base = deferred_base(&effect.world, name);
    let deadline = deferred_deadline(&effect.world, name);
    take_base(p, effect, name, base)?;
    take_deadline(p, effect, name, deadline)
}

fn is_edf_base(p: &Program, level: Level) -> bool
    ensures { result ≡ is_edf_base p.now level }
{
    edf_low(p, level).is_some()
}

// From or into an EDF range Program_Error is raised (own).
fn is_from_or_into_edf(p: &Program, from: Level, into: Level) -> bool
    ensures { result ≡ (is_edf_base p.now from || is_edf_base p.now into) }
{
    is_edf_base(p, from) || is_edf_base(p, into)
}

#[tactic(auto, unfolding(profile_machine::specs::Priorities::defer_base))]
fn defer_base(effect: &mut Effect, name: Who, level: Level)
    ensures { Did (defer_base name level) effect.old effect.new }
{
    put_deferred_base(&mut effect.world, name, Some(level));
}

// It is deferred while its target is inside a protected action.
#[tactic(auto, unfolding(profile_machine::specs::Priorities::set_or_defer_base))]
fn set_or_defer_base(
    p: &Program,
    effect: &mut Effect,
    actor: Who,
    name: Who,
    level: Level,
) -> Result<(), NoMemory>
    ensures { OnOk result (Did (set_or_defer_base p.now actor name level) effect.old effect.new) }
{
    if in_protected(&effect.world, name) {
        defer_base(effect, name, level);
        Ok(())
    } else {
        set_base(
            p,
            effect,
            part_of(actor, name),
            placing_of(actor, name),
            name,
            level,
        )
    }
}

// The base priority of the task with this number is set. On one that has terminated that has no
// effect.
#[tactic(auto, unfolding(profile_machine::specs::Priorities::set_base_of))]
fn set_base_of(
    p: &Program,
    effect: &mut Effect,
    actor: Who,
    s: StatementNo,
    level: Level,
    number: TaskNo,
) -> Result<(), NoMemory>
    ensures { OnOk result
        (Did (set_base_of p.now actor s level (found_task (who.Task number) effect.old.world.tasks))
        effect.old effect.new) }
{
    match found_task(Who::Task(number), &effect.world.tasks) {
        None => {
            goes(effect, actor, next_of(p, s));
            Ok(())
        }
        Some(task) => {
            let target = task.who;
            if is_from_or_into_edf(p, task.base, level) {
                raises(effect, Part::Own, actor, Raised::Program)
            } else {
                goes(effect, actor, next_of(p, s));
                set_or_defer_base(p, effect, actor, target, level)
            }
        }
    }
}

// The task of which the priority is to be set.
fn task_given(q: &Seen<'_>, task: Option<ExprNo>) -> Result<TaskNo, OrMemory<Raised>>
    ensures { Answers result (task_given q.now task) }
{
    match optional_task(q, task)? {
        Some(number) => Ok(number),
        None => Err(OrMemory::Fault(Raised::Program)),
    }
}

// The priority that is to be set.
fn level_in_range(q: &Seen<'_>, e: ExprNo) -> Result<Level, OrMemory<Raised>>
    ensures { Answers result (level_in_range q.now e) }
{
    let n = whole_in(value(q, e)?);
    priority_in_range(interrupt_priority(q.program), n)
}

// The priority is evaluated, and set at the task with this number.
fn level_given(
    p: &Program,
    effect: &mut Effect,
    name: Who,
    s: StatementNo,
    e: ExprNo,
    number: TaskNo,
) -> Result<(), NoMemory>
    ensures { OnOk result (Did (level_given p.now name s e number) effect.old effect.new) }
{
    let level = level_in_range(&seen_by(p, &effect.world, name), e);
    match level {
        Ok(level) => set_base_of(p, effect, name, s, level, number),
        Err(answer) => refused(effect, name, answer),
    }
}

/// Set_Priority (D.5.1).
#[tactic(auto, unfolding(profile_machine::specs::Priorities::set_priority))]
pub fn set_priority(
    p: &Program,
    effect: &mut Effect,
    name: Who,
    s: StatementNo,
    e: ExprNo,
    task: Option<ExprNo>,
) -> Result<(), NoMemory>
    ensures { OnOk result (Did (set_priority p.now name s e task) effect.old effect.new) }
{
    let number = task_given(&seen_by(p, &effect.world, name), task);
    match number {
        Ok(number) => level_given(p, effect, name, s, e, number),
        Err(answer) => refused(effect, name, answer),
    }
}
