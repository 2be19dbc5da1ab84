//! Set_Deadline and Delay_Until_And_Set_Deadline (ISO/IEC 8652:2012, D.2.6).
ghost use Rattle.std.specs.Prelude.{◌≡◌, ◌+ℤ◌, OnOk, IfOk, Some};
ghost use Rattle.ann_base.specs.Answers.{AnswersAs};
ghost use Rattle.profile_machine.specs.Operators.{held_moment};
ghost use Rattle.profile_machine.specs.Priorities.{says_deadline, is_runnable_at_edf};
ghost use Rattle.profile_machine.specs.Priorities.{set_deadline, take_deadline, defer_deadline};
ghost use Rattle.profile_machine.specs.Priorities.{set_or_defer_deadline, set_deadline_of};
ghost use Rattle.profile_machine.specs.Priorities.{delay_with_deadline, delay_and_set_deadline};
ghost use Rattle.profile_machine.specs.Tasks.{edit_task, task_of};
ghost use Rattle.machine_frames.specs.Did.{Did};
ghost use Rattle.machine_priorities.specs.Continued.{target_given, deadline_given, offset_given};

use ann_base::{Moment, NoMemory, OrMemory, Raised};
use machine_dispatching::{active_of, delay_to, part_of, placing_of, to_tail};
use machine_frames::{
    Effect, goes, in_protected, is_runnable, raises, refused, says, task_at, task_mut,
};
use machine_operators::held_moment;
use machine_program::{Program, has_edf, is_edf_level, next_of};
use machine_values::{Seen, live_task, moment, optional_task, or_raised, seen_by};
use profile_image::{ExprNo, StatementNo};
use profile_machine::world::{Line, Part, Task, World};
use trace_text::Who;

fn put_deadline(world: &mut World, name: Who, deadline: Moment)
    ensures { world.new ≡ edit_task name (λ t. record t { deadline = deadline }) world.old }
{
    if let Some(task) = task_mut(world, name) {
        task.deadline = deadline;
    }
}

fn put_deferred_deadline(world: &mut World, name: Who, deadline: Option<Moment>)
    ensures { world.new
        ≡ edit_task name (λ t. record t { deferred_deadline = deadline }) world.old }
{
    if let Some(task) = task_mut(world, name) {
        task.deferred_deadline = deadline;
    }
}

// The line of a deadline that is set; the agent has none.
#[tactic(auto, unfolding(profile_machine::specs::Priorities::says_deadline))]
fn says_deadline(
    effect: &mut Effect,
    part: Part,
    name: Who,
    deadline: Moment,
) -> Result<(), NoMemory>
    ensures { OnOk result (Did (says_deadline part name deadline) effect.old effect.new) }
{
    match name {
        Who::Task(task) => says(effect, part, Line::Deadline { task, deadline }),
        Who::Agent => Ok(()),
    }
}

// Whether the one with this name is ready or runs on an EDF level.
fn is_runnable_at_edf(p: &Program, world: &World, name: Who) -> bool
    ensures { result ≡ is_runnable_at_edf p.now world.now name (task_of world.now name).state }
{
    match task_at(world, name) {
        Some(task) => is_runnable(task) && is_edf_level(p, active_of(p, world, name)),
        None => false,
    }
}

// The deadline is set: a ready task on an EDF level goes to the tail, with the new deadline.
#[tactic(auto, unfolding(profile_machine::specs::Priorities::set_deadline))]
fn set_deadline(
    p: &Program,
    effect: &mut Effect,
    part: Part,
    placing: Part,
    name: Who,
    deadline: Moment,
) -> Result<(), NoMemory>
    ensures { OnOk result
        (Did (set_deadline p.now part placing name deadline) effect.old effect.new) }
{
    put_deadline(&mut effect.world, name, deadline);
    says_deadline(effect, part, name, deadline)?;
    if is_runnable_at_edf(p, &effect.world, name) {
        to_tail(p, effect, placing, name)
    } else {
        Ok(())
    }
}

/// A deadline that was deferred is set.
#[tactic(auto, unfolding(profile_machine::specs::Priorities::take_deadline))]
pub(crate) fn take_deadline(
    p: &Program,
    effect: &mut Effect,
    name: Who,
    deadline: Option<Moment>,
) -> Result<(), NoMemory>
    ensures { OnOk result (Did (take_deadline p.now name deadline) effect.old effect.new) }
{
    match deadline {
        Some(deadline) => {
            put_deferred_deadline(&mut effect.world, name, None);
            set_deadline(
                p,
                effect,
                Part::ThePlacing,
                Part::ThePlacing,
                name,
                deadline,
            )
        }
        None => Ok(()),
    }
}

#[tactic(auto, unfolding(profile_machine::specs::Priorities::defer_deadline))]
fn defer_deadline(effect: &mut Effect, name: Who, deadline: Moment)
    ensures { Did (defer_deadline name deadline) effect.old effect.new }
{
    put_deferred_deadline(&mut effect.world, name, Some(deadline));
}

// In a source with an EDF range it is deferred while its target is inside a protected action.
#[tactic(auto, unfolding(profile_machine::specs::Priorities::set_or_defer_deadline))]
fn set_or_defer_deadline(
    p: &Program,
    effect: &mut Effect,
    actor: Who,
    name: Who,
    deadline: Moment,
) -> Result<(), NoMemory>
    ensures { OnOk result
        (Did (set_or_defer_deadline p.now actor name deadline) effect.old effect.new) }
{
    if in_protected(&effect.world, name) && has_edf(p) {
        defer_deadline(effect, name, deadline);
        Ok(())
    } else {
        set_deadline(
            p,
            effect,
            part_of(actor, name),
            placing_of(actor, name),
            name,
            deadline,
        )
    }
}

// The task of which the deadline is to be set.
fn target_given<'a>(q: &Seen<'a>, task: Option<ExprNo>) -> Result<&'a Task, OrMemory<Raised>>
    ensures { AnswersAs (λ t. t.now) result (target_given q.now task) }
{
    let named = optional_task(q, task)?;
    or_raised(live_task(q.world, named))
}

// The deadline is evaluated, and set at the target.
fn deadline_given(
    p: &Program,
    effect: &mut Effect,
    name: Who,
    s: StatementNo,
    e: ExprNo,
    target: Who,
) -> Result<(), NoMemory>
    ensures { OnOk result (Did (deadline_given p.now name s e target) effect.old effect.new) }
{
    let deadline = moment(&seen_by(p, &effect.world, name), e);
    match deadline {
        Ok(deadline) => {
            goes(effect, name, next_of(p, s));
            set_or_defer_deadline(p, effect, name, target, deadline)
        }
        Err(answer) => refused(effect, name, answer),
    }
}

/// Set_Deadline, of the task that runs or of the one that is named (D.2.6).
#[tactic(auto, unfolding(profile_machine::specs::Priorities::set_deadline_of))]
pub fn set_deadline_of(
    p: &Program,
    effect: &mut Effect,
    name: Who,
    s: StatementNo,
    e: ExprNo,
    task: Option<ExprNo>,
) -> Result<(), NoMemory>
    ensures { OnOk result (Did (set_deadline_of p.now name s e task) effect.old effect.new) }
{
    let target = target_given(&seen_by(p, &effect.world, name), task);
    match target {
        Ok(target) => {
            let target = target.who;
            deadline_given(p, effect, name, s, e, target)
        }
        Err(answer) => refused(effect, name, answer),
    }
}

// The moment with the offset, no later than the last of Time and no earlier than the first.
//
// Errors: the sum is beyond the moments of 64 bits.
fn moment_after(until: Moment, offset: Moment) -> Result<Moment, NoMemory>
    ensures { IfOk result (λ deadline. deadline ≡ held_moment (until +ℤ offset)) }
{
    let sum = until.checked_add(offset).ok_or(NoMemory)?;
    Ok(held_moment(sum))
}

#[tactic(auto, unfolding(profile_machine::specs::Priorities::delay_with_deadline))]
fn delay_with_deadline(
    p: &Program,
    effect: &mut Effect,
    name: Who,
    s: StatementNo,
    until: Moment,
    offset: Moment,
) -> Result<(), NoMemory>
    ensures { OnOk result
        (Did (delay_with_deadline p.now name s until offset) effect.old effect.new) }
{
    let deadline = moment_after(until, offset)?;
    goes(effect, name, next_of(p, s));
    put_deadline(&mut effect.world, name, deadline);
    says_deadline(effect, Part::Own, name, deadline)?;
    delay_to(p, effect, name, until)
}

// The offset is evaluated, and the task delayed.
fn offset_given(
    p: &Program,
    effect: &mut Effect,
    name: Who,
    s: StatementNo,
    until: Moment,
    offset: ExprNo,
) -> Result<(), NoMemory>
    ensures { OnOk result (Did (offset_given p.now name s until offset) effect.old effect.new) }
{
    let offset = moment(&seen_by(p, &effect.world, name), offset);
    match offset {
        Ok(offset) => delay_with_deadline(p, effect, name, s, until, offset),
        Err(answer) => refused(effect, name, answer),
    }
}

/// Delay_Until_And_Set_Deadline. It is a delay, so inside a protected action Program_Error is
/// raised (D.2.6).
#[tactic(auto, unfolding(profile_machine::specs::Priorities::delay_and_set_deadline))]
pub fn delay_and_set_deadline(
    p: &Program,
    effect: &mut Effect,
    name: Who,
    s: StatementNo,
    until: ExprNo,
    offset: ExprNo,
) -> Result<(), NoMemory>
    ensures { OnOk result
        (Did (delay_and_set_deadline p.now name s until offset) effect.old effect.new) }
{
    if in_protected(&effect.world, name) {
        return raises(effect, Part::Own, name, Raised::Program);
    }
    let until = moment(&seen_by(p, &effect.world, name), until);
    match until {
        Ok(until) => offset_given(p, effect, name, s, until, offset),
        Err(answer) => refused(effect, name, answer),
    }
}
