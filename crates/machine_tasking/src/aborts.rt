//! Abort (ISO/IEC 8652:2012, 9.8): the named tasks and all that depend on them become abnormal.
ghost use Rattle.std.specs.Prelude.{◌≡◌, ◌++◌, [], filter, map, IfOk, OnOk};
ghost use Rattle.std.specs.List.{list_any, cons_option};
ghost use Rattle.ann_base.specs.Answers.{Answers};
ghost use Rattle.profile_machine.specs.Steps.{changes, for_each, looks};
ghost use Rattle.profile_machine.specs.Tasks.{edit_task};
ghost use Rattle.profile_machine.specs.Tasking.{named_tasks, is_to_abort, abnormal_task};
ghost use Rattle.profile_machine.specs.Tasking.{says_abort, abort_one, abort_all, abort_statement};
ghost use Rattle.machine_frames.specs.Did.{Did};
ghost use Rattle.machine_tasking.specs.KeptTasks.{kept_of, task_kept, tasks_kept};
ghost use Rattle.machine_tasking.specs.Aborted.{is_struck_by};

use crate::kept::{Kept, kept_of};
use crate::leaving::end_made;
use crate::settling::unwind_kept;
use ann_base::{NoMemory, OrMemory, Raised, TaskNo};
use machine_frames::{
    Effect, goes, in_protected, raises, refused, says, strike_outermost, task_mut,
};
use machine_masters::depends_on_task;
use machine_program::{Program, next_of};
use machine_values::{Seen, seen_by, task_in, thing};
use profile_image::{DeclNo, StatementNo};
use profile_machine::world::{Line, Part, Task, World, same_who};
use std::alloc::Global;
use trace_text::Who;
use world_tables::List;

// A task, if there is one, stands behind the others.
fn push_named(tasks: &mut List<TaskNo>, task: Option<TaskNo>) -> Result<(), NoMemory>
    ensures { OnOk result (tasks.new ≡ tasks.old ++ cons_option task []) }
{
    if let Some(task) = task {
        tasks.push_back(task)?;
    }
    Ok(())
}

// The tasks that the named objects hold.
fn named_tasks(
    alloc: Global,
    q: &Seen<'_>,
    names: &[DeclNo],
) -> Result<List<TaskNo>, OrMemory<Raised>>
    ensures { Answers result (named_tasks q.now names.now) }
{
    let mut tasks = List::new(alloc);
    for d in names {
        match thing(q, *d) {
            Ok(named) => push_named(&mut tasks, task_in(named))?,
            Err(exception) => return Err(OrMemory::Fault(exception)),
        }
    }
    Ok(tasks)
}

// Whether an abort of the task with this number strikes a task: itself, or one that depends on it.
fn is_struck_by(world: &World, aborted: TaskNo, task: &Task) -> bool
    ensures { result ≡ is_struck_by world.now task.now aborted }
{
    let name = Who::Task(aborted);
    same_who(name, task.who) || depends_on_task(world, name, task)
}

// Whether an abort of these tasks strikes a task.
fn is_any_struck_by(world: &World, aborted: &List<TaskNo>, task: &Task) -> bool
    ensures { result ≡ list_any (is_struck_by world.now task.now) aborted.now }
{
    aborted.iter().any(|n| is_struck_by(world, *n, task))
}

// Whether a task is struck, and is not abnormal yet.
fn is_to_abort(world: &World, aborted: &List<TaskNo>, task: &Task) -> bool
    ensures { result ≡ is_to_abort world.now aborted.now task.now }
{
    if task.abnormal {
        false
    } else {
        is_any_struck_by(world, aborted, task)
    }
}

fn all_to_abort(
    alloc: Global,
    world: &World,
    aborted: &List<TaskNo>,
) -> Result<List<Kept>, NoMemory>
    ensures { IfOk result
        (λ kept. kept ≡ map kept_of (filter (is_to_abort world.now aborted.now) world.now.tasks)) }
{
    let mut kept = List::new(alloc);
    for task in world.tasks.iter() {
        if is_to_abort(world, aborted, task) {
            kept.push_back(kept_of(task))?;
        }
    }
    Ok(kept)
}

fn put_abnormal(world: &mut World, name: Who)
    ensures { world.new ≡ edit_task name abnormal_task world.old }
{
    if let Some(task) = task_mut(world, name) {
        task.abnormal = true;
    }
}

// These tasks become abnormal.
fn all_become_abnormal(effect: &mut Effect, tasks: &List<Kept>)
    ensures { Did (for_each (tasks_kept tasks.now) (λ t. changes (edit_task t.who abnormal_task)))
        effect.old effect.new }
{
    for task in tasks.iter() {
        put_abnormal(&mut effect.world, task.who);
    }
}

#[tactic(auto, unfolding(profile_machine::specs::Tasking::says_abort))]
fn says_abort(effect: &mut Effect, actor: Who, name: Who) -> Result<(), NoMemory>
    ensures { OnOk result (Did (says_abort actor name) effect.old effect.new) }
{
    match (actor, name) {
        (Who::Task(task), Who::Task(victim)) => says(
            effect,
            Part::Own,
            Line::Abort { task, victim },
        ),
        _ => Ok(()),
    }
}

// A task that is made and not activated terminates at once; the outermost scope of another is
// struck.
#[tactic(auto, unfolding(profile_machine::specs::Tasking::abort_one))]
fn abort_one(
    alloc: Global,
    p: &Program,
    effect: &mut Effect,
    actor: Who,
    task: Kept,
) -> Result<(), NoMemory>
    ensures { OnOk result (Did (abort_one p.now actor (task_kept task)) effect.old effect.new) }
{
    says_abort(effect, actor, task.who)?;
    if task.is_made {
        end_made(alloc, p, effect, actor, task)
    } else {
        strike_outermost(&mut effect.world, task.who);
        Ok(())
    }
}

fn all_aborted(
    alloc: Global,
    p: &Program,
    effect: &mut Effect,
    actor: Who,
    tasks: &List<Kept>,
) -> Result<(), NoMemory>
    ensures { OnOk result
        (Did (for_each (tasks_kept tasks.now) (abort_one p.now actor)) effect.old effect.new) }
{
    for task in tasks.iter() {
        abort_one(alloc, p, effect, actor, *task)?;
    }
    Ok(())
}

// First all become abnormal, then each is aborted, and then each is unwound.
#[tactic(auto, unfolding(profile_machine::specs::Tasking::abort_all))]
fn abort_all(
    alloc: Global,
    p: &Program,
    effect: &mut Effect,
    actor: Who,
    tasks: &List<Kept>,
) -> Result<(), NoMemory>
    ensures { OnOk result
        (Did (abort_all p.now actor (tasks_kept tasks.now)) effect.old effect.new) }
{
    all_become_abnormal(effect, tasks);
    all_aborted(alloc, p, effect, actor, tasks)?;
    unwind_kept(p, effect, actor, tasks)
}

// These tasks, and those that depend on them, are aborted.
#[tactic(auto, using(crate::proofs::KeptLemmas::kept_laws))]
fn tasks_aborted(
    alloc: Global,
    p: &Program,
    effect: &mut Effect,
    actor: Who,
    aborted: &List<TaskNo>,
) -> Result<(), NoMemory>
    ensures { OnOk result
        (Did (looks (λ w. abort_all p.now actor (filter (is_to_abort w aborted.now) w.tasks)))
        effect.old effect.new) }
{
    let tasks = all_to_abort(alloc, &effect.world, aborted)?;
    abort_all(alloc, p, effect, actor, &tasks)
}

/// An abort statement (9.8). Program_Error is raised inside a protected action.
#[tactic(auto, unfolding(profile_machine::specs::Tasking::abort_statement))]
pub fn abort_statement(
    alloc: Global,
    p: &Program,
    effect: &mut Effect,
    name: Who,
    s: StatementNo,
    tasks: &[DeclNo],
) -> Result<(), NoMemory>
    ensures { OnOk result (Did (abort_statement p.now name s tasks.now) effect.old effect.new) }
{
    if in_protected(&effect.world, name) {
        return raises(effect, Part::Own, name, Raised::Program);
    }
    let named = named_tasks(alloc, &seen_by(p, &effect.world, name), tasks);
    match named {
        Ok(aborted) => {
            goes(effect, name, next_of(p, s));
            tasks_aborted(alloc, p, effect, name, &aborted)
        }
        Err(answer) => refused(effect, name, answer),
    }
}
