//! What an effect brings about elsewhere: terminate alternatives that are taken, and struck
//! constructs that are left (ISO/IEC 8652:2012, 9.7.1, 9.8).
ghost use Rattle.std.specs.Prelude.{◌≡◌, filter, map, IfOk, OnOk};
ghost use Rattle.profile_machine.specs.Masters.{may_terminate, leave_by_terminate};
ghost use Rattle.profile_machine.specs.Masters.{waits_at_terminate};
ghost use Rattle.profile_machine.specs.Steps.{for_each, looks, ◌▷◌};
ghost use Rattle.profile_machine.specs.Tasks.{waiting_of};
ghost use Rattle.profile_machine.specs.Tasking.{unwind_by, unwind_one, block_at_terminate};
ghost use Rattle.profile_machine.specs.Tasking.{take_terminates, unwind_all};
ghost use Rattle.profile_machine.specs.Unwinding.{any_struck};
ghost use Rattle.machine_frames.specs.Did.{Did};
ghost use Rattle.machine_tasking.specs.KeptTasks.{kept_of, task_kept, tasks_kept};
ghost use Rattle.machine_tasking.specs.Calm.{IsCalm};

use crate::kept::{Kept, kept_of};
use ann_base::NoMemory;
use machine_calls::unwind;
use machine_dispatching::{says_waits, word_of};
use machine_frames::{Effect, may_run, waiting_of};
use machine_masters::{leave_by_terminate, may_terminate, waits_at_terminate};
use machine_program::Program;
use profile_machine::world::{Part, Task, World, same_who};
use rosters::Roster;
use std::alloc::Global;
use trace_text::Who;
use world_tables::List;

// A task that has come to its select with an open terminate alternative blocks there.
#[tactic(auto, unfolding(profile_machine::specs::Tasking::block_at_terminate, profile_machine::specs::Dispatching::says_block))]
fn block_at_terminate(effect: &mut Effect, name: Who) -> Result<(), NoMemory>
    ensures { OnOk result
        (Did (looks (λ w. block_at_terminate name (waiting_of w name))) effect.old effect.new) }
{
    match waiting_of(&effect.world, name) {
        Some(waiting) if waits_at_terminate(waiting) => {
            let waits = word_of(waiting);
            says_waits(effect, Part::TheBlock, name, waits)
        }
        _ => Ok(()),
    }
}

// The tasks that may terminate by their open terminate alternatives, found by a walk over all.
fn found_that_may_terminate(alloc: Global, world: &World) -> Result<List<Kept>, NoMemory>
    ensures { IfOk result
        (λ kept. kept ≡ map kept_of (filter (may_terminate world.now) world.now.tasks)) }
{
    let mut kept = List::new(alloc);
    for task in world.tasks.iter() {
        if may_terminate(world, task) {
            kept.push_back(kept_of(task))?;
        }
    }
    Ok(kept)
}

// The tasks that may terminate by their open terminate alternatives.
#[tactic(auto, using(crate::proofs::CalmLemmas::calm_laws))]
fn all_that_may_terminate(alloc: Global, world: &World) -> Result<List<Kept>, NoMemory>
    ensures { IfOk result
        (λ kept. kept ≡ map kept_of (filter (may_terminate world.now) world.now.tasks)) }
{
    if world.tasks.is_calm() {
        Ok(List::new(alloc))
    } else {
        found_that_may_terminate(alloc, world)
    }
}

// Each of these tasks leaves its select by the terminate alternative.
fn all_leave_by_terminate(
    p: &Program,
    effect: &mut Effect,
    actor: Who,
    tasks: &List<Kept>,
) -> Result<(), NoMemory>
    ensures { OnOk result
        (Did (for_each (tasks_kept tasks.now) (leave_by_terminate p.now actor)) effect.old
        effect.new) }
{
    for task in tasks.iter() {
        leave_by_terminate(p, effect, actor, task.who)?;
    }
    Ok(())
}

// The tasks that may terminate by their open terminate alternatives leave their selects so.
#[tactic(auto, using(crate::proofs::KeptLemmas::kept_laws))]
fn leave_selects(
    alloc: Global,
    p: &Program,
    effect: &mut Effect,
    actor: Who,
) -> Result<(), NoMemory>
    ensures { OnOk result
        (Did
        (looks
        (λ w. for_each (filter (may_terminate w) w.tasks) (leave_by_terminate p.now actor)))
        effect.old effect.new) }
{
    let tasks = all_that_may_terminate(alloc, &effect.world)?;
    all_leave_by_terminate(p, effect, actor, &tasks)
}

// Tasks at open terminate alternatives that may end become ready, in order of number (9.7.1).
#[tactic(auto, unfolding(profile_machine::specs::Tasking::take_terminates))]
fn take_terminates(
    alloc: Global,
    p: &Program,
    effect: &mut Effect,
    actor: Who,
) -> Result<(), NoMemory>
    ensures { OnOk result (Did (take_terminates p.now actor) effect.old effect.new) }
{
    leave_selects(alloc, p, effect, actor)?;
    block_at_terminate(effect, actor)
}

// Who acts is unwound where it is ready; where it has blocked in this effect it waits on.
#[tactic(auto, unfolding(profile_machine::specs::Tasking::unwind_by))]
fn unwind_by(p: &Program, effect: &mut Effect, name: Who, acts: bool) -> Result<(), NoMemory>
    ensures { OnOk result (Did (unwind_by p.now name acts) effect.old effect.new) }
{
    if !acts {
        unwind(p, effect, Part::OfOther(name), name)
    } else if may_run(&effect.world, name) {
        unwind(p, effect, Part::Own, name)
    } else {
        Ok(())
    }
}

#[tactic(auto, unfolding(profile_machine::specs::Tasking::unwind_one))]
fn unwind_one(p: &Program, effect: &mut Effect, actor: Who, task: Kept) -> Result<(), NoMemory>
    ensures { OnOk result (Did (unwind_one p.now actor (task_kept task)) effect.old effect.new) }
{
    unwind_by(p, effect, task.who, same_who(actor, task.who))
}

/// Each of these tasks is unwound where its struck construct may be left.
pub(crate) fn unwind_kept(
    p: &Program,
    effect: &mut Effect,
    actor: Who,
    tasks: &List<Kept>,
) -> Result<(), NoMemory>
    ensures { OnOk result
        (Did (for_each (tasks_kept tasks.now) (unwind_one p.now actor)) effect.old effect.new) }
{
    for task in tasks.iter() {
        unwind_one(p, effect, actor, *task)?;
    }
    Ok(())
}

// The tasks with struck constructs, found by a walk over all.
fn found_struck(alloc: Global, tasks: &Roster<Task>) -> Result<List<Kept>, NoMemory>
    ensures { IfOk result
        (λ kept. kept ≡ map kept_of (filter (λ t. any_struck t.frames) tasks.now)) }
{
    let mut kept = List::new(alloc);
    for task in tasks.iter() {
        if task.frames.any_struck() {
            kept.push_back(kept_of(task))?;
        }
    }
    Ok(kept)
}

// The tasks with struck constructs.
#[tactic(auto, using(crate::proofs::CalmLemmas::calm_laws))]
fn all_struck(alloc: Global, tasks: &Roster<Task>) -> Result<List<Kept>, NoMemory>
    ensures { IfOk result
        (λ kept. kept ≡ map kept_of (filter (λ t. any_struck t.frames) tasks.now)) }
{
    if tasks.is_calm() {
        Ok(List::new(alloc))
    } else {
        found_struck(alloc, tasks)
    }
}

// The tasks whose struck constructs may be left now are unwound (9.8).
#[tactic(auto, using(crate::proofs::KeptLemmas::kept_laws), unfolding(profile_machine::specs::Tasking::unwind_all))]
fn unwind_all(alloc: Global, p: &Program, effect: &mut Effect, actor: Who) -> Result<(), NoMemory>
    ensures { OnOk result (Did (unwind_all p.now actor) effect.old effect.new) }
{
    let tasks = all_struck(alloc, &effect.world.tasks)?;
    unwind_kept(p, effect, actor, &tasks)
}

// Whether somebody waits at an open terminate alternative, where no task stirs: no task does then.
#[tactic(auto, using(crate::proofs::CalmLemmas::waits_elsewhere))]
fn is_at_terminate(world: &World, name: Who) -> bool
    requires { IsCalm world.now.tasks }
    ensures { result ≡ waits_at_terminate (waiting_of world.now name) }
{
    match name {
        Who::Task(_) => false,
        Who::Agent => match waiting_of(world, name) {
            Some(waiting) => waits_at_terminate(waiting),
            None => false,
        },
    }
}

/// What an effect brings about elsewhere: tasks at open terminate alternatives that may end become
/// ready, in order of number, and tasks whose struck constructs may be left now are unwound (9.7.1,
/// 9.8). Most effects bring about nothing, and one look at all tasks tells so.
///
/// Errors: memory ran out.
#[tactic(auto, using(crate::proofs::CalmLemmas::nothing_elsewhere))]
pub fn bring_about(
    alloc: Global,
    p: &Program,
    effect: &mut Effect,
    actor: Who,
) -> Result<(), NoMemory>
    ensures { OnOk result
        (Did (take_terminates p.now actor ▷ unwind_all p.now actor) effect.old effect.new) }
{
    if effect.world.tasks.is_calm() && !is_at_terminate(&effect.world, actor) {
        return Ok(());
    }
    take_terminates(alloc, p, effect, actor)?;
    unwind_all(alloc, p, effect, actor)
}
