//! A kept scope is left (ISO/IEC 8652:2012, 7.6.1, 9.3): `leave`, and the wait for those that
//! depend on it.
ghost use Rattle.std.specs.Prelude.{◌≡◌, filter, map, IfOk, OnOk};
ghost use Rattle.profile_machine.specs.Frames.{edit_top};
ghost use Rattle.profile_machine.specs.Steps.{for_each, looks};
ghost use Rattle.profile_machine.specs.Tasking.{leaves_as, is_made_in, end_made, left_so_frame};
ghost use Rattle.profile_machine.specs.Tasking.{is_task_scope, complete_if_task};
ghost use Rattle.profile_machine.specs.Tasking.{wait_for_dependents, leave_region};
ghost use Rattle.machine_frames.specs.Did.{Did};
ghost use Rattle.machine_tasking.specs.KeptTasks.{kept_of, task_kept, tasks_kept};

use crate::endings::says_done;
use crate::falling::fall_from;
use crate::kept::{Kept, kept_of};
use ann_base::{NoMemory, RegionNo};
use machine_controlled::set_being_left;
use machine_dispatching::{active_of, block};
use machine_frames::{Effect, is_made, says, task_mut};
use machine_masters::{complete, has_dependents, terminate};
use machine_program::Program;
use profile_machine::Leaving;
use profile_machine::world::{Line, Part, Purpose, ScopeMark, Task, Waiting, World};
use rosters::Roster;
use std::alloc::Global;
use trace_text::{Leaves, Who};
use world_tables::List;

// The word for how a scope is left.
fn leaves_as(leaving: Leaving) -> Leaves
    ensures { result ≡ leaves_as leaving }
{
    match leaving {
        Leaving::End => Leaves::End,
        Leaving::Return => Leaves::Return,
        Leaving::Exit(_) => Leaves::Exit,
        Leaving::Exception(_) => Leaves::Exception,
        Leaving::Abort => Leaves::Abort,
        Leaving::Terminate => Leaves::Terminate,
    }
}

fn is_made_in(region: RegionNo, task: &Task) -> bool
    ensures { result ≡ is_made_in region task.now }
{
    let is_of_region = match task.master {
        Some(master) => master.0 == region.0,
        None => false,
    };
    is_made(task) && is_of_region
}

// The tasks that were made in the region's scope and are not activated.
fn all_made_in(
    alloc: Global,
    tasks: &Roster<Task>,
    region: RegionNo,
) -> Result<List<Kept>, NoMemory>
    ensures { IfOk result (λ kept. kept ≡ map kept_of (filter (is_made_in region) tasks.now)) }
{
    let mut kept = List::new(alloc);
    for task in tasks.iter() {
        if is_made_in(region, task) {
            kept.push_back(kept_of(task))?;
        }
    }
    Ok(kept)
}

/// A task that was made and not activated is done.
#[tactic(auto, unfolding(profile_machine::specs::Tasking::end_made))]
pub(crate) fn end_made(
    alloc: Global,
    p: &Program,
    effect: &mut Effect,
    actor: Who,
    task: Kept,
) -> Result<(), NoMemory>
    ensures { OnOk result (Did (end_made p.now actor (task_kept task)) effect.old effect.new) }
{
    says_done(effect, Part::OfOther(task.who), task.who)?;
    terminate(alloc, p, effect, actor, task.who)
}

// These tasks, which were made and not activated, are done.
fn end_all_made(
    alloc: Global,
    p: &Program,
    effect: &mut Effect,
    actor: Who,
    tasks: &List<Kept>,
) -> Result<(), NoMemory>
    ensures { OnOk result
        (Did (for_each (tasks_kept tasks.now) (end_made p.now actor)) effect.old effect.new) }
{
    for task in tasks.iter() {
        end_made(alloc, p, effect, actor, *task)?;
    }
    Ok(())
}

// The tasks that were made in the region's scope and are not activated are done.
#[tactic(auto, using(crate::proofs::KeptLemmas::kept_laws))]
fn end_made_in(
    alloc: Global,
    p: &Program,
    effect: &mut Effect,
    actor: Who,
    region: RegionNo,
) -> Result<(), NoMemory>
    ensures { OnOk result
        (Did (looks (λ w. for_each (filter (is_made_in region) w.tasks) (end_made p.now actor)))
        effect.old effect.new) }
{
    let tasks = all_made_in(alloc, &effect.world.tasks, region)?;
    end_all_made(alloc, p, effect, actor, &tasks)
}

fn put_left_as(world: &mut World, name: Who, leaving: Leaving)
    ensures { world.new ≡ edit_top name (left_so_frame leaving) world.old }
{
    if let Some(task) = task_mut(world, name) {
        if let Some(frame) = task.frames.front_mut() {
            frame.left_as = Some(leaving);
        }
    }
}

fn is_task_scope(purpose: &Purpose) -> bool
    ensures { result ≡ is_task_scope purpose.now }
{
    match purpose {
        Purpose::Block(_) => false,
        Purpose::Subprogram(_, _) => false,
        Purpose::EntryBody(_) => false,
        Purpose::Task => true,
    }
}

// A task whose outermost scope is kept is completed here.
#[tactic(auto, unfolding(profile_machine::specs::Tasking::complete_if_task))]
fn complete_if_task(
    alloc: Global,
    p: &Program,
    effect: &mut Effect,
    name: Who,
    purpose: &Purpose,
) -> Result<(), NoMemory>
    ensures { OnOk result (Did (complete_if_task p.now name purpose.now) effect.old effect.new) }
{
    if is_task_scope(purpose) {
        let before = active_of(p, &effect.world, name);
        complete(alloc, p, effect, name, name)?;
        fall_from(p, effect, name, before)
    } else {
        Ok(())
    }
}

#[tactic(auto, unfolding(profile_machine::specs::Tasking::wait_for_dependents))]
fn wait_for_dependents(effect: &mut Effect, name: Who, region: RegionNo) -> Result<(), NoMemory>
    ensures { OnOk result (Did (wait_for_dependents name region) effect.old effect.new) }
{
    if has_dependents(&effect.world, region) {
        block(effect, Part::TheBlock, name, Waiting::Dependents(region))
    } else {
        Ok(())
    }
}

/// The leaving of a kept scope begins.
#[tactic(auto, unfolding(profile_machine::specs::Tasking::leave_region))]
pub(crate) fn leave_region(
    alloc: Global,
    p: &Program,
    effect: &mut Effect,
    name: Who,
    m: &ScopeMark,
    leaving: Leaving,
    region: RegionNo,
) -> Result<(), NoMemory>
    ensures { OnOk result
        (Did (leave_region p.now name m.now leaving region) effect.old effect.new) }
{
    set_being_left(&mut effect.world, name);
    put_left_as(&mut effect.world, name, leaving);
    let how = leaves_as(leaving);
    says(
        effect,
        Part::Own,
        Line::Leave {
            who: name,
            region,
            how,
        },
    )?;
    end_made_in(alloc, p, effect, name, region)?;
    complete_if_task(alloc, p, effect, name, &m.purpose)?;
    wait_for_dependents(effect, name, region)
}
