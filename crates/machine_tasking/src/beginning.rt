//! The activation of each of several tasks begins (ISO/IEC 8652:2012, 9.2).
ghost use Rattle.std.specs.Prelude.{◌≡◌, filter, map, IfOk, OnOk};
ghost use Rattle.profile_machine.specs.declared.world.tasks.Task.{Task as AnyTask};
ghost use Rattle.profile_machine.specs.Steps.{for_each};
ghost use Rattle.profile_machine.specs.Tasks.{edit_task};
ghost use Rattle.profile_machine.specs.Tasking.{is_to_activate, unit_of_task, deadline_at};
ghost use Rattle.profile_machine.specs.Tasking.{activated_task, begin_task, says_done};
ghost use Rattle.profile_machine.specs.Tasking.{group_fails, fail_to_begin, activate_one};
ghost use Rattle.profile_machine.specs.Scopes.{open_scope, plainly};
ghost use Rattle.profile_machine.specs.declared.world.marks.Purpose.TheVariants as opened_for;
ghost use Rattle.machine_frames.specs.Did.{Did};
ghost use Rattle.machine_tasking.specs.KeptTasks.{kept_of, task_kept, tasks_kept};

use crate::endings::says_done;
use crate::kept::{Kept, kept_of};
use ann_base::{Level, Moment, NoMemory, Raised, RegionNo};
use machine_dispatching::{inherit, ready};
use machine_frames::{Effect, has_room, is_made, says, task_mut};
use machine_masters::terminate;
use machine_operators::held_moment;
use machine_program::{Program, scope_of, task_unit_of};
use machine_scopes::{open_scope, plainly};
use profile_image::{TaskUnit, TaskUnitNo};
use profile_machine::world::{Cause, Line, Part, Purpose, Task, World};
use rosters::Roster;
use std::alloc::Global;
use trace_text::Who;
use world_tables::List;

/// Whether a task was made by this declarative part of the region's scope, and is not activated.
pub fn is_to_activate(region: RegionNo, declarative_part: u32, task: &Task) -> bool
    ensures { result ≡ is_to_activate region declarative_part task.now }
{
    let is_of_region = match task.master {
        Some(master) => master.0 == region.0,
        None => false,
    };
    is_made(task) && is_of_region && task.declarative_part == declarative_part
}

/// The tasks that are to be activated, in order of number.
pub(crate) fn all_to_activate(
    alloc: Global,
    tasks: &Roster<Task>,
    region: RegionNo,
    declarative_part: u32,
) -> Result<List<Kept>, NoMemory>
    ensures { IfOk result
        (λ kept. kept ≡ map kept_of (filter (is_to_activate region declarative_part) tasks.now)) }
{
    let mut kept = List::new(alloc);
    for task in tasks.iter() {
        if is_to_activate(region, declarative_part, task) {
            kept.push_back(kept_of(task))?;
        }
    }
    Ok(kept)
}

// The unit of a task.
fn unit_of_task(p: &Program, task: Kept) -> &TaskUnit
    ensures { result.now ≡ unit_of_task p.now (task_kept task) }
{
    match task.unit {
        Some(unit) => task_unit_of(p, unit),
        None => task_unit_of(p, TaskUnitNo(0)),
    }
}

// The deadline that a relative one gives; without one it stays what it was.
fn deadline_at(now: u64, span: Option<Moment>, old_deadline: Moment) -> Result<Moment, NoMemory>
    ensures { IfOk result (λ deadline. deadline ≡ deadline_at now span old_deadline) }
{
    let Some(span) = span else {
        return Ok(old_deadline);
    };
    let Ok(now) = Moment::try_from(now) else {
        return Err(NoMemory);
    };
    let deadline = now.checked_add(span).ok_or(NoMemory)?;
    Ok(held_moment(deadline))
}

fn put_activated(world: &mut World, name: Who, activator: Who, now: u64) -> Result<(), NoMemory>
    ensures { OnOk result (world.new ≡ edit_task name (activated_task activator now) world.old) }
{
    if let Some(task) = task_mut(world, name) {
        let deadline = deadline_at(now, task.relative_deadline, task.deadline)?;
        task.activator = Some(activator);
        task.deadline = deadline;
    }
    Ok(())
}

// The scope of the body of a task is opened.
fn open_body(alloc: Global, p: &Program, world: &mut World, task: Kept) -> Result<(), NoMemory>
    ensures { OnOk result
        (world.new
        ≡ open_scope p.now task.who (unit_of_task p.now (task_kept task)).scope
        (plainly task.outer) opened_for.Task world.old) }
{
    let scope = unit_of_task(p, task).scope;
    let beginning = plainly(alloc, task.outer);
    open_scope(alloc, p, task.who, scope, beginning, Purpose::Task, world)
}

fn begin_task(
    alloc: Global,
    p: &Program,
    effect: &mut Effect,
    activator: Who,
    level: Level,
    task: Kept,
) -> Result<(), NoMemory>
    ensures { OnOk result
        (Did (begin_task p.now activator level (task_kept task)) effect.old effect.new) }
{
    let now = effect.world.time;
    open_body(alloc, p, &mut effect.world, task)?;
    put_activated(&mut effect.world, task.who, activator, now)?;
    inherit(&mut effect.world, task.who, Cause::Activation, level)?;
    ready(p, effect, Part::OfOther(task.who), task.who)
}

fn put_group_failed(world: &mut World, name: Who)
    ensures { world.new ≡ edit_task name group_fails world.old }
{
    if let Some(task) = task_mut(world, name) {
        task.group_failed = true;
    }
}

// A task without room raises Storage_Error and is done, and counts as failed.
#[tactic(auto, unfolding(profile_machine::specs::Tasking::fail_to_begin))]
fn fail_to_begin(
    alloc: Global,
    p: &Program,
    effect: &mut Effect,
    activator: Who,
    name: Who,
) -> Result<(), NoMemory>
    ensures { OnOk result
        ((task : AnyTask) → task.who ≡ name
        → Did (fail_to_begin p.now activator task) effect.old effect.new) }
{
    let exception = Raised::Storage;
    says(
        effect,
        Part::OfOther(name),
        Line::Raise {
            who: name,
            exception,
        },
    )?;
    says_done(effect, Part::OfOther(name), name)?;
    put_group_failed(&mut effect.world, activator);
    terminate(alloc, p, effect, activator, name)
}

#[tactic(auto, unfolding(profile_machine::specs::Tasking::activate_one))]
fn activate_one(
    alloc: Global,
    p: &Program,
    effect: &mut Effect,
    activator: Who,
    level: Level,
    task: Kept,
) -> Result<(), NoMemory>
    ensures { OnOk result
        (Did (activate_one p.now activator level (task_kept task)) effect.old effect.new) }
{
    let size = scope_of(p, unit_of_task(p, task).scope).size;
    if has_room(&effect.world, task.who, 1, size) {
        begin_task(alloc, p, effect, activator, level, task)
    } else {
        fail_to_begin(alloc, p, effect, activator, task.who)
    }
}

/// The activation of each of these tasks begins.
pub(crate) fn activate_all(
    alloc: Global,
    p: &Program,
    effect: &mut Effect,
    activator: Who,
    level: Level,
    tasks: &List<Kept>,
) -> Result<(), NoMemory>
    ensures { OnOk result
        (Did (for_each (tasks_kept tasks.now) (activate_one p.now activator level)) effect.old
        effect.new) }
{
    for task in tasks.iter() {
        activate_one(alloc, p, effect, activator, level, *task)?;
    }
    Ok(())
}
