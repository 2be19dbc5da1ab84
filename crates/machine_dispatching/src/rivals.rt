//! The level that a task on an EDF range keeps (ISO/IEC 8652:2012, D.2.6): that of an object in
//! which everybody has a later deadline, with no ready task of an earlier one between.
ghost use Rattle.std.specs.Prelude.{◌≡◌, ◌&&◌, not};
ghost use Rattle.profile_machine.specs.Dispatching.{all_later, of_level, from_to, inside_object};
ghost use Rattle.profile_machine.specs.Dispatching.{inside_objects, ready_rivals, may_stand_at};
ghost use Rattle.profile_machine.specs.Dispatching.{greatest_level, edf_level};
ghost use Rattle.profile_machine.specs.Tasks.{is_runnable, is_who};

use crate::levels::{active, deadline_of};
use ann_base::{Level, Moment};
use machine_frames::is_runnable;
use machine_program::Program;
use profile_machine::world::{Object, Task, World, same_who};
use rosters::Roster;
use trace_text::Who;

// Whether everybody inside an object has a later deadline, or its ceiling is another level.
fn is_later_inside(world: &World, object: &Object, level: Level, deadline: Moment) -> bool
    ensures { result
        ≡ all_later deadline
        (of_level level (inside_object world.now object.now.ceiling object.now.actions)) }
{
    for action in object.actions.iter() {
        if object.ceiling == level && deadline_of(world, action.who) <= deadline {
            return false;
        }
    }
    true
}

// Whether everybody inside the objects of this ceiling has a later deadline.
#[tactic(auto, using(crate::proofs::LevelLemmas::later_laws))]
fn are_later_inside(world: &World, level: Level, deadline: Moment) -> bool
    ensures { result
        ≡ all_later deadline (of_level level (inside_objects world.now world.now.objects)) }
{
    for object in world.objects.iter() {
        if !is_later_inside(world, object, level, deadline) {
            return false;
        }
    }
    true
}

// Whether the other tasks that are ready at levels from `low` on and below `level` have later
// deadlines.
fn are_later_ready(
    p: &Program,
    name: Who,
    tasks: &Roster<Task>,
    low: Level,
    level: Level,
    deadline: Moment,
) -> bool
    ensures { result ≡ all_later deadline (from_to low level (ready_rivals p.now name tasks.now)) }
{
    for task in tasks.iter() {
        if is_rival(name, task) {
            let active = active(p, task);
            if low <= active && active < level && task.deadline <= deadline {
                return false;
            }
        }
    }
    true
}

fn is_rival(name: Who, task: &Task) -> bool
    ensures { result ≡ (is_runnable task.now && not (is_who name task.now)) }
{
    is_runnable(task) && !same_who(name, task.who)
}

// Whether the task may keep the ceiling of somebody inside.
fn may_stand_at(p: &Program, world: &World, task: &Task, low: Level, ceiling: Level) -> bool
    ensures { result
        ≡ may_stand_at low task.now.base task.now.deadline
        (inside_objects world.now world.now.objects)
        (ready_rivals p.now task.now.who world.now.tasks) ceiling }
{
    ceiling < task.base
        && are_later_inside(world, ceiling, task.deadline)
        && are_later_ready(p, task.who, &world.tasks, low, ceiling, task.deadline)
}

// The ceiling of an object where somebody is inside and the task may keep it, else `least`, if that
// is not less.
#[tactic(auto, using(crate::proofs::LevelLemmas::level_laws))]
fn level_inside(
    p: &Program,
    world: &World,
    task: &Task,
    low: Level,
    object: &Object,
    least: Level,
) -> Level
    ensures { result
        ≡ greatest_level
        (may_stand_at low task.now.base task.now.deadline
        (inside_objects world.now world.now.objects)
        (ready_rivals p.now task.now.who world.now.tasks))
        (inside_object world.now object.now.ceiling object.now.actions) least }
{
    if !object.actions.is_empty() && may_stand_at(p, world, task, low, object.ceiling) {
        object.ceiling.max(least)
    } else {
        least
    }
}

/// The level that a task keeps whose base lies in the EDF range from `low` on: the greatest ceiling
/// below its base of an object in which somebody is and which it may enter, and no less than `low`
/// and what it inherits.
#[tactic(auto, using(crate::proofs::LevelLemmas::level_laws))]
pub fn edf_level(p: &Program, world: &World, task: &Task, low: Level, inherited: Level) -> Level
    ensures { result
        ≡ edf_level low task.now.base inherited task.now.deadline
        (inside_objects world.now world.now.objects)
        (ready_rivals p.now task.now.who world.now.tasks) }
{
    let least = low.max(inherited);
    let mut greatest = least;
    for object in world.objects.iter() {
        greatest = greatest.max(level_inside(p, world, task, low, object, least));
    }
    greatest
}
