//! The activation of the tasks that a declarative part made (ISO/IEC 8652:2012, 9.2).
ghost use Rattle.std.specs.Prelude.{◌≡◌, OnOk};
ghost use Rattle.profile_machine.specs.Tasks.{edit_task};
ghost use Rattle.profile_machine.specs.Tasking.{region_of_frames, top_region_of_scope};
ghost use Rattle.profile_machine.specs.Tasking.{await_group, no_failure, activate_group};
ghost use Rattle.profile_machine.specs.Tasking.{activate, end_own_activation};
ghost use Rattle.machine_frames.specs.Did.{Did};

use crate::beginning::{activate_all, all_to_activate};
use crate::falling::fall_from;
use ann_base::{NoMemory, Raised, RegionNo};
use machine_controlled::region_or_none;
use machine_dispatching::{active_of, block};
use machine_frames::{Effect, bars_tasks, goes, raises, region_of_mark, task_at, task_mut};
use machine_masters::{end_activation, has_activating, has_group_failed};
use machine_program::{Program, next_of};
use profile_image::StatementNo;
use profile_machine::world::{FrameStack, Part, Waiting, World};
use std::alloc::Global;
use trace_text::Who;

// The region of the topmost mark that has one.
fn region_of_frames(frames: &FrameStack) -> Option<RegionNo>
    ensures { result ≡ region_of_frames frames.now }
{
    for frame in frames.iter() {
        if let Some(region) = region_of_mark(&frame.mark) {
            return Some(region);
        }
    }
    None
}

// The region of the scope on top; a sequence with handlers may stand above it.
fn top_region_of_scope(world: &World, name: Who) -> RegionNo
    ensures { result ≡ top_region_of_scope world.now name }
{
    match task_at(world, name) {
        Some(task) => region_or_none(region_of_frames(&task.frames)),
        None => region_or_none(None),
    }
}

fn drop_failure(world: &mut World, name: Who)
    ensures { world.new ≡ edit_task name no_failure world.old }
{
    if let Some(task) = task_mut(world, name) {
        task.group_failed = false;
    }
}

// The activator blocks where some task begins; else Tasking_Error is raised in it at once, if one
// failed.
#[tactic(auto, unfolding(profile_machine::specs::Tasking::await_group))]
fn await_group(
    effect: &mut Effect,
    name: Who,
    activating: bool,
    failed: bool,
) -> Result<(), NoMemory>
    ensures { OnOk result (Did (await_group name activating failed) effect.old effect.new) }
{
    if activating {
        block(effect, Part::TheBlock, name, Waiting::Activation)
    } else if failed {
        raises(effect, Part::TheBlock, name, Raised::Tasking)
    } else {
        Ok(())
    }
}

// The tasks that a declarative part made become ready, in order of number, and the activator waits
// for the end of their activations.
fn activate_group(
    alloc: Global,
    p: &Program,
    effect: &mut Effect,
    name: Who,
    s: StatementNo,
    declarative_part: u32,
) -> Result<(), NoMemory>
    ensures { OnOk result
        (Did (activate_group p.now name s declarative_part) effect.old effect.new) }
{
    let region = top_region_of_scope(&effect.world, name);
    let level = active_of(p, &effect.world, name);
    let tasks = all_to_activate(alloc, &effect.world.tasks, region, declarative_part)?;
    goes(effect, name, next_of(p, s));
    drop_failure(&mut effect.world, name);
    activate_all(alloc, p, effect, name, level, &tasks)?;
    let activating = has_activating(&effect.world, name);
    let failed = has_group_failed(&effect.world, name);
    await_group(effect, name, activating, failed)
}

/// The tasks that a declarative part made are activated (9.2). Program_Error is raised where no
/// task may be created either: inside a protected action, and wherever abort is deferred.
#[tactic(auto, unfolding(profile_machine::specs::Tasking::activate))]
pub fn activate(
    alloc: Global,
    p: &Program,
    effect: &mut Effect,
    name: Who,
    s: StatementNo,
    declarative_part: u32,
) -> Result<(), NoMemory>
    ensures { OnOk result (Did (activate p.now name s declarative_part) effect.old effect.new) }
{
    if bars_tasks(&effect.world, name) {
        return raises(effect, Part::Own, name, Raised::Program);
    }
    activate_group(alloc, p, effect, name, s, declarative_part)
}

/// The end of a task's own activation: it goes to the head where its active priority falls.
#[tactic(auto, unfolding(profile_machine::specs::Tasking::end_own_activation))]
pub fn end_own_activation(
    p: &Program,
    effect: &mut Effect,
    name: Who,
    s: StatementNo,
) -> Result<(), NoMemory>
    ensures { OnOk result (Did (end_own_activation p.now name s) effect.old effect.new) }
{
    let before = active_of(p, &effect.world, name);
    goes(effect, name, next_of(p, s));
    end_activation(p, effect, name, name, false)?;
    fall_from(p, effect, name, before)
}
