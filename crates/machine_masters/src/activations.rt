//! The end of a task's activation (ISO/IEC 8652:2012, 9.2).
ghost use Rattle.std.specs.Prelude.{◌≡◌, ◌||◌, OnOk};
ghost use Rattle.profile_machine.specs.Masters.{has_activating, is_activated_by};
ghost use Rattle.profile_machine.specs.Masters.{waits_for_activation, with_failure};
ghost use Rattle.profile_machine.specs.Masters.{wake_activator, end_group, not_activating};
ghost use Rattle.profile_machine.specs.Masters.{end_activation_by, end_activation};
ghost use Rattle.profile_machine.specs.Tasks.{edit_task, task_of, waiting_of};
ghost use Rattle.machine_frames.specs.Did.{Did};

use ann_base::{NoMemory, Raised};
use machine_dispatching::{lose, part_of, ready};
use machine_frames::{Effect, open_sequence, raises, task_at, task_mut, waiting_of};
use machine_program::Program;
use profile_machine::world::{Cause, Part, Task, Waiting, World, same_who};
use trace_text::Who;

fn is_activated_by(name: Who, task: &Task) -> bool
    ensures { result ≡ is_activated_by name task.now }
{
    match task.activator {
        Some(activator) => same_who(activator, name),
        None => false,
    }
}

/// Whether some task of the group that the one with this name activates is still being activated.
pub fn has_activating(world: &World, name: Who) -> bool
    ensures { result ≡ has_activating world.now name }
{
    world.tasks.iter().any(|task| is_activated_by(name, task))
}

// Whether the one with this name waits for the tasks that it activates.
fn waits_for_activation(world: &World, name: Who) -> bool
    ensures { result ≡ waits_for_activation (waiting_of world.now name) }
{
    match waiting_of(world, name) {
        Some(waiting) => matches!(waiting, Waiting::Activation),
        None => false,
    }
}

/// Whether a task of the group that the one with this name activates has failed.
pub fn has_group_failed(world: &World, name: Who) -> bool
    ensures { result ≡ (task_of world.now name).group_failed }
{
    match task_at(world, name) {
        Some(task) => task.group_failed,
        None => false,
    }
}

fn add_failure(world: &mut World, name: Who, failed: bool)
    ensures { world.new ≡ edit_task name (with_failure failed) world.old }
{
    if let Some(task) = task_mut(world, name) {
        task.group_failed = task.group_failed || failed;
    }
}

// Tasking_Error is raised once in the activator where a task of the group failed.
#[tactic(auto, unfolding(profile_machine::specs::Masters::wake_activator))]
fn wake_activator(p: &Program, effect: &mut Effect, part: Part, name: Who) -> Result<(), NoMemory>
    ensures { OnOk result (Did (wake_activator p.now part name) effect.old effect.new) }
{
    let failed = has_group_failed(&effect.world, name);
    ready(p, effect, part, name)?;
    if failed {
        raises(effect, part, name, Raised::Tasking)?;
    }
    open_sequence(p, effect, part, name)
}

// Behind the last of the group the activator is ready, if it still waits for this activation.
#[tactic(auto, unfolding(profile_machine::specs::Masters::end_group))]
fn end_group(p: &Program, effect: &mut Effect, actor: Who, activator: Who) -> Result<(), NoMemory>
    ensures { OnOk result (Did (end_group p.now actor activator) effect.old effect.new) }
{
    if !has_activating(&effect.world, activator) && waits_for_activation(&effect.world, activator) {
        wake_activator(p, effect, part_of(actor, activator), activator)
    } else {
        Ok(())
    }
}

fn drop_activator(world: &mut World, name: Who)
    ensures { world.new ≡ edit_task name not_activating world.old }
{
    if let Some(task) = task_mut(world, name) {
        task.activator = None;
    }
}

// The activation by this one ends: the task loses the inherited priority.
#[tactic(auto, unfolding(profile_machine::specs::Masters::end_activation_by))]
fn end_activation_by(
    p: &Program,
    effect: &mut Effect,
    actor: Who,
    name: Who,
    failed: bool,
    activator: Option<Who>,
) -> Result<(), NoMemory>
    ensures { OnOk result
        (Did (end_activation_by p.now actor name failed activator) effect.old effect.new) }
{
    match activator {
        Some(activator) => {
            drop_activator(&mut effect.world, name);
            lose(&mut effect.world, name, Cause::Activation);
            add_failure(&mut effect.world, activator, failed);
            end_group(p, effect, actor, activator)
        }
        None => Ok(()),
    }
}

fn activator_of(world: &World, name: Who) -> Option<Who>
    ensures { result ≡ (task_of world.now name).activator }
{
    task_at(world, name)?.activator
}

/// The activation of a task ends, if it is being activated; it may have failed.
#[tactic(auto, unfolding(profile_machine::specs::Masters::end_activation))]
pub fn end_activation(
    p: &Program,
    effect: &mut Effect,
    actor: Who,
    name: Who,
    failed: bool,
) -> Result<(), NoMemory>
    ensures { OnOk result (Did (end_activation p.now actor name failed) effect.old effect.new) }
{
    let activator = activator_of(&effect.world, name);
    end_activation_by(p, effect, actor, name, failed, activator)
}
