//! A task terminates (ISO/IEC 8652:2012, 9.3).
ghost use Rattle.std.specs.Prelude.{◌≡◌, OnOk, find, option_copied};
ghost use Rattle.profile_machine.specs.Masters.{waits_for_dependents, wake_master};
ghost use Rattle.profile_machine.specs.Masters.{forget_task, terminate};
ghost use Rattle.profile_machine.specs.Steps.{for_some};
ghost use Rattle.profile_machine.specs.Tasks.{is_who, task_of};
ghost use Rattle.profile_image.specs.Words.{without};
ghost use Rattle.machine_frames.specs.Did.{Did};

use crate::completion::complete;
use crate::masters::has_dependents;
use ann_base::{NoMemory, RegionNo};
use machine_dispatching::{part_of, ready};
use machine_frames::{Effect, drop_delay, task_at, waiting_in};
use machine_program::Program;
use profile_machine::world::{Task, Waiting, World, same_who};
use rosters::Roster;
use std::alloc::Global;
use trace_text::Who;

fn waits_for_dependents(region: RegionNo, task: &Task) -> bool
    ensures { result ≡ waits_for_dependents region task.now }
{
    match waiting_in(&task.state) {
        Some(Waiting::Dependents(awaited)) => region.0 == awaited.0,
        _ => false,
    }
}

// The task that waits for those that depend on the region, if one does.
fn waiting_master(world: &World, region: RegionNo) -> Option<&Task>
    ensures { option_copied result ≡ find (waits_for_dependents region) world.now.tasks }
{
    world
        .tasks
        .iter()
        .find(|task| waits_for_dependents(region, task))
}

// A master that waits becomes ready when the last task that depends on it has terminated.
#[tactic(auto, unfolding(profile_machine::specs::Masters::wake_master))]
fn wake_master(
    p: &Program,
    effect: &mut Effect,
    actor: Who,
    region: RegionNo,
) -> Result<(), NoMemory>
    ensures { OnOk result (Did (wake_master p.now actor region) effect.old effect.new) }
{
    if has_dependents(&effect.world, region) {
        return Ok(());
    }
    match waiting_master(&effect.world, region) {
        Some(task) => {
            let name = task.who;
            ready(p, effect, part_of(actor, name), name)
        }
        None => Ok(()),
    }
}

// The same where there is a master.
fn wake_master_of(
    p: &Program,
    effect: &mut Effect,
    actor: Who,
    master: Option<RegionNo>,
) -> Result<(), NoMemory>
    ensures { OnOk result (Did (for_some master (wake_master p.now actor)) effect.old effect.new) }
{
    match master {
        Some(region) => wake_master(p, effect, actor, region),
        None => Ok(()),
    }
}

fn forget_in(tasks: &mut Roster<Task>, name: Who)
    ensures { tasks.new ≡ without (is_who name) tasks.old }
{
    tasks.retain(|task| !same_who(name, task.who));
}

// The task is no longer there.
fn forget_task(world: &mut World, name: Who)
    ensures { world.new ≡ forget_task name world.old }
{
    forget_in(&mut world.tasks, name);
}

fn master_of(world: &World, name: Who) -> Option<RegionNo>
    ensures { result ≡ (task_of world.now name).master }
{
    task_at(world, name)?.master
}

/// A task terminates: it is completed if it was not, and is no longer there; its master that waits
/// becomes ready where it was the last that depended on it.
#[tactic(auto, unfolding(profile_machine::specs::Masters::terminate))]
pub fn terminate(
    alloc: Global,
    p: &Program,
    effect: &mut Effect,
    actor: Who,
    name: Who,
) -> Result<(), NoMemory>
    ensures { OnOk result (Did (terminate p.now actor name) effect.old effect.new) }
{
    let master = master_of(&effect.world, name);
    complete(alloc, p, effect, actor, name)?;
    drop_delay(&mut effect.world, name);
    forget_task(&mut effect.world, name);
    wake_master_of(p, effect, actor, master)
}
