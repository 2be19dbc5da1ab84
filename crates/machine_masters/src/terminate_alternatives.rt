//! Terminate alternatives (ISO/IEC 8652:2012, 9.7.1, 9.3).
ghost use Rattle.std.specs.Prelude.{◌≡◌, ◌&&◌, suc, Some, OnOk};
ghost use Rattle.std.specs.List.{list_any};
ghost use Rattle.profile_machine.specs.Masters.{waits_at_terminate, is_at_terminate};
ghost use Rattle.profile_machine.specs.Masters.{is_region_being_left, all_at_terminate};
ghost use Rattle.profile_machine.specs.Masters.{masters_from, may_terminate, leave_by_terminate};
ghost use Rattle.profile_machine.specs.declared.world.tasks.Task.{Task as AnyTask};
ghost use Rattle.machine_frames.specs.Did.{Did};

use crate::masters::depends_on_region;
use crate::regions::{is_region_being_left, owner_of};
use ann_base::{NoMemory, RegionNo};
use machine_dispatching::ready;
use machine_frames::{Effect, drop_delay, leaves, set_state, waiting_in};
use machine_program::Program;
use profile_machine::Leaving;
use profile_machine::world::{Part, State, Task, Waiting, World, same_who};
use trace_text::Who;

/// Whether what is waited for may be an open terminate alternative.
pub fn waits_at_terminate(waiting: &Waiting) -> bool
    ensures { result ≡ waits_at_terminate (Some waiting.now) }
{
    match waiting {
        Waiting::Select(_, _, terminate) => *terminate,
        _ => false,
    }
}

fn is_at_terminate(task: &Task) -> bool
    ensures { result ≡ is_at_terminate task.now }
{
    match waiting_in(&task.state) {
        Some(waiting) => waits_at_terminate(waiting),
        None => false,
    }
}

// Whether every task that depends on the region waits at an open terminate alternative.
fn all_at_terminate(world: &World, region: RegionNo) -> bool
    ensures { result ≡ all_at_terminate world.now region }
{
    for task in world.tasks.iter() {
        if depends_on_region(world, region, task) && !is_at_terminate(task) {
            return false;
        }
    }
    true
}

// Whether a region is being left, and every task that depends on it waits at an open terminate
// alternative.
fn may_be_left(world: &World, region: RegionNo) -> bool
    ensures { result
        ≡ (is_region_being_left world.now region && all_at_terminate world.now region) }
{
    is_region_being_left(world, region) && all_at_terminate(world, region)
}

// Whether this master, or one of so many more beyond it, may be left.
#[tactic(auto, using(crate::proofs::MasterLemmas::master_laws))]
fn may_be_left_beyond(world: &World, master: RegionNo, more: usize) -> bool
    ensures { result
        ≡ list_any (λ r. is_region_being_left world.now r && all_at_terminate world.now r)
        (masters_from (suc more) world.now (Some master)) }
{
    if may_be_left(world, master) {
        return true;
    }
    let Some(owner) = owner_of(world, master) else {
        return false;
    };
    match owner.master {
        Some(next) if 0 < more => may_be_left_beyond(world, next, more - 1),
        _ => false,
    }
}

/// Whether a task may terminate by its open terminate alternative.
pub fn may_terminate(world: &World, task: &Task) -> bool
    ensures { result ≡ may_terminate world.now task.now }
{
    match task.master {
        Some(master) => {
            is_at_terminate(task) && may_be_left_beyond(world, master, world.tasks.len())
        }
        None => false,
    }
}

/// The task with this name leaves its select by the terminate alternative. One that waits becomes
/// ready; who comes to its select in this effect does not even block.
#[tactic(auto, unfolding(profile_machine::specs::Masters::leave_by_terminate))]
pub fn leave_by_terminate(
    p: &Program,
    effect: &mut Effect,
    actor: Who,
    name: Who,
) -> Result<(), NoMemory>
    ensures { OnOk result
        ((task : AnyTask) → task.who ≡ name
        → Did (leave_by_terminate p.now actor task) effect.old effect.new) }
{
    drop_delay(&mut effect.world, name);
    if same_who(actor, name) {
        set_state(&mut effect.world, name, State::Runnable);
    } else {
        ready(p, effect, Part::OfOther(name), name)?;
    }
    leaves(effect, name, Leaving::Terminate);
    Ok(())
}
