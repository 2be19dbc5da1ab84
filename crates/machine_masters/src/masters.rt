//! The masters on which a task depends: its own, the master of that region's owner, and so on
//! (ISO/IEC 8652:2012, 9.3).
ghost use Rattle.std.specs.Prelude.{◌≡◌, suc, Some};
ghost use Rattle.std.specs.List.{list_any};
ghost use Rattle.profile_machine.specs.Masters.{masters_from, depends_on_region, is_task};
ghost use Rattle.profile_machine.specs.Masters.{owner_of, depends_on_task, has_dependents};
ghost use Rattle.profile_image.specs.Words.{has, is_the, same_region};

use crate::regions::owner_of;
use ann_base::RegionNo;
use profile_machine::world::{Task, World, same_who};
use trace_text::Who;

// Whether the region is this master, or one of so many more beyond it.
#[tactic(auto, using(crate::proofs::MasterLemmas::master_laws))]
fn is_beyond(world: &World, region: RegionNo, master: RegionNo, more: usize) -> bool
    ensures { result ≡ has same_region (masters_from (suc more) world.now (Some master)) region }
{
    if master.0 == region.0 {
        return true;
    }
    let Some(owner) = owner_of(world, master) else {
        return false;
    };
    match owner.master {
        Some(next) if 0 < more => is_beyond(world, region, next, more - 1),
        _ => false,
    }
}

/// Whether a task depends on a region.
pub fn depends_on_region(world: &World, region: RegionNo, task: &Task) -> bool
    ensures { result ≡ depends_on_region world.now region task.now }
{
    match task.master {
        Some(master) => is_beyond(world, region, master, world.tasks.len()),
        None => false,
    }
}

// Whether this master, or one of so many more beyond it, is a region of the task with this name.
#[tactic(auto, using(crate::proofs::MasterLemmas::master_laws))]
fn is_owned_beyond(world: &World, name: Who, master: RegionNo, more: usize) -> bool
    ensures { result
        ≡ list_any (λ r. is_task name (owner_of world.now r))
        (masters_from (suc more) world.now (Some master)) }
{
    let Some(owner) = owner_of(world, master) else {
        return false;
    };
    if same_who(name, owner.who) {
        return true;
    }
    match owner.master {
        Some(next) if 0 < more => is_owned_beyond(world, name, next, more - 1),
        _ => false,
    }
}

/// Whether a task depends on the one with this name: some region on which it depends is one of the
/// other's.
pub fn depends_on_task(world: &World, name: Who, task: &Task) -> bool
    ensures { result ≡ depends_on_task world.now name task.now }
{
    match task.master {
        Some(master) => is_owned_beyond(world, name, master, world.tasks.len()),
        None => false,
    }
}

fn is_master(region: RegionNo, task: &Task) -> bool
    ensures { result ≡ is_the same_region task.now.master region }
{
    match task.master {
        Some(master) => master.0 == region.0,
        None => false,
    }
}

/// Whether some task has this region as its master.
pub fn has_dependents(world: &World, region: RegionNo) -> bool
    ensures { result ≡ has_dependents world.now region }
{
    world.tasks.iter().any(|task| is_master(region, task))
}
