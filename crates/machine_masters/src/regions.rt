//! Regions, who owns them, and whether they are being left (ISO/IEC 8652:2012, 7.6.1, 9.3).
ghost use Rattle.std.specs.Prelude.{◌≡◌, option_copied};
ghost use Rattle.profile_machine.specs.Masters.{region_of_mark, has_region, owns};
ghost use Rattle.profile_machine.specs.Masters.{owner_of, is_scope_being_left};
ghost use Rattle.profile_machine.specs.Masters.{is_being_left_in, is_region_being_left};

use ann_base::RegionNo;
use machine_frames::region_of_mark;
use profile_machine::world::{Frame, FrameStack, Mark, Task, World};

// Whether a frame's mark has this region.
fn has_region(region: RegionNo, frame: &Frame) -> bool
    ensures { result ≡ has_region region frame.now }
{
    match region_of_mark(&frame.mark) {
        Some(of_mark) => of_mark.0 == region.0,
        None => false,
    }
}

fn owns(region: RegionNo, task: &Task) -> bool
    ensures { result ≡ owns region task.now }
{
    task.frames.iter().any(|frame| has_region(region, frame))
}

/// The task that owns a region: one of its open scopes has it.
pub(crate) fn owner_of(world: &World, region: RegionNo) -> Option<&Task>
    ensures { option_copied result ≡ owner_of world.now region }
{
    world.tasks.iter().find(|task| owns(region, task))
}

fn is_scope_being_left(mark: &Mark) -> bool
    ensures { result ≡ is_scope_being_left mark.now }
{
    match mark {
        Mark::Scope(scope) => scope.being_left,
        _ => false,
    }
}

// Whether the topmost of these frames that has the region is that of a scope that is being left.
fn is_being_left_in(region: RegionNo, frames: &FrameStack) -> bool
    ensures { result ≡ is_being_left_in region frames.now }
{
    for frame in frames.iter() {
        if has_region(region, frame) {
            return is_scope_being_left(&frame.mark);
        }
    }
    false
}

/// Whether a region is being left, which is so from its `leave` to its `left`.
pub(crate) fn is_region_being_left(world: &World, region: RegionNo) -> bool
    ensures { result ≡ is_region_being_left world.now region }
{
    world
        .tasks
        .iter()
        .any(|task| is_being_left_in(region, &task.frames))
}
