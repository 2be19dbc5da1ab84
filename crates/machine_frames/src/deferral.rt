//! Marks that defer abort, and whether a task is inside a protected action (ISO/IEC 8652:2012,
//! 9.5.1, 9.8, D.6).
ghost use Rattle.std.specs.Prelude.{◌≡◌, ◌||◌};
ghost use Rattle.profile_machine.specs.Frames.{in_protected, is_deferred};

use crate::tasks::task_at;
use profile_machine::world::World;
use trace_text::Who;

/// Whether the one with this name is inside a protected action.
pub fn in_protected(world: &World, name: Who) -> bool
    ensures { result ≡ in_protected world.now name }
{
    match task_at(world, name) {
        Some(task) => task.frames.any_protected(),
        None => false,
    }
}

/// Whether an abort of the one with this name is deferred.
pub fn is_deferred(world: &World, name: Who) -> bool
    ensures { result ≡ is_deferred world.now name }
{
    match task_at(world, name) {
        Some(task) => task.frames.any_defers(),
        None => false,
    }
}

/// No task is created or activated inside a protected action, and wherever abort is deferred.
pub fn bars_tasks(world: &World, name: Who) -> bool
    ensures { result ≡ (in_protected world.now name || is_deferred world.now name) }
{
    in_protected(world, name) || is_deferred(world, name)
}
