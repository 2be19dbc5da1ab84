//! Room (own): 1,000 marks of a task, 65,536 marks in all, and 65,536 cells.
ghost use Rattle.std.specs.Prelude.{◌≡◌, ◌+◌, leb, length};
ghost use Rattle.profile_image.specs.declared.limits.TheConstants.{MOST_MARKS_OF_TASK};
ghost use Rattle.profile_image.specs.declared.limits.TheConstants.{MOST_MARKS, MOST_CELLS};
ghost use Rattle.profile_machine.specs.Frames.{frames_of, marks_in_use, cells_in_use, has_room};

use crate::tasks::task_at;
use profile_image::{MOST_CELLS, MOST_MARKS, MOST_MARKS_OF_TASK};
use profile_machine::world::World;
use trace_text::Who;

/// How many marks the one with this name has open.
pub fn frame_count(world: &World, name: Who) -> usize
    ensures { result ≡ length (frames_of world.now name) }
{
    match task_at(world, name) {
        Some(task) => task.frames.len(),
        None => 0,
    }
}

fn task_has_room(world: &World, name: Who, marks: u32) -> bool
    ensures { result ≡ leb (length (frames_of world.now name) + marks) MOST_MARKS_OF_TASK }
{
    let more = marks as usize;
    more <= MOST_MARKS_OF_TASK && frame_count(world, name) <= MOST_MARKS_OF_TASK - more
}

fn marks_have_room(world: &World, marks: u32) -> bool
    ensures { result ≡ leb (marks_in_use world.now + marks) MOST_MARKS }
{
    let of_agent = world.agent.frames.len();
    let more = marks as usize;
    more <= MOST_MARKS
        && of_agent <= MOST_MARKS - more
        && world.tasks.fits(MOST_MARKS - more - of_agent)
}

fn cells_have_room(world: &World, cells: u32) -> bool
    ensures { result ≡ leb (cells_in_use world.now + cells) MOST_CELLS }
{
    let more = cells as usize;
    more <= MOST_CELLS && world.scopes.fits(MOST_CELLS - more)
}

/// Whether there is room for so many more marks of a task, and for so many more cells.
pub fn has_room(world: &World, name: Who, marks: u32, cells: u32) -> bool
    ensures { result ≡ has_room world.now name marks cells }
{
    task_has_room(world, name, marks)
        && marks_have_room(world, marks)
        && cells_have_room(world, cells)
}
