//! Active priorities (ISO/IEC 8652:2012, D.1, D.2.6).
ghost use Rattle.std.specs.Prelude.{◌≡◌, map};
ghost use Rattle.profile_machine.specs.Dispatching.{own_level, active, active_of};
ghost use Rattle.profile_machine.specs.Tasks.{task_of};
ghost use Rattle.profile_image.specs.Words.{greatest_of};

use ann_base::{Level, Moment};
use machine_frames::task_at;
use machine_program::{Program, edf_low};
use profile_image::TIME_LAST;
use profile_machine::world::{Inherited, Task, World};
use trace_text::Who;
use world_tables::List;

/// The level of a task of its own: the base priority, or the level that it keeps where its base
/// lies in an EDF range.
pub fn own_level(p: &Program, task: &Task) -> Level
    ensures { result ≡ own_level p.now task.now }
{
    match edf_low(p, task.base) {
        Some(_) => match task.kept_level {
            Some(level) => level,
            None => task.base,
        },
        None => task.base,
    }
}

/// The greatest of the inherited levels and of this one.
#[tactic(auto, using(crate::proofs::LevelLemmas::greatest_laws))]
pub fn greatest_inherited(inherited: &List<Inherited>, least: Level) -> Level
    ensures { result ≡ greatest_of (map (λ i. i.level) inherited.now) least }
{
    let mut greatest = least;
    for i in inherited.iter() {
        greatest = greatest.max(i.level);
    }
    greatest
}

/// The active priority of a task: the greatest of its own level and of those that it inherits
/// (D.1).
pub fn active(p: &Program, task: &Task) -> Level
    ensures { result ≡ active p.now task.now }
{
    greatest_inherited(&task.inherited, own_level(p, task))
}

/// The active priority of the one with this name; 0 where it is not there.
pub fn active_of(p: &Program, world: &World, name: Who) -> Level
    ensures { result ≡ active_of p.now world.now name }
{
    match task_at(world, name) {
        Some(task) => active(p, task),
        None => 0,
    }
}

/// The deadline of the one with this name; the last moment where it is not there.
pub fn deadline_of(world: &World, name: Who) -> Moment
    ensures { result ≡ (task_of world.now name).deadline }
{
    match task_at(world, name) {
        Some(task) => task.deadline,
        None => TIME_LAST,
    }
}
