//! The effect of an action that has ended, and what it brings about elsewhere.
ghost use Rattle.std.specs.Prelude.{◌≡◌, OnOk, [], None};
ghost use Rattle.profile_machine.specs.Instant.{effect, is_over, finish_action};
ghost use Rattle.profile_machine.specs.Tasks.{task_of};
ghost use Rattle.machine_frames.specs.Did.{Did};
ghost use Rattle.machine_expiries.specs.Moved.{Moved};

use crate::acting::act;
use ann_base::NoMemory;
use machine_dispatching::settle;
use machine_frames::{Effect, open_if_ready, set_ticks, task_at};
use machine_program::Program;
use machine_tasking::bring_about;
use profile_machine::world::{Line, World};
use std::alloc::Global;
use trace_text::Who;
use world_tables::List;

/// The effect of what somebody has done: the action's own, the sequence that begins behind it, who
/// takes a terminate alternative, and who is unwound.
#[tactic(auto, unfolding(profile_machine::specs::Instant::effect))]
fn effect(alloc: Global, p: &Program, under_way: &mut Effect, name: Who) -> Result<(), NoMemory>
    ensures { OnOk result (Did (effect p.now name) under_way.old under_way.new) }
{
    set_ticks(&mut under_way.world, name, None);
    act(alloc, p, under_way, name)?;
    open_if_ready(p, under_way, name)?;
    bring_about(alloc, p, under_way, name)
}

// Whether the action that has begun has no ticks left.
fn is_over(world: &World, name: Who) -> bool
    ensures { result ≡ is_over (task_of world.now name).ticks_left }
{
    match task_at(world, name) {
        Some(task) => task.ticks_left == Some(0),
        None => false,
    }
}

/// The first part of an instant: the effect of who ran the tick before, where its action has ended.
///
/// Errors: memory ran out.
pub fn finish_action(
    alloc: Global,
    p: &Program,
    effect: &mut Effect,
    lines: &mut List<Line>,
) -> Result<(), NoMemory>
    requires { effect.old.said ≡ [] }
    ensures { OnOk result
        (Moved p.now (finish_action p.now) effect.old lines.old effect.new lines.new) }
{
    match effect.world.ran {
        Some(name) if is_over(&effect.world, name) => {
            self::effect(alloc, p, effect, name)?;
            settle(alloc, effect, lines)
        }
        _ => Ok(()),
    }
}
