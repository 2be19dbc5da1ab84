//! Blocking (ISO/IEC 8652:2012, D.2.1).
ghost use Rattle.std.specs.Prelude.{◌≡◌, OnOk};
ghost use Rattle.profile_machine.specs.Dispatching.{word_of, without_kept_level, block};
ghost use Rattle.profile_machine.specs.Tasks.{edit_task};
ghost use Rattle.machine_frames.specs.Did.{Did};
ghost use Rattle.machine_dispatching.specs.Blocking.{says_waits};

use ann_base::NoMemory;
use machine_frames::{Effect, says, set_state, task_mut};
use profile_machine::world::{Line, Part, State, Waiting, World};
use trace_text::{Waits, Who};

/// The word for what is waited for.
pub fn word_of(waiting: &Waiting) -> Waits
    ensures { result ≡ word_of waiting.now }
{
    match waiting {
        Waiting::Activation => Waits::Activation,
        Waiting::Moment => Waits::Delay,
        Waiting::Call(_) => Waits::Entry,
        Waiting::EndOfCall(_) => Waits::Call,
        Waiting::Accept(_) => Waits::Accept,
        Waiting::Select(_, _, _) => Waits::Select,
        Waiting::Dependents(_) => Waits::Dependents,
        Waiting::Release => Waits::Release,
    }
}

fn drop_kept_level(world: &mut World, name: Who)
    ensures { world.new ≡ edit_task name without_kept_level world.old }
{
    if let Some(task) = task_mut(world, name) {
        task.kept_level = None;
    }
}

/// The `block` line with this word; the one with this name keeps no level.
pub fn says_waits(effect: &mut Effect, part: Part, name: Who, waits: Waits) -> Result<(), NoMemory>
    ensures { OnOk result (Did (says_waits part name waits) effect.old effect.new) }
{
    drop_kept_level(&mut effect.world, name);
    says(effect, part, Line::Block { who: name, waits })
}

/// A task, or the agent, blocks: it leaves the ready queues and keeps no level.
#[tactic(auto, unfolding(profile_machine::specs::Dispatching::block, profile_machine::specs::Dispatching::says_block))]
pub fn block(effect: &mut Effect, part: Part, name: Who, waiting: Waiting) -> Result<(), NoMemory>
    ensures { OnOk result (Did (block part name waiting) effect.old effect.new) }
{
    let waits = word_of(&waiting);
    set_state(&mut effect.world, name, State::Blocked(waiting));
    says_waits(effect, part, name, waits)
}
