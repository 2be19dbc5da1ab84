//! Placing on the ready queues (ISO/IEC 8652:2012, D.2.1, D.2.3, D.2.5, D.2.6).
ghost use Rattle.std.specs.Prelude.{◌≡◌, OnOk};
ghost use Rattle.std.specs.Bool.{then_some};
ghost use Rattle.profile_machine.specs.Dispatching.{level_kept_by, keep_level};
ghost use Rattle.profile_machine.specs.Dispatching.{deadline_shown, granted, grant_quantum};
ghost use Rattle.profile_machine.specs.Dispatching.{says_ready, to_tail, to_head, ready};
ghost use Rattle.profile_image.specs.Program.{edf_low, is_edf_level};
ghost use Rattle.profile_machine.specs.Tasks.{task_of, edit_task};
ghost use Rattle.machine_frames.specs.Did.{Did};

use crate::levels::{active, active_of, deadline_of, greatest_inherited};
use crate::rivals::edf_level;
use ann_base::{Level, Moment, NoMemory};
use machine_frames::{Effect, says, set_state, task_at, task_mut};
use machine_program::{Program, edf_low, is_edf_level, is_robin_level};
use profile_machine::world::{Line, Part, State, Task, World};
use trace_text::{QueueEnd, Who};
use world_tables::List;

// The level that a task keeps from now on; none where its base lies in no EDF range.
fn level_kept(p: &Program, world: &World, task: &Task) -> Option<Level>
    ensures { result ≡ level_kept_by p.now world.now task.now (edf_low p.now task.now.base) }
{
    let low = edf_low(p, task.base)?;
    let inherited = greatest_inherited(&task.inherited, 0);
    Some(edf_level(p, world, task, low, inherited))
}

fn set_kept_level(world: &mut World, name: Who, level: Option<Level>)
    ensures { world.new ≡ edit_task name (λ t. record t { kept_level = level }) world.old }
{
    if let Some(task) = task_mut(world, name) {
        task.kept_level = level;
    }
}

/// A task that is activated or released keeps the level that it then has, where its base lies in an
/// EDF range (D.2.6).
pub fn keep_level(p: &Program, world: &mut World, name: Who)
    ensures { world.new ≡ keep_level p.now name world.old }
{
    if let Some(task) = task_at(world, name) {
        let level = level_kept(p, world, task);
        set_kept_level(world, name, level);
    }
}

fn deadline_at(p: &Program, level: Level, deadline: Moment) -> Option<Moment>
    ensures { result ≡ then_some (is_edf_level p.now level) deadline }
{
    if is_edf_level(p, level) {
        Some(deadline)
    } else {
        None
    }
}

/// The deadline that a `ready` line of the one with this name shows: on an EDF level alone.
pub fn deadline_shown(p: &Program, world: &World, name: Who) -> Option<Moment>
    ensures { result ≡ deadline_shown p.now (task_of world.now name) }
{
    deadline_at(p, active_of(p, world, name), deadline_of(world, name))
}

/// The `ready` line, which places.
#[tactic(auto, unfolding(profile_machine::specs::Dispatching::says_ready))]
pub fn says_ready(
    p: &Program,
    effect: &mut Effect,
    part: Part,
    name: Who,
    end: QueueEnd,
) -> Result<(), NoMemory>
    ensures { OnOk result (Did (says_ready p.now part name end) effect.old effect.new) }
{
    let level = active_of(p, &effect.world, name);
    let deadline = deadline_shown(p, &effect.world, name);
    says(
        effect,
        part,
        Line::Ready {
            who: name,
            level,
            end,
            deadline,
        },
    )
}

// The quantum that a task has once it stands at the tail of its level.
#[tactic(auto, using(crate::proofs::LevelLemmas::with_quantum))]
fn quantum_granted(p: &Program, quanta: &List<u64>, task: &Task) -> u64
    ensures { result ≡ (granted p.now quanta.now task.now).quantum }
{
    if active(p, task) == task.base && is_robin_level(p, task.base) {
        quanta.get_or(task.base as usize, 0)
    } else {
        task.quantum
    }
}

fn set_quantum(world: &mut World, name: Who, quantum: u64)
    ensures { world.new ≡ edit_task name (λ t. record t { quantum = quantum }) world.old }
{
    if let Some(task) = task_mut(world, name) {
        task.quantum = quantum;
    }
}

/// A task at the tail of its base level gets the full quantum of the level, where that is round
/// robin (D.2.5).
#[tactic(auto, using(crate::proofs::LevelLemmas::with_quantum))]
pub fn grant_quantum(p: &Program, world: &mut World, name: Who)
    ensures { world.new ≡ grant_quantum p.now name world.old }
{
    if let Some(task) = task_at(world, name) {
        let quantum = quantum_granted(p, &world.quanta, task);
        set_quantum(world, name, quantum);
    }
}

/// The one with this name goes to the tail of its level, and gets its quantum.
#[tactic(auto, unfolding(profile_machine::specs::Dispatching::to_tail))]
pub fn to_tail(p: &Program, effect: &mut Effect, part: Part, name: Who) -> Result<(), NoMemory>
    ensures { OnOk result (Did (to_tail p.now part name) effect.old effect.new) }
{
    grant_quantum(p, &mut effect.world, name);
    says_ready(p, effect, part, name, QueueEnd::Tail)
}

/// The one with this name goes to the head of its level.
#[tactic(auto, unfolding(profile_machine::specs::Dispatching::to_head))]
pub fn to_head(p: &Program, effect: &mut Effect, part: Part, name: Who) -> Result<(), NoMemory>
    ensures { OnOk result (Did (to_head p.now part name) effect.old effect.new) }
{
    says_ready(p, effect, part, name, QueueEnd::Head)
}

/// A task, or the agent, becomes ready: it goes to the tail.
#[tactic(auto, unfolding(profile_machine::specs::Dispatching::ready))]
pub fn ready(p: &Program, effect: &mut Effect, part: Part, name: Who) -> Result<(), NoMemory>
    ensures { OnOk result (Did (ready p.now part name) effect.old effect.new) }
{
    set_state(&mut effect.world, name, State::Runnable);
    keep_level(p, &mut effect.world, name);
    to_tail(p, effect, part, name)
}
