//! A task is completed (ISO/IEC 8652:2012, 9.3): no call on it is accepted any more, and those that
//! are queued get Tasking_Error.
ghost use Rattle.std.specs.Prelude.{◌≡◌, OnOk, IfOk, map};
ghost use Rattle.profile_machine.specs.Masters.{gone_by_completion, without_queued, completed_task};
ghost use Rattle.profile_machine.specs.Masters.{last_left_as, has_failed, complete_with, complete};
ghost use Rattle.profile_machine.specs.Steps.{for_each};
ghost use Rattle.profile_machine.specs.Tasks.{edit_task, task_of};
ghost use Rattle.machine_frames.specs.Did.{Did};

use crate::activations::end_activation;
use crate::queued_calls::queued_calls;
use ann_base::{CallNo, NoMemory, Raised};
use machine_calls::{end_call, gone};
use machine_dispatching::part_of;
use machine_frames::{Effect, task_at, task_mut};
use machine_program::Program;
use profile_machine::Leaving;
use profile_machine::world::{Call, FrameStack, Outcome, World};
use std::alloc::Global;
use trace_text::Who;
use world_tables::List;

// A queued call gets Tasking_Error.
#[tactic(auto, unfolding(profile_machine::specs::Masters::gone_by_completion))]
fn gone_by_completion(
    p: &Program,
    effect: &mut Effect,
    actor: Who,
    call: &Call,
) -> Result<(), NoMemory>
    ensures { OnOk result (Did (gone_by_completion p.now actor call.now) effect.old effect.new) }
{
    let part = part_of(actor, Who::Task(call.caller));
    gone(p, effect, part, call)?;
    end_call(p, effect, part, call, Outcome::ToRaise(Raised::Tasking))
}

// These calls get Tasking_Error, in order.
fn all_gone_by_completion(
    p: &Program,
    effect: &mut Effect,
    actor: Who,
    calls: &List<Call>,
) -> Result<(), NoMemory>
    ensures { OnOk result
        (Did (for_each calls.now (gone_by_completion p.now actor)) effect.old effect.new) }
{
    for call in calls.iter() {
        gone_by_completion(p, effect, actor, call)?;
    }
    Ok(())
}

// As many queues, with no call.
fn without_queued(
    alloc: Global,
    queues: &List<List<CallNo>>,
) -> Result<List<List<CallNo>>, NoMemory>
    ensures { IfOk result (λ emptied. emptied ≡ map without_queued queues.now) }
{
    let mut emptied = List::new(alloc);
    for _queue in queues.iter() {
        emptied.push_back(List::new(alloc))?;
    }
    Ok(emptied)
}

fn set_completed(alloc: Global, world: &mut World, name: Who) -> Result<(), NoMemory>
    ensures { OnOk result (world.new ≡ edit_task name completed_task world.old) }
{
    if let Some(task) = task_mut(world, name) {
        let emptied = without_queued(alloc, &task.queues)?;
        task.completed = true;
        task.queues = emptied;
    }
    Ok(())
}

// How the outermost mark is being left, if it is.
fn last_left_as(frames: &FrameStack) -> Option<Leaving>
    ensures { result ≡ last_left_as frames.now }
{
    match frames.len().checked_sub(1) {
        Some(last) => frames.get(last)?.left_as,
        None => None,
    }
}

// An activation that raised counts as failed, of a task that was not aborted.
fn has_failed(world: &World, name: Who) -> bool
    ensures { result ≡ has_failed (task_of world.now name) }
{
    match task_at(world, name) {
        Some(task) => {
            matches!(last_left_as(&task.frames), Some(Leaving::Exception(_))) && !task.abnormal
        }
        None => false,
    }
}

#[tactic(auto, unfolding(profile_machine::specs::Masters::complete_with))]
fn complete_with(
    alloc: Global,
    p: &Program,
    effect: &mut Effect,
    actor: Who,
    name: Who,
    calls: &List<Call>,
    failed: bool,
) -> Result<(), NoMemory>
    ensures { OnOk result
        (Did (complete_with p.now actor name calls.now failed) effect.old effect.new) }
{
    set_completed(alloc, &mut effect.world, name)?;
    all_gone_by_completion(p, effect, actor, calls)?;
    end_activation(p, effect, actor, name, failed)
}

fn is_completed(world: &World, name: Who) -> bool
    ensures { result ≡ (task_of world.now name).completed }
{
    match task_at(world, name) {
        Some(task) => task.completed,
        None => false,
    }
}

/// A task is completed, if it was not: no call on it is accepted any more, those that are queued
/// get Tasking_Error, and its activation ends.
#[tactic(auto, unfolding(profile_machine::specs::Masters::complete))]
pub fn complete(
    alloc: Global,
    p: &Program,
    effect: &mut Effect,
    actor: Who,
    name: Who,
) -> Result<(), NoMemory>
    ensures { OnOk result (Did (complete p.now actor name) effect.old effect.new) }
{
    if is_completed(&effect.world, name) {
        return Ok(());
    }
    let calls = queued_calls(alloc, &effect.world, name)?;
    let failed = has_failed(&effect.world, name);
    complete_with(alloc, p, effect, actor, name, &calls, failed)
}
