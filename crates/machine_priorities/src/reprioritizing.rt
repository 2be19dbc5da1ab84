//! The call for which a task waits gets its new active priority (ISO/IEC 8652:2012, 9.5.3, D.4).
ghost use Rattle.std.specs.Prelude.{◌≡◌, OnOk};
ghost use Rattle.profile_machine.specs.Calls.{edit_call, with_call};
ghost use Rattle.profile_machine.specs.Dispatching.{active_of};
ghost use Rattle.profile_machine.specs.Priorities.{is_queued, with_priority, placed_anew};
ghost use Rattle.profile_machine.specs.Priorities.{reprioritize, call_waited_for};
ghost use Rattle.profile_machine.specs.Steps.{for_some, looks};
ghost use Rattle.machine_frames.specs.Did.{Did};

use ann_base::{CallNo, Level, NoMemory};
use machine_dispatching::active_of;
use machine_frames::Effect;
use machine_program::{Program, policies};
use machine_queues::{call_mut, copied_call, place_of_entry};
use profile_image::Queuing;
use profile_machine::world::{Call, Waiting, World};
use trace_text::Who;

/// The call for which somebody waits, if it is a call.
pub(crate) fn call_waited_for(waiting: &Waiting) -> Option<CallNo>
    ensures { result ≡ call_waited_for waiting.now }
{
    match waiting {
        Waiting::Call(c) => Some(*c),
        Waiting::EndOfCall(c) => Some(*c),
        Waiting::Activation
        | Waiting::Moment
        | Waiting::Accept(_)
        | Waiting::Select(_, _, _)
        | Waiting::Dependents(_)
        | Waiting::Release => None,
    }
}

fn is_queued(call: &Call) -> bool
    ensures { result ≡ is_queued call.now }
{
    !call.begun && call.outcome.is_none()
}

fn put_priority(world: &mut World, c: CallNo, level: Level)
    ensures { world.new ≡ edit_call c (with_priority level) world.old }
{
    if let Some(call) = call_mut(&mut world.calls, c) {
        call.priority = level;
    }
}

// By Priority_Queuing it stands behind the calls of that priority; by FIFO_Queuing it keeps its
// place.
fn placed_anew(p: &Program, world: &mut World, call: &Call, level: Level) -> Result<(), NoMemory>
    ensures { OnOk result
        (world.new ≡ placed_anew p.now.policies.queuing p.now call.now level world.old) }
{
    match policies(p).queuing {
        Queuing::Fifo => Ok(()),
        Queuing::Priority => {
            let place = place_of_entry(p, call.entry);
            machine_queues::placed_anew(world, call.owner, place, call.number, level)
        }
    }
}

#[tactic(auto, unfolding(profile_machine::specs::Priorities::reprioritize))]
fn reprioritize(p: &Program, effect: &mut Effect, level: Level, call: &Call) -> Result<(), NoMemory>
    ensures { OnOk result (Did (reprioritize p.now level call.now) effect.old effect.new) }
{
    if is_queued(call) {
        put_priority(&mut effect.world, call.number, level);
        placed_anew(p, &mut effect.world, call, level)
    } else {
        Ok(())
    }
}

/// The call with this number, for which the one with this name waits, gets the active priority of
/// who waits.
pub(crate) fn reprioritize_awaited(
    p: &Program,
    effect: &mut Effect,
    name: Who,
    awaited: Option<CallNo>,
) -> Result<(), NoMemory>
    ensures { OnOk result
        (Did
        (looks
        (λ w. for_some awaited (λ c. with_call c (reprioritize p.now (active_of p.now w name)))))
        effect.old effect.new) }
{
    let Some(c) = awaited else {
        return Ok(());
    };
    let level = active_of(p, &effect.world, name);
    match copied_call(&effect.world, c)? {
        Some(call) => reprioritize(p, effect, level, &call),
        None => Ok(()),
    }
}
