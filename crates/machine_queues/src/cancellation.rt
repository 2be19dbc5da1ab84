//! Cancellation of calls (ISO/IEC 8652:2012, 9.5.3, 9.8).
ghost use Rattle.std.specs.Prelude.{◌≡◌, OnOk, true};
ghost use Rattle.profile_machine.specs.Calls.{edit_call, is_cancellable, attempt_on};
ghost use Rattle.machine_frames.specs.Did.{Did};

use crate::calls::call_mut;
use crate::queues::unqueued;
use ann_base::{CallNo, NoMemory};
use machine_frames::{Effect, says};
use machine_program::Program;
use profile_machine::world::{Call, Line, Part, World};

/// Whether a call is queued, and was not last sent on by a requeue without abort.
pub fn is_cancellable(call: &Call) -> bool
    ensures { result ≡ is_cancellable call.now }
{
    !call.begun && !call.firm && call.outcome.is_none()
}

fn set_attempted(world: &mut World, c: CallNo)
    ensures { world.new ≡ edit_call c (λ d. record d { attempted = true }) world.old }
{
    if let Some(call) = call_mut(&mut world.calls, c) {
        call.attempted = true;
    }
}

/// Cancellation is attempted: `cancel` where the call is cancellable, which is then out of its
/// queue.
///
/// Errors: memory ran out.
#[tactic(auto, unfolding(profile_machine::specs::Calls::attempt_on))]
pub fn attempt_on(p: &Program, effect: &mut Effect, part: Part, call: &Call) -> Result<(), NoMemory>
    ensures { OnOk result (Did (attempt_on p.now part call.now) effect.old effect.new) }
{
    if is_cancellable(call) {
        unqueued(p, &mut effect.world, call);
        says(
            effect,
            part,
            Line::Cancel {
                task: call.caller,
                call: call.number,
            },
        )
    } else {
        set_attempted(&mut effect.world, call.number);
        Ok(())
    }
}
