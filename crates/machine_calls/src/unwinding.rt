//! Unwinding: struck constructs are left with Abort at the first instant outside an operation that
//! defers abort (ISO/IEC 8652:2012, 9.8, D.6).
ghost use Rattle.std.specs.Prelude.{◌≡◌, OnOk};
ghost use Rattle.profile_machine.specs.Frames.{frames_of};
ghost use Rattle.profile_machine.specs.Tasks.{task_of};
ghost use Rattle.profile_machine.specs.Unwinding.{may_unwind, leave_by_abort};
ghost use Rattle.profile_machine.specs.Unwinding.{stop_waiting, wake_and_leave, unwind};
ghost use Rattle.machine_frames.specs.Did.{Did};
ghost use Rattle.machine_calls.specs.declared.unwinding.Unwinding.TheVariants.{Cancels};
ghost use Rattle.machine_calls.specs.UnwindingSteps.{unwind_so};
ghost use Rattle.machine_calls.specs.Unwindings.{unwinding_of, unwinding_of_waiting};

use ann_base::{CallNo, NoMemory};
use machine_dispatching::ready;
use machine_frames::{Effect, drop_delay, leaves, may_unwind, set_ticks, task_at};
use machine_program::Program;
use machine_queues::{attempt_on, copied_call, forget_call, is_cancellable};
use profile_machine::Leaving;
use profile_machine::world::{Part, State, Waiting, World};
use trace_text::Who;

// How a task is unwound.
#[derive(Clone, Copy)]
pub(crate) enum Unwinding {
    // It stays as it is.
    Stays,
    // What it has begun is dropped, and it leaves its constructs.
    Leaves,
    // It stops waiting first.
    Wakes,
    // It tries to cancel this call first, and waits on where that fails.
    Cancels(CallNo),
}

fn unwinding_of_waiting(waiting: &Waiting) -> Unwinding
    ensures { result ≡ unwinding_of_waiting waiting.now }
{
    match waiting {
        Waiting::Call(c) => Unwinding::Cancels(*c),
        Waiting::EndOfCall(_) => Unwinding::Stays,
        Waiting::Activation => Unwinding::Wakes,
        Waiting::Moment => Unwinding::Wakes,
        Waiting::Accept(_) => Unwinding::Wakes,
        Waiting::Select(_, _, _) => Unwinding::Wakes,
        Waiting::Dependents(_) => Unwinding::Wakes,
        Waiting::Release => Unwinding::Stays,
    }
}

fn unwinding_of(state: &State) -> Unwinding
    ensures { result ≡ unwinding_of state.now }
{
    match state {
        State::Made => Unwinding::Stays,
        State::Runnable => Unwinding::Leaves,
        State::Blocked(waiting) => unwinding_of_waiting(waiting),
    }
}

// How the one with this name is unwound; one who is not there stays so.
fn unwinding_at(world: &World, name: Who) -> Unwinding
    ensures { result ≡ unwinding_of (task_of world.now name).state }
{
    match task_at(world, name) {
        Some(task) => unwinding_of(&task.state),
        None => Unwinding::Stays,
    }
}

// An action that has begun is dropped, and marks are left with Abort from the top.
#[tactic(auto, unfolding(profile_machine::specs::Unwinding::leave_by_abort))]
fn leave_by_abort(effect: &mut Effect, name: Who)
    ensures { Did (leave_by_abort name) effect.old effect.new }
{
    set_ticks(&mut effect.world, name, None);
    leaves(effect, name, Leaving::Abort);
}

// A blocked task stops waiting and becomes ready.
#[tactic(auto, unfolding(profile_machine::specs::Unwinding::stop_waiting))]
fn stop_waiting(p: &Program, effect: &mut Effect, part: Part, name: Who) -> Result<(), NoMemory>
    ensures { OnOk result (Did (stop_waiting p.now part name) effect.old effect.new) }
{
    drop_delay(&mut effect.world, name);
    ready(p, effect, part, name)
}

#[tactic(auto, unfolding(profile_machine::specs::Unwinding::wake_and_leave))]
fn wake_and_leave(p: &Program, effect: &mut Effect, part: Part, name: Who) -> Result<(), NoMemory>
    ensures { OnOk result (Did (wake_and_leave p.now part name) effect.old effect.new) }
{
    stop_waiting(p, effect, part, name)?;
    leave_by_abort(effect, name);
    Ok(())
}

// Who waits for a call tries to cancel it, and waits on where that fails.
fn cancel_and_leave(
    p: &Program,
    effect: &mut Effect,
    part: Part,
    name: Who,
    c: CallNo,
) -> Result<(), NoMemory>
    ensures { OnOk result (Did (unwind_so p.now part name (Cancels c)) effect.old effect.new) }
{
    let Some(call) = copied_call(&effect.world, c)? else {
        return Ok(());
    };
    attempt_on(p, effect, part, &call)?;
    if is_cancellable(&call) {
        forget_call(&mut effect.world, c);
        wake_and_leave(p, effect, part, name)
    } else {
        Ok(())
    }
}

fn unwind_so(
    p: &Program,
    effect: &mut Effect,
    part: Part,
    name: Who,
    unwinding: Unwinding,
) -> Result<(), NoMemory>
    ensures { OnOk result (Did (unwind_so p.now part name unwinding) effect.old effect.new) }
{
    match unwinding {
        Unwinding::Stays => Ok(()),
        Unwinding::Leaves => {
            leave_by_abort(effect, name);
            Ok(())
        }
        Unwinding::Wakes => wake_and_leave(p, effect, part, name),
        Unwinding::Cancels(c) => cancel_and_leave(p, effect, part, name, c),
    }
}

/// Whether the one with this name may be unwound: a construct of it is struck, and nothing defers
/// the abort.
pub fn frames_may_unwind(world: &World, name: Who) -> bool
    ensures { result ≡ may_unwind (frames_of world.now name) }
{
    match task_at(world, name) {
        Some(task) => may_unwind(&task.frames),
        None => false,
    }
}

/// A task is unwound where its struck construct may be left.
///
/// Errors: memory ran out.
#[tactic(auto, unfolding(profile_machine::specs::Unwinding::unwind))]
pub fn unwind(p: &Program, effect: &mut Effect, part: Part, name: Who) -> Result<(), NoMemory>
    ensures { OnOk result (Did (unwind p.now part name) effect.old effect.new) }
{
    if frames_may_unwind(&effect.world, name) {
        let unwinding = unwinding_at(&effect.world, name);
        unwind_so(p, effect, part, name, unwinding)
    } else {
        Ok(())
    }
}
