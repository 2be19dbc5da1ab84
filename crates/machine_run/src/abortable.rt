//! The end of an abortable part: the cancellation of its trigger is attempted first (ISO/IEC
//! 8652:2012, 9.7.4).
ghost use Rattle.std.specs.Prelude.{◌≡◌, ◌-◌, Some, IfOk, OnOk};
ghost use Rattle.profile_machine.specs.Act.{end_top, wait_for_trigger, drop_trigger, below};
ghost use Rattle.profile_machine.specs.Act.{end_abortable_by, end_in_abortable, waiting_mark};
ghost use Rattle.profile_machine.specs.Frames.{edit_top, with_mark};
ghost use Rattle.profile_machine.specs.CallEnds.{edit_abortable};
ghost use Rattle.profile_machine.specs.Calls.{attempt_with};
ghost use Rattle.profile_machine.specs.declared.world.lines.Part.TheVariants.{Own};
ghost use Rattle.machine_frames.specs.Did.{Did};

use ann_base::NoMemory;
use machine_calls::{end_top_abortable, set_waits};
use machine_dispatching::block;
use machine_frames::{Effect, drop_appointment, frame_count, task_mut};
use machine_program::Program;
use machine_queues::{attempt_on, copied_call, is_cancellable};
use profile_machine::Leaving;
use profile_machine::world::{AbortableMark, Call, DueOf, Part, Waiting, World};
use trace_text::Who;

#[tactic(auto, unfolding(profile_machine::specs::Act::end_top))]
fn end_top(p: &Program, effect: &mut Effect, name: Who) -> Result<(), NoMemory>
    ensures { OnOk result (Did (end_top p.now name) effect.old effect.new) }
{
    end_top_abortable(p, effect, Part::Own, name)
}

// The abortable part on top waits for its call, and remembers how it is left.
fn let_top_wait(world: &mut World, name: Who, leaving: Leaving)
    ensures { world.new
        ≡ edit_top name
        (λ f.
        with_mark (edit_abortable waiting_mark f.mark) (record f { left_as = Some leaving }))
        world.old }
{
    if let Some(task) = task_mut(world, name) {
        if let Some(frame) = task.frames.front_mut() {
            set_waits(&mut frame.mark);
            frame.left_as = Some(leaving);
        }
    }
}

#[tactic(auto, unfolding(profile_machine::specs::Act::wait_for_trigger))]
fn wait_for_trigger(
    effect: &mut Effect,
    name: Who,
    call: &Call,
    leaving: Leaving,
) -> Result<(), NoMemory>
    ensures { OnOk result (Did (wait_for_trigger name call.now leaving) effect.old effect.new) }
{
    let_top_wait(&mut effect.world, name, leaving);
    block(
        effect,
        Part::TheBlock,
        name,
        Waiting::EndOfCall(call.number),
    )
}

fn below(frames: usize) -> Result<u32, NoMemory>
    ensures { IfOk result (λ depth. depth ≡ frames - 1) }
{
    match u32::try_from(frames.saturating_sub(1)) {
        Ok(depth) => Ok(depth),
        Err(_) => Err(NoMemory),
    }
}

// The delay that triggers the part with so many constructs below it is set no longer.
fn drop_trigger(world: &mut World, name: Who, depth: u32)
    ensures { world.new ≡ drop_trigger name depth world.old }
{
    match name {
        Who::Task(t) => drop_appointment(world, DueOf::Trigger(t, depth)),
        Who::Agent => {}
    }
}

// A trigger that is an entry call: cancelled, or waited for.
fn end_with_call(
    p: &Program,
    effect: &mut Effect,
    name: Who,
    call: &Call,
    leaving: Leaving,
) -> Result<(), NoMemory>
    ensures { OnOk result
        (Did
        (attempt_with p.now Own call.now (end_top p.now name)
        (wait_for_trigger name call.now leaving)) effect.old effect.new) }
{
    let cancels = is_cancellable(call);
    attempt_on(p, effect, Part::Own, call)?;
    if cancels {
        end_top(p, effect, name)
    } else {
        wait_for_trigger(effect, name, call, leaving)
    }
}

#[tactic(auto, unfolding(profile_machine::specs::Act::end_abortable_by))]
fn end_abortable_by(
    p: &Program,
    effect: &mut Effect,
    name: Who,
    mark: AbortableMark,
    leaving: Leaving,
) -> Result<(), NoMemory>
    ensures { OnOk result (Did (end_abortable_by p.now name mark leaving) effect.old effect.new) }
{
    match mark.call {
        Some(c) => match copied_call(&effect.world, c)? {
            Some(call) => end_with_call(p, effect, name, &call, leaving),
            None => Ok(()),
        },
        None => {
            let depth = below(frame_count(&effect.world, name))?;
            drop_trigger(&mut effect.world, name, depth);
            end_top(p, effect, name)
        }
    }
}

/// An abortable part has ended, in whichever way it is left.
///
/// Errors: memory ran out.
#[tactic(auto, unfolding(profile_machine::specs::Act::end_in_abortable))]
pub fn end_in_abortable(
    p: &Program,
    effect: &mut Effect,
    name: Who,
    mark: AbortableMark,
    leaving: Leaving,
) -> Result<(), NoMemory>
    ensures { OnOk result (Did (end_in_abortable p.now name mark leaving) effect.old effect.new) }
{
    if mark.triggered {
        end_top(p, effect, name)
    } else {
        end_abortable_by(p, effect, name, mark, leaving)
    }
}
