//! How calls end: finished, cancelled, or gone (ISO/IEC 8652:2012, 9.5.2 to 9.7, 9.8).
ghost use Rattle.std.specs.Prelude.{◌≡◌, OnOk};
ghost use Rattle.profile_machine.specs.Calls.{edit_call};
ghost use Rattle.profile_machine.specs.CallEnds.{go_by_outcome, resume, waits_for_call};
ghost use Rattle.profile_machine.specs.CallEnds.{waits_for_end, end_wait, end_for_abortable};
ghost use Rattle.profile_machine.specs.CallEnds.{end_for_caller, end_for, with_outcome};
ghost use Rattle.profile_machine.specs.CallEnds.{end_with, end_call, deliver, gone};
ghost use Rattle.profile_machine.specs.Tasks.{waiting_of};
ghost use Rattle.machine_frames.specs.Did.{Did};

use crate::abortable::{end_top_abortable, trigger_at};
use crate::marks::{abortable_depth, set_waited_at};
use crate::onward::{onward_when_cancelled, onward_when_done};
use crate::unwinding::unwind;
use ann_base::{CallNo, NoMemory};
use machine_dispatching::ready;
use machine_frames::{Effect, goes, leaves, open_sequence, raises, says, waiting_of};
use machine_program::Program;
use machine_queues::{call_mut, copied_call, forget_call, unqueued};
use machine_scopes::with_results;
use profile_image::StatementNo;
use profile_machine::Leaving;
use profile_machine::world::{Call, Line, Outcome, Part, Waiting, World};
use trace_text::Who;

#[tactic(auto, unfolding(profile_machine::specs::CallEnds::go_by_outcome))]
fn go_by_outcome(
    p: &Program,
    effect: &mut Effect,
    part: Part,
    name: Who,
    s: StatementNo,
    outcome: Outcome,
) -> Result<(), NoMemory>
    ensures { OnOk result (Did (go_by_outcome p.now part name s outcome) effect.old effect.new) }
{
    match outcome {
        Outcome::Finished => {
            goes(effect, name, onward_when_done(p, s));
            Ok(())
        }
        Outcome::Cancelled => {
            goes(effect, name, onward_when_cancelled(p, s));
            Ok(())
        }
        Outcome::ToRaise(exception) => raises(effect, part, name, exception),
        Outcome::WasRaised(exception) => {
            leaves(effect, name, Leaving::Exception(exception));
            Ok(())
        }
    }
}

/// The caller goes on behind its call, which is no longer among the calls.
///
/// Errors: memory ran out.
#[tactic(auto, unfolding(profile_machine::specs::CallEnds::resume))]
pub fn resume(
    p: &Program,
    effect: &mut Effect,
    part: Part,
    call: &Call,
    outcome: Outcome,
) -> Result<(), NoMemory>
    ensures { OnOk result (Did (resume p.now part call.now outcome) effect.old effect.new) }
{
    forget_call(&mut effect.world, call.number);
    go_by_outcome(
        p,
        effect,
        part,
        Who::Task(call.caller),
        call.statement,
        outcome,
    )
}

/// Whether the one with this name waits for the call with this number.
pub fn waits_for_call(world: &World, name: Who, c: CallNo) -> bool
    ensures { result ≡ waits_for_call c (waiting_of world.now name) }
{
    match waiting_of(world, name) {
        Some(Waiting::Call(d)) => c.0 == d.0,
        _ => false,
    }
}

// Whether the one with this name waits for the end of the call after an attempt to cancel it.
fn waits_for_end(world: &World, name: Who, c: CallNo) -> bool
    ensures { result ≡ waits_for_end c (waiting_of world.now name) }
{
    match waiting_of(world, name) {
        Some(Waiting::EndOfCall(d)) => c.0 == d.0,
        _ => false,
    }
}

// It waited for its call: the task goes on as it was left.
#[tactic(auto, unfolding(profile_machine::specs::CallEnds::end_wait))]
fn end_wait(
    p: &Program,
    effect: &mut Effect,
    part: Part,
    call: &Call,
    depth: usize,
    outcome: Outcome,
) -> Result<(), NoMemory>
    ensures { OnOk result (Did (end_wait p.now part call.now depth outcome) effect.old effect.new) }
{
    let caller = Who::Task(call.caller);
    ready(p, effect, part, caller)?;
    set_waited_at(&mut effect.world, caller, depth, outcome);
    end_top_abortable(p, effect, part, caller)?;
    open_sequence(p, effect, part, caller)
}

// Its abortable part is open: it is triggered, or its wait ends.
#[tactic(auto, unfolding(profile_machine::specs::CallEnds::end_for_abortable))]
fn end_for_abortable(
    p: &Program,
    effect: &mut Effect,
    part: Part,
    call: &Call,
    depth: usize,
    outcome: Outcome,
) -> Result<(), NoMemory>
    ensures { OnOk result
        (Did (end_for_abortable p.now part call.now depth outcome) effect.old effect.new) }
{
    if waits_for_end(&effect.world, Who::Task(call.caller), call.number) {
        end_wait(p, effect, part, call, depth, outcome)
    } else {
        trigger_at(effect, part, call.caller, depth)
    }
}

// The caller is blocked for it and becomes ready; one that holds the object goes on at the release.
#[tactic(auto, unfolding(profile_machine::specs::CallEnds::end_for_caller))]
fn end_for_caller(
    p: &Program,
    effect: &mut Effect,
    part: Part,
    call: &Call,
    outcome: Outcome,
) -> Result<(), NoMemory>
    ensures { OnOk result (Did (end_for_caller p.now part call.now outcome) effect.old effect.new) }
{
    let caller = Who::Task(call.caller);
    if waits_for_call(&effect.world, caller, call.number) {
        ready(p, effect, part, caller)?;
        resume(p, effect, part, call, outcome)?;
        open_sequence(p, effect, part, caller)
    } else {
        Ok(())
    }
}

#[tactic(auto, unfolding(profile_machine::specs::CallEnds::end_for))]
fn end_for(
    p: &Program,
    effect: &mut Effect,
    part: Part,
    call: &Call,
    outcome: Outcome,
    depth: Option<usize>,
) -> Result<(), NoMemory>
    ensures { OnOk result (Did (end_for p.now part call.now outcome depth) effect.old effect.new) }
{
    match depth {
        Some(depth) => end_for_abortable(p, effect, part, call, depth, outcome),
        None => end_for_caller(p, effect, part, call, outcome),
    }
}

fn set_outcome(world: &mut World, c: CallNo, outcome: Outcome)
    ensures { world.new ≡ edit_call c (with_outcome outcome) world.old }
{
    if let Some(call) = call_mut(&mut world.calls, c) {
        call.outcome = Some(outcome);
        call.sending = None;
    }
}

#[tactic(auto, unfolding(profile_machine::specs::CallEnds::end_with))]
fn end_with(
    p: &Program,
    effect: &mut Effect,
    part: Part,
    call: &Call,
    outcome: Outcome,
) -> Result<(), NoMemory>
    ensures { OnOk result (Did (end_with p.now part call.now outcome) effect.old effect.new) }
{
    set_outcome(&mut effect.world, call.number, outcome);
    let depth = abortable_depth(&effect.world, call);
    end_for(p, effect, part, call, outcome, depth)
}

/// A call has ended; its caller is not unwound yet.
///
/// Errors: memory ran out.
#[tactic(auto, unfolding(profile_machine::specs::CallEnds::end_call))]
pub fn end_call(
    p: &Program,
    effect: &mut Effect,
    part: Part,
    call: &Call,
    outcome: Outcome,
) -> Result<(), NoMemory>
    ensures { OnOk result (Did (end_call p.now part call.now outcome) effect.old effect.new) }
{
    let outcome = with_results(p, call, outcome, &mut effect.world);
    end_with(p, effect, part, call, outcome)
}

/// The call with this number, if it is there, has ended, and its caller is unwound where it is
/// struck.
///
/// Errors: memory ran out.
#[tactic(auto, unfolding(profile_machine::specs::CallEnds::deliver))]
pub fn deliver(
    p: &Program,
    effect: &mut Effect,
    part: Part,
    c: CallNo,
    outcome: Outcome,
) -> Result<(), NoMemory>
    ensures { OnOk result (Did (deliver p.now part c outcome) effect.old effect.new) }
{
    match copied_call(&effect.world, c)? {
        Some(call) => {
            end_call(p, effect, part, &call, outcome)?;
            unwind(p, effect, part, Who::Task(call.caller))
        }
        None => Ok(()),
    }
}

/// Tasking_Error is owed, for the callee is not callable or was aborted in the rendezvous: `gone`.
///
/// Errors: memory ran out.
#[tactic(auto, unfolding(profile_machine::specs::CallEnds::gone))]
pub fn gone(p: &Program, effect: &mut Effect, part: Part, call: &Call) -> Result<(), NoMemory>
    ensures { OnOk result (Did (gone p.now part call.now) effect.old effect.new) }
{
    unqueued(p, &mut effect.world, call);
    says(
        effect,
        part,
        Line::Gone {
            task: call.caller,
            call: call.number,
        },
    )
}
