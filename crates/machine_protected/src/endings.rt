//! A body in a protected action has ended (ISO/IEC 8652:2012, 9.5.1, 9.5.3, 9.5.4).
ghost use Rattle.std.specs.Prelude.{◌≡◌, OnOk, None};
ghost use Rattle.profile_machine.specs.Frames.{edit_top};
ghost use Rattle.profile_machine.specs.Protected.{edit_top_protected};
ghost use Rattle.profile_machine.specs.Serving.{go_on_by_mode, with_body_left, not_left};
ghost use Rattle.profile_machine.specs.Serving.{end_operation, is_own_call, outcome_by};
ghost use Rattle.profile_machine.specs.Serving.{finish_raised, finish_well, finish_call};
ghost use Rattle.profile_machine.specs.Serving.{no_longer_serves, end_entry_body};
ghost use Rattle.profile_machine.specs.Serving.{end_in_protected_by, end_in_protected};
ghost use Rattle.machine_frames.specs.Did.{Did};

use crate::releases::release_object;
use crate::serving::serve_calls;
use ann_base::{CallNo, NoMemory, Raised};
use machine_calls::deliver;
use machine_exclusion::says_finish;
use machine_frames::{Effect, task_mut};
use machine_program::Program;
use machine_queues::{copied_call, enqueue};
use machine_sending::send_on;
use profile_machine::Leaving;
use profile_machine::world::{
    Call, Mark, MeetingEnd, Outcome, Part, ProtectedMark, Sending, World,
};
use std::alloc::Global;
use trace_text::{Mode, Who};

// The body of the called operation has ended: a function's action ends, behind a procedure queued
// calls are served.
#[tactic(auto, unfolding(profile_machine::specs::Serving::go_on_by_mode))]
fn go_on_by_mode(
    alloc: Global,
    p: &Program,
    effect: &mut Effect,
    name: Who,
    m: ProtectedMark,
    mode: Mode,
) -> Result<(), NoMemory>
    ensures { OnOk result (Did (go_on_by_mode p.now name m mode) effect.old effect.new) }
{
    match mode {
        Mode::Read => release_object(p, effect, name, m),
        Mode::Write => serve_calls(alloc, p, effect, name, m, None),
    }
}

fn with_body_left(leaving: Leaving, m: ProtectedMark) -> ProtectedMark
    ensures { result ≡ with_body_left leaving m }
{
    ProtectedMark {
        object: m.object,
        mode: m.mode,
        own_call: m.own_call,
        serves: None,
        body_left: leaving,
        release: m.release,
    }
}

fn no_longer_serves(m: ProtectedMark) -> ProtectedMark
    ensures { result ≡ no_longer_serves m }
{
    ProtectedMark {
        object: m.object,
        mode: m.mode,
        own_call: m.own_call,
        serves: None,
        body_left: m.body_left,
        release: m.release,
    }
}

fn set_body_left(world: &mut World, name: Who, leaving: Leaving)
    ensures { world.new ≡ edit_top_protected name (with_body_left leaving) world.old }
{
    if let Some(task) = task_mut(world, name) {
        if let Some(frame) = task.frames.front_mut() {
            if let Mark::InProtected(action) = &mut frame.mark {
                action.body_left = leaving;
                action.serves = None;
            }
        }
    }
}

fn set_serves_none(world: &mut World, name: Who)
    ensures { world.new ≡ edit_top_protected name no_longer_serves world.old }
{
    if let Some(task) = task_mut(world, name) {
        if let Some(frame) = task.frames.front_mut() {
            if let Mark::InProtected(action) = &mut frame.mark {
                action.serves = None;
            }
        }
    }
}

fn set_not_left(world: &mut World, name: Who)
    ensures { world.new ≡ edit_top name not_left world.old }
{
    if let Some(task) = task_mut(world, name) {
        if let Some(frame) = task.frames.front_mut() {
            frame.left_as = None;
        }
    }
}

#[tactic(auto, unfolding(profile_machine::specs::Serving::end_operation))]
fn end_operation(
    alloc: Global,
    p: &Program,
    effect: &mut Effect,
    name: Who,
    m: ProtectedMark,
    leaving: Leaving,
) -> Result<(), NoMemory>
    ensures { OnOk result (Did (end_operation p.now name m leaving) effect.old effect.new) }
{
    set_body_left(&mut effect.world, name, leaving);
    set_not_left(&mut effect.world, name);
    go_on_by_mode(alloc, p, effect, name, with_body_left(leaving, m), m.mode)
}

fn is_own_call(name: Who, own_call: Option<CallNo>, c: &Call) -> bool
    ensures { result ≡ is_own_call name own_call c.now }
{
    match (own_call, name) {
        (Some(own), Who::Task(task)) => own.0 == c.number.0 && task.0 == c.caller.0,
        _ => false,
    }
}

// An exception of an entry body is raised in the caller; in the holder's own call it has been
// raised already.
fn outcome_by(is_own: bool, exception: Raised) -> Outcome
    ensures { result ≡ outcome_by is_own exception }
{
    if is_own {
        Outcome::WasRaised(exception)
    } else {
        Outcome::ToRaise(exception)
    }
}

#[tactic(auto, unfolding(profile_machine::specs::Serving::finish_raised))]
fn finish_raised(
    alloc: Global,
    p: &Program,
    effect: &mut Effect,
    name: Who,
    m: ProtectedMark,
    c: &Call,
    exception: Raised,
) -> Result<(), NoMemory>
    ensures { OnOk result (Did (finish_raised p.now name m c.now exception) effect.old effect.new) }
{
    let outcome = outcome_by(is_own_call(name, m.own_call, c), exception);
    says_finish(effect, name, c.number, MeetingEnd::Raised(exception))?;
    deliver(p, effect, Part::TheFinish, c.number, outcome)?;
    serve_calls(alloc, p, effect, name, m, None)
}

// The body has ended well: the call is finished, or sent on where a requeue is under way.
#[tactic(auto, unfolding(profile_machine::specs::Serving::finish_well))]
fn finish_well(
    alloc: Global,
    p: &Program,
    effect: &mut Effect,
    name: Who,
    m: ProtectedMark,
    c: &Call,
    sending: Option<Sending>,
) -> Result<(), NoMemory>
    ensures { OnOk result (Did (finish_well p.now name m c.now sending) effect.old effect.new) }
{
    match sending {
        None => {
            says_finish(effect, name, c.number, MeetingEnd::Ok)?;
            deliver(p, effect, Part::TheFinish, c.number, Outcome::Finished)?;
            serve_calls(alloc, p, effect, name, m, None)
        }
        Some(s) => {
            says_finish(effect, name, c.number, MeetingEnd::Requeue)?;
            send_on(effect, c.number, s)?;
            enqueue(p, effect, c.number)?;
            serve_calls(alloc, p, effect, name, m, Some(c.number))
        }
    }
}

#[tactic(auto, unfolding(profile_machine::specs::Serving::finish_call))]
fn finish_call(
    alloc: Global,
    p: &Program,
    effect: &mut Effect,
    name: Who,
    m: ProtectedMark,
    leaving: Leaving,
    c: &Call,
) -> Result<(), NoMemory>
    ensures { OnOk result (Did (finish_call p.now name m leaving c.now) effect.old effect.new) }
{
    match leaving {
        Leaving::Exception(exception) => finish_raised(alloc, p, effect, name, m, c, exception),
        Leaving::End | Leaving::Return | Leaving::Exit(_) | Leaving::Abort | Leaving::Terminate => {
            finish_well(alloc, p, effect, name, m, c, c.sending)
        }
    }
}

#[tactic(auto, unfolding(profile_machine::specs::Serving::end_entry_body))]
fn end_entry_body(
    alloc: Global,
    p: &Program,
    effect: &mut Effect,
    name: Who,
    m: ProtectedMark,
    leaving: Leaving,
    c: CallNo,
) -> Result<(), NoMemory>
    ensures { OnOk result (Did (end_entry_body p.now name m leaving c) effect.old effect.new) }
{
    set_serves_none(&mut effect.world, name);
    set_not_left(&mut effect.world, name);
    match copied_call(&effect.world, c)? {
        Some(call) => finish_call(alloc, p, effect, name, no_longer_serves(m), leaving, &call),
        None => Ok(()),
    }
}

/// A protected action first finishes the call that it served; it then serves the next, or the
/// object is released.
#[tactic(auto, unfolding(profile_machine::specs::Serving::end_in_protected, profile_machine::specs::Serving::end_in_protected_by))]
pub fn end_in_protected(
    alloc: Global,
    p: &Program,
    effect: &mut Effect,
    name: Who,
    m: ProtectedMark,
    leaving: Leaving,
) -> Result<(), NoMemory>
    ensures { OnOk result (Did (end_in_protected p.now name m leaving) effect.old effect.new) }
{
    match m.serves {
        None => end_operation(alloc, p, effect, name, m, leaving),
        Some(c) => end_entry_body(alloc, p, effect, name, m, leaving, c),
    }
}
