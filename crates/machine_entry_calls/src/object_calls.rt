//! Calls of protected entries (ISO/IEC 8652:2012, 9.5.3): tested first, then made. A call runs at
//! once where the barrier is open.
ghost use Rattle.std.specs.Prelude.{◌≡◌, OnOk};
ghost use Rattle.profile_machine.specs.EntryCalls.{make_call, call_runs, call_without_room};
ghost use Rattle.profile_machine.specs.EntryCalls.{has_room_for_action, call_runs_if_room};
ghost use Rattle.profile_machine.specs.EntryCalls.{call_passes, call_refused, call_closed};
ghost use Rattle.profile_machine.specs.EntryCalls.{call_by_barrier, call_object};
ghost use Rattle.machine_frames.specs.Did.{Did};
ghost use Rattle.machine_entry_calls.specs.Objects.{enters, starts, fails};
ghost use Rattle.machine_entry_calls.specs.Objects.{exits, called_by_barrier};

use crate::making::{end_at_once, has_room_if_queued, make_call};
use ann_base::{NoMemory, ObjectNo, Raised};
use machine_barriers::is_barrier_open;
use machine_exclusion::{
    begin_action_on, begin_call, body_opens, body_scope_of, entering, find_held, has_room_for_body,
    marks_of_action,
};
use machine_frames::{Effect, has_room, raises, says};
use machine_program::{Program, scope_of};
use machine_queues::{enqueue, is_full};
use machine_sending::not_accepted;
use profile_machine::world::{Call, Entering, Line, MeetingEnd, Part, World};
use std::alloc::Global;
use trace_text::{Mode, Who};

fn enters(effect: &mut Effect, o: ObjectNo, c: &Call) -> Result<(), NoMemory>
    ensures { OnOk result (Did (enters o c.now) effect.old effect.new) }
{
    says(
        effect,
        Part::Own,
        Line::Enter {
            who: Who::Task(c.caller),
            object: o,
            mode: Mode::Write,
        },
    )
}

fn starts(effect: &mut Effect, c: &Call) -> Result<(), NoMemory>
    ensures { OnOk result (Did (starts c.now) effect.old effect.new) }
{
    says(
        effect,
        Part::Own,
        Line::Start {
            who: Who::Task(c.caller),
            call: c.number,
        },
    )
}

// The body finishes with Storage_Error.
fn fails(effect: &mut Effect, c: &Call) -> Result<(), NoMemory>
    ensures { OnOk result (Did (fails c.now) effect.old effect.new) }
{
    says(
        effect,
        Part::Own,
        Line::Finish {
            who: Who::Task(c.caller),
            call: c.number,
            how: MeetingEnd::Raised(Raised::Storage),
        },
    )
}

fn exits(effect: &mut Effect, o: ObjectNo, c: &Call) -> Result<(), NoMemory>
    ensures { OnOk result (Did (exits o c.now) effect.old effect.new) }
{
    says(
        effect,
        Part::Own,
        Line::Exit {
            who: Who::Task(c.caller),
            object: o,
        },
    )
}

// The caller begins an action, and the body runs in it.
#[tactic(auto, unfolding(profile_machine::specs::EntryCalls::call_runs))]
fn call_runs(
    alloc: Global,
    p: &Program,
    effect: &mut Effect,
    o: ObjectNo,
    c: &Call,
) -> Result<(), NoMemory>
    ensures { OnOk result (Did (call_runs p.now o c.now) effect.old effect.new) }
{
    let name = Who::Task(c.caller);
    begin_action_on(p, effect, name, o, Mode::Write, Some(c.number), None)?;
    let has_room = has_room_for_body(p, &effect.world, name, c.entry);
    begin_call(p, effect, Part::Own, name, c)?;
    if has_room {
        body_opens(alloc, p, effect, name, o, c)
    } else {
        fails(effect, c)
    }
}

// Without room the body starts and finishes at once, and nothing is placed.
#[tactic(auto, unfolding(profile_machine::specs::EntryCalls::call_without_room))]
fn call_without_room(effect: &mut Effect, o: ObjectNo, c: &Call) -> Result<(), NoMemory>
    ensures { OnOk result (Did (call_without_room o c.now) effect.old effect.new) }
{
    enters(effect, o, c)?;
    starts(effect, c)?;
    fails(effect, c)?;
    exits(effect, o, c)?;
    end_at_once(effect, Part::Own, c, Raised::Storage)
}

fn has_room_for_action(p: &Program, world: &World, c: &Call) -> bool
    ensures { result ≡ has_room_for_action p.now world.now c.now }
{
    let scope = body_scope_of(p, c.entry);
    let marks = marks_of_action(p, scope);
    has_room(world, Who::Task(c.caller), marks, scope_of(p, scope).size)
}

#[tactic(auto, unfolding(profile_machine::specs::EntryCalls::call_runs_if_room))]
fn call_runs_if_room(
    alloc: Global,
    p: &Program,
    effect: &mut Effect,
    o: ObjectNo,
    c: &Call,
) -> Result<(), NoMemory>
    ensures { OnOk result (Did (call_runs_if_room p.now o c.now) effect.old effect.new) }
{
    if has_room_for_action(p, &effect.world, c) {
        call_runs(alloc, p, effect, o, c)
    } else {
        call_without_room(effect, o, c)
    }
}

fn make_running(
    alloc: Global,
    p: &Program,
    effect: &mut Effect,
    o: ObjectNo,
    c: Call,
) -> Result<(), NoMemory>
    ensures { OnOk result
        (Did (make_call p.now c (call_runs_if_room p.now o)) effect.old effect.new) }
{
    let made = make_call(p, effect, c)?;
    call_runs_if_room(alloc, p, effect, o, &made)
}

// The call is queued: the action ends at once, and nothing is placed.
#[tactic(auto, unfolding(profile_machine::specs::EntryCalls::call_passes))]
fn call_passes(p: &Program, effect: &mut Effect, o: ObjectNo, c: &Call) -> Result<(), NoMemory>
    ensures { OnOk result (Did (call_passes p.now o c.now) effect.old effect.new) }
{
    enters(effect, o, c)?;
    enqueue(p, effect, c.number)?;
    exits(effect, o, c)?;
    not_accepted(p, effect, Part::Own, c, c.kind)
}

fn make_passing(p: &Program, effect: &mut Effect, o: ObjectNo, c: Call) -> Result<(), NoMemory>
    ensures { OnOk result (Did (make_call p.now c (call_passes p.now o)) effect.old effect.new) }
{
    let made = make_call(p, effect, c)?;
    call_passes(p, effect, o, &made)
}

// The queue is full.
#[tactic(auto, unfolding(profile_machine::specs::EntryCalls::call_refused))]
fn call_refused(effect: &mut Effect, o: ObjectNo, c: &Call) -> Result<(), NoMemory>
    ensures { OnOk result (Did (call_refused o c.now) effect.old effect.new) }
{
    enters(effect, o, c)?;
    exits(effect, o, c)?;
    end_at_once(effect, Part::Own, c, Raised::Program)
}

// The barrier is closed: the call is queued, where the queue is not full.
#[tactic(auto, unfolding(profile_machine::specs::EntryCalls::call_closed))]
fn call_closed(
    p: &Program,
    effect: &mut Effect,
    o: ObjectNo,
    c: Call,
    is_full: bool,
) -> Result<(), NoMemory>
    ensures { OnOk result (Did (call_closed p.now o c is_full) effect.old effect.new) }
{
    if is_full {
        let made = make_call(p, effect, c)?;
        call_refused(effect, o, &made)
    } else if has_room_if_queued(&effect.world, &c) {
        make_passing(p, effect, o, c)
    } else {
        raises(effect, Part::Own, Who::Task(c.caller), Raised::Storage)
    }
}

#[tactic(auto, unfolding(profile_machine::specs::EntryCalls::call_by_barrier))]
fn call_by_barrier(
    alloc: Global,
    p: &Program,
    effect: &mut Effect,
    o: ObjectNo,
    c: Call,
    is_open: bool,
) -> Result<(), NoMemory>
    ensures { OnOk result (Did (call_by_barrier p.now o c is_open) effect.old effect.new) }
{
    if !is_open {
        let is_full = is_full(p, &effect.world, c.owner, c.entry);
        call_closed(p, effect, o, c, is_full)
    } else if has_room(&effect.world, Who::Task(c.caller), 1, 0) {
        make_running(alloc, p, effect, o, c)
    } else {
        raises(effect, Part::Own, Who::Task(c.caller), Raised::Storage)
    }
}

fn called_by_barrier(
    alloc: Global,
    p: &Program,
    effect: &mut Effect,
    o: ObjectNo,
    c: Call,
) -> Result<(), NoMemory>
    ensures { OnOk result (Did (called_by_barrier p.now o c) effect.old effect.new) }
{
    let name = Who::Task(c.caller);
    let is_open = is_barrier_open(p, &effect.world, name, o, c.entry)?;
    call_by_barrier(alloc, p, effect, o, c, is_open)
}

/// A call of an entry of this object.
///
/// Errors: memory ran out, or a number does not fit its type.
#[tactic(auto, unfolding(profile_machine::specs::EntryCalls::call_object))]
pub fn call_object(
    alloc: Global,
    p: &Program,
    effect: &mut Effect,
    o: ObjectNo,
    c: Call,
) -> Result<(), NoMemory>
    ensures { OnOk result (Did (call_object p.now o c) effect.old effect.new) }
{
    let name = Who::Task(c.caller);
    match entering(p, &effect.world, name, o, Mode::Write) {
        Entering::SameObject => raises(effect, Part::Own, name, Raised::Program),
        Entering::AboveCeiling => raises(effect, Part::Own, name, Raised::Program),
        Entering::Held => find_held(p, effect, name, o, Mode::Write),
        Entering::Inside => called_by_barrier(alloc, p, effect, o, c),
    }
}
