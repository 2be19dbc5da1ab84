//! The accept statement, and accepts that wait (ISO/IEC 8652:2012, 9.5.2).
ghost use Rattle.std.specs.Prelude.{◌≡◌, ◌∷◌, [], OnOk, option_copied};
ghost use Rattle.profile_machine.specs.Calls.{next_call, place_of_entry};
ghost use Rattle.profile_machine.specs.Rendezvous.{accept_scope, accepts_entry, first_accept};
ghost use Rattle.profile_machine.specs.Rendezvous.{accept_for, open_accept, has_room_for_accept};
ghost use Rattle.profile_machine.specs.Rendezvous.{begin_accept, finish_without_room};
ghost use Rattle.profile_machine.specs.Rendezvous.{accept_with_room, accept_call, own_queue};
ghost use Rattle.profile_machine.specs.Rendezvous.{accept_or_wait, accept};
ghost use Rattle.profile_machine.specs.Tasks.{waiting_of};
ghost use Rattle.machine_frames.specs.Did.{Did};

use ann_base::{CallNo, NoMemory, Raised};
use machine_calls::deliver;
use machine_dispatching::{block, inherit_running};
use machine_exclusion::begin_call;
use machine_frames::{
    Effect, goes, has_room, in_protected, new_frame, push, raises, says, waiting_of,
};
use machine_program::{Program, form_of, marks_of, next_of, scope_of};
use machine_queues::{copied_call, next_of_queue, parameters_of, place_of_entry, queue_of};
use machine_scopes::{begin_scope, innermost, next_id};
use profile_image::{EntryNo, ScopeNo, StatementForm, StatementNo};
use profile_machine::world::{
    AcceptMark, Beginning, Call, Cause, Line, Mark, MeetingEnd, Outcome, Owner, Part, Waiting,
    World,
};
use std::alloc::Global;
use trace_text::Who;
use world_tables::List;

fn accept_scope(form: &StatementForm) -> ScopeNo
    ensures { result ≡ accept_scope form.now }
{
    match form {
        StatementForm::Accept { scope, .. } => *scope,
        _ => ScopeNo(0),
    }
}

fn accepts_entry(form: &StatementForm, e: EntryNo) -> bool
    ensures { result ≡ accepts_entry form.now e }
{
    match form {
        StatementForm::Accept { entry, .. } => entry.0 == e.0,
        _ => false,
    }
}

fn found_accept<'a>(
    p: &Program,
    e: EntryNo,
    accepts: &'a List<StatementNo>,
) -> Option<&'a StatementNo>
    ensures { option_copied result ≡ first_accept p.now e accepts.now }
{
    accepts.iter().find(|s| accepts_entry(form_of(p, **s), e))
}

/// The first of these accepts with which a task waits for calls of an entry.
pub fn first_accept(p: &Program, e: EntryNo, accepts: &List<StatementNo>) -> Option<StatementNo>
    ensures { result ≡ first_accept p.now e accepts.now }
{
    Some(*found_accept(p, e, accepts)?)
}

/// The accept with which the one with this name waits for calls of an entry.
pub fn accept_for(p: &Program, world: &World, name: Who, e: EntryNo) -> Option<StatementNo>
    ensures { result ≡ accept_for p.now e (waiting_of world.now name) }
{
    match waiting_of(world, name) {
        Some(Waiting::Accept(s)) => accept_alone(p, e, *s),
        Some(Waiting::Select(accepts, _, _)) => first_accept(p, e, accepts),
        _ => None,
    }
}

fn accept_alone(p: &Program, e: EntryNo, s: StatementNo) -> Option<StatementNo>
    ensures { result ≡ first_accept p.now e (s ∷ []) }
{
    if accepts_entry(form_of(p, s), e) {
        Some(s)
    } else {
        None
    }
}

/// The mark of an accept is opened, with the parameters of the call in its scope.
///
/// Errors: memory ran out.
pub fn open_accept(
    alloc: Global,
    p: &Program,
    world: &mut World,
    name: Who,
    s: StatementNo,
    c: &Call,
) -> Result<(), NoMemory>
    ensures { OnOk result (world.new ≡ open_accept p.now name s c.now world.old) }
{
    let scope = accept_scope(form_of(p, s));
    let mark = Mark::InAccept(AcceptMark {
        call: c.number,
        accept: s,
        within: next_id(world),
        handles: None,
    });
    let b = Beginning {
        outer: innermost(world, name),
        object: None,
        subject: None,
        values: parameters_of(alloc, p, c)?,
    };
    begin_scope(alloc, p, name, scope, b, world)?;
    push(world, name, new_frame(mark, scope_of(p, scope).first))
}

/// Whether there is room for the mark of this accept and for its scope.
pub fn has_room_for_accept(p: &Program, world: &World, name: Who, s: StatementNo) -> bool
    ensures { result ≡ has_room_for_accept p.now world.now name s }
{
    let scope = accept_scope(form_of(p, s));
    has_room(world, name, marks_of(p, scope), scope_of(p, scope).size)
}

/// The call begins, and the acceptor will go on behind its accept.
///
/// Errors: memory ran out.
#[tactic(auto, unfolding(profile_machine::specs::Rendezvous::begin_accept))]
pub fn begin_accept(
    p: &Program,
    effect: &mut Effect,
    part: Part,
    name: Who,
    s: StatementNo,
    c: &Call,
) -> Result<(), NoMemory>
    ensures { OnOk result (Did (begin_accept p.now part name s c.now) effect.old effect.new) }
{
    begin_call(p, effect, part, name, c)?;
    goes(effect, name, next_of(p, s));
    Ok(())
}

/// Without room for the accept body the call finishes at once with Storage_Error.
///
/// Errors: memory ran out.
#[tactic(auto, unfolding(profile_machine::specs::Rendezvous::finish_without_room))]
pub fn finish_without_room(
    effect: &mut Effect,
    part: Part,
    name: Who,
    c: &Call,
) -> Result<(), NoMemory>
    ensures { OnOk result (Did (finish_without_room part name c.now) effect.old effect.new) }
{
    says(
        effect,
        part,
        Line::Finish {
            who: name,
            call: c.number,
            how: MeetingEnd::Raised(Raised::Storage),
        },
    )
}

// The acceptor acts: it goes to the head where its active priority rises.
#[tactic(auto, unfolding(profile_machine::specs::Rendezvous::accept_with_room))]
fn accept_with_room(
    alloc: Global,
    p: &Program,
    effect: &mut Effect,
    name: Who,
    s: StatementNo,
    c: &Call,
    has_room: bool,
) -> Result<(), NoMemory>
    ensures { OnOk result
        (Did (accept_with_room p.now name s c.now has_room) effect.old effect.new) }
{
    if has_room {
        open_accept(alloc, p, &mut effect.world, name, s, c)?;
        inherit_running(p, effect, name, Cause::Rendezvous(c.number), c.priority)
    } else {
        finish_without_room(effect, Part::Own, name, c)?;
        deliver(
            p,
            effect,
            Part::Own,
            c.number,
            Outcome::ToRaise(Raised::Storage),
        )?;
        raises(effect, Part::Own, name, Raised::Storage)
    }
}

// The acceptor takes a call that is queued.
#[tactic(auto, unfolding(profile_machine::specs::Rendezvous::accept_call))]
pub(crate) fn accept_call(
    alloc: Global,
    p: &Program,
    effect: &mut Effect,
    name: Who,
    s: StatementNo,
    c: CallNo,
) -> Result<(), NoMemory>
    ensures { OnOk result (Did (accept_call p.now name s c) effect.old effect.new) }
{
    match copied_call(&effect.world, c)? {
        Some(call) => {
            begin_accept(p, effect, Part::Own, name, s, &call)?;
            let has_room = has_room_for_accept(p, &effect.world, name, s);
            accept_with_room(alloc, p, effect, name, s, &call, has_room)
        }
        None => Ok(()),
    }
}

// The head of the queue of an entry of the one with this name.
#[tactic(auto, using(crate::proofs::QueueLemmas::queue_laws))]
fn next_of_own(p: &Program, world: &World, name: Who, e: EntryNo) -> Option<CallNo>
    ensures { result
        ≡ next_call p.now world.now (own_queue world.now name (place_of_entry p.now e) ∷ []) }
{
    let Who::Task(t) = name else {
        return None;
    };
    let queue = queue_of(world, Owner::Task(t), place_of_entry(p, e))?;
    next_of_queue(p, world, queue)
}

#[tactic(auto, unfolding(profile_machine::specs::Rendezvous::accept_or_wait))]
fn accept_or_wait(
    alloc: Global,
    p: &Program,
    effect: &mut Effect,
    name: Who,
    s: StatementNo,
    c: Option<CallNo>,
) -> Result<(), NoMemory>
    ensures { OnOk result (Did (accept_or_wait p.now name s c) effect.old effect.new) }
{
    match c {
        Some(c) => accept_call(alloc, p, effect, name, s, c),
        None => {
            goes(effect, name, next_of(p, s));
            block(effect, Part::TheBlock, name, Waiting::Accept(s))
        }
    }
}

/// An accept statement: the rendezvous begins with the next call, or the task waits. Inside a
/// protected action Program_Error is raised.
///
/// Errors: memory ran out.
#[tactic(auto, unfolding(profile_machine::specs::Rendezvous::accept))]
pub fn accept(
    alloc: Global,
    p: &Program,
    effect: &mut Effect,
    name: Who,
    s: StatementNo,
    e: EntryNo,
) -> Result<(), NoMemory>
    ensures { OnOk result (Did (accept p.now name s e) effect.old effect.new) }
{
    if in_protected(&effect.world, name) {
        raises(effect, Part::Own, name, Raised::Program)
    } else {
        let next = next_of_own(p, &effect.world, name, e);
        accept_or_wait(alloc, p, effect, name, s, next)
    }
}
