//! Entry calls, and those of the entries of tasks (ISO/IEC 8652:2012, 9.5.3, 9.7).
ghost use Rattle.std.specs.Prelude.{◌≡◌, IfOk, OnOk};
ghost use Rattle.ann_base.specs.Answers.{Answers};
ghost use Rattle.profile_machine.specs.EntryCalls.{make_call, call_gone, call_meets};
ghost use Rattle.profile_machine.specs.EntryCalls.{call_queues, call_not_met};
ghost use Rattle.profile_machine.specs.EntryCalls.{call_accepted_by, call_callable, call_task};
ghost use Rattle.profile_machine.specs.EntryCalls.{call_owner, timed_moment, is_forbidden};
ghost use Rattle.profile_machine.specs.EntryCalls.{named_call_in, call_named, entry_call};
ghost use Rattle.machine_frames.specs.Did.{Did};
ghost use Rattle.machine_meetings.specs.Called.{named, new_call_of};

use crate::endings::is_callable;
use crate::meetings::{Arrival, meet};
use crate::parameters::{entry_parameters, results_in, values_in};
use ann_base::{CallNo, Level, Moment, NoMemory, OrMemory, Raised, TaskNo};
use machine_accepts::{accept_for, delay_moment};
use machine_calls::{call_in, gone};
use machine_dispatching::active_of;
use machine_entry_calls::{
    call_object, end_at_once, has_room_if_queued, make_call, owner_of_entry,
};
use machine_frames::{Effect, in_protected, is_deferred, raises, refused};
use machine_program::{Program, entry_of, form_of};
use machine_queues::{enqueue, is_full};
use machine_sending::{is_triggering, not_accepted};
use machine_values::{Seen, seen_by};
use profile_image::{Actual, EntryNo, EntryOwner, StatementForm, StatementNo, Value};
use profile_machine::world::{Call, CallKind, Owner, Part, Variable, World};
use std::alloc::Global;
use trace_text::Who;
use world_tables::List;

#[tactic(auto, unfolding(profile_machine::specs::EntryCalls::call_gone))]
fn call_gone(p: &Program, effect: &mut Effect, c: &Call) -> Result<(), NoMemory>
    ensures { OnOk result (Did (call_gone p.now c.now) effect.old effect.new) }
{
    gone(p, effect, Part::Own, c)?;
    end_at_once(effect, Part::Own, c, Raised::Tasking)
}

// The callee waits for the call: the rendezvous begins, and the caller blocks.
#[tactic(auto, unfolding(profile_machine::specs::EntryCalls::call_meets, crate::specs::Meetings::behind_met, crate::specs::Meetings::behind_failed))]
fn call_meets(
    alloc: Global,
    p: &Program,
    effect: &mut Effect,
    t: TaskNo,
    s: StatementNo,
    c: &Call,
) -> Result<(), NoMemory>
    ensures { OnOk result (Did (call_meets p.now t s c.now) effect.old effect.new) }
{
    let name = Who::Task(t);
    meet(
        alloc,
        p,
        effect,
        Part::OfOther(name),
        name,
        s,
        c,
        Arrival::Made,
    )
}

#[tactic(auto, unfolding(profile_machine::specs::EntryCalls::call_queues))]
fn call_queues(p: &Program, effect: &mut Effect, c: &Call) -> Result<(), NoMemory>
    ensures { OnOk result (Did (call_queues p.now c.now) effect.old effect.new) }
{
    enqueue(p, effect, c.number)?;
    not_accepted(p, effect, Part::Own, c, c.kind)
}

fn make_queued(p: &Program, effect: &mut Effect, c: Call) -> Result<(), NoMemory>
    ensures { OnOk result (Did (make_call p.now c (call_queues p.now)) effect.old effect.new) }
{
    let made = make_call(p, effect, c)?;
    call_queues(p, effect, &made)
}

// The callee does not wait for the call: it is queued, where the queue is not full.
#[tactic(auto, unfolding(profile_machine::specs::EntryCalls::call_not_met))]
fn call_not_met(p: &Program, effect: &mut Effect, c: Call, is_full: bool) -> Result<(), NoMemory>
    ensures { OnOk result (Did (call_not_met p.now c is_full) effect.old effect.new) }
{
    if is_full {
        let made = make_call(p, effect, c)?;
        end_at_once(effect, Part::Own, &made, Raised::Program)
    } else if has_room_if_queued(&effect.world, &c) {
        make_queued(p, effect, c)
    } else {
        raises(effect, Part::Own, Who::Task(c.caller), Raised::Storage)
    }
}

#[tactic(auto, unfolding(profile_machine::specs::EntryCalls::call_accepted_by))]
fn call_accepted_by(
    alloc: Global,
    p: &Program,
    effect: &mut Effect,
    t: TaskNo,
    c: Call,
    s: Option<StatementNo>,
) -> Result<(), NoMemory>
    ensures { OnOk result (Did (call_accepted_by p.now t c s) effect.old effect.new) }
{
    match s {
        Some(s) => {
            let made = make_call(p, effect, c)?;
            call_meets(alloc, p, effect, t, s, &made)
        }
        None => {
            let is_full = is_full(p, &effect.world, c.owner, c.entry);
            call_not_met(p, effect, c, is_full)
        }
    }
}

#[tactic(auto, unfolding(profile_machine::specs::EntryCalls::call_callable))]
fn call_callable(
    alloc: Global,
    p: &Program,
    effect: &mut Effect,
    t: TaskNo,
    c: Call,
    is_callable: bool,
) -> Result<(), NoMemory>
    ensures { OnOk result (Did (call_callable p.now t c is_callable) effect.old effect.new) }
{
    if is_callable {
        let s = accept_for(p, &effect.world, Who::Task(t), c.entry);
        call_accepted_by(alloc, p, effect, t, c, s)
    } else {
        let made = make_call(p, effect, c)?;
        call_gone(p, effect, &made)
    }
}

// A call of an entry of this task.
#[tactic(auto, unfolding(profile_machine::specs::EntryCalls::call_task))]
fn call_task(
    alloc: Global,
    p: &Program,
    effect: &mut Effect,
    t: TaskNo,
    c: Call,
) -> Result<(), NoMemory>
    ensures { OnOk result (Did (call_task p.now t c) effect.old effect.new) }
{
    let is_callable = is_callable(&effect.world, t);
    call_callable(alloc, p, effect, t, c, is_callable)
}

#[tactic(auto, unfolding(profile_machine::specs::EntryCalls::call_owner))]
fn call_owner(
    alloc: Global,
    p: &Program,
    effect: &mut Effect,
    c: Call,
    owner: Owner,
) -> Result<(), NoMemory>
    ensures { OnOk result (Did (call_owner p.now c owner) effect.old effect.new) }
{
    match owner {
        Owner::Task(t) => call_task(alloc, p, effect, t, c),
        Owner::Object(o) => call_object(alloc, p, effect, o, c),
    }
}

// The moment of a timed call.
fn timed_moment(q: &Seen<'_>, form: &StatementForm) -> Result<Option<Moment>, OrMemory<Raised>>
    ensures { Answers result (timed_moment q.now form.now) }
{
    match form {
        StatementForm::TimedCall { delay, .. } => Ok(Some(delay_moment(q, *delay)?)),
        _ => Ok(None),
    }
}

// Inside a protected action a call raises Program_Error, and a trigger wherever abort is deferred.
pub(crate) fn is_forbidden(world: &World, name: Who, kind: CallKind) -> bool
    ensures { result ≡ is_forbidden world.now name kind }
{
    in_protected(world, name) || (is_triggering(kind) && is_deferred(world, name))
}

fn new_call(
    alloc: Global,
    t: TaskNo,
    kind: CallKind,
    s: StatementNo,
    entry: EntryNo,
    owner: Owner,
    priority: Level,
    parameters: &List<(Value, Option<Variable>)>,
    moment: Option<Moment>,
) -> Result<Call, NoMemory>
    ensures { IfOk result
        (λ call. call ≡ new_call_of t kind s entry owner priority parameters.now moment) }
{
    Ok(Call {
        number: CallNo(0),
        caller: t,
        kind,
        statement: s,
        owner,
        entry,
        priority,
        begun: false,
        firm: false,
        sent_with_abort: false,
        attempted: false,
        moment,
        values: values_in(alloc, parameters)?,
        results: results_in(alloc, parameters)?,
        sending: None,
        outcome: None,
    })
}

// First whose entry it is, then the parameters, and then the moment of a timed call.
#[tactic(auto, unfolding(profile_machine::specs::EntryCalls::call_named))]
fn call_named(
    alloc: Global,
    p: &Program,
    effect: &mut Effect,
    t: TaskNo,
    kind: CallKind,
    s: StatementNo,
    entry: EntryNo,
    owner: EntryOwner,
    actuals: &[Actual],
) -> Result<(), NoMemory>
    ensures { OnOk result
        (Did (call_named p.now t kind s (named entry owner actuals.now)) effect.old effect.new) }
{
    let name = Who::Task(t);
    let q = seen_by(p, &effect.world, name);
    match owner_of_entry(&q, entry, owner) {
        Ok(owner) => {
            let formals = entry_of(p, entry).formals.as_slice();
            match entry_parameters(alloc, &q, formals, actuals) {
                Ok(parameters) => match timed_moment(&q, form_of(p, s)) {
                    Ok(moment) => {
                        let priority = active_of(p, &effect.world, name);
                        let call = new_call(
                            alloc,
                            t,
                            kind,
                            s,
                            entry,
                            owner,
                            priority,
                            &parameters,
                            moment,
                        )?;
                        call_owner(alloc, p, effect, call, owner)
                    }
                    Err(answer) => refused(effect, name, answer),
                },
                Err(answer) => refused(effect, name, answer),
            }
        }
        Err(exception) => raises(effect, Part::Own, name, exception),
    }
}

// The entry call that the form is.
fn call_in_form(
    alloc: Global,
    p: &Program,
    effect: &mut Effect,
    t: TaskNo,
    kind: CallKind,
    s: StatementNo,
    form: &StatementForm,
) -> Result<(), NoMemory>
    ensures { OnOk result
        (Did (call_named p.now t kind s (named_call_in form.now)) effect.old effect.new) }
{
    match form {
        StatementForm::EntryCall {
            entry,
            owner,
            actuals,
        } => {
            let actuals = actuals.as_slice();
            call_named(alloc, p, effect, t, kind, s, *entry, *owner, actuals)
        }
        _ => call_named(
            alloc,
            p,
            effect,
            t,
            kind,
            s,
            EntryNo(0),
            EntryOwner::Own,
            &[],
        ),
    }
}

/// An entry call of this kind, made by a statement. Inside a protected action, and for a trigger
/// wherever abort is deferred, Program_Error is raised.
///
/// Errors: memory ran out, or a number does not fit its type.
#[tactic(auto, unfolding(profile_machine::specs::EntryCalls::entry_call))]
pub fn entry_call(
    alloc: Global,
    p: &Program,
    effect: &mut Effect,
    name: Who,
    kind: CallKind,
    s: StatementNo,
) -> Result<(), NoMemory>
    ensures { OnOk result (Did (entry_call p.now name kind s) effect.old effect.new) }
{
    let Who::Task(t) = name else {
        return raises(effect, Part::Own, Who::Agent, Raised::Program);
    };
    if is_forbidden(&effect.world, Who::Task(t), kind) {
        raises(effect, Part::Own, Who::Task(t), Raised::Program)
    } else {
        let call = call_in(form_of(p, s), s);
        call_in_form(alloc, p, effect, t, kind, s, form_of(p, call))
    }
}
