//! Abortable parts, and calls that are not accepted at once (ISO/IEC 8652:2012, 9.7.2, 9.7.3,
//! 9.7.4).
ghost use Rattle.std.specs.Prelude.{◌≡◌, OnOk};
ghost use Rattle.profile_machine.specs.Sending.{abortable_in, new_abortable_mark};
ghost use Rattle.profile_machine.specs.Sending.{open_abortable, is_not_future, cancel_at_once};
ghost use Rattle.profile_machine.specs.Sending.{stands_in_queue, still_serves, may_time_out};
ghost use Rattle.profile_machine.specs.Sending.{appoint_timeout, wait_for_call};
ghost use Rattle.profile_machine.specs.Sending.{wait_or_cancel, is_triggering, not_accepted};
ghost use Rattle.profile_machine.specs.Calls.{call_of};
ghost use Rattle.machine_frames.specs.Did.{Did};

use ann_base::{CallNo, Moment, NoMemory};
use machine_calls::resume;
use machine_dispatching::block;
use machine_frames::{Effect, appoint, new_frame, push, task_at};
use machine_program::{Program, form_of};
use machine_queues::{attempt_on, call_of, is_cancellable, place_of_entry, queue_of};
use profile_image::{StatementForm, StatementNo};
use profile_machine::world::{
    AbortableMark, Call, CallKind, Due, Mark, Outcome, Owner, Part, Waiting, World,
};
use trace_text::Who;

fn abortable_in(form: &StatementForm) -> Option<StatementNo>
    ensures { result ≡ abortable_in form.now }
{
    match form {
        StatementForm::AsynchronousSelect { abortable, .. } => Some(*abortable),
        _ => None,
    }
}

fn new_abortable_mark(select: StatementNo, call: Option<CallNo>) -> Mark
    ensures { result ≡ new_abortable_mark select call }
{
    Mark::Abortable(AbortableMark {
        select,
        call,
        triggered: false,
        waits: false,
    })
}

/// The abortable part of an asynchronous select is opened; `call` is the triggering call (9.7.4).
pub fn open_abortable(
    p: &Program,
    world: &mut World,
    name: Who,
    select: StatementNo,
    call: Option<CallNo>,
) -> Result<(), NoMemory>
    ensures { OnOk result (world.new ≡ open_abortable p.now name select call world.old) }
{
    let first = abortable_in(form_of(p, select));
    push(
        world,
        name,
        new_frame(new_abortable_mark(select, call), first),
    )
}

// Whether a moment is there and has come. The present is never below 0.
pub(crate) fn is_not_future(time: u64, moment: Option<Moment>) -> bool
    ensures { result ≡ is_not_future time moment }
{
    match moment {
        Some(moment) => i128::from(moment) <= i128::from(time),
        None => false,
    }
}

// A conditional call, and a timed one whose moment has come, is cancelled.
#[tactic(auto, unfolding(profile_machine::specs::Sending::cancel_at_once))]
fn cancel_at_once(p: &Program, effect: &mut Effect, part: Part, c: &Call) -> Result<(), NoMemory>
    ensures { OnOk result (Did (cancel_at_once p.now part c.now) effect.old effect.new) }
{
    attempt_on(p, effect, part, c)?;
    if is_cancellable(c) {
        resume(p, effect, part, c, Outcome::Cancelled)
    } else {
        Ok(())
    }
}

// Whether a call stands in the queue of its entry.
fn stands_in_queue(p: &Program, world: &World, c: &Call) -> bool
    ensures { result ≡ stands_in_queue p.now world.now c.now }
{
    match queue_of(world, c.owner, place_of_entry(p, c.entry)) {
        Some(queue) => queue.iter().any(|queued| c.number.0 == queued.0),
        None => false,
    }
}

// Whether somebody serves the queues of an owner: a task that is completed does not.
fn still_serves(world: &World, owner: Owner) -> bool
    ensures { result ≡ still_serves world.now owner }
{
    match owner {
        Owner::Task(t) => match task_at(world, Who::Task(t)) {
            Some(task) => !task.completed,
            None => true,
        },
        Owner::Object(_) => true,
    }
}

// Whether a call may have a time-out: it is there, stands in a queue that is still served, and is
// not firm.
fn may_time_out(p: &Program, world: &World, c: CallNo) -> bool
    ensures { result ≡ may_time_out p.now world.now (call_of world.now c) }
{
    match call_of(world, c) {
        Some(call) => {
            stands_in_queue(p, world, call) && !call.firm && still_serves(world, call.owner)
        }
        None => false,
    }
}

// A call that may have a time-out has it for this moment, if there is one.
pub(crate) fn appoint_timeout(
    p: &Program,
    world: &mut World,
    c: CallNo,
    moment: Option<Moment>,
) -> Result<(), NoMemory>
    ensures { OnOk result (world.new ≡ appoint_timeout p.now c moment world.old) }
{
    match moment {
        Some(moment) if may_time_out(p, world, c) => appoint(world, Due::Timeout(c), moment),
        Some(_) | None => Ok(()),
    }
}

/// The caller blocks until its call ends.
#[tactic(auto, unfolding(profile_machine::specs::Sending::wait_for_call))]
pub fn wait_for_call(effect: &mut Effect, c: &Call) -> Result<(), NoMemory>
    ensures { OnOk result (Did (wait_for_call c.now) effect.old effect.new) }
{
    block(
        effect,
        Part::TheBlock,
        Who::Task(c.caller),
        Waiting::Call(c.number),
    )
}

#[tactic(auto, unfolding(profile_machine::specs::Sending::wait_or_cancel))]
fn wait_or_cancel(
    p: &Program,
    effect: &mut Effect,
    part: Part,
    c: &Call,
    has_come: bool,
) -> Result<(), NoMemory>
    ensures { OnOk result (Did (wait_or_cancel p.now part c.now has_come) effect.old effect.new) }
{
    if has_come {
        cancel_at_once(p, effect, part, c)
    } else {
        appoint_timeout(p, &mut effect.world, c.number, c.moment)?;
        wait_for_call(effect, c)
    }
}

/// Whether a call is the trigger of an asynchronous select.
pub fn is_triggering(kind: CallKind) -> bool
    ensures { result ≡ is_triggering kind }
{
    match kind {
        CallKind::Plain => false,
        CallKind::Conditional => false,
        CallKind::Timed => false,
        CallKind::Triggering => true,
    }
}

/// A call is queued and was not accepted at once: its caller waits, cancels it, or runs its
/// abortable part.
#[tactic(auto, unfolding(profile_machine::specs::Sending::not_accepted))]
pub fn not_accepted(
    p: &Program,
    effect: &mut Effect,
    part: Part,
    c: &Call,
    kind: CallKind,
) -> Result<(), NoMemory>
    ensures { OnOk result (Did (not_accepted p.now part c.now kind) effect.old effect.new) }
{
    match kind {
        CallKind::Plain => wait_for_call(effect, c),
        CallKind::Conditional => cancel_at_once(p, effect, part, c),
        CallKind::Timed => {
            let has_come = is_not_future(effect.world.time, c.moment);
            wait_or_cancel(p, effect, part, c, has_come)
        }
        CallKind::Triggering => open_abortable(
            p,
            &mut effect.world,
            Who::Task(c.caller),
            c.statement,
            Some(c.number),
        ),
    }
}
