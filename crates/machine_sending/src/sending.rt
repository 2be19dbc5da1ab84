//! Calls that are sent on (ISO/IEC 8652:2012, 9.5.4).
ghost use Rattle.std.specs.Prelude.{◌≡◌, OnOk};
ghost use Rattle.profile_machine.specs.Calls.{edit_call};
ghost use Rattle.profile_machine.specs.Sending.{sent_call, send_on, is_conditional};
ghost use Rattle.profile_machine.specs.Sending.{is_to_be_cancelled, cancel_sent};
ghost use Rattle.profile_machine.specs.Sending.{may_begin_abortable, begin_abortable};
ghost use Rattle.profile_machine.specs.Sending.{timeout_again, sent_not_begun_by, sent_not_begun};
ghost use Rattle.machine_frames.specs.Did.{Did};
ghost use Rattle.machine_sending.specs.Sent.{line_of_call, abortable_begins};

use crate::waiting::{appoint_timeout, is_not_future, is_triggering, open_abortable};
use ann_base::{CallNo, NoMemory, TaskNo};
use machine_calls::{abortable_depth, deliver, waits_for_call};
use machine_dispatching::ready;
use machine_frames::{Effect, has_room, says};
use machine_program::Program;
use machine_queues::{call_mut, call_of, copied_call, unqueued};
use profile_image::StatementNo;
use profile_machine::world::{Call, CallKind, Line, Outcome, Part, Sending, World};
use trace_text::Who;

fn set_sent(world: &mut World, c: CallNo, s: Sending)
    ensures { world.new ≡ edit_call c (sent_call s) world.old }
{
    if let Some(call) = call_mut(&mut world.calls, c) {
        call.owner = s.owner;
        call.entry = s.entry;
        call.firm = !s.with_abort;
        call.sent_with_abort = call.sent_with_abort || s.with_abort;
        call.sending = None;
    }
}

fn line_of_call(call: &Call) -> Line
    ensures { result ≡ line_of_call call.now }
{
    Line::Call {
        task: call.caller,
        call: call.number,
        owner: call.owner,
        entry: call.entry,
        priority: call.priority,
    }
}

/// A call has its new entry, and its `call` line.
#[tactic(auto, unfolding(profile_machine::specs::Sending::send_on, profile_machine::specs::Calls::says_call))]
pub fn send_on(effect: &mut Effect, c: CallNo, s: Sending) -> Result<(), NoMemory>
    ensures { OnOk result (Did (send_on c s) effect.old effect.new) }
{
    set_sent(&mut effect.world, c, s);
    match call_of(&effect.world, c) {
        Some(call) => {
            let line = line_of_call(call);
            says(effect, Part::TheFinish, line)
        }
        None => Ok(()),
    }
}

fn is_conditional(kind: CallKind) -> bool
    ensures { result ≡ is_conditional kind }
{
    match kind {
        CallKind::Plain => false,
        CallKind::Conditional => true,
        CallKind::Timed => false,
        CallKind::Triggering => false,
    }
}

// Sent on with abort and not begun at once, these are cancelled: a conditional call, one whose
// cancellation was attempted, and a timed one whose moment has come.
fn is_to_be_cancelled(time: u64, call: &Call) -> bool
    ensures { result ≡ is_to_be_cancelled time call.now }
{
    !call.firm && (is_conditional(call.kind) || call.attempted || is_not_future(time, call.moment))
}

#[tactic(auto, unfolding(profile_machine::specs::Sending::cancel_sent))]
fn cancel_sent(p: &Program, effect: &mut Effect, c: &Call) -> Result<(), NoMemory>
    ensures { OnOk result (Did (cancel_sent p.now c.now) effect.old effect.new) }
{
    unqueued(p, &mut effect.world, c);
    says(
        effect,
        Part::TheFinish,
        Line::Cancel {
            task: c.caller,
            call: c.number,
        },
    )?;
    deliver(p, effect, Part::TheFinish, c.number, Outcome::Cancelled)
}

/// Whether the abortable part of a triggering call that was sent on may begin: it has not begun, no
/// cancellation was attempted, the caller waits, and there is room (9.7.4).
pub fn may_begin_abortable(world: &World, c: &Call) -> bool
    ensures { result ≡ may_begin_abortable world.now c.now }
{
    is_triggering(c.kind)
        && abortable_depth(world, c).is_none()
        && !c.firm
        && !c.attempted
        && c.outcome.is_none()
        && waits_for_call(world, Who::Task(c.caller), c.number)
        && has_room(world, Who::Task(c.caller), 1, 0)
}

fn abortable_begins(
    p: &Program,
    effect: &mut Effect,
    caller: TaskNo,
    select: StatementNo,
    c: CallNo,
) -> Result<(), NoMemory>
    ensures { OnOk result (Did (abortable_begins p.now caller select c) effect.old effect.new) }
{
    open_abortable(p, &mut effect.world, Who::Task(caller), select, Some(c))?;
    ready(p, effect, Part::TheFinish, Who::Task(caller))
}

/// The abortable part of a call that was sent on begins, and the caller becomes ready; without room
/// the caller waits on.
#[tactic(auto, unfolding(profile_machine::specs::Sending::begin_abortable))]
pub fn begin_abortable(p: &Program, effect: &mut Effect, c: CallNo) -> Result<(), NoMemory>
    ensures { OnOk result (Did (begin_abortable p.now c) effect.old effect.new) }
{
    match call_of(&effect.world, c) {
        Some(call) => {
            if may_begin_abortable(&effect.world, call) {
                let caller = call.caller;
                let select = call.statement;
                let number = call.number;
                abortable_begins(p, effect, caller, select, number)
            } else {
                Ok(())
            }
        }
        None => Ok(()),
    }
}

// Queued on: a timed call has its time-out again for its first moment.
fn timeout_again(p: &Program, world: &mut World, c: &Call) -> Result<(), NoMemory>
    ensures { OnOk result (world.new ≡ timeout_again p.now c.now world.old) }
{
    if c.firm {
        Ok(())
    } else {
        appoint_timeout(p, world, c.number, c.moment)
    }
}

#[tactic(auto, unfolding(profile_machine::specs::Sending::sent_not_begun_by))]
fn sent_not_begun_by(
    p: &Program,
    effect: &mut Effect,
    c: &Call,
    is_to_be_cancelled: bool,
) -> Result<(), NoMemory>
    ensures { OnOk result
        (Did (sent_not_begun_by p.now c.now is_to_be_cancelled) effect.old effect.new) }
{
    if is_to_be_cancelled {
        cancel_sent(p, effect, c)
    } else {
        timeout_again(p, &mut effect.world, c)?;
        begin_abortable(p, effect, c.number)
    }
}

/// A call that was sent on has not begun at once: it is cancelled, or queued on.
#[tactic(auto, unfolding(profile_machine::specs::Sending::sent_not_begun))]
pub fn sent_not_begun(p: &Program, effect: &mut Effect, c: CallNo) -> Result<(), NoMemory>
    ensures { OnOk result (Did (sent_not_begun p.now c) effect.old effect.new) }
{
    match copied_call(&effect.world, c)? {
        Some(call) => {
            let cancels = is_to_be_cancelled(effect.world.time, &call);
            sent_not_begun_by(p, effect, &call, cancels)
        }
        None => Ok(()),
    }
}
