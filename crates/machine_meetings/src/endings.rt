//! The end of an accept, and calls that are sent on from one (ISO/IEC 8652:2012, 9.5.2, 9.5.4).
ghost use Rattle.std.specs.Prelude.{◌≡◌, OnOk};
ghost use Rattle.profile_machine.specs.Calls.{edit_call};
ghost use Rattle.profile_machine.specs.Rendezvous.{is_callable, gone_sent, meet_sent, arrive_at};
ghost use Rattle.profile_machine.specs.Rendezvous.{arrive, finish_accept, finish_rendezvous};
ghost use Rattle.profile_machine.specs.Rendezvous.{behind_accept, finished_call, end_in_accept};
ghost use Rattle.machine_frames.specs.Did.{Did};
ghost use Rattle.machine_meetings.specs.Meetings.{says_gone, rendezvous_ends};

use crate::meetings::{Arrival, meet};
use ann_base::{CallNo, NoMemory, Raised, TaskNo};
use machine_accepts::accept_for;
use machine_calls::{deliver, gone};
use machine_dispatching::lose_running;
use machine_exclusion::{copied_cells, keeps_sending, says_finish, with_values};
use machine_frames::{Effect, found_task, pass_on, pop, says};
use machine_program::Program;
use machine_queues::{call_mut, copied_call, enqueue, formals_count};
use machine_scopes::end_scope;
use machine_sending::{send_on, sent_not_begun};
use profile_image::{StatementNo, Value};
use profile_machine::Leaving;
use profile_machine::world::{
    AcceptMark, Call, Cause, Line, MeetingEnd, Outcome, Owner, Part, Sending, World,
};
use std::alloc::Global;
use trace_text::Who;
use world_tables::List;

// Whether calls on a task may be accepted: it is there, and neither completed nor abnormal (9.5.3,
// 9.8).
pub(crate) fn is_callable(world: &World, t: TaskNo) -> bool
    ensures { result ≡ is_callable world.now t }
{
    match found_task(Who::Task(t), &world.tasks) {
        Some(task) => !task.completed && !task.abnormal,
        None => false,
    }
}

#[tactic(auto, unfolding(profile_machine::specs::Rendezvous::gone_sent))]
fn gone_sent(p: &Program, effect: &mut Effect, c: &Call) -> Result<(), NoMemory>
    ensures { OnOk result (Did (gone_sent p.now c.now) effect.old effect.new) }
{
    gone(p, effect, Part::TheFinish, c)?;
    deliver(
        p,
        effect,
        Part::TheFinish,
        c.number,
        Outcome::ToRaise(Raised::Tasking),
    )
}

#[tactic(auto, unfolding(profile_machine::specs::Rendezvous::meet_sent, crate::specs::Meetings::behind_met, crate::specs::Meetings::behind_failed))]
fn meet_sent(
    alloc: Global,
    p: &Program,
    effect: &mut Effect,
    t: TaskNo,
    c: &Call,
    s: Option<StatementNo>,
) -> Result<(), NoMemory>
    ensures { OnOk result (Did (meet_sent p.now t c.now s) effect.old effect.new) }
{
    match s {
        Some(s) => {
            let name = Who::Task(t);
            meet(
                alloc,
                p,
                effect,
                Part::TheFinish,
                name,
                s,
                c,
                Arrival::SentOn,
            )
        }
        None => {
            enqueue(p, effect, c.number)?;
            sent_not_begun(p, effect, c.number)
        }
    }
}

// The call comes to an entry of this task: it is gone, begins, or is queued.
#[tactic(auto, unfolding(profile_machine::specs::Rendezvous::arrive_at))]
fn arrive_at(
    alloc: Global,
    p: &Program,
    effect: &mut Effect,
    t: TaskNo,
    c: &Call,
    is_callable: bool,
) -> Result<(), NoMemory>
    ensures { OnOk result (Did (arrive_at p.now t c.now is_callable) effect.old effect.new) }
{
    if is_callable {
        let s = accept_for(p, &effect.world, Who::Task(t), c.entry);
        meet_sent(alloc, p, effect, t, c, s)
    } else {
        gone_sent(p, effect, c)
    }
}

// A requeue from an accept names an entry of a task.
#[tactic(auto, unfolding(profile_machine::specs::Rendezvous::arrive))]
fn arrive(
    alloc: Global,
    p: &Program,
    effect: &mut Effect,
    c: &Call,
    owner: Owner,
) -> Result<(), NoMemory>
    ensures { OnOk result (Did (arrive p.now c.now owner) effect.old effect.new) }
{
    match owner {
        Owner::Task(t) => {
            let is_callable = is_callable(&effect.world, t);
            arrive_at(alloc, p, effect, t, c, is_callable)
        }
        Owner::Object(_) => gone_sent(p, effect, c),
    }
}

// The call is finished, or sent on where a requeue is under way.
#[tactic(auto, unfolding(profile_machine::specs::Rendezvous::finish_accept))]
fn finish_accept(
    alloc: Global,
    p: &Program,
    effect: &mut Effect,
    name: Who,
    c: &Call,
    sending: Option<Sending>,
) -> Result<(), NoMemory>
    ensures { OnOk result (Did (finish_accept p.now name c.now sending) effect.old effect.new) }
{
    match sending {
        None => {
            says_finish(effect, name, c.number, MeetingEnd::Ok)?;
            deliver(p, effect, Part::TheFinish, c.number, Outcome::Finished)
        }
        Some(s) => {
            says_finish(effect, name, c.number, MeetingEnd::Requeue)?;
            send_on(effect, c.number, s)?;
            match copied_call(&effect.world, c.number)? {
                Some(call) => arrive(alloc, p, effect, &call, call.owner),
                None => Ok(()),
            }
        }
    }
}

fn says_gone(effect: &mut Effect, c: &Call) -> Result<(), NoMemory>
    ensures { OnOk result (Did (says_gone c.now) effect.old effect.new) }
{
    says(
        effect,
        Part::TheFinish,
        Line::Gone {
            task: c.caller,
            call: c.number,
        },
    )
}

// An exception is raised in the caller too; where the acceptor is aborted the caller gets
// Tasking_Error.
#[tactic(auto, unfolding(profile_machine::specs::Rendezvous::finish_rendezvous))]
fn finish_rendezvous(
    alloc: Global,
    p: &Program,
    effect: &mut Effect,
    name: Who,
    c: &Call,
    leaving: Leaving,
) -> Result<(), NoMemory>
    ensures { OnOk result (Did (finish_rendezvous p.now name c.now leaving) effect.old effect.new) }
{
    match leaving {
        Leaving::Exception(exception) => {
            says_finish(effect, name, c.number, MeetingEnd::Raised(exception))?;
            let outcome = Outcome::ToRaise(exception);
            deliver(p, effect, Part::TheFinish, c.number, outcome)
        }
        Leaving::Abort => {
            says_gone(effect, c)?;
            let outcome = Outcome::ToRaise(Raised::Tasking);
            deliver(p, effect, Part::TheFinish, c.number, outcome)
        }
        Leaving::End | Leaving::Return | Leaving::Exit(_) | Leaving::Terminate => {
            finish_accept(alloc, p, effect, name, c, c.sending)
        }
    }
}

// A return ends at the accept.
#[tactic(auto, unfolding(profile_machine::specs::Rendezvous::behind_accept))]
fn behind_accept(p: &Program, effect: &mut Effect, name: Who, leaving: Leaving)
    ensures { Did (behind_accept p.now name leaving) effect.old effect.new }
{
    match leaving {
        Leaving::End | Leaving::Return => {}
        Leaving::Exit(_) | Leaving::Exception(_) | Leaving::Abort | Leaving::Terminate => {
            pass_on(p, effect, name, leaving)
        }
    }
}

// The parameters' present values are those of the call, and a requeue is under way only where a
// return left the accept.
fn finished_call(
    p: &Program,
    call: &mut Call,
    cells: &List<Value>,
    leaving: Leaving,
) -> Result<(), NoMemory>
    ensures { OnOk result (call.new ≡ finished_call p.now cells.now leaving call.old) }
{
    let count = formals_count(p, call);
    with_values(call, cells, count)?;
    keeps_sending(call, leaving);
    Ok(())
}

fn set_finished(
    p: &Program,
    world: &mut World,
    c: CallNo,
    cells: &List<Value>,
    leaving: Leaving,
) -> Result<(), NoMemory>
    ensures { OnOk result
        (world.new ≡ edit_call c (finished_call p.now cells.now leaving) world.old) }
{
    match call_mut(&mut world.calls, c) {
        Some(call) => finished_call(p, call, cells, leaving),
        None => Ok(()),
    }
}

// The rendezvous of an accept that has ended is finished.
fn rendezvous_ends(
    alloc: Global,
    p: &Program,
    effect: &mut Effect,
    name: Who,
    m: AcceptMark,
    leaving: Leaving,
) -> Result<(), NoMemory>
    ensures { OnOk result (Did (rendezvous_ends p.now name m leaving) effect.old effect.new) }
{
    let cells = copied_cells(alloc, &effect.world, m.within)?;
    pop(&mut effect.world, name);
    end_scope(m.within, &mut effect.world);
    set_finished(p, &mut effect.world, m.call, &cells, leaving)?;
    match copied_call(&effect.world, m.call)? {
        Some(call) => finish_rendezvous(alloc, p, effect, name, &call, leaving),
        None => Ok(()),
    }
}

/// An accept ends: the call is finished, or sent on, and the acceptor loses the priority that it
/// inherited.
///
/// Errors: memory ran out.
#[tactic(auto, unfolding(profile_machine::specs::Rendezvous::end_in_accept))]
pub fn end_in_accept(
    alloc: Global,
    p: &Program,
    effect: &mut Effect,
    name: Who,
    m: AcceptMark,
    leaving: Leaving,
) -> Result<(), NoMemory>
    ensures { OnOk result (Did (end_in_accept p.now name m leaving) effect.old effect.new) }
{
    rendezvous_ends(alloc, p, effect, name, m, leaving)?;
    lose_running(p, effect, name, Cause::Rendezvous(m.call))?;
    behind_accept(p, effect, name, leaving);
    Ok(())
}
