//! The selective accept (ISO/IEC 8652:2012, 9.7.1).
ghost use Rattle.std.specs.Prelude.{◌≡◌, IfOk, OnOk};
ghost use Rattle.profile_machine.specs.Calls.{next_call, place_of_entry};
ghost use Rattle.profile_machine.specs.Rendezvous.{own_queue, open_accepts, queue_of_accept};
ghost use Rattle.profile_machine.specs.Rendezvous.{queues_of_accepts, accept_chosen};
ghost use Rattle.profile_machine.specs.Rendezvous.{wait_at_select, appoint_delay, select_delay};
ghost use Rattle.profile_machine.specs.Rendezvous.{select_wait, select_otherwise, select_by_call};
ghost use Rattle.profile_machine.specs.Rendezvous.{select_open, selective_accept};
ghost use Rattle.world_tables.specs.Lists.{first_of};
ghost use Rattle.machine_frames.specs.Did.{Did};

use crate::accepting::{accept_call, first_accept};
use crate::alternatives::{
    has_terminate, is_closed, least_delay, open_accepts, open_alternatives, open_delays,
};
use ann_base::{CallNo, Moment, NoMemory, Raised};
use machine_barriers::next_with;
use machine_dispatching::block;
use machine_frames::{Effect, appoint, goes, in_protected, raises, refused, set_state};
use machine_program::{Program, form_of, next_of, policies};
use machine_queues::{call_of, place_of_entry, queue_of};
use machine_values::seen_by;
use profile_image::{EntryNo, SelectAlternative, SelectKind, StatementForm, StatementNo};
use profile_machine::world::{DelayMoment, Due, Owner, Part, State, Waiting, World, has_come};
use std::alloc::Global;
use trace_text::Who;
use world_tables::List;

// The head of the queue of an entry of the one with this name.
#[tactic(auto, using(crate::proofs::QueueLemmas::queue_laws))]
fn own_head(p: &Program, world: &World, name: Who, e: EntryNo) -> Option<CallNo>
    ensures { result ≡ first_of (own_queue world.now name (place_of_entry p.now e)) }
{
    let Who::Task(t) = name else {
        return None;
    };
    Some(*queue_of(world, Owner::Task(t), place_of_entry(p, e))?.front()?)
}

fn head_of_accept(p: &Program, world: &World, name: Who, form: &StatementForm) -> Option<CallNo>
    ensures { result ≡ first_of (queue_of_accept p.now world.now name form.now) }
{
    match form {
        StatementForm::Accept { entry, .. } => own_head(p, world, name, *entry),
        _ => None,
    }
}

// The call that is accepted next of the queues of these accepts. The last comes first, since each
// stands before those behind it.
#[tactic(auto, using(crate::proofs::QueueLemmas::accept_queue_laws))]
fn next_of_accepts(
    p: &Program,
    world: &World,
    name: Who,
    accepts: &List<StatementNo>,
) -> Option<CallNo>
    ensures { result
        ≡ next_call p.now world.now (queues_of_accepts p.now world.now name accepts.now) }
{
    let mut chosen = None;
    let mut place = accepts.len();
    while 0 < place {
        place -= 1;
        if let Some(s) = accepts.get(place) {
            let head = head_of_accept(p, world, name, form_of(p, *s));
            chosen = next_with(world, policies(p).queuing, head, chosen);
        }
    }
    chosen
}

// The alternative that accepts the call; of two for one entry the first in the text.
#[tactic(auto, unfolding(profile_machine::specs::Rendezvous::accept_chosen))]
fn accept_chosen(
    alloc: Global,
    p: &Program,
    effect: &mut Effect,
    name: Who,
    accepts: &List<StatementNo>,
    c: CallNo,
) -> Result<(), NoMemory>
    ensures { OnOk result (Did (accept_chosen p.now name accepts.now c) effect.old effect.new) }
{
    match call_of(&effect.world, c) {
        Some(call) => match first_accept(p, call.entry, accepts) {
            Some(s) => accept_call(alloc, p, effect, name, s, c),
            None => Ok(()),
        },
        None => Ok(()),
    }
}

// A task at an open terminate alternative says that it blocks when it is sure that it need not end
// at once.
#[tactic(auto, unfolding(profile_machine::specs::Rendezvous::wait_at_select))]
fn wait_at_select(
    effect: &mut Effect,
    name: Who,
    accepts: List<StatementNo>,
    delay: Option<StatementNo>,
    terminate: bool,
) -> Result<(), NoMemory>
    ensures { OnOk result
        (Did (wait_at_select name accepts delay terminate) effect.old effect.new) }
{
    let waiting = Waiting::Select(accepts, delay, terminate);
    if terminate {
        set_state(&mut effect.world, name, State::Blocked(waiting));
        Ok(())
    } else {
        block(effect, Part::TheBlock, name, waiting)
    }
}

fn appoint_delay(world: &mut World, name: Who, m: Moment) -> Result<(), NoMemory>
    ensures { OnOk result (world.new ≡ appoint_delay name m world.old) }
{
    match name {
        Who::Task(t) => appoint(world, Due::Delay(t), m),
        Who::Agent => Ok(()),
    }
}

// Without a call: the delay that has come, or a wait.
#[tactic(auto, unfolding(profile_machine::specs::Rendezvous::select_delay))]
fn select_delay(
    p: &Program,
    effect: &mut Effect,
    name: Who,
    s: StatementNo,
    accepts: List<StatementNo>,
    m: DelayMoment,
    terminate: bool,
    has_come: bool,
) -> Result<(), NoMemory>
    ensures { OnOk result
        (Did (select_delay p.now name s accepts m terminate has_come) effect.old effect.new) }
{
    if has_come {
        goes(effect, name, next_of(p, m.delay));
        Ok(())
    } else {
        goes(effect, name, next_of(p, s));
        appoint_delay(&mut effect.world, name, m.at)?;
        wait_at_select(effect, name, accepts, Some(m.delay), terminate)
    }
}

#[tactic(auto, unfolding(profile_machine::specs::Rendezvous::select_wait))]
fn select_wait(
    p: &Program,
    effect: &mut Effect,
    name: Who,
    s: StatementNo,
    accepts: List<StatementNo>,
    terminate: bool,
    m: Option<DelayMoment>,
) -> Result<(), NoMemory>
    ensures { OnOk result
        (Did (select_wait p.now name s accepts terminate m) effect.old effect.new) }
{
    match m {
        Some(m) => {
            let has_come = has_come(m.at, effect.world.time);
            select_delay(p, effect, name, s, accepts, m, terminate, has_come)
        }
        None => {
            goes(effect, name, next_of(p, s));
            wait_at_select(effect, name, accepts, None, terminate)
        }
    }
}

// Without a call: the else part, or a delay, or a wait.
#[tactic(auto, unfolding(profile_machine::specs::Rendezvous::select_otherwise))]
fn select_otherwise(
    alloc: Global,
    p: &Program,
    effect: &mut Effect,
    name: Who,
    s: StatementNo,
    kinds: &List<SelectKind>,
    m: Option<DelayMoment>,
    otherwise: Option<StatementNo>,
) -> Result<(), NoMemory>
    ensures { OnOk result
        (Did (select_otherwise p.now name s kinds.now m otherwise) effect.old effect.new) }
{
    match otherwise {
        Some(otherwise) => {
            goes(effect, name, Some(otherwise));
            Ok(())
        }
        None => {
            let accepts = open_accepts(alloc, kinds)?;
            select_wait(p, effect, name, s, accepts, has_terminate(kinds), m)
        }
    }
}

#[tactic(auto, unfolding(profile_machine::specs::Rendezvous::select_by_call))]
fn select_by_call(
    alloc: Global,
    p: &Program,
    effect: &mut Effect,
    name: Who,
    s: StatementNo,
    kinds: &List<SelectKind>,
    m: Option<DelayMoment>,
    otherwise: Option<StatementNo>,
    chosen: Option<CallNo>,
) -> Result<(), NoMemory>
    ensures { OnOk result
        (Did (select_by_call p.now name s kinds.now m otherwise chosen) effect.old effect.new) }
{
    match chosen {
        Some(c) => {
            let accepts = open_accepts(alloc, kinds)?;
            accept_chosen(alloc, p, effect, name, &accepts, c)
        }
        None => select_otherwise(alloc, p, effect, name, s, kinds, m, otherwise),
    }
}

// The call that an open alternative accepts next.
fn next_of_open(
    alloc: Global,
    p: &Program,
    world: &World,
    name: Who,
    kinds: &List<SelectKind>,
) -> Result<Option<CallNo>, NoMemory>
    ensures { IfOk result
        (λ c.
        c
        ≡ next_call p.now world.now
        (queues_of_accepts p.now world.now name (open_accepts kinds.now))) }
{
    let accepts = open_accepts(alloc, kinds)?;
    Ok(next_of_accepts(p, world, name, &accepts))
}

#[tactic(auto, unfolding(profile_machine::specs::Rendezvous::select_open))]
fn select_open(
    alloc: Global,
    p: &Program,
    effect: &mut Effect,
    name: Who,
    s: StatementNo,
    otherwise: Option<StatementNo>,
    kinds: &List<SelectKind>,
    delays: &List<DelayMoment>,
) -> Result<(), NoMemory>
    ensures { OnOk result
        (Did (select_open p.now name s otherwise kinds.now delays.now) effect.old effect.new) }
{
    if is_closed(kinds, otherwise) {
        raises(effect, Part::Own, name, Raised::Program)
    } else {
        let chosen = next_of_open(alloc, p, &effect.world, name, kinds)?;
        let m = least_delay(delays);
        select_by_call(alloc, p, effect, name, s, kinds, m, otherwise, chosen)
    }
}

/// A selective accept: an open alternative takes a call, the else part follows, a delay has come,
/// or the task waits. Inside a protected action, and where no alternative is open and there is no
/// else part, Program_Error is raised.
///
/// Errors: memory ran out.
#[tactic(auto, unfolding(profile_machine::specs::Rendezvous::selective_accept))]
pub fn selective_accept(
    alloc: Global,
    p: &Program,
    effect: &mut Effect,
    name: Who,
    s: StatementNo,
    alternatives: &[SelectAlternative],
    otherwise: Option<StatementNo>,
) -> Result<(), NoMemory>
    ensures { OnOk result
        (Did (selective_accept p.now name s alternatives.now otherwise) effect.old effect.new) }
{
    if in_protected(&effect.world, name) {
        raises(effect, Part::Own, name, Raised::Program)
    } else {
        let q = seen_by(p, &effect.world, name);
        match open_alternatives(alloc, &q, alternatives) {
            Ok(kinds) => match open_delays(alloc, &q, &kinds) {
                Ok(delays) => select_open(alloc, p, effect, name, s, otherwise, &kinds, &delays),
                Err(answer) => refused(effect, name, answer),
            },
            Err(answer) => refused(effect, name, answer),
        }
    }
}
