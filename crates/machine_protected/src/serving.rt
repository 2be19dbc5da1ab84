//! The next call is served, or the object is released (ISO/IEC 8652:2012, 9.5.3).
ghost use Rattle.std.specs.Prelude.{◌≡◌, IfOk, OnOk};
ghost use Rattle.profile_machine.specs.Serving.{is_the_call, part_of_start, settle_sent};
ghost use Rattle.profile_machine.specs.Serving.{begins_part, chosen_is_sent};
ghost use Rattle.profile_machine.specs.Serving.{serve_chosen, serve_next, serve_calls};
ghost use Rattle.machine_frames.specs.Did.{Did};
ghost use Rattle.machine_protected.specs.Turns.{serving, turn, Leads};

use crate::releases::release_object;
use ann_base::{CallNo, NoMemory, Raised};
use machine_barriers::served_next;
use machine_calls::deliver;
use machine_exclusion::{begin_call, body_opens, has_room_for_body};
use machine_frames::{Effect, says};
use machine_program::Program;
use machine_queues::copied_call;
use machine_sending::{begin_abortable, sent_not_begun};
use profile_machine::world::{Call, Line, MeetingEnd, Outcome, Part, ProtectedMark};
use std::alloc::Global;
use trace_text::Who;

fn is_the_call(sent: Option<CallNo>, c: CallNo) -> bool
    ensures { result ≡ is_the_call sent c }
{
    match sent {
        Some(sent) => sent.0 == c.0,
        None => false,
    }
}

fn chosen_is_sent(sent: Option<CallNo>, chosen: Option<CallNo>) -> bool
    ensures { result ≡ chosen_is_sent sent chosen }
{
    match chosen {
        Some(c) => is_the_call(sent, c),
        None => false,
    }
}

// The `start` of a call that was sent on stands directly behind its `call`.
fn part_of_start(is_sent: bool) -> Part
    ensures { result ≡ part_of_start is_sent }
{
    if is_sent { Part::TheFinish } else { Part::Own }
}

// A call that was sent on, unless it is the one that is served.
#[tactic(auto, unfolding(profile_machine::specs::Serving::settle_sent))]
fn settle_sent(
    p: &Program,
    effect: &mut Effect,
    sent: Option<CallNo>,
    is_served: bool,
) -> Result<(), NoMemory>
    ensures { OnOk result (Did (settle_sent p.now sent is_served) effect.old effect.new) }
{
    match sent {
        Some(c) if !is_served => sent_not_begun(p, effect, c),
        _ => Ok(()),
    }
}

#[tactic(auto, unfolding(profile_machine::specs::Serving::begins_part))]
fn begins_part(p: &Program, effect: &mut Effect, is_sent: bool, c: CallNo) -> Result<(), NoMemory>
    ensures { OnOk result (Did (begins_part p.now is_sent c) effect.old effect.new) }
{
    if is_sent {
        begin_abortable(p, effect, c)
    } else {
        Ok(())
    }
}

// The call is served. Without room for its body it starts and finishes at once, and the next one is
// to be served: this is answered.
fn serve(
    alloc: Global,
    p: &Program,
    effect: &mut Effect,
    name: Who,
    m: ProtectedMark,
    is_sent: bool,
    c: CallNo,
    call: &Call,
) -> Result<bool, NoMemory>
    ensures { IfOk result
        (λ again. Leads again (serving p.now name m is_sent c call.now) effect.old effect.new) }
{
    let part = part_of_start(is_sent);
    let has_room = has_room_for_body(p, &effect.world, name, call.entry);
    begin_call(p, effect, part, name, call)?;
    if has_room {
        body_opens(alloc, p, effect, name, m.object, call)?;
        begins_part(p, effect, is_sent, c)?;
        Ok(false)
    } else {
        let finish = Line::Finish {
            who: name,
            call: call.number,
            how: MeetingEnd::Raised(Raised::Storage),
        };
        says(effect, part, finish)?;
        deliver(p, effect, part, c, Outcome::ToRaise(Raised::Storage))?;
        Ok(true)
    }
}

// The call that was chosen is served, or the object is released. Answers whether the next one is to
// be served.
fn serve_chosen(
    alloc: Global,
    p: &Program,
    effect: &mut Effect,
    name: Who,
    m: ProtectedMark,
    is_sent: bool,
    chosen: Option<CallNo>,
) -> Result<bool, NoMemory>
    ensures { IfOk result
        (λ again.
        Leads again (λ step. serve_chosen p.now name m is_sent step chosen) effect.old effect.new) }
{
    match chosen {
        Some(c) => match copied_call(&effect.world, c)? {
            Some(call) => serve(alloc, p, effect, name, m, is_sent, c, &call),
            None => Ok(false),
        },
        None => {
            release_object(p, effect, name, m)?;
            Ok(false)
        }
    }
}

// One turn. The choice is made with the call that was sent on in its queue.
fn take_turn(
    alloc: Global,
    p: &Program,
    effect: &mut Effect,
    name: Who,
    m: ProtectedMark,
    sent: Option<CallNo>,
) -> Result<bool, NoMemory>
    ensures { IfOk result (λ again. Leads again (turn p.now name m sent) effect.old effect.new) }
{
    let chosen = served_next(p, &effect.world, name, m.object)?;
    let is_sent = chosen_is_sent(sent, chosen);
    settle_sent(p, effect, sent, is_sent)?;
    serve_chosen(alloc, p, effect, name, m, is_sent, chosen)
}

// So many turns at most, and then the object is released. Each turn without room ends a call.
#[tactic(auto, using(crate::proofs::TurnLemmas::turn_laws))]
fn serve_next(
    alloc: Global,
    turns: usize,
    p: &Program,
    effect: &mut Effect,
    name: Who,
    m: ProtectedMark,
) -> Result<(), NoMemory>
    ensures { OnOk result (Did (serve_next turns p.now name m None) effect.old effect.new) }
{
    let mut left = turns;
    while 0 < left {
        if !take_turn(alloc, p, effect, name, m, None)? {
            return Ok(());
        }
        left -= 1;
    }
    release_object(p, effect, name, m)
}

// What is queued is served, or the object is released; `sent` is the call that was just sent on.
pub(crate) fn serve_calls(
    alloc: Global,
    p: &Program,
    effect: &mut Effect,
    name: Who,
    m: ProtectedMark,
    sent: Option<CallNo>,
) -> Result<(), NoMemory>
    ensures { OnOk result (Did (serve_calls p.now name m sent) effect.old effect.new) }
{
    let turns = effect.world.calls.len();
    if take_turn(alloc, p, effect, name, m, sent)? {
        serve_next(alloc, turns, p, effect, name, m)
    } else {
        Ok(())
    }
}
