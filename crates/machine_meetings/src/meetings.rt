//! A rendezvous with an acceptor that waited (ISO/IEC 8652:2012, 9.5.2, D.1).
ghost use Rattle.std.specs.Prelude.{OnOk};
ghost use Rattle.profile_machine.specs.Rendezvous.{meet};
ghost use Rattle.machine_frames.specs.Did.{Did};
ghost use Rattle.machine_meetings.specs.Meetings.{behind_met, behind_failed};

use ann_base::{NoMemory, Raised};
use machine_accepts::{begin_accept, finish_without_room, has_room_for_accept, open_accept};
use machine_calls::deliver;
use machine_dispatching::{block, inherit, ready};
use machine_entry_calls::end_at_once;
use machine_frames::{Effect, drop_delay, open_sequence, raises};
use machine_program::Program;
use machine_sending::begin_abortable;
use profile_image::StatementNo;
use profile_machine::world::{Call, Cause, Outcome, Part, Waiting};
use std::alloc::Global;
use trace_text::Who;

// How a call comes to an acceptor.
#[derive(Clone, Copy)]
pub(crate) enum Arrival {
    // Its caller has made it just now.
    Made,
    // It was sent on.
    SentOn,
}

// Behind a rendezvous that begins: the caller blocks, or the abortable part of a call that was sent
// on begins.
#[tactic(auto, unfolding(crate::specs::Meetings::behind_met))]
fn behind_met(p: &Program, effect: &mut Effect, arrival: Arrival, c: &Call) -> Result<(), NoMemory>
    ensures { OnOk result (Did (behind_met p.now arrival c.now) effect.old effect.new) }
{
    match arrival {
        Arrival::Made => {
            let waiting = Waiting::Call(c.number);
            block(effect, Part::TheBlock, Who::Task(c.caller), waiting)
        }
        Arrival::SentOn => begin_abortable(p, effect, c.number),
    }
}

// Behind one without room: the call ends with Storage_Error.
#[tactic(auto, unfolding(crate::specs::Meetings::behind_failed))]
fn behind_failed(
    p: &Program,
    effect: &mut Effect,
    arrival: Arrival,
    c: &Call,
) -> Result<(), NoMemory>
    ensures { OnOk result (Did (behind_failed p.now arrival c.now) effect.old effect.new) }
{
    match arrival {
        Arrival::Made => end_at_once(effect, Part::TheFinish, c, Raised::Storage),
        Arrival::SentOn => {
            let outcome = Outcome::ToRaise(Raised::Storage);
            deliver(p, effect, Part::TheFinish, c.number, outcome)
        }
    }
}

// The acceptor waited: it becomes ready, behind the `start`. Without room the call has ended at
// once: its lines and its caller's come first, then those of the acceptor.
pub(crate) fn meet(
    alloc: Global,
    p: &Program,
    effect: &mut Effect,
    part: Part,
    name: Who,
    s: StatementNo,
    c: &Call,
    arrival: Arrival,
) -> Result<(), NoMemory>
    ensures { OnOk result
        (Did
        (meet p.now part name s c.now (behind_met p.now arrival c.now)
        (behind_failed p.now arrival c.now)) effect.old effect.new) }
{
    drop_delay(&mut effect.world, name);
    if has_room_for_accept(p, &effect.world, name, s) {
        begin_accept(p, effect, part, name, s, c)?;
        open_accept(alloc, p, &mut effect.world, name, s, c)?;
        let cause = Cause::Rendezvous(c.number);
        inherit(&mut effect.world, name, cause, c.priority)?;
        ready(p, effect, part, name)?;
        open_sequence(p, effect, part, name)?;
        behind_met(p, effect, arrival, c)
    } else {
        begin_accept(p, effect, Part::TheFinish, name, s, c)?;
        finish_without_room(effect, Part::TheFinish, name, c)?;
        behind_failed(p, effect, arrival, c)?;
        ready(p, effect, part, name)?;
        raises(effect, part, name, Raised::Storage)
    }
}
