//! Timing events (ISO/IEC 8652:2012, D.15).
ghost use Rattle.std.specs.Prelude.{OnOk};
ghost use Rattle.profile_machine.specs.Handlers.{answer, appoint_event, event_set_to};
ghost use Rattle.profile_machine.specs.Handlers.{set_event, cancel_event};
ghost use Rattle.machine_frames.specs.Did.{Did};
ghost use Rattle.machine_handlers.specs.SettingSteps.{event_is_set, event_is_cancelled};

use crate::settings::{Named, Set, event_setting, thing_named};
use ann_base::{Moment, NoMemory};
use machine_dispatching::is_ahead;
use machine_frames::{Effect, appoint, drop_appointment, goes, is_appointed, refused};
use machine_program::{Program, next_of};
use machine_releases::release;
use machine_scopes::store;
use machine_values::seen_by;
use profile_image::{DeclNo, HandlerName, Setting, StatementNo, Value, VariableName};
use profile_machine::world::{Due, DueOf, HandlerOf, Part, Variable};
use trace_text::Who;

/// A variable gets whether something was set.
///
/// Errors: memory ran out.
#[tactic(auto, unfolding(profile_machine::specs::Handlers::answer))]
pub(crate) fn answer(
    p: &Program,
    effect: &mut Effect,
    name: Who,
    v: Variable,
    was_set: bool,
) -> Result<(), NoMemory>
    ensures { OnOk result (Did (answer p.now name v was_set) effect.old effect.new) }
{
    match store(p, v, Value::Truth(was_set), &mut effect.world) {
        Ok(()) => Ok(()),
        Err(fault) => refused(effect, name, fault),
    }
}

// An event is set for a moment in the future; another moment releases its handler at once.
#[tactic(auto, unfolding(profile_machine::specs::Handlers::appoint_event))]
fn appoint_event(
    p: &Program,
    effect: &mut Effect,
    event: u32,
    handler: HandlerOf,
    moment: Moment,
    future: bool,
) -> Result<(), NoMemory>
    ensures { OnOk result
        (Did (appoint_event p.now event handler moment future) effect.old effect.new) }
{
    if future {
        appoint(&mut effect.world, Due::Event(event, handler), moment)
    } else {
        release(p, effect, Part::Own, handler, Some(event))
    }
}

#[tactic(auto, unfolding(profile_machine::specs::Handlers::event_set_to))]
fn event_set_to(
    p: &Program,
    effect: &mut Effect,
    event: u32,
    handler: Option<HandlerOf>,
    moment: Moment,
) -> Result<(), NoMemory>
    ensures { OnOk result (Did (event_set_to p.now event handler moment) effect.old effect.new) }
{
    match handler {
        Some(handler) => {
            let future = is_ahead(effect.world.time, moment);
            appoint_event(p, effect, event, handler, moment, future)
        }
        None => Ok(()),
    }
}

fn event_is_set(
    p: &Program,
    effect: &mut Effect,
    name: Who,
    s: StatementNo,
    set: Set,
) -> Result<(), NoMemory>
    ensures { OnOk result (Did (event_is_set p.now name s set) effect.old effect.new) }
{
    goes(effect, name, next_of(p, s));
    drop_appointment(&mut effect.world, DueOf::Event(set.number));
    event_set_to(p, effect, set.number, set.handler, set.value)
}

/// Timing_Events.Set_Handler: a setting replaces the one before it; a moment that is not in the
/// future releases the handler at once, and no handler clears.
///
/// Errors: memory ran out, or numbers are used up.
#[tactic(auto, using(crate::proofs::EventLemmas::event_laws))]
pub fn set_event(
    p: &Program,
    effect: &mut Effect,
    name: Who,
    s: StatementNo,
    d: DeclNo,
    setting: Setting,
    handler: Option<HandlerName>,
) -> Result<(), NoMemory>
    ensures { OnOk result (Did (set_event p.now name s d setting handler) effect.old effect.new) }
{
    match event_setting(&seen_by(p, &effect.world, name), d, setting, handler) {
        Ok(set) => event_is_set(p, effect, name, s, set),
        Err(fault) => refused(effect, name, fault),
    }
}

fn event_is_cancelled(
    p: &Program,
    effect: &mut Effect,
    name: Who,
    s: StatementNo,
    event: Named,
) -> Result<(), NoMemory>
    ensures { OnOk result (Did (event_is_cancelled p.now name s event) effect.old effect.new) }
{
    let was_set = is_appointed(&effect.world, DueOf::Event(event.number));
    goes(effect, name, next_of(p, s));
    drop_appointment(&mut effect.world, DueOf::Event(event.number));
    answer(p, effect, name, event.target, was_set)
}

/// Timing_Events.Cancel_Handler: the variable gets whether the event was set.
///
/// Errors: memory ran out.
#[tactic(auto, using(crate::proofs::EventLemmas::event_laws))]
pub fn cancel_event(
    p: &Program,
    effect: &mut Effect,
    name: Who,
    s: StatementNo,
    d: DeclNo,
    target: VariableName,
) -> Result<(), NoMemory>
    ensures { OnOk result (Did (cancel_event p.now name s d target) effect.old effect.new) }
{
    match thing_named(&seen_by(p, &effect.world, name), d, target) {
        Ok(event) => event_is_cancelled(p, effect, name, s, event),
        Err(fault) => refused(effect, name, fault),
    }
}
