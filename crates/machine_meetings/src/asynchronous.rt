//! The asynchronous select (ISO/IEC 8652:2012, 9.7.4): the trigger is issued first.
ghost use Rattle.std.specs.Prelude.{◌≡◌, OnOk};
ghost use Rattle.profile_machine.specs.EntryCalls.{appoint_trigger, trigger_delay};
ghost use Rattle.profile_machine.specs.EntryCalls.{async_delay, asynchronous_select};
ghost use Rattle.machine_frames.specs.Did.{Did};

use crate::task_calls::{entry_call, is_forbidden};
use ann_base::{Moment, NoMemory, Raised};
use machine_accepts::delay_moment;
use machine_dispatching::is_ahead;
use machine_frames::{Effect, appoint, frame_count, goes, has_room, raises, refused};
use machine_program::{Program, form_of, next_of};
use machine_sending::open_abortable;
use machine_values::seen_by;
use profile_image::{StatementForm, StatementNo};
use profile_machine::world::{CallKind, Due, Part, World};
use std::alloc::Global;
use trace_text::Who;

// A depth beyond the last of 32 bits is in no memory.
fn appoint_trigger(world: &mut World, name: Who, depth: usize, m: Moment) -> Result<(), NoMemory>
    ensures { OnOk result (world.new ≡ appoint_trigger name depth m world.old) }
{
    match name {
        Who::Task(t) => match u32::try_from(depth) {
            Ok(depth) => appoint(world, Due::Trigger(t, depth), m),
            Err(_) => Err(NoMemory),
        },
        Who::Agent => Ok(()),
    }
}

// The abortable part runs until the moment has come.
#[tactic(auto, unfolding(profile_machine::specs::EntryCalls::trigger_delay))]
fn trigger_delay(
    p: &Program,
    effect: &mut Effect,
    name: Who,
    s: StatementNo,
    trigger: StatementNo,
    m: Moment,
    is_ahead: bool,
) -> Result<(), NoMemory>
    ensures { OnOk result
        (Did (trigger_delay p.now name s trigger m is_ahead) effect.old effect.new) }
{
    if !is_ahead {
        goes(effect, name, next_of(p, trigger));
        Ok(())
    } else if has_room(&effect.world, name, 1, 0) {
        goes(effect, name, next_of(p, s));
        let depth = frame_count(&effect.world, name);
        open_abortable(p, &mut effect.world, name, s, None)?;
        appoint_trigger(&mut effect.world, name, depth, m)
    } else {
        raises(effect, Part::Own, name, Raised::Storage)
    }
}

#[tactic(auto, unfolding(profile_machine::specs::EntryCalls::async_delay))]
fn async_delay(
    p: &Program,
    effect: &mut Effect,
    name: Who,
    s: StatementNo,
    trigger: StatementNo,
) -> Result<(), NoMemory>
    ensures { OnOk result (Did (async_delay p.now name s trigger) effect.old effect.new) }
{
    if is_forbidden(&effect.world, name, CallKind::Triggering) {
        raises(effect, Part::Own, name, Raised::Program)
    } else {
        match delay_moment(&seen_by(p, &effect.world, name), trigger) {
            Ok(m) => {
                let is_ahead = is_ahead(effect.world.time, m);
                trigger_delay(p, effect, name, s, trigger, m, is_ahead)
            }
            Err(answer) => refused(effect, name, answer),
        }
    }
}

/// An asynchronous select: its trigger, an entry call or a delay, is issued, and its abortable part
/// begins where the trigger does not complete at once.
///
/// Errors: memory ran out, or a number does not fit its type.
#[tactic(auto, unfolding(profile_machine::specs::EntryCalls::asynchronous_select, profile_machine::specs::EntryCalls::async_by_trigger))]
pub fn asynchronous_select(
    alloc: Global,
    p: &Program,
    effect: &mut Effect,
    name: Who,
    s: StatementNo,
    trigger: StatementNo,
) -> Result<(), NoMemory>
    ensures { OnOk result (Did (asynchronous_select p.now name s trigger) effect.old effect.new) }
{
    match form_of(p, trigger) {
        StatementForm::EntryCall { .. } => {
            entry_call(alloc, p, effect, name, CallKind::Triggering, s)
        }
        _ => async_delay(p, effect, name, s, trigger),
    }
}
