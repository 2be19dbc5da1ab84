//! Timers of tasks (ISO/IEC 8652:2012, D.14.1).
ghost use Rattle.std.specs.Prelude.{◌≡◌, OnOk};
ghost use Rattle.profile_machine.specs.Handlers.{clear_timer, with_timer_set};
ghost use Rattle.profile_machine.specs.Handlers.{timer_set_beyond, timer_set_to};
ghost use Rattle.profile_machine.specs.Handlers.{set_timer, is_set_timer, cancel_timer};
ghost use Rattle.machine_frames.specs.Did.{Did};
ghost use Rattle.machine_handlers.specs.SettingSteps.{timer_is_set, timer_is_cancelled};

use crate::events::answer;
use crate::settings::{Named, Set, timer_named, timer_setting};
use ann_base::{Moment, NoMemory};
use machine_frames::{Effect, goes, refused};
use machine_program::{Program, next_of};
use machine_releases::{clear_timer, release, set_in};
use machine_values::{seen_by, timer_of};
use profile_image::{DeclNo, HandlerName, Setting, StatementNo, VariableName};
use profile_machine::world::{HandlerOf, Part, TimerSetting, World};
use trace_text::Who;

fn with_timer_set(
    world: &mut World,
    k: u32,
    handler: HandlerOf,
    value: Moment,
) -> Result<(), NoMemory>
    ensures { OnOk result (world.new ≡ with_timer_set k handler value world.old) }
{
    set_in(&mut world.timers, k, Some(TimerSetting { value, handler }));
    world.timers_set.push_back(k)?;
    Ok(())
}

// A value that is already reached releases the handler at once.
#[tactic(auto, unfolding(profile_machine::specs::Handlers::timer_set_beyond))]
fn timer_set_beyond(
    p: &Program,
    effect: &mut Effect,
    k: u32,
    handler: HandlerOf,
    value: Moment,
    beyond: bool,
) -> Result<(), NoMemory>
    ensures { OnOk result
        (Did (timer_set_beyond p.now k handler value beyond) effect.old effect.new) }
{
    if beyond {
        with_timer_set(&mut effect.world, k, handler, value)
    } else {
        release(p, effect, Part::Own, handler, Some(k))
    }
}

#[tactic(auto, unfolding(profile_machine::specs::Handlers::timer_set_to))]
fn timer_set_to(
    p: &Program,
    effect: &mut Effect,
    k: u32,
    clock: u64,
    handler: Option<HandlerOf>,
    value: Moment,
) -> Result<(), NoMemory>
    ensures { OnOk result (Did (timer_set_to p.now k clock handler value) effect.old effect.new) }
{
    match handler {
        Some(handler) => {
            let beyond = i128::from(clock) < i128::from(value);
            timer_set_beyond(p, effect, k, handler, value, beyond)
        }
        None => Ok(()),
    }
}

fn timer_is_set(
    p: &Program,
    effect: &mut Effect,
    name: Who,
    s: StatementNo,
    clock: u64,
    set: Set,
) -> Result<(), NoMemory>
    ensures { OnOk result (Did (timer_is_set p.now name s clock set) effect.old effect.new) }
{
    goes(effect, name, next_of(p, s));
    clear_timer(&mut effect.world, set.number);
    timer_set_to(p, effect, set.number, clock, set.handler, set.value)
}

/// Timers.Set_Handler: a setting replaces the one before it; a value that is already reached
/// releases the handler at once, and no handler clears.
///
/// Errors: memory ran out, or numbers are used up.
#[tactic(auto, using(crate::proofs::TimerLemmas::timer_laws))]
pub fn set_timer(
    p: &Program,
    effect: &mut Effect,
    name: Who,
    s: StatementNo,
    d: DeclNo,
    setting: Setting,
    handler: Option<HandlerName>,
) -> Result<(), NoMemory>
    ensures { OnOk result (Did (set_timer p.now name s d setting handler) effect.old effect.new) }
{
    match timer_setting(&seen_by(p, &effect.world, name), d, setting, handler) {
        Ok(timer) => timer_is_set(p, effect, name, s, timer.clock, timer.set),
        Err(fault) => refused(effect, name, fault),
    }
}

fn is_set_timer(world: &World, k: u32) -> bool
    ensures { result ≡ is_set_timer world.now k }
{
    timer_of(world, k).setting.is_some()
}

fn timer_is_cancelled(
    p: &Program,
    effect: &mut Effect,
    name: Who,
    s: StatementNo,
    timer: Named,
) -> Result<(), NoMemory>
    ensures { OnOk result (Did (timer_is_cancelled p.now name s timer) effect.old effect.new) }
{
    let was_set = is_set_timer(&effect.world, timer.number);
    goes(effect, name, next_of(p, s));
    clear_timer(&mut effect.world, timer.number);
    answer(p, effect, name, timer.target, was_set)
}

/// Timers.Cancel_Handler: the variable gets whether the timer was set.
///
/// Errors: memory ran out.
#[tactic(auto, using(crate::proofs::TimerLemmas::timer_laws))]
pub fn cancel_timer(
    p: &Program,
    effect: &mut Effect,
    name: Who,
    s: StatementNo,
    d: DeclNo,
    target: VariableName,
) -> Result<(), NoMemory>
    ensures { OnOk result (Did (cancel_timer p.now name s d target) effect.old effect.new) }
{
    match timer_named(&seen_by(p, &effect.world, name), d, target) {
        Ok(timer) => timer_is_cancelled(p, effect, name, s, timer),
        Err(fault) => refused(effect, name, fault),
    }
}
