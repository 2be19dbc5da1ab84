//! Appointments whose moment is now: timing events, then delays, time-outs and triggers, each in
//! the order in which they were set (ISO/IEC 8652:2012, 9.6, 9.7, D.15).
ghost use Rattle.std.specs.Prelude.{◌≡◌, [], OnOk, Some, option_map};
ghost use Rattle.profile_machine.specs.Instant.{take_delay, end_delay, time_out, is_the_same_due};
ghost use Rattle.profile_machine.specs.Instant.{come_due, all_due, appointments_due};
ghost use Rattle.profile_machine.specs.Tasks.{waiting_of};
ghost use Rattle.profile_machine.specs.Steps.{looks};
ghost use Rattle.profile_machine.specs.Appointments.{first_due};
ghost use Rattle.machine_frames.specs.Did.{Did};
ghost use Rattle.profile_machine.specs.DueOf.{is_due_of};
ghost use Rattle.machine_expiries.specs.Moved.{Moved};

use ann_base::{CallNo, NoMemory};
use machine_calls::{deliver, trigger_at, unwind};
use machine_dispatching::{ready, settle};
use machine_frames::{Effect, drop_appointment, goes, open_sequence, says, waiting_of};
use machine_program::{Program, next_of};
use machine_queues::{copied_call, unqueued};
use machine_releases::release;
use profile_machine::world::{Due, DueOf, Line, Outcome, Part, Waiting, World};
use std::alloc::Global;
use trace_text::Who;
use world_tables::List;

#[tactic(auto, unfolding(profile_machine::specs::Instant::take_delay))]
fn take_delay(p: &Program, effect: &mut Effect, name: Who)
    ensures { Did (looks (λ w. take_delay p.now name (waiting_of w name))) effect.old effect.new }
{
    let delay = match waiting_of(&effect.world, name) {
        Some(Waiting::Select(_, Some(delay), _)) => *delay,
        _ => return,
    };
    goes(effect, name, next_of(p, delay));
}

// A task's moment has come; at a select the delay alternative is taken.
#[tactic(auto, unfolding(profile_machine::specs::Instant::end_delay))]
fn end_delay(p: &Program, effect: &mut Effect, name: Who) -> Result<(), NoMemory>
    ensures { OnOk result (Did (end_delay p.now name) effect.old effect.new) }
{
    take_delay(p, effect, name);
    ready(p, effect, Part::Own, name)?;
    open_sequence(p, effect, Part::Own, name)
}

// A timed call that has not begun is cancelled.
#[tactic(auto, unfolding(profile_machine::specs::Instant::time_out))]
fn time_out(p: &Program, effect: &mut Effect, c: CallNo) -> Result<(), NoMemory>
    ensures { OnOk result (Did (time_out p.now c) effect.old effect.new) }
{
    let call = match copied_call(&effect.world, c)? {
        Some(call) => call,
        None => return Ok(()),
    };
    unqueued(p, &mut effect.world, &call);
    says(
        effect,
        Part::Own,
        Line::Cancel {
            task: call.caller,
            call: c,
        },
    )?;
    deliver(p, effect, Part::Own, c, Outcome::Cancelled)
}

fn of(due: Due) -> DueOf
    ensures { is_due_of result ≡ is_the_same_due due }
{
    match due {
        Due::Event(n, _) => DueOf::Event(n),
        Due::Delay(t) => DueOf::Delay(t),
        Due::Timeout(c) => DueOf::Timeout(c),
        Due::Trigger(t, depth) => DueOf::Trigger(t, depth),
    }
}

#[tactic(auto, unfolding(profile_machine::specs::Instant::come_due))]
fn come_due(p: &Program, effect: &mut Effect, due: Due) -> Result<(), NoMemory>
    ensures { OnOk result (Did (come_due p.now due) effect.old effect.new) }
{
    match due {
        Due::Event(n, handler) => release(p, effect, Part::Own, handler, Some(n)),
        Due::Delay(t) => end_delay(p, effect, Who::Task(t)),
        Due::Timeout(c) => time_out(p, effect, c),
        Due::Trigger(t, depth) => {
            trigger_at(effect, Part::Own, t, depth as usize)?;
            unwind(p, effect, Part::Own, Who::Task(t))
        }
    }
}

// What is due first.
fn due_now(world: &World, events: bool) -> Option<Due>
    ensures { result
        ≡ option_map (λ a. a.due) (first_due events world.now.time world.now.appointments) }
{
    Some(world.appointments.first_due(events, world.time)?.due)
}

#[tactic(auto, unfolding(profile_machine::specs::Instant::all_due), using(crate::proofs::FuelLemmas::due_laws))]
fn all_due(fuel: usize, p: &Program, events: bool, effect: &mut Effect) -> Result<(), NoMemory>
    ensures { OnOk result (Did (all_due fuel p.now events) effect.old effect.new) }
{
    if fuel == 0 {
        return Ok(());
    }
    match due_now(&effect.world, events) {
        Some(due) => {
            drop_appointment(&mut effect.world, of(due));
            come_due(p, effect, due)?;
            all_due(fuel - 1, p, events, effect)
        }
        None => Ok(()),
    }
}

/// The third part of an instant, of timing events, and the fourth, of what is none: what is due
/// comes about.
///
/// Errors: memory ran out.
pub fn appointments_due(
    alloc: Global,
    p: &Program,
    events: bool,
    effect: &mut Effect,
    lines: &mut List<Line>,
) -> Result<(), NoMemory>
    requires { effect.old.said ≡ [] }
    ensures { OnOk result
        (Moved p.now (appointments_due p.now events) effect.old lines.old effect.new lines.new) }
{
    all_due(effect.world.appointments.len(), p, events, effect)?;
    settle(alloc, effect, lines)
}
