//! Handlers and moments that a setting names (ISO/IEC 8652:2012, D.14, D.15).
ghost use Rattle.std.specs.Prelude.{◌≡◌, pos};
ghost use Rattle.ann_base.specs.Answers.{Answers};
ghost use Rattle.profile_machine.specs.Handlers.{handler_named, set_value};
ghost use Rattle.profile_machine.specs.Handlers.{is_interrupt_handler, clock_of_timer};
ghost use Rattle.machine_handlers.specs.Settings.{set_with, event_setting, timer_setting};
ghost use Rattle.machine_handlers.specs.Settings.{thing_named, timer_named};

use ann_base::{Moment, OrMemory, Raised};
use machine_exclusion::ceiling_of;
use machine_operators::held_behind;
use machine_program::{Program, interrupt_priority};
use machine_releases::has_room_for_release;
use machine_values::{
    Seen, live_task, moment, number_of_thing, object_number, or_raised, timer_of, variable,
};
use profile_image::{DeclNo, HandlerName, Setting, VariableName};
use profile_machine::world::{HandlerOf, Variable, World};

/// The handler that has this name.
///
/// Errors: `Program` before the declaration of its object has been elaborated.
pub(crate) fn handler_named(
    q: &Seen<'_>,
    handler: Option<HandlerName>,
) -> Result<Option<HandlerOf>, Raised>
    ensures { result ≡ handler_named q.now handler }
{
    let Some(handler) = handler else {
        return Ok(None);
    };
    Ok(Some(HandlerOf {
        object: object_number(q, handler.object)?,
        procedure: handler.procedure,
    }))
}

// The moment, or the span from a moment on, that a setting names.
fn set_value(q: &Seen<'_>, base: u64, set: Setting) -> Result<Moment, OrMemory<Raised>>
    ensures { Answers result (set_value q.now (pos base) set) }
{
    match set {
        Setting::At(e) => moment(q, e),
        Setting::In(e) => Ok(held_behind(base, moment(q, e)?)),
    }
}

/// Whether the ceiling of a handler's object is the priority of interrupts, the last of all.
pub(crate) fn is_interrupt_handler(p: &Program, world: &World, handler: Option<HandlerOf>) -> bool
    ensures { result ≡ is_interrupt_handler p.now world.now handler }
{
    match handler {
        Some(handler) => interrupt_priority(p) <= u32::from(ceiling_of(world, handler.object)),
        None => true,
    }
}

// What an event or a timer is set to.
#[derive(Clone, Copy)]
pub(crate) struct Set {
    // The number of the event or the timer.
    pub(crate) number: u32,
    pub(crate) handler: Option<HandlerOf>,
    pub(crate) value: Moment,
}

fn set_with(
    q: &Seen<'_>,
    number: u32,
    base: u64,
    set: Setting,
    handler: Option<HandlerName>,
) -> Result<Set, OrMemory<Raised>>
    ensures { Answers result (set_with q.now number (pos base) set handler) }
{
    let handler = or_raised(handler_named(q, handler))?;
    if handler.is_some() && !has_room_for_release(q.world) {
        return Err(OrMemory::Fault(Raised::Storage));
    }
    let value = set_value(q, base, set)?;
    if !is_interrupt_handler(q.program, q.world, handler) {
        return Err(OrMemory::Fault(Raised::Program));
    }
    Ok(Set {
        number,
        handler,
        value,
    })
}

/// What a timing event is set to.
pub(crate) fn event_setting(
    q: &Seen<'_>,
    d: DeclNo,
    set: Setting,
    handler: Option<HandlerName>,
) -> Result<Set, OrMemory<Raised>>
    ensures { Answers result (event_setting q.now d set handler) }
{
    let event = or_raised(number_of_thing(q, d))?;
    set_with(q, event, q.world.time, set, handler)
}

/// The execution time of the task of a timer.
///
/// Errors: `Tasking` where the task has terminated.
fn clock_of_timer(q: &Seen<'_>, timer: u32) -> Result<u64, Raised>
    ensures { result ≡ clock_of_timer q.now timer }
{
    Ok(live_task(q.world, Some(timer_of(q.world, timer).task))?.cpu_ticks)
}

// What a timer is set to, with the execution time of its task.
#[derive(Clone, Copy)]
pub(crate) struct TimerSet {
    pub(crate) clock: u64,
    pub(crate) set: Set,
}

/// What a timer is set to.
pub(crate) fn timer_setting(
    q: &Seen<'_>,
    d: DeclNo,
    set: Setting,
    handler: Option<HandlerName>,
) -> Result<TimerSet, OrMemory<Raised>>
    ensures { Answers result (timer_setting q.now d set handler) }
{
    let timer = or_raised(number_of_thing(q, d))?;
    let clock = or_raised(clock_of_timer(q, timer))?;
    let set = set_with(q, timer, clock, set, handler)?;
    Ok(TimerSet { clock, set })
}

// An event, a timer or a budget with the variable that gets whether it was set.
#[derive(Clone, Copy)]
pub(crate) struct Named {
    pub(crate) number: u32,
    pub(crate) target: Variable,
}

pub(crate) fn thing_named(
    q: &Seen<'_>,
    d: DeclNo,
    target: VariableName,
) -> Result<Named, OrMemory<Raised>>
    ensures { Answers result (thing_named q.now d target) }
{
    let number = or_raised(number_of_thing(q, d))?;
    let target = variable(q, target)?;
    Ok(Named { number, target })
}

pub(crate) fn timer_named(
    q: &Seen<'_>,
    d: DeclNo,
    target: VariableName,
) -> Result<Named, OrMemory<Raised>>
    ensures { Answers result (timer_named q.now d target) }
{
    let number = or_raised(number_of_thing(q, d))?;
    or_raised(clock_of_timer(q, number))?;
    let target = variable(q, target)?;
    Ok(Named { number, target })
}
