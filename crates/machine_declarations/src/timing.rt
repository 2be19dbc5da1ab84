//! The declaration of timing events, timers and group budgets (ISO/IEC 8652:2012, D.14, D.15).
ghost use Rattle.std.specs.Prelude.{◌≡◌, ◌^◌, ◌≤◌, IfOk, OnOk, OnErr};
ghost use Rattle.machine_scopes.specs.Stored.{Stores};
ghost use Rattle.profile_machine.specs.Declarations.{event_drawn, event_declared};
ghost use Rattle.profile_machine.specs.Declarations.{with_budget, budget_declared};
ghost use Rattle.profile_machine.specs.Declarations.{timed_task, with_timer, timer_declared};
ghost use Rattle.profile_machine.specs.Values.{seen_by, must_be_task};

use crate::objects::{located_here, set_thing};
use ann_base::{NoMemory, OrMemory, Raised, TaskNo, next_number};
use machine_program::Program;
use machine_values::{Seen, first_cell, home_of, or_raised, seen_by, task_in};
use profile_image::{DeclNo, MOST_TIMERS, Value};
use profile_machine::world::{Budget, Drawn, Timer, World};
use trace_text::Who;

fn event_drawn(drawn: &mut Drawn) -> Result<(), NoMemory>
    ensures { OnOk result (drawn.new ≡ event_drawn drawn.old) }
{
    drawn.events = next_number(drawn.events)?;
    Ok(())
}

/// A timing event is declared.
pub(crate) fn event_declared(
    p: &Program,
    name: Who,
    d: DeclNo,
    world: &mut World,
) -> Result<(), OrMemory<Raised>>
    ensures { Stores result (event_declared (seen_by p.now world.old name) d) world.old world.new }
{
    let object = or_raised(located_here(&seen_by(p, world, name), d))?;
    let number = world.drawn.events;
    event_drawn(&mut world.drawn)?;
    set_thing(p, object, Value::Thing(number), world);
    Ok(())
}

// A number beyond the last of 32 bits is in no memory.
fn number_of_place(place: usize) -> Result<u32, NoMemory>
    ensures ok { IfOk result (λ number. number ≡ place) }
    ensures err { OnErr result (2 ^ 32 ≤ place) }
{
    match u32::try_from(place) {
        Ok(number) => Ok(number),
        Err(_) => Err(NoMemory),
    }
}

fn with_budget(world: &mut World) -> Result<(), NoMemory>
    ensures { OnOk result (world.new ≡ with_budget world.old) }
{
    world.budgets.push_back(Budget {
        remaining: 0,
        handler: None,
    })?;
    Ok(())
}

/// A group budget is declared.
pub(crate) fn budget_declared(
    p: &Program,
    name: Who,
    d: DeclNo,
    world: &mut World,
) -> Result<(), OrMemory<Raised>>
    ensures { Stores result (budget_declared (seen_by p.now world.old name) d) world.old
        world.new }
{
    let object = or_raised(located_here(&seen_by(p, world, name), d))?;
    let number = number_of_place(world.budgets.len())?;
    with_budget(world)?;
    set_thing(p, object, Value::Thing(number), world);
    Ok(())
}

// Null_Task_Id identifies no task.
fn must_be_task(task: Option<TaskNo>) -> Result<TaskNo, Raised>
    ensures { result ≡ must_be_task task }
{
    task.ok_or(Raised::Program)
}

// The task that the named constant identifies.
fn timed_task(q: &Seen<'_>, d: DeclNo) -> Result<TaskNo, Raised>
    ensures { result ≡ timed_task q.now d }
{
    let id = home_of(q, d)?;
    must_be_task(task_in(first_cell(q, d, id)))
}

fn with_timer(task: TaskNo, world: &mut World) -> Result<(), NoMemory>
    ensures { OnOk result (world.new ≡ with_timer task world.old) }
{
    world.timers.push_back(Timer {
        task,
        setting: None,
    })?;
    Ok(())
}

/// A timer of the task that the named constant identifies is declared.
///
/// Errors: `Program` for Null_Task_Id, `TimerResource` while 256 timers exist; the world is then as
/// it was.
pub(crate) fn timer_declared(
    p: &Program,
    name: Who,
    d: DeclNo,
    task: DeclNo,
    world: &mut World,
) -> Result<(), OrMemory<Raised>>
    ensures { Stores result (timer_declared (seen_by p.now world.old name) d task) world.old
        world.new }
{
    let timed = or_raised(timed_task(&seen_by(p, world, name), task))?;
    if MOST_TIMERS <= world.timers.len() {
        return Err(OrMemory::Fault(Raised::TimerResource));
    }
    let object = or_raised(located_here(&seen_by(p, world, name), d))?;
    let number = number_of_place(world.timers.len())?;
    with_timer(timed, world)?;
    set_thing(p, object, Value::Thing(number), world);
    Ok(())
}
