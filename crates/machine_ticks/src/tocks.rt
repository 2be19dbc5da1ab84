//! A tock: the choice of who runs, and one tick (docs/LANGUAGE.md).
ghost use Rattle.std.specs.Prelude.{◌≡◌, Some, None, OnOk, unwrap_or};
ghost use Rattle.profile_machine.specs.Run.{says_run, serve_first, serve};
ghost use Rattle.profile_machine.specs.Run.{begin_action, one_tick_less, spend_tick};
ghost use Rattle.profile_machine.specs.Run.{next_tick, tick_of, idle_tick, tock};
ghost use Rattle.profile_machine.specs.Cost.{cost};
ghost use Rattle.profile_machine.specs.Tasks.{task_of};
ghost use Rattle.profile_image.specs.Words.{same_option, same_who};
ghost use Rattle.profile_machine.specs.Steps.{watches};
ghost use Rattle.machine_ticks.specs.Alone.{ticked, ticks_alone, ticked_alone};
ghost use Rattle.machine_ticks.specs.Ticks.{Ticks};

use ann_base::{NoMemory, TaskNo};
use machine_costs::{cost, cost_of_found};
use machine_dispatching::choose;
use machine_frames::{set_ticks, task_at, task_mut};
use machine_program::Program;
use machine_releases::{charge, charge_itself};
use profile_machine::world::{World, same_who};
use trace_text::Who;
use world_tables::List;

/// A line of a tock.
#[derive(Clone, Copy)]
pub enum TickLine {
    /// Chosen, and not chosen at the tick before.
    Run(Who),
    /// Nobody is chosen, and somebody was at the tick before.
    Idle,
    /// The agent begins the release with this number.
    Serve(u32),
}

fn ran_before(name: Who, ran: Option<Who>) -> bool
    ensures { result ≡ same_option same_who ran (Some name) }
{
    match ran {
        Some(other) => same_who(other, name),
        None => false,
    }
}

// `run`, for somebody who did not run the tick before.
fn says_run(name: Who, world: &mut World, lines: &mut List<TickLine>) -> Result<(), NoMemory>
    ensures { OnOk result
        (Ticks (watches (λ w. says_run name w.ran)) world.old lines.old world.new lines.new) }
{
    if !ran_before(name, world.ran) {
        lines.push_back(TickLine::Run(name))?;
    }
    Ok(())
}

// The first release that is pending begins.
fn serve_first(world: &mut World, lines: &mut List<TickLine>) -> Result<(), NoMemory>
    ensures { OnOk result
        (Ticks (watches (λ w. serve_first w.releases)) world.old lines.old world.new lines.new) }
{
    if let Some(release) = world.releases.pop_front() {
        world.serving = Some(release);
        lines.push_back(TickLine::Serve(release.number))?;
    }
    Ok(())
}

// The agent without a rest begins the first release that is pending.
fn serve(name: Who, world: &mut World, lines: &mut List<TickLine>) -> Result<(), NoMemory>
    ensures { OnOk result (Ticks (serve name) world.old lines.old world.new lines.new) }
{
    match name {
        Who::Task(_) => Ok(()),
        Who::Agent => {
            if world.serving.is_none() && world.agent.frames.is_empty() {
                serve_first(world, lines)
            } else {
                Ok(())
            }
        }
    }
}

// The ticks of the action that has begun, or of the one that begins now.
fn ticks_of_action(p: &Program, name: Who, world: &World) -> u64
    ensures { result ≡ unwrap_or (task_of world.now name).ticks_left (cost p.now world.now name) }
{
    match task_at(world, name) {
        Some(task) => match task.ticks_left {
            Some(ticks) => ticks,
            None => cost_of_found(p, world, name, task),
        },
        None => cost(p, world, name),
    }
}

// An action begins when its task is chosen and has no ticks left.
fn begin_action(p: &Program, name: Who, world: &mut World)
    ensures { world.new ≡ begin_action p.now name world.old }
{
    let ticks = ticks_of_action(p, name, world);
    set_ticks(world, name, Some(ticks));
}

fn one_tick_less(ticks: Option<u64>) -> Option<u64>
    ensures { result ≡ one_tick_less ticks }
{
    Some(ticks?.saturating_sub(1))
}

fn spend_tick(name: Who, world: &mut World)
    ensures { world.new ≡ spend_tick name world.old }
{
    if let Some(task) = task_mut(world, name) {
        task.ticks_left = one_tick_less(task.ticks_left);
    }
}

// The action begins or goes on, and one tick of it is charged and spent, one by one.
fn tick_each(p: &Program, name: Who, world: &mut World) -> Result<(), NoMemory>
    ensures { OnOk result (world.new ≡ ticked p.now name world.old) }
{
    begin_action(p, name, world);
    charge(p, world, name)?;
    spend_tick(name, world);
    Ok(())
}

// The ticks of the action of a task that is charged alone: no timer is set, and it belongs to no
// group.
fn ticks_alone(p: &Program, name: Who, world: &World) -> Option<u64>
    ensures { result ≡ ticks_alone p.now name world.now }
{
    if !world.timers_set.is_empty() {
        return None;
    }
    let task = task_at(world, name)?;
    if task.budget.is_some() {
        return None;
    }
    match task.ticks_left {
        Some(ticks) => Some(ticks),
        None => Some(cost_of_found(p, world, name, task)),
    }
}

// One tick of an action of so many ticks, of a task that is charged alone: one look-up serves.
fn tick_alone(p: &Program, t: TaskNo, ticks: u64, world: &mut World) -> Result<(), NoMemory>
    ensures { OnOk result (world.new ≡ ticked_alone p.now t ticks world.old) }
{
    if let Some(task) = task_mut(world, Who::Task(t)) {
        charge_itself(p, task)?;
        task.ticks_left = Some(ticks.saturating_sub(1));
    }
    world.timers_due.clear();
    world.budget_due = None;
    Ok(())
}

// The action begins or goes on, and one tick of it is charged and spent.
fn tick_action(p: &Program, name: Who, world: &mut World) -> Result<(), NoMemory>
    ensures { OnOk result (world.new ≡ ticked p.now name world.old) }
{
    match name {
        Who::Task(t) => match ticks_alone(p, name, world) {
            Some(ticks) => tick_alone(p, t, ticks, world),
            None => tick_each(p, name, world),
        },
        Who::Agent => tick_each(p, name, world),
    }
}

// One tick passes. Errors: the numbers of ticks are used up.
fn next_tick(ran: Option<Who>, world: &mut World) -> Result<(), NoMemory>
    ensures { OnOk result (world.new ≡ next_tick ran world.old) }
{
    let time = world.time.checked_add(1).ok_or(NoMemory)?;
    world.time = time;
    world.ran = ran;
    Ok(())
}

// One tick of who is chosen.
fn tick_of(
    p: &Program,
    name: Who,
    world: &mut World,
    lines: &mut List<TickLine>,
) -> Result<(), NoMemory>
    ensures { OnOk result (Ticks (tick_of p.now name) world.old lines.old world.new lines.new) }
{
    says_run(name, world, lines)?;
    serve(name, world, lines)?;
    tick_action(p, name, world)?;
    next_tick(Some(name), world)
}

// A tick at which nobody runs.
fn idle_tick(world: &mut World, lines: &mut List<TickLine>) -> Result<(), NoMemory>
    ensures { OnOk result (Ticks idle_tick world.old lines.old world.new lines.new) }
{
    if world.ran.is_some() {
        lines.push_back(TickLine::Idle)?;
    }
    next_tick(None, world)
}

/// The choice of who runs, and one tick: the lines stand behind those that are there.
///
/// Errors: memory ran out, or the numbers of ticks are used up.
pub fn tock(p: &Program, world: &mut World, lines: &mut List<TickLine>) -> Result<(), NoMemory>
    ensures { OnOk result (Ticks (tock p.now) world.old lines.old world.new lines.new) }
{
    match choose(world) {
        Some(name) => tick_of(p, name, world, lines),
        None => idle_tick(world, lines),
    }
}
