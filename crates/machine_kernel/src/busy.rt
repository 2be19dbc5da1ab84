//! Busy ticks: while an action of several ticks goes on and nothing is due, nothing is said and
//! only its ticks pass, so those up to the first moment that is ahead pass at once.
ghost use Rattle.std.specs.Prelude.{◌≡◌, ◌≤◌, OnOk};
ghost use Rattle.trace_text.specs.declared.events.Who.TheVariants as who;
ghost use Rattle.profile_image.specs.Words.{is_the, same_who};
ghost use Rattle.profile_machine.specs.Dispatching.{choose};
ghost use Rattle.machine_kernel.specs.Busy.{is_quiet, goes_on_alone, ticks_of_action};
ghost use Rattle.machine_kernel.specs.Busy.{busy_ticks, fewer, worked, behind_work, work_passes};
ghost use Rattle.machine_kernel.specs.Busy.{worked_on, passed};

use crate::idle::{first_tick, skip_idle_ticks};
use ann_base::{NoMemory, TaskNo};
use machine_dispatching::choose;
use machine_frames::{task_at, task_mut};
use machine_program::{Program, is_robin_level};
use profile_machine::world::{Task, World, same_who};
use trace_text::Who;

fn is_quiet(world: &World) -> bool
    ensures { result ≡ is_quiet world.now }
{
    world.ended.is_none()
        && world.timers_set.is_empty()
        && world.timers_due.is_empty()
        && world.budget_due.is_none()
}

fn is_chosen(world: &World, n: TaskNo) -> bool
    ensures { result ≡ is_the same_who (choose world.now) (who.Task n) }
{
    match choose(world) {
        Some(name) => same_who(name, Who::Task(n)),
        None => false,
    }
}

fn goes_on_alone(p: &Program, world: &World, n: TaskNo, task: &Task) -> bool
    ensures { result ≡ goes_on_alone p.now world.now n task.now }
{
    is_chosen(world, n) && task.budget.is_none() && !is_robin_level(p, task.base)
}

// Most actions have no ticks left behind a tock.
fn ticks_of_action(p: &Program, bound: u64, world: &World, n: TaskNo, task: &Task) -> u64
    ensures { result ≡ ticks_of_action p.now bound world.now n task.now task.now.ticks_left }
{
    match task.ticks_left {
        Some(left) => {
            if 0 < left && goes_on_alone(p, world, n, task) && is_quiet(world) {
                left.min(first_tick(bound, world).saturating_sub(world.time))
            } else {
                0
            }
        }
        None => 0,
    }
}

fn busy_ticks(p: &Program, bound: u64, world: &World, n: TaskNo) -> u64
    ensures { result ≡ busy_ticks p.now bound world.now n }
{
    match task_at(world, Who::Task(n)) {
        Some(task) => ticks_of_action(p, bound, world, n, task),
        None => 0,
    }
}

fn fewer(ticks: u64, left: Option<u64>) -> Option<u64>
    ensures { result ≡ fewer ticks left }
{
    Some(left?.saturating_sub(ticks))
}

// A clock beyond the last of 64 bits is in no run.
fn work(ticks: u64, task: &mut Task) -> Result<(), NoMemory>
    ensures { OnOk result (task.new ≡ worked ticks task.old) }
{
    task.cpu_ticks = task.cpu_ticks.checked_add(ticks).ok_or(NoMemory)?;
    task.ticks_left = fewer(ticks, task.ticks_left);
    Ok(())
}

fn pass_work(ticks: u64, n: TaskNo, world: &mut World) -> Result<(), NoMemory>
    ensures { OnOk result (world.new ≡ behind_work ticks n world.old) }
{
    let time = world.time.checked_add(ticks).ok_or(NoMemory)?;
    if let Some(task) = task_mut(world, Who::Task(n)) {
        work(ticks, task)?;
    }
    world.time = time;
    Ok(())
}

fn pass_ticks(ticks: u64, n: TaskNo, world: &mut World) -> Result<(), NoMemory>
    ensures { OnOk result (world.new ≡ work_passes ticks n world.old) }
{
    if ticks == 0 {
        Ok(())
    } else {
        pass_work(ticks, n, world)
    }
}

#[tactic(auto, unfolding(crate::specs::Busy::worked_on))]
fn skip_busy_ticks(p: &Program, bound: u64, world: &mut World) -> Result<(), NoMemory>
    ensures { OnOk result (world.new ≡ worked_on p.now bound world.old) }
{
    match world.ran {
        Some(Who::Task(n)) => {
            let ticks = busy_ticks(p, bound, world, n);
            pass_ticks(ticks, n, world)
        }
        Some(Who::Agent) => Ok(()),
        None => Ok(()),
    }
}

/// Jumps over the idle ticks, or over those of the action that goes on, if there are any, up to the
/// bound at most.
///
/// Errors: a clock is at the last of 64 bits.
#[tactic(auto, using(crate::proofs::BusyLemmas::worked_on_within))]
pub(crate) fn skip_quiet_ticks(p: &Program, bound: u64, world: &mut World) -> Result<(), NoMemory>
    ensures passed { OnOk result (world.new ≡ passed p.now bound world.old) }
    ensures within { OnOk result (world.old.time ≤ bound → world.new.time ≤ bound) }
{
    skip_idle_ticks(bound, world);
    skip_busy_ticks(p, bound, world)
}
