//! One tick is charged to who ran it (ISO/IEC 8652:2012, D.2.5, D.14).
ghost use Rattle.std.specs.Prelude.{◌≡◌, ◌++◌, OnOk, pos};
ghost use Rattle.profile_machine.specs.Handlers.{clock_risen, charged_budget, has_run_out};
ghost use Rattle.profile_machine.specs.Handlers.{due_by_tick, charge_budget, has_value_up_to};
ghost use Rattle.profile_machine.specs.Handlers.{is_reached_by, quantum_spent_by, charge_clock};
ghost use Rattle.profile_machine.specs.Handlers.{charge_group, charge_task, charge};
ghost use Rattle.profile_machine.specs.Tasks.{edit_task, task_of};
ghost use Rattle.machine_releases.specs.Alone.{charged_itself};
ghost use Rattle.profile_image.specs.Words.{edit_at};
ghost use Rattle.machine_releases.specs.Ticks.{timer_in, reached_in};

use ann_base::{NoMemory, TaskNo};
use machine_frames::{task_at, task_mut};
use machine_program::{Program, is_robin_level};
use machine_values::budget_of;
use profile_machine::world::{Budget, Task, Timer, TimerSetting, World};
use trace_text::Who;
use world_tables::List;

// A clock at the last of 64 bits is in no run.
fn raise_clock(world: &mut World, name: Who) -> Result<(), NoMemory>
    ensures { OnOk result (world.new ≡ edit_task name clock_risen world.old) }
{
    if let Some(task) = task_mut(world, name) {
        match task.cpu_ticks.checked_add(1) {
            Some(ticks) => task.cpu_ticks = ticks,
            None => return Err(NoMemory),
        }
    }
    Ok(())
}

fn clock_of(world: &World, name: Who) -> u64
    ensures { result ≡ (task_of world.now name).cpu_ticks }
{
    match task_at(world, name) {
        Some(task) => task.cpu_ticks,
        None => 0,
    }
}

fn has_value_up_to(clock: u64, setting: Option<TimerSetting>) -> bool
    ensures { result ≡ has_value_up_to (pos clock) setting }
{
    match setting {
        Some(setting) => i128::from(setting.value) <= i128::from(clock),
        None => false,
    }
}

fn is_reached_by(t: TaskNo, clock: u64, timer: Timer) -> bool
    ensures { result ≡ is_reached_by t clock timer }
{
    t.0 == timer.task.0 && has_value_up_to(clock, timer.setting)
}

fn timer_in(timers: &List<Timer>, k: u32) -> Timer
    ensures { result ≡ timer_in timers.now k }
{
    let none = Timer {
        task: TaskNo(0),
        setting: None,
    };
    timers.get_or(k as usize, none)
}

// The timers whose value the clock has reached, in the order in which they were set, go behind
// those that are due.
fn add_reached(
    due: &mut List<u32>,
    set: &List<u32>,
    timers: &List<Timer>,
    t: TaskNo,
    clock: u64,
) -> Result<(), NoMemory>
    ensures { OnOk result (due.new ≡ due.old ++ reached_in t clock timers.now set.now) }
{
    for k in set.iter() {
        if is_reached_by(t, clock, timer_in(timers, *k)) {
            due.push_back(*k)?;
        }
    }
    Ok(())
}

fn charge_clock(world: &mut World, t: TaskNo) -> Result<(), NoMemory>
    ensures { OnOk result (world.new ≡ charge_clock t world.old) }
{
    raise_clock(world, Who::Task(t))?;
    let clock = clock_of(world, Who::Task(t));
    world.timers_due.clear();
    add_reached(
        &mut world.timers_due,
        &world.timers_set,
        &world.timers,
        t,
        clock,
    )
}

fn charged(budget: Budget) -> Budget
    ensures { result ≡ charged_budget budget }
{
    Budget {
        remaining: if 0 < budget.remaining {
            budget.remaining - 1
        } else {
            budget.remaining
        },
        handler: budget.handler,
    }
}

fn has_run_out(before: Budget, after: Budget) -> bool
    ensures { result ≡ has_run_out before after }
{
    0 < before.remaining && after.remaining <= 0
}

// The budget that the tick brings to zero.
fn due_by_tick(world: &World, budget: Option<u32>) -> Option<u32>
    ensures { result ≡ due_by_tick world.now budget }
{
    let number = budget?;
    let before = budget_of(world, number);
    if has_run_out(before, charged(before)) {
        Some(number)
    } else {
        None
    }
}

#[tactic(auto, using(crate::proofs::EditLemmas::none_edited))]
fn charge_at(budgets: &mut List<Budget>, b: u32)
    ensures { budgets.new ≡ edit_at b charged_budget budgets.old }
{
    if let Some(budget) = budgets.get_mut(b as usize) {
        *budget = charged(*budget);
    }
}

fn charge_budget(world: &mut World, budget: Option<u32>)
    ensures { world.new ≡ charge_budget budget world.old }
{
    if let Some(number) = budget {
        charge_at(&mut world.budgets, number);
    }
}

fn budget_at(world: &World, name: Who) -> Option<u32>
    ensures { result ≡ (task_of world.now name).budget }
{
    let task = task_at(world, name)?;
    task.budget
}

fn charge_group(world: &mut World, t: TaskNo)
    ensures { world.new ≡ charge_group t world.old }
{
    let budget = budget_at(world, Who::Task(t));
    let due = due_by_tick(world, budget);
    charge_budget(world, budget);
    world.budget_due = due;
}

// A positive quantum falls by one on a round-robin base level.
fn spend_quantum(p: &Program, task: &mut Task)
    ensures { task.new ≡ quantum_spent_by p.now task.old }
{
    if is_robin_level(p, task.base) {
        task.quantum = task.quantum.saturating_sub(1);
    }
}

fn spend_quantum_of(p: &Program, world: &mut World, name: Who)
    ensures { world.new ≡ edit_task name (quantum_spent_by p.now) world.old }
{
    if let Some(task) = task_mut(world, name) {
        spend_quantum(p, task);
    }
}

/// The clock and the quantum of a task are charged a tick, which is all if it belongs to no group
/// and no timer is set.
///
/// Errors: the clock is at the last of 64 bits.
pub fn charge_itself(p: &Program, task: &mut Task) -> Result<(), NoMemory>
    ensures { OnOk result (task.new ≡ charged_itself p.now task.old) }
{
    task.cpu_ticks = task.cpu_ticks.checked_add(1).ok_or(NoMemory)?;
    spend_quantum(p, task);
    Ok(())
}

fn charge_task(p: &Program, world: &mut World, t: TaskNo) -> Result<(), NoMemory>
    ensures { OnOk result (world.new ≡ charge_task p.now t world.old) }
{
    charge_clock(world, t)?;
    charge_group(world, t);
    spend_quantum_of(p, world, Who::Task(t));
    Ok(())
}

/// A tick is charged to the task that ran it: to its clock, its budget and its quantum. What
/// becomes due by the tick is kept. The time of the agent is charged to nobody.
///
/// Errors: memory ran out, or a clock is at the last of 64 bits; the world is then not told.
pub fn charge(p: &Program, world: &mut World, name: Who) -> Result<(), NoMemory>
    ensures { OnOk result (world.new ≡ charge p.now name world.old) }
{
    match name {
        Who::Task(t) => charge_task(p, world, t),
        Who::Agent => Ok(()),
    }
}
