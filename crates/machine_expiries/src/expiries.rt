//! Timers whose value the last tick reached, the budget that it brought to zero, and a quantum that
//! it spent (ISO/IEC 8652:2012, D.14, D.2.5).
ghost use Rattle.std.specs.Prelude.{◌≡◌, [], IfOk, OnOk};
ghost use Rattle.profile_machine.specs.Instant.{expire, expire_timer, timers_due};
ghost use Rattle.profile_machine.specs.Instant.{run_out, budgets_due, has_spent_quantum};
ghost use Rattle.profile_machine.specs.Instant.{spend_quantum, quantum_spent};
ghost use Rattle.profile_machine.specs.Steps.{for_each, for_some};
ghost use Rattle.profile_machine.specs.Tasks.{task_of};
ghost use Rattle.profile_machine.specs.Values.{timer_of};
ghost use Rattle.machine_frames.specs.Did.{Did};
ghost use Rattle.machine_expiries.specs.Moved.{Moved};

use ann_base::NoMemory;
use machine_dispatching::{active, settle, to_tail};
use machine_frames::{Effect, is_runnable, says, task_at};
use machine_program::{Program, is_robin_level, policies};
use machine_releases::{clear_timer, release};
use machine_values::{budget_of, timer_of};
use profile_machine::world::{Line, Part, Task, TimerSetting, World};
use std::alloc::Global;
use trace_text::Who;
use world_tables::List;

// The handler of a timer is released, and the timer is clear.
#[tactic(auto, unfolding(profile_machine::specs::Instant::expire))]
fn expire(
    p: &Program,
    effect: &mut Effect,
    number: u32,
    setting: Option<TimerSetting>,
) -> Result<(), NoMemory>
    ensures { OnOk result (Did (expire p.now number setting) effect.old effect.new) }
{
    match setting {
        Some(setting) => {
            clear_timer(&mut effect.world, number);
            release(p, effect, Part::Own, setting.handler, Some(number))
        }
        None => Ok(()),
    }
}

#[tactic(auto, unfolding(profile_machine::specs::Instant::expire_timer))]
fn expire_timer(p: &Program, effect: &mut Effect, number: u32) -> Result<(), NoMemory>
    ensures { OnOk result (Did (expire_timer p.now number) effect.old effect.new) }
{
    let setting = timer_of(&effect.world, number).setting;
    expire(p, effect, number, setting)
}

fn copied(alloc: Global, numbers: &List<u32>) -> Result<List<u32>, NoMemory>
    ensures { IfOk result (λ copy. copy ≡ numbers.now) }
{
    let mut copy = List::new(alloc);
    for number in numbers.iter() {
        copy.push_back(*number)?;
    }
    Ok(copy)
}

fn expire_all(p: &Program, effect: &mut Effect, timers: &List<u32>) -> Result<(), NoMemory>
    ensures { OnOk result (Did (for_each timers.now (expire_timer p.now)) effect.old effect.new) }
{
    for number in timers.iter() {
        expire_timer(p, effect, *number)?;
    }
    Ok(())
}

/// The fifth part of an instant: the handlers of the timers that are due are released.
///
/// Errors: memory ran out.
pub fn timers_due(
    alloc: Global,
    p: &Program,
    effect: &mut Effect,
    lines: &mut List<Line>,
) -> Result<(), NoMemory>
    requires { effect.old.said ≡ [] }
    ensures { OnOk result
        (Moved p.now (timers_due p.now) effect.old lines.old effect.new lines.new) }
{
    let timers = copied(alloc, &effect.world.timers_due)?;
    expire_all(p, effect, &timers)?;
    effect.world.timers_due.clear();
    settle(alloc, effect, lines)
}

#[tactic(auto, unfolding(profile_machine::specs::Instant::run_out))]
fn run_out(p: &Program, effect: &mut Effect, number: u32) -> Result<(), NoMemory>
    ensures { OnOk result (Did (run_out p.now number) effect.old effect.new) }
{
    match budget_of(&effect.world, number).handler {
        Some(handler) => release(p, effect, Part::Own, handler, Some(number)),
        None => Ok(()),
    }
}

fn run_out_if_due(p: &Program, effect: &mut Effect, budget: Option<u32>) -> Result<(), NoMemory>
    ensures { OnOk result (Did (for_some budget (run_out p.now)) effect.old effect.new) }
{
    match budget {
        Some(number) => run_out(p, effect, number),
        None => Ok(()),
    }
}

/// The sixth part of an instant: the handler of the budget that is due is released, and stays set.
///
/// Errors: memory ran out.
pub fn budgets_due(
    alloc: Global,
    p: &Program,
    effect: &mut Effect,
    lines: &mut List<Line>,
) -> Result<(), NoMemory>
    requires { effect.old.said ≡ [] }
    ensures { OnOk result
        (Moved p.now (budgets_due p.now) effect.old lines.old effect.new lines.new) }
{
    let budget = effect.world.budget_due;
    run_out_if_due(p, effect, budget)?;
    effect.world.budget_due = None;
    settle(alloc, effect, lines)
}

// Whether a task has spent its quantum, inherits nothing and has no protected action open.
fn has_spent_quantum(p: &Program, task: &Task) -> bool
    ensures { result ≡ has_spent_quantum p.now task.now }
{
    is_runnable(task)
        && task.quantum == 0
        && is_robin_level(p, task.base)
        && active(p, task) == task.base
        && task.inherited.is_empty()
        && !task.frames.any_protected()
}

// Where no range of levels has a policy of its own, no task has a quantum, and none is looked for.
fn quantum_is_spent(p: &Program, world: &World, name: Who) -> bool
    ensures { result ≡ has_spent_quantum p.now (task_of world.now name) }
{
    if policies(p).dispatching.as_slice().is_empty() {
        return false;
    }
    match task_at(world, name) {
        Some(task) => has_spent_quantum(p, task),
        None => false,
    }
}

#[tactic(auto, unfolding(profile_machine::specs::Instant::spend_quantum))]
fn spend_quantum(p: &Program, effect: &mut Effect, ran: Option<Who>) -> Result<(), NoMemory>
    ensures { OnOk result (Did (spend_quantum p.now ran) effect.old effect.new) }
{
    match ran {
        Some(Who::Task(t)) => {
            if quantum_is_spent(p, &effect.world, Who::Task(t)) {
                says(effect, Part::Own, Line::Quantum { task: t })?;
                to_tail(p, effect, Part::Own, Who::Task(t))
            } else {
                Ok(())
            }
        }
        Some(Who::Agent) => Ok(()),
        None => Ok(()),
    }
}

/// The last part of an instant: who ran and has spent its quantum goes to the tail of its level.
///
/// Errors: memory ran out.
pub fn quantum_spent(
    alloc: Global,
    p: &Program,
    effect: &mut Effect,
    lines: &mut List<Line>,
) -> Result<(), NoMemory>
    requires { effect.old.said ≡ [] }
    ensures { OnOk result
        (Moved p.now (quantum_spent p.now) effect.old lines.old effect.new lines.new) }
{
    let ran = effect.world.ran;
    spend_quantum(p, effect, ran)?;
    settle(alloc, effect, lines)
}
