//! The clocks of the base priorities: how long a task waited is told by the clock of its base
//! priority, so that a line costs no pass over the tasks.
ghost use Rattle.std.specs.Prelude.{◌≡◌, ◌≤◌, Some, map, OnOk, OnErr};
ghost use Rattle.std.specs.List.{AllByRecursion, list_all};
ghost use Rattle.trace_text.specs.declared.lines.TheConstants.{LAST_TICK};
ghost use Rattle.run_report.specs.Clocks.{clock_of, clock_at, passed, goes_on};
ghost use Rattle.run_report.specs.Clocks.{level_given, with_clock, waited_by, IsShown};

use crate::tallies::{Passing, is_lower, streak_after, ticks_if};
use ann_base::{Level, NoMemory};
use trace_text::{Created, Event};

/// How long tasks of one base priority waited, if they were ready, while a task of lower base
/// priority ran.
#[derive(Clone, Copy)]
pub struct Clock {
    pub level: Level,
    /// All ticks of such waiting since the clock is there.
    pub waited: u64,
    /// How many of these lie directly before the last line.
    pub streak: u64,
}

impl Clock {
    /// With these ticks more.
    pub fn passed(&self, passing: &Passing) -> Clock
        requires shown { IsShown LAST_TICK self.now }
        requires elapsed { passing.now.elapsed ≤ LAST_TICK }
        ensures { result ≡ passed passing.now self.now }
    {
        let waits = is_lower(passing.base, Some(self.level));
        Clock {
            level: self.level,
            waited: self.waited + ticks_if(waits, passing.elapsed),
            streak: streak_after(passing.elapsed, waits, self.streak),
        }
    }

    /// Whether no waiting ends while these ticks pass.
    pub fn goes_on(&self, passing: &Passing) -> bool
        ensures { result ≡ goes_on passing.now self.now }
    {
        passing.elapsed == 0 || is_lower(passing.base, Some(self.level)) || self.streak == 0
    }
}

/// The clock of a base priority.
pub fn clock_of(level: Level, clocks: &[Clock]) -> Option<Clock>
    ensures { result ≡ clock_of level clocks.now }
{
    for clock in clocks.iter() {
        if clock.level == level {
            return Some(*clock);
        }
    }
    None
}

/// The same, where there is a base priority.
pub fn clock_at(level: Option<Level>, clocks: &[Clock]) -> Option<Clock>
    ensures { result ≡ clock_at level clocks.now }
{
    let level = level?;
    clock_of(level, clocks)
}

/// What a clock shows, if there is one.
pub fn waited_by(clock: Option<Clock>) -> u64
    ensures { result ≡ waited_by clock }
{
    match clock {
        None => 0,
        Some(clock) => clock.waited,
    }
}

/// Whether no waiting ends while these ticks pass.
pub fn go_on(clocks: &[Clock], passing: &Passing) -> bool
    ensures { result ≡ list_all (goes_on passing.now) clocks.now }
{
    clocks.iter().all(|clock| clock.goes_on(passing))
}

/// Each clock shows these ticks.
pub fn pass(clocks: &mut [Clock], passing: &Passing)
    requires shown { AllByRecursion (IsShown LAST_TICK) clocks.old }
    requires elapsed { passing.now.elapsed ≤ LAST_TICK }
    ensures { clocks.new ≡ map (passed passing.now) clocks.old }
{
    for clock in clocks.iter_mut() {
        *clock = clock.passed(passing);
    }
}

/// Sees to a clock of the base priority that a line gives to a task.
pub fn add_clock(clocks: &mut Vec<Clock>, event: &Event) -> Result<(), NoMemory>
    ensures added { OnOk result
        (clocks.new.items ≡ with_clock (level_given event.now) clocks.old.items) }
    ensures unchanged { OnErr result (clocks.new.items ≡ clocks.old.items) }
{
    match level_given(event) {
        None => Ok(()),
        Some(level) => add_level(clocks, level),
    }
}

fn add_level(clocks: &mut Vec<Clock>, level: Level) -> Result<(), NoMemory>
    ensures added { OnOk result (clocks.new.items ≡ with_clock (Some level) clocks.old.items) }
    ensures unchanged { OnErr result (clocks.new.items ≡ clocks.old.items) }
{
    if clock_of(level, clocks).is_some() {
        return Ok(());
    }
    clocks.push(Clock {
        level,
        waited: 0,
        streak: 0,
    })?;
    Ok(())
}

// The base priority that a line gives to a task.
fn level_given(event: &Event) -> Option<Level>
    ensures { result ≡ level_given event.now }
{
    match event {
        Event::New {
            what: Created::Task(_),
            level,
            ..
        } => Some(*level),
        Event::Base { level, .. } => Some(*level),
        _ => None,
    }
}
