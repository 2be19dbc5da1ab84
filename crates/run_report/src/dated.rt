//! What is kept of a task as of the last line that told of it, and what clocks tell of it later.
ghost use Rattle.std.specs.Prelude.{◌≡◌, ◌≤◌, ◌+◌, ℕ, Some, map, OnOk, OnErr};
ghost use Rattle.std.specs.List.{AllByRecursion};
ghost use Rattle.std.specs.Ordering.{nat_cmp};
ghost use Rattle.std.specs.BTreeMap.{get};
ghost use Rattle.trace_text.specs.declared.lines.TheConstants.{LAST_TICK};
ghost use Rattle.run_report.specs.Clocks.{clock_at, wait_level, lower_by, streak_by, tally_at};
ghost use Rattle.run_report.specs.Clocks.{dated, settled, next_waited, number_in, named_by};
ghost use Rattle.run_report.specs.Clocks.{created_number, noted, place_in, place_at, place_if};
ghost use Rattle.run_report.specs.Clocks.{checked_place, step_of, step_at, written};
ghost use Rattle.run_report.specs.Clocks.{written_at, IsFit, IsWithin, IsShown};
ghost use Rattle.run_report.specs.declared.tallies.TheConstants.{ROOM};

use crate::clocks::{Clock, clock_at, waited_by};
use crate::report::Kept;
use crate::tallies::{Passing, Tally};
use ann_base::{Level, NoMemory};
use std::collections::BTreeMap;
use trace_text::{Created, Event, Who};

/// What is kept of one task, as it was behind the last line that told of it.
#[derive(Drop)]
pub struct Dated {
    pub kept: Kept,
    /// The tick of that line.
    pub tick: u64,
    /// What the clock of its base priority showed then, if it was ready.
    pub waited: u64,
}

/// What a line leaves of the task at a place.
#[derive(Clone, Copy)]
pub struct Step {
    pub place: usize,
    pub tally: Tally,
    pub waited: u64,
}

// The base priority at which a task waits, if it is ready.
fn wait_level(tally: &Tally) -> Option<Level>
    ensures { result ≡ wait_level tally.now }
{
    if tally.since.is_some() {
        tally.base
    } else {
        None
    }
}

/// The tally of a task at the last line.
pub fn tally_at(clocks: &[Clock], last: u64, one: &Dated) -> Tally
    requires fit { IsFit clocks.now last one.now }
    requires tick { last ≤ LAST_TICK }
    ensures { result ≡ tally_at clocks.now last one.now }
{
    let mut tally = one.kept.tally;
    let clock = clock_at(wait_level(&tally), clocks);
    let streak = streak_by(
        clock,
        last.saturating_sub(one.tick),
        one.waited,
        tally.streak,
    );
    tally.lower = lower_by(clock, one.waited, tally.lower);
    tally.longest = tally.longest.max(streak);
    tally.streak = streak;
    tally
}

fn lower_by(clock: Option<Clock>, waited: u64, lower: u64) -> u64
    requires { lower_by clock waited lower ≤ LAST_TICK }
    ensures { result ≡ lower_by clock waited lower }
{
    match clock {
        None => lower,
        Some(clock) => lower + clock.waited.saturating_sub(waited),
    }
}

fn streak_by(clock: Option<Clock>, gone: u64, waited: u64, streak: u64) -> u64
    requires { streak + gone ≤ LAST_TICK }
    ensures { result ≡ streak_by clock gone waited streak }
{
    match clock {
        None => { if gone == 0 { streak } else { 0 } }
        Some(clock) => {
            if clock.waited.saturating_sub(waited) == gone {
                streak + gone
            } else {
                clock.streak
            }
        }
    }
}

/// Each task is told as of the last line.
pub fn settle(items: &mut [Dated], clocks: &[Clock], last: u64)
    requires fit { AllByRecursion (IsFit clocks.now last) items.old }
    requires tick { last ≤ LAST_TICK }
    ensures { items.new ≡ map (settled clocks.now last) items.old }
{
    for one in items.iter_mut() {
        settle_one(one, clocks, last);
    }
}

fn settle_one(one: &mut Dated, clocks: &[Clock], last: u64)
    requires fit { IsFit clocks.now last one.old }
    requires tick { last ≤ LAST_TICK }
    ensures { one.new ≡ settled clocks.now last one.old }
{
    let tally = tally_at(clocks, last, one);
    one.waited = waited_by(clock_at(wait_level(&tally), clocks));
    one.kept.tally = tally;
    one.tick = last;
}

/// The number of a subject that is a task.
pub fn number_in(somebody: Option<Who>) -> Option<u32>
    ensures { result ≡ number_in somebody }
{
    match somebody? {
        Who::Task(task) => Some(task.0),
        Who::Agent => None,
    }
}

/// The number of the task that a line creates, places in the queue, takes out, or gives a base
/// priority.
pub fn named_by(event: &Event) -> Option<u32>
    ensures { result ≡ named_by event.now }
{
    match event {
        Event::New {
            what: Created::Task(task),
            ..
        } => Some(task.0),
        Event::Ready { who, .. } => number_in(Some(*who)),
        Event::Block { who, .. } => number_in(Some(*who)),
        Event::Base { task, .. } => Some(task.0),
        Event::Done { task } => Some(task.0),
        _ => None,
    }
}

// The number of the task that a line creates.
fn created_number(event: &Event) -> Option<u32>
    ensures { result ≡ created_number event.now }
{
    match event {
        Event::New {
            what: Created::Task(task),
            ..
        } => Some(task.0),
        _ => None,
    }
}

/// Notes the place of the task that a line creates. A place may stay noted of a task that then was
/// not created for want of memory, so that whoever looks a place up looks at the number there too.
pub fn note_place(
    places: &mut BTreeMap<u32, usize>,
    event: &Event,
    place: usize,
) -> Result<(), NoMemory>
    ensures noted { OnOk result
        ((number : ℕ)
        → get nat_cmp places.new number
        ≡ noted (created_number event.now) place number (get nat_cmp places.old number)) }
    ensures unchanged { OnErr result
        ((number : ℕ) → get nat_cmp places.new number ≡ get nat_cmp places.old number) }
{
    match created_number(event) {
        None => Ok(()),
        Some(number) => {
            places.insert(number, place)?;
            Ok(())
        }
    }
}

/// The place of the task with a number.
pub fn place_at(
    items: &[Dated],
    places: &BTreeMap<u32, usize>,
    number: Option<u32>,
) -> Option<usize>
    requires { (number place : ℕ) → place_in number items.now ≡ Some place
        → get nat_cmp places.now number ≡ Some place }
    ensures { result ≡ place_at number items.now }
{
    let number = number?;
    place_in(items, places, number)
}

fn place_in(items: &[Dated], places: &BTreeMap<u32, usize>, number: u32) -> Option<usize>
    requires { (number place : ℕ) → place_in number items.now ≡ Some place
        → get nat_cmp places.now number ≡ Some place }
    ensures { result ≡ place_in number items.now }
{
    checked_place(items, places.get(&number).copied(), number)
}

// The place, where the task there has the number.
fn checked_place(items: &[Dated], place: Option<usize>, number: u32) -> Option<usize>
    ensures { result ≡ checked_place items.now place number }
{
    let place = place?;
    let one = items.get(place)?;
    place_if(one.kept.task.0 == number, place)
}

fn place_if(holds: bool, place: usize) -> Option<usize>
    ensures { result ≡ place_if holds place }
{
    if holds { Some(place) } else { None }
}

/// What a line leaves of the task at a place.
pub fn step_at(
    items: &[Dated],
    clocks: &[Clock],
    last: u64,
    passing: &Passing,
    now: u64,
    event: &Event,
    place: Option<usize>,
) -> Option<Step>
    requires fit { AllByRecursion (IsFit clocks.now last) items.now }
    requires within { AllByRecursion (IsWithin ROOM) items.now }
    requires shown { AllByRecursion (IsShown LAST_TICK) clocks.now }
    requires last { last ≤ LAST_TICK }
    requires elapsed { passing.now.elapsed ≤ LAST_TICK }
    requires tick { now ≤ LAST_TICK }
    ensures { result ≡ step_at clocks.now last passing.now now event.now place items.now }
{
    let place = place?;
    let one = items.get(place)?;
    Some(step_of(one, clocks, last, passing, now, event, place))
}

fn step_of(
    one: &Dated,
    clocks: &[Clock],
    last: u64,
    passing: &Passing,
    now: u64,
    event: &Event,
    place: usize,
) -> Step
    requires fit { IsFit clocks.now last one.now }
    requires within { IsWithin ROOM one.now }
    requires shown { AllByRecursion (IsShown LAST_TICK) clocks.now }
    requires last { last ≤ LAST_TICK }
    requires elapsed { passing.now.elapsed ≤ LAST_TICK }
    requires tick { now ≤ LAST_TICK }
    ensures { Some result ≡ step_of clocks.now last passing.now now event.now place (Some one.now) }
{
    let tally = tally_at(clocks, last, one).after(one.kept.task, passing, now, event);
    Step {
        place,
        tally,
        waited: next_waited(clocks, passing, &tally),
    }
}

// What the clock of a task shows behind the line.
fn next_waited(clocks: &[Clock], passing: &Passing, tally: &Tally) -> u64
    requires shown { AllByRecursion (IsShown LAST_TICK) clocks.now }
    requires elapsed { passing.now.elapsed ≤ LAST_TICK }
    ensures { result ≡ next_waited clocks.now passing.now tally.now }
{
    match clock_at(wait_level(tally), clocks) {
        None => 0,
        Some(clock) => clock.passed(passing).waited,
    }
}

/// What a step gives at its place.
pub fn write(items: &mut [Dated], step: Option<Step>, now: u64)
    ensures { items.new ≡ written step now items.old }
{
    match step {
        None => (),
        Some(step) => write_at(items, step.place, &step, now),
    }
}

#[tactic(auto, using(crate::proofs::Places::written_here, crate::proofs::Places::written_past))]
fn write_at(items: &mut [Dated], place: usize, step: &Step, now: u64)
    ensures { items.new ≡ written_at place step.now.tally step.now.waited now items.old }
{
    if place < items.len() {
        write_one(&mut items[place], step, now);
    }
}

fn write_one(one: &mut Dated, step: &Step, now: u64)
    ensures { one.new ≡ dated step.now.tally step.now.waited now one.old }
{
    one.kept.tally = step.tally;
    one.waited = step.waited;
    one.tick = now;
}
