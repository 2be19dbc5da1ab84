//! The report of a list of lines, which is kept line by line.
ghost use Rattle.std.specs.Prelude.{◌≡◌, ◌↔◌, ℕ, ◌<◌, ◌≤◌, ◌+◌, ◌++◌, true, false, List, None};
ghost use Rattle.std.specs.Prelude.{Some, map, length, vec_len, vec_capacity, OnOk, OnErr};
ghost use Rattle.std.specs.List.{AllByRecursion, slice_get};
ghost use Rattle.std.specs.Ordering.{nat_cmp};
ghost use Rattle.std.specs.BTreeMap.{get};
ghost use Rattle.trace_text.specs.declared.lines.TheConstants.{LAST_TICK};
ghost use Rattle.trace_text.specs.declared.events.Who.TheVariants as subject;
ghost use Rattle.trace_text.specs.Queue.{TraceLine, last_from, somebody_eq};
ghost use Rattle.trace_text.specs.Laws.{Formed};
ghost use Rattle.trace_lines.specs.Seen.{with_line, is_formed_after, IsFault};
ghost use Rattle.run_report.specs.Accounts.{accounts_of, run_of, idle_of, runner_base};
ghost use Rattle.run_report.specs.Kept.{nothing_reported, report_line, StandsFor};
ghost use Rattle.run_report.specs.Kept.{passing_in, account_in, accounts_in};
ghost use Rattle.run_report.specs.Clocks.{newly_dated, created_number, passed, followed, told};
ghost use Rattle.run_report.specs.Clocks.{made_quiet, place_in, place_at, step_at, IsEachOnce};
ghost use Rattle.run_report.specs.Clocks.{IsFit, IsWithin, IsShown, IsKnown, IsSame, IsReady};
ghost use Rattle.run_report.specs.declared.tallies.TheConstants.{ROOM};

use crate::accounts::Account;
use crate::clocks::{Clock, add_clock, go_on, pass};
use crate::dated::{
    Dated, Step, named_by, note_place, number_in, place_at, settle, step_at, tally_at, write,
};
use crate::tallies::{Passing, ROOM, Tally, ticks_if};
use crate::theorems::accounts_tell;
use ann_base::{Level, Name, NoMemory, OrMemory, TaskNo};
use std::alloc::Global;
use std::collections::BTreeMap;
use std::marker::Model;
use trace_lines::{Lines, Malformed, is_same};
use trace_text::{Created, Event, LAST_TICK, Who};

/// The most tasks of a trace: each has a number of 32 bits, and they are counted in as many.
const MOST_TRACED_TASKS: usize = 4_294_967_295;

/// What is kept of one task.
#[derive(Drop)]
pub struct Kept {
    pub task: TaskNo,
    pub name: Name,
    pub tally: Tally,
}

/// What is kept of a formed list of lines for its report: as many facts as there are tasks and
/// protected objects, and no lines. Contracts see these facts, which stand for the list. How long a
/// task waited is told by the clocks, so that a line changes the task that it names and the one
/// that ran, and no other; only where a waiting ends each task is told once.
#[derive(Drop)]
pub struct Report {
    lines: Lines,
    items: Vec<Dated>,
    clocks: Vec<Clock>,
    // The place of each task among the items, by its number.
    places: BTreeMap<u32, usize>,
    // No figure that is counted is above this one.
    most: u64,
    agent_run: u64,
    idle: u64,
}

impl Model for Report {
    ghost use Rattle.std.specs.Prelude.{◌≤◌, map, vec_len};
    ghost use Rattle.std.specs.Ordering.{nat_cmp};
    ghost use Rattle.std.specs.BTreeMap.{get};
    ghost use Rattle.run_report.specs.declared.report.TheConstants.{MOST_TRACED_TASKS};
    ghost use Rattle.run_report.specs.Kept.{Reported};
    ghost use Rattle.run_report.specs.Clocks.{told, IsReport};

    ghost Value = { Reported };

    ghost view = { λ report. record {
      seen = report.lines;
      kept = map (told report.clocks.items report.lines.tick) report.items.items;
      agent_run = report.agent_run;
      idle = report.idle;
    } };

    ghost invariant = { λ report.
        IsReport report.lines report.most report.agent_run report.idle (vec_len report.items)
        report.items.items report.clocks.items (get nat_cmp report.places) };
}

impl Report {
    /// What is kept of the empty list.
    pub fn new(alloc: Global) -> Report
        ensures { result ≡ nothing_reported }
    {
        Report {
            lines: Lines::new(alloc),
            items: Vec::new(alloc),
            clocks: Vec::new(alloc),
            places: BTreeMap::new(alloc),
            most: 0,
            agent_run: 0,
            idle: 0,
        }
    }

    /// Takes one line more.
    ///
    /// # Errors
    ///
    /// `Malformed` exactly where the list that this stands for is formed and does not stay so with
    /// this line. A count that might pass its type, after 18,000,000,000 lines at the earliest, is
    /// answered as want of memory. An error changes nothing.
    pub fn line(&mut self, now: u64, event: &Event) -> Result<(), OrMemory<Malformed>>
        ensures malformed { (lines : List TraceLine) → Formed lines → StandsFor self.old lines
            → (IsFault result ↔ (Formed (with_line lines now event.now) → ⊥)) }
        ensures stands { (lines : List TraceLine) → StandsFor self.old lines
            → OnOk result (StandsFor self.new (with_line lines now event.now)) }
        ensures unchanged { OnErr result (self.new ≡ self.old) }
    {
        accounts_tell();
        self.take(now, event)
    }

    // The same, as the facts say it.
    fn take(&mut self, now: u64, event: &Event) -> Result<(), OrMemory<Malformed>>
        ensures fault { IsFault result ↔ (is_formed_after self.old.seen now event.now ≡ false) }
        ensures taken { OnOk result (self.new ≡ report_line self.old (now, event.now)) }
        ensures unchanged { OnErr result (self.new ≡ self.old) }
    {
        if !self.lines.keeps_form(now, event) {
            return Err(OrMemory::Fault(Malformed));
        }
        self.add(now, event)?;
        Ok(())
    }

    // One line more.
    fn add(&mut self, now: u64, event: &Event) -> Result<(), NoMemory>
        requires formed { is_formed_after self.old.seen now event.now ≡ true }
        ensures added { OnOk result (self.new ≡ report_line self.old (now, event.now)) }
        ensures unchanged { OnErr result (self.new ≡ self.old) }
    {
        if self.most > ROOM || self.items.len() >= MOST_TRACED_TASKS {
            return Err(NoMemory);
        }
        let passing = passing_in(&self.lines, now);
        let last = self.lines.last();
        prepare(
            &mut self.items,
            &mut self.clocks,
            &mut self.places,
            last,
            &passing,
            event,
        )?;
        self.lines.add(now, event)?;
        advance(
            &mut self.items,
            &mut self.clocks,
            &self.places,
            last,
            &passing,
            now,
            event,
        );
        let agent_ticks = ticks_if(is_agent(passing.runner), passing.elapsed);
        let idle_ticks = ticks_if(is_nobody(passing.runner), passing.elapsed);
        self.agent_run += agent_ticks;
        self.idle += idle_ticks;
        self.most += LAST_TICK;
        Ok(())
    }

    /// How many tasks there are.
    pub fn len(&self) -> u32
        ensures { result ≡ length self.now.kept }
    {
        self.items.len() as u32
    }

    /// The account of the task at this place, in the order of the `new` lines, counted from 0; None
    /// exactly past the last.
    pub fn account(&self, place: u32) -> Option<Account>
        ensures kept { result ≡ slice_get (accounts_in self.now) place }
        ensures account { (lines : List TraceLine) → Formed lines → StandsFor self.now lines
            → result ≡ slice_get (accounts_of lines) place }
    {
        accounts_tell();
        self.account_at(place)
    }

    #[tactic(auto, using(crate::proofs::Lines::report_fit, crate::proofs::Lines::report_tick))]
    fn account_at(&self, place: u32) -> Option<Account>
        ensures { result ≡ slice_get (accounts_in self.now) place }
    {
        told_at(&self.items, &self.clocks, self.lines.last(), place as usize)
    }

    /// The ticks in which the agent ran.
    pub fn agent_run(&self) -> u64
        ensures kept { result ≡ self.now.agent_run }
        ensures agent_run { (lines : List TraceLine) → Formed lines → StandsFor self.now lines
            → result ≡ run_of subject.Agent lines }
    {
        accounts_tell();
        self.agent_run
    }

    /// The ticks in which nobody ran.
    pub fn idle(&self) -> u64
        ensures kept { result ≡ self.now.idle }
        ensures idle { (lines : List TraceLine) → Formed lines → StandsFor self.now lines
            → result ≡ idle_of lines }
    {
        accounts_tell();
        self.idle
    }

    /// The last line's tick, 0 without lines.
    pub fn ticks(&self) -> u64
        ensures kept { result ≡ self.now.seen.tick }
        ensures ticks { (lines : List TraceLine) → StandsFor self.now lines
            → result ≡ last_from 0 lines }
    {
        accounts_tell();
        self.lines.last()
    }
}

// The account of the task at a place, at the last line.
fn told_at(items: &[Dated], clocks: &[Clock], last: u64, place: usize) -> Option<Account>
    requires fit { AllByRecursion (IsFit clocks.now last) items.now }
    requires tick { last ≤ LAST_TICK }
    ensures { result ≡ slice_get (map account_in (map (told clocks.now last) items.now)) place }
{
    match items.get(place) {
        None => None,
        Some(one) => Some(told_account(one, clocks, last)),
    }
}

fn told_account(one: &Dated, clocks: &[Clock], last: u64) -> Account
    requires fit { IsFit clocks.now last one.now }
    requires tick { last ≤ LAST_TICK }
    ensures { result ≡ account_in (told clocks.now last one.now) }
{
    account_in(&one.kept, &tally_at(clocks, last, one))
}

// The account of a task of which this is kept, with this tally.
fn account_in(kept: &Kept, tally: &Tally) -> Account
    ensures { result ≡ account_in (record kept.now { tally = tally.now }) }
{
    Account {
        task: kept.task,
        name: Name::from_bytes(kept.name.as_bytes()),
        jobs: tally.jobs,
        worst: tally.worst,
        sum: tally.sum,
        run: tally.run,
        preempted: tally.preempted,
        lower: tally.lower,
        longest: tally.longest,
    }
}

// The ticks that pass before a line.
fn passing_in(lines: &Lines, now: u64) -> Passing
    ensures passing { result ≡ passing_in lines.now now }
    ensures most { result.elapsed ≤ now }
{
    let runner = lines.runner();
    Passing {
        elapsed: now.saturating_sub(lines.last()),
        runner,
        base: runner_base(lines, runner),
    }
}

// The last base priority of who runs; the agent has none.
fn runner_base(lines: &Lines, runner: Option<Who>) -> Option<Level>
    ensures { result ≡ runner_base runner lines.now.bases }
{
    match runner? {
        Who::Task(task) => lines.base(task),
        Who::Agent => None,
    }
}

fn is_agent(runner: Option<Who>) -> bool
    ensures { result ≡ somebody_eq runner (Some subject.Agent) }
{
    match runner {
        None => false,
        Some(who) => is_same(who, Who::Agent),
    }
}

fn is_nobody(somebody: Option<Who>) -> bool
    ensures { result ≡ somebody_eq somebody None }
{
    match somebody {
        None => true,
        Some(_) => false,
    }
}

// Makes all ready for a line, so that nothing wants memory after it is taken. What is told stays
// the same.
fn prepare(
    items: &mut Vec<Dated>,
    clocks: &mut Vec<Clock>,
    places: &mut BTreeMap<u32, usize>,
    last: u64,
    passing: &Passing,
    event: &Event,
) -> Result<(), NoMemory>
    requires last { last ≤ LAST_TICK }
    requires fit { AllByRecursion (IsFit clocks.old.items last) items.old.items }
    requires known { IsKnown items.old.items (get nat_cmp places.old) }
    requires created { (number : ℕ) → created_number event.now ≡ Some number
        → place_in number items.old.items ≡ None }
    ensures same { IsSame last items.old.items clocks.old.items items.new.items clocks.new.items
        (get nat_cmp places.new) }
    ensures ready { OnOk result
        (IsReady event.now passing.now last items.new.items clocks.new.items
        (get nat_cmp places.new)) }
    ensures room { OnOk result (vec_len items.new < vec_capacity items.new) }
    ensures len { vec_len items.new ≡ vec_len items.old }
{
    items.reserve(1)?;
    add_clock(clocks, event)?;
    note_place(places, event, items.len())?;
    make_quiet(items, clocks, last, passing);
    Ok(())
}

// No waiting that is not told yet ends while these ticks pass.
fn make_quiet(items: &mut Vec<Dated>, clocks: &[Clock], last: u64, passing: &Passing)
    requires last { last ≤ LAST_TICK }
    requires fit { AllByRecursion (IsFit clocks.now last) items.old.items }
    ensures items { items.new.items ≡ made_quiet clocks.now last passing.now items.old.items }
    ensures capacity { vec_capacity items.new ≡ vec_capacity items.old }
    ensures len { vec_len items.new ≡ vec_len items.old }
{
    if !go_on(clocks, passing) {
        settle(items, clocks, last);
    }
}

// The line tells of the task that it names and of the one that ran, and the clocks go on.
fn advance(
    items: &mut Vec<Dated>,
    clocks: &mut Vec<Clock>,
    places: &BTreeMap<u32, usize>,
    last: u64,
    passing: &Passing,
    now: u64,
    event: &Event,
)
    requires last { last ≤ LAST_TICK }
    requires elapsed { passing.now.elapsed ≤ LAST_TICK }
    requires tick { now ≤ LAST_TICK }
    requires fit { AllByRecursion (IsFit clocks.old.items last) items.old.items }
    requires within { AllByRecursion (IsWithin ROOM) items.old.items }
    requires shown { AllByRecursion (IsShown LAST_TICK) clocks.old.items }
    requires once { IsEachOnce items.old.items }
    requires known { IsKnown items.old.items (get nat_cmp places.now) }
    requires room { vec_len items.old < vec_capacity items.old }
    ensures items { items.new.items
        ≡ map (followed clocks.old.items last passing.now now event.now) items.old.items
        ++ newly_dated now event.now }
    ensures clocks { clocks.new.items ≡ map (passed passing.now) clocks.old.items }
    ensures len { vec_len items.new ≤ vec_len items.old + 1 }
{
    follow(items, clocks, places, last, passing, now, event);
    pass(clocks, passing);
    create(items, now, event);
}

// The line tells of the task that it names and of the one that ran.
fn follow(
    items: &mut [Dated],
    clocks: &[Clock],
    places: &BTreeMap<u32, usize>,
    last: u64,
    passing: &Passing,
    now: u64,
    event: &Event,
)
    requires last { last ≤ LAST_TICK }
    requires elapsed { passing.now.elapsed ≤ LAST_TICK }
    requires tick { now ≤ LAST_TICK }
    requires fit { AllByRecursion (IsFit clocks.now last) items.old }
    requires within { AllByRecursion (IsWithin ROOM) items.old }
    requires shown { AllByRecursion (IsShown LAST_TICK) clocks.now }
    requires once { IsEachOnce items.old }
    requires known { IsKnown items.old (get nat_cmp places.now) }
    ensures { items.new ≡ map (followed clocks.now last passing.now now event.now) items.old }
{
    let named = step_for(
        items,
        clocks,
        places,
        last,
        passing,
        now,
        event,
        named_by(event),
    );
    let runs = number_in(passing.runner);
    let ran = step_for(items, clocks, places, last, passing, now, event, runs);
    write(items, named, now);
    write(items, ran, now);
}

// What a line leaves of the task with a number.
fn step_for(
    items: &[Dated],
    clocks: &[Clock],
    places: &BTreeMap<u32, usize>,
    last: u64,
    passing: &Passing,
    now: u64,
    event: &Event,
    number: Option<u32>,
) -> Option<Step>
    requires last { last ≤ LAST_TICK }
    requires elapsed { passing.now.elapsed ≤ LAST_TICK }
    requires tick { now ≤ LAST_TICK }
    requires fit { AllByRecursion (IsFit clocks.now last) items.now }
    requires within { AllByRecursion (IsWithin ROOM) items.now }
    requires shown { AllByRecursion (IsShown LAST_TICK) clocks.now }
    requires known { IsKnown items.now (get nat_cmp places.now) }
    ensures { result
        ≡ step_at clocks.now last passing.now now event.now (place_at number items.now) items.now }
{
    let place = place_at(items, places, number);
    step_at(items, clocks, last, passing, now, event, place)
}

// A task that is created comes behind the others. There must be room for one.
fn create(items: &mut Vec<Dated>, now: u64, event: &Event)
    requires { vec_len items.old < vec_capacity items.old }
    ensures created { items.new.items ≡ items.old.items ++ newly_dated now event.now }
    ensures len { vec_len items.new ≤ vec_len items.old + 1 }
{
    if let Event::New {
        what: Created::Task(task),
        name,
        level,
    } = event
    {
        let kept = Kept {
            task: *task,
            name: Name::from_bytes(name.as_bytes()),
            tally: Tally::created(*level),
        };
        let one = Dated {
            kept,
            tick: now,
            waited: 0,
        };
        items.push(one).unwrap();
    }
}
