//! The tally of a task, line by line.
ghost use Rattle.std.specs.Prelude.{◌≡◌, ◌≤◌, ◌&&◌, not, true, is_some, Some, unwrap_or};
ghost use Rattle.trace_text.specs.declared.lines.TheConstants.{LAST_TICK};
ghost use Rattle.trace_text.specs.declared.events.Who.TheVariants as subject;
ghost use Rattle.trace_text.specs.Queue.{somebody_eq};
ghost use Rattle.run_report.specs.Accounts.{is_lower, is_tick, chooses_another};
ghost use Rattle.run_report.specs.Kept.{fresh, ticks_if, is_waiting, streak_after, move_of};
ghost use Rattle.run_report.specs.Kept.{since_after, tail_at, response_at, leaves_if, level_if};
ghost use Rattle.run_report.specs.Kept.{is_put_off, base_after, tally_after, has_room};

use ann_base::{Level, TaskNo};
use trace_lines::is_same;
use trace_text::{Created, Event, LAST_TICK, QueueEnd, Who};

/// What is kept of one task: the figures of its account, and what they go on with.
#[derive(Clone, Copy)]
pub struct Tally {
    pub jobs: u64,
    pub worst: u64,
    pub sum: u64,
    pub run: u64,
    pub preempted: u64,
    pub lower: u64,
    pub longest: u64,
    /// Its last base priority, once it has one.
    pub base: Option<Level>,
    /// Since which tick it is in the ready queue, if it is.
    pub since: Option<u64>,
    /// At which tick it was last placed behind all of its level.
    pub tail: Option<u64>,
    /// For how many ticks directly before the last line it waited for a task of lower base
    /// priority.
    pub streak: u64,
}

/// The ticks that pass between two lines: how many, who runs, and with which base priority, where
/// it is a task.
#[derive(Clone, Copy)]
pub struct Passing {
    pub elapsed: u64,
    pub runner: Option<Who>,
    pub base: Option<Level>,
}

/// Whether a line places a task in the ready queue or takes it out.
#[derive(Clone, Copy)]
pub enum Move {
    Enters(QueueEnd),
    Leaves,
    Stays,
}

/// The most that a figure may be for a line more: the ticks of a trace may be added, and no sum
/// passes 64 bits.
pub const ROOM: u64 = u64::MAX - LAST_TICK;

impl Tally {
    /// Of a task that is created with this base priority.
    pub fn created(level: Level) -> Tally
        ensures { result ≡ record fresh { base = Some level } }
    {
        Tally {
            jobs: 0,
            worst: 0,
            sum: 0,
            run: 0,
            preempted: 0,
            lower: 0,
            longest: 0,
            base: Some(level),
            since: None,
            tail: None,
            streak: 0,
        }
    }

    /// Whether no figure passes 64 bits with one line more.
    pub fn has_room(&self) -> bool
        ensures { result ≡ has_room self.now }
    {
        self.jobs <= ROOM
            && self.sum <= ROOM
            && self.run <= ROOM
            && self.preempted <= ROOM
            && self.lower <= ROOM
            && self.streak <= ROOM
    }

    /// The tally of a task with one line more.
    pub fn after(&self, task: TaskNo, passing: &Passing, now: u64, event: &Event) -> Tally
        requires room { has_room self.now ≡ true }
        requires elapsed { passing.now.elapsed ≤ LAST_TICK }
        requires tick { now ≤ LAST_TICK }
        ensures { result ≡ tally_after task passing.now now event.now self.now }
    {
        let step = move_of(task, event);
        let response = response_at(step, now, self.since);
        let waits = self.is_waiting(passing);
        let runs = is_task(passing.runner, task);
        let streak = streak_after(passing.elapsed, waits, self.streak);
        Tally {
            jobs: self.jobs + ticks_if(response.is_some(), 1),
            worst: self.worst.max(response.unwrap_or(0)),
            sum: self.sum + response.unwrap_or(0),
            run: self.run + ticks_if(runs, passing.elapsed),
            preempted: self.preempted + ticks_if(self.is_put_off(task, runs, now, event), 1),
            lower: self.lower + ticks_if(waits, passing.elapsed),
            longest: self.longest.max(streak),
            base: base_after(task, self.base, event),
            since: since_after(step, now, self.since),
            tail: tail_at(step, now, self.tail),
            streak,
        }
    }

    // Whether it is ready while a task of lower base priority runs.
    fn is_waiting(&self, passing: &Passing) -> bool
        ensures { result ≡ is_waiting passing.now self.now }
    {
        self.since.is_some() && is_lower(passing.base, self.base)
    }

    // Whether another subject is chosen, and the task runs, is ready, and was not placed behind all
    // of its level.
    fn is_put_off(&self, task: TaskNo, runs: bool, now: u64, event: &Event) -> bool
        ensures { result
            ≡ chooses_another task event.now && runs && is_some self.now.since
            && not (is_tick now self.now.tail) }
    {
        chooses_another(task, event) && runs && self.since.is_some() && !is_tick(now, self.tail)
    }
}

/// Whether somebody is this task.
fn is_task(somebody: Option<Who>, task: TaskNo) -> bool
    ensures { result ≡ somebody_eq somebody (Some (subject.Task task)) }
{
    match somebody {
        None => false,
        Some(who) => is_same(who, Who::Task(task)),
    }
}

/// Whether a base priority is lower than another.
pub fn is_lower(other: Option<Level>, own: Option<Level>) -> bool
    ensures { result ≡ is_lower other own }
{
    match (other, own) {
        (None, _) => false,
        (Some(_), None) => false,
        (Some(other), Some(own)) => other < own,
    }
}

fn is_tick(now: u64, tail: Option<u64>) -> bool
    ensures { result ≡ is_tick now tail }
{
    match tail {
        None => false,
        Some(other) => now == other,
    }
}

fn chooses_another(task: TaskNo, event: &Event) -> bool
    ensures { result ≡ chooses_another task event.now }
{
    match event {
        Event::Run { who } => !is_same(*who, Who::Task(task)),
        _ => false,
    }
}

/// These ticks, where it is so.
pub fn ticks_if(holds: bool, ticks: u64) -> u64
    ensures ticks { result ≡ ticks_if holds ticks }
    ensures most { result ≤ ticks }
{
    if holds { ticks } else { 0 }
}

/// For how many ticks directly before the line it waits.
pub fn streak_after(elapsed: u64, waits: bool, streak: u64) -> u64
    requires room { streak ≤ ROOM }
    requires within { elapsed ≤ LAST_TICK }
    ensures { result ≡ streak_after elapsed waits streak }
{
    if elapsed == 0 {
        streak
    } else if waits {
        streak + elapsed
    } else {
        0
    }
}

// Whether the line places the task in the ready queue or takes it out.
fn move_of(task: TaskNo, event: &Event) -> Move
    ensures { result ≡ move_of task event.now }
{
    match event {
        Event::Ready { who, end, .. } => {
            if is_same(*who, Who::Task(task)) {
                Move::Enters(*end)
            } else {
                Move::Stays
            }
        }
        Event::Block { who, .. } => leaves_if(is_same(*who, Who::Task(task))),
        Event::Done { task: other } => leaves_if(other.0 == task.0),
        _ => Move::Stays,
    }
}

fn leaves_if(holds: bool) -> Move
    ensures { result ≡ leaves_if holds }
{
    if holds { Move::Leaves } else { Move::Stays }
}

fn since_after(step: Move, now: u64, since: Option<u64>) -> Option<u64>
    ensures { result ≡ since_after step now since }
{
    match step {
        Move::Enters(_) => Some(since.unwrap_or(now)),
        Move::Leaves => None,
        Move::Stays => since,
    }
}

fn tail_at(step: Move, now: u64, tail: Option<u64>) -> Option<u64>
    ensures { result ≡ tail_at step now tail }
{
    match step {
        Move::Enters(QueueEnd::Tail) => Some(now),
        Move::Enters(QueueEnd::Head) => tail,
        Move::Leaves => tail,
        Move::Stays => tail,
    }
}

// The response of the job that ends, if one does.
fn response_at(step: Move, now: u64, since: Option<u64>) -> Option<u64>
    ensures response { result ≡ response_at step now since }
    ensures most { unwrap_or result 0 ≤ now }
{
    match (step, since) {
        (Move::Leaves, Some(since)) => Some(now.saturating_sub(since)),
        (Move::Leaves, None) => None,
        (Move::Enters(_), _) => None,
        (Move::Stays, _) => None,
    }
}

fn base_after(task: TaskNo, base: Option<Level>, event: &Event) -> Option<Level>
    ensures { result ≡ base_after task base event.now }
{
    match event {
        Event::New {
            what: Created::Task(other),
            level,
            ..
        } => level_if(task.0 == other.0, *level, base),
        Event::Base { task: other, level } => level_if(task.0 == other.0, *level, base),
        _ => base,
    }
}

fn level_if(holds: bool, level: Level, base: Option<Level>) -> Option<Level>
    ensures { result ≡ level_if holds level base }
{
    if holds { Some(level) } else { base }
}
