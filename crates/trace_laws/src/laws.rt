//! The five laws, asked of one line after the other.
ghost use Rattle.std.specs.Prelude.{◌≡◌, ◌==◌, ◌||◌, not, length, List, IfOk, OnOk, OnErr};
ghost use Rattle.std.specs.Option.{option_to_list};
ghost use Rattle.ann_base.specs.Answers.{Answers};
ghost use Rattle.trace_text.specs.Queue.{TraceLine, somebody_eq};
ghost use Rattle.trace_text.specs.Laws.{Formed, KeepsLaws, is_at_most, is_base_below};
ghost use Rattle.trace_text.specs.Laws.{is_entry_below, base_of, is_below_ceiling, is_agent_right};
ghost use Rattle.trace_lines.specs.Seen.{with_line};
ghost use Rattle.trace_laws.specs.Watched.{nothing_watched, watch_line, StandsFor, levels_in};
ghost use Rattle.trace_laws.specs.Watched.{releases_in, is_dispatch_kept, are_handlers_kept};
ghost use Rattle.trace_laws.specs.Watched.{broken_by, answer_after, answer_of};

use crate::counts::Counts;
use crate::regions::Regions;
use crate::theorems::answers_tell;
use crate::{actions, counts};
use ann_base::{Level, Moment, NoMemory, OrMemory};
use std::alloc::Global;
use std::marker::Model;
use trace_lines::{Lines, is_same};
use trace_text::{Action, Entry, Event, Who};

/// A law on the lines of a trace, in the order in which they are asked.
#[derive(Clone, Copy, PartialEq, Eq)]
pub enum Law {
    /// At each tick the head of the highest nonempty ready queue runs, and nobody where all are
    /// empty (D.2.1, D.2.6).
    Dispatch,
    /// No protected object is entered above its ceiling (D.3).
    Ceiling,
    /// No write is open beside another action on its object (9.5.1).
    Exclusive,
    /// Handlers are served in the order of their releases, one at a time, and the agent is ready
    /// while one is to be served.
    Handlers,
    /// A region that is left has finalized its objects once each, in the reverse of their order
    /// (7.6.1).
    Left,
}

/// Why a line is not taken.
#[derive(Clone, Copy, PartialEq, Eq)]
pub enum LawFault {
    /// The list does not stay formed with it.
    Malformed,
    /// The list stays formed, and this is the first law that it breaks.
    Broken(Law),
}

/// What is kept of a list of lines that is formed and keeps the laws. It keeps no lines. Contracts
/// see the facts, which stand for the list.
#[derive(Drop)]
pub struct Laws {
    lines: Lines,
    actions: Vec<Action>,
    counts: Counts,
    regions: Regions,
}

impl Model for Laws {
    ghost use Rattle.trace_laws.specs.Watched.{Watched};
    ghost use Rattle.trace_laws.specs.Regions.{leavings_in};

    ghost Value = { Watched };

    ghost view = { λ laws. record {
      seen = laws.lines;
      actions = laws.actions.items;
      counts = laws.counts;
      leavings = leavings_in laws.regions;
    } };
}

fn is_same_runner(a: Option<Who>, b: Option<Who>) -> bool
    ensures { result ≡ somebody_eq a b }
{
    match (a, b) {
        (None, None) => true,
        (None, Some(_)) => false,
        (Some(_), None) => false,
        (Some(a), Some(b)) => is_same(a, b),
    }
}

fn is_at_most(level: Option<Level>, limit: Level) -> bool
    ensures { result ≡ is_at_most level limit }
{
    match level {
        None => false,
        Some(level) => level <= limit,
    }
}

// Where there is a deadline the base is looked at too.
fn is_base_below(deadline: Option<Moment>, base: Option<Level>, ceiling: Level) -> bool
    ensures { result ≡ is_base_below deadline base ceiling }
{
    match deadline {
        None => true,
        Some(_) => is_at_most(base, ceiling),
    }
}

fn is_entry_below(entry: Option<Entry>, base: Option<Level>, ceiling: Option<Level>) -> bool
    ensures { result ≡ is_entry_below entry base ceiling }
{
    match (entry, ceiling) {
        (None, _) => false,
        (Some(_), None) => false,
        (Some(entry), Some(ceiling)) => {
            entry.level <= ceiling && is_base_below(entry.deadline, base, ceiling)
        }
    }
}

// The last base priority of a subject; the agent has none.
fn base_of(lines: &Lines, who: Who) -> Option<Level>
    ensures { result ≡ base_of who lines.now.bases }
{
    match who {
        Who::Task(task) => lines.base(task),
        Who::Agent => None,
    }
}

// Before a later tick the head of the ready queue runs.
fn is_dispatch_kept(lines: &Lines, now: u64) -> bool
    ensures { result ≡ is_dispatch_kept lines.now now }
{
    now <= lines.last() || is_same_runner(lines.runner(), lines.head())
}

fn is_below_ceiling(lines: &Lines, event: &Event) -> bool
    ensures { result ≡ is_below_ceiling (levels_in lines.now) event.now }
{
    match event {
        Event::Enter { who, object, .. } => {
            let entry = lines.entry(*who);
            is_entry_below(entry, base_of(lines, *who), lines.ceiling(*object))
        }
        _ => true,
    }
}

// The agent runs only where a release is being served.
fn is_agent_serving(runner: Option<Who>, serving: Option<u32>) -> bool
    ensures { result
        ≡ (not (somebody_eq runner (Some Who.Agent)) || length (option_to_list serving) == 1) }
{
    match runner {
        Some(Who::Agent) => serving.is_some(),
        Some(Who::Task(_)) => true,
        None => true,
    }
}

// The agent is ready exactly where a release is to be served, and runs only where one is being
// served.
fn is_agent_right(lines: &Lines, counts: &Counts) -> bool
    ensures { result ≡ is_agent_right (releases_in lines.now counts.now) }
{
    let is_due = counts.served < counts.released;
    match lines.entry(Who::Agent) {
        None => !is_due && is_agent_serving(lines.runner(), counts.serving),
        Some(_) => is_due && is_agent_serving(lines.runner(), counts.serving),
    }
}

fn are_handlers_kept(lines: &Lines, counts: &Counts, now: u64, event: &Event) -> bool
    ensures { result ≡ are_handlers_kept lines.now counts.now now event.now }
{
    counts::is_in_order(counts, event) && (now <= lines.last() || is_agent_right(lines, counts))
}

impl Laws {
    /// What is kept of the empty list.
    pub fn new(alloc: Global) -> Laws
        ensures { result ≡ nothing_watched }
    {
        Laws {
            lines: Lines::new(alloc),
            actions: Vec::new(alloc),
            counts: Counts {
                released: 0,
                begun: 0,
                served: 0,
                serving: None,
            },
            regions: Regions::new(alloc),
        }
    }

    /// Takes one line more.
    ///
    /// # Errors
    ///
    /// Of a list that is formed and keeps the laws: `Malformed` exactly where it does not stay
    /// formed with this line, `Broken` exactly where it stays formed and breaks a law, with the
    /// first one in their order. An error changes nothing.
    pub fn line(&mut self, now: u64, event: &Event) -> Result<(), OrMemory<LawFault>>
        ensures answer { (lines : List TraceLine) → Formed lines → KeepsLaws lines
            → StandsFor self.old lines
            → Answers result (answer_of (with_line lines now event.now)) }
        ensures stands { (lines : List TraceLine) → StandsFor self.old lines
            → OnOk result (StandsFor self.new (with_line lines now event.now)) }
        ensures lawful { (lines : List TraceLine) → Formed lines → KeepsLaws lines
            → StandsFor self.old lines
            → OnOk result
            (Formed (with_line lines now event.now) × KeepsLaws (with_line lines now event.now)) }
        ensures unchanged { OnErr result (self.new ≡ self.old) }
    {
        answers_tell();
        self.take(now, event)
    }

    // The same, as the facts say it.
    fn take(&mut self, now: u64, event: &Event) -> Result<(), OrMemory<LawFault>>
        ensures answer { Answers result (answer_after self.old now event.now) }
        ensures added { OnOk result (self.new ≡ watch_line self.old (now, event.now)) }
        ensures unchanged { OnErr result (self.new ≡ self.old) }
    {
        if !self.lines.keeps_form(now, event) {
            return Err(OrMemory::Fault(LawFault::Malformed));
        }
        if let Some(law) = self.broken_by(now, event)? {
            return Err(OrMemory::Fault(LawFault::Broken(law)));
        }
        self.add(now, event)?;
        Ok(())
    }

    // The first law that the list breaks with this line.
    fn broken_by(&self, now: u64, event: &Event) -> Result<Option<Law>, NoMemory>
        ensures { IfOk result (λ law. law ≡ broken_by self.now now event.now) }
    {
        if !is_dispatch_kept(&self.lines, now) {
            return Ok(Some(Law::Dispatch));
        }
        if !is_below_ceiling(&self.lines, event) {
            return Ok(Some(Law::Ceiling));
        }
        if !actions::is_exclusive(self.actions.as_slice(), event) {
            return Ok(Some(Law::Exclusive));
        }
        if !are_handlers_kept(&self.lines, &self.counts, now, event) {
            return Ok(Some(Law::Handlers));
        }
        if !self.regions.is_left_rightly(event)? {
            return Ok(Some(Law::Left));
        }
        Ok(None)
    }

    // One line more.
    fn add(&mut self, now: u64, event: &Event) -> Result<(), NoMemory>
        ensures added { OnOk result (self.new ≡ watch_line self.old (now, event.now)) }
        ensures unchanged { OnErr result (self.new ≡ self.old) }
    {
        self.actions.reserve(1)?;
        self.regions.reserve()?;
        self.lines.add(now, event)?;
        actions::note(&mut self.actions, event);
        counts::note(&mut self.counts, event);
        self.regions.note(event);
        Ok(())
    }
}
