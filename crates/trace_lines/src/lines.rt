//! A list of lines, of which facts are kept.
ghost use Rattle.std.specs.Prelude.{◌≡◌, ◌↔◌, true, false, ◌&&◌, List, OnOk, OnErr};
ghost use Rattle.trace_text.specs.Queue.{TraceLine, entry_of, head_of, who_of};
ghost use Rattle.trace_text.specs.Laws.{Formed, level_of, is_known};
ghost use Rattle.trace_text.specs.Laws.{is_ready_formed, is_subject_formed};
ghost use Rattle.trace_lines.specs.Seen.{nothing_kept, see_line, StandsFor, with_line, level_in};
ghost use Rattle.trace_lines.specs.Seen.{deadline_in, shape_of, is_formed_after, IsFault};

use crate::laws::facts_tell;
use crate::levels;
use crate::queue::ReadyQueue;
use ann_base::{Level, Moment, NoMemory, ObjectNo, OrMemory, TaskNo};
use std::alloc::Global;
use std::collections::BTreeMap;
use std::marker::Model;
use trace_text::{Created, Entry, Event, LAST_TICK, Who};

/// No formed list goes on with this line.
#[derive(Clone, Copy, Debug, PartialEq, Eq)]
pub struct Malformed;

/// What is kept of a formed list of lines: as many facts as there are tasks and protected objects.
/// Contracts see these facts, which stand for the list.
#[derive(Drop)]
pub struct Lines {
    tick: u64,
    is_ended: bool,
    runner: Option<Who>,
    queue: ReadyQueue,
    bases: BTreeMap<u32, Level>,
    ceilings: BTreeMap<u32, Level>,
}

impl Model for Lines {
    ghost use Rattle.trace_lines.specs.Seen.{Seen};

    ghost Value = { Seen };

    ghost view = { λ lines. record {
      tick = lines.tick;
      is_ended = lines.is_ended;
      runner = lines.runner;
      queue = lines.queue;
      bases = lines.bases.entries;
      ceilings = lines.ceilings.entries;
    } };
}

// A `ready` line of the agent has no deadline.
fn is_ready_formed(who: Who, deadline: Option<Moment>) -> bool
    ensures { result ≡ is_ready_formed who deadline }
{
    match (who, deadline) {
        (Who::Task(_), _) => true,
        (Who::Agent, None) => true,
        (Who::Agent, Some(_)) => false,
    }
}

impl Lines {
    /// What is kept of the empty list.
    pub fn new(alloc: Global) -> Lines
        ensures { result ≡ nothing_kept }
    {
        Lines {
            tick: 0,
            is_ended: false,
            runner: None,
            queue: ReadyQueue::new(alloc),
            bases: BTreeMap::new(alloc),
            ceilings: BTreeMap::new(alloc),
        }
    }

    /// Takes one line more.
    ///
    /// # Errors
    ///
    /// `Malformed` exactly where the list that this stands for is formed and does not stay so with
    /// this line. An error changes nothing.
    pub fn take(&mut self, now: u64, event: &Event) -> Result<(), OrMemory<Malformed>>
        ensures malformed { (lines : List TraceLine) → Formed lines → StandsFor self.old lines
            → (IsFault result ↔ (Formed (with_line lines now event.now) → ⊥)) }
        ensures stands { (lines : List TraceLine) → StandsFor self.old lines
            → OnOk result (StandsFor self.new (with_line lines now event.now)) }
        ensures fault { IsFault result ↔ (is_formed_after self.old now event.now ≡ false) }
        ensures taken { OnOk result (self.new ≡ see_line self.old (now, event.now)) }
        ensures unchanged { OnErr result (self.new ≡ self.old) }
    {
        facts_tell();
        if !self.keeps_form(now, event) {
            return Err(OrMemory::Fault(Malformed));
        }
        self.add(now, event)?;
        Ok(())
    }

    /// Whether the list, which is formed, stays formed with this line.
    pub fn keeps_form(&self, now: u64, event: &Event) -> bool
        ensures { result ≡ is_formed_after self.now now event.now }
    {
        self.tick <= now && now <= LAST_TICK && !self.is_ended && self.is_subject_formed(event)
    }

    // Whether what a line names was created before, and what it creates was not.
    fn is_subject_formed(&self, event: &Event) -> bool
        ensures { result ≡ is_subject_formed (shape_of self.now) event.now }
    {
        match event {
            Event::New {
                what: Created::Task(task),
                ..
            } => !levels::has(&self.bases, task.0),
            Event::New {
                what: Created::Object(object),
                ..
            } => !levels::has(&self.ceilings, object.0),
            Event::Ready { who, deadline, .. } => {
                self.is_known(*who) && is_ready_formed(*who, *deadline)
            }
            Event::Enter { who, object, .. } => {
                self.is_known(*who)
                    && levels::has(&self.ceilings, object.0)
                    && self.queue.entry(*who).is_some()
            }
            Event::Exit { who, object } | Event::Held { who, object, .. } => {
                self.is_known(*who) && levels::has(&self.ceilings, object.0)
            }
            Event::Block { who, .. }
            | Event::Run { who }
            | Event::Raise { who, .. }
            | Event::Put { who, .. }
            | Event::Start { who, .. }
            | Event::Finish { who, .. }
            | Event::Leave { who, .. }
            | Event::Init { who, .. }
            | Event::Final { who, .. }
            | Event::Left { who, .. }
            | Event::Replace { who, .. } => self.is_known(*who),
            Event::Base { task, .. }
            | Event::Deadline { task, .. }
            | Event::Quantum { task }
            | Event::Done { task }
            | Event::Call { task, .. }
            | Event::Cancel { task, .. }
            | Event::Gone { task, .. }
            | Event::Abort { task, .. }
            | Event::Trigger { task } => levels::has(&self.bases, task.0),
            Event::Idle
            | Event::Release { .. }
            | Event::Serve { .. }
            | Event::Served { .. }
            | Event::Interrupt { .. }
            | Event::Port { .. }
            | Event::Mask { .. }
            | Event::Unmask { .. }
            | Event::Masked { .. }
            | Event::End { .. } => true,
        }
    }

    // The agent is there, and a task from its `new` line on.
    fn is_known(&self, who: Who) -> bool
        ensures { result ≡ is_known (shape_of self.now) who }
    {
        match who {
            Who::Task(task) => levels::has(&self.bases, task.0),
            Who::Agent => true,
        }
    }

    /// Adds a line with which the list stays formed.
    pub fn add(&mut self, now: u64, event: &Event) -> Result<(), NoMemory>
        ensures added { OnOk result (self.new ≡ see_line self.old (now, event.now)) }
        ensures unchanged { OnErr result (self.new ≡ self.old) }
    {
        self.keep(event)?;
        self.tick = now;
        Ok(())
    }

    // What a line at the last tick changes.
    fn keep(&mut self, event: &Event) -> Result<(), NoMemory>
        ensures kept { OnOk result (self.new ≡ see_line self.old (self.old.tick, event.now)) }
        ensures unchanged { OnErr result (self.new ≡ self.old) }
    {
        match event {
            Event::New {
                what: Created::Task(task),
                level,
                ..
            } => levels::set(&mut self.bases, task.0, *level),
            Event::New {
                what: Created::Object(object),
                level,
                ..
            } => levels::set(&mut self.ceilings, object.0, *level),
            Event::Base { task, level } => levels::set(&mut self.bases, task.0, *level),
            Event::Ready {
                who,
                level,
                end,
                deadline,
            } => {
                let entry = Entry {
                    who: *who,
                    level: *level,
                    deadline: *deadline,
                };
                self.queue.place(*end, entry)
            }
            Event::Block { who, .. } => {
                self.queue.remove(*who);
                Ok(())
            }
            Event::Done { task } => {
                self.queue.remove(Who::Task(*task));
                Ok(())
            }
            Event::Run { who } => {
                self.runner = Some(*who);
                Ok(())
            }
            Event::Idle => {
                self.runner = None;
                Ok(())
            }
            Event::End { .. } => {
                self.is_ended = true;
                Ok(())
            }
            Event::Deadline { .. }
            | Event::Quantum { .. }
            | Event::Raise { .. }
            | Event::Put { .. }
            | Event::Call { .. }
            | Event::Start { .. }
            | Event::Finish { .. }
            | Event::Cancel { .. }
            | Event::Gone { .. }
            | Event::Enter { .. }
            | Event::Exit { .. }
            | Event::Held { .. }
            | Event::Abort { .. }
            | Event::Trigger { .. }
            | Event::Leave { .. }
            | Event::Init { .. }
            | Event::Final { .. }
            | Event::Left { .. }
            | Event::Replace { .. }
            | Event::Release { .. }
            | Event::Serve { .. }
            | Event::Served { .. }
            | Event::Interrupt { .. }
            | Event::Port { .. }
            | Event::Mask { .. }
            | Event::Unmask { .. }
            | Event::Masked { .. } => Ok(()),
        }
    }

    /// The subject of the last `run` line, and nobody after an `idle` line.
    pub fn runner(&self) -> Option<Who>
        ensures { result ≡ self.now.runner }
    {
        self.runner
    }

    /// Who stands first in the ready queue: of the highest level, then of the earliest deadline,
    /// then of the smallest place.
    pub fn head(&self) -> Option<Who>
        ensures { result ≡ who_of (head_of self.now.queue) }
    {
        match self.queue.head() {
            None => None,
            Some(entry) => Some(entry.who),
        }
    }

    /// The entry of a subject in the ready queue.
    pub fn entry(&self, who: Who) -> Option<Entry>
        ensures { result ≡ entry_of who self.now.queue }
    {
        self.queue.entry(who)
    }

    /// The level at which a subject is in the ready queue.
    pub fn level(&self, who: Who) -> Option<Level>
        ensures { result ≡ level_in (entry_of who self.now.queue) }
    {
        let entry = self.queue.entry(who)?;
        Some(entry.level)
    }

    /// The deadline with which a subject is in the ready queue, where it has one.
    pub fn deadline(&self, who: Who) -> Option<Moment>
        ensures { result ≡ deadline_in (entry_of who self.now.queue) }
    {
        let entry = self.queue.entry(who)?;
        entry.deadline
    }

    /// The last base priority of a task that has a `new` line.
    pub fn base(&self, task: TaskNo) -> Option<Level>
        ensures { result ≡ level_of task.0 self.now.bases }
    {
        levels::at(&self.bases, task.0)
    }

    /// The ceiling of a protected object that has a `new` line.
    pub fn ceiling(&self, object: ObjectNo) -> Option<Level>
        ensures { result ≡ level_of object.0 self.now.ceilings }
    {
        levels::at(&self.ceilings, object.0)
    }

    /// The last line's tick, 0 without lines.
    pub fn last(&self) -> u64
        ensures { result ≡ self.now.tick }
    {
        self.tick
    }
}
