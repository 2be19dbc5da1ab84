//! What one line of a trace says, with its names and texts lent by whoever holds them. It is small,
//! where an `Event` has room for a name.
ghost use Rattle.std.specs.Prelude.{◌≡◌, ◌≤◌, ◌+◌, ◌++◌, length};
ghost use Rattle.ann_base.specs.declared.names.TheConstants.{NAME_BYTES};
ghost use Rattle.trace_text.specs.Lent.{entry_lent, finished_lent, ended_lent, event_lent};

use crate::events::{
    Created, Ended, EntryName, Event, Finished, Leaves, Mode, QueueEnd, Waits, Who,
};
use ann_base::{CallNo, Level, Moment, Name, ObjectNo, RegionNo, TaskNo};
use std::marker::Model;

/// A name of at most `NAME_BYTES` bytes, which is lent. Contracts see the list of its bytes.
#[derive(Drop)]
pub struct NameRef<'a> {
    bytes: &'a [u8],
}

impl<'a> Model for NameRef<'a> {
    ghost use Rattle.std.specs.Prelude.{List, ℕ, ◌≤◌, length};
    ghost use Rattle.ann_base.specs.declared.names.TheConstants.{NAME_BYTES};

    ghost Value = { List ℕ };

    ghost view = { λ name. name.bytes.now };

    ghost invariant = { λ name. length name.bytes.now ≤ NAME_BYTES };
}

impl<'a> NameRef<'a> {
    /// The name with these bytes.
    pub fn new(bytes: &'a [u8]) -> NameRef<'a>
        requires { length bytes.now ≤ NAME_BYTES }
        ensures { result ≡ bytes.now }
    {
        NameRef { bytes }
    }

    /// A name that somebody holds.
    pub fn of(name: &'a Name) -> NameRef<'a>
        ensures { result ≡ name.now }
    {
        NameRef {
            bytes: name.as_bytes(),
        }
    }

    /// The bytes of the name.
    pub fn as_bytes(&self) -> &'a [u8]
        ensures bytes { result.now ≡ self.now }
        ensures short { length self.now ≤ NAME_BYTES }
    {
        self.bytes
    }
}

/// A text of at most `NAME_BYTES` bytes, which is lent in two parts, for it may lie in a ring.
/// Contracts see the list of its bytes.
#[derive(Drop)]
pub struct TextRef<'a> {
    front: &'a [u8],
    rest: &'a [u8],
}

impl<'a> Model for TextRef<'a> {
    ghost use Rattle.std.specs.Prelude.{List, ℕ, ◌≤◌, ◌++◌, length};
    ghost use Rattle.ann_base.specs.declared.names.TheConstants.{NAME_BYTES};

    ghost Value = { List ℕ };

    ghost view = { λ text. text.front.now ++ text.rest.now };

    ghost invariant = { λ text. length (text.front.now ++ text.rest.now) ≤ NAME_BYTES };
}

impl<'a> TextRef<'a> {
    /// The text with these bytes, and behind them those.
    pub fn new(front: &'a [u8], rest: &'a [u8]) -> TextRef<'a>
        requires { length (front.now ++ rest.now) ≤ NAME_BYTES }
        ensures { result ≡ front.now ++ rest.now }
    {
        TextRef { front, rest }
    }

    /// A text that somebody holds.
    pub fn of(text: &'a Name) -> TextRef<'a>
        ensures { result ≡ text.now }
    {
        TextRef {
            front: text.as_bytes(),
            rest: b"",
        }
    }

    /// The bytes of the text, in its two parts.
    pub fn parts(&self) -> (&'a [u8], &'a [u8])
        ensures bytes { result.0.now ++ result.1.now ≡ self.now }
        ensures short { length result.0.now + length result.1.now ≤ NAME_BYTES }
    {
        (self.front, self.rest)
    }
}

/// An entry of a task or of a protected object, with its simple name, which is lent.
#[derive(Drop)]
pub enum EntryNameRef<'a> {
    /// `tN.NAME`.
    OfTask(TaskNo, NameRef<'a>),
    /// `pN.NAME`.
    OfObject(ObjectNo, NameRef<'a>),
}

/// How a call ends, with the name of an exception lent.
#[derive(Drop)]
pub enum FinishedRef<'a> {
    /// Normally.
    Ok,
    /// By the exception of this name.
    Raised(NameRef<'a>),
    /// It is sent on to another entry (9.5.4).
    Requeue,
}

/// Why a run ends, with the name of an exception lent.
#[derive(Drop)]
pub enum EndedRef<'a> {
    /// The environment task has terminated.
    Completed,
    /// The environment task was ended by the exception of this name.
    Exception(NameRef<'a>),
    /// Nobody is ready and nothing is ahead.
    Stuck,
    /// The bound is reached.
    Bound,
}

/// What a line says, behind its tick, with its names and its text lent: as an `Event` with the same
/// variant says it.
#[derive(Drop)]
pub enum EventRef<'a> {
    New {
        what: Created,
        name: NameRef<'a>,
        level: Level,
    },
    Ready {
        who: Who,
        level: Level,
        end: QueueEnd,
        deadline: Option<Moment>,
    },
    Block {
        who: Who,
        waits: Waits,
    },
    Run {
        who: Who,
    },
    Idle,
    Base {
        task: TaskNo,
        level: Level,
    },
    Deadline {
        task: TaskNo,
        deadline: Moment,
    },
    Quantum {
        task: TaskNo,
    },
    Done {
        task: TaskNo,
    },
    Raise {
        who: Who,
        exception: NameRef<'a>,
    },
    Put {
        who: Who,
        text: TextRef<'a>,
    },
    Call {
        task: TaskNo,
        call: CallNo,
        entry: EntryNameRef<'a>,
        priority: Level,
    },
    Start {
        who: Who,
        call: CallNo,
    },
    Finish {
        who: Who,
        call: CallNo,
        how: FinishedRef<'a>,
    },
    Cancel {
        task: TaskNo,
        call: CallNo,
    },
    Gone {
        task: TaskNo,
        call: CallNo,
    },
    Enter {
        who: Who,
        object: ObjectNo,
        mode: Mode,
    },
    Exit {
        who: Who,
        object: ObjectNo,
    },
    Held {
        who: Who,
        object: ObjectNo,
        mode: Mode,
    },
    Abort {
        task: TaskNo,
        victim: TaskNo,
    },
    Trigger {
        task: TaskNo,
    },
    Leave {
        who: Who,
        region: RegionNo,
        how: Leaves,
    },
    Init {
        who: Who,
        object: u32,
        region: RegionNo,
        name: NameRef<'a>,
    },
    Final {
        who: Who,
        object: u32,
    },
    Left {
        who: Who,
        region: RegionNo,
    },
    Replace {
        who: Who,
        object: u32,
    },
    Release {
        release: u32,
        object: ObjectNo,
        handler: NameRef<'a>,
    },
    Serve {
        release: u32,
    },
    Served {
        release: u32,
    },
    Interrupt {
        number: u8,
    },
    Port {
        number: u8,
        value: i32,
    },
    Mask {
        number: u8,
    },
    Unmask {
        number: u8,
    },
    Masked {
        number: u8,
    },
    End {
        why: EndedRef<'a>,
    },
}

impl EntryName {
    /// The entry, with its name lent.
    pub fn lend(&self) -> EntryNameRef<'_>
        ensures { entry_lent result ≡ self.now }
    {
        match self {
            EntryName::OfTask(task, name) => EntryNameRef::OfTask(*task, NameRef::of(name)),
            EntryName::OfObject(object, name) => {
                EntryNameRef::OfObject(*object, NameRef::of(name))
            }
        }
    }
}

impl Finished {
    /// The same, with the name lent.
    pub fn lend(&self) -> FinishedRef<'_>
        ensures { finished_lent result ≡ self.now }
    {
        match self {
            Finished::Ok => FinishedRef::Ok,
            Finished::Raised(name) => FinishedRef::Raised(NameRef::of(name)),
            Finished::Requeue => FinishedRef::Requeue,
        }
    }
}

impl Ended {
    /// The same, with the name lent.
    pub fn lend(&self) -> EndedRef<'_>
        ensures { ended_lent result ≡ self.now }
    {
        match self {
            Ended::Completed => EndedRef::Completed,
            Ended::Exception(name) => EndedRef::Exception(NameRef::of(name)),
            Ended::Stuck => EndedRef::Stuck,
            Ended::Bound => EndedRef::Bound,
        }
    }
}

impl Event {
    /// What the line says, with its names and its text lent.
    pub fn lend(&self) -> EventRef<'_>
        ensures { event_lent result ≡ self.now }
    {
        match self {
            Event::New { what, name, level } => EventRef::New {
                what: *what,
                name: NameRef::of(name),
                level: *level,
            },
            Event::Ready {
                who,
                level,
                end,
                deadline,
            } => EventRef::Ready {
                who: *who,
                level: *level,
                end: *end,
                deadline: *deadline,
            },
            Event::Block { who, waits } => EventRef::Block {
                who: *who,
                waits: *waits,
            },
            Event::Run { who } => EventRef::Run { who: *who },
            Event::Idle => EventRef::Idle,
            Event::Base { task, level } => EventRef::Base {
                task: *task,
                level: *level,
            },
            Event::Deadline { task, deadline } => EventRef::Deadline {
                task: *task,
                deadline: *deadline,
            },
            Event::Quantum { task } => EventRef::Quantum { task: *task },
            Event::Done { task } => EventRef::Done { task: *task },
            Event::Raise { who, exception } => EventRef::Raise {
                who: *who,
                exception: NameRef::of(exception),
            },
            Event::Put { who, text } => EventRef::Put {
                who: *who,
                text: TextRef::of(text),
            },
            Event::Call {
                task,
                call,
                entry,
                priority,
            } => EventRef::Call {
                task: *task,
                call: *call,
                entry: entry.lend(),
                priority: *priority,
            },
            Event::Start { who, call } => EventRef::Start {
                who: *who,
                call: *call,
            },
            Event::Finish { who, call, how } => EventRef::Finish {
                who: *who,
                call: *call,
                how: how.lend(),
            },
            Event::Cancel { task, call } => EventRef::Cancel {
                task: *task,
                call: *call,
            },
            Event::Gone { task, call } => EventRef::Gone {
                task: *task,
                call: *call,
            },
            Event::Enter { who, object, mode } => EventRef::Enter {
                who: *who,
                object: *object,
                mode: *mode,
            },
            Event::Exit { who, object } => EventRef::Exit {
                who: *who,
                object: *object,
            },
            Event::Held { who, object, mode } => EventRef::Held {
                who: *who,
                object: *object,
                mode: *mode,
            },
            Event::Abort { task, victim } => EventRef::Abort {
                task: *task,
                victim: *victim,
            },
            Event::Trigger { task } => EventRef::Trigger { task: *task },
            Event::Leave { who, region, how } => EventRef::Leave {
                who: *who,
                region: *region,
                how: *how,
            },
            Event::Init {
                who,
                object,
                region,
                name,
            } => EventRef::Init {
                who: *who,
                object: *object,
                region: *region,
                name: NameRef::of(name),
            },
            Event::Final { who, object } => EventRef::Final {
                who: *who,
                object: *object,
            },
            Event::Left { who, region } => EventRef::Left {
                who: *who,
                region: *region,
            },
            Event::Replace { who, object } => EventRef::Replace {
                who: *who,
                object: *object,
            },
            Event::Release {
                release,
                object,
                handler,
            } => EventRef::Release {
                release: *release,
                object: *object,
                handler: NameRef::of(handler),
            },
            Event::Serve { release } => EventRef::Serve { release: *release },
            Event::Served { release } => EventRef::Served { release: *release },
            Event::Interrupt { number } => EventRef::Interrupt { number: *number },
            Event::Port { number, value } => EventRef::Port {
                number: *number,
                value: *value,
            },
            Event::Mask { number } => EventRef::Mask { number: *number },
            Event::Unmask { number } => EventRef::Unmask { number: *number },
            Event::Masked { number } => EventRef::Masked { number: *number },
            Event::End { why } => EventRef::End { why: why.lend() },
        }
    }
}
