//! What one line of a trace says.
use ann_base::{CallNo, Level, Moment, Name, ObjectNo, RegionNo, TaskNo};

/// The subject of a line: a task, or the agent that runs handlers.
#[derive(Clone, Copy, PartialEq, Eq)]
pub enum Who {
    /// A task, `tN`.
    Task(TaskNo),
    /// The agent, `agent`.
    Agent,
}

/// What is created by a `new` line.
#[derive(Clone, Copy)]
pub enum Created {
    /// A task, `tN`.
    Task(TaskNo),
    /// A protected object, `pN`.
    Object(ObjectNo),
}

/// The end of a ready queue at which a task is placed (D.2.1).
#[derive(Clone, Copy)]
pub enum QueueEnd {
    /// Before all of its level.
    Head,
    /// Behind all of its level.
    Tail,
}

/// Why a task leaves the ready queues.
#[derive(Clone, Copy)]
pub enum Waits {
    /// For the tasks that it activates (9.2).
    Activation,
    /// For a moment (9.6).
    Delay,
    /// For its entry call (9.5.3).
    Entry,
    /// For a call of an entry that it accepts (9.5.2).
    Accept,
    /// For a call of an open alternative (9.7.1).
    Select,
    /// For the tasks that depend on a master that it leaves (9.3).
    Dependents,
    /// For the end of a call whose cancellation was attempted (9.8).
    Call,
    /// For the next handler; the agent alone.
    Release,
}

/// Whether a protected action reads or writes (9.5.1).
#[derive(Clone, Copy)]
pub enum Mode {
    /// A call of a protected function.
    Read,
    /// A call of a protected procedure or entry.
    Write,
}

/// What the last `ready` line of a subject says, while the subject is in a ready queue.
#[derive(Clone, Copy)]
pub struct Entry {
    /// The subject.
    pub who: Who,
    /// The level at which it is placed.
    pub level: Level,
    /// Its deadline on an EDF level (D.2.6).
    pub deadline: Option<Moment>,
}

/// A protected action that is open: it was entered and not left.
#[derive(Clone, Copy)]
pub struct Action {
    /// The number of the protected object.
    pub object: u32,
    /// The subject.
    pub who: Who,
    /// Whether it reads or writes.
    pub mode: Mode,
}

/// How a kept scope is left (7.6.1).
#[derive(Clone, Copy)]
pub enum Leaves {
    /// Its statements ended.
    End,
    /// By a return.
    Return,
    /// By an exit.
    Exit,
    /// By an exception.
    Exception,
    /// By an abort.
    Abort,
    /// By a terminate alternative.
    Terminate,
}

/// An entry of a task or of a protected object, with its simple name.
#[derive(Drop)]
pub enum EntryName {
    /// `tN.NAME`.
    OfTask(TaskNo, Name),
    /// `pN.NAME`.
    OfObject(ObjectNo, Name),
}

/// How a call ends.
#[derive(Drop)]
pub enum Finished {
    /// Normally.
    Ok,
    /// By the exception of this name.
    Raised(Name),
    /// It is sent on to another entry (9.5.4).
    Requeue,
}

/// Why a run ends.
#[derive(Drop)]
pub enum Ended {
    /// The environment task has terminated.
    Completed,
    /// The environment task was ended by the exception of this name.
    Exception(Name),
    /// Nobody is ready and nothing is ahead.
    Stuck,
    /// The bound is reached.
    Bound,
}

/// What a line says, behind its tick. The documentation of each variant gives the line, where N is
/// a number.
#[derive(Drop)]
pub enum Event {
    /// `tN new NAME BASE` or `pN new NAME CEILING`: created; the name is the expanded one.
    New {
        what: Created,
        name: Name,
        level: Level,
    },
    /// `SUBJECT ready LEVEL head` or `tail`, on an EDF level then the deadline: placed on a ready
    /// queue.
    Ready {
        who: Who,
        level: Level,
        end: QueueEnd,
        deadline: Option<Moment>,
    },
    /// `SUBJECT block WHY`: out of the ready queues.
    Block {
        who: Who,
        waits: Waits,
    },
    /// `SUBJECT run`: chosen, and not chosen at the tick before.
    Run {
        who: Who,
    },
    /// `idle`: nobody chosen, and somebody chosen at the tick before.
    Idle,
    /// `tN base LEVEL`: the base priority is set.
    Base {
        task: TaskNo,
        level: Level,
    },
    /// `tN deadline MOMENT`: the deadline is set.
    Deadline {
        task: TaskNo,
        deadline: Moment,
    },
    /// `tN quantum`: the quantum is spent.
    Quantum {
        task: TaskNo,
    },
    /// `tN done`: terminated.
    Done {
        task: TaskNo,
    },
    /// `SUBJECT raise NAME`: an exception is raised, or raised again.
    Raise {
        who: Who,
        exception: Name,
    },
    /// `SUBJECT put TEXT`: Put_Line.
    Put {
        who: Who,
        text: Name,
    },
    /// `tN call C ENTRY PRIORITY`: a call is made.
    Call {
        task: TaskNo,
        call: CallNo,
        entry: EntryName,
        priority: Level,
    },
    /// `SUBJECT start C`: its rendezvous or entry body begins.
    Start {
        who: Who,
        call: CallNo,
    },
    /// `SUBJECT finish C HOW`: it ends.
    Finish {
        who: Who,
        call: CallNo,
        how: Finished,
    },
    /// `tN cancel C`: the call is cancelled.
    Cancel {
        task: TaskNo,
        call: CallNo,
    },
    /// `tN gone C`: Tasking_Error, for the callee is not callable, or was aborted in the
    /// rendezvous.
    Gone {
        task: TaskNo,
        call: CallNo,
    },
    /// `SUBJECT enter pN read` or `write`: a protected action begins.
    Enter {
        who: Who,
        object: ObjectNo,
        mode: Mode,
    },
    /// `SUBJECT exit pN`: it ends.
    Exit {
        who: Who,
        object: ObjectNo,
    },
    /// `SUBJECT held pN read` or `write`: the object was found held.
    Held {
        who: Who,
        object: ObjectNo,
        mode: Mode,
    },
    /// `tN abort tM`: tM is newly abnormal.
    Abort {
        task: TaskNo,
        victim: TaskNo,
    },
    /// `tN trigger`: a trigger completed while its abortable part was open.
    Trigger {
        task: TaskNo,
    },
    /// `SUBJECT leave R HOW`: the leaving of a kept scope begins.
    Leave {
        who: Who,
        region: RegionNo,
        how: Leaves,
    },
    /// `SUBJECT init O R NAME`: a controlled object is registered; the name is the simple one.
    Init {
        who: Who,
        object: u32,
        region: RegionNo,
        name: Name,
    },
    /// `SUBJECT final O`: Finalize begins.
    Final {
        who: Who,
        object: u32,
    },
    /// `SUBJECT left R`: the leaving ended.
    Left {
        who: Who,
        region: RegionNo,
    },
    /// `SUBJECT replace O`: assignment of a controlled object.
    Replace {
        who: Who,
        object: u32,
    },
    /// `release K pN.NAME`: a handler is released.
    Release {
        release: u32,
        object: ObjectNo,
        handler: Name,
    },
    /// `agent serve K`: the agent begins release K.
    Serve {
        release: u32,
    },
    /// `agent served K`: it ended.
    Served {
        release: u32,
    },
    /// `interrupt N`: the script's interrupt comes.
    Interrupt {
        number: u8,
    },
    /// `port N VALUE`: the script sets a port.
    Port {
        number: u8,
        value: i32,
    },
    /// `mask N`: interrupt N is kept from here on.
    Mask {
        number: u8,
    },
    /// `unmask N`: interrupt N is delivered again.
    Unmask {
        number: u8,
    },
    /// `masked N`: interrupt N came while it is masked.
    Masked {
        number: u8,
    },
    /// `end WHY`: the run's last line.
    End {
        why: Ended,
    },
}
