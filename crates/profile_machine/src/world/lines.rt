//! What an effect says: lines with numbers in them. Their names become text when they are written.
use crate::world::appointments::HandlerOf;
use crate::world::calls::Owner;
use ann_base::{CallNo, Level, Moment, ObjectNo, Raised, RegionNo, TaskNo};
use profile_image::{DeclNo, EntryNo};
use trace_text::{Created, Leaves, Mode, QueueEnd, Waits, Who};
use world_tables::List;

/// How a rendezvous or an entry body ends.
#[derive(Clone, Copy)]
pub enum MeetingEnd {
    /// Normally.
    Ok,
    /// By an exception.
    Raised(Raised),
    /// The call is sent on (9.5.4).
    Requeue,
}

/// A line that an effect says. Each is the line of a trace with the same name.
#[derive(Drop)]
pub enum Line {
    /// Created; the environment task has no declaration (10.2).
    New {
        what: Created,
        declared: Option<DeclNo>,
        level: Level,
    },
    Ready {
        who: Who,
        level: Level,
        end: QueueEnd,
        deadline: Option<Moment>,
    },
    Block {
        who: Who,
        waits: Waits,
    },
    Base {
        task: TaskNo,
        level: Level,
    },
    Deadline {
        task: TaskNo,
        deadline: Moment,
    },
    Quantum {
        task: TaskNo,
    },
    Done {
        task: TaskNo,
    },
    Raise {
        who: Who,
        exception: Raised,
    },
    Put {
        who: Who,
        text: List<u8>,
    },
    Call {
        task: TaskNo,
        call: CallNo,
        owner: Owner,
        entry: EntryNo,
        priority: Level,
    },
    Start {
        who: Who,
        call: CallNo,
    },
    Finish {
        who: Who,
        call: CallNo,
        how: MeetingEnd,
    },
    Cancel {
        task: TaskNo,
        call: CallNo,
    },
    Gone {
        task: TaskNo,
        call: CallNo,
    },
    Enter {
        who: Who,
        object: ObjectNo,
        mode: Mode,
    },
    Exit {
        who: Who,
        object: ObjectNo,
    },
    Held {
        who: Who,
        object: ObjectNo,
        mode: Mode,
    },
    Abort {
        task: TaskNo,
        victim: TaskNo,
    },
    Trigger {
        task: TaskNo,
    },
    Leave {
        who: Who,
        region: RegionNo,
        how: Leaves,
    },
    Init {
        who: Who,
        object: u32,
        region: RegionNo,
        declared: DeclNo,
    },
    Final {
        who: Who,
        object: u32,
    },
    Left {
        who: Who,
        region: RegionNo,
    },
    Replace {
        who: Who,
        object: u32,
    },
    Release {
        release: u32,
        handler: HandlerOf,
    },
    Served {
        release: u32,
    },
    Interrupt {
        number: u8,
    },
    Port {
        number: u8,
        value: i32,
    },
    Mask {
        number: u8,
    },
    Unmask {
        number: u8,
    },
    Masked {
        number: u8,
    },
}

/// The parts of an effect's lines, in their order (own): the call that is made; a call that ended,
/// with its caller's lines; the action's own lines; those of other tasks by number; the placing of
/// who acts; its block.
#[derive(Clone, Copy)]
pub enum Part {
    TheCall,
    TheFinish,
    Own,
    OfOther(Who),
    ThePlacing,
    TheBlock,
}

/// A line with the part of its effect in which it stands.
#[derive(Drop)]
pub struct Said {
    pub part: Part,
    pub line: Line,
}
