//! Entry calls (9.5.3, 9.5.4, 9.7).
use crate::world::scopes::Variable;
use ann_base::{CallNo, Level, Moment, ObjectNo, Raised, TaskNo};
use profile_image::{Actuals, EntryNo, EntryOwner, StatementNo, Value};
use rosters::Numbered;
use world_tables::List;

/// Whose entry is called.
#[derive(Clone, Copy)]
pub enum Owner {
    Task(TaskNo),
    Object(ObjectNo),
}

/// What a caller does while its call is not accepted.
#[derive(Clone, Copy)]
pub enum CallKind {
    /// It waits (9.5.3).
    Plain,
    /// It does not wait (9.7.3).
    Conditional,
    /// It waits until a moment (9.7.2).
    Timed,
    /// It runs the abortable part (9.7.4).
    Triggering,
}

/// How a call ended.
#[derive(Clone, Copy)]
pub enum Outcome {
    Finished,
    Cancelled,
    /// The exception is to be raised in the caller.
    ToRaise(Raised),
    /// The exception was raised in the entry body that the caller itself ran.
    WasRaised(Raised),
}

/// Where a requeue under way sends its call (9.5.4).
#[derive(Clone, Copy)]
pub struct Sending {
    pub owner: Owner,
    pub entry: EntryNo,
    pub with_abort: bool,
}

/// A call that has not been resumed by its caller (9.5.3).
pub struct Call {
    pub number: CallNo,
    pub caller: TaskNo,
    pub kind: CallKind,
    /// The statement of the call, or of the select statement that holds it.
    pub statement: StatementNo,
    pub owner: Owner,
    pub entry: EntryNo,
    pub priority: Level,
    pub begun: bool,
    /// Whether it was last sent on without abort.
    pub firm: bool,
    /// Whether it was ever sent on with abort.
    pub sent_with_abort: bool,
    /// Whether cancellation was attempted.
    pub attempted: bool,
    /// The first moment of a timed call.
    pub moment: Option<Moment>,
    /// The present values of its parameters.
    pub values: List<Value>,
    /// The variables that get those of mode `out`.
    pub results: List<Option<Variable>>,
    pub sending: Option<Sending>,
    pub outcome: Option<Outcome>,
}

// Written out, so that it is proved once, and not by each function that drops one.
impl Drop for Call {
    fn drop(self) {
        let Call {
            number: _,
            caller: _,
            kind: _,
            statement: _,
            owner: _,
            entry: _,
            priority: _,
            begun: _,
            firm: _,
            sent_with_abort: _,
            attempted: _,
            moment: _,
            values: _,
            results: _,
            sending: _,
            outcome: _,
        } = self;
    }
}

impl Numbered for Call {
    ghost use Rattle.std.specs.Prelude.{false, Some};

    ghost number = { λ x. Some x.number.0 };

    ghost size = { λ x. 0 };

    ghost stirs = { λ x. false };

    fn number(&self) -> Option<u32> {
        Some(self.number.0)
    }

    fn size(&self) -> usize {
        0
    }

    fn stirs(&self) -> bool {
        false
    }
}

/// The entry call in a statement.
#[derive(Drop)]
pub struct EntryCallNamed {
    pub entry: EntryNo,
    pub owner: EntryOwner,
    pub actuals: Actuals,
}

/// An open delay alternative with its moment (9.7.1).
#[derive(Clone, Copy)]
pub struct DelayMoment {
    pub delay: StatementNo,
    pub at: Moment,
}
