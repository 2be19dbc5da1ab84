//! Select statements, as parts of the tree (ISO/IEC 8652:2012, 9.7).
use crate::{Accept, Call, Delay, Expression, OneOrMore};
use ann_base::Place;

/// A select statement.
#[derive(Drop)]
pub struct SelectStatement<Q> {
    /// The place of `select`.
    pub place: Place,
    /// Its form.
    pub form: SelectForm<Q>,
}

/// The forms of select statements.
pub enum SelectForm<Q> {
    /// A selective accept (9.7.1).
    SelectiveAccept(SelectiveAccept<Q>),
    /// A timed entry call (9.7.2).
    TimedEntryCall(TimedEntryCall<Q>),
    /// A conditional entry call (9.7.3).
    ConditionalEntryCall(ConditionalEntryCall<Q>),
    /// An asynchronous select (9.7.4).
    AsynchronousSelect(AsynchronousSelect<Q>),
}

impl<Q: Drop> Drop for SelectForm<Q> {
    fn drop(self) {
        match self {
            SelectForm::SelectiveAccept(_) => (),
            SelectForm::TimedEntryCall(_) => (),
            SelectForm::ConditionalEntryCall(_) => (),
            SelectForm::AsynchronousSelect(_) => (),
        }
    }
}

/// `ALTERNATIVE {or ALTERNATIVE} [else STATEMENTS]` (9.7.1)
pub struct SelectiveAccept<Q> {
    /// The alternatives.
    pub alternatives: OneOrMore<SelectAlternative<Q>>,
    /// The statements behind `else`.
    pub otherwise: Option<Q>,
}

impl<Q: Drop> Drop for SelectiveAccept<Q> {
    fn drop(self) {
        let SelectiveAccept {
            alternatives: _,
            otherwise: _,
        } = self;
    }
}

/// `[when EXPRESSION =>] ALTERNATIVE` (9.7.1)
pub struct SelectAlternative<Q> {
    /// Its guard.
    pub guard: Option<Guard>,
    /// What it waits for.
    pub alternative: Alternative<Q>,
}

impl<Q: Drop> Drop for SelectAlternative<Q> {
    fn drop(self) {
        let SelectAlternative {
            guard: _,
            alternative: _,
        } = self;
    }
}

/// `when EXPRESSION =>` (9.7.1)
#[derive(Drop)]
pub struct Guard {
    /// The place of `when`.
    pub place: Place,
    /// The condition.
    pub condition: Expression,
}

/// What an alternative of a selective accept waits for (9.7.1).
pub enum Alternative<Q> {
    /// An accept alternative.
    Accept {
        /// The accept statement.
        accept: Accept<Q>,
        /// The statements behind it.
        statements: Option<Q>,
    },
    /// A delay alternative.
    Delay {
        /// The delay statement.
        delay: Delay,
        /// The statements behind it.
        statements: Option<Q>,
    },
    /// `terminate;`
    Terminate {
        /// The place of `terminate`.
        place: Place,
    },
}

impl<Q: Drop> Drop for Alternative<Q> {
    fn drop(self) {
        match self {
            Alternative::Accept {
                accept: _,
                statements: _,
            } => (),
            Alternative::Delay {
                delay: _,
                statements: _,
            } => (),
            Alternative::Terminate { place: _ } => (),
        }
    }
}

/// `CALL [STATEMENTS] or DELAY [STATEMENTS]` (9.7.2)
pub struct TimedEntryCall<Q> {
    /// The entry call.
    pub call: Call,
    /// The statements behind it.
    pub statements: Option<Q>,
    /// The delay statement.
    pub delay: Delay,
    /// The statements behind that.
    pub delay_statements: Option<Q>,
}

impl<Q: Drop> Drop for TimedEntryCall<Q> {
    fn drop(self) {
        let TimedEntryCall {
            call: _,
            statements: _,
            delay: _,
            delay_statements: _,
        } = self;
    }
}

/// `CALL [STATEMENTS] else STATEMENTS` (9.7.3)
pub struct ConditionalEntryCall<Q> {
    /// The entry call.
    pub call: Call,
    /// The statements behind it.
    pub statements: Option<Q>,
    /// The statements behind `else`.
    pub otherwise: Q,
}

impl<Q: Drop> Drop for ConditionalEntryCall<Q> {
    fn drop(self) {
        let ConditionalEntryCall {
            call: _,
            statements: _,
            otherwise: _,
        } = self;
    }
}

/// `TRIGGER [STATEMENTS] then abort STATEMENTS` (9.7.4)
pub struct AsynchronousSelect<Q> {
    /// What triggers.
    pub trigger: Trigger,
    /// The statements behind it.
    pub statements: Option<Q>,
    /// The abortable part.
    pub abortable: Q,
}

impl<Q: Drop> Drop for AsynchronousSelect<Q> {
    fn drop(self) {
        let AsynchronousSelect {
            trigger: _,
            statements: _,
            abortable: _,
        } = self;
    }
}

/// A triggering statement (9.7.4).
pub enum Trigger {
    /// An entry call.
    Call(Call),
    /// A delay statement.
    Delay(Delay),
}

impl Drop for Trigger {
    fn drop(self) {
        match self {
            Trigger::Call(_) => (),
            Trigger::Delay(_) => (),
        }
    }
}
