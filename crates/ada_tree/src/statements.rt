//! Statements (ISO/IEC 8652:2012, clauses 5, 9 and 11). Those that hold others are generic over the
//! sequences `Q` in them.
use crate::{
    Argument, Declaration, Expression, Identifier, Name, OneOrMore, Parameter, SelectStatement,
};
use ann_base::Place;
use sqlite_items::{Boxed, Items};

/// A sequence of statements with what may stand around it (5.1, 11.2, 3.11): the statements of a
/// compound statement, those of an accept statement or a block with their handlers, or all of a
/// body.
#[derive(Drop)]
pub struct Sequence {
    /// Its parts.
    pub parts: Boxed<SequenceParts<Sequence>>,
}

/// The parts of a sequence.
pub struct SequenceParts<Q> {
    /// The declarations, in a body or behind `declare`; none elsewhere.
    pub declarations: Items<Declaration<Q>>,
    /// The statements.
    pub statements: OneOrMore<Statement<Q>>,
    /// The handlers behind `exception`, in a body, a block or an accept statement; none elsewhere.
    pub handlers: Items<Handler<Q>>,
}

impl<Q: Drop> Drop for SequenceParts<Q> {
    fn drop(self) {
        let SequenceParts {
            declarations: _,
            statements: _,
            handlers: _,
        } = self;
    }
}

/// What a sequence may hold where it stands.
#[derive(Clone, Copy)]
pub enum SequenceRole {
    /// Statements alone.
    Statements,
    /// Statements and handlers (11.2).
    Handled,
    /// Declarations, `begin`, statements and handlers (3.11).
    Body,
}

/// A statement (5.1).
pub enum Statement<Q> {
    /// `null;`
    Null {
        /// The place of `null`.
        place: Place,
    },
    /// An assignment (5.2).
    Assignment(Assignment),
    /// A call of a procedure or an entry (6.4, 9.5.3).
    Call(Call),
    /// A delay (9.6).
    Delay(Delay),
    /// An if statement (5.3).
    If(If<Q>),
    /// A case statement (5.4).
    Case(Case<Q>),
    /// A loop (5.5).
    Loop(Loop<Q>),
    /// An exit (5.7).
    Exit(Exit),
    /// A block (5.6).
    Block(Block<Q>),
    /// `return [EXPRESSION];` (6.5)
    Return {
        /// The place of `return`.
        place: Place,
        /// The function's result.
        value: Option<Expression>,
    },
    /// `raise [NAME];` (11.3)
    Raise {
        /// The place of `raise`.
        place: Place,
        /// The exception; none raises the handled one again.
        exception: Option<Name>,
    },
    /// `abort NAME {, NAME};` (9.8)
    Abort {
        /// The place of `abort`.
        place: Place,
        /// The tasks.
        tasks: OneOrMore<Name>,
    },
    /// An accept statement (9.5.2).
    Accept(Accept<Q>),
    /// `requeue NAME [with abort];` (9.5.4)
    Requeue {
        /// The place of `requeue`.
        place: Place,
        /// The entry.
        entry: Name,
        /// Whether `with abort` stands there.
        with_abort: bool,
    },
    /// A select statement (9.7).
    Select(SelectStatement<Q>),
}

impl<Q: Drop> Drop for Statement<Q> {
    fn drop(self) {
        match self {
            Statement::Null { place: _ } => (),
            Statement::Assignment(_) => (),
            Statement::Call(_) => (),
            Statement::Delay(_) => (),
            Statement::If(_) => (),
            Statement::Case(_) => (),
            Statement::Loop(_) => (),
            Statement::Exit(_) => (),
            Statement::Block(_) => (),
            Statement::Return { place: _, value: _ } => (),
            Statement::Raise {
                place: _,
                exception: _,
            } => (),
            Statement::Abort { place: _, tasks: _ } => (),
            Statement::Accept(_) => (),
            Statement::Requeue {
                place: _,
                entry: _,
                with_abort: _,
            } => (),
            Statement::Select(_) => (),
        }
    }
}

/// `NAME [(EXPRESSION)] := EXPRESSION;` (5.2)
pub struct Assignment {
    /// The variable or the array.
    pub target: Name,
    /// The index of the array's element.
    pub index: Option<Expression>,
    /// What is assigned.
    pub value: Expression,
}

impl Drop for Assignment {
    fn drop(self) {
        let Assignment {
            target: _,
            index: _,
            value: _,
        } = self;
    }
}

/// `NAME [(ARGUMENT {, ARGUMENT})];` (6.4, 9.5.3)
pub struct Call {
    /// The procedure or the entry.
    pub name: Name,
    /// The actuals; empty where no bracket stands.
    pub arguments: Items<Argument<Expression>>,
}

impl Drop for Call {
    fn drop(self) {
        let Call {
            name: _,
            arguments: _,
        } = self;
    }
}

/// `delay [until] EXPRESSION;` (9.6)
#[derive(Drop)]
pub struct Delay {
    /// The place of `delay`.
    pub place: Place,
    /// Whether `until` stands there.
    pub until: bool,
    /// The span or the moment.
    pub value: Expression,
}

/// An if statement (5.3).
pub struct If<Q> {
    /// The place of `if`.
    pub place: Place,
    /// The condition.
    pub condition: Expression,
    /// The statements behind `then`.
    pub statements: Q,
    /// The further conditions.
    pub elsifs: Items<Elsif<Q>>,
    /// The statements behind `else`.
    pub otherwise: Option<Q>,
}

impl<Q: Drop> Drop for If<Q> {
    fn drop(self) {
        let If {
            place: _,
            condition: _,
            statements: _,
            elsifs: _,
            otherwise: _,
        } = self;
    }
}

/// `elsif EXPRESSION then STATEMENTS` (5.3)
pub struct Elsif<Q> {
    /// The place of `elsif`.
    pub place: Place,
    /// The condition.
    pub condition: Expression,
    /// The statements behind `then`.
    pub statements: Q,
}

impl<Q: Drop> Drop for Elsif<Q> {
    fn drop(self) {
        let Elsif {
            place: _,
            condition: _,
            statements: _,
        } = self;
    }
}

/// A case statement (5.4).
pub struct Case<Q> {
    /// The place of `case`.
    pub place: Place,
    /// What selects.
    pub selector: Expression,
    /// The alternatives.
    pub alternatives: OneOrMore<CaseAlternative<Q>>,
}

impl<Q: Drop> Drop for Case<Q> {
    fn drop(self) {
        let Case {
            place: _,
            selector: _,
            alternatives: _,
        } = self;
    }
}

/// `when CHOICE {| CHOICE} => STATEMENTS` (5.4)
pub struct CaseAlternative<Q> {
    /// The place of `when`.
    pub place: Place,
    /// The choices.
    pub choices: OneOrMore<Choice>,
    /// The statements.
    pub statements: Q,
}

impl<Q: Drop> Drop for CaseAlternative<Q> {
    fn drop(self) {
        let CaseAlternative {
            place: _,
            choices: _,
            statements: _,
        } = self;
    }
}

/// A discrete choice (3.8.1).
pub enum Choice {
    /// One value.
    Value(Expression),
    /// `LOW .. HIGH`
    Range {
        /// The least value.
        low: Expression,
        /// The greatest value.
        high: Expression,
    },
    /// `others`
    Others {
        /// The place of `others`.
        place: Place,
    },
}

impl Drop for Choice {
    fn drop(self) {
        match self {
            Choice::Value(_) => (),
            Choice::Range { low: _, high: _ } => (),
            Choice::Others { place: _ } => (),
        }
    }
}

/// A loop or a block's name before a colon (5.5, 5.6).
#[derive(Drop)]
pub struct Label {
    /// The name.
    pub name: Identifier,
    /// Whether it stands again behind `end`.
    pub named_at_end: bool,
}

/// A loop (5.5).
pub struct Loop<Q> {
    /// Its name.
    pub label: Option<Label>,
    /// How it goes on.
    pub iteration: Iteration,
    /// The place of `loop`.
    pub place: Place,
    /// The statements.
    pub statements: Q,
}

impl<Q: Drop> Drop for Loop<Q> {
    fn drop(self) {
        let Loop {
            label: _,
            iteration: _,
            place: _,
            statements: _,
        } = self;
    }
}

/// How a loop goes on (5.5).
pub enum Iteration {
    /// Without an end.
    Forever,
    /// `while EXPRESSION`
    While {
        /// The place of `while`.
        place: Place,
        /// The condition.
        condition: Expression,
    },
    /// `for NAME in [reverse] LOW .. HIGH`
    For {
        /// The place of `for`.
        place: Place,
        /// The loop parameter.
        parameter: Identifier,
        /// Whether it goes down.
        reverse: bool,
        /// The least value.
        low: Expression,
        /// The greatest value.
        high: Expression,
    },
}

impl Drop for Iteration {
    fn drop(self) {
        match self {
            Iteration::Forever => (),
            Iteration::While {
                place: _,
                condition: _,
            } => (),
            Iteration::For {
                place: _,
                parameter: _,
                reverse: _,
                low: _,
                high: _,
            } => (),
        }
    }
}

/// `exit [NAME] [when EXPRESSION];` (5.7)
pub struct Exit {
    /// The place of `exit`.
    pub place: Place,
    /// The loop that is left.
    pub loop_name: Option<Identifier>,
    /// The condition.
    pub condition: Option<Expression>,
}

impl Drop for Exit {
    fn drop(self) {
        let Exit {
            place: _,
            loop_name: _,
            condition: _,
        } = self;
    }
}

/// A block (5.6).
pub struct Block<Q> {
    /// Its name.
    pub label: Option<Label>,
    /// The place of `declare` or `begin`.
    pub place: Place,
    /// Whether `declare` stands there.
    pub declare: bool,
    /// The declarations, the statements and the handlers.
    pub sequence: Q,
}

impl<Q: Drop> Drop for Block<Q> {
    fn drop(self) {
        let Block {
            label: _,
            place: _,
            declare: _,
            sequence: _,
        } = self;
    }
}

/// An exception handler (11.2).
pub struct Handler<Q> {
    /// The place of `when`.
    pub place: Place,
    /// What it handles.
    pub exceptions: HandledExceptions,
    /// The statements.
    pub statements: Q,
}

impl<Q: Drop> Drop for Handler<Q> {
    fn drop(self) {
        let Handler {
            place: _,
            exceptions: _,
            statements: _,
        } = self;
    }
}

/// What a handler handles (11.2).
pub enum HandledExceptions {
    /// `NAME {| NAME}`
    Named(OneOrMore<Name>),
    /// `others`
    Others {
        /// The place of `others`.
        place: Place,
    },
}

impl Drop for HandledExceptions {
    fn drop(self) {
        match self {
            HandledExceptions::Named(_) => (),
            HandledExceptions::Others { place: _ } => (),
        }
    }
}

/// An accept statement (9.5.2).
pub struct Accept<Q> {
    /// The place of `accept`.
    pub place: Place,
    /// The entry.
    pub entry: Identifier,
    /// The entry's parameters; empty where no bracket stands.
    pub parameters: Items<Parameter>,
    /// What stands behind `do`.
    pub body: Option<AcceptBody<Q>>,
}

impl<Q: Drop> Drop for Accept<Q> {
    fn drop(self) {
        let Accept {
            place: _,
            entry: _,
            parameters: _,
            body: _,
        } = self;
    }
}

/// `do SEQUENCE end [NAME]` (9.5.2)
#[derive(Drop)]
pub struct AcceptBody<Q> {
    /// The statements and their handlers.
    pub sequence: Q,
    /// Whether the entry's name stands again behind `end`.
    pub named_at_end: bool,
}
