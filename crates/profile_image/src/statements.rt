//! Statements and the other actions that a text gives (clauses 5, 6, 9, 11).
ghost use Rattle.std.specs.Prelude.{◌≡◌, None};

use crate::declarations::{Handler, Text};
use crate::expressions::{ObjectName, VariableName};
use crate::image_lists::ImageList;
use crate::numbers::{DeclNo, EntryNo, EnumerationNo, ExprNo, ScopeNo, StatementNo, SubprogramNo};
use crate::short::{Actuals, SelectAlternatives};
use crate::values::Value;
use ann_base::Raised;

/// A statement or another action.
///
/// The statements of a list, and the parts of a statement that holds others, are linked by what
/// comes next. So a branch, an alternative or a turn names the action with which the task goes on,
/// be it inside the statement or behind it. Where there is none, what was opened around the
/// statement ends: a scope, a sequence with handlers, an accept or an abortable part.
pub struct Statement {
    pub form: StatementForm,
    /// The number of operator signs and of calls of predefined functions in its expressions.
    pub signs: u32,
    /// What comes next, once it has been left normally.
    pub next: Option<StatementNo>,
}

// Written out, so that it is proved once, and not by each function that drops one.
impl Drop for Statement {
    fn drop(self) {
        let Statement {
            form: _,
            signs: _,
            next: _,
        } = self;
    }
}

/// A choice of a case statement (5.4).
#[derive(Clone, Copy)]
pub enum Choice {
    Single(Value),
    Range { low: Value, high: Value },
    Others,
}

/// An alternative of a case statement.
#[derive(Drop)]
pub struct CaseAlternative {
    pub choices: ImageList<Choice>,
    pub first: StatementNo,
}

/// An actual parameter (6.4.1).
#[derive(Clone, Copy)]
pub enum Actual {
    /// Of mode `in`: copied in.
    In(ExprNo),
    /// Of mode `in out`: copied in and back.
    InOut(VariableName),
    /// Of mode `out`: copied back.
    Out(VariableName),
    /// A controlled, event, timer or budget object, which stands for itself.
    Thing(DeclNo),
}

/// What stands in the free room of a list of actual parameters.
impl Default for Actual {
    ghost use Rattle.profile_image.specs.declared.statements.Actual.TheVariants as actual;

    ghost is_default = { λ x. x ≡ actual.In (record { 0 = 0 }) };

    fn default() -> Self {
        Actual::In(ExprNo(0))
    }
}

/// What a call calls.
#[derive(Clone, Copy)]
pub enum Callee {
    /// A subprogram that is no protected operation.
    Subprogram(SubprogramNo),
    /// A protected operation of the named object: an external call (9.5).
    Operation {
        object: DeclNo,
        operation: SubprogramNo,
    },
    /// A protected operation of the object in whose body the call stands: an internal call.
    OwnOperation(SubprogramNo),
}

/// Where the result of a function's call goes.
#[derive(Clone, Copy)]
pub enum Destination {
    /// A procedure has none.
    Nowhere,
    /// Into a variable: the call is the right side of an assignment.
    Variable(VariableName),
    /// Into a declared object: the call is its initial value.
    Declaration(DeclNo),
    /// It is the result of this function, which returns.
    Return(SubprogramNo),
}

/// Whose entry is named.
#[derive(Clone, Copy)]
pub enum EntryOwner {
    /// That of a task or protected object.
    Object(DeclNo),
    /// The entry's own unit, in whose body the name stands.
    Own,
}

/// An alternative of a selective accept (9.7.1). An accept or a delay is named by its statement,
/// whose next is the first statement behind it.
#[derive(Clone, Copy)]
pub enum SelectKind {
    Accept(StatementNo),
    Delay(StatementNo),
    Terminate,
}

/// An alternative of a selective accept with its guard.
#[derive(Clone, Copy)]
pub struct SelectAlternative {
    pub guard: Option<ExprNo>,
    pub kind: SelectKind,
}

/// What stands in the free room of a list of alternatives.
impl Default for SelectAlternative {
    ghost use Rattle.profile_image.specs.declared.statements.SelectKind.TheVariants as select;

    ghost is_default = { λ x. x ≡ record { guard = None; kind = select.Terminate } };

    fn default() -> Self {
        SelectAlternative {
            guard: None,
            kind: SelectKind::Terminate,
        }
    }
}

/// A piece of the text that Put_Line puts (A.10.7).
#[derive(Drop)]
pub enum Piece {
    Text(Text),
    /// Integer'Image.
    Whole(ExprNo),
    /// Boolean'Image.
    Truth(ExprNo),
    /// 'Image of an enumeration type.
    Literal {
        value: ExprNo,
        enumeration: EnumerationNo,
    },
}

/// A handler as the value of 'Access: a procedure of a protected object.
#[derive(Clone, Copy)]
pub struct HandlerName {
    pub object: DeclNo,
    pub procedure: SubprogramNo,
}

/// Whether a Set_Handler names a moment or a span from now on.
#[derive(Clone, Copy)]
pub enum Setting {
    At(ExprNo),
    In(ExprNo),
}

/// What a statement or another action is.
#[derive(Drop)]
pub enum StatementForm {
    /// The declaration of an object that is no task (3.3.1, 9.4, 7.6).
    Declare(DeclNo),
    /// Initialize of a controlled object, behind its declaration (7.6).
    Initialize(DeclNo),
    /// The declaration of a task object (9.1). `part` is a number of its own for each library
    /// package, the same for its spec and its body, and 0 for every other declarative part.
    CreateTask {
        object: DeclNo,
        part: u32,
    },
    /// The activation of the tasks that the declarative part made (9.2).
    Activate(u32),
    /// The end of a task's activation (9.2).
    EndActivation,
    /// The environment task's call of the main procedure (10.2).
    CallMain,
    /// A sequence with handlers begins (11.2). It is no action: it is opened behind the one before.
    /// Its next stands behind the whole sequence, and the statements of its handlers lead there;
    /// its own statements end it.
    Handled {
        handlers: ImageList<Handler>,
        first: StatementNo,
    },
    Null,
    /// An assignment of a scalar or a Task_Id (5.2).
    Assign {
        target: VariableName,
        value: ExprNo,
    },
    /// An assignment of a whole array.
    AssignArray {
        target: ObjectName,
        source: ObjectName,
    },
    /// An assignment of a controlled object (7.6).
    AssignControlled {
        target: DeclNo,
        source: DeclNo,
    },
    /// An if statement, or what stands behind an elsif (5.3).
    If {
        condition: ExprNo,
        first: StatementNo,
        otherwise: Option<StatementNo>,
    },
    /// A case statement (5.4).
    Case {
        selector: ExprNo,
        alternatives: ImageList<CaseAlternative>,
    },
    /// A loop without an iteration scheme, at each turn (5.5). `within` is the statement whose
    /// construct is the innermost that is open around the loop; none directly in a body.
    Loop {
        body: StatementNo,
        within: Option<StatementNo>,
    },
    /// A while loop, at each turn.
    While {
        condition: ExprNo,
        body: StatementNo,
        within: Option<StatementNo>,
    },
    /// A for loop at its bounds. The cell behind that of the parameter keeps the last value. Its
    /// `turn` is a `FirstTurn`, and its body leads to a `LaterTurn`; the next of all three stands
    /// behind the loop.
    For {
        parameter: DeclNo,
        reverse: bool,
        low: ExprNo,
        high: ExprNo,
        turn: StatementNo,
        within: Option<StatementNo>,
    },
    /// The first turn of a for loop.
    FirstTurn {
        parameter: DeclNo,
        reverse: bool,
        body: StatementNo,
    },
    /// A later turn of a for loop.
    LaterTurn {
        parameter: DeclNo,
        reverse: bool,
        body: StatementNo,
    },
    /// An exit of the loop with this statement (5.7).
    Exit {
        condition: Option<ExprNo>,
        of_loop: StatementNo,
    },
    /// A block (5.6).
    Block(ScopeNo),
    /// A return without a value (6.5).
    Return,
    /// A return of a function's value.
    ReturnValue {
        function: SubprogramNo,
        value: ExprNo,
    },
    /// A raise of a named exception (11.3).
    Raise(Raised),
    /// A raise without a name, in a handler of this scope.
    RaiseAgain(ScopeNo),
    /// A relative delay (9.6).
    Delay(ExprNo),
    /// A delay until a moment.
    DelayUntil(ExprNo),
    /// A call of a subprogram or a protected operation (6.4, 9.5.1).
    Call {
        callee: Callee,
        actuals: Actuals,
        destination: Destination,
    },
    /// Ada.Text_IO.Put_Line (A.10.7).
    PutLine(ImageList<Piece>),
    /// An entry call (9.5.3).
    EntryCall {
        entry: EntryNo,
        owner: EntryOwner,
        actuals: Actuals,
    },
    /// A conditional entry call (9.7.3). The call is named by its statement.
    ConditionalCall {
        call: StatementNo,
        otherwise: StatementNo,
    },
    /// A timed entry call (9.7.2). The call and the delay are named by their statements.
    TimedCall {
        call: StatementNo,
        delay: StatementNo,
    },
    /// An asynchronous select (9.7.4). The trigger is named by its statement, an entry call or a
    /// delay, whose next is the first statement behind it.
    AsynchronousSelect {
        trigger: StatementNo,
        abortable: StatementNo,
    },
    /// An accept (9.5.2).
    Accept {
        entry: EntryNo,
        scope: ScopeNo,
    },
    /// A selective accept (9.7.1).
    SelectiveAccept {
        alternatives: SelectAlternatives,
        otherwise: Option<StatementNo>,
    },
    /// An abort of the named tasks (9.8).
    Abort(ImageList<DeclNo>),
    /// A requeue (9.5.4).
    Requeue {
        entry: EntryNo,
        owner: EntryOwner,
        with_abort: bool,
    },
    /// Timing_Events.Set_Handler (D.15); without a handler it clears.
    SetEvent {
        event: DeclNo,
        setting: Setting,
        handler: Option<HandlerName>,
    },
    /// Timing_Events.Cancel_Handler.
    CancelEvent {
        event: DeclNo,
        cancelled: VariableName,
    },
    /// Timers.Set_Handler (D.14.1).
    SetTimer {
        timer: DeclNo,
        setting: Setting,
        handler: Option<HandlerName>,
    },
    /// Timers.Cancel_Handler.
    CancelTimer {
        timer: DeclNo,
        cancelled: VariableName,
    },
    /// Group_Budgets.Add_Task (D.14.2).
    AddTask {
        budget: DeclNo,
        task: ExprNo,
    },
    /// Group_Budgets.Remove_Task.
    RemoveTask {
        budget: DeclNo,
        task: ExprNo,
    },
    /// Group_Budgets.Replenish.
    Replenish {
        budget: DeclNo,
        to: ExprNo,
    },
    /// Group_Budgets.Add.
    AddToBudget {
        budget: DeclNo,
        interval: ExprNo,
    },
    /// Group_Budgets.Set_Handler.
    SetBudget {
        budget: DeclNo,
        handler: Option<HandlerName>,
    },
    /// Group_Budgets.Cancel_Handler.
    CancelBudget {
        budget: DeclNo,
        cancelled: VariableName,
    },
    /// Dynamic_Priorities.Set_Priority (D.5.1); without a task for the calling one.
    SetPriority {
        priority: ExprNo,
        task: Option<ExprNo>,
    },
    /// Round_Robin.Set_Quantum (D.2.5).
    SetQuantum {
        level: ExprNo,
        quantum: ExprNo,
    },
    /// EDF.Set_Deadline (D.2.6); without a task for the calling one.
    SetDeadline {
        deadline: ExprNo,
        task: Option<ExprNo>,
    },
    /// EDF.Delay_Until_And_Set_Deadline (D.2.6).
    DelayUntilAndSetDeadline {
        until: ExprNo,
        offset: ExprNo,
    },
}
