//! Declarations, scopes and units (clauses 3, 6, 7, 9).
use crate::expressions::ObjectName;
use crate::image_lists::ImageList;
use crate::numbers::{
    ControlledNo, DeclNo, EntryNo, ExprNo, ProtectedUnitNo, ScopeNo, StatementNo, SubprogramNo,
    TaskUnitNo,
};
use crate::values::{CellRun, Constraint, Value};
use ann_base::{Level, Raised};

/// A text of bytes 32 to 126.
pub type Text = ImageList<u8>;

/// The initial value of an object or component.
#[derive(Clone, Copy)]
pub enum Initial {
    /// None is given: it begins as its cells stand in their scope.
    Default,
    /// The value of an expression.
    Scalar(ExprNo),
    /// The components of a whole array.
    Array(ObjectName),
}

/// What a declaration declares.
#[derive(Clone, Copy)]
pub enum DeclarationKind {
    /// A scalar, a Task_Id or an array, or a constant of these; a component too.
    Object(Initial),
    /// A task object.
    Task(TaskUnitNo),
    /// A protected object.
    Protected(ProtectedUnitNo),
    /// A controlled object.
    Controlled(ControlledNo),
    /// A timing event (D.15).
    Event,
    /// A timer of the task that the named constant identifies (D.14.1).
    Timer(DeclNo),
    /// A group budget (D.14.2).
    Budget,
    /// A parameter or a loop parameter.
    Parameter,
    /// What has no cells: a type, a subprogram, an exception, a package and the like.
    Other,
}

/// A declaration. Its cells stand in the cells of its scope from `place` on; those of a component
/// from `place` on behind the first of its object's components.
pub struct Declaration {
    /// The simple name in lower case.
    pub name: Text,
    /// The expanded name in lower case.
    pub expanded: Text,
    pub kind: DeclarationKind,
    pub scope: ScopeNo,
    pub place: u32,
    /// How many cells it has.
    pub cells: u32,
    /// The range of its values; of an array's that of its components.
    pub constraint: Constraint,
    /// The range of an array's index.
    pub index: Option<Constraint>,
}

// Written out, so that it is proved once, and not by each function that drops one.
impl Drop for Declaration {
    fn drop(self) {
        let Declaration {
            name: _,
            expanded: _,
            kind: _,
            scope: _,
            place: _,
            cells: _,
            constraint: _,
            index: _,
        } = self;
    }
}

/// A scope of the text.
pub struct Scope {
    /// The scope that stands round it; none for the environment's.
    pub outer: Option<ScopeNo>,
    /// How many cells it takes.
    pub size: u32,
    /// Those of its cells that do not begin as `Whole(0)`, by the values that objects have without
    /// an initial value; the components of protected and controlled objects are among them. The
    /// first cell of a task, protected or controlled object, an event, a timer or a budget begins
    /// as `Whole(0)`.
    pub cells: ImageList<CellRun>,
    /// Whether its declarations hold a task or a controlled object.
    pub kept: bool,
    /// The first action in it. Its actions are, in this order: those of its declarations; in a
    /// task's body the end of the activation; `Handled`, where its sequence of statements has
    /// handlers; the activation of the tasks that its declarations made; its statements. In the
    /// environment's scope those of the library packages follow one another, and the call of the
    /// main procedure comes last.
    pub first: Option<StatementNo>,
}

// Written out, so that it is proved once, and not by each function that drops one.
impl Drop for Scope {
    fn drop(self) {
        let Scope {
            outer: _,
            size: _,
            cells: _,
            kept: _,
            first: _,
        } = self;
    }
}

/// A formal parameter of a subprogram or an entry. The n-th stands in cell n of its scope, counted
/// from 0.
#[derive(Clone, Copy)]
pub struct Formal {
    pub constraint: Constraint,
    /// What it holds where nothing is copied in.
    pub initial: Value,
}

/// A subprogram. The scope of a function has a last cell more, which keeps its result.
pub struct Subprogram {
    /// The simple name in lower case.
    pub name: Text,
    pub scope: ScopeNo,
    pub formals: ImageList<Formal>,
    /// The range of a function's result; a procedure has none.
    pub result: Option<Constraint>,
    /// The protected unit of which it is an operation.
    pub unit: Option<ProtectedUnitNo>,
}

// Written out, so that it is proved once, and not by each function that drops one.
impl Drop for Subprogram {
    fn drop(self) {
        let Subprogram {
            name: _,
            scope: _,
            formals: _,
            result: _,
            unit: _,
        } = self;
    }
}

/// A task unit.
pub struct TaskUnit {
    /// The scope of its body.
    pub scope: ScopeNo,
    /// The aspect Priority or Interrupt_Priority (D.1).
    pub priority: Option<Level>,
    /// The aspect Relative_Deadline (D.2.6).
    pub relative_deadline: Option<ExprNo>,
    /// Its entries in the order of the text.
    pub entries: ImageList<EntryNo>,
}

// Written out, so that it is proved once, and not by each function that drops one.
impl Drop for TaskUnit {
    fn drop(self) {
        let TaskUnit {
            scope: _,
            priority: _,
            relative_deadline: _,
            entries: _,
        } = self;
    }
}

/// A procedure that is attached to an interrupt (C.3.1).
#[derive(Clone, Copy)]
pub struct Attachment {
    pub interrupt: u8,
    pub handler: SubprogramNo,
}

/// A protected unit. The components of its objects stand behind 16 cells of their own.
pub struct ProtectedUnit {
    pub ceiling: Level,
    /// Its entries in the order of the text.
    pub entries: ImageList<EntryNo>,
    pub components: ImageList<DeclNo>,
    pub attached: ImageList<Attachment>,
}

// Written out, so that it is proved once, and not by each function that drops one.
impl Drop for ProtectedUnit {
    fn drop(self) {
        let ProtectedUnit {
            ceiling: _,
            entries: _,
            components: _,
            attached: _,
        } = self;
    }
}

/// The unit of an entry.
#[derive(Clone, Copy)]
pub enum EntryUnit {
    Task(TaskUnitNo),
    Protected(ProtectedUnitNo),
}

/// The body of a protected entry (9.5.2).
#[derive(Clone, Copy)]
pub struct EntryBody {
    pub barrier: ExprNo,
    pub scope: ScopeNo,
}

/// An entry.
pub struct Entry {
    /// The simple name in lower case.
    pub name: Text,
    pub unit: EntryUnit,
    /// Its place among the entries of its unit, from 0.
    pub place: u32,
    pub formals: ImageList<Formal>,
    /// The body of a protected entry.
    pub body: Option<EntryBody>,
}

// Written out, so that it is proved once, and not by each function that drops one.
impl Drop for Entry {
    fn drop(self) {
        let Entry {
            name: _,
            unit: _,
            place: _,
            formals: _,
            body: _,
        } = self;
    }
}

/// A controlled type with the operations that it overrides (7.6). The components of its objects
/// stand behind one cell of their own.
pub struct ControlledType {
    pub components: ImageList<DeclNo>,
    pub initialize: Option<SubprogramNo>,
    pub finalize: Option<SubprogramNo>,
    pub adjust: Option<SubprogramNo>,
}

// Written out, so that it is proved once, and not by each function that drops one.
impl Drop for ControlledType {
    fn drop(self) {
        let ControlledType {
            components: _,
            initialize: _,
            finalize: _,
            adjust: _,
        } = self;
    }
}

/// An enumeration type: its literals in upper case, as 'Image gives them (3.5).
#[derive(Drop)]
pub struct Enumeration {
    pub literals: ImageList<Text>,
}

/// What a handler handles (11.2).
#[derive(Clone, Copy)]
pub enum ExceptionChoice {
    Named(Raised),
    Others,
}

/// An exception handler.
#[derive(Drop)]
pub struct Handler {
    pub choices: ImageList<ExceptionChoice>,
    /// Its first statement.
    pub first: StatementNo,
}
