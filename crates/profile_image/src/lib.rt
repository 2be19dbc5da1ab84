//! The image of a program: what the front end makes of a source, and what the machine runs. Names
//! are numbers, and each list is indexed by the numbers of its kind. The limits of the profile
//! stand here too, and the items of a script.
#![tactic(auto)]

mod declarations;
mod expressions;
mod image;
mod image_lists;
mod limits;
mod numbers;
mod script_items;
mod short;
mod statements;
mod values;

pub use declarations::{
    Attachment, ControlledType, Declaration, DeclarationKind, Entry, EntryBody, EntryUnit,
    Enumeration, ExceptionChoice, Formal, Handler, Initial, ProtectedUnit, Scope, Subprogram,
    TaskUnit, Text,
};
pub use expressions::{BinaryOperator, Expression, ObjectName, UnaryOperator, VariableName};
pub use image::{Dispatching, DispatchingRange, Image, MainProcedure, Policies, Queuing};
pub use image_lists::ImageList;
pub use limits::{
    CONTROLLED_CELLS, DEFAULT_QUANTUM, INTEGER_FIRST, INTEGER_LAST, LAST_OUTSIDE_LINE,
    LAST_QUANTUM, MOST_CELLS, MOST_LIVE_TASKS, MOST_MARKS, MOST_MARKS_OF_TASK, MOST_RELEASES,
    MOST_TIMERS, PROTECTED_CELLS, TIME_FIRST, TIME_LAST,
};
pub use numbers::{
    ControlledNo, DeclNo, EntryNo, EnumerationNo, ExprNo, ProtectedUnitNo, ScopeNo, StatementNo,
    SubprogramNo, TaskUnitNo,
};
pub use script_items::Item;
pub use short::{Actuals, SelectAlternatives};
pub use statements::{
    Actual, Callee, CaseAlternative, Choice, Destination, EntryOwner, HandlerName, Piece,
    SelectAlternative, SelectKind, Setting, Statement, StatementForm,
};
pub use values::{CellRun, Constraint, Value};
