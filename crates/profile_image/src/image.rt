//! The image of a program: what the machine runs.
use crate::declarations::{
    ControlledType, Declaration, Entry, Enumeration, ProtectedUnit, Scope, Subprogram, TaskUnit,
    Text,
};
use crate::expressions::Expression;
use crate::image_lists::ImageList;
use crate::numbers::ScopeNo;
use crate::statements::Statement;
use ann_base::Level;

/// A task dispatching policy (D.2.2).
#[derive(Clone, Copy)]
pub enum Dispatching {
    FifoWithinPriorities,
    RoundRobinWithinPriorities,
    EdfAcrossPriorities,
}

/// A range of priorities with its policy.
#[derive(Clone, Copy)]
pub struct DispatchingRange {
    pub policy: Dispatching,
    pub first: Level,
    pub last: Level,
}

/// An entry queuing policy (D.4).
#[derive(Clone, Copy)]
pub enum Queuing {
    Fifo,
    Priority,
}

/// What the pragmas of a source ask for at run time (D.2.2, D.4, D.7).
pub struct Policies {
    /// The ranges that have a policy; every other priority is of FIFO_Within_Priorities.
    pub dispatching: ImageList<DispatchingRange>,
    pub queuing: Queuing,
    /// Max_Entry_Queue_Length.
    pub longest_queue: Option<u32>,
    /// The last Priority: 30, or 97 where the range is wide. Interrupt_Priority is the one above.
    pub last_priority: Level,
}

// Written out, so that it is proved once, and not by each function that drops one.
impl Drop for Policies {
    fn drop(self) {
        let Policies {
            dispatching: _,
            queuing: _,
            longest_queue: _,
            last_priority: _,
        } = self;
    }
}

/// The main procedure (10.2).
pub struct MainProcedure {
    /// The name in lower case.
    pub name: Text,
    /// The base priority of the environment task.
    pub priority: Level,
    pub scope: ScopeNo,
}

// Written out, so that it is proved once, and not by each function that drops one.
impl Drop for MainProcedure {
    fn drop(self) {
        let MainProcedure {
            name: _,
            priority: _,
            scope: _,
        } = self;
    }
}

/// A program whose names are numbers. The items of its lists name one another by their numbers.
pub struct Image {
    pub declarations: ImageList<Declaration>,
    pub expressions: ImageList<Expression>,
    pub statements: ImageList<Statement>,
    pub scopes: ImageList<Scope>,
    pub subprograms: ImageList<Subprogram>,
    pub task_units: ImageList<TaskUnit>,
    pub protected_units: ImageList<ProtectedUnit>,
    pub entries: ImageList<Entry>,
    pub controlled_types: ImageList<ControlledType>,
    pub enumerations: ImageList<Enumeration>,
    pub policies: Policies,
    /// The environment's scope, whose first action is the first of the elaboration of the library
    /// packages.
    pub environment: ScopeNo,
    pub main: MainProcedure,
}

// Written out, so that it is proved once, and not by each function that drops one.
impl Drop for Image {
    fn drop(self) {
        let Image {
            declarations: _,
            expressions: _,
            statements: _,
            scopes: _,
            subprograms: _,
            task_units: _,
            protected_units: _,
            entries: _,
            controlled_types: _,
            enumerations: _,
            policies: _,
            environment: _,
            main: _,
        } = self;
    }
}
