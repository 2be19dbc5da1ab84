//! Values, and the ranges that subtypes put on them.
use ann_base::{Moment, TaskNo};

/// The value of a cell or an expression.
#[derive(Clone, Copy, PartialEq, Eq)]
pub enum Value {
    /// An Integer (3.5.4).
    Whole(i32),
    /// A Boolean (3.5.3).
    Truth(bool),
    /// A value of an enumeration type, by its position (3.5.1).
    Literal(u32),
    /// A Time, Time_Span, CPU_Time or Duration, in ticks of one microsecond (9.6, D.8, D.14).
    Ticks(Moment),
    /// A Task_Id (C.7.1), or a task object; without a task it is Null_Task_Id.
    Task(Option<TaskNo>),
    /// The number of a protected object, controlled object, timing event, timer or group budget; 0
    /// for a controlled object that has not been registered.
    Thing(u32),
}

/// The range of a scalar subtype (3.5). A value of another kind than the bounds' is in no range.
#[derive(Clone, Copy)]
pub enum Constraint {
    /// Every value: Time, Time_Span, CPU_Time, Task_Id, and objects that are no scalars.
    Free,
    /// Whole numbers from `low` to `high`.
    Whole { low: i32, high: i32 },
    /// Truth values from `low` to `high`; False stands before True.
    Truth { low: bool, high: bool },
    /// Positions from `low` to `high`.
    Literal { low: u32, high: u32 },
    /// Ticks from `low` to `high`: a subtype of Duration.
    Ticks { low: Moment, high: Moment },
}

/// Cells of a scope that do not begin as `Whole(0)`: `count` of them from `place` on begin with
/// `value`.
#[derive(Clone, Copy)]
pub struct CellRun {
    pub place: u32,
    pub count: u32,
    pub value: Value,
}
