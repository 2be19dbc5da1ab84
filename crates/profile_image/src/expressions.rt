//! Names and expressions (clause 4).
use crate::numbers::{DeclNo, EntryNo, ExprNo, ProtectedUnitNo};
use crate::values::Value;
use ann_base::Moment;

/// The name of an object that has cells of values: a scalar, a Task_Id or a whole array.
#[derive(Clone, Copy)]
pub enum ObjectName {
    /// A declared object, a parameter or a loop parameter.
    Declared(DeclNo),
    /// A component of the protected object in whose body the name stands (9.4).
    OwnComponent {
        unit: ProtectedUnitNo,
        component: DeclNo,
    },
    /// A component of a controlled object or parameter.
    Component {
        object: DeclNo,
        component: DeclNo,
    },
}

/// The name of one cell of values: an object that has one, or a component of an array (4.1.1).
#[derive(Clone, Copy)]
pub struct VariableName {
    pub object: ObjectName,
    pub index: Option<ExprNo>,
}

/// An operator with one operand (4.5.4, 4.5.6).
#[derive(Clone, Copy)]
pub enum UnaryOperator {
    Plus,
    Minus,
    Abs,
    Not,
}

/// An operator with two operands, or a short-circuit form (4.5).
#[derive(Clone, Copy)]
pub enum BinaryOperator {
    And,
    Or,
    Xor,
    AndThen,
    OrElse,
    Equal,
    NotEqual,
    Less,
    LessOrEqual,
    Greater,
    GreaterOrEqual,
    Plus,
    Minus,
    Times,
    Divide,
    Mod,
    Rem,
}

/// An expression. Brackets leave no trace; a minus before a literal is part of the value.
#[derive(Clone, Copy)]
pub enum Expression {
    /// A value that the text gives: a literal, First and Last, predefined constants, Null_Task_Id.
    Known(Value),
    /// The value of a variable, a constant or a component.
    Variable(VariableName),
    /// The name of a task, protected, controlled, event, timer or budget object, or of such a
    /// parameter. It is the value of 'Identity of a task object, too (C.7.1).
    Thing(DeclNo),
    Unary {
        operator: UnaryOperator,
        operand: ExprNo,
    },
    Binary {
        operator: BinaryOperator,
        left: ExprNo,
        right: ExprNo,
    },
    /// 'Count of an entry of the unit in whose body the name stands (9.9).
    Count(EntryNo),
    /// Ada.Real_Time.Clock (D.8).
    Clock,
    /// Microseconds, Milliseconds, Seconds and Minutes: the Integer times `ticks` (D.8).
    Span {
        ticks: Moment,
        count: ExprNo,
    },
    /// To_Duration and To_Time_Span: the same number of ticks (D.8).
    SameTicks(ExprNo),
    /// Ada.Task_Identification.Current_Task (C.7.1).
    CurrentTask,
    /// Ada.Execution_Time.Clock (D.14); without a task that of the calling one.
    ExecutionTime(Option<ExprNo>),
    /// Ada.Dynamic_Priorities.Get_Priority (D.5.1).
    Priority(Option<ExprNo>),
    /// Ada.Dispatching.EDF.Get_Deadline (D.2.6).
    Deadline(Option<ExprNo>),
    /// Time_Of_Event of an event or of a parameter that is one (D.15).
    TimeOfEvent(DeclNo),
    /// Time_Remaining of a timer (D.14.1).
    TimeRemaining(DeclNo),
    /// Budget_Has_Expired of a group budget (D.14.2).
    BudgetHasExpired(DeclNo),
    /// Budget_Remaining of a group budget (D.14.2).
    BudgetRemaining(DeclNo),
    /// Script_Ports.Value: what the script set the port to.
    PortValue(ExprNo),
}
