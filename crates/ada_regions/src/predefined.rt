//! The predefined units, and what they declare (ISO/IEC 8652:2012, annex A, C.7.1, annex D).
use crate::types::{AdaType, Subtype};
use ann_base::{Level, Raised};
use profile_image::{INTEGER_LAST, TIME_LAST, Value};

/// The last Integer (3.5.4), as a literal has it; the first one is one further below 0.
pub const LAST_INTEGER: u128 = INTEGER_LAST as u128;

/// The last value of Duration in ticks (9.6), as a literal has it; the first one is one further
/// below 0.
pub const LAST_DURATION: u128 = TIME_LAST as u128;

/// The last value of System.Priority (13.7, D.1).
pub const LAST_PRIORITY: Level = 30;

/// The same in the wide range for which a pragma asks (docs/LANGUAGE.md).
pub const LAST_WIDE_PRIORITY: Level = 97;

/// System.Default_Priority (13.7, D.1).
pub const DEFAULT_PRIORITY: Level = 15;

/// The same in the wide range.
pub const DEFAULT_WIDE_PRIORITY: Level = 48;

/// A predefined library unit of the profile.
#[derive(Clone, Copy)]
pub enum PredefinedUnit {
    /// Standard (A.1).
    Standard,
    /// Ada (A.2).
    Ada,
    /// System (13.7).
    System,
    /// Ada.Text_IO (A.10.1).
    TextIo,
    /// Ada.Real_Time (D.8).
    RealTime,
    /// Ada.Real_Time.Timing_Events (D.15).
    TimingEvents,
    /// Ada.Execution_Time (D.14).
    ExecutionTime,
    /// Ada.Execution_Time.Timers (D.14.1).
    Timers,
    /// Ada.Execution_Time.Group_Budgets (D.14.2).
    GroupBudgets,
    /// Ada.Dynamic_Priorities (D.5.1).
    DynamicPriorities,
    /// Ada.Task_Identification (C.7.1).
    TaskIdentification,
    /// Ada.Dispatching (D.2.1).
    Dispatching,
    /// Ada.Dispatching.Round_Robin (D.2.5).
    RoundRobin,
    /// Ada.Dispatching.EDF (D.2.6).
    Edf,
    /// Ada.Finalization (7.6).
    Finalization,
    /// Script_Ports, this project's own.
    ScriptPorts,
}

/// A predefined subprogram.
#[derive(Clone, Copy)]
pub enum Operation {
    /// Ada.Text_IO.Put_Line (A.10.7).
    PutLine,
    /// Ada.Real_Time.Clock (D.8).
    Clock,
    /// Ada.Real_Time.Microseconds (D.8).
    Microseconds,
    /// Ada.Real_Time.Milliseconds (D.8).
    Milliseconds,
    /// Ada.Real_Time.Seconds (D.8).
    Seconds,
    /// Ada.Real_Time.Minutes (D.8).
    Minutes,
    /// Ada.Real_Time.To_Duration (D.8).
    ToDuration,
    /// Ada.Real_Time.To_Time_Span (D.8).
    ToTimeSpan,
    /// Set_Handler of a timing event (D.15).
    SetEvent,
    /// Cancel_Handler of a timing event (D.15).
    CancelEvent,
    /// Time_Of_Event (D.15).
    TimeOfEvent,
    /// Ada.Execution_Time.Clock (D.14).
    ExecutionClock,
    /// Set_Handler of a timer (D.14.1).
    SetTimer,
    /// Cancel_Handler of a timer (D.14.1).
    CancelTimer,
    /// Time_Remaining (D.14.1).
    TimeRemaining,
    /// Add_Task (D.14.2).
    AddTask,
    /// Remove_Task (D.14.2).
    RemoveTask,
    /// Replenish (D.14.2).
    Replenish,
    /// Add (D.14.2).
    Add,
    /// Budget_Has_Expired (D.14.2).
    BudgetHasExpired,
    /// Budget_Remaining (D.14.2).
    BudgetRemaining,
    /// Set_Handler of a group budget (D.14.2).
    SetBudget,
    /// Cancel_Handler of a group budget (D.14.2).
    CancelBudget,
    /// Set_Priority (D.5.1).
    SetPriority,
    /// Get_Priority (D.5.1).
    GetPriority,
    /// Current_Task (C.7.1).
    CurrentTask,
    /// Set_Quantum (D.2.5).
    SetQuantum,
    /// Set_Deadline (D.2.6).
    SetDeadline,
    /// Get_Deadline (D.2.6).
    GetDeadline,
    /// Delay_Until_And_Set_Deadline (D.2.6).
    DelayUntilAndSetDeadline,
    /// Script_Ports.Value.
    PortValue,
}

/// What a name of a predefined unit denotes.
#[derive(Clone, Copy)]
pub enum Predefined {
    /// A type or a subtype.
    Mark(Subtype),
    /// A constant.
    Constant {
        /// Its type.
        of_type: AdaType,
        /// Its value.
        value: Value,
    },
    /// False or True.
    Truth(bool),
    /// An exception.
    Exception(Raised),
    /// A subprogram.
    Operation(Operation),
}
