//! Types and subtypes (ISO/IEC 8652:2012, clause 3).
ghost use Rattle.std.specs.Prelude.{◌≡◌};
ghost use Rattle.ada_regions.specs.Declaring.{free_subtype};
ghost use Rattle.ada_regions.specs.TypeKinds.{is_array_type, is_controlled_type};
ghost use Rattle.ada_regions.specs.TypeKinds.{is_protected_type, is_span_type, is_task_type};

use profile_image::{Constraint, ControlledNo, EnumerationNo, ProtectedUnitNo, TaskUnitNo, Text};

/// A type of the profile (3.2).
#[derive(Clone, Copy)]
pub enum AdaType {
    /// Integer (3.5.4).
    Integer,
    /// Boolean (3.5.3).
    Boolean,
    /// Duration (9.6).
    Duration,
    /// An enumeration type of the source (3.5.1).
    Enumeration(EnumerationNo),
    /// An array type, by its number among the array types of the source (3.6).
    Array(u32),
    /// Ada.Real_Time.Time (D.8).
    Time,
    /// Ada.Real_Time.Time_Span (D.8).
    TimeSpan,
    /// Ada.Execution_Time.CPU_Time (D.14).
    CpuTime,
    /// Ada.Task_Identification.Task_Id (C.7.1).
    TaskId,
    /// Ada.Real_Time.Timing_Events.Timing_Event (D.15).
    TimingEvent,
    /// Ada.Execution_Time.Timers.Timer (D.14.1).
    Timer,
    /// Ada.Execution_Time.Group_Budgets.Group_Budget (D.14.2).
    GroupBudget,
    /// Ada.Finalization.Limited_Controlled (7.6).
    LimitedControlled,
    /// Ada.Finalization.Controlled (7.6).
    Controlled,
    /// A controlled type of the source (7.6).
    Derived(ControlledNo),
    /// A task type, or the type of a single task (9.1).
    Task(TaskUnitNo),
    /// A protected type, or the type of a single protected object (9.4).
    Protected(ProtectedUnitNo),
}

/// An array type (3.6).
pub fn is_array_type(of_type: AdaType) -> bool
    ensures { result ≡ is_array_type of_type }
{
    matches!(of_type, AdaType::Array(_))
}

/// Time_Span (D.8).
pub fn is_span_type(of_type: AdaType) -> bool
    ensures { result ≡ is_span_type of_type }
{
    matches!(of_type, AdaType::TimeSpan)
}

/// A type of the source that is derived from Limited_Controlled or Controlled (7.6).
pub fn is_controlled_type(of_type: AdaType) -> bool
    ensures { result ≡ is_controlled_type of_type }
{
    matches!(of_type, AdaType::Derived(_))
}

/// A task type (9.1).
pub fn is_task_type(of_type: AdaType) -> bool
    ensures { result ≡ is_task_type of_type }
{
    matches!(of_type, AdaType::Task(_))
}

/// A protected type (9.4).
pub fn is_protected_type(of_type: AdaType) -> bool
    ensures { result ≡ is_protected_type of_type }
{
    matches!(of_type, AdaType::Protected(_))
}

/// A type with a range of its values (3.2.2, 3.5).
#[derive(Clone, Copy)]
pub struct Subtype {
    /// The type.
    pub of_type: AdaType,
    /// The range of a scalar subtype that has one.
    pub range: Constraint,
}

/// A type without a range.
pub fn free_subtype(of_type: AdaType) -> Subtype
    ensures { result ≡ free_subtype of_type }
{
    Subtype {
        of_type,
        range: Constraint::Free,
    }
}

/// An array type (3.6).
#[derive(Clone, Copy)]
pub struct ArrayType {
    /// The range of its index.
    pub index: Constraint,
    /// The subtype of its components; none where the text names no type.
    pub component: Option<Subtype>,
}

/// A mode of a formal parameter (6.1).
#[derive(Clone, Copy)]
pub enum Mode {
    In,
    Out,
    InOut,
}

/// A formal parameter of a subprogram or an entry (6.1).
#[derive(Drop)]
pub struct Formal {
    /// Its name in lower case.
    pub name: Text,
    /// Its mode.
    pub mode: Mode,
    /// Its subtype; none where the text names no type.
    pub subtype: Option<Subtype>,
}
