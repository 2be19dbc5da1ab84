//! The exceptions that a run may raise.

/// An exception: one of the predefined ones, or a declared one by the number of its declaration
/// (11.1).
#[derive(Clone, Copy, PartialEq, Eq)]
pub enum Raised {
    /// Constraint_Error.
    Constraint,
    /// Program_Error.
    Program,
    /// Storage_Error.
    Storage,
    /// Tasking_Error.
    Tasking,
    /// Timer_Resource_Error (D.14.1).
    TimerResource,
    /// Group_Budget_Error (D.14.2).
    GroupBudget,
    /// Dispatching_Policy_Error (D.2.1).
    DispatchingPolicy,
    /// An exception that the source declares.
    User(u32),
}
