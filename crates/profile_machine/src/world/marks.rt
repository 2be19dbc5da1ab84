//! Open constructs: what a task still has to end (5.6, 6, 7.6.1, 9.5, 9.7.4, 11.2).
use crate::run_data::Leaving;
use crate::world::scopes::{Located, ScopeId, Variable};
use ann_base::{CallNo, ObjectNo, Raised, RegionNo};
use profile_image::{StatementNo, SubprogramNo};
use trace_text::Mode;
use world_tables::List;

/// Where the result of a function goes that is called.
#[derive(Clone, Copy)]
pub enum ResultTo {
    /// It is a procedure.
    Nowhere,
    /// A variable gets it.
    Variable(Variable),
    /// The calling function returns it.
    Return(SubprogramNo),
}

/// A parameter that is copied back: its place in its scope, and the variable that gets it (6.4.1).
#[derive(Clone, Copy)]
pub struct CopyBack {
    pub place: u32,
    pub target: Variable,
}

/// What a scope is the scope of.
#[derive(Drop)]
pub enum Purpose {
    /// A block, by its statement (5.6).
    Block(StatementNo),
    /// The body of a subprogram, with what is done when it has ended (6.3).
    Subprogram(List<CopyBack>, ResultTo),
    /// The body of a protected entry that serves this call (9.5.2).
    EntryBody(CallNo),
    /// The body of a task; of the environment task the environment (9.1, 10.2).
    Task,
}

/// A scope (7.6.1).
#[derive(Drop)]
pub struct ScopeMark {
    pub within: ScopeId,
    /// The region of a kept scope.
    pub region: Option<RegionNo>,
    /// Whether it stands between its `leave` and its `left`.
    pub being_left: bool,
    /// The exception that its handler handles.
    pub handles: Option<Raised>,
    /// Whether a Finalize raised.
    pub finalize_raised: bool,
    pub purpose: Purpose,
}

/// A protected action (9.5.1).
#[derive(Clone, Copy)]
pub struct ProtectedMark {
    pub object: ObjectNo,
    pub mode: Mode,
    /// The call for which the holder began the action.
    pub own_call: Option<CallNo>,
    /// The call whose entry body runs now.
    pub serves: Option<CallNo>,
    /// How the called operation's body was left.
    pub body_left: Leaving,
    /// The release that the agent serves.
    pub release: Option<u32>,
}

/// An accept (9.5.2).
#[derive(Clone, Copy)]
pub struct AcceptMark {
    pub call: CallNo,
    pub accept: StatementNo,
    /// The scope of its parameters.
    pub within: ScopeId,
    /// The exception that a handler inside it handles.
    pub handles: Option<Raised>,
}

/// An abortable part (9.7.4).
#[derive(Clone, Copy)]
pub struct AbortableMark {
    pub select: StatementNo,
    /// The triggering call; none where a delay triggers.
    pub call: Option<CallNo>,
    /// Whether the trigger has completed.
    pub triggered: bool,
    /// Whether its end waits for a call whose cancellation was attempted.
    pub waits: bool,
}

/// The steps of an assignment of a controlled object (7.6).
#[derive(Clone, Copy)]
pub enum AssignStep {
    FinalizeTarget,
    CopyComponents,
    AdjustTarget,
    Assigned,
}

/// The assignment of a controlled object, by the numbers of the objects (7.6).
#[derive(Clone, Copy)]
pub struct AssignMark {
    pub target: u32,
    pub source: u32,
    pub step: AssignStep,
}

/// An open construct.
#[derive(Drop)]
pub enum Mark {
    Scope(ScopeMark),
    /// A sequence with handlers, by its statement (11.2).
    Handled(StatementNo),
    InProtected(ProtectedMark),
    InAccept(AcceptMark),
    Abortable(AbortableMark),
    InInitialize(Located),
    /// The Finalize of the object with this number.
    InFinalize(u32),
    InAssign(AssignMark),
}

/// An open construct with what is still to be done above it: the action with which it goes on, or
/// none where it is its own turn to end. The rest of a task is the list of its frames, the top one
/// first.
pub struct Frame {
    pub mark: Mark,
    pub onward: Option<StatementNo>,
    /// How it is being left; none while it is not.
    pub left_as: Option<Leaving>,
    /// Whether an abort or a completed trigger has struck it.
    pub struck: bool,
}

// Written out, so that it is proved once, and not by each function that drops one.
impl Drop for Frame {
    fn drop(self) {
        let Frame {
            mark: _,
            onward: _,
            left_as: _,
            struck: _,
        } = self;
    }
}
