//! The world of a run: everything that decides how the run goes on. It is plain data: structs,
//! enums, lists and numbers, and the definitions of the machine speak of just these types.
mod agenda;
mod appointments;
mod calls;
mod frame_stack;
mod lines;
mod marks;
mod objects;
mod ready_queues;
mod scopes;
mod tasks;

pub use agenda::{Agenda, DueOf, has_come};
use ann_base::{Moment, Raised};
pub use appointments::{
    Appointment, Budget, Due, HandlerOf, Registered, Release, Timer, TimerSetting,
};
pub use calls::{Call, CallKind, DelayMoment, EntryCallNamed, Outcome, Owner, Sending};
pub use frame_stack::{FrameStack, defers, is_protected};
pub use lines::{Line, MeetingEnd, Part, Said};
pub use marks::{
    AbortableMark, AcceptMark, AssignMark, AssignStep, CopyBack, Frame, Mark, ProtectedMark,
    Purpose, ResultTo, ScopeMark,
};
pub use objects::{Action, Entering, Object};
use profile_image::Item;
pub use ready_queues::{ReadyQueues, same_who};
use rosters::Roster;
pub use scopes::{Beginning, Handed, Located, ScopeId, ScopeInUse, Variable};
pub use tasks::{Cause, Inherited, Placed, Rival, State, Task, Waiting};
use trace_text::Who;
use world_tables::List;

/// How many of each kind were drawn: each new one gets the next number.
#[derive(Clone, Copy)]
pub struct Drawn {
    pub tasks: u32,
    pub objects: u32,
    pub calls: u32,
    pub regions: u32,
    /// Controlled objects that were registered.
    pub controlled: u32,
    pub releases: u32,
    pub scopes: u32,
    pub events: u32,
}

/// The world of a run.
pub struct World {
    /// The present moment, in ticks.
    pub time: u64,
    /// Who ran the tick before.
    pub ran: Option<Who>,
    /// The items of the script that are ahead.
    pub script: List<(Moment, Item)>,
    /// The values of the 16 ports.
    pub ports: List<i32>,
    /// Which of the 16 interrupts are masked, and which are kept for their unmasking.
    pub masked: List<bool>,
    pub kept_interrupts: List<bool>,
    /// The tasks that have not terminated, by number.
    pub tasks: Roster<Task>,
    /// The agent that runs handlers.
    pub agent: Task,
    /// The ready queues: the head of the highest level first (D.2.1).
    pub places: ReadyQueues,
    /// The quantum of each level, in ticks (D.2.5).
    pub quanta: List<u64>,
    /// How the environment task ended: by an exception or not; none while it has not.
    pub ended: Option<Option<Raised>>,
    /// The scopes in use, the newest first.
    pub scopes: Roster<ScopeInUse>,
    /// The protected objects that are there.
    pub objects: Roster<Object>,
    /// The entry calls that have not been resumed by their callers.
    pub calls: Roster<Call>,
    /// By moment, and of one moment in the order in which they were set.
    pub appointments: Agenda,
    /// The timers by number.
    pub timers: List<Timer>,
    /// The timers that are set, in the order in which they were set.
    pub timers_set: List<u32>,
    /// The timers that the last tick made due.
    pub timers_due: List<u32>,
    /// The group budgets by number.
    pub budgets: List<Budget>,
    /// The budget that the last tick made due.
    pub budget_due: Option<u32>,
    /// The registered controlled objects, the newest first.
    pub registered: List<Registered>,
    /// The releases that are pending, in order.
    pub releases: List<Release>,
    /// The release that is served.
    pub serving: Option<Release>,
    pub drawn: Drawn,
}

// Written out, so that it is proved once, and not by each function that drops one.
impl Drop for World {
    fn drop(self) {
        let World {
            time: _,
            ran: _,
            script: _,
            ports: _,
            masked: _,
            kept_interrupts: _,
            tasks: _,
            agent: _,
            places: _,
            quanta: _,
            ended: _,
            scopes: _,
            objects: _,
            calls: _,
            appointments: _,
            timers: _,
            timers_set: _,
            timers_due: _,
            budgets: _,
            budget_due: _,
            registered: _,
            releases: _,
            serving: _,
            drawn: _,
        } = self;
    }
}
