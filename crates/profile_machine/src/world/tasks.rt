//! Tasks, what they wait for, and the priorities that they inherit (clause 9, D.1, D.2).
ghost use Rattle.std.specs.Prelude.{◌≡◌};
ghost use Rattle.profile_machine.specs.Masters.{waits_at_terminate};
ghost use Rattle.profile_machine.specs.Tasks.{waiting_in};

use crate::world::frame_stack::FrameStack;
use crate::world::scopes::ScopeId;
use ann_base::{CallNo, Level, Moment, ObjectNo, RegionNo};
use profile_image::{DeclNo, StatementNo, TaskUnitNo};
use rosters::Numbered;
use trace_text::Who;
use world_tables::List;

/// What a blocked task, or the agent, waits for.
#[derive(Drop)]
pub enum Waiting {
    /// The tasks that it activates (9.2).
    Activation,
    /// Its moment (9.6).
    Moment,
    /// Its own call, until it ends (9.5.3).
    Call(CallNo),
    /// Its own call whose cancellation was attempted, until it ends (9.8).
    EndOfCall(CallNo),
    /// A call that the accept takes (9.5.2).
    Accept(StatementNo),
    /// The open accepts of a selective accept, the delay that is to be taken, and whether terminate
    /// is open (9.7.1).
    Select(List<StatementNo>, Option<StatementNo>, bool),
    /// The tasks that depend on the region (9.3).
    Dependents(RegionNo),
    /// The release of a handler; the agent alone.
    Release,
}

/// Whether a task may run.
#[derive(Drop)]
pub enum State {
    /// It is created and not activated.
    Made,
    /// It is ready or running.
    Runnable,
    /// It is blocked, and waits for this.
    Blocked(Waiting),
}

/// Why a priority is inherited (D.1).
#[derive(Clone, Copy)]
pub enum Cause {
    /// From the activator, during the activation.
    Activation,
    /// From the caller, during the rendezvous of this call.
    Rendezvous(CallNo),
    /// The ceiling of this object, during a protected action (D.3).
    Ceiling(ObjectNo),
}

/// A priority that is inherited, with its cause.
#[derive(Clone, Copy)]
pub struct Inherited {
    pub cause: Cause,
    pub level: Level,
}

/// A task that has not terminated, or the agent.
pub struct Task {
    pub who: Who,
    /// Its declaration; the environment task and the agent have none.
    pub declared: Option<DeclNo>,
    pub unit: Option<TaskUnitNo>,
    /// The scope in use round its body.
    pub outer: Option<ScopeId>,
    pub state: State,
    /// Its open constructs, the top one first.
    pub frames: FrameStack,
    /// Ticks that are left of the action that has begun.
    pub ticks_left: Option<u64>,
    /// The base priority (D.1).
    pub base: Level,
    pub inherited: List<Inherited>,
    /// The level that an EDF task keeps until it blocks (D.2.6).
    pub kept_level: Option<Level>,
    /// The deadline (D.2.6).
    pub deadline: Moment,
    /// What Relative_Deadline gave at the creation.
    pub relative_deadline: Option<Moment>,
    /// What is left of the quantum, in ticks (D.2.5).
    pub quantum: u64,
    /// The execution time, in ticks (D.14).
    pub cpu_ticks: u64,
    /// The region on which it depends.
    pub master: Option<RegionNo>,
    /// The declarative part that made it.
    pub declarative_part: u32,
    /// Who activates it, while it is activated.
    pub activator: Option<Who>,
    /// Whether a task of the group that it activates has failed.
    pub group_failed: bool,
    pub completed: bool,
    pub abnormal: bool,
    /// The base priority and the deadline that are set at the end of its protected action.
    pub deferred_base: Option<Level>,
    pub deferred_deadline: Option<Moment>,
    /// The group budget of which it is a member (D.14.2).
    pub budget: Option<u32>,
    /// The calls that are queued on each of its entries.
    pub queues: List<List<CallNo>>,
}

// Written out, so that it is proved once, and not by each function that drops one.
impl Drop for Task {
    fn drop(self) {
        let Task {
            who: _,
            declared: _,
            unit: _,
            outer: _,
            state: _,
            frames: _,
            ticks_left: _,
            base: _,
            inherited: _,
            kept_level: _,
            deadline: _,
            relative_deadline: _,
            quantum: _,
            cpu_ticks: _,
            master: _,
            declarative_part: _,
            activator: _,
            group_failed: _,
            completed: _,
            abnormal: _,
            deferred_base: _,
            deferred_deadline: _,
            budget: _,
            queues: _,
        } = self;
    }
}

// Whether somebody waits at a select with an open terminate alternative.
fn is_at_terminate(state: &State) -> bool
    ensures { result ≡ waits_at_terminate (waiting_in state.now) }
{
    match state {
        State::Blocked(Waiting::Select(_, _, terminate)) => *terminate,
        _ => false,
    }
}

impl Numbered for Task {
    ghost use Rattle.std.specs.Prelude.{length, ◌||◌};
    ghost use Rattle.profile_machine.specs.Numbered.{number_in_roster};
    ghost use Rattle.profile_machine.specs.Masters.{is_at_terminate};
    ghost use Rattle.profile_machine.specs.Unwinding.{any_struck};

    ghost number = { λ t. number_in_roster t.who };

    ghost size = { λ t. length t.frames };

    ghost stirs = { λ t. any_struck t.frames || is_at_terminate t };

    fn number(&self) -> Option<u32> {
        match self.who {
            Who::Task(number) => Some(number.0),
            Who::Agent => None,
        }
    }

    fn size(&self) -> usize {
        self.frames.len()
    }

    fn stirs(&self) -> bool {
        self.frames.any_struck() || is_at_terminate(&self.state)
    }
}

/// An entry of the ready queues: the level at which it was placed, and on an EDF level the
/// deadline.
#[derive(Clone, Copy)]
pub struct Placed {
    pub who: Who,
    pub level: Level,
    pub deadline: Option<Moment>,
}

/// A level with a deadline: of somebody inside an object of that ceiling, or of a ready task
/// (D.2.6).
#[derive(Clone, Copy)]
pub struct Rival {
    pub level: Level,
    pub deadline: Moment,
}
