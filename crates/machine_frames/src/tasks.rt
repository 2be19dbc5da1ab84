//! The tasks of a world and the agent, by name.
ghost use Rattle.std.specs.Prelude.{◌≡◌, Some, option_copied};
ghost use Rattle.std.specs.List.{position_from};
ghost use Rattle.std.specs.Option.{option_copied_mut};
ghost use Rattle.std.specs.Borrow.{sem};
ghost use Rattle.profile_machine.specs.Tasks.{is_who, found_task, task_at, task_of, new_task};
ghost use Rattle.profile_machine.specs.Tasks.{number_of, is_runnable, is_made, waiting_in};
ghost use Rattle.profile_machine.specs.Tasks.{waiting_of, edit_task, with_state, with_ticks};
ghost use Rattle.machine_frames.specs.Lends.{lends_found, lends_task};
ghost use Rattle.trace_text.specs.declared.events.Who.TheVariants.{Agent};

use ann_base::{Level, TaskNo};
use profile_image::TIME_LAST;
use profile_machine::world::{FrameStack, State, Task, Waiting, World, same_who};
use rosters::Roster;
use std::alloc::Global;
use trace_text::Who;
use world_tables::List;

/// A task, or the agent, as it begins. It takes no memory.
pub fn new_task(alloc: Global, who: Who, base: Level, state: State) -> Task
    ensures { result ≡ new_task who base state }
{
    Task {
        who,
        declared: None,
        unit: None,
        outer: None,
        state,
        frames: FrameStack::new(alloc),
        ticks_left: None,
        base,
        inherited: List::new(alloc),
        kept_level: None,
        deadline: TIME_LAST,
        relative_deadline: None,
        quantum: 0,
        cpu_ticks: 0,
        master: None,
        declarative_part: 0,
        activator: None,
        group_failed: false,
        completed: false,
        abnormal: false,
        deferred_base: None,
        deferred_deadline: None,
        budget: None,
        queues: List::new(alloc),
    }
}

// The agent among the tasks, if it is there. It stands elsewhere, so nobody is found.
#[inline(never)]
fn agent_among(tasks: &Roster<Task>) -> Option<&Task>
    ensures { option_copied result ≡ found_task Agent tasks.now }
{
    tasks.iter().find(|task| same_who(Who::Agent, task.who))
}

/// The task with this name, if it is there.
#[inline(always)]
pub fn found_task(name: Who, tasks: &Roster<Task>) -> Option<&Task>
    ensures { option_copied result ≡ found_task name tasks.now }
{
    match name {
        Who::Task(number) => tasks.find(number.0),
        Who::Agent => agent_among(tasks),
    }
}

/// The task, or the agent, that has this name, if it is there.
#[inline(always)]
pub fn task_at(world: &World, name: Who) -> Option<&Task>
    ensures { option_copied result ≡ task_at world.now name }
{
    match name {
        Who::Task(_) => found_task(name, &world.tasks),
        Who::Agent => Some(&world.agent),
    }
}

// Where the agent stands among the tasks.
#[inline(never)]
fn place_of_agent(tasks: &Roster<Task>) -> Option<usize>
    ensures { result ≡ position_from (is_who Agent) 0 tasks.now }
{
    tasks.iter().position(|task| same_who(Who::Agent, task.who))
}

// Where the first task with this name stands.
#[inline(always)]
fn place_of(tasks: &Roster<Task>, name: Who) -> Option<usize>
    ensures { result ≡ position_from (is_who name) 0 tasks.now }
{
    match name {
        Who::Task(number) => tasks.place_of(number.0),
        Who::Agent => place_of_agent(tasks),
    }
}

// The task at this place, where the first one with this name stands, for writing.
#[inline(always)]
fn task_in_place(tasks: &mut Roster<Task>, name: Who, place: usize) -> Option<&mut Task>
    requires { position_from (is_who name) 0 tasks.old ≡ Some place }
    ensures* writes_back { sem 𝓛 (lends_found tasks.entry name result) }
    ensures value { option_copied_mut result ≡ found_task name tasks.old }
{
    tasks.get_mut(place)
}

/// The task with this name for writing, if it is there.
#[inline(always)]
pub fn found_task_mut(tasks: &mut Roster<Task>, name: Who) -> Option<&mut Task>
    ensures* writes_back { sem 𝓛 (lends_found tasks.entry name result) }
    ensures value { option_copied_mut result ≡ found_task name tasks.old }
{
    match place_of(tasks, name) {
        Some(place) => task_in_place(tasks, name, place),
        None => None,
    }
}

/// The task, or the agent, that has this name, for writing, if it is there.
#[inline(always)]
pub fn task_mut(world: &mut World, name: Who) -> Option<&mut Task>
    ensures* writes_back { sem 𝓛 (lends_task world.entry name result) }
    ensures value { option_copied_mut result ≡ task_at world.old name }
{
    match name {
        Who::Task(_) => found_task_mut(&mut world.tasks, name),
        Who::Agent => Some(&mut world.agent),
    }
}

/// The number of a task; the agent has none.
pub fn number_of(name: Who) -> Option<TaskNo>
    ensures { result ≡ number_of name }
{
    match name {
        Who::Task(number) => Some(number),
        Who::Agent => None,
    }
}

/// Whether a task is ready or runs.
pub fn is_runnable(task: &Task) -> bool
    ensures { result ≡ is_runnable task.now }
{
    matches!(task.state, State::Runnable)
}

/// Whether a task is created and not activated.
pub fn is_made(task: &Task) -> bool
    ensures { result ≡ is_made task.now }
{
    matches!(task.state, State::Made)
}

/// Whether the one with this name is there, and is ready or runs.
pub fn may_run(world: &World, name: Who) -> bool
    ensures { result ≡ is_runnable (task_of world.now name) }
{
    match task_at(world, name) {
        Some(task) => is_runnable(task),
        None => false,
    }
}

/// What one who is blocked waits for.
pub fn waiting_in(state: &State) -> Option<&Waiting>
    ensures { option_copied result ≡ waiting_in state.now }
{
    match state {
        State::Made => None,
        State::Runnable => None,
        State::Blocked(waiting) => Some(waiting),
    }
}

/// What the one with this name waits for, if it is there and is blocked.
pub fn waiting_of(world: &World, name: Who) -> Option<&Waiting>
    ensures { option_copied result ≡ waiting_of world.now name }
{
    waiting_in(&task_at(world, name)?.state)
}

/// The one with this name is in another state.
pub fn set_state(world: &mut World, name: Who, state: State)
    ensures { world.new ≡ edit_task name (with_state state) world.old }
{
    if let Some(task) = task_mut(world, name) {
        task.state = state;
    }
}

/// So many ticks are left of the action that the one with this name has begun.
pub fn set_ticks(world: &mut World, name: Who, ticks: Option<u64>)
    ensures { world.new ≡ edit_task name (with_ticks ticks) world.old }
{
    if let Some(task) = task_mut(world, name) {
        task.ticks_left = ticks;
    }
}
