//! The world in which a run begins (ISO/IEC 8652:2012, 10.2).
ghost use Rattle.std.specs.Prelude.{◌≡◌, ◌++◌, ◌∷◌, [], IfOk, OnOk, replicate};
ghost use Rattle.profile_machine.specs.Run.{environment_task, agent_at_first, nothing_drawn};
ghost use Rattle.profile_machine.specs.Run.{blank_world, environment, opens, opening};
ghost use Rattle.machine_frames.specs.Did.{Did};
ghost use Rattle.machine_dispatching.specs.Settling.{written};

use ann_base::{Level, Moment, NoMemory, TaskNo};
use machine_dispatching::{settle, to_tail};
use machine_frames::{Effect, new_task, open_sequence, says};
use machine_program::{
    Program, environment as environment_scope, interrupt_priority, main_procedure,
};
use machine_scopes::{open_scope, plainly};
use profile_image::{DEFAULT_QUANTUM, Item, LAST_OUTSIDE_LINE};
use profile_machine::world::{
    Agenda, Drawn, Line, Part, Purpose, ReadyQueues, State, Task, Waiting, World,
};
use rosters::Roster;
use std::alloc::Global;
use trace_text::{Created, Who};
use world_tables::List;

/// The environment task.
const ENVIRONMENT: Who = Who::Task(TaskNo(0));

fn environment_task(alloc: Global, p: &Program) -> Task
    ensures { result ≡ environment_task p.now }
{
    new_task(
        alloc,
        ENVIRONMENT,
        main_procedure(p).priority,
        State::Runnable,
    )
}

// Handlers run on one agent, at the priority of interrupts. Errors: that priority is no level.
fn agent_at_first(alloc: Global, p: &Program) -> Result<Task, NoMemory>
    ensures { IfOk result (λ agent. agent ≡ agent_at_first p.now) }
{
    match Level::try_from(interrupt_priority(p)) {
        Ok(level) => Ok(new_task(alloc, Who::Agent, level, State::Blocked(Waiting::Release))),
        Err(_) => Err(NoMemory),
    }
}

fn nothing_drawn() -> Drawn
    ensures { result ≡ nothing_drawn }
{
    Drawn {
        tasks: 1,
        objects: 0,
        calls: 0,
        regions: 0,
        controlled: 0,
        releases: 0,
        scopes: 0,
        events: 0,
    }
}

fn ports(alloc: Global, value: i32, count: u32) -> Result<List<i32>, NoMemory>
    ensures { IfOk result (λ ports. ports ≡ replicate count value) }
{
    let mut ports = List::new(alloc);
    for _ in 0..count {
        ports.push_front(value)?;
    }
    Ok(ports)
}

fn flags(alloc: Global, flag: bool, count: u32) -> Result<List<bool>, NoMemory>
    ensures { IfOk result (λ flags. flags ≡ replicate count flag) }
{
    let mut flags = List::new(alloc);
    for _ in 0..count {
        flags.push_front(flag)?;
    }
    Ok(flags)
}

fn quanta(alloc: Global, quantum: u64, count: u32) -> Result<List<u64>, NoMemory>
    ensures { IfOk result (λ quanta. quanta ≡ replicate count quantum) }
{
    let mut quanta = List::new(alloc);
    for _ in 0..count {
        quanta.push_front(quantum)?;
    }
    Ok(quanta)
}

fn tasks_at_first(alloc: Global, p: &Program) -> Result<Roster<Task>, NoMemory>
    ensures { IfOk result (λ tasks. tasks ≡ environment_task p.now ∷ []) }
{
    let mut tasks = Roster::new(alloc);
    tasks.push_back(environment_task(alloc, p))?;
    Ok(tasks)
}

// The world before the environment task is ready.
fn blank_world(alloc: Global, p: &Program, script: List<(Moment, Item)>) -> Result<World, NoMemory>
    ensures { IfOk result (λ world. world ≡ blank_world p.now script) }
{
    Ok(World {
        time: 0,
        ran: None,
        script,
        ports: ports(alloc, 0, LAST_OUTSIDE_LINE + 1)?,
        masked: flags(alloc, false, LAST_OUTSIDE_LINE + 1)?,
        kept_interrupts: flags(alloc, false, LAST_OUTSIDE_LINE + 1)?,
        tasks: tasks_at_first(alloc, p)?,
        agent: agent_at_first(alloc, p)?,
        places: ReadyQueues::new(alloc),
        quanta: quanta(alloc, DEFAULT_QUANTUM, interrupt_priority(p) + 1)?,
        ended: None,
        scopes: Roster::new(alloc),
        objects: Roster::new(alloc),
        calls: Roster::new(alloc),
        appointments: Agenda::new(alloc),
        timers: List::new(alloc),
        timers_set: List::new(alloc),
        timers_due: List::new(alloc),
        budgets: List::new(alloc),
        budget_due: None,
        registered: List::new(alloc),
        releases: List::new(alloc),
        serving: None,
        drawn: nothing_drawn(),
    })
}

// The environment task is created and ready, and the program's elaboration is its rest.
#[tactic(auto, unfolding(profile_machine::specs::Run::opens))]
fn opens(alloc: Global, p: &Program, effect: &mut Effect) -> Result<(), NoMemory>
    ensures { OnOk result (Did (opens p.now) effect.old effect.new) }
{
    let begins = plainly(alloc, None);
    let scope = environment_scope(p);
    open_scope(
        alloc,
        p,
        ENVIRONMENT,
        scope,
        begins,
        Purpose::Task,
        &mut effect.world,
    )?;
    says(
        effect,
        Part::Own,
        Line::New {
            what: Created::Task(TaskNo(0)),
            declared: None,
            level: main_procedure(p).priority,
        },
    )?;
    to_tail(p, effect, Part::Own, ENVIRONMENT)?;
    open_sequence(p, effect, Part::Own, ENVIRONMENT)
}

/// The world in which a run with this script begins; its lines stand behind those that are there.
///
/// Errors: memory ran out.
pub fn opening(
    alloc: Global,
    p: &Program,
    script: List<(Moment, Item)>,
    lines: &mut List<Line>,
) -> Result<Effect, NoMemory>
    ensures world { IfOk result (λ effect. effect.world ≡ (opening p.now script).0) }
    ensures lines { OnOk result
        (written p.now lines.new ≡ written p.now lines.old ++ (opening p.now script).1) }
    ensures in_order { IfOk result (λ effect. effect.said ≡ []) }
{
    let mut effect = Effect {
        world: blank_world(alloc, p, script)?,
        said: List::new(alloc),
    };
    opens(alloc, p, &mut effect)?;
    settle(alloc, &mut effect, lines)?;
    Ok(effect)
}
