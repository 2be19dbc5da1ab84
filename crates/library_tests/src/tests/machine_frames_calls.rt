//! A task that opens and leaves constructs in a small world.
use ann_base::{Raised, TaskNo};
use machine_frames::{
    Effect, frame_count, goes, has_room, in_protected, is_deferred, may_run, new_frame, new_task,
    number_of, onward_of, open_if_ready, pass_on, pop, push, raises, set_state, set_ticks, task_at,
    top_of, waiting_of,
};
use machine_program::Program;
use profile_image::{
    Image, ImageList, MainProcedure, Policies, Queuing, ScopeNo, Statement, StatementForm,
    StatementNo,
};
use profile_machine::Leaving;
use profile_machine::world::{Agenda, Drawn, Mark, Part, ReadyQueues, State, Waiting, World};
use rosters::Roster;
use std::alloc::Global;
use trace_text::Who;
use world_tables::List;

// A program whose first statement is a sequence with handlers, which begins with the second.
fn program_of(alloc: Global, statements: ImageList<Statement>) -> Program {
    let image = Image {
        declarations: ImageList::new(alloc),
        expressions: ImageList::new(alloc),
        statements,
        scopes: ImageList::new(alloc),
        subprograms: ImageList::new(alloc),
        task_units: ImageList::new(alloc),
        protected_units: ImageList::new(alloc),
        entries: ImageList::new(alloc),
        controlled_types: ImageList::new(alloc),
        enumerations: ImageList::new(alloc),
        policies: Policies {
            dispatching: ImageList::new(alloc),
            queuing: Queuing::Fifo,
            longest_queue: None,
            last_priority: 30,
        },
        environment: ScopeNo(0),
        main: MainProcedure {
            name: ImageList::new(alloc),
            priority: 15,
            scope: ScopeNo(0),
        },
    };
    Program::of(alloc, image)
}

fn empty_world(alloc: Global) -> World {
    World {
        time: 0,
        ran: None,
        script: List::new(alloc),
        ports: List::new(alloc),
        masked: List::new(alloc),
        kept_interrupts: List::new(alloc),
        tasks: Roster::new(alloc),
        agent: new_task(alloc, Who::Agent, 31, State::Made),
        places: ReadyQueues::new(alloc),
        quanta: List::new(alloc),
        ended: None,
        scopes: Roster::new(alloc),
        objects: Roster::new(alloc),
        calls: Roster::new(alloc),
        appointments: Agenda::new(alloc),
        timers: List::new(alloc),
        timers_set: List::new(alloc),
        timers_due: List::new(alloc),
        budgets: List::new(alloc),
        budget_due: None,
        registered: List::new(alloc),
        releases: List::new(alloc),
        serving: None,
        drawn: Drawn {
            tasks: 1,
            objects: 0,
            calls: 0,
            regions: 0,
            controlled: 0,
            releases: 0,
            scopes: 0,
            events: 0,
        },
    }
}

#[test]
fn constructs_of_a_task(rt: HostRuntime) {
    let alloc = rt.alloc();
    let name = Who::Task(TaskNo(0));
    let mut statements = ImageList::new(alloc);
    statements
        .push(Statement {
            form: StatementForm::Handled {
                handlers: ImageList::new(alloc),
                first: StatementNo(1),
            },
            signs: 0,
            next: Some(StatementNo(2)),
        })
        .expect(&rt, "memory");
    let p = program_of(alloc, statements);
    let mut effect = Effect {
        world: empty_world(alloc),
        said: List::new(alloc),
    };
    effect
        .world
        .tasks
        .push_back(new_task(alloc, name, 15, State::Runnable))
        .expect(&rt, "memory");
    push(
        &mut effect.world,
        name,
        new_frame(Mark::InFinalize(7), Some(StatementNo(0))),
    )
    .expect(&rt, "memory");
    open_if_ready(&p, &mut effect, name).expect(&rt, "memory");
    assert!(rt; frame_count(&effect.world, name) == 2);
    assert!(rt; onward_of(&effect.world, name) == Some(StatementNo(1)));
    let have_room = [
        has_room(&effect.world, name, 998, 65_536),
        has_room(&effect.world, name, 999, 0),
        has_room(&effect.world, name, 0, 65_537),
    ];
    assert!(rt; have_room == [true, false, false]);
    assert!(rt; is_deferred(&effect.world, name) && !in_protected(&effect.world, name));
    raises(&mut effect, Part::Own, name, Raised::Storage).expect(&rt, "memory");
    assert!(rt; effect.said.len() == 1);
    assert!(rt; onward_of(&effect.world, name) == None);
    assert!(rt;
        top_of(&effect.world, name).map(|frame| frame.left_as)
            == Some(Some(Leaving::Exception(Raised::Storage)))
    );
    pop(&mut effect.world, name);
    assert!(rt; onward_of(&effect.world, name) == Some(StatementNo(2)));
    goes(&mut effect, name, Some(StatementNo(3)));
    pass_on(&p, &mut effect, name, Leaving::Exit(StatementNo(0)));
    assert!(rt; onward_of(&effect.world, name) == Some(StatementNo(2)));
    set_ticks(&mut effect.world, name, Some(4));
    set_state(&mut effect.world, name, State::Blocked(Waiting::Moment));
    assert!(rt; !may_run(&effect.world, name) && waiting_of(&effect.world, name).is_some());
    assert!(rt; task_at(&effect.world, Who::Task(TaskNo(1))).is_none());
    assert!(rt; number_of(name) == Some(TaskNo(0)));
}
