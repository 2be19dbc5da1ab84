//! The lists of a world, each call once: who is found, who runs first, what is due, and what is
//! open.
use ann_base::{CallNo, TaskNo};
use machine_frames::new_frame;
use profile_image::{ScopeNo, StatementNo, SubprogramNo, Value};
use profile_machine::world::{
    Agenda, Appointment, Due, DueOf, FrameStack, HandlerOf, Mark, Placed, ReadyQueues, ScopeId,
    ScopeInUse,
};
use rosters::Roster;
use std::alloc::Global;
use trace_text::{QueueEnd, Who};
use world_tables::List;

fn scope(alloc: Global, id: u32) -> ScopeInUse {
    ScopeInUse {
        id: ScopeId(id),
        scope: ScopeNo(0),
        outer: None,
        owner: Who::Agent,
        object: None,
        subject: None,
        cells: List::new(alloc),
    }
}

#[test]
fn scopes_by_number(rt: HostRuntime) {
    let mut scopes = Roster::new(rt.alloc());
    for id in [2, 3, 5] {
        scopes
            .push_front(scope(rt.alloc(), id))
            .expect(&rt, "memory");
    }
    scopes.push_back(scope(rt.alloc(), 1)).expect(&rt, "memory");
    assert!(rt;
        [scopes.place_of(5), scopes.place_of(1), scopes.place_of(4)] == [Some(0), Some(3), None]
    );
    assert!(rt; scopes.fits(0) && scopes.is_calm());
    if let Some(found) = scopes.get_mut(1) {
        found.cells.push_back(Value::Whole(7)).expect(&rt, "memory");
    }
    assert!(rt; (scopes.fits(0), scopes.fits(1)) == (false, true));
    assert!(rt; scopes.find(3).map(|found| found.cells.len()) == Some(1));
    assert!(rt; scopes.get(2).map(|found| found.id.0) == Some(2));
    scopes.forget(3);
    assert!(rt; (scopes.len(), scopes.fits(0), scopes.find(3).is_none()) == (3, true, true));
    scopes.retain(|found| found.id.0 != 5);
    assert!(rt; scopes.iter().all(|found| found.id.0 < 3));
}

fn placed(task: u32, level: u8, deadline: Option<i64>) -> Placed {
    Placed {
        who: Who::Task(TaskNo(task)),
        level,
        deadline,
    }
}

fn first(queues: &ReadyQueues) -> Option<Who> {
    queues.front().map(|entry| entry.who)
}

#[test]
fn who_runs_first(rt: HostRuntime) {
    let mut queues = ReadyQueues::new(rt.alloc());
    assert!(rt; queues.is_empty());
    for (end, entry) in [
        (QueueEnd::Tail, placed(1, 10, None)),
        (QueueEnd::Tail, placed(2, 20, None)),
        (QueueEnd::Head, placed(3, 20, None)),
    ] {
        queues.place(end, entry).expect(&rt, "memory");
    }
    assert!(rt; first(&queues) == Some(Who::Task(TaskNo(3))));
    queues
        .place(QueueEnd::Tail, placed(3, 20, None))
        .expect(&rt, "memory");
    assert!(rt; first(&queues) == Some(Who::Task(TaskNo(2))));
    queues
        .place(QueueEnd::Tail, placed(4, 20, Some(500)))
        .expect(&rt, "memory");
    assert!(rt; first(&queues) == Some(Who::Task(TaskNo(4))));
    for task in [4, 2, 3, 1] {
        queues.take_out(Who::Task(TaskNo(task)));
    }
    assert!(rt; queues.is_empty());
}

#[test]
fn what_is_due(rt: HostRuntime) {
    let mut agenda = Agenda::new(rt.alloc());
    let handler = HandlerOf {
        object: ann_base::ObjectNo(1),
        procedure: SubprogramNo(0),
    };
    for (due, moment) in [
        (Due::Delay(TaskNo(1)), 30),
        (Due::Event(7, handler), 10),
        (Due::Timeout(CallNo(3)), 10),
    ] {
        agenda
            .put(Appointment { due, moment })
            .expect(&rt, "memory");
    }
    agenda.stands_in_order();
    assert!(rt; agenda.front().map(|a| a.moment) == Some(10));
    assert!(rt; agenda.first_due(true, 9).is_none() && agenda.first_due(true, 10).is_some());
    assert!(rt;
        matches!(
            agenda.first_due(false, 10).map(|a| a.due),
            Some(Due::Timeout(_))
        )
    );
    assert!(rt; agenda.has(DueOf::Event(7)) && !agenda.has(DueOf::Event(8)));
    assert!(rt;
        agenda
            .appointment_for(DueOf::Delay(TaskNo(1)))
            .map(|a| a.moment)
            == Some(30)
    );
    agenda.forget(DueOf::Event(7));
    assert!(rt; (agenda.len(), agenda.is_empty()) == (2, false));
    assert!(rt; agenda.iter().all(|a| 10 <= a.moment) && !agenda.has(DueOf::Event(7)));
}

#[test]
fn what_is_open(rt: HostRuntime) {
    let mut stack = FrameStack::new(rt.alloc());
    assert!(rt; stack.is_empty());
    for mark in [
        Mark::Handled(StatementNo(1)),
        Mark::InFinalize(7),
        Mark::Handled(StatementNo(2)),
    ] {
        stack
            .push_front(new_frame(mark, None))
            .expect(&rt, "memory");
    }
    assert!(rt; stack.any_defers() && !stack.any_protected() && !stack.any_struck());
    if let Some(frame) = stack.get_mut(2) {
        frame.struck = true;
    }
    if let Some(frame) = stack.front_mut() {
        frame.onward = Some(StatementNo(4));
    }
    assert!(rt; stack.front().map(|frame| frame.onward) == Some(Some(StatementNo(4))));
    assert!(rt; stack.any_struck() && stack.pop_front().is_some() && stack.pop_front().is_some());
    assert!(rt; !stack.any_defers() && stack.any_struck());
    assert!(rt; (stack.len(), stack.iter().all(|frame| frame.struck)) == (1, true));
}
