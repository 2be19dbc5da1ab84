//! Lines of worked traces, written.
ghost use Rattle.trace_text.specs.Text.{IsPrintable};

use ann_base::{CallNo, ObjectNo, RegionNo, TaskNo};
use line_writing::{LineBuffer, write_line};
use std::process::Abort;
use trace_text::{Ended, Event, Finished, Leaves, Mode, QueueEnd, Waits, Who, tests_tell};

// The event's line at tick 8 is this.
fn expect(rt: &impl Abort, buffer: &mut LineBuffer, event: Event, line: &str)
    requires { IsPrintable event }
{
    buffer.clear();
    write_line(8, &event.lend(), buffer);
    assert!(rt; buffer.bytes() == line.as_bytes(), "{line}");
}

#[test]
fn events_have_their_lines(rt: HostRuntime) {
    let mut buffer = LineBuffer::new(rt.alloc()).expect(&rt, "memory");
    let who = Who::Task(TaskNo(2));
    let ready = Event::Ready {
        who,
        level: 7,
        end: QueueEnd::Head,
        deadline: Some(-5),
    };
    expect(&rt, &mut buffer, ready, "8 t2 ready 7 head -5\n");
    let last = Event::Ready {
        who: Who::Agent,
        level: 31,
        end: QueueEnd::Tail,
        deadline: None,
    };
    expect(&rt, &mut buffer, last, "8 agent ready 31 tail\n");
    let block = Event::Block {
        who,
        waits: Waits::Dependents,
    };
    expect(&rt, &mut buffer, block, "8 t2 block dependents\n");
    let held = Event::Held {
        who,
        object: ObjectNo(1),
        mode: Mode::Write,
    };
    expect(&rt, &mut buffer, held, "8 t2 held p1 write\n");
    let leave = Event::Leave {
        who,
        region: RegionNo(1),
        how: Leaves::Terminate,
    };
    expect(&rt, &mut buffer, leave, "8 t2 leave 1 terminate\n");
    let finish = Event::Finish {
        who,
        call: CallNo(1),
        how: Finished::Requeue,
    };
    expect(&rt, &mut buffer, finish, "8 t2 finish 1 requeue\n");
    let port = Event::Port {
        number: 7,
        value: -3,
    };
    expect(&rt, &mut buffer, port, "8 port 7 -3\n");
    let end = Event::End { why: Ended::Stuck };
    expect(&rt, &mut buffer, end, "8 end stuck\n");
    tests_tell();
}
