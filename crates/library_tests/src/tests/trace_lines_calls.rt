//! A few lines, taken one after the other.
use ann_base::{ObjectNo, OrMemory, TaskNo};
use trace_lines::{Lines, Malformed, facts_tell};
use trace_reading::read_line;
use trace_text::{Event, Who};

const TASK: TaskNo = TaskNo(0);

const WHO: Who = Who::Task(TASK);

const TAKEN: Result<(), OrMemory<Malformed>> = Ok(());

const MALFORMED: Result<(), OrMemory<Malformed>> = Err(OrMemory::Fault(Malformed));

/// Lines, with what is answered of each and who runs then.
const ROWS: [(&str, Result<(), OrMemory<Malformed>>, Option<Who>); 9] = [
    ("0 t0 new main 15\n", TAKEN, None),
    // new twice
    ("0 t0 new main 15\n", MALFORMED, None),
    ("1 p1 new main.p 20\n", TAKEN, None),
    // not ready
    ("2 t0 enter p1 write\n", MALFORMED, None),
    ("2 t0 ready 16 tail -5\n", TAKEN, None),
    ("2 t0 enter p1 write\n", TAKEN, None),
    // the tick falls, and is too late
    ("1 idle\n", MALFORMED, None),
    ("1000000001 idle\n", MALFORMED, None),
    ("3 t0 run\n", TAKEN, Some(WHO)),
];

#[test]
fn facts_follow_lines(rt: HostRuntime) {
    let mut lines = Lines::new(rt.alloc());
    facts_tell();
    for (line, answer, runner) in ROWS {
        let (tick, event) = read_line(line.as_bytes()).expect(&rt, "a line");
        assert!(rt;
            lines.take(tick, &event) == answer && lines.runner() == runner,
            "{line}"
        );
    }
    assert!(rt; lines.head() == Some(WHO));
    let levels = [
        lines.level(WHO),
        lines.base(TASK),
        lines.ceiling(ObjectNo(1)),
    ];
    assert!(rt; levels == [Some(16), Some(15), Some(20)]);
    assert!(rt; lines.deadline(WHO) == Some(-5));
    assert!(rt; lines.last() == 3);
    assert!(rt; lines.take(3, &Event::Done { task: TASK }) == TAKEN);
    assert!(rt; lines.head() == None && lines.entry(WHO).is_none());
}
