//! Worked traces: one that is lawful, and others that break a law or are not formed.
use ann_base::OrMemory;
use std::alloc::Global;
use trace_laws::{Law, LawFault, Laws, Verdict, answers_tell, rows_tell, verdicts_tell};
use trace_reading::read_line;

const LAWFUL: [&str; 5] = [
    "0 t0 new main 15\n",
    "0 t0 ready 15 tail\n",
    "0 t0 run\n",
    "9 t0 done\n",
    "9 end completed\n",
];

const LOW_CEILING: [&str; 10] = [
    "0 t0 new main 15\n",
    "0 t0 ready 15 tail\n",
    "0 t0 run\n",
    "3 p1 new main.p 9\n",
    "5 t0 enter p1 write\n",
    "5 t0 ready 20 head\n",
    "8 t0 exit p1\n",
    "8 t0 ready 15 head\n",
    "10 t0 done\n",
    "10 end completed\n",
];

const NEW_TWICE: [&str; 2] = ["0 t0 new main 15\n", "0 t0 new main 15\n"];

// The verdict on lines, with ample memory.
fn verdict(alloc: Global, lines: &[&str]) -> Verdict {
    let mut laws = Laws::new(alloc);
    for (place, line) in lines.iter().enumerate() {
        let number = place as u64 + 1;
        let Ok((tick, event)) = read_line(line.as_bytes()) else {
            return Verdict::Refused(number);
        };
        match laws.line(tick, &event) {
            Ok(()) => {}
            Err(OrMemory::Fault(LawFault::Broken(law))) => return Verdict::Broken(number, law),
            Err(_) => return Verdict::Refused(number),
        }
    }
    Verdict::Lawful(lines.len() as u64)
}

#[test]
fn verdicts_are_those_of_the_rows(rt: HostRuntime) {
    answers_tell();
    verdicts_tell();
    rows_tell();
    let alloc = rt.alloc();
    assert!(rt; verdict(alloc, &LAWFUL) == Verdict::Lawful(5));
    assert!(rt; verdict(alloc, &LOW_CEILING) == Verdict::Broken(5, Law::Ceiling));
    assert!(rt; verdict(alloc, &NEW_TWICE) == Verdict::Refused(2));
}
