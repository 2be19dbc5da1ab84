//! Worked tables, and texts that are refused.
use ann_base::OrMemory;
use sched_tests::{Table, busy, first_over, read_table, response};
use std::alloc::Global;

/// Response times: `a` 3, `b` 6 and `c` 20.
const THREE: &[u8] = b"a 3 7 7 0 3\nb 3 12 12 0 2\nc 5 20 20 0 1\n";

/// The same where `c` misses its deadline.
const MISSED: &[u8] = b"a 3 7 7 0 3\r\n\r\n-- c\r\nb 3 12 12 0 2\r\nc 5 20 19 0 1";

/// Half of the time for each of two duties.
const FULL: &[u8] = b"a 2 4 4 0 1\nb 3 6 6 0 1\n";

/// The same where too much is due in four ticks.
const OVERRUN: &[u8] = b"a 2 4 4 0 1\nb 3 6 4 0 1\n";

/// The response time of the duty at this place; 0 where it misses.
fn time_of(table: &Table, place: u32) -> u32 {
    if place < table.len() {
        response(table, place).unwrap_or(0)
    } else {
        0
    }
}

fn fault_of(alloc: Global, text: &[u8]) -> Option<(u32, u8)> {
    match read_table(alloc, text) {
        Err(OrMemory::Fault(fault)) => Some((fault.line, fault.kind.number())),
        _ => None,
    }
}

#[test]
fn worked_response_times(rt: HostRuntime) {
    let table = read_table(rt.alloc(), THREE).expect(&rt, "a table");
    let missed = read_table(rt.alloc(), MISSED).expect(&rt, "a table");
    assert!(rt; table.len() == 3);
    let times = [
        time_of(&table, 0),
        time_of(&table, 1),
        time_of(&table, 2),
        time_of(&missed, 1),
        time_of(&missed, 2),
    ];
    assert!(rt; times == [3, 6, 20, 6, 0]);
    // the words of the last line
    let last = missed.duty(2).expect(&rt, "a third duty");
    assert!(rt; last.name.as_bytes() == b"c".as_slice());
    let numbers = (last.cost, last.period, last.deadline, last.blocking);
    assert!(rt; (numbers, last.priority) == ((5, 20, 19, 0), 1));
    assert!(rt; missed.duty(3).is_none());
}

#[test]
fn worked_demands(rt: HostRuntime) {
    let full = read_table(rt.alloc(), FULL).expect(&rt, "a table");
    let overrun = read_table(rt.alloc(), OVERRUN).expect(&rt, "a table");
    assert!(rt; first_over(&full) == None);
    assert!(rt; busy(&full) == Some(12));
    assert!(rt; first_over(&overrun) == Some((4, 5)));
    // a table without a duty
    assert!(rt; fault_of(rt.alloc(), b"-- a comment\n") == Some((0, 5)));
}
