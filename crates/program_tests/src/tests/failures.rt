//! A run is whole, or is not there for a read that fails, or is a beginning for a write that fails.
use super::memory::{shelf_of, sink_of, words_of};
use super::rows::{INTERRUPTED, PUTS};
use run_commands::perform;

#[test]
fn runs_are_the_worked_traces_however_few_bytes_move(rt: HostRuntime) {
    let alloc = rt.alloc();
    for row in [PUTS, INTERRUPTED] {
        let words = words_of(alloc, &row).expect(&rt, "memory");
        for most in [1, 7, 1_000] {
            let mut shelf = shelf_of(alloc, &row, most, &[]).expect(&rt, "memory");
            let mut sink = sink_of(alloc, most, &[]).expect(&rt, "memory");
            let outcome = perform(alloc, words.as_slice(), &mut shelf, &mut sink);
            assert!(rt; outcome.status() == row.status);
            assert!(rt; sink.held() == row.trace);
        }
    }
}

#[test]
fn nothing_is_written_where_a_read_fails(rt: HostRuntime) {
    let alloc = rt.alloc();
    for row in [PUTS, INTERRUPTED] {
        let words = words_of(alloc, &row).expect(&rt, "memory");
        for read in 1..row.reads + 1 {
            let mut shelf = shelf_of(alloc, &row, 1_000, &[read]).expect(&rt, "memory");
            let mut sink = sink_of(alloc, 1_000, &[]).expect(&rt, "memory");
            let outcome = perform(alloc, words.as_slice(), &mut shelf, &mut sink);
            assert!(rt; outcome.status() == 7);
            assert!(rt; sink.held().is_empty());
        }
    }
}

#[test]
fn what_is_written_before_a_write_fails_begins_the_trace(rt: HostRuntime) {
    let alloc = rt.alloc();
    for row in [PUTS, INTERRUPTED] {
        let words = words_of(alloc, &row).expect(&rt, "memory");
        for write in [1, 2, 5] {
            let mut shelf = shelf_of(alloc, &row, 1_000, &[]).expect(&rt, "memory");
            let mut sink = sink_of(alloc, 10, &[write]).expect(&rt, "memory");
            let outcome = perform(alloc, words.as_slice(), &mut shelf, &mut sink);
            assert!(rt; outcome.status() == 8);
            assert!(rt; sink.held().len() < row.trace.len());
            assert!(rt; row.trace.starts_with(sink.held()));
        }
    }
}
