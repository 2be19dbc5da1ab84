//! Lines of worked traces, read and written again, and lines that are none.
use line_writing::{LineBuffer, write_line};
use trace_reading::{long_texts_are_bad, read_line, texts_differ};

const LINES: [&str; 6] = [
    "8 t1 ready 7 head -5\n",
    "12 t1 deadline -9223372036854775808\n",
    "7 agent put  two  blanks ~\n",
    "27 t2 finish 1 main.e\n",
    "7 end exception program_error\n",
    "18446744073709551615 idle\n",
];

const BAD: [&str; 3] = ["0 t0 run", "01 t0 run\n", "0 t0 raise ok\n"];

#[test]
fn lines_are_read_and_written(rt: HostRuntime) {
    let mut buffer = LineBuffer::new(rt.alloc()).expect(&rt, "memory");
    for line in LINES {
        let (tick, event) = read_line(line.as_bytes()).expect(&rt, "a line");
        buffer.clear();
        write_line(tick, &event.lend(), &mut buffer);
        assert!(rt; buffer.bytes() == line.as_bytes(), "{line}");
    }
    texts_differ();
    long_texts_are_bad();
}

#[test]
fn other_lines_are_bad(rt: HostRuntime) {
    for line in BAD {
        assert!(rt; read_line(line.as_bytes()).is_err(), "{line}");
    }
}
