//! The lines of a file that is read three bytes at a time.
use super::shelves::shelf;
use ann_base::{Failed, OrMemory};
use outside_bytes::Lines;

const BYTES: &[u8] = b"one\n\nthree, four\nlast";

#[test]
fn lines_are_handed_on_up_to_the_limit(rt: HostRuntime) {
    let mut shelf = shelf(rt.alloc(), b"file", BYTES, 3, &[]).expect(&rt, "memory");
    let mut lines = Lines::open(rt.alloc(), &mut shelf, b"file", 18).expect(&rt, "not opened");
    let mut line = Vec::new(rt.alloc());
    assert!(rt; lines.next(&mut shelf, &mut line, 20) == Ok(true));
    assert!(rt; line.as_slice() == b"one\n".as_slice());
    assert!(rt; lines.next(&mut shelf, &mut line, 20) == Ok(true));
    assert!(rt; line.as_slice() == b"\n".as_slice());
    assert!(rt; lines.next(&mut shelf, &mut line, 6) == Ok(true));
    assert!(rt; line.as_slice() == b"three,".as_slice());
    assert!(rt; lines.next(&mut shelf, &mut line, 6) == Ok(true));
    assert!(rt; line.as_slice() == b" four\n".as_slice());
    assert!(rt; lines.next(&mut shelf, &mut line, 20) == Ok(true));
    assert!(rt; line.as_slice() == b"l".as_slice());
    assert!(rt; lines.next(&mut shelf, &mut line, 20) == Ok(false));
    assert!(rt; line.as_slice() == b"".as_slice());
}

#[test]
fn a_line_goes_on_after_a_fault(rt: HostRuntime) {
    let mut shelf = shelf(rt.alloc(), b"file", BYTES, 3, &[3]).expect(&rt, "memory");
    let mut lines = Lines::open(rt.alloc(), &mut shelf, b"file", 100).expect(&rt, "not opened");
    let mut line = Vec::new(rt.alloc());
    assert!(rt; lines.next(&mut shelf, &mut line, 20) == Err(OrMemory::Fault(Failed)));
    assert!(rt; line.as_slice() == b"one".as_slice());
    assert!(rt; lines.next(&mut shelf, &mut line, 20) == Ok(true));
    assert!(rt; line.as_slice() == b"\n".as_slice());
}
