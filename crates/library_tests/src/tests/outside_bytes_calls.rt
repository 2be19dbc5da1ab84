//! Whole files and whole pieces, read and written three and two bytes at a time.
use super::shelves::shelf;
use ann_base::{Failed, OrMemory};
use outside_bytes::{read_file, write_four};
use outside_memory::MemSink;

const BYTES: &[u8] = b"hello world";

#[test]
fn a_file_is_read_up_to_the_limit(rt: HostRuntime) {
    for (most, bytes) in [
        (20, b"hello world".as_slice()),
        (11, b"hello world"),
        (4, b"hell"),
    ] {
        let mut shelf = shelf(rt.alloc(), b"file", BYTES, 3, &[]).expect(&rt, "memory");
        let read = read_file(rt.alloc(), &mut shelf, b"file", most);
        assert!(rt; read.expect(&rt, "not read").as_slice() == bytes);
    }
    for (name, fails) in [(b"other".as_slice(), [9]), (b"file", [1]), (b"file", [3])] {
        let mut shelf = shelf(rt.alloc(), b"file", BYTES, 3, &fails).expect(&rt, "memory");
        let read = read_file(rt.alloc(), &mut shelf, name, 20);
        assert!(rt; read.err() == Some(OrMemory::Fault(Failed)));
    }
}

#[test]
fn pieces_are_written_whole_or_in_part(rt: HostRuntime) {
    let alloc = rt.alloc();
    let mut sink = MemSink::new(alloc, 2, 20, vec![in alloc; 9].expect(&rt, "memory")).expect(
        &rt,
        "no memory",
    );
    let written = [
        write_four(&mut sink, b"one", b"", b"two", b"three"),
        write_four(&mut sink, b"four", b"", b"", b""),
    ];
    assert!(rt; written == [Ok(()), Err(Failed)]);
    assert!(rt; sink.held() == b"onetwothreefo".as_slice());
}
