//! Shelves and sinks in memory and of the host, and names.
use ann_base::{Failed, Name, Shelf, Sink};
use outside_host::{HostShelf, HostSink};
use outside_memory::{MemShelf, MemSink};
use std::alloc::{AllocError, Global};

fn two_files(alloc: Global) -> Result<Vec<(Vec<u8>, Vec<u8>)>, AllocError> {
    let mut files = Vec::new(alloc);
    files.push((
        Vec::from_slice(alloc, b"a")?,
        Vec::from_slice(alloc, b"hello")?,
    ))?;
    files.push((
        Vec::from_slice(alloc, b"a")?,
        Vec::from_slice(alloc, b"no")?,
    ))?;
    Ok(files)
}

#[test]
fn a_shelf_in_memory_is_read_in_pieces(rt: HostRuntime) {
    let alloc = rt.alloc();
    let mut shelf = MemShelf::new(
        two_files(alloc).expect(&rt, "memory"),
        2,
        vec![in alloc; 4].expect(&rt, "memory"),
    );
    let mut piece = [0; 8];
    assert!(rt; shelf.pick(b"b") == Err(Failed));
    assert!(rt; shelf.pick(b"a") == Ok(()));
    let read = [
        shelf.read(&mut piece),
        shelf.read(&mut piece),
        shelf.read(&mut piece[2..]),
        shelf.read(&mut piece[4..]),
        shelf.read(&mut piece[5..]),
    ];
    assert!(rt; read == [Ok(2), Err(Failed), Ok(2), Ok(1), Ok(0)]);
    assert!(rt; piece == *b"hello\0\0\0");
}

#[test]
fn a_sink_in_memory_holds_what_fits(rt: HostRuntime) {
    let alloc = rt.alloc();
    let mut sink = MemSink::new(alloc, 4, 6, vec![in alloc; 2].expect(&rt, "memory")).expect(
        &rt,
        "no memory",
    );
    let written = [
        sink.write(b"abcdef"),
        sink.write(b"ef"),
        sink.write(b"ef"),
        sink.write(b"g"),
    ];
    assert!(rt; written == [Ok(4), Err(Failed), Ok(2), Err(Failed)]);
    assert!(rt; sink.held() == b"abcdef".as_slice());
}

#[test]
fn the_host_has_no_such_file_and_takes_a_byte(rt: HostRuntime) {
    let picked = HostShelf::new(rt).pick(b"there/is/no/such/file");
    let written = HostSink::output(rt.stdout()).write(b"\n");
    let told = HostSink::errors(rt.stderr()).write(b"\n");
    assert!(rt; picked == Err(Failed));
    assert!(rt; [written, told] == [Ok(1), Ok(1)]);
    assert!(rt; Name::from_bytes(b"main.t").as_bytes() == b"main.t".as_slice());
}
