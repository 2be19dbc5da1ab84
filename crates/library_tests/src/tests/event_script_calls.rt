//! Small scripts, and texts that are refused.
use ann_base::OrMemory;
use event_script::{MOST_ITEMS, SCRIPT_BYTES, read_script};
use profile_image::Item;
use std::alloc::Global;

/// Masks, a port at its least value, lines that end in two ways, and a line without an end.
const PLANT: &[u8] =
    b"version 2\r\n10 every 20 3 interrupt 0\r\n30 port 15 -2147483648\n-- a comment\n\n50 unmask 0";

fn fault_of(alloc: Global, text: &[u8]) -> Option<(u32, u8)> {
    match read_script(alloc, text) {
        Err(OrMemory::Fault(fault)) => Some((fault.line, fault.kind.number())),
        _ => None,
    }
}

#[test]
fn items_by_moment_and_then_by_line(rt: HostRuntime) {
    let items = read_script(rt.alloc(), PLANT).expect(&rt, "a script");
    let expected = [
        (10, Item::Interrupt(0)),
        (30, Item::Interrupt(0)),
        (30, Item::Port(15, -2147483648)),
        (50, Item::Interrupt(0)),
        (50, Item::Unmask(0)),
    ];
    assert!(rt; items.len() == 5);
    for place in 0..5 {
        assert!(rt; items.get(place) == expected.get(place));
    }
}

/// Scripts without items, and one with a tick that falls.
#[test]
fn small_scripts(rt: HostRuntime) {
    for text in [b"".as_slice(), b"\n-- nothing\r\n--", b"version 2"] {
        assert!(rt;
            read_script(rt.alloc(), text)
                .expect(&rt, "a script")
                .is_empty()
        );
    }
    assert!(rt; fault_of(rt.alloc(), b"5 interrupt 3\n4 port 0 1\n") == Some((2, 3)));
}

#[test]
fn at_most_so_many_items(rt: HostRuntime) {
    let alloc = rt.alloc();
    let mut text = Vec::new(alloc);
    for _ in 0..MOST_ITEMS {
        text.extend_from_slice(b"0 interrupt 0\n")
            .expect(&rt, "memory");
    }
    assert!(rt; read_script(alloc, &text).expect(&rt, "a script").len() == MOST_ITEMS);
    text.extend_from_slice(b"0 interrupt 0\n")
        .expect(&rt, "memory");
    assert!(rt; fault_of(alloc, &text) == Some((100_001, 5)));
}

#[test]
fn at_most_so_many_bytes(rt: HostRuntime) {
    let alloc = rt.alloc();
    let mut text = vec![in alloc; b'-'; SCRIPT_BYTES].expect(&rt, "memory");
    assert!(rt; read_script(alloc, &text).expect(&rt, "a script").is_empty());
    text.push(b'\n').expect(&rt, "memory");
    assert!(rt; fault_of(alloc, &text) == Some((1, 5)));
    // The same with one byte less in the first line.
    text.pop();
    text.pop();
    text.extend_from_slice(b"\nx").expect(&rt, "memory");
    assert!(rt; fault_of(alloc, &text) == Some((2, 5)));
}
