// Recordings: their text, read and written.
use pp_outside::Address;
use pp_recording::{Entry, ReadFault, Recording, read, write};
use pp_tree::Node;
use std::alloc::{AllocError, Global};
use std::test::*;

// A recording of one chunk, `abc`, whose leaf is the root: its digest is SHA-256's first example (FIPS 180-4).
const LINES: [&str; 7] = [
    "ppspp-recording 1",
    "ppspp1:ba7816bf8f01cfea414140de5dae2223b00361a396177a9cb410ff61f20015ad:1024:3:2",
    "node 0 0 ba7816bf8f01cfea414140de5dae2223b00361a396177a9cb410ff61f20015ad",
    "received 1000 127.0.0.1:7000 00ff",
    "quiet 18446744073709551615",
    "sent 0 [fe80:0:0:0:0:0:0:1]:65535 -",
    "end",
];

// The text of lines, where one may stand for another: line `at`, counted from 1.
fn text_with(alloc: Global, at: usize, line: &str) -> Result<Vec<u8>, AllocError> {
    let mut text = Vec::new(alloc);
    for (i, own) in LINES.iter().enumerate() {
        let line = if i + 1 == at { line } else { *own };
        text.extend_from_slice(line.as_bytes())?;
        text.push(b'\n')?;
    }
    Ok(text)
}

// Whether this line of a text is faulty, as the first.
fn is_faulty(alloc: Global, text: &[u8], line: u32) -> bool {
    match read(alloc, text) {
        Ok(_) => false,
        Err(fault) => fault == ReadFault::Recording { line },
    }
}

fn has_content(recording: &Recording) -> bool {
    let leaf = Node {
        layer: 0,
        offset: 0,
    };
    recording.bytes() == [0, 255].as_slice()
        && recording.book().get(leaf) == Some(recording.descriptor().root())
}

fn has_entry(recording: &Recording, n: usize, want: Entry) -> bool {
    n < recording.count() && *recording.entry(n) == want
}

fn has_received(recording: &Recording) -> bool {
    let received = Entry::Received {
        at: 1000,
        from: Address::V4([127, 0, 0, 1], 7000),
        start: 0,
        len: 2,
    };
    has_entry(recording, 0, received) && has_entry(recording, 1, Entry::Quiet { at: u64::MAX })
}

fn has_sent(recording: &Recording) -> bool {
    let address = [0xfe, 0x80, 0, 0, 0, 0, 0, 0, 0, 0, 0, 0, 0, 0, 0, 1];
    let sent = Entry::Sent {
        moment: 0,
        to: Address::V6(address, 65535),
        start: 2,
        len: 0,
    };
    recording.count() == 3 && has_entry(recording, 2, sent)
}

fn is_written(alloc: Global, recording: &Recording, want: &[u8]) -> bool {
    match write(alloc, recording) {
        Ok(text) => text.as_slice() == want,
        Err(_) => false,
    }
}

fn is_read_and_written(alloc: Global, text: &[u8]) -> bool {
    match read(alloc, text) {
        Ok(recording) => {
            has_content(&recording)
                && has_received(&recording)
                && has_sent(&recording)
                && is_written(alloc, &recording, text)
        }
        Err(_) => false,
    }
}

#[test]
fn a_recording_is_read_and_written_back(rt: HostRuntime) {
    match text_with(rt.alloc(), 0, "") {
        Ok(text) => assert!(rt; is_read_and_written(rt.alloc(), &text)),
        Err(_) => assert!(rt; false),
    }
}

// The number of a line, what stands in its place, and the line that is faulty then.
const FAULTY: [(usize, &str, u32); 33] = [
    (1, "ppspp-recording 2", 1),
    (1, "ppspp-recording 1 ", 1),
    (
        2,
        "ppspp1:ba7816bf8f01cfea414140de5dae2223b00361a396177a9cb410ff61f20015ad:1024:3:1",
        2,
    ),
    (
        2,
        "ppspp1:BA7816bf8f01cfea414140de5dae2223b00361a396177a9cb410ff61f20015ad:1024:3:2",
        2,
    ),
    (
        3,
        "node 1 0 ba7816bf8f01cfea414140de5dae2223b00361a396177a9cb410ff61f20015ad",
        3,
    ),
    (
        3,
        "node 0 1 ba7816bf8f01cfea414140de5dae2223b00361a396177a9cb410ff61f20015ad",
        3,
    ),
    (
        3,
        "node 00 0 ba7816bf8f01cfea414140de5dae2223b00361a396177a9cb410ff61f20015ad",
        3,
    ),
    (
        3,
        "node 0 0 bA7816bf8f01cfea414140de5dae2223b00361a396177a9cb410ff61f20015ad",
        3,
    ),
    (
        3,
        "node 0 0 7816bf8f01cfea414140de5dae2223b00361a396177a9cb410ff61f20015ad",
        3,
    ),
    (3, "node 0 0", 3),
    (3, "", 3),
    // A node behind itself, and behind a record.
    (
        4,
        "node 0 0 ba7816bf8f01cfea414140de5dae2223b00361a396177a9cb410ff61f20015ad",
        4,
    ),
    (
        6,
        "node 0 0 ba7816bf8f01cfea414140de5dae2223b00361a396177a9cb410ff61f20015ad",
        6,
    ),
    (4, "received 01000 127.0.0.1:7000 00ff", 4),
    (4, "received 1000 127.0.0.1:7000 00fF", 4),
    (4, "received 1000 127.0.0.1:7000 00f", 4),
    (4, "received 1000 127.0.0.1:7000 ", 4),
    (4, "received 1000 127.0.0.1:7000", 4),
    (4, "received 1000  127.0.0.1:7000 00ff", 4),
    (4, "received 1000 127.0.0.1:0 00ff", 4),
    (4, "received 1000 127.0.0.1:65536 00ff", 4),
    (4, "received 1000 127.0.0.256:7000 00ff", 4),
    (4, "received 1000 127.0.0.1:7000 00ff ", 4),
    (4, "heard 1000 127.0.0.1:7000 00ff", 4),
    (5, "quiet 18446744073709551616", 5),
    (5, "quiet", 5),
    // The same address in other spellings.
    (6, "sent 0 [fe80::1]:65535 -", 6),
    (6, "sent 0 [FE80:0:0:0:0:0:0:1]:65535 -", 6),
    (6, "sent 0 [fe80:0:0:0:0:0:0:0001]:65535 -", 6),
    (6, "sent -1 [fe80:0:0:0:0:0:0:1]:65535 -", 6),
    // A line behind the last one, and none.
    (6, "end", 7),
    (7, "end ", 7),
    (7, "quiet 1", 8),
];

fn is_faulty_with(alloc: Global, at: usize, line: &str, want: u32) -> bool {
    match text_with(alloc, at, line) {
        Ok(text) => is_faulty(alloc, &text, want),
        Err(_) => false,
    }
}

// How many of these have their fault, before one that hasn't.
fn faults(alloc: Global, rows: &[(usize, &str, u32)]) -> u8 {
    let mut right: u8 = 0;
    for (at, line, want) in rows {
        if !is_faulty_with(alloc, *at, line, *want) {
            return right;
        }
        right = right.saturating_add(1);
    }
    right
}

#[test]
fn the_first_faulty_line_is_named(rt: HostRuntime) {
    assert_eq!(rt; faults(rt.alloc(), &FAULTY), 33);
}

// Whether a text is faulty in this line if it ends behind so many bytes.
fn is_cut(alloc: Global, text: &[u8], len: usize, line: u32) -> bool {
    match text.get(..len) {
        Some(front) => is_faulty(alloc, front, line),
        None => false,
    }
}

// Behind no line, in the first, behind the second, and in front of the last line feed.
fn ends_too_early(alloc: Global, text: &[u8]) -> bool {
    is_cut(alloc, text, 0, 1)
        && is_cut(alloc, text, 17, 1)
        && is_cut(alloc, text, 18, 2)
        && is_cut(alloc, text, text.len().saturating_sub(4), 7)
        && is_cut(alloc, text, text.len().saturating_sub(1), 7)
}

#[test]
fn a_text_that_ends_too_early_is_faulty(rt: HostRuntime) {
    match text_with(rt.alloc(), 0, "") {
        Ok(text) => assert!(rt; ends_too_early(rt.alloc(), &text)),
        Err(_) => assert!(rt; false),
    }
}

// The first two lines.
const HEAD: &[u8] = b"ppspp-recording 1\n\
    ppspp1:ba7816bf8f01cfea414140de5dae2223b00361a396177a9cb410ff61f20015ad:1024:3:2\n";

// A recording of so many waits.
fn waits(alloc: Global, count: u32) -> Result<Vec<u8>, AllocError> {
    let mut text = Vec::from_slice(alloc, HEAD)?;
    for _ in 0..count {
        text.extend_from_slice(b"quiet 0\n")?;
    }
    text.extend_from_slice(b"end\n")?;
    Ok(text)
}

fn are_read(alloc: Global, count: u32) -> bool {
    match waits(alloc, count) {
        Ok(text) => read(alloc, &text).is_ok(),
        Err(_) => false,
    }
}

fn are_faulty(alloc: Global, count: u32, line: u32) -> bool {
    match waits(alloc, count) {
        Ok(text) => is_faulty(alloc, &text, line),
        Err(_) => false,
    }
}

#[test]
fn records_beyond_the_limit_are_faulty(rt: HostRuntime) {
    assert!(rt; are_read(rt.alloc(), 16_384));
    assert!(rt; are_faulty(rt.alloc(), 16_385, 16_387));
}
