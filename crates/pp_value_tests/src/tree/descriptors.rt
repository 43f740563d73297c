// Descriptors: their texts, their fields, and what follows from these.
use pp_tree::{Descriptor, DescriptorFault, FieldFault, Method, leaf};
use std::test::*;

// Whether a descriptor of "abc" has this text.
fn writes(descriptor: &Descriptor, want: &[u8]) -> bool {
    let mut text = [0u8; 128];
    let len = descriptor.write(&mut text);
    &text[..len] == want
}

#[test]
fn writes_its_text(rt: HostRuntime) {
    let want = b"ppspp1:ba7816bf8f01cfea414140de5dae2223b00361a396177a9cb410ff61f20015ad:1024:3:2";
    match Descriptor::new(leaf(b"abc"), 1024, 3, Method::Range32) {
        Ok(descriptor) => assert!(rt; writes(&descriptor, want)),
        Err(_) => assert!(rt; false),
    }
}

// Texts, and the size of the content and the method that they tell. The chunks have 1,024 bytes.
const TEXTS: [(&str, u64, Method); 4] = [
    (
        "ppspp1:ba7816bf8f01cfea414140de5dae2223b00361a396177a9cb410ff61f20015ad:1024:3:2",
        3,
        Method::Range32,
    ),
    (
        "ppspp1:ba7816bf8f01cfea414140de5dae2223b00361a396177a9cb410ff61f20015ad:1024:3:0",
        3,
        Method::Bin32,
    ),
    (
        "ppspp1:ba7816bf8f01cfea414140de5dae2223b00361a396177a9cb410ff61f20015ad:1024:1073741824:3",
        1 << 30,
        Method::Bin64,
    ),
    (
        "ppspp1:ba7816bf8f01cfea414140de5dae2223b00361a396177a9cb410ff61f20015ad:1024:1:4",
        1,
        Method::Range64,
    ),
];

fn reads(text: &str, size: u64, method: Method) -> bool {
    match Descriptor::read(text) {
        Ok(found) => Descriptor::new(leaf(b"abc"), 1024, size, method) == Ok(found),
        Err(_) => false,
    }
}

// How many of these are read, before one that isn't.
fn texts_read(rows: &[(&str, u64, Method)]) -> u8 {
    let mut right: u8 = 0;
    for (text, size, method) in rows {
        if !reads(text, *size, *method) {
            return right;
        }
        right = right.saturating_add(1);
    }
    right
}

#[test]
fn reads_its_text(rt: HostRuntime) {
    assert_eq!(rt; texts_read(&TEXTS), 4);
}

// Texts, and what is wrong with them.
const FAULTS: [(&str, DescriptorFault); 15] = [
    (
        "ppspp1:ba7816bf8f01cfea414140de5dae2223b00361a396177a9cb410ff61f20015ad:1000:3:2",
        DescriptorFault::Chunk { at: 72 },
    ),
    (
        "ppspp1:ba7816bf8f01cfea414140de5dae2223b00361a396177a9cb410ff61f20015ad:99999999999999999999:0:9",
        DescriptorFault::Chunk { at: 72 },
    ),
    (
        "ppspp1:ba7816bf8f01cfea414140de5dae2223b00361a396177a9cb410ff61f20015ad:256:268435457:2",
        DescriptorFault::Size { at: 76 },
    ),
    (
        "ppspp1:ba7816bf8f01cfea414140de5dae2223b00361a396177a9cb410ff61f20015ad:256:0:9",
        DescriptorFault::Size { at: 76 },
    ),
    (
        "ppspp1:ba7816bf8f01cfea414140de5dae2223b00361a396177a9cb410ff61f20015ad:256:268435456:1",
        DescriptorFault::Method { at: 86 },
    ),
    (
        "ppspp1:ba7816bf8f01cfea414140de5dae2223b00361a396177a9cb410ff61f20015ad:1024:3:20",
        DescriptorFault::Method { at: 79 },
    ),
    (
        "ppspp1:ba7816bf8f01cfea414140de5dae2223b00361a396177a9cb410ff61f20015ad:0256:3:2",
        DescriptorFault::Form { at: 73 },
    ),
    (
        "ppspp1:ba7816bf8f01cfea414140de5dae2223b00361a396177a9cb410ff61f20015ad:256:00:2",
        DescriptorFault::Form { at: 77 },
    ),
    (
        "ppspp1:ba7816bf8f01cfea414140de5dae2223b00361a396177a9cb410ff61f20015ad:256:3:",
        DescriptorFault::Form { at: 78 },
    ),
    (
        "ppspp1:ba7816bf8f01cfea414140de5dae2223b00361a396177a9cb410ff61f20015ad:256:3:2 ",
        DescriptorFault::Form { at: 79 },
    ),
    (
        "ppspp1:ba7816bf8f01cfea414140de5dae2223b00361a396177a9cb410ff61f20015ad:256:111111111111111111111:2",
        DescriptorFault::Form { at: 96 },
    ),
    ("", DescriptorFault::Form { at: 0 }),
    ("ppspp2:", DescriptorFault::Form { at: 5 }),
    ("ppspp1:BA", DescriptorFault::Form { at: 7 }),
    ("ppspp1:ba78", DescriptorFault::Form { at: 11 }),
];

fn has_fault(text: &str, want: DescriptorFault) -> bool {
    match Descriptor::read(text) {
        Ok(_) => false,
        Err(fault) => fault == want,
    }
}

// How many of these have their fault, before one that hasn't.
fn faults(rows: &[(&str, DescriptorFault)]) -> u8 {
    let mut right: u8 = 0;
    for (text, want) in rows {
        if !has_fault(text, *want) {
            return right;
        }
        right = right.saturating_add(1);
    }
    right
}

#[test]
fn names_the_fault_of_a_text(rt: HostRuntime) {
    assert_eq!(rt; faults(&FAULTS), 15);
}

fn is_refused(chunk: u32, size: u64, want: FieldFault) -> bool {
    match Descriptor::new(leaf(b"abc"), chunk, size, Method::Bin32) {
        Ok(_) => false,
        Err(fault) => fault == want,
    }
}

// The length of a chunk, the size of the content, and what is wrong with them.
const FIELDS: [(u32, u64, FieldFault); 5] = [
    (1000, 3, FieldFault::Chunk),
    (128, 3, FieldFault::Chunk),
    (16384, 0, FieldFault::Chunk),
    (1024, 0, FieldFault::Size),
    (256, 268_435_457, FieldFault::Size),
];

// How many of these are refused so, before one that isn't.
fn refused(rows: &[(u32, u64, FieldFault)]) -> u8 {
    let mut right: u8 = 0;
    for (chunk, size, want) in rows {
        if !is_refused(*chunk, *size, *want) {
            return right;
        }
        right = right.saturating_add(1);
    }
    right
}

#[test]
fn judges_its_fields(rt: HostRuntime) {
    assert_eq!(rt; refused(&FIELDS), 5);
}

// Whether it has so many chunks, a tree of this height, and a last chunk of so many bytes.
fn has_chunks(descriptor: &Descriptor, chunks: u32, height: u8, last: u32) -> bool {
    descriptor.chunks() == chunks
        && descriptor.height() == height
        && descriptor.chunk_len(descriptor.chunks() - 1) == last
}

// Whether it has these fields.
fn has_fields(descriptor: &Descriptor, chunk: u32, size: u64) -> bool {
    descriptor.root() == leaf(b"abc")
        && descriptor.chunk() == chunk
        && descriptor.size() == size
        && descriptor.method() == Method::Range64
}

fn counts(chunk: u32, size: u64, chunks: u32, height: u8, last: u32) -> bool {
    match Descriptor::new(leaf(b"abc"), chunk, size, Method::Range64) {
        Ok(descriptor) => {
            has_fields(&descriptor, chunk, size) && has_chunks(&descriptor, chunks, height, last)
        }
        Err(_) => false,
    }
}

#[test]
fn counts_its_chunks(rt: HostRuntime) {
    assert!(rt; counts(256, 268_435_456, 1_048_576, 20, 256));
    assert!(rt; counts(1024, 7000, 7, 3, 856));
    assert!(rt; counts(8192, 1, 1, 0, 1));
}
