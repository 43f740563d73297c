// A content that is written while it comes, by the words of a command line.
use super::trees::{
    BEFORE, BEHIND, NODE_0_1, NODE_0_6, NODE_1_1, NODE_1_2, NODE_2_0, SEVEN, named, store_on,
};
use super::*;
use crate::commands::{DESCRIPTOR_OF_SEVEN, generated};
use pp_recorded::reading::{first_place, message_at};
use pp_wire::Message;

// The digest of chunk 0, by Python's hashlib.
const NODE_0_0: [u8; 32] = [
    0xc8, 0x95, 0x85, 0x89, 0x14, 0xba, 0xa7, 0x00, 0xc8, 0x52, 0x13, 0xdf, 0xba, 0xee, 0x7d, 0x53,
    0xcb, 0x75, 0xab, 0xd2, 0x64, 0xfb, 0x07, 0x41, 0x09, 0x3f, 0xf4, 0x67, 0x5d, 0x13, 0xfa, 0xd0,
];

// The seven chunks played with a window of two.
fn play(
    alloc: Global,
    turns: &str,
    mut link: MemoryLink,
    disk: &mut MemoryDisk,
) -> Result<Ran, Fail> {
    let mut sink = MemorySink::new(alloc);
    let line = [
        "play",
        "s",
        DESCRIPTOR_OF_SEVEN,
        "127.0.0.1:7001",
        turns,
        "2",
        "127.0.0.1:7000",
    ];
    let status = run(
        alloc,
        &words_of(alloc, &line)?,
        [0; 32],
        disk,
        &mut link,
        &mut MemorySource::new(&[]),
        &mut sink,
        &mut Book::empty(alloc),
    );
    Ok(Ran {
        alloc,
        status,
        link,
        sink,
        serves: None,
    })
}

// The chunks that were asked for, from one to another, in order.
fn asked(swarm: &Descriptor, ran: &Ran) -> Result<Vec<(u64, u64)>, AllocError> {
    let mut spans = Vec::new(ran.alloc);
    for n in 0..ran.link.marks() {
        if let Mark::Sent { .. } = ran.link.mark(n) {
            ask_in(swarm, ran.link.mark_bytes(n), &mut spans)?;
        }
    }
    Ok(spans)
}

// Those of a datagram.
fn ask_in(swarm: &Descriptor, bytes: &[u8], spans: &mut Vec<(u64, u64)>) -> Result<(), AllocError> {
    let mut at = first_place(bytes);
    for _ in 0..bytes.len() {
        if at > bytes.len() {
            return Ok(());
        }
        let Some((message, next)) = message_at(swarm, bytes, at) else {
            return Ok(());
        };
        if let Message::Request { span } = message {
            spans.push((span.first, span.last))?;
        }
        at = next;
    }
    Ok(())
}

// The dialled peer answers, and has all chunks.
fn answered(alloc: Global) -> Result<Coming, Fail> {
    let mut coming = Coming::none(alloc)?;
    coming.wait()?;
    coming.add(&[
        &OURS,
        &[0],
        &THEIRS,
        &BEFORE,
        &SEVEN,
        &BEHIND,
        &named(3, 0, 6),
    ])?;
    Ok(coming)
}

// Chunk 0 or 1 comes behind the digests of its path, the other one's last.
fn bring(coming: &mut Coming, i: u8, other: &[u8; 32]) -> Result<(), Fail> {
    let content = generated();
    let begin = usize::from(i).min(1) * 1024;
    let chunk = &content[begin..begin + 1024];
    coming.add(&[
        &OURS,
        &named(4, 0, 3),
        &NODE_2_0,
        &named(4, 4, 5),
        &NODE_1_2,
        &named(4, 6, 6),
        &NODE_0_6,
        &named(4, 2, 3),
        &NODE_1_1,
        &named(4, 1 - i.min(1), 1 - i.min(1)),
        other,
        &named(1, i, i),
        &[0; 8],
        chunk,
    ])?;
    coming.wait()
}

// Whether the bytes are the content's first two chunks.
fn are_two_chunks(bytes: &[u8]) -> bool {
    let content = generated();
    bytes.len() == 2048 && content.starts_with(bytes)
}

// All is there, so no turn is taken.
#[test]
fn plays_a_whole_store(rt: HostRuntime) -> Result<(), Fail> {
    let alloc = rt.alloc();
    let mut disk = MemoryDisk::new(alloc, &[])?;
    let _ = store_on(&mut disk)?;
    let ran = play(alloc, "1", MemoryLink::new(alloc)?, &mut disk)?;
    assert_eq!(rt; ran.status, 0);
    assert_eq!(rt; ran.sink.bytes(), generated().as_slice());
    assert_eq!(rt; ran.link.sent(), 0);
    Ok(())
}

// Chunk 1 alone isn't written, and nothing is asked for beyond the window.
#[test]
fn waits_for_the_first_chunk(rt: HostRuntime) -> Result<(), Fail> {
    let alloc = rt.alloc();
    let swarm = store_on(&mut MemoryDisk::new(alloc, &[])?)?;
    let mut coming = answered(alloc)?;
    bring(&mut coming, 1, &NODE_0_0)?;
    let ran = play(alloc, "4", coming.link, &mut MemoryDisk::new(alloc, &[])?)?;
    assert_eq!(rt; ran.status, 3);
    assert!(rt; ran.sink.bytes().is_empty());
    assert_eq!(rt; asked(&swarm, &ran)?.as_slice(), [(0, 1)].as_slice());
    Ok(())
}

// Both are written once chunk 0 is there, and then the next two are asked for.
#[test]
fn writes_what_has_come(rt: HostRuntime) -> Result<(), Fail> {
    let alloc = rt.alloc();
    let swarm = store_on(&mut MemoryDisk::new(alloc, &[])?)?;
    let mut coming = answered(alloc)?;
    bring(&mut coming, 1, &NODE_0_0)?;
    bring(&mut coming, 0, &NODE_0_1)?;
    let ran = play(alloc, "6", coming.link, &mut MemoryDisk::new(alloc, &[])?)?;
    assert_eq!(rt; ran.status, 3);
    assert!(rt; are_two_chunks(ran.sink.bytes()));
    assert_eq!(rt;
        asked(&swarm, &ran)?.as_slice(),
        [(0, 1), (2, 3)].as_slice()
    );
    Ok(())
}

// A sink that refuses ends it, and no closing handshake goes.
#[test]
fn ends_where_the_sink_refuses(rt: HostRuntime) -> Result<(), Fail> {
    let alloc = rt.alloc();
    let mut disk = MemoryDisk::new(alloc, &[])?;
    let _ = store_on(&mut disk)?;
    let mut link = MemoryLink::new(alloc)?;
    let mut sink = MemorySink::new(alloc);
    sink.fail_next();
    let line = [
        "play",
        "s",
        DESCRIPTOR_OF_SEVEN,
        "127.0.0.1:7001",
        "1",
        "4096",
        "127.0.0.1:7000",
    ];
    let status = run(
        alloc,
        &words_of(alloc, &line)?,
        [0; 32],
        &mut disk,
        &mut link,
        &mut MemorySource::new(&[]),
        &mut sink,
        &mut Book::empty(alloc),
    );
    assert_eq!(rt; status, 7);
    assert!(rt; sink.bytes().is_empty());
    assert_eq!(rt; link.sent(), 0);
    Ok(())
}
