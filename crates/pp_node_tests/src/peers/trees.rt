// A store of seven chunks, seeded. The digests were computed by Python's hashlib.
use super::*;
use crate::commands::{DESCRIPTOR_OF_SEVEN, generated};
use pp_outside::LyingDisk;
use pp_store::{ImportFault, import};

// The root of 7,000 bytes in chunks of 1,024.
pub(super) const SEVEN: [u8; 32] = [
    0xb4, 0x2e, 0xff, 0xe6, 0xef, 0xb1, 0xb6, 0x0e, 0x31, 0x99, 0xb1, 0x81, 0x82, 0xc6, 0x3d, 0x95,
    0x77, 0xf6, 0xcd, 0xfe, 0xaa, 0xa0, 0xac, 0xb3, 0x39, 0x9a, 0xc8, 0xd8, 0x7b, 0x4d, 0x8f, 0x73,
];

// The peaks, over chunks 0 to 3, 4 and 5, and 6.
pub(super) const NODE_2_0: [u8; 32] = [
    0xec, 0x5b, 0xb0, 0x9e, 0x21, 0xdf, 0x1e, 0xbf, 0xb7, 0x69, 0xce, 0x33, 0x60, 0xf5, 0xff, 0x39,
    0x33, 0x56, 0x12, 0xae, 0x52, 0x72, 0x8b, 0x4c, 0xf2, 0xd4, 0x10, 0xf8, 0xdb, 0xf3, 0x1f, 0x9c,
];

pub(super) const NODE_1_2: [u8; 32] = [
    0x6d, 0x5e, 0xe5, 0x79, 0xdc, 0x3d, 0x3c, 0xed, 0xad, 0xfe, 0xa6, 0x35, 0x1f, 0x2b, 0x2b, 0xf9,
    0x7f, 0xe0, 0x97, 0x64, 0x47, 0x2f, 0x10, 0x5b, 0x23, 0x32, 0xc3, 0x9d, 0x64, 0x81, 0x58, 0x3d,
];

pub(super) const NODE_0_6: [u8; 32] = [
    0x84, 0x63, 0x9b, 0x69, 0xbd, 0xab, 0xf1, 0x5d, 0x35, 0x6a, 0x9e, 0x32, 0xa6, 0x7f, 0xe4, 0xfd,
    0x56, 0xe7, 0xc4, 0x64, 0xd3, 0x14, 0xba, 0xf3, 0xaa, 0x09, 0x96, 0x6c, 0x5f, 0xe1, 0x87, 0xfa,
];

// What lies beside the way up from chunk 0: the nodes of chunks 2 and 3, and of chunk 1.
pub(super) const NODE_1_1: [u8; 32] = [
    0x60, 0xe2, 0xb0, 0xaf, 0xe2, 0xdf, 0x47, 0x07, 0xbf, 0xe4, 0xee, 0x48, 0x35, 0x71, 0xd4, 0x2a,
    0xca, 0x98, 0x11, 0xdf, 0xed, 0xb1, 0x4c, 0xcd, 0xc0, 0xbb, 0x54, 0xb9, 0x07, 0xa3, 0xb7, 0xe0,
];

pub(super) const NODE_0_1: [u8; 32] = [
    0x6e, 0x8d, 0xa3, 0xae, 0x36, 0x30, 0xa7, 0x0d, 0x55, 0xec, 0x4e, 0x89, 0x2a, 0x08, 0xaf, 0xb0,
    0x87, 0xf3, 0xa7, 0x4d, 0xe9, 0x37, 0x84, 0xee, 0x5c, 0x57, 0x85, 0x9a, 0x8b, 0x65, 0x84, 0x1e,
];

// The options before the root, and those behind it.
pub(super) const BEFORE: [u8; 7] = [0, 1, 1, 1, 2, 0, 0x20];

pub(super) const BEHIND: [u8; 16] = [3, 1, 4, 2, 6, 2, 8, 2, 0xfe, 0xf8, 9, 0, 0, 4, 0, 0xff];

// A message of this type that names the chunks from one to another, but for what follows the name.
pub(super) fn named(kind: u8, first: u8, last: u8) -> [u8; 9] {
    [kind, 0, 0, 0, first, 0, 0, 0, last]
}

// Makes the content a store on the disk.
pub(super) fn store_on(disk: &mut MemoryDisk) -> Result<Descriptor, ImportFault> {
    let content = generated();
    import(1024, &mut MemorySource::new(&content), disk)
}

// The store seeded for a turn for each datagram and a quiet one.
fn seed_seven<D: Disk>(coming: Coming, disk: &mut D) -> Result<Ran, Fail> {
    let Coming {
        alloc,
        mut link,
        count,
    } = coming;
    let turns = format!(in alloc; "{}", count.saturating_add(1))?;
    let mut sink = MemorySink::new(alloc);
    let status = run(
        alloc,
        &words_of(
            alloc,
            &[
                "seed",
                "seven.store",
                DESCRIPTOR_OF_SEVEN,
                "127.0.0.1:7001",
                &turns,
            ],
        )?,
        [0; 32],
        disk,
        &mut link,
        &mut MemorySource::new(&[]),
        &mut sink,
        &mut Book::empty(alloc),
    );
    Ok(Ran {
        alloc,
        status,
        link,
        sink,
        serves: None,
    })
}

fn greeting(alloc: Global) -> Result<Coming, Fail> {
    let mut coming = Coming::none(alloc)?;
    coming.add(&[&GREETING, &BEFORE, &SEVEN, &BEHIND])?;
    Ok(coming)
}

// How many datagrams were sent that have a DATA of this chunk at their end, with its bytes.
fn count_of(ran: &Ran, i: u8) -> Result<u32, AllocError> {
    let content = generated();
    let mut count = 0u32;
    let begin = usize::from(i).saturating_mul(1024).min(7000);
    let end = begin.saturating_add(1024).min(7000);
    let head = named(1, i, i);
    for k in 0..ran.link.marks() {
        let bytes = ran.link.mark_bytes(k);
        let size = end.saturating_sub(begin).saturating_add(17);
        if let Mark::Sent { .. } = ran.link.mark(k) {
            if bytes.len() > size
                && bytes[bytes.len() - size..].starts_with(&head)
                && bytes.ends_with(&content[begin..end])
            {
                count = count.saturating_add(1);
            }
        }
    }
    Ok(count)
}

// Whether the second datagram is chunk 0 behind the hashes of its path, in 1,250 bytes.
fn has_path(alloc: Global, ran: &Ran) -> Result<bool, AllocError> {
    let time = (BEGIN + 1).to_be_bytes();
    let content = generated();
    let (chunk, _) = content.split_at(1024);
    let hashes: [&[u8]; 11] = [
        &THEIRS,
        &named(4, 0, 3),
        &NODE_2_0,
        &named(4, 4, 5),
        &NODE_1_2,
        &named(4, 6, 6),
        &NODE_0_6,
        &named(4, 2, 3),
        &NODE_1_1,
        &named(4, 1, 1),
        &NODE_0_1,
    ];
    let path = joined(alloc, &hashes)?;
    let parts: [&[u8]; 4] = [&path, &named(1, 0, 0), &time, chunk];
    Ok(joined(alloc, &parts)?.len() == 1250 && ran.has_sent(1, &parts)?)
}

// The reply goes, all seven chunks are announced behind it, and chunk 0 goes behind the hashes of its path, in 1,250 bytes.
#[test]
fn sends_a_chunk_behind_its_path(rt: HostRuntime) -> Result<(), Fail> {
    let alloc = rt.alloc();
    let mut disk = MemoryDisk::new(alloc, &[])?;
    let _ = store_on(&mut disk)?;
    let mut coming = greeting(alloc)?;
    coming.add(&[&OURS, &named(8, 0, 0)])?;
    let ran = seed_seven(coming, &mut disk)?;
    assert_eq!(rt; ran.status, 0);
    assert_eq!(rt; ran.link.sent(), 3);
    let reply: [&[u8]; 5] = [&ANSWER, &BEFORE, &SEVEN, &BEHIND, &named(3, 0, 6)];
    assert!(rt; joined(alloc, &reply)?.len() == 73 && ran.has_sent(0, &reply)?);
    assert!(rt; has_path(alloc, &ran)?);
    assert!(rt; ran.has_said("sent 3\n")?);
    Ok(())
}

// Two chunks go at once, the least first, and two more once these have come.
#[test]
fn sends_two_chunks_and_waits(rt: HostRuntime) -> Result<(), Fail> {
    let alloc = rt.alloc();
    let mut disk = MemoryDisk::new(alloc, &[])?;
    let _ = store_on(&mut disk)?;
    let mut coming = greeting(alloc)?;
    coming.add(&[&OURS, &named(8, 2, 200)])?;
    coming.add(&[&OURS, &named(9, 4, 4)])?;
    coming.add(&[&OURS, &named(2, 2, 3), &[0; 8]])?;
    let ran = seed_seven(coming, &mut disk)?;
    assert_eq!(rt; ran.status, 0);
    assert_eq!(rt; ran.link.sent(), 6);
    for (i, want) in [(0, 0), (1, 0), (2, 1), (3, 1), (4, 0), (5, 1), (6, 1)] {
        assert_eq!(rt; count_of(&ran, i)?, want, "chunk {i}");
    }
    Ok(())
}

// A byte of chunk 2 is read changed. The scan reads no chunk; the reading for a peer does, and the chunk isn't sent.
#[test]
fn sends_no_changed_chunk(rt: HostRuntime) -> Result<(), Fail> {
    let alloc = rt.alloc();
    let mut inner = MemoryDisk::new(alloc, &[])?;
    let _ = store_on(&mut inner)?;
    let mut disk = LyingDisk::new(inner, 64 + 2 * 1089 + 500, 1, 0);
    let mut coming = greeting(alloc)?;
    coming.add(&[&OURS, &named(8, 2, 2)])?;
    let ran = seed_seven(coming, &mut disk)?;
    assert_eq!(rt; ran.status, 0);
    assert_eq!(rt; ran.link.sent(), 2);
    assert!(rt; ran.sink.bytes().starts_with(b"held 7 of 7 0-6\n"));
    assert!(rt; ran.has_said("damaged 1\n")?);
    Ok(())
}
