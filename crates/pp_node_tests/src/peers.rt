// The store of `abc`, seeded to one peer by the words of a command line. Channel numbers are drawn from zeros: by the first
// test vector of ChaCha20 (RFC 8439, appendix A.1) the first is ade0b876. What the link carried is audited each time.
use crate::commands::{DESCRIPTOR_OF_ABC, store_of_abc, words_of};
use pp_audit::{Entry, are_whole, plans_all, requests_none, serves};
use pp_node::run;
use pp_outside::{Address, Disk, Event, Mark, MemoryDisk, MemoryLink, MemorySink, MemorySource};
use pp_tree::{Book, Descriptor, Digest, Method, Node};
use std::alloc::{AllocError, Global};
use std::process::Abort;
use std::test::Fail;

mod counting;
mod cutting;
mod failing;
mod fetching;
mod joining;
mod methods;
mod naming;
mod playing;
mod refusing;
mod stopping;
mod trees;

// Version 1, least version 1, the root, integrity method 1, hash function 2, addressing method 2, the supported messages,
// chunk size 1024, and the end.
const OPTIONS: [u8; 55] = [
    0, 1, 1, 1, 2, 0, 0x20, 0xba, 0x78, 0x16, 0xbf, 0x8f, 0x01, 0xcf, 0xea, 0x41, 0x41, 0x40, 0xde,
    0x5d, 0xae, 0x22, 0x23, 0xb0, 0x03, 0x61, 0xa3, 0x96, 0x17, 0x7a, 0x9c, 0xb4, 0x10, 0xff, 0x61,
    0xf2, 0x00, 0x15, 0xad, 3, 1, 4, 2, 6, 2, 8, 2, 0xfe, 0xf8, 9, 0, 0, 4, 0, 0xff,
];

// To channel 0: the handshake of channel 0a0b0c0d, but for its options.
const GREETING: [u8; 9] = [0, 0, 0, 0, 0, 0x0a, 0x0b, 0x0c, 0x0d];

// To channel 0a0b0c0d: the handshake of channel ade0b876, but for its options.
const ANSWER: [u8; 9] = [0x0a, 0x0b, 0x0c, 0x0d, 0, 0xad, 0xe0, 0xb8, 0x76];

const THEIRS: [u8; 4] = [0x0a, 0x0b, 0x0c, 0x0d];

const OURS: [u8; 4] = [0xad, 0xe0, 0xb8, 0x76];

// Messages that name chunk 0, some of them but for what follows the name.
const DATA: [u8; 9] = [1, 0, 0, 0, 0, 0, 0, 0, 0];

const ACK: [u8; 9] = [2, 0, 0, 0, 0, 0, 0, 0, 0];

const HAVE: [u8; 9] = [3, 0, 0, 0, 0, 0, 0, 0, 0];

const INTEGRITY: [u8; 9] = [4, 0, 0, 0, 0, 0, 0, 0, 0];

const REQUEST: [u8; 9] = [8, 0, 0, 0, 0, 0, 0, 0, 0];

// SHA-256 of `abc`.
const ROOT: [u8; 32] = [
    0xba, 0x78, 0x16, 0xbf, 0x8f, 0x01, 0xcf, 0xea, 0x41, 0x41, 0x40, 0xde, 0x5d, 0xae, 0x22, 0x23,
    0xb0, 0x03, 0x61, 0xa3, 0x96, 0x17, 0x7a, 0x9c, 0xb4, 0x10, 0xff, 0x61, 0xf2, 0x00, 0x15, 0xad,
];

const PEER: Address = Address::V4([127, 0, 0, 1], 7000);

// The moment of the first datagram.
const BEGIN: u64 = 0x0102_0304_0506_0700;

fn joined(alloc: Global, parts: &[&[u8]]) -> Result<Vec<u8>, AllocError> {
    let mut bytes = Vec::new(alloc);
    for part in parts {
        bytes.extend_from_slice(part)?;
    }
    Ok(bytes)
}

fn front(bytes: &[u8], end: usize) -> &[u8] {
    match bytes.get(..end) {
        Some(front) => front,
        None => bytes,
    }
}

// Datagrams of the peer that a link brings, each a microsecond after the one before.
#[derive(Drop)]
struct Coming {
    alloc: Global,
    link: MemoryLink,
    count: u64,
}

impl Coming {
    fn none(alloc: Global) -> Result<Coming, AllocError> {
        Ok(Coming {
            alloc,
            link: MemoryLink::new(alloc)?,
            count: 0,
        })
    }

    // The peer's handshake.
    fn greeting(alloc: Global) -> Result<Coming, Fail> {
        let mut coming = Coming::none(alloc)?;
        coming.add(&[&GREETING, &OPTIONS])?;
        Ok(coming)
    }

    fn add(&mut self, parts: &[&[u8]]) -> Result<(), Fail> {
        self.add_from(PEER, parts)
    }

    fn add_from(&mut self, from: Address, parts: &[&[u8]]) -> Result<(), Fail> {
        let bytes = joined(self.alloc, parts)?;
        if bytes.len() > 65536 {
            return Err("too long".into());
        }
        let event = Event::Datagram {
            from,
            len: bytes.len(),
            at: BEGIN.saturating_add(self.count),
        };
        self.link.add(event, &bytes)?;
        self.count = self.count.saturating_add(1);
        Ok(())
    }

    // A wait in which nothing came.
    fn wait(&mut self) -> Result<(), Fail> {
        let at = BEGIN.saturating_add(self.count);
        self.link.add(Event::Quiet { at }, &[])?;
        self.count = self.count.saturating_add(1);
        Ok(())
    }

    // Seeds the store of `abc` for a turn for each datagram and a quiet one.
    fn seed<D: Disk>(self, disk: &mut D) -> Result<Ran, Fail> {
        self.seed_as(DESCRIPTOR_OF_ABC, Method::Range32, disk)
    }

    // The same under a descriptor that names chunks by this method.
    fn seed_as<D: Disk>(self, described: &str, method: Method, disk: &mut D) -> Result<Ran, Fail> {
        let Coming {
            alloc,
            mut link,
            count,
        } = self;
        let turns = format!(in alloc; "{}", count.saturating_add(1))?;
        let mut sink = MemorySink::new(alloc);
        let mut book = Book::empty(alloc);
        let status = run(
            alloc,
            &words_of(
                alloc,
                &["seed", "abc.store", described, "127.0.0.1:7001", &turns],
            )?,
            [0; 32],
            disk,
            &mut link,
            &mut MemorySource::new(&[]),
            &mut sink,
            &mut book,
        );
        let serves = audit(alloc, &descriptor_of(method)?, &book, &link)?;
        Ok(Ran {
            alloc,
            status,
            link,
            sink,
            serves,
        })
    }
}

// The content `abc`, whose chunks are named by this method.
fn descriptor_of(method: Method) -> Result<Descriptor, Fail> {
    match Descriptor::new(Digest::new(ROOT), 1024, 3, method) {
        Ok(descriptor) => Ok(descriptor),
        Err(_) => Err("no descriptor".into()),
    }
}

// What a run left beside the disk, and what it answered.
#[derive(Drop)]
struct Ran {
    alloc: Global,
    status: u8,
    link: MemoryLink,
    sink: MemorySink,
    // Whether what was sent is as a seeding promises, by the book at the return; None where that knows no node.
    serves: Option<bool>,
}

impl Ran {
    // Whether the datagram that was sent as number `n` has these bytes, and went to the peer.
    fn has_sent(&self, n: usize, parts: &[&[u8]]) -> Result<bool, AllocError> {
        let want = joined(self.alloc, parts)?;
        let mut before = n;
        for k in 0..self.link.marks() {
            if let Mark::Sent { to, .. } = self.link.mark(k) {
                if before == 0 {
                    return Ok(to == PEER && self.link.mark_bytes(k) == want.as_slice());
                }
                before -= 1;
            }
        }
        Ok(false)
    }

    // Whether that one is the reply, and behind it the news that the chunk is there.
    fn has_replied(&self, n: usize) -> Result<bool, AllocError> {
        self.has_sent(n, &[&ANSWER, &OPTIONS, &HAVE])
    }

    // Whether that one closes the channel.
    fn has_closed(&self, n: usize) -> Result<bool, AllocError> {
        self.has_sent(n, &[&THEIRS, &[0, 0, 0, 0, 0, 0xff]])
    }

    // Whether that one is the chunk behind its hash, with this time.
    fn has_served(&self, n: usize, time: u64) -> Result<bool, AllocError> {
        let time = time.to_be_bytes();
        self.has_sent(n, &[&THEIRS, &INTEGRITY, &ROOT, &DATA, &time, b"abc"])
    }

    // Whether that one is the chunk alone, for a peer that acknowledged it and so has its hash.
    fn has_served_again(&self, n: usize, time: u64) -> Result<bool, AllocError> {
        let time = time.to_be_bytes();
        self.has_sent(n, &[&THEIRS, &DATA, &time, b"abc"])
    }

    // Whether the sink has this line, behind another one.
    fn has_said(&self, line: &str) -> Result<bool, AllocError> {
        let text = joined(self.alloc, &[b"\n", line.as_bytes()])?;
        Ok(has_part(self.sink.bytes(), &text))
    }
}

// Whether the part stands somewhere in the bytes.
fn has_part(bytes: &[u8], part: &[u8]) -> bool {
    for n in 0..bytes.len() {
        if bytes[n..].starts_with(part) {
            return true;
        }
    }
    false
}

// What the link carried.
fn entries_of<'m>(alloc: Global, link: &'m MemoryLink) -> Result<Vec<Entry<'m>>, AllocError> {
    let mut entries = Vec::new(alloc);
    for n in 0..link.marks() {
        let bytes = link.mark_bytes(n);
        entries.push(match link.mark(n) {
            Mark::Received { at, from } => Entry::Received { at, from, bytes },
            Mark::Quiet { at } => Entry::Quiet { at },
            Mark::Sent { moment, to } => Entry::Sent { moment, to, bytes },
        })?;
    }
    Ok(entries)
}

// Whether each chunk that was sent was served, by the book, behind its plan, in datagrams that are whole, and nothing was asked
// for; None where the book doesn't know the root. The tree of one chunk has no other node, so a book that was prepared anew
// stands for it.
fn audit_entries<'m>(
    alloc: Global,
    descriptor: &Descriptor,
    book: &Book,
    entries: &'m [Entry<'m>],
) -> Result<Option<bool>, AllocError> {
    let mut prepared = Book::empty(alloc);
    prepared.prepare(alloc, descriptor)?;
    let layer = descriptor.height();
    let offset = 0;
    if layer != 0 || book.get(Node { layer, offset }) != prepared.get(Node { layer, offset }) {
        return Ok(None);
    }
    Ok(Some(
        serves(descriptor, &prepared, entries)
            && plans_all(descriptor, entries)
            && are_whole(descriptor, entries)
            && requests_none(descriptor, entries),
    ))
}

fn audit(
    alloc: Global,
    descriptor: &Descriptor,
    book: &Book,
    link: &MemoryLink,
) -> Result<Option<bool>, AllocError> {
    let entries = entries_of(alloc, link)?;
    audit_entries(alloc, descriptor, book, &entries)
}

// The datagram of the last record but one, behind which the channel is closed.
fn last_bytes(link: &MemoryLink) -> &[u8] {
    let count = link.marks();
    if count < 2 {
        return &[];
    }
    link.mark_bytes(count - 2)
}

#[test]
fn seeds_one_chunk(rt: HostRuntime) -> Result<(), Fail> {
    let alloc = rt.alloc();
    let mut disk = MemoryDisk::new(alloc, &store_of_abc())?;
    let mut coming = Coming::greeting(alloc)?;
    coming.add(&[&OURS, &REQUEST])?;
    let ran = coming.seed(&mut disk)?;
    assert_eq!(rt; ran.status, 0);
    assert_eq!(rt; ran.link.sent(), 3);
    assert!(rt; ran.has_replied(0)?);
    assert!(rt; ran.has_served(1, BEGIN + 1)?);
    assert!(rt; ran.has_closed(2)?);
    assert_eq!(rt; ran.serves, Some(true));
    assert_eq!(rt; disk.bytes(), store_of_abc().as_slice());
    Ok(())
}

// The traffic of such a run, with the last byte of the chunk changed.
#[test]
fn audits_a_changed_byte(rt: HostRuntime) -> Result<(), Fail> {
    let alloc = rt.alloc();
    let mut coming = Coming::greeting(alloc)?;
    coming.add(&[&OURS, &REQUEST])?;
    // the last turn sends the chunk
    coming.count = 1;
    let ran = coming.seed(&mut MemoryDisk::new(alloc, &store_of_abc())?)?;
    assert!(rt; ran.has_served(1, BEGIN + 1)?);
    assert_eq!(rt; ran.serves, Some(true));
    let mut changed = joined(alloc, &[last_bytes(&ran.link)])?;
    let last = changed.len().saturating_sub(1);
    let Some(byte) = changed.get_mut(last) else {
        return Err("nothing was sent".into());
    };
    assert_eq!(rt; *byte, b'c');
    *byte = b'b';
    let mut entries = entries_of(alloc, &ran.link)?;
    let _closing = entries.pop();
    let Some(Entry::Sent { moment, to, .. }) = entries.pop() else {
        return Err("nothing was sent last".into());
    };
    entries.push(Entry::Sent {
        moment,
        to,
        bytes: &changed,
    })?;
    let descriptor = descriptor_of(Method::Range32)?;
    let mut book = Book::empty(alloc);
    book.prepare(alloc, &descriptor)?;
    let changed_serves = audit_entries(alloc, &descriptor, &book, &entries)?;
    assert_eq!(rt; changed_serves, Some(false));
    Ok(())
}
