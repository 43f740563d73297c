// A fetch of seven chunks whose disk stops at each of its calls, crashes and is opened again.
use super::joining::whole_fetch;
use super::trees::store_on;
use super::*;
use crate::commands::DESCRIPTOR_OF_SEVEN;
use arrayvec::ArrayVec;
use pp_core::Peer;
use pp_outside::FuseDisk;
use pp_recorded::reading::{first_place, message_at};
use pp_wire::{Message, Span};

const LINE: [&str; 7] = [
    "fetch",
    "s",
    DESCRIPTOR_OF_SEVEN,
    "10.0.0.2:7000",
    "200",
    "sequential",
    "10.0.0.1:7000",
];

// A fetch, with the link of one that wasn't stopped.
#[derive(Drop)]
struct Fetch {
    alloc: Global,
    swarm: Descriptor,
    past: MemoryLink,
}

// What a fetch left.
#[derive(Drop)]
struct Left {
    status: u8,
    disk: MemoryDisk,
    link: MemoryLink,
}

// What was seen of a fetch that was stopped: whether all that it had announced was held after each crash, and how many chunks that was.
#[derive(Clone, Copy)]
struct Seen {
    status: u8,
    announced: usize,
    is_held: bool,
}

fn has(span: Span, i: u64) -> bool {
    span.first <= i && i <= span.last
}

fn names<'m>(message: &'m Message<'m>, i: u64) -> bool {
    match *message {
        Message::Ack { span, .. } => has(span, i),
        Message::Have { span } => has(span, i),
        _ => false,
    }
}

// Whether a datagram announces a chunk.
fn announces(swarm: &Descriptor, bytes: &[u8], i: u64) -> bool {
    let mut at = first_place(bytes);
    for _ in 0..bytes.len() {
        if at > bytes.len() {
            return false;
        }
        let Some((message, next)) = message_at(swarm, bytes, at) else {
            return false;
        };
        if names(&message, i) {
            return true;
        }
        at = next;
    }
    false
}

// Whether a chunk was announced over a link.
fn is_announced(swarm: &Descriptor, link: &MemoryLink, i: u64) -> bool {
    for n in 0..link.marks() {
        if let Mark::Sent { .. } = link.mark(n)
            && announces(swarm, link.mark_bytes(n), i)
        {
            return true;
        }
    }
    false
}

// A link that brings what another one brought, in the same order.
fn again(alloc: Global, past: &MemoryLink) -> Result<MemoryLink, Fail> {
    let mut link = MemoryLink::new(alloc)?;
    for n in 0..past.marks() {
        let bytes = past.mark_bytes(n);
        let len = bytes.len();
        if len > 65536 {
            return Err("too long".into());
        }
        match past.mark(n) {
            Mark::Received { at, from } => link.add(Event::Datagram { from, len, at }, bytes)?,
            Mark::Quiet { at } => link.add(Event::Quiet { at }, &[])?,
            Mark::Sent { .. } => {}
        }
    }
    Ok(link)
}

impl Fetch {
    fn new(alloc: Global) -> Result<Fetch, Fail> {
        let mut disk = MemoryDisk::new(alloc, &[])?;
        let swarm = store_on(&mut disk)?;
        let past = whole_fetch(alloc, &swarm, disk)?;
        Ok(Fetch { alloc, swarm, past })
    }

    // The fetch over a disk that passes so many calls and refuses all others.
    fn stopped(&self, calls: u32) -> Result<Left, Fail> {
        let alloc = self.alloc;
        let mut disk = FuseDisk::new(MemoryDisk::new(alloc, &[])?, calls);
        let mut link = again(alloc, &self.past)?;
        let mut sink = MemorySink::new(alloc);
        let status = run(
            alloc,
            &words_of(alloc, &LINE)?,
            [0; 32],
            &mut disk,
            &mut link,
            &mut MemorySource::new(&[]),
            &mut sink,
            &mut Book::empty(alloc),
        );
        let disk = disk.into_inner();
        Ok(Left { status, disk, link })
    }

    // What is committed of the store after a crash, where there is one.
    fn reopened(&self, mut disk: MemoryDisk, pick: u64) -> Option<Peer> {
        disk.crash(pick);
        Peer::open(
            self.alloc,
            &self.swarm,
            [0; 32],
            None,
            &ArrayVec::new(),
            &mut disk,
        )
        .ok()
    }

    // How many chunks were announced over the link, and whether a store that was opened again has them all.
    fn counted(&self, link: &MemoryLink, opened: Option<&Peer>) -> (usize, bool) {
        let mut announced = 0usize;
        let mut is_held = true;
        for i in 0..7u32 {
            if is_announced(&self.swarm, link, u64::from(i)) {
                announced = announced.saturating_add(1);
                is_held = is_held
                    && opened.is_some_and(|peer| peer.committed().first_from(i) == Some(i));
            }
        }
        (announced, is_held)
    }

    // The fetch with so many calls of its disk, once for each pick of a crash.
    fn seen(&self, calls: u32) -> Result<Seen, Fail> {
        let mut seen = Seen {
            status: 0,
            announced: 0,
            is_held: true,
        };
        for pick in 0..6 {
            let Left { status, disk, link } = self.stopped(calls)?;
            let opened = self.reopened(disk, pick);
            let (announced, is_held) = self.counted(&link, opened.as_ref());
            seen = Seen {
                status,
                announced,
                is_held: seen.is_held && is_held,
            };
        }
        Ok(seen)
    }
}

// A disk that passes no call, then one call, and so on, until one is met that passes all: all stops end with status 4, and some come
// behind announcements.
#[test]
fn what_was_announced_outlasts_each_stop(rt: HostRuntime) -> Result<(), Fail> {
    let fetch = Fetch::new(rt.alloc())?;
    let mut behind = 0u32;
    let mut ended = None;
    for calls in 0..1000 {
        let seen = fetch.seen(calls)?;
        assert!(rt; seen.is_held, "{calls} calls");
        if seen.status == 0 {
            ended = Some(seen.announced);
            break;
        }
        assert_eq!(rt; seen.status, 4, "{calls} calls");
        if seen.announced > 0 {
            behind = behind.saturating_add(1);
        }
    }
    assert_eq!(rt; ended, Some(7));
    assert!(rt; behind > 0);
    Ok(())
}
