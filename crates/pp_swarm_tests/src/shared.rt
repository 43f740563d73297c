//! Up to 17 swarms over one link, the disks under them, and what was sent.

use arrayvec::ArrayVec;
use pp_core::Peer;
use pp_outside::{Address, Event, Mark, MemoryDisk, MemoryLink, MemorySource};
use pp_store::import;
use pp_swarms::Hub;
use pp_tree::{Descriptor, Digest, Method};
use std::alloc::{AllocError, Global};
use std::test::*;

// SHA-256 of `abc`.
pub(crate) const ABC: [u8; 32] = [
    0xba, 0x78, 0x16, 0xbf, 0x8f, 0x01, 0xcf, 0xea, 0x41, 0x41, 0x40, 0xde, 0x5d, 0xae, 0x22, 0x23,
    0xb0, 0x03, 0x61, 0xa3, 0x96, 0x17, 0x7a, 0x9c, 0xb4, 0x10, 0xff, 0x61, 0xf2, 0x00, 0x15, 0xad,
];

// The root of the content of 7,000 bytes, by another program's SHA-256.
pub(crate) const SEVEN: [u8; 32] = [
    0xb4, 0x2e, 0xff, 0xe6, 0xef, 0xb1, 0xb6, 0x0e, 0x31, 0x99, 0xb1, 0x81, 0x82, 0xc6, 0x3d, 0x95,
    0x77, 0xf6, 0xcd, 0xfe, 0xaa, 0xa0, 0xac, 0xb3, 0x39, 0x9a, 0xc8, 0xd8, 0x7b, 0x4d, 0x8f, 0x73,
];

pub(crate) const PEER: Address = Address::V4([10, 0, 0, 2], 7000);

pub(crate) const OTHER: Address = Address::V4([10, 0, 0, 3], 7000);

// The first words of the key streams of zeros and of a 1 and zeros behind it, the first test vectors of ChaCha20 (RFC 8439, appendix A.1;
// draft-strombergson-chacha-test-vectors-01, TC1 and TC2).
pub(crate) const OF_ZEROS: [u8; 4] = [0xad, 0xe0, 0xb8, 0x76];

pub(crate) const OF_ONE: [u8; 4] = [0x7c, 0x0a, 0xd3, 0xc5];

pub(crate) const THEIRS: [u8; 4] = [0x0a, 0x0b, 0x0c, 0x0d];

pub(crate) const NONE: [u8; 4] = [0; 4];

// Version 1, least version 1, and the root follows.
pub(crate) const FRONT: [u8; 7] = [0, 1, 1, 1, 2, 0, 32];

// Integrity method 1, hash function 2, addressing method 2, the supported messages, chunk size 1024, and the end.
pub(crate) const REST: [u8; 16] = [3, 1, 4, 2, 6, 2, 8, 2, 0xfe, 0xf8, 9, 0, 0, 4, 0, 255];

pub(crate) const HAVE_ONE: [u8; 9] = [3, 0, 0, 0, 0, 0, 0, 0, 0];

pub(crate) const HAVE_SEVEN: [u8; 9] = [3, 0, 0, 0, 0, 0, 0, 0, 6];

pub(crate) const REQUEST: [u8; 9] = [8, 0, 0, 0, 0, 0, 0, 0, 0];

// The closing handshake behind the channel's number: source channel 0, and no options.
pub(crate) const CLOSING: [u8; 6] = [0, 0, 0, 0, 0, 255];

// Byte j of the content: 5, 12, 19 .., with a step more at each 256th.
fn byte(j: u32) -> u8 {
    let [_, high, middle, low] = j.to_be_bytes();
    low.wrapping_mul(7)
        .wrapping_add(5)
        .wrapping_add(middle)
        .wrapping_add(high)
}

fn content() -> [u8; 7000] {
    let mut bytes = [0u8; 7000];
    for (j, byte_j) in bytes.iter_mut().enumerate() {
        *byte_j = byte(j as u32);
    }
    bytes
}

fn joined(alloc: Global, parts: &[&[u8]]) -> Result<Vec<u8>, AllocError> {
    let mut bytes = Vec::new(alloc);
    for part in parts {
        bytes.extend_from_slice(part)?;
    }
    Ok(bytes)
}

// The swarm of `abc`.
pub(crate) fn swarm_of_abc() -> Result<Descriptor, Fail> {
    Ok(Descriptor::new(Digest::new(ABC), 1024, 3, Method::Range32)?)
}

// The swarm of the 7,000 bytes.
pub(crate) fn swarm_of_seven() -> Result<Descriptor, Fail> {
    Ok(Descriptor::new(Digest::new(SEVEN), 1024, 7000, Method::Range32)?)
}

// A disk with the store of a content.
fn stored(alloc: Global, content: &[u8]) -> Result<MemoryDisk, Fail> {
    let mut disk = MemoryDisk::new(alloc, &[])?;
    import(1024, &mut MemorySource::new(content), &mut disk)?;
    Ok(disk)
}

// A disk with the store of the 7,000 bytes.
pub(crate) fn disk_of_seven(alloc: Global) -> Result<MemoryDisk, Fail> {
    stored(alloc, &content())
}

// Some swarms, their disks and their link.
pub(crate) struct Shared {
    alloc: Global,
    pub(crate) hub: Hub,
    pub(crate) disks: Vec<MemoryDisk>,
    pub(crate) link: MemoryLink,
    buffer: Vec<u8>,
    seen: usize,
}

// They are let go by functions of their own: a test then has to show of one call, and not of all that they own, that it is safe.
impl Drop for Shared {
    fn drop(self) {
        let Shared {
            alloc: _,
            hub,
            disks,
            link,
            buffer: _,
            seen: _,
        } = self;
        drop_hub(hub);
        drop_devices(disks, link);
    }
}

fn drop_hub(_hub: Hub) {}

fn drop_devices(_disks: Vec<MemoryDisk>, _link: MemoryLink) {}

impl Shared {
    // No swarm yet.
    pub(crate) fn new(alloc: Global) -> Result<Shared, Fail> {
        Ok(Shared {
            alloc,
            hub: Hub::new(alloc)?,
            disks: Vec::new(alloc),
            link: MemoryLink::new(alloc)?,
            buffer: vec![in alloc; 0; 65536]?,
            seen: 0,
        })
    }

    // A swarm joins whose store is on a disk. Its channel numbers are drawn from zeros behind its number. Whether there was room.
    pub(crate) fn join(&mut self, swarm: &Descriptor, mut disk: MemoryDisk) -> Result<bool, Fail> {
        let mut random = [0; 32];
        random[0] = self.hub.swarms();
        let peer = Peer::open(self.alloc, swarm, random, None, &ArrayVec::new(), &mut disk)?;
        self.disks.push(disk)?;
        Ok(self.hub.join(peer).is_ok())
    }

    // The swarms of `abc` and of the 7,000 bytes, which have their contents.
    pub(crate) fn both(alloc: Global) -> Result<Shared, Fail> {
        let mut shared = Shared::new(alloc)?;
        shared.join(&swarm_of_abc()?, stored(alloc, b"abc")?)?;
        shared.join(&swarm_of_seven()?, disk_of_seven(alloc)?)?;
        Ok(shared)
    }

    // What is due goes.
    pub(crate) fn flush(&mut self) {
        if usize::from(self.hub.swarms()) <= self.disks.len() {
            self.hub.flush(self.disks.as_mut_slice(), &mut self.link);
        }
    }

    // All channels are closed.
    pub(crate) fn close(&mut self) {
        if usize::from(self.hub.swarms()) <= self.disks.len() {
            self.hub.close(self.disks.as_slice(), &mut self.link);
        }
    }

    // A datagram of these parts came at a moment.
    pub(crate) fn takes(&mut self, from: Address, at: u64, parts: &[&[u8]]) {
        let Ok(bytes) = joined(self.alloc, parts) else {
            return;
        };
        let len = bytes.len();
        let Some(front) = self.buffer.as_mut_slice().get_mut(..len) else {
            return;
        };
        front.copy_from_slice(&bytes);
        self.absorb(&Event::Datagram { from, len, at });
    }

    // What a wait came to.
    pub(crate) fn absorb(&mut self, event: &Event) {
        let fits = match *event {
            Event::Datagram { len, .. } => len <= 65536,
            Event::Quiet { .. } => true,
        };
        if fits
            && self.buffer.len() == 65536
            && usize::from(self.hub.swarms()) <= self.disks.len()
        {
            self.hub
                .absorb(event, self.buffer.as_slice(), self.disks.as_mut_slice());
        }
    }

    // Nothing came up to a moment, and what is due goes.
    pub(crate) fn hears_nothing(&mut self, at: u64) {
        self.absorb(&Event::Quiet { at });
        self.flush();
    }

    // A datagram came, and then what is due goes.
    pub(crate) fn hears(&mut self, from: Address, at: u64, parts: &[&[u8]]) {
        self.takes(from, at, parts);
        self.flush();
    }

    // The handshake of a peer that opens a channel of a swarm, and then what is due goes.
    pub(crate) fn opens(&mut self, from: Address, at: u64, root: &[u8; 32]) {
        self.hears(from, at, &[&NONE, &[0], &THEIRS, &FRONT, root, &REST]);
    }

    // Whether the next datagram that was sent went to an address, with these bytes.
    pub(crate) fn says(&mut self, to: Address, parts: &[&[u8]]) -> bool {
        let n = self.seen;
        if n >= self.link.sent() {
            return false;
        }
        let Ok(bytes) = joined(self.alloc, parts) else {
            return false;
        };
        self.seen += 1;
        self.receiver(n) == Some(to) && self.link.sent_bytes(n) == bytes.as_slice()
    }

    // To whom datagram `n` of those that were sent went.
    fn receiver(&self, n: usize) -> Option<Address> {
        let mut sent = 0;
        for i in 0..self.link.marks() {
            if let Mark::Sent { to, .. } = self.link.mark(i) {
                if sent == n {
                    return Some(to);
                }
                sent = sent.saturating_add(1);
            }
        }
        None
    }

    // Whether the reply to the peer's handshake goes next, of the swarm of this root: this number, and the chunks that it has.
    pub(crate) fn replies(
        &mut self,
        to: Address,
        number: &[u8; 4],
        root: &[u8; 32],
        have: &[u8; 9],
    ) -> bool {
        self.says(to, &[&THEIRS, &[0], number, &FRONT, root, &REST, have])
    }

    // Whether the next datagram that was sent goes to the peer's channel and ends with a DATA of chunk 0 that begins so. The hashes of
    // its path stand in front of it, 41 bytes each.
    pub(crate) fn sends_data(&mut self, begins: &[u8]) -> bool {
        let n = self.seen;
        if n >= self.link.sent() {
            return false;
        }
        self.seen += 1;
        let sent = self.link.sent_bytes(n);
        let mut at = 4;
        for _ in 0..32 {
            if sent.get(at) != Some(&4) {
                break;
            }
            at += 41;
        }
        let data = sent.get(at..).unwrap_or(&[]);
        sent.starts_with(&THEIRS)
            && data.starts_with(&[1, 0, 0, 0, 0, 0, 0, 0, 0])
            && data.get(17..).unwrap_or(&[]).starts_with(begins)
    }

    // Whether datagram `n` of those that were sent has so many bytes.
    pub(crate) fn is_long(&self, n: usize, len: usize) -> bool {
        n < self.link.sent() && self.link.sent_bytes(n).len() == len
    }

    // What was sent so far is passed over.
    pub(crate) fn skip(&mut self) {
        self.seen = self.link.sent();
    }

    // Whether all that was sent was looked at.
    pub(crate) fn is_silent(&self) -> bool {
        self.seen == self.link.sent()
    }

    // How many datagrams came for a swarm.
    pub(crate) fn came(&self, swarm: u8) -> Option<u64> {
        if swarm < self.hub.swarms() {
            Some(self.hub.peer(swarm).counts().datagrams)
        } else {
            None
        }
    }

    // How many waits the link refused, by a swarm's count.
    pub(crate) fn refusals(&self, swarm: u8) -> Option<u64> {
        if swarm < self.hub.swarms() {
            Some(self.hub.peer(swarm).counts().receive_faults)
        } else {
            None
        }
    }

    // Whether a swarm goes on.
    pub(crate) fn goes_on(&self, swarm: u8) -> bool {
        swarm < self.hub.swarms() && self.hub.peer(swarm).is_live()
    }
}
