//! A peer over memory devices, and what it sent. Its swarm is that of a content of 7,000 bytes, in six chunks of 1,024 bytes and
//! one of 856, or that of the content `abc`.

use crate::by_datagrams::PEER;
use arrayvec::ArrayVec;
use pp_avail::Rank;
use pp_core::Peer;
use pp_outside::{Address, Event, Mark, MemoryDisk, MemoryLink, MemorySource};
use pp_store::import;
use pp_tree::{Book, Descriptor, Digest, Method};
use std::alloc::{AllocError, Global};
use std::test::*;

// The root of the content, by another program's SHA-256.
pub(crate) const ROOT: [u8; 32] = [
    0xb4, 0x2e, 0xff, 0xe6, 0xef, 0xb1, 0xb6, 0x0e, 0x31, 0x99, 0xb1, 0x81, 0x82, 0xc6, 0x3d, 0x95,
    0x77, 0xf6, 0xcd, 0xfe, 0xaa, 0xa0, 0xac, 0xb3, 0x39, 0x9a, 0xc8, 0xd8, 0x7b, 0x4d, 0x8f, 0x73,
];

// SHA-256 of `abc`.
pub(crate) const ABC: [u8; 32] = [
    0xba, 0x78, 0x16, 0xbf, 0x8f, 0x01, 0xcf, 0xea, 0x41, 0x41, 0x40, 0xde, 0x5d, 0xae, 0x22, 0x23,
    0xb0, 0x03, 0x61, 0xa3, 0x96, 0x17, 0x7a, 0x9c, 0xb4, 0x10, 0xff, 0x61, 0xf2, 0x00, 0x15, 0xad,
];

// Byte j of the content: 5, 12, 19 .., with a step more at each 256th.
fn byte(j: u32) -> u8 {
    let [_, high, middle, low] = j.to_be_bytes();
    low.wrapping_mul(7)
        .wrapping_add(5)
        .wrapping_add(middle)
        .wrapping_add(high)
}

fn content() -> [u8; 7000] {
    let mut bytes = [0u8; 7000];
    for (j, byte_j) in bytes.iter_mut().enumerate() {
        *byte_j = byte(j as u32);
    }
    bytes
}

pub(crate) fn joined(alloc: Global, parts: &[&[u8]]) -> Result<Vec<u8>, AllocError> {
    let mut bytes = Vec::new(alloc);
    for part in parts {
        bytes.extend_from_slice(part)?;
    }
    Ok(bytes)
}

// A disk with the store of a content in chunks of 1,024 bytes, and its swarm.
fn stored(alloc: Global, content: &[u8]) -> Result<(Descriptor, MemoryDisk), Fail> {
    let mut disk = MemoryDisk::new(alloc, &[])?;
    let swarm = import(1024, &mut MemorySource::new(content), &mut disk)?;
    Ok((swarm, disk))
}

// The swarm of the content.
pub(crate) fn swarm() -> Result<Descriptor, Fail> {
    Ok(Descriptor::new(Digest::new(ROOT), 1024, 7000, Method::Range32)?)
}

// A peer with its devices, and how many of the datagrams that it sent were looked at.
pub(crate) struct Side {
    alloc: Global,
    pub(crate) peer: Peer,
    pub(crate) disk: MemoryDisk,
    pub(crate) link: MemoryLink,
    seen: usize,
}

// It is let go by a function of its own: a test then has to show of one call, and not of all that a peer owns, that it is safe.
impl Drop for Side {
    fn drop(self) {
        let Side {
            alloc: _,
            peer,
            disk,
            link,
            seen: _,
        } = self;
        drop_book(peer.into_book());
        drop_devices(disk, link);
    }
}

fn drop_book(_book: Book) {}

fn drop_devices(_disk: MemoryDisk, _link: MemoryLink) {}

impl Side {
    // A peer of a swarm over a disk.
    pub(crate) fn open(
        alloc: Global,
        swarm: &Descriptor,
        asks: Option<Rank>,
        dials: &[Address],
        mut disk: MemoryDisk,
    ) -> Result<Side, Fail> {
        let link = MemoryLink::new(alloc)?;
        let mut dialled = ArrayVec::new();
        for address in dials {
            dialled.try_push(*address)?;
        }
        let peer = Peer::open(alloc, swarm, [0; 32], asks, &dialled, &mut disk)?;
        Ok(Side {
            alloc,
            peer,
            disk,
            link,
            seen: 0,
        })
    }

    // A peer that has all chunks.
    pub(crate) fn full(alloc: Global) -> Result<Side, Fail> {
        let (_, disk) = stored(alloc, &content())?;
        Side::open(alloc, &swarm()?, None, &[], disk)
    }

    // A peer of a swarm that has no chunk.
    pub(crate) fn empty(
        alloc: Global,
        swarm: &Descriptor,
        asks: Option<Rank>,
        dials: &[Address],
    ) -> Result<Side, Fail> {
        let disk = MemoryDisk::new(alloc, &[])?;
        Side::open(alloc, swarm, asks, dials, disk)
    }

    // A fetcher of all seven chunks, which dials another peer.
    pub(crate) fn fetcher(alloc: Global) -> Result<Side, Fail> {
        Side::empty(alloc, &swarm()?, Some(Rank::Sequential), &[PEER])
    }

    // A peer that has the content `abc`, of one chunk.
    pub(crate) fn of_abc(alloc: Global, asks: Option<Rank>) -> Result<Side, Fail> {
        let (swarm, disk) = stored(alloc, b"abc")?;
        Side::open(alloc, &swarm, asks, &[], disk)
    }

    // What is due goes.
    pub(crate) fn flush(&mut self) {
        self.peer.flush(&mut self.disk, &mut self.link);
    }

    // Each channel is closed.
    pub(crate) fn close(&mut self) {
        self.peer.close(&self.disk, &mut self.link);
    }

    // A datagram came at a moment. Whether the disk did what was to be done.
    pub(crate) fn hear(&mut self, from: Address, at: u64, bytes: &[u8]) -> bool {
        if bytes.len() > 65536 {
            return false;
        }
        let event = Event::Datagram {
            from,
            len: bytes.len(),
            at,
        };
        self.peer.absorb(&event, bytes, &mut self.disk).is_ok()
    }

    // The same, for a datagram of these parts.
    pub(crate) fn takes(&mut self, from: Address, at: u64, parts: &[&[u8]]) -> bool {
        let Ok(bytes) = joined(self.alloc, parts) else {
            return false;
        };
        self.hear(from, at, &bytes)
    }

    // The same, and then what is due goes.
    pub(crate) fn hears(&mut self, from: Address, at: u64, parts: &[&[u8]]) -> bool {
        let done = self.takes(from, at, parts);
        self.flush();
        done
    }

    // Nothing came up to a moment, and what is due goes.
    pub(crate) fn waits(&mut self, at: u64) -> bool {
        let event = Event::Quiet { at };
        let done = self.peer.absorb(&event, &[], &mut self.disk).is_ok();
        self.flush();
        done
    }

    // To whom the datagram of number `n` went.
    fn receiver(&self, n: usize) -> Option<Address> {
        if n >= self.link.marks() {
            return None;
        }
        match self.link.mark(n) {
            Mark::Sent { to, .. } => Some(to),
            _ => None,
        }
    }

    // Whether the next datagram that was sent went to an address, with these bytes.
    pub(crate) fn says(&mut self, to: Address, parts: &[&[u8]]) -> bool {
        let n = self.seen;
        if n >= self.link.sent() {
            return false;
        }
        let Ok(bytes) = joined(self.alloc, parts) else {
            return false;
        };
        self.seen += 1;
        self.receiver(n) == Some(to) && self.link.sent_bytes(n) == bytes.as_slice()
    }

    // A copy of the next datagram that was sent, if one is left to be looked at.
    pub(crate) fn next(&mut self) -> Option<Vec<u8>> {
        let n = self.seen;
        if n >= self.link.sent() {
            return None;
        }
        self.seen += 1;
        joined(self.alloc, &[self.link.sent_bytes(n)]).ok()
    }

    // Whether all that was sent was looked at.
    pub(crate) fn is_silent(&self) -> bool {
        self.seen == self.link.sent()
    }

    // What was sent so far is passed over.
    pub(crate) fn skip(&mut self) {
        self.seen = self.link.sent();
    }
}
