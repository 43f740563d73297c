//! A peer over devices in memory, whose link keeps all that came and went.

use arrayvec::ArrayVec;
use pp_avail::Rank;
use pp_core::Peer;
use pp_outside::{Address, Event, MemoryDisk, MemoryLink, MemorySource};
use pp_store::import;
use pp_tree::{Book, Descriptor, Digest, Method};
use pp_turns::take_turn;
use std::alloc::{AllocError, Global};
use std::test::*;

pub(crate) const PEER: Address = Address::V4([10, 0, 0, 2], 7000);

pub(crate) const OTHER: Address = Address::V4([10, 0, 0, 3], 7000);

/// The other peers' number of their channels.
pub(crate) const THEIRS: [u8; 4] = [0x0a, 0x0b, 0x0c, 0x0d];

pub(crate) const NONE: [u8; 4] = [0; 4];

/// The root of the content, by another program's SHA-256.
pub(crate) const ROOT: [u8; 32] = [
    0xb4, 0x2e, 0xff, 0xe6, 0xef, 0xb1, 0xb6, 0x0e, 0x31, 0x99, 0xb1, 0x81, 0x82, 0xc6, 0x3d, 0x95,
    0x77, 0xf6, 0xcd, 0xfe, 0xaa, 0xa0, 0xac, 0xb3, 0x39, 0x9a, 0xc8, 0xd8, 0x7b, 0x4d, 0x8f, 0x73,
];

/// Version 1, least version 1, and the root follows.
pub(crate) const FRONT: [u8; 7] = [0, 1, 1, 1, 2, 0, 32];

// Byte j of the content: 5, 12, 19 .., with a step more at each 256th.
fn byte(j: u32) -> u8 {
    let [_, high, middle, low] = j.to_be_bytes();
    low.wrapping_mul(7)
        .wrapping_add(5)
        .wrapping_add(middle)
        .wrapping_add(high)
}

/// The content: six chunks of 1,024 bytes and one of 856.
fn content() -> [u8; 7000] {
    let mut bytes = [0u8; 7000];
    for (j, byte_j) in bytes.iter_mut().enumerate() {
        *byte_j = byte(j as u32);
    }
    bytes
}

/// The bytes of a chunk of the content that isn't its last.
pub(crate) fn chunk_of_content(number: u32) -> [u8; 1024] {
    let mut bytes = [0u8; 1024];
    for (j, byte_j) in bytes.iter_mut().enumerate() {
        *byte_j = byte(number.wrapping_mul(1024).wrapping_add(j as u32));
    }
    bytes
}

/// A datagram for no channel.
pub(crate) fn for_none(alloc: Global, message: &[u8]) -> Result<Vec<u8>, AllocError> {
    let mut bytes = NONE.to_vec(alloc)?;
    bytes.extend_from_slice(message)?;
    Ok(bytes)
}

pub(crate) fn joined(alloc: Global, parts: &[&[u8]]) -> Result<Vec<u8>, AllocError> {
    let mut bytes = Vec::new(alloc);
    for part in parts {
        bytes.extend_from_slice(part)?;
    }
    Ok(bytes)
}

/// A disk with the store of the content.
fn full_disk(alloc: Global) -> Result<MemoryDisk, Fail> {
    let mut disk = MemoryDisk::new(alloc, &[])?;
    let swarm = import(1024, &mut MemorySource::new(&content()), &mut disk)?;
    if swarm.root() != Digest::new(ROOT) {
        return Err("another root".into());
    }
    Ok(disk)
}

/// The swarm of the content, whose chunks are named by this method.
pub(crate) fn swarm(method: Method) -> Result<Descriptor, Fail> {
    Ok(Descriptor::new(Digest::new(ROOT), 1024, 7000, method)?)
}

// The options of a handshake that fits the swarm.
fn options_of(alloc: Global, swarm: &Descriptor) -> Result<Vec<u8>, AllocError> {
    let root = swarm.root();
    let method = [swarm.method().number()];
    let chunk = swarm.chunk().to_be_bytes();
    let parts: [&[u8]; 7] = [
        &FRONT,
        root.bytes(),
        &[3, 1, 4, 2, 6],
        &method,
        &[8, 2, 0xfe, 0xf8, 9],
        &chunk,
        &[255],
    ];
    joined(alloc, &parts)
}

/// A peer with its devices, the options of a handshake that fits its swarm, and how many of the datagrams that it sent were looked at.
pub(crate) struct Side {
    pub(crate) alloc: Global,
    pub(crate) peer: Peer,
    pub(crate) link: MemoryLink,
    options: Vec<u8>,
    disk: MemoryDisk,
    buffer: Vec<u8>,
    seen: usize,
}

// It is let go by a function of its own: a test then has to show of one call, and not of all that a peer owns, that it is safe.
impl Drop for Side {
    fn drop(self) {
        let Side {
            alloc: _,
            peer,
            link,
            options: _,
            disk,
            buffer: _,
            seen: _,
        } = self;
        drop_book(peer.into_book());
        drop_devices(disk, link);
    }
}

fn drop_book(_book: Book) {}

fn drop_devices(_disk: MemoryDisk, _link: MemoryLink) {}

impl Side {
    /// A peer of a swarm over a disk.
    pub(crate) fn open(
        alloc: Global,
        swarm: &Descriptor,
        dial: Option<Address>,
        mut disk: MemoryDisk,
    ) -> Result<Side, Fail> {
        let mut dialled = ArrayVec::new();
        let mut asks = None;
        if let Some(address) = dial {
            dialled.try_push(address)?;
            asks = Some(Rank::Sequential);
        }
        let peer = Peer::open(alloc, swarm, [0; 32], asks, &dialled, &mut disk)?;
        Ok(Side {
            alloc,
            peer,
            link: MemoryLink::new(alloc)?,
            options: options_of(alloc, swarm)?,
            disk,
            buffer: vec![in alloc; 0; 65536]?,
            seen: 0,
        })
    }

    /// A peer that has all chunks of the content.
    pub(crate) fn full(alloc: Global, method: Method) -> Result<Side, Fail> {
        Side::open(alloc, &swarm(method)?, None, full_disk(alloc)?)
    }

    // One turn. Whether the disk did what was to be done.
    fn turn(&mut self) -> bool {
        if self.buffer.len() != 65536 {
            return false;
        }
        take_turn(
            &mut self.peer,
            &mut self.buffer,
            &mut self.disk,
            &mut self.link,
        )
        .is_ok()
    }

    /// A turn in which a datagram comes at a moment. Whether it came, and the disk did what was to be done.
    pub(crate) fn takes(&mut self, from: Address, at: u64, bytes: &[u8]) -> bool {
        if bytes.len() > 65536 {
            return false;
        }
        let event = Event::Datagram {
            from,
            len: bytes.len(),
            at,
        };
        self.link.add(event, bytes).is_ok() && self.turn()
    }

    /// The same, for a datagram of these parts.
    pub(crate) fn hears(&mut self, from: Address, at: u64, parts: &[&[u8]]) -> bool {
        let Ok(bytes) = joined(self.alloc, parts) else {
            return false;
        };
        self.takes(from, at, &bytes)
    }

    /// A turn in which nothing comes up to a moment.
    pub(crate) fn waits(&mut self, at: u64) -> bool {
        self.link.add(Event::Quiet { at }, &[]).is_ok() && self.turn()
    }

    /// What was sent so far is passed over.
    pub(crate) fn skip(&mut self) {
        self.seen = self.link.sent();
    }

    /// Whether all that was sent was looked at.
    pub(crate) fn is_silent(&self) -> bool {
        self.seen == self.link.sent()
    }

    /// A copy of the next datagram that was sent, if one is left to be looked at.
    pub(crate) fn next(&mut self) -> Option<Vec<u8>> {
        let n = self.seen;
        if n >= self.link.sent() {
            return None;
        }
        self.seen += 1;
        joined(self.alloc, &[self.link.sent_bytes(n)]).ok()
    }

    /// This peer's number of a channel, where the next datagram that was sent begins with its handshake.
    pub(crate) fn number(&mut self) -> Option<[u8; 4]> {
        let bytes = self.next()?;
        if bytes.len() < 9 || bytes[4] != 0 {
            return None;
        }
        Some([bytes[5], bytes[6], bytes[7], bytes[8]])
    }

    /// A datagram for the channel of a number, or for none, that is a handshake which fits the swarm.
    fn handshake(&self, number: &[u8]) -> Option<Vec<u8>> {
        let mut bytes = joined(self.alloc, &[number, &[0], &THEIRS]).ok()?;
        bytes.extend_from_slice(&self.options).ok()?;
        Some(bytes)
    }

    /// A peer opens a channel, and is told this peer's number of it.
    pub(crate) fn opens(&mut self, from: Address, at: u64) -> Option<[u8; 4]> {
        self.skip();
        let opening = self.handshake(&NONE)?;
        if !self.takes(from, at, &opening) {
            return None;
        }
        self.number()
    }

    /// A peer that was dialled replies.
    pub(crate) fn replies(&mut self, from: Address, at: u64, number: &[u8]) -> bool {
        match self.handshake(number) {
            Some(reply) => self.takes(from, at, &reply),
            None => false,
        }
    }

    /// Whether a peer that asks for one chunk, and then for nothing else, is sent it. The chunk's name and its bytes are given.
    pub(crate) fn serves(
        &mut self,
        from: Address,
        at: u64,
        asking: &[&[u8]],
        name: &[u8],
        chunk: &[u8],
    ) -> bool {
        self.skip();
        self.hears(from, at, asking) && self.has_sent(name, chunk)
    }

    // Whether one of the datagrams that were not looked at ends with this chunk.
    fn has_sent(&self, name: &[u8], chunk: &[u8]) -> bool {
        for n in self.seen..self.link.sent() {
            if is_data(self.link.sent_bytes(n), name, chunk) {
                return true;
            }
        }
        false
    }
}

// Whether a datagram ends with a DATA of this name, some moment and these bytes.
fn is_data(datagram: &[u8], name: &[u8], chunk: &[u8]) -> bool {
    let Some(before) = datagram.strip_suffix(chunk) else {
        return false;
    };
    let Some((head, _moment)) = before.split_last_chunk::<8>() else {
        return false;
    };
    match head.strip_suffix(name) {
        Some(front) => front.ends_with(&[1]),
        None => false,
    }
}
