//! A peer that lacks all chunks, has asked for them, and is given a datagram of the table instead. Then the first chunk comes with its
//! hashes, is stored, and is served to two peers.

use crate::cases::{BYTES, CHOKES, Case, EXTREME, MANY, OUTSIDE, REVERSED};
use crate::judging::{is_served, is_told};
use crate::side::{NONE, OTHER, PEER, Side, chunk_of_content, swarm};
use crate::trial::{Depth, To};
use pp_outside::MemoryDisk;
use pp_tree::Method;
use std::alloc::Global;
use std::process::Abort;
use std::test::*;

const FIRST: [u8; 8] = [0; 8];

const ALL: [u8; 8] = [0, 0, 0, 0, 0, 0, 0, 6];

// What a seeder sends where it is asked for the first chunk: the hashes of its path and the chunk, behind the channel's number.
fn asked(seeder: &mut Side) -> Option<Vec<u8>> {
    let number = seeder.opens(PEER, 1)?;
    seeder.skip();
    seeder.hears(PEER, 2, &[&number, &[8], &FIRST]);
    let sent = seeder.next()?;
    let messages = sent.get(4..)?;
    messages.to_vec(seeder.alloc).ok()
}

fn first_chunk(alloc: Global) -> Result<Vec<u8>, Fail> {
    let mut seeder = Side::full(alloc, Method::Range32)?;
    match asked(&mut seeder) {
        Some(messages) => Ok(messages),
        None => Err("nothing was sent".into()),
    }
}

// What became of a datagram.
#[derive(Clone, Copy, Debug, PartialEq)]
struct Fetched {
    is_taken: bool,
    is_stored: bool,
    is_other_served: bool,
    is_peer_served: bool,
    is_right: bool,
}

const SURVIVED: Fetched = Fetched {
    is_taken: true,
    is_stored: true,
    is_other_served: true,
    is_peer_served: true,
    is_right: true,
};

// This peer's numbers of the two channels.
#[derive(Clone, Copy)]
struct Numbers {
    peers: [u8; 4],
    others: [u8; 4],
}

// A fetcher with a channel that it dialled, and one that another peer opened.
#[derive(Drop)]
struct Trial {
    side: Side,
    numbers: Numbers,
}

// The peer that is dialled replies, and offers all chunks; another opens a channel.
fn greeted(side: &mut Side) -> Option<Numbers> {
    side.waits(1);
    let peers = side.number()?;
    side.replies(PEER, 2, &peers);
    side.hears(PEER, 2, &[&peers, &[3], &ALL]);
    let others = side.opens(OTHER, 3)?;
    side.takes(OTHER, 4, &others);
    Some(Numbers { peers, others })
}

// A peer that has no chunk.
fn empty(alloc: Global) -> Result<Side, Fail> {
    let disk = MemoryDisk::new(alloc, &[])?;
    Side::open(alloc, &swarm(Method::Range32)?, Some(PEER), disk)
}

impl Trial {
    fn new(alloc: Global) -> Result<Trial, Fail> {
        let mut side = empty(alloc)?;
        match greeted(&mut side) {
            Some(numbers) => Ok(Trial { side, numbers }),
            None => Err("no channel".into()),
        }
    }

    // The datagram comes. A channel that it closes is opened again.
    fn takes(&mut self, to: To, bytes: &[u8]) -> bool {
        let front = match to {
            To::Channel | To::LastOfChannel => self.numbers.peers,
            To::NoneOfPeer | To::Nobody => NONE,
        };
        let is_taken = self.side.hears(PEER, 5, &[&front, bytes]);
        if to == To::LastOfChannel {
            if let Some(number) = self.side.opens(PEER, 6) {
                self.numbers.peers = number;
            }
        }
        is_taken
    }

    // The first chunk comes, and then nothing. Whether it is committed.
    fn stores(&mut self, chunk: &[u8]) -> bool {
        let peers = self.numbers.peers;
        self.side.hears(PEER, 7, &[&peers, &[11], chunk])
            && self.side.waits(8)
            && self.side.peer.committed().first_absent() == Some(1)
    }

    fn serves_other(&mut self) -> bool {
        let chunk = chunk_of_content(0);
        let others = self.numbers.others;
        let asking: [&[u8]; 3] = [&others, &[8], &FIRST];
        self.side.serves(OTHER, 9, &asking, &FIRST, &chunk)
    }

    fn serves_peer(&mut self) -> bool {
        let chunk = chunk_of_content(0);
        let peers = self.numbers.peers;
        let asking: [&[u8]; 5] = [&peers, &[9], &ALL, &[8], &FIRST];
        self.side.serves(PEER, 10, &asking, &FIRST, &chunk)
    }

    fn is_right(&self, depth: Depth) -> Result<bool, Fail> {
        let held = [true, false, false, false, false, false, false];
        Ok(is_served(&self.side)? && (depth == Depth::Chunks || is_told(&self.side, false, &held)?))
    }

    // The datagram comes, and then the first chunk, which two peers ask for.
    fn fetches(
        &mut self,
        to: To,
        bytes: &[u8],
        chunk: &[u8],
        depth: Depth,
    ) -> Result<Fetched, Fail> {
        let is_taken = self.takes(to, bytes);
        let is_stored = self.stores(chunk);
        let is_other_served = self.serves_other();
        let is_peer_served = self.serves_peer();
        let is_right = self.is_right(depth)?;
        Ok(Fetched {
            is_taken,
            is_stored,
            is_other_served,
            is_peer_served,
            is_right,
        })
    }
}

// What becomes of a datagram.
fn tried(alloc: Global, to: To, bytes: &[u8], chunk: &[u8], depth: Depth) -> Result<Fetched, Fail> {
    let mut trial = Trial::new(alloc)?;
    trial.fetches(to, bytes, chunk, depth)
}

// What becomes of a case.
fn met(alloc: Global, case: &Case, chunk: &[u8], depth: Depth) -> Result<Fetched, Fail> {
    let bytes = case.bytes(alloc)?;
    tried(alloc, case.to, &bytes, chunk, depth)
}

fn survives(rt: &impl Abort, alloc: Global, cases: &[Case], depth: Depth) -> Result<(), Fail> {
    let chunk = first_chunk(alloc)?;
    for case in cases {
        let name = case.name;
        assert_eq!(rt; met(alloc, case, &chunk, depth)?, SURVIVED, "{name}");
    }
    Ok(())
}

#[test]
fn a_fetcher_survives_reversed_spans(rt: HostRuntime) -> Result<(), Fail> {
    survives(&rt, rt.alloc(), &REVERSED, Depth::All)
}

#[test]
fn a_fetcher_survives_what_lies_outside(rt: HostRuntime) -> Result<(), Fail> {
    survives(&rt, rt.alloc(), &OUTSIDE, Depth::All)
}

#[test]
fn a_fetcher_survives_extreme_values(rt: HostRuntime) -> Result<(), Fail> {
    survives(&rt, rt.alloc(), &EXTREME, Depth::All)
}

#[test]
fn a_fetcher_survives_many_messages(rt: HostRuntime) -> Result<(), Fail> {
    survives(&rt, rt.alloc(), &MANY, Depth::Chunks)
}

#[test]
fn a_fetcher_survives_a_datagram_of_chokes(rt: HostRuntime) -> Result<(), Fail> {
    survives(&rt, rt.alloc(), &CHOKES, Depth::Chunks)
}

#[test]
fn a_fetcher_survives_a_datagram_of_one_byte_messages(rt: HostRuntime) -> Result<(), Fail> {
    survives(&rt, rt.alloc(), &BYTES, Depth::Chunks)
}

// The first chunk behind its hashes, cut at these of its bytes.
fn survives_cuts(rt: &impl Abort, alloc: Global, first: usize, last: usize) -> Result<(), Fail> {
    let chunk = first_chunk(alloc)?;
    for end in first..=last {
        let front = chunk.get(..end).unwrap_or(&[]);
        let outcome = tried(alloc, To::Channel, front, &chunk, Depth::All)?;
        assert_eq!(rt; outcome, SURVIVED, "cut at {end}");
    }
    Ok(())
}

// Its first INTEGRITY has 41 bytes.
#[test]
fn a_fetcher_survives_cut_hashes(rt: HostRuntime) -> Result<(), Fail> {
    survives_cuts(&rt, rt.alloc(), 0, 41)
}

// The DATA begins behind five of these.
#[test]
fn a_fetcher_survives_a_cut_chunk(rt: HostRuntime) -> Result<(), Fail> {
    survives_cuts(&rt, rt.alloc(), 205, 225)
}
