//! A seeder of the content that is given one datagram, and what becomes of it.

use crate::judging::{is_kept, is_served, is_told};
use crate::side::{NONE, OTHER, PEER, Side, chunk_of_content, joined};
use pp_tree::Method;
use std::alloc::Global;
use std::test::*;

/// How chunks are named by a method: all of them, and the fourth.
#[derive(Clone, Copy)]
pub(crate) struct Names {
    pub(crate) method: Method,
    pub(crate) all: &'static [u8],
    pub(crate) fourth: &'static [u8],
}

/// By ranges of 32 bits.
pub(crate) const RANGES: Names = Names {
    method: Method::Range32,
    all: &[0, 0, 0, 0, 0, 0, 0, 6],
    fourth: &[0, 0, 0, 3, 0, 0, 0, 3],
};

/// How much is decided of what a link carried.
#[derive(Clone, Copy, PartialEq)]
pub(crate) enum Depth {
    /// Whether each chunk that was sent was served.
    Chunks,
    /// That, and all that is promised of the ends of turns.
    All,
}

/// To which channel a datagram is, and from whom.
#[derive(Clone, Copy, PartialEq)]
pub(crate) enum To {
    /// The peer's proven channel.
    Channel,
    /// The same, which the datagram closes.
    LastOfChannel,
    /// No channel, from the address of the peer that has one.
    NoneOfPeer,
    /// No bytes stand before those that are given.
    Nobody,
}

/// What became of a datagram.
#[derive(Clone, Copy, Debug, PartialEq)]
pub(crate) struct Outcome {
    /// It was taken.
    pub(crate) is_taken: bool,
    /// Another peer that asked then was served at once.
    pub(crate) is_other_served: bool,
    /// The peer itself was served, once it had acknowledged all and asked for one chunk alone.
    pub(crate) is_peer_served: bool,
    /// All that was sent was served by the definitions.
    pub(crate) is_right: bool,
    /// What the definitions promise of the ends of turns was kept, where that was asked.
    pub(crate) is_kept: bool,
}

/// What is to become of any datagram.
pub(crate) const SURVIVED: Outcome = Outcome {
    is_taken: true,
    is_other_served: true,
    is_peer_served: true,
    is_right: true,
    is_kept: true,
};

// This peer's numbers of the two channels.
#[derive(Clone, Copy)]
struct Numbers {
    peers: [u8; 4],
    others: [u8; 4],
}

/// A seeder with two proven channels. On the first all chunks were asked for, and two of them went.
#[derive(Drop)]
pub(crate) struct Trial {
    names: Names,
    side: Side,
    numbers: Numbers,
}

// Two peers open channels, and the first asks for all chunks.
fn greeted(side: &mut Side, all: &[u8]) -> Option<Numbers> {
    let peers = side.opens(PEER, 1)?;
    let others = side.opens(OTHER, 2)?;
    side.takes(OTHER, 3, &others);
    side.hears(PEER, 4, &[&peers, &[8], all]);
    Some(Numbers { peers, others })
}

impl Trial {
    pub(crate) fn new(alloc: Global, names: Names) -> Result<Trial, Fail> {
        let mut side = Side::full(alloc, names.method)?;
        match greeted(&mut side, names.all) {
            Some(numbers) => Ok(Trial {
                names,
                side,
                numbers,
            }),
            None => Err("no channel".into()),
        }
    }

    // The number in front of a datagram.
    fn front(&self, to: To) -> &[u8] {
        match to {
            To::Channel | To::LastOfChannel => &self.numbers.peers,
            To::NoneOfPeer => &NONE,
            To::Nobody => &[],
        }
    }

    // The datagram is taken.
    fn takes(&mut self, to: To, at: u64, message: &[u8]) -> bool {
        let Ok(bytes) = joined(self.side.alloc, &[self.front(to), message]) else {
            return false;
        };
        self.side.takes(PEER, at, &bytes)
    }

    // The other peer asks for the fourth chunk.
    fn serves_other(&mut self, at: u64) -> bool {
        let chunk = chunk_of_content(3);
        let (others, fourth) = (self.numbers.others, self.names.fourth);
        let asking: [&[u8]; 3] = [&others, &[8], fourth];
        self.side.serves(OTHER, at, &asking, fourth, &chunk)
    }

    // The peer withdraws what it asked for, acknowledges all, and asks for the fourth chunk.
    fn serves_peer(&mut self, at: u64) -> bool {
        let chunk = chunk_of_content(3);
        let Names { all, fourth, .. } = self.names;
        let peers = self.numbers.peers;
        let asking: [&[u8]; 8] = [&peers, &[9], all, &[2], all, &[0; 8], &[8], fourth];
        self.side.serves(PEER, at, &asking, fourth, &chunk)
    }

    // A channel is opened again where the old one is closed.
    fn reopens(&mut self, to: To, at: u64) {
        if to == To::LastOfChannel {
            if let Some(number) = self.side.opens(PEER, at) {
                self.numbers.peers = number;
            }
        }
    }

    /// Both peers send their numbers alone, at a moment.
    pub(crate) fn hears_nothing(&mut self, at: u64) {
        let (others, peers) = (self.numbers.others, self.numbers.peers);
        self.side.takes(OTHER, at, &others);
        self.side.takes(PEER, at, &peers);
    }

    // What the definitions say.
    fn is_kept(&self, depth: Depth) -> Result<bool, Fail> {
        Ok(
            depth == Depth::Chunks
                || is_told(&self.side, true, &[true; 7])? && is_kept(&self.side, true)?,
        )
    }

    /// The datagram comes at a moment, and what is asked for afterwards, some microseconds later.
    pub(crate) fn outcome_at(
        &mut self,
        to: To,
        at: u64,
        message: &[u8],
        depth: Depth,
    ) -> Result<Outcome, Fail> {
        let is_taken = self.takes(to, at, message);
        let is_other_served = self.serves_other(at.saturating_add(1));
        self.reopens(to, at.saturating_add(2));
        let is_peer_served = self.serves_peer(at.saturating_add(3));
        Ok(Outcome {
            is_taken,
            is_other_served,
            is_peer_served,
            is_right: is_served(&self.side)?,
            is_kept: self.is_kept(depth)?,
        })
    }
}

/// What becomes of a datagram that a seeder is given.
pub(crate) fn tried(
    alloc: Global,
    names: Names,
    to: To,
    message: &[u8],
    depth: Depth,
) -> Result<Outcome, Fail> {
    let mut trial = Trial::new(alloc, names)?;
    trial.outcome_at(to, 5, message, depth)
}
