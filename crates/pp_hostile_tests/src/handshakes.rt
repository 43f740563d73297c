//! Handshakes whose options have a fault, or don't fit the swarm, or that are of source channel 0.

use crate::side::{FRONT, NONE, OTHER, PEER, ROOT, Side, THEIRS, joined};
use crate::trial::{Depth, Outcome, RANGES, SURVIVED, To, tried};
use pp_tree::Method;
use std::alloc::Global;
use std::process::Abort;
use std::test::*;

// The options before the root, and those behind it.
#[derive(Clone, Copy)]
struct Shake {
    name: &'static str,
    before: &'static [u8],
    behind: &'static [u8],
}

// Those that a fitting handshake has.
const BEHIND: [u8; 16] = [3, 1, 4, 2, 6, 2, 8, 2, 0xfe, 0xf8, 9, 0, 0, 4, 0, 255];

// The codes that are not known: of live content, and 10 to 254.
const UNKNOWN: [Shake; 4] = [
    Shake {
        name: "code 5",
        before: &FRONT,
        behind: &[5, 13, 255],
    },
    Shake {
        name: "code 7",
        before: &FRONT,
        behind: &[7, 0, 0, 0, 0, 255],
    },
    Shake {
        name: "code 10",
        before: &[10, 0, 1, 1, 1, 2, 0, 32],
        behind: &BEHIND,
    },
    Shake {
        name: "code 254",
        before: &FRONT,
        behind: &[254],
    },
];

const TWICE: [Shake; 8] = [
    Shake {
        name: "two versions",
        before: &[0, 1, 0, 1, 1, 1, 2, 0, 32],
        behind: &BEHIND,
    },
    Shake {
        name: "two minimum versions",
        before: &[0, 1, 1, 1, 1, 1, 2, 0, 32],
        behind: &BEHIND,
    },
    Shake {
        name: "two swarm identifiers",
        before: &FRONT,
        behind: &[2, 0, 0, 3, 1, 255],
    },
    Shake {
        name: "two integrity methods",
        before: &FRONT,
        behind: &[3, 1, 3, 1, 255],
    },
    Shake {
        name: "two hash functions",
        before: &FRONT,
        behind: &[4, 2, 4, 2, 255],
    },
    Shake {
        name: "two addressing methods",
        before: &FRONT,
        behind: &[6, 2, 6, 2, 255],
    },
    Shake {
        name: "two bitmaps",
        before: &FRONT,
        behind: &[8, 0, 8, 0, 255],
    },
    Shake {
        name: "two chunk sizes",
        before: &FRONT,
        behind: &[9, 0, 0, 4, 0, 9, 0, 0, 4, 0, 255],
    },
];

const LENGTHS: [Shake; 7] = [
    Shake {
        name: "a bitmap of 33 bytes",
        before: &FRONT,
        behind: &[
            8, 33, 0, 0, 0, 0, 0, 0, 0, 0, 0, 0, 0, 0, 0, 0, 0, 0, 0, 0, 0, 0, 0, 0, 0, 0, 0, 0, 0,
            0, 0, 0, 0, 0, 0, 255,
        ],
    },
    Shake {
        name: "a bitmap of 255 bytes that aren't there",
        before: &FRONT,
        behind: &[8, 255, 255],
    },
    Shake {
        name: "a bitmap that ends too early",
        before: &FRONT,
        behind: &[8, 32, 255],
    },
    Shake {
        name: "a swarm identifier of 65,535 bytes that aren't there",
        before: &[0, 1, 1, 1, 2, 255, 255],
        behind: &BEHIND,
    },
    Shake {
        name: "a swarm identifier of 31 bytes, and what is left of the root",
        before: &[0, 1, 1, 1, 2, 0, 31],
        behind: &BEHIND,
    },
    Shake {
        name: "a chunk size that ends too early",
        before: &FRONT,
        behind: &[9, 0, 0, 4],
    },
    Shake {
        name: "no end",
        before: &FRONT,
        behind: &[3, 1, 4, 2, 6, 2, 8, 2, 0xfe, 0xf8, 9, 0, 0, 4, 0],
    },
];

// Options without a fault that don't fit.
const OTHERS: [Shake; 14] = [
    Shake {
        name: "version 0",
        before: &[0, 0, 1, 1, 2, 0, 32],
        behind: &BEHIND,
    },
    Shake {
        name: "minimum version 2",
        before: &[0, 2, 1, 2, 2, 0, 32],
        behind: &BEHIND,
    },
    Shake {
        name: "minimum version 255",
        before: &[0, 255, 1, 255, 2, 0, 32],
        behind: &BEHIND,
    },
    Shake {
        name: "a swarm identifier of 33 bytes",
        before: &[0, 1, 1, 1, 2, 0, 33],
        behind: &[0, 3, 1, 255],
    },
    Shake {
        name: "no integrity protection",
        before: &FRONT,
        behind: &[3, 0, 255],
    },
    Shake {
        name: "integrity method 255",
        before: &FRONT,
        behind: &[3, 255, 255],
    },
    Shake {
        name: "SHA-1",
        before: &FRONT,
        behind: &[4, 0, 255],
    },
    Shake {
        name: "hash function 255",
        before: &FRONT,
        behind: &[4, 255, 255],
    },
    Shake {
        name: "bins of 32 bits",
        before: &FRONT,
        behind: &[6, 0, 255],
    },
    Shake {
        name: "byte ranges",
        before: &FRONT,
        behind: &[6, 1, 255],
    },
    Shake {
        name: "ranges of 64 bits",
        before: &FRONT,
        behind: &[6, 4, 255],
    },
    Shake {
        name: "chunks of no byte",
        before: &FRONT,
        behind: &[9, 0, 0, 0, 0, 255],
    },
    Shake {
        name: "chunks of 256 bytes",
        before: &FRONT,
        behind: &[9, 0, 0, 1, 0, 255],
    },
    Shake {
        name: "chunks of 2^32 - 1 bytes",
        before: &FRONT,
        behind: &[9, 255, 255, 255, 255, 255],
    },
];

// The handshake, behind what is given.
fn message(alloc: Global, front: &[u8], source: &[u8], shake: &Shake) -> Result<Vec<u8>, Fail> {
    let mut bytes = joined(alloc, &[front, &[0], source])?;
    bytes.extend_from_slice(shake.before)?;
    bytes.extend_from_slice(&ROOT)?;
    bytes.extend_from_slice(shake.behind)?;
    Ok(bytes)
}

// Whether a datagram is answered by nothing, and another peer may open a channel.
fn passes_over(side: &mut Side, bytes: &[u8]) -> bool {
    side.takes(PEER, 5, bytes) && side.is_silent() && side.opens(OTHER, 6).is_some()
}

fn is_refused(alloc: Global, bytes: &[u8]) -> Result<bool, Fail> {
    let mut side = Side::full(alloc, Method::Range32)?;
    Ok(passes_over(&mut side, bytes))
}

// Whether so it is with a stranger's handshake for no channel.
fn opens_none(alloc: Global, source: &[u8], shake: &Shake) -> Result<bool, Fail> {
    let bytes = message(alloc, &NONE, source, shake)?;
    is_refused(alloc, &bytes)
}

// What becomes of a peer's handshake on its proven channel.
fn on_channel(alloc: Global, shake: &Shake) -> Result<Outcome, Fail> {
    let bytes = message(alloc, &[], &THEIRS, shake)?;
    tried(alloc, RANGES, To::Channel, &bytes, Depth::Chunks)
}

fn survives(rt: &impl Abort, alloc: Global, shakes: &[Shake]) -> Result<(), Fail> {
    for shake in shakes {
        let name = shake.name;
        assert!(rt;
            opens_none(alloc, &THEIRS, shake)?,
            "{name}, for no channel"
        );
        assert_eq!(rt; on_channel(alloc, shake)?, SURVIVED, "{name}, on a channel");
    }
    Ok(())
}

#[test]
fn unknown_options_are_survived(rt: HostRuntime) -> Result<(), Fail> {
    survives(&rt, rt.alloc(), &UNKNOWN)
}

#[test]
fn repeated_options_are_survived(rt: HostRuntime) -> Result<(), Fail> {
    survives(&rt, rt.alloc(), &TWICE)
}

#[test]
fn wrong_lengths_are_survived(rt: HostRuntime) -> Result<(), Fail> {
    survives(&rt, rt.alloc(), &LENGTHS)
}

#[test]
fn options_of_other_swarms_are_survived(rt: HostRuntime) -> Result<(), Fail> {
    survives(&rt, rt.alloc(), &OTHERS)
}

// Options that fit.
const FITTING: Shake = Shake {
    name: "fitting options",
    before: &FRONT,
    behind: &BEHIND,
};

// What becomes of a handshake of source channel 0 for no channel, from a peer that has one.
fn of_source_0(alloc: Global) -> Result<Outcome, Fail> {
    let bytes = message(alloc, &NONE, &NONE, &FITTING)?;
    tried(alloc, RANGES, To::Nobody, &bytes, Depth::All)
}

#[test]
fn a_source_of_0_opens_no_channel(rt: HostRuntime) -> Result<(), Fail> {
    assert!(rt; opens_none(rt.alloc(), &NONE, &FITTING)?);
    assert_eq!(rt; of_source_0(rt.alloc())?, SURVIVED);
    Ok(())
}
