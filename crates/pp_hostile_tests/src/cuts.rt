//! Each kind of message, cut at each of its bytes.

use crate::side::{FRONT, ROOT, THEIRS, for_none, joined};
use crate::trial::{Depth, RANGES, SURVIVED, To, tried};
use std::alloc::Global;
use std::process::Abort;
use std::test::*;

// All but HANDSHAKE. The digest of an INTEGRITY and the content of a DATA are wrong ones.
const WHOLE: [(&str, &[u8]); 11] = [
    (
        "DATA",
        &[1, 0, 0, 0, 0, 0, 0, 0, 0, 0, 0, 0, 0, 0, 0, 0, 9, 1, 2, 3],
    ),
    ("ACK", &[2, 0, 0, 0, 0, 0, 0, 0, 1, 0, 0, 0, 0, 0, 0, 0, 9]),
    ("HAVE", &[3, 0, 0, 0, 0, 0, 0, 0, 6]),
    (
        "INTEGRITY",
        &[
            4, 0, 0, 0, 0, 0, 0, 0, 3, 1, 2, 3, 4, 5, 6, 7, 8, 9, 10, 11, 12, 13, 14, 15, 16, 17,
            18, 19, 20, 21, 22, 23, 24, 25, 26, 27, 28, 29, 30, 31, 32,
        ],
    ),
    ("PEX_RESv4", &[5, 10, 0, 0, 9, 27, 88]),
    ("PEX_REQ", &[6]),
    ("REQUEST", &[8, 0, 0, 0, 0, 0, 0, 0, 6]),
    ("CANCEL", &[9, 0, 0, 0, 3, 0, 0, 0, 6]),
    ("CHOKE", &[10]),
    ("UNCHOKE", &[11]),
    (
        "PEX_RESv6",
        &[12, 0, 0, 0, 0, 0, 0, 0, 0, 0, 0, 0, 0, 0, 0, 0, 1, 27, 88],
    ),
];

// The first bytes of what is for a channel, or for none, at each length up to all of them.
fn survives(rt: &impl Abort, alloc: Global, to: To, name: &str, whole: &[u8]) -> Result<(), Fail> {
    for end in 0..=whole.len() {
        let outcome = tried(alloc, RANGES, to, &whole[..end], Depth::Chunks)?;
        assert_eq!(rt; outcome, SURVIVED, "{name} cut at {end}");
    }
    Ok(())
}

#[test]
fn cut_messages_are_survived(rt: HostRuntime) -> Result<(), Fail> {
    for (name, whole) in WHOLE {
        survives(&rt, rt.alloc(), To::Channel, name, whole)?;
    }
    Ok(())
}

// A handshake that fits the swarm.
fn handshake(alloc: Global) -> Result<Vec<u8>, Fail> {
    let rest = [3, 1, 4, 2, 6, 2, 8, 2, 0xfe, 0xf8, 9, 0, 0, 4, 0, 255];
    Ok(joined(alloc, &[&[0], &THEIRS, &FRONT, &ROOT, &rest])?)
}

#[test]
fn a_cut_handshake_on_a_channel_is_survived(rt: HostRuntime) -> Result<(), Fail> {
    let whole = handshake(rt.alloc())?;
    survives(&rt, rt.alloc(), To::Channel, "HANDSHAKE", &whole)
}

#[test]
fn a_cut_opening_is_survived(rt: HostRuntime) -> Result<(), Fail> {
    let handshake = handshake(rt.alloc())?;
    let whole = for_none(rt.alloc(), &handshake)?;
    survives(&rt, rt.alloc(), To::Nobody, "an opening", &whole)
}
