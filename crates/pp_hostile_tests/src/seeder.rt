//! A seeder that is given each datagram of the table.

use crate::cases::{BYTES, CHOKES, Case, EXTREME, MANY, OUTSIDE, REVERSED};
use crate::judging::{is_kept, is_served};
use crate::side::{PEER, Side, chunk_of_content};
use crate::trial::{Depth, Outcome, RANGES, SURVIVED, To, Trial, tried};
use pp_tree::Method;
use std::alloc::Global;
use std::process::Abort;
use std::test::*;

// What becomes of a case.
fn met(alloc: Global, case: &Case, depth: Depth) -> Result<Outcome, Fail> {
    let bytes = case.bytes(alloc)?;
    tried(alloc, RANGES, case.to, &bytes, depth)
}

fn survives(rt: &impl Abort, alloc: Global, cases: &[Case], depth: Depth) -> Result<(), Fail> {
    for case in cases {
        let name = case.name;
        assert_eq!(rt; met(alloc, case, depth)?, SURVIVED, "{name}");
    }
    Ok(())
}

#[test]
fn reversed_spans_are_survived(rt: HostRuntime) -> Result<(), Fail> {
    survives(&rt, rt.alloc(), &REVERSED, Depth::All)
}

#[test]
fn what_lies_outside_is_survived(rt: HostRuntime) -> Result<(), Fail> {
    survives(&rt, rt.alloc(), &OUTSIDE, Depth::All)
}

#[test]
fn extreme_values_are_survived(rt: HostRuntime) -> Result<(), Fail> {
    survives(&rt, rt.alloc(), &EXTREME, Depth::All)
}

#[test]
fn many_messages_are_survived(rt: HostRuntime) -> Result<(), Fail> {
    survives(&rt, rt.alloc(), &MANY, Depth::Chunks)
}

#[test]
fn a_datagram_of_chokes_is_survived(rt: HostRuntime) -> Result<(), Fail> {
    survives(&rt, rt.alloc(), &CHOKES, Depth::Chunks)
}

#[test]
fn a_datagram_of_one_byte_messages_is_survived(rt: HostRuntime) -> Result<(), Fail> {
    survives(&rt, rt.alloc(), &BYTES, Depth::Chunks)
}

// Types 7 and 13 to 255. A closing handshake stands behind each, and isn't read.
#[test]
fn unknown_types_are_survived(rt: HostRuntime) -> Result<(), Fail> {
    for kind in 7..=255 {
        if kind == 7 || kind > 12 {
            let message = [kind, 0, 0, 0, 0, 0, 255];
            let outcome = tried(rt.alloc(), RANGES, To::Channel, &message, Depth::Chunks)?;
            assert_eq!(rt; outcome, SURVIVED, "type {kind}");
        }
    }
    Ok(())
}

// The moments of datagrams that ask for all chunks, and of the one that came before.
const STEPS: [(u64, u64); 5] = [
    (5, 0),
    (1_000_000, 999_999),
    (9_000_000, 0),
    (100_000_000, 5),
    (100_000_000, 99_999_999),
];

// What becomes of a datagram that asks for all chunks at an earlier moment than one that came before.
fn stepped(alloc: Global, before: u64, at: u64) -> Result<Outcome, Fail> {
    let mut trial = Trial::new(alloc, RANGES)?;
    trial.hears_nothing(before);
    trial.outcome_at(To::Channel, at, &[8, 0, 0, 0, 0, 0, 0, 0, 6], Depth::All)
}

#[test]
fn moments_that_step_back_are_survived(rt: HostRuntime) -> Result<(), Fail> {
    for (before, at) in STEPS {
        assert_eq!(rt;
            stepped(rt.alloc(), before, at)?,
            SURVIVED,
            "{at} behind {before}"
        );
    }
    Ok(())
}

// Whether a chunk is served on a channel that is opened once the clock has come to its end.
fn serves_at_the_end(side: &mut Side) -> bool {
    side.opens(PEER, 1);
    side.waits(u64::MAX);
    let Some(number) = side.opens(PEER, 2) else {
        return false;
    };
    let chunk = chunk_of_content(3);
    let asking: [&[u8]; 3] = [&number, &[8], RANGES.fourth];
    side.serves(PEER, 3, &asking, RANGES.fourth, &chunk)
}

// That, and what the definitions say of it.
fn shows_at_the_end(side: &mut Side) -> Result<[bool; 3], Fail> {
    let is_sent = serves_at_the_end(side);
    let is_right = is_served(side)?;
    let is_kept = is_kept(side, true)?;
    Ok([is_sent, is_right, is_kept])
}

fn shown_at_the_end(alloc: Global) -> Result<[bool; 3], Fail> {
    let mut side = Side::full(alloc, Method::Range32)?;
    shows_at_the_end(&mut side)
}

#[test]
fn the_end_of_time_is_survived(rt: HostRuntime) -> Result<(), Fail> {
    assert_eq!(rt; shown_at_the_end(rt.alloc())?, [true; 3]);
    Ok(())
}
