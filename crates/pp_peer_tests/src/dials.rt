//! When addresses are dialled, what a dialled peer's reply tells, and what is said then.

use crate::by_datagrams::{
    FRONT, NONE, NUMBERS, OURS, PEER, PEX_REQ, REST, SECOND, THEIRS, rest_with, tells,
};
use crate::by_rows::OTHER;
use crate::side::{ROOT, Side, joined, swarm};
use pp_outside::Address;
use pp_peer::{Supports, supported};
use std::alloc::Global;
use std::test::*;

// Bitmaps of supported messages, and whether they have PEX_REQ, type 6, and PEX_RESv6, type 12.
const BITMAPS: [([u8; 2], bool, bool); 4] = [
    ([0xfe, 0xf8], true, true),
    ([0x02, 0], true, false),
    ([0xfd, 0x08], false, true),
    ([0xfd, 0xf7], false, false),
];

// What a handshake with this bitmap tells.
fn told(alloc: Global, bitmap: [u8; 2]) -> Result<Supports, Fail> {
    let swarm = swarm()?;
    let rest = rest_with(bitmap);
    let bytes = joined(alloc, &[&NONE, &[0], &THEIRS, &FRONT, &ROOT, &rest])?;
    Ok(supported(&bytes, &swarm))
}

#[test]
fn a_handshake_tells_what_its_peer_takes(rt: HostRuntime) -> Result<(), Fail> {
    for (bitmap, requests, v6) in BITMAPS {
        assert_eq!(rt; told(rt.alloc(), bitmap)?, Supports { requests, v6 });
    }
    assert_eq!(rt; supported(&NONE, &swarm()?), Supports::ALL);
    Ok(())
}

// Moments up to which nothing comes, and whether a handshake of the dialled channel is due then: it is at once, and again 3 and 9
// seconds later. The channel ends after 10.
const MOMENTS: [(u64, bool); 6] = [
    (0, true),
    (3 * SECOND - 1, false),
    (3 * SECOND, true),
    (9 * SECOND, true),
    (10 * SECOND, false),
    (40 * SECOND - 1, false),
];

// Whether a handshake of a channel of this number, and no more, goes to an address.
fn dials(side: &mut Side, to: Address, number: &[u8]) -> bool {
    side.says(to, &[&NONE, &[0], number, &FRONT, &ROOT, &REST]) && side.is_silent()
}

// Whether such a handshake goes at a moment, if it is due, and else nothing.
fn dials_in_time(side: &mut Side, at: u64, is_due: bool) -> bool {
    if !side.waits(at) {
        return false;
    }
    if is_due {
        dials(side, PEER, &OURS)
    } else {
        side.is_silent()
    }
}

// Whether an address is dialled, and again 30 seconds after its channel ended.
fn dials_again(side: &mut Side) -> bool {
    for (at, is_due) in MOMENTS {
        if !dials_in_time(side, at, is_due) {
            return false;
        }
    }
    side.waits(40 * SECOND) && dials(side, PEER, &NUMBERS[1])
}

// The dialled peer replies on a channel of this number, with these options behind the root and without a chunk.
fn is_replied(side: &mut Side, number: &[u8], at: u64, rest: &[u8]) -> bool {
    side.hears(PEER, at, &[number, &[0], &THEIRS, &FRONT, &ROOT, rest])
}

// It tells of two addresses: its own, which has a channel, and another.
fn is_told(side: &mut Side) -> bool {
    let told = [5, 10, 0, 0, 2, 0x1b, 0x58, 5, 10, 0, 0, 3, 0x1b, 0x58];
    side.hears(PEER, 42 * SECOND, &[&NUMBERS[1], &told])
}

// Whether the reply is answered by a question for addresses, and the new one of them is dialled, once.
fn dials_another(side: &mut Side) -> bool {
    is_replied(side, &NUMBERS[1], 41 * SECOND, &REST)
        && tells(side, PEER, &PEX_REQ)
        && is_told(side)
        && dials(side, OTHER, &NUMBERS[2])
        && side.waits(43 * SECOND)
        && side.is_silent()
}

#[test]
fn an_address_is_dialled_again_after_30_seconds(rt: HostRuntime) -> Result<(), Fail> {
    let mut side = Side::fetcher(rt.alloc())?;
    assert!(rt; dials_again(&mut side));
    assert!(rt; dials_another(&mut side));
    Ok(())
}

// Whether a reply is answered by its channel's number alone where the other peer takes no question for addresses.
fn shows_its_address(side: &mut Side) -> bool {
    is_replied(side, &OURS, 6, &rest_with([0xfd, 0xf7]))
        && side.says(PEER, &[&THEIRS])
        && side.is_silent()
}

#[test]
fn a_reply_awaits_a_datagram(rt: HostRuntime) -> Result<(), Fail> {
    let mut side = Side::fetcher(rt.alloc())?;
    assert!(rt; side.waits(1) && dials(&mut side, PEER, &OURS));
    assert!(rt; shows_its_address(&mut side));
    Ok(())
}
