//! A peer by more rows of bytes: what a seeder answers in turn, and in which order a fetcher asks.

use crate::by_datagrams::{
    FRONT, HAVE_ALL, NONE, NUMBERS, OURS, PEER, PEX_REQ, REST, THEIRS, is_answered, proves,
    replies, request, told,
};
use crate::side::{ROOT, Side};
use pp_avail::Rank;
use pp_outside::Address;
use pp_tree::{Descriptor, Digest, Method};
use std::alloc::Global;
use std::test::*;

pub(crate) const OTHER: Address = Address::V4([10, 0, 0, 3], 7000);

// An acknowledgement of chunks, with this delay in microseconds.
pub(crate) fn ack(first: u8, last: u8, delay: u8) -> [u8; 17] {
    [2, 0, 0, 0, first, 0, 0, 0, last, 0, 0, 0, 0, 0, 0, 0, delay]
}

pub(crate) fn have(first: u8, last: u8) -> [u8; 9] {
    [3, 0, 0, 0, first, 0, 0, 0, last]
}

// The number of the whole chunk at the end of the next datagram.
fn next_chunk(side: &mut Side) -> Option<u8> {
    let bytes = side.next()?;
    if bytes.len() < 1045 {
        return None;
    }
    let head = &bytes[bytes.len() - 1041..];
    if head[0] != 1 {
        return None;
    }
    Some(head[4])
}

// Whether the next datagrams end with these chunks, and no more were sent.
fn sends(side: &mut Side, chunks: &[u8]) -> bool {
    for chunk in chunks {
        if next_chunk(side) != Some(*chunk) {
            return false;
        }
    }
    side.is_silent()
}

// Another address asks in its first datagram.
fn another_asks(side: &mut Side) -> bool {
    let asking: [&[u8]; 7] = [&NONE, &[0], &THEIRS, &FRONT, &ROOT, &REST, &request(0, 6)];
    side.hears(OTHER, 7, &asking)
}

// Whether it is answered, but not served before it shows that it got the reply.
fn another_is_served(side: &mut Side) -> bool {
    let number = &NUMBERS[1];
    replies(side, OTHER, number, &HAVE_ALL)
        && side.is_silent()
        && side.hears(OTHER, 8, &[number])
        && sends(side, &[0, 1])
}

#[test]
fn a_repeated_handshake_is_answered_again(rt: HostRuntime) -> Result<(), Fail> {
    let mut side = Side::full(rt.alloc())?;
    assert!(rt; is_answered(&mut side, 5, &OURS) && is_answered(&mut side, 6, &OURS));
    assert!(rt; another_asks(&mut side) && another_is_served(&mut side));
    Ok(())
}

// Seven chunks are asked for. Whether the first two are sent.
fn sends_two(side: &mut Side) -> bool {
    told(side, 6, &request(0, 6)) && sends(side, &[0, 1])
}

// Chunk 2 is not wanted any more, and the first two came.
fn cancels(side: &mut Side) -> bool {
    let cancel = [9, 0, 0, 0, 2, 0, 0, 0, 2];
    side.hears(PEER, 7, &[&OURS, &cancel, &ack(0, 1, 0)])
}

#[test]
fn a_window_opens_by_what_is_acknowledged(rt: HostRuntime) -> Result<(), Fail> {
    let mut side = Side::full(rt.alloc())?;
    assert!(rt; proves(&mut side, PEER, &OURS, 5) && sends_two(&mut side));
    assert!(rt; cancels(&mut side) && sends(&mut side, &[3, 4, 5]));
    Ok(())
}

// A swarm of 100 chunks of 256 bytes.
fn hundred() -> Result<Descriptor, Fail> {
    Ok(Descriptor::new(Digest::new([7; 32]), 256, 25_600, Method::Range32)?)
}

// The options of a handshake of such a swarm with this root.
pub(crate) fn options(root: &[u8; 32]) -> [u8; 55] {
    let mut options = [0; 55];
    options[..7].copy_from_slice(&FRONT);
    options[7..39].copy_from_slice(root);
    options[39..].copy_from_slice(&[3, 1, 4, 2, 6, 2, 8, 2, 0xfe, 0xf8, 9, 0, 0, 1, 0, 255]);
    options
}

// A fetcher that dialled two peers.
fn of_two(alloc: Global, order: Rank) -> Result<Side, Fail> {
    let mut side = Side::empty(alloc, &hundred()?, Some(order), &[PEER, OTHER])?;
    side.waits(1);
    side.skip();
    Ok(side)
}

// A peer replies on a channel of this number, and has the chunks up to this one.
fn replied(side: &mut Side, from: Address, number: &[u8], last: u8) -> bool {
    let options = options(&[7; 32]);
    side.hears(from, 2, &[number, &[0], &THEIRS, &options, &have(0, last)])
}

// Whether a peer is asked for these chunks.
fn asks(side: &mut Side, to: Address, first: u8, last: u8) -> bool {
    side.says(to, &[&THEIRS, &request(first, last), &PEX_REQ])
}

// The second peer has the first half, and is asked for it; then the first one has all, and is asked for this.
fn asks_both(side: &mut Side, first: u8, last: u8) -> bool {
    if !(replied(side, OTHER, &NUMBERS[1], 49) && asks(side, OTHER, 0, 31)) {
        return false;
    }
    replied(side, PEER, &OURS, 99) && asks(side, PEER, first, last) && side.is_silent()
}

fn asks_in(alloc: Global, order: Rank, first: u8, last: u8) -> Result<bool, Fail> {
    let mut side = of_two(alloc, order)?;
    Ok(asks_both(&mut side, first, last))
}

#[test]
fn chunks_are_asked_for_in_order(rt: HostRuntime) -> Result<(), Fail> {
    assert!(rt; asks_in(rt.alloc(), Rank::Rarest, 50, 81)?);
    assert!(rt; asks_in(rt.alloc(), Rank::Sequential, 32, 63)?);
    Ok(())
}
