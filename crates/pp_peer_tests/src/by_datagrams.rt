//! A peer by the bytes that come and go.

use crate::side::{ABC, ROOT, Side, swarm};
use pp_counts::{Counts, Note};
use pp_outside::{Address, Disk};
use std::test::*;

pub(crate) const SECOND: u64 = 1_000_000;

pub(crate) const PEER: Address = Address::V4([10, 0, 0, 2], 7000);

// The numbers of a peer's first channels where its seed is zeros: the first test vector of ChaCha20 (RFC 8439, appendix A.1).
pub(crate) const NUMBERS: [[u8; 4]; 9] = [
    OURS,
    [0x90, 0x3d, 0xf1, 0xa0],
    [0xe5, 0x6a, 0x5d, 0x40],
    [0x28, 0xbd, 0x86, 0x53],
    [0xb8, 0x19, 0xd2, 0xbd],
    [0x1a, 0xed, 0x8d, 0xa0],
    [0xcc, 0xef, 0x36, 0xa8],
    [0xc7, 0x0d, 0x77, 0x8b],
    [0x7c, 0x59, 0x41, 0xda],
];

pub(crate) const OURS: [u8; 4] = [0xad, 0xe0, 0xb8, 0x76];

pub(crate) const THEIRS: [u8; 4] = [0x0a, 0x0b, 0x0c, 0x0d];

pub(crate) const NONE: [u8; 4] = [0; 4];

// Version 1, least version 1, and the root follows.
pub(crate) const FRONT: [u8; 7] = [0, 1, 1, 1, 2, 0, 32];

// Integrity method 1, hash function 2, addressing method 2, the supported messages, chunk size 1024, and the end.
pub(crate) const REST: [u8; 16] = [3, 1, 4, 2, 6, 2, 8, 2, 0xfe, 0xf8, 9, 0, 0, 4, 0, 255];

// The same with another bitmap of supported messages.
pub(crate) fn rest_with(bitmap: [u8; 2]) -> [u8; 16] {
    let [first, second] = bitmap;
    [3, 1, 4, 2, 6, 2, 8, 2, first, second, 9, 0, 0, 4, 0, 255]
}

pub(crate) const HAVE_ALL: [u8; 9] = [3, 0, 0, 0, 0, 0, 0, 0, 6];

// A choke, and behind it that all chunks are there.
const CHOKED: [u8; 10] = [10, 3, 0, 0, 0, 0, 0, 0, 0, 6];

const CHOKE: [u8; 1] = [10];

const UNCHOKE: [u8; 1] = [11];

pub(crate) const PEX_REQ: [u8; 1] = [6];

const V4: Address = Address::V4([127, 0, 0, 1], 7000);

const V6: Address = Address::V6([0, 0, 0, 0, 0, 0, 0, 0, 0, 0, 0, 0, 0, 0, 0, 1], 7000);

// What tells a peer of the first of these, and of both.
const TOLD_V4: [u8; 7] = [5, 127, 0, 0, 1, 0x1b, 0x58];

const TOLD_BOTH: [u8; 26] = [
    5, 127, 0, 0, 1, 0x1b, 0x58, 12, 0, 0, 0, 0, 0, 0, 0, 0, 0, 0, 0, 0, 0, 0, 0, 1, 0x1b, 0x58,
];

// A handshake of source channel 0 without options but their end.
const CLOSING: [u8; 6] = [0, 0, 0, 0, 0, 255];

// What stands in front of the hash of chunk 0, and in front of chunk 0 where it is sent at moment 6.
const INTEGRITY: [u8; 9] = [4, 0, 0, 0, 0, 0, 0, 0, 0];

const DATA: [u8; 17] = [1, 0, 0, 0, 0, 0, 0, 0, 0, 0, 0, 0, 0, 0, 0, 0, 6];

pub(crate) fn request(first: u8, last: u8) -> [u8; 9] {
    [8, 0, 0, 0, first, 0, 0, 0, last]
}

// A peer opens a channel with these options behind the root, and what is due goes.
pub(crate) fn opens_with(side: &mut Side, from: Address, at: u64, rest: &[u8]) -> bool {
    side.hears(from, at, &[&NONE, &[0], &THEIRS, &FRONT, &ROOT, rest])
}

// The same with all that this peer supports.
pub(crate) fn opens(side: &mut Side, from: Address, at: u64) -> bool {
    opens_with(side, from, at, &REST)
}

// A peer opens a channel, and shows that it got this peer's number. What goes then is passed over.
pub(crate) fn proves(side: &mut Side, from: Address, number: &[u8], at: u64) -> bool {
    let done = opens(side, from, at) && side.hears(from, at, &[number]);
    side.skip();
    done
}

// A message comes from the first peer on the first channel, and what is due goes.
pub(crate) fn told(side: &mut Side, at: u64, message: &[u8]) -> bool {
    side.hears(PEER, at, &[&OURS, message])
}

// Whether the next datagram goes to a peer, with this one message.
pub(crate) fn tells(side: &mut Side, to: Address, message: &[u8]) -> bool {
    side.says(to, &[&THEIRS, message])
}

// Whether an opening is answered by a channel of this number, and what stands behind the handshake.
pub(crate) fn replies(side: &mut Side, to: Address, number: &[u8], behind: &[u8]) -> bool {
    let reply: [&[u8]; 7] = [&THEIRS, &[0], number, &FRONT, &ROOT, &REST, behind];
    side.says(to, &reply)
}

// The same counts after a turn with a datagram, and one note more.
pub(crate) fn noted(before: &Counts, note: Note) -> Counts {
    let mut counts = *before;
    counts.note(Note::Turn);
    counts.note(Note::Datagram);
    counts.note(note);
    counts
}

// Whether a datagram of these parts is counted, once, as this and as nothing else.
pub(crate) fn counts(side: &mut Side, from: Address, at: u64, note: Note, parts: &[&[u8]]) -> bool {
    let before = *side.peer.counts();
    side.takes(from, at, parts) && *side.peer.counts() == noted(&before, note)
}

// The same for a message of the first peer on the first channel, when what is due went: so nothing does.
pub(crate) fn counts_told(side: &mut Side, at: u64, note: Note, message: &[u8]) -> bool {
    let before = *side.peer.counts();
    told(side, at, message) && *side.peer.counts() == noted(&before, note)
}

// Whether so many turns with datagrams, so many sent, and no more is counted.
fn has_counted(side: &Side, turns: u64, sent: u64) -> bool {
    let mut counts = Counts::new();
    counts.turns = turns;
    counts.datagrams = turns;
    counts.sent = sent;
    *side.peer.counts() == counts
}

// Whether a closing is heard, and not answered.
fn is_closed(side: &mut Side) -> bool {
    told(side, 7, &CLOSING) && side.is_silent()
}

// Whether an opening of the first peer is answered by a channel of this number.
pub(crate) fn is_answered(side: &mut Side, at: u64, number: &[u8]) -> bool {
    opens(side, PEER, at) && replies(side, PEER, number, &HAVE_ALL)
}

#[test]
fn a_handshake_is_answered(rt: HostRuntime) -> Result<(), Fail> {
    let mut side = Side::full(rt.alloc())?;
    assert!(rt; is_answered(&mut side, 5, &OURS) && side.is_silent());
    Ok(())
}

#[test]
fn a_channel_that_was_closed_is_opened_again(rt: HostRuntime) -> Result<(), Fail> {
    let mut side = Side::full(rt.alloc())?;
    assert!(rt; is_answered(&mut side, 5, &OURS) && is_closed(&mut side));
    assert!(rt; is_answered(&mut side, 8, &NUMBERS[1]));
    assert!(rt; has_counted(&side, 3, 2));
    Ok(())
}

// A peer opens a channel to one that has `abc`.
fn opens_abc(side: &mut Side) -> bool {
    side.hears(PEER, 5, &[&NONE, &[0], &THEIRS, &FRONT, &ABC, &REST])
}

// Whether that is answered, with the one chunk.
fn replies_abc(side: &mut Side) -> bool {
    let chunk = [3, 0, 0, 0, 0, 0, 0, 0, 0];
    side.says(PEER, &[&THEIRS, &[0], &OURS, &FRONT, &ABC, &REST, &chunk])
}

// Whether the chunk goes, behind the hash of its leaf, which is the root.
fn serves_abc(side: &mut Side) -> bool {
    told(side, 6, &request(0, 0))
        && side.says(PEER, &[&THEIRS, &INTEGRITY, &ABC, &DATA, b"abc"])
        && side.is_silent()
}

#[test]
fn a_chunk_that_is_asked_for_is_served(rt: HostRuntime) -> Result<(), Fail> {
    let mut side = Side::of_abc(rt.alloc(), None)?;
    assert!(rt; opens_abc(&mut side) && replies_abc(&mut side));
    assert!(rt; serves_abc(&mut side));
    assert!(rt; has_counted(&side, 2, 2));
    Ok(())
}

// Two peers show that they got their channels' numbers, and a third opens a channel with these options.
fn three_open(side: &mut Side, rest: &[u8]) -> bool {
    let done = proves(side, V4, &OURS, SECOND)
        && proves(side, V6, &NUMBERS[1], SECOND)
        && opens_with(side, PEER, SECOND, rest);
    side.skip();
    done
}

// The third of them asks for addresses.
fn asked_for_addresses(side: &mut Side, at: u64) -> bool {
    side.hears(PEER, at, &[&NUMBERS[2], &PEX_REQ])
}

// Whether it is told those of the other two, and once.
fn tells_addresses(side: &mut Side, told: &[u8]) -> bool {
    asked_for_addresses(side, 6 * SECOND)
        && tells(side, PEER, told)
        && asked_for_addresses(side, 7 * SECOND)
        && side.is_silent()
}

#[test]
fn addresses_are_told_where_they_are_asked_for(rt: HostRuntime) -> Result<(), Fail> {
    let mut side = Side::full(rt.alloc())?;
    assert!(rt; three_open(&mut side, &REST) && tells_addresses(&mut side, &TOLD_BOTH));
    Ok(())
}

// The third peer's bitmap has no PEX_RESv6.
#[test]
fn an_ipv6_address_is_told_to_those_that_take_it(rt: HostRuntime) -> Result<(), Fail> {
    let mut side = Side::full(rt.alloc())?;
    let rest = rest_with([0xfe, 0xf0]);
    assert!(rt; three_open(&mut side, &rest) && tells_addresses(&mut side, &TOLD_V4));
    Ok(())
}

// The address of one of many peers.
fn host(n: u8) -> Address {
    Address::V4([10, 0, 1, n], 7000)
}

// One of nine peers opens a channel, is answered, and shows that it got this number. The ninth has to wait for a slot.
fn takes_slot(side: &mut Side, n: u8, number: &[u8]) -> bool {
    let from = host(n);
    if !opens(side, from, 5) {
        return false;
    }
    let behind: &[u8] = if n < 8 { &HAVE_ALL } else { &CHOKED };
    replies(side, from, number, behind) && side.hears(from, 6, &[number])
}

fn nine_open(side: &mut Side) -> bool {
    let mut n = 0;
    for number in NUMBERS {
        if !takes_slot(side, n, &number) {
            return false;
        }
        n = n.saturating_add(1);
    }
    true
}

// Whether a request of the ninth is counted as that of a choked peer.
fn counts_choked(side: &mut Side) -> bool {
    let parts: [&[u8]; 2] = [&NUMBERS[8], &request(0, 0)];
    counts(side, host(8), 7, Note::Choked, &parts)
}

// Whether the first peer's slot goes to the ninth after 30 seconds, and not before.
fn slot_goes_on(side: &mut Side) -> bool {
    if !(side.waits(30 * SECOND - 1) && side.is_silent() && side.waits(30 * SECOND)) {
        return false;
    }
    tells(side, host(0), &CHOKE) && tells(side, host(8), &UNCHOKE) && side.is_silent()
}

#[test]
fn the_ninth_channel_waits_for_a_slot(rt: HostRuntime) -> Result<(), Fail> {
    let mut side = Side::full(rt.alloc())?;
    assert!(rt; nine_open(&mut side));
    assert!(rt; counts_choked(&mut side));
    assert!(rt; slot_goes_on(&mut side));
    Ok(())
}

// So many peers open channels. What goes then is passed over.
fn many_open(side: &mut Side, count: u8) -> bool {
    for n in 0..count {
        if !opens(side, host(n), 5) {
            return false;
        }
    }
    side.skip();
    true
}

// Whether one more opening is counted, for the first time, as one without room, and isn't answered.
fn has_no_seat(side: &mut Side) -> bool {
    let before = *side.peer.counts();
    before.no_seat == 0
        && opens(side, PEER, 5)
        && side.is_silent()
        && *side.peer.counts() == noted(&before, Note::NoSeat)
}

#[test]
fn there_are_64_channels(rt: HostRuntime) -> Result<(), Fail> {
    let mut side = Side::empty(rt.alloc(), &swarm()?, None, &[])?;
    assert!(rt; many_open(&mut side, 64));
    assert!(rt; has_no_seat(&mut side));
    Ok(())
}

// A byte of chunk 2 is changed on the disk.
fn damages(side: &mut Side) -> bool {
    side.disk.write_at(2342, &[0]).is_ok()
}

#[test]
fn a_chunk_that_was_changed_is_not_served(rt: HostRuntime) -> Result<(), Fail> {
    let mut side = Side::full(rt.alloc())?;
    assert!(rt; proves(&mut side, PEER, &OURS, 5) && damages(&mut side));
    assert!(rt; counts_told(&mut side, 6, Note::Damaged, &request(2, 2)));
    assert!(rt; side.is_silent());
    Ok(())
}

// Whether a turn without a datagram is counted, and as nothing else.
fn waits_a_turn(side: &mut Side) -> bool {
    let mut wanted = *side.peer.counts();
    wanted.note(Note::Turn);
    side.waits(6) && *side.peer.counts() == wanted
}

// Whether the peer is told that its channel ends, and this is counted as sent.
fn closes(side: &mut Side) -> bool {
    let mut wanted = *side.peer.counts();
    wanted.note(Note::Sent);
    side.close();
    side.says(PEER, &[&THEIRS, &[0], &NONE, &[255]])
        && side.is_silent()
        && *side.peer.counts() == wanted
}

// Whether a peer still keeps the store of its content.
fn is_whole(side: &Side) -> bool {
    side.peer.is_live() && side.peer.descriptor().size() == 7000
}

#[test]
fn a_peer_closes_its_channels(rt: HostRuntime) -> Result<(), Fail> {
    let mut side = Side::full(rt.alloc())?;
    assert!(rt; proves(&mut side, PEER, &OURS, 5));
    assert!(rt; waits_a_turn(&mut side) && closes(&mut side) && is_whole(&side));
    Ok(())
}
