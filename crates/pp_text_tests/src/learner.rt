//! A learner by datagrams. The content `abc` is of one chunk, whose digest is the root; the other root is that of the first two chunks of
//! the content of 7,000 bytes. The digests were worked out with another implementation of SHA-256. With a seed of zeros the first channels
//! have the numbers ade0b876 and 903df1a0, by the first test vector of ChaCha20 (RFC 8439, appendix A.1).

use hex::FromHex;
use pp_learner::Learner;
use pp_outside::{Address, Event, MemoryLink, NullDisk};
use pp_targets::Target;
use pp_tree::{Descriptor, Digest, Method};
use std::alloc::Global;
use std::test::*;

const ABC: &str = "ba7816bf8f01cfea414140de5dae2223b00361a396177a9cb410ff61f20015ad";

const TWO: &str = "554ab6a2299f66936d4ec8b2d0e5f0459d87babedf6b81ee3c101c29fe18f695";

// The names of the swarms with these roots, in chunks of 1,024 bytes.
const NAME_OF_ABC: &str =
    "ppspp1:ba7816bf8f01cfea414140de5dae2223b00361a396177a9cb410ff61f20015ad:1024:auto:2";

const NAME_OF_TWO: &str =
    "ppspp1:554ab6a2299f66936d4ec8b2d0e5f0459d87babedf6b81ee3c101c29fe18f695:1024:auto:2";

const LEAF_0: &str = "c895858914baa700c85213dfbaee7d53cb75abd264fb0741093ff4675d13fad0";

const LEAF_1: &str = "6e8da3ae3630a70d55ec4e892a08afb087f3a74de93784ee5c57859a8b65841e";

const OURS: [u8; 4] = [0xad, 0xe0, 0xb8, 0x76];

const SECOND: [u8; 4] = [0x90, 0x3d, 0xf1, 0xa0];

const THEIRS: [u8; 4] = [0x0a, 0x0b, 0x0c, 0x0d];

const PEER: Address = Address::V4([10, 0, 0, 2], 7000);

// A REQUEST, a HAVE and the beginning of an INTEGRITY of chunk 0; the beginning of a DATA of it, at moment 0.
const REQUEST: [u8; 9] = [8, 0, 0, 0, 0, 0, 0, 0, 0];

const HAVE: [u8; 9] = [3, 0, 0, 0, 0, 0, 0, 0, 0];

const INTEGRITY: [u8; 9] = [4, 0, 0, 0, 0, 0, 0, 0, 0];

const DATA: [u8; 17] = [1, 0, 0, 0, 0, 0, 0, 0, 0, 0, 0, 0, 0, 0, 0, 0, 0];

// Zeros, where it is no digest's text.
fn bytes_of(text: &str) -> [u8; 32] {
    match <[u8; 32]>::from_hex(text) {
        Ok(bytes) => bytes,
        Err(_) => [0; 32],
    }
}

// Puts some bytes at a place, if they have room there.
fn place(bytes: &mut [u8], at: usize, part: &[u8]) {
    if at <= bytes.len() && part.len() <= bytes.len() - at {
        bytes[at..at + part.len()].copy_from_slice(part);
    }
}

// A handshake for a channel and from one, with the swarm's options.
fn handshake(channel: [u8; 4], source: [u8; 4], root: &str) -> [u8; 64] {
    let mut bytes = [0; 64];
    place(&mut bytes, 0, &channel);
    place(&mut bytes, 5, &source);
    place(&mut bytes, 9, &[0, 1, 1, 1, 2, 0, 32]);
    place(&mut bytes, 16, &bytes_of(root));
    place(
        &mut bytes,
        48,
        &[3, 1, 4, 2, 6, 2, 8, 2, 0xfe, 0xf8, 9, 0, 0, 4, 0, 255],
    );
    bytes
}

// The reply, and behind it a HAVE of chunk 0.
fn reply(root: &str) -> [u8; 73] {
    let mut bytes = [0; 73];
    place(&mut bytes, 0, &handshake(OURS, THEIRS, root));
    place(&mut bytes, 64, &HAVE);
    bytes
}

// A claim of the root for chunk 0, and behind it the beginning of the chunk's DATA.
fn claim(root: &str) -> [u8; 62] {
    let mut bytes = [0; 62];
    place(&mut bytes, 0, &OURS);
    place(&mut bytes, 4, &INTEGRITY);
    place(&mut bytes, 13, &bytes_of(root));
    place(&mut bytes, 45, &DATA);
    bytes
}

// The claim and the chunk `abc`.
fn answer_of_abc() -> [u8; 65] {
    let mut bytes = [0; 65];
    place(&mut bytes, 0, &claim(ABC));
    place(&mut bytes, 62, b"abc");
    bytes
}

// The claim, and two digests in the place of the chunk.
fn answer_of_two() -> [u8; 126] {
    let mut bytes = [0; 126];
    place(&mut bytes, 0, &claim(TWO));
    place(&mut bytes, 62, &bytes_of(LEAF_0));
    place(&mut bytes, 94, &bytes_of(LEAF_1));
    bytes
}

// A learner of the swarm with that name, that dials one peer.
fn learner_of(alloc: Global, name: &str) -> Option<Learner> {
    match Target::read(name) {
        Ok(Target::Auto(name)) => Learner::open(alloc, &name, [0; 32], &[PEER]).ok(),
        _ => None,
    }
}

// Whether a check holds of a learner and a new link.
fn holds_with_link(
    alloc: Global,
    learner: &mut Learner,
    check: fn(&mut Learner, &mut MemoryLink) -> bool,
) -> bool
    requires { IsAlwaysCallable check }
{
    match MemoryLink::new(alloc) {
        Ok(mut link) => check(learner, &mut link),
        Err(_) => false,
    }
}

// Whether a check holds of a new learner of the swarm with that name, and a new link.
fn holds(alloc: Global, name: &str, check: fn(&mut Learner, &mut MemoryLink) -> bool) -> bool
    requires { IsAlwaysCallable check }
{
    match learner_of(alloc, name) {
        Some(mut learner) => holds_with_link(alloc, &mut learner, check),
        None => false,
    }
}

// A datagram comes from the peer. Answers the size that is learned.
fn gives(learner: &mut Learner, at: u64, bytes: &[u8]) -> Option<Descriptor> {
    if bytes.len() > 65_536 {
        return None;
    }
    let len = bytes.len();
    let event = Event::Datagram {
        from: PEER,
        len,
        at,
    };
    learner.absorb(&event, bytes)
}

// Sends what is due. Answers how many datagrams were sent so far.
fn flush(learner: &mut Learner, link: &mut MemoryLink) -> usize {
    learner.flush(&NullDisk::new(), link);
    link.sent()
}

// A wait ends in which nothing comes, and what is due is sent. Answers how many datagrams were sent so far.
fn after(learner: &mut Learner, at: u64, link: &mut MemoryLink) -> usize {
    learner.absorb(&Event::Quiet { at }, &[]);
    flush(learner, link)
}

// Whether the datagram that was sent as number `n` has these bytes in front, and these behind them.
fn has_sent(link: &MemoryLink, n: usize, front: &[u8], behind: &[u8]) -> bool {
    if n >= link.sent() {
        return false;
    }
    let bytes = link.sent_bytes(n);
    bytes.get(..front.len()) == Some(front) && bytes.get(front.len()..) == Some(behind)
}

// The peer replies to a handshake, and is asked for the chunk once.
fn is_asked_once(learner: &mut Learner, link: &mut MemoryLink) -> bool {
    flush(learner, link) == 1
        && has_sent(link, 0, &handshake([0; 4], OURS, ABC), &[])
        && gives(learner, 1, &reply(ABC)).is_none()
        && flush(learner, link) == 2
        && has_sent(link, 1, &THEIRS, &REQUEST)
        && flush(learner, link) == 2
}

fn learns_of_abc(learner: &mut Learner) -> bool {
    match Descriptor::new(Digest::new(bytes_of(ABC)), 1024, 3, Method::Range32) {
        Ok(want) => gives(learner, 2, &answer_of_abc()) == Some(want),
        Err(_) => false,
    }
}

fn closes(learner: &mut Learner, link: &mut MemoryLink) -> bool {
    learner.close(&NullDisk::new(), link);
    has_sent(link, 2, &THEIRS, &[0, 0, 0, 0, 0, 255])
}

fn asks_learns_and_closes(learner: &mut Learner, link: &mut MemoryLink) -> bool {
    is_asked_once(learner, link) && learns_of_abc(learner) && closes(learner, link)
}

#[test]
fn the_size_of_abc_is_learned(rt: HostRuntime) {
    assert!(rt; holds(rt.alloc(), NAME_OF_ABC, asks_learns_and_closes));
}

// The two digests are counted as a wrong chunk, and a handshake for channel 0 as refused.
fn refuses_two(learner: &mut Learner, link: &mut MemoryLink) -> bool {
    flush(learner, link) == 1
        && gives(learner, 1, &reply(TWO)).is_none()
        && gives(learner, 2, &answer_of_two()).is_none()
        && learner.counts().wrong == 1
        && gives(learner, 3, &handshake([0; 4], THEIRS, TWO)).is_none()
        && learner.counts().refused_handshakes == 1
}

#[test]
fn two_digests_are_no_last_chunk(rt: HostRuntime) {
    assert!(rt; holds(rt.alloc(), NAME_OF_TWO, refuses_two));
}

// Moments, and how many datagrams were sent by then.
const DIALS: [(u64, usize); 7] = [
    (0, 1),
    (2_999_999, 1),
    (3_000_000, 2),
    (6_000_000, 3),
    (10_000_000, 3),
    (39_999_999, 3),
    (40_000_000, 4),
];

// Whether these counts are right, and the last dial is of the second channel.
fn dials(learner: &mut Learner, link: &mut MemoryLink) -> bool {
    for (at, want) in DIALS {
        if after(learner, at, link) != want {
            return false;
        }
    }
    has_sent(link, 3, &handshake([0; 4], SECOND, ABC), &[])
}

#[test]
fn a_dial_goes_again_and_ends_after_10_seconds(rt: HostRuntime) {
    assert!(rt; holds(rt.alloc(), NAME_OF_ABC, dials));
}

// A CHOKE or an UNCHOKE comes on our channel: whether no size is learned.
fn chokes(learner: &mut Learner, kind: u8) -> bool {
    let [first, second, third, fourth] = OURS;
    gives(learner, 0, &[first, second, third, fourth, kind]).is_none()
}

// The peer chokes at first, so that it is not asked but kept alive. It is asked once it doesn't.
fn asks_when_unchoked(learner: &mut Learner, link: &mut MemoryLink) -> bool {
    after(learner, 0, link) == 1
        && gives(learner, 0, &reply(ABC)).is_none()
        && chokes(learner, 10)
        && after(learner, 0, link) == 2
        && has_sent(link, 1, &THEIRS, &[])
        && chokes(learner, 11)
}

fn asks_again(learner: &mut Learner, link: &mut MemoryLink) -> bool {
    after(learner, 1, link) == 3
        && has_sent(link, 2, &THEIRS, &REQUEST)
        && after(learner, 10_000_000, link) == 4
        && has_sent(link, 3, &THEIRS, &[])
        && after(learner, 10_000_001, link) == 5
        && has_sent(link, 4, &THEIRS, &REQUEST)
}

fn asks_twice(learner: &mut Learner, link: &mut MemoryLink) -> bool {
    asks_when_unchoked(learner, link) && asks_again(learner, link)
}

#[test]
fn a_channel_is_asked_once_in_10_seconds(rt: HostRuntime) {
    assert!(rt; holds(rt.alloc(), NAME_OF_ABC, asks_twice));
}
