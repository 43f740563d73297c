//! Seats by datagrams. The swarm is that of the content `abc`, of one chunk; with a seed of zeros the first channels have the numbers
//! ade0b876 and 903df1a0, by the first test vector of ChaCha20 (RFC 8439, appendix A.1).
ghost use Rattle.std.specs.Prelude.{◌≡◌};
ghost use Rattle.pp_desk.specs.Steps.{IsPlain};
ghost use Rattle.pp_draft.specs.Notes.{IsInside};

use crate::desk::store_of_abc;
use crate::draft::ROOT;
use pp_desk::CommittedChunks;
use pp_draft::Note as Sent;
use pp_lives::Arrival;
use pp_outside::{Address, Call, MemoryDisk, MemoryLink, NullDisk};
use pp_seats::{Seats, Served};
use pp_store::Store;
use pp_tree::{Book, Descriptor, Digest, Method};
use pp_wire::{Message, Span};
use std::alloc::Global;
use std::test::*;

const SECOND: u64 = 1_000_000;

const OURS: u32 = 0xade0_b876;

const THEIRS: u32 = 0x0a0b_0c0d;

const PEER: Address = Address::V4([10, 0, 0, 2], 7000);

fn swarm() -> Result<Descriptor, Fail> {
    Ok(Descriptor::new(Digest::new(ROOT), 1024, 3, Method::Range32)?)
}

// A handshake for a channel and from one, with the swarm's options.
fn handshake(channel: u32, source: u32) -> [u8; 64] {
    let mut bytes = [0; 64];
    bytes[..4].copy_from_slice(&channel.to_be_bytes());
    bytes[5..9].copy_from_slice(&source.to_be_bytes());
    bytes[9..16].copy_from_slice(&[0, 1, 1, 1, 2, 0, 32]);
    bytes[16..48].copy_from_slice(&ROOT);
    bytes[48..].copy_from_slice(&[3, 1, 4, 2, 6, 2, 8, 2, 0xfe, 0xf8, 9, 0, 0, 4, 0, 255]);
    bytes
}

// Seats to which a peer opened a channel, with a slot.
fn opened(alloc: Global) -> Result<Seats, Fail> {
    let mut seats = Seats::new(alloc, &swarm()?, [0; 32])?;
    seats.arrive(&PEER, &handshake(0, THEIRS), 5, true);
    seats.taken();
    Ok(seats)
}

// Says one thing on the first channel: how many datagrams were sent, and how many refused.
fn says(seats: &mut Seats, note: Sent, link: &mut MemoryLink) -> Option<(u32, u32)>
    requires plain { IsPlain note }
    requires inside { IsInside seats.old.descriptor note }
    ensures { seats.new.descriptor ≡ seats.old.descriptor }
{
    let delivered = seats.speak(0, &[note], &NullDisk::new(), link)?;
    Some((delivered.sent, delivered.refused))
}

#[test]
fn a_channel_is_opened(rt: HostRuntime) -> Result<(), Fail> {
    let mut seats = Seats::new(rt.alloc(), &swarm()?, [0; 32])?;
    let mut link = MemoryLink::new(rt.alloc())?;
    assert_eq!(rt;
        seats.arrive(&PEER, &handshake(0, THEIRS), 5, true),
        Arrival::Opened { seat: 0, next: 64 }
    );
    seats.taken();
    assert!(rt; !seats.greet(1, &NullDisk::new(), &mut link));
    assert_eq!(rt;
        seats.speak(1, &[Sent::Choke], &NullDisk::new(), &mut link),
        None
    );
    assert_eq!(rt; link.sent(), 0);
    Ok(())
}

// Whether the datagram that was sent as number `n` has these bytes in front, and these behind them.
fn has_sent(link: &MemoryLink, n: usize, front: &[u8], behind: &[u8]) -> bool {
    if n >= link.sent() {
        return false;
    }
    let bytes = link.sent_bytes(n);
    bytes.get(..front.len()) == Some(front) && bytes.get(front.len()..) == Some(behind)
}

#[test]
fn nothing_goes_behind_a_refused_reply(rt: HostRuntime) -> Result<(), Fail> {
    let mut seats = opened(rt.alloc())?;
    let mut link = MemoryLink::new(rt.alloc())?;
    link.fail_next(Call::Send);
    assert_eq!(rt; says(&mut seats, Sent::Choke, &mut link), Some((0, 1)));
    assert_eq!(rt; link.sent(), 0);
    assert_eq!(rt; says(&mut seats, Sent::Choke, &mut link), Some((1, 0)));
    assert!(rt; has_sent(&link, 0, &handshake(THEIRS, OURS), &[10]));
    assert_eq!(rt; says(&mut seats, Sent::Unchoke, &mut link), Some((1, 0)));
    assert!(rt; has_sent(&link, 1, &THEIRS.to_be_bytes(), &[11]));
    Ok(())
}

#[test]
fn a_dial_is_there_once_its_handshake_was_sent(rt: HostRuntime) -> Result<(), Fail> {
    let mut seats = Seats::new(rt.alloc(), &swarm()?, [0; 32])?;
    let mut link = MemoryLink::new(rt.alloc())?;
    link.fail_next(Call::Send);
    assert_eq!(rt; seats.dial(&PEER, &NullDisk::new(), &mut link), Some(false));
    assert_eq!(rt; seats.dial(&PEER, &NullDisk::new(), &mut link), Some(true));
    assert_eq!(rt; seats.dial(&PEER, &NullDisk::new(), &mut link), None);
    // The second number was drawn for it.
    assert_eq!(rt; link.sent(), 1);
    assert_eq!(rt; link.sent_bytes(0)[..], handshake(0, 0x903d_f1a0)[..]);
    assert_eq!(rt;
        seats.arrive(&PEER, &handshake(0x903d_f1a0, THEIRS), 7, true),
        Arrival::Replied { seat: 0 }
    );
    seats.taken();
    assert!(rt; seats.part(0, &NullDisk::new(), &mut link));
    assert_eq!(rt; link.sent(), 2);
    assert_eq!(rt;
        link.sent_bytes(1)[..],
        [0x0a, 0x0b, 0x0c, 0x0d, 0, 0, 0, 0, 0, 255][..]
    );
    Ok(())
}

#[test]
fn an_unproven_channel_ends_after_10_seconds(rt: HostRuntime) -> Result<(), Fail> {
    let mut seats = opened(rt.alloc())?;
    let mut link = MemoryLink::new(rt.alloc())?;
    assert!(rt; !seats.part(0, &NullDisk::new(), &mut link));
    seats.quiet(10 * SECOND + 4);
    seats.taken();
    assert_eq!(rt; seats.expire(), None);
    seats.quiet(10 * SECOND + 5);
    seats.taken();
    assert_eq!(rt; (seats.expire(), seats.expire()), (Some(0), None));
    Ok(())
}

// A peer writes to the channel and asks for the chunk.
fn asks(seats: &mut Seats, link: &mut MemoryLink)
    ensures { seats.new.descriptor ≡ seats.old.descriptor }
{
    seats.greet(0, &NullDisk::new(), link);
    seats.arrive(&PEER, &OURS.to_be_bytes(), 6, true);
    let request = Message::Request {
        span: Span { first: 0, last: 0 },
    };
    seats.hear(0, &request);
    seats.taken();
}

// Serves the first seat from the store of `abc`: what became of the chunk, and whether one is still to be sent.
fn serves(alloc: Global, link: &mut MemoryLink) -> Result<Option<(Served, bool)>, Fail> {
    let descriptor = swarm()?;
    let mut seats = Seats::new(alloc, &descriptor, [0; 32])?;
    seats.arrive(&PEER, &handshake(0, THEIRS), 5, true);
    seats.taken();
    asks(&mut seats, link);
    let mut disk = MemoryDisk::new(alloc, &store_of_abc())?;
    let mut book = Book::empty(alloc);
    book.prepare(alloc, &descriptor)?;
    let Ok(store) = Store::open(alloc, &descriptor, &mut disk, &mut book) else {
        return Ok(None);
    };
    let chunks = CommittedChunks {
        store: &store,
        book: &book,
    };
    let served = seats.serve(0, &chunks, &mut disk, link);
    Ok(Some((served, seats.seat(0).next().is_some())))
}

#[test]
fn a_chunk_that_is_asked_for_is_sent_once(rt: HostRuntime) -> Result<(), Fail> {
    let mut link = MemoryLink::new(rt.alloc())?;
    let served = serves(rt.alloc(), &mut link)?;
    assert_eq!(rt; served, Some((Served::Sent, false)));
    assert_eq!(rt; link.sent(), 2);
    // The hash of the one leaf, which is the root, and the chunk behind it, at moment 6.
    let bytes = link.sent_bytes(1);
    assert_eq!(rt; bytes.len(), 65);
    assert_eq!(rt;
        bytes[..13],
        [0x0a, 0x0b, 0x0c, 0x0d, 4, 0, 0, 0, 0, 0, 0, 0, 0][..]
    );
    assert_eq!(rt; bytes[13..45], ROOT[..]);
    assert_eq!(rt;
        bytes[45..],
        [
            1, 0, 0, 0, 0, 0, 0, 0, 0, 0, 0, 0, 0, 0, 0, 0, 6, b'a', b'b', b'c'
        ][..]
    );
    Ok(())
}
