//! What is said on a channel, and what its seat keeps of it. The link refuses one datagram in turn. What is wanted of the seat was
//! worked out by hand.
ghost use Rattle.std.specs.Prelude.{◌≡◌, ◌^◌, ◌<◌, [], ◌∷◌, length};
ghost use Rattle.std.specs.List.{AllByRecursion};
ghost use Rattle.pp_terms.specs.format.Descriptor.{chunks_of};
ghost use Rattle.pp_draft.specs.Notes.{IsInside};
ghost use Rattle.pp_desk.specs.Steps.{IsPlain};

use crate::draft::{Abc, ROOT};
use pp_desk::{
    CommittedChunks, Delivered, Outgoing, Service, close, deliver, deliver_chunk, greet,
};
use pp_draft::{ChunkReader, Delivery, Note, Receiver, Unread};
use pp_outside::{Address, Call, Disk, Event, Link, LinkFault, MemoryDisk, MemoryLink, NullDisk};
use pp_ranges::ChunkRange;
use pp_seat::Seat;
use pp_store::Store;
use pp_tree::{Book, Descriptor, Digest, Method, Node};
use std::alloc::{AllocError, Global};
use std::test::*;

mod hearing;

const TO: Receiver = Receiver {
    address: Address::V4([127, 0, 0, 1], 7000),
    channel: 7,
};

// Delivers notes, behind a handshake from a channel where one is named. The tests need little of what this call does.
fn delivers<L: Link>(
    seat: &mut Seat,
    opening: Option<u32>,
    notes: &[Note],
    descriptor: &Descriptor,
    link: &mut L,
) -> Delivered
    requires content { seat.old.told.chunks ≡ chunks_of descriptor.now }
    requires plain { AllByRecursion IsPlain notes.now }
    requires inside { AllByRecursion (IsInside descriptor.now) notes.now }
    requires few { length notes.now < 2 ^ 32 }
    ensures { seat.new.told.chunks ≡ seat.old.told.chunks }
{
    let outgoing = Outgoing {
        to: TO,
        sent_at: 5,
        opening,
        notes,
    };
    deliver(
        seat,
        &outgoing,
        descriptor,
        &mut [0; 16384],
        &NullDisk::new(),
        link,
    )
}

// Delivers one note, and tells whether the link took it.
fn took(
    seat: &mut Seat,
    note: Note,
    descriptor: &Descriptor,
    refuses: bool,
    link: &mut MemoryLink,
) -> bool
    requires content { seat.old.told.chunks ≡ chunks_of descriptor.now }
    requires plain { IsPlain note }
    requires inside { IsInside descriptor.now note }
    ensures { seat.new.told.chunks ≡ seat.old.told.chunks }
{
    if refuses {
        link.fail_next(Call::Send);
    }
    delivers(seat, None, &[note], descriptor, link).sent == 1
}

// Delivers four notes, of which one is refused, and tells whether the seat has a slot, its room and its cursor.
fn after(
    seat: &mut Seat,
    descriptor: &Descriptor,
    range: ChunkRange,
    refused: usize,
    link: &mut MemoryLink,
) -> (bool, u32, u32) {
    if seat.chunks() != descriptor.chunks() || range.last() >= descriptor.chunks() {
        return (false, 0, 0);
    }
    took(seat, Note::Choke, descriptor, refused == 0, link);
    took(seat, Note::Unchoke, descriptor, refused == 1, link);
    took(
        seat,
        Note::Request { range },
        descriptor,
        refused == 2,
        link,
    );
    took(seat, Note::Have { range }, descriptor, refused == 3, link);
    (seat.has_slot(), seat.room(), seat.cursor())
}

#[test]
fn a_refused_datagram_loses_its_own_notes(rt: HostRuntime) -> Result<(), Fail> {
    let (Ok(descriptor), Some(range)) = (
        Descriptor::new(Digest::new([0; 32]), 1024, 7000, Method::Range32),
        ChunkRange::new(1, 3),
    ) else {
        assert!(rt; false);
        return Ok(());
    };
    let want = [
        (false, 29, 4),
        (false, 29, 4),
        (true, 32, 4),
        (true, 29, 0),
        (true, 29, 4),
    ];
    for (refused, want) in want.into_iter().enumerate() {
        let mut link = MemoryLink::new(rt.alloc())?;
        let mut seat = Seat::new(rt.alloc(), 7, 1024)?;
        let got = after(&mut seat, &descriptor, range, refused, &mut link);
        assert_eq!(rt; got, want, "{refused}");
    }
    Ok(())
}

// A link that refuses one datagram, after so many others.
#[derive(Drop)]
struct Refusing {
    link: MemoryLink,
    before: u32,
}

impl Link for Refusing {
    ghost use Rattle.pp_outside.specs.MemoryLink.{state_of};

    ghost seen = { λ refusing. state_of refusing.link };

    fn bind(&mut self, listen: &Address) -> Result<(), LinkFault> {
        self.link.bind(listen)
    }

    fn next(&mut self, limit_us: u64, buffer: &mut [u8]) -> Result<Event, LinkFault> {
        self.link.next(limit_us, buffer)
    }

    fn send<D: Disk>(&mut self, disk: &D, to: &Address, bytes: &[u8]) -> Result<(), LinkFault> {
        if self.before == 0 {
            self.link.fail_next(Call::Send);
        }
        self.before = self.before.wrapping_sub(1);
        self.link.send(disk, to, bytes)
    }
}

// Delivers so many HAVEs of nine bytes each.
#[tactic(auto, using(crate::proofs::Repeating::same_plain, crate::proofs::Repeating::same_inside))]
fn delivers_many(
    alloc: Global,
    count: u32,
    seat: &mut Seat,
    descriptor: &Descriptor,
    link: &mut Refusing,
) -> Result<Option<Delivered>, AllocError> {
    let Some(range) = ChunkRange::new(1, 6) else {
        return Ok(None);
    };
    if seat.chunks() != descriptor.chunks() || range.last() >= descriptor.chunks() {
        return Ok(None);
    }
    let notes = vec![in alloc; Note::Have { range }; count as usize]?;
    Ok(Some(delivers(seat, None, &notes, descriptor, link)))
}

// How many bytes the first of two datagrams has, and whether the second has these.
fn sent_two(link: &MemoryLink, second: &[u8]) -> Option<(usize, bool)> {
    if link.sent() != 2 {
        return None;
    }
    Some((link.sent_bytes(0).len(), link.sent_bytes(1) == second))
}

// 3,643 HAVEs are two full datagrams of 1,820, of which the second is refused, and one of three.
#[test]
fn a_refused_datagram_in_the_middle(rt: HostRuntime) -> Result<(), Fail> {
    let Ok(descriptor) = Descriptor::new(Digest::new(ROOT), 1024, 7000, Method::Range32) else {
        assert!(rt; false);
        return Ok(());
    };
    let mut link = Refusing {
        link: MemoryLink::new(rt.alloc())?,
        before: 1,
    };
    let mut seat = Seat::new(rt.alloc(), 7, 1024)?;
    let want = Delivered {
        sent: 2,
        refused: 1,
        set_back: true,
    };
    let delivered = delivers_many(rt.alloc(), 3643, &mut seat, &descriptor, &mut link)?;
    assert_eq!(rt; (delivered, seat.cursor()), (Some(want), 1));
    let want = [
        0, 0, 0, 7, 3, 0, 0, 0, 1, 0, 0, 0, 6, 3, 0, 0, 0, 1, 0, 0, 0, 6, 3, 0, 0, 0, 1, 0, 0, 0, 6,
    ];
    assert_eq!(rt; sent_two(&link.link, &want), Some((16384, true)));
    Ok(())
}

// A seat with a slot, of one chunk, which is asked for.
fn asked(alloc: Global) -> Result<Seat, AllocError> {
    let mut seat = Seat::new(alloc, 1, 1024)?;
    seat.begin(1024, true);
    if let Some(range) = ChunkRange::new(0, 0) {
        seat.heard_request(range);
    }
    Ok(seat)
}

// Sends the one chunk of `abc` behind the hash of its leaf, which is the root, if the seat has it next.
fn delivers_abc(
    alloc: Global,
    seat: &mut Seat,
    fault: Option<Unread>,
    link: &mut MemoryLink,
) -> Result<Option<Result<bool, Unread>>, AllocError> {
    let (Ok(descriptor), Some(chunk)) = (
        Descriptor::new(Digest::new(ROOT), 1024, 3, Method::Range32),
        seat.next(),
    ) else {
        return Ok(None);
    };
    let mut book = Book::empty(alloc);
    book.prepare(alloc, &descriptor)?;
    if chunk != 0 || book.get(Node::leaf(0)).is_none() {
        return Ok(None);
    }
    let service = Service {
        delivery: Delivery {
            to: TO,
            chunk,
            sent_at: 258,
            nodes: &[Node::leaf(0)],
            book: &book,
        },
        reader: &Abc { fault },
    };
    let delivered = deliver_chunk(
        seat,
        &service,
        &descriptor,
        &mut [0; 16384],
        &mut NullDisk::new(),
        link,
    );
    Ok(Some(delivered))
}

// The same twice.
fn delivers_twice(
    alloc: Global,
    seat: &mut Seat,
    link: &mut MemoryLink,
) -> Result<[Option<Result<bool, Unread>>; 2], AllocError> {
    let first = delivers_abc(alloc, seat, None, link)?;
    Ok([first, delivers_abc(alloc, seat, None, link)?])
}

// Whether one datagram was sent, of these parts.
fn has_sent(link: &MemoryLink, parts: &[&[u8]]) -> bool {
    if link.sent() != 1 {
        return false;
    }
    let mut rest = link.sent_bytes(0);
    for part in parts {
        match rest.strip_prefix(part) {
            Some(behind) => rest = behind,
            None => return false,
        }
    }
    rest.is_empty()
}

#[test]
fn a_chunk_goes_once_behind_its_hash(rt: HostRuntime) -> Result<(), AllocError> {
    let mut link = MemoryLink::new(rt.alloc())?;
    let mut seat = asked(rt.alloc())?;
    let delivered = delivers_twice(rt.alloc(), &mut seat, &mut link)?;
    assert_eq!(rt; delivered, [Some(Ok(true)), None]);
    let hash = [0, 0, 0, 7, 4, 0, 0, 0, 0, 0, 0, 0, 0];
    let data = [
        1, 0, 0, 0, 0, 0, 0, 0, 0, 0, 0, 0, 0, 0, 0, 1, 2, b'a', b'b', b'c',
    ];
    assert!(rt; has_sent(&link, &[&hash, &ROOT, &data]));
    Ok(())
}

// What becomes of a chunk that has this fault, or else is refused, and which chunk is next.
fn gives_up(
    alloc: Global,
    fault: Option<Unread>,
) -> Result<(Option<Result<bool, Unread>>, Option<u32>), AllocError> {
    let mut link = MemoryLink::new(alloc)?;
    link.fail_next(Call::Send);
    let mut seat = asked(alloc)?;
    let delivered = delivers_abc(alloc, &mut seat, fault, &mut link)?;
    Ok((delivered, seat.next()))
}

// One that can't be read, or that the link refuses, is given up.
#[test]
fn a_chunk_that_does_not_go_is_let_go(rt: HostRuntime) -> Result<(), AllocError> {
    for (fault, want) in [
        (Some(Unread::Damaged), Err(Unread::Damaged)),
        (None, Ok(false)),
    ] {
        assert_eq!(rt; gives_up(rt.alloc(), fault)?, (Some(want), None));
    }
    Ok(())
}

// Greets channel 0, or closes channel 7. The tests need little of what these calls do.
fn greets(descriptor: &Descriptor, source: u32, channel: u32, link: &mut MemoryLink) -> bool {
    let to = Receiver { channel, ..TO };
    let disk = NullDisk::new();
    if source == 0 {
        return close(descriptor, &to, &mut [0; 16384], &disk, link);
    }
    greet(source, descriptor, &to, &mut [0; 16384], &disk, link)
}

// A greeting has the swarm's options, and a close is a handshake from channel 0.
#[test]
fn greets_and_closes(rt: HostRuntime) -> Result<(), AllocError> {
    let Ok(descriptor) = Descriptor::new(Digest::new(ROOT), 1024, 3, Method::Range32) else {
        assert!(rt; false);
        return Ok(());
    };
    let front = [
        0, 0, 0, 0, 0, 0x0a, 0x0b, 0x0c, 0x0d, 0, 1, 1, 1, 2, 0, 0x20,
    ];
    let options = [3, 1, 4, 2, 6, 2, 8, 2, 0xfe, 0xf8, 9, 0, 0, 4, 0, 0xff];
    let mut link = MemoryLink::new(rt.alloc())?;
    let greeted = greets(&descriptor, 0x0a0b0c0d, 0, &mut link);
    let sent = has_sent(&link, &[&front, &ROOT, &options]);
    assert_eq!(rt; (greeted, sent), (true, true));
    let want = [0, 0, 0, 7, 0, 0, 0, 0, 0, 0xff];
    let mut link = MemoryLink::new(rt.alloc())?;
    let closed = greets(&descriptor, 0, 7, &mut link);
    assert_eq!(rt; (closed, has_sent(&link, &[&want])), (true, true));
    Ok(())
}

// A reply from channel 0x0a0b0c0d with a HAVE behind it.
fn reply(
    seat: &mut Seat,
    range: ChunkRange,
    descriptor: &Descriptor,
    link: &mut MemoryLink,
) -> Option<Delivered> {
    if seat.chunks() != descriptor.chunks() || range.last() >= descriptor.chunks() {
        return None;
    }
    let opening = Some(0x0a0b0c0d);
    let notes = [Note::Have { range }];
    Some(delivers(seat, opening, &notes, descriptor, link))
}

// Two replies, of which the first is refused: what became of each, how many datagrams were sent by then, and the cursor.
fn replies(
    seat: &mut Seat,
    range: ChunkRange,
    descriptor: &Descriptor,
    link: &mut MemoryLink,
) -> [(Option<Delivered>, usize, u32); 2] {
    link.fail_next(Call::Send);
    let refused = reply(seat, range, descriptor, link);
    let first = (refused, link.sent(), seat.cursor());
    let taken = reply(seat, range, descriptor, link);
    [first, (taken, link.sent(), seat.cursor())]
}

// The first nine bytes of the first datagram and those behind its 64th, if it has 73.
fn ends_of(link: &MemoryLink) -> Option<([u8; 9], [u8; 9])> {
    if link.sent() == 0 {
        return None;
    }
    let bytes = link.sent_bytes(0);
    if bytes.len() != 73 {
        return None;
    }
    let mut ends = ([0; 9], [0; 9]);
    ends.0.copy_from_slice(&bytes[..9]);
    ends.1.copy_from_slice(&bytes[64..]);
    Some(ends)
}

#[test]
fn a_reply_takes_notes_along(rt: HostRuntime) -> Result<(), Fail> {
    let (Ok(descriptor), Some(range)) = (
        Descriptor::new(Digest::new(ROOT), 1024, 7000, Method::Range32),
        ChunkRange::new(0, 6),
    ) else {
        assert!(rt; false);
        return Ok(());
    };
    let mut link = MemoryLink::new(rt.alloc())?;
    let mut seat = Seat::new(rt.alloc(), 7, 1024)?;
    let seen = replies(&mut seat, range, &descriptor, &mut link);
    let refused = Delivered {
        sent: 0,
        refused: 1,
        set_back: true,
    };
    let sent = Delivered {
        sent: 1,
        refused: 0,
        set_back: false,
    };
    assert_eq!(rt; seen, [(Some(refused), 0, 0), (Some(sent), 1, 7)]);
    let front = [0, 0, 0, 7, 0, 0x0a, 0x0b, 0x0c, 0x0d];
    assert_eq!(rt; ends_of(&link), Some((front, [3, 0, 0, 0, 0, 0, 0, 0, 6])));
    Ok(())
}

// The store of `abc`: its header, the chunk, zeros and an open gate.
pub(crate) fn store_of_abc() -> [u8; 1153] {
    let mut image = [0u8; 1153];
    image[..8].copy_from_slice(b"PPSTORE2");
    image[10] = 4;
    image[19] = 3;
    image[20..52].copy_from_slice(&ROOT);
    image[64..67].copy_from_slice(b"abc");
    image[1152] = 0x4f;
    image
}

// The chunk of such a store, read as a datagram has it read.
fn read_from(alloc: Global, image: &[u8]) -> Result<Option<Result<[u8; 3], Unread>>, Fail> {
    let Ok(descriptor) = Descriptor::new(Digest::new(ROOT), 1024, 3, Method::Range32) else {
        return Ok(None);
    };
    if descriptor.chunks() != 1 {
        return Ok(None);
    }
    if descriptor.chunk_len(0) != 3 {
        return Ok(None);
    }
    let mut disk = MemoryDisk::new(alloc, image)?;
    let mut book = Book::empty(alloc);
    book.prepare(alloc, &descriptor)?;
    let Ok(store) = Store::open(alloc, &descriptor, &mut disk, &mut book) else {
        return Ok(None);
    };
    let chunks = CommittedChunks {
        store: &store,
        book: &book,
    };
    let mut into = [0; 3];
    match chunks.read(0, &mut into, &mut disk) {
        Ok(()) => Ok(Some(Ok(into))),
        Err(unread) => Ok(Some(Err(unread))),
    }
}

#[test]
fn reads_a_chunk_that_did_not_change(rt: HostRuntime) -> Result<(), Fail> {
    let mut image = store_of_abc();
    assert_eq!(rt; read_from(rt.alloc(), &image)?, Some(Ok(*b"abc")));
    image[66] = b'd';
    assert_eq!(rt; read_from(rt.alloc(), &image)?, Some(Err(Unread::Damaged)));
    Ok(())
}
