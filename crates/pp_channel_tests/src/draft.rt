//! Datagrams of one channel, by their bytes.
ghost use Rattle.std.specs.Prelude.{◌≡◌, ◌<◌, length};
ghost use Rattle.std.specs.List.{AllByRecursion};
ghost use Rattle.pp_draft.specs.Notes.{IsInside};

use pp_draft::{ChunkReader, Delivery, Note, Posted, Receiver, Unread, post, post_chunk};
use pp_outside::{Address, Call, Disk, MemoryLink, NullDisk};
use pp_ranges::ChunkRange;
use pp_tree::{Book, Descriptor, Digest, Method, Node};
use std::alloc::{AllocError, Global};
use std::test::*;

// SHA-256 of `abc`.
pub(crate) const ROOT: [u8; 32] = [
    0xba, 0x78, 0x16, 0xbf, 0x8f, 0x01, 0xcf, 0xea, 0x41, 0x41, 0x40, 0xde, 0x5d, 0xae, 0x22, 0x23,
    0xb0, 0x03, 0x61, 0xa3, 0x96, 0x17, 0x7a, 0x9c, 0xb4, 0x10, 0xff, 0x61, 0xf2, 0x00, 0x15, 0xad,
];

// To channel 0: a handshake of channel 0a0b0c0d with the options of the swarm of `abc` in chunks of 1,024 bytes.
const GREETING: [u8; 64] = [
    0, 0, 0, 0, 0, 0x0a, 0x0b, 0x0c, 0x0d, 0, 1, 1, 1, 2, 0, 0x20, 0xba, 0x78, 0x16, 0xbf, 0x8f,
    0x01, 0xcf, 0xea, 0x41, 0x41, 0x40, 0xde, 0x5d, 0xae, 0x22, 0x23, 0xb0, 0x03, 0x61, 0xa3, 0x96,
    0x17, 0x7a, 0x9c, 0xb4, 0x10, 0xff, 0x61, 0xf2, 0x00, 0x15, 0xad, 3, 1, 4, 2, 6, 2, 8, 2, 0xfe,
    0xf8, 9, 0, 0, 4, 0, 0xff,
];

const ADDRESS: Address = Address::V4([127, 0, 0, 1], 7000);

// Posts the notes to a channel, and tells whether one datagram of all of them with these bytes was sent.
fn posts(
    alloc: Global,
    notes: &[Note],
    descriptor: &Descriptor,
    channel: u32,
    want: &[u8],
) -> Result<bool, AllocError>
    requires some { 0 < length notes.now }
    requires inside { AllByRecursion (IsInside descriptor.now) notes.now }
{
    let mut link = MemoryLink::new(alloc)?;
    let to = Receiver {
        address: ADDRESS,
        channel,
    };
    let posted = post(
        notes,
        descriptor,
        &to,
        &mut [0; 16384],
        &NullDisk::new(),
        &mut link,
    );
    Ok(
        posted
            == Posted {
                count: notes.len(),
                sent: true,
            }
            && link.sent() == 1
            && link.sent_bytes(0) == want,
    )
}

// The swarm of seven chunks of 1,024 bytes.
fn seven(method: Method) -> Option<Descriptor> {
    Descriptor::new(Digest::new(ROOT), 1024, 7000, method).ok()
}

#[test]
fn posts_a_handshake(rt: HostRuntime) -> Result<(), AllocError> {
    let Ok(descriptor) = Descriptor::new(Digest::new(ROOT), 1024, 3, Method::Range32) else {
        assert!(rt; false);
        return Ok(());
    };
    let notes = [Note::Handshake { source: 0x0a0b0c0d }];
    assert!(rt; posts(rt.alloc(), &notes, &descriptor, 0, &GREETING)?);
    Ok(())
}

#[test]
fn posts_what_names_no_chunk(rt: HostRuntime) -> Result<(), AllocError> {
    let Some(descriptor) = seven(Method::Bin32) else {
        assert!(rt; false);
        return Ok(());
    };
    assert!(rt;
        posts(
            rt.alloc(),
            &[Note::KeepAlive],
            &descriptor,
            0x01020304,
            &[1, 2, 3, 4]
        )?
    );
    assert!(rt;
        posts(
            rt.alloc(),
            &[Note::Close],
            &descriptor,
            7,
            &[0, 0, 0, 7, 0, 0, 0, 0, 0, 0xff]
        )?
    );
    let notes = [
        Note::Choke,
        Note::Unchoke,
        Note::PexReq,
        Note::Pex4 {
            address: [10, 0, 0, 1],
            port: 0x1b58,
        },
    ];
    let want = [0, 0, 0, 7, 10, 11, 6, 5, 10, 0, 0, 1, 0x1b, 0x58];
    assert!(rt; posts(rt.alloc(), &notes, &descriptor, 7, &want)?);
    Ok(())
}

// Chunks 1 to 6 are covered by the bins 2, 5, 9 and 12.
#[test]
fn posts_a_range_by_each_method(rt: HostRuntime) -> Result<(), AllocError> {
    let bins32: &[u8] = &[
        0, 0, 0, 7, 3, 0, 0, 0, 2, 3, 0, 0, 0, 5, 3, 0, 0, 0, 9, 3, 0, 0, 0, 12,
    ];
    let range32: &[u8] = &[0, 0, 0, 7, 3, 0, 0, 0, 1, 0, 0, 0, 6];
    let bins64: &[u8] = &[
        0, 0, 0, 7, 3, 0, 0, 0, 0, 0, 0, 0, 2, 3, 0, 0, 0, 0, 0, 0, 0, 5, 3, 0, 0, 0, 0, 0, 0, 0,
        9, 3, 0, 0, 0, 0, 0, 0, 0, 12,
    ];
    let range64: &[u8] = &[
        0, 0, 0, 7, 3, 0, 0, 0, 0, 0, 0, 0, 1, 0, 0, 0, 0, 0, 0, 0, 6,
    ];
    for (method, want) in [
        (Method::Bin32, bins32),
        (Method::Range32, range32),
        (Method::Bin64, bins64),
        (Method::Range64, range64),
    ] {
        let (Some(descriptor), Some(range)) = (seven(method), ChunkRange::new(1, 6)) else {
            assert!(rt; false);
            return Ok(());
        };
        if range.last() < descriptor.chunks() {
            assert!(rt; posts(rt.alloc(), &[Note::Have { range }], &descriptor, 7, want)?);
        } else {
            assert!(rt; false);
        }
    }
    Ok(())
}

// Four bytes of the channel's number and 1,820 HAVEs of nine bytes are 16,384 bytes.
#[test]
#[tactic(auto, using(crate::proofs::Repeating::same_inside))]
fn fills_a_datagram(rt: HostRuntime) -> Result<(), AllocError> {
    let (Some(descriptor), Some(range)) = (seven(Method::Range32), ChunkRange::new(1, 6)) else {
        assert!(rt; false);
        return Ok(());
    };
    if descriptor.chunks() <= range.last() {
        assert!(rt; false);
        return Ok(());
    }
    let to = Receiver {
        address: ADDRESS,
        channel: 7,
    };
    let mut link = MemoryLink::new(rt.alloc())?;
    link.fail_next(Call::Send);
    for sent in [false, true] {
        let posted = post(
            &[Note::Have { range }; 2000],
            &descriptor,
            &to,
            &mut [0; 16384],
            &NullDisk::new(),
            &mut link,
        );
        assert_eq!(rt; posted, Posted { count: 1820, sent });
    }
    assert_eq!(rt; link.sent(), 1);
    assert_eq!(rt; link.sent_bytes(0).len(), 16384);
    Ok(())
}

// A reader of chunks of three bytes, which are `abc`, or that has another fault.
#[derive(Drop)]
pub(crate) struct Abc {
    pub(crate) fault: Option<Unread>,
}

impl<D: Disk> ChunkReader<D> for Abc {
    ghost can_read = { λ reader i n. n ≡ 3 };

    ghost reads = { λ reader i answer bytes old new. Unit {0} };

    fn read(&self, _chunk: u32, into: &mut [u8], _disk: &mut D) -> Result<(), Unread> {
        into.copy_from_slice(b"abc");
        match self.fault {
            Some(why) => Err(why),
            None => Ok(()),
        }
    }
}

// Sends the one chunk of `abc` behind the hash of its leaf, which is the root.
fn posts_abc(
    alloc: Global,
    fault: Option<Unread>,
    link: &mut MemoryLink,
) -> Result<Option<Result<bool, Unread>>, AllocError> {
    let Ok(descriptor) = Descriptor::new(Digest::new(ROOT), 1024, 3, Method::Range32) else {
        return Ok(None);
    };
    let mut book = Book::empty(alloc);
    book.prepare(alloc, &descriptor)?;
    if book.get(Node::leaf(0)).is_none() {
        return Ok(None);
    }
    let delivery = Delivery {
        to: Receiver {
            address: ADDRESS,
            channel: 7,
        },
        chunk: 0,
        sent_at: 258,
        nodes: &[Node::leaf(0)],
        book: &book,
    };
    let posted = post_chunk(
        &delivery,
        &Abc { fault },
        &descriptor,
        &mut [0; 16384],
        &mut NullDisk::new(),
        link,
    );
    Ok(Some(posted))
}

#[test]
fn posts_a_chunk_that_is_read(rt: HostRuntime) -> Result<(), AllocError> {
    let mut link = MemoryLink::new(rt.alloc())?;
    for fault in [Unread::Absent, Unread::Disk, Unread::Damaged] {
        let posted = posts_abc(rt.alloc(), Some(fault), &mut link)?;
        assert_eq!(rt; posted, Some(Err(fault)));
    }
    assert_eq!(rt; link.sent(), 0);
    assert_eq!(rt; posts_abc(rt.alloc(), None, &mut link)?, Some(Ok(true)));
    let hash = [0, 0, 0, 7, 4, 0, 0, 0, 0, 0, 0, 0, 0];
    let data = [
        1, 0, 0, 0, 0, 0, 0, 0, 0, 0, 0, 0, 0, 0, 0, 1, 2, b'a', b'b', b'c',
    ];
    assert_eq!(rt; link.sent(), 1);
    let bytes = link.sent_bytes(0);
    assert_eq!(rt; bytes.len(), 65);
    assert_eq!(rt; bytes[..13], hash[..]);
    assert_eq!(rt; bytes[13..45], ROOT[..]);
    assert_eq!(rt; bytes[45..], data[..]);
    Ok(())
}
