ghost use Rattle.std.specs.Prelude.{◌≡◌, ◌<◌, IfOk, vec_len};
ghost use Rattle.pp_terms.specs.format.Descriptor as descriptors;
ghost use Rattle.pp_terms.specs.tree.Book.{IsRooted};
ghost use Rattle.pp_tree.specs.Book.{entry};

use pp_audit::*;
use pp_outside::Address;
use pp_tree::{Book, Descriptor, Digest, Method, Node, leaf, parent, root_of};
use std::alloc::{AllocError, Global};
use std::test::Fail;

pub(super) const PEER: Address = Address::V4([10, 0, 0, 2], 7000);

const OTHER: Address = Address::V4([10, 0, 0, 3], 7000);

// This peer's number for the channel, and the other one's.
pub(super) const LOCAL: u32 = 0x0102_0304;

pub(super) const REMOTE: u32 = 0x0a0b_0c0d;

/// The 7,000 bytes of the generator with 5.
pub(super) fn content(alloc: Global) -> Result<Vec<u8>, AllocError>
    ensures { IfOk result (λ v. vec_len v ≡ 7000) }
{
    let mut bytes = vec![in alloc; 0u8; 7000]?;
    for (j, byte) in bytes.iter_mut().enumerate() {
        let low = (j % 256) as u8;
        let high = (j / 256 % 256) as u8;
        *byte = low.wrapping_mul(7).wrapping_add(high).wrapping_add(5);
    }
    Ok(bytes)
}

/// A handshake of 64 bytes, for a channel and from one.
pub(super) fn handshake(channel: u32, source: u32, root: &Digest) -> [u8; 64] {
    let mut bytes = [
        0, 0, 0, 0, 0, 0, 0, 0, 0, 0, 1, 1, 1, 2, 0, 0x20, 0, 0, 0, 0, 0, 0, 0, 0, 0, 0, 0, 0, 0,
        0, 0, 0, 0, 0, 0, 0, 0, 0, 0, 0, 0, 0, 0, 0, 0, 0, 0, 0, 3, 1, 4, 2, 6, 2, 8, 2, 0xfe,
        0xf8, 9, 0, 0, 4, 0, 0xff,
    ];
    bytes[..4].copy_from_slice(&channel.to_be_bytes());
    bytes[5..9].copy_from_slice(&source.to_be_bytes());
    bytes[16..48].copy_from_slice(root.bytes());
    bytes
}

/// A message that names chunks alone: 3 for HAVE, 8 for REQUEST, 9 for CANCEL.
fn spanned(channel: u32, kind: u8, first: u32, last: u32) -> [u8; 13] {
    let mut bytes = [0; 13];
    bytes[..4].copy_from_slice(&channel.to_be_bytes());
    bytes[4] = kind;
    bytes[5..9].copy_from_slice(&first.to_be_bytes());
    bytes[9..].copy_from_slice(&last.to_be_bytes());
    bytes
}

/// An ACK of one chunk, and a REQUEST of another.
pub(super) fn acknowledges(channel: u32, came: u32, wanted: u32) -> [u8; 30] {
    let mut bytes = [0; 30];
    bytes[..13].copy_from_slice(&spanned(channel, 2, came, came));
    bytes[21..].copy_from_slice(&spanned(0, 8, wanted, wanted)[4..]);
    bytes
}

/// CHOKE.
fn choke(channel: u32) -> [u8; 5] {
    let mut bytes = [10; 5];
    bytes[..4].copy_from_slice(&channel.to_be_bytes());
    bytes
}

/// A DATA of two bytes behind INTEGRITY messages of these spans.
pub(super) fn delivery(
    alloc: Global,
    channel: u32,
    spans: &[(u32, u32)],
    chunk: u32,
) -> Result<Vec<u8>, AllocError> {
    let mut bytes = Vec::from_slice(alloc, &channel.to_be_bytes())?;
    for (first, last) in spans {
        bytes.extend_from_slice(&spanned(0, 4, *first, *last)[4..])?;
        bytes.extend_from_slice(&[0xa5; 32])?;
    }
    bytes.extend_from_slice(&spanned(0, 1, chunk, chunk)[4..])?;
    bytes.extend_from_slice(&[0; 8])?;
    bytes.extend_from_slice(&[1, 2])?;
    Ok(bytes)
}

pub(super) fn came<'m>(from: Address, bytes: &'m [u8]) -> Entry<'m> {
    Entry::Received { at: 0, from, bytes }
}

pub(super) fn went<'m>(to: Address, bytes: &'m [u8]) -> Entry<'m> {
    Entry::Sent {
        moment: 0,
        to,
        bytes,
    }
}

pub(super) fn swarm(alloc: Global) -> Result<Descriptor, Fail> {
    let content = content(alloc)?;
    let root = root_of(alloc, &content, 1024)?;
    let descriptor = Descriptor::new(root, 1024, 7000, Method::Range32);
    Ok(descriptor.ok().ok_or("no descriptor")?)
}

// The spans of nodes (2, 0), (1, 2), (0, 6), (1, 1) and (0, 1).
const PATH: [(u32, u32); 5] = [(0, 3), (4, 5), (6, 6), (2, 3), (1, 1)];

// Whether the first chunk is planned behind the hashes of these spans, where its peer has told of nothing.
fn is_planned_behind(alloc: Global, spans: &[(u32, u32)]) -> Result<bool, Fail> {
    let d = swarm(alloc)?;
    let hello = handshake(0, REMOTE, &d.root());
    let reply = handshake(REMOTE, LOCAL, &d.root());
    let request = spanned(LOCAL, 8, 0, 0);
    let first = delivery(alloc, REMOTE, spans, 0)?;
    let list = [
        came(PEER, &hello),
        went(PEER, &reply),
        came(PEER, &request),
        went(PEER, &first),
    ];
    Ok(plans_all(&d, &list))
}

// The last two spans the other way round, and one more.
const OTHER_WAY: [(u32, u32); 5] = [(0, 3), (4, 5), (6, 6), (1, 1), (2, 3)];

const ONE_MORE: [(u32, u32); 6] = [(0, 3), (4, 5), (6, 6), (2, 3), (1, 1), (0, 0)];

#[test]
fn plans_the_whole_path(rt: HostRuntime) -> Result<(), Fail> {
    assert!(rt; is_planned_behind(rt.alloc(), &PATH)?);
    assert!(rt; !is_planned_behind(rt.alloc(), &PATH[..4])?);
    Ok(())
}

#[test]
fn plans_no_other_path(rt: HostRuntime) -> Result<(), Fail> {
    assert!(rt; !is_planned_behind(rt.alloc(), &OTHER_WAY)?);
    assert!(rt; !is_planned_behind(rt.alloc(), &ONE_MORE)?);
    Ok(())
}

// Whether the second chunk is planned behind the hashes of these spans, where its peer has acknowledged the first.
fn is_planned_next(alloc: Global, spans: &[(u32, u32)]) -> Result<bool, Fail> {
    let d = swarm(alloc)?;
    let hello = handshake(0, REMOTE, &d.root());
    let reply = handshake(REMOTE, LOCAL, &d.root());
    let next = acknowledges(LOCAL, 0, 1);
    let second = delivery(alloc, REMOTE, spans, 1)?;
    let list = [
        came(PEER, &hello),
        went(PEER, &reply),
        came(PEER, &next),
        went(PEER, &second),
    ];
    Ok(plans_all(&d, &list))
}

#[test]
fn plans_nothing_that_was_told(rt: HostRuntime) -> Result<(), Fail> {
    assert!(rt; is_planned_next(rt.alloc(), &[])?);
    assert!(rt; !is_planned_next(rt.alloc(), &[(0, 0)])?);
    Ok(())
}

#[test]
fn answers_what_was_asked(rt: HostRuntime) -> Result<(), Fail> {
    let d = swarm(rt.alloc())?;
    let hello = handshake(0, REMOTE, &d.root());
    let reply = handshake(REMOTE, LOCAL, &d.root());
    let request = spanned(LOCAL, 8, 0, 0);
    let first = delivery(rt.alloc(), REMOTE, &PATH, 0)?;
    let next = acknowledges(LOCAL, 0, 1);
    let second = delivery(rt.alloc(), REMOTE, &[], 1)?;
    let last = spanned(LOCAL, 8, 2, 2);
    let third = delivery(rt.alloc(), REMOTE, &[(3, 3)], 2)?;
    let list = [
        came(PEER, &hello),
        went(PEER, &reply),
        came(PEER, &request),
        went(PEER, &first),
        came(PEER, &next),
        went(PEER, &second),
        came(PEER, &last),
    ];
    // How many entries there are before it, the datagram, how many messages stand before the chunk, and the chunk.
    for (before, bytes, count, chunk, want) in [
        (3, &first, 5, 0, true),
        (5, &second, 0, 1, true),
        (7, &third, 1, 2, true),
        (2, &first, 5, 0, false),
        (3, &first, 4, 0, false),
        (4, &first, 5, 0, false),
        (7, &third, 0, 2, false),
        (7, &third, 1, 3, false),
    ] {
        let entries = &list[..before];
        assert_eq!(rt;
            answers_peer(&d, entries, PEER, REMOTE, bytes, count, chunk),
            want,
            "{chunk} behind {before}"
        );
        assert!(rt;
            !answers_peer(&d, entries, PEER, LOCAL, bytes, count, chunk),
            "to another number"
        );
        assert!(rt;
            !answers_peer(&d, entries, OTHER, REMOTE, bytes, count, chunk),
            "to another address"
        );
    }
    Ok(())
}

/// A closing handshake.
fn close(channel: u32) -> [u8; 10] {
    let mut bytes = [0, 0, 0, 0, 0, 0, 0, 0, 0, 0xff];
    bytes[..4].copy_from_slice(&channel.to_be_bytes());
    bytes
}

/// UNCHOKE.
fn unchoke(channel: u32) -> [u8; 5] {
    let mut bytes = [11; 5];
    bytes[..4].copy_from_slice(&channel.to_be_bytes());
    bytes
}

// Whether chunk 0 answers the peer.
fn is_answer<'m>(d: &Descriptor, first: &[u8], entries: &'m [Entry<'m>]) -> bool {
    answers_peer(d, entries, PEER, REMOTE, first, 5, 0)
}

#[test]
fn ends_requests(rt: HostRuntime) -> Result<(), Fail> {
    let d = swarm(rt.alloc())?;
    let first = delivery(rt.alloc(), REMOTE, &PATH, 0)?;
    let hello_bytes = handshake(0, REMOTE, &d.root());
    let hello = came(PEER, &hello_bytes);
    let reply_bytes = handshake(REMOTE, LOCAL, &d.root());
    let reply = went(PEER, &reply_bytes);
    let ask_bytes = spanned(LOCAL, 8, 0, 0);
    let ask = came(PEER, &ask_bytes);
    let cancel_bytes = spanned(LOCAL, 9, 0, 0);
    let cancel = came(PEER, &cancel_bytes);
    let choked_bytes = choke(REMOTE);
    let choked = went(PEER, &choked_bytes);
    let unchoked_bytes = unchoke(REMOTE);
    let unchoked = went(PEER, &unchoked_bytes);
    let closed_bytes = close(LOCAL);
    let closed = came(PEER, &closed_bytes);
    assert!(rt; is_answer(&d, &first, &[hello, reply, ask]));
    assert!(rt; !is_answer(&d, &first, &[hello, reply, ask, cancel]));
    assert!(rt; !is_answer(&d, &first, &[hello, reply, ask, choked]));
    assert!(rt; !is_answer(&d, &first, &[hello, reply, ask, choked, unchoked]));
    assert!(rt; is_answer(&d, &first, &[hello, reply, ask, choked, unchoked, ask]));
    assert!(rt; is_answer(&d, &first, &[hello, reply, ask, hello]));
    assert!(rt; !is_answer(&d, &first, &[hello, reply, ask, closed]));
    assert!(rt; is_answer(&d, &first, &[hello, reply, ask, closed, hello, reply, ask]));
    Ok(())
}

#[test]
fn tells_channels_apart(rt: HostRuntime) -> Result<(), Fail> {
    let d = swarm(rt.alloc())?;
    let first = delivery(rt.alloc(), REMOTE, &PATH, 0)?;
    let hello_bytes = handshake(0, REMOTE, &d.root());
    let hello = came(PEER, &hello_bytes);
    let reply_bytes = handshake(REMOTE, LOCAL, &d.root());
    let reply = went(PEER, &reply_bytes);
    let ask_bytes = spanned(LOCAL, 8, 0, 0);
    let ask = came(PEER, &ask_bytes);
    let dial_bytes = handshake(0, 9, &d.root());
    let dial = went(PEER, &dial_bytes);
    let taken_bytes = handshake(9, REMOTE, &d.root());
    let taken = came(PEER, &taken_bytes);
    let ask_dialled_bytes = spanned(9, 8, 0, 0);
    let ask_dialled = came(PEER, &ask_dialled_bytes);
    let choked_bytes = choke(REMOTE);
    let choked = went(PEER, &choked_bytes);
    let closed_bytes = close(LOCAL);
    let closed = came(PEER, &closed_bytes);
    let second_bytes = handshake(0, 5, &d.root());
    let second = came(PEER, &second_bytes);
    let second_reply_bytes = handshake(5, 6, &d.root());
    let second_reply = went(PEER, &second_reply_bytes);
    let ask_second_bytes = spanned(6, 8, 0, 0);
    let ask_second = came(PEER, &ask_second_bytes);
    assert!(rt; is_answer(&d, &first, &[dial, taken, ask_dialled]));
    // what came before the reply is on the channel too
    assert!(rt; is_answer(&d, &first, &[dial, ask_dialled, taken]));
    assert!(rt; !is_answer(&d, &first, &[dial, ask_dialled]));
    assert!(rt; !is_answer(&d, &first, &[dial, taken]));
    // a second channel from the same address
    assert!(rt;
        !is_answer(
            &d,
            &first,
            &[hello, reply, second, second_reply, ask_second]
        )
    );
    assert!(rt;
        is_answer(
            &d,
            &first,
            &[hello, reply, second, second_reply, ask_second, ask]
        )
    );
    // a dial that another channel shadows, with a choke on it and without
    assert!(rt;
        !is_answer(
            &d,
            &first,
            &[dial, hello, reply, choked, closed, taken, ask_dialled]
        )
    );
    assert!(rt;
        is_answer(
            &d,
            &first,
            &[dial, hello, reply, closed, taken, ask_dialled]
        )
    );
    Ok(())
}

/// A chunk of the content.
fn chunk_at(content: &[u8], i: usize) -> &[u8]
    requires { i < 7 }
{
    let end = content.len().min((i + 1) * 1024);
    match content.get(i * 1024..end) {
        Some(chunk) => chunk,
        None => &[],
    }
}

/// Enters the children of a node, where the pair is the node's.
fn adopt(book: &mut Book, layer: u8, offset: u32, left: Digest, right: Digest)
    requires low { offset < 4 }
    ensures rooted { (d : descriptors.Descriptor) → IsRooted d (entry book.old) → IsRooted d (entry book.new) }
{
    if layer == 0 {
        return;
    }
    let below = layer - 1;
    let lower = 2 * offset;
    if book
        .get(Node {
            layer: below,
            offset: lower,
        })
        .is_some()
    {
        return;
    }
    if book
        .get(Node {
            layer: below,
            offset: lower + 1,
        })
        .is_some()
    {
        return;
    }
    match book.get(Node { layer, offset }) {
        Some(digest) => {
            if digest == parent(&left, &right) {
                book.adopt_pair(Node { layer, offset }, left, right);
            }
        }
        None => {}
    }
}

/// The book of the content, by the digests of its chunks.
fn book_of(alloc: Global, d: &Descriptor, l: &[Digest; 7]) -> Result<Book, AllocError>
    ensures { IfOk result (λ b. IsRooted d.now (entry b)) }
{
    let mut book = Book::empty(alloc);
    book.prepare(alloc, d)?;
    let first = parent(&l[0], &l[1]);
    let second = parent(&l[2], &l[3]);
    let third = parent(&l[4], &l[5]);
    let last = parent(&l[6], &Digest::new([0; 32]));
    adopt(
        &mut book,
        3,
        0,
        parent(&first, &second),
        parent(&third, &last),
    );
    adopt(&mut book, 2, 0, first, second);
    adopt(&mut book, 2, 1, third, last);
    adopt(&mut book, 1, 0, l[0], l[1]);
    adopt(&mut book, 1, 3, l[6], Digest::new([0; 32]));
    Ok(book)
}

/// An INTEGRITY.
fn put_hash(bytes: &mut Vec<u8>, first: u32, last: u32, digest: Digest) -> Result<(), AllocError> {
    bytes.extend_from_slice(&spanned(0, 4, first, last)[4..])?;
    bytes.extend_from_slice(digest.bytes())?;
    Ok(())
}

/// DATA 0 behind its hashes.
pub(super) fn first_chunk(
    alloc: Global,
    l: &[Digest; 7],
    content: &[u8],
) -> Result<Vec<u8>, AllocError> {
    let mut bytes = Vec::from_slice(alloc, &REMOTE.to_be_bytes())?;
    let second = parent(&l[2], &l[3]);
    put_hash(&mut bytes, 0, 3, parent(&parent(&l[0], &l[1]), &second))?;
    put_hash(&mut bytes, 4, 5, parent(&l[4], &l[5]))?;
    put_hash(&mut bytes, 6, 6, l[6])?;
    put_hash(&mut bytes, 2, 3, second)?;
    put_hash(&mut bytes, 1, 1, l[1])?;
    bytes.extend_from_slice(&spanned(0, 1, 0, 0)[4..])?;
    bytes.extend_from_slice(&[0; 8])?;
    bytes.extend_from_slice(chunk_at(content, 0))?;
    Ok(bytes)
}

/// The digests of the chunks.
pub(super) fn leaves(content: &[u8]) -> [Digest; 7] {
    [
        leaf(chunk_at(content, 0)),
        leaf(chunk_at(content, 1)),
        leaf(chunk_at(content, 2)),
        leaf(chunk_at(content, 3)),
        leaf(chunk_at(content, 4)),
        leaf(chunk_at(content, 5)),
        leaf(chunk_at(content, 6)),
    ]
}

/// The bytes with one changed.
pub(super) fn with_change(alloc: Global, bytes: &[u8], at: usize) -> Result<Vec<u8>, AllocError> {
    let mut changed = Vec::from_slice(alloc, bytes)?;
    if let Some(byte) = changed.get_mut(at) {
        *byte ^= 1;
    }
    Ok(changed)
}

#[test]
fn serves_by_the_book(rt: HostRuntime) -> Result<(), Fail> {
    let d = swarm(rt.alloc())?;
    let content = content(rt.alloc())?;
    let l = leaves(&content);
    let book = book_of(rt.alloc(), &d, &l)?;
    let first = first_chunk(rt.alloc(), &l, &content)?;
    let hash_changed = with_change(rt.alloc(), &first, 13)?;
    let byte_changed = with_change(rt.alloc(), &first, 300)?;
    let mut more = Vec::from_slice(rt.alloc(), &first)?;
    more.extend_from_slice(&[11])?;
    let hello_bytes = handshake(0, REMOTE, &d.root());
    let hello = came(PEER, &hello_bytes);
    let reply_bytes = handshake(REMOTE, LOCAL, &d.root());
    let reply = went(PEER, &reply_bytes);
    let ask_bytes = spanned(LOCAL, 8, 0, 0);
    let ask = came(PEER, &ask_bytes);
    let sent = went(PEER, &first);
    assert!(rt; serves(&d, &book, &[hello, reply, ask, sent]));
    assert!(rt; !serves(&d, &book, &[hello, reply, sent, ask]));
    assert!(rt; !serves(&d, &book, &[hello, reply, ask, sent, sent]));
    assert!(rt; !serves(&d, &book, &[hello, reply, ask, went(PEER, &hash_changed)]));
    assert!(rt; !serves(&d, &book, &[hello, reply, ask, went(PEER, &byte_changed)]));
    assert!(rt; !serves(&d, &book, &[hello, reply, ask, went(PEER, &more)]));
    Ok(())
}

// A datagram at a moment, in microseconds.
fn came_at<'m>(at: u64, from: Address, bytes: &'m [u8]) -> Entry<'m> {
    Entry::Received { at, from, bytes }
}

pub(super) fn quiet<'m>(at: u64) -> Entry<'m> {
    Entry::Quiet { at }
}

/// The channel that the peer opened, by the place of its opening.
pub(super) fn answered(opening: usize) -> Life {
    Life {
        address: PEER,
        local: LOCAL,
        remote: REMOTE,
        is_dialled: false,
        opening,
    }
}

#[test]
fn knows_plain_channels(rt: HostRuntime) -> Result<(), Fail> {
    let d = swarm(rt.alloc())?;
    let hello_bytes = handshake(0, REMOTE, &d.root());
    let hello = came(PEER, &hello_bytes);
    let reply_bytes = handshake(REMOTE, LOCAL, &d.root());
    let reply = went(PEER, &reply_bytes);
    let ask_bytes = spanned(LOCAL, 8, 0, 0);
    let ask = came(PEER, &ask_bytes);
    let first_bytes = delivery(rt.alloc(), REMOTE, &PATH, 0)?;
    let first = went(PEER, &first_bytes);
    let next_bytes = acknowledges(LOCAL, 0, 1);
    let next = came(PEER, &next_bytes);
    let closed_bytes = close(LOCAL);
    let closed = came(PEER, &closed_bytes);
    let again_bytes = handshake(0, 5, &d.root());
    let again = came(PEER, &again_bytes);
    let mut twice_bytes = Vec::from_slice(rt.alloc(), &hello_bytes)?;
    twice_bytes.extend_from_slice(&hello_bytes[4..])?;
    let twice = came(PEER, &twice_bytes);
    assert!(rt; is_plain(&d, answered(0), &[hello, reply, ask, first, next]));
    assert!(rt; is_plain(&d, answered(0), &[hello, reply]));
    assert!(rt; !is_plain(&d, answered(0), &[hello]));
    assert!(rt; !is_plain(&d, answered(1), &[hello, reply]));
    assert!(rt; !is_plain(&d, answered(0), &[twice, reply]));
    assert!(rt; !is_plain(&d, answered(0), &[hello, reply, ask, closed]));
    // another handshake for channel 0, before the reply and after it
    assert!(rt; !is_plain(&d, answered(0), &[hello, again, reply]));
    assert!(rt; is_plain(&d, answered(0), &[hello, reply, again]));
    // something came from the address before, or from another one
    assert!(rt; !is_plain(&d, answered(1), &[ask, hello, reply]));
    assert!(rt; is_plain(&d, answered(1), &[came(OTHER, &ask_bytes), hello, reply]));
    // the first that is sent to it isn't the reply
    assert!(rt; !is_plain(&d, answered(0), &[hello, first, reply]));
    Ok(())
}

#[test]
fn knows_channels_in_time(rt: HostRuntime) -> Result<(), Fail> {
    let d = swarm(rt.alloc())?;
    let hello_bytes = handshake(0, REMOTE, &d.root());
    let reply_bytes = handshake(REMOTE, LOCAL, &d.root());
    let ask_bytes = spanned(LOCAL, 8, 0, 0);
    let hello = came_at(5_000_000, PEER, &hello_bytes);
    let reply = went(PEER, &reply_bytes);
    let ask = came_at(14_999_999, PEER, &ask_bytes);
    let late = came_at(194_999_998, PEER, &ask_bytes);
    // ten seconds from the opening while nothing is heard
    assert!(rt; is_plain(&d, answered(0), &[hello, reply, quiet(14_999_999)]));
    assert!(rt; !is_plain(&d, answered(0), &[hello, reply, quiet(15_000_000)]));
    assert!(rt; !is_plain(&d, answered(0), &[hello, reply, quiet(15_000_000), ask]));
    // 180 seconds from the latest datagram
    assert!(rt; is_plain(&d, answered(0), &[hello, reply, ask, quiet(194_999_998)]));
    assert!(rt; !is_plain(&d, answered(0), &[hello, reply, ask, quiet(194_999_999)]));
    assert!(rt;
        is_plain(
            &d,
            answered(0),
            &[hello, reply, ask, late, quiet(374_999_997)]
        )
    );
    assert!(rt;
        !is_plain(
            &d,
            answered(0),
            &[hello, reply, ask, late, quiet(374_999_998)]
        )
    );
    // what another one sends is not heard on it
    let other = came_at(14_000_000, OTHER, &ask_bytes);
    assert!(rt; !is_plain(&d, answered(0), &[hello, reply, other, quiet(15_000_000)]));
    Ok(())
}

#[test]
fn knows_plain_dials(rt: HostRuntime) -> Result<(), Fail> {
    let d = swarm(rt.alloc())?;
    let dial_bytes = handshake(0, 9, &d.root());
    let dial = went(PEER, &dial_bytes);
    let taken_bytes = handshake(9, REMOTE, &d.root());
    let taken = came(PEER, &taken_bytes);
    let ask_bytes = spanned(9, 8, 0, 0);
    let ask = came(PEER, &ask_bytes);
    let life = Life {
        local: 9,
        is_dialled: true,
        ..answered(0)
    };
    assert!(rt; is_plain(&d, life, &[dial, taken]));
    assert!(rt; is_plain(&d, life, &[dial, taken, ask]));
    assert!(rt; is_plain(&d, life, &[dial, dial, taken]));
    assert!(rt; is_plain(&d, life, &[dial, came(OTHER, &ask_bytes), taken]));
    assert!(rt; !is_plain(&d, life, &[dial]));
    assert!(rt; !is_plain(&d, life, &[taken, dial]));
    assert!(rt; !is_plain(&d, life, &[dial, ask, taken]));
    assert!(rt; !is_plain(&d, answered(0), &[dial, taken]));
    Ok(())
}
