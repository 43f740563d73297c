//! The datagram of one chunk, behind the hashes of its path.

ghost use Rattle.std.specs.Prelude.{◌≡◌, ◌+◌, ◌^◌, ◌<◌, ◌≤◌, ℕ, List, length, map, true, is_some, IfOk};
ghost use Rattle.std.specs.List.{AllByRecursion};
ghost use Rattle.pp_terms.specs.disk.Disk.{DiskState, moment_of};
ghost use Rattle.pp_terms.specs.format.Descriptor.{Method};
ghost use Rattle.pp_terms.specs.format.Messages.{spell};
ghost use Rattle.pp_traffic.specs.Laws.{IsInBook};
ghost use Rattle.pp_tree.specs.Book.{entry};
ghost use Rattle.pp_tree.specs.Node.{node_of};
ghost use Rattle.pp_outside.specs.Outside.{address_of};
ghost use Rattle.pp_wire.specs.Views.{message_of};
ghost use Rattle.pp_wire.specs.Put.{CanPut, NamesChunks};
ghost use Rattle.pp_draft.specs.Datagrams.{hash_of};
ghost use Rattle.pp_draft.specs.Deliveries.{Answer, CanGo, AddsHead, HasFront, Fetches, Delivers, length_of};
ghost use Rattle.pp_draft.specs.Puts.{AddsOne, Adds, IsLow};
ghost use Rattle.pp_draft.specs.Posts.{Sends};

use crate::message::put_message;
use crate::packing::begin;
use crate::posting::Receiver;
use crate::ranges::leaves;
use pp_outside::{Disk, Link};
use pp_tree::{Book, Descriptor, Node};
use pp_wire::{Message, put_head};

/// A chunk, the hashes that go before it, and where they go.
#[derive(Clone, Copy)]
pub struct Delivery<'a> {
    pub to: Receiver,
    /// The chunk's number.
    pub chunk: u32,
    /// When it is sent, in microseconds.
    pub sent_at: u64,
    /// The nodes whose hashes go before it, in their order, at most 48; the book has each.
    pub nodes: &'a [Node],
    pub book: &'a Book,
}

/// Why the bytes of a chunk aren't there.
#[derive(Clone, Copy, Debug, PartialEq, Eq)]
pub enum Unread {
    /// This peer doesn't have the chunk.
    Absent,
    /// The disk refused to read it.
    Disk,
    /// What was read has another digest than the chunk.
    Damaged,
}

/// What reads the bytes of chunks, as a store does.
pub trait ChunkReader<D: Disk> {
    /// That a chunk may be read, into so many bytes.
    ghost can_read: { Self → ℕ → ℕ → Type 0 };

    /// What a read of a chunk answers, with the buffer's bytes afterwards and the disk before and after it.
    ghost reads: { Self → ℕ → Answer → List ℕ → DiskState → DiskState → Type 0 };

    /// Reads a chunk into a buffer of its length, and compares its digest.
    fn read(&self, chunk: u32, into: &mut [u8], disk: &mut D) -> Result<(), Unread>
        requires { can_read self.now chunk (length into.old) }
        ensures { reads self.now chunk result into.new (D.state disk.old) (D.state disk.new) };
}

// The message of a node's hash, which the book has.
#[tactic(auto, using(pp_terms::proofs::MessageLengths::length_integrity))]
fn hash<'m>(node: Node, book: &Book) -> Message<'m>
    requires given { is_some (entry book.now node.layer node.offset) ≡ true }
    requires low { IsLow node }
    ensures is { message_of result ≡ hash_of (entry book.now) (node_of node) }
    ensures short { (method : Method) → length (spell method (message_of result)) ≤ 49 }
{
    let span = leaves(node);
    let digest = book.get(node).unwrap();
    Message::Integrity { span, digest }
}

// Puts a message behind the others, for which there is room.
fn append<'m>(message: &'m Message<'m>, descriptor: &Descriptor, out: &mut [u8], at: usize) -> usize
    requires can { CanPut descriptor.now.method (message_of message.now) }
    requires named { NamesChunks descriptor.now.method (message_of message.now) }
    requires room { at + length (spell descriptor.now.method (message_of message.now)) ≤ length out.old }
    ensures { AddsOne descriptor.now (message_of message.now) out.old at result out.new }
{
    put_message(message, descriptor, out, at).unwrap()
}

// Puts the hashes of nodes that the book has.
fn put_hashes(
    nodes: &[Node],
    book: &Book,
    descriptor: &Descriptor,
    out: &mut [u8],
    at: usize,
) -> usize
    requires given { AllByRecursion (IsInBook descriptor.now (entry book.now)) (map node_of nodes.now) }
    requires few { length nodes.now ≤ 48 }
    requires room { at + 2352 ≤ length out.old }
    ensures ends { result ≤ at + 2352 }
    ensures adds { Adds descriptor.now (map (hash_of (entry book.now)) (map node_of nodes.now)) out.old at result out.new }
{
    let _chunks = descriptor.chunks();
    let mut end = at;
    for node in nodes {
        end = append(&hash(*node, book), descriptor, out, end);
    }
    end
}

// Puts a DATA but for the chunk's bytes.
fn append_head(delivery: &Delivery, descriptor: &Descriptor, out: &mut [u8], at: usize) -> usize
    requires within { delivery.now.chunk < 2 ^ 20 }
    requires room { at + 25 ≤ length out.old }
    ensures ends { result ≤ at + 25 }
    ensures adds { AddsHead descriptor.now delivery.now.chunk delivery.now.sent_at out.old at result out.new }
{
    let chunk = u64::from(delivery.chunk);
    put_head(chunk, delivery.sent_at, descriptor.method(), out, at).unwrap()
}

// Writes the datagram but for the chunk's bytes, and answers the place where they are to stand.
fn put_front(delivery: &Delivery, descriptor: &Descriptor, out: &mut [u8]) -> usize
    requires can { CanGo descriptor.now delivery.now }
    requires room { length out.old ≡ 16384 }
    ensures ends { result ≤ 2381 }
    ensures front { HasFront descriptor.now delivery.now result out.new }
{
    let _chunks = descriptor.chunks();
    let end = begin(delivery.to.channel, out);
    let end = put_hashes(delivery.nodes, delivery.book, descriptor, out, end);
    append_head(delivery, descriptor, out, end)
}

// Writes the datagram, the chunk's bytes by one read straight into it, and answers how long it is.
fn fetch<R: ChunkReader<D>, D: Disk>(
    delivery: &Delivery,
    reader: &R,
    descriptor: &Descriptor,
    out: &mut [u8],
    disk: &mut D,
) -> Result<usize, Unread>
    requires can { CanGo descriptor.now delivery.now }
    requires readable { R.can_read reader.now delivery.now.chunk (length_of descriptor.now delivery.now) }
    requires room { length out.old ≡ 16384 }
    ensures within { IfOk result (λ end. end ≤ 16384) }
    ensures fetches { Fetches descriptor.now delivery.now
        (λ answer bytes. R.reads reader.now delivery.now.chunk answer bytes (D.state disk.old) (D.state disk.new)) out.new result }
{
    let _chunk = descriptor.chunk();
    let start = put_front(delivery, descriptor, out);
    let end = start + descriptor.chunk_len(delivery.chunk) as usize;
    match reader.read(delivery.chunk, &mut out[start..end], disk) {
        Ok(()) => Ok(end),
        Err(why) => Err(why),
    }
}

/// Sends a chunk behind the hashes, in one datagram, and answers whether the link took it; where the chunk can't be read, why,
/// and nothing is sent. The chunk is one of the content. Its bytes are read into the datagram, and copied nowhere else. `out` has
/// 16,384 bytes, of which the first hold the datagram afterwards (RFC 7574, sections 5.3 and 8.6).
pub fn post_chunk<R: ChunkReader<D>, D: Disk, L: Link>(
    delivery: &Delivery,
    reader: &R,
    descriptor: &Descriptor,
    out: &mut [u8],
    disk: &mut D,
    link: &mut L,
) -> Result<bool, Unread>
    requires can { CanGo descriptor.now delivery.now }
    requires readable { R.can_read reader.now delivery.now.chunk (length_of descriptor.now delivery.now) }
    requires room { length out.old ≡ 16384 }
    ensures { Delivers descriptor.now delivery.now
        (λ answer bytes. R.reads reader.now delivery.now.chunk answer bytes (D.state disk.old) (D.state disk.new))
        (L.seen link.new ≡ L.seen link.old)
        (λ datagram sent. Sends (address_of delivery.now.to.address) datagram (moment_of (D.state disk.new).history) (L.seen link.old) (L.seen link.new) sent)
        result }
{
    match fetch(delivery, reader, descriptor, out, disk) {
        Ok(end) => Ok(link.send(disk, &delivery.to.address, &out[..end]).is_ok()),
        Err(unread) => Err(unread),
    }
}
