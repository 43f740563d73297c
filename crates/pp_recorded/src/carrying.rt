//! Whether chunks and hashes that are sent are the book's (RFC 7574, sections 5.2 and 5.3).

ghost use Rattle.std.specs.Prelude.{◌≡◌, ◌↔◌, ◌^◌, ◌≤◌, ◌<◌, IsTrue, MatchOption, Some, take, true, length};
ghost use Rattle.std.specs.List.{AllByRecursion};
ghost use Rattle.pp_terms.specs.tree.Tree as trees;
ghost use Rattle.pp_terms.specs.tree.Range.{leaves_of};
ghost use Rattle.pp_terms.specs.tree.Book.{IsRooted, IsBacked};
ghost use Rattle.pp_traffic.specs.Hashes as terms;
ghost use Rattle.pp_tree.specs.Book.{entry};
ghost use Rattle.pp_tree.specs.Node.{node_of};
ghost use Rattle.pp_wire.specs.Views.{span_of, message_of};
ghost use Rattle.pp_recorded.specs.Parts.{all};

use crate::reading::{first_place, message_at};
use pp_options::Options;
use pp_ranges::ChunkRange;
use pp_tree::{Book, Descriptor, Digest, Node, leaf};
use pp_wire::{Message, Span};

// Whether the book has that digest of the node.
fn has_digest(book: &Book, node: Node, digest: Digest) -> bool
    ensures { IsTrue result ↔ (entry book.now node.layer node.offset ≡ Some digest) }
{
    match book.get(node) {
        Some(found) => found == digest,
        None => false,
    }
}

// The node whose leaves are these.
fn node_over(first: u32, last: u32) -> Option<Node>
    requires { first ≤ last }
    ensures { MatchOption result ((n : trees.Node) → leaves_of n ≡ record { first = first; last = last } → ⊥)
        (λ node. leaves_of (node_of node) ≡ record { first = first; last = last }) }
{
    ChunkRange::new(first, last)?.as_node()
}

// Whether the book has the digest of the node over the span.
fn is_entered(descriptor: &Descriptor, book: &Book, span: Span, digest: Digest) -> bool
    requires { IsRooted descriptor.now (entry book.now) }
    ensures { IsTrue result ↔ ((n : trees.Node) × (terms.is_span_of n (span_of span) ≡ true) × (entry book.now n.layer n.offset ≡ Some digest)) }
{
    if span.last >= 1 << descriptor.height() {
        return false;
    }
    if span.first > span.last {
        return false;
    }
    match node_over(span.first as u32, span.last as u32) {
        Some(node) => has_digest(book, node, digest),
        None => false,
    }
}

// Whether an INTEGRITY has the book's digest.
fn carries<'m>(descriptor: &Descriptor, book: &Book, message: &'m Message<'m>) -> bool
    requires { IsRooted descriptor.now (entry book.now) }
    ensures { IsTrue result ↔ terms.Carries (entry book.now) (message_of message.now) }
{
    match *message {
        Message::Integrity { span, digest } => is_entered(descriptor, book, span, digest),
        _ => true,
    }
}

/// Whether the first messages of a datagram, so many, carry no other hashes.
pub fn all_carry(descriptor: &Descriptor, book: &Book, bytes: &[u8], count: usize) -> bool
    requires { IsRooted descriptor.now (entry book.now) }
    ensures { IsTrue result ↔ AllByRecursion (terms.Carries (entry book.now)) (take count (all descriptor.now bytes.now)) }
{
    let mut at = first_place(bytes);
    let mut left = count;
    'messages: while left > 0 {
        match message_at(descriptor, bytes, at) {
            Some((message, next)) => {
                if !carries(descriptor, book, &message) {
                    return false;
                }
                at = next;
                left -= 1;
            }
            None => return true,
        }
    }
    true
}

/// Whether the bytes are the chunk's, by the book.
pub fn is_backed(descriptor: &Descriptor, book: &Book, chunk: u64, bytes: &[u8]) -> bool
    requires { IsRooted descriptor.now (entry book.now) }
    ensures exact { IsTrue result ↔ IsBacked descriptor.now (entry book.now) chunk bytes.now }
    ensures few { IsTrue result → chunk < 2 ^ 32 }
{
    if chunk >= u64::from(descriptor.chunks()) {
        return false;
    }
    let offset = chunk as u32;
    bytes.len() == descriptor.chunk_len(offset) as usize
        && has_digest(book, Node { layer: 0, offset }, leaf(bytes))
}
