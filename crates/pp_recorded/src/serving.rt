//! Whether all that was sent keeps the promise on chunks.

ghost use Rattle.std.specs.Prelude.{◌≡◌, ◌↔◌, ◌≤◌, ◌<◌, ◌^◌, IsTrue, [], take, length};
ghost use Rattle.pp_terms.specs.tree.Book.{IsRooted};
ghost use Rattle.pp_terms.specs.format.Messages as messages;
ghost use Rattle.pp_traffic.specs.Meter.{lets_send};
ghost use Rattle.pp_traffic.specs.Serving as terms;
ghost use Rattle.pp_tree.specs.Book.{entry};
ghost use Rattle.pp_outside.specs.Outside.{address_of};
ghost use Rattle.pp_wire.specs.Views.{message_of};
ghost use Rattle.pp_recorded.specs.Entries.{past, record_of};
ghost use Rattle.pp_recorded.specs.Parts.{all, rest};

use crate::carrying::{all_carry, is_backed};
use crate::entry::Entry;
use crate::reading::{channel_of, first_place, message_at};
use crate::searching::answers_peer;
use pp_options::Options;
use pp_outside::Address;
use pp_tree::{Book, Descriptor};
use pp_wire::{Message, Span};

// Whether a chunk answers the peer, for the channel number that its datagram has.
fn reaches<'m>(
    descriptor: &Descriptor,
    entries: &'m [Entry<'m>],
    to: Address,
    bytes: &[u8],
    count: usize,
    chunk: u32,
) -> bool
    ensures { IsTrue result ↔ terms.AnswersPeer descriptor.now (lets_send descriptor.now.chunk) (past entries.now) (address_of to)
        (messages.datagram descriptor.now.method descriptor.now.chunk bytes.now).channel chunk (take count (all descriptor.now bytes.now)) }
{
    match channel_of(bytes) {
        Some(remote) => answers_peer(descriptor, entries, to, remote, bytes, count, chunk),
        None => false,
    }
}

// Whether there is no message from a place on.
fn is_last(descriptor: &Descriptor, bytes: &[u8], at: usize) -> bool
    requires { at ≤ length bytes.now }
    ensures { IsTrue result ↔ (rest descriptor.now bytes.now at ≡ []) }
{
    message_at(descriptor, bytes, at).is_none()
}

// Whether a DATA, behind the first messages of its datagram and before those from a place on, serves its chunk.
fn serves_chunk<'m>(
    descriptor: &Descriptor,
    book: &Book,
    entries: &'m [Entry<'m>],
    to: Address,
    bytes: &[u8],
    count: usize,
    next: usize,
    chunk: u64,
    content: &[u8],
) -> bool
    requires rooted { IsRooted descriptor.now (entry book.now) }
    requires within { next ≤ length bytes.now }
    ensures { IsTrue result ↔ terms.ServesChunk descriptor.now (entry book.now) (lets_send descriptor.now.chunk) (past entries.now) (address_of to)
        (messages.datagram descriptor.now.method descriptor.now.chunk bytes.now).channel (take count (all descriptor.now bytes.now)) chunk content.now
        (rest descriptor.now bytes.now next) }
{
    if !is_last(descriptor, bytes, next) {
        return false;
    }
    if !is_backed(descriptor, book, chunk, content) {
        return false;
    }
    if !all_carry(descriptor, book, bytes, count) {
        return false;
    }
    reaches(descriptor, entries, to, bytes, count, chunk as u32)
}

// Whether the messages of a datagram that is sent to an address do, each chunk among them.
fn serves_from<'m>(
    descriptor: &Descriptor,
    book: &Book,
    entries: &'m [Entry<'m>],
    to: Address,
    bytes: &[u8],
) -> bool
    requires { IsRooted descriptor.now (entry book.now) }
    ensures { IsTrue result ↔ terms.ServesFrom descriptor.now (entry book.now) (lets_send descriptor.now.chunk) (past entries.now) (address_of to)
        (messages.datagram descriptor.now.method descriptor.now.chunk bytes.now).channel [] (all descriptor.now bytes.now) }
{
    let mut at = first_place(bytes);
    let mut count = 0;
    'messages: while let Some((message, next)) = message_at(descriptor, bytes, at) {
        match message {
            Message::Data {
                chunk,
                bytes: content,
                ..
            } => return serves_chunk(
                descriptor, book, entries, to, bytes, count, next, chunk, content,
            ),
            _ => {
                at = next;
                count += 1;
            }
        }
    }
    true
}

// Whether an entry does, by those before it.
fn serves_entry<'m>(
    descriptor: &Descriptor,
    book: &Book,
    entries: &'m [Entry<'m>],
    newest: &'m Entry<'m>,
) -> bool
    requires { IsRooted descriptor.now (entry book.now) }
    ensures { IsTrue result ↔ terms.Serves descriptor.now (entry book.now) (lets_send descriptor.now.chunk) (past entries.now) (record_of newest.now) }
{
    match *newest {
        Entry::Sent { to, bytes, .. } => serves_from(descriptor, book, entries, to, bytes),
        Entry::Received { .. } | Entry::Quiet { .. } => true,
    }
}

/// Whether each chunk that was sent has its hash path in the book, answers an outstanding request of an unchoked peer,
/// brings the hashes that the peer lacks, and fits the window (RFC 7574, sections 3.5 to 3.9, 5.3 and 8.16).
pub fn serves<'m>(descriptor: &Descriptor, book: &Book, entries: &'m [Entry<'m>]) -> bool
    requires { IsRooted descriptor.now (entry book.now) }
    ensures { IsTrue result ↔ terms.ServesAll descriptor.now (entry book.now) (lets_send descriptor.now.chunk) (past entries.now) }
{
    let mut place = entries.len();
    'places: while place > 0 {
        place -= 1;
        if !serves_entry(descriptor, book, &entries[..place], &entries[place]) {
            return false;
        }
    }
    true
}
