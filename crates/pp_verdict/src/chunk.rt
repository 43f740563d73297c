//! The chunks that were sent.

ghost use Rattle.std.specs.Prelude.{◌≡◌, ◌↔◌, ◌≤◌, [], length, option_map, IfSome, IsTrue};
ghost use Rattle.pp_terms.specs.format.Messages as messages;
ghost use Rattle.pp_outside.specs.Outside.{address_of};
ghost use Rattle.pp_wire.specs.Views.{message_of};
ghost use Rattle.pp_recorded.specs.Entries.{record_of};
ghost use Rattle.pp_recorded.specs.Parts.{all, rest};
ghost use Rattle.pp_verdict.specs.Chunks as terms;
ghost use Rattle.pp_verdict.specs.Chunks.{shown};

use pp_options::Options;
use pp_outside::Address;
use pp_recorded::entry::Entry;
use pp_recorded::reading::{first_place, message_at};
use pp_tree::Descriptor;
use pp_wire::{Message, Span};

/// A chunk that was sent: the datagram and its receiver, how many messages stand in front of the chunk, where those behind
/// it begin, and its number and bytes.
#[derive(Clone, Copy)]
pub(crate) struct SentChunk<'a> {
    pub(crate) to: Address,
    pub(crate) datagram: &'a [u8],
    pub(crate) count: usize,
    pub(crate) next: usize,
    pub(crate) number: u64,
    pub(crate) bytes: &'a [u8],
}

// The first chunk of a datagram that was sent to an address.
fn chunk_in<'a>(descriptor: &Descriptor, to: Address, datagram: &'a [u8]) -> Option<SentChunk<'a>>
    ensures is { option_map (shown descriptor.now) result ≡ terms.chunk_in (address_of to)
        (messages.datagram descriptor.now.method descriptor.now.chunk datagram.now).channel []
        (all descriptor.now datagram.now) }
    ensures within { IfSome result (λ chunk. chunk.next ≤ length chunk.datagram.now) }
{
    let mut at = first_place(datagram);
    let mut count = 0;
    'messages: while let Some((message, next)) = message_at(descriptor, datagram, at) {
        match message {
            Message::Data {
                chunk: number,
                bytes,
                ..
            } => {
                return Some(SentChunk {
                    to,
                    datagram,
                    count,
                    next,
                    number,
                    bytes,
                });
            }
            _ => {
                at = next;
                count += 1;
            }
        }
    }
    None
}

/// The first chunk of an entry, where that is a datagram that was sent.
pub(crate) fn chunk_of<'m>(descriptor: &Descriptor, entry: &'m Entry<'m>) -> Option<SentChunk<'m>>
    ensures is { option_map (shown descriptor.now) result ≡ terms.chunk_of descriptor.now (record_of entry.now) }
    ensures within { IfSome result (λ chunk. chunk.next ≤ length chunk.datagram.now) }
{
    match *entry {
        Entry::Sent { to, bytes, .. } => chunk_in(descriptor, to, bytes),
        Entry::Received { .. } | Entry::Quiet { .. } => None,
    }
}

/// Whether no message stands behind the chunk.
pub(crate) fn is_last<'a>(descriptor: &Descriptor, chunk: SentChunk<'a>) -> bool
    requires { chunk.next ≤ length chunk.datagram.now }
    ensures { IsTrue result ↔ ((shown descriptor.now chunk.entry).rest ≡ []) }
{
    message_at(descriptor, chunk.datagram, chunk.next).is_none()
}
