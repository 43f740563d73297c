//! Whether each chunk that was sent came behind exactly the hashes of its plan (RFC 7574, sections 5.2 to 5.5).

ghost use Rattle.std.specs.Prelude.{◌≡◌, ◌↔◌, IsTrue, [], take};
ghost use Rattle.pp_terms.specs.format.Messages as messages;
ghost use Rattle.pp_traffic.specs.Meter.{lets_send};
ghost use Rattle.pp_promises.specs.Datagrams as terms;
ghost use Rattle.pp_outside.specs.Outside.{address_of};
ghost use Rattle.pp_wire.specs.Views.{message_of};
ghost use Rattle.pp_recorded.specs.Entries.{past, record_of};
ghost use Rattle.pp_recorded.specs.Parts.{all};
ghost use Rattle.pp_recorded.specs.Plannings.{PlansMessage};

use crate::entry::Entry;
use crate::reading::{channel_of, first_place, message_at};
use crate::searching::plans_peer;
use pp_options::Options;
use pp_outside::Address;
use pp_tree::Descriptor;
use pp_wire::{Message, Span};

// Whether a chunk, behind the first messages of a datagram, so many, answers the peer behind the hashes of its plan.
fn plans_chunk<'m>(
    descriptor: &Descriptor,
    entries: &'m [Entry<'m>],
    to: Address,
    bytes: &[u8],
    count: usize,
    chunk: u64,
) -> bool
    ensures { IsTrue result ↔ terms.PlansPeer descriptor.now (lets_send descriptor.now.chunk) (past entries.now) (address_of to)
        (messages.datagram descriptor.now.method descriptor.now.chunk bytes.now).channel chunk (take count (all descriptor.now bytes.now)) }
{
    let _chunks = descriptor.chunks();
    let _height = descriptor.height();
    if chunk >= 1 << 32 {
        return false;
    }
    match channel_of(bytes) {
        Some(remote) => plans_peer(descriptor, entries, to, remote, bytes, count, chunk as u32),
        None => false,
    }
}

// Whether a message is no chunk, or one that does.
fn plans_message<'e, 'm>(
    descriptor: &Descriptor,
    entries: &'e [Entry<'e>],
    to: Address,
    bytes: &[u8],
    count: usize,
    message: &'m Message<'m>,
) -> bool
    ensures { IsTrue result ↔ PlansMessage descriptor.now (lets_send descriptor.now.chunk) (past entries.now) (address_of to)
        (messages.datagram descriptor.now.method descriptor.now.chunk bytes.now).channel (take count (all descriptor.now bytes.now)) (message_of message.now) }
{
    match *message {
        Message::Data { chunk, .. } => plans_chunk(descriptor, entries, to, bytes, count, chunk),
        _ => true,
    }
}

// Whether the messages of a datagram that is sent to an address do, each chunk among them.
fn plans_from<'m>(
    descriptor: &Descriptor,
    entries: &'m [Entry<'m>],
    to: Address,
    bytes: &[u8],
) -> bool
    ensures { IsTrue result ↔ terms.PlansFrom descriptor.now (lets_send descriptor.now.chunk) (past entries.now) (address_of to)
        (messages.datagram descriptor.now.method descriptor.now.chunk bytes.now).channel [] (all descriptor.now bytes.now) }
{
    let mut at = first_place(bytes);
    let mut count = 0;
    'messages: while let Some((message, next)) = message_at(descriptor, bytes, at) {
        if !plans_message(descriptor, entries, to, bytes, count, &message) {
            return false;
        }
        at = next;
        count += 1;
    }
    true
}

// Whether an entry does, by those before it.
fn plans_entry<'m>(descriptor: &Descriptor, entries: &'m [Entry<'m>], newest: &'m Entry<'m>) -> bool
    ensures { IsTrue result ↔ terms.Plans descriptor.now (lets_send descriptor.now.chunk) (past entries.now) (record_of newest.now) }
{
    match *newest {
        Entry::Sent { to, bytes, .. } => plans_from(descriptor, entries, to, bytes),
        Entry::Received { .. } | Entry::Quiet { .. } => true,
    }
}

/// Whether each chunk that was sent answers its peer on some channel behind exactly the hashes of its plan there, in its order:
/// those of its path that the peer hadn't told that it knows, by what was read on that channel.
pub fn plans_all<'m>(descriptor: &Descriptor, entries: &'m [Entry<'m>]) -> bool
    ensures { IsTrue result ↔ terms.PlansAll descriptor.now (lets_send descriptor.now.chunk) (past entries.now) }
{
    let mut place = entries.len();
    'places: while place > 0 {
        place -= 1;
        if !plans_entry(descriptor, &entries[..place], &entries[place]) {
            return false;
        }
    }
    true
}
