//! The chunks that a peer announced by HAVE or ACK (RFC 7574, sections 3.2 and 3.3).
ghost use Rattle.std.specs.Prelude.{◌≡◌, ◌<◌, length, reverse, IfOk};
ghost use Rattle.pp_terms.specs.tree.Range.{within};
ghost use Rattle.pp_terms.specs.format.Descriptor.{chunks_of};
ghost use Rattle.pp_traffic.specs.Keeping.{announces};
ghost use Rattle.pp_outside.specs.MemoryLink.{in_order};
ghost use Rattle.pp_wire.specs.Views.{span_of, message_of};
ghost use Rattle.pp_recorded.specs.Parts.{all};
ghost use Rattle.pp_recorded.specs.Sorts.{announces_in};
ghost use Rattle.pp_world.specs.Outcome.{is_announced_in};
ghost use Rattle.pp_outcome.specs.Announced.{Gains, announces_at, AreAnnounced};

use pp_actor::Life;
use pp_outside::{Mark, MemoryLink};
use pp_recorded::reading::{first_place, message_at};
use pp_tree::{ChunkSet, Descriptor};
use pp_wire::{Message, Span};
use std::alloc::{AllocError, Global};

// Adds the chunks of a span, of which those behind the content's last chunk are none.
fn add_span(span: Span, chunks: u32, set: &mut ChunkSet)
    requires { length set.old ≡ chunks }
    ensures { Gains (within (span_of span)) set.old set.new }
{
    let most = u64::from(chunks);
    let first = span.first.min(most) as u32;
    let end = span.last.saturating_add(1).min(most) as u32;
    for i in first..end {
        set.insert(i);
    }
}

// Adds the chunks that a message announces.
fn add_message<'m>(message: &'m Message<'m>, chunks: u32, set: &mut ChunkSet)
    requires { length set.old ≡ chunks }
    ensures { Gains (λ i. announces_in i (message_of message.now)) set.old set.new }
{
    match *message {
        Message::Ack { span, .. } => add_span(span, chunks, set),
        Message::Have { span } => add_span(span, chunks, set),
        _ => {}
    }
}

// Adds the chunks that a datagram announces.
fn add_datagram(descriptor: &Descriptor, bytes: &[u8], set: &mut ChunkSet)
    requires { length set.old ≡ chunks_of descriptor.now }
    ensures { Gains (λ i. announces i (all descriptor.now bytes.now)) set.old set.new }
{
    let chunks = descriptor.chunks();
    let mut at = first_place(bytes);
    'messages: while let Some((message, next)) = message_at(descriptor, bytes, at) {
        add_message(&message, chunks, set);
        at = next;
    }
}

// Adds the chunks that the record of number `n` of a link announces, if a datagram was sent then.
fn add_record(descriptor: &Descriptor, link: &MemoryLink, n: usize, set: &mut ChunkSet)
    requires room { length set.old ≡ chunks_of descriptor.now }
    requires within { n < length (in_order link.now) }
    ensures { Gains (announces_at descriptor.now (in_order link.now) n) set.old set.new }
{
    match link.mark(n) {
        Mark::Sent { .. } => add_datagram(descriptor, link.mark_bytes(n), set),
        Mark::Received { .. } | Mark::Quiet { .. } => {}
    }
}

// Adds the chunks that were announced over a link.
fn add_link(descriptor: &Descriptor, link: &MemoryLink, set: &mut ChunkSet)
    requires { length set.old ≡ chunks_of descriptor.now }
    ensures { Gains (λ i. is_announced_in descriptor.now i (reverse (in_order link.now))) set.old set.new }
{
    for n in 0..link.marks() {
        add_record(descriptor, link, n, set);
    }
}

/// The chunks that were announced in any of the lives.
pub(crate) fn announced(
    alloc: Global,
    descriptor: &Descriptor,
    lives: &[Life],
) -> Result<ChunkSet, AllocError>
    ensures { IfOk result (AreAnnounced descriptor.now lives.now) }
{
    let mut set = ChunkSet::none(alloc, descriptor.chunks())?;
    for life in lives {
        add_link(descriptor, life.link(), &mut set);
    }
    Ok(set)
}
