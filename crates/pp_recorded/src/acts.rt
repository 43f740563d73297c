//! The acts of a channel: what each line of its story is to its window, the oldest first.

ghost use Rattle.std.specs.Prelude.{◌≡◌, ◌<◌, ◌≤◌, ◌+◌, ◌*◌, ◌^◌, [], ◌∷◌, length, drop, MatchOption, IfSome};
ghost use Rattle.pp_traffic.specs.Past as traffic;
ghost use Rattle.pp_wire.specs.Views.{message_of};
ghost use Rattle.pp_recorded.specs.Entries.{life_of, record_of};
ghost use Rattle.pp_recorded.specs.Parts.{rest};
ghost use Rattle.pp_recorded.specs.Acts as terms;

use crate::entry::{Entry, Life, bytes_of};
use crate::reading::{message_at, nowhere};
use crate::silence::now;
use crate::standing::{heard_from, said_from};
use crate::timing::now_after;
use pp_options::Options;
use pp_tree::Descriptor;
use pp_wire::{Message, Span};

/// What a line of a channel's story is to its window: a chunk that was sent, an ACK that came, the end of a wait, or nothing.
#[derive(Clone, Copy)]
pub enum Act {
    Sends {
        chunk: u64,
        now: u64,
    },
    Acks {
        first: u64,
        last: u64,
        delay: u64,
        now: u64,
    },
    Waits {
        now: u64,
    },
    Other,
}

/// A place among the acts: an entry, where in its datagram the next message begins, and the moment now then.
#[derive(Clone, Copy)]
pub struct Spot {
    pub place: usize,
    pub at: usize,
    pub now: u64,
}

// A message that came.
fn heard_act<'m>(message: &'m Message<'m>, now: u64) -> Act
    ensures { result ≡ terms.heard_act now (message_of message.now) }
{
    match *message {
        Message::Ack { span, delay } => Act::Acks {
            first: span.first,
            last: span.last,
            delay,
            now,
        },
        _ => Act::Other,
    }
}

// One that was sent.
fn said_act<'m>(message: &'m Message<'m>, now: u64) -> Act
    ensures { result ≡ terms.said_act now (message_of message.now) }
{
    match *message {
        Message::Data { chunk, .. } => Act::Sends { chunk, now },
        _ => Act::Other,
    }
}

// One of an entry.
fn act_of<'e, 'm>(entry: &'e Entry<'e>, message: &'m Message<'m>, now: u64) -> Act
    ensures { result ≡ terms.act_of (record_of entry.now) now (message_of message.now) }
{
    match *entry {
        Entry::Received { .. } => heard_act(message, now),
        Entry::Quiet { .. } => Act::Other,
        Entry::Sent { .. } => said_act(message, now),
    }
}

// The end of an entry.
fn end_of<'m>(entry: &'m Entry<'m>, now: u64) -> Act
    ensures { result ≡ terms.end_of (record_of entry.now) now }
{
    match *entry {
        Entry::Received { .. } | Entry::Quiet { .. } => Act::Waits { now },
        Entry::Sent { .. } => Act::Other,
    }
}

// Where the messages of an entry begin that lie on the channel.
fn messages_from<'m>(
    descriptor: &Descriptor,
    life: Life,
    is_opening: bool,
    entry: &'m Entry<'m>,
) -> usize
    ensures within { result ≤ length (traffic.bytes_of (record_of entry.now)) }
    ensures rest { rest descriptor.now (traffic.bytes_of (record_of entry.now)) result
        ≡ terms.messages_in descriptor.now (life_of life) is_opening (record_of entry.now) }
{
    match *entry {
        Entry::Received { .. } => heard_from(descriptor, life, is_opening, entry),
        Entry::Quiet { .. } => nowhere(bytes_of(entry)),
        Entry::Sent { .. } => said_from(descriptor, life, entry),
    }
}

// The moment now behind an entry, by the one before it.
fn later<'m>(before: u64, entry: &'m Entry<'m>) -> u64
    ensures { result ≡ terms.now_after before (record_of entry.now) }
{
    now_after(before, entry)
}

// The first act of the entry at a place, before which it was so late.
fn begin<'m>(
    descriptor: &Descriptor,
    life: Life,
    entries: &'m [Entry<'m>],
    place: usize,
    before: u64,
) -> Spot
    ensures place { result.place ≡ place }
    ensures acts { terms.ahead descriptor.now (life_of life) entries.now result
        ≡ terms.acts_since descriptor.now (life_of life) place before (drop place entries.now) }
{
    if place >= entries.len() {
        return Spot {
            place,
            at: 0,
            now: before,
        };
    }
    let entry = &entries[place];
    Spot {
        place,
        at: messages_from(descriptor, life, life.opening == place, entry),
        now: later(before, entry),
    }
}

/// The first act of the channel.
pub fn opening<'m>(descriptor: &Descriptor, life: Life, entries: &'m [Entry<'m>]) -> Spot
    ensures { terms.ahead descriptor.now (life_of life) entries.now result
        ≡ terms.acts_of_life descriptor.now (life_of life) entries.now }
{
    let place = life.opening;
    let before = now(&entries[..place.min(entries.len())]);
    begin(descriptor, life, entries, place, before)
}

/// The act at a spot, and the spot behind it; none at the end.
pub fn act_at<'m>(
    descriptor: &Descriptor,
    life: Life,
    entries: &'m [Entry<'m>],
    from: Spot,
) -> Option<(Act, Spot)>
    ensures acts { MatchOption result (terms.ahead descriptor.now (life_of life) entries.now from ≡ [])
        (λ x. terms.ahead descriptor.now (life_of life) entries.now from
        ≡ x.0 ∷ terms.ahead descriptor.now (life_of life) entries.now x.1) }
    ensures later { IfSome result (λ x. (terms.number from < terms.number x.1) × (terms.number x.1 < 2 ^ 128)) }
{
    let Spot { place, at, now } = from;
    if place >= entries.len() {
        return None;
    }
    let entry = &entries[place];
    let bytes = bytes_of(entry);
    match message_at(descriptor, bytes, at.min(bytes.len())) {
        Some((message, next)) => Some((
            act_of(entry, &message, now),
            Spot {
                place,
                at: next,
                now,
            },
        )),
        None => Some((
            end_of(entry, now),
            begin(descriptor, life, entries, place + 1, now),
        )),
    }
}
