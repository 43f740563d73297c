//! How many times a peer has asked, and whether its channel may be served.

ghost use Rattle.std.specs.Prelude.{◌≡◌, ◌==◌, ◌≤◌, nat_le, length, count_by};
ghost use Rattle.pp_traffic.specs.Asking as asking;
ghost use Rattle.pp_traffic.specs.Story.{story};
ghost use Rattle.pp_wire.specs.Views.{message_of};
ghost use Rattle.pp_recorded.specs.Entries.{past, life_of, record_of};
ghost use Rattle.pp_recorded.specs.Parts.{rest};
ghost use Rattle.pp_audit.specs.Asks as terms;

use pp_options::Options;
use pp_recorded::asking::{is_choked, is_heard};
use pp_recorded::entry::{Entry, Life, bytes_of};
use pp_recorded::reading::message_at;
use pp_recorded::standing::heard_from;
use pp_recorded::windows::lets_send;
use pp_tree::Descriptor;
use pp_wire::{Message, Span};

// How many REQUEST and CANCEL messages of a peer there is room for.
const MOST_ASKS: u64 = 64;

fn asks<'m>(message: &'m Message<'m>) -> bool
    ensures { result ≡ asking.asks (message_of message.now) }
{
    match *message {
        Message::Request { .. } => true,
        Message::Cancel { .. } => true,
        _ => false,
    }
}

// How many messages are, from a place of a datagram on.
fn asks_from(descriptor: &Descriptor, bytes: &[u8], start: usize) -> usize
    requires { start ≤ length bytes.now }
    ensures { result ≡ count_by asking.asks (rest descriptor.now bytes.now start) }
{
    let mut count = 0;
    let mut at = start;
    'messages: while let Some((message, next)) = message_at(descriptor, bytes, at) {
        if asks(&message) {
            count += 1;
        }
        at = next;
    }
    count
}

// How many the entry at a place brought on the channel.
fn asks_in<'m>(descriptor: &Descriptor, life: Life, place: usize, entry: &'m Entry<'m>) -> usize
    ensures { result ≡ terms.asks_by descriptor.now (life_of life) (life.opening == place) (record_of entry.now) }
{
    match *entry {
        Entry::Received { bytes, .. } => {
            let start = heard_from(descriptor, life, life.opening == place, entry);
            asks_from(descriptor, bytes, start)
        }
        Entry::Quiet { .. } | Entry::Sent { .. } => 0,
    }
}

// And whether that is of the channel.
fn asks_at<'m>(descriptor: &Descriptor, life: Life, place: usize, entry: &'m Entry<'m>) -> usize
    ensures { result ≡ terms.asks_at descriptor.now (life_of life) place (record_of entry.now) }
{
    if life.opening <= place {
        asks_in(descriptor, life, place, entry)
    } else {
        0
    }
}

// Whether at most 64 came on the channel.
fn asks_few<'m>(descriptor: &Descriptor, life: Life, entries: &'m [Entry<'m>]) -> bool
    ensures { result ≡ nat_le (asking.asks_in (story descriptor.now (life_of life) (past entries.now))) asking.most_asks }
{
    let mut count = 0u64;
    for (place, entry) in entries.iter().enumerate() {
        count = count.saturating_add(asks_at(descriptor, life, place, entry) as u64);
    }
    count <= MOST_ASKS
}

/// Whether the channel may be served, where it is plain: its peer isn't choked, has written to this peer's number and asked
/// at most 64 times, and the window has room (RFC 7574, sections 3.7 to 3.9 and 8.16).
pub(crate) fn may_be_served<'m>(
    descriptor: &Descriptor,
    life: Life,
    entries: &'m [Entry<'m>],
) -> bool
    ensures { result ≡ terms.may_be_served descriptor.now (past entries.now) (life_of life) }
{
    !is_choked(descriptor, life, entries)
        && is_heard(descriptor, life, entries)
        && asks_few(descriptor, life, entries)
        && lets_send(descriptor, life, entries)
}
