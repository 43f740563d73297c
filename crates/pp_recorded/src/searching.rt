//! The search for a channel on which a chunk answers the peer.

ghost use Rattle.std.specs.Prelude.{◌≡◌, ◌↔◌, ◌||◌, IsTrue, Some, take, length, true, false};
ghost use Rattle.pp_traffic.specs.Meter.{lets_send};
ghost use Rattle.pp_traffic.specs.Serving.{AnswersPeer};
ghost use Rattle.pp_promises.specs.Datagrams.{PlansPeer};
ghost use Rattle.pp_outside.specs.Outside.{address_of};
ghost use Rattle.pp_recorded.specs.Entries.{past, life_of, record_of};
ghost use Rattle.pp_recorded.specs.Parts.{all};
ghost use Rattle.pp_recorded.specs.Search as terms;

use crate::asking::{is_asked, is_choked, is_heard};
use crate::entry::{Entry, Life, bytes_of, goes_to};
use crate::hashes::is_planned;
use crate::lives::is_life;
use crate::path::completes;
use crate::reading::first_shake;
use crate::windows::lets_send;
use pp_outside::Address;
use pp_tree::Descriptor;

/// A chunk behind the first messages of a datagram, so many, and whether the hashes among them are to be exactly those of its
/// plan.
#[derive(Clone, Copy)]
pub struct Reply<'a> {
    pub bytes: &'a [u8],
    pub count: usize,
    pub chunk: u32,
    pub is_planned: bool,
}

// Whether a chunk, behind the first messages of a datagram, so many, answers the peer on the channel.
fn answers_on<'m>(
    descriptor: &Descriptor,
    life: Life,
    entries: &'m [Entry<'m>],
    bytes: &[u8],
    count: usize,
    chunk: u32,
) -> bool
    ensures { result ≡ terms.answers_on descriptor.now (lets_send descriptor.now.chunk) (past entries.now) chunk
        (take count (all descriptor.now bytes.now)) (life_of life) }
{
    is_life(descriptor, life, entries)
        && is_asked(descriptor, life, entries, u64::from(chunk))
        && !is_choked(descriptor, life, entries)
        && is_heard(descriptor, life, entries)
        && completes(descriptor, life, entries, bytes, count, chunk)
        && lets_send(descriptor, life, entries)
}

// And, where that is asked, behind the hashes of its plan.
fn replies_on<'r, 'm>(
    descriptor: &Descriptor,
    life: Life,
    entries: &'m [Entry<'m>],
    reply: Reply<'r>,
) -> bool
    ensures { result ≡ terms.replies_on descriptor.now (past entries.now) reply.entry (life_of life) }
{
    let Reply {
        bytes,
        count,
        chunk,
        ..
    } = reply;
    if reply.is_planned {
        answers_on(descriptor, life, entries, bytes, count, chunk)
            && is_planned(descriptor, life, entries, bytes, count, chunk)
    } else {
        answers_on(descriptor, life, entries, bytes, count, chunk)
    }
}

// Or on a channel that opens there, of either kind.
fn opens_at<'r, 'm>(
    descriptor: &Descriptor,
    life: Life,
    entries: &'m [Entry<'m>],
    reply: Reply<'r>,
) -> bool
    ensures { result ≡ (terms.replies_on descriptor.now (past entries.now) reply.entry (terms.life_at (address_of life.address) life.remote life.local false life.opening)
        || terms.replies_on descriptor.now (past entries.now) reply.entry (terms.life_at (address_of life.address) life.remote life.local true life.opening)) }
{
    let answered = Life {
        is_dialled: false,
        ..life
    };
    let dialled = Life {
        is_dialled: true,
        ..life
    };
    replies_on(descriptor, answered, entries, reply)
        || replies_on(descriptor, dialled, entries, reply)
}

// Or on one that opens anywhere.
fn some_opening<'r, 'm>(
    descriptor: &Descriptor,
    life: Life,
    entries: &'m [Entry<'m>],
    reply: Reply<'r>,
) -> bool
    ensures { result ≡ terms.some_opening (terms.replies_on descriptor.now (past entries.now) reply.entry)
        (address_of life.address) life.remote (length entries.now) life.local }
{
    let mut found = false;
    for opening in 0..entries.len() {
        let life = Life { opening, ..life };
        found = opens_at(descriptor, life, entries, reply) | found;
    }
    found
}

// Or on one with that source, where the entry is this peer's first handshake to the address.
fn is_source<'r, 'm>(
    descriptor: &Descriptor,
    life: Life,
    entries: &'m [Entry<'m>],
    reply: Reply<'r>,
    entry: &'m Entry<'m>,
) -> bool
    ensures { result ≡ terms.is_source (terms.some_opening (terms.replies_on descriptor.now (past entries.now) reply.entry)
        (address_of life.address) life.remote (length entries.now)) descriptor.now (address_of life.address) (record_of entry.now) }
{
    if !goes_to(life.address, entry) {
        return false;
    }
    match first_shake(descriptor, bytes_of(entry)) {
        Some((local, _)) => {
            let life = Life { local, ..life };
            some_opening(descriptor, life, entries, reply)
        }
        None => false,
    }
}

// Or on any between these two numbers.
fn some_life<'r, 'm>(
    descriptor: &Descriptor,
    life: Life,
    entries: &'m [Entry<'m>],
    reply: Reply<'r>,
) -> bool
    ensures { result ≡ terms.some_life (terms.replies_on descriptor.now (past entries.now) reply.entry) descriptor.now
        (address_of life.address) life.remote (past entries.now) }
{
    let mut found = false;
    for entry in entries {
        found = is_source(descriptor, life, entries, reply, entry) | found;
    }
    found
}

// Or on any from the address and the number.
fn some_channel<'r, 'm>(
    descriptor: &Descriptor,
    entries: &'m [Entry<'m>],
    to: Address,
    remote: u32,
    reply: Reply<'r>,
) -> bool
    ensures { result ≡ terms.some_life (terms.replies_on descriptor.now (past entries.now) reply.entry) descriptor.now
        (address_of to) remote (past entries.now) }
{
    let life = Life {
        address: to,
        local: 0,
        remote,
        is_dialled: false,
        opening: 0,
    };
    some_life(descriptor, life, entries, reply)
}

/// Whether a chunk that is sent to an address and a channel number, behind the first messages of a datagram, so many,
/// answers the peer on some channel (RFC 7574, sections 3.5 to 3.9, 5.3 and 8.16).
pub fn answers_peer<'m>(
    descriptor: &Descriptor,
    entries: &'m [Entry<'m>],
    to: Address,
    remote: u32,
    bytes: &[u8],
    count: usize,
    chunk: u32,
) -> bool
    ensures { IsTrue result ↔ AnswersPeer descriptor.now (lets_send descriptor.now.chunk) (past entries.now) (address_of to) (Some remote) chunk
        (take count (all descriptor.now bytes.now)) }
{
    let reply = Reply {
        bytes,
        count,
        chunk,
        is_planned: false,
    };
    some_channel(descriptor, entries, to, remote, reply)
}

/// Whether it does so on one where the hashes among these messages are exactly those of its plan.
pub fn plans_peer<'m>(
    descriptor: &Descriptor,
    entries: &'m [Entry<'m>],
    to: Address,
    remote: u32,
    bytes: &[u8],
    count: usize,
    chunk: u32,
) -> bool
    ensures { IsTrue result ↔ PlansPeer descriptor.now (lets_send descriptor.now.chunk) (past entries.now) (address_of to) (Some remote) chunk
        (take count (all descriptor.now bytes.now)) }
{
    let reply = Reply {
        bytes,
        count,
        chunk,
        is_planned: true,
    };
    some_channel(descriptor, entries, to, remote, reply)
}
