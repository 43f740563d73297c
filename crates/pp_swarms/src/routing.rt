//! Which swarm a datagram is for.

ghost use Rattle.std.specs.Prelude.{◌≡◌, ◌<◌, ◌≤◌, ◌&&◌, IfSome, length, drop, is_none, option_copied, position};
ghost use Rattle.pp_outside.specs.Outside.{FitsIn};
ghost use Rattle.pp_swarms.specs.Hubs.{is_datagram};
ghost use Rattle.pp_wire.specs.Views.{message_of};
ghost use Rattle.pp_swarms.specs.Routing.{has_root, identifier_in, named_first, owns, route_of, routed};

use pp_core::Peer;
use pp_lives::number_of;
use pp_outside::{Address, Event};
use pp_tree::Method;
use pp_wire::{Message, Step, next};

// How many bytes the number of a channel has.
const NUMBER: usize = 4;

// The swarm identifier of a handshake, its option 2 (RFC 7574, section 7.5).
fn identifier<'a>(message: &Message<'a>) -> Option<&'a [u8]>
    ensures { option_copied result ≡ identifier_in (message_of message.now) }
{
    match *message {
        Message::Handshake { options, .. } => options.swarm,
        _ => None,
    }
}

// The swarm identifier that a datagram's first message names. A handshake is read alike by each chunk addressing method and each
// chunk size.
fn named_first(bytes: &[u8]) -> Option<&[u8]>
    requires { 4 ≤ length bytes.now }
    ensures { option_copied result ≡ named_first (drop 4 bytes.now) }
{
    match next(bytes, NUMBER, Method::Range32, 1024) {
        Step::Message { message, .. } => identifier(&message),
        Step::Cut(_) | Step::End => None,
    }
}

// Whether the swarm has that root.
fn has_root(peer: &Peer, root: &[u8]) -> bool
    ensures { result ≡ has_root root.now peer.now }
{
    root == peer.descriptor().root().bytes().as_slice()
}

// The first swarm of that root.
fn by_root(peers: &[Peer], root: &[u8]) -> Option<usize>
    ensures within { IfSome result (λ s. s < length peers.now) }
    ensures way { result ≡ position (has_root root.now) peers.now }
{
    peers.iter().position(|peer| has_root(peer, root))
}

// The first swarm that has a channel of that number and that address.
fn by_channel(peers: &[Peer], number: u32, from: &Address) -> Option<usize>
    ensures within { IfSome result (λ s. s < length peers.now) }
    ensures way { result ≡ position (owns number from.now) peers.now }
{
    peers.iter().position(|peer| peer.owns(number, from))
}

/// The swarm that a datagram is for, by its number: the first that has a channel of the datagram's number and of its sender; for
/// number 0, the first whose root a handshake names that comes first in the datagram. None where there is no such swarm.
pub(crate) fn route(peers: &[Peer], from: &Address, bytes: &[u8]) -> Option<usize>
    ensures within { IfSome result (λ s. s < length peers.now) }
    ensures way { result ≡ route_of peers.now from.now bytes.now }
{
    if bytes.len() < NUMBER {
        return None;
    }
    let number = number_of(bytes);
    if number != 0 {
        return by_channel(peers, number, from);
    }
    match named_first(bytes) {
        Some(root) => by_root(peers, root),
        None => None,
    }
}

/// The swarm of what a wait came to, with the bytes at the front of the buffer: none where nothing came.
pub(crate) fn swarm_of(peers: &[Peer], event: &Event, buffer: &[u8]) -> Option<usize>
    requires { FitsIn event.now buffer.now }
    ensures { result ≡ routed peers.now event.now buffer.now }
{
    match *event {
        Event::Datagram { from, len, .. } => route(peers, &from, &buffer[..len]),
        Event::Quiet { .. } => None,
    }
}

/// Whether what a wait came to is a datagram for no swarm.
pub(crate) fn is_lost(event: &Event, to: Option<usize>) -> bool
    ensures { result ≡ (is_datagram event.now && is_none to) }
{
    match *event {
        Event::Datagram { .. } => to.is_none(),
        Event::Quiet { .. } => false,
    }
}
