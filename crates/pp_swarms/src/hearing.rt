//! What each swarm takes of what came.

ghost use Rattle.std.specs.Prelude.{◌≡◌, ◌≤◌, length, map};
ghost use Rattle.pp_outside.specs.Outside.{FitsIn};
ghost use Rattle.pp_swarms.specs.Sharing.{at_of, event_for, fleet, swarm, HearsEach, HearsIf, RefusesIf, RefusesAll};

use pp_core::Peer;
use pp_outside::{Disk, Event};
use pp_turns::hear;

// The moment of a wait's end, in microseconds.
fn at(event: &Event) -> u64
    ensures { result ≡ at_of event.now }
{
    match *event {
        Event::Datagram { at, .. } | Event::Quiet { at } => at,
    }
}

// What a wait is to a swarm.
fn event_for(to: Option<usize>, swarm: usize, event: &Event) -> Event
    ensures { result ≡ event_for to swarm event.now }
{
    if to == Some(swarm) {
        *event
    } else {
        Event::Quiet { at: at(event) }
    }
}

// A swarm that goes on takes what a wait came to. Whether its disk refused something is seen by the peer.
fn hear_one<D: Disk>(peer: &mut Peer, event: Event, buffer: &[u8], disk: &mut D)
    requires room { length buffer.now ≡ 65536 }
    requires fits { FitsIn event buffer.now }
    ensures { HearsIf event buffer.now (swarm peer.old (D.state disk.old)) (swarm peer.new (D.state disk.new)) }
{
    if peer.is_live() {
        let _ = hear(peer, Ok(event), buffer, disk);
    }
}

/// Each swarm takes its part of what came: the one that it is for the event, and every other one that nothing came until then.
pub(crate) fn hear_all<D: Disk>(
    peers: &mut [Peer],
    to: Option<usize>,
    event: &Event,
    buffer: &[u8],
    disks: &mut [D],
)
    requires room { length buffer.now ≡ 65536 }
    requires fits { FitsIn event.now buffer.now }
    requires disks { length peers.old ≤ length disks.old }
    ensures { HearsEach to event.now buffer.now (fleet peers.old (map D.state disks.old)) (fleet peers.new (map D.state disks.new)) }
{
    for (number, peer) in peers.iter_mut().enumerate() {
        let came = event_for(to, number, event);
        hear_one(peer, came, buffer, &mut disks[number]);
    }
}

// A swarm that goes on counts a wait that the link refused.
fn refuse_one(peer: &mut Peer)
    ensures { RefusesIf peer.old peer.new }
{
    if peer.is_live() {
        peer.refused();
    }
}

/// Each swarm that goes on counts a wait that the link refused.
pub(crate) fn refuse_all(peers: &mut [Peer])
    ensures { RefusesAll peers.old peers.new }
{
    for peer in peers.iter_mut() {
        refuse_one(peer);
    }
}
