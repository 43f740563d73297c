//! Several swarms on one socket.

ghost use Rattle.std.specs.Prelude.{◌≡◌, ◌<◌, ◌≤◌, length, map, slice_get, Some, IfOk, option_map};
ghost use Rattle.std.specs.List.{list_any};
ghost use Rattle.pp_outside.specs.Outside.{FitsIn};

use crate::closing::close_all;
use crate::flushing::flush_all;
use crate::hearing::{hear_all, refuse_all};
use crate::routing::{is_lost, route, swarm_of};
use pp_core::Peer;
use pp_outside::{Address, Disk, Event, Link};
use std::alloc::{AllocError, AllocFailed, Global};
use std::marker::Model;

// How many swarms there can be.
const SWARMS: usize = 16;

/// Peers of up to 16 swarms on one socket, numbered from 0 in the order in which they joined. Only `Hub::new` takes memory.
///
/// Each swarm takes its turns as if it were alone: of what comes it takes what is for it, and for all else it waited in vain. A swarm
/// whose disk refuses a write or a sync stops; from then on it sends nothing, and what comes for it is dropped.
#[derive(Drop)]
pub struct Hub {
    peers: Vec<Peer>,
    unrouted: u64,
}

impl Model for Hub {
    ghost use Rattle.std.specs.Prelude.{◌≤◌, length};
    ghost use Rattle.std.specs.Vec.{vec_capacity};
    ghost use Rattle.pp_swarms.specs.Hubs.{HubState};

    ghost Value = { HubState };

    ghost view = { λ h. record { peers = h.peers.items; unrouted = h.unrouted } };

    ghost invariant = { λ h. (length h.peers.items ≤ 16) × (16 ≤ vec_capacity h.peers) };
}

impl Hub {
    ghost use Rattle.pp_swarms.specs.Hubs.{HubState, empty_hub, Joins, count_unrouted};
    ghost use Rattle.pp_swarms.specs.Routing.{route_of};
    ghost use Rattle.pp_swarms.specs.Sharing.{fleet, is_live, HearsAll, RefusesAll, SendsAll, ClosesAll};

    /// No swarm yet. The room for 16 peers is taken; the error comes where memory is missing.
    pub fn new(alloc: Global) -> Result<Hub, AllocError>
        ensures { IfOk result (λ h. h ≡ empty_hub) }
    {
        Ok(Hub {
            peers: Vec::with_capacity(alloc, SWARMS)?,
            unrouted: 0,
        })
    }

    /// Takes in a peer, and answers its number. The peer is given back exactly where 16 are there. Its root is to be another than those
    /// of the peers before it: of two swarms with one root the later one gets no handshake.
    pub fn join(&mut self, peer: Peer) -> Result<u8, Peer>
        ensures { Joins peer self.old self.new result }
    {
        let number = self.peers.len();
        if number >= SWARMS {
            return Err(peer);
        }
        match self.peers.push(peer) {
            Ok(()) => Ok(number as u8),
            // There is room for 16.
            Err(AllocFailed { value }) => Err(value),
        }
    }

    /// The swarm that a datagram is for: by its number, the first that has a channel of that number and the sender's address; for number
    /// 0, the first whose root is the swarm identifier of a handshake that comes first (RFC 7574, section 7.5). None where there is none.
    pub fn route(&self, from: &Address, bytes: &[u8]) -> Option<u8>
        ensures { result ≡ route_of self.now.peers from.now bytes.now }
    {
        let swarm = route(self.peers.as_slice(), from, bytes)?;
        Some(swarm as u8)
    }

    /// Takes what a wait came to, with the bytes of a datagram at the front of the buffer, which has 65,536 bytes. The swarm that it is for
    /// takes it, and every other one that nothing came until then; a datagram for none of them is counted. Item s of the disks is that of
    /// swarm s. Nothing is sent.
    pub fn absorb<D: Disk>(&mut self, event: &Event, buffer: &[u8], disks: &mut [D])
        requires room { length buffer.now ≡ 65536 }
        requires fits { FitsIn event.now buffer.now }
        requires disks { length self.old.peers ≤ length disks.old }
        ensures hears { HearsAll event.now buffer.now (fleet self.old.peers (map D.state disks.old)) (fleet self.new.peers (map D.state disks.new)) }
        ensures unrouted { self.new.unrouted ≡ count_unrouted self.old.peers event.now buffer.now self.old.unrouted }
    {
        let to = swarm_of(self.peers.as_slice(), event, buffer);
        if is_lost(event, to) {
            self.unrouted = self.unrouted.saturating_add(1);
        }
        hear_all(self.peers.as_mut_slice(), to, event, buffer, disks);
    }

    /// Counts a wait that the link refused, for each swarm that goes on.
    pub fn refused(&mut self)
        ensures refuses { RefusesAll self.old.peers self.new.peers }
        ensures unrouted { self.new.unrouted ≡ self.old.unrouted }
    {
        refuse_all(self.peers.as_mut_slice());
    }

    /// Each swarm that goes on sends what is due, by rising swarm, which ends its turn. Item s of the disks is that of swarm s.
    pub fn flush<D: Disk, L: Link>(&mut self, disks: &mut [D], link: &mut L)
        requires disks { length self.old.peers ≤ length disks.old }
        ensures sends { SendsAll (fleet self.old.peers (map D.state disks.old)) (fleet self.new.peers (map D.state disks.new))
            (L.seen link.old) (L.seen link.new) }
        ensures unrouted { self.new.unrouted ≡ self.old.unrouted }
    {
        flush_all(self.peers.as_mut_slice(), disks, link);
    }

    /// Each swarm that goes on closes its channels, by rising swarm (RFC 7574, section 8.4). Item s of the disks is that of swarm s.
    pub fn close<D: Disk, L: Link>(&mut self, disks: &[D], link: &mut L)
        requires disks { length self.old.peers ≤ length disks.now }
        ensures closes { ClosesAll (fleet self.old.peers (map D.state disks.now)) (fleet self.new.peers (map D.state disks.now))
            (L.seen link.old) (L.seen link.new) }
        ensures unrouted { self.new.unrouted ≡ self.old.unrouted }
    {
        close_all(self.peers.as_mut_slice(), disks, link);
    }

    /// The peer of a swarm.
    pub fn peer(&self, swarm: u8) -> &Peer
        requires { swarm < length self.now.peers }
        ensures { slice_get self.now.peers swarm ≡ Some result.now }
    {
        &self.peers[usize::from(swarm)]
    }

    /// Whether some swarm goes on: its disk has refused no write and no sync.
    pub fn goes_on(&self) -> bool
        ensures { result ≡ list_any is_live self.now.peers }
    {
        self.peers.iter().any(|peer| peer.is_live())
    }

    /// How many swarms there are, at most 16.
    pub fn swarms(&self) -> u8
        ensures { result ≡ length self.now.peers }
    {
        self.peers.len() as u8
    }

    /// How many datagrams came that were for no swarm.
    pub fn unrouted(&self) -> u64
        ensures { result ≡ self.now.unrouted }
    {
        self.unrouted
    }

    /// The peers, in the order in which they joined; the hub ends.
    pub fn into_peers(self) -> Vec<Peer>
        ensures { result.items ≡ self.peers }
    {
        self.peers
    }
}
