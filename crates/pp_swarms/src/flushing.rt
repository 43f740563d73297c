//! What each swarm sends.

ghost use Rattle.std.specs.Prelude.{◌≡◌, ◌≤◌, length, map};
ghost use Rattle.pp_swarms.specs.Sharing.{fleet, swarm, SendsOne, SendsAll};

use pp_core::Peer;
use pp_outside::{Disk, Link};
use pp_turns::finish_turn;

// A swarm that goes on sends what is due, which ends its turn.
fn flush_one<D: Disk, L: Link>(peer: &mut Peer, disk: &mut D, link: &mut L)
    ensures { SendsOne (swarm peer.old (D.state disk.old)) (swarm peer.new (D.state disk.new)) (L.seen link.old) (L.seen link.new) }
{
    if peer.is_live() {
        finish_turn(peer, disk, link);
    }
}

/// Each swarm that goes on sends what is due, by rising swarm.
pub(crate) fn flush_all<D: Disk, L: Link>(peers: &mut [Peer], disks: &mut [D], link: &mut L)
    requires disks { length peers.old ≤ length disks.old }
    ensures { SendsAll (fleet peers.old (map D.state disks.old)) (fleet peers.new (map D.state disks.new)) (L.seen link.old) (L.seen link.new) }
{
    for (number, peer) in peers.iter_mut().enumerate() {
        flush_one(peer, &mut disks[number], link);
    }
}
