//! How each swarm ends.

ghost use Rattle.std.specs.Prelude.{◌≡◌, ◌≤◌, length, map};
ghost use Rattle.pp_swarms.specs.Sharing.{fleet, swarm, ClosesOne, ClosesAll};

use pp_core::Peer;
use pp_outside::{Disk, Link};

// A swarm that goes on closes its channels.
fn close_one<D: Disk, L: Link>(peer: &mut Peer, disk: &D, link: &mut L)
    ensures { ClosesOne (swarm peer.old (D.state disk.now)) (swarm peer.new (D.state disk.now)) (L.seen link.old) (L.seen link.new) }
{
    if peer.is_live() {
        peer.close(disk, link);
    }
}

/// Each swarm that goes on closes its channels, by rising swarm.
pub(crate) fn close_all<D: Disk, L: Link>(peers: &mut [Peer], disks: &[D], link: &mut L)
    requires disks { length peers.old ≤ length disks.now }
    ensures { ClosesAll (fleet peers.old (map D.state disks.now)) (fleet peers.new (map D.state disks.now)) (L.seen link.old) (L.seen link.new) }
{
    for (number, peer) in peers.iter_mut().enumerate() {
        close_one(peer, &disks[number], link);
    }
}
