// The addresses of the peers of a replay.
ghost use Rattle.std.specs.Prelude.{◌≡◌, ℕ, ◌<◌, true, false, IfSome, IfNone};
ghost use Rattle.pp_terms.specs.format.Traffic.{same_address};
ghost use Rattle.pp_outside.specs.Outside as outside;
ghost use Rattle.pp_world.specs.World.{address_of};

use pp_outside::Address;

// The port of every peer.
const PORT: u16 = 7_000;

// The address of a peer.
pub(crate) fn address_of(peer: u8) -> Address
    ensures { outside.address_of result ≡ address_of peer }
{
    Address::V4([10, 0, 0, peer], PORT)
}

// The peer that has the address, of so many peers.
pub(crate) fn peer_at(address: &Address, peers: usize) -> Option<u8>
    ensures within { IfSome result (λ peer. peer < peers) }
    ensures same { IfSome result (λ peer. same_address (outside.address_of address.now) (address_of peer) ≡ true) }
    ensures none { IfNone result ((peer : ℕ) → peer < peers → same_address (outside.address_of address.now) (address_of peer) ≡ false) }
{
    let Address::V4(bytes, _) = *address else {
        return None;
    };
    let peer = bytes[3];
    if usize::from(peer) < peers && address.is_same(address_of(peer)) {
        return Some(peer);
    }
    None
}
