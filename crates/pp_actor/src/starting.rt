// What a peer of a schedule is opened with.
ghost use Rattle.std.specs.Prelude.{◌≡◌, ◌≤◌, length, map, min};
ghost use Rattle.pp_outside.specs.Outside as outside;
ghost use Rattle.pp_world.specs.World.{address_of};
ghost use Rattle.pp_actor.specs.Starting.{IsSetFor, life_after, random_of, rank_of};

use arrayvec::ArrayVec;
use pp_avail::Rank;
use pp_outside::Address;
use pp_replay::{Order, Role};
use pp_stage::Start;

// The port of every peer.
const PORT: u16 = 7_000;

// The address of a peer.
fn address_of(peer: u8) -> Address
    ensures { outside.address_of result ≡ address_of peer }
{
    Address::V4([10, 0, 0, peer], PORT)
}

// Their addresses.
fn addresses_of(peers: &[u8]) -> ArrayVec<Address, 16>
    requires { length peers.now ≤ 15 }
    ensures are { map outside.address_of result.items ≡ map address_of peers.now }
    ensures few { length result.items ≤ 16 }
{
    let mut addresses = ArrayVec::new();
    for peer in peers {
        addresses.push(address_of(*peer));
    }
    addresses
}

/// The bytes from which the numbers of a peer's channels are drawn in a life.
pub(crate) fn random_of(peer: u8, life: u32) -> [u8; 32]
    ensures { result ≡ random_of peer life }
{
    let mut random = [0; 32];
    random[0] = peer;
    random[1..5].copy_from_slice(&life.to_be_bytes());
    random
}

/// The number of a life behind so many others, counted from 1.
pub(crate) fn life_after(lives: usize) -> u32
    ensures { result ≡ life_after lives }
{
    lives.saturating_add(1).min(u32::MAX as usize) as u32
}

// The rule that goes with an order.
fn rank_of(order: Order) -> Rank
    ensures { result ≡ rank_of order }
{
    match order {
        Order::Sequential => Rank::Sequential,
        Order::Rarest => Rank::Rarest,
    }
}

/// What a peer is opened with for its first life.
pub(crate) fn start_of(peer: u8, role: &Role) -> Start
    ensures role { IsSetFor role.now result }
    ensures few { length result.dialled.items ≤ 16 }
{
    let random = random_of(peer, 1);
    match role {
        Role::Seeds => Start {
            random,
            asks: None,
            dialled: ArrayVec::new(),
        },
        Role::Fetches { order, dialled } => Start {
            random,
            asks: Some(rank_of(*order)),
            dialled: addresses_of(dialled.as_slice()),
        },
    }
}
