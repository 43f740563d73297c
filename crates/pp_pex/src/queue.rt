// The queue of the addresses that were suggested.
ghost use Rattle.std.specs.Prelude.{◌≡◌, ℕ, ◌++◌, [], ◌∷◌, MatchOption};
ghost use Rattle.pp_pex.specs.Exchange.{is_in, port_of, suggested};

use arrayvec::ArrayVec;
use pp_outside::Address;

/// How many addresses the queue has room for.
pub(crate) const MOST_SUGGESTED: usize = 64;

fn port_of(address: Address) -> u16
    ensures { result ≡ port_of address }
{
    match address {
        Address::V4(_, port) | Address::V6(_, port) => port,
    }
}

fn contains(queue: &[Address], address: Address) -> bool
    ensures { result ≡ is_in queue.now address }
{
    queue.iter().any(|other| other.is_same(address))
}

/// Puts an address behind the others, but one with port 0, one that is there already, and any while 64 are there.
pub(crate) fn suggest(queue: &mut ArrayVec<Address, MOST_SUGGESTED>, address: Address)
    ensures { queue.new.items ≡ suggested queue.old.items address }
{
    if port_of(address) == 0 || contains(queue, address) || queue.is_full() {
        return;
    }
    queue.push(address);
}

/// Takes out the first address.
pub(crate) fn next(queue: &mut ArrayVec<Address, MOST_SUGGESTED>) -> Option<Address>
    ensures { MatchOption result ((queue.old.items ≡ []) × (queue.new.items ≡ []))
        (λ a. queue.old.items ≡ a ∷ queue.new.items) }
{
    if queue.is_empty() {
        return None;
    }
    Some(queue.remove(0))
}
