// A link that carries datagrams.
ghost use Rattle.std.specs.Prelude.{◌≡◌, ◌≤◌, length};
ghost use Rattle.pp_terms.specs.format.Traffic.{LinkState};
ghost use Rattle.pp_terms.specs.disk.Disk.{moment_of};

use crate::{Disk, Mark};

/// A UDP address: the 4 bytes of an IPv4 address or the 16 of an IPv6 address, in network order, and a port.
#[derive(Clone, Copy, Debug, PartialEq, Eq)]
pub enum Address {
    V4([u8; 4], u16),
    V6([u8; 16], u16),
}

impl Address {
    ghost use Rattle.pp_terms.specs.format.Traffic.{same_address};
    ghost use Rattle.pp_outside.specs.Outside.{address_of};

    /// Whether two addresses are one: of the same family, with the same bytes and the same port.
    pub fn is_same(self, other: Address) -> bool
        ensures { result ≡ same_address (address_of self) (address_of other) }
    {
        match (self, other) {
            (Address::V4(a, p), Address::V4(b, q)) => a == b && p == q,
            (Address::V6(a, p), Address::V6(b, q)) => a == b && p == q,
            _ => false,
        }
    }
}

/// The IPv4 address of zeros with port 0, which is no peer's.
impl Default for Address {
    ghost use Rattle.std.specs.Prelude.{[], ◌∷◌};
    ghost use Rattle.pp_outside.specs.declared.link.Address.TheVariants.{V4};

    ghost is_default = { λ address. address ≡ V4 (0 ∷ 0 ∷ 0 ∷ 0 ∷ []) 0 };

    fn default() -> Address {
        Address::V4([0; 4], 0)
    }
}

/// What one wait brought: a datagram of `len` bytes, or none. `at` is the moment, in microseconds.
#[derive(Clone, Copy, Debug, PartialEq, Eq)]
pub enum Event {
    Datagram { from: Address, len: usize, at: u64 },
    Quiet { at: u64 },
}

impl Event {
    ghost use Rattle.pp_outside.specs.Outside.{record_of};
    ghost use Rattle.pp_outside.specs.Arrivals.{at_of, IsEvent};
    ghost use Rattle.pp_outside.specs.Records.{marked};

    pub(crate) fn at(&self) -> u64
        ensures { (buffer : _) → result ≡ at_of (record_of self.now buffer) }
    {
        match *self {
            Event::Datagram { at, .. } | Event::Quiet { at } => at,
        }
    }

    // Its record but for the bytes.
    pub(crate) fn mark(&self) -> Mark
        ensures { (bytes : _) → IsEvent self.now bytes → marked result bytes ≡ record_of self.now bytes }
    {
        match *self {
            Event::Datagram { from, at, .. } => Mark::Received { at, from },
            Event::Quiet { at } => Mark::Quiet { at },
        }
    }
}

/// A call of a link was refused.
#[derive(Clone, Copy, Debug, PartialEq, Eq)]
pub struct LinkFault;

/// A link that receives and sends datagrams.
pub trait Link {
    ghost use Rattle.pp_outside.specs.Outside.{DoesBind, DoesNext, DoesSend};

    /// The records of what came and went, where it tells them; how often it refused a call; how many calls of `next`
    /// have returned; and the addresses to which it was bound, where it tells them.
    ghost seen: { Self → LinkState };

    /// Begins to listen at an address.
    fn bind(&mut self, listen: &Address) -> Result<(), LinkFault>
        ensures { DoesBind (seen self.old) listen.now result (seen self.new) };

    /// Waits for a datagram, for about `limit_us` microseconds at most, and puts it at the front of the buffer,
    /// which has at least 65,536 bytes.
    fn next(&mut self, limit_us: u64, buffer: &mut [u8]) -> Result<Event, LinkFault>
        requires { 65536 ≤ length buffer.old }
        ensures { DoesNext (seen self.old) buffer.new result (seen self.new) };

    /// Sends a datagram, which is recorded with the disk's moment.
    fn send<D: Disk>(&mut self, disk: &D, to: &Address, bytes: &[u8]) -> Result<(), LinkFault>
        ensures { DoesSend (seen self.old) (moment_of (D.state disk.now).history) to.now bytes.now result (seen self.new) };
}
