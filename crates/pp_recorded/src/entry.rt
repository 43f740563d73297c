//! The entries of a recorded list, and channels in it.

ghost use Rattle.std.specs.Prelude.{◌≡◌};
ghost use Rattle.pp_terms.specs.format.Traffic as traffic;
ghost use Rattle.pp_traffic.specs.Past as terms;
ghost use Rattle.pp_outside.specs.Outside.{address_of};
ghost use Rattle.pp_recorded.specs.Entries.{record_of};

use pp_outside::Address;

/// What a link carried: a datagram that came, or a wait in which none came, each with the moment of the link in
/// microseconds; or a datagram that was sent, with the disk's moment then.
#[derive(Clone, Copy, Debug, PartialEq, Eq)]
pub enum Entry<'a> {
    Received {
        at: u64,
        from: Address,
        bytes: &'a [u8],
    },
    Quiet {
        at: u64,
    },
    Sent {
        moment: u64,
        to: Address,
        bytes: &'a [u8],
    },
}

/// A channel in the traffic: the peer's address, this peer's number for the channel and the peer's one, whether this peer
/// opened it, and the place of its first handshake, counted from 0 for the oldest entry (RFC 7574, section 3.1.1).
#[derive(Clone, Copy, Debug, PartialEq, Eq)]
pub struct Life {
    pub address: Address,
    pub local: u32,
    pub remote: u32,
    pub is_dialled: bool,
    pub opening: usize,
}

/// Whether it is a datagram that came from the address.
pub fn comes_from<'m>(address: Address, entry: &'m Entry<'m>) -> bool
    ensures { result ≡ terms.comes_from (address_of address) (record_of entry.now) }
{
    match *entry {
        Entry::Received { from, .. } => from.is_same(address),
        Entry::Quiet { .. } | Entry::Sent { .. } => false,
    }
}

/// Whether it is a datagram that was sent to the address.
pub fn goes_to<'m>(address: Address, entry: &'m Entry<'m>) -> bool
    ensures { result ≡ terms.goes_to (address_of address) (record_of entry.now) }
{
    match *entry {
        Entry::Sent { to, .. } => to.is_same(address),
        Entry::Quiet { .. } | Entry::Received { .. } => false,
    }
}

/// Whether a turn of the peer begins with it.
pub fn is_event<'m>(entry: &'m Entry<'m>) -> bool
    ensures { result ≡ terms.is_event (record_of entry.now) }
{
    match *entry {
        Entry::Received { .. } | Entry::Quiet { .. } => true,
        Entry::Sent { .. } => false,
    }
}

/// Its datagram, no bytes where a wait brought none.
pub fn bytes_of<'m>(entry: &'m Entry<'m>) -> &'m [u8]
    ensures { result.now ≡ terms.bytes_of (record_of entry.now) }
{
    match *entry {
        Entry::Received { bytes, .. } | Entry::Sent { bytes, .. } => bytes,
        Entry::Quiet { .. } => &[],
    }
}
