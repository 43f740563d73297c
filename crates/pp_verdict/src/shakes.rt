//! The handshakes in the traffic with which channels can open.

ghost use Rattle.std.specs.Prelude.{◌≡◌, ◌++◌, ℕ, true, MatchOption, IfOk, OnOk, option_to_list};
ghost use Rattle.pp_traffic.specs.Life as lives;
ghost use Rattle.pp_recorded.specs.Entries.{record_of};
ghost use Rattle.pp_recorded.specs.Parts.{all};
ghost use Rattle.pp_terms.specs.format.Messages as messages;
ghost use Rattle.pp_traffic.specs.Past.{is_number};
ghost use Rattle.pp_verdict.specs.Shakes.{IsShake, IsGreeting, IsReply, HasShakes};

use pp_options::Options;
use pp_outside::Address;
use pp_recorded::entry::Entry;
use pp_recorded::reading::{channel_of, first_shake};
use pp_tree::Descriptor;
use std::alloc::{AllocError, Global};

/// A record that begins with a handshake: its place, whether it was sent, the other peer's address, the channel number
/// that it is for, and the handshake's source channel.
#[derive(Clone, Copy)]
pub(crate) struct Shake {
    pub(crate) place: usize,
    pub(crate) is_sent: bool,
    pub(crate) address: Address,
    pub(crate) channel: u32,
    pub(crate) source: u32,
}

// The handshake with which a datagram begins.
fn shake_in(
    descriptor: &Descriptor,
    bytes: &[u8],
    place: usize,
    is_sent: bool,
    address: Address,
) -> Option<Shake>
    ensures { (channel source : ℕ)
        → is_number channel (messages.datagram descriptor.now.method descriptor.now.chunk bytes.now).channel ≡ true
        → lives.begins_as source (all descriptor.now bytes.now) ≡ true
        → MatchOption result ⊥ (λ shake. (shake.place ≡ place) × (shake.is_sent ≡ is_sent) × (shake.address ≡ address)
        × IsShake channel source shake) }
{
    let channel = channel_of(bytes)?;
    let (source, _) = first_shake(descriptor, bytes)?;
    Some(Shake {
        place,
        is_sent,
        address,
        channel,
        source,
    })
}

// The handshake with which the entry at a place begins.
fn shake_of<'m>(descriptor: &Descriptor, place: usize, entry: &'m Entry<'m>) -> Option<Shake>
    ensures greets { (life : lives.Life) → lives.greets descriptor.now life (record_of entry.now) ≡ true
        → MatchOption result ⊥ (λ shake. (shake.place ≡ place) × IsGreeting life shake) }
    ensures answers { (life : lives.Life) → lives.answers descriptor.now life (record_of entry.now) ≡ true
        → MatchOption result ⊥ (λ shake. (shake.place ≡ place) × IsReply life shake) }
{
    match *entry {
        Entry::Received { from, bytes, .. } => shake_in(descriptor, bytes, place, false, from),
        Entry::Sent { to, bytes, .. } => shake_in(descriptor, bytes, place, true, to),
        Entry::Quiet { .. } => None,
    }
}

// Adds a handshake, where one was found.
fn add_shake(shakes: &mut Vec<Shake>, found: Option<Shake>) -> Result<(), AllocError>
    ensures { OnOk result (shakes.new.items ≡ shakes.old.items ++ option_to_list found) }
{
    if let Some(shake) = found {
        shakes.push(shake)?;
    }
    Ok(())
}

/// All handshakes with which entries begin.
pub(crate) fn shakes_of<'m>(
    alloc: Global,
    descriptor: &Descriptor,
    entries: &'m [Entry<'m>],
) -> Result<Vec<Shake>, AllocError>
    ensures { IfOk result (λ shakes. HasShakes descriptor.now entries.now shakes.items) }
{
    let mut shakes = Vec::new(alloc);
    for (place, entry) in entries.iter().enumerate() {
        add_shake(&mut shakes, shake_of(descriptor, place, entry))?;
    }
    Ok(shakes)
}
