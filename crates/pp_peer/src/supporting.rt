//! Which messages of peer exchange another peer takes (RFC 7574, section 7.10).

ghost use Rattle.std.specs.Prelude.{◌≡◌, ◌<◌, ◌/◌, ◌%◌, ◌==◌, slice_index};
ghost use Rattle.pp_lives.specs.Arriving.{contents};
ghost use Rattle.pp_options.specs.Views.{options_of};
ghost use Rattle.pp_peer.specs.Supporting.{by_bitmap, by_option, supported_by};

use pp_options::Options;
use pp_tree::Descriptor;
use pp_wire::{Message, Step, next};

/// Which messages of peer exchange another peer takes.
#[derive(Clone, Copy, Debug, PartialEq, Eq)]
pub struct Supports {
    /// PEX_REQ, which asks for addresses.
    pub requests: bool,
    /// PEX_RESv6, which tells an IPv6 address.
    pub v6: bool,
}

impl Supports {
    /// All of them, as of a peer that tells nothing.
    pub const ALL: Supports = Supports {
        requests: true,
        v6: true,
    };
}

fn byte_at(bytes: &[u8], i: usize) -> u8
    ensures { result ≡ slice_index bytes.now i }
{
    if i < bytes.len() { bytes[i] } else { 0 }
}

// Whether a byte has the bit of a weight.
fn has_bit(byte: u8, weight: u8) -> bool
    requires { 0 < weight }
    ensures { result ≡ (byte / weight % 2 == 1) }
{
    byte / weight % 2 == 1
}

fn by_bitmap(bitmap: &[u8]) -> Supports
    ensures { result ≡ by_bitmap bitmap.now }
{
    Supports {
        requests: has_bit(byte_at(bitmap, 0), 2),
        v6: has_bit(byte_at(bitmap, 1), 8),
    }
}

fn by_options(options: &Options) -> Supports
    ensures { result ≡ by_option (options_of options.now).messages }
{
    match options.messages {
        Some(bitmap) => by_bitmap(bitmap),
        None => Supports::ALL,
    }
}

/// Which messages of peer exchange the sender of a datagram takes, by the supported messages (option 8) of the
/// handshake that the datagram begins with, behind its channel's number. All of them where that handshake has no such
/// option, or the datagram begins with no handshake that can be read.
pub fn supported(bytes: &[u8], descriptor: &Descriptor) -> Supports
    ensures { result ≡ supported_by (contents descriptor.now bytes.now).read }
{
    if bytes.len() < 4 {
        return Supports::ALL;
    }
    match next(bytes, 4, descriptor.method(), descriptor.chunk()) {
        Step::Message { message, .. } => match message {
            Message::Handshake { options, .. } => by_options(&options),
            _ => Supports::ALL,
        },
        _ => Supports::ALL,
    }
}
