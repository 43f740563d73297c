//! What a datagram begins with, and what it means.

ghost use Rattle.std.specs.Prelude.{◌≡◌, ◌≤◌, length};
ghost use Rattle.pp_traffic.specs.Life.{fits};
ghost use Rattle.pp_options.specs.Views.{options_of};
ghost use Rattle.pp_lives.specs.Arriving.{Starts, is_in_options};
ghost use Rattle.pp_wire.specs.Views.{kind_of};

use pp_channels::check;
use pp_options::Options;
use pp_tree::Descriptor;
use pp_wire::{Message, Step, WireKind, next};

/// What a datagram means for the channels: the seat that it is for, and from which byte its messages are read.
#[derive(Clone, Copy, Debug, PartialEq, Eq)]
pub enum Arrival {
    /// The datagram has fewer than four bytes.
    Short,
    /// For channel 0, and it doesn't begin with a handshake.
    NoGreeting,
    /// For channel 0, and it begins with a handshake whose options have a fault or don't fit the swarm, or whose source is 0.
    Unwelcome,
    /// The handshake of a channel came again, and its reply is due again.
    Again { seat: u8 },
    /// The handshake of a proven channel came again, and nothing is done.
    Late { seat: u8 },
    /// A handshake that fits, and all seats are in use.
    Unseated,
    /// A channel was opened. The messages behind the handshake are read, from byte `next` on.
    Opened { seat: u8, next: usize },
    /// No channel has that number and address.
    NoChannel,
    /// The channel awaits its reply, and the datagram doesn't begin with a handshake.
    NoReply { seat: u8 },
    /// The channel awaits its reply, and the options of the handshake have a fault.
    Cut { seat: u8 },
    /// The reply's options don't fit the swarm: the channel was dropped.
    Differs { seat: u8 },
    /// The reply closes, or its number is or may have been that of another channel of the address: the channel was dropped.
    Given { seat: u8 },
    /// The reply came, and the channel is proven. All messages are read, from byte 4 on.
    Replied { seat: u8 },
    /// A datagram came on a channel, which is proven. All messages are read, from byte 4 on.
    Heard { seat: u8 },
}

/// What a datagram begins with, behind the channel's number.
#[derive(Clone, Copy)]
pub enum First<'a> {
    /// A handshake; the messages behind it begin at byte `next`.
    Handshake {
        source: u32,
        options: Options<'a>,
        next: usize,
    },
    /// A handshake whose options have a fault.
    Faulty,
    /// Another message, or none.
    Other,
}

// Whether a fault is one of a handshake's options.
fn is_in_options(kind: WireKind) -> bool
    ensures { result ≡ is_in_options (kind_of kind) }
{
    match kind {
        WireKind::Options(_) => true,
        WireKind::Short | WireKind::UnknownType(_) | WireKind::Range | WireKind::Wide => false,
    }
}

/// The first message of a datagram, behind the channel's number.
pub fn begin<'a>(descriptor: &Descriptor, bytes: &'a [u8]) -> First<'a>
    requires { 4 ≤ length bytes.now }
    ensures { Starts descriptor.now bytes.now result }
{
    match next(bytes, 4, descriptor.method(), descriptor.chunk()) {
        Step::Message { message, next } => match message {
            Message::Handshake { source, options } => First::Handshake {
                source,
                options,
                next,
            },
            _ => First::Other,
        },
        Step::Cut(fault) => {
            if is_in_options(fault.kind) {
                First::Faulty
            } else {
                First::Other
            }
        }
        Step::End => First::Other,
    }
}

/// Whether the options of a handshake fit the swarm.
pub(crate) fn fits(options: &Options, descriptor: &Descriptor, reply: bool) -> bool
    ensures { result ≡ fits descriptor.now reply (options_of options.now) }
{
    check(options, descriptor, reply).is_ok()
}
