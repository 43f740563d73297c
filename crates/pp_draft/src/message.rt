//! One message put behind others.

ghost use Rattle.std.specs.Prelude.{◌≡◌, ◌≤◌, ◌+◌, [], ◌∷◌, length, IfSome};
ghost use Rattle.pp_terms.specs.format.Messages as plain;
ghost use Rattle.pp_wire.specs.Views.{message_of};
ghost use Rattle.pp_wire.specs.Put.{CanPut, NamesChunks};
ghost use Rattle.pp_draft.specs.Notes.{own_options, no_options};
ghost use Rattle.pp_draft.specs.Puts.{PutsOne, Puts};

use pp_options::Options;
use pp_tree::Descriptor;
use pp_wire::{Message, put};

/// Puts a message behind the others, where it has room, and answers the place behind it.
pub(crate) fn put_message<'m>(
    message: &'m Message<'m>,
    descriptor: &Descriptor,
    out: &mut [u8],
    at: usize,
) -> Option<usize>
    requires within { at ≤ length out.old }
    requires can { CanPut descriptor.now.method (message_of message.now) }
    requires named { NamesChunks descriptor.now.method (message_of message.now) }
    ensures { PutsOne descriptor.now (message_of message.now) out.old at result out.new }
{
    match put(message, descriptor.method(), out, at) {
        Ok(end) => Some(end),
        Err(_) => None,
    }
}

/// Puts a handshake with this peer's options.
pub(crate) fn put_handshake(
    source: u32,
    descriptor: &Descriptor,
    out: &mut [u8],
    at: usize,
) -> Option<usize>
    requires { at ≤ length out.old }
    ensures puts { Puts descriptor.now (λ ms. ms ≡ plain.Handshake source (own_options descriptor.now) ∷ []) out.old at result out.new }
    ensures short { IfSome result (λ end. end ≤ at + 64) }
{
    let root = descriptor.root();
    let options = Options {
        version: Some(1),
        minimum: Some(1),
        swarm: Some(root.bytes().as_slice()),
        integrity: Some(1),
        hash: Some(2),
        addressing: Some(descriptor.method().number()),
        messages: Some(&[0xfe, 0xf8]),
        chunk: Some(descriptor.chunk()),
    };
    let message = Message::Handshake { source, options };
    put_message(&message, descriptor, out, at)
}

/// Puts a handshake that closes a channel.
pub(crate) fn put_close(descriptor: &Descriptor, out: &mut [u8], at: usize) -> Option<usize>
    requires { at ≤ length out.old }
    ensures { Puts descriptor.now (λ ms. ms ≡ plain.Handshake 0 no_options ∷ []) out.old at result out.new }
{
    let options = Options {
        version: None,
        minimum: None,
        swarm: None,
        integrity: None,
        hash: None,
        addressing: None,
        messages: None,
        chunk: None,
    };
    put_message(
        &Message::Handshake { source: 0, options },
        descriptor,
        out,
        at,
    )
}

/// Puts the IPv4 address of another peer.
pub(crate) fn put_address4(
    address: [u8; 4],
    port: u16,
    descriptor: &Descriptor,
    out: &mut [u8],
    at: usize,
) -> Option<usize>
    requires { at ≤ length out.old }
    ensures { Puts descriptor.now (λ ms. ms ≡ plain.Pex4 address port ∷ []) out.old at result out.new }
{
    put_message(&Message::Pex4 { address, port }, descriptor, out, at)
}

/// Puts the IPv6 address of another peer.
pub(crate) fn put_address6(
    address: [u8; 16],
    port: u16,
    descriptor: &Descriptor,
    out: &mut [u8],
    at: usize,
) -> Option<usize>
    requires { at ≤ length out.old }
    ensures { Puts descriptor.now (λ ms. ms ≡ plain.Pex6 address port ∷ []) out.old at result out.new }
{
    put_message(&Message::Pex6 { address, port }, descriptor, out, at)
}
