//! Handshakes that go alone in their datagram (RFC 7574, sections 3.1 and 8.4).

ghost use Rattle.std.specs.Prelude.{◌≡◌, length};
ghost use Rattle.pp_terms.specs.disk.Disk.{moment_of};
ghost use Rattle.pp_terms.specs.format.Messages.{Handshake};
ghost use Rattle.pp_outside.specs.Outside.{address_of};
ghost use Rattle.pp_draft.specs.Notes.{own_options, no_options};
ghost use Rattle.pp_draft.specs.Posts.{Sends};
ghost use Rattle.pp_desk.specs.Chunks.{PostsOne};

use pp_draft::{Note, Receiver, post};
use pp_outside::{Disk, Link};
use pp_tree::Descriptor;

/// Sends a handshake with this peer's options from its channel `source`: of a dial to channel 0, of a reply to the other peer's
/// channel. Answers whether the link took it; where it didn't, the handshake stays due. A seat stays as it is.
pub fn greet<D: Disk, L: Link>(
    source: u32,
    descriptor: &Descriptor,
    to: &Receiver,
    out: &mut [u8],
    disk: &D,
    link: &mut L,
) -> bool
    requires { length out.old ≡ 16384 }
    ensures { PostsOne descriptor.now to.now.channel (Handshake source (own_options descriptor.now))
        (λ bytes. Sends (address_of to.now.address) bytes (moment_of (D.state disk.now).history) (L.seen link.old) (L.seen link.new) result) }
{
    let notes = [Note::Handshake { source }];
    post(&notes, descriptor, to, out, disk, link).sent
}

/// Sends a handshake from channel 0, which closes the other peer's channel (RFC 7574, section 8.4). Answers whether the link took
/// it.
pub fn close<D: Disk, L: Link>(
    descriptor: &Descriptor,
    to: &Receiver,
    out: &mut [u8],
    disk: &D,
    link: &mut L,
) -> bool
    requires { length out.old ≡ 16384 }
    ensures { PostsOne descriptor.now to.now.channel (Handshake 0 no_options)
        (λ bytes. Sends (address_of to.now.address) bytes (moment_of (D.state disk.now).history) (L.seen link.old) (L.seen link.new) result) }
{
    post(&[Note::Close], descriptor, to, out, disk, link).sent
}
