//! Datagrams of notes that are sent.

ghost use Rattle.std.specs.Prelude.{◌≡◌, ◌<◌, ◌≤◌, length, take};
ghost use Rattle.std.specs.List.{AllByRecursion};
ghost use Rattle.pp_terms.specs.disk.Disk.{moment_of};
ghost use Rattle.pp_outside.specs.Outside.{address_of};
ghost use Rattle.pp_draft.specs.Notes.{IsInside};
ghost use Rattle.pp_draft.specs.Posts.{Posts, PostsBehind, Sends};

use crate::note::{Note, Reply};
use crate::packing::{Packed, pack, pack_reply};
use pp_outside::{Address, Disk, Link};
use pp_tree::Descriptor;

/// Where a datagram goes: an address, and the number of a channel at the peer there, 0 where it has none yet.
#[derive(Clone, Copy, PartialEq, Eq, Debug)]
pub struct Receiver {
    pub address: Address,
    pub channel: u32,
}

/// How many notes were in a datagram, and whether the link took it.
#[derive(Clone, Copy, PartialEq, Eq, Debug)]
pub struct Posted {
    pub count: usize,
    pub sent: bool,
}

// Sends the first bytes of a buffer, as far as it was filled.
fn send<D: Disk, L: Link>(
    packed: Packed,
    to: &Receiver,
    out: &[u8],
    disk: &D,
    link: &mut L,
) -> Posted
    requires { packed.end ≤ length out.now }
    ensures count { result.count ≡ packed.count }
    ensures sends { Sends (address_of to.now.address) (take packed.end out.now) (moment_of (D.state disk.now).history)
        (L.seen link.old) (L.seen link.new) result.sent }
{
    Posted {
        count: packed.count,
        sent: link.send(disk, &to.address, &out[..packed.end]).is_ok(),
    }
}

/// Puts the first of the notes into one datagram of at most 16,384 bytes, as many as have room, and sends it. Of a note all
/// messages go or none. The chunks of the notes are chunks of the content; where the method names chunks by bins, a range goes
/// as one message for each bin of its cover. `out` has 16,384 bytes, of which the first hold the datagram afterwards.
pub fn post<D: Disk, L: Link>(
    notes: &[Note],
    descriptor: &Descriptor,
    to: &Receiver,
    out: &mut [u8],
    disk: &D,
    link: &mut L,
) -> Posted
    requires some { 0 < length notes.now }
    requires inside { AllByRecursion (IsInside descriptor.now) notes.now }
    requires room { length out.old ≡ 16384 }
    ensures { Posts descriptor.now to.now.channel notes.now result.count
        (λ bytes. Sends (address_of to.now.address) bytes (moment_of (D.state disk.now).history) (L.seen link.old) (L.seen link.new) result.sent) }
{
    let packed = pack(notes, descriptor, to.channel, out);
    send(packed, to, out, disk, link)
}

/// Puts a handshake and the first of the notes behind it into one datagram of at most 16,384 bytes, as many as have room, and sends
/// it. How many notes went with the handshake is answered: one at least, where there are some.
pub fn post_reply<D: Disk, L: Link>(
    reply: &Reply,
    descriptor: &Descriptor,
    to: &Receiver,
    out: &mut [u8],
    disk: &D,
    link: &mut L,
) -> Posted
    requires inside { AllByRecursion (IsInside descriptor.now) reply.now.notes.now }
    requires room { length out.old ≡ 16384 }
    ensures { PostsBehind descriptor.now to.now.channel reply.now.source reply.now.notes.now result.count
        (λ bytes. Sends (address_of to.now.address) bytes (moment_of (D.state disk.now).history) (L.seen link.old) (L.seen link.new) result.sent) }
{
    let packed = pack_reply(reply, descriptor, to.channel, out);
    send(packed, to, out, disk, link)
}
