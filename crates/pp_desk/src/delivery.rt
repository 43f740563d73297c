//! Notes that are delivered on a channel.

ghost use Rattle.std.specs.Prelude.{◌≡◌, ◌+◌, ◌^◌, ◌<◌, ◌≤◌, [], length};
ghost use Rattle.std.specs.List.{AllByRecursion};
ghost use Rattle.pp_terms.specs.disk.Disk.{moment_of};
ghost use Rattle.pp_terms.specs.format.Descriptor.{chunks_of};
ghost use Rattle.pp_outside.specs.Outside.{address_of};
ghost use Rattle.pp_draft.specs.Notes.{IsInside};
ghost use Rattle.pp_desk.specs.Steps.{IsPlain};
ghost use Rattle.pp_desk.specs.Delivers.{Delivers, Goes, none_delivered};

use crate::steps::{Delivered, follow, said_all};
use pp_draft::{Note, Receiver, Reply, post, post_reply};
use pp_outside::{Disk, Link};
use pp_seat::Seat;
use pp_tree::Descriptor;

/// Notes and where they go.
#[derive(Clone, Copy)]
pub struct Outgoing<'a> {
    pub to: Receiver,
    /// When they are sent, in microseconds.
    pub sent_at: u64,
    /// This peer's number for the channel, where its handshake goes before the notes.
    pub opening: Option<u32>,
    pub notes: &'a [Note],
}

// Sends all notes, whether a handshake went before them or not.
fn deliver_notes<D: Disk, L: Link>(
    seat: &mut Seat,
    outgoing: &Outgoing,
    descriptor: &Descriptor,
    out: &mut [u8],
    disk: &D,
    link: &mut L,
) -> Delivered
    requires content { seat.old.told.chunks ≡ chunks_of descriptor.now }
    requires plain { AllByRecursion IsPlain outgoing.now.notes.now }
    requires inside { AllByRecursion (IsInside descriptor.now) outgoing.now.notes.now }
    requires few { length outgoing.now.notes.now < 2 ^ 32 }
    requires room { length out.old ≡ 16384 }
    ensures delivers { Delivers
        (record { d = descriptor.now; receiver = address_of outgoing.now.to.address; channel = outgoing.now.to.channel; moment = moment_of (D.state disk.now).history; now = outgoing.now.sent_at })
        outgoing.now.notes.now []
        (record { seat = seat.old; link = L.seen link.old; so_far = none_delivered })
        (record { seat = seat.new; link = L.seen link.new; so_far = result }) }
    ensures few { result.sent + result.refused ≤ length outgoing.now.notes.now }
    ensures content { seat.new.told.chunks ≡ seat.old.told.chunks }
{
    let notes = outgoing.notes;
    let mut so_far = Delivered {
        sent: 0,
        refused: 0,
        set_back: false,
    };
    let mut from = 0;
    while from < notes.len() {
        let rest = &notes[from..];
        let posted = post(rest, descriptor, &outgoing.to, out, disk, link);
        so_far = follow(
            seat,
            &rest[..posted.count],
            outgoing.sent_at,
            posted.sent,
            so_far,
        );
        from += posted.count;
    }
    so_far
}

/// Sends this peer's handshake, where it goes, and all notes behind it on a channel in their order, in as few datagrams as they fill
/// (RFC 7574, section 3.1), and after each datagram the seat follows what was sent. A refused datagram loses its own notes alone:
/// its REQUESTs weren't asked, its CHOKE stays due, its HAVEs set the cursor back to their first chunks, and the rest is given up.
/// Where the datagram with the handshake is refused nothing goes behind it, and the cursor is set back to 0.
pub fn deliver<D: Disk, L: Link>(
    seat: &mut Seat,
    outgoing: &Outgoing,
    descriptor: &Descriptor,
    out: &mut [u8],
    disk: &D,
    link: &mut L,
) -> Delivered
    requires content { seat.old.told.chunks ≡ chunks_of descriptor.now }
    requires plain { AllByRecursion IsPlain outgoing.now.notes.now }
    requires inside { AllByRecursion (IsInside descriptor.now) outgoing.now.notes.now }
    requires few { length outgoing.now.notes.now < 2 ^ 32 }
    requires room { length out.old ≡ 16384 }
    ensures goes { Goes outgoing.now.opening
        (record { d = descriptor.now; receiver = address_of outgoing.now.to.address; channel = outgoing.now.to.channel; moment = moment_of (D.state disk.now).history; now = outgoing.now.sent_at })
        outgoing.now.notes.now
        (record { seat = seat.old; link = L.seen link.old; so_far = none_delivered })
        (record { seat = seat.new; link = L.seen link.new; so_far = result }) }
    ensures few { result.sent + result.refused ≤ length outgoing.now.notes.now + 1 }
    ensures content { seat.new.told.chunks ≡ seat.old.told.chunks }
{
    let Some(source) = outgoing.opening else {
        return deliver_notes(seat, outgoing, descriptor, out, disk, link);
    };
    let reply = Reply {
        source,
        notes: outgoing.notes,
    };
    let posted = post_reply(&reply, descriptor, &outgoing.to, out, disk, link);
    if !posted.sent {
        seat.rewind(0);
        return Delivered {
            sent: 0,
            refused: 1,
            set_back: true,
        };
    }
    said_all(
        seat,
        &outgoing.notes[..posted.count],
        outgoing.sent_at,
        false,
    );
    let behind = Outgoing {
        notes: &outgoing.notes[posted.count..],
        ..*outgoing
    };
    let delivered = deliver_notes(seat, &behind, descriptor, out, disk, link);
    Delivered {
        sent: delivered.sent + 1,
        ..delivered
    }
}
