//! A chunk that is delivered on a channel.

ghost use Rattle.std.specs.Prelude.{◌≡◌, length};
ghost use Rattle.pp_terms.specs.disk.Disk.{moment_of};
ghost use Rattle.pp_outside.specs.Outside.{address_of};
ghost use Rattle.pp_draft.specs.Deliveries.{CanGo, Delivers, length_of};
ghost use Rattle.pp_draft.specs.Posts.{Sends};
ghost use Rattle.pp_seat.specs.Follows.{IsNext};
ghost use Rattle.pp_desk.specs.Chunks.{IsLetGo, FollowsChunk};

use pp_draft::{ChunkReader, Delivery, Unread, post_chunk};
use pp_outside::{Disk, Link};
use pp_seat::Seat;
use pp_tree::Descriptor;

/// A chunk that is to be sent, and what reads its bytes.
#[derive(Clone, Copy)]
pub struct Service<'a, R> {
    pub delivery: Delivery<'a>,
    pub reader: &'a R,
}

// The chunk was sent, or not: it was refused, or couldn't be read.
fn follow_chunk(seat: &mut Seat, delivery: &Delivery, sent: bool)
    requires { IsNext seat.old delivery.now.chunk }
    ensures { FollowsChunk delivery.now sent seat.old seat.new }
{
    if sent {
        seat.said_data(delivery.chunk, delivery.sent_at);
    } else {
        seat.let_go(delivery.chunk);
    }
}

/// Sends the next chunk of a seat behind its hashes, in one datagram, and then the seat follows: the chunk flies if the link took
/// it, and is given up where it was refused or couldn't be read. It answers whether the link took it, or why it couldn't be read;
/// then nothing was sent.
pub fn deliver_chunk<R: ChunkReader<D>, D: Disk, L: Link>(
    seat: &mut Seat,
    service: &Service<R>,
    descriptor: &Descriptor,
    out: &mut [u8],
    disk: &mut D,
    link: &mut L,
) -> Result<bool, Unread>
    requires next { IsNext seat.old service.now.delivery.chunk }
    requires can { CanGo descriptor.now service.now.delivery }
    requires readable { R.can_read service.now.reader.now service.now.delivery.chunk (length_of descriptor.now service.now.delivery) }
    requires room { length out.old ≡ 16384 }
    ensures { Delivers descriptor.now service.now.delivery
        (λ answer bytes. R.reads service.now.reader.now service.now.delivery.chunk answer bytes (D.state disk.old) (D.state disk.new))
        ((L.seen link.new ≡ L.seen link.old) × IsLetGo service.now.delivery seat.old seat.new)
        (λ datagram sent. Sends (address_of service.now.delivery.to.address) datagram (moment_of (D.state disk.new).history) (L.seen link.old) (L.seen link.new) sent
        × FollowsChunk service.now.delivery sent seat.old seat.new)
        result }
{
    let delivery = &service.delivery;
    match post_chunk(delivery, service.reader, descriptor, out, disk, link) {
        Ok(sent) => {
            follow_chunk(seat, delivery, sent);
            Ok(sent)
        }
        Err(unread) => {
            follow_chunk(seat, delivery, false);
            Err(unread)
        }
    }
}
