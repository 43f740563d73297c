//! What goes out on the seats' channels.

ghost use Rattle.std.specs.Prelude.{◌≡◌, ◌<◌, ◌^◌, length, MatchOption};
ghost use Rattle.std.specs.List.{AllByRecursion};
ghost use Rattle.pp_terms.specs.disk.Disk.{moment_of};
ghost use Rattle.pp_channels.specs.Seats.{channel_at};
ghost use Rattle.pp_lives.specs.Fars.{far_of};
ghost use Rattle.pp_draft.specs.Notes.{IsInside};
ghost use Rattle.pp_desk.specs.Steps.{IsPlain};
ghost use Rattle.pp_seats.specs.Reading.{opening_of};
ghost use Rattle.pp_seats.specs.Sending.{IsMute, Speaks, opening_at};

use crate::seats::Seats;
use pp_desk::{Delivered, Outgoing, deliver};
use pp_draft::{Note, Receiver};
use pp_outside::{Disk, Link};

impl Seats {
    // This peer's number for a seat's channel, where its handshake is due there.
    fn opening(&self, seat: u8) -> Option<u32>
        ensures { result ≡ opening_of self.now.moment (channel_at self.now.table seat) }
    {
        if !self.is_greeting_due(seat) {
            return None;
        }
        let greeting = self.lives.greeting(seat)?;
        Some(greeting.source)
    }

    /// Sends all notes on a seat's channel in their order, in as few datagrams as they fill, the first of which begins with this
    /// peer's handshake where its reply is due (RFC 7574, section 3.1). A refused datagram loses its own notes alone; where it is
    /// that of the reply, nothing goes behind it. None where nothing can be said there: the seat is free, its peer's number isn't
    /// known yet, or no handshake was sent and none is due.
    pub fn speak<D: Disk, L: Link>(
        &mut self,
        seat: u8,
        notes: &[Note],
        disk: &D,
        link: &mut L,
    ) -> Option<Delivered>
        requires seat { seat < 64 }
        requires plain { AllByRecursion IsPlain notes.now }
        requires inside { AllByRecursion (IsInside self.old.descriptor) notes.now }
        requires few { length notes.now < 2 ^ 32 }
        ensures { MatchOption result
            (IsMute (opening_at self.old seat) (far_of (channel_at self.old.table seat)) × (self.new ≡ self.old) × (L.seen link.new ≡ L.seen link.old))
            (λ delivered. Speaks seat notes.now (moment_of (D.state disk.now).history) delivered self.old self.new (L.seen link.old) (L.seen link.new)) }
    {
        let far = self.lives.far(seat)?;
        let opening = self.opening(seat);
        if opening.is_none() && !far.begun {
            return None;
        }
        let outgoing = Outgoing {
            to: Receiver {
                address: far.address,
                channel: far.number,
            },
            sent_at: self.moment,
            opening,
            notes,
        };
        let delivered = deliver(
            &mut self.seats[seat as usize],
            &outgoing,
            &self.descriptor,
            &mut self.out,
            disk,
            link,
        );
        if delivered.sent > 0 {
            self.lives.sent(seat, opening.is_some(), self.moment);
        }
        Some(delivered)
    }
}
