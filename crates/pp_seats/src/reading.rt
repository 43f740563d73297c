//! What can be read of the channels.

ghost use Rattle.std.specs.Prelude.{◌≡◌, IsSome, is_some, position};
ghost use Rattle.std.specs.List.{list_any};
ghost use Rattle.pp_terms.specs.format.Descriptor.{chunks_of};
ghost use Rattle.pp_channels.specs.Seats.{IsUsedSeat, channel_at, has_address, is_found, used_of};
ghost use Rattle.pp_lives.specs.Fars.{far_of};
ghost use Rattle.pp_seats.specs.Reading.{is_due_at, is_silent_at};
ghost use Rattle.pp_seats.specs.Standing.{AllHold};

use crate::seats::Seats;
use pp_lives::Far;
use pp_outside::Address;

impl Seats {
    /// Where a seat's datagrams go, and how far its channel has come: None where the seat is free, or the other peer's number isn't
    /// known yet.
    pub fn far(&self, seat: u8) -> Option<Far>
        ensures exact { result ≡ far_of (channel_at self.now.table seat) }
        ensures used { IsSome result → IsUsedSeat self.now.table seat }
        ensures content { AllHold (chunks_of self.now.descriptor) self.now.seats }
    {
        self.lives.far(seat)
    }

    /// Whether this peer's handshake is due on a seat's channel: the reply until it is sent, and that of a dial at once and again 3 and
    /// 6 seconds after the channel was made, until the other peer's reply comes.
    pub fn is_greeting_due(&self, seat: u8) -> bool
        ensures { result ≡ is_due_at self.now.moment (channel_at self.now.table seat) }
    {
        match self.lives.greeting(seat) {
            Some(_) => self.lives.handshake_due(seat, self.moment),
            None => false,
        }
    }

    /// Whether nothing was sent on a seat's channel for 120 seconds.
    pub fn is_silent(&self, seat: u8) -> bool
        ensures { result ≡ is_silent_at self.now.moment (channel_at self.now.table seat) }
    {
        match self.lives.greeting(seat) {
            Some(_) => self.lives.is_silent(seat, self.moment),
            None => false,
        }
    }

    /// Whether a channel has the address.
    pub fn has_address(&self, address: &Address) -> bool
        ensures { result ≡ list_any (has_address address.now) self.now.table.channels }
    {
        self.lives.has_address(address)
    }

    /// Whether a channel has that number, of this peer's, and that address.
    pub fn owns(&self, number: u32, address: &Address) -> bool
        ensures { result ≡ is_some (position (is_found number address.now) self.now.table.channels) }
    {
        self.lives.owns(number, address)
    }

    /// How many channels there are.
    pub fn used(&self) -> u8
        ensures { result ≡ used_of self.now.table }
    {
        self.lives.used()
    }

    /// The greatest moment that was handed in, in microseconds.
    pub fn moment(&self) -> u64
        ensures { result ≡ self.now.moment }
    {
        self.moment
    }
}
