//! What becomes of one seat with no message.

ghost use Rattle.std.specs.Prelude.{◌≡◌, ◌<◌, None, Some, slice_get, MatchOption};
ghost use Rattle.pp_channels.specs.Seats.{channel_at};
ghost use Rattle.pp_seats.specs.Turning.{Rewinds, GivesUpRequest, HasNoneExpired, GivesUpLost, HasNoneLost, ForgetsRequests, Turns};

use crate::seats::Seats;
use pp_seat::Seat;

impl Seats {
    /// What is kept of the messages of a seat's channel.
    pub fn seat(&self, seat: u8) -> &Seat
        requires { seat < 64 }
        ensures { slice_get self.now.seats seat ≡ Some result.now }
    {
        &self.seats[seat as usize]
    }

    /// Chunks from this one on are to be told of once more on a seat's channel. It loses nothing where the channel isn't proven.
    pub fn rewind(&mut self, seat: u8, to: u32)
        requires { seat < 64 }
        ensures { Rewinds seat to self.old self.new }
    {
        self.seats[seat as usize].rewind(to);
    }

    /// Takes out the least chunk that this peer asked for on a seat's channel 10 seconds ago or longer: it may be asked for elsewhere, and
    /// the channel is asked for one chunk at a time until a datagram comes there. None where there is none.
    pub fn give_up_request(&mut self, seat: u8) -> Option<u32>
        requires { seat < 64 }
        ensures { MatchOption result (HasNoneExpired seat self.old self.new) (λ i. GivesUpRequest seat i self.old self.new) }
    {
        self.seats[seat as usize].expired(self.moment)
    }

    /// Takes out the least chunk whose request on a seat's channel was lost, or its answer: requests of three greater chunks that were
    /// sent no earlier were answered since. None where there is none.
    pub fn give_up_lost(&mut self, seat: u8) -> Option<u32>
        requires { seat < 64 }
        ensures { MatchOption result (HasNoneLost seat self.old self.new) (λ i. GivesUpLost seat i self.old self.new) }
    {
        self.seats[seat as usize].lost()
    }

    /// This peer waits for nothing any more on a seat whose channel was dropped.
    pub fn forget_requests(&mut self, seat: u8)
        requires seat { seat < 64 }
        requires free { channel_at self.old.table seat ≡ None }
        ensures { ForgetsRequests seat self.old self.new }
    {
        self.seats[seat as usize].forget_requests();
    }

    /// A CHOKE is due on a seat's channel if it has a slot, else an UNCHOKE.
    pub fn turn(&mut self, seat: u8)
        requires { seat < 64 }
        ensures { Turns seat self.old self.new }
    {
        self.seats[seat as usize].turn();
    }
}
