//! Handshakes that go out, channels that are dialled, and channels that end (RFC 7574, sections 3.1, 8.2 and 8.4).

ghost use Rattle.std.specs.Prelude.{◌≡◌, ◌<◌, length, MatchOption};
ghost use Rattle.pp_terms.specs.disk.Disk.{moment_of};
ghost use Rattle.pp_seats.specs.Greeting.{IsGreeted, Dials, DialsNone, Ends, EndsNone, IsParted};

use crate::seats::Seats;
use pp_desk::{close, greet};
use pp_draft::Receiver;
use pp_outside::{Address, Disk, Link};

impl Seats {
    /// Sends this peer's handshake alone on a seat's channel: another one where a dial awaits its reply, or the reply where the other
    /// peer opened it, which `speak` sends with what follows it. Answers whether the link took it; where it didn't, the handshake stays due.
    pub fn greet<D: Disk, L: Link>(&mut self, seat: u8, disk: &D, link: &mut L) -> bool
        ensures { IsGreeted seat (moment_of (D.state disk.now).history) result self.old self.new (L.seen link.old) (L.seen link.new) }
    {
        let Some(greeting) = self.lives.greeting(seat) else {
            return false;
        };
        let to = Receiver {
            address: greeting.address,
            channel: greeting.number,
        };
        let sent = greet(
            greeting.source,
            &self.descriptor,
            &to,
            &mut self.out,
            disk,
            link,
        );
        if sent {
            self.lives.sent(seat, true, self.moment);
        }
        sent
    }

    /// Dials an address at the least free seat with a handshake to its channel 0. Answers whether the link took it; where it didn't,
    /// the seat is free again. None where a channel has the address, or all seats are in use; then nothing is sent.
    pub fn dial<D: Disk, L: Link>(
        &mut self,
        address: &Address,
        disk: &D,
        link: &mut L,
    ) -> Option<bool>
        ensures { MatchOption result (DialsNone address.now self.old self.new (L.seen link.old) (L.seen link.new))
            (λ sent. Dials address.now (moment_of (D.state disk.now).history) sent self.old self.new (L.seen link.old) (L.seen link.new)) }
    {
        if self.lives.has_address(address) {
            return None;
        }
        let seat = self.lives.dial(address, self.moment)?;
        let source = self.lives.local(seat);
        let to = Receiver {
            address: *address,
            channel: 0,
        };
        let sent = greet(source, &self.descriptor, &to, &mut self.out, disk, link);
        if sent {
            self.lives.sent(seat, true, self.moment);
        } else {
            self.lives.close(seat);
        }
        Some(sent)
    }

    /// Drops the channel at the least seat whose time is over: 10 seconds after it was made where it isn't proven, 180 seconds after
    /// something last came where it is. None where there is none.
    pub fn expire(&mut self) -> Option<u8>
        ensures { MatchOption result (EndsNone self.old self.new) (λ seat. Ends seat self.old self.new) }
    {
        let seat = self.lives.expired(self.moment)?;
        self.lives.close(seat);
        Some(seat)
    }

    /// Sends a closing handshake on a proven channel. Answers whether the link took it.
    pub fn part<D: Disk, L: Link>(&mut self, seat: u8, disk: &D, link: &mut L) -> bool
        ensures { IsParted seat (moment_of (D.state disk.now).history) result self.old self.new (L.seen link.old) (L.seen link.new) }
    {
        let Some(far) = self.lives.far(seat) else {
            return false;
        };
        if !far.proven {
            return false;
        }
        let to = Receiver {
            address: far.address,
            channel: far.number,
        };
        let sent = close(&self.descriptor, &to, &mut self.out, disk, link);
        if sent {
            self.lives.sent(seat, false, self.moment);
        }
        sent
    }
}
