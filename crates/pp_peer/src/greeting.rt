//! Handshakes that go out, channels that are dialled, and channels that end (RFC 7574, sections 3.1, 8.2 and 8.4).

ghost use Rattle.std.specs.Prelude.{◌≡◌, ◌<◌, ℕ, None, cond, option_map, MatchBool, MatchOption};
ghost use Rattle.pp_terms.specs.disk.Disk.{moment_of};
ghost use Rattle.pp_counts.specs.declared.note.Note.TheVariants as notes;
ghost use Rattle.pp_channels.specs.Seats.{channel_at, used_of};
ghost use Rattle.pp_fetching.specs.Fetching.{without_request};
ghost use Rattle.pp_peer.specs.Greeting.{IsGreeted, IsDialled, IsNotDialled, PartsAt, Parting, Releases, Clears, Drops, HasNoneOver, open_at, GivesUpAt, GivesUp, HasNoneSpent};
ghost use Rattle.pp_peer.specs.Flushing.{Flushes};

use crate::parts::Parts;
use pp_counts::Note;
use pp_fetching::Fetching;
use pp_outside::{Address, Disk, Link};
use pp_requests::Asking;

// How many seats there are.
const SEATS: u8 = 64;

// What is counted of a datagram that the link took, or refused.
fn note_of(sent: bool) -> Note
    ensures { result ≡ cond sent notes.Sent notes.SendFault }
{
    if sent { Note::Sent } else { Note::SendFault }
}

// A seat offers nothing any more, and what is asked for there may be asked for elsewhere.
fn release(fetching: &mut Option<Fetching>, seat: u8, entries: &[Asking])
    requires { seat < 64 }
    ensures { Releases seat entries.now fetching.old fetching.new }
{
    match fetching {
        Some(fetching) => {
            fetching.leave(seat);
            fetching.give_back_all(entries);
        }
        None => {}
    }
}

// A chunk is asked for nowhere any more.
fn give_back(fetching: &mut Option<Fetching>, chunk: u32)
    ensures { fetching.new ≡ option_map (without_request chunk) fetching.old }
{
    match fetching {
        Some(fetching) => fetching.give_back(chunk),
        None => {}
    }
}

impl Parts {
    /// Sends this peer's handshake on a seat's channel where it is due: the reply where the other peer opened it,
    /// another one where a dial awaits its reply. Answers whether one was sent. One that the link refused stays due,
    /// and is counted as a fault.
    pub fn greet<D: Disk, L: Link>(&mut self, seat: u8, disk: &D, link: &mut L) -> bool
        ensures flushes { Flushes 0 (record { parts = self.old; link = L.seen link.old; disk = D.state disk.now })
            (record { parts = self.new; link = L.seen link.new; disk = D.state disk.now }) }
        ensures greets { IsGreeted seat (moment_of (D.state disk.now).history) result
            self.old self.new (L.seen link.old) (L.seen link.new) }
    {
        if !self.seats.is_greeting_due(seat) {
            return false;
        }
        if !self.seats.greet(seat, disk, link) {
            self.counts.note(Note::SendFault);
            return false;
        }
        self.counts.note(Note::Sent);
        true
    }

    /// Dials an address at the least free seat with a handshake to its channel 0. Answers whether the link took it;
    /// where it didn't, the seat is free again. None where a channel has the address, or all seats are in use; then
    /// nothing is sent.
    pub fn dial<D: Disk, L: Link>(
        &mut self,
        address: &Address,
        disk: &D,
        link: &mut L,
    ) -> Option<bool>
        ensures flushes { Flushes 0 (record { parts = self.old; link = L.seen link.old; disk = D.state disk.now })
            (record { parts = self.new; link = L.seen link.new; disk = D.state disk.now }) }
        ensures dials { MatchOption result
            (IsNotDialled address.now self.old self.new (L.seen link.old) (L.seen link.new))
            (λ sent. IsDialled address.now (moment_of (D.state disk.now).history) sent
            self.old self.new (L.seen link.old) (L.seen link.new)) }
    {
        let Some(sent) = self.seats.dial(address, disk, link) else {
            return None;
        };
        self.counts.note(note_of(sent));
        Some(sent)
    }

    // Sends a closing handshake on a seat's channel, where that is proven.
    fn part_at<D: Disk, L: Link>(&mut self, seat: u8, disk: &D, link: &mut L)
        ensures { PartsAt seat (record { parts = self.old; link = L.seen link.old; disk = D.state disk.now })
            (record { parts = self.new; link = L.seen link.new; disk = D.state disk.now }) }
    {
        let Some(far) = self.seats.far(seat) else {
            return;
        };
        if far.proven {
            let sent = self.seats.part(seat, disk, link);
            self.counts.note(note_of(sent));
        }
    }

    /// Sends a closing handshake on each proven channel, by rising seat (RFC 7574, section 8.4). Those that the link
    /// refused are counted as faults.
    pub fn part<D: Disk, L: Link>(&mut self, disk: &D, link: &mut L)
        ensures { Parting 64 (record { parts = self.old; link = L.seen link.old; disk = D.state disk.now })
            (record { parts = self.new; link = L.seen link.new; disk = D.state disk.now }) }
    {
        for seat in 0..SEATS {
            self.part_at(seat, disk, link);
        }
    }

    // Of a seat whose channel was dropped nothing is kept.
    pub(crate) fn clear_seat(&mut self, seat: u8)
        requires seat { seat < 64 }
        requires free { channel_at self.old.seats.table seat ≡ None }
        ensures { Clears seat self.old self.new }
    {
        release(&mut self.fetching, seat, self.seats.seat(seat).awaited());
        self.seats.forget_requests(seat);
        self.slots.release(seat);
        self.questions[seat as usize] = false;
    }

    // Drops the channel at the least seat whose time is over. Answers whether there was one.
    fn expire_one(&mut self) -> bool
        ensures { MatchBool result
            ((used_of self.new.seats.table < used_of self.old.seats.table) × Drops self.old self.new)
            ((self.new ≡ self.old) × HasNoneOver self.old) }
    {
        let Some(seat) = self.seats.expire() else {
            return false;
        };
        // There is no channel at another seat.
        if seat < SEATS {
            self.clear_seat(seat);
        }
        true
    }

    /// Drops every channel whose time is over: 10 seconds after it was made where it isn't proven, 180 seconds after
    /// something last came where it is. Nothing is kept of their seats, whose own requests may be asked for elsewhere.
    /// Nothing is sent.
    pub fn expire(&mut self)
        ensures drops { Drops self.old self.new }
        ensures all { HasNoneOver self.new }
    {
        'channels: while self.expire_one() {}
    }

    // Gives up the least own request of a seat that expired, or else the least that was lost. Answers whether there was one.
    fn give_up_request(&mut self, seat: u8) -> bool
        requires { seat < 64 }
        ensures { MatchBool result ((open_at self.new seat < open_at self.old seat) × GivesUpAt seat self.old self.new)
            ((self.new ≡ self.old) × HasNoneSpent seat self.old) }
    {
        if let Some(chunk) = self.seats.give_up_request(seat) {
            give_back(&mut self.fetching, chunk);
            return true;
        }
        let Some(chunk) = self.seats.give_up_lost(seat) else {
            return false;
        };
        give_back(&mut self.fetching, chunk);
        true
    }

    // Gives up all own requests of a seat that expired, or were lost.
    fn give_up_all(&mut self, seat: u8)
        requires { seat < 64 }
        ensures gives_up { GivesUpAt seat self.old self.new }
        ensures all { HasNoneSpent seat self.new }
    {
        'requests: while self.give_up_request(seat) {}
    }

    /// Gives up every own request that was sent 10 seconds ago or longer, after which its channel is only probed until a
    /// datagram comes there; and every one that was lost, as three that were sent no earlier were answered since. Their chunks
    /// may be asked for again, on any channel. Nothing is sent.
    pub fn give_up_requests(&mut self)
        ensures gives_up { GivesUp self.old self.new }
        ensures all { (seat : ℕ) → seat < 64 → HasNoneSpent seat self.new }
    {
        for seat in 0..SEATS {
            self.give_up_all(seat);
        }
    }
}
