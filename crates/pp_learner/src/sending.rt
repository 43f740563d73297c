//! What goes out on the channels.

ghost use Rattle.std.specs.Prelude.{◌≡◌, ◌<◌, IfSome, IsSome, Some};
ghost use Rattle.pp_terms.specs.disk.Disk.{moment_of};
ghost use Rattle.pp_terms.specs.format.Descriptor.{Descriptor};
ghost use Rattle.pp_channels.specs.Seats.{channel_at, IsUsedSeat};
ghost use Rattle.pp_lives.specs.Fars.{far_of};
ghost use Rattle.pp_draft.specs.Notes.{IsInside};
ghost use Rattle.pp_learner.specs.Learners.{IsWhole};
ghost use Rattle.pp_learner.specs.Sending.{greeting_due, due_at, farewell_of, SendsOn, SpeaksAt, PartsAt, EachBelow};

use crate::due::{Due, is_handshake};
use crate::parts::Parts;
use pp_counts::Note as Count;
use pp_draft::{Note, Receiver};
use pp_lives::Far;
use pp_outside::{Disk, Link};

// How many seats there are.
const SEATS: u8 = 64;

// A note to the other peer's number on a channel.
fn on_channel(far: &Far, note: Note) -> Due
    ensures { result ≡ record { to = record { address = far.now.address; channel = far.now.number }; note = note } }
{
    Due {
        to: Receiver {
            address: far.address,
            channel: far.number,
        },
        note,
    }
}

impl Parts {
    // This peer's handshake, where it is due on a channel.
    fn greeting_due(&self, seat: u8) -> Option<Due>
        ensures exact { result ≡ greeting_due self.now.moment (channel_at self.now.lives seat) }
        ensures used { IsSome result → IsUsedSeat self.now.lives seat }
        ensures inside { (d : Descriptor) → IfSome result (λ due. IsInside d due.note) }
    {
        let greeting = self.lives.greeting(seat)?;
        if !self.lives.handshake_due(seat, self.moment) {
            return None;
        }
        Some(Due {
            to: Receiver {
                address: greeting.address,
                channel: greeting.number,
            },
            note: Note::Handshake {
                source: greeting.source,
            },
        })
    }

    // What is due on a channel whose peer's number is known.
    fn note_due(&self, seat: u8, far: &Far) -> Option<Due>
        requires whole { IsWhole self.now }
        requires used { IsUsedSeat self.now.lives seat }
        requires far { far_of (channel_at self.now.lives seat) ≡ Some far.now }
        ensures exact { result ≡ due_at self.now seat }
        ensures inside { IfSome result (λ due. IsInside self.now.outbox due.note) }
    {
        if !far.proven {
            return None;
        }
        let silent = self.lives.is_silent(seat, self.moment);
        let note = self.rows.row(seat).note(silent, self.moment)?;
        Some(on_channel(far, note))
    }

    // What is due on a seat's channel.
    fn due(&self, seat: u8) -> Option<Due>
        requires whole { IsWhole self.now }
        requires seat { seat < 64 }
        ensures exact { result ≡ due_at self.now seat }
        ensures used { IsSome result → IsUsedSeat self.now.lives seat }
        ensures inside { IfSome result (λ due. IsInside self.now.outbox due.note) }
    {
        match self.lives.far(seat) {
            Some(far) => self.note_due(seat, &far),
            None => self.greeting_due(seat),
        }
    }

    // A closing handshake, where a seat's channel is proven.
    fn farewell(&self, seat: u8) -> Option<Due>
        ensures exact { result ≡ farewell_of (channel_at self.now.lives seat) }
        ensures used { IsSome result → IsUsedSeat self.now.lives seat }
        ensures inside { IfSome result (λ due. IsInside self.now.outbox due.note) }
    {
        let far = self.lives.far(seat)?;
        if far.proven {
            Some(on_channel(&far, Note::Close))
        } else {
            None
        }
    }

    // Sends what is due on a seat's channel, and counts and notes what became of it.
    fn send_on<D: Disk, L: Link>(&mut self, seat: u8, due: &Due, disk: &D, link: &mut L)
        requires whole { IsWhole self.old }
        requires used { IsUsedSeat self.old.lives seat }
        requires inside { IsInside self.old.outbox due.now.note }
        ensures sends { SendsOn (Some due.now) seat (moment_of (D.state disk.now).history)
            (record { parts = self.old; link = L.seen link.old })
            (record { parts = self.new; link = L.seen link.new }) }
        ensures whole { IsWhole self.new }
    {
        let sent = self.outbox.send(due, disk, link);
        if !sent {
            self.counts.note(Count::SendFault);
            return;
        }
        self.counts.note(Count::Sent);
        self.lives.sent(seat, is_handshake(&due.note), self.moment);
        self.rows.said(seat, &due.note, self.moment);
    }

    // Sends what is due on a seat's channel.
    fn speak<D: Disk, L: Link>(&mut self, seat: u8, disk: &D, link: &mut L)
        requires whole { IsWhole self.old }
        requires seat { seat < 64 }
        ensures speaks { SpeaksAt (moment_of (D.state disk.now).history) seat
            (record { parts = self.old; link = L.seen link.old })
            (record { parts = self.new; link = L.seen link.new }) }
        ensures whole { IsWhole self.new }
    {
        match self.due(seat) {
            Some(due) => self.send_on(seat, &due, disk, link),
            None => {}
        }
    }

    // Sends a closing handshake, where a seat's channel is proven.
    fn part<D: Disk, L: Link>(&mut self, seat: u8, disk: &D, link: &mut L)
        requires whole { IsWhole self.old }
        requires seat { seat < 64 }
        ensures parts { PartsAt (moment_of (D.state disk.now).history) seat
            (record { parts = self.old; link = L.seen link.old })
            (record { parts = self.new; link = L.seen link.new }) }
        ensures whole { IsWhole self.new }
    {
        match self.farewell(seat) {
            Some(due) => self.send_on(seat, &due, disk, link),
            None => {}
        }
    }

    /// Sends what is due on each channel, by rising seat.
    pub(crate) fn speak_all<D: Disk, L: Link>(&mut self, disk: &D, link: &mut L)
        requires { IsWhole self.old }
        ensures speaks { EachBelow 64 (SpeaksAt (moment_of (D.state disk.now).history))
            (record { parts = self.old; link = L.seen link.old })
            (record { parts = self.new; link = L.seen link.new }) }
        ensures whole { IsWhole self.new }
    {
        for seat in 0..SEATS {
            self.speak(seat, disk, link);
        }
    }

    /// Sends a closing handshake on each proven channel, by rising seat.
    pub(crate) fn part_all<D: Disk, L: Link>(&mut self, disk: &D, link: &mut L)
        requires { IsWhole self.old }
        ensures parts { EachBelow 64 (PartsAt (moment_of (D.state disk.now).history))
            (record { parts = self.old; link = L.seen link.old })
            (record { parts = self.new; link = L.seen link.new }) }
        ensures whole { IsWhole self.new }
    {
        for seat in 0..SEATS {
            self.part(seat, disk, link);
        }
    }
}
