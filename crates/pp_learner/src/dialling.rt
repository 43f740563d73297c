//! Which addresses are dialled, and which channels are dropped (RFC 7574, section 3.1).

ghost use Rattle.std.specs.Prelude.{◌≡◌, ◌<◌, ℕ, List, length};
ghost use Rattle.pp_terms.specs.disk.Disk.{moment_of};
ghost use Rattle.pp_learner.specs.Learners.{IsWhole};
ghost use Rattle.pp_learner.specs.Sending.{EachBelow};
ghost use Rattle.pp_learner.specs.Dialling.{Drops, Tries, DialsFree, StepsDial, DialsAt};

use crate::dials::Dial;
use crate::due::Due;
use crate::parts::Parts;
use pp_counts::Note as Count;
use pp_draft::{Note, Receiver};
use pp_outside::{Disk, Link};

// How long after it was noticed that its channel was dropped an address is dialled again, in microseconds.
const PAUSE: u64 = 30_000_000;

impl Parts {
    // Drops the channels whose time is over.
    pub(crate) fn expire(&mut self)
        ensures drops { (seats : List ℕ) × Drops self.old.moment seats self.old.lives self.new.lives }
        ensures rest { self.new ≡ record self.old { lives = self.new.lives } }
    {
        'over: while let Some(seat) = self.lives.expired(self.moment) {
            self.lives.close(seat);
        }
    }

    // Dials an address at the least free seat. Answers from when on it may be dialled then: where all seats are in use, from the same
    // moment on.
    fn dial<D: Disk, L: Link>(&mut self, dial: &Dial, disk: &D, link: &mut L) -> Option<u64>
        requires { IsWhole self.old }
        ensures tries { Tries dial.now result (moment_of (D.state disk.now).history)
            (record { parts = self.old; link = L.seen link.old })
            (record { parts = self.new; link = L.seen link.new }) }
        ensures whole { IsWhole self.new }
        ensures dials { self.new.dials ≡ self.old.dials }
    {
        let Some(seat) = self.lives.dial(&dial.address, self.moment) else {
            return dial.from;
        };
        let due = Due {
            to: Receiver {
                address: dial.address,
                channel: 0,
            },
            note: Note::Handshake {
                source: self.lives.local(seat),
            },
        };
        if self.outbox.send(&due, disk, link) {
            self.counts.note(Count::Sent);
            self.lives.sent(seat, true, self.moment);
        } else {
            self.counts.note(Count::SendFault);
            self.lives.close(seat);
        }
        None
    }

    // Dials an address that no channel has, where that is due. Answers from when on it may be dialled then.
    fn dial_free<D: Disk, L: Link>(&mut self, dial: &Dial, disk: &D, link: &mut L) -> Option<u64>
        requires { IsWhole self.old }
        ensures steps { DialsFree dial.now.from dial.now result (moment_of (D.state disk.now).history)
            (record { parts = self.old; link = L.seen link.old })
            (record { parts = self.new; link = L.seen link.new }) }
        ensures whole { IsWhole self.new }
        ensures dials { self.new.dials ≡ self.old.dials }
    {
        match dial.from {
            None => Some(self.moment.saturating_add(PAUSE)),
            Some(at) if self.moment < at => dial.from,
            Some(_) => self.dial(dial, disk, link),
        }
    }

    // Dials an address, where that is due. Answers from when on it may be dialled then; None where a channel has it.
    fn dial_due<D: Disk, L: Link>(&mut self, dial: &Dial, disk: &D, link: &mut L) -> Option<u64>
        requires { IsWhole self.old }
        ensures steps { StepsDial dial.now result (moment_of (D.state disk.now).history)
            (record { parts = self.old; link = L.seen link.old })
            (record { parts = self.new; link = L.seen link.new }) }
        ensures whole { IsWhole self.new }
        ensures dials { self.new.dials ≡ self.old.dials }
    {
        if self.lives.has_address(&dial.address) {
            None
        } else {
            self.dial_free(dial, disk, link)
        }
    }

    // Dials one of the addresses, where that is due.
    fn dial_at<D: Disk, L: Link>(&mut self, i: usize, disk: &D, link: &mut L)
        requires whole { IsWhole self.old }
        requires there { i < length self.old.dials }
        ensures dials { DialsAt (moment_of (D.state disk.now).history) i
            (record { parts = self.old; link = L.seen link.old })
            (record { parts = self.new; link = L.seen link.new }) }
        ensures whole { IsWhole self.new }
        ensures count { length self.new.dials ≡ length self.old.dials }
    {
        let dial = self.dials.dial(i);
        let from = self.dial_due(&dial, disk, link);
        self.dials.set(i, Dial { from, ..dial });
    }

    // Dials the addresses for which that is due, in order.
    pub(crate) fn dial_all<D: Disk, L: Link>(&mut self, disk: &D, link: &mut L)
        requires { IsWhole self.old }
        ensures dials { EachBelow (length self.old.dials) (DialsAt (moment_of (D.state disk.now).history))
            (record { parts = self.old; link = L.seen link.old })
            (record { parts = self.new; link = L.seen link.new }) }
        ensures whole { IsWhole self.new }
    {
        let count = self.dials.count();
        for i in 0..count {
            self.dial_at(i, disk, link);
        }
    }
}
