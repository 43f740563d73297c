//! All that goes out in one turn.

ghost use Rattle.std.specs.Prelude.{◌≡◌, ◌≤◌, ◌^◌};
ghost use Rattle.pp_peer.specs.Flushing.{Flushes};
ghost use Rattle.pp_peer.specs.Sending.{SendsAll};
ghost use Rattle.pp_peer.specs.Standing.{IsWhole};

use crate::dialling::Dials;
use crate::parts::Parts;
use crate::speaking::Speaker;
use pp_outside::{Disk, Link};

impl Parts {
    /// Sends all that is due in one turn, in this order: channels whose time is over are dropped and own requests that expired given
    /// up; addresses are dialled; slots are turned; on each channel, by rising seat, goes the handshake and what is to be said; and on
    /// each goes what its peer asked for and may be sent (RFC 7574, section 3). Answers how many datagrams but handshakes the link
    /// refused, and how many chunks couldn't be read.
    pub fn flush<D: Disk, L: Link>(
        &mut self,
        dials: &mut Dials,
        speaker: &mut Speaker,
        disk: &mut D,
        link: &mut L,
    ) -> u32
        requires { IsWhole self.old }
        ensures sends { SendsAll dials.old dials.new speaker.old speaker.new result
            (record { parts = self.old; link = L.seen link.old; disk = D.state disk.old })
            (record { parts = self.new; link = L.seen link.new; disk = D.state disk.new }) }
        ensures few { result ≤ 2 ^ 27 }
        ensures whole { IsWhole self.new }
        ensures flushes { Flushes result
            (record { parts = self.old; link = L.seen link.old; disk = D.state disk.old })
            (record { parts = self.new; link = L.seen link.new; disk = D.state disk.new }) }
    {
        self.expire();
        self.give_up_requests();
        self.dial_all(dials, disk, link);
        self.turn_slots();
        let unsaid = self.speak_all(speaker, disk, link);
        let unserved = self.serve_all(disk, link);
        unsaid + unserved
    }
}
