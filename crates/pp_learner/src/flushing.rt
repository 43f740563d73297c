//! All that goes out in one turn.

ghost use Rattle.pp_terms.specs.disk.Disk.{moment_of};
ghost use Rattle.pp_learner.specs.Learners.{IsWhole};
ghost use Rattle.pp_learner.specs.Flushing.{Flushes};

use crate::parts::Parts;
use pp_outside::{Disk, Link};

impl Parts {
    /// Drops the channels whose time is over, dials the addresses for which that is due, and sends what is due on each channel.
    pub(crate) fn flush<D: Disk, L: Link>(&mut self, disk: &D, link: &mut L)
        requires { IsWhole self.old }
        ensures flushes { Flushes (moment_of (D.state disk.now).history)
            (record { parts = self.old; link = L.seen link.old })
            (record { parts = self.new; link = L.seen link.new }) }
        ensures whole { IsWhole self.new }
    {
        self.expire();
        self.dial_all(disk, link);
        self.speak_all(disk, link);
    }
}
