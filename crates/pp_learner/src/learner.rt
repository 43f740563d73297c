//! A learner of one swarm.

ghost use Rattle.std.specs.Prelude.{◌≡◌, ◌↔◌, ◌≤◌, length, IfOk, Some};
ghost use Rattle.pp_terms.specs.disk.Disk.{moment_of};
ghost use Rattle.pp_terms.specs.tree.Content.{IsChunkSize};
ghost use Rattle.pp_terms.specs.format.Descriptor.{Descriptor};
ghost use Rattle.pp_outside.specs.Arrivals.{IsEvent};
ghost use Rattle.pp_learner.specs.Learners.{opened};
ghost use Rattle.pp_learner.specs.Absorbing.{Absorbs, LearnsBy, after_refusal};
ghost use Rattle.pp_learner.specs.Flushing.{AsksEach, Closes, ClosesEach, Flushes, SendsModest};

use crate::dials::Dials;
use crate::outbox::Outbox;
use crate::parts::Parts;
use crate::rows::Rows;
use pp_counts::{Counts, Note};
use pp_lives::Lives;
use pp_outside::{Address, Disk, Event, Link};
use pp_targets::SwarmName;
use pp_tree::Descriptor;
use std::alloc::{AllocError, Global};
use std::marker::Model;

/// A peer of a swarm that is named without the size of its content. It dials addresses that it is told, asks for the last chunk
/// there, and learns the size from it.
#[derive(Drop)]
pub struct Learner {
    parts: Parts,
}

impl Model for Learner {
    ghost use Rattle.pp_learner.specs.Learners.{LearnerState, IsWhole};

    ghost Value = { LearnerState };

    ghost view = { λ l. l.parts };

    ghost invariant = { λ l. IsWhole l.parts };
}

impl Learner {
    /// A learner without a channel, with all memory that it will ever need. It will dial these addresses, at most 16; channel numbers
    /// are drawn from `seed`, 32 bytes that nobody can guess. The chunk size is a power of two from 256 to 8192.
    pub fn open(
        alloc: Global,
        name: &SwarmName,
        seed: [u8; 32],
        dial: &[Address],
    ) -> Result<Learner, AllocError>
        requires size { IsChunkSize name.now.chunk }
        requires few { length dial.now ≤ 16 }
        ensures { IfOk result (λ l. l ≡ opened name.now seed dial.now) }
    {
        Ok(Learner {
            parts: Parts {
                name: *name,
                outbox: Outbox::new(alloc, name)?,
                lives: Lives::new(alloc, seed)?,
                rows: Rows::new(alloc)?,
                dials: Dials::new(dial),
                moment: 0,
                counts: Counts::new(),
            },
        })
    }

    /// Takes one event: `bytes` are the datagram, empty for a quiet wait. The messages of a datagram on a channel that this peer dialled
    /// are read; a handshake for channel 0 is refused (RFC 7574, section 3.1). Answers the content's descriptor, where a DATA tells its
    /// size; nothing is read behind that. Nothing is sent.
    pub fn absorb(&mut self, event: &Event, bytes: &[u8]) -> Option<Descriptor>
        requires { IsEvent event.now bytes.now }
        ensures exact { Absorbs event.now bytes.now result self.old self.new }
        // A size is answered exactly where a DATA on a proven channel tells it, by what was claimed there before it.
        ensures learns { (e : Descriptor) → (result ≡ Some e) ↔ LearnsBy event.now bytes.now self.old e }
    {
        self.parts.absorb(event, bytes)
    }

    /// Sends what is due. Channels whose time is over are dropped, and addresses without a channel are dialled: at once, and again 30
    /// seconds after it was noticed that the channel was dropped. A dial awaits its reply for 10 seconds, and the handshake goes again
    /// after 3 and after 6. On each proven channel that isn't choked the greatest chunk that is offered there is asked for, at most
    /// once in 10 seconds (RFC 7574, section 3.7); where nothing else goes, a keep-alive does where one is due. What the link refuses
    /// is counted, and is due again; but a channel whose first handshake was refused is dropped.
    pub fn flush<D: Disk, L: Link>(&mut self, disk: &D, link: &mut L)
        ensures exact { Flushes (moment_of (D.state disk.now).history)
            (record { parts = self.old; link = L.seen link.old })
            (record { parts = self.new; link = L.seen link.new }) }
        // Each channel that may be asked is asked; and nothing goes but handshakes, REQUESTs and keep-alives.
        ensures asks { AsksEach (moment_of (D.state disk.now).history)
            (record { parts = self.old; link = L.seen link.old })
            (record { parts = self.new; link = L.seen link.new }) }
        ensures modest { SendsModest (moment_of (D.state disk.now).history)
            (record { parts = self.old; link = L.seen link.old })
            (record { parts = self.new; link = L.seen link.new }) }
    {
        self.parts.flush(disk, link);
    }

    /// Sends a closing handshake on each proven channel, by rising seat (RFC 7574, section 8.4). What the link refuses is counted.
    pub fn close<D: Disk, L: Link>(&mut self, disk: &D, link: &mut L)
        ensures exact { Closes (moment_of (D.state disk.now).history)
            (record { parts = self.old; link = L.seen link.old })
            (record { parts = self.new; link = L.seen link.new }) }
        ensures each { ClosesEach (moment_of (D.state disk.now).history)
            (record { parts = self.old; link = L.seen link.old })
            (record { parts = self.new; link = L.seen link.new }) }
        ensures modest { SendsModest (moment_of (D.state disk.now).history)
            (record { parts = self.old; link = L.seen link.old })
            (record { parts = self.new; link = L.seen link.new }) }
    {
        self.parts.part_all(disk, link);
    }

    /// Counts a wait that the link refused.
    pub fn refused(&mut self)
        ensures { self.new ≡ after_refusal self.old }
    {
        self.parts.counts.note(Note::Turn);
        self.parts.counts.note(Note::ReceiveFault);
    }

    /// What was counted.
    pub fn counts(&self) -> &Counts
        ensures { result.now ≡ self.now.counts }
    {
        &self.parts.counts
    }
}
