// A turn of one peer.
ghost use Rattle.std.specs.Prelude.{◌≡◌, ◌↔◌, ◌<◌, true, length, OnOk};
ghost use Rattle.pp_world.specs.Move.{Make};
ghost use Rattle.pp_world.specs.Schedule.{Turn};
ghost use Rattle.pp_watch.specs.Waiting.{FitsBuffer};
ghost use Rattle.pp_play.specs.Stage.{HasHeard, MovesAs};

use crate::Stage;
use crate::delivering::deliver;
use pp_outside::{Address, MemoryLink};
use pp_stage::Cue;
use std::alloc::AllocError;

// The most bytes that a wait brings.
const MOST_BYTES: usize = 65_536;

// Whether a wait can bring it: no peer sends more than 16,384 bytes, and none are forged.
fn fits_buffer(came: &Option<(Address, &[u8])>) -> bool
    ensures { (result ≡ true) ↔ FitsBuffer came.now }
{
    match came {
        Some((_, bytes)) => bytes.len() <= MOST_BYTES,
        None => true,
    }
}

impl Stage {
    // Lets a peer take a turn, in which it hears what waits first for it.
    fn hear(&mut self, peer: u8) -> Result<(), AllocError>
        requires { peer < length self.old.actors }
        ensures { OnOk result (HasHeard peer self.old self.new) }
    {
        let came = self.mail.oldest(peer);
        if !fits_buffer(&came) {
            return Err(AllocError);
        }
        let cue = Cue {
            clock: self.clock,
            came,
        };
        self.actors[usize::from(peer)].turn(cue, &mut self.buffer)
    }

    /// A peer that runs takes a turn, and what it sends is on its way.
    pub(crate) fn turn(&mut self, peer: u8) -> Result<(), AllocError>
        requires { peer < length self.old.actors }
        ensures { OnOk result (MovesAs (Make (Turn peer)) self.old self.new) }
    {
        let actor = &self.actors[usize::from(peer)];
        let Some(link) = actor.link() else {
            return Ok(());
        };
        let records = link.marks();
        let is_deaf = actor.is_deaf();
        self.hear(peer)?;
        if !is_deaf {
            self.mail.lose(peer);
        }
        match self.actors[usize::from(peer)].link() {
            Some(link) => deliver(&mut self.mail, peer, link, records),
            None => Ok(()),
        }
    }
}
