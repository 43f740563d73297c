// The events that a link in memory is still to hand out.
ghost use Rattle.std.specs.Prelude.{◌≡◌, ◌++◌, ◌∷◌, [], OnOk, OnErr};
ghost use Rattle.pp_outside.specs.Outside.{record_of};
ghost use Rattle.pp_outside.specs.Arrivals.{IsEvent, next_of, after_next};

use crate::Event;
use std::alloc::{AllocError, Global};
use std::marker::Model;

#[derive(Drop)]
struct Coming {
    event: Event,
    bytes: Vec<u8>,
}

// What the next wait brings.
#[derive(Clone, Copy)]
pub(crate) struct Arrival<'a> {
    pub(crate) event: Event,
    pub(crate) bytes: &'a [u8],
}

// The events in order, how many were handed out, and the moment of the last of these.
#[derive(Drop)]
pub(crate) struct Events {
    alloc: Global,
    coming: Vec<Coming>,
    handed: usize,
    last: u64,
}

impl Model for Events {
    ghost use Rattle.pp_outside.specs.Arrivals.{Arrivals};

    ghost Value = { Arrivals };

    ghost use Rattle.pp_outside.specs.Events.{arrivals_of, AreEvents};

    ghost view = { arrivals_of };

    ghost invariant = { AreEvents };
}

impl Events {
    pub(crate) fn new(alloc: Global) -> Events
        ensures { result ≡ record { coming = []; last = 0 } }
    {
        Events {
            alloc,
            coming: Vec::new(alloc),
            handed: 0,
            last: 0,
        }
    }

    pub(crate) fn add(&mut self, event: Event, bytes: &[u8]) -> Result<(), AllocError>
        requires { IsEvent event bytes.now }
        ensures ok { OnOk result (self.new
            ≡ record { coming = self.old.coming ++ record_of event bytes.now ∷ []; last = self.old.last }) }
        ensures err { OnErr result (self.new ≡ self.old) }
    {
        let bytes = bytes.to_vec(self.alloc)?;
        self.coming.push(Coming { event, bytes })?;
        Ok(())
    }

    pub(crate) fn front(&self) -> Arrival<'_>
        ensures next { record_of result.event result.bytes.now ≡ next_of self.now }
        ensures event { IsEvent result.event result.bytes.now }
    {
        match self.coming.get(self.handed) {
            Some(coming) => Arrival {
                event: coming.event,
                bytes: &coming.bytes,
            },
            None => Arrival {
                event: Event::Quiet { at: self.last },
                bytes: &[],
            },
        }
    }

    pub(crate) fn advance(&mut self)
        ensures { self.new ≡ after_next self.old }
    {
        if let Some(coming) = self.coming.get(self.handed) {
            self.last = coming.event.at();
            self.handed += 1;
        }
    }
}
