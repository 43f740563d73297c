//! Which addresses are dialled: those that the peer was told to dial, and those that other peers suggested (RFC 7574,
//! section 3.10).

ghost use Rattle.std.specs.Prelude.{◌≡◌, ◌<◌, length, map, MatchBool};
ghost use Rattle.pp_peer.specs.Dialling.{undialled, is_due, noticed, after_dial, StepsDial, DialsEach, DialsFirst, DialsSuggested, HasNoneToDial, DialsAll, OnlyDials};
ghost use Rattle.pp_peer.specs.Flushing.{Flushes};

use crate::parts::Parts;
use arrayvec::ArrayVec;
use pp_outside::{Address, Disk, Link};
use std::marker::Model;

// How many addresses a peer is told to dial at most.
const MOST_TOLD: usize = 16;

// How long after its channel was dropped an address is dialled again, in microseconds.
const PAUSE: u64 = 30_000_000;

// Suggested addresses are dialled while fewer seats than these are in use.
const MOST_USED: u8 = 32;

/// What is known of an address that a peer was told to dial.
#[derive(Clone, Copy, Debug, Default, PartialEq, Eq)]
pub enum DialState {
    /// It wasn't dialled yet.
    #[default]
    New,
    /// A channel had the address when this peer last looked.
    Seated,
    /// The channel was dropped: the moment, in microseconds, when this peer noticed.
    Dropped(u64),
}

impl DialState {
    // Whether an address without a channel is to be dialled.
    fn is_due(self, now: u64) -> bool
        ensures { result ≡ is_due now self }
    {
        match self {
            DialState::New => true,
            DialState::Seated => false,
            DialState::Dropped(at) => now.saturating_sub(at) >= PAUSE,
        }
    }

    // What is known of an address without a channel that isn't to be dialled.
    fn noticed(self, now: u64) -> DialState
        ensures { result ≡ noticed now self }
    {
        match self {
            DialState::Seated => DialState::Dropped(now),
            _ => self,
        }
    }

    // What is known of an address after `Parts::dial` answered.
    fn after_dial(self, now: u64, sent: Option<bool>) -> DialState
        ensures { result ≡ after_dial now self sent }
    {
        match sent {
            Some(true) => DialState::Seated,
            Some(false) => DialState::Dropped(now),
            None => self,
        }
    }
}

/// An address that a peer was told to dial.
#[derive(Clone, Copy, Debug, Default, PartialEq, Eq)]
pub struct Dial {
    pub address: Address,
    pub state: DialState,
}

/// The addresses that a peer was told to dial, at most 16, in order.
#[derive(Drop)]
pub struct Dials {
    entries: ArrayVec<Dial, MOST_TOLD>,
}

impl Model for Dials {
    ghost use Rattle.std.specs.Prelude.{List};
    ghost use Rattle.pp_peer.specs.declared.dialling.Dial.{Dial};

    ghost Value = { List Dial };

    ghost view = { λ d. d.entries.items };
}

impl Dials {
    /// None of these addresses was dialled yet.
    pub fn new(addresses: &ArrayVec<Address, 16>) -> Dials
        ensures { result ≡ map undialled addresses.now.items }
    {
        let mut entries = ArrayVec::new();
        for address in addresses.iter() {
            entries.push(Dial {
                address: *address,
                state: DialState::New,
            });
        }
        Dials { entries }
    }
}

impl Parts {
    // Dials an address where that is due. Answers what is known of it then.
    fn dial_due<D: Disk, L: Link>(&mut self, dial: &Dial, disk: &D, link: &mut L) -> DialState
        ensures { StepsDial dial.now result
            (record { parts = self.old; link = L.seen link.old; disk = D.state disk.now })
            (record { parts = self.new; link = L.seen link.new; disk = D.state disk.now }) }
    {
        if self.seats.has_address(&dial.address) {
            return DialState::Seated;
        }
        let now = self.seats.moment();
        if !dial.state.is_due(now) {
            return dial.state.noticed(now);
        }
        let sent = self.dial(&dial.address, disk, link);
        dial.state.after_dial(now, sent)
    }

    // Dials each of the addresses for which that is due, in order.
    fn dial_each<D: Disk, L: Link>(&mut self, dials: &mut [Dial], disk: &D, link: &mut L)
        ensures { DialsEach dials.old dials.new
            (record { parts = self.old; link = L.seen link.old; disk = D.state disk.now })
            (record { parts = self.new; link = L.seen link.new; disk = D.state disk.now }) }
    {
        for dial in dials.iter_mut() {
            dial.state = self.dial_due(dial, disk, link);
        }
    }

    // Takes out the address that was suggested first and dials it, while fewer than 32 seats are in use. Answers
    // whether there was one.
    fn dial_first<D: Disk, L: Link>(&mut self, disk: &D, link: &mut L) -> bool
        ensures { MatchBool result
            (DialsFirst (record { parts = self.old; link = L.seen link.old; disk = D.state disk.now })
            (record { parts = self.new; link = L.seen link.new; disk = D.state disk.now }))
            ((self.new ≡ self.old) × (L.seen link.new ≡ L.seen link.old) × HasNoneToDial self.new) }
    {
        if self.seats.used() >= MOST_USED {
            return false;
        }
        let Some(address) = self.pex.next_dial() else {
            return false;
        };
        let _ = self.dial(&address, disk, link);
        true
    }

    // Dials the suggested addresses, in order, while fewer than 32 seats are in use.
    fn dial_suggested<D: Disk, L: Link>(&mut self, disk: &D, link: &mut L)
        ensures dials { DialsSuggested self.old.pex.queue
            (record { parts = self.old; link = L.seen link.old; disk = D.state disk.now })
            (record { parts = self.new; link = L.seen link.new; disk = D.state disk.now }) }
        ensures all { HasNoneToDial self.new }
    {
        'suggested: while self.dial_first(disk, link) {}
    }

    /// Dials the addresses that the peer was told to dial, in order: each at once, and again 30 seconds after it was
    /// noticed that its channel was dropped. Then, while fewer than 32 seats are in use, dials the suggested addresses,
    /// each once, in the order in which they came. An address that a channel has isn't dialled. A handshake that the
    /// link refused is counted as a fault, and its channel is dropped at once.
    pub fn dial_all<D: Disk, L: Link>(&mut self, dials: &mut Dials, disk: &D, link: &mut L)
        ensures dials { DialsAll dials.old dials.new
            (record { parts = self.old; link = L.seen link.old; disk = D.state disk.now })
            (record { parts = self.new; link = L.seen link.new; disk = D.state disk.now }) }
        ensures flushes { Flushes 0 (record { parts = self.old; link = L.seen link.old; disk = D.state disk.now })
            (record { parts = self.new; link = L.seen link.new; disk = D.state disk.now }) }
        ensures rest { OnlyDials self.old self.new }
        ensures all { HasNoneToDial self.new }
    {
        self.dial_each(dials.entries.as_mut_slice(), disk, link);
        self.dial_suggested(disk, link);
    }
}
