//! What an event does to a peer.

ghost use Rattle.std.specs.Prelude.{◌≡◌, ◌<◌, ◌∷◌, ℕ, List, true, length, take, OnOk, OnErr, false};
ghost use Rattle.pp_terms.specs.Count.{HasCause};
ghost use Rattle.pp_terms.specs.format.Traffic.{Record, Received};
ghost use Rattle.pp_outside.specs.Outside.{address_of, record_of};
ghost use Rattle.pp_outside.specs.Arrivals.{IsEvent};
ghost use Rattle.pp_lives.specs.Arriving.{IsSeated, IsBehind};
ghost use Rattle.pp_peer.specs.Taking.{KeepsCounts, Keeps};
ghost use Rattle.pp_peer.specs.Events.{has_slot_for, with_seated, with_channel, HearsFrom, HearsArrival, TakesDatagram, TakesEvent, Absorbs};
ghost use Rattle.pp_peer.specs.Standing.{Beginning, Fetches, Ledger, StandsFor};
ghost use Rattle.pp_peer.specs.Absorbing.{counted, with_short, with_event, Advanced, Stocks, Readies, KeepsSeats, InTime, IsHeard, is_quiet};

use crate::parts::Parts;
use crate::supporting::supported;
use pp_counts::Note;
use pp_holding::laws_of_holdings;
use pp_lives::Arrival;
use pp_outside::{Address, Disk, DiskFault, Event};

// What is counted of a datagram before its messages are heard.
fn note_of(arrival: Arrival) -> Option<Note>
    ensures { result ≡ counted arrival }
{
    match arrival {
        Arrival::Short => Some(Note::Short),
        Arrival::NoGreeting | Arrival::NoChannel | Arrival::NoReply { .. } => Some(Note::Stranger),
        Arrival::Unwelcome | Arrival::Late { .. } | Arrival::Differs { .. } => {
            Some(Note::RefusedHandshake)
        }
        Arrival::Unseated => Some(Note::NoSeat),
        Arrival::Cut { .. } => Some(Note::Cut),
        Arrival::Again { .. }
        | Arrival::Given { .. }
        | Arrival::Opened { .. }
        | Arrival::Replied { .. }
        | Arrival::Heard { .. } => None,
    }
}

// Whether nothing came.
fn is_quiet(event: &Event) -> bool
    ensures { result ≡ is_quiet event.now }
{
    match *event {
        Event::Datagram { .. } => false,
        Event::Quiet { .. } => true,
    }
}

impl Parts {
    // Whether a slot may be given, and one is free.
    fn has_slot_for(&self, slot: bool) -> bool
        ensures { result ≡ has_slot_for slot self.now.slots }
    {
        slot && self.slots.is_free()
    }

    // A channel that begins has a slot, or waits for one.
    fn give_slot(&mut self, seat: u8, slot: bool)
        requires { seat < 64 }
        ensures rest { self.new ≡ record self.old { slots = self.new.slots } }
        ensures exact { self.new ≡ with_seated slot seat self.old }
    {
        let now = self.seats.moment();
        self.slots.release(seat);
        if self.has_slot_for(slot) {
            self.slots.grant(seat, now);
        } else {
            self.slots.wait(seat, now);
        }
    }

    // What is noted of a channel that begins: whether the other peer awaits a datagram to learn this one's address, and which messages
    // of peer exchange it takes.
    fn note_channel(&mut self, seat: u8, is_reply: bool, bytes: &[u8])
        requires { seat < 64 }
        ensures rest { self.new ≡ record self.old { to_prove = self.new.to_prove; supports = self.new.supports } }
        ensures exact { self.new ≡ with_channel is_reply seat bytes.now self.old }
    {
        let descriptor = self.seats.descriptor();
        self.to_prove[seat as usize] = is_reply;
        self.supports[seat as usize] = supported(bytes, &descriptor);
    }

    // A datagram came on a proven channel.
    fn hear_from(&mut self, from: &Address, is_bare: bool)
        ensures rest { self.new ≡ record self.old { pex = self.new.pex; counts = self.new.counts } }
        ensures counts { KeepsCounts self.old.counts self.new.counts }
        ensures exact { HearsFrom from.now is_bare self.old self.new }
    {
        self.pex.heard(from, self.seats.moment());
        if is_bare {
            self.counts.note(Note::KeepAlive);
        }
    }

    // The messages of a datagram are heard on the channel that it is for.
    fn take_arrival<D: Disk>(
        &mut self,
        arrival: Arrival,
        from: &Address,
        bytes: &[u8],
        slot: bool,
        disk: &mut D,
    ) -> Result<(), DiskFault>
        requires seated { IsSeated arrival self.old.seats.table }
        requires behind { IsBehind self.old.seats.descriptor bytes.now arrival }
        ensures advanced { Keeps self.old self.new (D.state disk.old) (D.state disk.new) }
        ensures stocks { OnOk result (Stocks self.old self.new) }
        ensures moment { OnOk result (self.new.seats.moment ≡ self.old.seats.moment) }
        ensures read { OnOk result (IsHeard bytes.now arrival self.old self.new) }
        ensures fetches { OnOk result (Fetches self.old → Fetches self.new) }
        ensures exact { OnOk result (HearsArrival arrival from.now bytes.now slot self.old self.new) }
        ensures cause { self.old.holding.store.live ≡ true
            → HasCause (D.state disk.old).hard (D.state disk.new).hard result }
        ensures dead { OnErr result (self.new.holding.store.live ≡ false) }
    {
        match arrival {
            Arrival::Opened { seat, next } => {
                self.give_slot(seat, slot);
                self.note_channel(seat, false, bytes);
                self.read(seat, bytes, next, disk)
            }
            Arrival::Replied { seat } => {
                self.give_slot(seat, slot);
                self.note_channel(seat, true, bytes);
                self.hear_from(from, false);
                self.read(seat, bytes, 4, disk)
            }
            Arrival::Heard { seat } => {
                self.hear_from(from, bytes.len() == 4);
                self.read(seat, bytes, 4, disk)
            }
            _ => Ok(()),
        }
    }

    // A datagram came from an address at a moment.
    fn take_datagram<D: Disk>(
        &mut self,
        from: &Address,
        bytes: &[u8],
        at: u64,
        disk: &mut D,
    ) -> Result<(), DiskFault>
        ensures advanced { Advanced (with_short bytes.now self.old.counts)
            self.old self.new (D.state disk.old) (D.state disk.new) }
        ensures stocks { OnOk result (Stocks self.old self.new) }
        ensures readies { OnOk result (Readies (Received at (address_of from.now) bytes.now) self.old self.new) }
        ensures fetches { OnOk result (Fetches self.old → Fetches self.new) }
        ensures exact { OnOk result (TakesDatagram from.now bytes.now at self.old self.new) }
        ensures cause { self.old.holding.store.live ≡ true
            → HasCause (D.state disk.old).hard (D.state disk.new).hard result }
        ensures dead { OnErr result (self.new.holding.store.live ≡ false) }
    {
        let slot = self.slots.is_free();
        let arrival = self.seats.arrive(from, bytes, at, slot);
        self.note(note_of(arrival));
        self.take_arrival(arrival, from, bytes, slot, disk)
    }

    // An event came, and its messages were heard.
    fn take_event<D: Disk>(
        &mut self,
        event: &Event,
        bytes: &[u8],
        disk: &mut D,
    ) -> Result<(), DiskFault>
        requires { IsEvent event.now bytes.now }
        ensures advanced { Advanced (with_event event.now bytes.now self.old.counts)
            self.old self.new (D.state disk.old) (D.state disk.new) }
        ensures stocks { OnOk result (Stocks self.old self.new) }
        ensures readies { OnOk result (Readies (record_of event.now bytes.now) self.old self.new) }
        ensures fetches { OnOk result (Fetches self.old → Fetches self.new) }
        ensures exact { OnOk result (TakesEvent event.now bytes.now self.old self.new) }
        ensures cause { self.old.holding.store.live ≡ true
            → HasCause (D.state disk.old).hard (D.state disk.new).hard result }
        ensures dead { OnErr result (self.new.holding.store.live ≡ false) }
    {
        self.counts.note(Note::Turn);
        match *event {
            Event::Datagram { from, at, .. } => {
                self.counts.note(Note::Datagram);
                self.take_datagram(&from, bytes, at, disk)
            }
            Event::Quiet { at } => {
                self.seats.quiet(at);
                Ok(())
            }
        }
    }

    // An event came: its messages are heard, what is due is committed, and the peer looks up.
    fn absorb_event<D: Disk>(
        &mut self,
        event: &Event,
        bytes: &[u8],
        disk: &mut D,
    ) -> Result<(), DiskFault>
        requires { IsEvent event.now bytes.now }
        ensures advanced { Advanced (with_event event.now bytes.now self.old.counts)
            self.old self.new (D.state disk.old) (D.state disk.new) }
        ensures in_time { self.old.holding.store.live ≡ true
            → OnOk result (InTime (is_quiet event.now) self.old self.new) }
        ensures seats { OnOk result (KeepsSeats (record_of event.now bytes.now) self.old self.new) }
        ensures fetches { OnOk result (Fetches self.old → Fetches self.new) }
        ensures exact { OnOk result (Absorbs event.now bytes.now self.old self.new) }
        ensures cause { self.old.holding.store.live ≡ true
            → HasCause (D.state disk.old).hard (D.state disk.new).hard result }
        ensures dead { OnErr result (self.new.holding.store.live ≡ false) }
        ensures live { self.old.holding.store.live ≡ true → OnOk result (self.new.holding.store.live ≡ true) }
    {
        // Its contract tells what is pending, and that puts at one moment and then the end of an event commit in time.
        let _ = self.holding.store();
        laws_of_holdings();
        self.take_event(event, bytes, disk)?;
        let now = self.seats.moment();
        self.holding.settle(is_quiet(event), now, disk)?;
        self.seats.taken();
        // And what is pending once all is settled.
        let _ = self.holding.store();
        Ok(())
    }

    /// An event came: `bytes` are the datagram, empty for a quiet wait. Its messages are heard, chunks that fit are
    /// stored and committed in groups of up to 64, and then the peer looks up. Nothing is sent. After a fault of the
    /// disk the store isn't live.
    pub fn absorb<D: Disk>(
        &mut self,
        event: &Event,
        bytes: &[u8],
        disk: &mut D,
    ) -> Result<(), DiskFault>
        requires { IsEvent event.now bytes.now }
        ensures advanced { Advanced (with_event event.now bytes.now self.old.counts)
            self.old self.new (D.state disk.old) (D.state disk.new) }
        ensures in_time { self.old.holding.store.live ≡ true
            → OnOk result (InTime (is_quiet event.now) self.old self.new) }
        // Whatever it answers, what went stays accounted for; where it answers Ok, the peer stands for what came.
        ensures ledger { (b : Beginning) (past : List Record) → Ledger b self.old past
            → Ledger b self.new (record_of event.now bytes.now ∷ past) }
        ensures stands { OnOk result ((b : Beginning) (most : ℕ) (past : List Record) → StandsFor b most self.old past
            → StandsFor b most self.new (record_of event.now bytes.now ∷ past)) }
        // What each message, and the end of the event, did.
        ensures exact { OnOk result (Absorbs event.now bytes.now self.old self.new) }
        ensures cause { self.old.holding.store.live ≡ true
            → HasCause (D.state disk.old).hard (D.state disk.new).hard result }
        ensures dead { OnErr result (self.new.holding.store.live ≡ false) }
        ensures live { self.old.holding.store.live ≡ true → OnOk result (self.new.holding.store.live ≡ true) }
    {
        let result = self.absorb_event(event, bytes, disk);
        // Its contract tells that the book is one of the swarm.
        let _ = self.holding.book();
        result
    }
}
