//! What an event does to a learner.

ghost use Rattle.std.specs.Prelude.{◌≡◌, ◌≤◌, Some, length};
ghost use Rattle.pp_terms.specs.format.Descriptor.{Descriptor};
ghost use Rattle.pp_outside.specs.Arrivals.{IsEvent};
ghost use Rattle.pp_channels.specs.Seats.{IsUsedSeat};
ghost use Rattle.pp_lives.specs.Arriving.{IsSeated, IsBehind};
ghost use Rattle.pp_targets.specs.Names.{name_of};
ghost use Rattle.pp_learner.specs.Reading.{Tells, messages_from, row_at};
ghost use Rattle.pp_learner.specs.Learners.{IsWhole};
ghost use Rattle.pp_learner.specs.Absorbing.{greeting_note, counted, is_for_zero, after_reading, after_arrival, learned_on, learned_from, TellsBy, TakesDatagram, Absorbs};

use crate::parts::Parts;
use crate::reading::{Ending, count};
use pp_counts::Note;
use pp_lives::{Arrival, First, begin, number_of};
use pp_outside::{Address, Event};
use pp_tree::Descriptor;

// What is counted of a datagram before its messages are read.
fn note_of(arrival: Arrival) -> Option<Note>
    ensures { result ≡ counted arrival }
{
    match arrival {
        Arrival::Short => Some(Note::Short),
        Arrival::NoGreeting | Arrival::NoChannel | Arrival::NoReply { .. } => Some(Note::Stranger),
        Arrival::Unwelcome | Arrival::Late { .. } | Arrival::Differs { .. } => {
            Some(Note::RefusedHandshake)
        }
        Arrival::Unseated => Some(Note::NoSeat),
        Arrival::Cut { .. } => Some(Note::Cut),
        Arrival::Again { .. }
        | Arrival::Given { .. }
        | Arrival::Opened { .. }
        | Arrival::Replied { .. }
        | Arrival::Heard { .. } => None,
    }
}

// Whether a datagram is for channel 0.
fn is_for_zero(bytes: &[u8]) -> bool
    ensures { result ≡ is_for_zero bytes.now }
{
    bytes.len() >= 4 && number_of(bytes) == 0
}

// What is counted of a datagram for channel 0.
fn greeting_note(descriptor: &Descriptor, bytes: &[u8]) -> Note
    requires { 4 ≤ length bytes.now }
    ensures { result ≡ greeting_note descriptor.now bytes.now }
{
    match begin(descriptor, bytes) {
        First::Handshake { .. } | First::Faulty => Note::RefusedHandshake,
        First::Other => Note::Stranger,
    }
}

impl Parts {
    // The messages of a datagram are read on a proven channel, which is dropped where one of them closes it.
    fn read(&mut self, seat: u8, bytes: &[u8]) -> Option<Descriptor>
        requires whole { IsWhole self.old }
        requires used { IsUsedSeat self.old.lives seat }
        requires within { 4 ≤ length bytes.now }
        ensures exact { self.new ≡ after_reading seat bytes.now self.old }
        ensures learned { result ≡ learned_on seat bytes.now self.old }
        ensures tells { (e : Descriptor) → result ≡ Some e
            → Tells (name_of self.old.name) e (messages_from (name_of self.old.name) bytes.now 4).read
            (row_at self.old.rows seat) }
    {
        let ending = self.rows.read(seat, &mut self.counts, &self.name, bytes);
        if ending == Ending::Closed {
            self.lives.close(seat);
        }
        ending.learned()
    }

    // A datagram came, which means this to the channels. Answers the size that it tells.
    fn take_arrival(&mut self, arrival: Arrival, bytes: &[u8]) -> Option<Descriptor>
        requires whole { IsWhole self.old }
        requires seated { IsSeated arrival self.old.lives }
        requires behind { IsBehind self.old.outbox bytes.now arrival }
        ensures exact { self.new ≡ after_arrival arrival bytes.now self.old }
        ensures learned { result ≡ learned_from arrival bytes.now self.old }
        ensures tells { (e : Descriptor) → result ≡ Some e → TellsBy arrival bytes.now self.old e }
    {
        match arrival {
            Arrival::Replied { seat } => {
                self.rows.begin(seat);
                self.read(seat, bytes)
            }
            Arrival::Heard { seat } => {
                if bytes.len() == 4 {
                    self.counts.note(Note::KeepAlive);
                }
                self.read(seat, bytes)
            }
            _ => None,
        }
    }

    // A datagram came from an address.
    fn take_datagram(&mut self, from: &Address, bytes: &[u8]) -> Option<Descriptor>
        requires { IsWhole self.old }
        ensures takes { TakesDatagram from.now bytes.now result self.old self.new }
        ensures whole { IsWhole self.new }
    {
        let descriptor = self.outbox.descriptor();
        if is_for_zero(bytes) {
            self.counts.note(greeting_note(&descriptor, bytes));
            return None;
        }
        let arrival = self.lives.arrive(&descriptor, from, bytes, self.moment);
        count(&mut self.counts, note_of(arrival));
        self.take_arrival(arrival, bytes)
    }

    /// An event came: `bytes` are the datagram, empty for a quiet wait. Its messages are read, where it is for a channel that this
    /// peer dialled; a handshake for channel 0 is refused (RFC 7574, section 3.1). Answers the size of the content, where a DATA tells
    /// it. Nothing is sent.
    pub fn absorb(&mut self, event: &Event, bytes: &[u8]) -> Option<Descriptor>
        requires event { IsEvent event.now bytes.now }
        requires whole { IsWhole self.old }
        ensures absorbs { Absorbs event.now bytes.now result self.old self.new }
        ensures whole { IsWhole self.new }
    {
        self.counts.note(Note::Turn);
        match *event {
            Event::Datagram { from, at, .. } => {
                self.counts.note(Note::Datagram);
                self.moment = at.max(self.moment);
                self.take_datagram(&from, bytes)
            }
            Event::Quiet { at } => {
                self.moment = at.max(self.moment);
                None
            }
        }
    }
}
