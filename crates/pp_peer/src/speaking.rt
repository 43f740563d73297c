//! What is said on the channels beside handshakes and chunks (RFC 7574, section 3).

ghost use Rattle.std.specs.Prelude.{◌≡◌, ◌<◌, ◌≤◌, true, false, Some, ◌^◌, ℕ, ◌||◌, is_some, slice_get, slice_index_or, length, filter, IfOk, MatchOption};
ghost use Rattle.std.specs.List.{AllByRecursion};
ghost use Rattle.pp_terms.specs.disk.Disk.{moment_of};
ghost use Rattle.pp_terms.specs.tree.Range.{Span};
ghost use Rattle.pp_channels.specs.Seats.{channel_at};
ghost use Rattle.pp_lives.specs.Fars.{far_of};
ghost use Rattle.pp_draft.specs.Notes.{IsInside};
ghost use Rattle.pp_desk.specs.Steps.{IsPlain};
ghost use Rattle.pp_seats.specs.Sending.{IsMute, opening_at};
ghost use Rattle.pp_fetching.specs.Fetching.{HasPicked, ArePicked};
ghost use Rattle.pp_news.specs.News.{AreRunsOf};
ghost use Rattle.pp_agenda.specs.Agendas.{most_notes};
ghost use Rattle.pp_peer.specs.Flushing.{Flushes};
ghost use Rattle.pp_peer.specs.Standing.{IsWhole};
ghost use Rattle.pp_peer.specs.Speaking.{SetsBack, is_taken, AreAddresses, Picks, AreCancels, Fills, Says, Settles, SpeaksTo, was_choked, Attends, SpeaksOn, TurnsTo, SpeaksAll};
ghost use Rattle.pp_seats.specs.Reading.{is_due_at};

use crate::parts::Parts;
use crate::supporting::Supports;
use arrayvec::ArrayVec;
use pp_agenda::{Agenda, Due, awaited_ranges};
use pp_avail::{Rank, Ranker, by_blocks};
use pp_counts::Note;
use pp_desk::Delivered;
use pp_draft::Note as Said;
use pp_fetching::Fetching;
use pp_lives::Far;
use pp_news::News;
use pp_outside::{Address, Disk, Link};
use pp_ranges::{ChunkRange, RangeList};
use pp_seat::Turn;
use std::alloc::{AllocError, Global};

/// What the notes of one channel after the other are put together with: room for the most that are ever due.
#[derive(Drop)]
pub struct Speaker {
    pub(crate) agenda: Agenda,
    pub(crate) news: News,
    // In which order chunks are asked for.
    pub(crate) order: Rank,
}

// What ranks chunks by how many seats have them.
fn copies_of(_i: u32, copies: u32) -> u32
    ensures { result ≡ copies }
{
    copies
}

// What ranks all chunks alike.
fn zero(_i: u32, _copies: u32) -> u32
    ensures { result ≡ 0 }
{
    0
}

// Picks chunks to ask of a seat, at most so many, in this order.
fn pick_by(order: Rank, fetching: &mut Fetching, seat: u8, room: u32) -> RangeList
    requires seat { seat < 64 }
    requires room { room ≤ 32 }
    ensures in_turn { HasPicked order seat room fetching.old result fetching.new }
    ensures picked { ArePicked seat room fetching.old result fetching.new }
{
    match order {
        Rank::Sequential => fetching.pick(seat, room, &Ranker::new(Rank::Sequential, zero)),
        Rank::Rarest => fetching.pick(seat, room, &Ranker::new(Rank::Rarest, copies_of)),
        Rank::Blocks => fetching.pick(seat, room, &Ranker::new(Rank::Blocks, by_blocks)),
    }
}

/// Whom notes go to.
#[derive(Clone, Copy)]
pub(crate) struct Hearer {
    pub(crate) seat: u8,
    pub(crate) far: Far,
    // Whether this peer's handshake is due on the channel, and goes before the notes.
    pub(crate) greets: bool,
}

impl Speaker {
    /// Chunks will be asked for in this order. All memory that is ever needed is taken here.
    pub fn new(alloc: Global, order: Rank) -> Result<Speaker, AllocError>
        ensures { IfOk result (λ s. s.order ≡ order) }
    {
        let agenda = Agenda::new(alloc)?;
        let news = News::new(alloc)?;
        Ok(Speaker {
            agenda,
            news,
            order,
        })
    }
}

// Whether a CHOKE that was due isn't any more.
fn was_choked(before: Option<Turn>, after: Option<Turn>) -> bool
    ensures { result ≡ was_choked before after }
{
    match (before, after) {
        (Some(Turn::Choke), None) => true,
        _ => false,
    }
}

// Whether a peer takes an address: an IPv6 one only where it takes such.
fn is_taken(address: Address, v6: bool) -> bool
    ensures { result ≡ is_taken v6 address }
{
    match address {
        Address::V4(..) => true,
        Address::V6(..) => v6,
    }
}

// Leaves those of some addresses that a peer takes.
fn keep_taken(addresses: &mut ArrayVec<Address, 16>, v6: bool)
    ensures { addresses.new.items ≡ filter (is_taken v6) addresses.old.items }
{
    addresses.retain(|address| is_taken(*address, v6));
}

impl Parts {
    // Which messages of peer exchange a seat's peer takes.
    fn supports_of(&self, seat: u8) -> Supports
        requires { seat < 64 }
        ensures { slice_get self.now.supports seat ≡ Some result }
    {
        self.supports[seat as usize]
    }

    // Picks chunks to ask for on a seat's channel, as many as there is room for, and notes them as asked for. None where this peer
    // doesn't fetch, the channel isn't proven, or its peer chokes.
    fn pick(&mut self, seat: u8, order: Rank) -> RangeList
        requires { seat < 64 }
        ensures { Picks order seat result self.old self.new }
    {
        let known = self.seats.seat(seat);
        let room = known.room();
        let may = known.is_proven() && known.may_ask();
        match &mut self.fetching {
            Some(fetching) if may => pick_by(order, fetching, seat, room),
            _ => RangeList::new(),
        }
    }

    // The chunks that are awaited on a seat's channel and were committed.
    fn cancels(&self, seat: u8) -> RangeList
        requires seat { seat < 64 }
        ensures { AreCancels seat result self.now }
    {
        // Its contract tells of how many chunks it may be.
        let _ = self.holding.store();
        awaited_ranges(
            self.seats.seat(seat).awaited(),
            self.holding.committed(),
            self.holding.chunks(),
        )
    }

    // The addresses that a seat's peer is to be told: those heard lately but its own, of those that it takes, where it asked for some,
    // and was told none for 10 seconds.
    fn addresses_for(&self, seat: u8, own: &Address) -> ArrayVec<Address, 16>
        requires { seat < 64 }
        ensures { AreAddresses seat own.now self.now result.items }
    {
        let known = self.seats.seat(seat);
        let takes = self.supports_of(seat);
        let now = self.seats.moment();
        if !self.questions[seat as usize] {
            return ArrayVec::new();
        }
        if !known.may_answer(now) {
            return ArrayVec::new();
        }
        let mut addresses = self.pex.answer(own, now);
        keep_taken(&mut addresses, takes.v6);
        addresses
    }

    // Puts together the notes that are due on a channel.
    fn fill(&self, hearer: &Hearer, requests: &RangeList, speaker: &mut Speaker)
        requires seat { hearer.now.seat < 64 }
        requires whole { IsWhole self.now }
        ensures { Fills hearer.now requests.now self.now speaker.old speaker.new }
    {
        // Their contracts tell of which content the seats are, and what is committed.
        let _ = self.seats.far(hearer.seat);
        let _ = self.holding.store();
        let seat = hearer.seat;
        let known = self.seats.seat(seat);
        let now = self.seats.moment();
        speaker.news.acknowledge(
            seat,
            self.holding.tickets(),
            self.holding.repeats(),
            self.holding.committed(),
        );
        let addresses = self.addresses_for(seat, &hearer.far.address);
        let asks = self.fetching.is_some() && self.supports_of(seat).requests;
        let due = Due {
            committed: self.holding.committed(),
            tells: known.is_proven() || hearer.greets,
            acknowledgements: speaker.news.acknowledgements(),
            news: speaker.news.ranges(),
            requests,
            asks_addresses: asks && known.may_question(now),
            addresses: addresses.as_slice(),
            is_silent: self.to_prove[seat as usize] || self.seats.is_silent(seat),
        };
        speaker.agenda.fill(known, &due);
    }

    // Sends notes on a seat's channel, behind this peer's handshake where that is due, and counts the datagrams: what its peer asked
    // for of addresses was answered then, or passed over. None where nothing can be said there.
    fn say<D: Disk, L: Link>(
        &mut self,
        seat: u8,
        notes: &[Said],
        disk: &D,
        link: &mut L,
    ) -> Option<Delivered>
        requires seat { seat < 64 }
        requires plain { AllByRecursion IsPlain notes.now }
        requires inside { AllByRecursion (IsInside self.old.seats.descriptor) notes.now }
        requires few { length notes.now < 2 ^ 32 }
        ensures { MatchOption result
            (IsMute (opening_at self.old.seats seat) (far_of (channel_at self.old.seats.table seat)) × (self.new ≡ self.old) × (L.seen link.new ≡ L.seen link.old))
            (λ delivered. Says seat notes.now (moment_of (D.state disk.now).history) delivered self.old self.new
            (L.seen link.old) (L.seen link.new)) }
    {
        let delivered = self.seats.speak(seat, notes, disk, link)?;
        self.counts.note_all(Note::Sent, delivered.sent);
        self.counts.note_all(Note::SendFault, delivered.refused);
        self.questions[seat as usize] = false;
        if delivered.sent > 0 {
            self.to_prove[seat as usize] = false;
        }
        Some(delivered)
    }

    // What was to be asked for on a seat's channel and isn't awaited there, since a datagram was refused, and what was awaited there
    // and is cancelled, may be asked for elsewhere.
    fn settle(&mut self, seat: u8, picks: &RangeList, cancels: &RangeList)
        requires { seat < 64 }
        ensures { Settles seat picks.now cancels.now self.old self.new }
    {
        let known = self.seats.seat(seat);
        match &mut self.fetching {
            Some(fetching) => {
                fetching.settle(picks, known);
                fetching.settle(cancels, known);
            }
            None => {}
        }
    }

    // On a channel that isn't proven, all committed chunks are to be told of behind this peer's handshake, whenever that goes; and else
    // those from the first on that was committed now.
    fn set_back(&mut self, seat: u8, greets: bool, news: &[ChunkRange])
        requires { seat < 64 }
        ensures { SetsBack seat greets news.now self.old self.new }
    {
        if self.seats.seat(seat).is_proven() {
            return;
        }
        if greets {
            self.seats.rewind(seat, 0);
        } else if let Some(range) = news.first() {
            self.seats.rewind(seat, range.first());
        }
    }

    // Says what is due on a channel whose other peer's number is known, and to which a handshake was sent or is due. Answers how many
    // datagrams the link refused.
    fn speak_to<D: Disk, L: Link>(
        &mut self,
        hearer: &Hearer,
        speaker: &mut Speaker,
        disk: &D,
        link: &mut L,
    ) -> u32
        requires seat { hearer.now.seat < 64 }
        requires far { far_of (channel_at self.old.seats.table hearer.now.seat) ≡ Some hearer.now.far }
        requires due { hearer.now.greets ≡ is_due_at self.old.seats.moment (channel_at self.old.seats.table hearer.now.seat) }
        requires begun { hearer.now.greets ≡ false → hearer.now.far.begun ≡ true }
        requires whole { IsWhole self.old }
        requires gathered { AreRunsOf self.old.holding.queue.tickets speaker.old.news.ranges }
        ensures speaks { SpeaksTo hearer.now result speaker.old speaker.new
            (record { parts = self.old; link = L.seen link.old; disk = D.state disk.now })
            (record { parts = self.new; link = L.seen link.new; disk = D.state disk.now }) }
        ensures whole { IsWhole self.new }
        ensures flushes { Flushes result
            (record { parts = self.old; link = L.seen link.old; disk = D.state disk.now })
            (record { parts = self.new; link = L.seen link.new; disk = D.state disk.now }) }
    {
        // Its contract tells which chunks the tickets are of.
        let _ = self.holding.store();
        let picks = self.pick(hearer.seat, speaker.order);
        let cancels = self.cancels(hearer.seat);
        self.fill(hearer, &picks, speaker);
        let Some(delivered) = self.say(hearer.seat, speaker.agenda.notes(), disk, link) else {
            return 0;
        };
        self.settle(hearer.seat, &picks, &cancels);
        delivered.refused
    }

    // Where a CHOKE was due on a seat's channel and was sent, the seat has no slot any more.
    fn attend(&mut self, seat: u8, turn: Option<Turn>)
        requires { seat < 64 }
        ensures { Attends seat turn self.old self.new }
    {
        let left = self.seats.seat(seat).due();
        if was_choked(turn, left) {
            self.give_up_slot(seat);
        }
    }

    /// Says on a channel what is due there: CHOKE or UNCHOKE, ACKs of what came there, HAVEs of what was committed,
    /// REQUESTs, CANCELs, and peer exchange, or a keep-alive (RFC 7574, section 3), behind this peer's handshake where that is due.
    /// Answers how many datagrams the link refused.
    pub(crate) fn speak<D: Disk, L: Link>(
        &mut self,
        hearer: &Hearer,
        speaker: &mut Speaker,
        disk: &D,
        link: &mut L,
    ) -> u32
        requires seat { hearer.now.seat < 64 }
        requires far { far_of (channel_at self.old.seats.table hearer.now.seat) ≡ Some hearer.now.far }
        requires due { hearer.now.greets ≡ is_due_at self.old.seats.moment (channel_at self.old.seats.table hearer.now.seat) }
        requires begun { hearer.now.greets ≡ false → hearer.now.far.begun ≡ true }
        requires whole { IsWhole self.old }
        requires gathered { AreRunsOf self.old.holding.queue.tickets speaker.old.news.ranges }
        ensures speaks { SpeaksOn hearer.now result speaker.old speaker.new
            (record { parts = self.old; link = L.seen link.old; disk = D.state disk.now })
            (record { parts = self.new; link = L.seen link.new; disk = D.state disk.now }) }
        ensures few { result ≤ most_notes }
        ensures whole { IsWhole self.new }
        ensures gathered { speaker.new.news.ranges ≡ speaker.old.news.ranges }
        ensures flushes { Flushes result
            (record { parts = self.old; link = L.seen link.old; disk = D.state disk.now })
            (record { parts = self.new; link = L.seen link.new; disk = D.state disk.now }) }
    {
        self.set_back(hearer.seat, hearer.greets, speaker.news.ranges());
        let turn = self.seats.seat(hearer.seat).due();
        let refused = self.speak_to(hearer, speaker, disk, link);
        self.attend(hearer.seat, turn);
        refused
    }

    // Says what is due on a seat's channel, behind this peer's handshake where that is due. Where a dial awaits its reply, the
    // handshake goes alone.
    fn turn_to<D: Disk, L: Link>(
        &mut self,
        seat: u8,
        speaker: &mut Speaker,
        disk: &D,
        link: &mut L,
    ) -> u32
        requires seat { seat < 64 }
        requires whole { IsWhole self.old }
        requires gathered { AreRunsOf self.old.holding.queue.tickets speaker.old.news.ranges }
        ensures turns { TurnsTo seat result speaker.old speaker.new
            (record { parts = self.old; link = L.seen link.old; disk = D.state disk.now })
            (record { parts = self.new; link = L.seen link.new; disk = D.state disk.now }) }
        ensures few { result ≤ most_notes }
        ensures whole { IsWhole self.new }
        ensures gathered { speaker.new.news.ranges ≡ speaker.old.news.ranges }
        ensures flushes { Flushes result
            (record { parts = self.old; link = L.seen link.old; disk = D.state disk.now })
            (record { parts = self.new; link = L.seen link.new; disk = D.state disk.now }) }
    {
        let Some(far) = self.seats.far(seat) else {
            self.greet(seat, disk, link);
            return 0;
        };
        let greets = self.seats.is_greeting_due(seat);
        if !greets && !far.begun {
            return 0;
        }
        let hearer = Hearer { seat, far, greets };
        self.speak(&hearer, speaker, disk, link)
    }

    /// Says what is due on each channel, by rising seat, and sends this peer's handshakes that are due there. Answers how many
    /// datagrams to peers of a known number the link refused.
    pub fn speak_all<D: Disk, L: Link>(
        &mut self,
        speaker: &mut Speaker,
        disk: &D,
        link: &mut L,
    ) -> u32
        requires { IsWhole self.old }
        ensures speaks { SpeaksAll result speaker.old speaker.new
            (record { parts = self.old; link = L.seen link.old; disk = D.state disk.now })
            (record { parts = self.new; link = L.seen link.new; disk = D.state disk.now }) }
        ensures few { result ≤ 70_336 }
        ensures whole { IsWhole self.new }
        ensures flushes { Flushes result
            (record { parts = self.old; link = L.seen link.old; disk = D.state disk.now })
            (record { parts = self.new; link = L.seen link.new; disk = D.state disk.now }) }
    {
        speaker.news.gather(self.holding.tickets());
        let mut refused: u32 = 0;
        for seat in 0..64 {
            refused += self.turn_to(seat, speaker, disk, link);
        }
        refused
    }
}
