//! The messages that come on a channel.

ghost use Rattle.std.specs.Prelude.{◌≡◌, ◌<◌, ◌≤◌, ◌∷◌, ◌&&◌, [], true, false, not, slice_get, slice_index_or, length, List, ℕ, option_map, IfOk, OnOk, OnErr};
ghost use Rattle.pp_fetching.specs.Fetching.{without_request};
ghost use Rattle.pp_terms.specs.Count.{HasCause};
ghost use Rattle.pp_terms.specs.format.Messages.{Data};
ghost use Rattle.pp_wire.specs.Views.{message_of, span_of};
ghost use Rattle.pp_channels.specs.Seats.{IsUsedSeat};
ghost use Rattle.pp_desk.specs.Hearing.{IsNoData};
ghost use Rattle.pp_peer.specs.Taking.{is_closing, note_of, after_some, Keeps, Stores, Takes, Hears, Closes, Reads, read_at};
ghost use Rattle.pp_peer.specs.Messages.{is_proven_in, is_questioned, claims_in, with_address, with_chunk, with_question, got_of};
ghost use Rattle.pp_peer.specs.Messages.{Does, EndsWait, GivesBackOf, HearsAllOf, Heeds, Offers, Puts, ReadsAll, Shuts, TakesData, TakesOther};
ghost use Rattle.pp_seat.specs.Lines.{inside};
ghost use Rattle.pp_counts.specs.Counts.{after_note};
ghost use Rattle.pp_terms.specs.disk.Disk.{DiskState};
ghost use Rattle.pp_seats.specs.Hearing.{ChangesSeat, HearsAll};
ghost use Rattle.pp_peer.specs.Standing.{asked_of, own_in, Fetches};
ghost use Rattle.pp_fetching.specs.Owners.{awaits};
ghost use Rattle.pp_terms.specs.format.Descriptor.{chunks_of};

use crate::parts::Parts;
use pp_counts::Note;
use pp_desk::inside;
use pp_holding::{Parcel, Ticket};
use pp_outside::{Address, Disk, DiskFault};
use pp_store::Put;
use pp_tree::Descriptor;
use pp_wire::{Message, Span, Step, next};

/// A chunk that came, and the other peer's moment, in microseconds.
#[derive(Clone, Copy)]
struct Incoming<'a> {
    chunk: u64,
    sent_at: u64,
    bytes: &'a [u8],
}

// What is counted of bytes that came as a chunk.
fn note_of(put: Put) -> Note
    ensures { result ≡ note_of put }
{
    match put {
        Put::Stored => Note::Stored,
        Put::Held => Note::Repeat,
        Put::Missing(_) => Note::Missing,
        Put::Wrong { .. } | Put::Length { .. } => Note::Wrong,
    }
}

// Whether a message closes the channel on which it comes.
fn is_closing<'m>(message: &'m Message<'m>) -> bool
    ensures { result ≡ is_closing (message_of message.now) }
{
    match *message {
        Message::Handshake { source, .. } => source == 0,
        _ => false,
    }
}

impl Parts {
    // What bytes that came as a chunk were worth is counted, and a chunk that was stored is no longer wanted.
    fn heed_put(&mut self, put: Put, chunk: u32)
        ensures rest { self.new ≡ record self.old { fetching = self.new.fetching; counts = self.new.counts } }
        ensures counts { self.new.counts ≡ after_note (note_of put) self.old.counts }
        ensures asked { asked_of self.new.fetching ≡ asked_of self.old.fetching }
        ensures got { self.new.fetching ≡ got_of put chunk self.old.fetching }
    {
        self.counts.note(note_of(put));
        if put == Put::Stored {
            self.got(chunk);
        }
    }

    // A chunk is no longer wanted.
    fn got(&mut self, chunk: u32)
        ensures rest { self.new ≡ record self.old { fetching = self.new.fetching } }
        ensures asked { asked_of self.new.fetching ≡ asked_of self.old.fetching }
        ensures got { self.new.fetching ≡ option_map (with_chunk chunk) self.old.fetching }
    {
        match &mut self.fetching {
            Some(fetching) => fetching.got(chunk),
            None => {}
        }
    }

    // Bytes that came as a chunk are given to the store.
    fn put<D: Disk>(&mut self, parcel: &Parcel<'_>, disk: &mut D) -> Result<(), DiskFault>
        requires seat { parcel.now.ticket.seat < 64 }
        requires content { parcel.now.ticket.chunk < chunks_of self.old.holding.store.descriptor }
        requires moment { parcel.now.at ≡ self.old.seats.moment }
        ensures keeps { Keeps self.old self.new (D.state disk.old) (D.state disk.new) }
        ensures stores { OnOk result ((stored : List ℕ) × Stores stored self.old self.new) }
        ensures exact { OnOk result (Puts parcel.now.ticket parcel.now.bytes.now
            (claims_in (slice_get self.old.seats.seats parcel.now.ticket.seat)) self.old self.new) }
        ensures seats { self.new.seats ≡ self.old.seats }
        ensures asked { asked_of self.new.fetching ≡ asked_of self.old.fetching }
        ensures cause { self.old.holding.store.live ≡ true
            → HasCause (D.state disk.old).hard (D.state disk.new).hard result }
        ensures dead { OnErr result (self.new.holding.store.live ≡ false) }
    {
        let claims = self.seats.seat(parcel.ticket.seat).claims();
        // Their contracts tell that the book is rooted, and that what waits is what is pending.
        let _ = self.holding.book();
        let put = self.holding.put(parcel, claims, disk)?;
        self.heed_put(put, parcel.ticket.chunk);
        let _ = self.holding.store();
        Ok(())
    }

    // A chunk is asked for nowhere any more.
    fn give_back(&mut self, chunk: u64)
        ensures { self.new ≡ record self.old { fetching = option_map (without_request chunk) self.old.fetching } }
    {
        let Some(fetching) = &mut self.fetching else {
            return;
        };
        if chunk < u64::from(fetching.chunks()) {
            fetching.give_back(chunk as u32);
        }
    }

    // What is asked for on a seat's channel may be asked for elsewhere.
    fn give_back_all(&mut self, seat: u8)
        requires { seat < 64 }
        ensures rest { self.new ≡ record self.old { fetching = self.new.fetching } }
        ensures asked { (i : ℕ) → slice_index_or (asked_of self.new.fetching) i false
            ≡ (slice_index_or (asked_of self.old.fetching) i false
            && not (awaits (own_in self.old.seats.seats seat) i)) }
        ensures exact { GivesBackOf (own_in self.old.seats.seats seat) self.old.fetching self.new.fetching }
    {
        let entries = self.seats.seat(seat).awaited();
        match &mut self.fetching {
            Some(fetching) => fetching.give_back_all(entries),
            None => {}
        }
    }

    // A DATA ends the wait for its chunk, whatever it is worth.
    fn hear_chunk(&mut self, seat: u8, chunk: u64)
        requires { seat < 64 }
        ensures heard { (sent_at : ℕ) (bytes : List ℕ)
            → ChangesSeat seat (HearsAll self.old.seats.moment (Data chunk sent_at bytes ∷ []))
            self.old.seats self.new.seats }
        ensures rest { self.new ≡ record self.old { seats = self.new.seats; fetching = self.new.fetching } }
        ensures fetches { Fetches self.old → Fetches self.new }
        ensures exact { EndsWait seat chunk self.old self.new }
    {
        if self.seats.heard_data(seat, chunk) {
            self.give_back(chunk);
        }
    }

    // Whether something came for this peer's number on a seat's channel.
    fn is_seat_proven(&self, seat: u8) -> bool
        requires { seat < 64 }
        ensures { result ≡ is_proven_in (slice_get self.now.seats.seats seat) }
    {
        self.seats.seat(seat).is_proven()
    }

    // A DATA came. Where its channel is proven it ends the wait for its chunk, and the store judges its bytes.
    fn take_data<D: Disk>(
        &mut self,
        seat: u8,
        incoming: &Incoming<'_>,
        disk: &mut D,
    ) -> Result<(), DiskFault>
        requires { seat < 64 }
        ensures keeps { Keeps self.old self.new (D.state disk.old) (D.state disk.new) }
        ensures takes { OnOk result (Takes seat
            (Data incoming.now.chunk incoming.now.sent_at incoming.now.bytes.now ∷ [])
            self.old self.new (D.state disk.old) (D.state disk.new)) }
        ensures exact { OnOk result (TakesData seat incoming.now.chunk incoming.now.sent_at incoming.now.bytes.now
            self.old self.new) }
        ensures cause { self.old.holding.store.live ≡ true
            → HasCause (D.state disk.old).hard (D.state disk.new).hard result }
        ensures dead { OnErr result (self.new.holding.store.live ≡ false) }
    {
        self.hear_chunk(seat, incoming.chunk);
        if incoming.chunk >= u64::from(self.holding.chunks()) {
            self.counts.note(Note::Outside);
            return Ok(());
        }
        if !self.is_seat_proven(seat) {
            return Ok(());
        }
        let at = self.seats.moment();
        let ticket = Ticket {
            chunk: incoming.chunk as u32,
            seat,
            delay: at.wrapping_sub(incoming.sent_at),
        };
        let parcel = Parcel {
            ticket,
            bytes: incoming.bytes,
            at,
        };
        self.put(&parcel, disk)
    }

    // Chunks of the content are offered on a seat's channel.
    fn offer(&mut self, seat: u8, span: Span)
        requires { seat < 64 }
        ensures rest { self.new ≡ record self.old { fetching = self.new.fetching } }
        ensures asked { asked_of self.new.fetching ≡ asked_of self.old.fetching }
        ensures exact { Offers seat (inside (chunks_of self.old.holding.store.descriptor) (span_of span))
            self.old.fetching self.new.fetching }
    {
        let Some(range) = inside(span, self.holding.chunks()) else {
            return;
        };
        match &mut self.fetching {
            Some(fetching) => fetching.offer(seat, range),
            None => {}
        }
    }

    // Whether addresses of other peers were asked for on a seat's channel, which is proven.
    fn is_questioned(&self, seat: u8) -> bool
        requires { seat < 64 }
        ensures { result ≡ is_questioned self.now.seats.moment (slice_get self.now.seats.seats seat) }
    {
        let known = self.seats.seat(seat);
        known.is_proven() && known.is_awaited(self.seats.moment())
    }

    // An address of another peer came; where it was asked for, that peer may be dialled.
    fn suggest(&mut self, seat: u8, address: &Address)
        requires { seat < 64 }
        ensures rest { self.new ≡ record self.old { pex = self.new.pex } }
        ensures exact { self.new ≡ record self.old { pex = with_address seat address.now self.old } }
    {
        if self.is_questioned(seat) {
            self.pex.suggest(address);
        }
    }

    // Addresses of other peers are asked for on a seat's channel; that is noted where it is proven.
    fn question(&mut self, seat: u8)
        requires { seat < 64 }
        ensures { self.new ≡ record self.old { questions = with_question seat self.old } }
    {
        if self.is_seat_proven(seat) {
            self.questions[seat as usize] = true;
        }
    }

    // What a message that isn't a DATA means beside its seat.
    fn heed_message<'m>(&mut self, seat: u8, message: &'m Message<'m>)
        requires { seat < 64 }
        ensures rest { self.new
            ≡ record self.old { fetching = self.new.fetching; pex = self.new.pex; questions = self.new.questions } }
        ensures heeds { Heeds seat (message_of message.now) self.old self.new }
    {
        match *message {
            Message::Have { span } => self.offer(seat, span),
            Message::Choke => self.give_back_all(seat),
            Message::PexReq => self.question(seat),
            Message::Pex4 { address, port } => self.suggest(seat, &Address::V4(address, port)),
            Message::Pex6 { address, port } => self.suggest(seat, &Address::V6(address, port)),
            _ => {}
        }
    }

    // Something is counted, or nothing.
    pub(crate) fn note(&mut self, note: Option<Note>)
        ensures { self.new ≡ record self.old { counts = after_some note self.old.counts } }
    {
        match note {
            Some(note) => self.counts.note(note),
            None => {}
        }
    }

    // A message that isn't a DATA, and doesn't close its channel, is heard there.
    fn take_other<'m>(&mut self, seat: u8, message: &'m Message<'m>)
        requires seat { seat < 64 }
        requires kind { IsNoData (message_of message.now) }
        ensures takes { (disk : DiskState) → Takes seat (message_of message.now ∷ []) self.old self.new disk disk }
        ensures exact { TakesOther seat (message_of message.now) self.old self.new }
    {
        self.heed_message(seat, message);
        let noted = self.seats.hear(seat, message);
        self.note(noted);
    }

    // A message that doesn't close its channel is heard there.
    fn take<'m, D: Disk>(
        &mut self,
        seat: u8,
        message: &'m Message<'m>,
        disk: &mut D,
    ) -> Result<(), DiskFault>
        requires { seat < 64 }
        ensures keeps { Keeps self.old self.new (D.state disk.old) (D.state disk.new) }
        ensures takes { OnOk result (Takes seat (message_of message.now ∷ [])
            self.old self.new (D.state disk.old) (D.state disk.new)) }
        ensures exact { OnOk result (Does seat (message_of message.now) self.old self.new) }
        ensures cause { self.old.holding.store.live ≡ true
            → HasCause (D.state disk.old).hard (D.state disk.new).hard result }
        ensures dead { OnErr result (self.new.holding.store.live ≡ false) }
    {
        match *message {
            Message::Data {
                chunk,
                sent_at,
                bytes,
            } => {
                let incoming = Incoming {
                    chunk,
                    sent_at,
                    bytes,
                };
                self.take_data(seat, &incoming, disk)
            }
            _ => {
                self.take_other(seat, message);
                Ok(())
            }
        }
    }

    // The messages of a datagram from a byte on are heard on a seat, up to one that closes its channel. Answers whether
    // one does.
    fn take_all<D: Disk>(
        &mut self,
        descriptor: &Descriptor,
        seat: u8,
        bytes: &[u8],
        start: usize,
        disk: &mut D,
    ) -> Result<bool, DiskFault>
        requires seat { seat < 64 }
        requires within { start ≤ length bytes.now }
        ensures keeps { Keeps self.old self.new (D.state disk.old) (D.state disk.new) }
        ensures hears { IfOk result (λ is_closed.
            Hears seat (read_at descriptor.now bytes.now start) is_closed
            self.old self.new (D.state disk.old) (D.state disk.new)) }
        ensures exact { IfOk result (λ is_closed.
            HearsAllOf seat descriptor.now bytes.now start is_closed self.old self.new) }
        ensures cause { self.old.holding.store.live ≡ true
            → HasCause (D.state disk.old).hard (D.state disk.new).hard result }
        ensures dead { OnErr result (self.new.holding.store.live ≡ false) }
    {
        // Its contract tells that there is such a seat.
        let _ = self.seats.seat(seat);
        let mut at = start;
        'messages: loop {
            match next(bytes, at, descriptor.method(), descriptor.chunk()) {
                Step::Message { message, next } => {
                    if is_closing(&message) {
                        return Ok(true);
                    }
                    self.take(seat, &message, disk)?;
                    at = next;
                }
                Step::End => return Ok(false),
                Step::Cut(_) => {
                    self.counts.note(Note::Cut);
                    return Ok(false);
                }
            }
        }
    }

    // The channel of a seat is dropped, with all that was kept of it.
    fn drop_channel(&mut self, seat: u8)
        requires { IsUsedSeat self.old.seats.table seat }
        ensures closes { Closes seat self.old self.new }
        ensures shuts { Shuts seat self.old self.new }
    {
        self.seats.close(seat);
        self.clear_seat(seat);
    }

    /// The messages of a datagram from a byte on are heard on a seat, which is dropped where one of them closes its
    /// channel.
    pub(crate) fn read<D: Disk>(
        &mut self,
        seat: u8,
        bytes: &[u8],
        start: usize,
        disk: &mut D,
    ) -> Result<(), DiskFault>
        requires used { IsUsedSeat self.old.seats.table seat }
        requires within { start ≤ length bytes.now }
        ensures keeps { Keeps self.old self.new (D.state disk.old) (D.state disk.new) }
        ensures reads { OnOk result (Reads seat (read_at self.old.seats.descriptor bytes.now start)
            self.old self.new (D.state disk.old) (D.state disk.new)) }
        ensures exact { OnOk result (ReadsAll seat self.old.seats.descriptor bytes.now start self.old self.new) }
        ensures cause { self.old.holding.store.live ≡ true
            → HasCause (D.state disk.old).hard (D.state disk.new).hard result }
        ensures dead { OnErr result (self.new.holding.store.live ≡ false) }
    {
        let descriptor = self.seats.descriptor();
        if self.take_all(&descriptor, seat, bytes, start, disk)? {
            self.drop_channel(seat);
        }
        Ok(())
    }
}
