//! The notes of one seat.

ghost use Rattle.std.specs.Prelude.{◌≡◌, ◌≤◌, ◌<◌, ◌+◌, ◌&&◌, ◌||◌, [], ◌∷◌, ◌++◌, map, length, IfOk};
ghost use Rattle.pp_draft.specs.declared.note.Note.TheVariants as variants;
ghost use Rattle.pp_seat.specs.Turns.{due_turn};
ghost use Rattle.pp_agenda.specs.Agendas.{only, or_keep_alive, turn_notes, ack_note, have_note, request_note, address_note, parts_below, most_rows, most_notes, HasRows, HasCancels, IsAgenda};

use crate::ranges::{awaited_ranges, next_row, part_below};
use pp_draft::Note;
use pp_news::Acknowledgement;
use pp_outside::Address;
use pp_ranges::{ChunkRange, RangeList};
use pp_seat::{Seat, Turn};
use pp_tree::ChunkSet;
use std::alloc::{AllocError, Global};
use std::marker::Model;

// One CHOKE or UNCHOKE, 614 ACK, 307 and 64 HAVE, 64 REQUEST, 32 CANCEL, one PEX_REQ and 16 addresses.
const MOST_NOTES: usize = 1_099;

// So many rows of committed chunks are told of at the most.
const MOST_ROWS: u32 = 64;

/// What is due on a channel beside what its seat tells itself.
#[derive(Clone, Copy)]
pub struct Due<'a> {
    /// The chunks of the content that may be told of.
    pub committed: &'a ChunkSet,
    /// Whether HAVE may go: the channel is proven, or this peer's reply goes before the notes.
    pub tells: bool,
    /// What came and is to be acknowledged, at most 614.
    pub acknowledgements: &'a [Acknowledgement],
    /// Chunks that were committed since the last turn, in at most 307 rising ranges.
    pub news: &'a [ChunkRange],
    /// Chunks to ask for on this channel.
    pub requests: &'a RangeList,
    /// Whether the other peer is to be asked for addresses.
    pub asks_addresses: bool,
    /// At most 16 addresses of other peers, if the other peer asked for some.
    pub addresses: &'a [Address],
    /// Whether a datagram is due even if there is nothing to say.
    pub is_silent: bool,
}

/// The notes that are due on the channel of one seat, with room for the most that ever are. One serves all seats in turn.
#[derive(Drop)]
pub struct Agenda {
    notes: Vec<Note>,
}

impl Model for Agenda {
    ghost use Rattle.std.specs.Prelude.{List, ◌≤◌, vec_len, vec_capacity};
    ghost use Rattle.pp_draft.specs.declared.note.Note.{Note};

    ghost Value = { List Note };

    ghost view = { λ a. a.notes.items };

    ghost invariant = { λ a. (vec_len a.notes ≤ 1099) × (1099 ≤ vec_capacity a.notes) };
}

impl Agenda {
    /// No note is due. It takes the memory for all that will ever be.
    pub fn new(alloc: Global) -> Result<Agenda, AllocError>
        ensures { IfOk result (λ agenda. agenda ≡ []) }
    {
        let notes = Vec::with_capacity(alloc, MOST_NOTES)?;
        Ok(Agenda { notes })
    }

    /// The notes become those that are due on a seat's channel: CHOKE or UNCHOKE, ACK, HAVE, REQUEST, CANCEL, PEX_REQ and
    /// addresses, in this order. Before the channel is proven these are only CHOKE and HAVE. KEEPALIVE is due alone.
    pub fn fill(&mut self, seat: &Seat, due: &Due<'_>)
        requires chunks { length due.now.committed.now ≡ seat.now.told.chunks }
        requires acknowledgements { length due.now.acknowledgements.now ≤ 614 }
        requires news { length due.now.news.now ≤ 307 }
        requires addresses { length due.now.addresses.now ≤ 16 }
        ensures { IsAgenda seat.now due.now self.new }
    {
        self.notes.clear();
        self.add_turn(seat);
        self.add_acknowledgements(seat, due.acknowledgements);
        self.add_news(seat, due);
        self.add_rows(seat, due);
        self.add_requests(seat, due.requests);
        self.add_cancels(seat, due.committed);
        self.add_address_request(seat, due);
        self.add_addresses(seat, due.addresses);
        self.add_keep_alive(seat, due);
    }

    /// The notes that are due, in the order in which they are to be sent.
    pub fn notes(&self) -> &[Note]
        ensures same { result.now ≡ self.now }
        ensures few { length self.now ≤ most_notes }
    {
        self.notes.as_slice()
    }

    fn push(&mut self, note: Note)
        requires { length self.old < most_notes }
        ensures { self.new ≡ self.old ++ note ∷ [] }
    {
        self.notes.push_reserved(note);
    }

    fn add_turn(&mut self, seat: &Seat)
        requires { length self.old + 1 ≤ most_notes }
        ensures exact { self.new ≡ self.old ++ turn_notes seat.now.proven (due_turn seat.now) }
        ensures few { length self.new ≤ length self.old + 1 }
    {
        match seat.due() {
            Some(Turn::Choke) => self.push(Note::Choke),
            Some(Turn::Unchoke) if seat.is_proven() => self.push(Note::Unchoke),
            _ => (),
        }
    }

    fn add_acknowledgements(&mut self, seat: &Seat, acknowledgements: &[Acknowledgement])
        requires room { length self.old + length acknowledgements.now ≤ most_notes }
        ensures exact { self.new ≡ self.old ++ only seat.now.proven (map ack_note acknowledgements.now) }
        ensures few { length self.new ≤ length self.old + length acknowledgements.now }
    {
        if !seat.is_proven() {
            return;
        }
        for one in acknowledgements {
            self.push(Note::Ack {
                range: one.range,
                delay: one.delay,
            });
        }
    }

    // News above the cursor are among the rows.
    fn add_news(&mut self, seat: &Seat, due: &Due<'_>)
        requires { length self.old + length due.now.news.now ≤ most_notes }
        ensures exact { self.new ≡ self.old
            ++ only (due.now.tells && seat.now.proven) (map have_note (parts_below seat.now.cursor due.now.news.now)) }
        ensures few { length self.new ≤ length self.old + length due.now.news.now }
    {
        if !due.tells || !seat.is_proven() {
            return;
        }
        let cursor = seat.cursor();
        for range in due.news {
            match part_below(*range, cursor) {
                Some(range) => self.push(Note::Have { range }),
                None => (),
            }
        }
    }

    fn add_rows(&mut self, seat: &Seat, due: &Due<'_>)
        requires chunks { length due.now.committed.now ≡ seat.now.told.chunks }
        requires room { length self.old + 64 ≤ most_notes }
        ensures exact { HasRows seat.now.cursor due.now.committed.now (most_rows due.now.tells) self.old self.new }
        ensures few { length self.new ≤ length self.old + 64 }
    {
        if !due.tells {
            return;
        }
        let mut from = seat.cursor();
        for told in 0..MOST_ROWS {
            let Some(range) = next_row(due.committed, seat.chunks(), from) else {
                return;
            };
            self.push(Note::Have { range });
            from = range.last() + 1;
        }
    }

    fn add_requests(&mut self, seat: &Seat, requests: &RangeList)
        requires { length self.old + 64 ≤ most_notes }
        ensures exact { self.new ≡ self.old ++ only seat.now.proven (map request_note requests.now) }
        ensures few { length self.new ≤ length self.old + 64 }
    {
        if !seat.is_proven() {
            return;
        }
        for n in 0..requests.count() {
            self.push(Note::Request {
                range: requests.range(n),
            });
        }
    }

    // What came on another channel is no longer asked for on this one (RFC 7574, section 3.8).
    fn add_cancels(&mut self, seat: &Seat, committed: &ChunkSet)
        requires chunks { length committed.now ≡ seat.now.told.chunks }
        requires room { length self.old + 32 ≤ most_notes }
        ensures exact { HasCancels seat.now committed.now self.old self.new }
        ensures few { length self.new ≤ length self.old + 32 }
    {
        if !seat.is_proven() {
            return;
        }
        let ranges = awaited_ranges(seat.awaited(), committed, seat.chunks());
        for n in 0..ranges.count() {
            self.push(Note::Cancel {
                range: ranges.range(n),
            });
        }
    }

    fn add_address_request(&mut self, seat: &Seat, due: &Due<'_>)
        requires { length self.old + 1 ≤ most_notes }
        ensures exact { self.new ≡ self.old ++ only (seat.now.proven && due.now.asks_addresses) (variants.PexReq ∷ []) }
        ensures few { length self.new ≤ length self.old + 1 }
    {
        if seat.is_proven() && due.asks_addresses {
            self.push(Note::PexReq);
        }
    }

    fn add_addresses(&mut self, seat: &Seat, addresses: &[Address])
        requires { length self.old + length addresses.now ≤ most_notes }
        ensures exact { self.new ≡ self.old ++ only seat.now.proven (map address_note addresses.now) }
        ensures few { length self.new ≤ length self.old + length addresses.now }
    {
        if !seat.is_proven() {
            return;
        }
        for address in addresses {
            self.push(address_note(*address));
        }
    }

    fn add_keep_alive(&mut self, seat: &Seat, due: &Due<'_>)
        ensures { self.new ≡ or_keep_alive ((due.now.tells || seat.now.proven) && due.now.is_silent) self.old }
    {
        let is_due = (due.tells || seat.is_proven()) && due.is_silent;
        if is_due && self.notes.is_empty() {
            self.push(Note::KeepAlive);
        }
    }
}

fn address_note(address: Address) -> Note
    ensures { result ≡ address_note address }
{
    match address {
        Address::V4(address, port) => Note::Pex4 { address, port },
        Address::V6(address, port) => Note::Pex6 { address, port },
    }
}
