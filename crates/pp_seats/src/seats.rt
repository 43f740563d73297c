//! The seats, and what comes to them.

ghost use Rattle.std.specs.Prelude.{◌≡◌, ◌<◌, ◌≤◌, ◌^◌, ℕ, [], ◌∷◌, List, length, map, max, None, replicate, IfOk};
ghost use Rattle.rand_chacha.specs.ChaCha.{of_seed};
ghost use Rattle.pp_terms.specs.format.Descriptor.{chunks_of};
ghost use Rattle.pp_terms.specs.format.Messages.{Data};
ghost use Rattle.pp_terms.specs.format.Traffic.{Record, Received, Quiet};
ghost use Rattle.pp_outside.specs.Outside.{address_of};
ghost use Rattle.pp_channels.specs.Seats.{IsUsedSeat, closed};
ghost use Rattle.pp_lives.specs.Arriving.{Arrives, IsSeated, IsBehind};
ghost use Rattle.pp_wire.specs.Views.{message_of};
ghost use Rattle.pp_desk.specs.Hearing.{IsNoData, Hears};
ghost use Rattle.pp_seats.specs.Standing.{Setting, AllHold, AllFresh, StandsFor};
ghost use Rattle.pp_seats.specs.Hearing.{HearsAll, Begins, IsShown, Prepares, Ready, OnceRead, ChangesSeat, IsAnswered, looked_up};

use pp_counts::Note;
use pp_desk::hear;
use pp_lives::{Arrival, Lives};
use pp_outside::Address;
use pp_seat::Seat;
use pp_tree::Descriptor;
use pp_wire::Message;
use std::alloc::{AllocError, Global};
use std::marker::Model;

// How many seats there are, and bytes of a datagram at most.
const SEATS: usize = 64;

const MOST: usize = 16_384;

/// The channels to other peers, each at one of 64 seats, numbered from 0, and what is kept of the messages of each.
#[derive(Drop)]
pub struct Seats {
    pub(crate) descriptor: Descriptor,
    pub(crate) lives: Lives,
    pub(crate) seats: Vec<Seat>,
    // The greatest moment that the link handed in, in microseconds.
    pub(crate) moment: u64,
    // Where datagrams are written.
    pub(crate) out: Vec<u8>,
}

impl Model for Seats {
    ghost use Rattle.std.specs.Prelude.{◌≡◌, length};
    ghost use Rattle.pp_terms.specs.format.Descriptor.{chunks_of};
    ghost use Rattle.pp_seats.specs.Standing.{SeatsState, AllHold};

    ghost Value = { SeatsState };

    ghost view = { λ s. record { descriptor = s.descriptor; table = s.lives; seats = s.seats.items; moment = s.moment } };

    ghost invariant = { λ s. (length s.seats.items ≡ 64) × AllHold (chunks_of s.descriptor) s.seats.items × (length s.out.items ≡ 16384) };
}

// Seats with room for a content, on which nothing happened yet.
fn new_seats(alloc: Global, chunks: u32, size: u32) -> Result<Vec<Seat>, AllocError>
    requires some { 0 < chunks }
    requires most { chunks ≤ 2 ^ 20 }
    requires positive { 0 < size }
    requires size { size ≤ 8192 }
    ensures { IfOk result (λ v. (length v.items ≡ 64) × AllHold chunks v.items × AllFresh v.items) }
{
    let mut seats = Vec::with_capacity(alloc, SEATS)?;
    for _ in 0..SEATS {
        seats.push(Seat::new(alloc, chunks, size)?)?;
    }
    Ok(seats)
}

// Each seat looks up.
fn look_up(seats: &mut [Seat], now: u64)
    ensures { seats.new ≡ map (looked_up now) seats.old }
{
    for seat in seats.iter_mut() {
        seat.taken(now);
    }
}

impl Seats {
    /// No channel yet. `seed` are 32 bytes that nobody can guess, from which the channels' numbers are drawn.
    pub fn new(alloc: Global, descriptor: &Descriptor, seed: [u8; 32]) -> Result<Seats, AllocError>
        ensures swarm { IfOk result (λ s. s.descriptor ≡ descriptor.now) }
        ensures table { IfOk result (λ s. s.table ≡ record { channels = replicate 64 None; numbers = of_seed seed }) }
        ensures seats { IfOk result (λ s. AllFresh s.seats) }
        ensures now { IfOk result (λ s. s.moment ≡ 0) }
    {
        Ok(Seats {
            descriptor: *descriptor,
            lives: Lives::new(alloc, seed)?,
            seats: new_seats(alloc, descriptor.chunks(), descriptor.chunk())?,
            moment: 0,
            out: vec![in alloc; 0; MOST]?,
        })
    }

    /// The swarm of the channels.
    pub fn descriptor(&self) -> Descriptor
        ensures { result ≡ self.now.descriptor }
    {
        self.descriptor
    }

    // The seat becomes that of a channel which begins now.
    fn open(&mut self, seat: u8, slot: bool)
        requires { seat < 64 }
        ensures { ChangesSeat seat (Begins self.old.descriptor slot) self.old self.new }
    {
        self.seats[seat as usize].begin(self.descriptor.chunk(), slot);
    }

    // A datagram came for the number of the seat's channel.
    fn prove(&mut self, seat: u8)
        requires { seat < 64 }
        ensures { ChangesSeat seat IsShown self.old self.new }
    {
        let seat = &mut self.seats[seat as usize];
        seat.prove();
        seat.resume();
    }

    // What an arrival does to its seat, before its messages are heard.
    fn make(&mut self, arrival: Arrival, slot: bool)
        requires { IsSeated arrival self.old.table }
        ensures { Prepares self.old.descriptor slot arrival self.old self.new }
    {
        match arrival {
            Arrival::Opened { seat, .. } => self.open(seat, slot),
            Arrival::Replied { seat } => {
                self.open(seat, slot);
                self.prove(seat);
            }
            Arrival::Heard { seat } => self.prove(seat),
            _ => {}
        }
    }

    /// A datagram came from an address at a moment, in microseconds: for which seat it is, and from which byte on its messages are to
    /// be heard there by `hear` and `heard_data`, up to a closing handshake and then by `close`; after all of them `taken`. A channel
    /// that opens, or to which its reply came, has a slot or none.
    pub fn arrive(&mut self, from: &Address, bytes: &[u8], at: u64, slot: bool) -> Arrival
        ensures stands { (x : Setting) (most : ℕ) (past : List Record) → StandsFor x most self.old past
            → OnceRead self.old.descriptor bytes.now result (λ q. Ready x most q (Received at (address_of from.now) bytes.now) past) self.new }
        ensures makes { Prepares self.old.descriptor slot result (record self.new { seats = self.old.seats }) self.new }
        ensures arrives { Arrives self.old.descriptor self.old.table from.now self.new.moment bytes.now result self.new.table }
        ensures swarm { self.new.descriptor ≡ self.old.descriptor }
        ensures now { self.new.moment ≡ max at self.old.moment }
        ensures seated { IsSeated result self.new.table }
        ensures behind { IsBehind self.old.descriptor bytes.now result }
    {
        self.moment = at.max(self.moment);
        let arrival = self
            .lives
            .arrive(&self.descriptor, from, bytes, self.moment);
        self.make(arrival, slot);
        arrival
    }

    /// A wait brought nothing. After it comes `taken`.
    pub fn quiet(&mut self, at: u64)
        ensures exact { self.new ≡ record self.old { moment = max at self.old.moment } }
        ensures stands { (x : Setting) (most : ℕ) (past : List Record) → StandsFor x most self.old past → Ready x most self.new (Quiet at) past }
    {
        self.moment = at.max(self.moment);
    }

    /// A message that came on a seat's channel is heard, and what of it is to be counted is answered. It is no DATA.
    pub fn hear<'m>(&mut self, seat: u8, message: &'m Message<'m>) -> Option<Note>
        requires seat { seat < 64 }
        requires kind { IsNoData (message_of message.now) }
        ensures { ChangesSeat seat (λ before after. Hears self.old.moment (message_of message.now) result before after
            × HearsAll self.old.moment (message_of message.now ∷ []) before after) self.old self.new }
    {
        hear(&mut self.seats[seat as usize], message, self.moment)
    }

    /// A DATA came on a seat's channel, whatever its bytes are worth. It answers whether this peer waited for the chunk.
    pub fn heard_data(&mut self, seat: u8, chunk: u64) -> bool
        requires { seat < 64 }
        ensures { ChangesSeat seat (λ before after. IsAnswered chunk result before after
            × ((sent_at : ℕ) (bytes : List ℕ) → HearsAll self.old.moment (Data chunk sent_at bytes ∷ []) before after)) self.old self.new }
    {
        self.seats[seat as usize].heard_data(chunk, self.moment)
    }

    /// The channel of a seat is dropped.
    pub fn close(&mut self, seat: u8)
        requires { IsUsedSeat self.old.table seat }
        ensures { self.new ≡ record self.old { table = closed self.old.table seat } }
    {
        self.lives.close(seat);
    }

    /// This peer looks up, once all messages of a datagram were heard, or a wait brought none.
    pub fn taken(&mut self)
        ensures exact { self.new ≡ record self.old { seats = map (looked_up self.old.moment) self.old.seats } }
        ensures stands { (x : Setting) (most : ℕ) (r : Record) (past : List Record) → Ready x most self.old r past → StandsFor x most self.new (r ∷ past) }
    {
        look_up(&mut self.seats, self.moment);
    }
}
