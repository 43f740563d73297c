//! The seat of one channel.

ghost use Rattle.std.specs.Prelude.{◌≡◌, ◌<◌, ◌≤◌, ◌^◌, true, false, IfOk};
ghost use Rattle.pp_seat.specs.Follows.{Frame, none_lost, Begins, Follows, IsProved};
ghost use Rattle.pp_seat.specs.Lines.{Tale};
ghost use Rattle.pp_seat.specs.Seats.{IsFresh};

use pp_ledbat::Window;
use pp_paths::Claims;
use pp_plan::Told;
use pp_requests::{Asked, Requests};
use std::alloc::{AllocError, Global};
use std::marker::Model;

/// What is kept of one channel's messages. It is large: change it where it lies.
#[derive(Drop)]
pub struct Seat {
    pub(crate) list: Requests,
    pub(crate) window: Window,
    pub(crate) told: Told,
    pub(crate) claims: Claims,
    pub(crate) proven: bool,
    pub(crate) slot: bool,
    // A CHOKE was sent and no UNCHOKE since; one of the two is to be sent.
    pub(crate) choked: bool,
    pub(crate) owes: bool,
    pub(crate) own: Asked,
    // The other peer chokes; nothing is asked of it until a datagram comes.
    pub(crate) chokes: bool,
    pub(crate) stopped: bool,
    pub(crate) cursor: u32,
    // When addresses of other peers were last sent, and last asked for.
    pub(crate) answer: Option<u64>,
    pub(crate) question: Option<u64>,
}

impl Model for Seat {
    ghost use Rattle.pp_seat.specs.Seats.{SeatState};

    ghost Value = { SeatState };

    ghost view = { λ s. record {
      list = s.list;
      window = s.window;
      told = s.told;
      claims = s.claims;
      proven = s.proven;
      slot = s.slot;
      choked = s.choked;
      owes = s.owes;
      own = s.own;
      chokes = s.chokes;
      stopped = s.stopped;
      cursor = s.cursor;
      answer = s.answer;
      question = s.question;
    } };
}

impl Seat {
    /// A seat without a slot, of a content of 1 to 2^20 chunks of 1 to 8192 bytes, with the memory for all that it will keep.
    pub fn new(alloc: Global, chunks: u32, size: u32) -> Result<Seat, AllocError>
        requires some { 0 < chunks }
        requires most { chunks ≤ 2 ^ 20 }
        requires positive { 0 < size }
        requires size { size ≤ 8192 }
        ensures follows { IfOk result (λ s. (f : Frame) (t : Tale) → f.chunks ≡ chunks → f.size ≡ size → Begins f t → Follows f none_lost s t) }
        ensures slot { IfOk result (λ s. s.slot ≡ false) }
        ensures fresh { IfOk result (λ s. IsFresh false s) }
        ensures chunks { IfOk result (λ s. s.told.chunks ≡ chunks) }
    {
        let told = Told::none(alloc, chunks)?;
        let claims = Claims::new(alloc)?;
        Ok(Seat {
            list: Requests::new(),
            window: Window::new(size),
            told,
            claims,
            proven: false,
            slot: false,
            choked: false,
            owes: true,
            own: Asked::new(),
            chokes: false,
            stopped: false,
            cursor: 0,
            answer: None,
            question: None,
        })
    }

    /// The seat becomes that of a channel which begins now, with a slot or without, whose other peer's address isn't proven.
    pub fn begin(&mut self, size: u32, slot: bool)
        requires positive { 0 < size }
        requires size { size ≤ 8192 }
        ensures follows { (f : Frame) (t : Tale) → f.chunks ≡ self.old.told.chunks → f.size ≡ size → Begins f t → Follows f none_lost self.new t }
        ensures fresh { IsFresh slot self.new }
        ensures chunks { self.new.told.chunks ≡ self.old.told.chunks }
    {
        self.list.clear();
        self.window = Window::new(size);
        self.told.forget();
        self.claims.forget();
        self.proven = false;
        self.slot = slot;
        self.choked = false;
        self.owes = !slot;
        self.own.clear();
        self.chokes = false;
        self.stopped = false;
        self.cursor = 0;
        self.answer = None;
        self.question = None;
    }

    /// A datagram came for this peer's number, so the other peer's address is no forged one. What it claims counts from now on.
    pub fn prove(&mut self)
        ensures exact { self.new ≡ record self.old { proven = true } }
        ensures proved { IsProved self.old self.new }
    {
        self.proven = true;
    }

    pub fn is_proven(&self) -> bool
        ensures { result ≡ self.now.proven }
    {
        self.proven
    }

    /// How many chunks the content has.
    pub fn chunks(&self) -> u32
        ensures { result ≡ self.now.told.chunks }
    {
        self.told.chunks()
    }
}
