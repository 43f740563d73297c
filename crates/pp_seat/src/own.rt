//! What this peer asks for.

ghost use Rattle.std.specs.Prelude.{◌≡◌, ◌↔◌, ◌⊎◌, IsTrue, ◌<◌, ◌≤◌, ◌==◌, ◌+◌, ◌-◌, ℕ, List, [], ◌∷◌, true, false, None, Some, is_some, MatchOption, length, map};
ghost use Rattle.pp_terms.specs.tree.Range.{Span, within};
ghost use Rattle.pp_terms.specs.format.Messages.{Data, Request, Cancel, Choke, Unchoke};
ghost use Rattle.pp_traffic.specs.Story.{Line, Heard, Said};
ghost use Rattle.pp_requests.specs.Moments.{asked_at, IsRisingFrom, Changes, ChangesEntry, IsLeastExpired, NoneExpired, IsLeastLost, NoneLost};
ghost use Rattle.pp_traffic.specs.Fates.{clock};
ghost use Rattle.pp_promises.specs.OwnSide.{most_outstanding, is_choked_by_peer, has_old_request, is_stopped, asking, most_asked, may_ask};
ghost use Rattle.pp_terms.specs.format.Traffic.{Record};
ghost use Rattle.pp_terms.specs.format.Descriptor.{Descriptor, chunks_of};
ghost use Rattle.pp_traffic.specs.Life.{Life};
ghost use Rattle.pp_traffic.specs.Past as moments;
ghost use Rattle.pp_promises.specs.ReadStory.{read_story};
ghost use Rattle.pp_promises.specs.Asked.{named_count};
ghost use Rattle.pp_seat.specs.Lines.{Tale};
ghost use Rattle.pp_seat.specs.Own.{IsSplit, HasAsked, CanAsk, AsksAll, room_of};
ghost use Rattle.pp_seat.specs.Awaited.{AreAwaited, KeepsAwaited, AllKeepAwaited};
ghost use Rattle.pp_seat.specs.Follows.{Frame, Lost, Follows, Goes, Stays, Says, Always, HasCome};

use crate::seat::Seat;
use pp_ranges::ChunkRange;
use pp_requests::{Asked, Asking};

impl Seat {
    /// A CHOKE came: none of this peer's requests will be answered (RFC 7574, section 3.9).
    pub fn heard_choke(&mut self)
        ensures exact { self.new ≡ record self.old { chokes = true; own = [] } }
        ensures goes { (now : ℕ) → Goes Always (Heard now Choke) self.old self.new }
        ensures awaits { (now : ℕ) (story : List Line) → AreAwaited self.new.own (Heard now Choke ∷ story) }
    {
        self.chokes = true;
        self.own.clear();
    }

    /// An UNCHOKE came.
    pub fn heard_unchoke(&mut self)
        ensures exact { self.new ≡ record self.old { chokes = false } }
        ensures goes { (now : ℕ) → Goes Always (Heard now Unchoke) self.old self.new }
        ensures awaits { (now : ℕ) → KeepsAwaited (Heard now Unchoke) self.old.own self.new.own }
    {
        self.chokes = false;
    }

    /// A chunk came now, whatever it is worth and whether or not it is one of the content. It answers whether this peer waited for it.
    /// Its request may have overtaken others.
    pub fn heard_data(&mut self, i: u64, now: u64) -> bool
        ensures was { result ≡ is_some (asked_at self.old.own i) }
        ensures rest { self.new ≡ record self.old { own = self.new.own } }
        ensures taken { Changes i None self.old.own self.new.own }
        ensures goes { (at sent_at : ℕ) (bytes : List ℕ) → Goes Always (Heard at (Data i sent_at bytes)) self.old self.new }
        ensures awaits { (sent_at : ℕ) (bytes : List ℕ) → KeepsAwaited (Heard now (Data i sent_at bytes)) self.old.own self.new.own }
    {
        self.own.came(i, now)
    }

    /// A REQUEST was sent. A chunk of it that this peer waits for already, or for which there is no room, isn't noted.
    pub fn said_request(&mut self, range: ChunkRange, now: u64)
        requires { range.last < self.old.told.chunks }
        ensures rest { self.new ≡ record self.old { own = self.new.own } }
        ensures exact { CanAsk range self.old.own → AsksAll range now self.old.own self.new.own }
        ensures says { (spans : List Span) → IsSplit range spans → Says Always now (map Request spans) self.old self.new }
        ensures awaits { (spans : List Span) → IsSplit range spans → CanAsk range self.old.own → AllKeepAwaited now (map Request spans) self.old.own self.new.own }
    {
        ask(&mut self.own, range, now);
    }

    /// A CANCEL of the chunk was sent (RFC 7574, section 3.8).
    pub fn said_cancel(&mut self, i: u32)
        ensures rest { self.new ≡ record self.old { own = self.new.own } }
        ensures taken { ChangesEntry i None self.old.own self.new.own }
        ensures goes { (now : ℕ) (span : Span) → Goes Always (Said now (Cancel span)) self.old self.new }
        ensures awaits { (now : ℕ) (span : Span) → ((j : ℕ) → within span j ≡ (i == j)) → KeepsAwaited (Said now (Cancel span)) self.old.own self.new.own }
    {
        self.own.withdraw(u64::from(i));
    }

    /// How many chunks more this peer may ask for: as many as make 32, and where a request expired since a datagram came, one
    /// chunk that is the only one.
    pub fn room(&self) -> u32
        ensures room { result ≡ room_of self.now.stopped self.now.own }
        ensures few { length self.now.own ≤ 32 }
        ensures rising { IsRisingFrom 0 self.now.own }
        ensures some { (f : Frame) (lost : Lost) (t : Tale) → Follows f lost self.now t
            → has_old_request (clock t.story) t.story ≡ false → named_count f.chunks t.story < most_outstanding → 0 < result }
        ensures outstanding { (d : Descriptor) (life : Life) (past : List Record) → AreAwaited self.now.own (read_story d life past)
            → NoneExpired self.now.own (moments.now past) → NoneLost self.now.own → self.now.stopped ≡ is_stopped d life past
            → may_ask (asking d life past) ≡ true → 0 < result }
    {
        most_asked(self.stopped).saturating_sub(self.own.entries().len() as u32)
    }

    /// Whether the other peer may be asked: it doesn't choke.
    pub fn may_ask(&self) -> bool
        ensures exact { IsTrue result ↔ (self.now.chokes ≡ false) }
        ensures asks { (f : Frame) (lost : Lost) (t : Tale) → Follows f lost self.now t → is_choked_by_peer t.story ≡ false → IsTrue result }
    {
        !self.chokes
    }

    /// Whether this peer waits for the chunk.
    pub fn awaits(&self, i: u32) -> bool
        ensures { result ≡ is_some (asked_at self.now.own i) }
    {
        self.own.contains(i)
    }

    /// The chunks that this peer waits for, by rising number, each with the moment in microseconds at which it was asked for.
    pub fn awaited(&self) -> &[Asking]
        ensures same { result.now ≡ self.now.own }
        ensures few { length self.now.own ≤ 32 }
    {
        self.own.entries()
    }

    /// Takes out the least chunk that this peer asked for 10 seconds ago or longer. From then on the channel is only probed.
    pub fn expired(&mut self, now: u64) -> Option<u32>
        ensures least { MatchOption result (NoneExpired self.old.own now) (IsLeastExpired self.old.own now) }
        ensures taken { MatchOption result (self.new ≡ self.old)
            (λ i. (self.new ≡ record self.old { own = self.new.own; stopped = true }) × ChangesEntry i None self.old.own self.new.own) }
        ensures stays { Stays (HasCome now) self.old self.new }
        ensures awaits { (story : List Line) → now ≤ clock story → AreAwaited self.old.own story → AreAwaited self.new.own story }
    {
        let i = self.own.expired(now)?;
        self.stopped = true;
        Some(i)
    }

    /// Takes out the least chunk whose request was lost, or its answer: requests of three greater chunks that were sent no earlier
    /// were answered since.
    pub fn lost(&mut self) -> Option<u32>
        ensures least { MatchOption result (NoneLost self.old.own) (IsLeastLost self.old.own) }
        ensures taken { MatchOption result (self.new ≡ self.old)
            (λ i. (self.new ≡ record self.old { own = self.new.own }) × ChangesEntry i None self.old.own self.new.own) }
        ensures stays { Stays Always self.old self.new }
        ensures awaits { (story : List Line) → AreAwaited self.old.own story → AreAwaited self.new.own story }
    {
        self.own.lost()
    }

    /// This peer waits for nothing here any more: its requests will be made of other peers. They are no longer those of the channel's
    /// story, until a CHOKE comes or the seat begins anew.
    pub fn forget_requests(&mut self)
        ensures exact { self.new ≡ record self.old { own = [] } }
        ensures stays { Stays Always self.old self.new }
    {
        self.own.clear();
    }

    /// A datagram came on the channel: this peer asks there again as before.
    pub fn resume(&mut self)
        ensures exact { self.new ≡ record self.old { stopped = false } }
        ensures stays { Stays Always self.old self.new }
    {
        self.stopped = false;
    }
}

// How many chunks may be asked for at once on a channel: one where a request expired since a datagram came.
fn most_asked(stopped: bool) -> u32
    ensures { result ≡ most_asked stopped }
{
    if stopped { 1 } else { 32 }
}

// Notes that a chunk was asked for, where there is room and this peer doesn't wait for it yet.
fn ask_one(own: &mut Asked, i: u32, now: u64)
    ensures named { (j m : ℕ) → asked_at own.new j ≡ Some m → (asked_at own.old j ≡ Some m) ⊎ ((j ≡ i) × (m ≡ now)) }
    ensures exact { length own.old < 32 → asked_at own.old i ≡ None → HasAsked i now own.old own.new }
{
    if own.room() == 0 {
        return;
    }
    if own.contains(i) {
        return;
    }
    own.ask(i, now);
}

// The same of a range.
fn ask(own: &mut Asked, range: ChunkRange, now: u64)
    ensures named { (i m : ℕ) → asked_at own.new i ≡ Some m → (asked_at own.old i ≡ Some m) ⊎ ((within range i ≡ true) × (m ≡ now)) }
    ensures exact { CanAsk range own.old → AsksAll range now own.old own.new }
{
    for i in u64::from(range.first())..u64::from(range.last()) + 1 {
        ask_one(own, i as u32, now);
    }
}
