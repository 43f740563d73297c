//! What the other peer asks for and is sent.

ghost use Rattle.std.specs.Prelude.{◌≡◌, ◌↔◌, ◌⊎◌, ◌+◌, ◌<◌, ◌≤◌, ◌||◌, ℕ, List, [], true, false, Some, MatchOption, IfSome, IsSome};
ghost use Rattle.pp_terms.specs.format.Messages.{Data, Request, Cancel, Choke, Unchoke};
ghost use Rattle.pp_terms.specs.tree.Range.{Span, within, has, IsRunsFrom};
ghost use Rattle.pp_ranges.specs.Edits.{inserted, removed, without_below};
ghost use Rattle.pp_traffic.specs.Meter as terms;
ghost use Rattle.pp_traffic.specs.Story.{Heard, Said, Taken};
ghost use Rattle.pp_requests.specs.Lists.{IsLeast, are_too_many, cancelled, without, chunk_count};
ghost use Rattle.pp_seat.specs.Lines.{Tale};
ghost use Rattle.pp_seat.specs.Turns.{due_turn};
ghost use Rattle.pp_seat.specs.Follows.{Frame, Lost, Follows, Goes, Stays, GivesUp, Always, IsCut, IsUnannounced, AreUnannounced, IsNext, IsDone, Answers};

use crate::seat::Seat;
use pp_ranges::ChunkRange;
use pp_requests::Cancelled;

/// What became of a REQUEST.
#[derive(Clone, Copy, PartialEq, Eq, Debug)]
pub enum Listed {
    /// It is on the list.
    Yes,
    /// It isn't, since the list would need more than 64 ranges.
    Full,
    /// It isn't, since the channel has no slot.
    Choked,
}

/// Which of the two messages is to be sent (RFC 7574, section 3.9).
#[derive(Clone, Copy, PartialEq, Eq, Debug)]
pub enum Turn {
    Choke,
    Unchoke,
}

impl Seat {
    /// A REQUEST came, of which this range lies in the content (RFC 7574, section 3.7).
    pub fn heard_request(&mut self, range: ChunkRange) -> Listed
        ensures listed { result ≡ Listed.Yes → (i : ℕ) → has self.new.list i ≡ (within range i || has self.old.list i) }
        ensures few { result ≡ Listed.Yes → are_too_many (inserted (Some range) self.old.list) ≡ false }
        ensures full { result ≡ Listed.Full → (are_too_many (inserted (Some range) self.old.list) ≡ true) × (self.new ≡ self.old) }
        ensures choked { (result ≡ Listed.Choked) ↔ (self.old.slot ≡ false) }
        ensures others { (result ≡ Listed.Yes) ⊎ (self.new ≡ self.old) }
        ensures rest { self.new ≡ record self.old { list = self.new.list } }
        ensures goes { (now : ℕ) (span : Span) → Goes (IsCut range span) (Heard now (Request span)) self.old self.new }
    {
        if !self.slot {
            return Listed::Choked;
        }
        match self.list.request(range) {
            Ok(()) => Listed::Yes,
            Err(_) => Listed::Full,
        }
    }

    /// A CANCEL came, of which this range lies in the content (RFC 7574, section 3.8). Where the list has no room for the two
    /// parts of a range, more than the range goes.
    pub fn heard_cancel(&mut self, range: ChunkRange) -> Cancelled
        ensures many { result ≡ Cancelled.Wide → are_too_many (removed range self.old.list) ≡ true }
        ensures few { result ≡ Cancelled.Exact → are_too_many (removed range self.old.list) ≡ false }
        ensures exact { self.new ≡ record self.old { list = cancelled range self.old.list } }
        ensures goes { (now : ℕ) (span : Span) → Goes (IsCut range span) (Heard now (Cancel span)) self.old self.new }
    {
        self.list.cancel(range)
    }

    /// A wait ended, with a datagram or none: a timeout may have passed.
    pub fn taken(&mut self, now: u64)
        ensures exact { self.new ≡ record self.old { window = terms.ended now self.old.window } }
        ensures goes { Goes Always (Taken now) self.old self.new }
    {
        if self.window.timeout_due(now) {
            self.window.timed_out(now);
        }
    }

    /// The least chunk that may be sent now: one that is asked for, on a channel with a slot, whose window has room.
    #[tactic(auto, using(crate::proofs::Answering::answers, crate::proofs::Answering::none_listed, crate::proofs::Answering::empty_list))]
    pub fn next(&self) -> Option<u32>
        ensures next { MatchOption result (IsDone self.now) (IsNext self.now) }
        ensures content { IfSome result (λ i. i < self.now.told.chunks) }
        ensures runs { IsSome result → IsRunsFrom 0 self.now.list }
        ensures answers { IfSome result (λ i. (f : Frame) (lost : Lost) (t : Tale) → Follows f lost self.now t → Answers f t i) }
    {
        if !self.slot {
            return None;
        }
        if !self.window.may_send() {
            return None;
        }
        let i = self.list.peek()?;
        if i >= self.told.chunks() {
            return None;
        }
        Some(i)
    }

    /// The chunk was sent.
    pub fn said_data(&mut self, i: u32, now: u64)
        requires { IsNext self.old i }
        ensures exact { self.new ≡ record self.old { list = without i self.old.list; window = terms.sent i now self.old.window } }
        ensures fewer { chunk_count self.new.list + 1 ≡ chunk_count self.old.list }
        ensures goes { (sent_at : ℕ) (bytes : List ℕ) → Goes Always (Said now (Data i sent_at bytes)) self.old self.new }
    {
        let _ = self.list.take();
        self.window.sent(i, now);
    }

    /// The chunk leaves the list: it couldn't be read or sent, or it isn't committed.
    pub fn let_go(&mut self, i: u32)
        requires { IsLeast self.old.list i }
        ensures exact { self.new ≡ record self.old { list = without i self.old.list } }
        ensures fewer { chunk_count self.new.list + 1 ≡ chunk_count self.old.list }
        ensures given { GivesUp self.old self.new }
        ensures passed { Stays (IsUnannounced i) self.old self.new }
    {
        let _least = self.list.take();
    }

    /// All chunks below one leave the list, since none of them is committed. It answers how many these were.
    pub fn drop_below(&mut self, i: u32) -> u32
        ensures exact { self.new ≡ record self.old { list = without_below i self.old.list } }
        ensures count { result + chunk_count self.new.list ≡ chunk_count self.old.list }
        ensures passed { Stays (AreUnannounced self.old.list i) self.old self.new }
    {
        self.list.drop_below(i)
    }

    /// A CHOKE was sent: the channel has no slot and no list.
    pub fn said_choke(&mut self)
        ensures exact { self.new ≡ record self.old { list = []; slot = false; choked = true; owes = false } }
        ensures goes { (now : ℕ) → Goes Always (Said now Choke) self.old self.new }
    {
        self.list.clear();
        self.slot = false;
        self.choked = true;
        self.owes = false;
    }

    /// An UNCHOKE was sent: a channel that was choked has a slot. One that wasn't stays as it is.
    pub fn said_unchoke(&mut self)
        ensures slot { self.old.choked ≡ true → self.new ≡ record self.old { slot = true; choked = false; owes = false } }
        ensures none { self.old.choked ≡ false → self.new ≡ self.old }
        ensures goes { (now : ℕ) → Goes Always (Said now Unchoke) self.old self.new }
    {
        if !self.choked {
            return;
        }
        self.slot = true;
        self.choked = false;
        self.owes = false;
    }

    /// A CHOKE is to be sent where the channel has a slot, else an UNCHOKE.
    pub fn turn(&mut self)
        ensures exact { self.new ≡ record self.old { owes = true } }
        ensures stays { Stays Always self.old self.new }
    {
        self.owes = true;
    }

    /// Which of CHOKE and UNCHOKE is to be sent, if one is: CHOKE on a channel that has a slot or was never choked, else UNCHOKE.
    pub fn due(&self) -> Option<Turn>
        ensures { result ≡ due_turn self.now }
    {
        if !self.owes {
            return None;
        }
        if self.slot || !self.choked {
            return Some(Turn::Choke);
        }
        Some(Turn::Unchoke)
    }

    pub fn has_slot(&self) -> bool
        ensures { result ≡ self.now.slot }
    {
        self.slot
    }
}
