//! What a peer that fetches keeps beside its seats.

ghost use Rattle.std.specs.Prelude.{◌≡◌, ℕ, ◌+◌, ◌^◌, ◌<◌, ◌≤◌, ◌==◌, nat_le, nat_lt, true, false, not, ◌&&◌, ◌||◌, None, Some, is_some, [], ◌∷◌, List, length, replicate, count_by, slice_set, slice_index_or, IfOk, MatchOption};
ghost use Rattle.pp_terms.specs.tree.Range.{within, has, IsRunsFrom};
ghost use Rattle.pp_ranges.specs.Edits.{inserted, number_count};
ghost use Rattle.pp_requests.specs.Moments.{asked_at};
ghost use Rattle.pp_avail.specs.Offers.{Deed, Offer, Leave, Tells};
ghost use Rattle.pp_avail.specs.Offers as offers;
ghost use Rattle.pp_wanting.specs.Wants.{is_wanted};
ghost use Rattle.pp_fetching.specs.Fetching.{IsOnContent, with_request, without_request, GivesBack, IsNextOf, HasPicked, ArePicked};

use pp_avail::{Avail, Ranker};
use pp_ranges::{ChunkRange, RangeList};
use pp_requests::Asking;
use pp_seat::Seat;
use pp_tree::ChunkSet;
use pp_wanting::Wanting;
use std::alloc::{AllocError, Global};
use std::marker::Model;

/// Which chunks of a content a peer has, and has asked for on some channel; and which of 64 seats offers which.
#[derive(Drop)]
pub struct Fetching {
    chunks: u32,
    wanting: Wanting,
    avail: Avail,
}

impl Model for Fetching {
    ghost use Rattle.std.specs.Prelude.{◌≡◌, length};
    ghost use Rattle.pp_fetching.specs.Fetching.{FetchState, IsOnContent};

    ghost Value = { FetchState };

    ghost view = { λ f. record { want = f.wanting; offers = f.avail } };

    ghost invariant = { λ f.
        (f.chunks ≡ length f.wanting.had) × IsOnContent (record { want = f.wanting; offers = f.avail }) };
}

impl Fetching {
    /// Nothing is asked for, no seat offers any chunk, and all chunks of the content, 1 to 2^20, may be asked for but those that
    /// are held: committed or pending.
    pub fn new(alloc: Global, chunks: u32, held: &ChunkSet) -> Result<Fetching, AllocError>
        requires some { 0 < chunks }
        requires most { chunks ≤ 2 ^ 20 }
        requires held { length held.now ≡ chunks }
        ensures size { IfOk result (λ f. length f.want.had ≡ chunks) }
        ensures had { IfOk result (λ f. (i : ℕ) → slice_index_or f.want.had i false ≡ slice_index_or held.now i false) }
        ensures asked { IfOk result (λ f. f.want.asked ≡ replicate chunks false) }
        ensures limit { IfOk result (λ f. f.want.limit ≡ chunks) }
        ensures offers { IfOk result (λ f. (f.offers.chunks ≡ chunks) × Tells [] f.offers) }
    {
        let wanting = Wanting::new(alloc, chunks, held)?;
        let avail = Avail::new(alloc, chunks)?;
        Ok(Fetching {
            chunks,
            wanting,
            avail,
        })
    }

    /// How many chunks the content has, 1 to 2^20.
    pub fn chunks(&self) -> u32
        ensures value { result ≡ length self.now.want.had }
        ensures content { IsOnContent self.now }
    {
        self.chunks
    }

    /// Whether a chunk is wanted: below the limit, and neither had nor asked for.
    pub fn wants(&self, i: u32) -> bool
        requires { i < length self.now.want.had }
        ensures { result ≡ is_wanted self.now.want i }
    {
        self.wanting.wants(i)
    }

    /// Whether a chunk was asked for on some channel, and neither came nor was given back since.
    pub fn is_asked(&self, i: u32) -> bool
        requires { i < length self.now.want.had }
        ensures { result ≡ slice_index_or self.now.want.asked i false }
    {
        self.wanting.is_asked(i)
    }

    /// How many chunks the peer doesn't have.
    pub fn left(&self) -> u32
        ensures { result + count_by (λ b. b) self.now.want.had ≡ length self.now.want.had }
    {
        self.wanting.left()
    }

    /// From now on chunks below this number are asked for, of the content's.
    pub fn want_below(&mut self, limit: u32)
        ensures { self.new ≡ record self.old { want = record self.old.want { limit = limit } } }
    {
        self.wanting.want_below(limit);
    }

    /// A seat offers the chunks of a range. One that doesn't lie in the content changes nothing.
    pub fn offer(&mut self, seat: u8, range: ChunkRange)
        requires { seat < 64 }
        ensures rest { self.new ≡ record self.old { offers = self.new.offers } }
        ensures chunks { self.new.offers.chunks ≡ self.old.offers.chunks }
        ensures outside { length self.old.want.had ≤ range.last → self.new ≡ self.old }
        ensures seats { range.last < length self.old.want.had → (s i : ℕ) → offers.has self.new.offers s i
            ≡ (offers.has self.old.offers s i || (s == seat && within range i)) }
        ensures deeds { range.last < length self.old.want.had → (deeds : List Deed) → Tells deeds self.old.offers
            → Tells (Offer seat range ∷ deeds) self.new.offers }
    {
        if range.last() < self.chunks {
            self.avail.offer(seat, range);
        }
    }

    /// A seat offers nothing any more.
    pub fn leave(&mut self, seat: u8)
        requires seat { seat < 64 }
        ensures rest { self.new ≡ record self.old { offers = self.new.offers } }
        ensures chunks { self.new.offers.chunks ≡ self.old.offers.chunks }
        ensures seats { (s i : ℕ) → offers.has self.new.offers s i
            ≡ (not (s == seat) && offers.has self.old.offers s i) }
        ensures deeds { (deeds : List Deed) → Tells deeds self.old.offers
            → Tells (Leave seat ∷ deeds) self.new.offers }
    {
        self.avail.leave(seat);
    }

    /// The peer has a chunk: it was stored. A number past the content changes nothing.
    pub fn got(&mut self, i: u32)
        ensures { self.new
            ≡ record self.old { want = record self.old.want { had = slice_set self.old.want.had i true } } }
    {
        if i >= self.chunks {
            return;
        }
        self.wanting.got(i);
    }

    /// A chunk is asked for on no channel any more: it came, its request expired, or it was cancelled. A number past the content
    /// changes nothing.
    pub fn give_back(&mut self, i: u32)
        ensures { self.new ≡ without_request i self.old }
    {
        if i < self.chunks {
            self.wanting.give_back(i);
        }
    }

    /// The chunks of a channel's own requests are asked for on no channel any more: a CHOKE came (RFC 7574, section 3.9), or the
    /// channel was dropped. Those past the content change nothing.
    pub fn give_back_all(&mut self, entries: &[Asking])
        ensures { GivesBack (λ i. is_some (asked_at entries.now i)) self.old self.new }
    {
        for entry in entries {
            self.give_back(entry.chunk);
        }
    }

    /// After the REQUESTs of these ranges were sent on a seat, or refused: each of their chunks for which the seat doesn't wait
    /// is given back.
    pub fn settle(&mut self, picks: &RangeList, seat: &Seat)
        ensures { GivesBack (λ i. has picks.now i && not (is_some (asked_at seat.now.own i))) self.old self.new }
    {
        for n in 0..picks.count() {
            self.settle_range(picks.range(n), seat);
        }
    }

    // The same of one range.
    fn settle_range(&mut self, range: ChunkRange, seat: &Seat)
        ensures { GivesBack (λ i. within range i && not (is_some (asked_at seat.now.own i))) self.old self.new }
    {
        for i in u64::from(range.first())..u64::from(range.last()) + 1 {
            self.settle_one(i as u32, seat);
        }
    }

    // The same of one chunk.
    fn settle_one(&mut self, i: u32, seat: &Seat)
        ensures { GivesBack (λ k. i == k && not (is_some (asked_at seat.now.own k))) self.old self.new }
    {
        if !seat.awaits(i) {
            self.give_back(i);
        }
    }

    /// Picks chunks to ask of a seat, one after the other: each is the wanted one that the seat offers with the least rank and
    /// number, and is noted as asked for at once. Picks as many as there is room for, or until the seat offers no wanted chunk.
    /// Answers the chunks in as few ranges as there can be, in rising order.
    pub fn pick(&mut self, seat: u8, room: u32, ranker: &Ranker) -> RangeList
        requires seat { seat < 64 }
        requires room { room ≤ 32 }
        ensures in_turn { HasPicked ranker.now.kind seat room self.old result self.new }
        ensures picked { ArePicked seat room self.old result self.new }
    {
        let mut picks = RangeList::new();
        for _taken in 0..room {
            let Some(i) = self.pick_one(seat, ranker) else {
                return picks;
            };
            put(&mut picks, i);
        }
        picks
    }

    // Picks the next chunk of a seat, if there is one.
    fn pick_one(&mut self, seat: u8, ranker: &Ranker) -> Option<u32>
        requires { seat < 64 }
        ensures content { IsOnContent self.old }
        ensures next { IsNextOf ranker.now.kind seat self.old result }
        ensures noted { MatchOption result (self.new ≡ self.old) (λ i. self.new ≡ with_request i self.old) }
    {
        let i = self.wanting.next(&self.avail, seat, ranker)?;
        self.wanting.ask(i);
        Some(i)
    }
}

// Puts a chunk into a list that doesn't have it and has room for one range more.
fn put(picks: &mut RangeList, i: u32)
    requires room { length picks.old < 64 }
    requires runs { IsRunsFrom 0 picks.old }
    requires absent { has picks.old i ≡ false }
    ensures each { (k : ℕ) → has picks.new k ≡ (i == k || has picks.old k) }
    ensures count { number_count picks.new ≡ number_count picks.old + 1 }
    ensures runs { IsRunsFrom 0 picks.new }
    ensures few { length picks.new ≤ length picks.old + 1 }
{
    let Some(range) = ChunkRange::new(i, i) else {
        return;
    };
    let _ = picks.insert(range);
}
