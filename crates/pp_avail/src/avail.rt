// What the seats offer.
ghost use Rattle.std.specs.Prelude.{◌≡◌, ◌≢◌, ℕ, ◌/◌, ◌^◌, ◌<◌, ◌≤◌, ◌==◌, ◌&&◌, ◌||◌, nat_le, not, true, false, List, [], ◌∷◌, length, replicate, IfOk, MatchOption};
ghost use Rattle.pp_terms.specs.tree.Range.{within};
ghost use Rattle.pp_tree.specs.Marks.{words_for};
ghost use Rattle.pp_avail.specs.Offers.{Deed, Offer, Leave, Tells, offers_of};
ghost use Rattle.pp_avail.specs.Offers as offers;
ghost use Rattle.pp_avail.specs.Picks.{is_candidate};
ghost use Rattle.pp_avail.specs.Rows.{is_among};

use crate::copies::Copies;
use crate::row::Row;
use pp_ranges::ChunkRange;
use pp_tree::ChunkSet;
use pp_tree::words::{mask, next_set};
use std::alloc::{AllocError, Global};
use std::marker::Model;

const SEATS: usize = 64;

/// The chunks that each of 64 seats offers, of one content. One of no chunks takes no memory for them, and keeps no offer.
#[derive(Drop)]
pub struct Avail {
    chunks: u32,
    seats: Vec<Row>,
    // How many seats have each chunk.
    counts: Copies,
}

impl Model for Avail {
    ghost use Rattle.pp_avail.specs.Offers.{Offers};

    ghost Value = { Offers };

    ghost use Rattle.pp_avail.specs.Counts.{IsCounted};

    ghost view = { λ a. record { chunks = a.chunks; seats = a.seats.items } };

    ghost invariant = { λ a. IsCounted a.chunks a.seats.items a.counts };
}

// One empty row for each seat.
fn empty_rows(alloc: Global, chunks: u32) -> Result<Vec<Row>, AllocError>
    ensures { IfOk result (λ rows. rows.items ≡ replicate 64 (replicate chunks false)) }
{
    let mut rows = Vec::with_capacity(alloc, SEATS)?;
    for _ in 0..SEATS {
        rows.push(Row::none(alloc, chunks as usize)?)?;
    }
    Ok(rows)
}

// The part of a range that lies in one word.
fn part(w: usize, first: usize, last: usize) -> u64
    requires low { first / 64 ≤ w }
    requires high { w ≤ last / 64 }
    requires order { first ≤ last }
    ensures { (i : ℕ) → is_among w result i ≡ (i / 64 == w && (nat_le first i && nat_le i last)) }
{
    let low = if first / 64 == w { first % 64 } else { 0 };
    let high = if last / 64 == w { last % 64 } else { 63 };
    mask(low, high)
}

impl Avail {
    /// No seat offers any chunk, of a content of up to 2^20.
    pub fn new(alloc: Global, chunks: u32) -> Result<Avail, AllocError>
        requires { chunks ≤ 2 ^ 20 }
        ensures chunks { IfOk result (λ a. a.chunks ≡ chunks) }
        ensures nothing { IfOk result (λ a. Tells [] a) }
    {
        let seats = empty_rows(alloc, chunks)?;
        let counts = Copies::none(alloc, (chunks as usize).div_ceil(64))?;
        Ok(Avail {
            chunks,
            seats,
            counts,
        })
    }

    /// Whether a seat offers a chunk; of no chunks, it offers none.
    pub fn has(&self, seat: u8, i: u32) -> bool
        requires seat { seat < 64 }
        requires chunk { 0 < self.now.chunks → i < self.now.chunks }
        ensures { result ≡ offers.has self.now seat i }
    {
        self.chunks > 0 && self.seats[seat as usize].has(i as usize)
    }

    /// How many seats have a chunk; of no chunks, none has.
    pub fn copies(&self, i: u32) -> u32
        requires chunk { 0 < self.now.chunks → i < self.now.chunks }
        ensures copies { result ≡ offers.copies self.now i }
        ensures range { result ≤ 64 }
        ensures most { self.now.chunks ≤ 2 ^ 20 }
        ensures deeds { (deeds : List Deed) → Tells deeds self.now → result ≡ offers_of deeds i }
    {
        if self.chunks == 0 {
            return 0;
        }
        self.counts.of(i as usize)
    }

    /// A seat offers the chunks of a range, which lies in the content; of no chunks, nothing is kept. Where it
    /// offers all of them already, that costs no more than a step for every 4,096 chunks of the content, at most 256.
    pub fn offer(&mut self, seat: u8, range: ChunkRange)
        requires seat { seat < 64 }
        requires inside { 0 < self.old.chunks → range.last < self.old.chunks }
        ensures chunks { self.new.chunks ≡ self.old.chunks }
        ensures seats { 0 < self.old.chunks → (s i : ℕ) → offers.has self.new s i ≡ (offers.has self.old s i || (s == seat && within range i)) }
        ensures deeds { 0 < self.old.chunks → (deeds : List Deed) → Tells deeds self.old → Tells (Offer seat range ∷ deeds) self.new }
        ensures none { self.old.chunks ≡ 0 → self.new ≡ self.old }
    {
        if self.chunks > 0 {
            self.fill(seat, range.first() as usize, range.last() as usize);
        }
    }

    // A seat offers the chunks from one to another.
    fn fill(&mut self, seat: u8, first: usize, last: usize)
        requires seat { seat < 64 }
        requires order { first ≤ last }
        requires inside { last < self.old.chunks }
        ensures chunks { self.new.chunks ≡ self.old.chunks }
        ensures seats { (s i : ℕ) → offers.has self.new s i ≡ (offers.has self.old s i || (s == seat && (nat_le first i && nat_le i last))) }
    {
        let to = last / 64;
        let mut next = first / 64;
        while let Some(w) = self.next_lacking(seat, next, to) {
            self.add(seat, w, part(w, first, last));
            next = w + 1;
        }
    }

    // The least word from one to another of which a seat doesn't offer all chunks.
    fn next_lacking(&self, seat: u8, from: usize, to: usize) -> Option<usize>
        requires { seat < 64 }
        ensures { MatchOption result ((i : ℕ) → from ≤ i / 64 → i / 64 ≤ to → i < self.now.chunks → offers.has self.now seat i ≡ true)
            (λ w. (from ≤ w) × (w ≤ to)
            × ((i : ℕ) → from ≤ i / 64 → i / 64 < w → i < self.now.chunks → offers.has self.now seat i ≡ true)) }
    {
        self.seats[seat as usize].next_lacking(from, to)
    }

    // A seat offers some chunks of one word.
    fn add(&mut self, seat: u8, w: usize, chunks: u64)
        requires seat { seat < 64 }
        requires here { w < words_for self.old.chunks }
        requires inside { (i : ℕ) → is_among w chunks i ≡ true → i < self.old.chunks }
        ensures chunks { self.new.chunks ≡ self.old.chunks }
        ensures seats { (s i : ℕ) → offers.has self.new s i ≡ (offers.has self.old s i || (s == seat && is_among w chunks i)) }
    {
        let row = &mut self.seats[seat as usize];
        let fresh = chunks & !row.word(w);
        row.add(w, fresh);
        self.counts.raise(w, fresh);
    }

    // A seat offers no chunk of one word any more.
    fn take(&mut self, seat: u8, w: usize)
        requires seat { seat < 64 }
        requires here { w < words_for self.old.chunks }
        ensures chunks { self.new.chunks ≡ self.old.chunks }
        ensures seats { (s i : ℕ) → offers.has self.new s i ≡ (not (s == seat && i / 64 == w) && offers.has self.old s i) }
    {
        let row = &mut self.seats[seat as usize];
        let chunks = row.take(w);
        self.counts.lower(w, chunks);
    }

    // The least word from one on of which a seat offers a chunk.
    fn next_word(&self, seat: u8, from: usize) -> Option<usize>
        requires { seat < 64 }
        ensures most { self.now.chunks ≤ 2 ^ 20 }
        ensures first { MatchOption result ((i : ℕ) → from ≤ i / 64 → offers.has self.now seat i ≡ false)
            (λ w. (from ≤ w) × (w < words_for self.now.chunks)
            × ((i : ℕ) → from ≤ i / 64 → i / 64 < w → offers.has self.now seat i ≡ false)) }
    {
        next_set(self.seats[seat as usize].marks(), from)
    }

    // As many copies as a chunk can have.
    pub(crate) fn most_copies(&self) -> u32
        ensures value { result ≡ 64 }
        ensures copies { (seat i : ℕ) → offers.has self.now seat i ≡ true → (0 < offers.copies self.now i) × (offers.copies self.now i ≤ 64) }
    {
        self.seats.len() as u32
    }

    // The least chunk of so many copies that is wanted, and that the seat has.
    pub(crate) fn first_of(&self, seat: u8, wanted: &ChunkSet, copies: u32) -> Option<u32>
        requires seat { seat < 64 }
        requires wanted { length wanted.now ≡ self.now.chunks }
        requires some { 0 < copies }
        requires copies { copies ≤ 64 }
        ensures most { self.now.chunks ≤ 2 ^ 20 }
        ensures first { MatchOption result ((j : ℕ) → is_candidate self.now seat wanted.now j ≡ true → offers.copies self.now j ≢ copies)
            (λ i. (i < self.now.chunks) × (is_candidate self.now seat wanted.now i ≡ true) × (offers.copies self.now i ≡ copies)
            × ((j : ℕ) → is_candidate self.now seat wanted.now j ≡ true → offers.copies self.now j ≡ copies → i ≤ j)) }
    {
        let row = &self.seats[seat as usize];
        self.counts.first_of(wanted, row, copies)
    }

    /// A seat offers nothing any more.
    pub fn leave(&mut self, seat: u8)
        requires seat { seat < 64 }
        ensures chunks { self.new.chunks ≡ self.old.chunks }
        ensures seats { (s i : ℕ) → offers.has self.new s i ≡ (not (s == seat) && offers.has self.old s i) }
        ensures deeds { (deeds : List Deed) → Tells deeds self.old → Tells (Leave seat ∷ deeds) self.new }
    {
        let mut next = 0;
        while let Some(w) = self.next_word(seat, next) {
            self.take(seat, w);
            next = w + 1;
        }
    }
}
