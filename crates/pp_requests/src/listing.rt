// The chunks that one channel's peer may still be sent.
ghost use Rattle.std.specs.Prelude.{◌≡◌, ◌↔◌, ℕ, ◌+◌, ◌<◌, ◌≤◌, ◌==◌, nat_le, length, ◌&&◌, ◌||◌, not, true, false, Some, [], OnOk, OnErr, IsErr, IsSome, MatchOption};
ghost use Rattle.std.specs.List.{filter};
ghost use Rattle.pp_terms.specs.tree.Range.{within, has, IsRunsFrom, NeedsMore};
ghost use Rattle.pp_ranges.specs.Edits.{inserted, removed, without_below, is_apart};
ghost use Rattle.pp_requests.specs.Lists.{IsLeast, are_too_many, requested, cancelled, without, chunk_count};

use pp_ranges::{ChunkRange, Full, RangeList};
use std::marker::Model;

/// What a CANCEL took out of a list of requests.
#[derive(Clone, Copy, PartialEq, Eq, Debug)]
pub enum Cancelled {
    /// Exactly its range.
    Exact,
    /// Its range and each range of the list that meets it, since more than 64 ranges would have been left.
    Wide,
}

/// The chunks that one channel's peer has asked for and may still be sent, in at most 64 ranges.
#[derive(Drop)]
pub struct Requests {
    list: RangeList,
}

impl Model for Requests {
    ghost use Rattle.std.specs.Prelude.{List};
    ghost use Rattle.pp_terms.specs.tree.Range.{Span};

    ghost Value = { List Span };

    ghost view = { λ r. r.list };
}

impl Requests {
    /// No requests.
    pub fn new() -> Requests
        ensures { result ≡ [] }
    {
        Requests {
            list: RangeList::new(),
        }
    }

    /// Adds a range of a REQUEST (RFC 7574, section 3.7), or changes nothing where more than 64 ranges would be needed.
    pub fn request(&mut self, range: ChunkRange) -> Result<(), Full>
        ensures ok { OnOk result ((i : ℕ) → has self.new i ≡ (within range i || has self.old i)) }
        ensures err { OnErr result (self.new ≡ self.old) }
        ensures full { IsErr result ↔ NeedsMore 64 (λ i. within range i || has self.old i) }
        // The same for the list itself.
        ensures exact { self.new ≡ requested range self.old }
        ensures many { OnErr result (are_too_many (inserted (Some range) self.old) ≡ true) }
        ensures few { OnOk result (are_too_many (inserted (Some range) self.old) ≡ false) }
        ensures ranges { length self.new ≤ length self.old + 1 }
    {
        self.list.insert(range)
    }

    /// Takes out the range of a CANCEL (RFC 7574, section 3.8). Where more than 64 ranges would be left, each range of
    /// the list that meets it goes too.
    pub fn cancel(&mut self, range: ChunkRange) -> Cancelled
        ensures exact { result ≡ Cancelled.Exact → (i : ℕ) → has self.new i ≡ (not (within range i) && has self.old i) }
        ensures dropped { result ≡ Cancelled.Wide → self.new ≡ filter (is_apart range) self.old }
        ensures wide { (result ≡ Cancelled.Wide) ↔ NeedsMore 64 (λ i. not (within range i) && has self.old i) }
        // The same for the list itself.
        ensures list { self.new ≡ cancelled range self.old }
        ensures many { result ≡ Cancelled.Wide → are_too_many (removed range self.old) ≡ true }
        ensures few { result ≡ Cancelled.Exact → are_too_many (removed range self.old) ≡ false }
        ensures ranges { length self.new ≤ length self.old + 1 }
    {
        match self.list.remove(range) {
            Ok(()) => Cancelled::Exact,
            Err(Full) => {
                self.list.remove_wide(range);
                Cancelled::Wide
            }
        }
    }

    /// Forgets all requests.
    pub fn clear(&mut self)
        ensures { self.new ≡ [] }
    {
        self.list = RangeList::new();
    }

    /// The least chunk that was asked for.
    pub fn peek(&self) -> Option<u32>
        ensures least { MatchOption result (self.now ≡ []) (IsLeast self.now) }
        ensures runs { IsRunsFrom 0 self.now }
        ensures most { length self.now ≤ 64 }
    {
        self.list.first()
    }

    /// Takes out the least chunk that was asked for.
    pub fn take(&mut self) -> Option<u32>
        ensures least { MatchOption result (self.old ≡ []) (IsLeast self.old) }
        ensures rest { MatchOption result (self.new ≡ self.old)
            (λ least. (i : ℕ) → has self.new i ≡ (not (i == least) && has self.old i)) }
        ensures list { MatchOption result (self.new ≡ self.old) (λ least. self.new ≡ without least self.old) }
        ensures fewer { IsSome result → chunk_count self.new < chunk_count self.old }
        ensures count { IsSome result → chunk_count self.new + 1 ≡ chunk_count self.old }
        // A chunk that was looked at before is the one that goes.
        ensures peeked { (i : ℕ) → IsLeast self.old i → (result ≡ Some i) × (self.new ≡ without i self.old) }
        ensures ranges { length self.new ≤ length self.old }
    {
        self.list.take_first()
    }

    /// Takes out all chunks below one, and answers how many these were. So a run of chunks that this peer lacks is passed
    /// over at once.
    pub fn drop_below(&mut self, i: u32) -> u32
        ensures rest { (j : ℕ) → has self.new j ≡ (nat_le i j && has self.old j) }
        ensures list { self.new ≡ without_below i self.old }
        ensures count { result + chunk_count self.new ≡ chunk_count self.old }
        ensures ranges { length self.new ≤ length self.old }
    {
        self.list.remove_below(i)
    }

    pub fn contains(&self, i: u32) -> bool
        ensures { result ≡ has self.now i }
    {
        self.list.contains(i)
    }
}
