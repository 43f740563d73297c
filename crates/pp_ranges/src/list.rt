// Sets of numbers as lists of ranges.
ghost use Rattle.std.specs.Prelude.{◌≡◌, ◌↔◌, ℕ, ◌+◌, ◌*◌, ◌<◌, ◌≤◌, ◌==◌, nat_le, true, false, not, ◌&&◌, ◌||◌, Some, List, [], ◌∷◌, ◌++◌, length, drop, slice_index_or, OnOk, OnErr, IsOk, IsErr, MatchOption};
ghost use Rattle.std.specs.List.{filter};
ghost use Rattle.pp_terms.specs.tree.Range.{Span, within, has, IsRunsFrom, NeedsMore};
ghost use Rattle.pp_ranges.specs.Edits.{inserted, removed, without_below, number_count, pending_count, below, above, is_apart};

use crate::range::ChunkRange;
use arrayvec::ArrayVec;
use std::marker::Model;

/// A set that would need more than 64 ranges.
#[derive(Clone, Copy, PartialEq, Eq, Debug)]
pub struct Full;

/// A set of chunks in at most 64 ranges, in rising order, of which no two meet or touch.
#[derive(Drop)]
pub struct RangeList {
    ranges: ArrayVec<ChunkRange, 64>,
}

impl Model for RangeList {
    ghost use Rattle.std.specs.Prelude.{List};
    ghost use Rattle.pp_terms.specs.tree.Range.{Span, IsRunsFrom};

    ghost Value = { List Span };

    ghost view = { λ l. l.ranges.items };

    ghost invariant = { λ l. IsRunsFrom 0 l.ranges.items };
}

impl RangeList {
    /// The empty set.
    pub fn new() -> RangeList
        ensures { result ≡ [] }
    {
        RangeList {
            ranges: ArrayVec::new(),
        }
    }

    /// Adds a range, or changes nothing where more than 64 ranges would be needed.
    pub fn insert(&mut self, range: ChunkRange) -> Result<(), Full>
        ensures ok { OnOk result ((i : ℕ) → has self.new i ≡ (within range i || has self.old i)) }
        // The list itself, which these numbers determine.
        ensures exact { OnOk result ((self.new ≡ inserted (Some range) self.old) × (length (inserted (Some range) self.old) ≤ 64)) }
        ensures many { OnErr result (64 < length (inserted (Some range) self.old)) }
        ensures few { length self.new ≤ length self.old + 1 }
        ensures runs { IsRunsFrom 0 self.new }
        ensures err { OnErr result (self.new ≡ self.old) }
        ensures full { IsErr result ↔ NeedsMore 64 (λ i. within range i || has self.old i) }
    {
        // Its contract tells that the range is in order.
        let _ = range.first();
        let ranges = merged(&self.ranges, range);
        self.settle(&ranges)
    }

    /// Takes a range out, or changes nothing where more than 64 ranges would be needed.
    pub fn remove(&mut self, range: ChunkRange) -> Result<(), Full>
        ensures ok { OnOk result ((i : ℕ) → has self.new i ≡ (not (within range i) && has self.old i)) }
        ensures exact { OnOk result ((self.new ≡ removed range self.old) × (length (removed range self.old) ≤ 64)) }
        ensures many { OnErr result (64 < length (removed range self.old)) }
        ensures few { length self.new ≤ length self.old + 1 }
        // No range is split where no number lies below it.
        ensures front { ((i : ℕ) → i < range.first → has self.old i ≡ false) → IsOk result × (length self.new ≤ length self.old) }
        ensures runs { IsRunsFrom 0 self.new }
        ensures err { OnErr result (self.new ≡ self.old) }
        ensures full { IsErr result ↔ NeedsMore 64 (λ i. not (within range i) && has self.old i) }
    {
        // Its contract tells that the range is in order.
        let _ = range.first();
        let ranges = without(&self.ranges, range);
        self.settle(&ranges)
    }

    /// Takes out the range, and the whole of each range of the list that meets it.
    pub fn remove_wide(&mut self, range: ChunkRange)
        ensures kept { self.new ≡ filter (is_apart range) self.old }
        ensures few { length self.new ≤ length self.old }
        ensures runs { IsRunsFrom 0 self.new }
    {
        let mut ranges = ArrayVec::new();
        for next in self.ranges.iter() {
            if next.last() < range.first() || range.last() < next.first() {
                ranges.push(*next);
            }
        }
        self.ranges = ranges;
    }

    /// Takes out the numbers below one, and answers how many these were.
    pub fn remove_below(&mut self, i: u32) -> u32
        ensures exact { self.new ≡ without_below i self.old }
        ensures rest { (j : ℕ) → has self.new j ≡ (nat_le i j && has self.old j) }
        ensures count { result + number_count self.new ≡ number_count self.old }
        ensures few { length self.new ≤ length self.old }
        ensures runs { IsRunsFrom 0 self.new }
    {
        let (ended, count) = ended_below(&self.ranges, i);
        self.ranges.drain(..ended);
        count + self.cut_first(i)
    }

    // Takes the numbers below one out of the first range, which doesn't end below it, and answers how many these were.
    fn cut_first(&mut self, i: u32) -> u32
        requires { (x : Span) (xs : List Span) → self.old ≡ x ∷ xs → i ≤ x.last }
        ensures exact { self.new ≡ without_below i self.old }
        ensures count { result + number_count self.new ≡ number_count self.old }
        ensures most { (low : ℕ) → IsRunsFrom low self.old → low ≤ i → result + low ≤ i }
    {
        if self.ranges.is_empty() {
            return 0;
        }
        let range = self.ranges[0];
        self.ranges[0] = range.from_on(i);
        i.saturating_sub(range.first())
    }

    /// Takes out the least number.
    pub fn take_first(&mut self) -> Option<u32>
        ensures least { MatchOption result (self.old ≡ [])
            (λ first. (has self.old first ≡ true) × ((i : ℕ) → i < first → has self.old i ≡ false)) }
        ensures exact { MatchOption result (self.new ≡ self.old) (λ first. self.new ≡ removed (record { first = first; last = first }) self.old) }
        ensures rest { MatchOption result (self.new ≡ self.old)
            (λ first. (i : ℕ) → has self.new i ≡ (not (i == first) && has self.old i)) }
        ensures count { MatchOption result (self.new ≡ self.old) (λ _. number_count self.new + 1 ≡ number_count self.old) }
        ensures few { length self.new ≤ length self.old }
        ensures runs { IsRunsFrom 0 self.new }
    {
        if self.ranges.is_empty() {
            return None;
        }
        let range = self.ranges[0];
        if range.first() < range.last() {
            self.cut_first(range.first() + 1);
        } else {
            self.ranges.remove(0);
        }
        Some(range.first())
    }

    pub fn contains(&self, i: u32) -> bool
        ensures { result ≡ has self.now i }
    {
        for range in self.ranges.iter() {
            if range.first() <= i && i <= range.last() {
                return true;
            }
        }
        false
    }

    /// The least number of the set.
    pub fn first(&self) -> Option<u32>
        ensures least { MatchOption result (self.now ≡ [])
            (λ first. (has self.now first ≡ true) × ((i : ℕ) → i < first → has self.now i ≡ false)) }
        ensures runs { IsRunsFrom 0 self.now }
        ensures most { length self.now ≤ 64 }
    {
        if self.ranges.is_empty() {
            return None;
        }
        Some(self.ranges[0].first())
    }

    /// How many ranges the list has.
    pub fn count(&self) -> usize
        ensures count { result ≡ length self.now }
        ensures most { result ≤ 64 }
        ensures runs { IsRunsFrom 0 self.now }
    {
        self.ranges.len()
    }

    /// The range of that number, from 0, in rising order.
    pub fn range(&self, n: usize) -> ChunkRange
        requires { n < length self.now }
        ensures { result ≡ slice_index_or self.now n result }
    {
        self.ranges[n]
    }

    // Takes the ranges for its own, where they are at most 64.
    fn settle(&mut self, ranges: &[ChunkRange]) -> Result<(), Full>
        requires { IsRunsFrom 0 ranges.now }
        ensures ok { OnOk result ((self.new ≡ ranges.now) × (length ranges.now ≤ 64)) }
        ensures err { OnErr result ((self.new ≡ self.old) × (64 < length ranges.now)) }
    {
        if ranges.len() > 64 {
            return Err(Full);
        }
        let mut kept = ArrayVec::new();
        for range in ranges {
            kept.push(*range);
        }
        self.ranges = kept;
        Ok(())
    }
}

// How many of the ranges end below a number, and how many numbers these have.
fn ended_below(list: &[ChunkRange], i: u32) -> (usize, u32)
    requires { IsRunsFrom 0 list.now }
    ensures within { result.0 ≤ length list.now }
    ensures next { (x : Span) (xs : List Span) → drop result.0 list.now ≡ x ∷ xs → i ≤ x.last }
    ensures exact { without_below i (drop result.0 list.now) ≡ without_below i list.now }
    ensures count { result.1 + number_count (drop result.0 list.now) ≡ number_count list.now }
    ensures runs { IsRunsFrom result.1 (drop result.0 list.now) }
    ensures most { result.1 ≤ i }
{
    let mut count = 0;
    for (n, range) in list.iter().enumerate() {
        if i <= range.last() {
            return (n, count);
        }
        count += range.last() - range.first() + 1;
    }
    (list.len(), count)
}

// The ranges with one more.
fn merged(list: &[ChunkRange], range: ChunkRange) -> ArrayVec<ChunkRange, 65>
    requires { length list.now ≤ 64 }
    ensures { result.items ≡ inserted (Some range) list.now }
{
    let mut ranges = ArrayVec::new();
    let mut pending = Some(range);
    for next in list {
        pending = place(&mut ranges, pending, *next);
    }
    if let Some(last) = pending {
        ranges.push(last);
    }
    ranges
}

// What is left of the ranges without one.
fn without(list: &[ChunkRange], range: ChunkRange) -> ArrayVec<ChunkRange, 128>
    requires { length list.now ≤ 64 }
    ensures { result.items ≡ removed range list.now }
{
    let mut ranges = ArrayVec::new();
    for next in list {
        cut(&mut ranges, range, *next);
    }
    ranges
}

// Puts the next range of a list behind those before it, and the pending one before it or joined with it.
fn place(
    ranges: &mut ArrayVec<ChunkRange, 65>,
    pending: Option<ChunkRange>,
    next: ChunkRange,
) -> Option<ChunkRange>
    requires { length ranges.old.items + pending_count pending ≤ 64 }
    ensures rest { (xs : List Span) → ranges.new.items ++ inserted result xs ≡ ranges.old.items ++ inserted pending (next ∷ xs) }
    ensures len { length ranges.new.items + pending_count result ≤ length ranges.old.items + pending_count pending + 1 }
{
    let Some(range) = pending else {
        ranges.push(next);
        return None;
    };
    if next.last() < range.first() && next.last() + 1 < range.first() {
        ranges.push(next);
        return Some(range);
    }
    if range.last() < next.first() && range.last() + 1 < next.first() {
        ranges.push(range);
        ranges.push(next);
        return None;
    }
    ChunkRange::new(
        range.first().min(next.first()),
        range.last().max(next.last()),
    )
}

// Puts what a range leaves of the next behind those before.
fn cut(ranges: &mut ArrayVec<ChunkRange, 128>, range: ChunkRange, next: ChunkRange)
    requires { length ranges.old.items ≤ 126 }
    ensures items { ranges.new.items ≡ ranges.old.items ++ below range next ++ above range next }
    ensures len { length ranges.new.items ≤ length ranges.old.items + 2 }
{
    if next.first() < range.first() {
        push_range(ranges, next.first(), next.last().min(range.first() - 1));
    }
    if range.last() < next.last() {
        push_range(ranges, next.first().max(range.last() + 1), next.last());
    }
}

fn push_range(ranges: &mut ArrayVec<ChunkRange, 128>, first: u32, last: u32)
    requires room { length ranges.old.items < 128 }
    requires order { first ≤ last }
    ensures { ranges.new.items ≡ ranges.old.items ++ record { first = first; last = last } ∷ [] }
{
    if let Some(range) = ChunkRange::new(first, last) {
        ranges.push(range);
    }
}
