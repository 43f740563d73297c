// Truth values in words of 64, each word marked by what it has.
ghost use Rattle.std.specs.Prelude.{◌≡◌, ℕ, ◌^◌, ◌<◌, ◌≤◌, true, false, replicate, length, slice_set, slice_index_or, IfOk, MatchOption};
ghost use Rattle.pp_tree.specs.Marks.{words_for};
ghost use Rattle.pp_tree.specs.Sets.{is_in_all, IsWordOf, AreMarksOf};

use crate::words::{
    change, full, gaps, lowest, lowest_from, next_common, next_set, ones, put, zeros,
};
use std::alloc::{AllocError, Global};
use std::marker::Model;

/// The members of a set of numbers below a count, a bit for each. Two marks a word say whether it has a member, and whether
/// it lacks one, so that a search passes over 64 words at once.
#[derive(Drop)]
pub struct Members {
    count: usize,
    words: Vec<u64>,
    // One bit for each word: whether any number of it is a member.
    any: Vec<u64>,
    // One bit for each word: whether any number of it, below the count, is not.
    lacks: Vec<u64>,
}

impl Model for Members {
    ghost use Rattle.std.specs.Prelude.{Bool, List};
    ghost use Rattle.pp_tree.specs.Bits.{bits_of};
    ghost use Rattle.pp_tree.specs.Marks.{IsMarked};

    ghost Value = { List Bool };

    ghost view = { λ m. bits_of m.count m.words.items };

    ghost invariant = { λ m. IsMarked m.count m.words.items m.any.items m.lacks.items };
}

impl Members {
    /// So many numbers, none of them a member.
    pub fn none(alloc: Global, count: usize) -> Result<Members, AllocError>
        requires { count < 2 ^ 32 }
        ensures { IfOk result (λ members. members ≡ replicate count false) }
    {
        let size = count.div_ceil(64);
        let words = zeros(alloc, size)?;
        let any = zeros(alloc, size.div_ceil(64))?;
        let lacks = ones(alloc, size)?;
        Ok(Members {
            count,
            words,
            any,
            lacks,
        })
    }

    pub fn contains(&self, i: usize) -> bool
        requires { i < length self.now }
        ensures { result ≡ slice_index_or self.now i false }
    {
        (self.words[i / 64] >> (i % 64)) & 1 == 1
    }

    /// The members among the 64 numbers of one word.
    pub fn word(&self, w: usize) -> u64
        requires { w < words_for (length self.now) }
        ensures { IsWordOf self.now w result }
    {
        self.words[w]
    }

    /// For each word whether it has a member, 64 words in one.
    pub fn marks(&self) -> &[u64]
        ensures { AreMarksOf self.now result.now }
    {
        &self.any
    }

    /// Makes a number a member or none.
    pub fn write(&mut self, i: usize, value: bool)
        requires { i < length self.old }
        ensures { self.new ≡ slice_set self.old i value }
    {
        let w = i / 64;
        let full = full(self.count, w);
        let old = self.words[w];
        put(&mut self.words, i, value);
        let word = self.words[w];
        change(&mut self.any, w, old != 0, word != 0);
        change(&mut self.lacks, w, old != full, word != full);
    }

    /// The least member from a number on.
    pub fn first_from(&self, from: usize) -> Option<usize>
        ensures { MatchOption result ((k : ℕ) → from ≤ k → slice_index_or self.now k false ≡ false)
            (λ i. (from ≤ i) × (i < length self.now) × (slice_index_or self.now i false ≡ true)
            × ((k : ℕ) → from ≤ k → k < i → slice_index_or self.now k false ≡ false)) }
    {
        if from >= self.count {
            return None;
        }
        let begun = from / 64;
        if let Some(i) = lowest_from(self.words[begun], from % 64) {
            return Some(64 * begun + i);
        }
        let w = next_set(&self.any, begun + 1)?;
        Some(64 * w + lowest(self.words[w]))
    }

    /// The least number from one on that is no member.
    pub fn first_absent_from(&self, from: usize) -> Option<usize>
        ensures { MatchOption result ((k : ℕ) → from ≤ k → k < length self.now → slice_index_or self.now k false ≡ true)
            (λ i. (from ≤ i) × (i < length self.now) × (slice_index_or self.now i true ≡ false)
            × ((k : ℕ) → from ≤ k → k < i → slice_index_or self.now k false ≡ true)) }
    {
        if from >= self.count {
            return None;
        }
        let begun = from / 64;
        if let Some(i) = lowest_from(gaps(self.words[begun], self.count, begun), from % 64) {
            return Some(64 * begun + i);
        }
        let w = next_set(&self.lacks, begun + 1)?;
        Some(64 * w + lowest(gaps(self.words[w], self.count, w)))
    }

    /// The least number that is a member here and of two others with as many numbers.
    pub fn first_common(&self, other: &Members, third: &Members) -> Option<usize>
        requires other { length other.now ≡ length self.now }
        requires third { length third.now ≡ length self.now }
        ensures { MatchOption result ((k : ℕ) → is_in_all self.now other.now third.now k ≡ false)
            (λ i. (i < length self.now) × (is_in_all self.now other.now third.now i ≡ true)
            × ((k : ℕ) → k < i → is_in_all self.now other.now third.now k ≡ false)) }
    {
        let mut from = 0;
        while let Some(w) = next_common(&self.any, &other.any, &third.any, from) {
            let common = self.words[w] & other.words[w] & third.words[w];
            if common != 0 {
                return Some(64 * w + lowest(common));
            }
            from = w + 1;
        }
        None
    }
}
