// Sets of chunks.
ghost use Rattle.std.specs.Prelude.{◌≡◌, ℕ, ◌^◌, ◌<◌, ◌≤◌, true, false, replicate, length, count_by, slice_set, slice_index_or, IfOk, IsTrue, MatchOption};
ghost use Rattle.pp_tree.specs.Marks.{words_for};
ghost use Rattle.pp_tree.specs.Sets.{is_in_all, IsWordOf, AreMarksOf};

use crate::members::Members;
use std::alloc::{AllocError, Global};
use std::marker::Model;

/// A set of a content's chunks, by their numbers from 0. It is seen as the list that tells of each number whether it is
/// in the set.
#[derive(Drop)]
pub struct ChunkSet {
    members: Members,
    count: u32,
}

impl Model for ChunkSet {
    ghost use Rattle.std.specs.Prelude.{◌≡◌, ◌^◌, ◌<◌, Bool, List, length, count_by};

    ghost Value = { List Bool };

    ghost view = { λ s. s.members };

    ghost invariant = { λ s. (length s.members < 2 ^ 32) × (s.count ≡ count_by (λ b. b) s.members) };
}

impl ChunkSet {
    /// The set of none of so many chunks.
    pub fn none(alloc: Global, chunks: u32) -> Result<ChunkSet, AllocError>
        ensures { IfOk result (λ set. set ≡ replicate chunks false) }
    {
        let members = Members::none(alloc, chunks as usize)?;
        Ok(ChunkSet { members, count: 0 })
    }

    pub fn contains(&self, i: u32) -> bool
        requires { i < length self.now }
        ensures { result ≡ slice_index_or self.now i false }
    {
        self.members.contains(i as usize)
    }

    /// The chunks of the set among 64, those from number 64 * w on, as bits of a word, the lowest first.
    pub fn word(&self, w: u32) -> u64
        requires { w < words_for (length self.now) }
        ensures { IsWordOf self.now w result }
    {
        self.members.word(w as usize)
    }

    /// For each word of 64 chunks whether any is in the set: one bit a word, the lowest first.
    pub fn marks(&self) -> &[u64]
        ensures small { length self.now < 2 ^ 32 }
        ensures marks { AreMarksOf self.now result.now }
    {
        self.members.marks()
    }

    /// Adds a chunk, which may be there already.
    pub fn insert(&mut self, i: u32)
        requires { i < length self.old }
        ensures { self.new ≡ slice_set self.old i true }
    {
        if !self.contains(i) {
            self.count += 1;
            self.members.write(i as usize, true);
        }
    }

    /// Takes a chunk out, which need not be there.
    pub fn remove(&mut self, i: u32)
        requires { i < length self.old }
        ensures { self.new ≡ slice_set self.old i false }
    {
        if self.contains(i) {
            self.count -= 1;
            self.members.write(i as usize, false);
        }
    }

    /// How many chunks are in the set.
    pub fn count(&self) -> u32
        ensures { result ≡ count_by (λ b. b) self.now }
    {
        self.count
    }

    fn is_empty(&self) -> bool
        ensures { IsTrue result → (k : ℕ) → slice_index_or self.now k false ≡ false }
    {
        self.count == 0
    }

    /// The least chunk that isn't in the set.
    pub fn first_absent(&self) -> Option<u32>
        ensures { MatchOption result ((k : ℕ) → k < length self.now → slice_index_or self.now k false ≡ true)
            (λ i. (i < length self.now) × (slice_index_or self.now i true ≡ false)
            × ((k : ℕ) → k < i → slice_index_or self.now k false ≡ true)) }
    {
        self.first_absent_from(0)
    }

    /// The least chunk from one on that is in the set.
    pub fn first_from(&self, from: u32) -> Option<u32>
        ensures { MatchOption result ((k : ℕ) → from ≤ k → slice_index_or self.now k false ≡ false)
            (λ i. (from ≤ i) × (i < length self.now) × (slice_index_or self.now i false ≡ true)
            × ((k : ℕ) → from ≤ k → k < i → slice_index_or self.now k false ≡ false)) }
    {
        let i = self.members.first_from(from as usize)?;
        Some(i as u32)
    }

    /// The least chunk from one on that isn't in the set.
    pub fn first_absent_from(&self, from: u32) -> Option<u32>
        ensures { MatchOption result ((k : ℕ) → from ≤ k → k < length self.now → slice_index_or self.now k false ≡ true)
            (λ i. (from ≤ i) × (i < length self.now) × (slice_index_or self.now i true ≡ false)
            × ((k : ℕ) → from ≤ k → k < i → slice_index_or self.now k false ≡ true)) }
    {
        let i = self.members.first_absent_from(from as usize)?;
        Some(i as u32)
    }

    /// The least chunk that is in this set and in two others of the same content.
    pub fn first_common(&self, other: &ChunkSet, third: &ChunkSet) -> Option<u32>
        requires other { length other.now ≡ length self.now }
        requires third { length third.now ≡ length self.now }
        ensures { MatchOption result ((k : ℕ) → is_in_all self.now other.now third.now k ≡ false)
            (λ i. (i < length self.now) × (is_in_all self.now other.now third.now i ≡ true)
            × ((k : ℕ) → k < i → is_in_all self.now other.now third.now k ≡ false)) }
    {
        if self.is_empty() || other.is_empty() || third.is_empty() {
            return None;
        }
        let i = self.members.first_common(&other.members, &third.members)?;
        Some(i as u32)
    }
}
