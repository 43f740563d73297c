// Rows of bits.
ghost use Rattle.std.specs.Prelude.{◌≡◌, ℕ, ◌^◌, ◌/◌, ◌<◌, ◌≤◌, ◌==◌, ◌&&◌, ◌||◌, not, true, false, replicate, length, slice_set, slice_index_or, IfOk, IsTrue, MatchOption};
ghost use Rattle.pp_tree.specs.Marks.{words_for};
ghost use Rattle.pp_tree.specs.Sets.{IsWordOf, AreMarksOf};
ghost use Rattle.pp_avail.specs.Rows.{is_among, AreWordsOf};

use pp_tree::words::{full, next_set, ones, put, zeros};
use std::alloc::{AllocError, Global};
use std::marker::Model;

/// Bits by their numbers from 0, 64 in a word. Two marks a word say whether any of its bits is set, and whether any isn't, so
/// that a search passes over 64 words at once.
#[derive(Drop)]
pub(crate) struct Row {
    count: usize,
    words: Vec<u64>,
    // One bit for each word: whether any bit of it is set.
    any: Vec<u64>,
    // One bit for each word: whether any bit of it, below the count, is not.
    lacks: Vec<u64>,
}

impl Model for Row {
    ghost use Rattle.std.specs.Prelude.{Bool, List};
    ghost use Rattle.pp_tree.specs.Bits.{bits_of};
    ghost use Rattle.pp_tree.specs.Marks.{IsMarked};

    ghost Value = { List Bool };

    ghost view = { λ r. bits_of r.count r.words.items };

    ghost invariant = { λ r. IsMarked r.count r.words.items r.any.items r.lacks.items };
}

impl Row {
    /// So many bits, none of them set.
    pub(crate) fn none(alloc: Global, count: usize) -> Result<Row, AllocError>
        requires { count < 2 ^ 32 }
        ensures { IfOk result (λ row. row ≡ replicate count false) }
    {
        let size = count.div_ceil(64);
        let words = zeros(alloc, size)?;
        let any = zeros(alloc, size.div_ceil(64))?;
        let lacks = ones(alloc, size)?;
        Ok(Row {
            count,
            words,
            any,
            lacks,
        })
    }

    /// Whether a bit is set.
    pub(crate) fn has(&self, i: usize) -> bool
        requires { i < length self.now }
        ensures { result ≡ slice_index_or self.now i false }
    {
        (self.words[i / 64] >> (i % 64)) & 1 == 1
    }

    /// Whether no bit is set.
    pub(crate) fn is_empty(&self) -> bool
        ensures { IsTrue result → (i : ℕ) → slice_index_or self.now i false ≡ false }
    {
        next_set(&self.any, 0).is_none()
    }

    /// The bits of one word.
    pub(crate) fn word(&self, w: usize) -> u64
        requires { w < words_for (length self.now) }
        ensures { IsWordOf self.now w result }
    {
        self.words[w]
    }

    /// All words.
    pub(crate) fn words(&self) -> &[u64]
        ensures { AreWordsOf self.now result.now }
    {
        &self.words
    }

    /// Of each word whether any bit is set, 64 words in one.
    pub(crate) fn marks(&self) -> &[u64]
        ensures small { length self.now < 2 ^ 32 }
        ensures marks { AreMarksOf self.now result.now }
    {
        &self.any
    }

    /// The least word from one to another of which a bit isn't set. It passes over 64 at once of which all are.
    pub(crate) fn next_lacking(&self, from: usize, to: usize) -> Option<usize>
        ensures { MatchOption result ((i : ℕ) → from ≤ i / 64 → i / 64 ≤ to → i < length self.now → slice_index_or self.now i false ≡ true)
            (λ w. (from ≤ w) × (w ≤ to)
            × ((i : ℕ) → from ≤ i / 64 → i / 64 < w → i < length self.now → slice_index_or self.now i false ≡ true)) }
    {
        if from > to {
            return None;
        }
        let w = next_set(&self.lacks, from)?;
        if w > to {
            return None;
        }
        Some(w)
    }

    /// Sets some bits of one word.
    pub(crate) fn add(&mut self, w: usize, bits: u64)
        requires here { w < words_for (length self.old) }
        requires inside { (i : ℕ) → is_among w bits i ≡ true → i < length self.old }
        ensures len { length self.new ≡ length self.old }
        ensures bits { (i : ℕ) → slice_index_or self.new i false ≡ (slice_index_or self.old i false || is_among w bits i) }
    {
        let word = self.words[w] | bits;
        self.put_word(w, word);
    }

    /// Sets no bit of one word any more, and gives what it was.
    pub(crate) fn take(&mut self, w: usize) -> u64
        requires { w < words_for (length self.old) }
        ensures word { IsWordOf self.old w result }
        ensures len { length self.new ≡ length self.old }
        ensures bits { (i : ℕ) → slice_index_or self.new i false ≡ (not (i / 64 == w) && slice_index_or self.old i false) }
    {
        let word = self.words[w];
        self.put_word(w, 0);
        word
    }

    // Writes one word, and its marks.
    fn put_word(&mut self, w: usize, word: u64)
        requires here { w < words_for (length self.old) }
        requires inside { (i : ℕ) → is_among w word i ≡ true → i < length self.old }
        ensures len { length self.new ≡ length self.old }
        ensures bits { (i : ℕ) → slice_index_or self.new i false ≡ (is_among w word i || (not (i / 64 == w) && slice_index_or self.old i false)) }
    {
        let full = full(self.count, w);
        self.words[w] = word;
        put(&mut self.any, w, word != 0);
        put(&mut self.lacks, w, word != full);
    }

    /// Writes one bit.
    pub(crate) fn write(&mut self, i: usize, value: bool)
        requires { i < length self.old }
        ensures { self.new ≡ slice_set self.old i value }
    {
        let w = i / 64;
        let full = full(self.count, w);
        put(&mut self.words, i, value);
        let changed = self.words[w];
        put(&mut self.any, w, changed != 0);
        put(&mut self.lacks, w, changed != full);
    }
}
