// Truth values packed into words.
ghost use Rattle.std.specs.Prelude.{◌≡◌, ◌≢◌, ℕ, ◌+◌, ◌*◌, ◌/◌, ◌^◌, ◌-◌, ◌<◌, ◌≤◌, ◌&&◌, ◌||◌, nat_le, nat_lt, true, false, replicate, length, slice_index, slice_set, slice_index_or, IfOk};
ghost use Rattle.pp_tree.specs.Bits.{bit_of};

use crate::words::{mask, zeros};
use std::alloc::{AllocError, Global};
use std::marker::Model;

/// Truth values, each in one bit. A range of them is set by whole words, and words that are full already are passed over 64
/// at once.
#[derive(Drop)]
pub struct Bits {
    count: usize,
    words: Vec<u64>,
    // One bit for each word: whether all of its bits are set.
    summary: Vec<u64>,
}

impl Model for Bits {
    ghost use Rattle.std.specs.Prelude.{Bool, List};
    ghost use Rattle.pp_tree.specs.Bits.{bits_of, IsPacked};

    ghost Value = { List Bool };

    ghost view = { λ b. bits_of b.count b.words.items };

    ghost invariant = { λ b. IsPacked b.count b.words.items b.summary.items };
}

// Sets the bits of one word from one place to another.
fn fill_word(words: &mut [u64], first: usize, last: usize)
    requires order { first ≤ last }
    requires one { first / 64 ≡ last / 64 }
    requires inside { last / 64 < length words.old }
    ensures len { length words.new ≡ length words.old }
    ensures others { (w : ℕ) → w ≢ first / 64 → slice_index words.new w ≡ slice_index words.old w }
    ensures full { slice_index words.old (first / 64) ≡ 2 ^ 64 - 1 → slice_index words.new (first / 64) ≡ 2 ^ 64 - 1 }
    ensures bits { (i : ℕ) → bit_of words.new i ≡ (bit_of words.old i || (nat_le first i && nat_le i last)) }
{
    words[first / 64] |= mask(first % 64, last % 64);
}

impl Bits {
    /// So many, none of them set.
    pub fn new(alloc: Global, count: usize) -> Result<Bits, AllocError>
        ensures { IfOk result (λ bits. bits ≡ replicate count false) }
    {
        let words = zeros(alloc, count.div_ceil(64))?;
        let summary = zeros(alloc, words.len().div_ceil(64))?;
        Ok(Bits {
            count,
            words,
            summary,
        })
    }

    /// Whether a bit is set.
    pub fn has(&self, i: usize) -> bool
        requires { i < length self.now }
        ensures { result ≡ slice_index_or self.now i false }
    {
        (self.words[i / 64] >> (i % 64)) & 1 == 1
    }

    /// Sets one bit, which may be set already.
    pub fn set(&mut self, i: usize)
        requires { i < length self.old }
        ensures { self.new ≡ slice_set self.old i true }
    {
        self.fill_in_word(i, i);
    }

    /// Sets the bits from one place to another.
    pub fn fill(&mut self, first: usize, last: usize)
        requires order { first ≤ last }
        requires inside { last < length self.old }
        ensures len { length self.new ≡ length self.old }
        ensures bits { (i : ℕ) → slice_index_or self.new i false
            ≡ (slice_index_or self.old i false || (nat_le first i && nat_le i last)) }
    {
        let low = first / 64;
        let high = last / 64;
        if low == high {
            self.fill_in_word(first, last);
            return;
        }
        self.fill_in_word(first, 64 * low + 63);
        self.fill_words(low + 1, high);
        self.fill_in_word(64 * high, last);
    }

    // Sets the bits from one place to another of the same word.
    fn fill_in_word(&mut self, first: usize, last: usize)
        requires order { first ≤ last }
        requires one { first / 64 ≡ last / 64 }
        requires inside { last < length self.old }
        ensures len { length self.new ≡ length self.old }
        ensures bits { (i : ℕ) → slice_index_or self.new i false
            ≡ (slice_index_or self.old i false || (nat_le first i && nat_le i last)) }
    {
        fill_word(&mut self.words, first, last);
        let w = first / 64;
        if self.words[w] == u64::MAX {
            fill_word(&mut self.summary, w, w);
        }
    }

    // Sets all bits of the words from one place to before another.
    fn fill_words(&mut self, low: usize, high: usize)
        requires order { low ≤ high }
        requires inside { 64 * high ≤ length self.old }
        ensures len { length self.new ≡ length self.old }
        ensures bits { (i : ℕ) → slice_index_or self.new i false
            ≡ (slice_index_or self.old i false || (nat_le (64 * low) i && nat_lt i (64 * high))) }
    {
        let mut w = low;
        while w < high {
            let run = self.full_words(w);
            if run == 0 {
                self.fill_in_word(64 * w, 64 * w + 63);
                w += 1;
            } else {
                w = high.min(w + run);
            }
        }
    }

    // How many words from one on are full, as far as its word of the summary goes.
    fn full_words(&self, w: usize) -> usize
        requires { 64 * w < length self.now }
        ensures range { result ≤ 64 }
        ensures most { length self.now < 2 ^ 64 }
        ensures full { (i : ℕ) → 64 * w ≤ i → i < 64 * (w + result) → i < length self.now → slice_index_or self.now i false ≡ true }
    {
        let summary = self.summary[w / 64];
        if summary == u64::MAX {
            return 64 - w % 64;
        }
        (summary >> (w % 64)).trailing_ones() as usize
    }

    /// Leaves none of them set.
    pub fn clear(&mut self)
        ensures { self.new ≡ replicate (length self.old) false }
    {
        self.words.fill(0);
        self.summary.fill(0);
    }
}
