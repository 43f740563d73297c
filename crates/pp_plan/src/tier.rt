// One tier of the chunks that were told of: a bit for each of them, or for each run of so many.
ghost use Rattle.std.specs.Prelude.{◌≡◌, ◌≢◌, ℕ, ◌+◌, ◌*◌, ◌/◌, ◌^◌, ◌<◌, ◌≤◌, ◌&&◌, ◌||◌, nat_le, nat_lt, true, false, replicate, length, slice_index, IfOk};
ghost use Rattle.pp_tree.specs.Bits.{bit_of};
ghost use Rattle.pp_plan.specs.Told.{some_among};
ghost use Rattle.pp_plan.specs.Tiers.{IsLacking, IsOver};

use pp_tree::words::{change, lowest_from, mask, next_set, ones, put, zeros};
use std::alloc::{AllocError, Global};
use std::marker::Model;

/// Bits in words of 64. A mark a word says whether the word lacks some bit, so that words that are full are passed over 64 at
/// once.
#[derive(Drop)]
pub(crate) struct Tier {
    words: Vec<u64>,
    // One bit for each word: whether some bit of it is not set.
    lacks: Vec<u64>,
}

impl Model for Tier {
    ghost use Rattle.std.specs.Prelude.{ℕ, List};
    ghost use Rattle.pp_plan.specs.Tiers.{IsLacking};

    ghost Value = { List ℕ };

    ghost view = { λ t. t.words.items };

    ghost invariant = { λ t. IsLacking t.words.items t.lacks.items };
}

// The least number from one on whose bit is set, or else the end.
fn next_until(words: &[u64], from: usize, end: usize) -> usize
    requires small { length words.now < 2 ^ 32 }
    requires order { from ≤ end }
    ensures low { from ≤ result }
    ensures high { result ≤ end }
    ensures none { (k : ℕ) → from ≤ k → k < result → bit_of words.now k ≡ false }
    ensures here { result < end → bit_of words.now result ≡ true }
{
    match next_set(words, from) {
        Some(i) if i < end => i,
        _ => end,
    }
}

// Sets the bits from one place to another of the same word.
fn fill_part(words: &mut [u64], lacks: &mut [u64], first: usize, last: usize)
    requires order { first ≤ last }
    requires one { first / 64 ≡ last / 64 }
    requires inside { last / 64 < length words.old }
    requires lacks { IsLacking words.old lacks.old }
    ensures len { length words.new ≡ length words.old }
    ensures lacks { IsLacking words.new lacks.new }
    ensures bits { (i : ℕ) → bit_of words.new i ≡ (bit_of words.old i || (nat_le first i && nat_le i last)) }
{
    let w = first / 64;
    let old = words[w];
    let word = old | mask(first % 64, last % 64);
    words[w] = word;
    change(lacks, w, old != u64::MAX, word != u64::MAX);
}

// Sets all bits of the words from one place to before another.
fn fill_whole(words: &mut [u64], lacks: &mut [u64], low: usize, high: usize)
    requires order { low ≤ high }
    requires inside { high ≤ length words.old }
    requires lacks { IsLacking words.old lacks.old }
    ensures len { length words.new ≡ length words.old }
    ensures lacks { IsLacking words.new lacks.new }
    ensures bits { (i : ℕ) → bit_of words.new i ≡ (bit_of words.old i || (nat_le (64 * low) i && nat_lt i (64 * high))) }
{
    let mut w = next_until(lacks, low, high);
    while w < high {
        fill_part(words, lacks, 64 * w, 64 * w + 63);
        w = next_until(lacks, w + 1, high);
    }
}

// Whether some bit of a word is set.
fn has_some(words: &[u64], w: usize) -> bool
    requires { w < length words.now }
    ensures { result ≡ some_among (bit_of words.now) (64 * w) 64 }
{
    words[w] != 0
}

// Sets the bits from one place to another. Whether they lie in one word, some bit of which was set before.
fn fill(words: &mut [u64], lacks: &mut [u64], first: usize, last: usize) -> bool
    requires order { first ≤ last }
    requires inside { last / 64 < length words.old }
    requires lacks { IsLacking words.old lacks.old }
    ensures len { length words.new ≡ length words.old }
    ensures lacks { IsLacking words.new lacks.new }
    ensures bits { (i : ℕ) → bit_of words.new i ≡ (bit_of words.old i || (nat_le first i && nat_le i last)) }
    ensures one { result ≡ true → first / 64 ≡ last / 64 }
    ensures before { result ≡ true → some_among (bit_of words.old) (64 * (first / 64)) 64 ≡ true }
{
    let low = first / 64;
    let high = last / 64;
    if low == high {
        let some = has_some(words, low);
        fill_part(words, lacks, first, last);
        return some;
    }
    fill_part(words, lacks, first, 64 * low + 63);
    fill_whole(words, lacks, low + 1, high);
    fill_part(words, lacks, 64 * high, last);
    false
}

// Leaves no bit set in the 64 words whose marks are one word, or in as many of them as there are.
fn clear_words(words: &mut [u64], lacks: &mut [u64], k: usize)
    requires small { k < 2 ^ 32 }
    requires lacks { IsLacking words.old lacks.old }
    ensures len { length words.new ≡ length words.old }
    ensures lacks { IsLacking words.new lacks.new }
    ensures others { (w : ℕ) → w / 64 ≢ k → slice_index words.new w ≡ slice_index words.old w }
    ensures here { (w : ℕ) → w / 64 ≡ k → slice_index words.new w ≡ 0 }
{
    if words.len() <= 64 * k {
        return;
    }
    let end = words.len().min(64 * k + 64);
    words[64 * k..end].fill(0);
    lacks[k] = u64::MAX;
}

// Leaves no bit set, by bits that say in which words there are any.
fn clear(words: &mut [u64], lacks: &mut [u64], above: &[u64])
    requires small { length above.now < 2 ^ 32 }
    requires over { IsOver above.now words.old }
    requires lacks { IsLacking words.old lacks.old }
    ensures len { length words.new ≡ length words.old }
    ensures lacks { IsLacking words.new lacks.new }
    ensures none { (w : ℕ) → slice_index words.new w ≡ 0 }
{
    for k in 0..above.len() {
        if above[k] != 0 {
            clear_words(words, lacks, k);
        }
    }
}

impl Tier {
    /// So many words, no bit of them set.
    pub(crate) fn none(alloc: Global, size: usize) -> Result<Tier, AllocError>
        requires { size < 2 ^ 32 }
        ensures { IfOk result (λ tier. tier ≡ replicate size 0) }
    {
        let words = zeros(alloc, size)?;
        let lacks = ones(alloc, size)?;
        Ok(Tier { words, lacks })
    }

    /// Sets the bits from one place to another. Whether they lie in one word, some bit of which was set before: then a tier
    /// above has nothing to learn. Words that are full already are passed over, 64 at once.
    pub(crate) fn fill(&mut self, first: usize, last: usize) -> bool
        requires order { first ≤ last }
        requires inside { last / 64 < length self.old }
        ensures len { length self.new ≡ length self.old }
        ensures bits { (i : ℕ) → bit_of self.new i ≡ (bit_of self.old i || (nat_le first i && nat_le i last)) }
        ensures one { result ≡ true → first / 64 ≡ last / 64 }
        ensures before { result ≡ true → some_among (bit_of self.old) (64 * (first / 64)) 64 ≡ true }
    {
        fill(&mut self.words, &mut self.lacks, first, last)
    }

    /// Whether some bit of a run is set, of one that begins at a multiple of its length and lies in one word.
    pub(crate) fn has_run(&self, offset: u32, wide: u8) -> bool
        requires { wide < 6 }
        ensures { result ≡ some_among (bit_of self.now) (offset * 2 ^ wide) (2 ^ wide) }
    {
        let length = 1usize << wide;
        let first = offset as usize * length;
        let Some(word) = self.words.get(first / 64) else {
            return false;
        };
        match lowest_from(*word, first % 64) {
            Some(place) => place < first % 64 + length,
            None => false,
        }
    }

    /// Leaves no bit set, by the tier above, which says in which words there are any: where it has a word of no bit, 64 words
    /// are passed over.
    pub(crate) fn clear(&mut self, above: &Tier)
        requires { IsOver above.now self.old }
        ensures len { length self.new ≡ length self.old }
        ensures none { (i : ℕ) → bit_of self.new i ≡ false }
    {
        clear(&mut self.words, &mut self.lacks, &above.words);
    }

    /// Leaves no bit set where there is one word.
    pub(crate) fn clear_one(&mut self)
        requires { length self.old ≡ 1 }
        ensures len { length self.new ≡ 1 }
        ensures none { (i : ℕ) → bit_of self.new i ≡ false }
    {
        clear_words(&mut self.words, &mut self.lacks, 0);
    }
}
