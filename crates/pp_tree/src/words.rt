//! Bits in words of 64, the lowest first: one of them written, the word of a range, and the least one that is set. The bit
//! of a number n stands in word n / 64, at the place n % 64; past the last word no bit is set.
ghost use Rattle.std.specs.Prelude.{◌≡◌, ◌≢◌, ℕ, ◌+◌, ◌*◌, ◌/◌, ◌-◌, ◌^◌, ◌<◌, ◌≤◌, ◌==◌, ◌&&◌, nat_lt, replicate, length, slice_index, bit_xor, IfOk, IfSome};
ghost use Rattle.std.specs.Int.{bit_at};
ghost use Rattle.pp_tree.specs.Bits.{bit_of};
ghost use Rattle.pp_tree.specs.Marks.{IsFirstFrom, words_for, full_word};

use std::alloc::{AllocError, Global};

// The word with one bit written.
fn with_bit(word: u64, place: usize, value: bool) -> u64
    requires { place < 64 }
    ensures here { (bit_at result place == 1) ≡ value }
    ensures others { (k : ℕ) → k < 64 → k ≢ place → bit_at result k ≡ bit_at word k }
{
    if value {
        word | (1 << place)
    } else {
        word & !(1 << place)
    }
}

/// The word whose bits are those from one place to another.
pub fn mask(first: usize, last: usize) -> u64
    requires order { first ≤ last }
    requires inside { last < 64 }
    ensures { result ≡ 2 ^ (last + 1) - 2 ^ first }
{
    (u64::MAX >> (63 - last)) - ((1 << first) - 1)
}

/// Writes one bit, in a word that is there.
pub fn put(words: &mut [u64], i: usize, value: bool)
    requires { i / 64 < length words.old }
    ensures len { length words.new ≡ length words.old }
    ensures others { (w : ℕ) → w ≢ i / 64 → slice_index words.new w ≡ slice_index words.old w }
    ensures bits { (k : ℕ) → k ≢ i → bit_of words.new k ≡ bit_of words.old k }
    ensures here { bit_of words.new i ≡ value }
{
    words[i / 64] = with_bit(words[i / 64], i % 64, value);
}

/// Changes one bit from what it is.
pub fn change(words: &mut [u64], i: usize, old: bool, new: bool)
    requires inside { i / 64 < length words.old }
    requires before { bit_of words.old i ≡ old }
    ensures len { length words.new ≡ length words.old }
    ensures bits { (k : ℕ) → k ≢ i → bit_of words.new k ≡ bit_of words.old k }
    ensures here { bit_of words.new i ≡ new }
{
    if old != new {
        put(words, i, new);
    }
}

/// The word of which each bit is set whose number is below a count.
pub fn full(count: usize, w: usize) -> u64
    requires { w < 2 ^ 32 }
    ensures { result ≡ full_word count w }
{
    let rest = count.saturating_sub(64 * w);
    if rest < 64 { (1 << rest) - 1 } else { u64::MAX }
}

/// The bits below a count that a word has not set.
pub fn gaps(word: u64, count: usize, w: usize) -> u64
    requires { w < 2 ^ 32 }
    ensures { result ≡ bit_xor word (full_word count w) }
{
    word ^ full(count, w)
}

/// So many words, no bit of them set.
pub fn zeros(alloc: Global, count: usize) -> Result<Vec<u64>, AllocError>
    ensures { IfOk result (λ words. words.items ≡ replicate count 0) }
{
    vec![in alloc; 0; count]
}

/// Words of which so many bits are set.
pub fn ones(alloc: Global, count: usize) -> Result<Vec<u64>, AllocError>
    requires { count < 2 ^ 32 }
    ensures { IfOk result (λ words. (length words.items ≡ words_for count)
        × ((i : ℕ) → bit_of words.items i ≡ nat_lt i count)) }
{
    let size = count.div_ceil(64);
    let mut words = Vec::with_capacity(alloc, size)?;
    for w in 0..size {
        words.push(full(count, w))?;
    }
    Ok(words)
}

/// The place of a word's lowest bit that is set.
pub fn lowest(word: u64) -> usize
    requires { 0 < word }
    ensures range { result < 64 }
    ensures here { bit_at word result ≡ 1 }
    ensures below { (k : ℕ) → k < result → bit_at word k ≡ 0 }
{
    word.trailing_zeros() as usize
}

/// The place of a word's lowest bit that is set, from a place on.
pub fn lowest_from(word: u64, from: usize) -> Option<usize>
    requires { from < 64 }
    ensures range { IfSome result (λ i. i < 64) }
    ensures first { IsFirstFrom (λ k. bit_at word k == 1) from result }
{
    let rest = word >> from;
    if rest == 0 {
        return None;
    }
    Some(from + lowest(rest))
}

/// The least number from one on whose bit is set. It passes over 64 at once that are not.
pub fn next_set(words: &[u64], from: usize) -> Option<usize>
    requires { length words.now < 2 ^ 32 }
    ensures { IsFirstFrom (λ i. bit_of words.now i) from result }
{
    let mut place = from % 64;
    for w in from / 64..words.len() {
        if let Some(i) = lowest_from(words[w], place) {
            return Some(64 * w + i);
        }
        place = 0;
    }
    None
}

/// The least number from one on whose bit is set in three lists of words. It passes over 64 at once that are not.
pub fn next_common(words: &[u64], other: &[u64], third: &[u64], from: usize) -> Option<usize>
    requires small { length words.now < 2 ^ 32 }
    requires other { length other.now ≡ length words.now }
    requires third { length third.now ≡ length words.now }
    ensures { IsFirstFrom (λ i. bit_of words.now i && (bit_of other.now i && bit_of third.now i)) from result }
{
    let mut place = from % 64;
    for w in from / 64..words.len() {
        if let Some(i) = lowest_from(words[w] & other[w] & third[w], place) {
            return Some(64 * w + i);
        }
        place = 0;
    }
    None
}
