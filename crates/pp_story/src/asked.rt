//! The chunks that a peer asks for.

ghost use Rattle.std.specs.Prelude.{◌≡◌, ℕ, ◌*◌, ◌/◌, ◌^◌, ◌<◌, ◌≤◌, ◌==◌, ◌&&◌, ◌||◌, not, nat_le, if◌then◌else◌, false, replicate, length, IfOk, MatchOption};
ghost use Rattle.std.specs.Int.{bit_at};
ghost use Rattle.pp_terms.specs.tree.Range.{within};
ghost use Rattle.pp_tree.specs.Bits.{bit_of};
ghost use Rattle.pp_wire.specs.Views.{span_of};

use pp_tree::words::{mask, zeros};
use pp_wire::Span;
use std::alloc::{AllocError, Global};
use std::marker::Model;

/// A bit a chunk, 64 to a word: whether the chunk is asked for. A span of chunks is written by whole words.
#[derive(Drop)]
pub(crate) struct Asked {
    words: Vec<u64>,
    // Whether a bit may be set: false since all were cleared.
    some: bool,
}

impl Model for Asked {
    ghost use Rattle.std.specs.Prelude.{◌≡◌, ℕ, ◌^◌, ◌<◌, false, List, length};
    ghost use Rattle.pp_tree.specs.Bits.{bit_of};

    ghost Value = { List ℕ };

    ghost view = { λ a. a.words.items };

    ghost invariant = { λ a. (length a.words.items < 2 ^ 32)
        × (a.some ≡ false → (i : ℕ) → bit_of a.words.items i ≡ false) };
}

// The word with its bits from one place to another written.
fn word_with(word: u64, first: usize, last: usize, value: bool) -> u64
    requires order { first ≤ last }
    requires inside { last < 64 }
    ensures { (k : ℕ) → k < 64 → (bit_at result k == 1)
        ≡ (if nat_le first k && nat_le k last then value else (bit_at word k == 1)) }
{
    let mask = mask(first, last);
    if value { word | mask } else { word & !mask }
}

// Writes the bits of one word from one number to another.
fn write_in_word(words: &mut [u64], first: usize, last: usize, value: bool)
    requires order { first ≤ last }
    requires one { first / 64 ≡ last / 64 }
    requires inside { last / 64 < length words.old }
    ensures len { length words.new ≡ length words.old }
    ensures bits { (i : ℕ) → bit_of words.new i
        ≡ (if nat_le first i && nat_le i last then value else bit_of words.old i) }
{
    let w = first / 64;
    words[w] = word_with(words[w], first % 64, last % 64, value);
}

// Writes the bits from one number to another, word by word.
fn write(words: &mut [u64], first: usize, last: usize, value: bool)
    requires order { first ≤ last }
    requires inside { last / 64 < length words.old }
    requires small { length words.old < 2 ^ 32 }
    ensures len { length words.new ≡ length words.old }
    ensures bits { (i : ℕ) → bit_of words.new i
        ≡ (if nat_le first i && nat_le i last then value else bit_of words.old i) }
{
    for w in first / 64..last / 64 + 1 {
        write_in_word(words, first.max(64 * w), last.min(64 * w + 63), value);
    }
}

// The numbers of a span below a count, as a first and a last one; none where there is no such number.
fn numbers_below(count: usize, span: Span) -> Option<(usize, usize)>
    ensures { MatchOption result ((i : ℕ) → i < count → within (span_of span) i ≡ false)
        (λ cut. (cut.0 ≤ cut.1) × (cut.1 < count)
        × ((i : ℕ) → i < count → (nat_le cut.0 i && nat_le i cut.1) ≡ within (span_of span) i)) }
{
    if span.last < span.first || count as u64 <= span.first {
        return None;
    }
    let first = span.first as usize;
    let last = span.last.min(count as u64 - 1) as usize;
    Some((first, last))
}

impl Asked {
    /// None of so many chunks is asked for.
    pub(crate) fn none(alloc: Global, chunks: u32) -> Result<Asked, AllocError>
        ensures size { IfOk result (λ asked. chunks ≤ 64 * length asked) }
        ensures none { IfOk result (λ asked. (i : ℕ) → bit_of asked i ≡ false) }
    {
        let words = zeros(alloc, (chunks as usize).div_ceil(64))?;
        Ok(Asked { words, some: false })
    }

    /// Whether a chunk of the content is asked for.
    pub(crate) fn has(&self, chunk: u32) -> bool
        ensures { result ≡ bit_of self.now chunk }
    {
        match self.words.get(chunk as usize / 64) {
            Some(word) => (*word >> (chunk % 64)) & 1 == 1,
            None => false,
        }
    }

    /// The chunks of a span are asked for.
    pub(crate) fn ask(&mut self, span: Span)
        ensures len { length self.new ≡ length self.old }
        ensures bits { (i : ℕ) → i < 64 * length self.old
            → bit_of self.new i ≡ (within (span_of span) i || bit_of self.old i) }
    {
        let count = 64 * self.words.len();
        if let Some((first, last)) = numbers_below(count, span) {
            write(&mut self.words, first, last, true);
            self.some = true;
        }
    }

    /// The chunks of a span are asked for no more.
    pub(crate) fn withdraw(&mut self, span: Span)
        ensures len { length self.new ≡ length self.old }
        ensures bits { (i : ℕ) → i < 64 * length self.old
            → bit_of self.new i ≡ (not (within (span_of span) i) && bit_of self.old i) }
    {
        if !self.some {
            return;
        }
        let count = 64 * self.words.len();
        if let Some((first, last)) = numbers_below(count, span) {
            write(&mut self.words, first, last, false);
        }
    }

    /// No chunk is asked for any more. Where none was asked for since the last time, no word is walked over.
    pub(crate) fn forget(&mut self)
        ensures len { length self.new ≡ length self.old }
        ensures none { (i : ℕ) → bit_of self.new i ≡ false }
    {
        if self.some {
            self.words.fill(0);
            self.some = false;
        }
    }
}
