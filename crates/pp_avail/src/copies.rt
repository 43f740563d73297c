// How many seats have each chunk.
ghost use Rattle.std.specs.Prelude.{◌≡◌, ℕ, ◌+◌, ◌*◌, ◌/◌, ◌%◌, ◌^◌, ◌<◌, ◌≤◌, ◌==◌, true, false, cond, if◌then◌else◌, replicate, length, slice_index, slice_index_or, IfOk, MatchOption};
ghost use Rattle.std.specs.Int.{bit_at};
ghost use Rattle.pp_tree.specs.Marks.{words_for};
ghost use Rattle.pp_avail.specs.Rows.{is_among};
ghost use Rattle.pp_avail.specs.Planes.{number_at};
ghost use Rattle.pp_avail.specs.Levels.{is_found};
ghost use Rattle.pp_avail.specs.Steps.{number_before, HasStepped};

use crate::levels::{Step, refresh};
use crate::planes::Planes;
use crate::row::Row;
use pp_tree::ChunkSet;
use pp_tree::words::{lowest, next_common};
use std::alloc::{AllocError, Global};
use std::marker::Model;

const MOST: usize = 64;

/// Of each chunk how many of 64 seats have it, as planes of a word of 64 chunks; and for each number of copies from 1 to 64
/// which words have a chunk of so many. It is seen as the list of the numbers.
#[derive(Drop)]
pub(crate) struct Copies {
    planes: Vec<Planes>,
    // The words with a chunk of one copy, those with one of two, and so on.
    levels: Vec<Row>,
}

impl Model for Copies {
    ghost use Rattle.std.specs.Prelude.{ℕ, List};
    ghost use Rattle.pp_avail.specs.Planes.{numbers_of};
    ghost use Rattle.pp_avail.specs.Levels.{IsLevelled};

    ghost Value = { List ℕ };

    ghost view = { λ c. numbers_of c.planes.items };

    ghost invariant = { λ c. IsLevelled c.planes.items c.levels.items };
}

// One empty row for each number of copies.
fn empty_levels(alloc: Global, words: usize) -> Result<Vec<Row>, AllocError>
    requires { words < 2 ^ 26 }
    ensures { IfOk result (λ levels. levels.items ≡ replicate 64 (replicate words false)) }
{
    let mut levels = Vec::with_capacity(alloc, MOST)?;
    for _ in 0..MOST {
        levels.push(Row::none(alloc, words)?)?;
    }
    Ok(levels)
}

impl Copies {
    /// No seat has any chunk, of so many words of 64.
    pub(crate) fn none(alloc: Global, words: usize) -> Result<Copies, AllocError>
        requires { words < 2 ^ 26 }
        ensures { IfOk result (λ copies. copies ≡ replicate (64 * words) 0) }
    {
        let planes = vec![in alloc; Planes::ZERO; words]?;
        let levels = empty_levels(alloc, words)?;
        Ok(Copies { planes, levels })
    }

    /// How many seats have a chunk.
    pub(crate) fn of(&self, i: usize) -> u32
        requires { i < length self.now }
        ensures { result ≡ slice_index self.now i }
    {
        self.planes[i / 64].at(i % 64)
    }

    /// One seat more has some chunks of one word.
    pub(crate) fn raise(&mut self, w: usize, chunks: u64)
        requires here { 64 * w < length self.old }
        requires room { (i : ℕ) → is_among w chunks i ≡ true → slice_index self.old i < 64 }
        ensures len { length self.new ≡ length self.old }
        ensures counts { (i : ℕ) → slice_index self.new i ≡ slice_index self.old i + cond (is_among w chunks i) 1 0 }
    {
        let mut planes = self.planes[w];
        planes.raise(chunks);
        self.replace(w, planes, chunks, Step::Up);
    }

    /// One seat fewer has some chunks of one word.
    pub(crate) fn lower(&mut self, w: usize, chunks: u64)
        requires here { 64 * w < length self.old }
        requires some { (i : ℕ) → is_among w chunks i ≡ true → 0 < slice_index self.old i }
        ensures len { length self.new ≡ length self.old }
        ensures counts { (i : ℕ) → slice_index self.new i + cond (is_among w chunks i) 1 0 ≡ slice_index self.old i }
    {
        let mut planes = self.planes[w];
        planes.lower(chunks);
        self.replace(w, planes, chunks, Step::Down);
    }

    // Other numbers for one word, of which those at some places have changed by one.
    fn replace(&mut self, w: usize, planes: Planes, changed: u64, step: Step)
        requires here { 64 * w < length self.old }
        requires most { (k : ℕ) → k < 64 → number_at planes k ≤ 64 }
        requires steps { (k : ℕ) → bit_at changed k ≡ 1 → HasStepped step (number_at planes k) }
        requires stepped { (k : ℕ) → k < 64
            → slice_index self.old (64 * w + k) ≡ (if bit_at changed k == 1 then number_before step (number_at planes k) else number_at planes k) }
        ensures len { length self.new ≡ length self.old }
        ensures counts { (i : ℕ) → slice_index self.new i ≡ cond (i / 64 == w) (number_at planes (i % 64)) (slice_index self.old i) }
    {
        self.planes[w] = planes;
        refresh(&mut self.levels, w, &planes, changed, step);
    }

    /// The least chunk of a set and of a row that so many seats have.
    pub(crate) fn first_of(&self, wanted: &ChunkSet, row: &Row, copies: u32) -> Option<u32>
        requires wanted { length wanted.now ≡ length row.now }
        requires row { length self.now ≡ 64 * words_for (length row.now) }
        requires some { 0 < copies }
        requires most { copies ≤ 64 }
        ensures { MatchOption result ((i : ℕ) → is_found wanted.now row.now self.now copies i ≡ false)
            (λ i. (i < length wanted.now) × (is_found wanted.now row.now self.now copies i ≡ true)
            × ((k : ℕ) → k < i → is_found wanted.now row.now self.now copies k ≡ false)) }
    {
        let mut from = 0;
        while let Some(w) = self.next_word(wanted, row, copies, from) {
            let common = self.in_word(wanted, row, copies, w);
            if common != 0 {
                return Some((64 * w + lowest(common)) as u32);
            }
            from = w + 1;
        }
        None
    }

    // The least word from one on which has a chunk of the set, one of the row and one of so many copies.
    fn next_word(&self, wanted: &ChunkSet, row: &Row, copies: u32, from: usize) -> Option<usize>
        requires wanted { length wanted.now ≡ length row.now }
        requires row { length self.now ≡ 64 * words_for (length row.now) }
        requires some { 0 < copies }
        requires most { copies ≤ 64 }
        ensures small { length self.now < 2 ^ 32 }
        ensures next { MatchOption result ((i : ℕ) → from ≤ i / 64 → is_found wanted.now row.now self.now copies i ≡ false)
            (λ w. (from ≤ w) × (64 * w < length self.now)
            × ((i : ℕ) → from ≤ i / 64 → i / 64 < w → is_found wanted.now row.now self.now copies i ≡ false)) }
    {
        let level = &self.levels[copies as usize - 1];
        if level.is_empty() {
            return None;
        }
        next_common(wanted.marks(), row.marks(), level.words(), from)
    }

    // The chunks of one word in the set and in the row that so many seats have.
    fn in_word(&self, wanted: &ChunkSet, row: &Row, copies: u32, w: usize) -> u64
        requires wanted { length wanted.now ≡ length row.now }
        requires row { length self.now ≡ 64 * words_for (length row.now) }
        requires most { copies ≤ 64 }
        requires here { 64 * w < length self.now }
        ensures { (k : ℕ) → k < 64 → (bit_at result k == 1) ≡ is_found wanted.now row.now self.now copies (64 * w + k) }
    {
        let places = self.planes[w].places_of(copies);
        wanted.word(w as u32) & row.word(w) & places
    }
}
