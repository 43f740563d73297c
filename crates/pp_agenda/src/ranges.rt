//! Ranges of committed chunks.

ghost use Rattle.std.specs.Prelude.{◌≡◌, ◌≤◌, ◌<◌, ◌+◌, ◌-◌, ◌==◌, ◌&&◌, ◌||◌, ℕ, true, false, is_some, length, min, slice_index_or, MatchOption};
ghost use Rattle.pp_terms.specs.tree.Range.{has, IsRunsFrom};
ghost use Rattle.pp_requests.specs.Moments.{asked_at};
ghost use Rattle.pp_seat.specs.Own.{IsNextRow};

use pp_ranges::{ChunkRange, RangeList};
use pp_requests::Asking;
use pp_tree::ChunkSet;

/// The next range of committed chunks from one on, in a content of so many.
pub(crate) fn next_row(committed: &ChunkSet, chunks: u32, from: u32) -> Option<ChunkRange>
    requires { length committed.now ≡ chunks }
    ensures { MatchOption result ((i : ℕ) → from ≤ i → slice_index_or committed.now i false ≡ false)
        (IsNextRow from committed.now) }
{
    let first = committed.first_from(from)?;
    let end = committed.first_absent_from(first).unwrap_or(chunks);
    ChunkRange::new(first, end - 1)
}

/// What lies below a chunk, of a range that begins there.
pub(crate) fn part_below(range: ChunkRange, limit: u32) -> Option<ChunkRange>
    ensures { MatchOption result (limit ≤ range.first)
        (λ part. (range.first < limit) × (part ≡ record { first = range.first; last = min range.last (limit - 1) })) }
{
    if limit <= range.first() {
        return None;
    }
    ChunkRange::new(range.first(), range.last().min(limit - 1))
}

/// The committed ones among chunks that are awaited, of a content of so many, in the fewest ranges.
pub fn awaited_ranges(awaited: &[Asking], committed: &ChunkSet, chunks: u32) -> RangeList
    requires chunks { length committed.now ≡ chunks }
    requires few { length awaited.now ≤ 32 }
    ensures runs { IsRunsFrom 0 result }
    ensures few { length result ≤ 32 }
    ensures each { (i : ℕ) → has result i ≡ (is_some (asked_at awaited.now i) && slice_index_or committed.now i false) }
{
    let mut ranges = RangeList::new();
    for one in awaited {
        if is_committed(committed, chunks, one.chunk) {
            add(&mut ranges, one.chunk);
        }
    }
    ranges
}

// A chunk more, where there is room.
fn add(ranges: &mut RangeList, i: u32)
    requires { length ranges.old < 64 }
    ensures each { (j : ℕ) → has ranges.new j ≡ (j == i || has ranges.old j) }
    ensures few { length ranges.new ≤ length ranges.old + 1 }
    ensures runs { IsRunsFrom 0 ranges.new }
{
    if let Some(range) = ChunkRange::new(i, i) {
        let _ = ranges.insert(range);
    }
}

// Whether a chunk is committed, in a content of so many.
fn is_committed(committed: &ChunkSet, chunks: u32, i: u32) -> bool
    requires { length committed.now ≡ chunks }
    ensures { result ≡ slice_index_or committed.now i false }
{
    i < chunks && committed.contains(i)
}
