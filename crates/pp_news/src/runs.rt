// Numbers in rising order as the fewest ranges.
ghost use Rattle.std.specs.Prelude.{◌≡◌, ℕ, ◌≤◌, ◌==◌, length, vec_len, vec_capacity};
ghost use Rattle.std.specs.List.{list_any};
ghost use Rattle.std.specs.List.Sorted.{IsNonDecreasing};
ghost use Rattle.pp_terms.specs.tree.Range.{has, IsRunsFrom};

use pp_ranges::ChunkRange;

// The range from a chunk to one that isn't below it.
pub(crate) fn range_of(first: u32, last: u32) -> ChunkRange
    requires { first ≤ last }
    ensures { result ≡ record { first = first; last = last } }
{
    ChunkRange::new(first, last).unwrap_or_default()
}

// Chunks in rising order, in the fewest ranges.
pub(crate) fn list_runs(ranges: &mut Vec<ChunkRange>, chunks: &[u32])
    requires rising { IsNonDecreasing chunks.now }
    requires room { length chunks.now ≤ vec_capacity ranges.old }
    ensures same { (i : ℕ) → has ranges.new.items i ≡ list_any (λ c. c == i) chunks.now }
    ensures runs { IsRunsFrom 0 ranges.new.items }
    ensures few { vec_len ranges.new ≤ length chunks.now }
    ensures room { vec_capacity ranges.new ≡ vec_capacity ranges.old }
{
    ranges.clear();
    let Some((start, others)) = chunks.split_first() else {
        return;
    };
    let mut first = *start;
    let mut last = *start;
    for chunk in others {
        if *chunk - last > 1 {
            ranges.push_reserved(range_of(first, last));
            first = *chunk;
        }
        last = *chunk;
    }
    ranges.push_reserved(range_of(first, last));
}
