// The line of the chunks that are held.
ghost use Rattle.std.specs.Prelude.{◌≡◌, ℕ, ◌-◌, ◌<◌, ◌≤◌, true, false, ◌++◌, length, decimal, slice_index_or, codes, OnOk};
ghost use Rattle.pp_terms.specs.Count.{HasCause};
ghost use Rattle.pp_terms.specs.command.Stream.{Gains};
ghost use Rattle.pp_node.specs.Held.{HasRanges, HasMore};
ghost use Rattle.pp_terms.specs.command.Report.{SaysHeld};

use crate::printing::put_counted;
use pp_outside::{Sink, SinkFault};
use pp_stream::put_all;
use pp_tree::ChunkSet;

/// Prints `held H of N RANGES`: how many chunks are in the set of the first N, and their ranges in rising order.
pub(crate) fn put_held<K: Sink>(set: &ChunkSet, chunks: u32, sink: &mut K) -> Result<(), SinkFault>
    requires { chunks ≡ length set.now }
    ensures said { OnOk result (SaysHeld set.now (K.state sink.old) (K.state sink.new)) }
    ensures cause { HasCause (K.state sink.old).faults (K.state sink.new).faults result }
{
    put_counted(sink, b"held ", u64::from(set.count()), b" of ")?;
    put_counted(sink, b"", u64::from(chunks), b" ")?;
    put_ranges(set, chunks, sink)?;
    put_all(sink, b"\n")
}

/// Prints the ranges, or `none`.
pub(crate) fn put_ranges<K: Sink>(
    set: &ChunkSet,
    chunks: u32,
    sink: &mut K,
) -> Result<(), SinkFault>
    requires { chunks ≡ length set.now }
    ensures said { OnOk result (HasRanges set.now (K.state sink.old) (K.state sink.new)) }
    ensures cause { HasCause (K.state sink.old).faults (K.state sink.new).faults result }
{
    let first = next_with(set, chunks, 0, true);
    if first == chunks {
        return put_all(sink, b"none");
    }
    let end = next_with(set, chunks, first, false);
    put_range(sink, b"", first, end)?;
    put_more(set, chunks, end, sink)
}

// The ranges from a number on that isn't in the set.
fn put_more<K: Sink>(set: &ChunkSet, chunks: u32, from: u32, sink: &mut K) -> Result<(), SinkFault>
    requires size { chunks ≡ length set.now }
    requires within { from ≤ chunks }
    requires free { from < chunks → slice_index_or set.now from false ≡ false }
    ensures said { OnOk result (HasMore set.now from (K.state sink.old) (K.state sink.new)) }
    ensures cause { HasCause (K.state sink.old).faults (K.state sink.new).faults result }
{
    let mut end = from;
    loop {
        let first = next_with(set, chunks, end, true);
        if first == chunks {
            return Ok(());
        }
        end = next_with(set, chunks, first, false);
        put_range(sink, b",", first, end)?;
    }
}

// One range, given by its first number and the one behind its last.
fn put_range<K: Sink>(sink: &mut K, before: &[u8], first: u32, end: u32) -> Result<(), SinkFault>
    requires { first < end }
    ensures gained { OnOk result (Gains (K.state sink.old).taken
        (before.now ++ decimal first ++ codes "-" ++ decimal (end - 1)) (K.state sink.new).taken) }
    ensures cause { HasCause (K.state sink.old).faults (K.state sink.new).faults result }
{
    put_counted(sink, before, u64::from(first), b"-")?;
    put_counted(sink, b"", u64::from(end - 1), b"")
}

// The least number from there on that is in the set, or isn't; past the last it is the count.
fn next_with(set: &ChunkSet, chunks: u32, from: u32, held: bool) -> u32
    requires size { chunks ≡ length set.now }
    requires within { from ≤ chunks }
    ensures from { from ≤ result }
    ensures within { result ≤ chunks }
    ensures before { (k : ℕ) → from ≤ k → k < result → slice_index_or set.now k false ≡ held → ⊥ }
    ensures here { result < chunks → slice_index_or set.now result false ≡ held }
{
    for i in from..chunks {
        if set.contains(i) == held {
            return i;
        }
    }
    chunks
}
