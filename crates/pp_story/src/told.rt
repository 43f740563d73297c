//! What a message tells of the peer's chunks.

ghost use Rattle.std.specs.Prelude.{◌≡◌, ◌||◌};
ghost use Rattle.pp_terms.specs.tree.Tree as terms;
ghost use Rattle.pp_traffic.specs.Hashes.{tells};
ghost use Rattle.pp_plan.specs.Told.{knows};
ghost use Rattle.pp_wire.specs.Views.{span_of};

use pp_plan::Told;
use pp_ranges::ChunkRange;
use pp_wire::Span;

/// The peer has the chunks of a span, of which those past the content don't count.
pub(crate) fn tell(told: &mut Told, span: Span)
    ensures chunks { told.new.chunks ≡ told.old.chunks }
    ensures more { (n : terms.Node) → knows told.new n ≡ (tells told.old.chunks (span_of span) n || knows told.old n) }
{
    let chunks = told.chunks();
    if span.first >= u64::from(chunks) {
        return;
    }
    let first = span.first as u32;
    let last = span.last.min(u64::from(chunks - 1)) as u32;
    if let Some(range) = ChunkRange::new(first, last) {
        told.told(range);
    }
}
