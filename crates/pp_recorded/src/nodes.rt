//! Which nodes of a content's tree a peer tells that it knows.

ghost use Rattle.std.specs.Prelude.{◌≡◌, ◌^◌, ◌<◌, ◌≤◌};
ghost use Rattle.pp_traffic.specs.Hashes as terms;
ghost use Rattle.pp_tree.specs.Node.{node_of};
ghost use Rattle.pp_wire.specs.Views.{span_of};

use pp_tree::{Node, height};
use pp_wire::Span;

// Whether a chunk of the content that the span names lies under the node.
fn meets(chunks: u32, span: Span, node: Node) -> bool
    requires { node.layer ≤ 20 }
    ensures { result ≡ terms.meets chunks (span_of span) (node_of node) }
{
    let size = 1u64 << node.layer;
    let first = u64::from(node.offset) * size;
    let last = (u64::from(node.offset) + 1) * size - 1;
    first < u64::from(chunks) && first <= span.last && span.first <= last
}

/// Whether a peer that has the chunks of the span knows the node.
pub fn tells(chunks: u32, span: Span, node: Node) -> bool
    requires some { 0 < chunks }
    requires most { chunks ≤ 2 ^ 20 }
    ensures { result ≡ terms.tells chunks (span_of span) (node_of node) }
{
    span.first < u64::from(chunks)
        && span.first <= span.last
        && (node.is_peak(chunks)
            || (node.layer < height(chunks) && meets(chunks, span, node.parent())))
}
