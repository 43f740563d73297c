// The hashes to send before a chunk.
ghost use Rattle.std.specs.Prelude.{◌≡◌, ◌+◌, ◌<◌, ◌≤◌, ◌++◌, Bool, [], map, length, if◌then◌else◌};
ghost use Rattle.std.specs.List.{list_all};
ghost use Rattle.pp_terms.specs.tree.Tree as terms;
ghost use Rattle.pp_traffic.specs.Hashes.{completes};
ghost use Rattle.pp_traffic.specs.Laws as laws;
ghost use Rattle.pp_traffic.specs.Laws.{uncles_from};
ghost use Rattle.pp_tree.specs.Node.{node_of};
ghost use Rattle.pp_plan.specs.Told.{knows};

use crate::told::Told;
use arrayvec::ArrayVec;
use pp_tree::{Node, peaks};

/// The nodes whose hashes go before a chunk to a peer that told what it knows: the peaks from left to right, unless they are
/// told; then, from the highest layer down, the sibling of each node on the way up from the chunk's leaf to the first node
/// that is told or a peak, unless the sibling is told (RFC 7574, sections 5.2 to 5.4).
pub fn plan(i: u32, told: &Told, chunks: u32) -> ArrayVec<Node, 48>
    requires content { told.now.chunks ≡ chunks }
    requires inside { i < chunks }
    ensures nodes { map node_of result.items ≡ laws.plan chunks (knows told.now) i }
    ensures least { (brought : terms.Node → Bool)
        → completes chunks brought (knows told.now) i ≡ list_all brought (map node_of result.items) }
{
    let mut nodes = front(told);
    climb(&mut nodes, told, Node::leaf(i), told.height() + 1);
    nodes
}

// The peaks, unless they are told.
fn front(told: &Told) -> ArrayVec<Node, 48>
    ensures nodes { map node_of result.items ≡ (if told.now.some then [] else terms.peaks told.now.chunks) }
    ensures room { length result.items ≤ 21 }
{
    let mut nodes = ArrayVec::new();
    if told.is_some() {
        return nodes;
    }
    let peaks = peaks(told.chunks());
    let _ = nodes.try_extend_from_slice(&peaks);
    nodes
}

// Adds the siblings that are needed on the way up from a node, the highest first.
fn climb(nodes: &mut ArrayVec<Node, 48>, told: &Told, node: Node, layers: u8)
    requires room { length nodes.old.items + layers ≤ 48 }
    requires low { node.layer + layers ≤ 21 }
    ensures nodes { map node_of nodes.new.items ≡ map node_of nodes.old.items ++ uncles_from layers told.now.chunks (knows told.now) (node_of node) }
    ensures room { length nodes.new.items ≤ length nodes.old.items + layers }
{
    if layers == 0 {
        return;
    }
    if told.ends(node) {
        return;
    }
    climb(nodes, told, node.parent(), layers - 1);
    let sibling = node.sibling();
    if told.has(sibling) {
        return;
    }
    nodes.push(sibling);
}
