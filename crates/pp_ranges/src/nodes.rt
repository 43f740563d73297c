// The nodes that cover a range.
ghost use Rattle.std.specs.Prelude.{◌≡◌, ℕ, ◌+◌, ◌^◌, ◌<◌, ◌≤◌, [], map, length};
ghost use Rattle.pp_terms.specs.tree.Range.{IsLeastCover};
ghost use Rattle.pp_tree.specs.Node.{node_of};
ghost use Rattle.pp_ranges.specs.Covering.{IsMultiple, IsCoverTo};

use crate::range::ChunkRange;
use arrayvec::ArrayVec;
use pp_tree::Node;

/// The fewest nodes whose leaves are the range, from left to right.
pub fn cover(range: ChunkRange) -> ArrayVec<Node, 64>
    ensures { IsLeastCover range (map node_of result.items) }
{
    let mut nodes = ArrayVec::new();
    if range.first() == 0 && range.last() == u32::MAX {
        let (layer, offset) = (32, 0);
        nodes.push(Node { layer, offset });
        return nodes;
    }
    let end = u64::from(range.last()) + 1;
    let (at, layer) = climb(&mut nodes, u64::from(range.first()), end);
    descend(&mut nodes, at, end, layer);
    nodes
}

// Puts the first nodes, of which each is higher than the one before, and answers where they end and the layer from
// which on no node that begins there fits.
fn climb(nodes: &mut ArrayVec<Node, 64>, first: u64, end: u64) -> (u64, u8)
    requires empty { nodes.old.items ≡ [] }
    requires some { first < end }
    requires most { end ≤ 2 ^ 32 }
    requires part { end < 2 ^ 32 + first }
    ensures cover { IsCoverTo first end result.0 (map node_of nodes.new.items) }
    ensures multiple { IsMultiple result.1 result.0 }
    ensures within { result.0 ≤ end }
    ensures over { end < result.0 + 2 ^ result.1 }
    ensures layer { result.1 ≤ 32 }
    ensures few { length nodes.new.items ≤ result.1 }
{
    let mut at = first;
    let mut layer = 0;
    while layer < 32 && at + (1 << layer) <= end {
        let offset = (at >> layer) as u32;
        if offset % 2 == 1 {
            nodes.push(Node { layer, offset });
            at += 1 << layer;
        }
        layer += 1;
    }
    (at, layer)
}

// Puts the other nodes, of which each is lower than the one before.
fn descend(nodes: &mut ArrayVec<Node, 64>, first: u64, end: u64, layers: u8)
    requires most { end ≤ 2 ^ 32 }
    requires within { first ≤ end }
    requires multiple { IsMultiple layers first }
    requires over { end < first + 2 ^ layers }
    requires few { length nodes.old.items + layers ≤ 64 }
    requires low { layers ≤ 32 }
    ensures { (low : ℕ) → IsCoverTo low end first (map node_of nodes.old.items)
        → IsCoverTo low end end (map node_of nodes.new.items) }
{
    let mut at = first;
    let mut layer = layers;
    while layer > 0 {
        layer -= 1;
        if at + (1 << layer) <= end {
            let offset = (at >> layer) as u32;
            nodes.push(Node { layer, offset });
            at += 1 << layer;
        }
    }
}
