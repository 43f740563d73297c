// One range of chunks.
ghost use Rattle.std.specs.Prelude.{◌≡◌, ℕ, ◌^◌, ◌<◌, ◌≤◌, max, None, MatchOption};
ghost use Rattle.pp_terms.specs.tree.Range.{leaves_of};
ghost use Rattle.pp_terms.specs.tree.Tree as terms;
ghost use Rattle.pp_tree.specs.Node.{node_of};

use pp_tree::Node;
use std::marker::Model;

/// A range of chunks by the numbers of its first and last (RFC 7574, section 4.3).
#[derive(Clone, Copy, PartialEq, Eq, Debug, Default)]
pub struct ChunkRange {
    first: u32,
    last: u32,
}

impl Model for ChunkRange {
    ghost use Rattle.std.specs.Prelude.{ℕ, ◌≤◌, ◌<◌, ◌^◌};
    ghost use Rattle.pp_terms.specs.tree.Range.{Span};

    ghost Value = { Span };

    ghost view = { λ r. record { first = r.first; last = r.last } };

    ghost invariant = { λ r. (r.first ≤ r.last) × (r.last < 2 ^ 32) };

    ghost inverse = { λ s. record { first = s.first; last = s.last } };
}

impl ChunkRange {
    /// The range from `first` to `last`, both included; none where `first` is above `last`.
    pub fn new(first: u32, last: u32) -> Option<ChunkRange>
        ensures { MatchOption result (last < first)
            (λ r. (first ≤ last) × (r ≡ record { first = first; last = last })) }
    {
        if first <= last {
            Some(ChunkRange { first, last })
        } else {
            None
        }
    }

    pub fn first(self) -> u32
        ensures first { result ≡ self.first }
        ensures order { self.first ≤ self.last }
        ensures range { self.last < 2 ^ 32 }
    {
        self.first
    }

    pub fn last(self) -> u32
        ensures last { result ≡ self.last }
        ensures order { self.first ≤ self.last }
        ensures range { self.last < 2 ^ 32 }
    {
        self.last
    }

    // The numbers of the range from one on, which isn't above its last.
    pub(crate) fn from_on(self, i: u32) -> ChunkRange
        requires { i ≤ self.last }
        ensures { result ≡ record { first = max self.first i; last = self.last } }
    {
        ChunkRange {
            first: self.first.max(i),
            last: self.last,
        }
    }

    /// The leaves under a node; none where the last of them isn't a number of 32 bits.
    pub fn of_node(node: Node) -> Option<ChunkRange>
        ensures { MatchOption result (2 ^ 32 ≤ (leaves_of (node_of node)).last) (λ r.
            ((leaves_of (node_of node)).last < 2 ^ 32) × (r ≡ leaves_of (node_of node))) }
    {
        if node.layer > 32 {
            return None;
        }
        let first = u64::from(node.offset) << node.layer;
        let last = first + ((1 << node.layer) - 1);
        if last > u64::from(u32::MAX) {
            return None;
        }
        Some(ChunkRange {
            first: first as u32,
            last: last as u32,
        })
    }

    /// The node whose leaves are the range, where there is one.
    pub fn as_node(self) -> Option<Node>
        ensures { MatchOption result ((node : terms.Node) → leaves_of node ≡ self → ⊥)
            (λ node. leaves_of (node_of node) ≡ self) }
    {
        let first = u64::from(self.first);
        let span = u64::from(self.last) - first + 1;
        for layer in 0..33u8 {
            if 1 << layer == span && first % span == 0 {
                let offset = (first / span) as u32;
                return Some(Node { layer, offset });
            }
        }
        None
    }
}
