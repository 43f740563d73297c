// Nodes of a content's tree, and their digests.
ghost use Rattle.std.specs.Prelude.{◌≡◌, ℕ, ◌+◌, ◌/◌, ◌++◌, ◌^◌, ◌<◌, ◌≤◌, map};
ghost use Rattle.sha2.specs.Sha256.{sha256};
ghost use Rattle.pp_terms.specs.tree.Tree as terms;
ghost use Rattle.pp_terms.specs.tree.Tree.{IsHeight, peaks_below};
ghost use Rattle.pp_terms.specs.tree.Bins as bins;
ghost use Rattle.pp_tree.specs.Node.{node_of};

use crate::digest::Digest;
use arrayvec::ArrayVec;
use sha2::{Digest as _, Sha256};

/// A node of a tree: its layer, 0 for the leaves, and its offset from the left in that layer.
#[derive(Clone, Copy, PartialEq, Eq, Debug, Default)]
pub struct Node {
    pub layer: u8,
    pub offset: u32,
}

impl Node {
    /// The leaf of a chunk.
    pub fn leaf(chunk: u32) -> Node
        ensures leaf { node_of result ≡ terms.leaf_at chunk }
        ensures is { result ≡ record { layer = 0; offset = chunk } }
    {
        Node {
            layer: 0,
            offset: chunk,
        }
    }

    /// The node above this one.
    pub fn parent(self) -> Node
        requires { self.layer < 255 }
        ensures parent { node_of result ≡ bins.parent_of (node_of self) }
        ensures is { result ≡ record { layer = self.layer + 1; offset = self.offset / 2 } }
    {
        Node {
            layer: self.layer + 1,
            offset: self.offset / 2,
        }
    }

    /// The other child of its parent.
    pub fn sibling(self) -> Node
        ensures sibling { node_of result ≡ bins.sibling_of (node_of self) }
        ensures is { result ≡ record { layer = self.layer; offset = bins.sibling self.offset } }
    {
        let offset = if self.offset % 2 == 0 {
            self.offset + 1
        } else {
            self.offset - 1
        };
        Node {
            layer: self.layer,
            offset,
        }
    }

    /// Whether it is a peak of the tree over that many chunks: the last full one of an odd number in its layer.
    #[tactic(auto, using(crate::proofs::PeakNodes::too_high, crate::proofs::PeakNodes::right_child))]
    pub fn is_peak(self, chunks: u32) -> bool
        ensures { result ≡ terms.is_peak chunks (node_of self) }
    {
        if self.layer >= 21 {
            return false;
        }
        if self.offset % 2 == 1 {
            return false;
        }
        chunks >> self.layer == self.offset + 1
    }
}

/// The digest of a node by those of its children (RFC 7574, section 5.1).
pub fn parent(left: &Digest, right: &Digest) -> Digest
    ensures { result ≡ sha256 (left.now ++ right.now) }
{
    let mut hasher = Sha256::new();
    hasher.update(left.bytes());
    hasher.update(right.bytes());
    Digest::new(hasher.finalize())
}

/// The layer of the root of the smallest tree over that many chunks, from 1 to 2^20.
pub fn height(chunks: u32) -> u8
    requires some { 0 < chunks }
    requires most { chunks ≤ 2 ^ 20 }
    ensures height { result ≡ terms.height chunks }
    ensures least { IsHeight chunks result }
    ensures range { result ≤ 20 }
{
    (32 - (chunks - 1).leading_zeros()) as u8
}

/// The roots of the largest full subtrees over that many chunks, from left to right (RFC 7574, section 5.6.1).
pub fn peaks(chunks: u32) -> ArrayVec<Node, 21>
    ensures { map node_of result.items ≡ terms.peaks chunks }
{
    peaks_in(21, chunks)
}

// the peaks of the lowest layers
fn peaks_in(layers: u8, chunks: u32) -> ArrayVec<Node, 21>
    requires { layers ≤ 21 }
    ensures { map node_of result.items ≡ peaks_below layers chunks }
{
    let mut peaks = ArrayVec::new();
    let mut layer = layers;
    while layer > 0 {
        layer -= 1;
        let full = chunks >> layer;
        if full % 2 == 1 {
            let offset = full - 1;
            peaks.push(Node { layer, offset });
        }
    }
    peaks
}

/// Whether all leaves under the node are chunks.
pub fn is_full(node: Node, chunks: u32) -> bool
    ensures { result ≡ terms.is_full chunks (node_of node) }
{
    node.layer < 32 && (u64::from(node.offset) + 1) << node.layer <= u64::from(chunks)
}
