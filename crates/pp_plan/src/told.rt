// What a peer has told that it knows.
ghost use Rattle.std.specs.Prelude.{◌≡◌, ℕ, ◌*◌, ◌^◌, ◌<◌, ◌≤◌, ◌&&◌, ◌||◌, true, false, List, [], ◌∷◌, length, IfOk};
ghost use Rattle.pp_terms.specs.tree.Tree as terms;
ghost use Rattle.pp_terms.specs.tree.Bins.{parent_of};
ghost use Rattle.pp_traffic.specs.Hashes.{tells};
ghost use Rattle.pp_tree.specs.Node.{node_of};
ghost use Rattle.pp_terms.specs.tree.Range.{Span};
ghost use Rattle.pp_plan.specs.Told.{knows, is_marked, span_of, IsToldBy};

use crate::tiers::Tiers;
use pp_ranges::ChunkRange;
use pp_tree::{Node, height};
use std::alloc::{AllocError, Global};
use std::marker::Model;

/// The nodes of a content's tree whose hashes a peer has told it knows, by HAVE and ACK (RFC 7574, section 5.3): all
/// peaks, once it told of any chunk, and both children of each node above such a chunk.
#[derive(Drop)]
pub struct Told {
    chunks: u32,
    height: u8,
    some: bool,
    // The chunks that were told of.
    tiers: Tiers,
}

impl Model for Told {
    ghost use Rattle.std.specs.Prelude.{◌≡◌, ℕ, ◌*◌, ◌^◌, ◌<◌, ◌≤◌, false, length};
    ghost use Rattle.pp_terms.specs.tree.Tree as terms;
    ghost use Rattle.pp_tree.specs.Bits.{bit_of};
    ghost use Rattle.pp_plan.specs.Told.{ToldNodes};

    ghost Value = { ToldNodes };

    ghost view = { λ t. record { chunks = t.chunks; some = t.some; told = t.tiers } };

    ghost invariant = { λ t. (0 < t.chunks) × (t.chunks ≤ 2 ^ 20) × (t.height ≡ terms.height t.chunks) × (t.height ≤ 20)
        × (t.chunks ≤ 64 * length t.tiers)
        × (t.some ≡ false → (i : ℕ) → bit_of t.tiers i ≡ false) };
}

impl Told {
    /// Nothing is told yet, of a content of that many chunks, from 1 to 2^20.
    pub fn none(alloc: Global, chunks: u32) -> Result<Told, AllocError>
        requires some { 0 < chunks }
        requires most { chunks ≤ 2 ^ 20 }
        ensures chunks { IfOk result (λ t. t.chunks ≡ chunks) }
        ensures nothing { IfOk result (λ t. (n : terms.Node) → knows t n ≡ false) }
        ensures none { IfOk result (λ t. t.some ≡ false) }
        ensures calls { IfOk result (IsToldBy []) }
    {
        let height = height(chunks);
        Ok(Told {
            chunks,
            height,
            some: false,
            tiers: Tiers::none(alloc, chunks)?,
        })
    }

    /// The peer has the chunks of a range, which lies in the content.
    pub fn told(&mut self, range: ChunkRange)
        requires { range.last < self.old.chunks }
        ensures chunks { self.new.chunks ≡ self.old.chunks }
        ensures more { (n : terms.Node) → knows self.new n ≡ (knows self.old n || tells self.old.chunks (span_of range) n) }
        ensures some { self.new.some ≡ true }
        ensures calls { (ranges : List Span) → IsToldBy ranges self.old → IsToldBy (span_of range ∷ ranges) self.new }
    {
        self.tiers.fill(range.first(), range.last());
        self.some = true;
    }

    /// Whether the peer told that it knows the node.
    pub fn has(&self, node: Node) -> bool
        ensures { result ≡ knows self.now (node_of node) }
    {
        self.some && (node.is_peak(self.chunks) || self.is_marked_above(node))
    }

    // Whether the way up ends at the node: it is told, or a peak.
    pub(crate) fn ends(&self, node: Node) -> bool
        ensures { result ≡ (knows self.now (node_of node) || terms.is_peak self.now.chunks (node_of node)) }
    {
        self.has(node) || node.is_peak(self.chunks)
    }

    pub(crate) fn is_some(&self) -> bool
        ensures { result ≡ self.now.some }
    {
        self.some
    }

    /// How many chunks the content has.
    pub fn chunks(&self) -> u32
        ensures value { result ≡ self.now.chunks }
        ensures most { self.now.chunks ≤ 2 ^ 20 }
    {
        self.chunks
    }

    pub(crate) fn height(&self) -> u8
        ensures value { result ≡ terms.height self.now.chunks }
        ensures range { result ≤ 20 }
        ensures most { self.now.chunks ≤ 2 ^ 20 }
    {
        self.height
    }

    fn is_marked_above(&self, node: Node) -> bool
        ensures { result ≡ is_marked self.now (parent_of (node_of node)) }
    {
        if node.layer >= self.height {
            return false;
        }
        self.tiers.has_under(node.layer + 1, node.offset / 2)
    }

    /// Nothing is told any more. Words of chunks that were not told of are passed over, 64 at once.
    pub fn forget(&mut self)
        ensures chunks { self.new.chunks ≡ self.old.chunks }
        ensures nothing { (n : terms.Node) → knows self.new n ≡ false }
        ensures none { self.new.some ≡ false }
        ensures calls { IsToldBy [] self.new }
    {
        if self.some {
            self.tiers.clear();
            self.some = false;
        }
    }
}
