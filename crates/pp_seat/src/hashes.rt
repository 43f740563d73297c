//! What the other peer tells and claims, and the hashes that it needs.

ghost use Rattle.std.specs.Prelude.{◌≡◌, ◌↔◌, ◌⊎◌, ◌<◌, ◌||◌, ℕ, ◌∷◌, map, take, true, false, None, Some};
ghost use Rattle.std.specs.List.{list_all};
ghost use Rattle.pp_terms.specs.tree.Tree as terms;
ghost use Rattle.pp_terms.specs.tree.Range.{Span, leaves_of};
ghost use Rattle.pp_terms.specs.format.Messages.{Ack, Have, Integrity};
ghost use Rattle.pp_tree.specs.Node.{node_of};
ghost use Rattle.pp_traffic.specs.Story.{Heard};
ghost use Rattle.pp_traffic.specs.Hashes.{tells, is_told, completes};
ghost use Rattle.pp_traffic.specs.Laws as laws;
ghost use Rattle.pp_traffic.specs.Meter as meters;
ghost use Rattle.pp_plan.specs.Told.{knows, span_of};
ghost use Rattle.pp_seat.specs.Lines.{Tale};
ghost use Rattle.pp_seat.specs.Follows.{Frame, Lost, Follows, Goes, IsCut};

use crate::seat::Seat;
use arrayvec::ArrayVec;
use pp_paths::Claims;
use pp_plan::plan;
use pp_ranges::ChunkRange;
use pp_tree::{Digest, Node};

/// What became of an INTEGRITY.
#[derive(Clone, Copy, PartialEq, Eq, Debug)]
pub enum Claimed {
    /// Its digest is the latest claim of its node.
    Yes,
    /// Its chunks in the content are not the leaves of one node.
    NotANode,
    /// The channel isn't proven, so it counts for nothing.
    Unproven,
}

impl Seat {
    /// A HAVE came, of which this range lies in the content (RFC 7574, section 3.2).
    pub fn heard_have(&mut self, range: ChunkRange)
        requires { range.last < self.old.told.chunks }
        ensures told { (n : terms.Node) → knows self.new.told n ≡ (knows self.old.told n || tells self.old.told.chunks (span_of range) n) }
        ensures rest { self.new ≡ record self.old { told = self.new.told } }
        ensures chunks { self.new.told.chunks ≡ self.old.told.chunks }
        ensures goes { (now : ℕ) (span : Span) → Goes (IsCut range span) (Heard now (Have span)) self.old self.new }
    {
        self.told.told(range);
    }

    /// An ACK came, of which this range lies in the content, with its delay sample (RFC 7574, section 3.3).
    pub fn heard_ack(&mut self, range: ChunkRange, delay: u64, now: u64)
        requires { range.last < self.old.told.chunks }
        ensures told { (n : terms.Node) → knows self.new.told n ≡ (knows self.old.told n || tells self.old.told.chunks (span_of range) n) }
        ensures rest { self.new ≡ record self.old { told = self.new.told; window = meters.acked range.first range.last delay now self.old.window } }
        ensures chunks { self.new.told.chunks ≡ self.old.told.chunks }
        ensures goes { (span : Span) → Goes (IsCut range span) (Heard now (Ack span delay)) self.old self.new }
    {
        self.told.told(range);
        self.window.acked(range, delay, now);
    }

    /// An INTEGRITY came, of which this range lies in the content (RFC 7574, section 3.5).
    pub fn heard_integrity(&mut self, range: ChunkRange, digest: Digest) -> Claimed
        requires { range.last < self.old.told.chunks }
        ensures claimed { result ≡ Claimed.Yes → (n : terms.Node) × (leaves_of n ≡ range)
            × (self.new ≡ record self.old { claims = take 128 (record { node = n; digest = digest } ∷ self.old.claims) }) }
        ensures others { (result ≡ Claimed.Yes) ⊎ (self.new ≡ self.old) }
        ensures unproven { (result ≡ Claimed.Unproven) ↔ (self.old.proven ≡ false) }
        ensures no_node { result ≡ Claimed.NotANode → (n : terms.Node) → leaves_of n ≡ range → ⊥ }
        ensures goes { (now : ℕ) (span : Span) → Goes (IsCut range span) (Heard now (Integrity span digest)) self.old self.new }
    {
        if !self.proven {
            return Claimed::Unproven;
        }
        // Its contract tells how large a content can be.
        let _ = self.told.chunks();
        match range.as_node() {
            Some(node) => {
                self.claims.add(node, digest);
                Claimed::Yes
            }
            None => Claimed::NotANode,
        }
    }

    /// The latest 128 claims that came since the channel was proven, by which a chunk from it is judged.
    pub fn claims(&self) -> &Claims
        ensures { result.now ≡ self.now.claims }
    {
        &self.claims
    }

    /// The nodes whose hashes go before a chunk (RFC 7574, section 5.3).
    pub fn plan(&self, i: u32) -> ArrayVec<Node, 48>
        requires { i < self.now.told.chunks }
        ensures nodes { map node_of result.items ≡ laws.plan self.now.told.chunks (knows self.now.told) i }
        ensures whole { (f : Frame) (lost : Lost) (t : Tale) (brought : terms.Node → _) → Follows f lost self.now t
            → list_all brought (map node_of result.items) ≡ true → completes f.chunks brought (is_told f.chunks t.story) i ≡ true }
    {
        plan(i, &self.told, self.told.chunks())
    }
}
