// The digests that one channel's peer claimed.
ghost use Rattle.std.specs.Prelude.{◌≡◌, [], ◌∷◌, take, IfOk, IfSome, length};
ghost use Rattle.pp_terms.specs.tree.Book.{AreDigests};
ghost use Rattle.pp_terms.specs.tree.Claims.{latest};
ghost use Rattle.pp_tree.specs.Node.{node_of};
ghost use Rattle.pp_paths.specs.Claim.{is_claim_of};
ghost use Rattle.std.specs.Option.{option_map};
ghost use Rattle.std.specs.List.{find};

use circular_buffer::HeapCircularBuffer;
use pp_tree::{Digest, Node};
use std::alloc::{AllocError, Global};
use std::marker::Model;

// The digest of the first claim of a node.
fn newest(claims: &HeapCircularBuffer<Claim>, node: Node) -> Option<Digest>
    ensures newest { result ≡ option_map (λ c. c.digest) (find (is_claim_of node.layer node.offset) claims.now.items) }
    ensures len { IfSome result (λ digest. length digest ≡ 32) }
{
    claims
        .iter()
        .find(|claim| claim.node == node)
        .map(|claim| claim.digest)
}

// How many claims are kept.
const MOST_CLAIMS: usize = 128;

/// What a peer says that a node's digest is, in an INTEGRITY message (RFC 7574, section 3.5).
#[derive(Clone, Copy)]
struct Claim {
    node: Node,
    digest: Digest,
}

/// The latest 128 claims of one channel.
#[derive(Drop)]
pub struct Claims {
    // the newest in front
    kept: HeapCircularBuffer<Claim>,
}

impl Model for Claims {
    ghost use Rattle.std.specs.Prelude.{◌≡◌, List, map};
    ghost use Rattle.pp_terms.specs.tree.Book.{AreDigests};
    ghost use Rattle.pp_terms.specs.tree.Claims as plain;
    ghost use Rattle.pp_terms.specs.tree.Claims.{latest};
    ghost use Rattle.pp_paths.specs.Claim.{claimed_of};

    ghost Value = { List plain.Claim };

    ghost view = { λ c. map claimed_of c.kept.items };

    ghost invariant = { λ c. (c.kept.capacity ≡ 128) × AreDigests (latest (map claimed_of c.kept.items)) };
}

impl Claims {
    /// No claims yet, with the memory for all that will be kept.
    pub fn new(alloc: Global) -> Result<Claims, AllocError>
        ensures { IfOk result (λ c. c ≡ []) }
    {
        let kept = HeapCircularBuffer::with_capacity(alloc, MOST_CLAIMS)?;
        Ok(Claims { kept })
    }

    /// Notes a claim; with 128 noted before, the oldest is forgotten.
    pub fn add(&mut self, node: Node, digest: Digest)
        ensures { self.new ≡ take 128 (record { node = node_of node; digest = digest } ∷ self.old) }
    {
        // Its contract tells that the digest has 32 bytes.
        let _ = digest.bytes();
        self.kept.push_front(Claim { node, digest });
    }

    /// The digest that was last claimed of a node, among the claims that are kept.
    pub fn latest(&self, node: Node) -> Option<Digest>
        ensures latest { result ≡ latest self.now node.layer node.offset }
        ensures len { IfSome result (λ digest. length digest ≡ 32) }
        ensures digests { AreDigests (latest self.now) }
    {
        newest(&self.kept, node)
    }

    /// Forgets all claims.
    pub fn forget(&mut self)
        ensures { self.new ≡ [] }
    {
        self.kept.clear();
    }
}
