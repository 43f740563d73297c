// Learning the size of a swarm's content from its last chunk.
ghost use Rattle.std.specs.Prelude.{◌≡◌, ◌↔◌, ℕ, ◌+◌, ◌-◌, ◌*◌, ◌^◌, ◌<◌, ◌≤◌, nat_lt, None, Some, is_none, length, IfOk, IfErr};
ghost use Rattle.std.specs.List.{find};
ghost use Rattle.std.specs.Option.{option_map};
ghost use Rattle.sha2.specs.Sha256.{sha256};
ghost use Rattle.pp_terms.specs.tree.Content.{IsChunkSize};
ghost use Rattle.pp_terms.specs.tree.Proves.{climbed, filled, first_absent, joined, last_layer, peak_offset};
ghost use Rattle.pp_terms.specs.tree.Book.{AreDigests};
ghost use Rattle.pp_terms.specs.tree.Claims.{latest};
ghost use Rattle.pp_terms.specs.format.Descriptor.{Descriptor, IsDescriptor};
ghost use Rattle.pp_tree.specs.Node.{node_of};
ghost use Rattle.pp_paths.specs.Climb.{node_at};
ghost use Rattle.pp_targets.specs.Law.{TellsSize};
ghost use Rattle.pp_targets.specs.Names.{name_of};
ghost use Rattle.pp_targets.specs.Learn.{IsLearned, ended, first_beside, learned};

use crate::target::SwarmName;
use pp_paths::Claims;
use pp_tree::{Descriptor, Digest, Node, height, leaf, parent, peaks};

/// What a chunk tells of the size of its content, if it is the last one.
#[derive(Clone, Copy, PartialEq, Eq, Debug)]
pub enum Learned {
    /// The content has this descriptor's size.
    Size(Descriptor),
    /// The chunk has the length of two digests joined, so it could be those of two nodes above the chunks.
    SixtyFour,
    /// The digest of this node is wanted, and isn't claimed.
    Missing(Node),
    /// The chunk leads to another digest than the one that is claimed of the last peak, or the peaks lead to another than
    /// the root.
    Wrong { found: Digest, kept: Digest },
}

// how many bytes two digests have, joined
const TWO_DIGESTS: usize = 64;

/// Takes the bytes for the last chunk, number `i`, of a content with the name's root. Where the latest claims prove the
/// chunk, the answer is the size, which each content of the name then has, unless two texts have one digest or a node of
/// the content is 32 zero bytes.
pub fn learn(claims: &Claims, name: &SwarmName, i: u32, chunk: &[u8]) -> Learned
    requires few { i < 2 ^ 20 }
    requires size { IsChunkSize name.now.chunk }
    requires some { 0 < length chunk.now }
    requires most { length chunk.now ≤ name.now.chunk }
    ensures learned { result ≡ learned (name_of name.now) (latest claims.now) i chunk.now }
    ensures size { (e : Descriptor) → (result ≡ Learned.Size e)
        ↔ IsLearned (name_of name.now) (latest claims.now) i chunk.now e }
    ensures valid { (e : Descriptor) → result ≡ Learned.Size e → IsDescriptor e }
    ensures tells { (e : Descriptor) → result ≡ Learned.Size e
        → TellsSize (name_of name.now) e (latest claims.now) i chunk.now }
    ensures sixty_four { (result ≡ Learned.SixtyFour) ↔ (length chunk.now ≡ 64) }
{
    // Its contract tells that the root has 32 bytes.
    let _ = name.root.bytes();
    weigh(claims, name, i, chunk)
}

// the answer by the steps in their order
fn weigh(claims: &Claims, name: &SwarmName, i: u32, chunk: &[u8]) -> Learned
    requires few { i < 2 ^ 20 }
    requires size { IsChunkSize name.now.chunk }
    requires some { 0 < length chunk.now }
    requires most { length chunk.now ≤ name.now.chunk }
    ensures learned { result ≡ learned (name_of name.now) (latest claims.now) i chunk.now }
    ensures digests { AreDigests (latest claims.now) }
{
    let chunks = i + 1;
    let last = last_peak(chunks);
    let claimed = claims.latest(last);
    if chunk.len() == TWO_DIGESTS {
        return Learned::SixtyFour;
    }
    if let Some(node) = first_unclaimed(claims, chunks) {
        return Learned::Missing(node);
    }
    let kept = claimed.unwrap();
    let found = match climb(claims, chunks, Node::leaf(i), leaf(chunk), last.layer) {
        Ok(found) => found,
        Err(node) => return Learned::Missing(node),
    };
    if found != kept {
        return Learned::Wrong { found, kept };
    }
    match climb(claims, chunks, last, kept, height(chunks)) {
        Ok(found) => {
            if found == name.root {
                Learned::Size(ending(name, i, chunk.len() as u32))
            } else {
                let kept = name.root;
                Learned::Wrong { found, kept }
            }
        }
        Err(node) => Learned::Missing(node),
    }
}

// the descriptor of the name whose content ends with chunk i of so many bytes
fn ending(name: &SwarmName, i: u32, part: u32) -> Descriptor
    requires few { i < 2 ^ 20 }
    requires size { IsChunkSize name.now.chunk }
    requires some { 0 < part }
    requires most { part ≤ name.now.chunk }
    ensures { result ≡ ended (name_of name.now) i part }
{
    let size = u64::from(i) * u64::from(name.chunk) + u64::from(part);
    Descriptor::new(name.root, name.chunk, size, name.method).unwrap()
}

// Climbs from a node with that digest to layer `top`. Where a sibling isn't known, the answer is that node.
fn climb(claims: &Claims, chunks: u32, from: Node, digest: Digest, top: u8) -> Result<Digest, Node>
    requires { from.layer ≤ top }
    ensures ok { IfOk result (λ end.
        climbed (filled chunks (latest claims.now)) (top - from.layer) from.layer from.offset digest ≡ Some end) }
    ensures err { IfErr result (λ node.
        first_beside (filled chunks (latest claims.now)) (top - from.layer) from.layer from.offset
        ≡ Some (node_of node)) }
{
    let mut node = from;
    let mut digest = digest;
    while node.layer < top {
        let beside = node.sibling();
        let Some(other) = known(claims, chunks, beside) else {
            return Err(beside);
        };
        digest = join(node, &digest, &other);
        node = node.parent();
    }
    Ok(digest)
}

// the digest of the node's parent, by the node's own and its sibling's
fn join(node: Node, digest: &Digest, other: &Digest) -> Digest
    ensures { result ≡ sha256 (joined node.offset digest.now other.now) }
{
    if node.offset % 2 == 0 {
        parent(digest, other)
    } else {
        parent(other, digest)
    }
}

// what is claimed of a node, and the empty hash where it covers none of so many chunks
fn known(claims: &Claims, chunks: u32, node: Node) -> Option<Digest>
    ensures { result ≡ filled chunks (latest claims.now) node.layer node.offset }
{
    if covers(node, chunks) {
        claims.latest(node)
    } else {
        Some(Digest::new([0; 32]))
    }
}

// whether a leaf under the node is one of so many chunks
fn covers(node: Node, chunks: u32) -> bool
    ensures { result ≡ nat_lt (node.offset * 2 ^ node.layer) chunks }
{
    if node.offset == 0 {
        return chunks > 0;
    }
    node.layer < 32 && u64::from(node.offset) << node.layer < u64::from(chunks)
}

// the last peak over so many chunks
fn last_peak(chunks: u32) -> Node
    requires { 0 < chunks }
    ensures { result ≡ node_at (last_layer chunks) (peak_offset (last_layer chunks) chunks) }
{
    let layer = chunks.trailing_zeros() as u8;
    Node {
        layer,
        offset: (chunks >> layer) - 1,
    }
}

// the leftmost peak over so many chunks that isn't claimed
fn first_unclaimed(claims: &Claims, chunks: u32) -> Option<Node>
    ensures { option_map node_of result ≡ first_absent (latest claims.now) chunks }
{
    first_without(&peaks(chunks), claims)
}

// the first of the nodes that isn't claimed
fn first_without(nodes: &[Node], claims: &Claims) -> Option<Node>
    ensures { result ≡ find (λ at. is_none (latest claims.now at.layer at.offset)) nodes.now }
{
    nodes
        .iter()
        .copied()
        .find(|node| claims.latest(*node).is_none())
}
