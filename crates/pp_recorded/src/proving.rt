//! Whether what the peer of a channel claims proves a chunk (RFC 7574, sections 5.2 and 5.6).

ghost use Rattle.std.specs.Prelude.{◌≡◌, ◌+◌, ◌*◌, ◌^◌, ◌<◌, ◌≤◌, ◌&&◌, nat_lt, is_some, IsTrue};
ghost use Rattle.std.specs.List.{list_all};
ghost use Rattle.sha2.specs.Sha256.{sha256};
ghost use Rattle.pp_terms.specs.format.Descriptor.{chunks_of};
ghost use Rattle.pp_terms.specs.tree.Proves.{climbed, joined, last_layer, peak_offset};
ghost use Rattle.pp_recorded.specs.Claims.{known_of};
ghost use Rattle.pp_recorded.specs.Provings as terms;

use crate::claims::Claims;
use pp_tree::{Digest, Node, leaf, parent, peaks};

// Whether a leaf under the node is one of so many chunks.
fn covers(node: Node, chunks: u32) -> bool
    ensures { result ≡ nat_lt (node.offset * 2 ^ node.layer) chunks }
{
    if node.offset == 0 {
        return chunks > 0;
    }
    node.layer < 32 && u64::from(node.offset) << node.layer < u64::from(chunks)
}

/// The last peak over so many chunks, the lowest one.
pub fn last_peak(chunks: u32) -> Node
    requires { 0 < chunks }
    ensures layer { result.layer ≡ last_layer chunks }
    ensures offset { result.offset ≡ peak_offset (last_layer chunks) chunks }
    ensures low { result.layer < 32 }
{
    let layer = chunks.trailing_zeros() as u8;
    let offset = (chunks >> layer) - 1;
    Node { layer, offset }
}

// What is claimed of a node; the empty hash, where that is asked and the node covers no chunk.
fn known<'d, 'm>(claims: &Claims<'d, 'm>, is_filled: bool, node: Node) -> Option<Digest>
    ensures { result ≡ terms.looked_up is_filled (chunks_of claims.now.descriptor.now) (known_of claims.now) node.layer node.offset }
{
    if !is_filled {
        return claims.digest(node);
    }
    if covers(node, claims.descriptor.chunks()) {
        return claims.digest(node);
    }
    Some(Digest::new([0; 32]))
}

// The digest of the node's parent, by the node's own and its sibling's.
fn join(node: Node, digest: &Digest, other: &Digest) -> Digest
    ensures { result ≡ sha256 (joined node.offset digest.now other.now) }
{
    if node.offset % 2 == 0 {
        parent(digest, other)
    } else {
        parent(other, digest)
    }
}

/// The digest so many layers above a node of that digest, none where a sibling's isn't known.
pub fn climb<'d, 'm>(
    claims: &Claims<'d, 'm>,
    is_filled: bool,
    from: Node,
    digest: Digest,
    layers: u8,
) -> Option<Digest>
    requires { from.layer + layers ≤ 200 }
    ensures { result ≡ climbed (terms.looked_up is_filled (chunks_of claims.now.descriptor.now) (known_of claims.now)) layers from.layer from.offset digest }
{
    let mut node = from;
    let mut reached = digest;
    let mut left = layers;
    'steps: while left > 0 {
        match known(claims, is_filled, node.sibling()) {
            Some(other) => {
                reached = join(node, &reached, &other);
                node = node.parent();
                left -= 1;
            }
            None => return None,
        }
    }
    Some(reached)
}

/// Whether both digests are the same, or neither is there.
pub fn is_same(one: Option<Digest>, other: Option<Digest>) -> bool
    ensures { result ≡ terms.is_same one other }
{
    match one {
        Some(digest) => match other {
            Some(found) => digest == found,
            None => false,
        },
        None => other.is_none(),
    }
}

// Whether the climb from a chunk leads to the peak of a layer, and that is the one above the chunk.
fn leads_at<'d, 'm>(claims: &Claims<'d, 'm>, chunk: u32, digest: Digest, top: u8) -> bool
    requires { top < 21 }
    ensures { result ≡ terms.leads_at (chunks_of claims.now.descriptor.now) (known_of claims.now) chunk digest top }
{
    let peak = Node {
        layer: top,
        offset: chunk >> top,
    };
    if !peak.is_peak(claims.descriptor.chunks()) {
        return false;
    }
    let reached = climb(claims, false, Node::leaf(chunk), digest, top);
    is_same(reached, claims.digest(peak))
}

// Whether it leads to the peak of some layer.
fn leads_up<'d, 'm>(claims: &Claims<'d, 'm>, chunk: u32, digest: Digest) -> bool
    ensures { result ≡ terms.leads_up (chunks_of claims.now.descriptor.now) (known_of claims.now) chunk digest }
{
    let mut found = false;
    for top in 0..21u8 {
        found = leads_at(claims, chunk, digest, top) | found;
    }
    found
}

// The digest to which the climb from the last peak leads, so many layers up.
pub fn climb_last<'d, 'm>(claims: &Claims<'d, 'm>, layers: u8) -> Option<Digest>
    requires { layers ≤ 100 }
    ensures { result ≡ terms.climbed_last (chunks_of claims.now.descriptor.now) (known_of claims.now) layers }
{
    let last = last_peak(claims.descriptor.chunks());
    let digest = claims.digest(last)?;
    climb(claims, true, last, digest, layers)
}

// Whether the climb from the last peak leads to the root.
fn leads_to_root<'d, 'm>(claims: &Claims<'d, 'm>) -> bool
    ensures { result ≡ terms.leads_to_root claims.now.descriptor.now (known_of claims.now) }
{
    let last = last_peak(claims.descriptor.chunks());
    let layers = claims.descriptor.height().saturating_sub(last.layer);
    is_same(climb_last(claims, layers), Some(claims.descriptor.root()))
}

// Whether a digest is claimed of each of the nodes.
fn are_known<'d, 'm>(claims: &Claims<'d, 'm>, nodes: &[Node]) -> bool
    ensures { result ≡ list_all (λ node. is_some (known_of claims.now node.layer node.offset)) nodes.now }
{
    for node in nodes {
        if claims.digest(*node).is_none() {
            return false;
        }
    }
    true
}

// Whether one is of each peak.
fn has_peaks<'d, 'm>(claims: &Claims<'d, 'm>) -> bool
    ensures { result ≡ terms.has_peaks (chunks_of claims.now.descriptor.now) (known_of claims.now) }
{
    let peaks = peaks(claims.descriptor.chunks());
    are_known(claims, &peaks)
}

// Whether the climb from a chunk leads to the peak above it, and the one from the last peak to the root.
fn leads<'d, 'm>(claims: &Claims<'d, 'm>, chunk: u32, digest: Digest) -> bool
    ensures { result ≡ (terms.leads_up (chunks_of claims.now.descriptor.now) (known_of claims.now) chunk digest
        && terms.leads_to_root claims.now.descriptor.now (known_of claims.now)) }
{
    leads_up(claims, chunk, digest) && leads_to_root(claims)
}

// And a digest is claimed of each peak.
fn proves_digest<'d, 'm>(claims: &Claims<'d, 'm>, chunk: u32, digest: Digest) -> bool
    ensures { result ≡ (terms.has_peaks (chunks_of claims.now.descriptor.now) (known_of claims.now)
        && (terms.leads_up (chunks_of claims.now.descriptor.now) (known_of claims.now) chunk digest
        && terms.leads_to_root claims.now.descriptor.now (known_of claims.now))) }
{
    has_peaks(claims) && leads(claims, chunk, digest)
}

// Whether the claims prove that the bytes are the chunk, which is one of the content.
fn proves_chunk<'d, 'm>(claims: &Claims<'d, 'm>, chunk: u32, content: &[u8]) -> bool
    requires { chunk < chunks_of claims.now.descriptor.now }
    ensures { result ≡ terms.proves_bytes claims.now.descriptor.now (known_of claims.now) chunk content.now }
{
    content.len() == claims.descriptor.chunk_len(chunk) as usize
        && proves_digest(claims, chunk, leaf(content))
}

/// Whether the claims prove that the bytes are the chunk.
pub fn proves<'d, 'm>(claims: &Claims<'d, 'm>, chunk: u64, content: &[u8]) -> bool
    ensures within { IsTrue result → chunk < chunks_of claims.now.descriptor.now }
    ensures proves { result ≡ terms.proves claims.now.descriptor.now (known_of claims.now) chunk content.now }
{
    if chunk >= u64::from(claims.descriptor.chunks()) {
        return false;
    }
    proves_chunk(claims, chunk as u32, content)
}
