//! Whether a book contradicts what the climbs of a chunk meet (RFC 7574, sections 5.2 and 5.6).

ghost use Rattle.std.specs.Prelude.{◌≡◌, ◌<◌, ◌≤◌, ◌-◌, ◌/◌, ◌^◌, ◌==◌, ◌&&◌, nat_le};
ghost use Rattle.pp_terms.specs.format.Descriptor.{chunks_of};
ghost use Rattle.pp_terms.specs.tree.Claims.{or_else};
ghost use Rattle.pp_terms.specs.tree.Proves.{last_layer};
ghost use Rattle.pp_tree.specs.Book.{entry};
ghost use Rattle.pp_recorded.specs.Claims.{known_of};
ghost use Rattle.pp_recorded.specs.Contradictions as terms;

use crate::claims::Claims;
use crate::proving::{climb, climb_last, last_peak};
use pp_tree::{Book, Digest, Node, is_full, leaf};

// What the climb from a chunk's digest meets at a node on the way to its peak.
fn met_on_way<'d, 'm>(
    claims: &Claims<'d, 'm>,
    chunk: u32,
    digest: Digest,
    node: Node,
) -> Option<Digest>
    requires { node.layer < 21 }
    ensures { result ≡ terms.met_on_way (known_of claims.now) chunk digest node.layer node.offset }
{
    if chunk >> node.layer == node.offset {
        climb(claims, false, Node::leaf(chunk), digest, node.layer)
    } else {
        None
    }
}

// What is met there if it is a peak.
fn met_at_peak<'d, 'm>(claims: &Claims<'d, 'm>, node: Node) -> Option<Digest>
    ensures { result ≡ terms.met_at_peak (chunks_of claims.now.descriptor.now) (known_of claims.now) node.layer node.offset }
{
    if node.is_peak(claims.descriptor.chunks()) {
        claims.digest(node)
    } else {
        None
    }
}

// Whether it stands above the last peak.
fn is_above_last(chunks: u32, node: Node) -> bool
    requires some { 0 < chunks }
    requires low { node.layer < 21 }
    ensures { result ≡ (nat_le (last_layer chunks) node.layer && terms.root_offset chunks node.layer == node.offset) }
{
    let last = last_peak(chunks);
    last.layer <= node.layer && last.offset >> (node.layer - last.layer) == node.offset
}

// What is met there on the way from the last peak to the root.
fn met_to_root<'d, 'm>(claims: &Claims<'d, 'm>, node: Node) -> Option<Digest>
    requires { node.layer < 21 }
    ensures { result ≡ terms.met_to_root (chunks_of claims.now.descriptor.now) (known_of claims.now) node.layer node.offset }
{
    let chunks = claims.descriptor.chunks();
    if is_above_last(chunks, node) {
        climb_last(claims, node.layer.saturating_sub(last_peak(chunks).layer))
    } else {
        None
    }
}

// The first digest, or else the other one.
fn or_else(first: Option<Digest>, other: Option<Digest>) -> Option<Digest>
    ensures { result ≡ or_else first other }
{
    match first {
        Some(digest) => Some(digest),
        None => other,
    }
}

// What is met at a node.
fn met<'d, 'm>(claims: &Claims<'d, 'm>, chunk: u32, digest: Digest, node: Node) -> Option<Digest>
    requires { node.layer < 21 }
    ensures { result ≡ terms.met_by claims.now.descriptor.now (known_of claims.now) chunk digest node.layer node.offset }
{
    if is_full(node, claims.descriptor.chunks()) {
        return or_else(
            met_on_way(claims, chunk, digest, node),
            met_at_peak(claims, node),
        );
    }
    if node.layer <= claims.descriptor.height() {
        met_to_root(claims, node)
    } else {
        None
    }
}

// Whether both digests are there, and other ones.
fn differs(met: Option<Digest>, kept: Option<Digest>) -> bool
    ensures { result ≡ terms.differs met kept }
{
    match met {
        Some(digest) => match kept {
            Some(found) => found != digest,
            None => false,
        },
        None => false,
    }
}

// Whether the book has another digest at a node than what is met there.
fn contradicts_at<'d, 'm>(
    claims: &Claims<'d, 'm>,
    book: &Book,
    chunk: u32,
    digest: Digest,
    node: Node,
) -> bool
    requires { node.layer < 21 }
    ensures { result ≡ terms.contradicts_at claims.now.descriptor.now (entry book.now) (known_of claims.now) chunk digest node.layer node.offset }
{
    differs(met(claims, chunk, digest, node), book.get(node))
}

// The node of a layer above the last peak, where the layer isn't below it.
fn root_offset(chunks: u32, layer: u8) -> u32
    requires some { 0 < chunks }
    requires low { layer < 21 }
    ensures { result ≡ terms.root_offset chunks layer }
{
    let last = last_peak(chunks);
    last.offset >> layer.saturating_sub(last.layer)
}

// Whether it has at a node of a layer that can be met.
fn contradicts_in<'d, 'm>(
    claims: &Claims<'d, 'm>,
    book: &Book,
    chunk: u32,
    digest: Digest,
    layer: u8,
) -> bool
    requires { layer < 21 }
    ensures { result ≡ terms.contradicts_in claims.now.descriptor.now (entry book.now) (known_of claims.now) chunk digest layer }
{
    let chunks = claims.descriptor.chunks();
    let way = chunk >> layer;
    let full = (chunks >> layer).saturating_sub(1);
    let root = root_offset(chunks, layer);
    contradicts_at(claims, book, chunk, digest, Node { layer, offset: way })
        || contradicts_at(
            claims,
            book,
            chunk,
            digest,
            Node {
                layer,
                offset: full,
            },
        )
        || contradicts_at(
            claims,
            book,
            chunk,
            digest,
            Node {
                layer,
                offset: root,
            },
        )
}

/// Whether the book has another digest at some node that the climbs of the bytes, as the chunk, meet by the claims.
pub fn contradicts<'d, 'm>(claims: &Claims<'d, 'm>, book: &Book, chunk: u32, content: &[u8]) -> bool
    ensures { result ≡ terms.contradicts claims.now.descriptor.now (entry book.now) (known_of claims.now) chunk content.now }
{
    let digest = leaf(content);
    let mut found = false;
    for layer in 0..21u8 {
        found = contradicts_in(claims, book, chunk, digest, layer) | found;
    }
    found
}
