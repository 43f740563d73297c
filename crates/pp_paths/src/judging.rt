// Judging a chunk, and adopting the digests that lead from it to the root.
ghost use Rattle.std.specs.Prelude.{◌≡◌, ◌↔◌, ℕ, ◌<◌, is_none};
ghost use Rattle.std.specs.List.{find};
ghost use Rattle.std.specs.Option.{option_map};
ghost use Rattle.sha2.specs.Sha256.{sha256};
ghost use Rattle.pp_terms.specs.tree.Book.{IsRooted, IsBacked};
ghost use Rattle.pp_terms.specs.format.Descriptor.{Descriptor, chunks_of, height_of};
ghost use Rattle.pp_terms.specs.tree.Proves.{first_absent};
ghost use Rattle.pp_tree.specs.Book.{entry};
ghost use Rattle.pp_tree.specs.Node.{node_of};
ghost use Rattle.pp_terms.specs.tree.Claims.{latest};
ghost use Rattle.pp_paths.specs.Climb.{path, AddsPath};
ghost use Rattle.pp_paths.specs.Judge.{judged, FitsAs, KeepsEntries};

use crate::claims::Claims;
use crate::climbing::{Climb, adopt_from, climb_from};
use pp_tree::{Book, Descriptor, Digest, Node, leaf, peaks};

/// What is to be said of bytes that came as a chunk.
#[derive(Clone, Copy, PartialEq, Eq, Debug)]
pub enum Verdict {
    /// They are the chunk, as far as the digest of the root tells.
    Fits,
    /// The digest of this node is wanted, and neither known nor claimed.
    Missing(Node),
    /// The digests lead to another one than the book's at this node.
    Wrong {
        node: Node,
        found: Digest,
        kept: Digest,
    },
    /// They have another length, in bytes, than the chunk.
    Length {
        found: usize,
        want: u32,
    },
}

/// Judges bytes as a chunk of the swarm: by the book first, and by what is claimed where the book knows nothing. It takes
/// at most 20 digests beside that of the bytes.
pub fn judge(book: &Book, claims: &Claims, descriptor: &Descriptor, i: u32, chunk: &[u8]) -> Verdict
    requires { i < chunks_of descriptor.now }
    ensures judged { result ≡ judged descriptor.now (entry book.now) (latest claims.now) i chunk.now }
    ensures fits { (result ≡ Verdict.Fits) ↔ FitsAs descriptor.now (entry book.now) (latest claims.now) i chunk.now }
{
    let want = descriptor.chunk_len(i);
    let found = chunk.len();
    if found != want as usize {
        return Verdict::Length { found, want };
    }
    if let Some(node) = first_absent(book, descriptor.chunks()) {
        return Verdict::Missing(node);
    }
    let start = Node {
        layer: 0,
        offset: i,
    };
    match climb_from(book, claims, start, leaf(chunk), descriptor.height()) {
        Climb::Lacks(node) => Verdict::Missing(node),
        Climb::Reached { node, found, kept } => {
            if found == kept {
                Verdict::Fits
            } else {
                Verdict::Wrong { node, found, kept }
            }
        }
    }
}

/// Adds to the book the digests on the way from a chunk that fits up to the first node that the book has.
pub fn adopt(book: &mut Book, claims: &Claims, descriptor: &Descriptor, i: u32, chunk: &[u8])
    requires within { i < chunks_of descriptor.now }
    requires rooted { IsRooted descriptor.now (entry book.old) }
    requires fits { judged descriptor.now (entry book.old) (latest claims.now) i chunk.now ≡ Verdict.Fits }
    ensures added { AddsPath (path (latest claims.now) (height_of descriptor.now) 0 i (sha256 chunk.now))
        (entry book.old) (entry book.new) }
    ensures kept { KeepsEntries (entry book.old) (entry book.new) }
    ensures backed { IsBacked descriptor.now (entry book.new) i chunk.now }
    ensures rooted { (d : Descriptor) → IsRooted d (entry book.old) → IsRooted d (entry book.new) }
    ensures descriptor { book.new.descriptor ≡ book.old.descriptor }
{
    let start = Node {
        layer: 0,
        offset: i,
    };
    let _ = adopt_from(book, claims, start, leaf(chunk), descriptor.height());
}

/// Judges bytes as a chunk of the swarm, and where they fit adds to the book the digests on the way up to the first node that
/// it has: `judge` and then `adopt`, by each digest once.
pub fn judge_and_adopt(
    book: &mut Book,
    claims: &Claims,
    descriptor: &Descriptor,
    i: u32,
    chunk: &[u8],
) -> Verdict
    requires within { i < chunks_of descriptor.now }
    requires rooted { IsRooted descriptor.now (entry book.old) }
    ensures judged { result ≡ judged descriptor.now (entry book.old) (latest claims.now) i chunk.now }
    ensures fits { (result ≡ Verdict.Fits) ↔ FitsAs descriptor.now (entry book.old) (latest claims.now) i chunk.now }
    ensures added { result ≡ Verdict.Fits → AddsPath (path (latest claims.now) (height_of descriptor.now) 0 i (sha256 chunk.now))
        (entry book.old) (entry book.new) }
    ensures unchanged { (result ≡ Verdict.Fits → ⊥) → book.new ≡ book.old }
    ensures kept { KeepsEntries (entry book.old) (entry book.new) }
    ensures backed { result ≡ Verdict.Fits → IsBacked descriptor.now (entry book.new) i chunk.now }
    ensures rooted { (d : Descriptor) → IsRooted d (entry book.old) → IsRooted d (entry book.new) }
    ensures descriptor { book.new.descriptor ≡ book.old.descriptor }
{
    let want = descriptor.chunk_len(i);
    if chunk.len() != want as usize {
        let found = chunk.len();
        return Verdict::Length { found, want };
    }
    if let Some(node) = first_absent(book, descriptor.chunks()) {
        return Verdict::Missing(node);
    }
    let start = Node {
        layer: 0,
        offset: i,
    };
    match adopt_from(book, claims, start, leaf(chunk), descriptor.height()) {
        Climb::Lacks(absent) => Verdict::Missing(absent),
        Climb::Reached { node, found, kept } => {
            if found == kept {
                Verdict::Fits
            } else {
                Verdict::Wrong { node, found, kept }
            }
        }
    }
}

// the leftmost peak over so many chunks that the book lacks
fn first_absent(book: &Book, chunks: u32) -> Option<Node>
    ensures { option_map node_of result ≡ first_absent (entry book.now) chunks }
{
    first_without(&peaks(chunks), book)
}

// the first of the nodes that the book lacks
fn first_without(nodes: &[Node], book: &Book) -> Option<Node>
    ensures { result ≡ find (λ at. is_none (entry book.now at.layer at.offset)) nodes.now }
{
    nodes.iter().copied().find(|node| book.get(*node).is_none())
}
