// Coming to the peaks of a content's tree by claims.
ghost use Rattle.std.specs.Prelude.{◌≡◌, ◌*◌, ◌^◌, ◌<◌, ◌≤◌, None, is_none, nat_lt};
ghost use Rattle.std.specs.List.{find};
ghost use Rattle.std.specs.Option.{option_map};
ghost use Rattle.pp_terms.specs.tree.Book.{IsRooted};
ghost use Rattle.pp_terms.specs.format.Descriptor.{Descriptor};
ghost use Rattle.pp_terms.specs.tree.Proves.{first_absent, filled, last_layer, peak_offset};
ghost use Rattle.pp_tree.specs.Book.{entry};
ghost use Rattle.pp_tree.specs.Node.{node_of};
ghost use Rattle.pp_terms.specs.tree.Claims.{latest};
ghost use Rattle.pp_paths.specs.Climb.{node_at, or_else, AddsPath, IsEndAt};
ghost use Rattle.pp_paths.specs.Judge.{KeepsEntries};
ghost use Rattle.pp_paths.specs.Settle.{settled, path_of_peaks, climb_of_peaks, IsRootedFor, IsWrong};

use crate::claims::Claims;
use crate::climbing::{Climb, Others, adopt_from, climb_from, known};
use pp_tree::{Book, Digest, Node, height, peaks};

/// Whether a book has the peaks of its content's tree.
#[derive(Clone, Copy, PartialEq, Eq, Debug)]
pub enum Settled {
    /// It has them all.
    Known,
    /// This peak is neither in the book nor claimed.
    Missing(Node),
    /// The peaks lead to another digest than the book's.
    Wrong { found: Digest, kept: Digest },
}

/// Adds the peaks to the book, and the digests between them and the first node that the book has, where the book's peaks
/// and those that are claimed lead to that node's digest.
pub fn settle_peaks(book: &mut Book, claims: &Claims, chunks: u32) -> Settled
    requires some { 0 < chunks }
    requires most { chunks ≤ 2 ^ 20 }
    requires rooted { IsRootedFor chunks (entry book.old) }
    ensures settled { result ≡ settled chunks (entry book.old) (latest claims.now) }
    ensures known { result ≡ Settled.Known → first_absent (entry book.new) chunks ≡ None }
    ensures added { result ≡ Settled.Known
        → AddsPath (path_of_peaks chunks (entry book.old) (latest claims.now)) (entry book.old) (entry book.new) }
    ensures unchanged { (result ≡ Settled.Known → ⊥) → book.new ≡ book.old }
    ensures before { first_absent (entry book.old) chunks ≡ None → book.new ≡ book.old }
    ensures kept { KeepsEntries (entry book.old) (entry book.new) }
    ensures rooted { (d : Descriptor) → IsRooted d (entry book.old) → IsRooted d (entry book.new) }
    ensures descriptor { book.new.descriptor ≡ book.old.descriptor }
{
    let last = last_peak(chunks);
    // A rooted book that has the last peak has all others.
    if book.get(last).is_some() {
        return Settled::Known;
    }
    if let Some(node) = first_unknown(book, claims, chunks) {
        return Settled::Missing(node);
    }
    let digest = claims.latest(last).unwrap();
    let peaks = Peaks { claims, chunks };
    match adopt_from(book, &peaks, last, digest, height(chunks)) {
        Climb::Lacks(node) => Settled::Missing(node),
        Climb::Reached { found, kept, .. } => {
            if found == kept {
                Settled::Known
            } else {
                Settled::Wrong { found, kept }
            }
        }
    }
}

/// The node of the book whose digest isn't the one that the peaks lead to, where `settle_peaks` says so: the lowest one
/// that covers a chunk and isn't full.
pub fn wrong_node(book: &Book, claims: &Claims, chunks: u32) -> Node
    requires some { 0 < chunks }
    requires most { chunks ≤ 2 ^ 20 }
    requires rooted { IsRootedFor chunks (entry book.now) }
    requires wrong { IsWrong (settled chunks (entry book.now) (latest claims.now)) }
    ensures { IsEndAt result (climb_of_peaks chunks (entry book.now) (latest claims.now)) }
{
    let last = last_peak(chunks);
    let digest = claims.latest(last).unwrap();
    let peaks = Peaks { claims, chunks };
    match climb_from(book, &peaks, last, digest, height(chunks)) {
        Climb::Reached { node, .. } => node,
        Climb::Lacks(node) => node,
    }
}

/// What is claimed, and the empty hash for nodes that cover no chunk.
#[derive(Drop)]
struct Peaks<'a> {
    claims: &'a Claims,
    chunks: u32,
}

impl Others for Peaks<'_> {
    ghost look_up = { λ peaks. filled peaks.chunks (latest peaks.claims.now) };

    fn digest(&self, node: Node) -> Option<Digest> {
        if covers(node, self.chunks) {
            self.claims.latest(node)
        } else {
            Some(Digest::new([0; 32]))
        }
    }
}

// whether a leaf under the node is one of so many chunks
fn covers(node: Node, chunks: u32) -> bool
    ensures { result ≡ nat_lt (node.offset * 2 ^ node.layer) chunks }
{
    if node.offset == 0 {
        return chunks > 0;
    }
    node.layer < 32 && u64::from(node.offset) << node.layer < u64::from(chunks)
}

// the last peak over so many chunks
fn last_peak(chunks: u32) -> Node
    requires { 0 < chunks }
    ensures { result ≡ node_at (last_layer chunks) (peak_offset (last_layer chunks) chunks) }
{
    let layer = chunks.trailing_zeros() as u8;
    Node {
        layer,
        offset: (chunks >> layer) - 1,
    }
}

// the leftmost peak over so many chunks that is neither in the book nor claimed
fn first_unknown(book: &Book, claims: &Claims, chunks: u32) -> Option<Node>
    ensures { option_map node_of result ≡ first_absent (or_else (entry book.now) (latest claims.now)) chunks }
{
    first_without(&peaks(chunks), book, claims)
}

// the first of the nodes that is in neither
fn first_without(nodes: &[Node], book: &Book, claims: &Claims) -> Option<Node>
    ensures { result ≡ find (λ at. is_none (or_else (entry book.now) (latest claims.now) at.layer at.offset)) nodes.now }
{
    nodes
        .iter()
        .copied()
        .find(|node| known(book, claims, *node).is_none())
}
