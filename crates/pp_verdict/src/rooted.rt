//! Whether a book leads up to the root (RFC 7574, section 5.2).

ghost use Rattle.std.specs.Prelude.{◌≡◌, ◌↔◌, ℕ, ◌-◌, ◌^◌, ◌<◌, ◌≤◌, Some, IsTrue};
ghost use Rattle.pp_terms.specs.tree.Book.{IsRooted};
ghost use Rattle.pp_terms.specs.format.Descriptor.{height_of};
ghost use Rattle.pp_tree.specs.Book.{entry, IsPreparedFor};
ghost use Rattle.pp_verdict.specs.Rooted.{Hangs, HangsAll};

use pp_tree::{Book, Descriptor, Digest, Node, parent};

// Whether the book has that digest of the node.
fn has_digest(book: &Book, node: Node, digest: Digest) -> bool
    ensures { IsTrue result ↔ (entry book.now node.layer node.offset ≡ Some digest) }
{
    match book.get(node) {
        Some(found) => found == digest,
        None => false,
    }
}

// Whether the two children of a node are absent, or have digests whose pair has the node's.
fn hangs(book: &Book, layer: u8, offset: u32) -> bool
    requires layer { layer < 20 }
    requires offset { offset < 2 ^ 20 }
    ensures { IsTrue result ↔ Hangs (entry book.now) layer offset }
{
    let left = book.get(Node {
        layer,
        offset: 2 * offset,
    });
    let right = book.get(Node {
        layer,
        offset: 2 * offset + 1,
    });
    let above = Node {
        layer: layer + 1,
        offset,
    };
    match left {
        Some(left) => match right {
            Some(right) => has_digest(book, above, parent(&left, &right)),
            None => false,
        },
        None => right.is_none(),
    }
}

// Whether all nodes of a layer below the root hang so.
fn layer_hangs(descriptor: &Descriptor, book: &Book, layer: u8) -> bool
    requires { layer < height_of descriptor.now }
    ensures { IsTrue result ↔ HangsAll descriptor.now (entry book.now) layer }
{
    for offset in 0..1u32 << (descriptor.height() - layer - 1) {
        if !hangs(book, layer, offset) {
            return false;
        }
    }
    true
}

// Whether all layers below the root do.
fn layers_hang(descriptor: &Descriptor, book: &Book) -> bool
    ensures { IsTrue result ↔ ((k : ℕ) → k < height_of descriptor.now → HangsAll descriptor.now (entry book.now) k) }
{
    for layer in 0..descriptor.height() {
        if !layer_hangs(descriptor, book, layer) {
            return false;
        }
    }
    true
}

/// Whether the root is the descriptor's, and every other digest stands in a pair whose digest is that of the node above.
pub(crate) fn is_rooted(descriptor: &Descriptor, book: &Book) -> bool
    requires { IsPreparedFor descriptor.now book.now }
    ensures { IsTrue result ↔ IsRooted descriptor.now (entry book.now) }
{
    let root = Node {
        layer: descriptor.height(),
        offset: 0,
    };
    has_digest(book, root, descriptor.root()) && layers_hang(descriptor, book)
}
