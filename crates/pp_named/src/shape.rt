// Nodes of a book that no content's tree has.
ghost use Rattle.std.specs.Prelude.{◌≡◌, ◌↔◌, ℕ, ◌*◌, ◌^◌, ◌<◌, ◌≤◌, IsTrue, MatchOption};
ghost use Rattle.pp_terms.specs.format.Descriptor.{height_of};
ghost use Rattle.pp_tree.specs.Book.{entry};
ghost use Rattle.pp_named.specs.Shape.{IsFilled, IsMisshapen, IsFirstInLayer, IsFirstMisshapen, FindsMisshapen};

use pp_tree::{Book, Descriptor, Digest, Node};

/// Of the nodes that cover no chunk of the content of the book's descriptor, the first that the book has with another
/// digest than 32 zero bytes: of those in the least layer, the one of the least offset. None where there is none, and
/// where the book wasn't prepared.
pub fn first_misshapen(book: &Book) -> Option<Node>
    ensures { FindsMisshapen book.now.descriptor (entry book.now) result }
{
    first_in_tree(book, &book.descriptor()?)
}

// the first in the layers below the root
fn first_in_tree(book: &Book, descriptor: &Descriptor) -> Option<Node>
    ensures { MatchOption result ((k j : ℕ) → IsMisshapen descriptor.now (entry book.now) k j → ⊥)
        (λ at. IsFirstMisshapen descriptor.now (entry book.now) at.layer at.offset) }
{
    let height = descriptor.height();
    for layer in 0..height {
        let first = first_in_layer(book, descriptor, layer);
        if first.is_some() {
            return first;
        }
    }
    None
}

// the first in one layer
fn first_in_layer(book: &Book, descriptor: &Descriptor, layer: u8) -> Option<Node>
    requires { layer ≤ height_of descriptor.now }
    ensures { MatchOption result ((j : ℕ) → IsMisshapen descriptor.now (entry book.now) layer j → ⊥)
        (λ at. (at.layer ≡ layer) × IsFirstInLayer descriptor.now (entry book.now) at.layer at.offset) }
{
    let height = descriptor.height();
    let start = first_past(descriptor.chunks(), layer);
    let end = 1 << (height - layer);
    for offset in start..end {
        let node = Node { layer, offset };
        if is_filled(book, node) {
            return Some(node);
        }
    }
    None
}

// the offset of the layer's first node that covers none of so many chunks
fn first_past(chunks: u32, layer: u8) -> u32
    requires { layer ≤ 20 }
    ensures { (j : ℕ) → (chunks ≤ j * 2 ^ layer) ↔ (result ≤ j) }
{
    chunks.div_ceil(1 << layer)
}

// whether the book has the node with another digest than 32 zero bytes
fn is_filled(book: &Book, node: Node) -> bool
    ensures { IsTrue result ↔ IsFilled (entry book.now) node.layer node.offset }
{
    match book.get(node) {
        Some(digest) => digest != Digest::new([0; 32]),
        None => false,
    }
}
