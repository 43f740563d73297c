// Climbing from a node towards the root of its tree, up to the first node that a book has (RFC 7574, sections 5.2 and 5.6).
ghost use Rattle.std.specs.Prelude.{◌≡◌, ◌↔◌, ◌==◌, true, if◌then◌else◌, ◌+◌, ◌%◌, ◌-◌, ◌/◌, ◌<◌, ◌≤◌};
ghost use Rattle.sha2.specs.Sha256.{sha256};
ghost use Rattle.pp_terms.specs.tree.Proves.{joined};
ghost use Rattle.pp_tree.specs.Book.{entry};
ghost use Rattle.pp_terms.specs.tree.Claims.{latest};
ghost use Rattle.pp_paths.specs.Climb.{node_at, or_else, climb, path, IsFit, IsRootedAt, AddsPath};
ghost use Rattle.pp_terms.specs.tree.Book.{IsRooted};
ghost use Rattle.pp_terms.specs.format.Descriptor.{Descriptor};

use crate::claims::Claims;
use pp_tree::{Book, Digest, Node, parent};

/// Digests that are known beside a book.
pub(crate) trait Others {
    ghost use Rattle.pp_terms.specs.tree.Book.{LookUp};

    ghost look_up: { Self → LookUp };

    fn digest(&self, node: Node) -> Option<Digest>
        ensures { result ≡ look_up self.now node.layer node.offset };
}

impl Others for Claims {
    ghost look_up = { latest };

    fn digest(&self, node: Node) -> Option<Digest> {
        self.latest(node)
    }
}

/// Where a climb ends.
#[derive(Drop)]
pub(crate) enum Climb {
    /// At a node that the book has, with the climb's digest and the book's.
    Reached {
        node: Node,
        found: Digest,
        kept: Digest,
    },
    /// Before a node that is not known.
    Lacks(Node),
}

/// Climbs from a node with that digest to at most layer `top`, in as many steps of one digest each as there are layers
/// up to the first node that the book has.
pub(crate) fn climb_from<O: Others>(
    book: &Book,
    others: &O,
    from: Node,
    digest: Digest,
    top: u8,
) -> Climb
    requires { from.layer ≤ top }
    ensures { result ≡ climb (entry book.now) (O.look_up others.now) (top - from.layer) from.layer from.offset digest }
{
    let mut node = from;
    let mut digest = digest;
    while node.layer < top {
        if let Some(kept) = book.get(node) {
            return Climb::Reached {
                node,
                found: digest,
                kept,
            };
        }
        let beside = node.sibling();
        match known(book, others, beside) {
            Some(other) => digest = join(node, &digest, &other),
            None => return Climb::Lacks(beside),
        }
        node = node.parent();
    }
    match book.get(node) {
        Some(kept) => Climb::Reached {
            node,
            found: digest,
            kept,
        },
        None => Climb::Lacks(node),
    }
}

impl Climb {
    // Whether it ended at a node of the book, with that node's digest.
    fn is_fit(&self) -> bool
        ensures { (result ≡ true) ↔ IsFit self.now }
    {
        match self {
            Climb::Reached { found, kept, .. } => found == kept,
            Climb::Lacks(_) => false,
        }
    }
}

/// Climbs as `climb_from` does, and where the climb fits adds the pairs on its way to the book. The pairs of the layers above
/// come first, so that each is adopted under a node that the book has.
pub(crate) fn adopt_from<O: Others>(
    book: &mut Book,
    others: &O,
    node: Node,
    digest: Digest,
    top: u8,
) -> Climb
    requires below { node.layer ≤ top }
    requires rooted { IsRootedAt top (entry book.old) }
    ensures climbed { result ≡ climb (entry book.old) (O.look_up others.now) (top - node.layer) node.layer node.offset digest }
    ensures added { IsFit result → AddsPath (path (O.look_up others.now) (top - node.layer) node.layer node.offset digest)
        (entry book.old) (entry book.new) }
    ensures unchanged { (IsFit result → ⊥) → book.new ≡ book.old }
    ensures rooted { (d : Descriptor) → IsRooted d (entry book.old) → IsRooted d (entry book.new) }
    ensures descriptor { book.new.descriptor ≡ book.old.descriptor }
{
    if let Some(kept) = book.get(node) {
        return Climb::Reached {
            node,
            found: digest,
            kept,
        };
    }
    if node.layer == top {
        return Climb::Lacks(node);
    }
    let beside = node.sibling();
    let Some(other) = known(book, others, beside) else {
        return Climb::Lacks(beside);
    };
    let parent = node.parent();
    let climb = adopt_from(book, others, parent, join(node, &digest, &other), top);
    if climb.is_fit() {
        let (left, right) = in_order(node, digest, other);
        book.adopt_pair(parent, left, right);
    }
    climb
}

// a node's digest and its sibling's, left then right
fn in_order(node: Node, digest: Digest, other: Digest) -> (Digest, Digest)
    ensures left { result.0 ≡ (if node.offset % 2 == 0 then digest else other) }
    ensures right { result.1 ≡ (if node.offset % 2 == 0 then other else digest) }
{
    if node.offset % 2 == 0 {
        (digest, other)
    } else {
        (other, digest)
    }
}

/// The book's digest of a node, or else the other one.
pub(crate) fn known<O: Others>(book: &Book, others: &O, node: Node) -> Option<Digest>
    ensures { result ≡ or_else (entry book.now) (O.look_up others.now) node.layer node.offset }
{
    match book.get(node) {
        Some(digest) => Some(digest),
        None => others.digest(node),
    }
}

/// The digest of the node's parent, by the node's own and its sibling's.
pub(crate) fn join(node: Node, digest: &Digest, other: &Digest) -> Digest
    ensures { result ≡ sha256 (joined node.offset digest.now other.now) }
{
    if node.offset % 2 == 0 {
        parent(digest, other)
    } else {
        parent(other, digest)
    }
}
