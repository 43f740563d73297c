//! Whether a peer has the hashes that a chunk needs (RFC 7574, sections 5.2 to 5.5).

ghost use Rattle.std.specs.Prelude.{◌≡◌, ◌<◌, ◌≤◌, ◌^◌, take, All};
ghost use Rattle.std.specs.List.{list_any, list_all};
ghost use Rattle.pp_terms.specs.tree.Tree as trees;
ghost use Rattle.pp_terms.specs.format.Descriptor.{chunks_of};
ghost use Rattle.pp_traffic.specs.Hashes as terms;
ghost use Rattle.pp_tree.specs.Node.{node_of};
ghost use Rattle.pp_wire.specs.Views.{span_of, message_of};
ghost use Rattle.pp_recorded.specs.Entries.{past, life_of};
ghost use Rattle.pp_recorded.specs.Parts.{all};
ghost use Rattle.pp_recorded.specs.Paths.{brought, told, known, climb_of};

use crate::asking::is_told;
use crate::entry::{Entry, Life};
use crate::reading::{first_place, message_at};
use pp_options::Options;
use pp_tree::{Descriptor, Node, peaks};
use pp_wire::{Message, Span};

/// Whether the span is all leaves under the node.
pub fn is_span_of(node: Node, span: Span) -> bool
    requires { node.layer < 21 }
    ensures { result ≡ terms.is_span_of (node_of node) (span_of span) }
{
    let size = 1u64 << node.layer;
    let first = u64::from(node.offset) * size;
    let last = (u64::from(node.offset) + 1) * size - 1;
    span.first == first && span.last == last
}

// Whether the message brings the node.
fn brings_node<'m>(node: Node, message: &'m Message<'m>) -> bool
    requires { node.layer < 21 }
    ensures { result ≡ terms.brings_node (node_of node) (message_of message.now) }
{
    match *message {
        Message::Integrity { span, .. } => is_span_of(node, span),
        _ => false,
    }
}

/// Whether the first messages of a datagram, so many, bring the node.
pub fn is_brought(descriptor: &Descriptor, bytes: &[u8], count: usize, node: Node) -> bool
    requires { node.layer < 21 }
    ensures { result ≡ brought descriptor.now bytes.now count (node_of node) }
{
    let mut at = first_place(bytes);
    let mut left = count;
    'messages: while left > 0 {
        match message_at(descriptor, bytes, at) {
            Some((message, next)) => {
                if brings_node(node, &message) {
                    return true;
                }
                at = next;
                left -= 1;
            }
            None => return false,
        }
    }
    false
}

// Whether they do, or the peer has told that it knows it.
fn is_known<'m>(
    descriptor: &Descriptor,
    life: Life,
    entries: &'m [Entry<'m>],
    bytes: &[u8],
    count: usize,
    node: Node,
) -> bool
    requires { node.layer < 21 }
    ensures { result ≡ known descriptor.now (life_of life) (past entries.now) bytes.now count (node_of node) }
{
    is_brought(descriptor, bytes, count, node) || is_told(descriptor, life, entries, node)
}

// Whether all of these nodes are known.
fn are_known<'m>(
    descriptor: &Descriptor,
    life: Life,
    entries: &'m [Entry<'m>],
    bytes: &[u8],
    count: usize,
    nodes: &[Node],
) -> bool
    requires { All (λ node. node.layer < 21) nodes.now }
    ensures { result ≡ list_all (λ node. known descriptor.now (life_of life) (past entries.now) bytes.now count (node_of node)) nodes.now }
{
    for node in nodes {
        if !is_known(descriptor, life, entries, bytes, count, *node) {
            return false;
        }
    }
    true
}

// Whether all peaks are.
fn has_peaks<'m>(
    descriptor: &Descriptor,
    life: Life,
    entries: &'m [Entry<'m>],
    bytes: &[u8],
    count: usize,
) -> bool
    ensures { result ≡ list_all (known descriptor.now (life_of life) (past entries.now) bytes.now count) (trees.peaks (chunks_of descriptor.now)) }
{
    let peaks = peaks(descriptor.chunks());
    are_known(descriptor, life, entries, bytes, count, &peaks)
}

// Whether the path is complete at a node of it, or is not; or none where the way goes on.
fn climb<'m>(
    descriptor: &Descriptor,
    life: Life,
    entries: &'m [Entry<'m>],
    bytes: &[u8],
    count: usize,
    node: Node,
) -> Option<bool>
    requires { node.layer < 21 }
    ensures { result ≡ climb_of (chunks_of descriptor.now) (brought descriptor.now bytes.now count)
        (told descriptor.now (life_of life) (past entries.now)) (node_of node) }
{
    if is_told(descriptor, life, entries, node) {
        return Some(true);
    }
    if node.is_peak(descriptor.chunks()) {
        return Some(has_peaks(descriptor, life, entries, bytes, count));
    }
    if is_known(descriptor, life, entries, bytes, count, node.sibling()) {
        return None;
    }
    Some(false)
}

/// Whether the chunk's path of hashes is complete for the peer, where the first messages of a datagram, so many, bring
/// some (RFC 7574, section 5.3).
pub fn completes<'m>(
    descriptor: &Descriptor,
    life: Life,
    entries: &'m [Entry<'m>],
    bytes: &[u8],
    count: usize,
    chunk: u32,
) -> bool
    ensures { result ≡ terms.completes (chunks_of descriptor.now) (brought descriptor.now bytes.now count)
        (told descriptor.now (life_of life) (past entries.now)) chunk }
{
    let mut node = Node::leaf(chunk);
    let mut layers = descriptor.height() + 1;
    'layers: while layers > 0 {
        match climb(descriptor, life, entries, bytes, count, node) {
            Some(answer) => return answer,
            None => {
                node = node.parent();
                layers -= 1;
            }
        }
    }
    false
}
