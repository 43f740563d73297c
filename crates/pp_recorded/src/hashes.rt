//! The hashes before a chunk that is sent, and those of its plan (RFC 7574, sections 5.2 to 5.5).

ghost use Rattle.std.specs.Prelude.{◌≡◌, ◌<◌, ◌≤◌, ◌+◌, ◌-◌, ◌∷◌, [], ℕ, All, IfSome, MatchOption, length, map, option_map, take};
ghost use Rattle.std.specs.List.{list_all};
ghost use Rattle.pp_terms.specs.format.Descriptor.{chunks_of, height_of};
ghost use Rattle.pp_traffic.specs.Laws.{uncles_from, plan};
ghost use Rattle.pp_promises.specs.Datagrams.{hash_spans, is_read_told};
ghost use Rattle.pp_tree.specs.Node.{node_of};
ghost use Rattle.pp_wire.specs.Views.{message_of, span_of};
ghost use Rattle.pp_recorded.specs.Entries.{past, life_of};
ghost use Rattle.pp_recorded.specs.Parts.{all};
ghost use Rattle.pp_recorded.specs.Plans as terms;
ghost use Rattle.pp_recorded.specs.Plans.{IsNext};

use crate::entry::{Entry, Life};
use crate::path::is_span_of;
use crate::reading::{first_place, message_at};
use crate::unread::is_read_told;
use pp_options::Options;
use pp_tree::{Descriptor, Node, peaks};
use pp_wire::{Message, Span};

/// What is left of the first messages of a datagram: from a place on, so many.
#[derive(Clone, Copy)]
pub struct Front {
    pub at: usize,
    pub left: usize,
}

// The span of an INTEGRITY.
fn hash_span<'m>(message: &'m Message<'m>) -> Option<Span>
    ensures { option_map span_of result ≡ terms.hash_span (message_of message.now) }
{
    match *message {
        Message::Integrity { span, .. } => Some(span),
        _ => None,
    }
}

// The first of them, and what is left behind it.
fn next_hash(descriptor: &Descriptor, bytes: &[u8], front: Front) -> Option<(Span, Front)>
    requires { front.at ≤ length bytes.now }
    ensures { MatchOption result (terms.spans_at descriptor.now bytes.now front ≡ [])
        (λ x. IsNext descriptor.now bytes.now front (span_of x.0) x.1) }
{
    let mut at = front.at;
    let mut left = front.left;
    'messages: while left > 0 {
        match message_at(descriptor, bytes, at) {
            Some((message, next)) => {
                at = next;
                left -= 1;
                if let Some(span) = hash_span(&message) {
                    return Some((span, Front { at, left }));
                }
            }
            None => return None,
        }
    }
    None
}

// What is left behind the hash of a node, none where another hash or none comes next.
fn without_node(descriptor: &Descriptor, bytes: &[u8], front: Front, node: Node) -> Option<Front>
    requires within { front.at ≤ length bytes.now }
    requires low { node.layer < 21 }
    ensures within { IfSome result (λ more. more.at ≤ length bytes.now) }
    ensures spans { option_map (terms.spans_at descriptor.now bytes.now) result
        ≡ terms.without (node_of node ∷ []) (terms.spans_at descriptor.now bytes.now front) }
{
    match next_hash(descriptor, bytes, front) {
        Some((span, more)) => {
            if is_span_of(node, span) {
                Some(more)
            } else {
                None
            }
        }
        None => None,
    }
}

// Behind those of some nodes, one after the other.
fn without_nodes(
    descriptor: &Descriptor,
    bytes: &[u8],
    front: Front,
    nodes: &[Node],
) -> Option<Front>
    requires within { front.at ≤ length bytes.now }
    requires low { All (λ node. node.layer < 21) nodes.now }
    ensures within { IfSome result (λ more. more.at ≤ length bytes.now) }
    ensures spans { option_map (terms.spans_at descriptor.now bytes.now) result
        ≡ terms.without (map node_of nodes.now) (terms.spans_at descriptor.now bytes.now front) }
{
    let mut more = front;
    for node in nodes {
        match without_node(descriptor, bytes, more, *node) {
            Some(next) => more = next,
            None => return None,
        }
    }
    Some(more)
}

// Whether the peer has told, by what was read, that it knows all of these nodes.
fn are_told<'m>(
    descriptor: &Descriptor,
    life: Life,
    entries: &'m [Entry<'m>],
    nodes: &[Node],
) -> bool
    ensures { result ≡ list_all (λ node. is_read_told descriptor.now (life_of life) (past entries.now) (node_of node)) nodes.now }
{
    for node in nodes {
        if !is_read_told(descriptor, life, entries, *node) {
            return false;
        }
    }
    true
}

// Behind those of the peaks, which come first unless all are told.
fn without_peaks<'m>(
    descriptor: &Descriptor,
    life: Life,
    entries: &'m [Entry<'m>],
    bytes: &[u8],
    front: Front,
) -> Option<Front>
    requires { front.at ≤ length bytes.now }
    ensures within { IfSome result (λ more. more.at ≤ length bytes.now) }
    ensures spans { option_map (terms.spans_at descriptor.now bytes.now) result
        ≡ terms.without (terms.first_of (chunks_of descriptor.now) (is_read_told descriptor.now (life_of life) (past entries.now)))
        (terms.spans_at descriptor.now bytes.now front) }
{
    let peaks = peaks(descriptor.chunks());
    if are_told(descriptor, life, entries, &peaks) {
        return Some(front);
    }
    without_nodes(descriptor, bytes, front, &peaks)
}

// Behind those of the siblings on the way up from a node, the highest first.
fn without_uncles<'m>(
    descriptor: &Descriptor,
    life: Life,
    entries: &'m [Entry<'m>],
    bytes: &[u8],
    front: Front,
    node: Node,
) -> Option<Front>
    requires { front.at ≤ length bytes.now }
    ensures within { IfSome result (λ more. more.at ≤ length bytes.now) }
    ensures spans { option_map (terms.spans_at descriptor.now bytes.now) result
        ≡ terms.without (uncles_from (height_of descriptor.now + 1 - node.layer) (chunks_of descriptor.now)
        (is_read_told descriptor.now (life_of life) (past entries.now)) (node_of node)) (terms.spans_at descriptor.now bytes.now front) }
{
    if node.layer > descriptor.height() {
        return Some(front);
    }
    if is_read_told(descriptor, life, entries, node) {
        return Some(front);
    }
    if node.is_peak(descriptor.chunks()) {
        return Some(front);
    }
    let above = without_uncles(descriptor, life, entries, bytes, front, node.parent());
    match above {
        Some(more) => {
            let sibling = node.sibling();
            if is_read_told(descriptor, life, entries, sibling) {
                Some(more)
            } else {
                without_node(descriptor, bytes, more, sibling)
            }
        }
        None => None,
    }
}

// Behind those of a chunk's plan.
fn without_plan<'m>(
    descriptor: &Descriptor,
    life: Life,
    entries: &'m [Entry<'m>],
    bytes: &[u8],
    count: usize,
    chunk: u32,
) -> Option<Front>
    ensures within { IfSome result (λ more. more.at ≤ length bytes.now) }
    ensures spans { option_map (terms.spans_at descriptor.now bytes.now) result
        ≡ terms.without (plan (chunks_of descriptor.now) (is_read_told descriptor.now (life_of life) (past entries.now)) chunk)
        (hash_spans (take count (all descriptor.now bytes.now))) }
{
    let front = Front {
        at: first_place(bytes),
        left: count,
    };
    match without_peaks(descriptor, life, entries, bytes, front) {
        Some(more) => { without_uncles(descriptor, life, entries, bytes, more, Node::leaf(chunk)) }
        None => None,
    }
}

/// Whether the hashes among the first messages of a datagram, so many, are exactly those of the chunk's plan, in its order, by
/// what was read on the channel.
pub fn is_planned<'m>(
    descriptor: &Descriptor,
    life: Life,
    entries: &'m [Entry<'m>],
    bytes: &[u8],
    count: usize,
    chunk: u32,
) -> bool
    ensures { result ≡ terms.is_planned descriptor.now (past entries.now) chunk (take count (all descriptor.now bytes.now)) (life_of life) }
{
    match without_plan(descriptor, life, entries, bytes, count, chunk) {
        Some(more) => next_hash(descriptor, bytes, more).is_none(),
        None => false,
    }
}
