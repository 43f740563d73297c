//! The digests that the peer of a channel claims (RFC 7574, sections 3.5 and 5.6).

ghost use Rattle.std.specs.Prelude.{◌≡◌, ◌≤◌, ◌<◌, ◌^◌, if◌then◌else◌, length, option_map, take};
ghost use Rattle.pp_terms.specs.format.Descriptor.{chunks_of};
ghost use Rattle.pp_traffic.specs.Claims as traffic;
ghost use Rattle.pp_traffic.specs.Past.{read};
ghost use Rattle.pp_tree.specs.Node.{node_of};
ghost use Rattle.pp_wire.specs.Views.{message_of, span_of};
ghost use Rattle.pp_recorded.specs.Entries.{past, life_of, record_of};
ghost use Rattle.pp_recorded.specs.Parts.{all};
ghost use Rattle.pp_recorded.specs.Claims as terms;

use crate::entry::{Entry, Life, bytes_of};
use crate::lives::is_since;
use crate::path::is_span_of;
use crate::reading::{first_place, message_at};
use crate::records::{Kind, comes_on};
use pp_options::Options;
use pp_tree::{Descriptor, Digest, Node};
use pp_wire::{Message, Span};

// How many claims count.
const MOST_CLAIMS: u8 = 128;

/// What the peer of a channel claims before a message: by the datagrams that were read once its address was proven, and by the
/// first messages of a newer one, so many.
#[derive(Clone, Copy)]
pub struct Claims<'d, 'm> {
    pub descriptor: &'d Descriptor,
    pub life: Life,
    pub entries: &'m [Entry<'m>],
    pub bytes: &'m [u8],
    pub count: usize,
}

// The digest of the newest claim of a node, none where there is none, and how many claims are behind a newer one, up to 128.
#[derive(Clone, Copy)]
struct Newest {
    digest: Option<Digest>,
    behind: u8,
}

// The highest node, below layer 21, whose leaves are the span.
fn node_below(span: Span) -> Option<Node>
    requires { span.first < 2 ^ 32 }
    ensures { option_map node_of result ≡ traffic.node_below 21 (span_of span) }
{
    let mut layer = 21u8;
    'layers: while layer > 0 {
        layer -= 1;
        let offset = (span.first >> layer) as u32;
        let node = Node { layer, offset };
        if is_span_of(node, span) {
            return Some(node);
        }
    }
    None
}

// The node of the content that a span names.
fn named(chunks: u32, span: Span) -> Option<Node>
    ensures { option_map node_of result ≡ traffic.named chunks (span_of span) }
{
    if span.first >= u64::from(chunks) {
        return None;
    }
    node_below(Span {
        first: span.first,
        last: span.last.min(u64::from(chunks) - 1),
    })
}

// The newest claim of a node behind one of another node or of the same.
fn after_claim(at: Node, node: Node, digest: Digest, newest: Newest) -> Newest
    ensures { result ≡ terms.after_claim (node_of at) (node_of node) digest newest }
{
    if node == at {
        return Newest {
            digest: Some(digest),
            behind: 0,
        };
    }
    let behind = if newest.behind < MOST_CLAIMS {
        newest.behind + 1
    } else {
        newest.behind
    };
    Newest {
        digest: newest.digest,
        behind,
    }
}

// Behind a message.
fn newest_by<'m>(chunks: u32, at: Node, message: &'m Message<'m>, newest: Newest) -> Newest
    ensures { result ≡ terms.newest_by chunks (node_of at) (message_of message.now) newest }
{
    match *message {
        Message::Integrity { span, digest } => match named(chunks, span) {
            Some(node) => after_claim(at, node, digest, newest),
            None => newest,
        },
        _ => newest,
    }
}

// Behind a datagram.
fn newest_in(descriptor: &Descriptor, at: Node, bytes: &[u8], newest: Newest) -> Newest
    ensures { result ≡ terms.newest_after (chunks_of descriptor.now) (node_of at) (all descriptor.now bytes.now) newest }
{
    let chunks = descriptor.chunks();
    let mut newest = newest;
    let mut place = first_place(bytes);
    'messages: while let Some((message, next)) = message_at(descriptor, bytes, place) {
        newest = newest_by(chunks, at, &message, newest);
        place = next;
    }
    newest
}

// Behind its first messages, so many.
fn newest_in_front(
    descriptor: &Descriptor,
    at: Node,
    bytes: &[u8],
    count: usize,
    newest: Newest,
) -> Newest
    ensures { result ≡ terms.newest_after (chunks_of descriptor.now) (node_of at) (take count (all descriptor.now bytes.now)) newest }
{
    let chunks = descriptor.chunks();
    let mut newest = newest;
    let mut place = first_place(bytes);
    let mut left = count;
    'messages: while left > 0 {
        match message_at(descriptor, bytes, place) {
            Some((message, next)) => {
                newest = newest_by(chunks, at, &message, newest);
                place = next;
                left -= 1;
            }
            None => return newest,
        }
    }
    newest
}

// Whether the entry at a place was read, and came once the peer's address was proven.
fn is_proven<'m>(
    descriptor: &Descriptor,
    life: Life,
    is_read: bool,
    place: usize,
    entry: &'m Entry<'m>,
) -> bool
    ensures { result ≡ terms.is_proven descriptor.now (life_of life) is_read place (record_of entry.now) }
{
    is_read && comes_on(descriptor, life, entry) && life.opening <= place
}

// Behind an entry, where it is such a one.
fn newest_behind<'m>(
    descriptor: &Descriptor,
    at: Node,
    is_proven: bool,
    entry: &'m Entry<'m>,
    newest: Newest,
) -> Newest
    ensures { result ≡ (if is_proven
        then terms.newest_after (chunks_of descriptor.now) (node_of at) (read descriptor.now (record_of entry.now)).messages.read newest
        else newest) }
{
    if is_proven {
        newest_in(descriptor, at, bytes_of(entry), newest)
    } else {
        newest
    }
}

// Behind all entries.
fn newest_proven<'m>(
    descriptor: &Descriptor,
    life: Life,
    entries: &'m [Entry<'m>],
    at: Node,
) -> Newest
    ensures { result ≡ terms.newest_of (node_of at) (terms.proven_claims descriptor.now (life_of life) (past entries.now)) }
{
    let mut is_read = !life.is_dialled;
    let mut newest = Newest {
        digest: None,
        behind: 0,
    };
    for (place, entry) in entries.iter().enumerate() {
        is_read = is_since(Kind::Greets, descriptor, life, life.opening, place, entry) | is_read;
        let proven = is_proven(descriptor, life, is_read, place, entry);
        newest = newest_behind(descriptor, at, proven, entry, newest);
    }
    newest
}

impl Claims<'_, '_> {
    /// The digest that was claimed last of a node, among the last 128 claims.
    pub fn digest(&self, node: Node) -> Option<Digest>
        ensures { result ≡ terms.known_of self.now node.layer node.offset }
    {
        let proven = newest_proven(self.descriptor, self.life, self.entries, node);
        let newest = newest_in_front(self.descriptor, node, self.bytes, self.count, proven);
        if newest.behind < MOST_CLAIMS {
            newest.digest
        } else {
            None
        }
    }
}
