//! Whether the peer of a story has the hashes that a chunk needs (RFC 7574, sections 5.2 to 5.5).

ghost use Rattle.std.specs.Prelude.{◌≡◌, ◌||◌, ◌<◌, List, All};
ghost use Rattle.std.specs.List.{list_all};
ghost use Rattle.pp_terms.specs.tree.Tree as trees;
ghost use Rattle.pp_terms.specs.format.Descriptor.{chunks_of};
ghost use Rattle.pp_traffic.specs.Story.{Line};
ghost use Rattle.pp_traffic.specs.Hashes as terms;
ghost use Rattle.pp_tree.specs.Node.{node_of};
ghost use Rattle.pp_recorded.specs.Paths.{brought, climb_of};
ghost use Rattle.pp_story.specs.Stories.{StandsFor};
ghost use Rattle.pp_verdict.specs.Courses.{is_known};

use crate::chunk::SentChunk;
use pp_recorded::path::is_brought;
use pp_story::Story;
use pp_tree::{Descriptor, Node, peaks};

// Whether the messages in front of the chunk bring the node, or the peer has told it.
fn is_known<'a>(descriptor: &Descriptor, story: &Story, chunk: SentChunk<'a>, node: Node) -> bool
    requires { node.layer < 21 }
    ensures { (s : List Line) → StandsFor story.now descriptor.now s
        → result ≡ is_known descriptor.now chunk.entry s (node_of node) }
{
    is_brought(descriptor, chunk.datagram, chunk.count, node) || story.is_told(node)
}

// Whether all of the nodes are so.
fn are_known<'a>(
    descriptor: &Descriptor,
    story: &Story,
    chunk: SentChunk<'a>,
    nodes: &[Node],
) -> bool
    requires { All (λ node. node.layer < 21) nodes.now }
    ensures { (s : List Line) → StandsFor story.now descriptor.now s
        → result ≡ list_all (λ node. is_known descriptor.now chunk.entry s (node_of node)) nodes.now }
{
    for node in nodes {
        if !is_known(descriptor, story, chunk, *node) {
            return false;
        }
    }
    true
}

// Whether all peaks are.
fn has_peaks<'a>(descriptor: &Descriptor, story: &Story, chunk: SentChunk<'a>) -> bool
    ensures { (s : List Line) → StandsFor story.now descriptor.now s
        → result ≡ list_all (is_known descriptor.now chunk.entry s) (trees.peaks (chunks_of descriptor.now)) }
{
    let peaks = peaks(descriptor.chunks());
    are_known(descriptor, story, chunk, &peaks)
}

// Whether the path is complete at a node of it, or is not; or none where the way goes on.
fn climb<'a>(
    descriptor: &Descriptor,
    story: &Story,
    chunk: SentChunk<'a>,
    node: Node,
) -> Option<bool>
    requires { node.layer < 21 }
    ensures { (s : List Line) → StandsFor story.now descriptor.now s → result ≡ climb_of (chunks_of descriptor.now)
        (brought descriptor.now chunk.entry.datagram.now chunk.entry.count) (terms.is_told (chunks_of descriptor.now) s)
        (node_of node) }
{
    if story.is_told(node) {
        return Some(true);
    }
    if node.is_peak(descriptor.chunks()) {
        return Some(has_peaks(descriptor, story, chunk));
    }
    if is_known(descriptor, story, chunk, node.sibling()) {
        return None;
    }
    Some(false)
}

/// Whether the chunk's path of hashes is complete for the peer, by what is in front of the chunk and what the peer has
/// told.
pub(crate) fn completes<'a>(
    descriptor: &Descriptor,
    story: &Story,
    chunk: SentChunk<'a>,
    number: u32,
) -> bool
    ensures { (s : List Line) → StandsFor story.now descriptor.now s
        → result ≡ terms.completes (chunks_of descriptor.now)
        (brought descriptor.now chunk.entry.datagram.now chunk.entry.count) (terms.is_told (chunks_of descriptor.now) s)
        number }
{
    let mut node = Node::leaf(number);
    let mut layers = descriptor.height() + 1;
    'layers: while layers > 0 {
        match climb(descriptor, story, chunk, node) {
            Some(answer) => return answer,
            None => {
                node = node.parent();
                layers -= 1;
            }
        }
    }
    false
}
