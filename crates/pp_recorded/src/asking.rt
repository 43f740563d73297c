//! What stands on a channel: requests, chokes, what the peer has told.

ghost use Rattle.std.specs.Prelude.{◌≡◌};
ghost use Rattle.pp_terms.specs.format.Descriptor.{chunks_of};
ghost use Rattle.pp_traffic.specs.Asking as asking;
ghost use Rattle.pp_traffic.specs.Hashes as hashes;
ghost use Rattle.pp_traffic.specs.Story.{story};
ghost use Rattle.pp_tree.specs.Node.{node_of};
ghost use Rattle.pp_recorded.specs.Entries.{past, life_of};

use crate::entry::{Entry, Life};
use crate::lives::some_since;
use crate::records::Kind;
use crate::standing::{Question, standing_since};
use pp_tree::{Descriptor, Node};

/// Whether a CHOKE was sent on the channel, and no UNCHOKE since (RFC 7574, section 3.9).
pub fn is_choked<'m>(descriptor: &Descriptor, life: Life, entries: &'m [Entry<'m>]) -> bool
    ensures { result ≡ asking.choked (story descriptor.now (life_of life) (past entries.now)) }
{
    standing_since(descriptor, Question::Asked(0), life, life.opening, entries).choked
}

/// Whether the peer has an outstanding request of the chunk (RFC 7574, sections 3.7 to 3.9).
pub fn is_asked<'m>(
    descriptor: &Descriptor,
    life: Life,
    entries: &'m [Entry<'m>],
    chunk: u64,
) -> bool
    ensures { result ≡ asking.asked chunk (story descriptor.now (life_of life) (past entries.now)) }
{
    standing_since(
        descriptor,
        Question::Asked(chunk),
        life,
        life.opening,
        entries,
    )
    .found
}

/// Whether the peer has told, by HAVE or ACK, that it knows the node (RFC 7574, sections 3.2, 3.3 and 5.3).
pub fn is_told<'m>(
    descriptor: &Descriptor,
    life: Life,
    entries: &'m [Entry<'m>],
    node: Node,
) -> bool
    ensures { result ≡ hashes.is_told (chunks_of descriptor.now) (story descriptor.now (life_of life) (past entries.now)) (node_of node) }
{
    standing_since(
        descriptor,
        Question::Told(node),
        life,
        life.opening,
        entries,
    )
    .found
}

/// Whether a datagram came from the peer to this peer's number.
pub fn is_heard<'m>(descriptor: &Descriptor, life: Life, entries: &'m [Entry<'m>]) -> bool
    ensures { result ≡ asking.is_heard descriptor.now (life_of life) (past entries.now) }
{
    some_since(Kind::ComesOn, descriptor, life, life.opening, entries)
}
