//! What stands on a channel by what was read of it: where this peer dialled, what came before the reply is left unread.

ghost use Rattle.std.specs.Prelude.{◌≡◌, nat_le, not, ◌&&◌, if◌then◌else◌};
ghost use Rattle.pp_terms.specs.format.Descriptor.{chunks_of};
ghost use Rattle.pp_promises.specs.ReadStory.{read_story};
ghost use Rattle.pp_promises.specs.Datagrams as datagrams;
ghost use Rattle.pp_tree.specs.Node.{node_of};
ghost use Rattle.pp_recorded.specs.Entries.{past, life_of, record_of};
ghost use Rattle.pp_recorded.specs.Standing.{standing_of};
ghost use Rattle.pp_recorded.specs.ReadStandings as terms;

use crate::entry::{Entry, Life, is_event};
use crate::lives::is_since;
use crate::records::Kind;
use crate::standing::{NONE, Question, Standing, after_entry};
use pp_tree::{Descriptor, Node};

// Whether the entry at a place is left unread, by whether the reply was there.
fn is_unread<'m>(life: Life, is_read: bool, place: usize, entry: &'m Entry<'m>) -> bool
    ensures { result ≡ terms.is_unread (life_of life) is_read place (record_of entry.now) }
{
    !is_read && is_event(entry) && life.opening <= place
}

// How it stands behind the entry.
fn after_read<'m>(
    descriptor: &Descriptor,
    question: Question,
    life: Life,
    is_read: bool,
    place: usize,
    entry: &'m Entry<'m>,
    standing: Standing,
) -> Standing
    ensures { result ≡ terms.after_read descriptor.now question (life_of life) is_read place (record_of entry.now) standing }
{
    if is_unread(life, is_read, place, entry) {
        return standing;
    }
    after_entry(
        descriptor,
        question,
        life,
        life.opening,
        place,
        entry,
        standing,
    )
}

/// How it stands at the end of the entries, by what was read.
#[tactic(auto, using(crate::proofs::ReadStandings::none_read))]
pub fn standing_read<'m>(
    descriptor: &Descriptor,
    question: Question,
    life: Life,
    entries: &'m [Entry<'m>],
) -> Standing
    ensures { result ≡ standing_of (chunks_of descriptor.now) question (read_story descriptor.now (life_of life) (past entries.now)) }
{
    let mut is_read = !life.is_dialled;
    let mut standing = NONE;
    for (place, entry) in entries.iter().enumerate() {
        is_read = is_since(Kind::Greets, descriptor, life, life.opening, place, entry) | is_read;
        standing = after_read(descriptor, question, life, is_read, place, entry, standing);
    }
    standing
}

/// Whether the peer has told, by what was read, that it knows the node.
pub fn is_read_told<'m>(
    descriptor: &Descriptor,
    life: Life,
    entries: &'m [Entry<'m>],
    node: Node,
) -> bool
    ensures { result ≡ datagrams.is_read_told descriptor.now (life_of life) (past entries.now) (node_of node) }
{
    standing_read(descriptor, Question::Told(node), life, entries).found
}
