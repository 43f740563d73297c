//! How a chunk that was sent stands to the rule on one channel.

ghost use Rattle.std.specs.Prelude.{◌≡◌, ◌↔◌, ◌<◌, ◌^◌, List, IsTrue, MatchOption};
ghost use Rattle.pp_terms.specs.format.Traffic.{Record};
ghost use Rattle.pp_terms.specs.format.Descriptor.{chunks_of};
ghost use Rattle.pp_terms.specs.tree.Book.{IsRooted};
ghost use Rattle.pp_traffic.specs.Life as lives;
ghost use Rattle.pp_traffic.specs.Story as stories;
ghost use Rattle.pp_traffic.specs.Asking.{is_heard};
ghost use Rattle.pp_tree.specs.Book.{entry};
ghost use Rattle.pp_story.specs.Stories.{StandsFor};
ghost use Rattle.pp_verdict.specs.Chunks.{shown};
ghost use Rattle.pp_verdict.specs.Faults.{HasHashes, Passes, FailsOn};

use crate::answer::Part;
use crate::chunk::SentChunk;
use crate::path::completes;
use pp_recorded::carrying::all_carry;
use pp_story::Story;
use pp_tree::{Book, Descriptor};

/// A record isn't one of the content's chunks that was sent on the channel; or it is, and passes there, or fails by a
/// part.
#[derive(Clone, Copy)]
pub(crate) enum Judgement {
    Elsewhere,
    Passes,
    Fails(Part),
}

// Whether the hashes in front of the chunk are the book's, and complete its path for the peer.
fn has_hashes<'a>(descriptor: &Descriptor, book: &Book, story: &Story, chunk: SentChunk<'a>) -> bool
    requires rooted { IsRooted descriptor.now (entry book.now) }
    requires within { chunk.number < chunks_of descriptor.now }
    requires few { chunk.number < 2 ^ 32 }
    ensures { (life : lives.Life) (past : List Record)
        → StandsFor story.now descriptor.now (stories.story descriptor.now life past)
        → IsTrue result ↔ HasHashes descriptor.now (entry book.now) past (shown descriptor.now chunk.entry) life }
{
    all_carry(descriptor, book, chunk.datagram, chunk.count)
        && completes(descriptor, story, chunk, chunk.number as u32)
}

/// The first part that fails for a chunk of the content on the channel of the story, none where it passes.
pub(crate) fn failing<'a>(
    descriptor: &Descriptor,
    book: &Book,
    story: &Story,
    heard: bool,
    chunk: SentChunk<'a>,
) -> Option<Part>
    requires rooted { IsRooted descriptor.now (entry book.now) }
    requires within { chunk.number < chunks_of descriptor.now }
    requires few { chunk.number < 2 ^ 32 }
    ensures { (life : lives.Life) (past : List Record)
        → StandsFor story.now descriptor.now (stories.story descriptor.now life past)
        → heard ≡ is_heard descriptor.now life past
        → MatchOption result (Passes descriptor.now (entry book.now) past (shown descriptor.now chunk.entry) life)
        (FailsOn descriptor.now (entry book.now) past (shown descriptor.now chunk.entry) life) }
{
    if !story.is_asked(chunk.number as u32) {
        return Some(Part::Asked);
    }
    if story.is_choked() || !heard {
        return Some(Part::Unchoked);
    }
    if !has_hashes(descriptor, book, story, chunk) {
        return Some(Part::Hashes);
    }
    if !story.has_room() {
        return Some(Part::Window);
    }
    None
}
