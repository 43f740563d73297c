//! Whether a peer announces what it has (RFC 7574, sections 3.2 and 3.3).

ghost use Rattle.std.specs.Prelude.{◌≡◌, ◌↔◌, ℕ, true, false, IsTrue, slice_index_or};
ghost use Rattle.pp_terms.specs.disk.Disk.{History};
ghost use Rattle.pp_traffic.specs.Keeping.{StoodThroughout};
ghost use Rattle.pp_promises.specs.Announced.{AcknowledgesAll, TellsAll};
ghost use Rattle.pp_tree.specs.Book.{entry};
ghost use Rattle.pp_recorded.specs.Entries.{past};

use crate::clauses::Clause;
use crate::digests::all_are_long;
use crate::duties::Duty;
use crate::ends::fails_few;
use pp_recorded::entry::Entry;
use pp_tree::{Book, Descriptor};

/// Whether at the end of every quiet turn each chunk that came for the first time in an earlier one, on a channel that was plain
/// up to it and still is, was acknowledged there, if what its peer claimed before proves it and the book doesn't contradict it.
pub fn acknowledges_all<'m>(descriptor: &Descriptor, book: &Book, entries: &'m [Entry<'m>]) -> bool
    ensures { IsTrue result ↔ AcknowledgesAll descriptor.now (entry book.now) (past entries.now) }
{
    let _chunks = descriptor.chunks();
    let _height = descriptor.height();
    all_are_long(descriptor, entries);
    fails_few(
        Clause::Each(Duty::Acknowledges(book)),
        0,
        descriptor,
        entries,
    )
}

/// Whether at the end of every turn each plain channel whose peer has written had been told by HAVE of all that was announced in
/// an earlier turn or stood on the disk from the start, or that turn told it of at least 64 new chunks. `stood` says of each
/// chunk whether it stood from the start; past its end none did.
pub fn tells_all<'m>(descriptor: &Descriptor, stood: &[bool], entries: &'m [Entry<'m>]) -> bool
    ensures { (h : History) → ((i : ℕ) → (slice_index_or stood.now i false ≡ true) ↔ StoodThroughout descriptor.now h i)
        → IsTrue result ↔ TellsAll descriptor.now h (past entries.now) }
{
    fails_few(Clause::Each(Duty::Tells(stood)), 0, descriptor, entries)
}
