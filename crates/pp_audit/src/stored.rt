//! Whether a peer stores what is proved (RFC 7574, sections 3.4, 3.5 and 5.6).

ghost use Rattle.std.specs.Prelude.{◌≡◌, ◌↔◌, ℕ, List, true, false, IsTrue, slice_index_or};
ghost use Rattle.pp_terms.specs.disk.Image.{holds};
ghost use Rattle.pp_promises.specs.Stored.{StoresAll};
ghost use Rattle.pp_tree.specs.Book.{entry};
ghost use Rattle.pp_recorded.specs.Entries.{past};
ghost use Rattle.pp_audit.specs.Stored as terms;

use crate::channels::each_plain;
use crate::digests::all_are_long;
use crate::duties::Duty;
use pp_recorded::entry::Entry;
use pp_tree::{Book, Descriptor};

// Whether it is so of the chunks of each entry.
fn each_stores<'m>(
    descriptor: &Descriptor,
    book: &Book,
    held: &[bool],
    entries: &'m [Entry<'m>],
) -> bool
    ensures { result ≡ terms.stores_all descriptor.now (entry book.now) held.now (past entries.now) }
{
    let mut all = true;
    for place in 0..entries.len() {
        all = each_plain(Duty::Stores(book, held), descriptor, &entries[..place + 1]) & all;
    }
    all
}

/// Whether each chunk that came on a channel that was plain up to its datagram, and that what its peer claimed before proves, is
/// held, or the book contradicts the climb at some node. `held` says of each chunk whether it is held in what the disk reads at
/// the end; past its end none is.
pub fn stores_all<'m>(
    descriptor: &Descriptor,
    book: &Book,
    held: &[bool],
    entries: &'m [Entry<'m>],
) -> bool
    ensures { (reads : List ℕ) → ((i : ℕ) → (slice_index_or held.now i false ≡ true) ↔ (holds descriptor.now reads i ≡ true))
        → IsTrue result ↔ StoresAll descriptor.now (entry book.now) reads (past entries.now) }
{
    let _chunks = descriptor.chunks();
    let _height = descriptor.height();
    all_are_long(descriptor, entries);
    each_stores(descriptor, book, held, entries)
}
