//! Whether a peer that fetches asks for what it is offered (RFC 7574, sections 3.2 and 3.7).

ghost use Rattle.std.specs.Prelude.{◌≡◌, ◌↔◌, ◌<◌, ℕ, List, false, IsTrue, slice_index_or};
ghost use Rattle.pp_terms.specs.disk.Image.{holds};
ghost use Rattle.pp_terms.specs.format.Descriptor.{chunks_of};
ghost use Rattle.pp_promises.specs.Asked.{AsksBut};
ghost use Rattle.pp_recorded.specs.Entries.{past};

use crate::clauses::Clause;
use crate::duties::Duty;
use crate::ends::fails_few;
use pp_recorded::entry::Entry;
use pp_tree::Descriptor;

/// Whether at the end of every turn, but so many, each chunk that a plain channel offers had been asked for on some channel, or is
/// held, where that channel's peer doesn't choke, no request is ten seconds old and the requests that were sent to it name
/// fewer than 32 chunks. `held` says of each chunk of the content whether the disk holds it at the end.
pub fn asks_but<'m>(
    refusals: u64,
    descriptor: &Descriptor,
    held: &[bool],
    entries: &'m [Entry<'m>],
) -> bool
    ensures { (reads : List ℕ) → ((i : ℕ) → i < chunks_of descriptor.now → slice_index_or held.now i false ≡ holds descriptor.now reads i)
        → IsTrue result ↔ AsksBut refusals descriptor.now reads (past entries.now) }
{
    fails_few(
        Clause::Each(Duty::Asks(held)),
        refusals,
        descriptor,
        entries,
    )
}
