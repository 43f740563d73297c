//! Whether a peer serves what it is asked for (RFC 7574, sections 3.7 to 3.9 and 8.16).

ghost use Rattle.std.specs.Prelude.{◌≡◌, ◌↔◌, ℕ, true, false, IsTrue, slice_index_or};
ghost use Rattle.pp_terms.specs.disk.Disk.{History};
ghost use Rattle.pp_traffic.specs.Keeping.{StoodThroughout};
ghost use Rattle.pp_traffic.specs.Meter.{lets_send};
ghost use Rattle.pp_promises.specs.Served.{ServesBut};
ghost use Rattle.pp_recorded.specs.Entries.{past};

use crate::clauses::Clause;
use crate::duties::Duty;
use crate::ends::fails_few;
use pp_recorded::entry::Entry;
use pp_tree::Descriptor;

/// Whether at the end of every turn, but so many, at most so many chunks were left owed on each plain channel that may be
/// served. `stood` says of each chunk whether it stood on the disk from the start; past its end none did.
pub fn serves_but<'m>(
    refusals: u64,
    descriptor: &Descriptor,
    stood: &[bool],
    entries: &'m [Entry<'m>],
) -> bool
    ensures { (h : History) → ((i : ℕ) → (slice_index_or stood.now i false ≡ true) ↔ StoodThroughout descriptor.now h i)
        → IsTrue result ↔ ServesBut refusals descriptor.now (lets_send descriptor.now.chunk) h (past entries.now) }
{
    fails_few(
        Clause::Each(Duty::Serves(refusals, stood)),
        refusals,
        descriptor,
        entries,
    )
}
