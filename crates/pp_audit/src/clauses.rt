//! What is to be so at the ends of turns.

ghost use Rattle.std.specs.Prelude.{◌≡◌};
ghost use Rattle.pp_recorded.specs.Entries.{past};
ghost use Rattle.pp_audit.specs.Clauses.{clause_of};

use crate::channels::each_plain;
use crate::duties::Duty;
use crate::newcomers::lets_in_last;
use pp_recorded::entry::Entry;
use pp_tree::Descriptor;

/// What is asked of the entries up to the end of a turn.
#[derive(Clone, Copy)]
pub(crate) enum Clause<'a> {
    /// The newcomer of the last turn got its reply.
    LetsIn,
    /// So it is of each plain channel.
    Each(Duty<'a>),
}

/// Whether it is so.
pub(crate) fn is_kept<'c, 'm>(
    clause: Clause<'c>,
    descriptor: &Descriptor,
    entries: &'m [Entry<'m>],
) -> bool
    ensures { result ≡ clause_of clause.entry descriptor.now (past entries.now) }
{
    match clause {
        Clause::LetsIn => lets_in_last(descriptor, entries),
        Clause::Each(duty) => each_plain(duty, descriptor, entries),
    }
}
