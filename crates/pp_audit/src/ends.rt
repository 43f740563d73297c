//! At how many ends of turns something isn't so that is to be.

ghost use Rattle.std.specs.Prelude.{◌≡◌, ◌≤◌, length};
ghost use Rattle.pp_traffic.specs.Turns.{in_turns};
ghost use Rattle.pp_recorded.specs.Entries.{past, record_of};
ghost use Rattle.pp_audit.specs.Ends.{fails_at, failing_before, fails_few};
ghost use Rattle.pp_audit.specs.Clauses.{clause_of};

use crate::clauses::{Clause, is_kept};
use crate::turns::in_turns;
use pp_recorded::entry::{Entry, is_event};
use pp_tree::Descriptor;

// How many turns, one or none, end before the entry so that it isn't.
fn fails_at<'c, 'm>(
    clause: Clause<'c>,
    descriptor: &Descriptor,
    entry: &'m Entry<'m>,
    before: &'m [Entry<'m>],
) -> usize
    ensures count { result ≡ fails_at (clause_of clause.entry descriptor.now) (record_of entry.now) (past before.now) }
    ensures few { result ≤ 1 }
{
    if !is_event(entry) {
        return 0;
    }
    if is_kept(clause, descriptor, before) {
        0
    } else {
        1
    }
}

// How many of the turns but the last do.
fn failing_before<'c, 'm>(
    clause: Clause<'c>,
    descriptor: &Descriptor,
    entries: &'m [Entry<'m>],
) -> usize
    ensures { result ≡ failing_before (clause_of clause.entry descriptor.now) (past entries.now) }
{
    let mut count = 0;
    for (place, entry) in entries.iter().enumerate() {
        count += fails_at(clause, descriptor, entry, &entries[..place]);
    }
    count
}

/// Whether it isn't so at the ends of at most so many turns.
pub(crate) fn fails_few<'c, 'm>(
    clause: Clause<'c>,
    refusals: u64,
    descriptor: &Descriptor,
    entries: &'m [Entry<'m>],
) -> bool
    ensures { result ≡ fails_few refusals (clause_of clause.entry descriptor.now) (in_turns descriptor.now (past entries.now)) }
{
    let turns = in_turns(descriptor, entries);
    let before = failing_before(clause, descriptor, turns) as u64;
    if is_kept(clause, descriptor, turns) {
        before <= refusals
    } else {
        before < refusals
    }
}
