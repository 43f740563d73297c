//! Whether a peer answers: it lets newcomers in, chokes nobody without need, and leaves no channel silent (RFC 7574, sections
//! 3.1.1, 3.9 and 8.4).

ghost use Rattle.std.specs.Prelude.{◌↔◌, ◌≤◌, ◌+◌, IsTrue};
ghost use Rattle.pp_promises.specs.Answered.{LetsInBut, ChokesNone, slots, KeepsUpBut};
ghost use Rattle.pp_recorded.specs.Entries.{past};

use crate::clauses::Clause;
use crate::duties::Duty;
use crate::ends::fails_few;
use pp_recorded::entry::Entry;
use pp_recorded::marks::{Mark, openings, some_marked};
use pp_tree::Descriptor;

// How many peers may be served at once.
const SLOTS: u64 = 8;

/// Whether each newcomer got a reply in its turn, but for so many of them (RFC 7574, section 3.1.1).
pub fn lets_in_but<'m>(refusals: u64, descriptor: &Descriptor, entries: &'m [Entry<'m>]) -> bool
    ensures { IsTrue result ↔ LetsInBut refusals descriptor.now (past entries.now) }
{
    fails_few(Clause::LetsIn, refusals, descriptor, entries)
}

// Whether that many openings, and what was refused, are at most as many as there are slots.
fn has_slots(openings: usize, refusals: u64) -> bool
    ensures { IsTrue result ↔ (openings + refusals ≤ slots) }
{
    refusals <= SLOTS && openings as u64 <= SLOTS - refusals
}

/// Whether no CHOKE was sent, or the openings and what was refused are more than eight (RFC 7574, section 3.9).
pub fn chokes_none<'m>(refusals: u64, descriptor: &Descriptor, entries: &'m [Entry<'m>]) -> bool
    ensures { IsTrue result ↔ ChokesNone refusals descriptor.now (past entries.now) }
{
    !has_slots(openings(descriptor, entries), refusals)
        || !some_marked(Mark::Chokes, descriptor, entries)
}

/// Whether at the end of every turn, but so many, each plain channel had been written to less than 120 seconds before (RFC
/// 7574, section 8.4; the time is this profile's).
pub fn keeps_up_but<'m>(refusals: u64, descriptor: &Descriptor, entries: &'m [Entry<'m>]) -> bool
    ensures { IsTrue result ↔ KeepsUpBut refusals descriptor.now (past entries.now) }
{
    fails_few(Clause::Each(Duty::KeepsUp), refusals, descriptor, entries)
}
