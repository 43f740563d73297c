//! The turns of a recorded list (RFC 7574, sections 8 and 8.4).

ghost use Rattle.std.specs.Prelude.{◌≡◌, ◌≤◌, length, if◌then◌else◌, ◌+◌};
ghost use Rattle.pp_traffic.specs.Turns.{in_turns, is_closing};
ghost use Rattle.pp_traffic.specs.Past.{is_event};
ghost use Rattle.pp_promises.specs.LastTurn.{earlier};
ghost use Rattle.pp_recorded.specs.Entries.{past, record_of};
ghost use Rattle.pp_audit.specs.Ends.{turn_start};

use pp_recorded::entry::{Entry, is_event};
use pp_recorded::marks::is_closing;
use pp_tree::Descriptor;

// How many entries the turns have, once the entry at a place is read.
fn end_after<'m>(descriptor: &Descriptor, entry: &'m Entry<'m>, next: usize, end: usize) -> usize
    ensures { result ≡ (if is_closing descriptor.now (record_of entry.now) then end else next) }
{
    if is_closing(descriptor, entry) {
        end
    } else {
        next
    }
}

/// The entries of the turns: without the closing handshakes behind the last one.
pub(crate) fn in_turns<'m>(descriptor: &Descriptor, entries: &'m [Entry<'m>]) -> &'m [Entry<'m>]
    ensures { past result.now ≡ in_turns descriptor.now (past entries.now) }
{
    let mut end = 0;
    for (place, entry) in entries.iter().enumerate() {
        end = end_after(descriptor, entry, place + 1, end);
    }
    &entries[..end]
}

// Where a turn begins whose event is the entry, or the last one before it.
fn start_after<'m>(entry: &'m Entry<'m>, next: usize, start: usize) -> usize
    ensures { result ≡ (if is_event (record_of entry.now) then next else start) }
{
    if is_event(entry) { next } else { start }
}

/// The number of entries up to the event with which the last turn began, 0 where there is none.
pub(crate) fn turn_start<'m>(entries: &'m [Entry<'m>]) -> usize
    ensures start { result ≡ turn_start (past entries.now) }
    ensures within { result ≤ length entries.now }
{
    let mut start = 0;
    for (place, entry) in entries.iter().enumerate() {
        start = start_after(entry, place + 1, start);
    }
    start
}

/// The entries of the turns before the last one.
pub(crate) fn earlier<'m>(entries: &'m [Entry<'m>]) -> &'m [Entry<'m>]
    ensures { past result.now ≡ earlier (past entries.now) }
{
    let start = turn_start(entries);
    if start == 0 {
        &entries[..0]
    } else {
        &entries[..start - 1]
    }
}
