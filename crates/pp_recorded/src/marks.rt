//! What single entries are to a whole traffic, and how many are so.

ghost use Rattle.std.specs.Prelude.{◌≡◌, ◌≤◌, length, count_by};
ghost use Rattle.std.specs.List.{list_any};
ghost use Rattle.pp_traffic.specs.Committed.{requests};
ghost use Rattle.pp_traffic.specs.Turns.{is_closing};
ghost use Rattle.pp_promises.specs.Announced.{came_in};
ghost use Rattle.pp_promises.specs.Answered.{opens, chokes};
ghost use Rattle.pp_promises.specs.Asked.{asks_for};
ghost use Rattle.pp_recorded.specs.Entries.{past, record_of};
ghost use Rattle.pp_recorded.specs.Sorts.{mark_of};

use crate::entry::{Entry, bytes_of};
use crate::reading::{closes, first_place};
use crate::records::is_for;
use crate::sorts::{Sort, has_sort};
use pp_tree::Descriptor;

/// What an entry can be.
#[derive(Clone, Copy)]
pub enum Mark {
    /// A datagram for channel 0 with a handshake, which came or was sent.
    Opens,
    /// One that was sent with a CHOKE.
    Chokes,
    /// With a REQUEST.
    Requests,
    /// With a closing handshake.
    Closes,
    /// With a REQUEST of a chunk.
    AsksFor(u64),
    /// A chunk came with it.
    Brings(u64),
}

fn opens<'m>(descriptor: &Descriptor, entry: &'m Entry<'m>) -> bool
    ensures { result ≡ opens descriptor.now (record_of entry.now) }
{
    let bytes = bytes_of(entry);
    is_for(0, bytes) && has_sort(Sort::Handshake, descriptor, bytes, first_place(bytes))
}

fn chokes<'m>(descriptor: &Descriptor, entry: &'m Entry<'m>) -> bool
    ensures { result ≡ chokes descriptor.now (record_of entry.now) }
{
    match *entry {
        Entry::Received { .. } | Entry::Quiet { .. } => false,
        Entry::Sent { bytes, .. } => has_sort(Sort::Choke, descriptor, bytes, first_place(bytes)),
    }
}

#[tactic(auto, using(crate::proofs::SortLaws::has_request_any))]
fn requests<'m>(descriptor: &Descriptor, entry: &'m Entry<'m>) -> bool
    ensures { result ≡ requests descriptor.now (record_of entry.now) }
{
    match *entry {
        Entry::Received { .. } | Entry::Quiet { .. } => false,
        Entry::Sent { bytes, .. } => has_sort(Sort::Request, descriptor, bytes, first_place(bytes)),
    }
}

/// Whether it was sent with a closing handshake.
pub fn is_closing<'m>(descriptor: &Descriptor, entry: &'m Entry<'m>) -> bool
    ensures { result ≡ is_closing descriptor.now (record_of entry.now) }
{
    match *entry {
        Entry::Received { .. } | Entry::Quiet { .. } => false,
        Entry::Sent { bytes, .. } => closes(descriptor, bytes),
    }
}

fn asks_for<'m>(descriptor: &Descriptor, chunk: u64, entry: &'m Entry<'m>) -> bool
    ensures { result ≡ asks_for descriptor.now chunk (record_of entry.now) }
{
    match *entry {
        Entry::Received { .. } | Entry::Quiet { .. } => false,
        Entry::Sent { bytes, .. } => {
            has_sort(
                Sort::RequestOf(chunk),
                descriptor,
                bytes,
                first_place(bytes),
            )
        }
    }
}

fn brings<'m>(descriptor: &Descriptor, chunk: u64, entry: &'m Entry<'m>) -> bool
    ensures { result ≡ came_in descriptor.now chunk (record_of entry.now) }
{
    match *entry {
        Entry::Quiet { .. } | Entry::Sent { .. } => false,
        Entry::Received { bytes, .. } => {
            has_sort(Sort::DataOf(chunk), descriptor, bytes, first_place(bytes))
        }
    }
}

// Whether the entry is so.
fn is_marked<'m>(mark: Mark, descriptor: &Descriptor, entry: &'m Entry<'m>) -> bool
    ensures { result ≡ mark_of mark descriptor.now (record_of entry.now) }
{
    match mark {
        Mark::Opens => opens(descriptor, entry),
        Mark::Chokes => chokes(descriptor, entry),
        Mark::Requests => requests(descriptor, entry),
        Mark::Closes => is_closing(descriptor, entry),
        Mark::AsksFor(chunk) => asks_for(descriptor, chunk, entry),
        Mark::Brings(chunk) => brings(descriptor, chunk, entry),
    }
}

/// Whether some entry is so.
pub fn some_marked<'m>(mark: Mark, descriptor: &Descriptor, entries: &'m [Entry<'m>]) -> bool
    ensures { result ≡ list_any (mark_of mark descriptor.now) (past entries.now) }
{
    let mut found = false;
    for entry in entries {
        found = is_marked(mark, descriptor, entry) | found;
    }
    found
}

/// How many entries open a channel, or reply to one that opens.
pub fn openings<'m>(descriptor: &Descriptor, entries: &'m [Entry<'m>]) -> usize
    ensures count { result ≡ count_by (opens descriptor.now) (past entries.now) }
    ensures few { result ≤ length entries.now }
{
    let mut count = 0;
    for entry in entries {
        if opens(descriptor, entry) {
            count += 1;
        }
    }
    count
}
