//! What every datagram is that was sent (RFC 7574, sections 3.7, 8.3 and 8.4).

ghost use Rattle.std.specs.Prelude.{◌≡◌, ◌↔◌, ◌≤◌, ◌<◌, IsTrue, MatchOption, None, is_none, length};
ghost use Rattle.std.specs.List.{AllByRecursion};
ghost use Rattle.pp_terms.specs.format.Messages as messages;
ghost use Rattle.pp_traffic.specs.Committed.{RequestsNone};
ghost use Rattle.pp_traffic.specs.Turns.{ClosesLast};
ghost use Rattle.pp_promises.specs.Datagrams.{IsWhole};
ghost use Rattle.pp_recorded.specs.Entries.{past, record_of};
ghost use Rattle.pp_recorded.specs.Faults.{fault_from, PassesTo, is_whole};

use crate::turns::in_turns;
use pp_options::Options;
use pp_recorded::entry::Entry;
use pp_recorded::marks::{Mark, some_marked};
use pp_recorded::reading::{channel_of, first_place};
use pp_tree::Descriptor;
use pp_wire::{Message, Span, Step, next};

// How many bytes a datagram has at most.
const MOST_BYTES: usize = 16_384;

// The place behind the message at a place, none before a fault.
fn next_place(descriptor: &Descriptor, bytes: &[u8], at: usize) -> Option<usize>
    requires { at < length bytes.now }
    ensures { MatchOption result (fault_from descriptor.now bytes.now at ≡ None → ⊥) (λ next. PassesTo descriptor.now bytes.now at next) }
{
    match next(bytes, at, descriptor.method(), descriptor.chunk()) {
        Step::Message { next, .. } => Some(next),
        Step::End => None,
        Step::Cut(_) => None,
    }
}

// Whether a datagram is read to its end.
fn is_read_to_end(descriptor: &Descriptor, bytes: &[u8]) -> bool
    ensures { result ≡ is_none (messages.datagram descriptor.now.method descriptor.now.chunk bytes.now).messages.fault }
{
    let mut at = first_place(bytes);
    'messages: while at < bytes.len() {
        match next_place(descriptor, bytes, at) {
            Some(next) => at = next,
            None => return false,
        }
    }
    true
}

// Whether the entry is a whole datagram, where it was sent.
fn is_whole<'m>(descriptor: &Descriptor, entry: &'m Entry<'m>) -> bool
    ensures { result ≡ is_whole descriptor.now (record_of entry.now) }
{
    match *entry {
        Entry::Received { .. } | Entry::Quiet { .. } => true,
        Entry::Sent { bytes, .. } => {
            channel_of(bytes).is_some()
                && bytes.len() <= MOST_BYTES
                && is_read_to_end(descriptor, bytes)
        }
    }
}

/// Whether every datagram that was sent has a channel number and at most 16,384 bytes, and is read to its end (RFC 7574,
/// sections 3 and 8.3).
pub fn are_whole<'m>(descriptor: &Descriptor, entries: &'m [Entry<'m>]) -> bool
    ensures { IsTrue result ↔ AllByRecursion (IsWhole descriptor.now) (past entries.now) }
{
    let mut whole = true;
    for entry in entries {
        whole = is_whole(descriptor, entry) & whole;
    }
    whole
}

/// Whether no REQUEST was sent (RFC 7574, section 3.7).
pub fn requests_none<'m>(descriptor: &Descriptor, entries: &'m [Entry<'m>]) -> bool
    ensures { IsTrue result ↔ RequestsNone descriptor.now (past entries.now) }
{
    !some_marked(Mark::Requests, descriptor, entries)
}

/// Whether channels are closed behind the last turn alone (RFC 7574, section 8.4).
pub fn closes_last<'m>(descriptor: &Descriptor, entries: &'m [Entry<'m>]) -> bool
    ensures { IsTrue result ↔ ClosesLast descriptor.now (past entries.now) }
{
    !some_marked(Mark::Closes, descriptor, in_turns(descriptor, entries))
}
