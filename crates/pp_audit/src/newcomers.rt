//! Newcomers, and the replies to them (RFC 7574, section 3.1.1).

ghost use Rattle.std.specs.Prelude.{◌≡◌, nat_le, ◌&&◌};
ghost use Rattle.std.specs.List.{list_any};
ghost use Rattle.pp_traffic.specs.Past.{some_since};
ghost use Rattle.pp_traffic.specs.Plain.{concerns};
ghost use Rattle.pp_traffic.specs.Prompt.{knocks, first_source, knocks_in, knocks_once, lets_in};
ghost use Rattle.pp_promises.specs.Answered.{is_newcomer};
ghost use Rattle.pp_outside.specs.Outside.{address_of};
ghost use Rattle.pp_recorded.specs.Entries.{past, record_of};
ghost use Rattle.pp_recorded.specs.Parts.{all};
ghost use Rattle.pp_audit.specs.Clauses.{lets_in_last};

use crate::turns::turn_start;
use pp_outside::Address;
use pp_recorded::entry::{Entry, bytes_of, comes_from, goes_to};
use pp_recorded::marks::openings;
use pp_recorded::reading::{first_shake, has_handshake};
use pp_recorded::records::{begins, is_fitting, is_for, second_place};
use pp_tree::Descriptor;

// How many channels there are at most.
const MOST_CHANNELS: usize = 64;

// Whether the first message is a handshake that fits, of a source channel other than 0.
#[tactic(auto, using(pp_recorded::proofs::SortLaws::knocks_shake))]
fn knocks(descriptor: &Descriptor, bytes: &[u8]) -> bool
    ensures { result ≡ knocks descriptor.now (all descriptor.now bytes.now) }
{
    match first_shake(descriptor, bytes) {
        Some((source, options)) => is_fitting(descriptor, false, &options) && source != 0,
        None => false,
    }
}

// The source channel of the handshake with which the datagram begins, or 0.
#[tactic(auto, using(pp_recorded::proofs::SortLaws::first_source_shake))]
fn first_source(descriptor: &Descriptor, bytes: &[u8]) -> u32
    ensures { result ≡ first_source (all descriptor.now bytes.now) }
{
    match first_shake(descriptor, bytes) {
        Some((source, _)) => source,
        None => 0,
    }
}

fn knocks_in<'m>(descriptor: &Descriptor, entry: &'m Entry<'m>) -> bool
    ensures { result ≡ knocks_in descriptor.now (record_of entry.now) }
{
    match *entry {
        Entry::Received { bytes, .. } => is_for(0, bytes) && knocks(descriptor, bytes),
        Entry::Quiet { .. } | Entry::Sent { .. } => false,
    }
}

fn knocks_once<'m>(descriptor: &Descriptor, entry: &'m Entry<'m>) -> bool
    ensures { result ≡ knocks_once descriptor.now (record_of entry.now) }
{
    let bytes = bytes_of(entry);
    !has_handshake(descriptor, bytes, second_place(descriptor, bytes))
}

fn is_concerned<'m>(address: Address, entry: &'m Entry<'m>) -> bool
    ensures { result ≡ concerns (address_of address) (record_of entry.now) }
{
    comes_from(address, entry) || goes_to(address, entry)
}

// Whether something came from the address or went to it.
fn is_known<'m>(address: Address, entries: &'m [Entry<'m>]) -> bool
    ensures { result ≡ list_any (concerns (address_of address)) (past entries.now) }
{
    let mut found = false;
    for entry in entries {
        found = is_concerned(address, entry) | found;
    }
    found
}

// Whether the entry is a newcomer's, by those before it.
fn is_newcomer<'m>(descriptor: &Descriptor, entry: &'m Entry<'m>, before: &'m [Entry<'m>]) -> bool
    ensures { result ≡ is_newcomer descriptor.now (record_of entry.now) (past before.now) }
{
    match *entry {
        Entry::Received { from, .. } => {
            knocks_in(descriptor, entry)
                && knocks_once(descriptor, entry)
                && !is_known(from, before)
                && openings(descriptor, before) < MOST_CHANNELS
        }
        Entry::Quiet { .. } | Entry::Sent { .. } => false,
    }
}

// Whether the entry replies to an event.
fn lets_in<'m>(descriptor: &Descriptor, event: &'m Entry<'m>, entry: &'m Entry<'m>) -> bool
    ensures { result ≡ lets_in descriptor.now (record_of event.now) (record_of entry.now) }
{
    match *event {
        Entry::Received { from, bytes, .. } => {
            goes_to(from, entry)
                && is_for(first_source(descriptor, bytes), bytes_of(entry))
                && begins(descriptor, bytes_of(entry))
        }
        Entry::Quiet { .. } | Entry::Sent { .. } => false,
    }
}

// Whether the entry at a place, from another one on, does.
fn is_reply<'m>(
    descriptor: &Descriptor,
    event: &'m Entry<'m>,
    start: usize,
    place: usize,
    entry: &'m Entry<'m>,
) -> bool
    ensures { result ≡ (nat_le start place && lets_in descriptor.now (record_of event.now) (record_of entry.now)) }
{
    start <= place && lets_in(descriptor, event, entry)
}

// Whether some entry from a place on does.
fn some_reply<'m>(
    descriptor: &Descriptor,
    event: &'m Entry<'m>,
    start: usize,
    entries: &'m [Entry<'m>],
) -> bool
    ensures { result ≡ some_since (lets_in descriptor.now (record_of event.now)) start (past entries.now) }
{
    let mut found = false;
    for (place, entry) in entries.iter().enumerate() {
        found = is_reply(descriptor, event, start, place, entry) | found;
    }
    found
}

/// Whether the newcomer of the last turn, if one came, got its reply.
pub(crate) fn lets_in_last<'m>(descriptor: &Descriptor, entries: &'m [Entry<'m>]) -> bool
    ensures { result ≡ lets_in_last descriptor.now (past entries.now) }
{
    let start = turn_start(entries);
    if start == 0 {
        return true;
    }
    let event = &entries[start - 1];
    let before = &entries[..start - 1];
    !is_newcomer(descriptor, event, before) || some_reply(descriptor, event, start, entries)
}
