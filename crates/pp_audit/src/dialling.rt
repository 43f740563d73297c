//! Whether a peer that fetches dials what it was given (RFC 7574, section 3.1.1).

ghost use Rattle.std.specs.Prelude.{◌≡◌, ◌↔◌, ◌≤◌, nat_lt, if◌then◌else◌, IsTrue, length, map};
ghost use Rattle.std.specs.List.{list_any};
ghost use Rattle.pp_terms.specs.format.Traffic.{same_address};
ghost use Rattle.pp_traffic.specs.Past as terms;
ghost use Rattle.pp_traffic.specs.Past.{is_event};
ghost use Rattle.pp_promises.specs.LastTurn.{first_turn};
ghost use Rattle.pp_promises.specs.Asked.{dials, DialsBut};
ghost use Rattle.pp_outside.specs.Outside.{address_of};
ghost use Rattle.pp_recorded.specs.Entries.{past, record_of};
ghost use Rattle.pp_audit.specs.Dials.{missed, misses};

use crate::turns::in_turns;
use pp_outside::Address;
use pp_recorded::entry::{Entry, bytes_of, comes_from, goes_to, is_event};
use pp_recorded::reading::first_place;
use pp_recorded::records::is_for;
use pp_recorded::sorts::{Sort, has_sort};
use pp_tree::Descriptor;

// Whether the entry is a handshake for channel 0 that was sent to the address.
fn dials<'m>(descriptor: &Descriptor, address: Address, entry: &'m Entry<'m>) -> bool
    ensures { result ≡ dials descriptor.now (address_of address) (record_of entry.now) }
{
    let bytes = bytes_of(entry);
    let start = first_place(bytes);
    goes_to(address, entry)
        && is_for(0, bytes)
        && has_sort(Sort::Handshake, descriptor, bytes, start)
}

// Whether some entry is.
fn is_dialled<'m>(descriptor: &Descriptor, address: Address, entries: &'m [Entry<'m>]) -> bool
    ensures { result ≡ list_any (dials descriptor.now (address_of address)) (past entries.now) }
{
    let mut found = false;
    for entry in entries {
        found = dials(descriptor, address, entry) | found;
    }
    found
}

// Whether something came from the address.
fn wrote<'m>(address: Address, entries: &'m [Entry<'m>]) -> bool
    ensures { result ≡ list_any (terms.comes_from (address_of address)) (past entries.now) }
{
    let mut found = false;
    for entry in entries {
        found = comes_from(address, entry) | found;
    }
    found
}

// Whether neither is so.
fn is_missed<'m>(descriptor: &Descriptor, address: Address, entries: &'m [Entry<'m>]) -> bool
    ensures { result ≡ missed descriptor.now (past entries.now) (address_of address) }
{
    !is_dialled(descriptor, address, entries) && !wrote(address, entries)
}

// Whether the address is one of these.
fn is_among(address: Address, addresses: &[Address]) -> bool
    ensures { result ≡ list_any (same_address (address_of address)) (map address_of addresses.now) }
{
    let mut found = false;
    for other in addresses {
        found = address.is_same(*other) | found;
    }
    found
}

// How many addresses were missed, each counted once.
fn misses<'m>(descriptor: &Descriptor, addresses: &[Address], entries: &'m [Entry<'m>]) -> usize
    ensures { result ≡ length (misses descriptor.now (past entries.now) (map address_of addresses.now)) }
{
    let mut count = 0;
    let mut rest = addresses;
    'addresses: while let Some((first, others)) = rest.split_first() {
        if is_missed(descriptor, *first, entries) && !is_among(*first, others) {
            count += 1;
        }
        rest = others;
    }
    count
}

// How many events the entry is, one or none.
fn events_in<'m>(entry: &'m Entry<'m>) -> usize
    ensures count { result ≡ (if is_event (record_of entry.now) then 1 else 0) }
    ensures few { result ≤ 1 }
{
    if is_event(entry) { 1 } else { 0 }
}

// Where the first turn ends, once an entry is read with which there were so many events.
fn turn_after(events: usize, next: usize, end: usize) -> usize
    ensures { result ≡ (if nat_lt 1 events then end else next) }
{
    if events > 1 { end } else { next }
}

// The entries up to the end of the first turn.
fn first_turn<'m>(entries: &'m [Entry<'m>]) -> &'m [Entry<'m>]
    ensures { past result.now ≡ first_turn (past entries.now) }
{
    let mut events = 0;
    let mut end = 0;
    for (place, entry) in entries.iter().enumerate() {
        events += events_in(entry);
        end = turn_after(events, place + 1, end);
    }
    &entries[..end]
}

/// Whether in the first turn all of these addresses were dialled, but so many, and but the one from which its datagram came
/// (RFC 7574, section 3.1.1).
pub fn dials_but<'m>(
    refusals: u64,
    descriptor: &Descriptor,
    addresses: &[Address],
    entries: &'m [Entry<'m>],
) -> bool
    ensures { IsTrue result ↔ DialsBut refusals descriptor.now (map address_of addresses.now) (past entries.now) }
{
    let first = first_turn(in_turns(descriptor, entries));
    misses(descriptor, addresses, first) as u64 <= refusals
}
