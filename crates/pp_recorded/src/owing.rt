//! Chunks that a peer owes, and those that it announced.

ghost use Rattle.std.specs.Prelude.{◌≡◌, ◌||◌, ◌==◌, ◌≤◌, nat_le, not, false, if◌then◌else◌, length, List, ◌∷◌};
ghost use Rattle.pp_terms.specs.format.Traffic.{Record};
ghost use Rattle.pp_traffic.specs.Asking.{choked};
ghost use Rattle.pp_traffic.specs.Story.{story};
ghost use Rattle.pp_promises.specs.Served as terms;
ghost use Rattle.pp_recorded.specs.Entries.{past, life_of, record_of};
ghost use Rattle.pp_recorded.specs.Parts.{rest};

use crate::asking::is_choked;
use crate::entry::{Entry, Life, bytes_of};
use crate::reading::{first_place, message_at};
use crate::sorts::{Sort, has_sort};
use crate::standing::{asked_after, asked_by, heard_from, said_from};
use pp_options::Options;
use pp_tree::Descriptor;
use pp_wire::{Message, Span};

/// A chunk, and whether requests of it don't count.
#[derive(Clone, Copy)]
pub struct Wanted {
    pub chunk: u64,
    pub is_barred: bool,
}

// Whether the entry is a datagram that was sent and announces the chunk.
#[tactic(auto, using(crate::proofs::SortLaws::announces_any))]
fn announces<'m>(descriptor: &Descriptor, chunk: u64, entry: &'m Entry<'m>) -> bool
    ensures { (before : List Record) → (result || terms.is_announced descriptor.now chunk before) ≡ terms.is_announced descriptor.now chunk (record_of entry.now ∷ before) }
{
    match *entry {
        Entry::Received { .. } | Entry::Quiet { .. } => false,
        Entry::Sent { bytes, .. } => {
            has_sort(Sort::NewsOf(chunk), descriptor, bytes, first_place(bytes))
        }
    }
}

/// Whether the chunk was announced by HAVE or ACK, on whatever channel (RFC 7574, sections 3.2 and 3.3).
pub fn is_announced<'m>(descriptor: &Descriptor, chunk: u64, entries: &'m [Entry<'m>]) -> bool
    ensures { result ≡ terms.is_announced descriptor.now chunk (past entries.now) }
{
    let mut found = false;
    for entry in entries {
        found = announces(descriptor, chunk, entry) | found;
    }
    found
}

// Whether requests of the chunk don't count behind these entries: the peer is choked, or the chunk wasn't announced.
fn is_barred<'m>(descriptor: &Descriptor, life: Life, chunk: u64, entries: &'m [Entry<'m>]) -> bool
    ensures { result ≡ (choked (story descriptor.now (life_of life) (past entries.now)) || not (terms.is_announced descriptor.now chunk (past entries.now))) }
{
    is_choked(descriptor, life, entries) || !is_announced(descriptor, chunk, entries)
}

// Whether the chunk is asked for behind the messages from a place on, which came.
fn heard(descriptor: &Descriptor, wanted: Wanted, bytes: &[u8], start: usize, asked: bool) -> bool
    requires { start ≤ length bytes.now }
    ensures { result ≡ terms.asked_after_heard wanted.chunk wanted.is_barred (rest descriptor.now bytes.now start) asked }
{
    let mut asked = asked;
    let mut at = start;
    'messages: while let Some((message, next)) = message_at(descriptor, bytes, at) {
        asked = asked_by(wanted.chunk, wanted.is_barred, &message, asked);
        at = next;
    }
    asked
}

// Behind those that were sent.
fn said(descriptor: &Descriptor, chunk: u64, bytes: &[u8], start: usize, asked: bool) -> bool
    requires { start ≤ length bytes.now }
    ensures { result ≡ terms.asked_after_said chunk (rest descriptor.now bytes.now start) asked }
{
    let mut asked = asked;
    let mut at = start;
    'messages: while let Some((message, next)) = message_at(descriptor, bytes, at) {
        asked = asked_after(chunk, &message, asked);
        at = next;
    }
    asked
}

// Whether the chunk is owed behind the entry at a place of the channel.
fn owed_after<'m>(
    descriptor: &Descriptor,
    life: Life,
    wanted: Wanted,
    place: usize,
    entry: &'m Entry<'m>,
    owed: bool,
) -> bool
    ensures { result ≡ terms.owed_after descriptor.now (life_of life) wanted.chunk (life.opening == place) wanted.is_barred (record_of entry.now) owed }
{
    let bytes = bytes_of(entry);
    match *entry {
        Entry::Received { .. } => {
            let start = heard_from(descriptor, life, life.opening == place, entry);
            heard(descriptor, wanted, bytes, start, owed)
        }
        Entry::Quiet { .. } => owed,
        Entry::Sent { .. } => {
            let start = said_from(descriptor, life, entry);
            said(descriptor, wanted.chunk, bytes, start, owed)
        }
    }
}

// And whether the entry is of the channel.
fn owed_at<'m>(
    descriptor: &Descriptor,
    life: Life,
    wanted: Wanted,
    place: usize,
    entry: &'m Entry<'m>,
    owed: bool,
) -> bool
    ensures { result ≡ (if nat_le life.opening place
        then terms.owed_after descriptor.now (life_of life) wanted.chunk (life.opening == place) wanted.is_barred (record_of entry.now) owed
        else false) }
{
    if life.opening <= place {
        owed_after(descriptor, life, wanted, place, entry, owed)
    } else {
        false
    }
}

/// Whether the chunk is asked for by a REQUEST before which it was announced (RFC 7574, sections 3.7 to 3.9).
pub fn is_owed<'m>(
    descriptor: &Descriptor,
    life: Life,
    chunk: u64,
    entries: &'m [Entry<'m>],
) -> bool
    ensures { result ≡ terms.is_owed descriptor.now (life_of life) chunk (past entries.now) }
{
    let mut owed = false;
    for (place, entry) in entries.iter().enumerate() {
        let wanted = Wanted {
            chunk,
            is_barred: is_barred(descriptor, life, chunk, &entries[..place]),
        };
        owed = owed_at(descriptor, life, wanted, place, entry, owed);
    }
    owed
}
