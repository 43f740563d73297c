//! What a channel's peer offers, and whether it was asked for (RFC 7574, sections 3.2, 3.7 and 3.9).

ghost use Rattle.std.specs.Prelude.{◌≡◌, ◌==◌, ◌||◌, ◌&&◌, ◌≤◌, ◌+◌, nat_le, nat_lt, not, if◌then◌else◌, false, length, slice_index_or};
ghost use Rattle.std.specs.List.{list_any};
ghost use Rattle.pp_terms.specs.format.Descriptor.{chunks_of};
ghost use Rattle.pp_traffic.specs.Past as traffic;
ghost use Rattle.pp_traffic.specs.Story.{story, said_in};
ghost use Rattle.pp_promises.specs.OwnSide as own;
ghost use Rattle.pp_promises.specs.Asked as asked;
ghost use Rattle.pp_wire.specs.Views.{message_of};
ghost use Rattle.pp_recorded.specs.Entries.{past, life_of, record_of};
ghost use Rattle.pp_recorded.specs.Parts.{rest};
ghost use Rattle.pp_recorded.specs.Sorts.{sort_of, is_request};
ghost use Rattle.pp_recorded.specs.Offers as terms;

use crate::debts::stands;
use pp_options::Options;
use pp_recorded::asking::is_heard;
use pp_recorded::entry::{Entry, Life, bytes_of};
use pp_recorded::marks::{Mark, some_marked};
use pp_recorded::reading::{message_at, nowhere};
use pp_recorded::said::{has_said, says};
use pp_recorded::silence::now;
use pp_recorded::sorts::{Sort, has_sort};
use pp_recorded::standing::{choked_by, heard_from};
use pp_recorded::timing::now_after;
use pp_tree::Descriptor;
use pp_wire::{Message, Span};

// Ten seconds, in microseconds.
const WAITING_TIME: u64 = 10_000_000;

// How many chunks may be asked for on a channel at once.
const MOST_OUTSTANDING: u32 = 32;

// Whether the entry at a place brought a message of a sort on the channel.
fn brings<'m>(
    sort: Sort,
    descriptor: &Descriptor,
    life: Life,
    place: usize,
    entry: &'m Entry<'m>,
) -> bool
    ensures { result ≡ list_any (sort_of sort) (terms.brought descriptor.now (life_of life) (life.opening == place) (record_of entry.now)) }
{
    match *entry {
        Entry::Received { bytes, .. } => {
            let start = heard_from(descriptor, life, life.opening == place, entry);
            has_sort(sort, descriptor, bytes, start)
        }
        Entry::Quiet { .. } | Entry::Sent { .. } => false,
    }
}

// And whether that isn't before the opening.
fn brings_at<'m>(
    sort: Sort,
    descriptor: &Descriptor,
    life: Life,
    place: usize,
    entry: &'m Entry<'m>,
) -> bool
    ensures { result ≡ (nat_le life.opening place
        && list_any (sort_of sort) (terms.brought descriptor.now (life_of life) (life.opening == place) (record_of entry.now))) }
{
    life.opening <= place && brings(sort, descriptor, life, place, entry)
}

// Whether a message of the sort came on the channel.
fn has_heard<'m>(sort: Sort, descriptor: &Descriptor, life: Life, entries: &'m [Entry<'m>]) -> bool
    ensures { result ≡ terms.has_heard (sort_of sort) descriptor.now (life_of life) (past entries.now) }
{
    let mut found = false;
    for (place, entry) in entries.iter().enumerate() {
        found = brings_at(sort, descriptor, life, place, entry) | found;
    }
    found
}

// Whether the peer has told by HAVE that it has the chunk.
#[tactic(auto, using(pp_recorded::proofs::Offerings::offered_heard))]
fn is_offered<'m>(descriptor: &Descriptor, life: Life, entries: &'m [Entry<'m>], chunk: u64) -> bool
    ensures { result ≡ own.is_offered chunk (story descriptor.now (life_of life) (past entries.now)) }
{
    has_heard(Sort::HaveOf(chunk), descriptor, life, entries)
}

// Whether the peer chokes behind the messages from a place of a datagram on.
fn chokes_from(descriptor: &Descriptor, bytes: &[u8], start: usize, choked: bool) -> bool
    requires { start ≤ length bytes.now }
    ensures { result ≡ terms.chokes_after (rest descriptor.now bytes.now start) choked }
{
    let mut choked = choked;
    let mut at = start;
    'messages: while let Some((message, next)) = message_at(descriptor, bytes, at) {
        choked = choked_by(&message, choked);
        at = next;
    }
    choked
}

// Behind the entry at a place.
fn chokes_after<'m>(
    descriptor: &Descriptor,
    life: Life,
    place: usize,
    entry: &'m Entry<'m>,
    choked: bool,
) -> bool
    ensures { result ≡ terms.chokes_after (terms.brought descriptor.now (life_of life) (life.opening == place) (record_of entry.now)) choked }
{
    match *entry {
        Entry::Received { bytes, .. } => {
            let start = heard_from(descriptor, life, life.opening == place, entry);
            chokes_from(descriptor, bytes, start, choked)
        }
        Entry::Quiet { .. } | Entry::Sent { .. } => choked,
    }
}

// Where that is of the channel.
fn chokes_at<'m>(
    descriptor: &Descriptor,
    life: Life,
    place: usize,
    entry: &'m Entry<'m>,
    choked: bool,
) -> bool
    ensures { result ≡ (if nat_le life.opening place
        then terms.chokes_after (terms.brought descriptor.now (life_of life) (life.opening == place) (record_of entry.now)) choked else false) }
{
    if life.opening <= place {
        chokes_after(descriptor, life, place, entry, choked)
    } else {
        false
    }
}

// Whether the peer sent a CHOKE, and no UNCHOKE since.
#[tactic(auto, using(pp_recorded::proofs::Offerings::chokes_heard))]
fn is_choked_by_peer<'m>(descriptor: &Descriptor, life: Life, entries: &'m [Entry<'m>]) -> bool
    ensures { result ≡ own.is_choked_by_peer (story descriptor.now (life_of life) (past entries.now)) }
{
    let mut choked = false;
    for (place, entry) in entries.iter().enumerate() {
        choked = chokes_at(descriptor, life, place, entry, choked);
    }
    choked
}

// Whether the entry at a place sent a REQUEST on the channel, ten seconds or longer before a moment.
fn asks_long<'m>(
    descriptor: &Descriptor,
    life: Life,
    place: usize,
    entry: &'m Entry<'m>,
    now: u64,
    latest: u64,
) -> bool
    ensures { result ≡ (nat_le life.opening place
        && (list_any is_request (said_in descriptor.now (life_of life) (record_of entry.now)) && nat_le (now + own.waiting_time) latest)) }
{
    life.opening <= place
        && says(Sort::Request, descriptor, life, entry)
        && latest >= WAITING_TIME
        && now <= latest - WAITING_TIME
}

// Whether one was sent so long ago.
#[tactic(auto, using(pp_recorded::proofs::Offerings::asked_long_ago))]
fn has_old_request<'m>(descriptor: &Descriptor, life: Life, entries: &'m [Entry<'m>]) -> bool
    ensures { result ≡ own.has_old_request (traffic.now (past entries.now)) (story descriptor.now (life_of life) (past entries.now)) }
{
    let latest = now(entries);
    let mut now = 0;
    let mut found = false;
    for (place, entry) in entries.iter().enumerate() {
        now = now_after(now, entry);
        found = asks_long(descriptor, life, place, entry, now, latest) | found;
    }
    found
}

// How many chunks, one or none, a REQUEST on the channel names.
#[tactic(auto, using(pp_recorded::proofs::Sayings::named_said))]
fn named_at<'m>(descriptor: &Descriptor, life: Life, entries: &'m [Entry<'m>], chunk: u32) -> u32
    ensures count { result ≡ (if own.is_named chunk (story descriptor.now (life_of life) (past entries.now)) then 1 else 0) }
    ensures few { result ≤ 1 }
{
    if has_said(Sort::RequestOf(u64::from(chunk)), descriptor, life, entries) {
        1
    } else {
        0
    }
}

// How many chunks of the content they name.
fn named_count<'m>(descriptor: &Descriptor, life: Life, entries: &'m [Entry<'m>]) -> u32
    ensures { result ≡ asked.named_count (chunks_of descriptor.now) (story descriptor.now (life_of life) (past entries.now)) }
{
    let mut count = 0;
    for chunk in 0..descriptor.chunks() {
        count += named_at(descriptor, life, entries, chunk);
    }
    count
}

/// Whether the channel may be asked for more, where it is plain: something came, the peer doesn't choke, no request is ten
/// seconds old, and the requests name fewer than 32 chunks.
pub(crate) fn may_be_asked<'m>(
    descriptor: &Descriptor,
    life: Life,
    entries: &'m [Entry<'m>],
) -> bool
    ensures { result ≡ terms.may_be_asked descriptor.now (past entries.now) (life_of life) }
{
    is_heard(descriptor, life, entries)
        && !is_choked_by_peer(descriptor, life, entries)
        && !has_old_request(descriptor, life, entries)
        && named_count(descriptor, life, entries) < MOST_OUTSTANDING
}

// Whether the chunk was asked for on some channel or is held, where the peer offers it.
fn is_asked_for<'m>(
    held: &[bool],
    descriptor: &Descriptor,
    life: Life,
    entries: &'m [Entry<'m>],
    chunk: u32,
) -> bool
    ensures { result ≡ terms.is_asked_for held.now descriptor.now (past entries.now) (life_of life) chunk }
{
    let chunk = u64::from(chunk);
    !is_offered(descriptor, life, entries, chunk)
        || some_marked(Mark::AsksFor(chunk), descriptor, entries)
        || stands(held, chunk)
}

/// Whether each chunk was that it offers.
pub(crate) fn asks_offered<'m>(
    held: &[bool],
    descriptor: &Descriptor,
    life: Life,
    entries: &'m [Entry<'m>],
) -> bool
    ensures { result ≡ terms.asks_offered held.now descriptor.now (past entries.now) (life_of life) }
{
    let mut all = true;
    for chunk in 0..descriptor.chunks() {
        all = is_asked_for(held, descriptor, life, entries, chunk) & all;
    }
    all
}
