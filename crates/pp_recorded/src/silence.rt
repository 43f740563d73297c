//! Whether a channel is left silent (RFC 7574, section 8.4).

ghost use Rattle.std.specs.Prelude.{◌≡◌, ◌&&◌, ◌||◌, ◌+◌, nat_lt, List, ◌∷◌};
ghost use Rattle.pp_terms.specs.format.Traffic.{Record};
ghost use Rattle.pp_traffic.specs.Past as terms;
ghost use Rattle.pp_promises.specs.Answered.{writes_on, quiet_time, wrote_lately};
ghost use Rattle.pp_recorded.specs.Entries.{past, life_of, record_of};

use crate::entry::{Entry, Life, bytes_of, goes_to};
use crate::reading::first_place;
use crate::records::is_for;
use crate::sorts::{Sort, has_sort};
use crate::timing::now_after;
use pp_tree::Descriptor;

// 120 seconds, in microseconds.
const QUIET_TIME: u64 = 120_000_000;

/// The moment now at the end of the entries.
pub fn now<'m>(entries: &'m [Entry<'m>]) -> u64
    ensures { result ≡ terms.now (past entries.now) }
{
    let mut now = 0;
    for entry in entries {
        now = now_after(now, entry);
    }
    now
}

// Whether the entry is a datagram to the other peer's number, or with this peer's handshake.
fn writes_on<'m>(descriptor: &Descriptor, life: Life, entry: &'m Entry<'m>) -> bool
    ensures { result ≡ writes_on descriptor.now (life_of life) (record_of entry.now) }
{
    let bytes = bytes_of(entry);
    let start = first_place(bytes);
    goes_to(life.address, entry)
        && (is_for(life.remote, bytes)
            || has_sort(Sort::HandshakeOf(life.local), descriptor, bytes, start))
}

// Whether it is, and was sent less than 120 seconds before a moment.
fn writes_at<'m>(
    descriptor: &Descriptor,
    life: Life,
    latest: u64,
    now: u64,
    entry: &'m Entry<'m>,
) -> bool
    ensures { result ≡ (writes_on descriptor.now (life_of life) (record_of entry.now) && nat_lt latest (now + quiet_time)) }
{
    writes_on(descriptor, life, entry) && latest.saturating_sub(now) < QUIET_TIME
}

// Whether one was.
fn wrote_lately<'m>(
    descriptor: &Descriptor,
    life: Life,
    latest: u64,
    entries: &'m [Entry<'m>],
) -> bool
    ensures { result ≡ wrote_lately descriptor.now (life_of life) latest (past entries.now) }
{
    let mut now = 0;
    let mut found = false;
    for entry in entries {
        now = now_after(now, entry);
        found = writes_at(descriptor, life, latest, now, entry) | found;
    }
    found
}

/// Whether one was sent less than 120 seconds ago.
pub fn keeps_up<'m>(descriptor: &Descriptor, life: Life, entries: &'m [Entry<'m>]) -> bool
    ensures { result ≡ wrote_lately descriptor.now (life_of life) (terms.now (past entries.now)) (past entries.now) }
{
    wrote_lately(descriptor, life, now(entries), entries)
}
