//! Whether a channel was heard in time.

ghost use Rattle.std.specs.Prelude.{◌≡◌, ◌||◌, ◌&&◌, ◌==◌, nat_lt, not, if◌then◌else◌, Some, List, ◌∷◌};
ghost use Rattle.pp_terms.specs.format.Traffic.{Record};
ghost use Rattle.pp_traffic.specs.Past as terms;
ghost use Rattle.pp_traffic.specs.Life as lives;
ghost use Rattle.pp_traffic.specs.Plain as plain;
ghost use Rattle.pp_recorded.specs.Entries.{past, life_of, record_of};

use crate::entry::{Entry, Life, is_event};
use crate::records::comes_on;
use pp_tree::Descriptor;

// Ten seconds, and 180, in microseconds.
const GREETING_TIME: u64 = 10_000_000;

const SILENCE_TIME: u64 = 180_000_000;

/// The moment now behind an entry, by the one before it.
pub fn now_after<'m>(now: u64, entry: &'m Entry<'m>) -> u64
    ensures { (before : List Record) → now ≡ terms.now before → result ≡ terms.now (record_of entry.now ∷ before) }
{
    match *entry {
        Entry::Received { at, .. } | Entry::Quiet { at } => now.max(at),
        Entry::Sent { .. } => now,
    }
}

// The moment at the opening, once the entry at a place is read.
fn opened_after(life: Life, place: usize, now: u64, opened: u64) -> u64
    ensures { result ≡ (if life.opening == place then now else opened) }
{
    if life.opening == place { now } else { opened }
}

// The moment of the latest datagram from the peer on the channel.
fn heard_after<'m>(
    descriptor: &Descriptor,
    life: Life,
    place: usize,
    entry: &'m Entry<'m>,
    now: u64,
    heard: Option<u64>,
) -> Option<u64>
    ensures { result ≡ (if nat_lt life.opening place && lives.comes_on descriptor.now (life_of life) (record_of entry.now)
        then Some now else heard) }
{
    if life.opening < place && comes_on(descriptor, life, entry) {
        Some(now)
    } else {
        heard
    }
}

// Whether it is in time now.
fn is_in_time(opened: u64, heard: Option<u64>, now: u64) -> bool
    ensures { result ≡ plain.is_in_time opened heard now }
{
    match heard {
        None => now.saturating_sub(opened) < GREETING_TIME,
        Some(heard) => now.saturating_sub(heard) < SILENCE_TIME,
    }
}

// Whether it is at the entry at a place, where that is an event behind the opening.
fn is_timely_at<'m>(
    life: Life,
    place: usize,
    entry: &'m Entry<'m>,
    opened: u64,
    heard: Option<u64>,
    now: u64,
) -> bool
    ensures { result ≡ (not (terms.is_event (record_of entry.now) && nat_lt life.opening place) || plain.is_in_time opened heard now) }
{
    !(is_event(entry) && life.opening < place) || is_in_time(opened, heard, now)
}

/// Whether the channel was in time at every event since its opening: less than ten seconds had passed since then where
/// nothing was heard, and less than 180 since the latest datagram from the peer (the times are this profile's).
pub fn is_timely<'m>(descriptor: &Descriptor, life: Life, entries: &'m [Entry<'m>]) -> bool
    ensures { result ≡ plain.is_timely descriptor.now (life_of life) (past entries.now) }
{
    let mut now = 0;
    let mut opened = 0;
    let mut heard = None;
    let mut timely = true;
    for (place, entry) in entries.iter().enumerate() {
        now = now_after(now, entry);
        heard = heard_after(descriptor, life, place, entry, now, heard);
        timely = is_timely_at(life, place, entry, opened, heard, now) & timely;
        opened = opened_after(life, place, now, opened);
    }
    timely
}
