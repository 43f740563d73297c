//! Which channels are open, and what is so of some entry of a recorded list.

ghost use Rattle.std.specs.Prelude.{◌≡◌, ◌↔◌, ◌||◌, ◌&&◌, ◌==◌, nat_le, nat_lt, not, IsTrue};
ghost use Rattle.pp_traffic.specs.Past as terms;
ghost use Rattle.pp_traffic.specs.Life as lives;
ghost use Rattle.pp_recorded.specs.Entries.{past, life_of, record_of};
ghost use Rattle.pp_recorded.specs.Tests as tests;
ghost use Rattle.pp_recorded.specs.Tests.{test_of};

use crate::entry::{Entry, Life};
use crate::records::{Kind, answers, greets, is_kind};
use pp_tree::Descriptor;

/// Whether the entry at a place, from another one on, is of that kind.
pub fn is_since<'m>(
    kind: Kind,
    descriptor: &Descriptor,
    life: Life,
    from: usize,
    place: usize,
    entry: &'m Entry<'m>,
) -> bool
    ensures { result ≡ (nat_le from place && test_of kind descriptor.now (life_of life) (record_of entry.now)) }
{
    from <= place && is_kind(kind, descriptor, life, entry)
}

/// Whether an entry from a place on is of that kind to the channel.
pub fn some_since<'m>(
    kind: Kind,
    descriptor: &Descriptor,
    life: Life,
    from: usize,
    entries: &'m [Entry<'m>],
) -> bool
    ensures { result ≡ terms.some_since (test_of kind descriptor.now (life_of life)) from (past entries.now) }
{
    let mut found = false;
    for (place, entry) in entries.iter().enumerate() {
        found = is_since(kind, descriptor, life, from, place, entry) | found;
    }
    found
}

/// Whether the entry at a place is one of the channel's two first handshakes, and that place its opening.
pub fn is_opening<'m>(
    descriptor: &Descriptor,
    life: Life,
    place: usize,
    entry: &'m Entry<'m>,
) -> bool
    ensures { result ≡ (life.opening == place && (lives.greets descriptor.now (life_of life) (record_of entry.now)
        || lives.answers descriptor.now (life_of life) (record_of entry.now))) }
{
    life.opening == place && (greets(descriptor, life, entry) || answers(descriptor, life, entry))
}

// Whether the channel opens where it is said to.
fn is_opened<'m>(descriptor: &Descriptor, life: Life, entries: &'m [Entry<'m>]) -> bool
    ensures { result ≡ terms.is_at (λ r. lives.greets descriptor.now (life_of life) r || lives.answers descriptor.now (life_of life) r)
        life.opening (past entries.now) }
{
    let mut opened = false;
    for (place, entry) in entries.iter().enumerate() {
        opened = is_opening(descriptor, life, place, entry) | opened;
    }
    opened
}

/// Whether the entry at a place closes the channel, by whether a handshake of the peer came on it before.
pub fn is_closing<'m>(
    descriptor: &Descriptor,
    life: Life,
    place: usize,
    entry: &'m Entry<'m>,
    shaken: bool,
) -> bool
    ensures { result ≡ (nat_lt life.opening place && lives.closes_on descriptor.now (life_of life) (record_of entry.now)
        && (not life.is_dialled || lives.shakes_on descriptor.now (life_of life) (record_of entry.now) || shaken)) }
{
    life.opening < place
        && is_kind(Kind::ClosesOn, descriptor, life, entry)
        && (!life.is_dialled || is_kind(Kind::ShakesOn, descriptor, life, entry) || shaken)
}

// Whether the channel was closed.
fn is_closed<'m>(descriptor: &Descriptor, life: Life, entries: &'m [Entry<'m>]) -> bool
    ensures { result ≡ lives.is_closed descriptor.now (life_of life) (past entries.now) }
{
    let mut shaken = false;
    let mut closed = false;
    for (place, entry) in entries.iter().enumerate() {
        closed = is_closing(descriptor, life, place, entry, shaken) | closed;
        shaken = is_since(Kind::ShakesOn, descriptor, life, life.opening, place, entry) | shaken;
    }
    closed
}

/// Whether the channel is open at the end of the entries (RFC 7574, sections 3.1.1 and 8.2 to 8.4).
pub fn is_life<'m>(descriptor: &Descriptor, life: Life, entries: &'m [Entry<'m>]) -> bool
    ensures test { result ≡ tests.is_life descriptor.now (life_of life) (past entries.now) }
    ensures exact { IsTrue result ↔ lives.IsLife descriptor.now (life_of life) (past entries.now) }
{
    life.local > 0
        && life.remote > 0
        && some_since(Kind::Greets, descriptor, life, life.opening, entries)
        && some_since(Kind::Answers, descriptor, life, life.opening, entries)
        && is_opened(descriptor, life, entries)
        && !is_closed(descriptor, life, entries)
}
