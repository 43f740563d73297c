//! Which channels are plain: those to which the promises of completeness are made.

ghost use Rattle.std.specs.Prelude.{◌≡◌, ◌↔◌, ◌||◌, ◌&&◌, ◌==◌, nat_lt, not, if◌then◌else◌, IsTrue};
ghost use Rattle.pp_traffic.specs.Past as terms;
ghost use Rattle.pp_traffic.specs.Plain as plain;
ghost use Rattle.pp_recorded.specs.Entries.{past, life_of, record_of};
ghost use Rattle.pp_recorded.specs.PlainTests as tests;
ghost use Rattle.pp_recorded.specs.Tests.{test_of};

use crate::entry::{Entry, Life};
use crate::lives::{is_since, some_since};
use crate::records::{Kind, is_kind};
use crate::timing::is_timely;
use pp_tree::Descriptor;

// Whether the entry at a place, before another one, is of that kind.
fn is_until<'m>(
    kind: Kind,
    descriptor: &Descriptor,
    life: Life,
    until: usize,
    place: usize,
    entry: &'m Entry<'m>,
) -> bool
    ensures { result ≡ (nat_lt place until && test_of kind descriptor.now (life_of life) (record_of entry.now)) }
{
    place < until && is_kind(kind, descriptor, life, entry)
}

// Whether an entry before a place is of that kind to the channel.
fn some_until<'m>(
    kind: Kind,
    descriptor: &Descriptor,
    life: Life,
    until: usize,
    entries: &'m [Entry<'m>],
) -> bool
    ensures { result ≡ terms.some_until (test_of kind descriptor.now (life_of life)) until (past entries.now) }
{
    let mut found = false;
    for (place, entry) in entries.iter().enumerate() {
        found = is_until(kind, descriptor, life, until, place, entry) | found;
    }
    found
}

// Whether the entry at a place is of that kind, and its place this one.
fn is_there<'m>(
    kind: Kind,
    descriptor: &Descriptor,
    life: Life,
    at: usize,
    place: usize,
    entry: &'m Entry<'m>,
) -> bool
    ensures { result ≡ (at == place && test_of kind descriptor.now (life_of life) (record_of entry.now)) }
{
    at == place && is_kind(kind, descriptor, life, entry)
}

// Whether the entry at a place is of that kind to the channel.
fn is_at<'m>(
    kind: Kind,
    descriptor: &Descriptor,
    life: Life,
    at: usize,
    entries: &'m [Entry<'m>],
) -> bool
    ensures { result ≡ terms.is_at (test_of kind descriptor.now (life_of life)) at (past entries.now) }
{
    let mut found = false;
    for (place, entry) in entries.iter().enumerate() {
        found = is_there(kind, descriptor, life, at, place, entry) | found;
    }
    found
}

// The answer for the first of a kind, where it was met before the entry or not.
fn first_after(met: bool, first: bool, new: bool) -> bool
    ensures { result ≡ (if met then first else new) }
{
    if met { first } else { new }
}

// Whether the first entry from a place on that is of one kind is of another.
fn first_since<'m>(
    which: Kind,
    kind: Kind,
    descriptor: &Descriptor,
    life: Life,
    from: usize,
    entries: &'m [Entry<'m>],
) -> bool
    ensures { result ≡ plain.first_since (test_of which descriptor.now (life_of life)) (test_of kind descriptor.now (life_of life))
        from (past entries.now) }
{
    let mut met = false;
    let mut first = false;
    for (place, entry) in entries.iter().enumerate() {
        let is_one = is_since(which, descriptor, life, from, place, entry);
        let is_both = is_one && is_kind(kind, descriptor, life, entry);
        first = first_after(met, first, is_both);
        met = is_one | met;
    }
    first
}

// Whether the entry at a place, behind another one, is not of that kind.
fn is_other<'m>(
    kind: Kind,
    descriptor: &Descriptor,
    life: Life,
    behind: usize,
    place: usize,
    entry: &'m Entry<'m>,
) -> bool
    ensures { result ≡ not (nat_lt behind place && test_of kind descriptor.now (life_of life) (record_of entry.now)) }
{
    !(behind < place && is_kind(kind, descriptor, life, entry))
}

// Whether no entry behind a place is of one kind, but behind one from there on that is of another.
fn none_until_first<'m>(
    which: Kind,
    kind: Kind,
    descriptor: &Descriptor,
    life: Life,
    from: usize,
    entries: &'m [Entry<'m>],
) -> bool
    ensures { result ≡ plain.none_until_first (test_of which descriptor.now (life_of life)) (test_of kind descriptor.now (life_of life))
        from (past entries.now) }
{
    let mut met = false;
    let mut none = true;
    for (place, entry) in entries.iter().enumerate() {
        none = (is_other(kind, descriptor, life, from, place, entry) | met) & none;
        met = is_since(which, descriptor, life, from, place, entry) | met;
    }
    none
}

// Whether the peer opened with one handshake, which was replied to first, and none for channel 0 came in between.
fn is_answer<'m>(descriptor: &Descriptor, life: Life, entries: &'m [Entry<'m>]) -> bool
    ensures { result ≡ tests.is_answer descriptor.now (life_of life) (past entries.now) }
{
    let from = life.opening;
    is_at(Kind::GreetsOnce, descriptor, life, from, entries)
        && first_since(Kind::GoesTo, Kind::Answers, descriptor, life, from, entries)
        && none_until_first(
            Kind::GoesTo,
            Kind::AsksAnew,
            descriptor,
            life,
            from,
            entries,
        )
}

// Whether this peer opened, and the first datagram from the peer's address is the reply.
fn is_dial<'m>(
    descriptor: &Descriptor,
    life: Life,
    reach: &'m [Entry<'m>],
    entries: &'m [Entry<'m>],
) -> bool
    ensures { result ≡ tests.is_dial descriptor.now (life_of life) (past reach.now) (past entries.now) }
{
    is_at(Kind::Answers, descriptor, life, life.opening, entries)
        && first_since(Kind::ComesFrom, Kind::Greets, descriptor, life, 0, reach)
}

// Whether the channel began as one of the two.
fn begins_plain<'m>(
    descriptor: &Descriptor,
    life: Life,
    reach: &'m [Entry<'m>],
    entries: &'m [Entry<'m>],
) -> bool
    ensures { result ≡ (if life.is_dialled then tests.is_dial descriptor.now (life_of life) (past reach.now) (past entries.now)
        else tests.is_answer descriptor.now (life_of life) (past entries.now)) }
{
    if life.is_dialled {
        is_dial(descriptor, life, reach, entries)
    } else {
        is_answer(descriptor, life, entries)
    }
}

/// Whether the channel is plain at the end of the entries, where a reply is looked for as far as given.
pub fn is_plain_by<'m>(
    descriptor: &Descriptor,
    life: Life,
    reach: &'m [Entry<'m>],
    entries: &'m [Entry<'m>],
) -> bool
    ensures { result ≡ tests.is_plain_by descriptor.now (life_of life) (past reach.now) (past entries.now) }
{
    life.local > 0
        && life.remote > 0
        && !some_until(Kind::Concerns, descriptor, life, life.opening, entries)
        && begins_plain(descriptor, life, reach, entries)
        && !some_since(Kind::ClosesOn, descriptor, life, life.opening, entries)
        && is_timely(descriptor, life, entries)
}

/// Whether the channel is plain up to the newest entry.
pub fn is_plain_newest<'m>(descriptor: &Descriptor, life: Life, entries: &'m [Entry<'m>]) -> bool
    ensures { result ≡ tests.is_plain_newest descriptor.now (life_of life) (past entries.now) }
{
    let count = entries.len();
    if count == 0 {
        return false;
    }
    is_plain_by(descriptor, life, entries, &entries[..count - 1])
}

/// Whether the channel is plain at the end of the entries: both sides opened it afresh, by one handshake each, and neither
/// closed it or left it silent for too long (RFC 7574, sections 3.1.1, 8.3 and 8.4; the times are this profile's).
pub fn is_plain<'m>(descriptor: &Descriptor, life: Life, entries: &'m [Entry<'m>]) -> bool
    ensures test { result ≡ tests.is_plain descriptor.now (life_of life) (past entries.now) }
    ensures exact { IsTrue result ↔ plain.IsPlainNow descriptor.now (life_of life) (past entries.now) }
{
    is_plain_by(descriptor, life, entries, entries)
}
