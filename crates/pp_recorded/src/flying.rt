//! What flies of a row of acts, by the acknowledgements in the row. It is read anew for each question, since nothing is kept.

ghost use Rattle.std.specs.Prelude.{◌≡◌, ◌<◌, ◌≤◌, ◌+◌, ◌-◌, ◌^◌, ◌∷◌, if◌then◌else◌, length, drop, List};
ghost use Rattle.std.specs.Option.{option_map_or};
ghost use Rattle.pp_traffic.specs.Meter as meters;
ghost use Rattle.pp_traffic.specs.declared.entries.Entry as flown;
ghost use Rattle.pp_recorded.specs.Entries.{life_of};
ghost use Rattle.pp_recorded.specs.Acts.{ahead};
ghost use Rattle.pp_recorded.specs.Flying as terms;

use crate::acts::{Act, Spot, act_at};
use crate::entry::{Entry, Life};
use pp_tree::Descriptor;

/// A row of acts: where it begins, and how many they are.
#[derive(Clone, Copy)]
pub struct Row {
    pub from: Spot,
    pub count: u128,
}

/// How many chunks of a row fly, how many of them lie in a range, and when the oldest of those was sent.
#[derive(Clone, Copy)]
pub struct Flown {
    pub total: u128,
    pub hits: u128,
    pub sent_at: Option<u64>,
}

const NONE: Flown = Flown {
    total: 0,
    hits: 0,
    sent_at: None,
};

// Whether an act acknowledges the chunk.
fn lands(chunk: u64, act: Act) -> bool
    ensures { result ≡ terms.lands chunk act }
{
    match act {
        Act::Acks { first, last, .. } => first <= chunk && chunk <= last,
        _ => false,
    }
}

// Whether one of a row does.
fn is_acked<'m>(
    descriptor: &Descriptor,
    life: Life,
    entries: &'m [Entry<'m>],
    row: Row,
    chunk: u64,
) -> bool
    ensures { result ≡ terms.is_acked chunk (terms.acts_in descriptor.now (life_of life) entries.now row) }
{
    let mut at = row.from;
    let mut left = row.count;
    'acts: while left > 0 {
        match act_at(descriptor, life, entries, at) {
            Some((act, next)) => {
                if lands(chunk, act) {
                    return true;
                }
                at = next;
                left -= 1;
            }
            None => return false,
        }
    }
    false
}

// How many chunks an act sends that are acknowledged behind it.
fn passes<'m>(
    descriptor: &Descriptor,
    life: Life,
    entries: &'m [Entry<'m>],
    act: Act,
    later: Row,
) -> u128
    ensures value { result ≡ terms.passes act (terms.acts_in descriptor.now (life_of life) entries.now later) }
    ensures few { result ≤ 1 }
{
    match act {
        Act::Sends { chunk, .. } => {
            if is_acked(descriptor, life, entries, later, chunk) {
                1
            } else {
                0
            }
        }
        _ => 0,
    }
}

// How many all of a row do.
fn passed<'m>(descriptor: &Descriptor, life: Life, entries: &'m [Entry<'m>], row: Row) -> u128
    ensures { result ≡ terms.passed (terms.acts_in descriptor.now (life_of life) entries.now row) }
{
    let mut count = 0;
    let mut at = row.from;
    let mut left = row.count;
    'acts: while left > 0 {
        match act_at(descriptor, life, entries, at) {
            Some((act, next)) => {
                at = next;
                left -= 1;
                count += passes(
                    descriptor,
                    life,
                    entries,
                    act,
                    Row {
                        from: at,
                        count: left,
                    },
                );
            }
            None => return count,
        }
    }
    count
}

// The chunk that an act sends and the moment, where it flies, by the row behind it.
fn flies<'m>(
    descriptor: &Descriptor,
    life: Life,
    entries: &'m [Entry<'m>],
    act: Act,
    later: Row,
) -> Option<(u64, u64)>
    ensures { (es : List flown.Entry) → terms.with_act act (terms.acts_in descriptor.now (life_of life) entries.now later) es
        ≡ option_map_or (λ x. terms.flying_of x.0 x.1 (terms.acts_in descriptor.now (life_of life) entries.now later) ∷ es) result es }
{
    match act {
        Act::Sends { chunk, now } => {
            if is_acked(descriptor, life, entries, later, chunk)
                || passed(descriptor, life, entries, later) >= 3
            {
                None
            } else {
                Some((chunk, now))
            }
        }
        _ => None,
    }
}

// When the oldest was sent, once one more is read.
fn oldest(sent_at: Option<u64>, now: u64) -> Option<u64>
    ensures { result ≡ terms.oldest_of sent_at now }
{
    match sent_at {
        Some(sent_at) => Some(sent_at),
        None => Some(now),
    }
}

// What is counted, with a chunk that flies.
fn counted(flight: Flown, first: u64, last: u64, chunk: u64, now: u64) -> Flown
    requires room { flight.total < 2 ^ 128 - 1 }
    requires few { flight.hits ≤ flight.total }
    ensures { result ≡ terms.counted first last chunk now flight }
{
    let total = flight.total + 1;
    if first <= chunk && chunk <= last {
        Flown {
            total,
            hits: flight.hits + 1,
            sent_at: oldest(flight.sent_at, now),
        }
    } else {
        Flown { total, ..flight }
    }
}

// And with one that flies or none.
fn counted_so(flight: Flown, first: u64, last: u64, sending: Option<(u64, u64)>) -> Flown
    requires room { flight.total < 2 ^ 128 - 1 }
    requires few { flight.hits ≤ flight.total }
    ensures { result ≡ option_map_or (λ x. terms.counted first last x.0 x.1 flight) sending flight }
{
    match sending {
        Some((chunk, now)) => counted(flight, first, last, chunk, now),
        None => flight,
    }
}

/// What flies of a row, with those of the chunks from first to last counted too.
pub fn flight<'m>(
    descriptor: &Descriptor,
    life: Life,
    entries: &'m [Entry<'m>],
    row: Row,
    first: u64,
    last: u64,
) -> Flown
    ensures total { result.total ≡ length (terms.flight_in descriptor.now (life_of life) entries.now row) }
    ensures hits { result.hits ≡ meters.hits first last (terms.flight_in descriptor.now (life_of life) entries.now row) }
    ensures sent { result.sent_at ≡ meters.oldest first last (terms.flight_in descriptor.now (life_of life) entries.now row) }
    ensures few { result.hits ≤ result.total }
{
    let mut flight = NONE;
    let mut at = row.from;
    let mut left = row.count;
    'acts: while left > 0 {
        match act_at(descriptor, life, entries, at) {
            Some((act, next)) => {
                at = next;
                left -= 1;
                let later = Row {
                    from: at,
                    count: left,
                };
                let sending = flies(descriptor, life, entries, act, later);
                flight = counted_so(flight, first, last, sending);
            }
            None => return flight,
        }
    }
    flight
}

/// Whether something of a row flies.
pub fn is_flying<'m>(
    descriptor: &Descriptor,
    life: Life,
    entries: &'m [Entry<'m>],
    row: Row,
) -> bool
    ensures { result ≡ terms.is_flying (terms.flight_in descriptor.now (life_of life) entries.now row) }
{
    flight(descriptor, life, entries, row, 0, 0).total > 0
}

/// The row from its first chunk that flies on, or none of it.
pub fn trimmed<'m>(descriptor: &Descriptor, life: Life, entries: &'m [Entry<'m>], row: Row) -> Row
    ensures same { terms.flight_in descriptor.now (life_of life) entries.now result
        ≡ terms.flight_in descriptor.now (life_of life) entries.now row }
    ensures behind { drop result.count (ahead descriptor.now (life_of life) entries.now result.from)
        ≡ drop row.count (ahead descriptor.now (life_of life) entries.now row.from) }
    ensures few { result.count ≤ row.count }
{
    let mut row = row;
    'acts: while row.count > 0 {
        match act_at(descriptor, life, entries, row.from) {
            Some((act, next)) => {
                let later = Row {
                    from: next,
                    count: row.count - 1,
                };
                if flies(descriptor, life, entries, act, later).is_some() {
                    return row;
                }
                row = later;
            }
            None => return row,
        }
    }
    row
}
