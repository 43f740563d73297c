//! Whether the window of a channel has room for one chunk more (RFC 6817; RFC 7574, section 8.16).

ghost use Rattle.std.specs.Prelude.{◌≡◌, ◌<◌, ◌≤◌, ◌+◌, ◌-◌, ◌^◌, ◌∷◌, drop};
ghost use Rattle.pp_traffic.specs.Meter as meters;
ghost use Rattle.pp_traffic.specs.Story.{story};
ghost use Rattle.pp_recorded.specs.declared.acts.Act.TheVariants as acts;
ghost use Rattle.pp_recorded.specs.Entries.{past, life_of};
ghost use Rattle.pp_recorded.specs.Acts.{ahead, taken};
ghost use Rattle.pp_recorded.specs.Gauges.{metered};

use crate::acts::{Act, Spot, act_at, opening};
use crate::entry::{Entry, Life};
use crate::flying::{Row, flight, is_flying, trimmed};
use crate::gauge::Gauge;
use pp_tree::Descriptor;

// The row with the act behind it.
fn one_more(row: Row) -> Row
    requires { row.count < 2 ^ 128 - 1 }
    ensures from { result.from ≡ row.from }
    ensures count { result.count ≡ row.count + 1 }
{
    Row {
        from: row.from,
        count: row.count + 1,
    }
}

// A chunk is sent behind a row.
fn send<'m>(
    gauge: &mut Gauge,
    descriptor: &Descriptor,
    life: Life,
    entries: &'m [Entry<'m>],
    row: Row,
    chunk: u64,
    now: u64,
    next: Spot,
) -> Row
    requires few { row.count < 2 ^ 128 - 1 }
    requires next { drop row.count (ahead descriptor.now (life_of life) entries.now row.from)
        ≡ acts.Sends chunk now ∷ ahead descriptor.now (life_of life) entries.now next }
    ensures taken { metered descriptor.now (life_of life) entries.now result gauge.new
        ≡ taken (acts.Sends chunk now) (metered descriptor.now (life_of life) entries.now row gauge.old) }
    ensures behind { drop result.count (ahead descriptor.now (life_of life) entries.now result.from)
        ≡ ahead descriptor.now (life_of life) entries.now next }
    ensures few { result.count ≤ row.count + 1 }
{
    gauge.sent(is_flying(descriptor, life, entries, row), now);
    one_more(row)
}

// An ACK comes behind a row.
fn answer<'m>(
    gauge: &mut Gauge,
    descriptor: &Descriptor,
    life: Life,
    entries: &'m [Entry<'m>],
    row: Row,
    first: u64,
    last: u64,
    delay: u64,
    now: u64,
    next: Spot,
) -> Row
    requires few { row.count < 2 ^ 128 - 1 }
    requires next { drop row.count (ahead descriptor.now (life_of life) entries.now row.from)
        ≡ acts.Acks first last delay now ∷ ahead descriptor.now (life_of life) entries.now next }
    ensures taken { metered descriptor.now (life_of life) entries.now result gauge.new
        ≡ taken (acts.Acks first last delay now) (metered descriptor.now (life_of life) entries.now row gauge.old) }
    ensures behind { drop result.count (ahead descriptor.now (life_of life) entries.now result.from)
        ≡ ahead descriptor.now (life_of life) entries.now next }
    ensures few { result.count ≤ row.count + 1 }
{
    let before = flight(descriptor, life, entries, row, first, last);
    let longer = one_more(row);
    if before.hits == 0 {
        return longer;
    }
    // what flew and neither flies on nor was acknowledged is lost
    let after = flight(descriptor, life, entries, longer, first, last);
    let has_lost = after.total < before.total - before.hits;
    gauge.acked(before, has_lost, delay, now);
    trimmed(descriptor, life, entries, longer)
}

// Whether a timeout has passed: something flies, and nothing was acknowledged for so long.
fn is_due<'m>(
    gauge: &Gauge,
    descriptor: &Descriptor,
    life: Life,
    entries: &'m [Entry<'m>],
    row: Row,
    now: u64,
) -> bool
    ensures { result ≡ meters.is_due now (metered descriptor.now (life_of life) entries.now row gauge.now) }
{
    gauge.is_overdue(now) && is_flying(descriptor, life, entries, row)
}

// A wait ends behind a row.
fn wait<'m>(
    gauge: &mut Gauge,
    descriptor: &Descriptor,
    life: Life,
    entries: &'m [Entry<'m>],
    row: Row,
    now: u64,
    next: Spot,
) -> Row
    requires few { row.count < 2 ^ 128 - 1 }
    requires next { drop row.count (ahead descriptor.now (life_of life) entries.now row.from)
        ≡ acts.Waits now ∷ ahead descriptor.now (life_of life) entries.now next }
    ensures taken { metered descriptor.now (life_of life) entries.now result gauge.new
        ≡ taken (acts.Waits now) (metered descriptor.now (life_of life) entries.now row gauge.old) }
    ensures behind { drop result.count (ahead descriptor.now (life_of life) entries.now result.from)
        ≡ ahead descriptor.now (life_of life) entries.now next }
    ensures few { result.count ≤ row.count + 1 }
{
    if is_due(gauge, descriptor, life, entries, row, now) {
        gauge.timed_out(now);
        return Row {
            from: next,
            count: 0,
        };
    }
    one_more(row)
}

// An act follows a row: what the window remembers then, and the row by which the rest flies.
fn take<'m>(
    gauge: &mut Gauge,
    descriptor: &Descriptor,
    life: Life,
    entries: &'m [Entry<'m>],
    row: Row,
    act: Act,
    next: Spot,
) -> Row
    requires few { row.count < 2 ^ 128 - 1 }
    requires next { drop row.count (ahead descriptor.now (life_of life) entries.now row.from)
        ≡ act ∷ ahead descriptor.now (life_of life) entries.now next }
    ensures taken { metered descriptor.now (life_of life) entries.now result gauge.new
        ≡ taken act (metered descriptor.now (life_of life) entries.now row gauge.old) }
    ensures behind { drop result.count (ahead descriptor.now (life_of life) entries.now result.from)
        ≡ ahead descriptor.now (life_of life) entries.now next }
    ensures few { result.count ≤ row.count + 1 }
{
    match act {
        Act::Sends { chunk, now } => {
            send(gauge, descriptor, life, entries, row, chunk, now, next)
        }
        Act::Acks {
            first,
            last,
            delay,
            now,
        } => answer(
            gauge, descriptor, life, entries, row, first, last, delay, now, next,
        ),
        Act::Waits { now } => wait(gauge, descriptor, life, entries, row, now, next),
        Act::Other => one_more(row),
    }
}

/// Whether the channel's story lets one chunk more be sent: so many bytes may fly, by what was acknowledged, how late, and what
/// was lost, and they aren't in flight.
pub fn lets_send<'m>(descriptor: &Descriptor, life: Life, entries: &'m [Entry<'m>]) -> bool
    ensures { result ≡ meters.lets_send descriptor.now.chunk (story descriptor.now (life_of life) (past entries.now)) }
{
    let mut gauge = Gauge::new(descriptor.chunk());
    let mut at = opening(descriptor, life, entries);
    let mut row = Row { from: at, count: 0 };
    'acts: while let Some((act, next)) = act_at(descriptor, life, entries, at) {
        row = take(&mut gauge, descriptor, life, entries, row, act, next);
        at = next;
    }
    gauge.has_room(flight(descriptor, life, entries, row, 0, 0).total)
}
