//! What the traffic of a run decides of what the run counts (RFC 7574, section 8).

ghost use Rattle.std.specs.Prelude.{◌≡◌, ◌↔◌, ◌≤◌, IsTrue, length, count_by};
ghost use Rattle.pp_terms.specs.Count.{HasRisen, capped};
ghost use Rattle.pp_traffic.specs.Tallied.{IsTallied, TookTurns};
ghost use Rattle.pp_counts.specs.Counts.{tally_of};
ghost use Rattle.pp_recorded.specs.Entries.{past, record_of};
ghost use Rattle.pp_audit.specs.Tallies.{is_kind, count_of, link_of, RefusedSome, Waited, CountsTurns, CountsDatagrams};

use pp_counts::Counts;
use pp_recorded::entry::Entry;

// How many bytes a channel number has; a datagram of fewer is short.
const CHANNEL_BYTES: usize = 4;

// What an entry counts as.
#[derive(Clone, Copy)]
enum Kind {
    /// A turn begins with it.
    Event,
    /// A datagram that came.
    Came,
    /// One that came with fewer than four bytes.
    Short,
    /// One that was sent.
    Went,
}

// Whether the entry counts as one of the kind.
fn is_kind<'m>(kind: Kind, entry: &'m Entry<'m>) -> bool
    ensures { result ≡ is_kind kind (record_of entry.now) }
{
    match *entry {
        Entry::Received { bytes, .. } => match kind {
            Kind::Event | Kind::Came => true,
            Kind::Short => bytes.len() < CHANNEL_BYTES,
            Kind::Went => false,
        },
        Entry::Quiet { .. } => match kind {
            Kind::Event => true,
            Kind::Came | Kind::Short | Kind::Went => false,
        },
        Entry::Sent { .. } => match kind {
            Kind::Event | Kind::Came | Kind::Short => false,
            Kind::Went => true,
        },
    }
}

// How many entries do.
fn number_of<'m>(kind: Kind, entries: &'m [Entry<'m>]) -> u64
    ensures count { result ≡ count_by (is_kind kind) (past entries.now) }
    ensures few { result ≤ length entries.now }
{
    let mut count = 0;
    for entry in entries {
        if is_kind(kind, entry) {
            count += 1;
        }
    }
    count
}

// The same as a count, which stands still at the greatest number.
fn count_of<'m>(kind: Kind, entries: &'m [Entry<'m>]) -> u64
    ensures { result ≡ capped (count_of kind (past entries.now)) }
{
    number_of(kind, entries)
}

/// Of a link, how often a call of it was refused, and how many waits have ended. Both counts stand still at the greatest number.
#[derive(Clone, Copy, Debug, PartialEq, Eq)]
pub struct LinkCounts {
    pub faults: u64,
    pub nexts: u64,
}

// Whether a count rose, or stands at the greatest number.
fn has_risen(before: u64, after: u64) -> bool
    ensures { IsTrue result ↔ HasRisen before after }
{
    after == u64::MAX || before < after
}

// Whether so many turns began with an event each, or some with a refused wait that the link's count of faults shows.
fn refused_some<'m>(taken: u64, before: u64, after: u64, entries: &'m [Entry<'m>]) -> bool
    ensures { IsTrue result ↔ RefusedSome taken before after (past entries.now) }
{
    let events = number_of(Kind::Event, entries);
    if events == taken {
        return true;
    }
    events < taken && has_risen(before, after)
}

// Whether the link ended so many waits more.
fn waited(taken: u64, before: u64, after: u64) -> bool
    ensures { IsTrue result ↔ Waited taken before after }
{
    if taken == 0 {
        return after == before;
    }
    after == before.saturating_add(taken)
}

/// Whether so many turns were taken, by a link's counts before and after them: each turn waited once, and the wait gave an
/// entry or was refused (RFC 7574, section 8).
pub fn took_turns<'m>(
    taken: u64,
    before: LinkCounts,
    after: LinkCounts,
    entries: &'m [Entry<'m>],
) -> bool
    ensures { IsTrue result ↔ TookTurns taken (link_of before) (link_of after) (past entries.now) }
{
    waited(taken, before.nexts, after.nexts)
        && refused_some(taken, before.faults, after.faults, entries)
}

// Whether so many turns and refused waits are counted as there were.
fn counts_turns<'m>(taken: u64, entries: &'m [Entry<'m>], counts: &Counts) -> bool
    ensures { IsTrue result ↔ CountsTurns (tally_of counts.now) taken (past entries.now) }
{
    let events = count_of(Kind::Event, entries);
    counts.turns == taken && counts.receive_faults == taken.saturating_sub(events)
}

// Whether so many datagrams are counted as came, were short, and were sent.
fn counts_datagrams<'m>(entries: &'m [Entry<'m>], counts: &Counts) -> bool
    ensures { IsTrue result ↔ CountsDatagrams (tally_of counts.now) (past entries.now) }
{
    let came = count_of(Kind::Came, entries);
    let went = count_of(Kind::Went, entries);
    let short = count_of(Kind::Short, entries);
    counts.datagrams == came && counts.sent == went && counts.short == short
}

/// Whether the counts of turns, of datagrams that came, were short and were sent, and of refused waits are those of so
/// many turns with these entries. What else is counted is left open. A turn is a wait that gave an entry or was refused
/// (RFC 7574, section 8).
pub fn is_tallied<'m>(taken: u64, entries: &'m [Entry<'m>], counts: &Counts) -> bool
    ensures { IsTrue result ↔ IsTallied (tally_of counts.now) taken (past entries.now) }
{
    counts_turns(taken, entries, counts) && counts_datagrams(entries, counts)
}
