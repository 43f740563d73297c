//! Whether stored chunks are committed in time, by what is pending before and behind an event (RFC 7574, sections 3.2 and 3.3; the
//! times are this profile's).

ghost use Rattle.std.specs.Prelude.{◌≡◌, ◌↔◌, ◌≤◌, ◌<◌, ◌+◌, ◌==◌, ◌||◌, IsTrue, true, false, [], nat_le, length, map, slice_index_or};
ghost use Rattle.std.specs.List.{list_any};
ghost use Rattle.pp_promises.specs.Batches as promises;
ghost use Rattle.pp_audit.specs.Batches as terms;
ghost use Rattle.pp_audit.specs.Batches.{pending_of, batch_of};

use crate::debts::stands;

// How many chunks are pending at most, and for how many microseconds.
const MOST_PENDING: usize = 64;

const LONGEST_WAIT: u64 = 100_000;

/// A chunk that was stored and isn't committed, and the moment at which it was stored, in microseconds.
#[derive(Clone, Copy)]
pub struct Pending {
    pub chunk: u64,
    pub put_at: u64,
}

/// Of each chunk whether it is committed, and those that are pending.
#[derive(Clone, Copy)]
pub struct Batch<'a> {
    pub committed: &'a [bool],
    pub pending: &'a [Pending],
}

// Whether the chunk is one of those that were stored.
fn is_stored(stored: &[u64], chunk: u64) -> bool
    ensures { result ≡ list_any (λ k. k == chunk) stored.now }
{
    let mut found = false;
    for other in stored {
        found = (*other == chunk) | found;
    }
    found
}

// Whether it is pending.
fn is_pending(pending: &[Pending], chunk: u64) -> bool
    ensures { result ≡ list_any (λ p. p.chunk == chunk) (map pending_of pending.now) }
{
    let mut found = false;
    for other in pending {
        found = (other.chunk == chunk) | found;
    }
    found
}

// Whether it is committed, or one of those that were stored or are pending.
fn is_in(committed: &[bool], stored: &[u64], pending: &[Pending], chunk: usize) -> bool
    ensures { result ≡ terms.is_in committed.now stored.now (map pending_of pending.now) chunk }
{
    stands(committed, chunk as u64)
        || is_stored(stored, chunk as u64)
        || is_pending(pending, chunk as u64)
}

// Whether every chunk is.
fn are_all_in(committed: &[bool], stored: &[u64], pending: &[Pending]) -> bool
    ensures { result ≡ terms.are_all_in committed.now stored.now (map pending_of pending.now) }
{
    let mut all = true;
    for chunk in 0..committed.len() {
        all = is_in(committed, stored, pending, chunk) & all;
    }
    all
}

// Whether it was put a tenth of a second ago, or longer.
fn is_old(now: u64, pending: Pending) -> bool
    ensures { result ≡ nat_le (pending.put_at + promises.longest_wait) now }
{
    now >= LONGEST_WAIT && pending.put_at <= now - LONGEST_WAIT
}

// Whether one was.
fn is_late(now: u64, pending: &[Pending]) -> bool
    ensures { result ≡ terms.is_late now (map pending_of pending.now) }
{
    let mut found = false;
    for one in pending {
        found = is_old(now, *one) | found;
    }
    found
}

// Whether the pending chunks, and those that were stored at that moment, are to be committed.
fn is_due<'m>(is_quiet: bool, now: u64, stored: &[u64], batch: &'m Batch<'m>) -> bool
    ensures { result ≡ terms.is_due is_quiet now stored.now (batch_of batch.now) }
{
    is_quiet || are_all_in(batch.committed, stored, batch.pending) || is_late(now, batch.pending)
}

// Whether both are so many that they are.
fn is_full(stored: &[u64], pending: &[Pending]) -> bool
    ensures { result ≡ nat_le promises.most_pending (length stored.now + length (map pending_of pending.now)) }
{
    stored.len() >= MOST_PENDING
        || pending.len() >= MOST_PENDING
        || stored.len() + pending.len() >= MOST_PENDING
}

// Whether nothing is committed where nothing is to be.
fn waits<'m>(
    is_quiet: bool,
    stored: &[u64],
    now: u64,
    old: &'m Batch<'m>,
    new: &'m Batch<'m>,
) -> bool
    ensures { IsTrue result ↔ (promises.is_due is_quiet now (promises.with_all_pending stored.now now (batch_of old.now)) ≡ false
        → promises.is_full (promises.with_all_pending stored.now now (batch_of old.now)) ≡ false
        → (batch_of new.now).committed ≡ (batch_of old.now).committed) }
{
    if is_due(is_quiet, now, stored, old) {
        return true;
    }
    if is_full(stored, old.pending) {
        return true;
    }
    new.committed == old.committed
}

// Whether nothing is left pending where all is to be committed.
fn settles<'m>(is_quiet: bool, now: u64, new: &'m Batch<'m>) -> bool
    ensures { IsTrue result ↔ (promises.is_due is_quiet now (batch_of new.now) ≡ true → (batch_of new.now).pending ≡ []) }
{
    if is_due(is_quiet, now, &[], new) {
        return new.pending.is_empty();
    }
    true
}

// Whether every chunk that was committed still is.
fn stays_committed(old: &[bool], new: &[bool]) -> bool
    ensures { IsTrue result ↔ terms.StaysCommitted old.now new.now }
{
    for chunk in 0..old.len() {
        if old[chunk] && !stands(new, chunk as u64) {
            return false;
        }
    }
    true
}

// Whether exactly those chunks are in that were before, or that were stored.
fn keeps<'m>(stored: &[u64], old: &'m Batch<'m>, new: &'m Batch<'m>) -> bool
    ensures { IsTrue result ↔ terms.Keeps stored.now (batch_of old.now) (batch_of new.now) }
{
    for chunk in 0..old.committed.len() {
        let was_in = is_in(old.committed, stored, old.pending, chunk);
        if is_in(new.committed, &[], new.pending, chunk) != was_in {
            return false;
        }
    }
    true
}

// Whether the chunk was stored by this event, and its moment is the event's.
fn is_put_now(stored: &[u64], now: u64, pending: Pending) -> bool
    ensures { result ≡ terms.is_put_now stored.now now (pending_of pending) }
{
    is_stored(stored, pending.chunk) && pending.put_at == now
}

// Whether the chunk is one of those that are pending, since the same moment.
fn is_among(pending: Pending, all: &[Pending]) -> bool
    ensures { result ≡ promises.is_among (pending_of pending) (map pending_of all.now) }
{
    let mut found = false;
    for other in all {
        let is_same = pending.chunk == other.chunk && pending.put_at == other.put_at;
        found = is_same | found;
    }
    found
}

// Whether the chunk was stored by this event, or was pending since the same moment.
fn is_since(stored: &[u64], now: u64, old: &[Pending], pending: Pending) -> bool
    ensures { result ≡ terms.is_since stored.now now (map pending_of old.now) (pending_of pending) }
{
    is_put_now(stored, now, pending) || is_among(pending, old)
}

// Whether every pending chunk was stored by this event, or was pending since the same moment.
fn are_since(stored: &[u64], now: u64, old: &[Pending], new: &[Pending]) -> bool
    ensures { result ≡ terms.are_since stored.now now (map pending_of old.now) (map pending_of new.now) }
{
    let mut all = true;
    for one in new {
        all = is_since(stored, now, old, *one) & all;
    }
    all
}

// Whether few are pending, none is committed too early, and none too late.
fn is_timely<'m>(
    is_quiet: bool,
    stored: &[u64],
    now: u64,
    old: &'m Batch<'m>,
    new: &'m Batch<'m>,
) -> bool
    ensures { IsTrue result ↔ terms.IsTimely is_quiet stored.now now (batch_of old.now) (batch_of new.now) }
{
    new.pending.len() < MOST_PENDING
        && waits(is_quiet, stored, now, old, new)
        && settles(is_quiet, now, new)
}

// Whether nothing is lost, nothing else comes in, and each pending chunk keeps its moment.
fn loses_none<'m>(stored: &[u64], now: u64, old: &'m Batch<'m>, new: &'m Batch<'m>) -> bool
    ensures { IsTrue result ↔ terms.LosesNone stored.now now (batch_of old.now) (batch_of new.now) }
{
    new.committed.len() == old.committed.len()
        && stays_committed(old.committed, new.committed)
        && keeps(stored, old, new)
        && are_since(stored, now, old.pending, new.pending)
}

/// Whether an event at a moment, by which these chunks were stored, left what it found as it should: fewer than 64 chunks are
/// pending; none is committed where something came, some chunk is neither committed nor pending, none was pending for a tenth of
/// a second, and they are fewer than 64; in one of the first three cases none is left pending; what was committed still is; those
/// chunks are committed or pending that were before, or that were stored, and no others; and each pending chunk keeps the moment
/// at which it was stored, unless it was stored again.
pub fn commits_in_time<'m>(
    is_quiet: bool,
    stored: &[u64],
    now: u64,
    old: &'m Batch<'m>,
    new: &'m Batch<'m>,
) -> bool
    ensures { IsTrue result ↔ promises.CommitsInTime is_quiet stored.now now (batch_of old.now) (batch_of new.now) }
{
    is_timely(is_quiet, stored, now, old, new) && loses_none(stored, now, old, new)
}
