//! What one acknowledgement does to the chunks in flight.

ghost use Rattle.std.specs.Prelude.{◌≡◌, ◌≤◌, ◌<◌, nat_le, ◌+◌, length, take};
ghost use Rattle.pp_traffic.specs.Meter as terms;

use pp_ranges::ChunkRange;
use pp_traffic::Entry;

// How many later chunks have to be acknowledged before one counts as lost.
const OVERTAKEN: u32 = 3;

/// What is left in flight, at the front, and whether something was lost.
#[derive(Clone, Copy, Debug, PartialEq, Eq)]
pub struct Settled {
    pub kept: usize,
    pub has_lost: bool,
}

/// Whether the entry's chunk lies in the range.
pub fn covers(range: ChunkRange, entry: &Entry) -> bool
    ensures { result ≡ terms.covers range.first range.last entry.now }
{
    range.first() <= entry.chunk && entry.chunk <= range.last()
}

/// How many entries of the range there are.
pub fn hits(entries: &[Entry], range: ChunkRange) -> usize
    ensures { result ≡ terms.hits range.first range.last entries.now }
{
    let mut count = 0;
    for entry in entries {
        if covers(range, entry) {
            count += 1;
        }
    }
    count
}

/// When the oldest entry of the range was sent.
pub fn oldest(entries: &[Entry], range: ChunkRange) -> Option<u64>
    ensures { result ≡ terms.oldest range.first range.last entries.now }
{
    for entry in entries {
        if covers(range, entry) {
            return Some(entry.sent_at);
        }
    }
    None
}

/// When the entry of the range was sent, where it is the only one.
pub fn alone(entries: &[Entry], range: ChunkRange) -> Option<u64>
    ensures { result ≡ terms.alone range.first range.last entries.now }
{
    alone_of(entries, range, hits(entries, range))
}

/// The same, where the entries of the range are counted.
pub(crate) fn alone_of(entries: &[Entry], range: ChunkRange, count: usize) -> Option<u64>
    requires { count ≡ terms.hits range.first range.last entries.now }
    ensures { result ≡ terms.alone range.first range.last entries.now }
{
    if count == 1 {
        oldest(entries, range)
    } else {
        None
    }
}

// Whether an entry is lost, which so many newer ones of the range overtake.
fn is_lost(entry: &Entry, newer: usize) -> bool
    ensures { result ≡ nat_le 3 (entry.now.overtaken + newer) }
{
    entry.overtaken >= OVERTAKEN || newer >= (OVERTAKEN - entry.overtaken) as usize
}

/// Takes the entries of a range out of flight, which has the oldest first, and those that three newer ones have overtaken with
/// it: what flies on is at the front then.
pub fn settle(entries: &mut [Entry], range: ChunkRange) -> Settled
    ensures kept { take result.kept entries.new ≡ terms.flying range.first range.last entries.old }
    ensures lost { result.has_lost ≡ terms.loses range.first range.last entries.old }
    ensures within { result.kept ≤ length entries.old }
    ensures length { length entries.new ≡ length entries.old }
{
    let count = hits(entries, range);
    settle_counted(entries, range, count)
}

/// The same, where the entries of the range are counted.
pub(crate) fn settle_counted(entries: &mut [Entry], range: ChunkRange, count: usize) -> Settled
    requires { count ≡ terms.hits range.first range.last entries.old }
    ensures kept { take result.kept entries.new ≡ terms.flying range.first range.last entries.old }
    ensures lost { result.has_lost ≡ terms.loses range.first range.last entries.old }
    ensures within { result.kept ≤ length entries.old }
    ensures length { length entries.new ≡ length entries.old }
{
    let mut newer = count;
    let mut kept = 0;
    let mut has_lost = false;
    for i in 0..entries.len() {
        let entry = entries[i];
        if covers(range, &entry) {
            newer -= 1;
        } else if is_lost(&entry, newer) {
            has_lost = true;
        } else {
            entries[kept] = Entry {
                overtaken: entry.overtaken + newer as u32,
                ..entry
            };
            kept += 1;
        }
    }
    Settled { kept, has_lost }
}
