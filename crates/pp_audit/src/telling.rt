//! What a turn tells a channel's peer of (RFC 7574, section 3.2).

ghost use Rattle.std.specs.Prelude.{◌≡◌, ◌≤◌, ◌&&◌, nat_le, if◌then◌else◌};
ghost use Rattle.pp_traffic.specs.Past.{some_since};
ghost use Rattle.pp_traffic.specs.Asking as asking;
ghost use Rattle.pp_promises.specs.Announced as terms;
ghost use Rattle.pp_recorded.specs.Entries.{past, life_of, record_of};

use crate::turns::{earlier, turn_start};
use pp_recorded::asking::is_heard;
use pp_recorded::entry::{Entry, Life};
use pp_recorded::said::says;
use pp_recorded::sorts::Sort;
use pp_tree::Descriptor;

// How many new ones a turn tells of at least, where it doesn't tell of all.
const FEWEST_NEW: u32 = 64;

// Whether the entry at a place, from another one on, tells of the chunk.
fn tells_at<'m>(
    descriptor: &Descriptor,
    life: Life,
    chunk: u64,
    start: usize,
    place: usize,
    entry: &'m Entry<'m>,
) -> bool
    ensures { result ≡ (nat_le start place && terms.tells_of descriptor.now (life_of life) chunk (record_of entry.now)) }
{
    start <= place && says(Sort::HaveOf(chunk), descriptor, life, entry)
}

// Whether some entry from a place on does.
fn tells_since<'m>(
    descriptor: &Descriptor,
    life: Life,
    chunk: u64,
    start: usize,
    entries: &'m [Entry<'m>],
) -> bool
    ensures { result ≡ some_since (terms.tells_of descriptor.now (life_of life) chunk) start (past entries.now) }
{
    let mut found = false;
    for (place, entry) in entries.iter().enumerate() {
        found = tells_at(descriptor, life, chunk, start, place, entry) | found;
    }
    found
}

// Whether the entry does, and the peer wrote before.
fn tells_heard<'m>(
    descriptor: &Descriptor,
    life: Life,
    chunk: u64,
    entry: &'m Entry<'m>,
    before: &'m [Entry<'m>],
) -> bool
    ensures { result ≡ (terms.tells_of descriptor.now (life_of life) chunk (record_of entry.now)
        && asking.is_heard descriptor.now (life_of life) (past before.now)) }
{
    says(Sort::HaveOf(chunk), descriptor, life, entry) && is_heard(descriptor, life, before)
}

// Whether the chunk was told of since the peer wrote.
fn was_told_of<'m>(
    descriptor: &Descriptor,
    life: Life,
    chunk: u64,
    entries: &'m [Entry<'m>],
) -> bool
    ensures { result ≡ terms.was_told_of descriptor.now (life_of life) chunk (past entries.now) }
{
    let mut found = false;
    for (place, entry) in entries.iter().enumerate() {
        found = tells_heard(descriptor, life, chunk, entry, &entries[..place]) | found;
    }
    found
}

// Whether the last turn tells of the chunk, and no earlier one did since the peer wrote.
fn is_new<'m>(descriptor: &Descriptor, life: Life, entries: &'m [Entry<'m>], chunk: u64) -> bool
    ensures { result ≡ terms.is_new descriptor.now (life_of life) (past entries.now) chunk }
{
    tells_since(descriptor, life, chunk, turn_start(entries), entries)
        && !was_told_of(descriptor, life, chunk, earlier(entries))
}

// How many chunks, one or none.
fn new_at<'m>(descriptor: &Descriptor, life: Life, entries: &'m [Entry<'m>], chunk: u32) -> u32
    ensures count { result ≡ (if terms.is_new descriptor.now (life_of life) (past entries.now) chunk then 1 else 0) }
    ensures few { result ≤ 1 }
{
    if is_new(descriptor, life, entries, u64::from(chunk)) {
        1
    } else {
        0
    }
}

// How many chunks are.
fn new_count<'m>(descriptor: &Descriptor, life: Life, entries: &'m [Entry<'m>]) -> u32
    ensures { result ≡ terms.new_count descriptor.now (life_of life) (past entries.now) }
{
    let mut count = 0;
    for chunk in 0..descriptor.chunks() {
        count += new_at(descriptor, life, entries, chunk);
    }
    count
}

/// Whether the last turn tells the channel's peer of at least 64 new chunks.
pub(crate) fn tells_many<'m>(descriptor: &Descriptor, life: Life, entries: &'m [Entry<'m>]) -> bool
    ensures { result ≡ nat_le terms.fewest_new (terms.new_count descriptor.now (life_of life) (past entries.now)) }
{
    new_count(descriptor, life, entries) >= FEWEST_NEW
}
