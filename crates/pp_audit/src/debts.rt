//! What can be left to do for the peer of a channel, chunk by chunk, and whether few chunks are. Chunks that the messages
//! don't tell apart are looked at once.

ghost use Rattle.std.specs.Prelude.{◌≡◌, ℕ, ◌≤◌, ◌<◌, ◌+◌, ◌-◌, false, if◌then◌else◌, slice_index_or, MatchOption};
ghost use Rattle.pp_promises.specs.Announced as announced;
ghost use Rattle.pp_traffic.specs.Story.{story};
ghost use Rattle.pp_recorded.specs.Entries.{past, life_of};
ghost use Rattle.pp_audit.specs.Alike.{AreAlike};
ghost use Rattle.pp_audit.specs.Debts as terms;

use crate::runs::{run_end, top};
use crate::turns::earlier;
use pp_recorded::asking::is_asked;
use pp_recorded::entry::{Entry, Life};
use pp_recorded::owing::{is_announced, is_owed};
use pp_recorded::said::has_said;
use pp_recorded::sorts::Sort;
use pp_tree::Descriptor;

/// What a chunk can be.
#[derive(Clone, Copy)]
pub(crate) enum Debt {
    /// Asked for by a REQUEST before which it was announced, or asked for and one of those that stood from the start.
    Owed,
    /// Announced in an earlier turn, or one of those that stood, and not told of.
    Untold,
}

/// Whether the chunk is one of these.
pub(crate) fn stands(stood: &[bool], chunk: u64) -> bool
    ensures { result ≡ slice_index_or stood.now chunk false }
{
    match stood.get(chunk as usize) {
        Some(stands) => *stands,
        None => false,
    }
}

// Whether a HAVE of the chunk was sent on the channel.
#[tactic(auto, using(pp_recorded::proofs::Sayings::told_of_said))]
fn is_told_of<'m>(descriptor: &Descriptor, life: Life, entries: &'m [Entry<'m>], chunk: u64) -> bool
    ensures { result ≡ announced.is_told_of chunk (story descriptor.now (life_of life) (past entries.now)) }
{
    has_said(Sort::HaveOf(chunk), descriptor, life, entries)
}

// Whether the chunk is left so.
fn is_left<'m>(
    debt: Debt,
    stood: &[bool],
    descriptor: &Descriptor,
    life: Life,
    entries: &'m [Entry<'m>],
    chunk: u64,
) -> bool
    ensures { result ≡ terms.is_left debt stood.now descriptor.now (past entries.now) (life_of life) chunk }
{
    match debt {
        Debt::Owed => {
            is_owed(descriptor, life, chunk, entries)
                || (is_asked(descriptor, life, entries, chunk) && stands(stood, chunk))
        }
        Debt::Untold => {
            (is_announced(descriptor, chunk, earlier(entries)) || stands(stood, chunk))
                && !is_told_of(descriptor, life, entries, chunk)
        }
    }
}

// The end of a run of numbers from one on, up to another one, that are left or not together.
fn end_of<'m>(
    stood: &[bool],
    descriptor: &Descriptor,
    entries: &'m [Entry<'m>],
    at: u64,
    last: u64,
) -> u64
    requires { at ≤ last }
    ensures low { at ≤ result }
    ensures high { result ≤ last }
    ensures alike { (j : ℕ) → at ≤ j → j ≤ result → AreAlike descriptor.now at j (past entries.now) }
    ensures stood { (j : ℕ) → at ≤ j → j ≤ result → slice_index_or stood.now at false ≡ slice_index_or stood.now j false }
{
    if at < stood.len() as u64 {
        at
    } else {
        run_end(descriptor, entries, at, last)
    }
}

// How many more may be left, behind a run of numbers that are or aren't; none where they are too many.
fn room_after(is_left: bool, room: u64, at: u64, end: u64) -> Option<u64>
    requires { at ≤ end }
    ensures { MatchOption result (room < (if is_left then end - at + 1 else 0)) (λ more. more + (if is_left then end - at + 1 else 0) ≡ room) }
{
    if !is_left {
        return Some(room);
    }
    if end - at >= room {
        return None;
    }
    Some(room - (end - at) - 1)
}

/// Whether at most so many chunks are left.
pub(crate) fn leaves_few<'m>(
    limit: u64,
    debt: Debt,
    stood: &[bool],
    descriptor: &Descriptor,
    life: Life,
    entries: &'m [Entry<'m>],
) -> bool
    ensures { result ≡ terms.leaves_few limit debt stood.now descriptor.now (past entries.now) (life_of life) }
{
    let last = top(descriptor, entries).max(stood.len() as u64);
    let mut at = 0;
    let mut room = limit;
    'runs: while at < last {
        let end = end_of(stood, descriptor, entries, at, last);
        let left = is_left(debt, stood, descriptor, life, entries, at);
        match room_after(left, room, at, end) {
            Some(more) => room = more,
            None => return false,
        }
        if end == last {
            return true;
        }
        at = end + 1;
    }
    let left = is_left(debt, stood, descriptor, life, entries, at);
    room_after(left, room, at, at).is_some()
}
