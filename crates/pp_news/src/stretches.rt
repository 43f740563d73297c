// Tickets of one seat as the fewest ranges of committed chunks.
ghost use Rattle.std.specs.Prelude.{◌≡◌, ℕ, ◌+◌, ◌<◌, ◌≤◌, true, false, ◌++◌, [], ◌∷◌, length, map, slice_index_or, vec_len, vec_capacity};
ghost use Rattle.std.specs.List.Sorted.{IsNonDecreasing, IsPermutation};
ghost use Rattle.pp_terms.specs.tree.Range.{within};
ghost use Rattle.pp_news.specs.News.{has_chunk, AreIn, IsNewestIn, AreJoined, IsPushed};

use crate::acknowledgement::Acknowledgement;
use crate::runs::range_of;
use pp_holding::Ticket;
use pp_tree::ChunkSet;

// The least chunk from one on that isn't committed, or a number behind the last chunk.
fn end_from(committed: &ChunkSet, chunk: u32) -> u32
    requires { slice_index_or committed.now chunk false ≡ true }
    ensures low { chunk < result }
    ensures all { (i : ℕ) → chunk ≤ i → i < result → slice_index_or committed.now i true ≡ true }
    ensures absent { slice_index_or committed.now result false ≡ false }
{
    // Its contract tells that there are fewer than 2^32 chunks.
    let _ = committed.marks();
    match committed.first_absent_from(chunk) {
        Some(absent) => absent,
        None => u32::MAX,
    }
}

// The delay of the newest ticket whose chunk lies in a range; 0 where none does.
fn newest_delay(tickets: &[Ticket], first: u32, last: u32) -> u64
    ensures { has_chunk tickets.now first ≡ true → first ≤ last
        → IsNewestIn (record { first = first; last = last }) tickets.now result }
{
    let mut delay = 0;
    for ticket in tickets {
        if first <= ticket.chunk && ticket.chunk <= last {
            delay = ticket.delay;
        }
    }
    delay
}

// An acknowledgement of a range behind others.
fn push(acknowledgements: &mut Vec<Acknowledgement>, tickets: &[Ticket], first: u32, last: u32)
    requires order { first ≤ last }
    requires room { vec_len acknowledgements.old < vec_capacity acknowledgements.old }
    requires own { has_chunk tickets.now first ≡ true }
    ensures items { IsPushed first last tickets.now acknowledgements.old.items acknowledgements.new.items }
    ensures len { vec_len acknowledgements.new ≡ vec_len acknowledgements.old + 1 }
    ensures room { vec_capacity acknowledgements.new ≡ vec_capacity acknowledgements.old }
{
    acknowledgements.push_reserved(Acknowledgement {
        range: range_of(first, last),
        delay: newest_delay(tickets, first, last),
    });
}

// The tickets' chunks in the fewest ranges of committed chunks, each with the delay of its newest ticket.
pub(crate) fn join(
    acknowledgements: &mut Vec<Acknowledgement>,
    tickets: &[Ticket],
    chunks: &[u32],
    committed: &ChunkSet,
)
    requires committed { AreIn committed.now tickets.now }
    requires chunks { IsPermutation (map (λ t. t.chunk) tickets.now) chunks.now }
    requires rising { IsNonDecreasing chunks.now }
    requires few { length chunks.now ≡ length tickets.now }
    requires room { length chunks.now ≤ vec_capacity acknowledgements.old }
    ensures joined { AreJoined committed.now tickets.now acknowledgements.new.items }
    ensures few { vec_len acknowledgements.new ≤ length chunks.now }
    ensures room { vec_capacity acknowledgements.new ≡ vec_capacity acknowledgements.old }
{
    acknowledgements.clear();
    let Some((start, others)) = chunks.split_first() else {
        return;
    };
    let mut first = *start;
    let mut last = *start;
    let mut end = end_from(committed, first);
    for chunk in others {
        if *chunk >= end {
            push(acknowledgements, tickets, first, last);
            first = *chunk;
            end = end_from(committed, first);
        }
        last = *chunk;
    }
    push(acknowledgements, tickets, first, last);
}
