//! Chunks that wait for a commit, and the tickets of those that were committed, just now or before they came.

ghost use Rattle.std.specs.Prelude.{◌≡◌, ◌<◌, ◌≤◌, [], ◌∷◌, ◌++◌, length, map, take, IfOk, vec_capacity, vec_len};
ghost use Rattle.pp_promises.specs.Batches.{most_pending};
ghost use Rattle.pp_holding.specs.Queue.{empty_queue, most_tickets, with_tickets, waiting_at, released, with_waiting, with_repeat, HasRoom, is_any_late};

use arrayvec::ArrayVec;
use std::alloc::{AllocError, Global};
use std::marker::Model;

// So many chunks are pending at the most.
pub(crate) const MOST_WAITING: usize = 64;

// How long a chunk is pending at the most while something comes, in microseconds.
const LONGEST_WAIT: u64 = 100_000;

/// So many tickets there are at the most, and as many repeats: a datagram has room for 243 DATA, and fewer than 64 chunks were pending
/// before it.
pub const MOST_TICKETS: usize = 307;

/// Whom a chunk came from: a seat, from 0 to 63, and the delay sample for its ACK.
#[derive(Clone, Copy, PartialEq, Eq, Debug, Default)]
pub struct Ticket {
    pub chunk: u32,
    pub seat: u8,
    pub delay: u64,
}

/// A chunk that is pending, and the moment at which it was put, in microseconds.
#[derive(Clone, Copy, Default)]
pub(crate) struct Waiting {
    ticket: Ticket,
    put_at: u64,
}

/// What waits for a commit, the tickets of what was committed since they were last taken, and those of DATA that repeated what was
/// committed already.
#[derive(Drop)]
pub(crate) struct Queue {
    // the oldest first
    waiting: ArrayVec<Waiting, MOST_WAITING>,
    // both with room for the most
    tickets: Vec<Ticket>,
    repeats: Vec<Ticket>,
}

impl Model for Queue {
    ghost use Rattle.std.specs.Prelude.{◌≤◌, reverse, vec_len, vec_capacity};
    ghost use Rattle.pp_holding.specs.Queue.{QueueState};

    ghost Value = { QueueState };

    ghost view = { λ q. record { waiting = reverse q.waiting.items; tickets = q.tickets.items; repeats = q.repeats.items } };

    ghost invariant = { λ q. (vec_len q.tickets ≤ 307) × (307 ≤ vec_capacity q.tickets)
        × (vec_len q.repeats ≤ 307) × (307 ≤ vec_capacity q.repeats) };
}

// A ticket more, where there is room.
fn add(tickets: &mut Vec<Ticket>, ticket: Ticket)
    requires room { most_tickets ≤ vec_capacity tickets.old }
    requires few { vec_len tickets.old ≤ most_tickets }
    ensures items { tickets.new.items ≡ with_tickets tickets.old.items (ticket ∷ []) }
    ensures few { vec_len tickets.new ≤ most_tickets }
    ensures room { most_tickets ≤ vec_capacity tickets.new }
{
    if tickets.len() < MOST_TICKETS {
        tickets.push_reserved(ticket);
    }
}

// Those of chunks that waited.
fn add_all(tickets: &mut Vec<Ticket>, waiting: &[Waiting])
    requires room { most_tickets ≤ vec_capacity tickets.old }
    requires few { vec_len tickets.old ≤ most_tickets }
    ensures items { tickets.new.items ≡ with_tickets tickets.old.items (map (λ w. w.ticket) waiting.now) }
    ensures few { vec_len tickets.new ≤ most_tickets }
    ensures room { most_tickets ≤ vec_capacity tickets.new }
{
    for one in waiting {
        add(tickets, one.ticket);
    }
}

// Whether some chunk waits for long.
fn is_any_late(waiting: &[Waiting], now: u64) -> bool
    ensures { result ≡ is_any_late now waiting.now }
{
    waiting
        .iter()
        .any(|one| now.saturating_sub(one.put_at) >= LONGEST_WAIT)
}

impl Queue {
    /// Nothing waits, and there are no tickets.
    pub(crate) fn new(alloc: Global) -> Result<Queue, AllocError>
        ensures { IfOk result (λ q. q ≡ empty_queue) }
    {
        Ok(Queue {
            waiting: ArrayVec::new(),
            tickets: Vec::with_capacity(alloc, MOST_TICKETS)?,
            repeats: Vec::with_capacity(alloc, MOST_TICKETS)?,
        })
    }

    /// A chunk was stored. It is the newest that waits.
    pub(crate) fn wait(&mut self, ticket: Ticket, at: u64)
        requires { length self.old.waiting < most_pending }
        ensures { self.new ≡ with_waiting (waiting_at ticket at) self.old }
    {
        self.waiting.push(Waiting { ticket, put_at: at });
    }

    /// A chunk came that is committed already, and its sender is to be acknowledged.
    pub(crate) fn acknowledge(&mut self, ticket: Ticket)
        ensures { self.new ≡ with_repeat ticket self.old }
    {
        add(&mut self.repeats, ticket);
    }

    /// All that waits was committed.
    pub(crate) fn release(&mut self)
        ensures { self.new ≡ released self.old }
    {
        add_all(&mut self.tickets, self.waiting.as_slice());
        self.waiting.clear();
    }

    /// How many chunks wait.
    pub(crate) fn len(&self) -> usize
        ensures { result ≡ length self.now.waiting }
    {
        self.waiting.len()
    }

    /// Whether some chunk waits for long.
    pub(crate) fn is_late(&self, now: u64) -> bool
        ensures { result ≡ is_any_late now self.now.waiting }
    {
        is_any_late(self.waiting.as_slice(), now)
    }

    /// Whose chunks were just committed, the oldest first.
    pub(crate) fn tickets(&self) -> &[Ticket]
        ensures same { result.now ≡ self.now.tickets }
        ensures few { HasRoom self.now }
    {
        self.tickets.as_slice()
    }

    /// Whose chunks were committed already, the oldest first.
    pub(crate) fn repeats(&self) -> &[Ticket]
        ensures same { result.now ≡ self.now.repeats }
        ensures few { HasRoom self.now }
    {
        self.repeats.as_slice()
    }

    /// All of them were taken.
    pub(crate) fn forget_tickets(&mut self)
        ensures { self.new ≡ record self.old { tickets = []; repeats = [] } }
    {
        self.tickets.clear();
        self.repeats.clear();
    }
}
