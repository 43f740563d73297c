// A seat's tickets, and the chunks of tickets.
ghost use Rattle.std.specs.Prelude.{◌≡◌, ◌+◌, ◌≤◌, ◌++◌, length, map, vec_len, vec_capacity};
ghost use Rattle.std.specs.List.Sorted.{IsNonDecreasing, IsPermutation};
ghost use Rattle.pp_news.specs.News.{of_seat, alone};

use crate::acknowledgement::Acknowledgement;
use crate::runs::range_of;
use pp_holding::Ticket;

// A seat's tickets, in their order.
pub(crate) fn take_own(own: &mut Vec<Ticket>, seat: u8, tickets: &[Ticket])
    requires room { length tickets.now ≤ vec_capacity own.old }
    ensures own { own.new.items ≡ of_seat seat tickets.now }
    ensures few { vec_len own.new ≤ length tickets.now }
    ensures room { vec_capacity own.new ≡ vec_capacity own.old }
{
    own.clear();
    for ticket in tickets {
        if ticket.seat == seat {
            own.push_reserved(*ticket);
        }
    }
}

// The tickets' chunks, in rising order.
pub(crate) fn sort_chunks(chunks: &mut Vec<u32>, tickets: &[Ticket])
    requires room { length tickets.now ≤ vec_capacity chunks.old }
    ensures chunks { IsPermutation (map (λ t. t.chunk) tickets.now) chunks.new.items }
    ensures rising { IsNonDecreasing chunks.new.items }
    ensures few { vec_len chunks.new ≡ length tickets.now }
    ensures room { vec_capacity chunks.new ≡ vec_capacity chunks.old }
{
    list_chunks(chunks, tickets);
    chunks.sort_unstable();
}

// The tickets' chunks, in the tickets' order.
fn list_chunks(chunks: &mut Vec<u32>, tickets: &[Ticket])
    requires room { length tickets.now ≤ vec_capacity chunks.old }
    ensures chunks { chunks.new.items ≡ map (λ t. t.chunk) tickets.now }
    ensures room { vec_capacity chunks.new ≡ vec_capacity chunks.old }
{
    chunks.clear();
    for ticket in tickets {
        chunks.push_reserved(ticket.chunk);
    }
}

// Behind others an acknowledgement for each ticket of a seat, of its chunk alone.
pub(crate) fn add_alone(acknowledgements: &mut Vec<Acknowledgement>, seat: u8, tickets: &[Ticket])
    requires room { vec_len acknowledgements.old + length tickets.now ≤ vec_capacity acknowledgements.old }
    ensures items { acknowledgements.new.items ≡ acknowledgements.old.items ++ map alone (of_seat seat tickets.now) }
    ensures few { vec_len acknowledgements.new ≤ vec_len acknowledgements.old + length tickets.now }
    ensures room { vec_capacity acknowledgements.new ≡ vec_capacity acknowledgements.old }
{
    for ticket in tickets {
        if ticket.seat == seat {
            acknowledgements.push_reserved(Acknowledgement {
                range: range_of(ticket.chunk, ticket.chunk),
                delay: ticket.delay,
            });
        }
    }
}
