// What is told of chunks that were committed.
ghost use Rattle.std.specs.Prelude.{◌≡◌, ◌≤◌, length, IfOk};
ghost use Rattle.pp_terms.specs.tree.Range.{IsRunsFrom};
ghost use Rattle.pp_holding.specs.Queue.{most_tickets};
ghost use Rattle.pp_news.specs.News.{no_news, of_seat, AreIn, AreRunsOf, AreAcknowledged};

use crate::acknowledgement::Acknowledgement;
use crate::runs::list_runs;
use crate::stretches::join;
use crate::tickets::{add_alone, sort_chunks, take_own};
use pp_holding::{MOST_TICKETS, Ticket};
use pp_ranges::ChunkRange;
use pp_tree::ChunkSet;
use std::alloc::{AllocError, Global};
use std::marker::Model;

/// What is told of chunks that were committed: their ranges to all channels, and acknowledgements on the channel of a sender.
/// Both are kept until they are asked for anew.
#[derive(Drop)]
pub struct News {
    ranges: Vec<ChunkRange>,
    acknowledgements: Vec<Acknowledgement>,
    // of the seat that is acknowledged
    own: Vec<Ticket>,
    // of tickets, in rising order
    chunks: Vec<u32>,
}

impl Model for News {
    ghost use Rattle.std.specs.Prelude.{◌≤◌, ◌+◌, length, vec_capacity};
    ghost use Rattle.pp_terms.specs.tree.Range.{IsRunsFrom};
    ghost use Rattle.pp_holding.specs.Queue.{most_tickets};
    ghost use Rattle.pp_news.specs.News.{NewsState};

    ghost Value = { NewsState };

    ghost view = { λ n. record { ranges = n.ranges.items; acknowledgements = n.acknowledgements.items } };

    ghost invariant = { λ n. (most_tickets ≤ vec_capacity n.ranges)
        × (most_tickets + most_tickets ≤ vec_capacity n.acknowledgements)
        × (most_tickets ≤ vec_capacity n.own) × (most_tickets ≤ vec_capacity n.chunks)
        × IsRunsFrom 0 n.ranges.items × (length n.ranges.items ≤ most_tickets) };
}

impl News {
    /// No news. All memory that is ever needed is taken here.
    pub fn new(alloc: Global) -> Result<News, AllocError>
        ensures { IfOk result (λ news. news ≡ no_news) }
    {
        Ok(News {
            ranges: Vec::with_capacity(alloc, MOST_TICKETS)?,
            acknowledgements: Vec::with_capacity(alloc, 2 * MOST_TICKETS)?,
            own: Vec::with_capacity(alloc, MOST_TICKETS)?,
            chunks: Vec::with_capacity(alloc, MOST_TICKETS)?,
        })
    }

    /// The chunks of at most 307 tickets, in the fewest ranges.
    pub fn gather(&mut self, tickets: &[Ticket])
        requires { length tickets.now ≤ most_tickets }
        ensures ranges { AreRunsOf tickets.now self.new.ranges }
        ensures same { self.new.acknowledgements ≡ self.old.acknowledgements }
    {
        sort_chunks(&mut self.chunks, tickets);
        list_runs(&mut self.ranges, self.chunks.as_slice());
    }

    /// The ranges that were gathered last, rising.
    pub fn ranges(&self) -> &[ChunkRange]
        ensures same { result.now ≡ self.now.ranges }
        ensures rising { IsRunsFrom 0 self.now.ranges }
        ensures few { length self.now.ranges ≤ most_tickets }
    {
        self.ranges.as_slice()
    }

    /// What is to be acknowledged on a seat's channel, of at most 307 tickets and as many repeats, each list with the oldest
    /// first: the chunks of the seat's tickets, which all are committed, in the fewest ranges of committed chunks, each with the
    /// delay of its newest ticket; then the chunk of each of its repeats, alone.
    pub fn acknowledge(
        &mut self,
        seat: u8,
        tickets: &[Ticket],
        repeats: &[Ticket],
        committed: &ChunkSet,
    )
        requires tickets { length tickets.now ≤ most_tickets }
        requires repeats { length repeats.now ≤ most_tickets }
        requires committed { AreIn committed.now (of_seat seat tickets.now) }
        ensures acknowledgements { AreAcknowledged committed.now (of_seat seat tickets.now) (of_seat seat repeats.now)
            self.new.acknowledgements }
        ensures same { self.new.ranges ≡ self.old.ranges }
    {
        take_own(&mut self.own, seat, tickets);
        let own = self.own.as_slice();
        sort_chunks(&mut self.chunks, own);
        join(
            &mut self.acknowledgements,
            own,
            self.chunks.as_slice(),
            committed,
        );
        add_alone(&mut self.acknowledgements, seat, repeats);
    }

    /// What is to be acknowledged on the channel of the seat that was asked for last.
    pub fn acknowledgements(&self) -> &[Acknowledgement]
        ensures { result.now ≡ self.now.acknowledgements }
    {
        self.acknowledgements.as_slice()
    }
}
