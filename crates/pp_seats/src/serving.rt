//! Chunks that go out on the seats' channels.

ghost use Rattle.std.specs.Prelude.{◌≡◌, ◌<◌, MatchOption, true};
ghost use Rattle.pp_terms.specs.disk.Disk.{moment_of};
ghost use Rattle.pp_tree.specs.Book.{entry};
ghost use Rattle.pp_seats.specs.Serving.{CanServe, HasNothing, IsReadied, Launches, Serving, is_committed};

use crate::seats::Seats;
use pp_desk::{CommittedChunks, Service, deliver_chunk};
use pp_draft::{Delivery, Receiver, Unread};
use pp_outside::{Disk, Link};

/// What became of a seat's next chunk.
#[derive(Clone, Copy, Debug, PartialEq, Eq)]
pub enum Served {
    /// None may be sent on the channel now.
    Done,
    /// Chunks that aren't committed left the list; there may be others.
    Passed,
    /// The link took it.
    Sent,
    /// The link refused it, and it is given up.
    Refused,
    /// It couldn't be read, and is given up.
    Unread(Unread),
}

// A chunk that may go, and where to.
#[derive(Clone, Copy)]
pub(crate) struct Next {
    to: Receiver,
    chunk: u32,
}

impl Seats {
    // The chunk that may go next on a seat's channel.
    fn next_on(&self, seat: u8) -> Option<Next>
        requires { seat < 64 }
        ensures { MatchOption result (HasNothing self.now seat) (IsReadied self.now seat) }
    {
        let far = self.lives.far(seat)?;
        let known = &self.seats[seat as usize];
        if !far.begun || !known.is_proven() {
            return None;
        }
        let chunk = known.next()?;
        Some(Next {
            to: Receiver {
                address: far.address,
                channel: far.number,
            },
            chunk,
        })
    }

    // Sends a chunk that may go.
    fn launch<D: Disk, L: Link>(
        &mut self,
        seat: u8,
        next: &Next,
        chunks: &CommittedChunks,
        disk: &mut D,
        link: &mut L,
    ) -> Served
        requires seat { seat < 64 }
        requires readied { IsReadied self.old seat next.now }
        requires can { CanServe self.old.descriptor chunks.now.store.now (entry chunks.now.book.now) }
        requires committed { is_committed chunks.now.store.now next.now.chunk ≡ true }
        ensures { Launches seat chunks.now.store.now (entry chunks.now.book.now) result self.old self.new
            (L.seen link.old) (L.seen link.new) (D.state disk.old) (D.state disk.new) }
    {
        // Its contract tells how large a content can be.
        let _ = self.descriptor.chunks();
        let nodes = self.seats[seat as usize].plan(next.chunk);
        let reader = *chunks;
        let service = Service {
            delivery: Delivery {
                to: next.to,
                chunk: next.chunk,
                sent_at: self.moment,
                nodes: nodes.as_slice(),
                book: reader.book,
            },
            reader: &reader,
        };
        match deliver_chunk(
            &mut self.seats[seat as usize],
            &service,
            &self.descriptor,
            &mut self.out,
            disk,
            link,
        ) {
            Ok(true) => {
                self.lives.sent(seat, false, self.moment);
                Served::Sent
            }
            Ok(false) => Served::Refused,
            Err(unread) => Served::Unread(unread),
        }
    }

    /// Sends the next chunk that a seat's peer asked for and may be sent, behind the hashes that it lacks, in one datagram. One call
    /// sends one chunk at most.
    pub fn serve<D: Disk, L: Link>(
        &mut self,
        seat: u8,
        chunks: &CommittedChunks,
        disk: &mut D,
        link: &mut L,
    ) -> Served
        requires seat { seat < 64 }
        requires can { CanServe self.old.descriptor chunks.now.store.now (entry chunks.now.book.now) }
        ensures { Serving seat chunks.now.store.now (entry chunks.now.book.now) result self.old self.new
            (L.seen link.old) (L.seen link.new) (D.state disk.old) (D.state disk.new) }
    {
        let Some(next) = self.next_on(seat) else {
            return Served::Done;
        };
        let committed = chunks.store.committed().first_from(next.chunk);
        let first = committed.unwrap_or(self.descriptor.chunks());
        if next.chunk < first {
            self.seats[seat as usize].drop_below(first);
            return Served::Passed;
        }
        self.launch(seat, &next, chunks, disk, link)
    }
}
