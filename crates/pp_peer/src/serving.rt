//! Chunks that go out.

ghost use Rattle.std.specs.Prelude.{◌≡◌, ◌<◌, ◌≤◌, ◌^◌};
ghost use Rattle.pp_terms.specs.format.Descriptor.{chunks_of};
ghost use Rattle.pp_tree.specs.Book.{entry};
ghost use Rattle.pp_seats.specs.Serving.{Serving};
ghost use Rattle.pp_peer.specs.Flushing.{Flushes};
ghost use Rattle.pp_peer.specs.Serving.{OnlySeats, ServesBelow, ServesSeat, counted, given_up, sent_of};
ghost use Rattle.pp_peer.specs.Taking.{after_some};

use crate::parts::Parts;
use pp_counts::Note;
use pp_desk::CommittedChunks;
use pp_draft::Unread;
use pp_outside::{Disk, Link};
use pp_seats::Served;

// How many chunks are sent on a seat's channel at a time.
const MOST_SENT: u32 = 512;

// What is counted of what became of a chunk.
fn counted(served: Served) -> Option<Note>
    ensures { result ≡ counted served }
{
    match served {
        Served::Done => None,
        Served::Passed | Served::Unread(Unread::Absent) => Some(Note::Unheld),
        Served::Sent => Some(Note::Sent),
        Served::Refused => Some(Note::SendFault),
        Served::Unread(Unread::Disk) => Some(Note::ReadFault),
        Served::Unread(Unread::Damaged) => Some(Note::Damaged),
    }
}

impl Parts {
    /// Sends the next chunk that a seat's peer asked for and may be sent, behind the hashes that it lacks (RFC 7574,
    /// sections 3.7 and 5.4). One call sends one chunk at most; where the link refuses it, or it can't be read, it is
    /// given up.
    pub fn serve_one<D: Disk, L: Link>(&mut self, seat: u8, disk: &mut D, link: &mut L) -> Served
        requires seat { seat < 64 }
        requires swarm { self.old.seats.descriptor ≡ self.old.holding.store.descriptor }
        ensures serves { Serving seat self.old.holding.store (entry self.old.holding.book) result
            self.old.seats self.new.seats (L.seen link.old) (L.seen link.new) (D.state disk.old) (D.state disk.new) }
        ensures counts { self.new.counts ≡ after_some (counted result) self.old.counts }
        ensures rest { OnlySeats self.old self.new }
        ensures flushes { Flushes (given_up result)
            (record { parts = self.old; link = L.seen link.old; disk = D.state disk.old })
            (record { parts = self.new; link = L.seen link.new; disk = D.state disk.new }) }
    {
        let chunks = CommittedChunks {
            store: self.holding.store(),
            book: self.holding.book(),
        };
        let served = self.seats.serve(seat, &chunks, disk, link);
        match counted(served) {
            Some(note) => self.counts.note(note),
            None => {}
        }
        served
    }

    /// Sends the chunks that a seat's peer asked for and may be sent, one after the other, until nothing may be sent
    /// there any more, or 512 were. Answers how many were given up, since the link refused them or they couldn't be
    /// read.
    pub fn serve_seat<D: Disk, L: Link>(&mut self, seat: u8, disk: &mut D, link: &mut L) -> u32
        requires seat { seat < 64 }
        requires swarm { self.old.seats.descriptor ≡ self.old.holding.store.descriptor }
        ensures serves { ServesSeat seat result
            (record { parts = self.old; link = L.seen link.old; disk = D.state disk.old })
            (record { parts = self.new; link = L.seen link.new; disk = D.state disk.new }) }
        ensures rest { OnlySeats self.old self.new }
        ensures few { result ≤ chunks_of self.old.holding.store.descriptor }
        ensures flushes { Flushes result
            (record { parts = self.old; link = L.seen link.old; disk = D.state disk.old })
            (record { parts = self.new; link = L.seen link.new; disk = D.state disk.new }) }
    {
        // Their contracts tell how many chunks there may be.
        let _ = self.holding.store();
        let _ = self.holding.chunks();
        let mut sent: u32 = 0;
        let mut given_up: u32 = 0;
        while sent < MOST_SENT {
            match self.serve_one(seat, disk, link) {
                Served::Done => return given_up,
                Served::Passed => {}
                Served::Sent => sent += 1,
                Served::Refused => given_up += 1,
                Served::Unread(_) => given_up += 1,
            }
        }
        given_up
    }

    /// Sends what each seat's peer asked for and may be sent, seat by seat, at most 512 chunks each. Answers how many
    /// were given up.
    pub fn serve_all<D: Disk, L: Link>(&mut self, disk: &mut D, link: &mut L) -> u32
        requires { self.old.seats.descriptor ≡ self.old.holding.store.descriptor }
        ensures serves { ServesBelow 64 result
            (record { parts = self.old; link = L.seen link.old; disk = D.state disk.old })
            (record { parts = self.new; link = L.seen link.new; disk = D.state disk.new }) }
        ensures rest { OnlySeats self.old self.new }
        ensures few { result ≤ 2 ^ 26 }
        ensures flushes { Flushes result
            (record { parts = self.old; link = L.seen link.old; disk = D.state disk.old })
            (record { parts = self.new; link = L.seen link.new; disk = D.state disk.new }) }
    {
        // Its contract tells how large a content can be.
        let _ = self.seats.descriptor().chunks();
        let mut given_up: u32 = 0;
        for seat in 0..64 {
            given_up += self.serve_seat(seat, disk, link);
        }
        given_up
    }
}
