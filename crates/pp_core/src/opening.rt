//! A peer that begins.

ghost use Rattle.std.specs.Prelude.{◌≡◌, ◌≤◌, ◌<◌, ◌^◌, ◌||◌, ℕ, false, length, map, slice_index_or, IfOk, OnOk};
ghost use Rattle.pp_terms.specs.format.Descriptor.{chunks_of};
ghost use Rattle.pp_core.specs.Opening.{NotesBelow, NotesIf, noted_one, IsSized, HasFetching, IsRoom, Begins};

use crate::peer::Peer;
use arrayvec::ArrayVec;
use pp_avail::Rank;
use pp_counts::Counts;
use pp_fetching::Fetching;
use pp_holding::Holding;
use pp_outside::Address;
use pp_peer::{Dials, Parts, Speaker, Supports};
use pp_pex::Pex;
use pp_requests::Slots;
use pp_seats::Seats;
use pp_tree::{ChunkSet, Descriptor};
use std::alloc::{AllocError, Global};

// What a peer needs beside its store: all memory that it will ever need was taken.
#[derive(Drop)]
pub(crate) struct Room {
    pub(crate) seats: Seats,
    pub(crate) fetching: Option<Fetching>,
    pub(crate) speaker: Speaker,
    pub(crate) dials: Dials,
}

// What a fetching peer keeps of requests and offers, while it has no chunk.
fn new_fetching(
    alloc: Global,
    descriptor: &Descriptor,
    asks: Option<Rank>,
) -> Result<Option<Fetching>, AllocError>
    ensures { IfOk result (HasFetching (chunks_of descriptor.now) asks) }
{
    if asks.is_none() {
        return Ok(None);
    }
    let chunks = descriptor.chunks();
    let none = ChunkSet::none(alloc, chunks)?;
    let fetching = Fetching::new(alloc, chunks, &none)?;
    Ok(Some(fetching))
}

// A chunk is had where it is committed.
fn note_one(fetching: &mut Fetching, committed: &ChunkSet, i: u32)
    requires { i < length committed.now }
    ensures { fetching.new ≡ noted_one i (slice_index_or committed.now i false) fetching.old }
{
    if committed.contains(i) {
        fetching.got(i);
    }
}

// All chunks that are committed are had.
fn note_committed(fetching: &mut Fetching, committed: &ChunkSet)
    requires { length committed.now ≡ length fetching.old.want.had }
    ensures { NotesBelow (length fetching.old.want.had) committed.now fetching.old fetching.new }
{
    let chunks = fetching.chunks();
    for i in 0..chunks {
        note_one(fetching, committed, i);
    }
}

impl Room {
    // Takes all memory.
    pub(crate) fn new(
        alloc: Global,
        descriptor: &Descriptor,
        random: [u8; 32],
        asks: Option<Rank>,
        dial: &ArrayVec<Address, 16>,
    ) -> Result<Room, AllocError>
        ensures { IfOk result (IsRoom descriptor.now random asks dial.now.items) }
    {
        let seats = Seats::new(alloc, descriptor, random)?;
        let fetching = new_fetching(alloc, descriptor, asks)?;
        let order = asks.unwrap_or(Rank::Sequential);
        let speaker = Speaker::new(alloc, order)?;
        Ok(Room {
            seats,
            fetching,
            speaker,
            dials: Dials::new(dial),
        })
    }
}

// What is committed is had, by a peer that fetches.
fn with_committed(fetching: Option<Fetching>, committed: &ChunkSet) -> Option<Fetching>
    requires { IsSized (length committed.now) fetching }
    ensures { NotesIf committed.now fetching result }
{
    match fetching {
        Some(mut fetching) => {
            note_committed(&mut fetching, committed);
            Some(fetching)
        }
        None => None,
    }
}

// The room becomes a peer over an open store.
pub(crate) fn begin(room: Room, holding: Holding) -> Peer
    requires chunks { length holding.store.committed ≡ chunks_of holding.store.descriptor }
    requires swarm { room.seats.descriptor ≡ holding.store.descriptor }
    requires sized { IsSized (chunks_of holding.store.descriptor) room.fetching }
    ensures { Begins room holding result }
{
    let fetching = with_committed(room.fetching, holding.committed());
    Peer {
        parts: Parts {
            seats: room.seats,
            holding,
            fetching,
            slots: Slots::new(),
            pex: Pex::new(),
            questions: [false; 64],
            to_prove: [false; 64],
            supports: [Supports::ALL; 64],
            counts: Counts::new(),
        },
        speaker: room.speaker,
        dials: room.dials,
    }
}
