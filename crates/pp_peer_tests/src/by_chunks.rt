//! A peer by the chunks that come to it: which it takes, when they are committed, and what it says of them then.

use crate::by_datagrams::{
    FRONT, HAVE_ALL, NONE, OURS, PEER, PEX_REQ, REST, THEIRS, counts, proves, request, tells, told,
};
use crate::by_rows::{ack, have, options};
use crate::side::{ROOT, Side};
use pp_avail::Rank;
use pp_counts::Note;
use pp_outside::{Address, MemoryDisk, ZeroSource};
use pp_store::import;
use pp_tree::Descriptor;
use std::alloc::Global;
use std::test::*;

// The dialled peer replies, and has all seven chunks.
fn replied(side: &mut Side) -> bool {
    let reply: [&[u8]; 7] = [&OURS, &[0], &THEIRS, &FRONT, &ROOT, &REST, &HAVE_ALL];
    side.hears(PEER, 2, &reply)
}

// A peer that lacks all seven chunks. It dialled another, which has them, and asked for them.
pub(crate) fn fetcher(alloc: Global) -> Result<Side, Fail> {
    let mut side = Side::fetcher(alloc)?;
    side.waits(1);
    side.skip();
    replied(&mut side);
    Ok(side)
}

// How many bytes a datagram with chunk 0 and the hashes of its path has: its channel's number, five hashes in messages of 41
// bytes, and the chunk behind 17 bytes.
pub(crate) const SERVED: usize = 1250;

// The next datagram, if it is of that length.
fn next_served(side: &mut Side) -> Option<[u8; SERVED]> {
    let bytes = side.next()?;
    if bytes.len() != SERVED {
        return None;
    }
    let mut served = [0; SERVED];
    served.copy_from_slice(&bytes);
    Some(served)
}

// The datagram in which a seeder sends chunk 0 at moment 6, with the hashes of its path.
pub(crate) fn served(alloc: Global) -> Result<[u8; SERVED], Fail> {
    let mut side = Side::full(alloc)?;
    proves(&mut side, PEER, &OURS, 5);
    told(&mut side, 6, &request(0, 0));
    match next_served(&mut side) {
        Some(bytes) => Ok(bytes),
        None => Err("another datagram was sent".into()),
    }
}

// Whether all chunks are asked for.
fn asks_for_all(side: &mut Side) -> bool {
    side.says(PEER, &[&THEIRS, &request(0, 6), &PEX_REQ])
}

// Whether a chunk whose last byte is another one is refused, and asked for again.
fn refuses_a_wrong_chunk(side: &mut Side, bytes: &[u8; SERVED]) -> bool {
    let wrong: [&[u8]; 3] = [&OURS, &bytes[4..1249], &[bytes[1249] ^ 1]];
    if !counts(side, PEER, 7, Note::Wrong, &wrong) {
        return false;
    }
    side.flush();
    tells(side, PEER, &request(0, 0))
}

// Whether the right chunk is stored, and is told from one that came before.
fn stores_once(side: &mut Side, bytes: &[u8; SERVED]) -> bool {
    let right: [&[u8]; 2] = [&OURS, &bytes[4..]];
    counts(side, PEER, 9, Note::Stored, &right) && counts(side, PEER, 12, Note::Repeat, &right)
}

#[test]
fn a_chunk_is_judged_as_it_comes(rt: HostRuntime) -> Result<(), Fail> {
    let mut side = fetcher(rt.alloc())?;
    let bytes = served(rt.alloc())?;
    assert!(rt; asks_for_all(&mut side));
    assert!(rt; refuses_a_wrong_chunk(&mut side, &bytes));
    assert!(rt; stores_once(&mut side, &bytes));
    Ok(())
}

// Whether a chunk without its five hashes is counted as one that lacks them.
fn misses_hashes(side: &mut Side, bytes: &[u8; SERVED]) -> bool {
    counts(side, PEER, 7, Note::Missing, &[&OURS, &bytes[209..]])
}

#[test]
fn a_chunk_without_hashes_is_missing_them(rt: HostRuntime) -> Result<(), Fail> {
    let mut side = fetcher(rt.alloc())?;
    let bytes = served(rt.alloc())?;
    assert!(rt; misses_hashes(&mut side, &bytes));
    Ok(())
}

// A chunk comes, and is pending. Nothing is said of it yet.
fn is_pending(side: &mut Side, bytes: &[u8; SERVED]) -> bool {
    side.skip();
    let taken = side.takes(PEER, 9, &[&OURS, &bytes[4..]]);
    side.flush();
    taken && side.peer.pending() == 1 && side.is_silent()
}

// Nothing comes for a moment, and the chunk is committed. Whether it is acknowledged, and said to be there.
fn acknowledges(side: &mut Side) -> bool {
    side.waits(10)
        && side.peer.pending() == 0
        && side.says(PEER, &[&THEIRS, &ack(0, 0, 3), &have(0, 0)])
}

// Whether it is acknowledged again where it comes again.
fn acknowledges_again(side: &mut Side, bytes: &[u8; SERVED]) -> bool {
    told(side, 12, &bytes[4..]) && tells(side, PEER, &ack(0, 0, 6)) && side.is_silent()
}

#[test]
fn a_stored_chunk_is_acknowledged(rt: HostRuntime) -> Result<(), Fail> {
    let mut side = fetcher(rt.alloc())?;
    let bytes = served(rt.alloc())?;
    assert!(rt; is_pending(&mut side, &bytes));
    assert!(rt; acknowledges(&mut side));
    assert!(rt; acknowledges_again(&mut side, &bytes));
    Ok(())
}

// Chunk 0 is acknowledged, and chunk 1 is asked for.
const NEXT: [u8; 26] = [
    2, 0, 0, 0, 0, 0, 0, 0, 0, 0, 0, 0, 0, 0, 0, 0, 0, 8, 0, 0, 0, 1, 0, 0, 0, 1,
];

// How many bytes the datagram has that answers this, or 0 where there is none.
fn answer_length(side: &mut Side, at: u64, message: &[u8]) -> usize {
    if !told(side, at, message) {
        return 0;
    }
    match side.next() {
        Some(bytes) => bytes.len(),
        None => 0,
    }
}

// Whether chunk 0 goes with five hashes, in messages of 41 bytes, chunk 1 with none, and chunk 2 with one.
fn goes_with_hashes(side: &mut Side) -> bool {
    answer_length(side, 6, &request(0, 0)) == 1250
        && answer_length(side, 7, &NEXT) == 1045
        && answer_length(side, 8, &request(2, 2)) == 1086
}

#[test]
fn a_chunk_goes_with_the_hashes_that_are_lacked(rt: HostRuntime) -> Result<(), Fail> {
    let mut side = Side::full(rt.alloc())?;
    assert!(rt; proves(&mut side, PEER, &OURS, 5));
    assert!(rt; goes_with_hashes(&mut side) && side.is_silent());
    Ok(())
}

// A disk with a store of so many zeros in chunks of 256, and its swarm.
fn disk_of_zeros(alloc: Global, size: u64) -> Result<(Descriptor, MemoryDisk), Fail> {
    let mut disk = MemoryDisk::new(alloc, &[])?;
    let swarm = import(256, &mut ZeroSource::new(size), &mut disk)?;
    Ok((swarm, disk))
}

// The options of a handshake of a peer's swarm, which has chunks of 256 bytes.
pub(crate) fn options_of(side: &Side) -> [u8; 55] {
    options(side.peer.descriptor().root().bytes())
}

// A peer opens a channel of this number to a seeder.
pub(crate) fn opened(seeder: &mut Side, source: &[u8]) -> bool {
    let options = options_of(seeder);
    let done = seeder.hears(PEER, 2, &[&NONE, &[0], source, &options]);
    done && seeder.hears(PEER, 2, &[&OURS])
}

// A seeder of so many zeros.
pub(crate) fn seeder(alloc: Global, size: u64) -> Result<Side, Fail> {
    let (swarm, disk) = disk_of_zeros(alloc, size)?;
    Side::open(alloc, &swarm, None, &[], disk)
}

// A peer that fetches chunks of a seeder, both by channels of the same number.
#[derive(Drop)]
pub(crate) struct Pair {
    pub(crate) seeder: Side,
    pub(crate) fetcher: Side,
}

impl Pair {
    // A seeder of a hundred chunks, and a fetcher that dials these.
    pub(crate) fn open(alloc: Global, dials: &[Address]) -> Result<Pair, Fail> {
        let seeder = seeder(alloc, 25_600)?;
        let swarm = seeder.peer.descriptor();
        let fetcher = Side::empty(alloc, &swarm, Some(Rank::Sequential), dials)?;
        Ok(Pair { seeder, fetcher })
    }

    // The seeder replies, and has all chunks.
    fn replies(&mut self) -> bool {
        let options = options_of(&self.fetcher);
        self.fetcher.waits(1);
        let reply: [&[u8]; 5] = [&OURS, &[0], &OURS, &options, &have(0, 99)];
        self.fetcher.hears(PEER, 2, &reply)
    }

    // What was sent so far is passed over.
    pub(crate) fn skip(&mut self) {
        self.seeder.skip();
        self.fetcher.skip();
    }

    pub(crate) fn new(alloc: Global) -> Result<Pair, Fail> {
        let mut pair = Pair::open(alloc, &[PEER])?;
        opened(&mut pair.seeder, &OURS);
        pair.replies();
        pair.skip();
        Ok(pair)
    }

    // The datagram in which the seeder sends a chunk that it is asked for comes to the other.
    fn brings(&mut self, chunk: u8) -> bool {
        told(&mut self.seeder, 5, &request(chunk, chunk));
        match self.seeder.next() {
            Some(bytes) => self.fetcher.hear(PEER, 8, &bytes),
            None => false,
        }
    }

    // The same, and the seeder is told so.
    pub(crate) fn passes(&mut self, chunk: u8) -> bool {
        let done = self.brings(chunk);
        self.seeder.takes(PEER, 5, &[&OURS, &ack(chunk, chunk, 0)]);
        done
    }

    // Whether so many chunks are pending once these passed.
    fn pends(&mut self, first: u8, last: u8, count: u32) -> bool {
        for chunk in first..=last {
            if !self.passes(chunk) {
                return false;
            }
        }
        self.fetcher.peer.pending() == count
    }

    // Whether the first 64 chunks are committed at once.
    fn commits(&mut self) -> bool {
        self.pends(0, 62, 63) && self.pends(63, 63, 0) && self.pends(64, 64, 1)
    }

    // Whether the fetcher tells of chunk 64, once nothing comes for a moment.
    fn tells_of_the_last(&mut self) -> bool {
        self.fetcher.flush();
        self.fetcher.skip();
        self.fetcher.waits(9)
            && self
                .fetcher
                .says(PEER, &[&OURS, &ack(64, 64, 3), &have(64, 64)])
            && self.fetcher.is_silent()
    }
}

#[test]
fn chunks_are_committed_64_at_a_time(rt: HostRuntime) -> Result<(), Fail> {
    let mut pair = Pair::new(rt.alloc())?;
    assert!(rt; pair.commits());
    assert!(rt; pair.tells_of_the_last());
    Ok(())
}
