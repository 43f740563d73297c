//! Holdings of a content of seventy chunks, and of a single chunk. What is wanted was worked out by hand.

use crate::swarm::{Swarm, bytes_of, claims_of, small_chunks};
use pp_holding::{Holding, Parcel, Ticket};
use pp_outside::{Call, MemoryDisk};
use pp_paths::Claims;
use pp_tree::Descriptor;
use std::alloc::Global;
use std::test::Fail;

#[derive(Clone, Copy)]
enum Step {
    // these chunks
    Put(u32, u32),
    Settle(bool, u64),
    Forget,
    // The next sync is refused.
    Refuse,
}

// How many chunks are committed and pending, and how many tickets and repeats there are.
type Stand = (u32, u32, usize, usize);

// A content, and what is held of it over a disk that was empty.
#[derive(Drop)]
struct Kept {
    alloc: Global,
    swarm: Swarm,
    disk: MemoryDisk,
    holding: Holding,
}

// The tests need little of what this call does, and a longer context costs the prover minutes.
fn opened(alloc: Global, descriptor: &Descriptor, disk: &mut MemoryDisk) -> Result<Holding, Fail> {
    Ok(Holding::open(alloc, descriptor, disk)?)
}

impl Kept {
    // Of so many bytes in chunks of 256.
    fn new(alloc: Global, size: usize) -> Result<Kept, Fail> {
        let swarm = small_chunks(alloc, size)?;
        let mut disk = MemoryDisk::new(alloc, &[])?;
        let holding = opened(alloc, &swarm.descriptor, &mut disk)?;
        Ok(Kept {
            alloc,
            swarm,
            disk,
            holding,
        })
    }

    // Puts bytes as a chunk at moment 10, where the content has that chunk.
    fn put(&mut self, ticket: Ticket, bytes: &[u8], claims: &Claims) -> bool {
        let parcel = Parcel {
            ticket,
            bytes,
            at: 10,
        };
        ticket.chunk < self.holding.chunks()
            && self.holding.put(&parcel, claims, &mut self.disk).is_ok()
    }

    // Puts a chunk of the content with these claims, from the seat of its number's last digit.
    fn put_proven(&mut self, i: u32, claims: &Claims) -> bool {
        if i >= self.swarm.descriptor.chunks() {
            return false;
        }
        let ticket = Ticket {
            chunk: i,
            seat: (i % 10) as u8,
            delay: u64::from(i) + 1000,
        };
        let len = (self.swarm.descriptor.chunk_len(i) as usize).min(256);
        let bytes = bytes_of(self.swarm.descriptor.chunk(), i);
        self.put(ticket, &bytes[..len], claims)
    }

    // Puts a chunk with what proves it.
    fn put_chunk(&mut self, i: u32) -> bool {
        match claims_of(self.alloc, &self.swarm, i) {
            Ok(claims) => self.put_proven(i, &claims),
            Err(_) => false,
        }
    }

    fn make(&mut self, step: Step) {
        match step {
            Step::Put(first, last) => {
                for i in first..last {
                    self.put_chunk(i);
                }
            }
            Step::Settle(is_quiet, now) => {
                let _ = self.holding.settle(is_quiet, now, &mut self.disk);
            }
            Step::Forget => self.holding.forget_tickets(),
            Step::Refuse => self.disk.fail_next(Call::Sync),
        }
    }

    fn stand(&self) -> Stand {
        (
            self.holding.committed().count(),
            self.holding.pending(),
            self.holding.tickets().len(),
            self.holding.repeats().len(),
        )
    }

    // Whether each step comes to what is wanted, and the tickets are then those of the first chunks.
    fn keeps_to(&mut self, steps: &[(Step, Stand)]) -> bool {
        for (step, want) in steps {
            self.make(*step);
            if self.stand() != *want {
                return false;
            }
        }
        are_in_order(self.holding.tickets())
    }
}

// Takes steps from a new store on.
fn keeps_to(alloc: Global, size: usize, steps: &[(Step, Stand)]) -> Result<bool, Fail> {
    let mut kept = Kept::new(alloc, size)?;
    Ok(kept.keeps_to(steps))
}

// Whether tickets are those of the first chunks by rising number, each with its seat and delay.
fn are_in_order(tickets: &[Ticket]) -> bool {
    for (i, ticket) in tickets.iter().enumerate() {
        if ticket.chunk as usize != i || ticket.seat as usize != i % 10 {
            return false;
        }
        if ticket.delay != u64::from(ticket.chunk) + 1000 {
            return false;
        }
    }
    true
}

// Sixty-four chunks are committed at once.
const AT_ONCE: [(Step, Stand); 5] = [
    (Step::Put(0, 63), (0, 63, 0, 0)),
    (Step::Put(63, 64), (64, 0, 64, 0)),
    (Step::Put(64, 65), (64, 1, 64, 0)),
    (Step::Settle(false, 10), (64, 1, 64, 0)),
    (Step::Settle(true, 10), (65, 0, 65, 0)),
];

// A chunk is pending for a tenth of a second at most.
const IN_TIME: [(Step, Stand); 7] = [
    (Step::Put(3, 4), (0, 1, 0, 0)),
    // the same again, which is pending
    (Step::Put(3, 4), (0, 1, 0, 0)),
    (Step::Settle(false, 100_009), (0, 1, 0, 0)),
    (Step::Settle(false, 100_010), (1, 0, 1, 0)),
    // twice more, which is committed
    (Step::Put(3, 4), (1, 0, 1, 1)),
    (Step::Put(3, 4), (1, 0, 1, 2)),
    (Step::Forget, (1, 0, 0, 0)),
];

// The last chunk is committed with its event.
const AT_THE_END: [(Step, Stand); 2] = [
    (Step::Put(0, 1), (0, 1, 0, 0)),
    (Step::Settle(false, 10), (1, 0, 1, 0)),
];

// A refused sync ends it.
const REFUSED: [(Step, Stand); 5] = [
    (Step::Put(3, 4), (0, 1, 0, 0)),
    (Step::Refuse, (0, 1, 0, 0)),
    (Step::Settle(true, 10), (0, 1, 0, 0)),
    // The disk would take it now.
    (Step::Settle(true, 11), (0, 1, 0, 0)),
    (Step::Put(4, 5), (0, 1, 0, 0)),
];

#[test]
fn chunks_are_committed_in_batches(rt: HostRuntime) -> Result<(), Fail> {
    let alloc = rt.alloc();
    assert!(rt; keeps_to(alloc, 17_920, &AT_ONCE)?);
    assert!(rt; keeps_to(alloc, 17_920, &IN_TIME)?);
    assert!(rt; keeps_to(alloc, 3, &AT_THE_END)?);
    assert!(rt; keeps_to(alloc, 17_920, &REFUSED)?);
    Ok(())
}
