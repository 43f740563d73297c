//! A peer at the end of a replay.
ghost use Rattle.std.specs.Prelude.{◌≡◌, length, IfOk};
ghost use Rattle.pp_outcome.specs.Outcome.{EndsAs};

use crate::announced::announced;
use crate::held::held;
use pp_actor::{Life, Remains};
use pp_outside::MemoryDisk;
use pp_tree::{ChunkSet, Descriptor};
use std::alloc::{AllocError, Global};

/// A peer at the end of a replay: what is left of it, how many chunks it announced in whatever life by HAVE or ACK,
/// each counted once, and which chunks its disk holds behind open gates.
#[derive(Drop)]
pub struct PeerEnd {
    remains: Remains,
    announced: u32,
    held: ChunkSet,
}

impl PeerEnd {
    /// The lives, the oldest first, each from an opening of the store that succeeded.
    pub fn lives(&self) -> &[Life]
        ensures { result.now ≡ self.now.remains.lives.items }
    {
        &self.remains.lives
    }

    /// How many lives there were.
    pub fn life_count(&self) -> usize
        ensures { result ≡ length self.now.remains.lives.items }
    {
        self.remains.lives.len()
    }

    /// How many chunks were announced.
    pub fn announced(&self) -> u32
        ensures { result ≡ self.now.announced }
    {
        self.announced
    }

    /// The chunks that are held behind open gates.
    pub fn held(&self) -> &ChunkSet
        ensures { result.now ≡ self.now.held }
    {
        &self.held
    }

    /// The disk.
    pub fn disk(&self) -> &MemoryDisk
        ensures { result.now ≡ self.now.remains.disk }
    {
        &self.remains.disk
    }
}

/// The end of a peer of which that is left. An error comes where memory is missing.
pub fn end_of(
    alloc: Global,
    descriptor: &Descriptor,
    remains: Remains,
) -> Result<PeerEnd, AllocError>
    ensures { IfOk result (EndsAs descriptor.now remains) }
{
    let announced = announced(alloc, descriptor, &remains.lives)?.count();
    let held = held(alloc, descriptor, remains.disk.bytes())?;
    Ok(PeerEnd {
        remains,
        announced,
        held,
    })
}
