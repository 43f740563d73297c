//! The chunks that a disk's bytes hold behind open gates.
ghost use Rattle.std.specs.Prelude.{◌≡◌, ◌<◌, ◌&&◌, false, length, slice_index_or, IfOk};
ghost use Rattle.pp_terms.specs.disk.Image.{holds, is_open};
ghost use Rattle.pp_terms.specs.format.Descriptor.{chunks_of};
ghost use Rattle.pp_world.specs.Outcome.{is_held};
ghost use Rattle.pp_outcome.specs.Held.{IsSetOf};

use pp_outside::MemoryDisk;
use pp_scan::{OPEN_GATE, gate_place, verify};
use pp_tree::{Book, ChunkSet, Descriptor};
use std::alloc::{AllocError, Global};

// Whether the gate of a chunk is open in these bytes.
fn is_open(descriptor: &Descriptor, bytes: &[u8], i: u32) -> bool
    requires { i < chunks_of descriptor.now }
    ensures { result ≡ is_open descriptor.now bytes.now i }
{
    // The contract of `chunks` tells that there are few enough.
    let _ = descriptor.chunks();
    let place = gate_place(descriptor.chunk(), i) as usize;
    place < bytes.len() && bytes[place] == OPEN_GATE
}

// Takes out the chunks whose gates aren't open.
fn keep_open(descriptor: &Descriptor, bytes: &[u8], set: &mut ChunkSet)
    requires { length set.old ≡ chunks_of descriptor.now }
    ensures { IsSetOf (chunks_of descriptor.now)
        (λ i. is_open descriptor.now bytes.now i && slice_index_or set.old i false) set.new }
{
    for i in 0..descriptor.chunks() {
        if !is_open(descriptor, bytes, i) {
            set.remove(i);
        }
    }
}

// The chunks that a copy of the bytes holds, whatever their gates.
fn verified(alloc: Global, descriptor: &Descriptor, bytes: &[u8]) -> Result<ChunkSet, AllocError>
    ensures { IfOk result (IsSetOf (chunks_of descriptor.now) (holds descriptor.now bytes.now)) }
{
    let mut disk = MemoryDisk::new(alloc, bytes)?;
    let mut book = Book::empty(alloc);
    book.prepare(alloc, descriptor)?;
    match verify(alloc, descriptor, &mut disk, &mut book) {
        Ok(set) => Ok(set),
        Err(_) => Err(AllocError),
    }
}

/// The chunks that the bytes of a disk hold behind open gates.
pub(crate) fn held(
    alloc: Global,
    descriptor: &Descriptor,
    bytes: &[u8],
) -> Result<ChunkSet, AllocError>
    ensures { IfOk result (IsSetOf (chunks_of descriptor.now) (is_held descriptor.now bytes.now)) }
{
    let mut set = verified(alloc, descriptor, bytes)?;
    keep_open(descriptor, bytes, &mut set);
    Ok(set)
}
