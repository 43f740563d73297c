// The chunks that a file holds, found by hashing them.
ghost use Rattle.std.specs.Prelude.{◌≡◌, ℕ, ◌^◌, ◌<◌, ◌≤◌, Some, true, false, length, is_some, slice_index_or, OnOk, IfOk};
ghost use Rattle.pp_terms.specs.format.Descriptor.{chunks_of};
ghost use Rattle.pp_terms.specs.disk.Disk.{IsKnown};
ghost use Rattle.pp_tree.specs.Book.{entry, IsBookOf, HasRootAlone};
ghost use Rattle.pp_scan.specs.Look.{KeepsAll, OnlyReads};
ghost use Rattle.pp_scan.specs.Layers.{HasOnlyKnown, HasKnown};
ghost use Rattle.pp_scan.specs.Holding.{is_there};
ghost use Rattle.pp_scan.specs.Verify.{HasVerified};

use crate::gates::keep_known;
use crate::layers::know_nodes;
use crate::layout::slot_place;
use crate::scanning::ScanFault;
use pp_outside::{Disk, DiskFault};
use pp_tree::{Book, ChunkSet, Descriptor, Node, leaf};
use std::alloc::Global;

// The greatest chunk, in bytes.
const ROOM: usize = 8192;

/// Finds out which chunks a file holds by hashing them, whatever their gates, and fills the book with the nodes that the
/// file lets be known. The book is prepared and has the root alone. No header is read, so that a file may be verified before
/// it is a store, and nothing is synced.
///
/// It takes its memory first. Each pair that may be known and each chunk whose leaf is known are read once. NotAStore never
/// comes.
pub fn verify<D: Disk>(
    alloc: Global,
    descriptor: &Descriptor,
    disk: &mut D,
    book: &mut Book,
) -> Result<ChunkSet, ScanFault>
    requires alone { HasRootAlone descriptor.now (entry book.old) }
    requires descriptor { book.old.descriptor ≡ Some descriptor.now }

    ensures found { HasVerified ((D.state disk.new ≡ D.state disk.old) × (book.new ≡ book.old)) descriptor.now
        (D.state disk.old) (D.state disk.new) (entry book.new) result }
    ensures looks { KeepsAll (D.state disk.old) (D.state disk.new) }

    ensures book { IsBookOf descriptor.now book.new }
    ensures only { IsKnown (D.state disk.old) → HasOnlyKnown descriptor.now (D.state disk.old).history.reads (entry book.new) }
{
    let set = match ChunkSet::none(alloc, descriptor.chunks()) {
        Ok(set) => set,
        Err(_) => return Err(ScanFault::Memory),
    };
    match disk.len() {
        Ok(len) => verify_file(descriptor, len, disk, book, set),
        Err(_) => Err(ScanFault::Disk),
    }
}

// `len` is the file's length in bytes.
fn verify_file<D: Disk>(
    descriptor: &Descriptor,
    len: u64,
    disk: &mut D,
    book: &mut Book,
    mut set: ChunkSet,
) -> Result<ChunkSet, ScanFault>
    requires alone { HasRootAlone descriptor.now (entry book.old) }
    requires descriptor { book.old.descriptor ≡ Some descriptor.now }
    requires room { length set ≡ chunks_of descriptor.now }
    requires counted { IsKnown (D.state disk.old) → len ≡ length (D.state disk.old).history.reads }

    ensures found { HasVerified ⊥ descriptor.now (D.state disk.old) (D.state disk.new) (entry book.new) result }
    ensures looks { KeepsAll (D.state disk.old) (D.state disk.new) }
    ensures book { IsBookOf descriptor.now book.new }
    ensures only { IsKnown (D.state disk.old) → HasOnlyKnown descriptor.now (D.state disk.old).history.reads (entry book.new) }
{
    // Its contract tells that the descriptor is one of a swarm's.
    let _ = descriptor.chunks();
    match know_nodes(descriptor, len, disk, book, &mut set) {
        Ok(()) => verify_chunks(descriptor, len, disk, book, set),
        Err(_) => Err(ScanFault::Disk),
    }
}

// The book has the known nodes.
pub(crate) fn verify_chunks<D: Disk>(
    descriptor: &Descriptor,
    len: u64,
    disk: &mut D,
    book: &Book,
    mut set: ChunkSet,
) -> Result<ChunkSet, ScanFault>
    requires descriptor { book.now.descriptor ≡ Some descriptor.now }
    requires room { length set ≡ chunks_of descriptor.now }
    requires few { length set ≤ 2 ^ 20 }
    requires counted { IsKnown (D.state disk.old) → len ≡ length (D.state disk.old).history.reads }
    requires known { IsKnown (D.state disk.old) → HasKnown descriptor.now (D.state disk.old).history.reads (entry book.now) }

    ensures found { HasVerified ⊥ descriptor.now (D.state disk.old) (D.state disk.new) (entry book.now) result }
    ensures looks { KeepsAll (D.state disk.old) (D.state disk.new) }
{
    if !book.has_peaks() {
        keep_known(book, &mut set);
        return Ok(set);
    }
    match hold_chunks(descriptor, len, disk, book, &mut set) {
        Ok(()) => Ok(set),
        Err(_) => Err(ScanFault::Disk),
    }
}

// Makes the set that of the chunks that lie inside the file and have the digest of their leaf in the book.
fn hold_chunks<D: Disk>(
    descriptor: &Descriptor,
    len: u64,
    disk: &mut D,
    book: &Book,
    set: &mut ChunkSet,
) -> Result<(), DiskFault>
    requires room { length set.old ≡ chunks_of descriptor.now }
    requires counted { IsKnown (D.state disk.old) → len ≡ length (D.state disk.old).history.reads }

    ensures looks { OnlyReads (D.state disk.old) result (D.state disk.new) }
    ensures count { length set.new ≡ length set.old }
    ensures leaf { OnOk result ((i : ℕ) → slice_index_or set.new i false ≡ true → is_some (entry book.now 0 i) ≡ true) }
    ensures held { IsKnown (D.state disk.old) → OnOk result ((i : ℕ) → i < chunks_of descriptor.now
        → slice_index_or set.new i false ≡ is_there descriptor.now (D.state disk.old).history.reads (entry book.now) i) }
{
    let mut buffer = [0u8; ROOM];
    for i in 0..descriptor.chunks() {
        match is_held(descriptor, len, i, disk, book, &mut buffer) {
            Ok(true) => set.insert(i),
            Ok(false) => set.remove(i),
            Err(fault) => return Err(fault),
        }
    }
    Ok(())
}

// Whether a chunk's bytes lie inside the file and have its leaf's digest. Of a chunk whose leaf isn't known nothing is read.
fn is_held<D: Disk>(
    descriptor: &Descriptor,
    len: u64,
    i: u32,
    disk: &mut D,
    book: &Book,
    buffer: &mut [u8; ROOM],
) -> Result<bool, DiskFault>
    requires within { i < chunks_of descriptor.now }
    requires counted { IsKnown (D.state disk.old) → len ≡ length (D.state disk.old).history.reads }

    ensures looks { OnlyReads (D.state disk.old) result (D.state disk.new) }
    ensures leaf { IfOk result (λ held. held ≡ true → is_some (entry book.now 0 i) ≡ true) }
    ensures held { IsKnown (D.state disk.old)
        → IfOk result (λ held. held ≡ is_there descriptor.now (D.state disk.old).history.reads (entry book.now) i) }
{
    let Some(digest) = book.get(Node {
        layer: 0,
        offset: i,
    }) else {
        return Ok(false);
    };
    let size = descriptor.chunk_len(i) as usize;
    let place = slot_place(descriptor.chunk(), i);
    if place + size as u64 > len {
        return Ok(false);
    }
    let bytes = &mut buffer[..size];
    match disk.read_at(place, bytes) {
        Ok(()) => Ok(*digest.bytes() == *leaf(bytes).bytes()),
        Err(fault) => Err(fault),
    }
}
