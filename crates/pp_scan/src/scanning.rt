// A store is read from the root down.
ghost use Rattle.std.specs.Prelude.{◌≡◌, ℕ, ◌<◌, Some, false, length, replicate};
ghost use Rattle.pp_terms.specs.format.Descriptor.{chunks_of, height_of, IsDescriptor};
ghost use Rattle.pp_terms.specs.disk.Disk.{IsKnown};
ghost use Rattle.pp_terms.specs.disk.Store.{HasHeader};
ghost use Rattle.pp_tree.specs.Book.{entry, IsBookOf, HasRootAlone};
ghost use Rattle.pp_scan.specs.Look.{KeepsAll, OnlySyncs, synced};
ghost use Rattle.pp_scan.specs.Layers.{HasKnown, HasOnlyKnown};
ghost use Rattle.pp_scan.specs.Gates.{ShowsGates};
ghost use Rattle.pp_scan.specs.Scan.{HasFound, OnRead};

use crate::gates::{keep_known, mark_last};
use crate::layers::know_nodes;
use crate::layout::{Difference, header_difference};
use pp_outside::Disk;
use pp_tree::{Book, ChunkSet, Descriptor};
use std::alloc::Global;
use thiserror::Error;

/// Why a store couldn't be scanned.
#[derive(Clone, Copy, Debug, PartialEq, Eq, Error)]
pub enum ScanFault {
    /// The file isn't empty and is no store of this descriptor's: byte `at`, below 64, is the first that differs from the
    /// header.
    #[error("not a store: byte {at} is {found}, wanted {want}")]
    NotAStore { at: u8, found: u8, want: u8 },
    /// The disk refused a call.
    #[error("the disk refused a call")]
    Disk,
    /// There was no memory for the set.
    #[error("no memory")]
    Memory,
}

/// Finds the chunks of a store whose gates are open and whose leaf and all peaks are known, and fills the book with the
/// nodes that the file lets be known. No byte of a chunk is read. The book is prepared and has the root alone. It takes its
/// memory first, then syncs, so that what it reads is on the disk.
///
/// An empty file has no chunk. The header is read once, and of each slot whose pair may be known the pair and the gate
/// together, once.
pub fn scan<D: Disk>(
    alloc: Global,
    descriptor: &Descriptor,
    disk: &mut D,
    book: &mut Book,
) -> Result<ChunkSet, ScanFault>
    requires alone { HasRootAlone descriptor.now (entry book.old) }
    requires descriptor { book.old.descriptor ≡ Some descriptor.now }

    ensures found { HasFound ((D.state disk.new ≡ D.state disk.old) × (book.new ≡ book.old)) descriptor.now
        (D.state disk.old) (D.state disk.new) (entry book.new) result }
    // Afterwards what reads give is the one image.
    ensures settled { IsKnown (D.state disk.old)
        → OnRead result ((D.state disk.new).history ≡ synced (D.state disk.old).history) }
    ensures looks { OnlySyncs (D.state disk.old) (D.state disk.new) }

    ensures book { IsBookOf descriptor.now book.new }
    ensures only { IsKnown (D.state disk.old) → HasOnlyKnown descriptor.now (D.state disk.old).history.reads (entry book.new) }
{
    match ChunkSet::none(alloc, descriptor.chunks()) {
        Ok(set) => scan_into(descriptor, disk, book, set),
        Err(_) => Err(ScanFault::Memory),
    }
}

/// Does what `scan` does, with a set of none of the content's chunks that has its memory already.
pub fn scan_into<D: Disk>(
    descriptor: &Descriptor,
    disk: &mut D,
    book: &mut Book,
    set: ChunkSet,
) -> Result<ChunkSet, ScanFault>
    requires alone { HasRootAlone descriptor.now (entry book.old) }
    requires descriptor { book.old.descriptor ≡ Some descriptor.now }
    requires none { set ≡ replicate (chunks_of descriptor.now) false }

    ensures found { HasFound ⊥ descriptor.now (D.state disk.old) (D.state disk.new) (entry book.new) result }
    ensures settled { IsKnown (D.state disk.old)
        → OnRead result ((D.state disk.new).history ≡ synced (D.state disk.old).history) }
    ensures looks { OnlySyncs (D.state disk.old) (D.state disk.new) }

    ensures book { IsBookOf descriptor.now book.new }
    ensures only { IsKnown (D.state disk.old) → HasOnlyKnown descriptor.now (D.state disk.old).history.reads (entry book.new) }
{
    // Its contract tells that the descriptor is one of a swarm's.
    let _ = descriptor.chunks();
    match disk.sync() {
        Ok(()) => scan_synced(descriptor, disk, book, set),
        Err(_) => Err(ScanFault::Disk),
    }
}

fn scan_synced<D: Disk>(
    descriptor: &Descriptor,
    disk: &mut D,
    book: &mut Book,
    set: ChunkSet,
) -> Result<ChunkSet, ScanFault>
    requires valid { IsDescriptor descriptor.now }
    requires alone { HasRootAlone descriptor.now (entry book.old) }
    requires descriptor { book.old.descriptor ≡ Some descriptor.now }
    requires none { set ≡ replicate (chunks_of descriptor.now) false }

    ensures found { HasFound ⊥ descriptor.now (D.state disk.old) (D.state disk.new) (entry book.new) result }
    ensures looks { KeepsAll (D.state disk.old) (D.state disk.new) }
    ensures book { IsBookOf descriptor.now book.new }
    ensures only { IsKnown (D.state disk.old) → HasOnlyKnown descriptor.now (D.state disk.old).history.reads (entry book.new) }
{
    match disk.len() {
        Ok(0) => Ok(set),
        Ok(len) => scan_file(descriptor, len, disk, book, set),
        Err(_) => Err(ScanFault::Disk),
    }
}

// The file isn't empty.
fn scan_file<D: Disk>(
    descriptor: &Descriptor,
    len: u64,
    disk: &mut D,
    book: &mut Book,
    set: ChunkSet,
) -> Result<ChunkSet, ScanFault>
    requires valid { IsDescriptor descriptor.now }
    requires alone { HasRootAlone descriptor.now (entry book.old) }
    requires descriptor { book.old.descriptor ≡ Some descriptor.now }
    requires none { set ≡ replicate (chunks_of descriptor.now) false }
    requires counted { IsKnown (D.state disk.old) → len ≡ length (D.state disk.old).history.reads }
    requires some { 0 < len }

    ensures found { HasFound ⊥ descriptor.now (D.state disk.old) (D.state disk.new) (entry book.new) result }
    ensures looks { KeepsAll (D.state disk.old) (D.state disk.new) }
    ensures book { IsBookOf descriptor.now book.new }
    ensures only { IsKnown (D.state disk.old) → HasOnlyKnown descriptor.now (D.state disk.old).history.reads (entry book.new) }
{
    match header_difference(descriptor, disk) {
        Ok(None) => scan_tree(descriptor, len, disk, book, set),
        Ok(Some(Difference { at, found, want })) => Err(ScanFault::NotAStore { at, found, want }),
        Err(_) => Err(ScanFault::Disk),
    }
}

// The file begins with the header.
fn scan_tree<D: Disk>(
    descriptor: &Descriptor,
    len: u64,
    disk: &mut D,
    book: &mut Book,
    mut set: ChunkSet,
) -> Result<ChunkSet, ScanFault>
    requires valid { IsDescriptor descriptor.now }
    requires alone { HasRootAlone descriptor.now (entry book.old) }
    requires descriptor { book.old.descriptor ≡ Some descriptor.now }
    requires none { set ≡ replicate (chunks_of descriptor.now) false }
    requires counted { IsKnown (D.state disk.old) → len ≡ length (D.state disk.old).history.reads }
    requires begins { IsKnown (D.state disk.old) → HasHeader descriptor.now (D.state disk.old).history.reads }

    ensures found { HasFound ⊥ descriptor.now (D.state disk.old) (D.state disk.new) (entry book.new) result }
    ensures looks { KeepsAll (D.state disk.old) (D.state disk.new) }
    ensures book { IsBookOf descriptor.now book.new }
    ensures only { IsKnown (D.state disk.old) → HasOnlyKnown descriptor.now (D.state disk.old).history.reads (entry book.new) }
{
    match know_nodes(descriptor, len, disk, book, &mut set) {
        Ok(()) => scan_gates(descriptor, disk, book, set),
        Err(_) => Err(ScanFault::Disk),
    }
}

// The book has the known nodes, and the set tells the gates that were read beside them.
fn scan_gates<D: Disk>(
    descriptor: &Descriptor,
    disk: &mut D,
    book: &Book,
    mut set: ChunkSet,
) -> Result<ChunkSet, ScanFault>
    requires descriptor { book.now.descriptor ≡ Some descriptor.now }
    requires room { length set ≡ chunks_of descriptor.now }
    requires begins { IsKnown (D.state disk.old) → HasHeader descriptor.now (D.state disk.old).history.reads }
    requires gates { IsKnown (D.state disk.old)
        → ShowsGates descriptor.now (D.state disk.old).history.reads (height_of descriptor.now) 0 (entry book.now) set }
    requires known { IsKnown (D.state disk.old) → HasKnown descriptor.now (D.state disk.old).history.reads (entry book.now) }

    ensures found { HasFound ⊥ descriptor.now (D.state disk.old) (D.state disk.new) (entry book.now) result }
    ensures looks { KeepsAll (D.state disk.old) (D.state disk.new) }
{
    match mark_last(descriptor, disk, book, &mut set) {
        Ok(()) => {
            keep_known(book, &mut set);
            Ok(set)
        }
        Err(_) => Err(ScanFault::Disk),
    }
}
