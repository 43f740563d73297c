// The command `export STORE DESCRIPTOR`.
ghost use Rattle.std.specs.Prelude.{◌≡◌, ◌⊎◌, ◌<◌, ◌≤◌, Some, length};
ghost use Rattle.pp_terms.specs.tree.Book.{IsRooted};
ghost use Rattle.pp_terms.specs.format.Descriptor.{IsDescriptor, chunks_of};
ghost use Rattle.pp_terms.specs.disk.Disk.{IsKnown, GainsName};
ghost use Rattle.pp_terms.specs.command.Stream.{SourceState};
ghost use Rattle.pp_terms.specs.format.Traffic.{LinkState};
ghost use Rattle.pp_tree.specs.Book.{BookState, entry, empty_book, IsBookOf};
ghost use Rattle.pp_node.specs.Outside.{outside};
ghost use Rattle.pp_scan.specs.Look.{KeepsAll};
ghost use Rattle.pp_node.specs.Looking.{IsFound, IsUnwritten, Lasts};
ghost use Rattle.pp_node.specs.Exporting.{ExportsIn, IsReadable, PutsRun, answer_of, status_of_scan, status_of_fault, status_of_put};

use crate::looking::look;
use crate::status::Status;
use pp_outside::{Disk, Sink};
use pp_scan::ScanFault;
use pp_store::{ReadFault, Run, read_run};
use pp_stream::put_all;
use pp_tree::{Book, ChunkSet, Descriptor};
use std::alloc::Global;

// How many bytes are read and written at once. It is a multiple of each chunk size.
const PIECE: usize = 65_536;

// Why a chunk wasn't written.
#[derive(Clone, Copy)]
enum PutFault {
    Disk,
    Sink,
    Damaged,
}

impl PutFault {
    fn status(self) -> Status
        ensures { result ≡ status_of_fault self }
    {
        match self {
            PutFault::Disk => Status::DiskFault,
            PutFault::Sink => Status::SinkFault,
            PutFault::Damaged => Status::Damaged,
        }
    }
}

/// Attaches the named store, scans it and, where it holds every chunk, writes the content to the sink, in pieces of up to
/// 64 KiB. Each chunk is read again, and its digest compared with the book's, before it is written. Nothing is said of a fault,
/// and nothing is written to the disk. The book is empty at entry.
pub(crate) fn export<D: Disk, K: Sink>(
    alloc: Global,
    store: &str,
    descriptor: &Descriptor,
    disk: &mut D,
    sink: &mut K,
    book: &mut Book,
) -> Status
    requires { book.old ≡ empty_book }
    ensures ends { (link : LinkState) (source : SourceState)
        → ExportsIn result descriptor.now (outside (D.state disk.old) link source (K.state sink.old) book.old)
        (outside (D.state disk.new) link source (K.state sink.new) book.new) }
    ensures unwritten { IsUnwritten (D.state disk.old) (D.state disk.new) }
    ensures lasts { IsKnown (D.state disk.old) → Lasts descriptor.now (D.state disk.new).history }
    ensures named { IsKnown (D.state disk.old)
        → GainsName (D.state disk.old).history.names store.now (D.state disk.new).history.names }
    ensures rooted { (book.new ≡ book.old) ⊎ IsBookOf descriptor.now book.new }
{
    match look(alloc, store, descriptor, disk, book) {
        Ok(set) => put_found(&set, descriptor, disk, sink, book),
        Err(fault) => status_of(fault),
    }
}

fn status_of(fault: ScanFault) -> Status
    ensures { result ≡ status_of_scan fault }
{
    match fault {
        ScanFault::NotAStore { .. } => Status::NotAStore,
        ScanFault::Disk => Status::DiskFault,
        ScanFault::Memory => Status::Memory,
    }
}

/// Writes the content, if the set has every chunk.
pub(crate) fn put_found<D: Disk, K: Sink>(
    set: &ChunkSet,
    descriptor: &Descriptor,
    disk: &mut D,
    sink: &mut K,
    book: &Book,
) -> Status
    requires found { IsFound descriptor.now (D.state disk.old) (D.state disk.old) (entry book.now) set.now }
    requires same { IsKnown (D.state disk.old) → (D.state disk.old).history.reads ≡ (D.state disk.old).history.found }
    requires rooted { IsRooted descriptor.now (entry book.now) }
    ensures ends { (link : LinkState) (source : SourceState) (before : BookState)
        → ExportsIn result descriptor.now (outside (D.state disk.old) link source (K.state sink.old) before)
        (outside (D.state disk.new) link source (K.state sink.new) book.now) }
    ensures looks { KeepsAll (D.state disk.old) (D.state disk.new) }
{
    match set.first_absent() {
        Some(_) => Status::Incomplete,
        None => match put_chunks(descriptor, disk, sink, book) {
            Ok(()) => Status::Done,
            Err(fault) => fault.status(),
        },
    }
}

// Writes all chunks in order.
fn put_chunks<D: Disk, K: Sink>(
    descriptor: &Descriptor,
    disk: &mut D,
    sink: &mut K,
    book: &Book,
) -> Result<(), PutFault>
    requires { IsReadable descriptor.now (D.state disk.old) (entry book.now) }
    ensures ends { (link : LinkState) (source : SourceState) (before : BookState)
        → ExportsIn (status_of_put result) descriptor.now (outside (D.state disk.old) link source (K.state sink.old) before)
        (outside (D.state disk.new) link source (K.state sink.new) book.now) }
    ensures looks { KeepsAll (D.state disk.old) (D.state disk.new) }
{
    let mut buffer = [0u8; PIECE];
    let mut next = 0;
    while next < descriptor.chunks() {
        match put_run(descriptor, next, disk, sink, book, &mut buffer) {
            Ok(count) => next += count,
            Err(fault) => return Err(fault),
        }
    }
    Ok(())
}

// Reads as many chunks as the buffer has room for, writes those that are right in one piece, and answers how many that is.
fn put_run<D: Disk, K: Sink>(
    descriptor: &Descriptor,
    first: u32,
    disk: &mut D,
    sink: &mut K,
    book: &Book,
    buffer: &mut [u8; PIECE],
) -> Result<u32, PutFault>
    requires within { first < chunks_of descriptor.now }
    requires readable { IsReadable descriptor.now (D.state disk.old) (entry book.now) }
    ensures puts { PutsRun descriptor.now first (K.state sink.old) (K.state sink.new) (D.state disk.old) (D.state disk.new) (entry book.now) result }
    ensures looks { KeepsAll (D.state disk.old) (D.state disk.new) }
    ensures later { (K.state sink.old).faults ≤ (K.state sink.new).faults }
    ensures valid { IsDescriptor descriptor.now }
{
    let chunk = u64::from(descriptor.chunk());
    let left = descriptor.size() - u64::from(first) * chunk;
    let run = read_run(descriptor, first, buffer, book, disk);
    let len = left.min(u64::from(run.count) * chunk) as usize;
    match put_all(sink, &buffer[..len]) {
        Ok(()) => answer_of(&run),
        Err(_) => Err(PutFault::Sink),
    }
}

// What is answered once the right chunks are written.
fn answer_of(run: &Run) -> Result<u32, PutFault>
    requires { run.now.fault ≡ Some ReadFault.Absent → ⊥ }
    ensures { result ≡ answer_of run.now.count run.now.fault }
{
    match run.fault {
        None => Ok(run.count),
        Some(ReadFault::Disk) => Err(PutFault::Disk),
        Some(ReadFault::Damaged { .. }) => Err(PutFault::Damaged),
        // The book has each chunk's leaf, so none is absent.
        Some(ReadFault::Absent) => unreachable!(),
    }
}
