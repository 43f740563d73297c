// What a store tells of a swarm that is named without its size, and the command `check STORE DESC` for both kinds of name.
ghost use Rattle.std.specs.Prelude.{◌≡◌, ◌⊎◌, ℕ, OnOk};
ghost use Rattle.pp_terms.specs.Count.{HasCause};
ghost use Rattle.pp_terms.specs.command.Stream.{SourceState, Gains};
ghost use Rattle.pp_terms.specs.disk.Disk.{IsKnown, GainsName};
ghost use Rattle.pp_terms.specs.disk.Store.{HasHeader};
ghost use Rattle.pp_terms.specs.disk.Untouched.{IsFreshlyAttached};
ghost use Rattle.pp_terms.specs.format.Descriptor as terms;
ghost use Rattle.pp_terms.specs.format.Traffic.{LinkState};
ghost use Rattle.pp_terms.specs.tree.Content.{IsChunkSize};
ghost use Rattle.pp_scan.specs.Look.{KeepsAll};
ghost use Rattle.pp_tree.specs.Book.{empty_book, IsBookOf};
ghost use Rattle.pp_targets.specs.Target as targets;
ghost use Rattle.pp_targets.specs.Names.{name_of, target_of};
ghost use Rattle.pp_targets.specs.TargetText.{IsTarget};
ghost use Rattle.pp_named.specs.Told.{TellsDescriptor};
ghost use Rattle.pp_node.specs.Looking.{IsUnwritten, Lasts};
ghost use Rattle.pp_node.specs.Naming.{IsTold, FindsNamed, HasAttached, FindsTold, TellsNamed, IsRootedByName, IsInShape, fault_of_name, ReportsNaming, NamedChecksIn, TargetCheckEnds, shape_line};
ghost use Rattle.pp_node.specs.Outside.{outside};
ghost use Rattle.pp_node.specs.Status.{number_of};

use crate::checking::{check, put_not_a_store};
use crate::looking::look_into;
use crate::printing::put_counted;
use crate::ranges::put_held;
use crate::status::Status;
use pp_named::{NameFault, first_misshapen, probe_name};
use pp_outside::{Disk, Sink, SinkFault};
use pp_scan::ScanFault;
use pp_stream::put_all;
use pp_targets::{SwarmName, Target};
use pp_tree::{Book, ChunkSet, Descriptor, Node};
use std::alloc::Global;

/// What a store of a name has: the descriptor that its header tells, and the chunks that were found.
#[derive(Drop)]
pub(crate) struct Found {
    pub(crate) descriptor: Descriptor,
    pub(crate) set: ChunkSet,
}

/// Why nothing was found by a name.
#[derive(Clone, Copy, Debug, PartialEq, Eq)]
pub(crate) enum NamingFault {
    /// Byte `at`, below 64 and none of those that tell the size, is the first that differs from the header.
    NotAStore { at: u8, found: u8, want: u8 },
    /// The header tells a size in bytes that no descriptor of the name has.
    Size(u64),
    /// The book has this node, which covers no chunk and isn't 32 zero bytes.
    Shape(Node),
    /// The disk refused a call.
    Disk,
    /// There was no memory.
    Memory,
}

// The first byte of an empty file counts as a zero.
const EMPTY: NamingFault = NamingFault::NotAStore {
    at: 0,
    found: 0,
    want: b'P',
};

impl NamingFault {
    fn of_name(fault: NameFault) -> NamingFault
        ensures { result ≡ fault_of_name fault }
    {
        match fault {
            NameFault::NotAStore { at, found, want } => NamingFault::NotAStore { at, found, want },
            NameFault::Size(size) => NamingFault::Size(size),
            NameFault::Disk => NamingFault::Disk,
        }
    }
}

/// Prints which chunks the named store holds, by either form of its swarm's text.
pub(crate) fn check_target<D: Disk, K: Sink>(
    alloc: Global,
    store: &str,
    target: &Target,
    disk: &mut D,
    sink: &mut K,
    book: &mut Book,
) -> Status
    requires empty { book.old ≡ empty_book }
    requires valid { IsTarget (target_of target.now) }
    ensures { (link : LinkState) (source : SourceState)
        → TargetCheckEnds (number_of result) store.now (target_of target.now)
        (outside (D.state disk.old) link source (K.state sink.old) book.old)
        (outside (D.state disk.new) link source (K.state sink.new) book.new) }
{
    match target {
        Target::Sized(descriptor) => check(alloc, store, descriptor, disk, sink, book),
        Target::Auto(name) => check_by_name(alloc, store, name, disk, sink, book),
    }
}

// Prints which chunks the named store holds, of the descriptor that its header tells.
fn check_by_name<D: Disk, K: Sink>(
    alloc: Global,
    store: &str,
    name: &SwarmName,
    disk: &mut D,
    sink: &mut K,
    book: &mut Book,
) -> Status
    requires empty { book.old ≡ empty_book }
    requires size { IsChunkSize name.now.chunk }
    ensures ends { (link : LinkState) (source : SourceState)
        → NamedChecksIn result (name_of name.now) (outside (D.state disk.old) link source (K.state sink.old) book.old)
        (outside (D.state disk.new) link source (K.state sink.new) book.new) }
    ensures unwritten { IsUnwritten (D.state disk.old) (D.state disk.new) }
    ensures lasts { IsKnown (D.state disk.old) → (e : terms.Descriptor)
        → IsTold (name_of name.now) e (D.state disk.old) (D.state disk.new) → Lasts e (D.state disk.new).history }
    ensures named { IsKnown (D.state disk.old)
        → GainsName (D.state disk.old).history.names store.now (D.state disk.new).history.names }
    ensures rooted { IsRootedByName (name_of name.now) book.old book.new }
{
    match look_by_name(alloc, store, name, disk, book) {
        Ok(Found { descriptor, set }) => match put_held(&set, descriptor.chunks(), sink) {
            Ok(()) => Status::Done,
            Err(_) => Status::SinkFault,
        },
        Err(fault) => report(fault, sink),
    }
}

/// Attaches the named store and finds out which chunks it holds. It writes nothing, and syncs the store before it reads it.
pub(crate) fn look_by_name<D: Disk>(
    alloc: Global,
    store: &str,
    name: &SwarmName,
    disk: &mut D,
    book: &mut Book,
) -> Result<Found, NamingFault>
    requires empty { book.old ≡ empty_book }
    requires size { IsChunkSize name.now.chunk }
    ensures found { FindsNamed (name_of name.now) (D.state disk.old) (D.state disk.new) book.new result }
    ensures unwritten { IsUnwritten (D.state disk.old) (D.state disk.new) }
    ensures lasts { IsKnown (D.state disk.old) → (e : terms.Descriptor)
        → IsTold (name_of name.now) e (D.state disk.old) (D.state disk.new) → Lasts e (D.state disk.new).history }
    ensures named { IsKnown (D.state disk.old)
        → GainsName (D.state disk.old).history.names store.now (D.state disk.new).history.names }
    ensures rooted { IsRootedByName (name_of name.now) book.old book.new }
{
    match disk.attach(store) {
        Ok(()) => look_attached(alloc, name, disk, book),
        Err(_) => Err(NamingFault::Disk),
    }
}

fn look_attached<D: Disk>(
    alloc: Global,
    name: &SwarmName,
    disk: &mut D,
    book: &mut Book,
) -> Result<Found, NamingFault>
    requires empty { book.old ≡ empty_book }
    requires size { IsChunkSize name.now.chunk }
    requires attached { IsKnown (D.state disk.old) → IsFreshlyAttached (D.state disk.old).history }
    ensures found { FindsNamed (name_of name.now) (D.state disk.old) (D.state disk.new) book.new result }
    ensures unwritten { IsUnwritten (D.state disk.old) (D.state disk.new) }
    ensures lasts { IsKnown (D.state disk.old) → (e : terms.Descriptor)
        → IsTold (name_of name.now) e (D.state disk.old) (D.state disk.new) → Lasts e (D.state disk.new).history }
    ensures names { IsKnown (D.state disk.old) → (D.state disk.new).history.names ≡ (D.state disk.old).history.names }
    ensures rooted { IsRootedByName (name_of name.now) book.old book.new }
{
    match probe_name(name, disk) {
        Ok(Some(descriptor)) => look_told(alloc, descriptor, disk, book),
        Ok(None) => Err(EMPTY),
        Err(fault) => Err(NamingFault::of_name(fault)),
    }
}

/// Attaches the named store and reads which descriptor of the name its header tells; an empty file is a fault.
pub(crate) fn tell_descriptor<D: Disk>(
    store: &str,
    name: &SwarmName,
    disk: &mut D,
) -> Result<Descriptor, NamingFault>
    requires { IsChunkSize name.now.chunk }
    ensures told { TellsNamed (name_of name.now) (D.state disk.old) (D.state disk.new) result }
    ensures attached { HasAttached store.now (D.state disk.old) (D.state disk.new) }
{
    match find_descriptor(store, name, disk) {
        Ok(Some(descriptor)) => Ok(descriptor),
        Ok(None) => Err(EMPTY),
        Err(fault) => Err(fault),
    }
}

/// Attaches the named store and reads which descriptor of the name its header tells, None for an empty file.
pub(crate) fn find_descriptor<D: Disk>(
    store: &str,
    name: &SwarmName,
    disk: &mut D,
) -> Result<Option<Descriptor>, NamingFault>
    requires { IsChunkSize name.now.chunk }
    ensures told { FindsTold (name_of name.now) (D.state disk.old) (D.state disk.new) result }
    ensures attached { HasAttached store.now (D.state disk.old) (D.state disk.new) }
{
    match disk.attach(store) {
        Ok(()) => find_attached(name, disk),
        Err(_) => Err(NamingFault::Disk),
    }
}

fn find_attached<D: Disk>(name: &SwarmName, disk: &mut D) -> Result<Option<Descriptor>, NamingFault>
    requires size { IsChunkSize name.now.chunk }
    requires attached { IsKnown (D.state disk.old) → IsFreshlyAttached (D.state disk.old).history }
    ensures told { FindsTold (name_of name.now) (D.state disk.old) (D.state disk.new) result }
    ensures looks { KeepsAll (D.state disk.old) (D.state disk.new) }
{
    match probe_name(name, disk) {
        Ok(told) => Ok(told),
        Err(fault) => Err(NamingFault::of_name(fault)),
    }
}

// The header told this descriptor.
fn look_told<D: Disk>(
    alloc: Global,
    descriptor: Descriptor,
    disk: &mut D,
    book: &mut Book,
) -> Result<Found, NamingFault>
    requires empty { book.old ≡ empty_book }
    requires attached { IsKnown (D.state disk.old) → IsFreshlyAttached (D.state disk.old).history }
    requires begins { IsKnown (D.state disk.old) → HasHeader descriptor (D.state disk.old).history.reads }
    ensures found { (name : targets.SwarmName) → TellsDescriptor name (D.state disk.old) descriptor
        → FindsNamed name (D.state disk.old) (D.state disk.new) book.new result }
    ensures unwritten { IsUnwritten (D.state disk.old) (D.state disk.new) }
    ensures lasts { IsKnown (D.state disk.old) → Lasts descriptor (D.state disk.new).history }
    ensures names { IsKnown (D.state disk.old) → (D.state disk.new).history.names ≡ (D.state disk.old).history.names }
    ensures kept { IsKnown (D.state disk.old) → (D.state disk.new).history.found ≡ (D.state disk.old).history.reads }
    ensures rooted { (book.new ≡ book.old) ⊎ IsBookOf descriptor book.new }
{
    match look_into(alloc, &descriptor, disk, book) {
        Ok(set) => in_shape(descriptor, set, book),
        Err(ScanFault::NotAStore { at, found, want }) => {
            Err(NamingFault::NotAStore { at, found, want })
        }
        Err(ScanFault::Disk) => Err(NamingFault::Disk),
        Err(ScanFault::Memory) => Err(NamingFault::Memory),
    }
}

// Whether each node of the book that covers no chunk is 32 zero bytes.
fn in_shape(descriptor: Descriptor, set: ChunkSet, book: &Book) -> Result<Found, NamingFault>
    requires { IsBookOf descriptor book.now }
    ensures { IsInShape descriptor set book.now result }
{
    match first_misshapen(book) {
        Some(node) => Err(NamingFault::Shape(node)),
        None => Ok(Found { descriptor, set }),
    }
}

/// Says what was at fault. A line that the sink refuses is given up.
pub(crate) fn report<K: Sink>(fault: NamingFault, sink: &mut K) -> Status
    ensures { ReportsNaming fault result (K.state sink.old) (K.state sink.new) }
{
    match fault {
        NamingFault::NotAStore { at, found, want } => {
            let _ = put_not_a_store(at, found, want, sink);
            Status::NotAStore
        }
        NamingFault::Size(size) => {
            let _ = put_counted(sink, b"content size: ", size, b" bytes\n");
            Status::ContentSize
        }
        NamingFault::Shape(node) => {
            let _ = put_shape(node, sink);
            Status::Shape
        }
        NamingFault::Disk => {
            let _ = put_all(sink, b"disk fault\n");
            Status::DiskFault
        }
        NamingFault::Memory => Status::Memory,
    }
}

/// Says which node of a book covers no chunk and isn't 32 zero bytes.
pub(crate) fn put_shape<K: Sink>(node: Node, sink: &mut K) -> Result<(), SinkFault>
    ensures gained { OnOk result (Gains (K.state sink.old).taken (shape_line node.layer node.offset) (K.state sink.new).taken) }
    ensures cause { HasCause (K.state sink.old).faults (K.state sink.new).faults result }
{
    put_counted(sink, b"shape: node ", u64::from(node.layer), b" ")?;
    put_counted(sink, b"", u64::from(node.offset), b"\n")
}
