// The command `check STORE DESCRIPTOR`.
ghost use Rattle.std.specs.Prelude.{◌≡◌, ◌⊎◌, OnOk};
ghost use Rattle.pp_terms.specs.Count.{HasCause};
ghost use Rattle.pp_terms.specs.command.Stream.{SourceState, Gains};
ghost use Rattle.pp_terms.specs.format.Traffic.{LinkState};
ghost use Rattle.pp_terms.specs.disk.Disk.{IsKnown, GainsName};
ghost use Rattle.pp_tree.specs.Book.{empty_book, IsBookOf};
ghost use Rattle.pp_node.specs.Outside.{outside};
ghost use Rattle.pp_node.specs.Looking.{IsUnwritten, Lasts};
ghost use Rattle.pp_terms.specs.command.Report.{not_a_store_line};
ghost use Rattle.pp_node.specs.Checking.{ChecksIn, ReportsScan};

use crate::looking::look;
use crate::printing::put_counted;
use crate::ranges::put_held;
use crate::status::Status;
use pp_outside::{Disk, Sink, SinkFault};
use pp_scan::ScanFault;
use pp_stream::put_all;
use pp_tree::{Book, Descriptor};
use std::alloc::Global;

/// Prints which chunks the named store holds.
pub(crate) fn check<D: Disk, K: Sink>(
    alloc: Global,
    store: &str,
    descriptor: &Descriptor,
    disk: &mut D,
    sink: &mut K,
    book: &mut Book,
) -> Status
    requires { book.old ≡ empty_book }
    ensures ends { (link : LinkState) (source : SourceState)
        → ChecksIn result descriptor.now (outside (D.state disk.old) link source (K.state sink.old) book.old)
        (outside (D.state disk.new) link source (K.state sink.new) book.new) }
    ensures unwritten { IsUnwritten (D.state disk.old) (D.state disk.new) }
    ensures lasts { IsKnown (D.state disk.old) → Lasts descriptor.now (D.state disk.new).history }
    ensures named { IsKnown (D.state disk.old)
        → GainsName (D.state disk.old).history.names store.now (D.state disk.new).history.names }
    ensures rooted { (book.new ≡ book.old) ⊎ IsBookOf descriptor.now book.new }
{
    match look(alloc, store, descriptor, disk, book) {
        Ok(set) => match put_held(&set, descriptor.chunks(), sink) {
            Ok(()) => Status::Done,
            Err(_) => Status::SinkFault,
        },
        Err(fault) => report(fault, sink),
    }
}

// Says what was at fault. A line that the sink refuses is given up.
fn report<K: Sink>(fault: ScanFault, sink: &mut K) -> Status
    ensures { ReportsScan fault result (K.state sink.old) (K.state sink.new) }
{
    match fault {
        ScanFault::NotAStore { at, found, want } => {
            let _ = put_not_a_store(at, found, want, sink);
            Status::NotAStore
        }
        ScanFault::Disk => {
            let _ = put_all(sink, b"disk fault\n");
            Status::DiskFault
        }
        ScanFault::Memory => Status::Memory,
    }
}

/// Says which byte of the file isn't the header's.
pub(crate) fn put_not_a_store<K: Sink>(
    at: u8,
    found: u8,
    want: u8,
    sink: &mut K,
) -> Result<(), SinkFault>
    ensures gained { OnOk result (Gains (K.state sink.old).taken (not_a_store_line at found want) (K.state sink.new).taken) }
    ensures cause { HasCause (K.state sink.old).faults (K.state sink.new).faults result }
{
    put_counted(sink, b"not a store: byte ", u64::from(at), b" is ")?;
    put_counted(sink, b"", u64::from(found), b", wanted ")?;
    put_counted(sink, b"", u64::from(want), b"\n")
}
