// The command `upgrade STORE DESCRIPTOR`.
ghost use Rattle.std.specs.Prelude.{◌≡◌, ◌⊎◌};
ghost use Rattle.pp_terms.specs.disk.Disk.{IsKnown, GainsName};
ghost use Rattle.pp_terms.specs.disk.Untouched.{IsFreshlyAttached};
ghost use Rattle.pp_terms.specs.format.Traffic.{LinkState};
ghost use Rattle.pp_tree.specs.Book.{empty_book, IsBookOf};
ghost use Rattle.pp_node.specs.Outside.{outside};
ghost use Rattle.pp_node.specs.Upgrading.{UpgradesIn, IsUpgradeRun, ReportsUpgrade};

use crate::checking::put_not_a_store;
use crate::printing::put_counted;
use crate::ranges::put_held;
use crate::status::Status;
use pp_outside::{Disk, Sink, Source};
use pp_store::UpgradeFault;
use pp_stream::put_all;
use pp_tree::{Book, Descriptor};
use std::alloc::Global;

/// Makes the file of version 1 that the source gives the named store, and prints which chunks this holds. The book is empty
/// at entry.
pub(crate) fn upgrade<D: Disk, S: Source, K: Sink>(
    alloc: Global,
    store: &str,
    descriptor: &Descriptor,
    disk: &mut D,
    source: &mut S,
    sink: &mut K,
    book: &mut Book,
) -> Status
    requires { book.old ≡ empty_book }
    ensures ends { (link : LinkState)
        → UpgradesIn result descriptor.now (outside (D.state disk.old) link (S.state source.old) (K.state sink.old) book.old)
        (outside (D.state disk.new) link (S.state source.new) (K.state sink.new) book.new) }
    ensures run { IsUpgradeRun result descriptor.now (S.state source.old) (S.state source.new) (D.state disk.old) (D.state disk.new) }
    ensures named { IsKnown (D.state disk.old)
        → GainsName (D.state disk.old).history.names store.now (D.state disk.new).history.names }
    ensures rooted { (book.new ≡ book.old) ⊎ IsBookOf descriptor.now book.new }
{
    match disk.attach(store) {
        Ok(()) => upgrade_attached(alloc, descriptor, disk, source, sink, book),
        Err(_) => report(UpgradeFault::Disk, sink),
    }
}

fn upgrade_attached<D: Disk, S: Source, K: Sink>(
    alloc: Global,
    descriptor: &Descriptor,
    disk: &mut D,
    source: &mut S,
    sink: &mut K,
    book: &mut Book,
) -> Status
    requires empty { book.old ≡ empty_book }
    requires attached { IsKnown (D.state disk.old) → IsFreshlyAttached (D.state disk.old).history }
    ensures ends { (link : LinkState)
        → UpgradesIn result descriptor.now (outside (D.state disk.old) link (S.state source.old) (K.state sink.old) book.old)
        (outside (D.state disk.new) link (S.state source.new) (K.state sink.new) book.new) }
    ensures run { IsUpgradeRun result descriptor.now (S.state source.old) (S.state source.new) (D.state disk.old) (D.state disk.new) }
    ensures names { IsKnown (D.state disk.old) → (D.state disk.new).history.names ≡ (D.state disk.old).history.names }
    ensures rooted { (book.new ≡ book.old) ⊎ IsBookOf descriptor.now book.new }
{
    match pp_store::upgrade(alloc, descriptor, source, disk, book) {
        Ok(set) => match put_held(&set, descriptor.chunks(), sink) {
            Ok(()) => Status::Done,
            Err(_) => Status::SinkFault,
        },
        Err(fault) => report(fault, sink),
    }
}

// Says what was at fault. A line that the sink refuses is given up.
fn report<K: Sink>(fault: UpgradeFault, sink: &mut K) -> Status
    ensures { ReportsUpgrade fault result (K.state sink.old) (K.state sink.new) }
{
    match fault {
        UpgradeFault::NotEmpty { len } => {
            let _ = put_counted(sink, b"not empty: ", len, b" bytes\n");
            Status::NotEmpty
        }
        UpgradeFault::NotAStore { at, found, want } => {
            let _ = put_not_a_store(at, found, want, sink);
            Status::NotAStore
        }
        UpgradeFault::Source => {
            let _ = put_all(sink, b"source fault\n");
            Status::SourceFault
        }
        UpgradeFault::Disk => {
            let _ = put_all(sink, b"disk fault\n");
            Status::DiskFault
        }
        UpgradeFault::Memory => Status::Memory,
    }
}
