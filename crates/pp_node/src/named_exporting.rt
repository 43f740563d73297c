// The command `export STORE DESC`, also where DESC names a swarm without its size, which the store's header tells.
ghost use Rattle.std.specs.Prelude.{◌≡◌};
ghost use Rattle.pp_terms.specs.command.Stream.{SourceState};
ghost use Rattle.pp_terms.specs.disk.Disk.{IsKnown, GainsName};
ghost use Rattle.pp_terms.specs.format.Descriptor.{Descriptor};
ghost use Rattle.pp_terms.specs.format.Traffic.{LinkState};
ghost use Rattle.pp_terms.specs.tree.Content.{IsChunkSize};
ghost use Rattle.pp_tree.specs.Book.{empty_book};
ghost use Rattle.pp_targets.specs.Names.{name_of, target_of};
ghost use Rattle.pp_targets.specs.TargetText.{IsTarget};
ghost use Rattle.pp_node.specs.Looking.{IsUnwritten, Lasts};
ghost use Rattle.pp_node.specs.Naming.{IsTold, IsRootedByName};
ghost use Rattle.pp_node.specs.NamedExporting.{NamedExportsIn, TargetExportEnds, status_of_naming};
ghost use Rattle.pp_node.specs.Outside.{outside};
ghost use Rattle.pp_node.specs.Status.{number_of};

use crate::exporting::{export, put_found};
use crate::naming::{NamingFault, look_by_name};
use crate::status::Status;
use pp_outside::{Disk, Sink};
use pp_targets::{SwarmName, Target};
use pp_tree::Book;
use std::alloc::Global;

/// Writes the content of the named store to the sink, by either form of its swarm's text.
pub(crate) fn export_target<D: Disk, K: Sink>(
    alloc: Global,
    store: &str,
    target: &Target,
    disk: &mut D,
    sink: &mut K,
    book: &mut Book,
) -> Status
    requires empty { book.old ≡ empty_book }
    requires valid { IsTarget (target_of target.now) }
    ensures { (link : LinkState) (source : SourceState)
        → TargetExportEnds (number_of result) store.now (target_of target.now)
        (outside (D.state disk.old) link source (K.state sink.old) book.old)
        (outside (D.state disk.new) link source (K.state sink.new) book.new) }
{
    match target {
        Target::Sized(descriptor) => export(alloc, store, descriptor, disk, sink, book),
        Target::Auto(name) => export_by_name(alloc, store, name, disk, sink, book),
    }
}

// Writes the content of the descriptor that the named store's header tells. Nothing is said of a fault.
fn export_by_name<D: Disk, K: Sink>(
    alloc: Global,
    store: &str,
    name: &SwarmName,
    disk: &mut D,
    sink: &mut K,
    book: &mut Book,
) -> Status
    requires empty { book.old ≡ empty_book }
    requires size { IsChunkSize name.now.chunk }
    ensures ends { (link : LinkState) (source : SourceState)
        → NamedExportsIn result (name_of name.now) (outside (D.state disk.old) link source (K.state sink.old) book.old)
        (outside (D.state disk.new) link source (K.state sink.new) book.new) }
    ensures unwritten { IsUnwritten (D.state disk.old) (D.state disk.new) }
    ensures lasts { IsKnown (D.state disk.old) → (e : Descriptor)
        → IsTold (name_of name.now) e (D.state disk.old) (D.state disk.new) → Lasts e (D.state disk.new).history }
    ensures named { IsKnown (D.state disk.old)
        → GainsName (D.state disk.old).history.names store.now (D.state disk.new).history.names }
    ensures rooted { IsRootedByName (name_of name.now) book.old book.new }
{
    match look_by_name(alloc, store, name, disk, book) {
        Ok(found) => put_found(&found.set, &found.descriptor, disk, sink, book),
        Err(fault) => status_of(fault),
    }
}

fn status_of(fault: NamingFault) -> Status
    ensures { result ≡ status_of_naming fault }
{
    match fault {
        NamingFault::NotAStore { .. } => Status::NotAStore,
        NamingFault::Size(_) => Status::ContentSize,
        NamingFault::Shape(_) => Status::Shape,
        NamingFault::Disk => Status::DiskFault,
        NamingFault::Memory => Status::Memory,
    }
}
