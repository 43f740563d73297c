// A store is attached and scanned.
ghost use Rattle.std.specs.Prelude.{◌≡◌, ◌⊎◌, OnOk};
ghost use Rattle.pp_terms.specs.disk.Disk.{IsKnown, GainsName};
ghost use Rattle.pp_tree.specs.Book.{entry, empty_book, IsBookOf};
ghost use Rattle.pp_terms.specs.disk.Untouched.{IsFreshlyAttached};
ghost use Rattle.pp_node.specs.Looking.{HasLooked, IsOf, IsUnwritten, Lasts};

use pp_outside::Disk;
use pp_scan::{ScanFault, scan};
use pp_store::{ProbeFault, probe};
use pp_tree::{Book, ChunkSet, Descriptor};
use std::alloc::Global;

/// Attaches the named store and finds out which chunks it holds. It writes nothing, and syncs the store before it reads it.
pub(crate) fn look<D: Disk>(
    alloc: Global,
    store: &str,
    descriptor: &Descriptor,
    disk: &mut D,
    book: &mut Book,
) -> Result<ChunkSet, ScanFault>
    requires { book.old ≡ empty_book }
    ensures looked { HasLooked descriptor.now (D.state disk.old) (D.state disk.new) (entry book.new) result }
    ensures unwritten { IsUnwritten (D.state disk.old) (D.state disk.new) }
    ensures lasts { IsKnown (D.state disk.old) → Lasts descriptor.now (D.state disk.new).history }
    ensures named { IsKnown (D.state disk.old)
        → GainsName (D.state disk.old).history.names store.now (D.state disk.new).history.names }
    ensures rooted { (book.new ≡ book.old) ⊎ IsBookOf descriptor.now book.new }
    ensures found { OnOk result (IsBookOf descriptor.now book.new) }
{
    match disk.attach(store) {
        Ok(()) => look_attached(alloc, descriptor, disk, book),
        Err(_) => Err(ScanFault::Disk),
    }
}

fn look_attached<D: Disk>(
    alloc: Global,
    descriptor: &Descriptor,
    disk: &mut D,
    book: &mut Book,
) -> Result<ChunkSet, ScanFault>
    requires empty { book.old ≡ empty_book }
    requires attached { IsKnown (D.state disk.old) → IsFreshlyAttached (D.state disk.old).history }
    ensures looked { HasLooked descriptor.now (D.state disk.old) (D.state disk.new) (entry book.new) result }
    ensures unwritten { IsUnwritten (D.state disk.old) (D.state disk.new) }
    ensures lasts { IsKnown (D.state disk.old) → Lasts descriptor.now (D.state disk.new).history }
    ensures names { IsKnown (D.state disk.old) → (D.state disk.new).history.names ≡ (D.state disk.old).history.names }
    ensures rooted { (book.new ≡ book.old) ⊎ IsBookOf descriptor.now book.new }
    ensures found { OnOk result (IsBookOf descriptor.now book.new) }
{
    match probe(descriptor, disk) {
        Ok(_) => look_into(alloc, descriptor, disk, book),
        Err(ProbeFault::NotAStore { at, found, want }) => {
            Err(ScanFault::NotAStore { at, found, want })
        }
        Err(ProbeFault::Disk) => Err(ScanFault::Disk),
    }
}

/// Scans a file that is empty or begins with the header.
pub(crate) fn look_into<D: Disk>(
    alloc: Global,
    descriptor: &Descriptor,
    disk: &mut D,
    book: &mut Book,
) -> Result<ChunkSet, ScanFault>
    requires empty { book.old ≡ empty_book }
    requires attached { IsKnown (D.state disk.old) → IsFreshlyAttached (D.state disk.old).history }
    requires begins { IsKnown (D.state disk.old) → IsOf descriptor.now (D.state disk.old).history.reads }
    ensures looked { HasLooked descriptor.now (D.state disk.old) (D.state disk.new) (entry book.new) result }
    ensures kept { IsKnown (D.state disk.old) → (D.state disk.new).history.found ≡ (D.state disk.old).history.reads }
    ensures unwritten { IsUnwritten (D.state disk.old) (D.state disk.new) }
    ensures lasts { IsKnown (D.state disk.old) → Lasts descriptor.now (D.state disk.new).history }
    ensures names { IsKnown (D.state disk.old) → (D.state disk.new).history.names ≡ (D.state disk.old).history.names }
    ensures rooted { (book.new ≡ book.old) ⊎ IsBookOf descriptor.now book.new }
    ensures found { OnOk result (IsBookOf descriptor.now book.new) }
{
    match book.prepare(alloc, descriptor) {
        Ok(()) => scan(alloc, descriptor, disk, book),
        Err(_) => Err(ScanFault::Memory),
    }
}
