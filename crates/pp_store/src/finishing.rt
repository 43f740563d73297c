// A copied file becomes a store.
ghost use Rattle.std.specs.Prelude.{◌≡◌, ◌⊎◌, length, OnOk};
ghost use Rattle.pp_terms.specs.Count.{HasCause};
ghost use Rattle.pp_terms.specs.format.Descriptor.{chunks_of};
ghost use Rattle.pp_terms.specs.disk.Disk.{IsKnown};
ghost use Rattle.pp_tree.specs.Book.{entry, IsBookOf, HasRootAlone};
ghost use Rattle.pp_scan.specs.Look.{synced};
ghost use Rattle.pp_store.specs.Keep.{KeepsDisk};
ghost use Rattle.pp_store.specs.Upgrade.{finished, IsFinishing, IsSealing, HasSealed};

use crate::durable::keep_front;
use crate::gates::open_gates;
use crate::upgrading::UpgradeFault;
use pp_outside::{Disk, DiskFault};
use pp_scan::{ScanFault, header_of, verify};
use pp_tree::{Book, ChunkSet, Descriptor};
use std::alloc::Global;

/// Syncs a copied file, hashes its chunks, opens the gates of those that fit, and writes its header once all that is on the
/// disk. Answers which chunks these are.
pub(crate) fn seal<D: Disk>(
    alloc: Global,
    descriptor: &Descriptor,
    disk: &mut D,
    book: &mut Book,
) -> Result<ChunkSet, UpgradeFault>
    requires alone { HasRootAlone descriptor.now (entry book.old) }
    requires book { IsBookOf descriptor.now book.old }
    ensures answer { HasSealed descriptor.now (synced (D.state disk.old).history) (D.state disk.old) (D.state disk.new) (entry book.new) result }
    ensures left { IsKnown (D.state disk.old) → ((D.state disk.new).history ≡ (D.state disk.old).history)
        ⊎ IsSealing descriptor.now (synced (D.state disk.old).history) (D.state disk.new).history }
    ensures disk { KeepsDisk (D.state disk.old) (D.state disk.new) }
    ensures book { IsBookOf descriptor.now book.new }
{
    match disk.sync() {
        Ok(()) => seal_synced(alloc, descriptor, disk, book),
        Err(_) => Err(UpgradeFault::Disk),
    }
}

fn seal_synced<D: Disk>(
    alloc: Global,
    descriptor: &Descriptor,
    disk: &mut D,
    book: &mut Book,
) -> Result<ChunkSet, UpgradeFault>
    requires alone { HasRootAlone descriptor.now (entry book.old) }
    requires book { IsBookOf descriptor.now book.old }
    ensures answer { HasSealed descriptor.now (D.state disk.old).history (D.state disk.old) (D.state disk.new) (entry book.new) result }
    ensures left { IsKnown (D.state disk.old) → IsSealing descriptor.now (D.state disk.old).history (D.state disk.new).history }
    ensures disk { KeepsDisk (D.state disk.old) (D.state disk.new) }
    ensures book { IsBookOf descriptor.now book.new }
{
    match verify(alloc, descriptor, disk, book) {
        Ok(set) => match finish(descriptor, &set, disk) {
            Ok(()) => Ok(set),
            Err(_) => Err(UpgradeFault::Disk),
        },
        Err(ScanFault::Memory) => Err(UpgradeFault::Memory),
        Err(ScanFault::Disk) => Err(UpgradeFault::Disk),
        // A file is verified whatever its header.
        Err(ScanFault::NotAStore { .. }) => unreachable!(),
    }
}

// Opens the gates of the chunks, and writes the header.
fn finish<D: Disk>(descriptor: &Descriptor, set: &ChunkSet, disk: &mut D) -> Result<(), DiskFault>
    requires { length set.now ≡ chunks_of descriptor.now }
    ensures done { IsKnown (D.state disk.old) → OnOk result ((D.state disk.new).history ≡ finished descriptor.now set.now (D.state disk.old).history) }
    ensures left { IsKnown (D.state disk.old) → IsFinishing descriptor.now set.now (D.state disk.old).history (D.state disk.new).history }
    ensures cause { HasCause (D.state disk.old).faults (D.state disk.new).faults result }
    ensures disk { KeepsDisk (D.state disk.old) (D.state disk.new) }
{
    match open_gates(descriptor, set, disk) {
        Ok(()) => keep_front(disk, &header_of(descriptor)),
        Err(fault) => Err(fault),
    }
}
