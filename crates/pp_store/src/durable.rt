// Writes that are on the disk when the call returns.
ghost use Rattle.std.specs.Prelude.{◌≡◌, ◌+◌, ◌^◌, ◌≤◌, [], length, OnOk};
ghost use Rattle.pp_store.specs.Keep.{DoesKeep};
ghost use Rattle.pp_terms.specs.Count.{HasCause};
ghost use Rattle.pp_terms.specs.format.Descriptor.{IsDescriptor};
ghost use Rattle.pp_terms.specs.disk.Disk.{History, IsKnown};
ghost use Rattle.pp_store.specs.Keep.{KeepsDisk};
ghost use Rattle.pp_store.specs.Front.{DoesFront};
ghost use Rattle.pp_store.specs.Sound.{StaysSound};
ghost use Rattle.pp_store.specs.Store.{cleared, made, filled};

use pp_outside::{Disk, DiskFault};
use pp_scan::{file_size, header_of};
use pp_tree::Descriptor;

// Writes the bytes at a place and syncs.
pub(crate) fn keep<D: Disk>(disk: &mut D, place: u64, bytes: &[u8]) -> Result<(), DiskFault>
    requires { place + length bytes.now ≤ 2 ^ 40 }
    ensures { DoesKeep (D.state disk.old) place bytes.now result (D.state disk.new) }
{
    match disk.write_at(place, bytes) {
        Ok(()) => disk.sync(),
        Err(fault) => Err(fault),
    }
}

// Writes the bytes at the front of the file once all that was written is on the disk.
pub(crate) fn keep_front<D: Disk>(disk: &mut D, bytes: &[u8]) -> Result<(), DiskFault>
    requires { length bytes.now ≤ 64 }
    ensures { DoesFront bytes.now (D.state disk.old) result (D.state disk.new) }
{
    match disk.sync() {
        Ok(()) => keep(disk, 0, bytes),
        Err(fault) => Err(fault),
    }
}

// Makes an empty file a store that holds no chunk.
pub(crate) fn make_file<D: Disk>(descriptor: &Descriptor, disk: &mut D) -> Result<(), DiskFault>
    ensures made { IsKnown (D.state disk.old) → OnOk result ((D.state disk.new).history ≡ made descriptor.now (D.state disk.old).history) }
    ensures sound { IsDescriptor descriptor.now → IsKnown (D.state disk.old) → (D.state disk.old).history.reads ≡ []
        → StaysSound descriptor.now (D.state disk.old).history (D.state disk.new).history }
    ensures cause { HasCause (D.state disk.old).faults (D.state disk.new).faults result }
    ensures disk { KeepsDisk (D.state disk.old) (D.state disk.new) }
{
    match keep_front(disk, &[0; 8]) {
        Ok(()) => fill_file(descriptor, disk),
        Err(fault) => Err(fault),
    }
}

// Gives a file that begins with zeros its length, and then its header.
fn fill_file<D: Disk>(descriptor: &Descriptor, disk: &mut D) -> Result<(), DiskFault>
    ensures made { IsKnown (D.state disk.old) → OnOk result ((D.state disk.new).history ≡ filled descriptor.now (D.state disk.old).history) }
    ensures sound { IsDescriptor descriptor.now → IsKnown (D.state disk.old) → (begun : History) → begun.reads ≡ []
        → (D.state disk.old).history ≡ cleared begun → StaysSound descriptor.now (D.state disk.old).history (D.state disk.new).history }
    ensures cause { HasCause (D.state disk.old).faults (D.state disk.new).faults result }
    ensures disk { KeepsDisk (D.state disk.old) (D.state disk.new) }
{
    match keep(disk, file_size(descriptor) - 1, &[0]) {
        Ok(()) => keep(disk, 0, &header_of(descriptor)),
        Err(fault) => Err(fault),
    }
}
