// A store of version 1 becomes one of version 2.
ghost use Rattle.std.specs.Prelude.{◌≡◌, ◌⊎◌, ℕ, ◌<◌, ◌≤◌, [], List, Some, length, drop, slice_index, OnOk, IfErr};
ghost use Rattle.pp_terms.specs.format.Descriptor.{IsDescriptor};
ghost use Rattle.pp_terms.specs.disk.Disk.{IsKnown};
ghost use Rattle.pp_tree.specs.Book.{entry, empty_book, IsBookOf, HasRootAlone};
ghost use Rattle.pp_store.specs.Keep.{KeepsDisk};
ghost use Rattle.pp_store.specs.Import.{TakesAtMost, IsUntouched};
ghost use Rattle.pp_store.specs.Sound.{StaysSound};
ghost use Rattle.pp_store.specs.Old.{old_header, HasOldHeader, old_size};
ghost use Rattle.pp_store.specs.Upgrade.{HasUpgraded, LeavesUpgraded, IsBegun, DoesUpgrade, DoesUpgradeSlots, HasHeaderFault, IsOtherByte};

use crate::copying::copy_file;
use crate::durable::keep_front;
use crate::filling::fill_zeroed;
use crate::finishing::seal;
use pp_outside::{Disk, Source};
use pp_scan::{Difference, first_difference, header_of};
use pp_tree::{Book, ChunkSet, Descriptor};
use std::alloc::Global;
use thiserror::Error;

/// Why a store of version 1 became none of version 2.
#[derive(Clone, Copy, Debug, PartialEq, Eq, Error)]
pub enum UpgradeFault {
    /// The disk has `len` bytes already.
    #[error("the store has {len} bytes already")]
    NotEmpty { len: u64 },
    /// Byte `at` of the source, below 64, is the first that differs from the header of version 1.
    #[error("not a store: byte {at} is {found}, wanted {want}")]
    NotAStore { at: u8, found: u8, want: u8 },
    /// The source refused a read.
    #[error("the source refused a read")]
    Source,
    /// The disk refused a call.
    #[error("the disk refused a call")]
    Disk,
    /// Memory ran out.
    #[error("memory ran out")]
    Memory,
}

/// Makes the file of version 1 that the source gives a store of version 2 on the disk, which is empty, and answers which
/// chunks it holds. The source is read up to the most bytes that such a file has, 64 + 2^height * (chunk + 64), and the rest
/// of it is left; bytes past its end count as zeros. The book is empty, and has the nodes that are known afterwards.
///
/// The slots are copied with closed gates and synced; then each chunk is hashed, the gates of those that fit are opened and
/// synced, and the header is written last.
pub fn upgrade<D: Disk, S: Source>(
    alloc: Global,
    descriptor: &Descriptor,
    source: &mut S,
    disk: &mut D,
    book: &mut Book,
) -> Result<ChunkSet, UpgradeFault>
    requires { book.old ≡ empty_book }

    ensures answer { HasUpgraded descriptor.now (S.state source.old) (S.state source.new) (D.state disk.old) (D.state disk.new) (entry book.new) result }
    // Whatever it answers: an image with the header is the whole store, sound images stay so, and nothing is begun for another file.
    ensures whole { IsKnown (D.state disk.old) → (D.state disk.old).history.reads ≡ [] → (bytes : List ℕ) → (S.state source.old).left ≡ Some bytes
        → LeavesUpgraded descriptor.now bytes (D.state disk.old).history (D.state disk.new).history }
    ensures sound { IsKnown (D.state disk.old) → StaysSound descriptor.now (D.state disk.old).history (D.state disk.new).history }
    ensures begun { IsBegun descriptor.now (S.state source.old) (D.state disk.old) (D.state disk.new) }
    ensures untouched { IsKnown (D.state disk.old) → 0 < length (D.state disk.old).history.reads
        → IsUntouched (S.state source.old) (S.state source.new) (D.state disk.old) (D.state disk.new) }

    ensures takes { TakesAtMost (old_size descriptor.now) (S.state source.old) (S.state source.new) }
    ensures source { (S.state source.old).faults ≤ (S.state source.new).faults }
    ensures disk { KeepsDisk (D.state disk.old) (D.state disk.new) }
    ensures rooted { (book.new ≡ book.old) ⊎ IsBookOf descriptor.now book.new }
{
    match disk.len() {
        Ok(0) => upgrade_to_empty(alloc, descriptor, source, disk, book),
        Ok(len) => Err(UpgradeFault::NotEmpty { len }),
        Err(_) => Err(UpgradeFault::Disk),
    }
}

fn upgrade_to_empty<D: Disk, S: Source>(
    alloc: Global,
    descriptor: &Descriptor,
    source: &mut S,
    disk: &mut D,
    book: &mut Book,
) -> Result<ChunkSet, UpgradeFault>
    requires book { book.old ≡ empty_book }
    requires empty { IsKnown (D.state disk.old) → (D.state disk.old).history.reads ≡ [] }
    ensures does { DoesUpgrade descriptor.now (S.state source.old) (S.state source.new) (D.state disk.old) (D.state disk.new) (entry book.new) result }
    ensures rooted { (book.new ≡ book.old) ⊎ IsBookOf descriptor.now book.new }
{
    // Its contract tells that the descriptor is one of a swarm's.
    let _ = descriptor.chunks();
    match book.prepare(alloc, descriptor) {
        Ok(()) => match check_header(descriptor, source) {
            Ok(()) => upgrade_slots(alloc, descriptor, source, disk, book),
            Err(fault) => Err(fault),
        },
        Err(_) => Err(UpgradeFault::Memory),
    }
}

// The source was read up to its slots.
fn upgrade_slots<D: Disk, S: Source>(
    alloc: Global,
    descriptor: &Descriptor,
    source: &mut S,
    disk: &mut D,
    book: &mut Book,
) -> Result<ChunkSet, UpgradeFault>
    requires alone { HasRootAlone descriptor.now (entry book.old) }
    requires book { IsBookOf descriptor.now book.old }
    requires valid { IsDescriptor descriptor.now }
    requires empty { IsKnown (D.state disk.old) → (D.state disk.old).history.reads ≡ [] }
    ensures does { DoesUpgradeSlots descriptor.now (S.state source.old) (S.state source.new) (D.state disk.old) (D.state disk.new) (entry book.new) result }
    ensures rooted { IsBookOf descriptor.now book.new }
{
    match keep_front(disk, &[0; 8]) {
        Ok(()) => match copy_file(descriptor, source, disk) {
            Ok(()) => seal(alloc, descriptor, disk, book),
            Err(fault) => Err(fault),
        },
        Err(_) => Err(UpgradeFault::Disk),
    }
}

// Reads 64 bytes of the source, zeros past its end, and compares them with the header of version 1.
fn check_header<S: Source>(descriptor: &Descriptor, source: &mut S) -> Result<(), UpgradeFault>
    ensures read { (bytes : List ℕ) → (S.state source.old).left ≡ Some bytes
        → OnOk result (HasOldHeader descriptor.now bytes × ((S.state source.new).left ≡ Some (drop 64 bytes))) }
    ensures fault { IfErr result (HasHeaderFault descriptor.now (S.state source.old) (S.state source.new)) }
    ensures takes { TakesAtMost 64 (S.state source.old) (S.state source.new) }
    ensures source { (S.state source.old).faults ≤ (S.state source.new).faults }
{
    let mut bytes = [0u8; 64];
    match fill_zeroed(source, &mut bytes) {
        Ok(_) => compare(&bytes, &old_header_of(descriptor)),
        Err(_) => Err(UpgradeFault::Source),
    }
}

fn compare(bytes: &[u8; 64], wanted: &[u8; 64]) -> Result<(), UpgradeFault>
    ensures same { OnOk result ((k : ℕ) → k < 64 → slice_index bytes.now k ≡ slice_index wanted.now k) }
    ensures other { IfErr result (λ fault. IsOtherByte bytes.now wanted.now fault) }
{
    match first_difference(bytes, wanted) {
        None => Ok(()),
        Some(Difference { at, found, want }) => Err(UpgradeFault::NotAStore { at, found, want }),
    }
}

// The header of version 1: that of version 2 with the other digit.
fn old_header_of(descriptor: &Descriptor) -> [u8; 64]
    ensures { result ≡ old_header descriptor.now }
{
    let mut bytes = header_of(descriptor);
    bytes[7] = b'1';
    bytes
}
