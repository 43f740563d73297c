// The slots of a store of version 1 are copied.
ghost use Rattle.std.specs.Prelude.{◌≡◌, ℕ, ◌-◌, ◌*◌, ◌^◌, ◌<◌, ◌≤◌, min, Some, List, length, drop, slice_index, OnOk, IfOk, IfErr};
ghost use Rattle.pp_terms.specs.Count.{HasCause};
ghost use Rattle.pp_terms.specs.format.Descriptor.{height_of};
ghost use Rattle.pp_terms.specs.disk.Disk.{IsKnown};
ghost use Rattle.pp_terms.specs.disk.Store.{file_size};
ghost use Rattle.pp_store.specs.Behind.{KeepsBehind};
ghost use Rattle.pp_store.specs.Import.{TakesAtMost};
ghost use Rattle.pp_store.specs.Old.{old_slot_size};
ghost use Rattle.pp_store.specs.Upgrade.{IsCopied, CopiesSlot, HasFault};

use crate::filling::fill_zeroed;
use crate::upgrading::UpgradeFault;
use pp_outside::{Disk, Source, SourceFault};
use pp_scan::{file_size, slot_place};
use pp_tree::Descriptor;

// The room of the greatest slot, in bytes: a chunk, its pair and its gate.
const ROOM: usize = 8192 + 65;

/// Copies the slots that the source gives, each with a closed gate, and gives the file its length. Past the source's end
/// there are zeros. The file has at most its first 64 bytes.
pub(crate) fn copy_file<D: Disk, S: Source>(
    descriptor: &Descriptor,
    source: &mut S,
    disk: &mut D,
) -> Result<(), UpgradeFault>
    requires short { IsKnown (D.state disk.old) → length (D.state disk.old).history.reads ≤ 64 }
    ensures copied { IsKnown (D.state disk.old) → OnOk result (IsCopied descriptor.now (S.state source.old).left (D.state disk.new).history.reads) }
    ensures long { IsKnown (D.state disk.old) → OnOk result (length (D.state disk.new).history.reads ≡ file_size descriptor.now) }
    ensures behind { KeepsBehind (D.state disk.old) (D.state disk.new) }
    ensures fault { IfErr result (λ fault. HasFault fault (S.state source.old) (S.state source.new) (D.state disk.old) (D.state disk.new)) }
    ensures takes { TakesAtMost (2 ^ height_of descriptor.now * old_slot_size descriptor.now.chunk) (S.state source.old) (S.state source.new) }
    ensures source { (S.state source.old).faults ≤ (S.state source.new).faults }
{
    match copy_slots(descriptor, source, disk) {
        Ok(()) => match disk.write_at(file_size(descriptor) - 1, &[0]) {
            Ok(()) => Ok(()),
            Err(_) => Err(UpgradeFault::Disk),
        },
        Err(fault) => Err(fault),
    }
}

// Copies slots until the source has ended, or all there may be.
fn copy_slots<D: Disk, S: Source>(
    descriptor: &Descriptor,
    source: &mut S,
    disk: &mut D,
) -> Result<(), UpgradeFault>
    requires short { IsKnown (D.state disk.old) → length (D.state disk.old).history.reads ≤ 64 }
    ensures copied { IsKnown (D.state disk.old) → OnOk result (IsCopied descriptor.now (S.state source.old).left (D.state disk.new).history.reads) }
    ensures behind { KeepsBehind (D.state disk.old) (D.state disk.new) }
    ensures fault { IfErr result (λ fault. HasFault fault (S.state source.old) (S.state source.new) (D.state disk.old) (D.state disk.new)) }
    ensures takes { TakesAtMost (2 ^ height_of descriptor.now * old_slot_size descriptor.now.chunk) (S.state source.old) (S.state source.new) }
    ensures source { (S.state source.old).faults ≤ (S.state source.new).faults }
{
    let chunk = descriptor.chunk();
    let mut buffer = [0u8; ROOM];
    'slots: for slot in 0..1u32 << descriptor.height() {
        match copy_slot(chunk, slot, source, &mut buffer, disk) {
            Ok(true) => {}
            Ok(false) => return Ok(()),
            Err(fault) => return Err(fault),
        }
    }
    Ok(())
}

// Copies one slot. Whether the source gave all of it.
fn copy_slot<D: Disk, S: Source>(
    chunk: u32,
    slot: u32,
    source: &mut S,
    buffer: &mut [u8; ROOM],
    disk: &mut D,
) -> Result<bool, UpgradeFault>
    requires size { chunk ≤ 8192 }
    requires few { slot < 2 ^ 20 }
    ensures copies { IsKnown (D.state disk.old) → IfOk result (λ more. CopiesSlot chunk slot more (S.state source.old).left (S.state source.new).left
        (D.state disk.old).history.reads (D.state disk.new).history.reads) }
    ensures behind { KeepsBehind (D.state disk.old) (D.state disk.new) }
    ensures fault { IfErr result (λ fault. HasFault fault (S.state source.old) (S.state source.new) (D.state disk.old) (D.state disk.new)) }
    ensures takes { TakesAtMost (old_slot_size chunk) (S.state source.old) (S.state source.new) }
    ensures source { (S.state source.old).faults ≤ (S.state source.new).faults }
{
    let bytes = &mut buffer[..chunk as usize + 65];
    match read_slot(source, bytes) {
        Ok(count) => match disk.write_at(slot_place(chunk, slot), bytes) {
            Ok(()) => Ok(count == chunk as usize + 64),
            Err(_) => Err(UpgradeFault::Disk),
        },
        Err(_) => Err(UpgradeFault::Source),
    }
}

// Reads a chunk and its pair, zeros past the source's end, and puts a closed gate behind them. Answers how many bytes were
// read.
fn read_slot<S: Source>(source: &mut S, slot: &mut [u8]) -> Result<usize, SourceFault>
    requires { 0 < length slot.old }
    ensures closed { OnOk result (slice_index slot.new (length slot.new - 1) ≡ 0) }
    ensures read { (told : List ℕ) → (S.state source.old).left ≡ Some told
        → IfOk result (λ n. (n ≡ min (length told) (length slot.new - 1)) × ((S.state source.new).left ≡ Some (drop n told))) }
    ensures bytes { (told : List ℕ) → (S.state source.old).left ≡ Some told
        → OnOk result ((r : ℕ) → r < length slot.new - 1 → slice_index slot.new r ≡ slice_index told r) }
    ensures takes { TakesAtMost (length slot.new - 1) (S.state source.old) (S.state source.new) }
    ensures cause { HasCause (S.state source.old).faults (S.state source.new).faults result }
{
    let last = slot.len() - 1;
    slot[last] = 0;
    fill_zeroed(source, &mut slot[..last])
}
