// Gates are opened once their chunks are on the disk.
ghost use Rattle.std.specs.Prelude.{◌≡◌, ℕ, true, length, take, slice_index_or, OnOk, OnErr};
ghost use Rattle.pp_terms.specs.Count.{HasCause};
ghost use Rattle.pp_terms.specs.format.Descriptor.{chunks_of};
ghost use Rattle.pp_terms.specs.disk.Store.{gate_place, open_gate};
ghost use Rattle.pp_terms.specs.disk.Disk.{IsKnown, IsRefusedWrite};
ghost use Rattle.pp_scan.specs.Look.{synced};
ghost use Rattle.pp_store.specs.Keep.{KeepsDisk};
ghost use Rattle.pp_store.specs.Behind.{DoesBehind};
ghost use Rattle.pp_store.specs.Gates.{gates_opened, made_durable, IsRefusedGate, IsRefusedOpening, IsRefusedCommit};

use pp_outside::{Disk, DiskFault};
use pp_scan::{OPEN_GATE, gate_place};
use pp_tree::{ChunkSet, Descriptor};

/// Syncs what was written, and only then opens the gates of the pending chunks, by rising number, and syncs those.
pub(crate) fn make_durable<D: Disk>(
    descriptor: &Descriptor,
    pending: &ChunkSet,
    disk: &mut D,
) -> Result<(), DiskFault>
    requires { length pending.now ≡ chunks_of descriptor.now }
    ensures done { IsKnown (D.state disk.old) → OnOk result ((D.state disk.new).history
        ≡ made_durable descriptor.now pending.now (D.state disk.old).history) }
    ensures refused { IsKnown (D.state disk.old) → OnErr result (IsRefusedCommit descriptor.now pending.now
        (D.state disk.old).history (D.state disk.new).history) }
    ensures disk { KeepsDisk (D.state disk.old) (D.state disk.new) }
    ensures cause { HasCause (D.state disk.old).faults (D.state disk.new).faults result }
    ensures hard { HasCause (D.state disk.old).hard (D.state disk.new).hard result }
{
    match disk.sync() {
        Ok(()) => sync_gates(descriptor, pending, disk),
        Err(fault) => Err(fault),
    }
}

// Opens the gates of the pending chunks and syncs them.
fn sync_gates<D: Disk>(
    descriptor: &Descriptor,
    pending: &ChunkSet,
    disk: &mut D,
) -> Result<(), DiskFault>
    requires { length pending.now ≡ chunks_of descriptor.now }
    ensures done { IsKnown (D.state disk.old) → OnOk result ((D.state disk.new).history
        ≡ synced (gates_opened descriptor.now pending.now (D.state disk.old).history)) }
    ensures refused { IsKnown (D.state disk.old) → OnErr result (IsRefusedOpening descriptor.now pending.now
        (D.state disk.old).history (D.state disk.new).history) }
    ensures disk { KeepsDisk (D.state disk.old) (D.state disk.new) }
    ensures cause { HasCause (D.state disk.old).faults (D.state disk.new).faults result }
    ensures hard { HasCause (D.state disk.old).hard (D.state disk.new).hard result }
{
    match open_gates(descriptor, pending, disk) {
        Ok(()) => disk.sync(),
        Err(fault) => Err(fault),
    }
}

/// Opens the gates of the pending chunks, by rising number.
pub(crate) fn open_gates<D: Disk>(
    descriptor: &Descriptor,
    pending: &ChunkSet,
    disk: &mut D,
) -> Result<(), DiskFault>
    requires { length pending.now ≡ chunks_of descriptor.now }
    ensures done { IsKnown (D.state disk.old) → OnOk result ((D.state disk.new).history
        ≡ gates_opened descriptor.now pending.now (D.state disk.old).history) }
    ensures refused { IsKnown (D.state disk.old) → OnErr result (IsRefusedGate descriptor.now pending.now
        (D.state disk.old).history (D.state disk.new).history) }
    ensures does { DoesBehind (D.state disk.old) result (D.state disk.new) }
{
    let mut from = 0;
    while let Some(i) = pending.first_from(from) {
        match disk.write_at(gate_place(descriptor.chunk(), i), &[OPEN_GATE]) {
            Ok(()) => from = i + 1,
            Err(fault) => return Err(fault),
        }
    }
    Ok(())
}
