// The layout of a store's file, version 2.
ghost use Rattle.std.specs.Prelude.{◌≡◌, ℕ, ◌^◌, ◌<◌, ◌≤◌, slice_index, MatchOption, IfOk};
ghost use Rattle.pp_terms.specs.disk.Store.{header, chunk_place, gate_place, file_size, HasHeader};
ghost use Rattle.pp_terms.specs.disk.Disk.{IsKnown};
ghost use Rattle.pp_scan.specs.Look.{OnlyReads};
ghost use Rattle.pp_scan.specs.Header.{IsDifference};

use pp_outside::{Disk, DiskFault};
use pp_tree::Descriptor;

/// The first 64 bytes of a descriptor's store: `PPSTORE2`, the chunk size in 4 bytes, the content size in 8 and the root
/// in 32, numbers with the high byte first, and 12 zero bytes.
pub fn header_of(descriptor: &Descriptor) -> [u8; 64]
    ensures { result ≡ header descriptor.now }
{
    let root = descriptor.root();
    let mut bytes = [0u8; 64];
    bytes[..8].copy_from_slice(b"PPSTORE2");
    bytes[8..12].copy_from_slice(&descriptor.chunk().to_be_bytes());
    bytes[12..20].copy_from_slice(&descriptor.size().to_be_bytes());
    bytes[20..52].copy_from_slice(root.bytes());
    bytes
}

/// The byte of the file at which a slot begins, and the chunk of that number with it. `chunk` is the chunk size in bytes.
pub fn slot_place(chunk: u32, slot: u32) -> u64
    requires size { chunk ≤ 8192 }
    requires few { slot < 2 ^ 21 }
    ensures { result ≡ chunk_place chunk slot }
{
    64 + u64::from(slot) * u64::from(chunk + 65)
}

/// The value of a gate that is open: its chunk was made durable. Every other value is a closed gate's.
pub const OPEN_GATE: u8 = 0x4f;

/// The byte of the file at which a slot's gate stands, the slot's last. `chunk` is the chunk size in bytes.
pub fn gate_place(chunk: u32, slot: u32) -> u64
    requires size { chunk ≤ 8192 }
    requires few { slot < 2 ^ 21 }
    ensures { result ≡ gate_place chunk slot }
{
    slot_place(chunk, slot) + u64::from(chunk) + 64
}

/// How many bytes a descriptor's store has: a header, and a slot for each leaf of the tree.
pub fn file_size(descriptor: &Descriptor) -> u64
    ensures size { result ≡ file_size descriptor.now }
    ensures least { 64 < result }
    ensures most { result ≤ 2 ^ 34 }
{
    slot_place(descriptor.chunk(), 1 << descriptor.height())
}

/// A byte of a file that isn't that of a header: its number, what it is and what was wanted.
#[derive(Clone, Copy, Debug, PartialEq, Eq)]
pub struct Difference {
    pub at: u8,
    pub found: u8,
    pub want: u8,
}

/// The first byte of a file, zeros past its end, that differs from the descriptor's header. It reads the file once.
pub fn header_difference<D: Disk>(
    descriptor: &Descriptor,
    disk: &mut D,
) -> Result<Option<Difference>, DiskFault>
    ensures looks { OnlyReads (D.state disk.old) result (D.state disk.new) }
    ensures found { IfOk result (λ o. MatchOption o (IsKnown (D.state disk.old) → HasHeader descriptor.now (D.state disk.old).history.reads)
        (λ d. (d.at < 64) × (d.found ≡ d.want → ⊥) × (d.want ≡ slice_index (header descriptor.now) d.at)
        × (IsKnown (D.state disk.old) → IsDifference (D.state disk.old).history.reads (header descriptor.now) d.at d.found d.want))) }
{
    let mut bytes = [0u8; 64];
    match disk.read_at(0, &mut bytes) {
        Ok(()) => Ok(first_difference(&bytes, &header_of(descriptor))),
        Err(fault) => Err(fault),
    }
}

/// The first of 64 bytes that differs from the one that is wanted.
pub fn first_difference(bytes: &[u8; 64], wanted: &[u8; 64]) -> Option<Difference>
    ensures { MatchOption result ((k : ℕ) → k < 64 → slice_index bytes.now k ≡ slice_index wanted.now k)
        (λ d. IsDifference bytes.now wanted.now d.at d.found d.want) }
{
    for at in 0..64u8 {
        let (found, want) = (bytes[usize::from(at)], wanted[usize::from(at)]);
        if found != want {
            return Some(Difference { at, found, want });
        }
    }
    None
}
