// The hash tree of a content whose chunks come one after the other, while they are stored.
ghost use Rattle.std.specs.Prelude.{◌≡◌, ℕ, ◌+◌, ◌-◌, ◌*◌, ◌/◌, ◌^◌, ◌<◌, ◌≤◌, ◌++◌, List, length, slice_index_or, [], OnOk, IfOk};
ghost use Rattle.sha2.specs.Sha256.{sha256};
ghost use Rattle.pp_terms.specs.tree.Content.{chunk_of, chunk_count, IsChunkSize};
ghost use Rattle.pp_terms.specs.tree.Tree.{root_of};
ghost use Rattle.pp_terms.specs.disk.Disk.{IsKnown, DoesWrite};
ghost use Rattle.pp_terms.specs.disk.Store.{chunk_place};
ghost use Rattle.pp_store.specs.Behind.{DoesBehind, DoesPut};
ghost use Rattle.pp_store.specs.Growing.{with_chunk, IsPartial, IsCarrying, IsTail, IsTailing, IsBuilt, IsNext, chunks_in};

use crate::leaves::{LEAVES, leaf_digests};
use pp_outside::{Disk, DiskFault};
use pp_scan::{OPEN_GATE, gate_place, slot_place};
use pp_tree::{Digest, parent};

// A tree of 2^20 chunks has 21 layers.
const LAYERS: usize = 21;

/// How many chunks are stored, and of each layer with an odd number of full nodes the digest of the last of them. These
/// are the peaks of that many chunks (RFC 7574, section 5.6.1).
#[derive(Drop)]
pub(crate) struct GrowingTree {
    pub(crate) count: u32,
    pub(crate) peaks: [Digest; LAYERS],
}

impl GrowingTree {
    /// The tree of no chunk.
    pub(crate) fn new() -> GrowingTree
        ensures { result.count ≡ 0 }
    {
        GrowingTree {
            count: 0,
            peaks: [Digest::new([0; 32]); LAYERS],
        }
    }

    /// Stores the next chunk, whose digest is given, opens its gate, and then stores the pairs that it fills.
    pub(crate) fn put_chunk<D: Disk>(
        &mut self,
        chunk: u32,
        bytes: &[u8],
        digest: &Digest,
        disk: &mut D,
    ) -> Result<(), DiskFault>
        requires size { chunk ≤ 8192 }
        requires len { length bytes.now ≤ chunk }
        requires room { self.old.count < 2 ^ 20 }
        ensures does { DoesBehind (D.state disk.old) result (D.state disk.new) }
        ensures counted { OnOk result (self.new.count ≡ self.old.count + 1) }
        ensures put { (content : List ℕ) → bytes.now ≡ chunk_of content chunk self.old.count → digest.now ≡ sha256 bytes.now
            → self.old.count < chunks_in chunk content → IsPartial chunk content self.old.count self.old.peaks (D.state disk.old)
            → OnOk result (IsPartial chunk content self.new.count self.new.peaks (D.state disk.new)) }
    {
        match put_bytes(disk, chunk, self.count, bytes) {
            Ok(()) => self.carry(chunk, digest, disk),
            Err(fault) => Err(fault),
        }
    }

    /// Stores a buffer of the next chunks, of which the last may be shorter where it is the content's last.
    pub(crate) fn put_chunks<D: Disk>(
        &mut self,
        chunk: u32,
        pieces: &[u8],
        disk: &mut D,
    ) -> Result<(), DiskFault>
        requires size { IsChunkSize chunk }
        requires few { length pieces.now ≤ 65536 }
        requires room { self.old.count * chunk + length pieces.now ≤ 2 ^ 20 * chunk }
        ensures does { DoesBehind (D.state disk.old) result (D.state disk.new) }
        ensures counted { OnOk result (self.new.count ≡ self.old.count + chunk_count (length pieces.now) chunk) }
        ensures put { (content : List ℕ) → IsNext chunk content self.old.count pieces.now
            → IsPartial chunk content self.old.count self.old.peaks (D.state disk.old)
            → OnOk result (IsPartial chunk content self.new.count self.new.peaks (D.state disk.new)) }
    {
        let size = chunk as usize;
        let mut digests = [Digest::new([0; 32]); LEAVES];
        leaf_digests(pieces, size, &mut digests);
        let mut i = 0;
        let mut start = 0;
        while start < pieces.len() {
            let end = pieces.len().min(start + size);
            let digest = digests[i];
            match self.put_chunk(chunk, &pieces[start..end], &digest, disk) {
                Ok(()) => i += 1,
                Err(fault) => return Err(fault),
            }
            start += size;
        }
        Ok(())
    }

    // Stores the pairs that the chunk fills which was stored behind those that are counted.
    fn carry<D: Disk>(&mut self, chunk: u32, digest: &Digest, disk: &mut D) -> Result<(), DiskFault>
        requires size { chunk ≤ 8192 }
        requires room { self.old.count < 2 ^ 20 }
        ensures does { DoesBehind (D.state disk.old) result (D.state disk.new) }
        ensures counted { OnOk result (self.new.count ≡ self.old.count + 1) }
        ensures put { (content : List ℕ)
            → IsCarrying chunk content self.old.count 0 self.old.count self.old.peaks digest.now (D.state disk.old)
            → OnOk result (IsPartial chunk content self.new.count self.new.peaks (D.state disk.new)) }
    {
        let mut last = *digest;
        let mut layer = 0;
        let mut offset = self.count;
        let mut step = 1;
        while offset % 2 == 1 {
            let left = self.peaks[layer];
            match put_pair(disk, chunk, self.count - step, &left, &last) {
                Ok(above) => last = above,
                Err(fault) => return Err(fault),
            }
            layer += 1;
            offset /= 2;
            step *= 2;
        }
        self.peaks[layer] = last;
        self.count += 1;
        Ok(())
    }

    /// Stores the pairs of the nodes that aren't full, and answers the root.
    pub(crate) fn finish<D: Disk>(&self, chunk: u32, disk: &mut D) -> Result<Digest, DiskFault>
        requires size { chunk ≤ 8192 }
        requires some { 0 < self.now.count }
        requires most { self.now.count ≤ 2 ^ 20 }
        ensures does { DoesBehind (D.state disk.old) result (D.state disk.new) }
        ensures built { (content : List ℕ) → self.now.count ≡ chunks_in chunk content
            → IsPartial chunk content self.now.count self.now.peaks (D.state disk.old)
            → OnOk result (IsKnown (D.state disk.new) → IsBuilt chunk content (D.state disk.new).history.reads) }
        ensures root { (content : List ℕ) → self.now.count ≡ chunks_in chunk content
            → IsPartial chunk content self.now.count self.now.peaks (D.state disk.old)
            → IfOk result (λ root. root ≡ root_of content chunk) }
    {
        let mut last = Digest::new([0; 32]);
        let mut layer = 0;
        let mut offset = self.count;
        let mut step = 1;
        while step < self.count {
            match self.put_last(chunk, layer, offset, step, &last, disk) {
                Ok(above) => last = above,
                Err(fault) => return Err(fault),
            }
            layer += 1;
            offset /= 2;
            step *= 2;
        }
        if offset == 1 {
            Ok(self.peaks[layer])
        } else {
            Ok(last)
        }
    }

    // Stores the pair of the last node of the layer above that covers a chunk, unless it is full. Answers the digest of the
    // node behind the full ones there.
    fn put_last<D: Disk>(
        &self,
        chunk: u32,
        layer: usize,
        offset: u32,
        step: u32,
        last: &Digest,
        disk: &mut D,
    ) -> Result<Digest, DiskFault>
        requires size { chunk ≤ 8192 }
        requires most { self.now.count ≤ 2 ^ 20 }
        requires at { IsTail self.now.count layer offset step }
        requires short { step < self.now.count }
        ensures does { DoesBehind (D.state disk.old) result (D.state disk.new) }
        ensures put { (content : List ℕ)
            → IsTailing chunk content self.now.count layer offset self.now.peaks last.now (D.state disk.old)
            → IfOk result (λ above. IsTailing chunk content self.now.count (layer + 1) (offset / 2) self.now.peaks above (D.state disk.new)) }
    {
        let slot = (offset / 2 * 2 + 1) * step - 1;
        if offset % 2 == 1 {
            let left = self.peaks[layer];
            put_pair(disk, chunk, slot, &left, last)
        } else if offset * step < self.count {
            put_pair(disk, chunk, slot, last, &Digest::new([0; 32]))
        } else {
            Ok(*last)
        }
    }
}

// Writes a chunk and opens its gate.
fn put_bytes<D: Disk>(disk: &mut D, chunk: u32, slot: u32, bytes: &[u8]) -> Result<(), DiskFault>
    requires size { chunk ≤ 8192 }
    requires len { length bytes.now ≤ chunk }
    requires few { slot < 2 ^ 20 }
    ensures does { DoesBehind (D.state disk.old) result (D.state disk.new) }
    ensures put { IsKnown (D.state disk.old) → OnOk result ((D.state disk.new).history.reads
        ≡ with_chunk chunk slot bytes.now (D.state disk.old).history.reads) }
{
    match disk.write_at(slot_place(chunk, slot), bytes) {
        Ok(()) => disk.write_at(gate_place(chunk, slot), &[OPEN_GATE]),
        Err(fault) => Err(fault),
    }
}

// Writes two children's digests behind the chunk of a slot, and answers their parent's.
fn put_pair<D: Disk>(
    disk: &mut D,
    chunk: u32,
    slot: u32,
    left: &Digest,
    right: &Digest,
) -> Result<Digest, DiskFault>
    requires size { chunk ≤ 8192 }
    requires few { slot < 2 ^ 21 }
    ensures put { DoesPut (D.state disk.old) (chunk_place chunk slot + chunk) (left.now ++ right.now) result (D.state disk.new) }
    ensures digest { IfOk result (λ above. above ≡ sha256 (left.now ++ right.now)) }
{
    match write_pair(disk, chunk, slot, left, right) {
        Ok(()) => Ok(parent(left, right)),
        Err(fault) => Err(fault),
    }
}

/// Writes two children's digests behind the chunk of a slot.
pub(crate) fn write_pair<D: Disk>(
    disk: &mut D,
    chunk: u32,
    slot: u32,
    left: &Digest,
    right: &Digest,
) -> Result<(), DiskFault>
    requires size { chunk ≤ 8192 }
    requires few { slot < 2 ^ 21 }
    ensures written { DoesWrite (D.state disk.old) (chunk_place chunk slot + chunk) (left.now ++ right.now) result (D.state disk.new) }
    ensures long { length (left.now ++ right.now) ≡ 64 }
{
    let place = slot_place(chunk, slot) + u64::from(chunk);
    disk.write_at(place, &joined(left, right))
}

// The two digests, one behind the other.
fn joined(left: &Digest, right: &Digest) -> [u8; 64]
    ensures { result ≡ left.now ++ right.now }
{
    let mut both = [0u8; 64];
    both[..32].copy_from_slice(left.bytes());
    both[32..].copy_from_slice(right.bytes());
    both
}
