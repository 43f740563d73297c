// A disk in memory that lies about one byte.
ghost use Rattle.std.specs.Prelude.{◌≡◌, ◌+◌, ◌^◌, ◌≤◌, ◌&&◌, ◌==◌, [], length, OnOk, OnErr};
ghost use Rattle.pp_terms.specs.disk.Disk.{DoesAttach, DoesLen, DoesRead, DoesWrite, DoesSync};

use crate::{Disk, DiskFault, MemoryDisk};

/// A disk in memory that lies about the byte at one place. Its first readings of that place are true, and from then
/// on each has that byte changed by exclusive or with a mask. All other calls are those of the disk behind it.
#[derive(Drop)]
pub struct LyingDisk {
    inner: MemoryDisk,
    place: u64,
    mask: u8,
    passed: u32,
}

impl LyingDisk {
    ghost use Rattle.pp_outside.specs.LyingDisk.{inner_of, place_of, mask_of, passes_of, passes_after, covers};

    /// A disk over `inner` whose first `passed` readings that cover `place` are true. A refused reading doesn't count.
    pub fn new(inner: MemoryDisk, place: u64, mask: u8, passed: u32) -> LyingDisk
        ensures inner { inner_of result ≡ inner }
        ensures place { place_of result ≡ place }
        ensures mask { mask_of result ≡ mask }
        ensures passes { passes_of result ≡ passed }
    {
        LyingDisk {
            inner,
            place,
            mask,
            passed,
        }
    }

    // Counts a reading of this range, and answers whether it is to lie.
    fn lies(&mut self, from: u64, size: usize) -> bool
        requires { from + size ≤ 2 ^ 40 }
        ensures lies { result ≡ covers self.old from size && passes_of self.old == 0 }
        ensures passes { self.new ≡ record self.old { passed = passes_after self.old from size } }
    {
        if self.place < from || self.place - from >= size as u64 {
            return false;
        }
        let lies = self.passed == 0;
        self.passed = self.passed.saturating_sub(1);
        lies
    }
}

impl Disk for LyingDisk {
    ghost use Rattle.pp_outside.specs.LyingDisk.{state_of, inner_of, passes_of, reads_of, passes_after, Shows, LiesOn};
    ghost use Rattle.pp_outside.specs.MemoryDisk as memory_disk;
    ghost use Rattle.pp_outside.specs.declared.call.Call.TheVariants.{Read};
    ghost use Rattle.pp_outside.specs.MemoryDisk.{Attaches, Measures, FailsOnOrder, Writes, Syncs};
    ghost use Rattle.pp_terms.proofs.Images.{is_sole};

    ghost state = { state_of };

    ghost whole = { λ disk known. is_sole [] };

    fn attach(&mut self, name: &str) -> Result<(), DiskFault>
        ensures does { DoesAttach (state_of self.old) name.now result (state_of self.new) }
        ensures inner { Attaches (inner_of self.old) result (inner_of self.new) }
        ensures lies_on { LiesOn self.old self.new }
        ensures passes { passes_of self.new ≡ passes_of self.old }
    {
        self.inner.attach(name)
    }

    fn len(&mut self) -> Result<u64, DiskFault>
        ensures does { DoesLen (state_of self.old) result (state_of self.new) }
        ensures inner { Measures (inner_of self.old) result (inner_of self.new) }
        ensures lies_on { LiesOn self.old self.new }
        ensures passes { passes_of self.new ≡ passes_of self.old }
    {
        self.inner.len()
    }

    fn read_at(&mut self, place: u64, into: &mut [u8]) -> Result<(), DiskFault>
        requires { place + length into.old ≤ 2 ^ 40 }
        ensures does { DoesRead (state_of self.old) place into.new result (state_of self.new) }
        ensures inner { FailsOnOrder (inner_of self.old) Read result (inner_of self.new) }
        ensures same { (memory_disk.state_of (inner_of self.new)).history ≡ (memory_disk.state_of (inner_of self.old)).history }
        ensures shows { OnOk result (Shows self.old place (reads_of self.old) into.new) }
        ensures refused { OnErr result (into.new ≡ into.old) }
        ensures lies_on { LiesOn self.old self.new }
        ensures passes { OnOk result (passes_of self.new ≡ passes_after self.old place (length into.old)) }
        ensures refused_passes { OnErr result (passes_of self.new ≡ passes_of self.old) }
    {
        self.inner.read_at(place, into)?;
        if self.lies(place, into.len()) {
            into[(self.place - place) as usize] ^= self.mask;
        }
        Ok(())
    }

    fn write_at(&mut self, place: u64, bytes: &[u8]) -> Result<(), DiskFault>
        requires { place + length bytes.now ≤ 2 ^ 40 }
        ensures does { DoesWrite (state_of self.old) place bytes.now result (state_of self.new) }
        ensures inner { Writes (inner_of self.old) place bytes.now result (inner_of self.new) }
        ensures lies_on { LiesOn self.old self.new }
        ensures passes { passes_of self.new ≡ passes_of self.old }
    {
        self.inner.write_at(place, bytes)
    }

    fn sync(&mut self) -> Result<(), DiskFault>
        ensures does { DoesSync (state_of self.old) result (state_of self.new) }
        ensures inner { Syncs (inner_of self.old) result (inner_of self.new) }
        ensures lies_on { LiesOn self.old self.new }
        ensures passes { passes_of self.new ≡ passes_of self.old }
    {
        self.inner.sync()
    }

    fn moment(&self) -> u64 {
        0
    }
}
