//! A disk for tests that refuses its calls from one on.
use pp_outside::{Call, Disk, DiskFault, MemoryDisk};
use std::alloc::{AllocError, Global};

// A disk that takes `left` calls more and refuses each after them. A write that it refuses is pending all the same.
#[derive(Drop)]
pub(crate) struct StoppingDisk {
    pub(crate) inner: MemoryDisk,
    pub(crate) left: u32,
}

impl StoppingDisk {
    ghost use Rattle.std.specs.Prelude.{◌≡◌};
    ghost use Rattle.pp_outside.specs.MemoryDisk.{state_of};

    // An empty disk.
    pub(crate) fn new(alloc: Global, left: u32) -> Result<StoppingDisk, AllocError> {
        let inner = MemoryDisk::new(alloc, &[])?;
        Ok(StoppingDisk { inner, left })
    }

    // Counts a call, and orders the inner disk to refuse it if none is left.
    fn count(&mut self, call: Call)
        ensures { state_of self.new.inner ≡ state_of self.old.inner }
    {
        if self.left == 0 {
            self.inner.fail_next(call);
        } else {
            self.left -= 1;
        }
    }
}

impl Disk for StoppingDisk {
    ghost use Rattle.pp_outside.specs.MemoryDisk.{state_of};
    ghost use Rattle.pp_outside.specs.Whole.{reads_are_image};

    ghost state = { λ disk. state_of disk.inner };

    ghost whole = { λ disk known. reads_are_image disk.inner.log };

    fn attach(&mut self, name: &str) -> Result<(), DiskFault> {
        self.count(Call::Attach);
        self.inner.attach(name)
    }

    fn len(&mut self) -> Result<u64, DiskFault> {
        self.count(Call::Len);
        self.inner.len()
    }

    fn read_at(&mut self, place: u64, into: &mut [u8]) -> Result<(), DiskFault> {
        self.count(Call::Read);
        self.inner.read_at(place, into)
    }

    fn write_at(&mut self, place: u64, bytes: &[u8]) -> Result<(), DiskFault> {
        self.count(Call::Write);
        self.inner.write_at(place, bytes)
    }

    fn sync(&mut self) -> Result<(), DiskFault> {
        self.count(Call::Sync);
        self.inner.sync()
    }

    fn moment(&self) -> u64 {
        self.inner.moment()
    }
}
