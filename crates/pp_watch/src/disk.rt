//! A disk in memory that is watched.
ghost use Rattle.std.specs.Prelude.{◌≡◌, ◌+◌, ◌^◌, ◌≤◌, length};
ghost use Rattle.pp_terms.specs.disk.Disk.{DoesAttach, DoesLen, DoesRead, DoesWrite, DoesSync, moment_of};
ghost use Rattle.pp_outside.specs.MemoryDisk.{state_of};
ghost use Rattle.pp_watch.specs.Done.{IsSince, as_before};

use crate::Before;
use pp_outside::{Disk, DiskFault, MemoryDisk};
use std::marker::{Model, PhantomData};

/// A disk in memory that is watched since it was `B.disk`: as long as it lasts, only its calls change it.
#[derive(Drop)]
pub struct WatchedDisk<B: Before> {
    inner: MemoryDisk,
    of: PhantomData<B>,
}

impl<B: Before> Model for WatchedDisk<B> {
    ghost use Rattle.pp_outside.specs.declared.memory_disk.MemoryDisk.{MemoryDisk};
    ghost use Rattle.pp_watch.specs.Done.{IsSince};

    ghost Value = { MemoryDisk };

    ghost view = { λ w. w.inner };

    ghost invariant = { λ w. IsSince B.disk w.inner };
}

impl<B: Before> WatchedDisk<B> {
    /// Watches a disk from now on.
    pub fn new(inner: MemoryDisk) -> WatchedDisk<B>
        requires { B.disk ≡ as_before inner }
        ensures { result ≡ inner }
    {
        WatchedDisk {
            inner,
            of: PhantomData,
        }
    }

    /// The disk, with what was done to it.
    pub fn into_inner(self) -> MemoryDisk
        ensures is { result ≡ self }
        ensures since { IsSince B.disk result }
    {
        self.inner
    }
}

impl<B: Before> Disk for WatchedDisk<B> {
    ghost use Rattle.pp_outside.specs.MemoryDisk.{state_of};
    ghost use Rattle.pp_outside.specs.Whole.{reads_are_image};

    ghost state = { state_of };

    ghost whole = { λ disk known. reads_are_image disk.log };

    fn attach(&mut self, name: &str) -> Result<(), DiskFault>
        ensures does { DoesAttach (state_of self.old) name.now result (state_of self.new) }
    {
        self.inner.attach(name)
    }

    fn len(&mut self) -> Result<u64, DiskFault>
        ensures does { DoesLen (state_of self.old) result (state_of self.new) }
    {
        self.inner.len()
    }

    fn read_at(&mut self, place: u64, into: &mut [u8]) -> Result<(), DiskFault>
        requires { place + length into.old ≤ 2 ^ 40 }
        ensures does { DoesRead (state_of self.old) place into.new result (state_of self.new) }
    {
        self.inner.read_at(place, into)
    }

    fn write_at(&mut self, place: u64, bytes: &[u8]) -> Result<(), DiskFault>
        requires { place + length bytes.now ≤ 2 ^ 40 }
        ensures does { DoesWrite (state_of self.old) place bytes.now result (state_of self.new) }
    {
        self.inner.write_at(place, bytes)
    }

    fn sync(&mut self) -> Result<(), DiskFault>
        ensures does { DoesSync (state_of self.old) result (state_of self.new) }
    {
        self.inner.sync()
    }

    fn moment(&self) -> u64 {
        self.inner.moment()
    }
}
