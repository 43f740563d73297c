// A disk in memory that fails from some call on.
ghost use Rattle.std.specs.Prelude.{◌≡◌, ◌+◌, ◌-◌, ◌^◌, ◌<◌, ◌≤◌, nat_lt, true, length};
ghost use Rattle.pp_terms.specs.disk.Disk.{DoesAttach, DoesLen, DoesRead, DoesWrite, DoesSync};

use crate::{Disk, DiskFault, MemoryDisk};

/// A disk in memory whose first calls are those of the disk behind it, each kind counting as one. From then on each
/// call is refused and counted as a fault, and nothing is done to the disk behind it, but that an attachment is noted.
#[derive(Drop)]
pub struct FuseDisk {
    inner: MemoryDisk,
    calls: u32,
    faults: u64,
    hard: u64,
}

impl FuseDisk {
    ghost use Rattle.pp_outside.specs.Faults.{one_more};
    ghost use Rattle.pp_outside.specs.FuseDisk.{state_of, inner_of, calls_of};
    ghost use Rattle.pp_outside.specs.MemoryDisk as memory_disk;

    /// A disk over `inner` that passes so many calls. Its counts of faults begin with those of `inner`.
    pub fn new(inner: MemoryDisk, calls: u32) -> FuseDisk
        ensures inner { inner_of result ≡ inner }
        ensures calls { calls_of result ≡ calls }
        ensures state { state_of result ≡ memory_disk.state_of inner }
    {
        let (faults, hard) = inner.refusals();
        FuseDisk {
            inner,
            calls,
            faults,
            hard,
        }
    }

    /// How many calls are still to pass.
    pub fn calls_left(&self) -> u32
        ensures { result ≡ calls_of self.now }
    {
        self.calls
    }

    /// The disk behind it, which counted only its own refusals.
    pub fn into_inner(self) -> MemoryDisk
        ensures { result ≡ inner_of self }
    {
        self.inner
    }

    // Uses up a call, and answers whether it passes.
    fn passes(&mut self) -> bool
        ensures passes { result ≡ nat_lt 0 (calls_of self.old) }
        ensures calls { self.new ≡ record self.old { calls = calls_of self.old - 1 } }
    {
        let passes = self.calls > 0;
        self.calls = self.calls.saturating_sub(1);
        passes
    }

    fn count_fault(&mut self)
        ensures counted { self.new ≡ record self.old { faults = one_more self.old.faults; hard = one_more self.old.hard } }
        ensures faults_fit { self.old.faults < 2 ^ 64 }
        ensures hard_fit { self.old.hard < 2 ^ 64 }
    {
        self.faults = self.faults.saturating_add(1);
        self.hard = self.hard.saturating_add(1);
    }
}

impl Disk for FuseDisk {
    ghost use Rattle.pp_outside.specs.FuseDisk.{state_of, inner_of, Burns, Passes};
    ghost use Rattle.pp_outside.specs.MemoryDisk.{Attaches, Measures, Reads, Writes, Syncs, NotesAttachment};
    ghost use Rattle.pp_outside.specs.Whole.{reads_are_image};
    ghost use Rattle.pp_outside.specs.declared.call.Call.TheVariants.{Attach, Len, Read, Write, Sync};

    ghost state = { state_of };

    ghost whole = { λ disk known. reads_are_image disk.inner.log };

    fn attach(&mut self, name: &str) -> Result<(), DiskFault>
        ensures does { DoesAttach (state_of self.old) name.now result (state_of self.new) }
        ensures burns { Burns self.old Attach result self.new }
        ensures inner { Passes self.old (Attaches (inner_of self.old) result (inner_of self.new))
            (NotesAttachment (inner_of self.old) (inner_of self.new)) }
    {
        if !self.passes() {
            self.inner.note_attachment();
            self.count_fault();
            return Err(DiskFault);
        }
        let result = self.inner.attach(name);
        if result.is_err() {
            self.count_fault();
        }
        result
    }

    fn len(&mut self) -> Result<u64, DiskFault>
        ensures does { DoesLen (state_of self.old) result (state_of self.new) }
        ensures burns { Burns self.old Len result self.new }
        ensures inner { Passes self.old (Measures (inner_of self.old) result (inner_of self.new))
            (inner_of self.new ≡ inner_of self.old) }
    {
        if !self.passes() {
            self.count_fault();
            return Err(DiskFault);
        }
        let result = self.inner.len();
        if result.is_err() {
            self.count_fault();
        }
        result
    }

    fn read_at(&mut self, place: u64, into: &mut [u8]) -> Result<(), DiskFault>
        requires { place + length into.old ≤ 2 ^ 40 }
        ensures does { DoesRead (state_of self.old) place into.new result (state_of self.new) }
        ensures burns { Burns self.old Read result self.new }
        ensures inner { Passes self.old (Reads (inner_of self.old) place into.old result into.new (inner_of self.new))
            ((inner_of self.new ≡ inner_of self.old) × (into.new ≡ into.old)) }
    {
        if !self.passes() {
            self.faults = self.faults.saturating_add(1);
            return Err(DiskFault);
        }
        let result = self.inner.read_at(place, into);
        if result.is_err() {
            self.faults = self.faults.saturating_add(1);
        }
        result
    }

    fn write_at(&mut self, place: u64, bytes: &[u8]) -> Result<(), DiskFault>
        requires { place + length bytes.now ≤ 2 ^ 40 }
        ensures does { DoesWrite (state_of self.old) place bytes.now result (state_of self.new) }
        ensures burns { Burns self.old Write result self.new }
        ensures inner { Passes self.old (Writes (inner_of self.old) place bytes.now result (inner_of self.new))
            (inner_of self.new ≡ inner_of self.old) }
    {
        if !self.passes() {
            self.count_fault();
            return Err(DiskFault);
        }
        let result = self.inner.write_at(place, bytes);
        if result.is_err() {
            self.count_fault();
        }
        result
    }

    fn sync(&mut self) -> Result<(), DiskFault>
        ensures does { DoesSync (state_of self.old) result (state_of self.new) }
        ensures burns { Burns self.old Sync result self.new }
        ensures inner { Passes self.old (Syncs (inner_of self.old) result (inner_of self.new))
            (inner_of self.new ≡ inner_of self.old) }
    {
        if !self.passes() {
            self.count_fault();
            return Err(DiskFault);
        }
        let result = self.inner.sync();
        if result.is_err() {
            self.count_fault();
        }
        result
    }

    fn moment(&self) -> u64 {
        self.inner.moment()
    }
}
