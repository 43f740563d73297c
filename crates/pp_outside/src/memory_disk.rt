// A disk in memory, which fails and crashes on order.
ghost use Rattle.std.specs.Prelude.{◌≡◌, ◌⊎◌, ◌≢◌, ◌+◌, ◌^◌, ◌<◌, ◌≤◌, true, false, if◌then◌else◌, None, Some, length, IsTrue, IsErr, IfOk, OnOk, OnErr};
ghost use Rattle.pp_terms.specs.disk.Disk.{DoesAttach, DoesLen, DoesRead, DoesWrite, DoesSync, IsRead, MayLeave, fresh, settled, moment_of};
ghost use Rattle.pp_terms.specs.disk.Calls.{attached, crash_image};

use crate::log::Log;
use crate::orders::Orders;
use crate::{Call, Disk, DiskFault};
use std::alloc::{AllocError, Global};

/// A disk in memory. It keeps all its calls, so that its history answers for every moment. It doesn't tell the names of
/// the stores that were attached.
///
/// A write that is refused on order is pending all the same: a crash may do it.
#[derive(Drop)]
pub struct MemoryDisk {
    log: Log,
    orders: Orders,
    faults: u64,
    hard: u64,
    short: bool,
}

impl MemoryDisk {
    ghost use Rattle.pp_outside.specs.Orders.{is_disk_call};
    ghost use Rattle.pp_outside.specs.MemoryDisk.{state_of, order_of, is_short, NotesAttachment};
    ghost use Rattle.pp_outside.specs.Faults.{one_more};
    ghost use Rattle.pp_outside.specs.CallCount.{calls_in};

    /// A disk with this image, all of it settled.
    pub fn new(alloc: Global, image: &[u8]) -> Result<MemoryDisk, AllocError>
        ensures state { IfOk result (λ disk. state_of disk
            ≡ record { tells = true; honest = true; history = fresh image.now; faults = 0; hard = 0 }) }
        ensures nothing_ordered { IfOk result (λ disk. (call : _) → order_of disk call ≡ None) }
        ensures not_short { IfOk result (λ disk. is_short disk ≡ false) }
    {
        Ok(MemoryDisk {
            log: Log::new(alloc, image)?,
            orders: Orders::none(),
            faults: 0,
            hard: 0,
            short: false,
        })
    }

    /// Orders that the next call of this kind fails. A call of another device is not ordered.
    pub fn fail_next(&mut self, call: Call)
        ensures state { state_of self.new ≡ state_of self.old }
        ensures short { is_short self.new ≡ is_short self.old }
        ensures ordered { order_of self.new call ≡ (if is_disk_call call then Some 0 else None) }
        ensures others { (other : _) → other ≢ call → order_of self.new other ≡ order_of self.old other }
    {
        self.fail_after(call, 0);
    }

    /// Orders that the next `passed` calls of this kind pass and the one after them fails, in place of what was
    /// ordered of this kind before. A call of another device is not ordered.
    pub fn fail_after(&mut self, call: Call, passed: u32)
        ensures state { state_of self.new ≡ state_of self.old }
        ensures short { is_short self.new ≡ is_short self.old }
        ensures ordered { order_of self.new call ≡ (if is_disk_call call then Some passed else None) }
        ensures others { (other : _) → other ≢ call → order_of self.new other ≡ order_of self.old other }
    {
        if call.is_of_disk() {
            self.orders.set(call, Some(passed));
        }
    }

    /// Crashes: what is left is one of the images that a crash now may leave, by the pick. The pending writes are
    /// taken in order, the oldest first, numbered from 0. Pick 0 drops each and pick 1 does each. By another pick a
    /// write is dropped, done, or fills its range with a5 bytes, as the pick and its number together leave 0, 1 or 2
    /// when divided by 3.
    pub fn crash(&mut self, pick: u64)
        ensures crashed { ((state_of self.new ≡ record (state_of self.old) {
          history = settled (state_of self.old).history (crash_image pick (state_of self.old).history.epoch);
        })
            × (is_short self.new ≡ is_short self.old))
            ⊎ ((state_of self.new ≡ record (state_of self.old) {
              faults = one_more (state_of self.old).faults;
              hard = one_more (state_of self.old).hard;
            })
            × IsTrue (is_short self.new)) }
        ensures possible { MayLeave (state_of self.old).history (state_of self.new).history.reads }
        ensures orders { (call : _) → order_of self.new call ≡ order_of self.old call }
    {
        if self.log.crash(pick).is_err() {
            self.short = true;
            self.count_fault();
        }
    }

    /// What reads give.
    pub fn bytes(&self) -> &[u8]
        ensures { result.now ≡ (state_of self.now).history.reads }
    {
        self.log.bytes()
    }

    /// How many epochs have ended, each with a sync or a crash.
    pub fn moment(&self) -> u64
        ensures { result ≡ moment_of (state_of self.now).history }
    {
        self.log.moment()
    }

    /// How many calls changed what is on the disk: writes, done or refused on order, syncs and crashes.
    pub fn calls(&self) -> usize
        ensures { result ≡ calls_in (state_of self.now).history }
    {
        self.log.calls()
    }

    /// Whether a call found no memory for what it was to keep.
    pub fn short(&self) -> bool
        ensures { result ≡ is_short self.now }
    {
        self.short
    }

    // Notes an attachment that was refused above, which counts as no fault of this disk.
    pub(crate) fn note_attachment(&mut self)
        ensures { NotesAttachment self.old self.new }
    {
        self.log.attach();
    }

    // How many of its calls were refused: all, and those but readings.
    pub(crate) fn refusals(&self) -> (u64, u64)
        ensures { result ≡ ((state_of self.now).faults, (state_of self.now).hard) }
    {
        (self.faults, self.hard)
    }

    fn count_fault(&mut self)
        ensures counted { self.new ≡ record self.old { faults = one_more self.old.faults; hard = one_more self.old.hard } }
        ensures faults_fit { self.old.faults < 2 ^ 64 }
        ensures hard_fit { self.old.hard < 2 ^ 64 }
    {
        self.faults = self.faults.saturating_add(1);
        self.hard = self.hard.saturating_add(1);
    }
}

impl Disk for MemoryDisk {
    ghost use Rattle.pp_outside.specs.MemoryDisk.{state_of, Attaches, Measures, Reads, Writes, Syncs};
    ghost use Rattle.pp_outside.specs.Whole.{reads_are_image};

    ghost state = { state_of };

    ghost whole = { λ disk known. reads_are_image disk.log };

    fn attach(&mut self, _name: &str) -> Result<(), DiskFault>
        ensures does { DoesAttach (state_of self.old) _name.now result (state_of self.new) }
        ensures exactly { Attaches self.old result self.new }
    {
        self.log.attach();
        if self.orders.take(Call::Attach) {
            self.count_fault();
            return Err(DiskFault);
        }
        Ok(())
    }

    fn len(&mut self) -> Result<u64, DiskFault>
        ensures does { DoesLen (state_of self.old) result (state_of self.new) }
        ensures exactly { Measures self.old result self.new }
    {
        if self.orders.take(Call::Len) {
            self.count_fault();
            return Err(DiskFault);
        }
        Ok(self.log.bytes().len() as u64)
    }

    fn read_at(&mut self, place: u64, into: &mut [u8]) -> Result<(), DiskFault>
        requires { place + length into.old ≤ 2 ^ 40 }
        ensures does { DoesRead (state_of self.old) place into.new result (state_of self.new) }
        ensures exactly { Reads self.old place into.old result into.new self.new }
    {
        if self.orders.take(Call::Read) {
            self.faults = self.faults.saturating_add(1);
            return Err(DiskFault);
        }
        copy_from(self.log.bytes(), place as usize, into);
        Ok(())
    }

    fn write_at(&mut self, place: u64, bytes: &[u8]) -> Result<(), DiskFault>
        requires { place + length bytes.now ≤ 2 ^ 40 }
        ensures does { DoesWrite (state_of self.old) place bytes.now result (state_of self.new) }
        ensures exactly { Writes self.old place bytes.now result self.new }
    {
        let place = place as usize;
        let refused = self.orders.take(Call::Write);
        let kept = if refused {
            self.log.refuse_write(place, bytes)
        } else {
            self.log.write(place, bytes)
        };
        if kept.is_err() {
            self.short = true;
        }
        if refused || kept.is_err() {
            self.count_fault();
            return Err(DiskFault);
        }
        Ok(())
    }

    fn sync(&mut self) -> Result<(), DiskFault>
        ensures does { DoesSync (state_of self.old) result (state_of self.new) }
        ensures exactly { Syncs self.old result self.new }
    {
        if self.orders.take(Call::Sync) {
            self.count_fault();
            return Err(DiskFault);
        }
        if self.log.sync().is_err() {
            self.short = true;
            self.count_fault();
            return Err(DiskFault);
        }
        Ok(())
    }

    fn moment(&self) -> u64 {
        self.log.moment()
    }
}

// Fills `into` with the bytes from a place on, and with zeros past their end.
fn copy_from(bytes: &[u8], place: usize, into: &mut [u8])
    ensures copied { IsRead bytes.now place into.new }
{
    let from = place.min(bytes.len());
    let rest = &bytes[from..];
    let some = rest.len().min(into.len());
    into[..some].copy_from_slice(&rest[..some]);
    into[some..].fill(0);
}
