// A disk that keeps nothing but its length.
ghost use Rattle.std.specs.Prelude.{◌≡◌, ◌+◌, ◌^◌, ◌≤◌, max, false, length, replicate, [], Ok, IsOk};
ghost use Rattle.pp_terms.specs.disk.Disk.{DoesAttach, DoesLen, DoesRead, DoesWrite, DoesSync, fresh};

use crate::{Disk, DiskFault};

/// A disk that keeps no byte: it has the length that its writes gave it, and reads as zeros. It never fails.
#[derive(Drop)]
pub struct NullDisk {
    end: u64,
}

impl NullDisk {
    ghost use Rattle.pp_outside.specs.NullDisk.{state_of, end_of};

    /// An empty disk.
    pub fn new() -> NullDisk
        ensures state { state_of result ≡ record { tells = false; honest = false; history = fresh []; faults = 0; hard = 0 } }
        ensures empty { end_of result ≡ 0 }
    {
        NullDisk { end: 0 }
    }
}

impl Disk for NullDisk {
    ghost use Rattle.pp_outside.specs.NullDisk.{state_of, end_of};
    ghost use Rattle.pp_terms.proofs.Images.{is_sole};

    ghost state = { state_of };

    ghost whole = { λ disk known. is_sole [] };

    fn attach(&mut self, _name: &str) -> Result<(), DiskFault>
        ensures does { DoesAttach (state_of self.old) _name.now result (state_of self.new) }
        ensures ok { IsOk result }
        ensures same { self.new ≡ self.old }
    {
        Ok(())
    }

    fn len(&mut self) -> Result<u64, DiskFault>
        ensures does { DoesLen (state_of self.old) result (state_of self.new) }
        ensures end { result ≡ Ok (end_of self.old) }
        ensures same { self.new ≡ self.old }
    {
        Ok(self.end)
    }

    fn read_at(&mut self, place: u64, into: &mut [u8]) -> Result<(), DiskFault>
        requires { place + length into.old ≤ 2 ^ 40 }
        ensures does { DoesRead (state_of self.old) place into.new result (state_of self.new) }
        ensures ok { IsOk result }
        ensures zeros { into.new ≡ replicate (length into.old) 0 }
        ensures same { self.new ≡ self.old }
    {
        into.fill(0);
        Ok(())
    }

    fn write_at(&mut self, place: u64, bytes: &[u8]) -> Result<(), DiskFault>
        requires { place + length bytes.now ≤ 2 ^ 40 }
        ensures does { DoesWrite (state_of self.old) place bytes.now result (state_of self.new) }
        ensures ok { IsOk result }
        ensures state { state_of self.new ≡ state_of self.old }
        ensures end { end_of self.new ≡ max (end_of self.old) (place + length bytes.now) }
    {
        self.end = self.end.max(place + bytes.len() as u64);
        Ok(())
    }

    fn sync(&mut self) -> Result<(), DiskFault>
        ensures does { DoesSync (state_of self.old) result (state_of self.new) }
        ensures ok { IsOk result }
        ensures same { self.new ≡ self.old }
    {
        Ok(())
    }

    fn moment(&self) -> u64 {
        0
    }
}
