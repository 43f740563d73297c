// A disk that keeps one store.
ghost use Rattle.std.specs.Prelude.{◌≡◌, ◌+◌, ◌^◌, ◌≤◌, length};
ghost use Rattle.pp_terms.specs.disk.Disk.{DiskState, DoesAttach, DoesLen, DoesRead, DoesWrite, DoesSync, IsKnown, IsImage, moment_of};

/// A call of a disk was refused.
#[derive(Clone, Copy, Debug, PartialEq, Eq)]
pub struct DiskFault;

/// A disk with one store at a time, a file of bytes numbered from 0. Places end at 2^40.
///
/// Until a sync, a crash may leave any bytes where was written since the last one, and past the length that the file
/// had then; all other bytes stay.
pub trait Disk {
    /// Whether it tells its contents and is honest, its history, and how often it refused a call: all calls, and
    /// those but `read_at`.
    ghost state: { Self → DiskState };

    /// Makes the named store the current one, and makes an empty one where there is none. Afterwards the disk may
    /// show any image.
    fn attach(&mut self, name: &str) -> Result<(), DiskFault>
        ensures { DoesAttach (state self.old) name.now result (state self.new) };

    /// The length of the file in bytes.
    fn len(&mut self) -> Result<u64, DiskFault>
        ensures { DoesLen (state self.old) result (state self.new) };

    /// Fills all of `into` with the bytes from `place` on, with zeros past the end of the file.
    fn read_at(&mut self, place: u64, into: &mut [u8]) -> Result<(), DiskFault>
        requires { place + length into.old ≤ 2 ^ 40 }
        ensures { DoesRead (state self.old) place into.new result (state self.new) };

    /// Writes all the bytes at `place`; a gap before it is filled with zeros.
    fn write_at(&mut self, place: u64, bytes: &[u8]) -> Result<(), DiskFault>
        requires { place + length bytes.now ≤ 2 ^ 40 }
        ensures { DoesWrite (state self.old) place bytes.now result (state self.new) };

    /// After it a crash leaves what reads give.
    fn sync(&mut self) -> Result<(), DiskFault>
        ensures { DoesSync (state self.old) result (state self.new) };

    /// The disk's moment: how many of its epochs have ended. A link stamps what it sends with it.
    fn moment(&self) -> u64
        ensures { result ≡ moment_of (state self.now).history };

    /// What reads give is one of the images.
    ghost whole: { (disk : Self) → IsKnown (state disk) → IsImage (state disk).history.epoch (state disk).history.reads };
}
