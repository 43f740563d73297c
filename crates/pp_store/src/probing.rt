// Whose file a disk has.
ghost use Rattle.std.specs.Prelude.{ℕ, ◌<◌, length};
ghost use Rattle.pp_terms.specs.disk.Disk.{IsKnown};
ghost use Rattle.pp_scan.specs.Look.{KeepsAll};
ghost use Rattle.pp_store.specs.Probe.{HasProbed};

use crate::findings::{Probe, ProbeFault};
use pp_outside::Disk;
use pp_scan::{Difference, header_difference};
use pp_tree::Descriptor;

/// Finds out whether the file is empty or begins with the descriptor's header; past its end it counts as zeros.
pub fn probe<D: Disk>(descriptor: &Descriptor, disk: &mut D) -> Result<Probe, ProbeFault>
    ensures probed { HasProbed descriptor.now (D.state disk.old) (D.state disk.new) result }
    ensures looks { KeepsAll (D.state disk.old) (D.state disk.new) }
{
    match disk.len() {
        Ok(0) => Ok(Probe::Fresh),
        Ok(_) => compare(descriptor, disk),
        Err(_) => Err(ProbeFault::Disk),
    }
}

fn compare<D: Disk>(descriptor: &Descriptor, disk: &mut D) -> Result<Probe, ProbeFault>
    requires { IsKnown (D.state disk.old) → 0 < length (D.state disk.old).history.reads }
    ensures probed { HasProbed descriptor.now (D.state disk.old) (D.state disk.new) result }
    ensures looks { KeepsAll (D.state disk.old) (D.state disk.new) }
{
    match header_difference(descriptor, disk) {
        Ok(None) => Ok(Probe::Ours),
        Ok(Some(Difference { at, found, want })) => {
            Err(ProbeFault::NotAStore { at, found, want })
        }
        Err(_) => Err(ProbeFault::Disk),
    }
}
