// Which descriptor of a name a disk's file is of.
ghost use Rattle.std.specs.Prelude.{ℕ, ◌<◌, length};
ghost use Rattle.pp_terms.specs.tree.Content.{IsChunkSize};
ghost use Rattle.pp_terms.specs.disk.Disk.{IsKnown};
ghost use Rattle.pp_scan.specs.Look.{KeepsAll};
ghost use Rattle.pp_targets.specs.Names.{name_of};
ghost use Rattle.pp_named.specs.Told.{HasTold};
ghost use Rattle.pp_named.specs.Judged.{IsJudged, IsFitting};

use crate::front::{fixed_difference, header_of_name, size_in};
use pp_outside::Disk;
use pp_scan::Difference;
use pp_targets::SwarmName;
use pp_tree::Descriptor;
use thiserror::Error;

/// Why a file is neither empty nor of a descriptor of the name.
#[derive(Clone, Copy, Debug, PartialEq, Eq, Error)]
pub enum NameFault {
    /// Byte `at`, below 64, is the first that differs from the name's header. Bytes 12 to 19, which tell the size,
    /// aren't compared.
    #[error("not a store: byte {at} is {found}, wanted {want}")]
    NotAStore { at: u8, found: u8, want: u8 },
    /// The header tells a size in bytes that no descriptor of the name has: 0, one of more than 2^20 chunks, or one
    /// whose last chunk has 64 bytes.
    #[error("content size: {0} bytes")]
    Size(u64),
    /// The disk refused a call.
    #[error("the disk refused a call")]
    Disk,
}

/// Finds out which descriptor of the name the file's header tells, or None where the file is empty; past the file's end
/// bytes count as zeros. The name's chunk size is one that a swarm can have. The disk is asked for the file's length once,
/// and once for 64 bytes.
pub fn probe_name<D: Disk>(name: &SwarmName, disk: &mut D) -> Result<Option<Descriptor>, NameFault>
    requires { IsChunkSize name.now.chunk }
    ensures told { HasTold (name_of name.now) (D.state disk.old) (D.state disk.new) result }
    ensures looks { KeepsAll (D.state disk.old) (D.state disk.new) }
{
    match disk.len() {
        Ok(0) => Ok(None),
        Ok(_) => read_front(name, disk),
        Err(_) => Err(NameFault::Disk),
    }
}

// The file isn't empty.
fn read_front<D: Disk>(name: &SwarmName, disk: &mut D) -> Result<Option<Descriptor>, NameFault>
    requires size { IsChunkSize name.now.chunk }
    requires some { IsKnown (D.state disk.old) → 0 < length (D.state disk.old).history.reads }
    ensures told { HasTold (name_of name.now) (D.state disk.old) (D.state disk.new) result }
    ensures looks { KeepsAll (D.state disk.old) (D.state disk.new) }
{
    let mut bytes = [0u8; 64];
    match disk.read_at(0, &mut bytes) {
        Ok(()) => judge(name, &bytes),
        Err(_) => Err(NameFault::Disk),
    }
}

// what the first bytes of a file that isn't empty tell
fn judge(name: &SwarmName, bytes: &[u8; 64]) -> Result<Option<Descriptor>, NameFault>
    requires { IsChunkSize name.now.chunk }
    ensures { IsJudged (name_of name.now) bytes.now result }
{
    match fixed_difference(bytes, &header_of_name(name)) {
        Some(Difference { at, found, want }) => Err(NameFault::NotAStore { at, found, want }),
        None => with_size(name, size_in(bytes)),
    }
}

// how many bytes two digests have, joined
const TWO_DIGESTS: u32 = 64;

// the descriptor of the name with that size, if there is one
fn with_size(name: &SwarmName, size: u64) -> Result<Option<Descriptor>, NameFault>
    requires { IsChunkSize name.now.chunk }
    ensures { IsFitting (name_of name.now) size result }
{
    match Descriptor::new(name.root, name.chunk, size, name.method) {
        Ok(descriptor) => {
            if descriptor.chunk_len(descriptor.chunks() - 1) == TWO_DIGESTS {
                Err(NameFault::Size(size))
            } else {
                Ok(Some(descriptor))
            }
        }
        Err(_) => Err(NameFault::Size(size)),
    }
}
