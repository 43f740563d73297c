// Writes into bytes in memory.
ghost use Rattle.std.specs.Prelude.{◌≡◌, ◌+◌, ◌^◌, ◌<◌, ◌≤◌, length, OnOk, OnErr};
ghost use Rattle.pp_terms.specs.disk.Disk.{written};

use std::alloc::AllocError;

// Writes the piece at a place, with zeros in a gap before it.
#[tactic(auto, using(crate::proofs::Written::written_padded))]
pub(crate) fn write_over(bytes: &mut Vec<u8>, place: usize, piece: &[u8]) -> Result<(), AllocError>
    requires { place + length piece.now < 2 ^ 64 }
    ensures ok { OnOk result (bytes.new.items ≡ written bytes.old.items place piece.now) }
    ensures err { OnErr result (bytes.new.items ≡ bytes.old.items) }
{
    let end = place + piece.len();
    if bytes.len() < end {
        bytes.resize(end, 0)?;
    }
    overwrite(bytes, place, piece);
    Ok(())
}

fn overwrite(bytes: &mut [u8], place: usize, piece: &[u8])
    requires { place + length piece.now ≤ length bytes.old }
    ensures { bytes.new ≡ written bytes.old place piece.now }
{
    bytes[place..place + piece.len()].copy_from_slice(piece);
}
