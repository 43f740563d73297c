// Bytes from a source.
ghost use Rattle.std.specs.Prelude.{◌≡◌, ℕ, ◌≤◌, min, Some, List, length, take, drop, IfOk};
ghost use Rattle.pp_terms.specs.Count.{HasCause};

use pp_outside::{Source, SourceFault};

/// Reads until the buffer is full or the source has ended, and answers how many bytes it read.
pub(crate) fn take<S: Source>(source: &mut S, buffer: &mut [u8]) -> Result<usize, SourceFault>
    ensures within { IfOk result (λ n. n ≤ length buffer.new) }
    ensures filled { (content : List ℕ) → (S.state source.old).left ≡ Some content
        → IfOk result (λ n. (n ≡ min (length content) (length buffer.new)) × (take n buffer.new ≡ take n content)
        × ((S.state source.new).left ≡ Some (drop n content))) }
    // It takes no more than the buffer holds, refused or not.
    ensures taken { (content : List ℕ) → (S.state source.old).left ≡ Some content
        → ((n : ℕ) × (n ≤ length buffer.new) × ((S.state source.new).left ≡ Some (drop n content))) }
    ensures cause { HasCause (S.state source.old).faults (S.state source.new).faults result }
{
    let mut filled = 0;
    while filled < buffer.len() {
        match source.read(&mut buffer[filled..]) {
            Ok(0) => break,
            Ok(count) => filled += count,
            Err(fault) => return Err(fault),
        }
    }
    Ok(filled)
}
