// The first 64 bytes of a store's file, where the size isn't known.
ghost use Rattle.std.specs.Prelude.{◌≡◌, ◌↔◌, ℕ, ◌<◌, slice_index, IsTrue, MatchOption};
ghost use Rattle.pp_terms.specs.tree.Content.{IsChunkSize};
ghost use Rattle.pp_terms.specs.disk.Store.{header};
ghost use Rattle.pp_targets.specs.Names.{name_of};
ghost use Rattle.pp_named.specs.Front.{sized, size_in, IsFixed, IsFixedDifference};

use pp_scan::{Difference, header_of};
use pp_targets::SwarmName;
use pp_tree::Descriptor;

/// The header of the name's store, with size 1. All bytes but 12 to 19 are those of the name's stores of any size.
pub fn header_of_name(name: &SwarmName) -> [u8; 64]
    requires { IsChunkSize name.now.chunk }
    ensures { result ≡ header (sized (name_of name.now) 1) }
{
    header_of(&Descriptor::new(name.root, name.chunk, 1, name.method).unwrap())
}

/// The content size in bytes that a header tells.
#[tactic(auto, unfolding(crate::specs::Front::size_in))]
pub fn size_in(bytes: &[u8; 64]) -> u64
    ensures { result ≡ size_in bytes.now }
{
    u64::from_be_bytes([
        bytes[12], bytes[13], bytes[14], bytes[15], bytes[16], bytes[17], bytes[18], bytes[19],
    ])
}

/// The first byte that differs from the wanted header, the size's bytes aside.
pub fn fixed_difference(bytes: &[u8; 64], wanted: &[u8; 64]) -> Option<Difference>
    ensures { MatchOption result ((k : ℕ) → k < 64 → IsFixed k → slice_index bytes.now k ≡ slice_index wanted.now k)
        (λ d. IsFixedDifference bytes.now wanted.now d.at d.found d.want) }
{
    for at in 0..64u8 {
        let (found, want) = (bytes[usize::from(at)], wanted[usize::from(at)]);
        if is_fixed(at) && found != want {
            return Some(Difference { at, found, want });
        }
    }
    None
}

// whether that byte of a header is the same for every size
fn is_fixed(at: u8) -> bool
    ensures { IsTrue result ↔ IsFixed at }
{
    at < 12 || at >= 20
}
