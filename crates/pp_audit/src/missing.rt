//! Whether a set of committed chunks is the whole content.

ghost use Rattle.std.specs.Prelude.{◌≡◌, ◌↔◌, ℕ, ◌<◌, true, false, IsTrue};
ghost use Rattle.pp_traffic.specs.Committed.{is_in};
ghost use Rattle.pp_promises.specs.Missing.{IsComplete, IsFirstMissing};

use crate::debts::stands;
use pp_tree::Descriptor;

// Whether each number before that one is in the set.
fn has_all_before(set: &[bool], end: u64) -> bool
    ensures { IsTrue result ↔ ((i : ℕ) → i < end → is_in set.now i ≡ true) }
{
    for number in 0..end {
        if !stands(set, number) {
            return false;
        }
    }
    true
}

/// Whether every chunk of the content is in the set.
pub fn is_complete(descriptor: &Descriptor, set: &[bool]) -> bool
    ensures { IsTrue result ↔ IsComplete descriptor.now set.now }
{
    has_all_before(set, u64::from(descriptor.chunks()))
}

/// Whether a chunk of the content isn't in the set, and each before that one is.
pub fn is_first_missing(descriptor: &Descriptor, set: &[bool], chunk: u64) -> bool
    ensures { IsTrue result ↔ IsFirstMissing descriptor.now set.now chunk }
{
    chunk < u64::from(descriptor.chunks()) && !stands(set, chunk) && has_all_before(set, chunk)
}
