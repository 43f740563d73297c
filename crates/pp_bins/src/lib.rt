//! Bins: the numbers of the nodes of a tree over chunks (RFC 7574, section 4.2), in 32 and in 64 bits. Nothing here takes
//! memory.
#![tactic(auto)]

ghost use Rattle.pp_terms.specs.tree.Bins.{BinsAreNumbers, BinExamples};

mod bin32;
mod bin64;

pub use bin32::Bin32;
pub use bin64::Bin64;

/// Bins and their numbers.
pub fn laws_of_bins()
    ensures { BinsAreNumbers }
{}

/// Bins that were worked out by hand.
pub fn worked_bins()
    ensures { BinExamples }
{}
