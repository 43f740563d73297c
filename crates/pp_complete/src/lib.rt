//! What a chunk needs: hashes that complete its path, for who has what was left out.
//!
//! Its function does nothing. Its contract is two laws of these definitions.
#![tactic(auto)]

ghost use Rattle.pp_complete.specs.Laws.{CompletedIsSettled, CompletedFits};

/// A chunk of a rooted book fits, where it comes with hashes of that book that complete its path for what the receiver told of.
pub fn laws_of_completion()
    ensures settled { CompletedIsSettled }
    ensures fits { CompletedFits }
{}
