//! A session of a peer: its store is opened on a disk, and then it takes turns. Whatever ends the turns, the session keeps the promise
//! of a run.
//!
//! Its functions do nothing. Their contracts are laws of these definitions.
#![tactic(auto)]

ghost use Rattle.pp_sessions.specs.Laws.{TurnsKeep, StopsKeep, SeenFromOpening};

/// What a session promises whose last turn ended, and one whose disk refused a write or a sync; and as what its disk is seen from the
/// opening on.
pub fn laws_of_sessions()
    ensures turns { TurnsKeep }
    ensures stops { StopsKeep }
    ensures seen { SeenFromOpening }
{}
