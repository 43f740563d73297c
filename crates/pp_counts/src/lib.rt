//! What a peer counts: how often each of these happened. Nothing here takes memory.
#![tactic(auto)]

ghost use Rattle.pp_counts.specs.Counts.{NotesRaiseOneCount, NotesAddUp};

mod counts;
mod note;

pub use counts::Counts;
pub use note::Note;

/// Notes and their counts.
pub fn laws_of_counts()
    ensures one { NotesRaiseOneCount }
    ensures added { NotesAddUp }
{}
