//! Recordings: the traffic and the final book of one session as a text, how it is written and how it is read.
#![tactic(auto)]

ghost use Rattle.pp_recording.specs.Laws.{TextDetermines};

mod draft;
mod lines;
mod parts;
mod reading;
mod recording;
mod session;
mod spelling;
mod writing;

pub use reading::{ReadFault, read};
pub use recording::{Entry, Recording};
pub use session::{SessionFault, of_session};
pub use writing::write;

/// A text is that of one recording at most, so `read` of what `write` gave is the same recording.
#[tactic(auto, using(crate::proofs::Partings::text_determines))]
pub fn laws_of_recordings()
    ensures { TextDetermines }
{}
