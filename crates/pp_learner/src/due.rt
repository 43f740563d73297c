//! What is due on a channel.

ghost use Rattle.std.specs.Prelude.{◌≡◌};
ghost use Rattle.pp_learner.specs.Sending.{is_handshake};

use pp_draft::{Note, Receiver};

/// What is to be said, and where.
#[derive(Clone, Copy, Debug, PartialEq, Eq)]
pub struct Due {
    pub to: Receiver,
    pub note: Note,
}

/// Whether a note is this peer's handshake.
pub fn is_handshake(note: &Note) -> bool
    ensures { result ≡ is_handshake note.now }
{
    matches!(*note, Note::Handshake { .. })
}
