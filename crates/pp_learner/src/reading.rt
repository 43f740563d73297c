//! The messages of a datagram, read on a proven channel.

ghost use Rattle.std.specs.Prelude.{◌≡◌, ◌≤◌, Some, length};
ghost use Rattle.pp_terms.specs.tree.Content.{IsChunkSize};
ghost use Rattle.pp_terms.specs.format.Descriptor.{Descriptor};
ghost use Rattle.pp_wire.specs.Views.{message_of};
ghost use Rattle.pp_targets.specs.Names.{name_of};
ghost use Rattle.pp_learner.specs.Rows.{heard, noted, note_of, size_of, size_in};
ghost use Rattle.pp_learner.specs.Reading.{is_closing, IsPiece, IsProofIn, Tells, after_some, messages_from, read_from, learned_in};

use crate::row::Row;
use pp_counts::{Counts, Note};
use pp_targets::{Learned, SwarmName};
use pp_tree::Descriptor;
use pp_wire::{Message, Step, next};

/// What reading the messages of a datagram came to.
#[derive(Clone, Copy, Debug, PartialEq, Eq)]
pub enum Ending {
    /// All were read, up to the end or to a faulty one.
    Read,
    /// One of them closes the channel.
    Closed,
    /// One of them tells the size.
    Learned(Descriptor),
}

impl Ending {
    /// The size that was learned.
    pub fn learned(self) -> Option<Descriptor>
        ensures { result ≡ learned_in self }
    {
        match self {
            Ending::Learned(size) => Some(size),
            Ending::Read | Ending::Closed => None,
        }
    }
}

// Whether a message closes the channel on which it comes.
fn is_closing<'m>(message: &'m Message<'m>) -> bool
    ensures { result ≡ is_closing (message_of message.now) }
{
    match *message {
        Message::Handshake { source, .. } => source == 0,
        _ => false,
    }
}

// What is counted of a DATA.
fn note_of(weighed: &Option<Learned>) -> Option<Note>
    ensures { result ≡ note_of weighed.now }
{
    match *weighed {
        None => Some(Note::Outside),
        Some(Learned::Size(_)) => None,
        Some(Learned::Missing(_)) => Some(Note::Missing),
        Some(Learned::SixtyFour | Learned::Wrong { .. }) => Some(Note::Wrong),
    }
}

// The size that a DATA tells.
fn size_of(weighed: &Option<Learned>) -> Option<Descriptor>
    ensures { result ≡ size_of weighed.now }
{
    match weighed {
        Some(Learned::Size(size)) => Some(*size),
        Some(Learned::Missing(_) | Learned::SixtyFour | Learned::Wrong { .. }) | None => None,
    }
}

/// Something is counted, or nothing.
pub fn count(counts: &mut Counts, note: Option<Note>)
    ensures { counts.new ≡ after_some note counts.old }
{
    match note {
        Some(note) => counts.note(note),
        None => {}
    }
}

// A message that doesn't close its channel is heard. Answers the size that it tells.
fn take<'m>(
    row: &mut Row,
    counts: &mut Counts,
    name: &SwarmName,
    message: &'m Message<'m>,
) -> Option<Descriptor>
    requires size { IsChunkSize name.now.chunk }
    requires piece { IsPiece name.now.chunk (message_of message.now) }
    ensures learned { result ≡ size_in (name_of name.now) (message_of message.now) row.old }
    ensures proof { (e : Descriptor) → result ≡ Some e → IsProofIn (name_of name.now) e (message_of message.now) row.old }
    ensures row { row.new ≡ heard (message_of message.now) row.old }
    ensures counts { counts.new ≡ after_some (noted (name_of name.now) (message_of message.now) row.old) counts.old }
{
    match *message {
        Message::Data { chunk, bytes, .. } => {
            let weighed = row.weigh(name, chunk, bytes);
            count(counts, note_of(&weighed));
            size_of(&weighed)
        }
        _ => {
            let noted = row.hear(message);
            count(counts, noted);
            None
        }
    }
}

/// The messages of a datagram are read on a channel, one after the other, up to one that closes it or tells the size of the
/// content. What is behind that, or behind a faulty message, isn't read (RFC 7574, section 3).
pub fn read(row: &mut Row, counts: &mut Counts, name: &SwarmName, bytes: &[u8]) -> Ending
    requires size { IsChunkSize name.now.chunk }
    requires within { 4 ≤ length bytes.now }
    ensures exact { read_from (name_of name.now) bytes.now 4 row.old counts.old
        ≡ record { row = row.new; counts = counts.new; ending = result } }
    ensures tells { (e : Descriptor) → result ≡ Ending.Learned e
        → Tells (name_of name.now) e (messages_from (name_of name.now) bytes.now 4).read row.old }
{
    let mut at = 4;
    'messages: loop {
        match next(bytes, at, name.method, name.chunk) {
            Step::Message { message, next } => {
                if is_closing(&message) {
                    return Ending::Closed;
                }
                if let Some(size) = take(row, counts, name, &message) {
                    return Ending::Learned(size);
                }
                at = next;
            }
            Step::End => return Ending::Read,
            Step::Cut(_) => {
                counts.note(Note::Cut);
                return Ending::Read;
            }
        }
    }
}
