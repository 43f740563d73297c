//! What one entry of a recorded list adds to a channel's story.

ghost use Rattle.std.specs.Prelude.{◌≡◌, ◌≤◌, List, length, OnOk, OnErr};
ghost use Rattle.pp_traffic.specs.Story.{Line, hear, say, told};
ghost use Rattle.pp_recorded.specs.Entries.{life_of, record_of};
ghost use Rattle.pp_recorded.specs.Parts.{rest};
ghost use Rattle.pp_story.specs.Stories.{StandsFor};

use crate::story::Story;
use pp_recorded::entry::{Entry, Life, bytes_of};
use pp_recorded::reading::message_at;
use pp_recorded::standing::{heard_from, said_from};
use pp_tree::Descriptor;
use pp_wire::Message;
use std::alloc::{AllocError, Global};

// The messages from a place on came.
fn hear_all(story: &mut Story, descriptor: &Descriptor, bytes: &[u8], start: usize, now: u64)
    requires { start ≤ length bytes.now }
    ensures { (s : List Line) → StandsFor story.old descriptor.now s
        → StandsFor story.new descriptor.now (hear now (rest descriptor.now bytes.now start) s) }
{
    let mut at = start;
    'messages: while let Some((message, next)) = message_at(descriptor, bytes, at) {
        story.hear(now, &message);
        at = next;
    }
}

// The messages from a place on were sent.
fn say_all(
    story: &mut Story,
    descriptor: &Descriptor,
    bytes: &[u8],
    start: usize,
    now: u64,
) -> Result<(), AllocError>
    requires { start ≤ length bytes.now }
    ensures whole { OnOk result ((s : List Line) → StandsFor story.old descriptor.now s
        → StandsFor story.new descriptor.now (say now (rest descriptor.now bytes.now start) s)) }
    ensures cut { OnErr result ((s : List Line) → StandsFor story.old descriptor.now s
        → (t : List Line) × StandsFor story.new descriptor.now t) }
{
    let mut at = start;
    'messages: while let Some((message, next)) = message_at(descriptor, bytes, at) {
        story.say(now, &message)?;
        at = next;
    }
    Ok(())
}

/// Adds an entry to the story of a channel: the messages of it that lie on the channel, with the moment now, and where it is
/// no datagram that was sent, the end of a wait. Where memory runs out, the story has some of the messages.
pub fn follow<'m>(
    story: &mut Story,
    descriptor: &Descriptor,
    life: Life,
    is_opening: bool,
    now: u64,
    entry: &'m Entry<'m>,
) -> Result<(), AllocError>
    ensures whole { OnOk result ((s : List Line) → StandsFor story.old descriptor.now s
        → StandsFor story.new descriptor.now (told descriptor.now (life_of life) is_opening now (record_of entry.now) s)) }
    ensures cut { OnErr result ((s : List Line) → StandsFor story.old descriptor.now s
        → (t : List Line) × StandsFor story.new descriptor.now t) }
{
    let bytes = bytes_of(entry);
    match *entry {
        Entry::Received { .. } => {
            let start = heard_from(descriptor, life, is_opening, entry);
            hear_all(story, descriptor, bytes, start, now);
            story.end_wait(now);
            Ok(())
        }
        Entry::Quiet { .. } => {
            story.end_wait(now);
            Ok(())
        }
        Entry::Sent { .. } => {
            let start = said_from(descriptor, life, entry);
            say_all(story, descriptor, bytes, start, now)
        }
    }
}
