//! Questions on what was said on a channel.

ghost use Rattle.std.specs.Prelude.{◌≡◌, ◌^◌, ◌<◌, ◌≤◌, ◌==◌, [], length};
ghost use Rattle.pp_terms.specs.tree.Range as ranges;
ghost use Rattle.pp_terms.specs.format.Descriptor.{chunks_of};
ghost use Rattle.pp_traffic.specs.Past as traffic;
ghost use Rattle.pp_traffic.specs.Asking as asking;
ghost use Rattle.pp_traffic.specs.Hashes as hashes;
ghost use Rattle.pp_traffic.specs.Story as stories;
ghost use Rattle.pp_tree.specs.Node.{node_of};
ghost use Rattle.pp_wire.specs.Views.{span_of, message_of};
ghost use Rattle.pp_recorded.specs.Entries.{past, life_of, record_of};
ghost use Rattle.pp_recorded.specs.Parts.{rest};
ghost use Rattle.pp_recorded.specs.Standing as terms;

use crate::entry::{Entry, Life, bytes_of, goes_to};
use crate::nodes::tells;
use crate::reading::{behind, first_place, message_at, nowhere};
use crate::records::{comes_on, greets, is_for, second_place};
use pp_options::Options;
use pp_tree::{Descriptor, Node};
use pp_wire::{Message, Span};

/// Whether a request of a chunk is outstanding, whether the peer has told that it knows a node.
#[derive(Clone, Copy)]
pub enum Question {
    Asked(u64),
    Told(Node),
}

/// Whether a choke stands, and the answer to a question.
#[derive(Clone, Copy)]
pub struct Standing {
    pub choked: bool,
    pub found: bool,
}

pub const NONE: Standing = Standing {
    choked: false,
    found: false,
};

/// Whether the chunk lies in the span.
pub fn within(span: Span, chunk: u64) -> bool
    ensures { result ≡ ranges.within (span_of span) chunk }
{
    span.first <= chunk && chunk <= span.last
}

/// The request of a chunk behind a message that came.
pub fn asked_by<'m>(chunk: u64, choked: bool, message: &'m Message<'m>, asked: bool) -> bool
    ensures { result ≡ asking.asked_by chunk choked (message_of message.now) asked }
{
    match *message {
        Message::Request { span } => (within(span, chunk) && !choked) || asked,
        Message::Cancel { span } => !within(span, chunk) && asked,
        _ => asked,
    }
}

/// And behind one that was sent.
pub fn asked_after<'m>(chunk: u64, message: &'m Message<'m>, asked: bool) -> bool
    ensures { result ≡ asking.asked_after chunk (message_of message.now) asked }
{
    match *message {
        Message::Data { chunk: sent, .. } => sent != chunk && asked,
        Message::Choke => false,
        _ => asked,
    }
}

// Whether a message tells that the peer knows the node.
fn told_by<'m>(chunks: u32, node: Node, message: &'m Message<'m>) -> bool
    requires some { 0 < chunks }
    requires most { chunks ≤ 2 ^ 20 }
    ensures { result ≡ hashes.told_by chunks (node_of node) (message_of message.now) }
{
    match *message {
        Message::Ack { span, .. } | Message::Have { span } => tells(chunks, span, node),
        _ => false,
    }
}

/// Whether a choke stands behind a message of who chokes.
pub fn choked_by<'m>(message: &'m Message<'m>, choked: bool) -> bool
    ensures { result ≡ asking.choked_by (message_of message.now) choked }
{
    match *message {
        Message::Choke => true,
        Message::Unchoke => false,
        _ => choked,
    }
}

fn found_by<'m>(
    chunks: u32,
    question: Question,
    choked: bool,
    message: &'m Message<'m>,
    found: bool,
) -> bool
    requires some { 0 < chunks }
    requires most { chunks ≤ 2 ^ 20 }
    ensures { result ≡ terms.found_by chunks question choked (message_of message.now) found }
{
    match question {
        Question::Asked(chunk) => asked_by(chunk, choked, message, found),
        Question::Told(node) => told_by(chunks, node, message) || found,
    }
}

fn found_after<'m>(question: Question, message: &'m Message<'m>, found: bool) -> bool
    ensures { result ≡ terms.found_after question (message_of message.now) found }
{
    match question {
        Question::Asked(chunk) => asked_after(chunk, message, found),
        Question::Told(_) => found,
    }
}

// Behind the messages from a place on, which came.
fn hear(
    descriptor: &Descriptor,
    question: Question,
    bytes: &[u8],
    start: usize,
    standing: Standing,
) -> Standing
    requires { start ≤ length bytes.now }
    ensures { result ≡ terms.hear_all (chunks_of descriptor.now) question (rest descriptor.now bytes.now start) standing }
{
    let chunks = descriptor.chunks();
    let mut standing = standing;
    let mut at = start;
    'messages: while let Some((message, next)) = message_at(descriptor, bytes, at) {
        standing.found = found_by(chunks, question, standing.choked, &message, standing.found);
        at = next;
    }
    standing
}

// Behind those that were sent.
fn say(
    descriptor: &Descriptor,
    question: Question,
    bytes: &[u8],
    start: usize,
    standing: Standing,
) -> Standing
    requires { start ≤ length bytes.now }
    ensures { result ≡ terms.say_all question (rest descriptor.now bytes.now start) standing }
{
    let mut standing = standing;
    let mut at = start;
    'messages: while let Some((message, next)) = message_at(descriptor, bytes, at) {
        standing = Standing {
            choked: choked_by(&message, standing.choked),
            found: found_after(question, &message, standing.found),
        };
        at = next;
    }
    standing
}

/// Where the messages begin that came on the channel.
pub fn heard_from<'m>(
    descriptor: &Descriptor,
    life: Life,
    is_opening: bool,
    entry: &'m Entry<'m>,
) -> usize
    ensures within { result ≤ length (traffic.bytes_of (record_of entry.now)) }
    ensures rest { rest descriptor.now (traffic.bytes_of (record_of entry.now)) result
        ≡ stories.heard_in descriptor.now (life_of life) is_opening (record_of entry.now) }
{
    let bytes = bytes_of(entry);
    if is_opening && !life.is_dialled && greets(descriptor, life, entry) {
        return second_place(descriptor, bytes);
    }
    if comes_on(descriptor, life, entry) {
        return first_place(bytes);
    }
    nowhere(bytes)
}

/// Where the messages begin that were sent on the channel.
pub fn said_from<'m>(descriptor: &Descriptor, life: Life, entry: &'m Entry<'m>) -> usize
    ensures within { result ≤ length (traffic.bytes_of (record_of entry.now)) }
    ensures rest { rest descriptor.now (traffic.bytes_of (record_of entry.now)) result
        ≡ stories.said_in descriptor.now (life_of life) (record_of entry.now) }
{
    let bytes = bytes_of(entry);
    if !goes_to(life.address, entry) {
        return nowhere(bytes);
    }
    if is_for(life.remote, bytes) {
        return first_place(bytes);
    }
    if is_for(0, bytes) {
        return behind(descriptor, bytes, life.local);
    }
    nowhere(bytes)
}

// Behind an entry of the channel.
fn after_told<'m>(
    descriptor: &Descriptor,
    question: Question,
    life: Life,
    is_opening: bool,
    entry: &'m Entry<'m>,
    standing: Standing,
) -> Standing
    ensures { result ≡ terms.after_told descriptor.now question (life_of life) is_opening (record_of entry.now) standing }
{
    let bytes = bytes_of(entry);
    match *entry {
        Entry::Received { .. } => {
            let start = heard_from(descriptor, life, is_opening, entry);
            hear(descriptor, question, bytes, start, standing)
        }
        Entry::Quiet { .. } => standing,
        Entry::Sent { .. } => {
            let start = said_from(descriptor, life, entry);
            say(descriptor, question, bytes, start, standing)
        }
    }
}

/// Behind the entry at a place, from another one on.
pub fn after_entry<'m>(
    descriptor: &Descriptor,
    question: Question,
    life: Life,
    from: usize,
    place: usize,
    entry: &'m Entry<'m>,
    standing: Standing,
) -> Standing
    ensures { result ≡ terms.after_record descriptor.now question (life_of life) from place (record_of entry.now) standing }
{
    if from <= place {
        after_told(
            descriptor,
            question,
            life,
            life.opening == place,
            entry,
            standing,
        )
    } else {
        NONE
    }
}

/// How it stands at the end of the entries, by what was said from a place on.
#[tactic(auto, using(crate::proofs::Standings::at_first))]
pub fn standing_since<'m>(
    descriptor: &Descriptor,
    question: Question,
    life: Life,
    from: usize,
    entries: &'m [Entry<'m>],
) -> Standing
    ensures { result ≡ terms.standing_of (chunks_of descriptor.now) question
        (terms.story_since from descriptor.now (life_of life) (past entries.now)) }
{
    let mut standing = NONE;
    for (place, entry) in entries.iter().enumerate() {
        standing = after_entry(descriptor, question, life, from, place, entry, standing);
    }
    standing
}
