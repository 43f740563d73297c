//! Runs of chunk numbers that the messages of a recorded list don't tell apart, and the greatest number that they name.

ghost use Rattle.std.specs.Prelude.{◌≡◌, ◌==◌, ◌≤◌, ℕ, length, max};
ghost use Rattle.std.specs.List.{AllByRecursion};
ghost use Rattle.pp_terms.specs.tree.Range.{within};
ghost use Rattle.pp_wire.specs.Views.{span_of, message_of};
ghost use Rattle.pp_recorded.specs.Entries.{past, record_of};
ghost use Rattle.pp_recorded.specs.Parts.{all};
ghost use Rattle.pp_audit.specs.Alike as terms;
ghost use Rattle.pp_audit.specs.Alike.{IsAlike, AreAlikeIn, AreAlike};

use pp_options::Options;
use pp_recorded::entry::{Entry, bytes_of};
use pp_recorded::reading::{first_place, message_at};
use pp_tree::Descriptor;
use pp_wire::{Message, Span};

// The greatest number that the message names, or 0.
fn top_in<'m>(message: &'m Message<'m>) -> u64
    ensures { result ≡ terms.top_in (message_of message.now) }
{
    match *message {
        Message::Data { chunk, .. } => chunk,
        Message::Ack { span, .. } => span.last,
        Message::Have { span } => span.last,
        Message::Request { span } => span.last,
        Message::Cancel { span } => span.last,
        _ => 0,
    }
}

fn top_of(descriptor: &Descriptor, bytes: &[u8]) -> u64
    ensures { result ≡ terms.top_of (all descriptor.now bytes.now) }
{
    let mut top = 0;
    let mut at = first_place(bytes);
    'messages: while let Some((message, next)) = message_at(descriptor, bytes, at) {
        top = top_in(&message).max(top);
        at = next;
    }
    top
}

/// The greatest number that a message of the entries names, or 0.
pub(crate) fn top<'m>(descriptor: &Descriptor, entries: &'m [Entry<'m>]) -> u64
    ensures { result ≡ terms.top descriptor.now (past entries.now) }
{
    let mut top = 0;
    for entry in entries {
        top = top_of(descriptor, bytes_of(entry)).max(top);
    }
    top
}

// The end of a run of numbers from one on, all of which the span has or none, up to another end.
fn span_end(span: Span, at: u64, end: u64) -> u64
    requires { at ≤ end }
    ensures low { at ≤ result }
    ensures high { result ≤ end }
    ensures same { (j : ℕ) → at ≤ j → j ≤ result → within (span_of span) at ≡ within (span_of span) j }
{
    if at < span.first {
        end.min(span.first - 1)
    } else if at <= span.last {
        end.min(span.last)
    } else {
        end
    }
}

// The same of one number.
fn chunk_end(chunk: u64, at: u64, end: u64) -> u64
    requires { at ≤ end }
    ensures low { at ≤ result }
    ensures high { result ≤ end }
    ensures same { (j : ℕ) → at ≤ j → j ≤ result → (chunk == at) ≡ (chunk == j) }
{
    if at < chunk {
        end.min(chunk - 1)
    } else if at == chunk {
        at
    } else {
        end
    }
}

// The same of what a message names.
fn message_end<'m>(message: &'m Message<'m>, at: u64, end: u64) -> u64
    requires { at ≤ end }
    ensures low { at ≤ result }
    ensures high { result ≤ end }
    ensures same { (j : ℕ) → at ≤ j → j ≤ result → IsAlike at j (message_of message.now) }
{
    match *message {
        Message::Data { chunk, .. } => chunk_end(chunk, at, end),
        Message::Ack { span, .. } => span_end(span, at, end),
        Message::Have { span } => span_end(span, at, end),
        Message::Request { span } => span_end(span, at, end),
        Message::Cancel { span } => span_end(span, at, end),
        _ => end,
    }
}

// The same of the messages of a datagram.
fn datagram_end(descriptor: &Descriptor, bytes: &[u8], at: u64, end: u64) -> u64
    requires { at ≤ end }
    ensures low { at ≤ result }
    ensures high { result ≤ end }
    ensures same { (j : ℕ) → at ≤ j → j ≤ result → AllByRecursion (IsAlike at j) (all descriptor.now bytes.now) }
{
    let mut end = end;
    let mut place = first_place(bytes);
    'messages: while let Some((message, next)) = message_at(descriptor, bytes, place) {
        end = message_end(&message, at, end);
        place = next;
    }
    end
}

/// The end of a run of numbers, from one on up to another end, that the messages of the entries don't tell apart.
pub(crate) fn run_end<'m>(
    descriptor: &Descriptor,
    entries: &'m [Entry<'m>],
    at: u64,
    end: u64,
) -> u64
    requires { at ≤ end }
    ensures low { at ≤ result }
    ensures high { result ≤ end }
    ensures same { (j : ℕ) → at ≤ j → j ≤ result → AreAlike descriptor.now at j (past entries.now) }
{
    let mut end = end;
    for entry in entries {
        end = datagram_end(descriptor, bytes_of(entry), at, end);
    }
    end
}
