//! Sorts of messages, and whether a datagram has one of a sort.

ghost use Rattle.std.specs.Prelude.{◌≡◌, ◌≤◌, length, take};
ghost use Rattle.std.specs.List.{list_any};
ghost use Rattle.pp_traffic.specs.Plain.{is_handshake};
ghost use Rattle.pp_promises.specs.OwnSide.{has_in, names_in};
ghost use Rattle.pp_promises.specs.Announced as announced;
ghost use Rattle.pp_promises.specs.Answered.{is_choke};
ghost use Rattle.pp_wire.specs.Views.{message_of};
ghost use Rattle.pp_recorded.specs.Parts.{all, rest};
ghost use Rattle.pp_recorded.specs.Sorts.{is_request, announces_in, sort_of};

use crate::reading::{first_place, is_from, is_handshake, message_at};
use crate::standing::within;
use pp_options::Options;
use pp_tree::Descriptor;
use pp_wire::{Message, Span};

/// What a message can be.
#[derive(Clone, Copy)]
pub enum Sort {
    Handshake,
    /// A handshake of a source channel.
    HandshakeOf(u32),
    Choke,
    Request,
    /// A REQUEST that names a chunk; so of HAVE, ACK and DATA.
    RequestOf(u64),
    HaveOf(u64),
    AckOf(u64),
    DataOf(u64),
    /// An ACK or a HAVE of a chunk.
    NewsOf(u64),
}

fn is_choke<'m>(message: &'m Message<'m>) -> bool
    ensures { result ≡ is_choke (message_of message.now) }
{
    match *message {
        Message::Choke => true,
        _ => false,
    }
}

fn is_request<'m>(message: &'m Message<'m>) -> bool
    ensures { result ≡ is_request (message_of message.now) }
{
    match *message {
        Message::Request { .. } => true,
        _ => false,
    }
}

fn names<'m>(chunk: u64, message: &'m Message<'m>) -> bool
    ensures { result ≡ names_in chunk (message_of message.now) }
{
    match *message {
        Message::Request { span } => within(span, chunk),
        _ => false,
    }
}

fn has<'m>(chunk: u64, message: &'m Message<'m>) -> bool
    ensures { result ≡ has_in chunk (message_of message.now) }
{
    match *message {
        Message::Have { span } => within(span, chunk),
        _ => false,
    }
}

fn acknowledges<'m>(chunk: u64, message: &'m Message<'m>) -> bool
    ensures { result ≡ announced.acknowledges chunk (message_of message.now) }
{
    match *message {
        Message::Ack { span, .. } => within(span, chunk),
        _ => false,
    }
}

fn brings<'m>(chunk: u64, message: &'m Message<'m>) -> bool
    ensures { result ≡ announced.is_data chunk (message_of message.now) }
{
    match *message {
        Message::Data { chunk: brought, .. } => brought == chunk,
        _ => false,
    }
}

fn announces<'m>(chunk: u64, message: &'m Message<'m>) -> bool
    ensures { result ≡ announces_in chunk (message_of message.now) }
{
    match *message {
        Message::Ack { span, .. } => within(span, chunk),
        Message::Have { span } => within(span, chunk),
        _ => false,
    }
}

// Whether the message is of that sort.
fn is_sort<'m>(sort: Sort, message: &'m Message<'m>) -> bool
    ensures { result ≡ sort_of sort (message_of message.now) }
{
    match sort {
        Sort::Handshake => is_handshake(message),
        Sort::HandshakeOf(number) => is_from(number, message),
        Sort::Choke => is_choke(message),
        Sort::Request => is_request(message),
        Sort::RequestOf(chunk) => names(chunk, message),
        Sort::HaveOf(chunk) => has(chunk, message),
        Sort::AckOf(chunk) => acknowledges(chunk, message),
        Sort::DataOf(chunk) => brings(chunk, message),
        Sort::NewsOf(chunk) => announces(chunk, message),
    }
}

/// Whether one of that sort is among the messages from a place on.
pub fn has_sort(sort: Sort, descriptor: &Descriptor, bytes: &[u8], start: usize) -> bool
    requires { start ≤ length bytes.now }
    ensures { result ≡ list_any (sort_of sort) (rest descriptor.now bytes.now start) }
{
    let mut at = start;
    'messages: while let Some((message, next)) = message_at(descriptor, bytes, at) {
        if is_sort(sort, &message) {
            return true;
        }
        at = next;
    }
    false
}

/// Whether one is among the first messages, so many.
pub fn has_sort_in_front(sort: Sort, descriptor: &Descriptor, bytes: &[u8], count: usize) -> bool
    ensures { result ≡ list_any (sort_of sort) (take count (all descriptor.now bytes.now)) }
{
    let mut at = first_place(bytes);
    let mut left = count;
    'messages: while left > 0 {
        match message_at(descriptor, bytes, at) {
            Some((message, next)) => {
                if is_sort(sort, &message) {
                    return true;
                }
                at = next;
                left -= 1;
            }
            None => return false,
        }
    }
    false
}
