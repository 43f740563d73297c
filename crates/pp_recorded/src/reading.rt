//! The messages of datagrams.

ghost use Rattle.std.specs.Prelude.{◌≡◌, ℕ, ◌≤◌, [], length, take, option_map, MatchOption};
ghost use Rattle.std.specs.List.{list_any};
ghost use Rattle.std.specs.Int.{w32, from_be_bytes};
ghost use Rattle.pp_terms.specs.format.Messages as terms;
ghost use Rattle.pp_terms.specs.format.Descriptor as descriptors;
ghost use Rattle.pp_traffic.specs.Story as stories;
ghost use Rattle.pp_traffic.specs.Life as lives;
ghost use Rattle.pp_traffic.specs.Plain.{is_handshake};
ghost use Rattle.pp_promises.specs.Answered.{is_of};
ghost use Rattle.pp_options.specs.Views.{options_of};
ghost use Rattle.pp_wire.specs.Views.{message_of};
ghost use Rattle.pp_recorded.specs.Faults.{fault_from};
ghost use Rattle.pp_recorded.specs.Parts.{all, rest, StandsAt, first_shake};

use pp_options::Options;
use pp_tree::Descriptor;
use pp_wire::{Message, Span, Step, next};

fn number_of(bytes: &[u8]) -> u32
    requires { 4 ≤ length bytes.now }
    ensures { result ≡ from_be_bytes w32 (take 4 bytes.now) }
{
    let (front, _) = bytes.split_at(4);
    u32::from_be_bytes([front[0], front[1], front[2], front[3]])
}

/// The channel number of a datagram, where it has four bytes.
#[tactic(auto, using(pp_terms::proofs::MovedSteps::channel_none, crate::proofs::Messages::channel_some))]
pub fn channel_of(bytes: &[u8]) -> Option<u32>
    ensures { (d : descriptors.Descriptor) → (terms.datagram d.method d.chunk bytes.now).channel ≡ result }
{
    if bytes.len() < 4 {
        return None;
    }
    Some(number_of(bytes))
}

/// Where its messages begin.
pub fn first_place(bytes: &[u8]) -> usize
    ensures within { result ≤ length bytes.now }
    ensures all { (d : descriptors.Descriptor) → all d bytes.now ≡ rest d bytes.now result }
    ensures fault { (d : descriptors.Descriptor) → (terms.datagram d.method d.chunk bytes.now).messages.fault ≡ fault_from d bytes.now result }
{
    bytes.len().min(4)
}

/// Where there are none.
pub fn nowhere(bytes: &[u8]) -> usize
    ensures within { result ≤ length bytes.now }
    ensures none { (d : descriptors.Descriptor) → rest d bytes.now result ≡ [] }
{
    bytes.len()
}

/// The message at a place, and the place behind it; none at the end or before a fault.
pub fn message_at<'a>(
    descriptor: &Descriptor,
    bytes: &'a [u8],
    at: usize,
) -> Option<(Message<'a>, usize)>
    requires { at ≤ length bytes.now }
    ensures { MatchOption result (rest descriptor.now bytes.now at ≡ [])
        (λ x. StandsAt descriptor.now bytes.now at (message_of x.0) x.1) }
{
    match next(bytes, at, descriptor.method(), descriptor.chunk()) {
        Step::Message { message, next } => Some((message, next)),
        Step::End => None,
        Step::Cut(_) => None,
    }
}

/// The source channel and the options of the handshake with which it begins.
pub fn first_shake<'a>(descriptor: &Descriptor, bytes: &'a [u8]) -> Option<(u32, Options<'a>)>
    ensures { option_map (λ x. (x.0, options_of x.1)) result ≡ first_shake (all descriptor.now bytes.now) }
{
    match message_at(descriptor, bytes, first_place(bytes)) {
        Some((message, _)) => match message {
            Message::Handshake { source, options } => Some((source, options)),
            _ => None,
        },
        None => None,
    }
}

/// Whether it is a handshake of that source channel.
pub fn is_from<'m>(number: u32, message: &'m Message<'m>) -> bool
    ensures { result ≡ is_of number (message_of message.now) }
{
    match *message {
        Message::Handshake { source, .. } => source == number,
        _ => false,
    }
}

pub fn is_handshake<'m>(message: &'m Message<'m>) -> bool
    ensures { result ≡ is_handshake (message_of message.now) }
{
    match *message {
        Message::Handshake { .. } => true,
        _ => false,
    }
}

/// The place behind the first handshake of that source channel, or the end.
pub fn behind(descriptor: &Descriptor, bytes: &[u8], number: u32) -> usize
    ensures within { result ≤ length bytes.now }
    ensures rest { rest descriptor.now bytes.now result ≡ stories.behind number (all descriptor.now bytes.now) }
{
    let mut at = first_place(bytes);
    'messages: while let Some((message, next)) = message_at(descriptor, bytes, at) {
        at = next;
        if is_from(number, &message) {
            return at;
        }
    }
    at
}

/// Whether a handshake is among the messages from a place on.
pub fn has_handshake(descriptor: &Descriptor, bytes: &[u8], start: usize) -> bool
    requires { start ≤ length bytes.now }
    ensures { result ≡ list_any is_handshake (rest descriptor.now bytes.now start) }
{
    let mut at = start;
    'messages: while let Some((message, next)) = message_at(descriptor, bytes, at) {
        if is_handshake(&message) {
            return true;
        }
        at = next;
    }
    false
}

/// Whether a closing handshake is among the messages.
pub fn closes(descriptor: &Descriptor, bytes: &[u8]) -> bool
    ensures { result ≡ lives.closes (all descriptor.now bytes.now) }
{
    let mut at = first_place(bytes);
    'messages: while let Some((message, next)) = message_at(descriptor, bytes, at) {
        if is_from(0, &message) {
            return true;
        }
        at = next;
    }
    false
}
